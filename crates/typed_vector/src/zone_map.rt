//! Zone maps of a column: the least and the greatest value of each block of rows.

ghost use Rattle.std.specs.Prelude.{◌≡◌, ◌<◌, ◌∷◌, ◌++◌, ◌||◌, ℕ, [], List, IfOk, Some};
ghost use Rattle.std.specs.Prelude.{filter, length, max, not};
ghost use Rattle.std.specs.Bool.{OnFalse};
ghost use Rattle.std.specs.Int.{div_ceil};
ghost use Rattle.std.specs.List.{list_all};
ghost use Rattle.typed_vector.specs.Cells.{cells};
ghost use Rattle.typed_vector.specs.ZoneMap.{AreZones, IsSpan, IsZone, are_set, block_at};
ghost use Rattle.typed_vector.specs.ZoneMap.{cell_values, is_above, is_below, lies_within};
ghost use Rattle.typed_vector.specs.ZoneMap.{set_values};

use crate::vector::Typed;
use std::alloc::{AllocError, Global};

/// The least and the greatest of some values, of which there is one at least.
#[derive(Clone, Copy)]
pub struct Zone<T> {
    pub least: T,
    pub greatest: T,
}

impl<T: Copy + Ord> Zone<T> {
    /// Adds a value.
    pub fn add(&mut self, item: T)
        ensures { (items : List T) → IsSpan T.cmp items self.old
            → IsSpan T.cmp (items ++ item ∷ []) self.new }
    {
        self.least = self.least.min(item);
        self.greatest = self.greatest.max(item);
    }

    /// Whether a value from `low` to `high` may be among the values: exactly unless they are all
    /// below `low`, or all above `high`. If not, none is.
    pub fn may_hold(&self, low: T, high: T) -> bool
        ensures exact { (items : List T) → IsSpan T.cmp items self.now
            → result ≡ not (list_all (is_below T.cmp low) items
            || list_all (is_above T.cmp high) items) }
        ensures none { (items : List T) → IsSpan T.cmp items self.now
            → OnFalse result (filter (lies_within T.cmp low high) items ≡ []) }
    {
        self.greatest >= low && self.least <= high
    }

    /// Whether all values are from `low` to `high`.
    pub fn all_within(&self, low: T, high: T) -> bool
        ensures { (items : List T) → IsSpan T.cmp items self.now
            → result ≡ list_all (lies_within T.cmp low high) items }
    {
        self.least >= low && self.greatest <= high
    }
}

/// The zone map of a column: for each block of `block_rows` rows, where 0 counts as 1, the least
/// and the greatest value, or `None` if no row of the block has a value. The last block may have
/// fewer rows. The number of blocks is known before memory is asked for.
pub fn zones<T: Copy + Ord>(
    alloc: Global,
    column: &Typed<T>,
    block_rows: usize,
) -> Result<Vec<Option<Zone<T>>>, AllocError>
    ensures { IfOk result (λ zones. AreZones T.cmp (max block_rows 1) column.now zones.items) }
{
    let parts = column.parts();
    let block_rows = block_rows.max(1);
    let count = parts.values.len().div_ceil(block_rows);
    let mut zones = Vec::with_capacity(alloc, count)?;
    for index in 0..count {
        let zone = zone_of_block(parts.values, parts.is_set, true, block_rows, index);
        zones.push_reserved(zone);
    }
    Ok(zones)
}

/// The zone of one block of rows, which are given by a value and a flag each: a row has its value
/// if its flag is `set`. `index` counts the blocks of `block_rows` rows; the last may have fewer.
/// `None` if no row of the block has a value.
pub fn zone_of_block<T: Copy + Ord, F: Copy + Eq>(
    values: &[T],
    flags: &[F],
    set: F,
    block_rows: usize,
    index: usize,
) -> Option<Zone<T>>
    requires alike { length flags.now ≡ length values.now }
    requires some { 0 < block_rows }
    requires within { index < div_ceil (length values.now) block_rows }

    // Whatever other bytes the rows have.
    ensures { (rests : List (List ℕ)) → length rests ≡ length values.now
        → IsZone T.cmp (cell_values (block_at block_rows
        (cells values.now (are_set F.eq set flags.now) rests) index)) result }
{
    let start = index * block_rows;
    let end = start + block_rows.min(values.len() - start);
    zone_of(&values[start..end], &flags[start..end], set)
}

// The zone of the values whose flag is `set`.
fn zone_of<T: Copy + Ord, F: Copy + Eq>(values: &[T], flags: &[F], set: F) -> Option<Zone<T>>
    requires { length flags.now ≡ length values.now }
    ensures { IsZone T.cmp (set_values values.now (are_set F.eq set flags.now)) result }
{
    let mut zone = None;
    for (index, item) in values.iter().enumerate() {
        if flags[index] == set {
            zone = Some(with_value(zone, *item));
        }
    }
    zone
}

// The zone of one more value.
fn with_value<T: Copy + Ord>(zone: Option<Zone<T>>, item: T) -> Zone<T>
    ensures { (items : List T) → IsZone T.cmp items zone
        → IsZone T.cmp (items ++ item ∷ []) (Some result) }
{
    match zone {
        Some(mut zone) => {
            zone.add(item);
            zone
        }
        None => Zone {
            least: item,
            greatest: item,
        },
    }
}
