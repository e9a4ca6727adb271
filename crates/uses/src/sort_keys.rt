//! Sorts a column of byte strings, each checked once.

ghost use Rattle.std.specs.Prelude.{◌≡◌, All, map, IfOk, IsPermutation, IsSorted};
ghost use Rattle.jsonb.specs.SortKey.{sort_bytes};
ghost use Rattle.jsonb.specs.Words.{on, meaning_cmp, meaning_of, key_meaning};

use jsonb::{Error, SortKey};
use std::alloc::Global;

/// The sorted keys of a column: documents by value, and all other bytes after them. `OutOfMemory`
/// if an allocation fails.
pub fn column_order<'a>(alloc: Global, column: &[&'a [u8]]) -> Result<Vec<SortKey<'a>>, Error>
    ensures sorted { IfOk result (λ keys. IsSorted (on key_meaning meaning_cmp) keys.items) }
    ensures all { IfOk result (λ keys. IsPermutation (map (λ b. b.now) column.now)
        (map sort_bytes keys.items)) }
    ensures meaning { IfOk result
        (λ keys. All (λ key. key_meaning key ≡ meaning_of (sort_bytes key)) keys.items) }
{
    let mut keys = Vec::new(alloc);
    for &bytes in column {
        keys.push(SortKey::new(bytes))?;
    }
    keys.sort()?;
    Ok(keys)
}
