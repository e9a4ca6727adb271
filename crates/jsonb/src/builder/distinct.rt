//! Building an array of distinct items, with a count for each.

ghost use Rattle.std.specs.Prelude.{◌≡◌, ◌≢◌, ◌⊎◌, ◌↔◌, ◌+◌, ◌<◌, [], true, false, map, is_some};
ghost use Rattle.std.specs.Prelude.{Err, IsSome, IsOk, IfOk, IfErr, OnOk, OnErr};
ghost use Rattle.jsonb.specs.ItemView as items;
ghost use Rattle.jsonb.specs.Words.{Trees, JsonbItem, raw_bytes, owned_bytes, item_view, FitArray};
ghost use Rattle.jsonb.specs.Words.{IsArrayOf, AllMean, IsArrayUpToZeros, Tally, has_equal, Lists};
ghost use Rattle.jsonb.specs.Words.{count_at, SetsCount, count_of, list_with, CountsOneMore};
ghost use Rattle.jsonb.specs.Words.{CountsOneLess, MadeIfFit};

use super::write::array_document;
use crate::item::JsonbItem;
use crate::owned::OwnedJsonb;
use crate::raw::RawJsonb;
use jsonb_value::Error;
use std::alloc::Global;
use std::collections::BTreeMap;
use std::marker::Model;

/// Collects items and builds an array of the distinct ones. Two items are equal if they mean the
/// same value, or are the same bytes that are not a document. The first of equal items is kept in a
/// list, and a count is kept for them.
#[derive(Drop)]
pub struct ArrayDistinctBuilder<'a> {
    list: Vec<JsonbItem<'a>>,
    counts: BTreeMap<JsonbItem<'a>, usize>,
}

impl<'a> Model for ArrayDistinctBuilder<'a> {
    ghost Value = { Tally };

    ghost view = { λ s. record { list = map item_view s.list.items; counts = s.counts.entries } };

    ghost invariant = { λ s. Lists (map item_view s.list.items) s.counts.entries };
}

impl<'a> ArrayDistinctBuilder<'a> {
    /// A builder without items, with room for `capacity` of them in its list. `OutOfMemory` is the
    /// only error.
    pub fn new(alloc: Global, capacity: usize) -> Result<Self, Error>
        ensures list { IfOk result (λ builder. builder.list ≡ []) }
        ensures counts { IfOk result
            (λ builder. (x : JsonbItem) → count_of builder (item_view x) ≡ 0) }
        ensures memory { IfErr result (λ e. e ≡ Error.OutOfMemory) }
    {
        Ok(ArrayDistinctBuilder {
            list: Vec::with_capacity(alloc, capacity)?,
            counts: BTreeMap::new(alloc),
        })
    }

    /// Raises an item's count by one, and appends the item to the list unless the list has an equal
    /// one. `InvalidJsonb` if the count is `usize::MAX`, `OutOfMemory` if an allocation fails.
    /// After an error the builder is unchanged, and the item is dropped.
    #[tactic(auto, using(crate::proofs::Classes::lookup_same, crate::proofs::Classes::equal_same))]
    pub fn push_jsonb_item(&mut self, item: JsonbItem<'a>) -> Result<(), Error>
        ensures list { OnOk result
            (self.new.list ≡ list_with self.old.list (item_view item.entry)) }
        ensures counts { OnOk result (CountsOneMore self.old self.new (item_view item.entry)) }
        ensures unlisted { has_equal self.old.list (item_view item.entry) ≡ false
            → count_of self.old (item_view item.entry) ≡ 0 }
        ensures full { (result ≡ Err Error.InvalidJsonb)
            ↔ (count_of self.old (item_view item.entry) ≡ usize.MAX) }
        ensures err { OnErr result (self.new ≡ self.old) }
        ensures only { IfErr result (λ e. (e ≡ Error.InvalidJsonb) ⊎ (e ≡ Error.OutOfMemory)) }
    {
        match count_in(&self.counts, &item) {
            Some(usize::MAX) => Err(Error::InvalidJsonb),
            Some(count) => set_count(&mut self.counts, item, count + 1),
            None => {
                let key = item.clone(*self.list.allocator())?;
                self.list.try_reserve(1)?;
                set_count(&mut self.counts, key, 1)?;
                self.list.push(item)?;
                Ok(())
            }
        }
    }

    /// Raises the count of a document given by its bytes, as `push_jsonb_item` does for
    /// `JsonbItem::Raw`. `InvalidJsonb` if the count is `usize::MAX`, `OutOfMemory` if an
    /// allocation fails; after an error the builder is unchanged.
    pub fn push_raw_jsonb(&mut self, raw: RawJsonb<'a>) -> Result<(), Error>
        ensures list { OnOk result
            (self.new.list ≡ list_with self.old.list (items.raw (raw_bytes raw.entry))) }
        ensures counts { OnOk result
            (CountsOneMore self.old self.new (items.raw (raw_bytes raw.entry))) }
        ensures unlisted { has_equal self.old.list (items.raw (raw_bytes raw.entry)) ≡ false
            → count_of self.old (items.raw (raw_bytes raw.entry)) ≡ 0 }
        ensures full { (result ≡ Err Error.InvalidJsonb)
            ↔ (count_of self.old (items.raw (raw_bytes raw.entry)) ≡ usize.MAX) }
        ensures err { OnErr result (self.new ≡ self.old) }
        ensures only { IfErr result (λ e. (e ≡ Error.InvalidJsonb) ⊎ (e ≡ Error.OutOfMemory)) }
    {
        self.push_jsonb_item(JsonbItem::Raw(raw))
    }

    /// Lowers the count of an item's equals by one. `None` if their count is 0 or there are none.
    /// The list is unchanged. It allocates nothing.
    #[tactic(auto, using(crate::proofs::Classes::lookup_same, crate::proofs::Classes::equal_same))]
    pub fn pop_jsonb_item(&mut self, item: JsonbItem<'a>) -> Option<()>
        ensures exact { IsSome result ↔ (count_of self.old (item_view item.entry) ≢ 0) }
        ensures list { self.new.list ≡ self.old.list }
        ensures counts { CountsOneLess self.old self.new (item_view item.entry) }
    {
        let count = count_in(&self.counts, &item)?.checked_sub(1)?;
        match set_count(&mut self.counts, item, count) {
            Ok(()) => Some(()),
            // The map has an equal key already, so `insert` allocates nothing.
            Err(_) => unreachable!(),
        }
    }

    /// Lowers the count of a document given by its bytes, as `pop_jsonb_item` does for
    /// `JsonbItem::Raw`. `None` if the count is 0 or there is none. The list is unchanged. It
    /// allocates nothing.
    pub fn pop_raw_jsonb(&mut self, raw: RawJsonb<'a>) -> Option<()>
        ensures exact { IsSome result
            ↔ (count_of self.old (items.raw (raw_bytes raw.entry)) ≢ 0) }
        ensures list { self.new.list ≡ self.old.list }
        ensures counts { CountsOneLess self.old self.new (items.raw (raw_bytes raw.entry)) }
    {
        self.pop_jsonb_item(JsonbItem::Raw(raw))
    }

    /// The array of the list's items, in order of first insertion and whatever their counts. A
    /// scalar is stored as its entry and payload, an array or object whole. `InvalidJsonb`, before
    /// any allocation, if given bytes are not a document, a payload exceeds 268,435,455 bytes, or
    /// there are more than 536,870,911 items; `OutOfMemory` if an allocation fails.
    pub fn build(self) -> Result<OwnedJsonb, Error>
        ensures ok { IfOk result (λ owned. IsArrayOf self.entry.list (owned_bytes owned)) }
        ensures means { IfOk result (λ owned. (ts : Trees) → AllMean self.entry.list ts
            → IsArrayUpToZeros ts (owned_bytes owned)) }
        ensures limits { MadeIfFit (FitArray self.entry.list) result }
    {
        array_document(*self.list.allocator(), &self.list)
    }
}

// The count of the item's equals, if they have one.
fn count_in<'a>(counts: &BTreeMap<JsonbItem<'a>, usize>, item: &JsonbItem<'a>) -> Option<usize>
    ensures { result ≡ count_at counts.now.entries (item_view item.now) }
{
    counts.get(item).copied()
}

// Sets the count of the item's equals. `OutOfMemory` is the only error, and only possible if they
// had no count.
fn set_count<'a>(
    counts: &mut BTreeMap<JsonbItem<'a>, usize>,
    item: JsonbItem<'a>,
    count: usize,
) -> Result<(), Error>
    ensures set { OnOk result
        (SetsCount counts.old.entries counts.new.entries (item_view item.entry) count) }
    ensures err { OnErr result (counts.new.entries ≡ counts.old.entries) }
    ensures exact { is_some (count_at counts.old.entries (item_view item.entry)) ≡ true
        → IsOk result }
    ensures memory { IfErr result (λ e. e ≡ Error.OutOfMemory) }
{
    counts.insert(item, count)?;
    Ok(())
}
