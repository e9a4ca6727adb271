//! Complete iterations, using only the contracts of the iterators.

ghost use Rattle.std.specs.Prelude.{◌≡◌, IfOk, IfErr, option_map};
ghost use Rattle.uses.specs.Words.{Tree, Doc, raw_bytes, walk_of_items, walk_of_pairs};
ghost use Rattle.uses.specs.Words.{WalksArray, WalksKeys, WalksValues, WalksPairs};
ghost use Rattle.uses.specs.Words.{WalksItems, WalksValueItems, WalksMembers};

use jsonb::{
    ArrayIterator, Error, JsonbItem, ObjectIterator, ObjectKeyIterator, ObjectValueIterator,
    RawJsonb,
};
use std::alloc::Global;

/// The items of an array, in order. `None` for a document of another kind. On a document
/// `OutOfMemory` is the only error.
pub fn array_items<'a>(
    alloc: Global,
    raw: RawJsonb<'a>,
) -> Result<Option<Vec<JsonbItem<'a>>>, Error>
    ensures all { (t : Tree) → Doc (raw_bytes raw.entry) t
        → IfOk result (λ o. WalksArray t (walk_of_items (option_map (λ xs. xs.items) o))) }
    ensures entries { (t : Tree) → Doc (raw_bytes raw.entry) t
        → IfOk result (λ o. WalksItems (raw_bytes raw.entry) t
        (walk_of_items (option_map (λ xs. xs.items) o))) }
    ensures memory { (t : Tree) → Doc (raw_bytes raw.entry) t
        → IfErr result (λ e. e ≡ Error.OutOfMemory) }
{
    let Some(walk) = ArrayIterator::new(raw)? else {
        return Ok(None);
    };
    let items = walk.try_collect(alloc)?;
    Ok(Some(items))
}

/// The keys of an object, in order. `None` for a document of another kind. On a document
/// `OutOfMemory` is the only error.
pub fn object_keys<'a>(
    alloc: Global,
    raw: RawJsonb<'a>,
) -> Result<Option<Vec<JsonbItem<'a>>>, Error>
    ensures all { (t : Tree) → Doc (raw_bytes raw.entry) t
        → IfOk result (λ o. WalksKeys t (walk_of_items (option_map (λ xs. xs.items) o))) }
    ensures memory { (t : Tree) → Doc (raw_bytes raw.entry) t
        → IfErr result (λ e. e ≡ Error.OutOfMemory) }
{
    let Some(walk) = ObjectKeyIterator::new(raw)? else {
        return Ok(None);
    };
    let keys = walk.try_collect(alloc)?;
    Ok(Some(keys))
}

/// The values of an object, in the order of their keys. `None` for a document of another kind. On a
/// document `OutOfMemory` is the only error.
pub fn object_values<'a>(
    alloc: Global,
    raw: RawJsonb<'a>,
) -> Result<Option<Vec<JsonbItem<'a>>>, Error>
    ensures all { (t : Tree) → Doc (raw_bytes raw.entry) t
        → IfOk result (λ o. WalksValues t (walk_of_items (option_map (λ xs. xs.items) o))) }
    ensures entries { (t : Tree) → Doc (raw_bytes raw.entry) t
        → IfOk result (λ o. WalksValueItems (raw_bytes raw.entry) t
        (walk_of_items (option_map (λ xs. xs.items) o))) }
    ensures memory { (t : Tree) → Doc (raw_bytes raw.entry) t
        → IfErr result (λ e. e ≡ Error.OutOfMemory) }
{
    let Some(walk) = ObjectValueIterator::new(raw)? else {
        return Ok(None);
    };
    let values = walk.try_collect(alloc)?;
    Ok(Some(values))
}

/// The keys of an object with their values, in order. `None` for a document of another kind. On a
/// document `OutOfMemory` is the only error.
pub fn object_pairs<'a>(
    alloc: Global,
    raw: RawJsonb<'a>,
) -> Result<Option<Vec<(&'a str, JsonbItem<'a>)>>, Error>
    ensures all { (t : Tree) → Doc (raw_bytes raw.entry) t
        → IfOk result (λ o. WalksPairs t (walk_of_pairs (option_map (λ xs. xs.items) o))) }
    ensures entries { (t : Tree) → Doc (raw_bytes raw.entry) t
        → IfOk result (λ o. WalksMembers (raw_bytes raw.entry) t
        (walk_of_pairs (option_map (λ xs. xs.items) o))) }
    ensures memory { (t : Tree) → Doc (raw_bytes raw.entry) t
        → IfErr result (λ e. e ≡ Error.OutOfMemory) }
{
    let Some(walk) = ObjectIterator::new(raw)? else {
        return Ok(None);
    };
    let pairs = walk.try_collect(alloc)?;
    Ok(Some(pairs))
}
