//! Iterates over an array.

ghost use Rattle.std.specs.Prelude.{IsOkAnd, IsSomeAnd};
ghost use Rattle.jsonb.specs.Words.{Tree, Trees, array, tree, Doc, raw_bytes, item_view, IsItemOf};

use jsonb::{ArrayIterator, Error, JsonbItem, RawJsonb};

/// The first item of an array, borrowed from its bytes. `None` for an empty array and for any other
/// document.
pub fn first_item(raw: RawJsonb<'_>) -> Result<Option<JsonbItem<'_>>, Error>
    ensures { (t : Tree) (ts : Trees) → Doc (raw_bytes raw.entry) (array (tree t ts))
        → IsOkAnd result (λ first. IsSomeAnd first (λ item. IsItemOf t (item_view item))) }
{
    match ArrayIterator::new(raw)? {
        Some(mut items) => items.next().transpose(),
        None => Ok(None),
    }
}
