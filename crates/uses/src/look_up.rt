//! Finds the value of a key in the bytes.

ghost use Rattle.std.specs.Prelude.{codes, option_map, IsOkAnd};
ghost use Rattle.jsonb.specs.Words.{Tree, Doc, IsItemFound, value_of_key, raw_bytes, item_view};

use jsonb::{Error, JsonbItem, RawJsonb};

/// The value of the key `name`, borrowed from the document. On a document there is no error.
pub fn name_of(row: RawJsonb<'_>) -> Result<Option<JsonbItem<'_>>, Error>
    ensures { (t : Tree) → Doc (raw_bytes row.entry) t
        → IsOkAnd result (λ item. IsItemFound (value_of_key (codes "name") t)
        (option_map item_view item)) }
{
    row.get_object_value_by_key_name("name", |name, key| name == key)
}
