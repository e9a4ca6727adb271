//! Items and their kinds.

use crate::line::{decode_hex, plain_word};
use crate::refusal::Refusal;
use jsonb::{JsonbItem, JsonbItemType, OwnedJsonb, RawJsonb};
use std::alloc::Global;

/// Replies with the kind read from the bytes.
pub fn item_type(alloc: Global, word: &[u8]) -> Result<String, Refusal> {
    let bytes = decode_hex(alloc, word)?;
    let kind = kind_text(alloc, RawJsonb::new(&bytes).jsonb_item_type()?)?;
    Ok(format!(in alloc; "ok {kind}")?)
}

/// A kind, with the count of an array or object.
pub fn kind_text(alloc: Global, kind: JsonbItemType) -> Result<String, Refusal> {
    match kind {
        JsonbItemType::Null => plain_word(alloc, "null"),
        JsonbItemType::Boolean => plain_word(alloc, "boolean"),
        JsonbItemType::Number => plain_word(alloc, "number"),
        JsonbItemType::String => plain_word(alloc, "string"),
        JsonbItemType::Extension => plain_word(alloc, "extension"),
        JsonbItemType::Array(count) => Ok(format!(in alloc; "array {count}")?),
        JsonbItemType::Object(count) => Ok(format!(in alloc; "object {count}")?),
    }
}

/// Replies with the item that the bytes hold.
pub fn item(alloc: Global, word: &[u8]) -> Result<String, Refusal> {
    let bytes = decode_hex(alloc, word)?;
    let item = JsonbItem::from_raw_jsonb(RawJsonb::new(&bytes))?;
    let text = item_text(alloc, item)?;
    Ok(format!(in alloc; "ok {text}")?)
}

/// The variant of an item, and its bytes as a document.
pub fn item_text(alloc: Global, item: JsonbItem<'_>) -> Result<String, Refusal> {
    let variant = variant_of(&item);
    let owned = OwnedJsonb::from_item(alloc, item)?;
    let bytes = hex::encode(alloc, owned.as_bytes())?;
    Ok(format!(in alloc; "{variant} {bytes}")?)
}

fn variant_of(item: &JsonbItem<'_>) -> &'static str {
    match item {
        JsonbItem::Null => "null",
        JsonbItem::Boolean(_) => "boolean",
        JsonbItem::Number(_) => "number",
        JsonbItem::String(_) => "string",
        JsonbItem::Extension(_) => "extension",
        JsonbItem::Raw(_) => "raw",
        JsonbItem::Owned(_) => "owned",
    }
}
