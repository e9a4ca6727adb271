//! Comparing bytes, items, kinds and payloads.

use crate::line::{decode_hex, plain_word};
use crate::refusal::Refusal;
use jsonb::{ExtensionValue, JsonbItem, Number, RawJsonb};
use std::alloc::Global;
use std::cmp::Ordering;

/// Replies with the order of two byte strings, and whether `==` holds.
pub fn cmp(alloc: Global, left: &[u8], right: &[u8]) -> Result<String, Refusal> {
    let left = decode_hex(alloc, left)?;
    let right = decode_hex(alloc, right)?;
    let (left, right) = (RawJsonb::new(&left), RawJsonb::new(&right));
    order_text(alloc, left.cmp(&right), left == right)
}

/// An order, and whether `==` holds.
pub fn order_text(alloc: Global, order: Ordering, is_same: bool) -> Result<String, Refusal> {
    let order = order_word(order);
    let sameness = if is_same { "same" } else { "different" };
    Ok(format!(in alloc; "{order} {sameness}")?)
}

/// Replies with the order of two documents.
pub fn try_cmp(alloc: Global, left: &[u8], right: &[u8]) -> Result<String, Refusal> {
    let left = decode_hex(alloc, left)?;
    let right = decode_hex(alloc, right)?;
    let order = RawJsonb::new(&left).try_cmp(&RawJsonb::new(&right));
    plain_word(alloc, order.map_or("none", order_word))
}

/// Replies with the order of two items.
pub fn item_cmp(alloc: Global, left: &[u8], right: &[u8]) -> Result<String, Refusal> {
    let left = decode_hex(alloc, left)?;
    let right = decode_hex(alloc, right)?;
    let left = JsonbItem::from_raw_jsonb(RawJsonb::new(&left))?;
    let right = JsonbItem::from_raw_jsonb(RawJsonb::new(&right))?;
    plain_word(alloc, order_word(left.cmp(&right)))
}

/// Replies with the order as far as the kinds determine it.
pub fn rank(alloc: Global, left: &[u8], right: &[u8]) -> Result<String, Refusal> {
    let left = decode_hex(alloc, left)?;
    let right = decode_hex(alloc, right)?;
    let left = RawJsonb::new(&left).jsonb_item_type()?;
    let right = RawJsonb::new(&right).jsonb_item_type()?;
    plain_word(alloc, left.rank_cmp(&right).map_or("none", order_word))
}

/// Replies with the order of two numbers by value.
pub fn cmp_number(alloc: Global, left: &[u8], right: &[u8]) -> Result<String, Refusal> {
    let left = decode_hex(alloc, left)?;
    let right = decode_hex(alloc, right)?;
    let left = Number::decode(&left)?;
    let right = Number::decode(&right)?;
    plain_word(alloc, order_word(left.cmp_value(&right)))
}

/// Replies with the order of two extension values.
pub fn cmp_extension(alloc: Global, left: &[u8], right: &[u8]) -> Result<String, Refusal> {
    let left = decode_hex(alloc, left)?;
    let right = decode_hex(alloc, right)?;
    let left = ExtensionValue::decode(&left)?;
    let right = ExtensionValue::decode(&right)?;
    plain_word(alloc, order_word(left.cmp_value(&right)))
}

fn order_word(order: Ordering) -> &'static str {
    match order {
        Ordering::Less => "less",
        Ordering::Equal => "equal",
        Ordering::Greater => "greater",
    }
}
