//! Iterating over the children of an array or object, to the end and one step beyond.

use crate::items::item_text;
use crate::line::{decode_hex, plain_word};
use crate::refusal::Refusal;
use jsonb::{
    ArrayIterator, Error, JsonbItem, ObjectIterator, ObjectKeyIterator, ObjectValueIterator,
    RawJsonb,
};
use std::alloc::Global;

/// Replies with the items of an array.
pub fn array(alloc: Global, word: &[u8]) -> Result<String, Refusal> {
    let bytes = decode_hex(alloc, word)?;
    let Some(mut items) = ArrayIterator::new(RawJsonb::new(&bytes))? else {
        return plain_word(alloc, "none");
    };
    let mut text = head(alloc, items.len())?;
    for item in &mut items {
        push_item(alloc, &mut text, item)?;
    }
    tail(alloc, &text, items.len(), items.next().is_some())
}

/// Replies with the keys of an object.
pub fn keys(alloc: Global, word: &[u8]) -> Result<String, Refusal> {
    let bytes = decode_hex(alloc, word)?;
    let Some(mut keys) = ObjectKeyIterator::new(RawJsonb::new(&bytes))? else {
        return plain_word(alloc, "none");
    };
    let mut text = head(alloc, keys.len())?;
    for key in &mut keys {
        push_item(alloc, &mut text, key)?;
    }
    tail(alloc, &text, keys.len(), keys.next().is_some())
}

/// Replies with the values of an object.
pub fn values(alloc: Global, word: &[u8]) -> Result<String, Refusal> {
    let bytes = decode_hex(alloc, word)?;
    let Some(mut values) = ObjectValueIterator::new(RawJsonb::new(&bytes))? else {
        return plain_word(alloc, "none");
    };
    let mut text = head(alloc, values.len())?;
    for value in &mut values {
        push_item(alloc, &mut text, value)?;
    }
    tail(alloc, &text, values.len(), values.next().is_some())
}

/// Replies with the pairs of an object.
pub fn pairs(alloc: Global, word: &[u8]) -> Result<String, Refusal> {
    let bytes = decode_hex(alloc, word)?;
    let Some(mut pairs) = ObjectIterator::new(RawJsonb::new(&bytes))? else {
        return plain_word(alloc, "none");
    };
    let mut text = head(alloc, pairs.len())?;
    for pair in &mut pairs {
        push_pair(alloc, &mut text, pair)?;
    }
    tail(alloc, &text, pairs.len(), pairs.next().is_some())
}

// The number of children.
fn head(alloc: Global, len: usize) -> Result<String, Refusal> {
    Ok(format!(in alloc; "len {len}")?)
}

// Appends what an iterator yielded: an item, or the error that ended it.
fn push_item(
    alloc: Global,
    text: &mut String,
    item: Result<JsonbItem<'_>, Error>,
) -> Result<(), Refusal> {
    match item {
        Ok(item) => push_part(text, &item_text(alloc, item)?),
        Err(error) => push_error(text, error),
    }
}

// Appends what an iterator yielded: a key with its value, or the error that ended it.
fn push_pair(
    alloc: Global,
    text: &mut String,
    pair: Result<(&str, JsonbItem<'_>), Error>,
) -> Result<(), Refusal> {
    match pair {
        Ok((key, value)) => {
            push_part(text, &hex::encode(alloc, key)?)?;
            text.push_str(" ")?;
            text.push_str(&item_text(alloc, value)?)?;
            Ok(())
        }
        Err(error) => push_error(text, error),
    }
}

fn push_error(text: &mut String, error: Error) -> Result<(), Refusal> {
    push_part(text, "error ")?;
    text.push_str(error.name())?;
    Ok(())
}

fn push_part(text: &mut String, part: &str) -> Result<(), Refusal> {
    text.push_str(" | ")?;
    text.push_str(part)?;
    Ok(())
}

// Appends the length after the end, and whether the iterator yields again after it.
fn tail(alloc: Global, text: &str, len: usize, again: bool) -> Result<String, Refusal> {
    let again = if again { " again" } else { "" };
    Ok(format!(in alloc; "{text} | end {len}{again}")?)
}
