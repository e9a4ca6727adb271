//! What stands for the values of a document where its bytes are shown.

use crate::escape::{shown_chars, text_of_chars};
use jsonb::{Document, Node, RawJsonb, read_header};
use jsonb_codec::constants::{
    ARRAY_CONTAINER_TAG, CONTAINER_TAG, EXTENSION_BINARY, EXTENSION_DATE, EXTENSION_INTERVAL,
    EXTENSION_TAG, EXTENSION_TIMESTAMP, EXTENSION_TIMESTAMP_TZ, SCALAR_CONTAINER_TAG, STRING_TAG,
};
use std::alloc::{AllocError, Global};

// How many characters of a text are shown.
const MAX_SHOWN: usize = 60;

/// An entry: its type and its payload.
#[derive(Clone, Copy)]
pub struct Value<'a> {
    pub type_code: u32,
    pub payload: &'a [u8],
}

/// What stands for a value: of an array or object its kind with the number of items or members, of
/// a scalar its JSON text, after the kind of an extension value. A payload in an older form is
/// named as such.
pub fn value_title(alloc: Global, value: Value<'_>) -> Result<Vec<u8>, AllocError> {
    if value.type_code == CONTAINER_TAG {
        container_title(alloc, value.payload)
    } else {
        scalar_title(alloc, value)
    }
}

// What an array or object is called, with its count.
fn container_title(alloc: Global, bytes: &[u8]) -> Result<Vec<u8>, AllocError> {
    let mut title = Vec::new(alloc);
    if let Ok((kind, count)) = read_header(bytes, 0) {
        title.extend_from_slice(container_name(kind).as_bytes())?;
        title.extend_from_slice(&grouped_number(alloc, count)?)?;
    }
    Ok(title)
}

// What an array or object is called.
fn container_name(kind: u32) -> &'static str {
    if kind == ARRAY_CONTAINER_TAG {
        "array of "
    } else {
        "object of "
    }
}

/// A number in decimal digits, with a comma before each three that others precede.
pub fn grouped_number(alloc: Global, number: usize) -> Result<Vec<u8>, AllocError> {
    let digits = format!(in alloc; "{number}")?;
    grouped_digits(alloc, digits.as_bytes())
}

// Digits with a comma before each three that others precede.
fn grouped_digits(alloc: Global, digits: &[u8]) -> Result<Vec<u8>, AllocError> {
    let mut text = Vec::new(alloc);
    let mut left = digits;
    while let [digit, rest @ ..] = left {
        text.push(*digit)?;
        if !rest.is_empty() && rest.len() % 3 == 0 {
            text.push(b',')?;
        }
        left = rest;
    }
    Ok(text)
}

// The text of a scalar, after the kind of an extension value and before a mark of an older form.
fn scalar_title(alloc: Global, value: Value<'_>) -> Result<Vec<u8>, AllocError> {
    let mut title = Vec::new(alloc);
    push_kind(alloc, &mut title, value)?;
    push_text(alloc, &mut title, value)?;
    push_old_mark(alloc, &mut title, value)?;
    Ok(title)
}

// Appends the kind of an extension value.
fn push_kind(alloc: Global, title: &mut Vec<u8>, value: Value<'_>) -> Result<(), AllocError> {
    if value.type_code == EXTENSION_TAG {
        push_extension_kind(alloc, title, value.payload)
    } else {
        Ok(())
    }
}

// Appends the text of a scalar.
fn push_text(alloc: Global, title: &mut Vec<u8>, value: Value<'_>) -> Result<(), AllocError> {
    let bytes = scalar_document(alloc, value)?;
    let Ok(text) = RawJsonb::new(&bytes).to_string(alloc) else {
        return Err(AllocError);
    };
    title.extend_from_slice(shown_text(alloc, &text)?.as_bytes())?;
    Ok(())
}

// Appends the mark of an older form.
fn push_old_mark(alloc: Global, title: &mut Vec<u8>, value: Value<'_>) -> Result<(), AllocError> {
    let bytes = scalar_document(alloc, value)?;
    if is_old_form(&bytes, value.payload.len()) {
        title.extend_from_slice(b" (old form)")?;
    }
    Ok(())
}

/// A key as a JSON text.
pub fn quoted_key(alloc: Global, key: &[u8]) -> Result<Vec<u8>, AllocError> {
    let value = Value {
        type_code: STRING_TAG,
        payload: key,
    };
    let mut text = Vec::new(alloc);
    push_text(alloc, &mut text, value)?;
    Ok(text)
}

// The document of a scalar.
fn scalar_document(alloc: Global, value: Value<'_>) -> Result<Vec<u8>, AllocError> {
    let mut bytes = Vec::new(alloc);
    bytes.extend_from_slice(&SCALAR_CONTAINER_TAG.to_be_bytes())?;
    let word = word_of(value.type_code, value.payload.len());
    bytes.extend_from_slice(&word.to_be_bytes())?;
    bytes.extend_from_slice(value.payload)?;
    Ok(bytes)
}

/// The entry word of a value of this type, whose payload has so many bytes.
pub fn word_of(type_code: u32, len: usize) -> u32 {
    type_code.saturating_add(u32::try_from(len).unwrap_or(u32::MAX))
}

// Whether the value of a document has a payload of another length than the one that is written for
// it, as older forms have.
fn is_old_form(bytes: &[u8], len: usize) -> bool {
    match Document::new(bytes) {
        Some(document) => is_rewritten(document.value(), len),
        None => false,
    }
}

// Whether the payload that is written for a number or an extension value has another length.
fn is_rewritten(value: Node<'_>, len: usize) -> bool {
    match value {
        Node::Number(number) => number.as_number().compact_len() != len,
        Node::Extension(extension) => extension.as_extension_value().compact_len() != len,
        _ => false,
    }
}

// Appends the kind of an extension value, which the first byte of its payload names.
fn push_extension_kind(
    alloc: Global,
    title: &mut Vec<u8>,
    payload: &[u8],
) -> Result<(), AllocError> {
    if let [tag, ..] = payload {
        title.extend_from_slice(&extension_name(alloc, *tag)?)?;
        title.push(b' ')?;
    }
    Ok(())
}

// The kind of extension values with this tag.
fn extension_name(alloc: Global, tag: u8) -> Result<Vec<u8>, AllocError> {
    let name = match tag {
        EXTENSION_BINARY => "binary",
        EXTENSION_DATE => "date",
        EXTENSION_TIMESTAMP => "timestamp",
        EXTENSION_TIMESTAMP_TZ => "timestamp with time zone",
        EXTENSION_INTERVAL => "interval",
        _ => return opaque_name(alloc, tag),
    };
    Ok(String::from_str(alloc, name)?.into_bytes())
}

// The kind of opaque values with this tag.
fn opaque_name(alloc: Global, tag: u8) -> Result<Vec<u8>, AllocError> {
    let byte = [tag];
    let mut name = Vec::new(alloc);
    name.extend_from_slice(b"opaque, tag ")?;
    name.extend_from_slice(hex::encode(alloc, byte.as_slice())?.as_bytes())?;
    Ok(name)
}

// The text with escapes for what a terminal might take for a command, cut where it is long.
fn shown_text(alloc: Global, text: &str) -> Result<String, AllocError> {
    let escaped = shown_chars(alloc, text)?;
    shortened(alloc, &escaped)
}

// The text of these characters; of more than are shown the first ones and an ellipsis.
fn shortened(alloc: Global, characters: &[char]) -> Result<String, AllocError> {
    if characters.len() <= MAX_SHOWN {
        return text_of_chars(alloc, characters);
    }
    let first = characters.len().min(MAX_SHOWN - 1);
    let mut text = text_of_chars(alloc, &characters[..first])?;
    text.push('…')?;
    Ok(text)
}
