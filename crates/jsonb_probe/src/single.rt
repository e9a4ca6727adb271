//! Calls on a document that was checked once, with the same replies as those on its bytes.

use crate::documents::value_hex;
use crate::items::kind_text;
use crate::line::{decode_hex, number_in, ok_hex, truth};
use crate::order::order_text;
use crate::refusal::Refusal;
use jsonb::Document;
use std::alloc::Global;

/// The document that the bytes are.
pub fn document_of(bytes: &[u8]) -> Result<Document<'_>, Refusal> {
    Document::new(bytes).ok_or(Refusal::NoDocument)
}

/// Replies whether the bytes are a document of at most this depth.
pub fn within(alloc: Global, word: &[u8], depth: &[u8]) -> Result<String, Refusal> {
    let depth = number_in(depth)?;
    let bytes = decode_hex(alloc, word)?;
    truth(alloc, Document::within(&bytes, depth).is_some())
}

/// Replies with the kind.
pub fn item_type(alloc: Global, word: &[u8]) -> Result<String, Refusal> {
    let bytes = decode_hex(alloc, word)?;
    let kind = kind_text(alloc, document_of(&bytes)?.kind())?;
    Ok(format!(in alloc; "ok {kind}")?)
}

/// Replies with the value, encoded again.
pub fn value_of(alloc: Global, word: &[u8]) -> Result<String, Refusal> {
    let bytes = decode_hex(alloc, word)?;
    value_hex(alloc, &document_of(&bytes)?.to_value(alloc)?)
}

/// Replies whether the document is canonical.
pub fn is_canonical(alloc: Global, word: &[u8]) -> Result<String, Refusal> {
    let bytes = decode_hex(alloc, word)?;
    truth(alloc, document_of(&bytes)?.is_canonical())
}

/// Replies with the canonical document of its value.
pub fn to_canonical(alloc: Global, word: &[u8]) -> Result<String, Refusal> {
    let bytes = decode_hex(alloc, word)?;
    let document = document_of(&bytes)?.to_canonical(alloc)?;
    ok_hex(alloc, document.as_bytes())
}

/// Replies with the compact text.
pub fn to_string(alloc: Global, word: &[u8]) -> Result<String, Refusal> {
    let bytes = decode_hex(alloc, word)?;
    let text = document_of(&bytes)?.to_string(alloc)?;
    ok_hex(alloc, text.as_bytes())
}

/// Replies with the pretty text.
pub fn to_pretty_string(alloc: Global, word: &[u8]) -> Result<String, Refusal> {
    let bytes = decode_hex(alloc, word)?;
    let text = document_of(&bytes)?.to_pretty_string(alloc)?;
    ok_hex(alloc, text.as_bytes())
}

/// Replies with the text that `Display` writes.
pub fn display(alloc: Global, word: &[u8]) -> Result<String, Refusal> {
    let bytes = decode_hex(alloc, word)?;
    let document = document_of(&bytes)?;
    let text = format!(in alloc; "{document}")?;
    ok_hex(alloc, text.as_bytes())
}

/// Replies with the order of two documents, and whether `==` holds.
pub fn cmp(alloc: Global, left: &[u8], right: &[u8]) -> Result<String, Refusal> {
    let left = decode_hex(alloc, left)?;
    let right = decode_hex(alloc, right)?;
    let (left, right) = (document_of(&left)?, document_of(&right)?);
    order_text(alloc, left.cmp(&right), left == right)
}
