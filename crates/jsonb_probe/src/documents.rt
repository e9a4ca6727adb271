//! Whole documents: the check, both readers, and the canonical form.

use crate::line::{decode_hex, number_in, ok_hex, truth};
use crate::refusal::Refusal;
use jsonb::{Decoder, Encoder, RawJsonb, Value};
use std::alloc::Global;

/// Replies whether the bytes are a document.
pub fn is_document(alloc: Global, word: &[u8]) -> Result<String, Refusal> {
    let bytes = decode_hex(alloc, word)?;
    truth(alloc, RawJsonb::new(&bytes).is_document())
}

/// Replies whether the bytes are a document of at most this depth.
pub fn within(alloc: Global, word: &[u8], depth: &[u8]) -> Result<String, Refusal> {
    let depth = number_in(depth)?;
    let bytes = decode_hex(alloc, word)?;
    truth(alloc, RawJsonb::new(&bytes).is_document_within(depth))
}

/// Replies with the value of the tree reader, encoded again.
pub fn value_of(alloc: Global, word: &[u8]) -> Result<String, Refusal> {
    let bytes = decode_hex(alloc, word)?;
    value_hex(alloc, &jsonb::value_of(alloc, &bytes)?)
}

/// Replies with the value of the decoder, encoded again.
pub fn decoder(alloc: Global, word: &[u8]) -> Result<String, Refusal> {
    let bytes = decode_hex(alloc, word)?;
    value_hex(alloc, &Decoder::new(&bytes).decode(alloc)?)
}

/// `ok` and the document of a value.
pub fn value_hex(alloc: Global, value: &Value<'_>) -> Result<String, Refusal> {
    let mut bytes = Vec::new(alloc);
    Encoder::new(&mut bytes).encode(value)?;
    ok_hex(alloc, &bytes)
}

/// Replies whether the bytes are a canonical document.
pub fn is_canonical(alloc: Global, word: &[u8]) -> Result<String, Refusal> {
    let bytes = decode_hex(alloc, word)?;
    truth(alloc, RawJsonb::new(&bytes).is_canonical())
}

/// Replies with the canonical document of the value that the bytes mean.
pub fn to_canonical(alloc: Global, word: &[u8]) -> Result<String, Refusal> {
    let bytes = decode_hex(alloc, word)?;
    let document = RawJsonb::new(&bytes).to_canonical(alloc)?;
    ok_hex(alloc, document.as_bytes())
}
