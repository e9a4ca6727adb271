//! The texts of documents, in hexadecimal since they may have several lines.

use crate::line::{decode_hex, ok_hex};
use crate::refusal::Refusal;
use jsonb::{OwnedJsonb, RawJsonb};
use std::alloc::Global;

/// Replies with the compact text.
pub fn to_string(alloc: Global, word: &[u8]) -> Result<String, Refusal> {
    let bytes = decode_hex(alloc, word)?;
    let text = RawJsonb::new(&bytes).to_string(alloc)?;
    ok_hex(alloc, text.as_bytes())
}

/// Replies with the pretty text.
pub fn to_pretty_string(alloc: Global, word: &[u8]) -> Result<String, Refusal> {
    let bytes = decode_hex(alloc, word)?;
    let text = RawJsonb::new(&bytes).to_pretty_string(alloc)?;
    ok_hex(alloc, text.as_bytes())
}

/// Replies with the text that `Display` writes.
pub fn display(alloc: Global, word: &[u8]) -> Result<String, Refusal> {
    let owned = OwnedJsonb::new(decode_hex(alloc, word)?);
    let text = format!(in alloc; "{owned}")?;
    ok_hex(alloc, text.as_bytes())
}
