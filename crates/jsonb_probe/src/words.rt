//! Single words of bytes, at any index.

use crate::line::{decode_hex, number_in};
use crate::refusal::Refusal;
use jsonb::{Reads, read_header, read_jentry};
use std::alloc::Global;

/// Replies with the header at an index.
pub fn header(alloc: Global, word: &[u8], index: &[u8]) -> Result<String, Refusal> {
    let index = number_in(index)?;
    let bytes = decode_hex(alloc, word)?;
    let (kind, count) = read_header(&bytes, index)?;
    Ok(format!(in alloc; "ok {kind:08x} {count}")?)
}

/// Replies with the entry at an index, and the word that it is encoded as.
pub fn jentry(alloc: Global, word: &[u8], index: &[u8]) -> Result<String, Refusal> {
    let index = number_in(index)?;
    let bytes = decode_hex(alloc, word)?;
    let entry = read_jentry(&bytes, index)?;
    let (kind, length, encoded) = (entry.type_code, entry.length, entry.encoded());
    Ok(format!(in alloc; "ok {kind:08x} {length} {encoded:08x}")?)
}

/// Replies with the word at an index, and the number of words read.
pub fn word(alloc: Global, word: &[u8], index: &[u8]) -> Result<String, Refusal> {
    let index = number_in(index)?;
    let bytes = decode_hex(alloc, word)?;
    let mut reads = Reads::new();
    let read = reads.word(&bytes, index);
    let count = reads.count();
    Ok(match read {
        Ok(word) => format!(in alloc; "ok {word:08x} {count}"),
        Err(error) => format!(in alloc; "error {} {count}", error.name()),
    }?)
}
