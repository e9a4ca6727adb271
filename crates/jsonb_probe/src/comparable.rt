//! Comparable keys.

use crate::line::{decode_hex, number_in, ok_hex};
use crate::refusal::Refusal;
use jsonb::SortKey;
use jsonb_comparable::ComparableKey;
use std::alloc::Global;

/// The key of the bytes.
pub fn key(alloc: Global, word: &[u8]) -> Result<String, Refusal> {
    let bytes = decode_hex(alloc, word)?;
    let key = ComparableKey::new(alloc, SortKey::new(&bytes))?;
    ok_hex(alloc, key.as_bytes())
}

/// The key of the bytes within that depth.
pub fn key_within(alloc: Global, word: &[u8], depth: &[u8]) -> Result<String, Refusal> {
    let depth = number_in(depth)?;
    let bytes = decode_hex(alloc, word)?;
    let key = ComparableKey::new(alloc, SortKey::within(&bytes, depth))?;
    ok_hex(alloc, key.as_bytes())
}
