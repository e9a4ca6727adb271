//! Comparable keys: byte strings that sort as the documents do.

ghost use Rattle.std.specs.Prelude.{◌≡◌, take};
ghost use Rattle.kohiblad.specs.Words.{IsKeyOf, IsWrittenOut, meaning_key, meaning_within};

use crate::answer::{code, hand_over, refuse};
use jsonb::SortKey;
use jsonb_comparable::{ComparableKey, KEY_LAYOUT};
use std::alloc::Global;

/// The number of the layout of comparable keys, and of what is hashed for index keys and top keys.
/// It changes only with the major version of the library: keys that are to be compared must be of
/// libraries with the same number.
#[unsafe(no_mangle)]
pub extern "C" fn kohiblad_key_layout() -> u32
    ensures { result ≡ 1 }
{
    KEY_LAYOUT
}

/// Copies the comparable key of any bytes to `out`. Keys compare by their bytes, a prefix before
/// what continues it, as `kohiblad_compare` compares the bytes at this depth; no key begins
/// another. A document that nests deeper than `depth` levels counts as bytes that are not a
/// document. `OutOfMemory` if an allocation fails.
#[unsafe(no_mangle)]
pub extern "C" fn kohiblad_key(
    alloc: Global,
    bytes: &[u8],
    depth: usize,
    out: &mut [u8],
    length: &mut usize,
) -> u32
    // The key that is written compares with the keys of all bytes, and followed by them, as the
    // bytes do.
    ensures { IsWrittenOut (meaning_key (meaning_within depth bytes.now)) out.old out.new length.new
        result
        × (result ≡ 0 → IsKeyOf (meaning_within depth bytes.now) (take length.new out.new)) }
{
    match ComparableKey::new(alloc, SortKey::within(bytes, depth)) {
        Ok(key) => hand_over(key.as_bytes(), out, length),
        Err(error) => refuse(code(error), out, length),
    }
}
