//! The canonical form of documents.

ghost use Rattle.std.specs.Prelude.{◌↔◌, IsTrue};
ghost use Rattle.kohiblad.specs.Words.{IsCanonical, IsDocumentWithin, IsRewrittenWithin};

use crate::answer::{code, hand_over_made, refuse};
use jsonb::{Document, Error};
use std::alloc::Global;

/// Whether the bytes are a document of at most this depth, and canonical: those that the encoder
/// writes for some value.
#[unsafe(no_mangle)]
pub extern "C" fn kohiblad_is_canonical(bytes: &[u8], depth: usize) -> bool
    ensures { IsTrue result ↔ (IsDocumentWithin depth bytes.now × IsCanonical bytes.now) }
{
    match Document::within(bytes, depth) {
        Some(document) => document.is_canonical(),
        None => false,
    }
}

/// Copies the canonical document of the value that the bytes mean to `out`. `InvalidJsonb` if the
/// bytes are not a document of at most this depth, or a payload in an older form exceeds its limit
/// in its newer form; `OutOfMemory` if an allocation fails.
#[unsafe(no_mangle)]
pub extern "C" fn kohiblad_canonical(
    alloc: Global,
    bytes: &[u8],
    depth: usize,
    out: &mut [u8],
    length: &mut usize,
) -> u32
    ensures { IsRewrittenWithin depth bytes.now out.old out.new length.new result }
{
    let Some(document) = Document::within(bytes, depth) else {
        return refuse(code(Error::InvalidJsonb), out, length);
    };
    hand_over_made(document.to_canonical(alloc), out, length)
}
