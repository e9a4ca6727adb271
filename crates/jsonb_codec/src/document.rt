//! Whether bytes are a document.

ghost use Rattle.std.specs.Prelude.{◌<◌, ◌↔◌, ℕ, List, length, IsTrue, None, IfSome, IfNone};
ghost use Rattle.std.specs.Bool.{OnTrue, OnFalse};
ghost use Rattle.jsonb_value.specs.Tree.{Tree, text};
ghost use Rattle.jsonb_codec.specs.Doc.{Doc, IsDocument};
ghost use Rattle.jsonb_codec.specs.DocumentLaws.{DocumentLaws};
ghost use Rattle.jsonb_codec.specs.Depth.{IsDocumentWithin};

mod bytes;
mod fault;

use crate::constants::{SCALAR_CONTAINER_TAG, STRING_TAG};
use crate::word::{split_entry, split_word};
pub use bytes::{DocumentBytes, check};
pub use fault::FaultTable;
use fault::{Fault, check_text};

/// Whether the bytes are a document. By `document_laws` a document means exactly one tree, whose
/// size and depth are bounded by the number of bytes; no proper prefix and no proper extension of
/// it is a document; and without a zero byte it has more than 4,294,967,296 bytes, so no text of
/// usual length is a document.
#[inline(always)]
pub fn is_document(bytes: &[u8]) -> bool
    ensures exact { IsTrue result ↔ IsDocument bytes.now }
    ensures laws { IsTrue result → DocumentLaws bytes.now }
{
    // The depth of a document is less than its number of bytes.
    is_document_within(bytes, bytes.len())
}

/// Whether the bytes are a document of at most this depth: a scalar has depth 0, an empty array or
/// object 1, any other array or object one more than its deepest child.
#[inline(always)]
pub fn is_document_within(bytes: &[u8], depth: usize) -> bool
    ensures { IsTrue result ↔ IsDocumentWithin depth bytes.now }
{
    check(depth, bytes).is_ok()
}

/// Whether the bytes nest too deep to be checked within this depth: whether the check, which goes
/// from front to back and stops at the first fault, reaches a container that is nested deeper. So
/// it is false for a document of at most this depth, and if it is false, the bytes are a document
/// exactly if they are one of at most this depth. Levels beyond the depth are not examined.
pub fn nests_deeper(bytes: &[u8], depth: usize) -> bool
    ensures deeper { OnTrue result (IsDocumentWithin depth bytes.now → ⊥) }
    ensures within { OnFalse result (IsDocument bytes.now ↔ IsDocumentWithin depth bytes.now) }
{
    // Each level takes at least 8 bytes, but the innermost 4.
    if bytes.len() / 8 < depth {
        return false;
    }
    match check(depth, bytes) {
        Ok(_) => false,
        Err(fault) => fault == Fault::TooDeep,
    }
}

/// The text of a document that is a string. `None` for all other bytes.
#[inline(always)]
pub fn document_text(bytes: &[u8]) -> Option<&str>
    ensures some { IfSome result (λ s. Doc bytes.now (text s.now)) }
    ensures none { IfNone result ((s : List ℕ) → Doc bytes.now (text s) → ⊥) }
{
    let (header, body) = split_word(bytes)?;
    let entry = split_entry(body)?;
    if header != SCALAR_CONTAINER_TAG
        || entry.tag != STRING_TAG
        || entry.number != entry.rest.len()
    {
        return None;
    }
    match check_text(entry.rest) {
        Ok(()) => Some(unsafe { str::from_utf8_unchecked(entry.rest) }),
        Err(_) => None,
    }
}
