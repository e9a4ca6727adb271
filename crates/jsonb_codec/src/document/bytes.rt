//! The bytes of a document, checked once.

ghost use Rattle.std.specs.Prelude.{◌≡◌, ◌<◌, ◌^◌, ◌↔◌, length, None, IfOk, IfErr, IfSome};
ghost use Rattle.jsonb_value.specs.Tree.{Tree};
ghost use Rattle.jsonb_codec.specs.Doc.{Doc, IsDocument};
ghost use Rattle.jsonb_codec.specs.Depth.{IsDocumentWithin};
ghost use Rattle.jsonb_codec.specs.Parts.{HoldsOrFaults, Excludes};

use super::fault::{Fault, find_fault};
use crate::constants::{CONTAINER_TAG, SCALAR_CONTAINER_TAG};
use crate::parts::Part;
use crate::word::{split_entry, split_header};

/// The bytes of a document. They were checked on construction and are not checked again.
#[derive(Clone, Copy, Debug)]
pub struct DocumentBytes<'a> {
    bytes: &'a [u8],
    ghost fact: { ∥ IsDocument bytes.now ∥₁ },
}

impl<'a> DocumentBytes<'a> {
    ghost use Rattle.std.specs.Prelude.{IsSome};
    ghost use Rattle.jsonb_codec.specs.Words.{document_of, PartMeans, bytes_of};

    /// Checks the bytes. `None` if they are not a document.
    #[inline(always)]
    pub fn new(bytes: &'a [u8]) -> Option<Self>
        ensures exact { IsSome result ↔ IsDocument bytes.entry.now }
        ensures bytes { IfSome result (λ d. bytes_of d ≡ bytes.entry.now) }
    {
        // The depth of a document is less than its number of bytes.
        DocumentBytes::within(bytes, bytes.len())
    }

    /// Checks the bytes and their depth: a scalar has depth 0, an empty array or object 1, any
    /// other array or object one more than its deepest child. `None` if they are not a document of
    /// at most this depth. Levels beyond it are not examined.
    #[inline(always)]
    pub fn within(bytes: &'a [u8], depth: usize) -> Option<Self>
        ensures exact { IsSome result ↔ IsDocumentWithin depth bytes.entry.now }
        ensures bytes { IfSome result (λ d. bytes_of d ≡ bytes.entry.now) }
    {
        check(depth, bytes).ok()
    }

    /// Wraps bytes that the caller knows to be a document, without checking them.
    #[inline(always)]
    pub fn new_unchecked(bytes: &'a [u8]) -> Self
        requires { IsDocument bytes.now }
        ensures { bytes_of result ≡ bytes.entry.now }
    {
        Self { bytes }
    }

    /// A nested array or object as a document of its own.
    #[inline(always)]
    pub fn of_container(part: Part<'a>) -> Self
        requires { part.type_code ≡ CONTAINER_TAG }
        ensures { bytes_of result ≡ part.entry.payload.now }
    {
        DocumentBytes {
            bytes: part.payload,
        }
    }

    /// The bytes of the document.
    #[inline(always)]
    pub fn as_bytes(self) -> &'a [u8]
        ensures { result.now ≡ bytes_of self.entry }
    {
        self.bytes
    }

    /// The single part that the document consists of: a scalar's entry, or the whole array or
    /// object.
    #[inline(always)]
    pub fn part(self) -> Part<'a>
        ensures means { (t : Tree) → Doc (bytes_of self.entry) t → PartMeans result t }
        ensures bytes { document_of result.type_code result.payload.now ≡ bytes_of self.entry }
        ensures len { length result.payload.now < 2 ^ 64 }
    {
        let Some(header) = split_header(self.bytes) else {
            unreachable!();
        };
        if header.tag != SCALAR_CONTAINER_TAG {
            return Part {
                type_code: CONTAINER_TAG,
                payload: self.bytes,
            };
        }
        let Some(entry) = split_entry(header.rest) else {
            unreachable!();
        };
        Part {
            type_code: entry.tag,
            payload: entry.rest,
        }
    }
}

/// Checks the bytes once; returns the document or its first fault. A container nested more than
/// `depth` deep is a fault, and is not examined.
#[inline(always)]
pub fn check<'a>(depth: usize, bytes: &'a [u8]) -> Result<DocumentBytes<'a>, Fault>
    ensures decided { HoldsOrFaults result (IsDocumentWithin depth bytes.now) }
    ensures none { IfErr result
        (λ fault. Excludes depth fault (λ d. IsDocumentWithin d bytes.now)) }
    ensures bytes { IfOk result (λ d. d.bytes.now ≡ bytes.now) }
{
    match find_fault(depth, bytes) {
        Ok(()) => Ok(DocumentBytes { bytes }),
        Err(fault) => Err(fault),
    }
}
