//! Recognizing canonical documents, and the canonical form of every document.

mod rewrite;

ghost use Rattle.std.specs.Prelude.{◌↔◌, IsTrue};
ghost use Rattle.jsonb_codec.specs.Words.{Tree, Trees, number, extension, extension_of, IsWritten};
ghost use Rattle.jsonb_codec.specs.Words.{IsCanonical, AreWritten, IsDocument, Payload, bytes_of};
ghost use Rattle.jsonb_codec.specs.Words.{PartMeans, AreChildren};

use crate::constants::{CONTAINER_TAG, EXTENSION_TAG, NUMBER_TAG};
use crate::document::DocumentBytes;
use crate::parts::{Children, Part};
use jsonb_value::{ExtensionValue, Number};
pub use rewrite::{append_canonical, append_canonical_document};

/// Whether the bytes are a canonical document, that is, the one that the encoder writes for its
/// value: each integer in the fewest bytes, zero as the single byte 0, and no decimal and no
/// timestamp with a time zone in an older form.
pub fn is_canonical(bytes: &[u8]) -> bool
    ensures { IsTrue result ↔ IsCanonical bytes.now }
{
    match DocumentBytes::new(bytes) {
        Some(document) => is_canonical_document(document),
        None => false,
    }
}

/// Whether a checked document is canonical, that is, the one that the encoder writes for its value:
/// each integer in the fewest bytes, zero as the single byte 0, and no decimal and no timestamp
/// with a time zone in an older form.
#[tactic(auto, using(crate::proofs::Decision::known_document))]
pub fn is_canonical_document(document: DocumentBytes<'_>) -> bool
    ensures { IsTrue result ↔ IsCanonical (bytes_of document.entry) }
{
    is_written_document(document.as_bytes())
}

// Whether bytes that are known to be a document are canonical.
fn is_written_document(bytes: &[u8]) -> bool
    requires { IsDocument bytes.now }
    ensures { IsTrue result ↔ IsCanonical bytes.now }
{
    is_written(DocumentBytes::new_unchecked(bytes).part())
}

// Whether all payloads in the part are those that are written.
#[cycle(written)]
fn is_written(part: Part<'_>) -> bool
    ensures { (t : Tree) → PartMeans part.entry t
        → IsTrue result ↔ IsWritten t part.entry.payload.now }
{
    match part.type_code {
        NUMBER_TAG => is_written_number(part.payload, part.number()),
        EXTENSION_TAG => is_written_extension(part.payload, part.extension()),
        CONTAINER_TAG => are_written(part.container().children),
        _ => true,
    }
}

// Among the payloads of a number only the written one has its length.
#[tactic(auto, using(crate::proofs::CanonicalSteps::written_number))]
fn is_written_number(payload: &[u8], value: Number) -> bool
    ensures { Payload (number value) payload.now
        → IsTrue result ↔ IsWritten (number value) payload.now }
{
    payload.len() == value.compact_len()
}

#[tactic(auto, using(crate::proofs::CanonicalSteps::written_extension))]
fn is_written_extension(payload: &[u8], value: ExtensionValue) -> bool
    ensures { Payload (extension (extension_of value.entry)) payload.now
        → IsTrue result ↔ IsWritten (extension (extension_of value.entry)) payload.now }
{
    payload.len() == value.compact_len()
}

// Whether all payloads are those that are written, in the children of a container: an array's
// items, or an object's keys and then its values.
#[cycle(written)]
fn are_written(children: Children<'_>) -> bool
    ensures { (ts : Trees) → AreChildren ts children.entry
        → IsTrue result ↔ AreWritten ts children.entry.entries.now children.entry.payloads.now }
{
    let mut left = children;
    while let Some(child) = left.split_first() {
        if !is_written(child.part) {
            return false;
        }
        left = child.later;
    }
    true
}
