//! Printing the values of entries, of which no documents are made.

ghost use Rattle.std.specs.Prelude.{◌≡◌, ℕ, List, Ok, Some, IfSome, IfNone};
ghost use Rattle.kohiblad.specs.Words.{code, compact, document_tree, entry_fault, entry_there};
ghost use Rattle.kohiblad.specs.Words.{node_tree, part_in, pretty};
ghost use Rattle.kohiblad.specs.Words.{Doc, HasPayload, IsLongWrittenOut, IsPayloadWithin};
ghost use Rattle.kohiblad.specs.Words.{IsPrintedPart, IsRefused, IsWrittenOut, Entry, Tree};

use crate::answer::{code, refuse};
use crate::places::is_entry_type;
use crate::texts::{write_compact, write_pretty};
use jsonb::{Document, Error, ExtensionItem, Node, NumberItem};
use jsonb_codec::constants::{
    CONTAINER_TAG, EXTENSION_TAG, FALSE_TAG, NULL_TAG, NUMBER_TAG, STRING_TAG, TRUE_TAG,
};
use simdutf8::basic;
use std::alloc::Global;

/// Copies the compact text of an entry's value to `out`. The entry is given by its type and its
/// payload, as a position in a document says them, and is not copied: the text is that which
/// `kohiblad_print` makes of the document that `kohiblad_copy` makes of it. `InvalidJsonbJEntry` if
/// entries have no such type; `InvalidJsonb` if the payload is not that of a value which nests at
/// most `depth` deep. `OutOfMemory` if an allocation fails.
#[unsafe(no_mangle)]
pub extern "C" fn kohiblad_print_at(
    alloc: Global,
    type_code: u32,
    payload: &[u8],
    depth: usize,
    out: &mut [u8],
    length: &mut usize,
) -> u32
    ensures text { (t : Tree) → IsPayloadWithin depth type_code payload.now t
        → IsWrittenOut (compact t) out.old out.new length.new result }
    ensures none { (HasPayload depth type_code payload.now → ⊥)
        → IsRefused (code (entry_fault type_code)) out.old out.new length.new result }

    // At the position of a part of a document, the text is that of the part's tree.
    ensures place { (bytes : List ℕ) (t : Tree) (number : ℕ) (place : Entry) → Doc bytes t
        → part_in bytes number ≡ Ok (Some place)
        → entry_there bytes place ≡ record { type = type_code; payload = payload.now }
        → IsPrintedPart depth t number
        (λ u. IsWrittenOut (compact u) out.old out.new length.new result) }
{
    match entry_value(type_code, payload, depth) {
        Some(value) => write_compact(alloc, value, out, length),
        None => refuse(entry_fault(type_code), out, length),
    }
}

/// Copies the pretty text of an entry's value to `out`: that which `kohiblad_pretty` makes of the
/// document that `kohiblad_copy` makes of the entry, which is given by its type and its payload, as
/// a position in a document says them, and is not copied. `InvalidJsonbJEntry` if entries have no
/// such type; `InvalidJsonb` if the payload is not that of a value which nests at most `depth`
/// deep. `NO_ROOM` if `out` is shorter than the text, which is counted first, in one walk over the
/// bytes and without memory; the length is `SIZE_MAX` if the text is longer. `OutOfMemory` if an
/// allocation fails, which is asked for only if there is room.
#[unsafe(no_mangle)]
pub extern "C" fn kohiblad_pretty_at(
    alloc: Global,
    type_code: u32,
    payload: &[u8],
    depth: usize,
    out: &mut [u8],
    length: &mut usize,
) -> u32
    ensures text { (t : Tree) → IsPayloadWithin depth type_code payload.now t
        → IsLongWrittenOut (pretty t) out.old out.new length.new result }
    ensures none { (HasPayload depth type_code payload.now → ⊥)
        → IsRefused (code (entry_fault type_code)) out.old out.new length.new result }

    // At the position of a part of a document, the text is that of the part's tree.
    ensures place { (bytes : List ℕ) (t : Tree) (number : ℕ) (place : Entry) → Doc bytes t
        → part_in bytes number ≡ Ok (Some place)
        → entry_there bytes place ≡ record { type = type_code; payload = payload.now }
        → IsPrintedPart depth t number
        (λ u. IsLongWrittenOut (pretty u) out.old out.new length.new result) }
{
    match entry_value(type_code, payload, depth) {
        Some(value) => write_pretty(alloc, value, out, length),
        None => refuse(entry_fault(type_code), out, length),
    }
}

// Why an entry of this type has no value: entries have no such type, or the payload has none.
fn entry_fault(type_code: u32) -> u32
    ensures { result ≡ code (entry_fault type_code) }
{
    if is_entry_type(type_code) {
        code(Error::InvalidJsonb)
    } else {
        code(Error::InvalidJsonbJEntry)
    }
}

// The value of an entry. `None` if the payload is not that of a value of this type which nests at
// most `depth` deep.
fn entry_value<'a>(type_code: u32, payload: &'a [u8], depth: usize) -> Option<Node<'a>>
    ensures some { IfSome result
        (λ value. IsPayloadWithin depth type_code payload.entry.now (node_tree value)) }
    ensures none { IfNone result (HasPayload depth type_code payload.entry.now → ⊥) }
{
    match type_code {
        NULL_TAG if payload.is_empty() => Some(Node::Null),
        FALSE_TAG if payload.is_empty() => Some(Node::Boolean(false)),
        TRUE_TAG if payload.is_empty() => Some(Node::Boolean(true)),
        NUMBER_TAG => Some(Node::Number(NumberItem::from_bytes(payload).ok()?)),
        STRING_TAG => Some(Node::String(basic::from_utf8(payload).ok()?)),
        EXTENSION_TAG => Some(Node::Extension(ExtensionItem::from_bytes(payload).ok()?)),
        CONTAINER_TAG => Some(Node::Container(container_within(payload, depth)?)),
        _ => None,
    }
}

// The document of an array or object. `None` if the bytes are none of at most this depth.
fn container_within(bytes: &[u8], depth: usize) -> Option<Document<'_>>
    ensures some { IfSome result
        (λ document. IsPayloadWithin depth CONTAINER_TAG bytes.now (document_tree document)) }
    ensures none { IfNone result (HasPayload depth CONTAINER_TAG bytes.now → ⊥) }
{
    let document = Document::within(bytes, depth)?;
    match document.value() {
        Node::Container(document) => Some(document),
        _ => None,
    }
}
