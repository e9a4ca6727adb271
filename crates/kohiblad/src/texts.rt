//! Printing bytes as texts, and parsing texts into documents.

ghost use Rattle.std.specs.Prelude.{IfErr, IfOk, ◌≡◌};
ghost use Rattle.kohiblad.specs.Words.{plain_text, lined_text, other_text, meaning_within};
ghost use Rattle.kohiblad.specs.Words.{IsLongWrittenOut, IsWrittenOut, IsReadWithin, ReadsAs};
ghost use Rattle.kohiblad.specs.Words.{compact, length_64, node_tree, pretty, result_bytes};
ghost use Rattle.kohiblad.specs.Words.{rule_of};

use crate::answer::{NO_ROOM, TOO_DEEP, code, hand_over, hand_over_items, refuse};
use bstr::ByteSlice;
use jsonb::layer::{extension_len, number_len, refusal_within, string_len};
use jsonb::{Error, Node, OwnedJsonb, ParseError, SortKey};
use simdutf8::basic;
use std::alloc::Global;

/// Copies the text of the bytes to `out`: the compact text of a document, `null` for no bytes, and
/// for all other bytes their own text, with U+FFFD in place of invalid UTF-8. A document that nests
/// deeper than `depth` levels counts as bytes that are not a document, so its text is that of its
/// bytes. `OutOfMemory` if an allocation fails.
#[unsafe(no_mangle)]
pub extern "C" fn kohiblad_print(
    alloc: Global,
    bytes: &[u8],
    depth: usize,
    out: &mut [u8],
    length: &mut usize,
) -> u32
    ensures { IsWrittenOut (plain_text (meaning_within depth bytes.now)) out.old out.new length.new
        result }
{
    match SortKey::within(bytes, depth) {
        SortKey::Document(document) => write_compact(alloc, document.value(), out, length),
        SortKey::Other(other) => write_other(alloc, other, out, length),
    }
}

/// Copies out the compact text of a value.
pub fn write_compact(alloc: Global, value: Node<'_>, out: &mut [u8], length: &mut usize) -> u32
    ensures { IsWrittenOut (compact (node_tree value.entry)) out.old out.new length.new result }
{
    hand_over_items(compact_text(alloc, value), out, length)
}

// The compact text of a value. Memory for that of a container is asked for by its bytes.
fn compact_text(alloc: Global, value: Node<'_>) -> Result<Vec<u8>, Error>
    ensures text { IfOk result (λ text. text.items ≡ compact (node_tree value.entry)) }
    ensures memory { IfErr result (λ e. e ≡ Error.OutOfMemory) }
{
    let text = match value.as_document() {
        Some(document) => document.to_string(alloc)?,
        None => value.to_string(alloc)?,
    };
    Ok(text.into_bytes())
}

// Copies out the text of bytes that are not read as a document: `null` for no bytes.
fn write_other(alloc: Global, bytes: &[u8], out: &mut [u8], length: &mut usize) -> u32
    ensures { IsWrittenOut (other_text bytes.now) out.old out.new length.new result }
{
    if bytes.is_empty() {
        return hand_over(b"null", out, length);
    }
    match bytes.to_str_lossy(alloc) {
        Ok(text) => hand_over(text.as_bytes(), out, length),
        Err(_) => refuse(code(Error::OutOfMemory), out, length),
    }
}

/// Copies the pretty text of the bytes to `out`: that of a document with each item or pair on its
/// own line, indented by two spaces for each enclosing container, and `null` for all other bytes. A
/// document that nests deeper than `depth` levels counts as bytes that are not a document, so its
/// text is `null`. `NO_ROOM` if `out` is shorter than the text, which is counted first, in one walk
/// over the bytes and without memory; the length is `SIZE_MAX` if the text is longer. `OutOfMemory`
/// if an allocation fails, which is asked for only if there is room, and once, for the text.
#[unsafe(no_mangle)]
pub extern "C" fn kohiblad_pretty(
    alloc: Global,
    bytes: &[u8],
    depth: usize,
    out: &mut [u8],
    length: &mut usize,
) -> u32
    ensures { IsLongWrittenOut (lined_text (meaning_within depth bytes.now)) out.old out.new
        length.new result }
{
    match SortKey::within(bytes, depth) {
        SortKey::Document(document) => write_pretty(alloc, document.value(), out, length),
        SortKey::Other(_) => hand_over(b"null", out, length),
    }
}

/// Copies out the pretty text of a value if it fits, which is counted before.
pub fn write_pretty(alloc: Global, value: Node<'_>, out: &mut [u8], length: &mut usize) -> u32
    ensures { IsLongWrittenOut (pretty (node_tree value.entry)) out.old out.new length.new result }
{
    *length = pretty_len(value);
    if out.len() < *length || *length == usize::MAX {
        return NO_ROOM;
    }
    hand_over_items(pretty_text(alloc, value), out, length)
}

// The pretty text of a value: that of a scalar is its compact one.
fn pretty_text(alloc: Global, value: Node<'_>) -> Result<Vec<u8>, Error>
    ensures text { IfOk result (λ text. text.items ≡ pretty (node_tree value.entry)) }
    ensures memory { IfErr result (λ e. e ≡ Error.OutOfMemory) }
{
    let text = match value.as_document() {
        Some(document) => document.to_pretty_string(alloc)?,
        None => value.to_string(alloc)?,
    };
    Ok(text.into_bytes())
}

// The length of the pretty text of a value, or `usize::MAX` if it is longer.
fn pretty_len(value: Node<'_>) -> usize
    ensures { result ≡ length_64 (pretty (node_tree value.entry)) }
{
    match value {
        Node::Null | Node::Boolean(true) => 4,
        Node::Boolean(false) => 5,
        Node::Number(number) => number_len(&number.as_number()),
        Node::String(text) => string_len(text),
        Node::Extension(value) => extension_len(&value.as_extension_value()).saturating_add(2),
        Node::Container(document) => document.pretty_len(),
    }
}

/// Parses a JSON text and copies the canonical document of its value to `out`. With `exponents` 0 a
/// number with an exponent is refused; otherwise it means exactly its value, as `1e5` means 100000.
/// `TOO_DEEP` if more than `depth` brackets outside strings are open at once, before any other
/// status; `InvalidUtf8` if the text is not UTF-8; `InvalidJson` if it is not accepted JSON;
/// `InvalidJsonb` if a limit of the format is exceeded; `OutOfMemory` if an allocation fails.
#[unsafe(no_mangle)]
pub extern "C" fn kohiblad_parse(
    alloc: Global,
    text: &[u8],
    depth: usize,
    exponents: u32,
    out: &mut [u8],
    length: &mut usize,
) -> u32
    ensures { IsReadWithin (rule_of exponents) depth text.now out.old out.new length.new result }
{
    match document_of(alloc, text, depth, exponents) {
        Ok(document) => hand_over(document.as_bytes(), out, length),
        Err(ParseError::TooDeep) => refuse(TOO_DEEP, out, length),
        Err(ParseError::Refused(error)) => refuse(code(error), out, length),
    }
}

// The document of a JSON text within a depth, whose numbers have no exponent if `exponents` is 0.
// `InvalidUtf8` if the text is not UTF-8.
fn document_of(
    alloc: Global,
    text: &[u8],
    depth: usize,
    exponents: u32,
) -> Result<OwnedJsonb, ParseError>
    ensures { ReadsAs (rule_of exponents) depth text.now (result_bytes result) }
{
    match basic::from_utf8(text) {
        Ok(text) if exponents == 0 => OwnedJsonb::parse_within(alloc, text, depth),
        Ok(text) => OwnedJsonb::parse_with_exponents_within(alloc, text, depth),
        Err(_) => Err(refusal_within(text, depth, Error::InvalidUtf8)),
    }
}
