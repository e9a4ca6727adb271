//! The check of bytes: the first fault, or none for a document.

ghost use Rattle.std.specs.Prelude.{◌≡◌, ◌≢◌, ◌+◌, ◌%◌, ◌<◌, ◌≤◌, ◌^◌, ◌↔◌, ◌++◌, ℕ, List, length};
ghost use Rattle.std.specs.Prelude.{take, drop, IsTrue, None, IfOk, OnOk, OnErr, option_map};
ghost use Rattle.std.specs.Prelude.{IsUtf8};
ghost use Rattle.std.specs.Cmp.Lexicographic.{slice_cmp};
ghost use Rattle.std.specs.Ordering.{nat_cmp};
ghost use Rattle.jsonb_value.specs.Tree.{Tree};
ghost use Rattle.jsonb_codec.specs.WordBytes.{word};
ghost use Rattle.jsonb_codec.specs.Depth.{IsDocumentWithin};
ghost use Rattle.jsonb_codec.specs.Fault.{IsDecoderFault, IsTreeFault};
ghost use Rattle.jsonb_codec.specs.Parts.{IsFaultOf, HoldsOrFaults, HoldsOrExcludes};
ghost use Rattle.jsonb_codec.specs.Parts.{HasScalar, HasPayload, HasArray, HasObject, HasChildren};
ghost use Rattle.jsonb_codec.specs.Parts.{HasKeys, IsKeyAfter};

use crate::ascii::is_all_ascii;
use crate::constants::{
    ARRAY_CONTAINER_TAG, CONTAINER_TAG, EXTENSION_TAG, FALSE_TAG, NULL_TAG, NUMBER_TAG,
    OBJECT_CONTAINER_TAG, SCALAR_CONTAINER_TAG, STRING_TAG, TRUE_TAG,
};
use crate::word::{split_entry, split_header, split_word};
use jsonb_value::{Error, ExtensionValue, Number};
use simdutf8::is_utf8;
use std::cmp::Ordering;
use std::str;

/// What is wrong with bytes that are not a document of at most some depth.
#[derive(Clone, Copy, PartialEq, Eq)]
pub enum Fault {
    /// A container is nested more than the allowed depth.
    TooDeep,
    /// The whole document has fewer than four bytes for its header.
    ShortHeader,
    /// A nested container has fewer than four bytes for its header.
    ShortInnerHeader,
    /// A header is of a kind that is not allowed at its position.
    HeaderKind,
    /// There are fewer entry words than the header counts.
    ShortEntries,
    /// An entry word is of a type that is not allowed at its position.
    Entry,
    /// The payload of an entry of this type runs past the end of its container.
    Bounds(u32),
    /// Keys are not strings, or do not ascend strictly.
    Keys,
    /// Bytes follow the last payload.
    Excess,
    /// The payload of a string is not UTF-8.
    Text,
    /// The payload is not that of a number, or not as long as its extension value is.
    Number,
    /// The payload is not that of an extension value.
    Extension,
}

/// How faults are named as errors: the two readers name some of them differently.
#[derive(Clone, Copy)]
pub enum FaultTable {
    Tree,
    Decoder,
}

impl FaultTable {
    /// The error by which the table names this fault.
    pub fn error_of(self, fault: Fault) -> Error
        ensures { IsFaultOf self result }
    {
        match self {
            FaultTable::Tree => tree_error(fault),
            FaultTable::Decoder => decoder_error(fault),
        }
    }
}

// The error by which the reader of trees names this fault.
fn tree_error(fault: Fault) -> Error
    ensures { IsTreeFault result }
{
    match fault {
        Fault::ShortHeader | Fault::ShortInnerHeader | Fault::ShortEntries => Error::InvalidEOF,
        Fault::Text => Error::InvalidUtf8,
        Fault::Number => Error::InvalidJsonbNumber,
        Fault::Extension => Error::InvalidJsonbExtension,
        Fault::TooDeep
        | Fault::HeaderKind
        | Fault::Entry
        | Fault::Bounds(_)
        | Fault::Keys
        | Fault::Excess => Error::InvalidJsonb,
    }
}

// The error by which the decoder names this fault. A payload past the end of its container is a
// fault of the entry word if the type is unknown, or that of a null or truth value.
fn decoder_error(fault: Fault) -> Error
    ensures { IsDecoderFault result }
{
    match fault {
        Fault::ShortInnerHeader | Fault::ShortEntries => Error::InvalidEOF,
        Fault::HeaderKind => Error::InvalidJsonbHeader,
        Fault::Text | Fault::Bounds(STRING_TAG) => Error::InvalidUtf8,
        Fault::Number | Fault::Bounds(NUMBER_TAG) => Error::InvalidJsonbNumber,
        Fault::Extension | Fault::Bounds(EXTENSION_TAG) => Error::InvalidJsonbExtension,
        Fault::TooDeep
        | Fault::ShortHeader
        | Fault::Bounds(CONTAINER_TAG)
        | Fault::Keys
        | Fault::Excess => Error::InvalidJsonb,
        Fault::Entry | Fault::Bounds(_) => Error::InvalidJsonbJEntry,
    }
}

// The first fault of the bytes.
#[inline(always)]
pub(super) fn find_fault(depth: usize, bytes: &[u8]) -> Result<(), Fault>
    ensures { HoldsOrExcludes depth result (λ d. IsDocumentWithin d bytes.now) }
{
    let Some(header) = split_header(bytes) else {
        return Err(Fault::ShortHeader);
    };
    if header.tag == SCALAR_CONTAINER_TAG {
        check_scalar(header.number, header.rest)
    } else {
        check_container(depth, bytes)
    }
}

// Checks what follows the header of a scalar: one entry word and its payload.
#[inline(always)]
fn check_scalar(count: usize, body: &[u8]) -> Result<(), Fault>
    requires { count < 2 ^ 29 }
    ensures { HoldsOrFaults result
        (HasScalar (word (SCALAR_CONTAINER_TAG + count) ++ body.now)) }
{
    if count != 0 {
        return Err(Fault::HeaderKind);
    }
    let Some(entry) = split_entry(body) else {
        return Err(Fault::ShortEntries);
    };
    if entry.tag == CONTAINER_TAG {
        return Err(Fault::Entry);
    }
    let (payload, later) = split_payload(entry.tag, entry.number, entry.rest)?;
    check_scalar_payload(entry.tag, payload)?;
    if !later.is_empty() {
        return Err(Fault::Excess);
    }
    Ok(())
}

// Checks an array or object with its header.
#[cycle(container)]
fn check_container(depth: usize, bytes: &[u8]) -> Result<(), Fault>
    ensures { HoldsOrExcludes depth result (λ d. HasPayload d CONTAINER_TAG bytes.now) }
{
    if depth == 0 {
        return Err(Fault::TooDeep);
    }
    let Some(header) = split_header(bytes) else {
        return Err(Fault::ShortInnerHeader);
    };
    match header.tag {
        ARRAY_CONTAINER_TAG => check_array(depth - 1, header.number, header.rest),
        OBJECT_CONTAINER_TAG => check_object(depth - 1, header.number, header.rest),
        _ => Err(Fault::HeaderKind),
    }
}

// Checks the entry words and payloads of an array of `count` items.
#[cycle(container)]
fn check_array(depth: usize, count: usize, body: &[u8]) -> Result<(), Fault>
    requires { count < 2 ^ 29 }
    ensures { HoldsOrExcludes depth result (λ d. HasArray d count body.now) }
{
    if body.len() < 4 * count {
        return Err(Fault::ShortEntries);
    }
    let (entries, payloads) = body.split_at(4 * count);
    check_children(depth, entries, payloads)
}

// Checks the entry words and payloads of an object of `count` pairs.
#[cycle(container)]
fn check_object(depth: usize, count: usize, body: &[u8]) -> Result<(), Fault>
    requires { count < 2 ^ 29 }
    ensures { HoldsOrExcludes depth result (λ d. HasObject d count body.now) }
{
    if body.len() < 8 * count {
        return Err(Fault::ShortEntries);
    }
    let (key_entries, after_keys) = body.split_at(4 * count);
    let (value_entries, payloads) = after_keys.split_at(4 * count);
    let keys = check_keys(depth, key_entries, payloads)?;
    check_children(depth, value_entries, keys.later)?;
    if keys.ascend {
        Ok(())
    } else {
        Err(Fault::Keys)
    }
}

// Checks an array's items or an object's values, which end their container.
#[cycle(container)]
fn check_children(depth: usize, entries: &[u8], payloads: &[u8]) -> Result<(), Fault>
    requires { length entries.now % 4 ≡ 0 }
    ensures { HoldsOrExcludes depth result (λ d. HasChildren d entries.now payloads.now) }
{
    let mut entries_left = entries;
    let mut payloads_left = payloads;
    while let Some(entry) = split_entry(entries_left) {
        let (payload, later) = split_payload(entry.tag, entry.number, payloads_left)?;
        check_payload(depth, entry.tag, payload)?;
        entries_left = entry.rest;
        payloads_left = later;
    }
    if payloads_left.is_empty() {
        Ok(())
    } else {
        Err(Fault::Excess)
    }
}

// What checking an object's keys found.
#[derive(Clone, Copy)]
struct Keys<'a> {
    // The keys are strings and ascend strictly.
    ascend: bool,
    later: &'a [u8],
}

// Checks an object's keys. Bad key order is reported only if no value is faulty, so it is part of
// the result and not an error.
#[cycle(container)]
fn check_keys<'a>(depth: usize, entries: &[u8], payloads: &'a [u8]) -> Result<Keys<'a>, Fault>
    requires { length entries.now % 4 ≡ 0 }
    ensures keys { IfOk result (λ k. IsTrue k.ascend
        → HasKeys None entries.now payloads.now k.later.now) }
    ensures ascend { IfOk result (λ k. (q : List ℕ) → HasKeys None entries.now payloads.now q
        → IsTrue k.ascend) }
    ensures shorter { IfOk result (λ k. length k.later.now ≤ length payloads.now) }
    ensures none { OnErr result
        ((q : List ℕ) → HasKeys None entries.now payloads.now q → ⊥) }
{
    let mut entries_left = entries;
    let mut payloads_left = payloads;
    let mut before: Option<&[u8]> = None;
    let mut ascend = true;
    while let Some(entry) = split_entry(entries_left) {
        let (key, later) = split_payload(entry.tag, entry.number, payloads_left)?;
        check_key(depth, entry.tag, key)?;
        ascend &= is_key_after(before, entry.tag, key);
        entries_left = entry.rest;
        payloads_left = later;
        before = Some(key);
    }
    Ok(Keys {
        ascend,
        later: payloads_left,
    })
}

// Whether a child with this type and payload can be the key after `before`.
#[inline(always)]
fn is_key_after(before: Option<&[u8]>, tag: u32, key: &[u8]) -> bool
    ensures { IsTrue result ↔ IsKeyAfter (option_map (λ b. b.now) before.entry) tag key.now }
{
    let ascends = match before {
        Some(before) => is_below(before, key),
        None => true,
    };
    ascends && tag == STRING_TAG
}

// Whether `left` is less than `right`. Usually their first words decide.
#[inline(always)]
fn is_below(left: &[u8], right: &[u8]) -> bool
    ensures { IsTrue result ↔ (slice_cmp nat_cmp left.now right.now ≡ Ordering.Less) }
{
    match (split_word(left), split_word(right)) {
        (Some((first, _)), Some((second, _))) if first != second => first < second,
        _ => left.cmp(&right) == Ordering::Less,
    }
}

// The payload of an entry, and the bytes after it.
#[inline(always)]
fn split_payload<'a>(
    tag: u32,
    number: usize,
    payloads: &'a [u8],
) -> Result<(&'a [u8], &'a [u8]), Fault>
    ensures payload { IfOk result (λ x. x.0.now ≡ take number payloads.now) }
    ensures later { IfOk result (λ x. x.1.now ≡ drop number payloads.now) }
    ensures fits { OnOk result (number ≤ length payloads.now) }
    ensures past { OnErr result (length payloads.now < number) }
{
    if number > payloads.len() {
        return Err(Fault::Bounds(tag));
    }
    Ok(payloads.split_at(number))
}

// Checks the payload of a key, which is almost always a string.
#[cycle(container)]
#[inline(always)]
fn check_key(depth: usize, tag: u32, payload: &[u8]) -> Result<(), Fault>
    ensures { HoldsOrExcludes depth result (λ d. HasPayload d tag payload.now) }
{
    if tag == STRING_TAG {
        check_text(payload)
    } else {
        check_no_key(depth, tag, payload)
    }
}

// Checks the payload of an entry in a key's position that is not a string.
#[cycle(container)]
#[cold]
#[inline(never)]
fn check_no_key(depth: usize, tag: u32, payload: &[u8]) -> Result<(), Fault>
    ensures { HoldsOrExcludes depth result (λ d. HasPayload d tag payload.now) }
{
    check_payload(depth, tag, payload)
}

// Checks the payload of an entry of this type.
#[cycle(container)]
#[inline(always)]
fn check_payload(depth: usize, tag: u32, payload: &[u8]) -> Result<(), Fault>
    ensures { HoldsOrExcludes depth result (λ d. HasPayload d tag payload.now) }
{
    if tag == CONTAINER_TAG {
        check_container(depth, payload)
    } else {
        check_scalar_payload(tag, payload)
    }
}

// Checks the payload of an entry of this type, which is not a container.
#[inline(always)]
fn check_scalar_payload(tag: u32, payload: &[u8]) -> Result<(), Fault>
    requires { tag ≢ CONTAINER_TAG }
    ensures { HoldsOrFaults result (HasPayload 0 tag payload.now) }
{
    match tag {
        NULL_TAG | FALSE_TAG | TRUE_TAG if payload.is_empty() => Ok(()),
        STRING_TAG => check_text(payload),
        NUMBER_TAG if Number::is_payload(payload) => Ok(()),
        NUMBER_TAG => Err(Fault::Number),
        EXTENSION_TAG => match ExtensionValue::decode(payload) {
            Ok(_) => Ok(()),
            Err(Error::InvalidJsonbNumber) => Err(Fault::Number),
            Err(_) => Err(Fault::Extension),
        },
        _ => Err(Fault::Entry),
    }
}

// Checks the payload of a string. Most are ASCII, which is cheaper to check.
#[inline(always)]
pub(super) fn check_text(payload: &[u8]) -> Result<(), Fault>
    ensures { HoldsOrFaults result (IsUtf8 payload.now) }
{
    if is_all_ascii(payload) {
        Ok(())
    } else {
        check_utf8(payload)
    }
}

// Checks the payload of a string that is not ASCII. `simdutf8` takes 64 bytes in a step, and as
// long for fewer: std's test by characters is faster for the shortest alone.
#[inline(never)]
fn check_utf8(payload: &[u8]) -> Result<(), Fault>
    ensures { HoldsOrFaults result (IsUtf8 payload.now) }
{
    let is_text = if payload.len() < 20 {
        str::from_utf8(payload).is_ok()
    } else {
        is_utf8(payload)
    };
    if is_text { Ok(()) } else { Err(Fault::Text) }
}
