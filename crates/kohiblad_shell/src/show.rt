//! The bytes of a document, part by part, in a tree.

ghost use Rattle.std.specs.Prelude.{◌<◌, ◌≤◌, ◌^◌, IfSome, length};

use crate::part_lines::{
    Color, EntryWord, Look, Part, Sheet, first_bytes, push_head, push_part, sheet_for,
};
use crate::row::MAX_ROW_DEPTH;
use crate::titles::{Value, grouped_number, quoted_key, value_title, word_of};
use jsonb::layer::{Cursor, Entry};
use jsonb::read_header;
use jsonb_codec::constants::{
    ARRAY_CONTAINER_TAG, CONTAINER_TAG, EXTENSION_TAG, NUMBER_TAG, OBJECT_CONTAINER_TAG,
    SCALAR_CONTAINER_TAG, STRING_TAG,
};
use std::alloc::{AllocError, Global};

/// Where a value is: its entry word, unless it is the whole document, the place of its payload,
/// what stands before it in the tree on its first line and on those after it, and what leads to it.
#[derive(Clone, Copy)]
pub struct Spot<'a> {
    pub entry: Option<EntryWord>,
    pub place: usize,
    pub lead: &'a [u8],
    pub rest: &'a [u8],
    pub label: &'a [u8],
}

/// An array or object: its bytes, their place, and what stands in the tree before what is inside.
#[derive(Clone, Copy)]
pub struct Inside<'a> {
    pub bytes: &'a [u8],
    pub place: usize,
    pub around: &'a [u8],
}

/// A child of an array or object: its entry, the place of the entry word in the container, and
/// whether it is the last one.
#[derive(Clone, Copy)]
pub struct Child {
    pub entry: Entry,
    pub word: usize,
    pub is_last: bool,
}

// The items of an array: how many there are, and their entries.
#[derive(Drop)]
struct Items<'a> {
    count: usize,
    entries: Cursor<'a>,
}

// The members of an object: how many there are, and the entries of their keys and values.
#[derive(Drop)]
struct Members<'a> {
    count: usize,
    keys: Cursor<'a>,
    values: Cursor<'a>,
}

/// The lines of a document: a head, and for each part its entry word and its own bytes, with their
/// places, beside the part in the tree, each before the parts inside it, and a key before its
/// value. Parts in more than 1,024 arrays and objects have no lines.
pub fn shown_lines(alloc: Global, bytes: &[u8], look: Look) -> Result<Vec<u8>, AllocError> {
    let sheet = sheet_for(alloc, look, bytes.len())?;
    let mut out = Vec::new(alloc);
    push_head(alloc, &mut out, sheet)?;
    push_parts(alloc, &mut out, sheet, bytes)?;
    Ok(out)
}

// Appends the lines of the parts of a document.
fn push_parts(
    alloc: Global,
    out: &mut Vec<u8>,
    sheet: Sheet,
    bytes: &[u8],
) -> Result<(), AllocError> {
    if is_scalar(bytes) {
        push_scalar(alloc, out, sheet, bytes)
    } else {
        push_value(
            alloc,
            out,
            sheet,
            whole_spot(),
            whole_value(bytes),
            MAX_ROW_DEPTH,
        )
    }
}

// Whether the header is that of a scalar.
fn is_scalar(bytes: &[u8]) -> bool {
    match read_header(bytes, 0) {
        Ok((kind, _)) => kind == SCALAR_CONTAINER_TAG,
        Err(_) => false,
    }
}

// Where the whole is.
fn whole_spot<'a>() -> Spot<'a> {
    Spot {
        entry: None,
        place: 0,
        lead: &[],
        rest: &[],
        label: &[],
    }
}

// The whole, if it is an array or object.
fn whole_value<'a>(bytes: &'a [u8]) -> Value<'a> {
    Value {
        type_code: CONTAINER_TAG,
        payload: bytes,
    }
}

// Appends the lines of a scalar's document: of its header, and of the value.
fn push_scalar(
    alloc: Global,
    out: &mut Vec<u8>,
    sheet: Sheet,
    bytes: &[u8],
) -> Result<(), AllocError> {
    let header = Part {
        entry: None,
        place: 0,
        own: first_bytes(bytes, 4),
        color: Color::Container,
        lead: &[],
        rest: &[],
        title: b"scalar",
    };
    push_part(alloc, out, sheet, header)?;
    let Ok(entry) = Entry::read(bytes, 4, 8) else {
        return Ok(());
    };
    let inside = Inside {
        bytes,
        place: 0,
        around: &[],
    };
    let child = Child {
        entry,
        word: 4,
        is_last: true,
    };
    push_child(alloc, out, sheet, inside, child, &[], 0)
}

// Appends the lines of a value, and of what is inside it down to so many levels.
#[cycle(show)]
fn push_value(
    alloc: Global,
    out: &mut Vec<u8>,
    sheet: Sheet,
    spot: Spot<'_>,
    value: Value<'_>,
    levels: usize,
) -> Result<(), AllocError> {
    push_own(alloc, out, sheet, spot, value)?;
    if levels == 0 {
        return Ok(());
    }
    push_nested(alloc, out, sheet, spot, value, levels - 1)
}

// Appends the lines of what is inside a value, if it is an array or object.
#[cycle(show)]
fn push_nested(
    alloc: Global,
    out: &mut Vec<u8>,
    sheet: Sheet,
    spot: Spot<'_>,
    value: Value<'_>,
    levels: usize,
) -> Result<(), AllocError> {
    if value.type_code != CONTAINER_TAG {
        return Ok(());
    }
    let inside = Inside {
        bytes: value.payload,
        place: spot.place,
        around: spot.rest,
    };
    push_inside(alloc, out, sheet, inside, levels)
}

// Appends the lines of a value without what is inside it.
fn push_own(
    alloc: Global,
    out: &mut Vec<u8>,
    sheet: Sheet,
    spot: Spot<'_>,
    value: Value<'_>,
) -> Result<(), AllocError> {
    let title = value_title(alloc, value)?;
    let labeled = joined(alloc, spot.label, &title)?;
    let part = Part {
        entry: spot.entry,
        place: spot.place,
        own: own_bytes(value),
        color: color_of(value.type_code),
        lead: spot.lead,
        rest: spot.rest,
        title: &labeled,
    };
    push_part(alloc, out, sheet, part)
}

// The own bytes of a value: of an array or object those of its header.
fn own_bytes<'a>(value: Value<'a>) -> &'a [u8] {
    if value.type_code == CONTAINER_TAG {
        first_bytes(value.payload, 4)
    } else {
        value.payload
    }
}

// The color of a value of this type.
fn color_of(type_code: u32) -> Color {
    match type_code {
        CONTAINER_TAG => Color::Container,
        STRING_TAG => Color::Text,
        NUMBER_TAG => Color::Number,
        EXTENSION_TAG => Color::Extension,
        _ => Color::Constant,
    }
}

// Two texts after one another.
fn joined(alloc: Global, first: &[u8], second: &[u8]) -> Result<Vec<u8>, AllocError> {
    let mut both = Vec::new(alloc);
    both.extend_from_slice(first)?;
    both.extend_from_slice(second)?;
    Ok(both)
}

// Appends the lines of what is inside an array or object.
#[cycle(show)]
fn push_inside(
    alloc: Global,
    out: &mut Vec<u8>,
    sheet: Sheet,
    inside: Inside<'_>,
    levels: usize,
) -> Result<(), AllocError> {
    match header_in(inside.bytes) {
        Some((ARRAY_CONTAINER_TAG, count)) => {
            let entries = Cursor::over_items(inside.bytes, count);
            let items = Items { count, entries };
            push_items(alloc, out, sheet, inside, items, levels)
        }
        Some((OBJECT_CONTAINER_TAG, count)) => {
            let keys = Cursor::over_keys(inside.bytes, count);
            let Ok(values) = Cursor::over_values(inside.bytes, count) else {
                return Ok(());
            };
            let members = Members {
                count,
                keys,
                values,
            };
            push_members(alloc, out, sheet, inside, members, levels)
        }
        _ => Ok(()),
    }
}

// The kind of the header, and its count. `None` if it cannot be read.
fn header_in(bytes: &[u8]) -> Option<(u32, usize)>
    ensures few { IfSome result (λ header. header.1 < 2 ^ 29) }
    ensures there { IfSome result (λ header. 4 ≤ length bytes.now) }
{
    match read_header(bytes, 0) {
        Ok(header) => Some(header),
        Err(_) => None,
    }
}

// The next entry. `None` after the last one, and if it cannot be read.
fn next_entry(entries: &mut Cursor<'_>) -> Option<Entry> {
    match entries.next() {
        Some(Ok(entry)) => Some(entry),
        _ => None,
    }
}

// The place of the entry word in an array or object that comes after so many others.
fn word_place(index: usize) -> usize {
    index.saturating_mul(4).saturating_add(4)
}

// The payload of an entry that was read from these bytes.
fn payload_in<'a>(bytes: &'a [u8], entry: Entry) -> &'a [u8] {
    let end = entry.start.saturating_add(entry.length);
    bytes.get(entry.start..end).unwrap_or(&[])
}

// Appends the lines of the items of an array.
#[cycle(show)]
fn push_items(
    alloc: Global,
    out: &mut Vec<u8>,
    sheet: Sheet,
    inside: Inside<'_>,
    items: Items<'_>,
    levels: usize,
) -> Result<(), AllocError> {
    let Items { count, mut entries } = items;
    for index in 0..count {
        let Some(entry) = next_entry(&mut entries) else {
            return Ok(());
        };
        let child = Child {
            entry,
            word: word_place(index),
            is_last: index + 1 == count,
        };
        let label = joined(alloc, &grouped_number(alloc, index)?, b": ")?;
        push_child(alloc, out, sheet, inside, child, &label, levels)?;
    }
    Ok(())
}

// Appends the lines of the members of an object, each key before its value.
#[cycle(show)]
fn push_members(
    alloc: Global,
    out: &mut Vec<u8>,
    sheet: Sheet,
    inside: Inside<'_>,
    members: Members<'_>,
    levels: usize,
) -> Result<(), AllocError> {
    let Members {
        count,
        mut keys,
        mut values,
    } = members;
    for index in 0..count {
        let (Some(key), Some(entry)) = (next_entry(&mut keys), next_entry(&mut values)) else {
            return Ok(());
        };
        let name = quoted_key(alloc, payload_in(inside.bytes, key))?;
        push_key(alloc, out, sheet, inside, key, word_place(index), &name)?;
        let child = Child {
            entry,
            word: word_place(count.saturating_add(index)),
            is_last: index + 1 == count,
        };
        let label = joined(alloc, &name, b": ")?;
        push_child(alloc, out, sheet, inside, child, &label, levels)?;
    }
    Ok(())
}

// Appends the lines of a key.
fn push_key(
    alloc: Global,
    out: &mut Vec<u8>,
    sheet: Sheet,
    inside: Inside<'_>,
    key: Entry,
    word: usize,
    name: &[u8],
) -> Result<(), AllocError> {
    let lead = joined(alloc, inside.around, branch(false).as_bytes())?;
    let rest = joined(alloc, inside.around, stem(false).as_bytes())?;
    let title = joined(alloc, b"key ", name)?;
    let part = Part {
        entry: Some(entry_word(inside, key, word)),
        place: inside.place.saturating_add(key.start),
        own: payload_in(inside.bytes, key),
        color: Color::Key,
        lead: &lead,
        rest: &rest,
        title: &title,
    };
    push_part(alloc, out, sheet, part)
}

// Appends the lines of a child, to which a label leads.
#[cycle(show)]
fn push_child(
    alloc: Global,
    out: &mut Vec<u8>,
    sheet: Sheet,
    inside: Inside<'_>,
    child: Child,
    label: &[u8],
    levels: usize,
) -> Result<(), AllocError> {
    let lead = joined(alloc, inside.around, branch(child.is_last).as_bytes())?;
    let rest = joined(alloc, inside.around, stem(child.is_last).as_bytes())?;
    let spot = Spot {
        entry: Some(entry_word(inside, child.entry, child.word)),
        place: inside.place.saturating_add(child.entry.start),
        lead: &lead,
        rest: &rest,
        label,
    };
    let value = Value {
        type_code: child.entry.type_code,
        payload: payload_in(inside.bytes, child.entry),
    };
    push_value(alloc, out, sheet, spot, value, levels)
}

// The entry word of an entry, and its place in the document.
fn entry_word(inside: Inside<'_>, entry: Entry, word: usize) -> EntryWord {
    EntryWord {
        place: inside.place.saturating_add(word),
        word: word_of(entry.type_code, entry.length),
    }
}

// What leads to a child in the tree.
fn branch(is_last: bool) -> &'static str {
    if is_last { "└─ " } else { "├─ " }
}

// What goes on below that.
fn stem(is_last: bool) -> &'static str {
    if is_last { "   " } else { "│  " }
}
