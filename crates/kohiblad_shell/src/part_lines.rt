//! The lines of a document's parts: an entry word, the bytes that belong to it, and the part in the
//! tree.

use crate::titles::grouped_number;
use std::alloc::{AllocError, Global};

// How many bytes a line has.
const LINE_BYTES: usize = 12;

// How many bytes of a part are shown, if not all are.
const FEW_BYTES: usize = 48;

// How wide the bytes of a line are, with a blank after each four.
const BYTES_WIDTH: usize = 26;

// How wide an entry word is.
const WORD_WIDTH: usize = 8;

/// How the parts of documents are shown.
#[derive(Clone, Copy, Debug, PartialEq, Eq)]
pub struct Look {
    /// Whether all bytes of a part are shown, and not only four lines of them.
    pub is_whole: bool,
    /// Whether words are colored, as terminals show them.
    pub is_colored: bool,
}

/// The page on which the parts of a document are shown: places take so many characters.
#[derive(Clone, Copy)]
pub struct Sheet {
    pub look: Look,
    pub place_width: usize,
}

/// What a word of a line is, which decides its color.
#[derive(Clone, Copy, Debug, PartialEq, Eq)]
pub enum Color {
    Place,
    Entry,
    Container,
    Key,
    Text,
    Number,
    Constant,
    Extension,
}

/// An entry word and its place.
#[derive(Clone, Copy)]
pub struct EntryWord {
    pub place: usize,
    pub word: u32,
}

/// A part of a document: its entry word, if it has one, its own bytes and their place, and what
/// stands in the tree on its first line and on the lines after it.
#[derive(Clone, Copy)]
pub struct Part<'a> {
    pub entry: Option<EntryWord>,
    pub place: usize,
    pub own: &'a [u8],
    pub color: Color,
    pub lead: &'a [u8],
    pub rest: &'a [u8],
    pub title: &'a [u8],
}

// A line of a part.
#[derive(Clone, Copy)]
pub struct Line<'a> {
    pub entry: Option<EntryWord>,
    pub place: Option<usize>,
    pub shown: &'a [u8],
    pub color: Color,
    pub lead: &'a [u8],
    pub title: &'a [u8],
}

/// The page for a document of so many bytes.
pub fn sheet_for(alloc: Global, look: Look, len: usize) -> Result<Sheet, AllocError> {
    let digits = format!(in alloc; "{len}")?;
    let place_width = digits.len().max(2);
    Ok(Sheet { look, place_width })
}

/// Appends the line above all parts.
pub fn push_head(alloc: Global, out: &mut Vec<u8>, sheet: Sheet) -> Result<(), AllocError> {
    let text = head_text(alloc, sheet)?;
    push_painted(out, sheet.look, Color::Place, &text)?;
    out.push(b'\n')?;
    Ok(())
}

// The names of the columns.
fn head_text(alloc: Global, sheet: Sheet) -> Result<Vec<u8>, AllocError> {
    let mut text = Vec::new(alloc);
    push_heading(&mut text, sheet, b"entry", WORD_WIDTH)?;
    push_heading(&mut text, sheet, b"bytes", BYTES_WIDTH)?;
    text.extend_from_slice(b"tree")?;
    Ok(text)
}

// Appends the name of a column of this width, after blanks for the places that it has.
fn push_heading(
    text: &mut Vec<u8>,
    sheet: Sheet,
    name: &[u8],
    width: usize,
) -> Result<(), AllocError> {
    push_blanks(text, sheet.place_width)?;
    text.push(b' ')?;
    push_on_left(text, name, width)?;
    push_blanks(text, 2)
}

/// Appends the lines of a part.
pub fn push_part(
    alloc: Global,
    out: &mut Vec<u8>,
    sheet: Sheet,
    part: Part<'_>,
) -> Result<(), AllocError> {
    let shown = shown_bytes(sheet.look, part.own);
    let (first, others) = split_line(shown);
    push_first_line(alloc, out, sheet, part, first)?;
    push_more_lines(alloc, out, sheet, part, others)?;
    let left_out = part.own.len().saturating_sub(shown.len());
    push_cut(alloc, out, sheet, part, left_out)
}

// The bytes of a part that are shown.
fn shown_bytes(look: Look, own: &[u8]) -> &[u8] {
    if look.is_whole {
        own
    } else {
        first_bytes(own, FEW_BYTES)
    }
}

/// The first bytes, at most so many.
pub fn first_bytes(bytes: &[u8], count: usize) -> &[u8] {
    &bytes[..bytes.len().min(count)]
}

// The bytes of a line, and those after them.
fn split_line(bytes: &[u8]) -> (&[u8], &[u8]) {
    bytes.split_at(bytes.len().min(LINE_BYTES))
}

// Appends the first line of a part, with its entry word and its title.
fn push_first_line(
    alloc: Global,
    out: &mut Vec<u8>,
    sheet: Sheet,
    part: Part<'_>,
    bytes: &[u8],
) -> Result<(), AllocError> {
    let place = if bytes.is_empty() {
        None
    } else {
        Some(part.place)
    };
    let shown = grouped_bytes(alloc, bytes)?;
    let line = Line {
        entry: part.entry,
        place,
        shown: &shown,
        color: part.color,
        lead: part.lead,
        title: part.title,
    };
    push_line(alloc, out, sheet, line)
}

// Appends the lines of the bytes after those of the first line.
fn push_more_lines(
    alloc: Global,
    out: &mut Vec<u8>,
    sheet: Sheet,
    part: Part<'_>,
    bytes: &[u8],
) -> Result<(), AllocError> {
    let mut place = part.place;
    for shown in bytes.chunks(LINE_BYTES) {
        place = place.saturating_add(LINE_BYTES);
        let shown = grouped_bytes(alloc, shown)?;
        push_later_line(alloc, out, sheet, part, Some(place), &shown)?;
    }
    Ok(())
}

// Appends a line that says how many bytes of a part are not shown, if there are any.
fn push_cut(
    alloc: Global,
    out: &mut Vec<u8>,
    sheet: Sheet,
    part: Part<'_>,
    count: usize,
) -> Result<(), AllocError> {
    if count == 0 {
        return Ok(());
    }
    let shown = cut_text(alloc, count)?;
    push_later_line(alloc, out, sheet, part, None, &shown)
}

// What stands for so many bytes that are not shown.
fn cut_text(alloc: Global, count: usize) -> Result<Vec<u8>, AllocError> {
    let mut text = Vec::new(alloc);
    text.extend_from_slice(b".. ")?;
    text.extend_from_slice(&grouped_number(alloc, count)?)?;
    text.extend_from_slice(b" more bytes")?;
    Ok(text)
}

// Appends a line of a part that is not the first.
fn push_later_line(
    alloc: Global,
    out: &mut Vec<u8>,
    sheet: Sheet,
    part: Part<'_>,
    place: Option<usize>,
    shown: &[u8],
) -> Result<(), AllocError> {
    let line = Line {
        entry: None,
        place,
        shown,
        color: part.color,
        lead: part.rest,
        title: &[],
    };
    push_line(alloc, out, sheet, line)
}

// Appends a line, without the blanks at its end.
fn push_line(
    alloc: Global,
    out: &mut Vec<u8>,
    sheet: Sheet,
    line: Line<'_>,
) -> Result<(), AllocError> {
    let text = line_text(alloc, sheet, line)?;
    out.extend_from_slice(text.trim_ascii_end())?;
    out.push(b'\n')?;
    Ok(())
}

// The columns of a line.
fn line_text(alloc: Global, sheet: Sheet, line: Line<'_>) -> Result<Vec<u8>, AllocError> {
    let mut text = Vec::new(alloc);
    push_entry(alloc, &mut text, sheet, line.entry)?;
    text.extend_from_slice(b"  ")?;
    push_place(alloc, &mut text, sheet, line.place)?;
    text.push(b' ')?;
    push_column(
        alloc,
        &mut text,
        sheet.look,
        line.color,
        line.shown,
        BYTES_WIDTH,
    )?;
    text.extend_from_slice(b"  ")?;
    text.extend_from_slice(line.lead)?;
    push_painted(&mut text, sheet.look, line.color, line.title)?;
    Ok(text)
}

// Appends an entry word after its place, or blanks if there is none.
fn push_entry(
    alloc: Global,
    text: &mut Vec<u8>,
    sheet: Sheet,
    entry: Option<EntryWord>,
) -> Result<(), AllocError> {
    match entry {
        Some(entry) => {
            push_place(alloc, text, sheet, Some(entry.place))?;
            text.push(b' ')?;
            let bytes = entry.word.to_be_bytes();
            let word = hex::encode(alloc, bytes.as_slice())?;
            push_column(
                alloc,
                text,
                sheet.look,
                Color::Entry,
                word.as_bytes(),
                WORD_WIDTH,
            )
        }
        None => {
            push_blanks(text, sheet.place_width)?;
            push_blanks(text, WORD_WIDTH + 1)
        }
    }
}

// Appends a place at the right of its column, or blanks if there is none.
fn push_place(
    alloc: Global,
    text: &mut Vec<u8>,
    sheet: Sheet,
    place: Option<usize>,
) -> Result<(), AllocError> {
    let Some(place) = place else {
        return push_blanks(text, sheet.place_width);
    };
    let digits = format!(in alloc; "{place}")?;
    let mut column = Vec::new(alloc);
    push_blanks(&mut column, sheet.place_width.saturating_sub(digits.len()))?;
    column.extend_from_slice(digits.as_bytes())?;
    push_painted(text, sheet.look, Color::Place, &column)
}

// Appends a text at the left of its column.
fn push_column(
    alloc: Global,
    text: &mut Vec<u8>,
    look: Look,
    color: Color,
    shown: &[u8],
    width: usize,
) -> Result<(), AllocError> {
    let mut column = Vec::new(alloc);
    push_on_left(&mut column, shown, width)?;
    push_painted(text, look, color, &column)
}

// Appends a text, and blanks up to a width.
fn push_on_left(column: &mut Vec<u8>, shown: &[u8], width: usize) -> Result<(), AllocError> {
    column.extend_from_slice(shown)?;
    push_blanks(column, width.saturating_sub(shown.len()))
}

// Appends so many blanks.
fn push_blanks(text: &mut Vec<u8>, count: usize) -> Result<(), AllocError> {
    for _ in 0..count {
        text.push(b' ')?;
    }
    Ok(())
}

// Appends a word in its color, if there are colors and the word is not blank.
fn push_painted(
    text: &mut Vec<u8>,
    look: Look,
    color: Color,
    word: &[u8],
) -> Result<(), AllocError> {
    if look.is_colored && !is_blank(word) {
        text.extend_from_slice(b"\x1b[")?;
        text.extend_from_slice(color_code(color).as_bytes())?;
        text.push(b'm')?;
        text.extend_from_slice(word)?;
        text.extend_from_slice(b"\x1b[0m")?;
    } else {
        text.extend_from_slice(word)?;
    }
    Ok(())
}

// Whether there is nothing but blanks.
fn is_blank(word: &[u8]) -> bool {
    word.iter().all(|byte| *byte == b' ')
}

// The code of a color for a terminal.
fn color_code(color: Color) -> &'static str {
    match color {
        Color::Place => "2",
        Color::Entry => "34",
        Color::Container => "1",
        Color::Key => "36",
        Color::Text => "32",
        Color::Number => "33",
        Color::Constant => "35",
        Color::Extension => "31",
    }
}

// Bytes in hexadecimal, with a blank after each four that others follow.
fn grouped_bytes(alloc: Global, bytes: &[u8]) -> Result<Vec<u8>, AllocError> {
    let mut text = Vec::new(alloc);
    let mut left = bytes;
    while let [a, b, c, d, rest @ ..] = left {
        let word = [*a, *b, *c, *d];
        text.extend_from_slice(hex::encode(alloc, word.as_slice())?.as_bytes())?;
        if !rest.is_empty() {
            text.push(b' ')?;
        }
        left = rest;
    }
    text.extend_from_slice(hex::encode(alloc, left)?.as_bytes())?;
    Ok(text)
}
