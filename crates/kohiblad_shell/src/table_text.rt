//! Texts as fields of a table.

ghost use Rattle.std.specs.Prelude.{◌≡◌, ◌++◌, IfOk, OnOk};
ghost use Rattle.std.specs.List.{list_any};
ghost use Rattle.kohiblad_shell.specs.Words.{absent_field, csv_text, doubled, ends_field};
ghost use Rattle.kohiblad_shell.specs.Words.{escape_letter, is_quoted, separator, text_field};
ghost use Rattle.kohiblad_shell.specs.Words.{tsv_text};

use std::alloc::{AllocError, Global};

/// How the lines of a table are laid out.
#[derive(Clone, Copy)]
pub enum TableLayout {
    /// With commas, as RFC 4180 has it.
    Csv,
    /// With tabs, and with escapes as those of `COPY` in PostgreSQL.
    Tsv,
}

impl TableLayout {
    /// The byte between two fields.
    pub fn separator(self) -> u8
        ensures { result ≡ separator self }
    {
        match self {
            TableLayout::Csv => b',',
            TableLayout::Tsv => b'\t',
        }
    }
}

/// The field where there is no value.
pub fn absent_field(alloc: Global, layout: TableLayout) -> Result<Vec<u8>, AllocError>
    ensures { IfOk result (λ field. field.items ≡ absent_field layout) }
{
    match layout {
        TableLayout::Csv => Ok(Vec::new(alloc)),
        TableLayout::Tsv => b"\\N".to_vec(alloc),
    }
}

/// A text as a field.
pub fn text_field(alloc: Global, layout: TableLayout, text: &str) -> Result<Vec<u8>, AllocError>
    ensures { IfOk result (λ field. field.items ≡ text_field layout text.now) }
{
    match layout {
        TableLayout::Csv => csv_text(alloc, text),
        TableLayout::Tsv => tsv_text(alloc, text),
    }
}

// A text with escapes for tabs, line feeds, carriage returns and backslashes.
fn tsv_text(alloc: Global, text: &str) -> Result<Vec<u8>, AllocError>
    ensures { IfOk result (λ field. field.items ≡ tsv_text text.now) }
{
    let mut field = Vec::new(alloc);
    for byte in text.as_bytes() {
        match escape_letter(*byte) {
            Some(letter) => {
                field.push(b'\\')?;
                field.push(letter)?;
            }
            None => field.push(*byte)?,
        }
    }
    Ok(field)
}

// What stands after a backslash for a byte that has an escape.
fn escape_letter(byte: u8) -> Option<u8>
    ensures { result ≡ escape_letter byte }
{
    match byte {
        b'\t' => Some(b't'),
        b'\n' => Some(b'n'),
        b'\r' => Some(b'r'),
        b'\\' => Some(b'\\'),
        _ => None,
    }
}

// A text as a field: between quotes, its own doubled, where it must be.
fn csv_text(alloc: Global, text: &str) -> Result<Vec<u8>, AllocError>
    ensures { IfOk result (λ field. field.items ≡ csv_text text.now) }
{
    let mut field = Vec::new(alloc);
    if is_quoted(text) {
        field.push(b'"')?;
        push_doubled(&mut field, text)?;
        field.push(b'"')?;
    } else {
        field.extend_from_slice(text.as_bytes())?;
    }
    Ok(field)
}

// Whether a text is written between quotes: if it is empty, so that it is not taken for none, or
// has a byte that its field may not have otherwise.
fn is_quoted(text: &str) -> bool
    ensures { result ≡ is_quoted text.now }
{
    text.is_empty() || has_end(text.as_bytes())
}

// Whether a byte of a text would end its field.
fn has_end(text: &[u8]) -> bool
    ensures { result ≡ list_any ends_field text.now }
{
    text.iter().any(|byte| ends_field(*byte))
}

// Whether a byte is a comma, a quote or part of the end of a line.
fn ends_field(byte: u8) -> bool
    ensures { result ≡ ends_field byte }
{
    matches!(byte, b',' | b'"' | b'\n' | b'\r')
}

// Appends a text with its quotes doubled.
fn push_doubled(field: &mut Vec<u8>, text: &str) -> Result<(), AllocError>
    ensures { OnOk result (field.new.items ≡ field.old.items ++ doubled text.now) }
{
    for byte in text.as_bytes() {
        if *byte == b'"' {
            field.push(b'"')?;
        }
        field.push(*byte)?;
    }
    Ok(())
}
