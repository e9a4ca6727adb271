//! The buffers of a column, which borrow the bytes of a file.

ghost use Rattle.std.specs.Prelude.{◌≡◌, ◌<◌, ◌≤◌, ◌+◌, ◌-◌, ◌*◌, ◌/◌, ◌^◌, ◌↔◌, IsTrue};
ghost use Rattle.std.specs.Prelude.{MatchOption, length, option_map, ℕ};
ghost use Rattle.jsonb_typed_file.specs.Words.{AreColumnTexts, HasRows, HasTexts, IsSpanAt};
ghost use Rattle.jsonb_typed_file.specs.Words.{IsTextOfRow, buffers_view, column_cell, is_set};
ghost use Rattle.jsonb_typed_file.specs.Words.{number_size, stored_view, string_at, value_tree};
ghost use Rattle.jsonb_typed_file.specs.OneRow.{column_of_row, flags_of_row};

use crate::column::StoredValue;
use crate::fixed::{fixed_value, value_size};
use crate::strings::Strings;
use jsonb::ExtensionValue;
use jsonb_typed::ScalarType;

/// A column's name, its type and its buffers.
#[derive(Clone, Copy, Debug)]
pub struct Buffers<'a> {
    pub name: &'a str,
    pub column_type: ScalarType,
    pub flags: &'a [u8],
    pub numbers: &'a [u8],
    pub texts: &'a [u8],
}

impl<'a> Buffers<'a> {
    // The value of a row, of so many rows. `None` if its flag is not set.
    pub fn cell(&self, rows: usize, index: usize) -> Option<StoredValue<'a>>
        requires size { HasRows rows (buffers_view self.now) }
        requires texts { AreColumnTexts rows (buffers_view self.now) }
        requires within { index < rows }
        ensures { option_map stored_view result ≡ column_cell (buffers_view self.now) index }
    {
        if is_set(self.flags, index) {
            self.stored(rows, index)
        } else {
            None
        }
    }

    // The value in the buffers at a row, whatever its flag.
    #[tactic(auto, using(crate::proofs::FixedLaws::value_within))]
    fn stored(&self, rows: usize, index: usize) -> Option<StoredValue<'a>>
        requires size { HasRows rows (buffers_view self.now) }
        requires texts { AreColumnTexts rows (buffers_view self.now) }
        requires within { index < rows }
        ensures { option_map stored_view result
            ≡ value_tree self.now.column_type self.now.numbers.now self.now.texts.now index }
    {
        match self.column_type {
            ScalarType::Text => match self.text(index) {
                Some(text) => Some(StoredValue::Text(text)),
                None => None,
            },
            ScalarType::Binary => match self.bytes(index) {
                Some(bytes) => Some(StoredValue::Extension(ExtensionValue::Binary(bytes))),
                None => None,
            },
            column_type => {
                let start = value_size(column_type) * index;
                fixed_value(column_type, &self.numbers[start..])
            }
        }
    }

    // The text of a row. `None` if its offsets are not in order, or it is not UTF-8.
    fn text(&self, index: usize) -> Option<&'a str>
        requires { 8 * (index + 2) ≤ length self.now.numbers.now }
        ensures { MatchOption result
            (IsTextOfRow ScalarType.Text self.now.numbers.now self.now.texts.now index → ⊥)
            (λ text. IsTextOfRow ScalarType.Text self.now.numbers.now self.now.texts.now index
            × (text.now ≡ string_at self.now.numbers.now self.now.texts.now index)) }
    {
        str::from_utf8(self.bytes(index)?).ok()
    }

    // The bytes of a row's text or binary value. `None` if its offsets are not in order.
    fn bytes(&self, index: usize) -> Option<&'a [u8]>
        requires { 8 * (index + 2) ≤ length self.now.numbers.now }
        ensures { MatchOption result
            (IsSpanAt self.now.numbers.now self.now.texts.now index → ⊥)
            (λ bytes. IsSpanAt self.now.numbers.now self.now.texts.now index
            × (bytes.now ≡ string_at self.now.numbers.now self.now.texts.now index)) }
    {
        let strings = Strings {
            offsets: self.numbers,
            bytes: self.texts,
        };
        strings.at(index)
    }

    // Whether the text of a row is UTF-8, or its binary value within the bytes, if the column is of
    // these.
    fn is_text(&self, index: usize) -> bool
        requires { 8 * (index + 2) ≤ length self.now.numbers.now }
        ensures { IsTrue result
            ↔ IsTextOfRow self.now.column_type self.now.numbers.now self.now.texts.now index }
    {
        match self.column_type {
            ScalarType::Text => self.text(index).is_some(),
            ScalarType::Binary => self.bytes(index).is_some(),
            _ => true,
        }
    }

    // Whether the lengths of the buffers fit so many rows.
    pub fn has_rows(&self, rows: usize) -> bool
        requires { rows < 2 ^ 60 - 1 }
        ensures { IsTrue result ↔ HasRows rows (buffers_view self.now) }
    {
        self.flags.len() == rows.div_ceil(8)
            && self.numbers.len() == number_size(self.column_type, rows)
            && has_texts(self.column_type, self.texts)
    }

    // Whether the texts of so many rows are UTF-8, or the binary values within the bytes.
    pub fn are_texts(&self, rows: usize) -> bool
        requires { HasRows rows (buffers_view self.now) }
        ensures { IsTrue result ↔ AreColumnTexts rows (buffers_view self.now) }
    {
        match self.column_type {
            ScalarType::Text | ScalarType::Binary => self.all_texts(rows),
            _ => true,
        }
    }

    // The column of one of the rows alone.
    pub fn row_alone(&self, rows: usize, index: usize) -> Buffers<'a>
        requires size { HasRows rows (buffers_view self.now) }
        requires few { rows < 2 ^ 60 - 1 }
        requires within { index < rows }
        ensures { buffers_view result ≡ column_of_row (buffers_view self.now) index }
    {
        let start = number_size(self.column_type, index) - number_size(self.column_type, 0);
        let end = number_size(self.column_type, index + 1);
        Buffers {
            name: self.name,
            column_type: self.column_type,
            flags: flags_of_row(self.flags, index),
            numbers: &self.numbers[start..end],
            texts: self.texts,
        }
    }

    // The same of a column of texts or binary values.
    fn all_texts(&self, rows: usize) -> bool
        requires { length self.now.numbers.now ≡ 8 * (rows + 1) }
        ensures { IsTrue result ↔ ((index : ℕ) → index < rows
            → IsTextOfRow self.now.column_type self.now.numbers.now self.now.texts.now index) }
    {
        for index in 0..rows {
            if !self.is_text(index) {
                return false;
            }
        }
        true
    }
}

// Whether a row has a value.
fn is_set(flags: &[u8], index: usize) -> bool
    requires { index / 8 < length flags.now }
    ensures { result ≡ is_set flags.now index }
{
    flags[index / 8] >> (index % 8) & 1 == 1
}

// The flags of one row that has a value, and of one that has none.
const SET: &[u8] = &[1];

const UNSET: &[u8] = &[0];

// The flags of one of the rows alone.
fn flags_of_row(flags: &[u8], index: usize) -> &'static [u8]
    requires { index / 8 < length flags.now }
    ensures { result.now ≡ flags_of_row flags.now index }
{
    if is_set(flags, index) { SET } else { UNSET }
}

// How many bytes the numbers of so many rows take.
#[tactic(auto, using(crate::proofs::FixedLaws::values_few))]
fn number_size(column_type: ScalarType, rows: usize) -> usize
    requires { rows < 2 ^ 60 - 1 }
    ensures { result ≡ number_size column_type rows }
{
    match column_type {
        ScalarType::Text | ScalarType::Binary => 8 * (rows + 1),
        _ => value_size(column_type) * rows,
    }
}

// Whether there are no bytes of texts but in a column of texts or binary values.
fn has_texts(column_type: ScalarType, texts: &[u8]) -> bool
    ensures { IsTrue result ↔ HasTexts column_type texts.now }
{
    match column_type {
        ScalarType::Text | ScalarType::Binary => true,
        _ => texts.is_empty(),
    }
}
