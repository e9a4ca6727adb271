//! A column of a file.

ghost use Rattle.std.specs.Prelude.{◌≡◌, option_map};
ghost use Rattle.jsonb_typed_file.specs.Words.{Column, IsChecked, buffers_view, cell_within};
ghost use Rattle.jsonb_typed_file.specs.Words.{stored_view};

use crate::buffers::Buffers;
use jsonb::{ExtensionValue, Number};
use jsonb_typed::ScalarType;
use std::marker::Model;

/// A checked column of a file: its name, its type and its buffers, which borrow the bytes of the
/// file.
#[derive(Drop)]
pub struct StoredColumn<'a> {
    rows: usize,
    buffers: Buffers<'a>,
}

// In contracts a column is its parts and the number of rows.
impl<'a> Model for StoredColumn<'a> {
    ghost Value = { Column };

    ghost view = { λ s. record { rows = s.rows; parts = buffers_view s.buffers } };

    ghost invariant = { λ s. IsChecked s.rows (buffers_view s.buffers) };
}

/// A value of a stored column.
#[derive(Clone, Copy, Debug, PartialEq)]
pub enum StoredValue<'a> {
    /// `true` or `false`.
    Boolean(bool),
    /// A number, in the kind that its digits have in a JSON text.
    Number(Number),
    /// A text.
    Text(&'a str),
    /// A date, a timestamp without a time zone or with one, an interval or a binary value.
    Extension(ExtensionValue<'a>),
}

impl<'a> StoredColumn<'a> {
    // The column of these buffers, which were checked.
    pub(crate) fn new(rows: usize, buffers: Buffers<'a>) -> Self
        requires { IsChecked rows (buffers_view buffers) }
        ensures { result ≡ record { rows = rows; parts = buffers_view buffers.entry } }
    {
        StoredColumn { rows, buffers }
    }

    /// The number of rows of the file.
    pub fn len(&self) -> usize
        ensures { result ≡ self.now.rows }
    {
        self.rows
    }

    /// The key of the members that are kept in the column.
    pub fn name(&self) -> &'a str
        ensures { result.now ≡ self.now.parts.name }
    {
        self.buffers.name
    }

    /// The type of the values.
    pub fn column_type(&self) -> ScalarType
        ensures { result ≡ self.now.parts.type }
    {
        self.buffers.column_type
    }

    /// The value of the row at this index, counted from 0. `None` if the column has no value of
    /// that row, or the index is not below the number of rows.
    pub fn value(&self, index: usize) -> Option<StoredValue<'a>>
        ensures { option_map stored_view result
            ≡ cell_within self.now.rows self.now.parts index }
    {
        if index < self.rows {
            self.buffers.cell(self.rows, index)
        } else {
            None
        }
    }

    /// Which rows have a value in the column: a bit for each row, eight in a byte, the first row in
    /// the lowest bit. The bit is 1 if the row has a value.
    pub fn flags(&self) -> &'a [u8]
        ensures { result.now ≡ self.now.parts.flags }
    {
        self.buffers.flags
    }

    /// The numbers, each with its highest byte first. A row has 1 byte in a column of booleans, 4
    /// bytes in one of dates, 8 in one of integers or timestamps, and 16 in one of decimals. A
    /// timestamp with a zone has 8 bytes and then 4 of the zone's offset; an interval has 4 of
    /// months, 4 of days and 8 of microseconds. In a column of texts or binary values these are the
    /// offsets into `texts`, 8 bytes each, one more than there are rows.
    pub fn numbers(&self) -> &'a [u8]
        ensures { result.now ≡ self.now.parts.numbers }
    {
        self.buffers.numbers
    }

    /// The bytes of all texts or binary values, one after another.
    pub fn texts(&self) -> &'a [u8]
        ensures { result.now ≡ self.now.parts.texts }
    {
        self.buffers.texts
    }
}
