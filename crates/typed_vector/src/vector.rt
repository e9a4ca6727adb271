//! A column of values of one type.

ghost use Rattle.std.specs.Prelude.{◌≡◌, ◌<◌, ◌∷◌, ◌++◌, [], List, length, OnOk, OnErr, ℕ};
ghost use Rattle.std.specs.Prelude.{option_map, slice_get, IfOk, Some};
ghost use Rattle.typed_vector.specs.Cells.{AreAlike, Cell, absent, value, other, cell, cells};
ghost use Rattle.typed_vector.specs.Cells.{rest_cell};
ghost use Rattle.typed_vector.specs.Contents.{IsStoredRest, content_cell, rests};

use crate::rest::{Rest, RestParts};
use std::alloc::{AllocError, Global};
use std::marker::Model;

/// Values of one type in a vector, one for each row. A row without a value is not set, and may have
/// other bytes, which are kept beside its index. The values and the flags are in the form of Arrow's
/// arrays.
#[derive(Drop)]
pub struct Typed<T: Copy> {
    blank: T,
    values: Vec<T>,
    is_set: Vec<bool>,
    rest: Rest,
}

// In contracts a column is the list of what each row has.
impl<T: Copy> Model for Typed<T> {
    ghost Value = { List (Cell T) };

    ghost view = { λ s. cells s.values.items s.is_set.items s.rest };

    ghost invariant = { λ s. AreAlike s.values.items s.is_set.items s.rest };
}

impl<T: Copy> Typed<T> {
    /// A column without rows. `blank` fills the vector where a row is not set.
    pub fn new(alloc: Global, blank: T) -> Result<Self, AllocError>
        ensures { IfOk result (λ column. column ≡ []) }
    {
        Ok(Typed {
            blank,
            values: Vec::new(alloc),
            is_set: Vec::new(alloc),
            rest: Rest::new(alloc)?,
        })
    }

    /// The number of rows.
    pub fn len(&self) -> usize
        ensures { result ≡ length self.now }
    {
        self.values.len()
    }

    /// Reserves memory for so many more rows, without that of their other bytes.
    pub fn reserve(&mut self, rows: usize) -> Result<(), AllocError>
        ensures { self.new ≡ self.old }
    {
        self.values.reserve(rows)?;
        self.is_set.reserve(rows)?;
        Ok(())
    }

    /// Appends a row that has nothing.
    pub fn push_absent(&mut self) -> Result<(), AllocError>
        ensures pushed { OnOk result (self.new ≡ self.old ++ absent ∷ []) }
        ensures kept { OnErr result (self.new ≡ self.old) }
    {
        self.push_row(self.blank, false, &[])
    }

    /// Appends a row that has a value.
    pub fn push_value(&mut self, item: T) -> Result<(), AllocError>
        ensures pushed { OnOk result (self.new ≡ self.old ++ value item ∷ []) }
        ensures kept { OnErr result (self.new ≡ self.old) }
    {
        self.push_row(item, true, &[])
    }

    /// Appends a row that has other bytes.
    pub fn push_other(&mut self, bytes: &[u8]) -> Result<(), AllocError>
        requires { 0 < length bytes.now }
        ensures pushed { OnOk result (self.new ≡ self.old ++ other bytes.now ∷ []) }
        ensures kept { OnErr result (self.new ≡ self.old) }
    {
        self.push_row(self.blank, false, bytes)
    }

    // Appends a row in its stored form.
    fn push_row(&mut self, item: T, is_set: bool, rest: &[u8]) -> Result<(), AllocError>
        ensures pushed { OnOk result (self.new ≡ self.old ++ cell item is_set rest.now ∷ []) }
        ensures kept { OnErr result (self.new ≡ self.old) }
    {
        self.values.reserve(1)?;
        self.is_set.reserve(1)?;
        self.rest.push(rest)?;
        self.values.push_reserved(item);
        self.is_set.push_reserved(is_set);
        Ok(())
    }

    /// The stored form: as many values as flags, and the other bytes of the rows that have some.
    pub fn parts(&self) -> Parts<'_, T>
        ensures cells { cells result.values.now result.is_set.now
            (rests (length self.now) result.rest) ≡ self.now }
        ensures alike { AreAlike result.values.now result.is_set.now
            (rests (length self.now) result.rest) }
        ensures rest { IsStoredRest (length self.now) result.rest }
    {
        Parts {
            values: self.values.as_slice(),
            is_set: self.is_set.as_slice(),
            rest: self.rest.parts(),
        }
    }

    /// What the row at an index has. `None` if the index is not below the number of rows.
    pub fn at(&self, index: usize) -> Option<Content<'_, T>>
        ensures { option_map content_cell result ≡ slice_get self.now index }
    {
        if index < self.len() {
            Some(self.row_within(index))
        } else {
            None
        }
    }

    // What the row at an index has.
    fn row_within(&self, index: usize) -> Content<'_, T>
        requires { index < length self.now }
        ensures { Some (content_cell result) ≡ slice_get self.now index }
    {
        if self.is_set[index] {
            Content::Value(self.values[index])
        } else {
            other_content(self.rest.at(index))
        }
    }
}

/// A column as it is stored.
#[derive(Drop)]
pub struct Parts<'a, T> {
    pub values: &'a [T],
    pub is_set: &'a [bool],
    pub rest: RestParts<'a>,
}

/// What a row has.
#[derive(Drop)]
pub enum Content<'a, T> {
    Absent,
    Value(T),
    Other(&'a [u8]),
}

// What a row has that is not set.
fn other_content<T>(rest: &[u8]) -> Content<'_, T>
    ensures { content_cell result ≡ rest_cell rest.now }
{
    if rest.is_empty() {
        Content::Absent
    } else {
        Content::Other(rest)
    }
}
