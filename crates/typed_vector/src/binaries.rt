//! A column of binary values.

ghost use Rattle.std.specs.Prelude.{◌≡◌, ◌<◌, ◌∷◌, ◌++◌, [], List, length, OnOk, OnErr, ℕ};
ghost use Rattle.std.specs.Prelude.{IfOk, Some, option_map, slice_get};
ghost use Rattle.typed_vector.specs.Binaries.{AreBinaries, IsBlankUnlessSet};
ghost use Rattle.typed_vector.specs.Cells.{Cell, absent, value, other, cell, cells, rest_cell};
ghost use Rattle.typed_vector.specs.Cells.{rows};
ghost use Rattle.typed_vector.specs.Contents.{IsStoredRest, bytes_cell, rests};

use crate::rest::{Rest, RestParts};
use crate::rows::row_at;
use crate::vector::Content;
use std::alloc::{AllocError, Global};
use std::marker::Model;

/// Binary values, one after another, one for each row. A row without one is not set, has no bytes
/// there, and may have other bytes, which are kept beside its index. The values, their offsets and
/// the flags are in the form of Arrow's arrays.
#[derive(Drop)]
pub struct Binaries {
    values: Vec<u8>,
    value_offsets: Vec<usize>,
    is_set: Vec<bool>,
    rest: Rest,
}

// In contracts a column is the list of what each row has.
impl Model for Binaries {
    ghost Value = { List (Cell (List ℕ)) };

    ghost view = { λ s. cells (rows s.values.items s.value_offsets.items) s.is_set.items
        s.rest };

    ghost invariant = { λ s. AreBinaries s.values.items s.value_offsets.items s.is_set.items
        s.rest };
}

impl Binaries {
    /// A column without rows.
    pub fn new(alloc: Global) -> Result<Self, AllocError>
        ensures { IfOk result (λ column. column ≡ []) }
    {
        let mut value_offsets = Vec::with_capacity(alloc, 1)?;
        value_offsets.push_reserved(0);
        Ok(Binaries {
            values: Vec::new(alloc),
            value_offsets,
            is_set: Vec::new(alloc),
            rest: Rest::new(alloc)?,
        })
    }

    /// The number of rows.
    pub fn len(&self) -> usize
        ensures { result ≡ length self.now }
    {
        self.is_set.len()
    }

    /// Reserves memory for so many more rows, without that of their values and other bytes.
    pub fn reserve(&mut self, rows: usize) -> Result<(), AllocError>
        ensures { self.new ≡ self.old }
    {
        self.value_offsets.reserve(rows)?;
        self.is_set.reserve(rows)?;
        Ok(())
    }

    /// Appends a row that has nothing.
    pub fn push_absent(&mut self) -> Result<(), AllocError>
        ensures pushed { OnOk result (self.new ≡ self.old ++ absent ∷ []) }
        ensures kept { OnErr result (self.new ≡ self.old) }
    {
        self.push_row(&[], false, &[])
    }

    /// Appends a row that has a value of these bytes.
    pub fn push_binary(&mut self, bytes: &[u8]) -> Result<(), AllocError>
        ensures pushed { OnOk result (self.new ≡ self.old ++ value bytes.now ∷ []) }
        ensures kept { OnErr result (self.new ≡ self.old) }
    {
        self.push_row(bytes, true, &[])
    }

    /// Appends a row that has other bytes.
    pub fn push_other(&mut self, bytes: &[u8]) -> Result<(), AllocError>
        requires { 0 < length bytes.now }
        ensures pushed { OnOk result (self.new ≡ self.old ++ other bytes.now ∷ []) }
        ensures kept { OnErr result (self.new ≡ self.old) }
    {
        self.push_row(&[], false, bytes)
    }

    // Appends a row in its stored form.
    fn push_row(&mut self, bytes: &[u8], is_set: bool, rest: &[u8]) -> Result<(), AllocError>
        requires { IsBlankUnlessSet bytes.now is_set }
        ensures pushed { OnOk result (self.new ≡ self.old ++ cell bytes.now is_set rest.now ∷ []) }
        ensures kept { OnErr result (self.new ≡ self.old) }
    {
        self.value_offsets.reserve(1)?;
        self.is_set.reserve(1)?;
        self.values.reserve(bytes.len())?;
        self.rest.push(rest)?;
        // Never fails, since there is room.
        self.values.extend_from_slice(bytes)?;
        self.is_set.push_reserved(is_set);
        let value_end = self.values.len();
        self.value_offsets.push_reserved(value_end);
        Ok(())
    }

    /// The stored form: as many flags as rows, and one offset more, from 0 to the length of the
    /// values. A row that is not set has no bytes among the values.
    pub fn parts(&self) -> BinaryParts<'_>
        ensures cells { cells (rows result.values.now result.value_offsets.now) result.is_set.now
            (rests (length self.now) result.rest) ≡ self.now }
        ensures alike { AreBinaries result.values.now result.value_offsets.now result.is_set.now
            (rests (length self.now) result.rest) }
        ensures rest { IsStoredRest (length self.now) result.rest }
    {
        BinaryParts {
            values: self.values.as_slice(),
            value_offsets: self.value_offsets.as_slice(),
            is_set: self.is_set.as_slice(),
            rest: self.rest.parts(),
        }
    }

    /// What the row at an index has. `None` if the index is not below the number of rows.
    pub fn at(&self, index: usize) -> Option<Content<'_, &[u8]>>
        ensures { option_map bytes_cell result ≡ slice_get self.now index }
    {
        if index < self.len() {
            Some(self.row_within(index))
        } else {
            None
        }
    }

    // What the row at an index has.
    fn row_within(&self, index: usize) -> Content<'_, &[u8]>
        requires { index < length self.now }
        ensures { Some (bytes_cell result) ≡ slice_get self.now index }
    {
        if self.is_set[index] {
            Content::Value(row_at(&self.values, &self.value_offsets, index))
        } else {
            other_content(self.rest.at(index))
        }
    }
}

// What a row has that is not set.
fn other_content(rest: &[u8]) -> Content<'_, &[u8]>
    ensures { bytes_cell result ≡ rest_cell rest.now }
{
    if rest.is_empty() {
        Content::Absent
    } else {
        Content::Other(rest)
    }
}

/// A column of binary values as it is stored.
#[derive(Drop)]
pub struct BinaryParts<'a> {
    pub values: &'a [u8],
    pub value_offsets: &'a [usize],
    pub is_set: &'a [bool],
    pub rest: RestParts<'a>,
}
