//! The rest of a column: the bytes of the rows that have other bytes than a value.

ghost use Rattle.std.specs.Prelude.{◌≡◌, ◌<◌, ◌^◌, ◌∷◌, ◌++◌, [], List, length, OnOk, OnErr, ℕ};
ghost use Rattle.std.specs.Prelude.{◌-◌, IfOk, get_or};
ghost use Rattle.typed_vector.specs.Cells.{AreOffsets, rows};
ghost use Rattle.typed_vector.specs.Rest.{IsRest, spread};

use crate::rows::row_at;
use std::alloc::{AllocError, Global};
use std::marker::Model;

/// The bytes of each row, of which most have none: only the other rows are listed, each by its
/// index, and their bytes follow one another.
#[derive(Drop)]
pub struct Rest {
    count: usize,
    indices: Vec<usize>,
    bytes: Vec<u8>,
    offsets: Vec<usize>,
}

// In contracts it is the list of the bytes of each row.
impl Model for Rest {
    ghost Value = { List (List ℕ) };

    ghost view = { λ s. spread s.count s.indices.items (rows s.bytes.items s.offsets.items) };

    ghost invariant = { λ s. IsRest s.count s.indices.items s.bytes.items s.offsets.items };
}

impl Rest {
    /// The rest of no rows.
    pub fn new(alloc: Global) -> Result<Self, AllocError>
        ensures { IfOk result (λ rest. rest ≡ []) }
    {
        let mut offsets = Vec::with_capacity(alloc, 1)?;
        offsets.push_reserved(0);
        Ok(Rest {
            count: 0,
            indices: Vec::new(alloc),
            bytes: Vec::new(alloc),
            offsets,
        })
    }

    /// Appends a row that has these bytes. Without bytes it asks for no memory.
    pub fn push(&mut self, bytes: &[u8]) -> Result<(), AllocError>
        requires { length self.old < 2 ^ 63 }
        ensures pushed { OnOk result (self.new ≡ self.old ++ bytes.now ∷ []) }
        ensures kept { OnErr result (self.new ≡ self.old) }
    {
        if bytes.is_empty() {
            self.count += 1;
            Ok(())
        } else {
            self.push_listed(bytes)
        }
    }

    // Appends a row that is listed.
    fn push_listed(&mut self, bytes: &[u8]) -> Result<(), AllocError>
        requires room { length self.old < 2 ^ 63 }
        requires some { 0 < length bytes.now }
        ensures pushed { OnOk result (self.new ≡ self.old ++ bytes.now ∷ []) }
        ensures kept { OnErr result (self.new ≡ self.old) }
    {
        self.indices.reserve(1)?;
        self.offsets.reserve(1)?;
        self.bytes.extend_from_slice(bytes)?;
        self.indices.push_reserved(self.count);
        let end = self.bytes.len();
        self.offsets.push_reserved(end);
        self.count += 1;
        Ok(())
    }

    /// The bytes of the row at an index; none if there is no such row.
    pub fn at(&self, index: usize) -> &[u8]
        ensures { result.now ≡ get_or self.now index [] }
    {
        match self.indices.binary_search(&index) {
            Ok(place) => row_at(&self.bytes, &self.offsets, place),
            Err(_) => &[],
        }
    }

    /// The stored form: the indices of the rows that have bytes, in ascending order, and one offset
    /// more, from 0 to the length of the bytes.
    pub fn parts(&self) -> RestParts<'_>
        ensures rows { spread (length self.now) result.indices.now
            (rows result.bytes.now result.offsets.now) ≡ self.now }
        ensures stored { IsRest (length self.now) result.indices.now result.bytes.now
            result.offsets.now }
    {
        RestParts {
            indices: self.indices.as_slice(),
            bytes: self.bytes.as_slice(),
            offsets: self.offsets.as_slice(),
        }
    }
}

/// The other bytes of a column's rows as they are stored: the indices of the rows that have some, in
/// ascending order, and their bytes, one after another, with one offset more than there are
/// indices, from 0 to the length of the bytes.
#[derive(Drop)]
pub struct RestParts<'a> {
    pub indices: &'a [usize],
    pub bytes: &'a [u8],
    pub offsets: &'a [usize],
}

impl RestParts<'_> {
    /// Writes the offsets that an Arrow array of the bytes of all rows has, one more than there are
    /// rows: a row that is not listed has no bytes.
    pub fn write_offsets(&self, out: &mut [usize])
        requires some { 0 < length out.old }
        requires stored { IsRest (length out.old - 1) self.now.indices.now self.now.bytes.now
            self.now.offsets.now }
        ensures ascending { AreOffsets (length self.now.bytes.now) out.new }
        ensures rows { rows self.now.bytes.now out.new ≡ spread (length out.new - 1)
            self.now.indices.now (rows self.now.bytes.now self.now.offsets.now) }
    {
        let mut place = 0;
        for row in 0..out.len() {
            out[row] = self.offsets[place];
            if place < self.indices.len() && self.indices[place] == row {
                place += 1;
            }
        }
    }
}
