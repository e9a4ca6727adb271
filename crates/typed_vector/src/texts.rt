//! A column of texts.

ghost use Rattle.std.specs.Prelude.{◌≡◌, ◌<◌, ◌∷◌, ◌++◌, [], List, length, OnOk, OnErr, ℕ};
ghost use Rattle.std.specs.Prelude.{All, IfOk, option_map, slice_get};
ghost use Rattle.typed_vector.specs.Cells.{Cell, absent, value, other, cells, rows};
ghost use Rattle.typed_vector.specs.Contents.{IsStoredRest, bytes_cell, rests};
ghost use Rattle.typed_vector.specs.Texts.{AreTextRows, HoldsText};

use crate::binaries::Binaries;
use crate::rest::RestParts;
use crate::vector::Content;
use std::alloc::{AllocError, Global};
use std::marker::Model;

/// Texts, one after another, one for each row. A row without one is not set, has an empty text
/// there, and may have other bytes, which are kept beside its index. The texts, their offsets and
/// the flags are in the form of Arrow's arrays.
#[derive(Drop)]
pub struct Texts {
    binaries: Binaries,
}

// In contracts a column is the list of what each row has.
impl Model for Texts {
    ghost Value = { List (Cell (List ℕ)) };

    ghost view = { λ s. s.binaries };

    ghost invariant = { λ s. All HoldsText s.binaries };
}

impl Texts {
    /// A column without rows.
    pub fn new(alloc: Global) -> Result<Self, AllocError>
        ensures { IfOk result (λ column. column ≡ []) }
    {
        let binaries = Binaries::new(alloc)?;
        Ok(Texts { binaries })
    }

    /// The number of rows.
    pub fn len(&self) -> usize
        ensures { result ≡ length self.now }
    {
        self.binaries.len()
    }

    /// Reserves memory for so many more rows, without that of their texts and other bytes.
    pub fn reserve(&mut self, rows: usize) -> Result<(), AllocError>
        ensures { self.new ≡ self.old }
    {
        self.binaries.reserve(rows)
    }

    /// Appends a row that has nothing.
    pub fn push_absent(&mut self) -> Result<(), AllocError>
        ensures pushed { OnOk result (self.new ≡ self.old ++ absent ∷ []) }
        ensures kept { OnErr result (self.new ≡ self.old) }
    {
        self.binaries.push_absent()
    }

    /// Appends a row that has a text.
    pub fn push_text(&mut self, text: &str) -> Result<(), AllocError>
        ensures pushed { OnOk result (self.new ≡ self.old ++ value text.now ∷ []) }
        ensures kept { OnErr result (self.new ≡ self.old) }
    {
        self.binaries.push_binary(text.as_bytes())
    }

    /// Appends a row that has other bytes.
    pub fn push_other(&mut self, bytes: &[u8]) -> Result<(), AllocError>
        requires { 0 < length bytes.now }
        ensures pushed { OnOk result (self.new ≡ self.old ++ other bytes.now ∷ []) }
        ensures kept { OnErr result (self.new ≡ self.old) }
    {
        self.binaries.push_other(bytes)
    }

    /// The stored form: as many flags as rows, and one offset more, from 0 to the length of the
    /// texts. Each text is UTF-8, and that of a row that is not set empty.
    pub fn parts(&self) -> TextParts<'_>
        ensures cells { cells (rows result.texts.now result.text_offsets.now) result.is_set.now
            (rests (length self.now) result.rest) ≡ self.now }
        ensures alike { AreTextRows result.texts.now result.text_offsets.now result.is_set.now
            (rests (length self.now) result.rest) }
        ensures rest { IsStoredRest (length self.now) result.rest }
    {
        let stored = self.binaries.parts();
        TextParts {
            texts: stored.values,
            text_offsets: stored.value_offsets,
            is_set: stored.is_set,
            rest: stored.rest,
        }
    }

    /// What the row at an index has. `None` if the index is not below the number of rows.
    pub fn at(&self, index: usize) -> Option<Content<'_, &str>>
        ensures { option_map bytes_cell result ≡ slice_get self.now index }
    {
        let content = self.binaries.at(index)?;
        Some(text_content(content))
    }
}

// What a row has, if a value that it has is a text.
fn text_content<'a>(content: Content<'a, &'a [u8]>) -> Content<'a, &'a str>
    requires { HoldsText (bytes_cell content) }
    ensures { bytes_cell result ≡ bytes_cell content.entry }
{
    match content {
        Content::Absent => Content::Absent,
        Content::Value(bytes) => Content::Value(unsafe { str::from_utf8_unchecked(bytes) }),
        Content::Other(bytes) => Content::Other(bytes),
    }
}

/// A column of texts as it is stored.
#[derive(Drop)]
pub struct TextParts<'a> {
    pub texts: &'a [u8],
    pub text_offsets: &'a [usize],
    pub is_set: &'a [bool],
    pub rest: RestParts<'a>,
}
