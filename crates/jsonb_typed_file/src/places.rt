//! Where the columns of a file lie in its bytes.

ghost use Rattle.std.specs.Prelude.{◌≡◌, ◌≢◌, ◌<◌, ◌+◌, ◌++◌, ◌^◌, ℕ, List, IfErr, IfOk};
ghost use Rattle.std.specs.Prelude.{length, map};
ghost use Rattle.std.specs.List.{AllZip};
ghost use Rattle.std.specs.Result.{result_err};
ghost use Rattle.jsonb_typed_file.specs.Places.{IsColumnAt};
ghost use Rattle.jsonb_typed_file.specs.Words.{Contents, IsLayout, IsLayoutTold, LengthsFit};
ghost use Rattle.jsonb_typed_file.specs.Words.{buffers_view, column_bytes, columns_bytes};
ghost use Rattle.jsonb_typed_file.specs.Words.{row_count};

use crate::buffers::Buffers;
use crate::error::FileError;
use crate::file::read_sized;
use jsonb_typed::ScalarType;
use std::alloc::{AllocError, Global};

/// Where bytes lie in a file.
#[derive(Clone, Copy, Debug, PartialEq, Eq)]
pub struct SectionPlace {
    /// The number of bytes before them.
    pub offset: usize,
    /// The number of these bytes.
    pub length: usize,
}

/// The number of rows and the type of a column, and where its name and its buffers lie in a file.
#[derive(Clone, Copy, Debug, PartialEq, Eq)]
pub struct ColumnPlaces {
    /// The number of rows of the file.
    pub rows: usize,
    /// The type of the values.
    pub column_type: ScalarType,
    /// The key of the members that are kept in the column.
    pub name: SectionPlace,
    /// The flags, which say which rows have a value.
    pub flags: SectionPlace,
    /// The numbers, or the offsets of texts or binary values.
    pub numbers: SectionPlace,
    /// The bytes of all texts or binary values.
    pub texts: SectionPlace,
}

/// Where the columns of a file lie in its bytes. Each type and length is tested, and that each name
/// is UTF-8, but nothing in the buffers is read: it is not checked whether names ascend, texts are
/// UTF-8, offsets are in order and rests are documents. The errors are those of `TypedFile::new`,
/// but for what is not checked.
pub fn column_places(alloc: Global, bytes: &[u8]) -> Result<Vec<ColumnPlaces>, FileError>
    ensures places { IfOk result (λ places. (f : Contents) × (IsLayout f bytes.now
        × (LengthsFit f × AllZip (IsColumnAt bytes.now (row_count f)) f.columns
        places.items))) }
    ensures memory { (f : Contents) → IsLayout f bytes.now → LengthsFit f
        → IfErr result (λ e. e ≡ FileError.OutOfMemory) }
    ensures layout { IsLayoutTold bytes.now (result_err result) }
    ensures deep { IfErr result (λ e. e ≢ FileError.TooDeep) }
{
    let layout = read_sized(alloc, bytes)?;
    let start = 32 + layout.rests.offsets.len() + layout.rests.bytes.len();
    Ok(places_of(alloc, &layout.columns, layout.rows(), start)?)
}

// Where the columns lie if so many bytes are before the first.
fn places_of(
    alloc: Global,
    columns: &[Buffers<'_>],
    rows: usize,
    start: usize,
) -> Result<Vec<ColumnPlaces>, AllocError>
    requires { start + length (columns_bytes (map buffers_view columns.now)) < 2 ^ 64 }
    ensures { IfOk result (λ places. (front bytes : List ℕ) → length front ≡ start
        → bytes ≡ front ++ columns_bytes (map buffers_view columns.now)
        → AllZip (IsColumnAt bytes rows) (map buffers_view columns.now) places.items) }
{
    let mut places = Vec::with_capacity(alloc, columns.len())?;
    let mut left = columns;
    let mut start = start;
    while let [column, later @ ..] = left {
        let (column, end) = places_in(*column, rows, start);
        places.push(column)?;
        start = end;
        left = later;
    }
    Ok(places)
}

// Where a column lies if so many bytes are before it, and where it ends.
fn places_in(column: Buffers<'_>, rows: usize, start: usize) -> (ColumnPlaces, usize)
    requires { start + length (column_bytes (buffers_view column)) < 2 ^ 64 }
    ensures places { (front later bytes : List ℕ) → length front ≡ start
        → bytes ≡ front ++ (column_bytes (buffers_view column.entry) ++ later)
        → IsColumnAt bytes rows (buffers_view column.entry) result.0 }
    ensures end { result.1 ≡ start + length (column_bytes (buffers_view column.entry)) }
{
    let name = section_at(start + 2, column.name.len());
    let flags = section_at(end_of(name), column.flags.len());
    let numbers = section_at(end_of(flags), column.numbers.len());
    let texts = section_at(end_of(numbers), column.texts.len());
    let places = ColumnPlaces {
        rows,
        column_type: column.column_type,
        name,
        flags,
        numbers,
        texts,
    };
    (places, end_of(texts))
}

// Where a section of so many bytes lies, whose length is stored before it.
fn section_at(start: usize, length: usize) -> SectionPlace
    requires { start + 8 + length < 2 ^ 64 }
    ensures { result ≡ record { offset = start + 8; length = length } }
{
    SectionPlace {
        offset: start + 8,
        length,
    }
}

// Where a section ends.
fn end_of(section: SectionPlace) -> usize
    requires { section.offset + section.length < 2 ^ 64 }
    ensures { result ≡ section.offset + section.length }
{
    section.offset + section.length
}
