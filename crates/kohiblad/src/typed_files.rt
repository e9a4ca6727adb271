//! The calls that read files of typed columns.

ghost use Rattle.std.specs.Prelude.{◌≡◌, IfErr, IfOk, map};
ghost use Rattle.kohiblad.specs.TypedFiles.{AreColumnsOf, AreColumnsWritten, IsFileChecked};
ghost use Rattle.kohiblad.specs.TypedFiles.{IsLayoutRefused, IsRowCopied, column_struct};
ghost use Rattle.kohiblad.specs.TypedFiles.{file_code};

use crate::answer::{
    BAD_MAGIC, NONE, OK, OUT_OF_FORM, TOO_DEEP, TRAILING_DATA, UNKNOWN_VERSION, WRONG_LENGTH, code,
    hand_over, hand_over_made, refuse,
};
use jsonb::Error;
use jsonb_typed::type_bytes;
use jsonb_typed_file::{ColumnPlaces, FileError, TypedFile, column_places};
use std::alloc::{AllocError, Global};

/// The number of rows and of columns of a file of typed columns. They are 0 if the status is not
/// `OK`.
#[repr(C)]
#[derive(Clone, Copy)]
pub struct KohibladTypedFile {
    pub status: u32,
    pub rows: u64,
    pub columns: u64,
}

/// A column of a file: its type, the digits after the point of decimals, the number of rows, and
/// where the name, the flags, the numbers and the texts lie in the file, each as how many bytes are
/// before it and how many it has.
#[repr(C)]
#[derive(Clone, Copy)]
pub struct KohibladTypedColumn {
    pub type_code: u32,
    pub scale: u32,
    pub rows: u64,
    pub name: u64,
    pub name_length: u64,
    pub flags: u64,
    pub flags_length: u64,
    pub numbers: u64,
    pub numbers_length: u64,
    pub texts: u64,
    pub texts_length: u64,
}

/// Checks the bytes of a file of typed columns, and returns how many rows and columns it has.
/// `BAD_MAGIC` if they do not begin as one, `UNKNOWN_VERSION` if they have another version than 1,
/// `InvalidEOF` if they end before the file does, `TRAILING_DATA` if they go on after it,
/// `WRONG_LENGTH` if a length does not fit the number of rows, `TOO_DEEP` if the rest of a row
/// nests deeper than this depth, `OUT_OF_FORM` if a type is unknown, the names are not UTF-8 or do
/// not ascend strictly, a text is not UTF-8 or the rest of a row is not a document; `OutOfMemory`
/// if an allocation fails. A scalar has depth 0, an array or object one more than its deepest
/// child, and at least 1. Deeper levels are not examined.
#[unsafe(no_mangle)]
pub extern "C" fn kohiblad_check_typed_file(
    alloc: Global,
    bytes: &[u8],
    depth: usize,
) -> KohibladTypedFile
    ensures { IsFileChecked depth bytes.now result }
{
    match TypedFile::within(alloc, bytes, depth) {
        Ok(file) => KohibladTypedFile {
            status: OK,
            rows: file.len() as u64,
            columns: file.column_count() as u64,
        },
        Err(error) => KohibladTypedFile {
            status: file_code(error),
            rows: 0,
            columns: 0,
        },
    }
}

/// The status of the error of a file.
pub fn file_code(error: FileError) -> u32
    ensures { result ≡ file_code error }
{
    match error {
        FileError::BadMagic => BAD_MAGIC,
        FileError::UnknownVersion => UNKNOWN_VERSION,
        FileError::Cut => code(Error::InvalidEOF),
        FileError::TrailingData => TRAILING_DATA,
        FileError::WrongLength => WRONG_LENGTH,
        FileError::TooDeep => TOO_DEEP,
        FileError::OutOfForm => OUT_OF_FORM,
        FileError::OutOfMemory => code(Error::OutOfMemory),
    }
}

/// Copies the columns of a file of typed columns to `out`, in the order of their names, and how
/// many they are to `count`: of each its type, the number of rows and where its name and its
/// buffers lie in the bytes. Types and lengths are tested, and that each name is UTF-8, and no
/// buffer is read: `kohiblad_check_typed_file` checks what is in them, and that the names ascend.
/// Flags have a bit for each row, eight in a byte, the first in the lowest bit; it is 1 if the row
/// has a value. Numbers have 8 bytes for each row, the highest first, and of decimals 16; of truth
/// values 1, which is 0 for false; of dates 4; of timestamps with a zone 12, the last four for the
/// offset of the zone; and of intervals 16, four for the months, four for the days and eight for
/// the microseconds. Of texts and binary values they are offsets of 8 bytes, one more than there
/// are rows. The statuses are those of `kohiblad_check_typed_file`.
#[unsafe(no_mangle)]
pub extern "C" fn kohiblad_typed_columns(
    alloc: Global,
    bytes: &[u8],
    out: &mut [KohibladTypedColumn],
    count: &mut usize,
) -> u32
    ensures { AreColumnsWritten bytes.now out.old out.new count.new result }
{
    match columns_of(alloc, bytes) {
        Ok(columns) => hand_over(&columns, out, count),
        Err(error) => refuse(file_code(error), out, count),
    }
}

// The columns of a file.
fn columns_of(alloc: Global, bytes: &[u8]) -> Result<Vec<KohibladTypedColumn>, FileError>
    ensures ok { IfOk result (λ columns. AreColumnsOf bytes.now columns.items) }
    ensures err { IfErr result (IsLayoutRefused bytes.now) }
{
    let places = column_places(alloc, bytes)?;
    Ok(column_structs(alloc, &places)?)
}

// Columns as C has them.
fn column_structs(
    alloc: Global,
    places: &[ColumnPlaces],
) -> Result<Vec<KohibladTypedColumn>, AllocError>
    ensures { IfOk result (λ columns. columns.items ≡ map column_struct places.now) }
{
    let mut columns = Vec::with_capacity(alloc, places.len())?;
    let mut left = places;
    while let [place, later @ ..] = left {
        columns.push(column_struct(*place))?;
        left = later;
    }
    Ok(columns)
}

// A column as C has it.
fn column_struct(column: ColumnPlaces) -> KohibladTypedColumn
    ensures { result ≡ column_struct column }
{
    let [type_code, scale] = type_bytes(column.column_type);
    KohibladTypedColumn {
        type_code: u32::from(type_code),
        scale: u32::from(scale),
        rows: column.rows as u64,
        name: column.name.offset as u64,
        name_length: column.name.length as u64,
        flags: column.flags.offset as u64,
        flags_length: column.flags.length as u64,
        numbers: column.numbers.offset as u64,
        numbers_length: column.numbers.length as u64,
        texts: column.texts.offset as u64,
        texts_length: column.texts.length as u64,
    }
}

/// Copies the canonical document of a row of a file of typed columns, counted from 0, to `out`: its
/// rest with the members that are kept in columns. Only that row is read, and checked before.
/// `NONE` if the index is not below the number of rows; `TOO_DEEP` if the rest of the row nests
/// deeper than this depth; `OUT_OF_FORM` if the rest is not a document, or a text is not UTF-8;
/// `InvalidJsonb` if the row exceeds a limit of the format; and otherwise the statuses of
/// `kohiblad_check_typed_file`.
#[unsafe(no_mangle)]
pub extern "C" fn kohiblad_typed_row(
    alloc: Global,
    bytes: &[u8],
    index: usize,
    depth: usize,
    out: &mut [u8],
    length: &mut usize,
) -> u32
    ensures { IsRowCopied depth index bytes.now out.old out.new length.new result }
{
    match TypedFile::of_row(alloc, bytes, index, depth) {
        Ok(Some(file)) => match file.row(alloc, 0) {
            Some(row) => hand_over_made(row, out, length),
            None => refuse(NONE, out, length),
        },
        Ok(None) => refuse(NONE, out, length),
        Err(error) => refuse(file_code(error), out, length),
    }
}
