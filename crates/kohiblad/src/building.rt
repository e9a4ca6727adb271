//! Building arrays and objects from documents in consecutive rows.

ghost use Rattle.kohiblad.specs.Words.{BuildsArray, BuildsObject, IsOneOfRows, are_pairs};
ghost use Rattle.kohiblad.specs.Words.{are_rows, result_bytes, row_pairs, rows};

use crate::answer::{code, hand_over_made, refuse};
use crate::checked_rows::{Documents, Members};
use crate::rows::Rows;
use jsonb::{Error, OwnedJsonb};
use std::alloc::Global;

/// Builds the array of the documents in the rows, and copies it to `out`. `InvalidEOF` if an offset
/// is below the previous one or beyond the bytes; then, before anything is built, `InvalidJsonb` if
/// a row is not a document of at most this depth. `InvalidJsonb` also if a limit of the format is
/// exceeded; `OutOfMemory` if an allocation fails.
#[unsafe(no_mangle)]
pub extern "C" fn kohiblad_build_array(
    alloc: Global,
    bytes: &[u8],
    offsets: &[usize],
    depth: usize,
    out: &mut [u8],
    length: &mut usize,
) -> u32
    ensures { IsOneOfRows (are_rows bytes.now offsets.now)
        (BuildsArray depth (rows bytes.now offsets.now)) out.old out.new length.new result }
{
    let Ok(rows) = Rows::new(bytes, offsets) else {
        return refuse(code(Error::InvalidEOF), out, length);
    };
    hand_over_made(array_of(alloc, rows, depth), out, length)
}

// Builds the array of these rows, each of which is checked once.
fn array_of(alloc: Global, rows: Rows, depth: usize) -> Result<OwnedJsonb, Error>
    ensures { BuildsArray depth rows.entry (result_bytes result) }
{
    let documents = Documents::within(rows, depth)?;
    OwnedJsonb::build_array_of_documents(alloc, documents)
}

/// Builds the object of the pairs in the rows: a key, then its document, and so on. It is copied to
/// `out`. `InvalidEOF` if an offset is below the previous one or beyond the bytes, or the number of
/// rows is odd; then, before the keys are looked at, `InvalidJsonb` if a document is not one of at
/// most this depth; then, before keys are compared, `InvalidUtf8` if one is not UTF-8.
/// `ObjectDuplicateKey` if a key occurs twice; `InvalidJsonb` also if a limit of the format is
/// exceeded; `OutOfMemory` if an allocation fails.
#[unsafe(no_mangle)]
pub extern "C" fn kohiblad_build_object(
    alloc: Global,
    bytes: &[u8],
    offsets: &[usize],
    depth: usize,
    out: &mut [u8],
    length: &mut usize,
) -> u32
    ensures { IsOneOfRows (are_pairs bytes.now offsets.now)
        (BuildsObject depth (row_pairs (rows bytes.now offsets.now)))
        out.old out.new length.new result }
{
    let rows = match Rows::new(bytes, offsets) {
        Ok(rows) if rows.len() % 2 == 0 => rows,
        _ => return refuse(code(Error::InvalidEOF), out, length),
    };
    hand_over_made(object_of(alloc, rows, depth), out, length)
}

// Builds the object of these rows, a key, then its document, and so on; each is checked once.
fn object_of(alloc: Global, rows: Rows, depth: usize) -> Result<OwnedJsonb, Error>
    ensures { BuildsObject depth (row_pairs rows.entry) (result_bytes result) }
{
    let members = Members::within(rows, depth)?;
    OwnedJsonb::build_object_of_documents(alloc, members)
}
