//! The call that writes a file of typed columns.

ghost use Rattle.std.specs.Prelude.{◌≡◌, ◌⊎◌, IfErr, IfOk, List, MatchOption, map};
ghost use Rattle.jsonb_typed_file.specs.declared.write.ColumnPlan.{ColumnPlan};
ghost use Rattle.kohiblad.specs.TypedWriting.{ArePlans, AreRowsOf, BuildsDocuments};
ghost use Rattle.kohiblad.specs.TypedWriting.{BuildsFile, BuildsPlanned};
ghost use Rattle.kohiblad.specs.TypedWriting.{BuildsRows, IsTypedFileBuilt, file_result};
ghost use Rattle.kohiblad.specs.TypedWriting.{write_code};
ghost use Rattle.kohiblad.specs.Words.{AreWithin, code, meaning_within};

use crate::answer::{NOT_READ_BACK, OTHER_KIND, code, hand_over, refuse};
use crate::checked::checked;
use crate::names::read_names;
use crate::rows::Rows;
use jsonb::{Document, Error, is_document_within};
use jsonb_typed::split_type;
use jsonb_typed_file::{ColumnPlan, WriteError, write_file};
use std::alloc::{AllocError, Global};

/// Writes rows as a file of typed columns, and copies it to `out`. `names` is the document of an
/// array of texts, which ascend by their bytes: the keys of the members that are kept in columns.
/// `types` has two bytes for each of them, the type and the digits after the point: 0 and 0 for
/// truth values, 1 and 0 for whole numbers of 64 bits with a sign, 2 and 0 for those without one, 3
/// and the digits for decimals, 4 and 0 for texts, 5 and 0 for dates, 6 and 0 for timestamps, 7 and
/// 0 for timestamps with a zone, 8 and 0 for intervals, 9 and 0 for binary values. A member is kept
/// in its column if it is a value of that type with its kind and its digits, and otherwise in the
/// rest of its row. `InvalidEOF` if an offset is below the previous one or beyond the bytes; then
/// `InvalidJsonb` if the names are not a document of at most this depth; `OTHER_KIND` if they are
/// not an array of texts, or `types` has not two bytes for each of them, or an unknown type;
/// `InvalidJsonb` if a row is not a document of at most this depth; `OTHER_KIND` if a text is not
/// greater than the one before it; `InvalidJsonb` if a row exceeds a limit of the format;
/// `OutOfMemory` if an allocation fails. The file is read again before it is handed over:
/// `NOT_READ_BACK` if it does not give the rows back.
#[unsafe(no_mangle)]
pub extern "C" fn kohiblad_build_typed_file(
    alloc: Global,
    bytes: &[u8],
    offsets: &[usize],
    names: &[u8],
    types: &[u8],
    depth: usize,
    out: &mut [u8],
    length: &mut usize,
) -> u32
    ensures { IsTypedFileBuilt depth bytes.now offsets.now (meaning_within depth names.now)
        types.now out.old out.new length.new result }
{
    match file_of(alloc, bytes, offsets, names, types, depth) {
        Ok(file) => hand_over(&file, out, length),
        Err(status) => refuse(status, out, length),
    }
}

// The file of the rows, or the status with which they are refused.
fn file_of(
    alloc: Global,
    bytes: &[u8],
    offsets: &[usize],
    names: &[u8],
    types: &[u8],
    depth: usize,
) -> Result<Vec<u8>, u32>
    ensures { BuildsFile depth bytes.now offsets.now (meaning_within depth names.now) types.now
        (file_result result) }
{
    let Ok(rows) = Rows::new(bytes, offsets) else {
        return Err(code(Error::InvalidEOF));
    };
    let Ok(names) = checked(names, depth) else {
        return Err(code(Error::InvalidJsonb));
    };
    match read_names(alloc, names) {
        Ok(Some(names)) => file_of_names(alloc, rows, &names, types, depth),
        Ok(None) => Err(OTHER_KIND),
        Err(error) => Err(code(error)),
    }
}

// The file of the rows with columns of these names and types.
fn file_of_names(
    alloc: Global,
    rows: Rows<'_>,
    names: &[&str],
    types: &[u8],
    depth: usize,
) -> Result<Vec<u8>, u32>
    ensures { BuildsPlanned depth rows.entry (map (λ name. name.now) names.now) types.now
        (file_result result) }
{
    match plans_of(alloc, names, types) {
        Ok(Some(plans)) => file_of_plans(alloc, rows, &plans, depth),
        Ok(None) => Err(OTHER_KIND),
        Err(_) => Err(code(Error::OutOfMemory)),
    }
}

// The columns of these names and types. `None` if there are not as many types as names.
fn plans_of<'a>(
    alloc: Global,
    names: &[&'a str],
    types: &[u8],
) -> Result<Option<Vec<ColumnPlan<'a>>>, AllocError>
    ensures { IfOk result (λ planned. MatchOption planned
        ((plans : List ColumnPlan) → ArePlans (map (λ name. name.now) names.now) types.now plans
        → ⊥)
        (λ plans. ArePlans (map (λ name. name.now) names.now) types.now plans.items)) }
{
    let mut plans = Vec::with_capacity(alloc, names.len())?;
    let mut left = names;
    let mut types = types;
    while let [name, later @ ..] = left {
        let Some((column_type, others)) = split_type(types) else {
            return Ok(None);
        };
        plans.push(ColumnPlan { name, column_type })?;
        left = later;
        types = others;
    }
    if types.is_empty() {
        Ok(Some(plans))
    } else {
        Ok(None)
    }
}

// The file of the rows with these columns.
fn file_of_plans(
    alloc: Global,
    rows: Rows<'_>,
    plans: &[ColumnPlan<'_>],
    depth: usize,
) -> Result<Vec<u8>, u32>
    ensures { BuildsRows depth rows.entry plans.now (file_result result) }
{
    match documents_of(alloc, rows, depth) {
        Ok(documents) => file_of_documents(alloc, &documents, plans),
        Err(error) => Err(code(error)),
    }
}

// The documents of the rows. `InvalidJsonb` if one is not a document of at most this depth.
fn documents_of<'a>(alloc: Global, rows: Rows<'a>, depth: usize) -> Result<Vec<Document<'a>>, Error>
    ensures ok { IfOk result (λ documents. AreWithin depth rows.entry
        × AreRowsOf rows.entry documents.items) }
    ensures err { IfErr result (λ e. ((e ≡ Error.InvalidJsonb)
        × (AreWithin depth rows.entry → ⊥)) ⊎ (e ≡ Error.OutOfMemory)) }
{
    let mut documents = Vec::new(alloc);
    let mut left = rows;
    while let Some(row) = left.next() {
        if !is_document_within(row, depth) {
            return Err(Error::InvalidJsonb);
        }
        documents.push(Document::new_unchecked(row))?;
    }
    Ok(documents)
}

// The file of the documents with these columns.
fn file_of_documents(
    alloc: Global,
    documents: &[Document<'_>],
    plans: &[ColumnPlan<'_>],
) -> Result<Vec<u8>, u32>
    ensures { BuildsDocuments documents.now plans.now (file_result result) }
{
    match write_file(alloc, documents, plans) {
        Ok(file) => Ok(file),
        Err(error) => Err(write_code(error)),
    }
}

// The status of an error of writing.
fn write_code(error: WriteError) -> u32
    ensures { result ≡ write_code error }
{
    match error {
        WriteError::NamesNotAscending => OTHER_KIND,
        WriteError::TooManyColumns | WriteError::RowTooLarge => code(Error::InvalidJsonb),
        WriteError::NotReadBack => NOT_READ_BACK,
        WriteError::OutOfMemory => code(Error::OutOfMemory),
    }
}
