//! Reading a file again, before it is handed out.

ghost use Rattle.std.specs.Prelude.{◌≡◌, ◌⊎◌, ◌<◌, Err, IfErr, IfOk, IsTrue, map};
ghost use Rattle.jsonb_typed_file.specs.Words.{Fits, HaveRows, HaveTexts};
ghost use Rattle.jsonb_typed_file.specs.Words.{buffers_view, document_tree};
ghost use Rattle.jsonb_typed_file.specs.Written.{AllFit, ArePlanned, AreRows, HaveCells, IsFileOf};
ghost use Rattle.jsonb_typed_file.specs.Written.{IsWrittenRow};

use crate::buffers::Buffers;
use crate::error::{FileError, WriteError};
use crate::file::TypedFile;
use crate::stored::{cell_of, is_same_cell};
use crate::write::ColumnPlan;
use jsonb::{Document, Error};
use std::alloc::Global;

// Whether the bytes are a file of these rows.
pub(crate) fn is_file_of(
    alloc: Global,
    bytes: &[u8],
    rows: &[Document<'_>],
    plans: &[ColumnPlan<'_>],
) -> Result<bool, WriteError>
    ensures file { IfOk result (λ b. IsTrue b → IsFileOf rows.now plans.now bytes.now) }
    ensures large { result ≡ Err WriteError.RowTooLarge → AllFit rows.now → ⊥ }
    ensures only { IfErr result (λ e. (e ≡ WriteError.RowTooLarge)
        ⊎ (e ≡ WriteError.OutOfMemory)) }
{
    let file = match TypedFile::new(alloc, bytes) {
        Ok(file) => file,
        Err(FileError::OutOfMemory) => return Err(WriteError::OutOfMemory),
        Err(_) => return Ok(false),
    };
    if file.len() != rows.len() || !are_planned(file.buffers(), plans) {
        return Ok(false);
    }
    are_rows(alloc, &file, rows)
}

// Whether the columns have the names and the types of the plans.
fn are_planned(columns: &[Buffers<'_>], plans: &[ColumnPlan<'_>]) -> bool
    ensures { IsTrue result → ArePlanned (map buffers_view columns.now) plans.now }
{
    let mut left = columns;
    let mut wanted = plans;
    while let [column, later @ ..] = left {
        let [plan, others @ ..] = wanted else {
            return false;
        };
        if !is_planned(*column, *plan) {
            return false;
        }
        left = later;
        wanted = others;
    }
    wanted.is_empty()
}

// Whether a column has the name and the type of the plan.
fn is_planned(column: Buffers<'_>, plan: ColumnPlan<'_>) -> bool
    ensures { IsTrue result → (column.entry.name.now ≡ plan.entry.name.now)
        × (column.entry.column_type ≡ plan.entry.column_type) }
{
    column.name == plan.name && column.column_type == plan.column_type
}

// Whether the file gives these rows back.
fn are_rows(alloc: Global, file: &TypedFile<'_>, rows: &[Document<'_>]) -> Result<bool, WriteError>
    ensures rows { IfOk result (λ b. IsTrue b → AreRows file.now 0 rows.now) }
    ensures large { result ≡ Err WriteError.RowTooLarge → AllFit rows.now → ⊥ }
    ensures only { IfErr result (λ e. (e ≡ WriteError.RowTooLarge)
        ⊎ (e ≡ WriteError.OutOfMemory)) }
{
    let mut left = rows;
    let mut index = 0;
    while let [row, later @ ..] = left {
        if !is_row(alloc, file, *row, index)? {
            return Ok(false);
        }
        left = later;
        index += 1;
    }
    Ok(true)
}

// Whether the file gives a row back.
fn is_row(
    alloc: Global,
    file: &TypedFile<'_>,
    row: Document<'_>,
    index: usize,
) -> Result<bool, WriteError>
    ensures row { IfOk result (λ b. IsTrue b → IsWrittenRow file.now index row.entry) }
    ensures large { result ≡ Err WriteError.RowTooLarge → Fits (document_tree row.entry) → ⊥ }
    ensures only { IfErr result (λ e. (e ≡ WriteError.RowTooLarge)
        ⊎ (e ≡ WriteError.OutOfMemory)) }
{
    let whole = match row.to_canonical(alloc) {
        Ok(whole) => whole,
        Err(Error::OutOfMemory) => return Err(WriteError::OutOfMemory),
        Err(_) => return Err(WriteError::RowTooLarge),
    };
    let again = match file.row(alloc, index) {
        Some(Ok(again)) => again,
        Some(Err(Error::OutOfMemory)) => return Err(WriteError::OutOfMemory),
        _ => return Ok(false),
    };
    let is_whole = again.as_bytes() == whole.as_bytes();
    Ok(is_whole && index < file.len() && have_cells(file.buffers(), row, file.len(), index))
}

// Whether each column has the member of a row that is kept in it, and no other value.
fn have_cells(columns: &[Buffers<'_>], row: Document<'_>, rows: usize, index: usize) -> bool
    requires size { HaveRows rows (map buffers_view columns.now) }
    requires texts { HaveTexts rows (map buffers_view columns.now) }
    requires within { index < rows }
    ensures { IsTrue result
        → HaveCells (document_tree row.entry) index (map buffers_view columns.now) }
{
    let mut left = columns;
    while let [column, later @ ..] = left {
        let cell = cell_of(row, column.name, column.column_type);
        if !is_same_cell(column.cell(rows, index), cell) {
            return false;
        }
        left = later;
    }
    true
}
