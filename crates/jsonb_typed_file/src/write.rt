//! Writing a file of typed columns.

ghost use Rattle.std.specs.Prelude.{◌≡◌, ◌⊎◌, ◌<◌, ◌≤◌, ◌^◌, ◌↔◌, Err, IfErr, IfOk, IsTrue};
ghost use Rattle.std.specs.Prelude.{None, OnOk, length};
ghost use Rattle.jsonb_typed_file.specs.Words.{Fits, document_tree};
ghost use Rattle.jsonb_typed_file.specs.Written.{AllFit, AscendPlans, IsFileOf};

use crate::check::is_file_of;
use crate::column::StoredValue;
use crate::error::WriteError;
use crate::fixed::append_fixed;
use crate::form::is_above;
use crate::header::append_header;
use crate::stored::cell_of;
use jsonb::{Document, Error, ExtensionValue, append_row};
use jsonb_functions::{Kept, pick};
use jsonb_typed::{ScalarType, type_bytes};
use std::alloc::{AllocError, Global};

/// A column to be written. A member with this key is kept in the column if the type holds its value
/// with its kind and its digits; otherwise it stays in the rest of its row.
#[derive(Clone, Copy, Debug)]
pub struct ColumnPlan<'a> {
    /// The key.
    pub name: &'a str,
    /// The type.
    pub column_type: ScalarType,
}

/// The bytes of a file of these rows, with a column for each plan. A member is kept in the column
/// with its key if the column's type holds its value with its kind and its digits; otherwise it
/// stays in the rest of its row.
///
/// `NamesNotAscending` if the names of the plans do not ascend strictly by their bytes, otherwise
/// `TooManyColumns` if there are 2^32 plans or more; `RowTooLarge` if a row exceeds a limit of the
/// format, `OutOfMemory` if an allocation fails. The file is read again before it is returned;
/// `NotReadBack` if it does not give the rows back.
#[tactic(auto, using(crate::proofs::WrittenLaws::file_fits))]
pub fn write_file(
    alloc: Global,
    rows: &[Document<'_>],
    plans: &[ColumnPlan<'_>],
) -> Result<Vec<u8>, WriteError>
    ensures file { IfOk result (λ bytes. IsFileOf rows.now plans.now bytes.items) }
    ensures names { result ≡ Err WriteError.NamesNotAscending
        ↔ (AscendPlans None plans.now → ⊥) }
    ensures fit { OnOk result (AllFit rows.now) }
    ensures many { result ≡ Err WriteError.TooManyColumns → 2 ^ 32 ≤ length plans.now }
    ensures many_refused { AscendPlans None plans.now → 2 ^ 32 ≤ length plans.now
        → result ≡ Err WriteError.TooManyColumns }
    ensures large { result ≡ Err WriteError.RowTooLarge → AllFit rows.now → ⊥ }
{
    if !ascend(plans) {
        return Err(WriteError::NamesNotAscending);
    }
    let Ok(count) = u32::try_from(plans.len()) else {
        return Err(WriteError::TooManyColumns);
    };
    let bytes = file_of(alloc, rows, plans, count)?;
    if is_file_of(alloc, &bytes, rows, plans)? {
        Ok(bytes)
    } else {
        Err(WriteError::NotReadBack)
    }
}

// Whether the names of the plans ascend.
fn ascend(plans: &[ColumnPlan<'_>]) -> bool
    ensures { IsTrue result ↔ AscendPlans None plans.now }
{
    let mut before: Option<&str> = None;
    let mut left = plans;
    while let [plan, later @ ..] = left {
        if !is_above(before, plan.name) {
            return false;
        }
        before = Some(plan.name);
        left = later;
    }
    true
}

// The buffers of a column to be written.
#[derive(Drop)]
struct Filling {
    flags: Vec<u8>,
    numbers: Vec<u8>,
    texts: Vec<u8>,
}

impl Filling {
    // The buffers of no rows.
    fn new(alloc: Global, column_type: ScalarType) -> Result<Self, AllocError> {
        let mut numbers = Vec::new(alloc);
        if holds_texts(column_type) {
            numbers.extend_from_slice(&[0; 8])?;
        }
        Ok(Filling {
            flags: Vec::new(alloc),
            numbers,
            texts: Vec::new(alloc),
        })
    }

    // Appends the value of the row at an index, if it has one.
    fn push(
        &mut self,
        index: usize,
        column_type: ScalarType,
        value: Option<StoredValue<'_>>,
    ) -> Result<(), AllocError> {
        self.push_flag(index, value.is_some())?;
        if holds_texts(column_type) {
            self.texts.extend_from_slice(text_in(value))?;
            let end = self.texts.len() as u64;
            self.numbers.extend_from_slice(&end.to_be_bytes())
        } else {
            append_fixed(&mut self.numbers, column_type, value)
        }
    }

    // Appends the flag of the row at an index, the first of a byte in the lowest bit.
    fn push_flag(&mut self, index: usize, is_set: bool) -> Result<(), AllocError> {
        if index % 8 == 0 {
            self.flags.push(0)?;
        }
        if let Some(last) = self.flags.last_mut() {
            *last |= u8::from(is_set) << (index % 8);
        }
        Ok(())
    }
}

// Whether the values of a column are texts or binary values.
fn holds_texts(column_type: ScalarType) -> bool {
    matches!(column_type, ScalarType::Text | ScalarType::Binary)
}

// The bytes of a text or a binary value; none of any other.
fn text_in<'a>(value: Option<StoredValue<'a>>) -> &'a [u8] {
    match value {
        Some(StoredValue::Text(text)) => text.as_bytes(),
        Some(StoredValue::Extension(ExtensionValue::Binary(bytes))) => bytes,
        _ => &[],
    }
}

// The rests of rows, one document after another, and their offsets.
#[derive(Drop)]
struct Rests {
    offsets: Vec<u8>,
    documents: Vec<u8>,
}

// The bytes of the file, which the caller reads again.
fn file_of(
    alloc: Global,
    rows: &[Document<'_>],
    plans: &[ColumnPlan<'_>],
    count: u32,
) -> Result<Vec<u8>, WriteError>
    ensures large { result ≡ Err WriteError.RowTooLarge → AllFit rows.now → ⊥ }
    ensures only { IfErr result (λ e. (e ≡ WriteError.RowTooLarge)
        ⊎ (e ≡ WriteError.OutOfMemory)) }
{
    let rests = rests_of(alloc, rows, plans)?;
    let mut file = Vec::new(alloc);
    append_header(&mut file, count)?;
    append_section(&mut file, &rests.offsets)?;
    append_section(&mut file, &rests.documents)?;
    for plan in plans {
        append_column(alloc, &mut file, *plan, rows)?;
    }
    Ok(file)
}

// The rests of the rows.
fn rests_of(
    alloc: Global,
    rows: &[Document<'_>],
    plans: &[ColumnPlan<'_>],
) -> Result<Rests, WriteError>
    ensures large { result ≡ Err WriteError.RowTooLarge → AllFit rows.now → ⊥ }
    ensures only { IfErr result (λ e. (e ≡ WriteError.RowTooLarge)
        ⊎ (e ≡ WriteError.OutOfMemory)) }
{
    let mut offsets = Vec::new(alloc);
    offsets.extend_from_slice(&[0; 8])?;
    let mut documents = Vec::new(alloc);
    let mut left = rows;
    while let [row, later @ ..] = left {
        append_rest(alloc, &mut documents, *row, plans)?;
        left = later;
        let end = documents.len() as u64;
        offsets.extend_from_slice(&end.to_be_bytes())?;
    }
    Ok(Rests { offsets, documents })
}

// Appends the rest of a row: its members that are not kept in columns.
#[tactic(auto, using(crate::proofs::WrittenLaws::picked_fit))]
fn append_rest(
    alloc: Global,
    documents: &mut Vec<u8>,
    row: Document<'_>,
    plans: &[ColumnPlan<'_>],
) -> Result<(), WriteError>
    ensures large { result ≡ Err WriteError.RowTooLarge → Fits (document_tree row.entry) → ⊥ }
    ensures only { IfErr result (λ e. (e ≡ WriteError.RowTooLarge)
        ⊎ (e ≡ WriteError.OutOfMemory)) }
{
    let names = stored_names(alloc, row, plans)?;
    match pick(alloc, row, &names, Kept::Others) {
        Ok(rest) => Ok(documents.extend_from_slice(rest.as_bytes())?),
        Err(Error::OutOfMemory) => Err(WriteError::OutOfMemory),
        Err(_) => Err(WriteError::RowTooLarge),
    }
}

// The names of the members of a row that are kept in columns.
fn stored_names<'a>(
    alloc: Global,
    row: Document<'_>,
    plans: &[ColumnPlan<'a>],
) -> Result<Vec<&'a str>, AllocError> {
    let mut names = Vec::new(alloc);
    for plan in plans {
        if cell_of(row, plan.name, plan.column_type).is_some() {
            names.push(plan.name)?;
        }
    }
    Ok(names)
}

// Appends a column of the rows.
fn append_column(
    alloc: Global,
    file: &mut Vec<u8>,
    plan: ColumnPlan<'_>,
    rows: &[Document<'_>],
) -> Result<(), AllocError> {
    let mut column = Filling::new(alloc, plan.column_type)?;
    for (index, row) in rows.iter().enumerate() {
        column.push(
            index,
            plan.column_type,
            cell_of(*row, plan.name, plan.column_type),
        )?;
    }
    let mut head = Vec::new(alloc);
    head.extend_from_slice(&type_bytes(plan.column_type))?;
    head.extend_from_slice(plan.name.as_bytes())?;
    append_section(file, &head)?;
    append_section(file, &column.flags)?;
    append_section(file, &column.numbers)?;
    append_section(file, &column.texts)
}

// Appends a section.
fn append_section(file: &mut Vec<u8>, section: &[u8]) -> Result<(), AllocError> {
    match append_row(file, section) {
        Ok(()) => Ok(()),
        Err(_) => Err(AllocError),
    }
}
