//! A file of typed columns, which borrows its bytes.

ghost use Rattle.std.specs.Prelude.{◌≡◌, ◌≢◌, ◌⊎◌, Err, IfErr, IfOk};
ghost use Rattle.std.specs.Prelude.{◌<◌, ◌≤◌, IfSome, MatchOption, None, Some, length, map};
ghost use Rattle.std.specs.Prelude.{option_map};
ghost use Rattle.std.specs.Result.{result_err};
ghost use Rattle.jsonb_typed_file.specs.Words.{Contents, HaveRows, HaveTexts, IsFile, IsFileWithin};
ghost use Rattle.jsonb_typed_file.specs.Words.{IsInForm, IsLayout, IsLayoutTold, IsMadeRow};
ghost use Rattle.jsonb_typed_file.specs.Words.{LengthsFit, NestWithin, buffers_view, column_named};
ghost use Rattle.jsonb_typed_file.specs.Words.{document_bytes, layout_view, rest_at, row_count};
ghost use Rattle.jsonb_typed_file.specs.Words.{row_tree};
ghost use Rattle.jsonb_typed_file.specs.OneRow.{IsRowInForm, IsRowOf, IsRowWithin};

use crate::buffers::Buffers;
use crate::column::StoredColumn;
use crate::error::FileError;
use crate::form::{is_in_form, lengths_fit, nest_deeper};
use crate::layout::{Layout, read_layout};
use crate::one_row::layout_of_row;
use crate::row::whole_row;
use crate::strings::Strings;
use jsonb::{Document, Error, OwnedJsonb};
use std::alloc::Global;
use std::marker::Model;

/// A file of typed columns. It borrows its bytes, which were checked once.
#[derive(Drop)]
pub struct TypedFile<'a> {
    rests: Strings<'a>,
    columns: Vec<Buffers<'a>>,
}

// In contracts a file is what it is made of.
impl<'a> Model for TypedFile<'a> {
    ghost Value = { Contents };

    ghost view = { λ s. record {
      offsets = s.rests.offsets.now;
      documents = s.rests.bytes.now;
      columns = map buffers_view s.columns.items;
    } };

    ghost invariant = { λ s. LengthsFit (record {
      offsets = s.rests.offsets.now;
      documents = s.rests.bytes.now;
      columns = map buffers_view s.columns.items;
    }) × IsInForm (record {
      offsets = s.rests.offsets.now;
      documents = s.rests.bytes.now;
      columns = map buffers_view s.columns.items;
    }) };
}

impl<'a> TypedFile<'a> {
    /// Checks the bytes of a file once. Each length is tested before anything is read or allocated
    /// by it, and only the list of columns is allocated.
    ///
    /// `BadMagic` if the bytes do not begin with `KOHITYPE`, `UnknownVersion` if the version is not
    /// 1, `Cut` if the bytes end before the file does, `TrailingData` if there are bytes after the
    /// file, `WrongLength` if the length of a buffer does not fit the number of rows, `OutOfForm`
    /// if a type is unknown, the names are not UTF-8 or do not ascend strictly by their bytes, a
    /// text is not UTF-8, offsets are not in order or not within their bytes, or the rest of a row
    /// is not a document; `OutOfMemory` if the list of columns cannot be allocated.
    pub fn new(alloc: Global, bytes: &'a [u8]) -> Result<Self, FileError>
        ensures ok { IfOk result (λ file. IsFile file bytes.entry.now) }
        ensures same { (f : Contents) → IsFile f bytes.entry.now
            → IfOk result (λ file. file ≡ f) }
        ensures memory { (f : Contents) → IsFile f bytes.entry.now
            → IfErr result (λ e. e ≡ FileError.OutOfMemory) }
        ensures layout { IsLayoutTold bytes.entry.now (result_err result) }
        ensures form { result ≡ Err FileError.OutOfForm → (f : Contents)
            → IsFile f bytes.entry.now → ⊥ }
        ensures deep { IfErr result (λ e. e ≢ FileError.TooDeep) }
    {
        TypedFile::checked(alloc, bytes, None)
    }

    /// Checks the bytes of a file like `new`, and also the depth of the rests: a scalar has depth
    /// 0, an empty array or object 1, any other array or object one more than its deepest child.
    /// `TooDeep` if the rest of a row nests deeper than `depth` levels; levels beyond are not
    /// examined. The other errors are those of `new`.
    pub fn within(alloc: Global, bytes: &'a [u8], depth: usize) -> Result<Self, FileError>
        ensures ok { IfOk result (λ file. IsFileWithin (Some depth) file bytes.entry.now) }
        ensures same { (f : Contents) → IsFileWithin (Some depth) f bytes.entry.now
            → IfOk result (λ file. file ≡ f) }
        ensures memory { (f : Contents) → IsFileWithin (Some depth) f bytes.entry.now
            → IfErr result (λ e. e ≡ FileError.OutOfMemory) }
        ensures layout { IsLayoutTold bytes.entry.now (result_err result) }
        ensures form { result ≡ Err FileError.OutOfForm → (f : Contents)
            → IsFile f bytes.entry.now → ⊥ }
        ensures deep { result ≡ Err FileError.TooDeep → (f : Contents)
            → IsLayout f bytes.entry.now → LengthsFit f → NestWithin (Some depth) f → ⊥ }
        ensures refused { (f : Contents) → IsFile f bytes.entry.now
            → IfErr result (λ e. (e ≡ FileError.TooDeep) ⊎ (e ≡ FileError.OutOfMemory)) }
    {
        TypedFile::checked(alloc, bytes, Some(depth))
    }

    // The same with a limit of depth or without one.
    fn checked(alloc: Global, bytes: &'a [u8], depth: Option<usize>) -> Result<Self, FileError>
        ensures ok { IfOk result (λ file. IsFileWithin depth file bytes.entry.now) }
        ensures same { (f : Contents) → IsFileWithin depth f bytes.entry.now
            → IfOk result (λ file. file ≡ f) }
        ensures memory { (f : Contents) → IsFileWithin depth f bytes.entry.now
            → IfErr result (λ e. e ≡ FileError.OutOfMemory) }
        ensures layout { IsLayoutTold bytes.entry.now (result_err result) }
        ensures form { result ≡ Err FileError.OutOfForm → (f : Contents)
            → IsFile f bytes.entry.now → ⊥ }
        ensures deep { result ≡ Err FileError.TooDeep → (f : Contents)
            → IsLayout f bytes.entry.now → LengthsFit f → NestWithin depth f → ⊥ }
        ensures refused { (f : Contents) → IsFile f bytes.entry.now
            → IfErr result (λ e. (e ≡ FileError.TooDeep) ⊎ (e ≡ FileError.OutOfMemory)) }
        ensures unlimited { depth ≡ None → IfErr result (λ e. e ≢ FileError.TooDeep) }
    {
        let layout = read_sized(alloc, bytes)?;
        if nest_deeper(&layout, depth) {
            return Err(FileError::TooDeep);
        }
        if !is_in_form(&layout) {
            return Err(FileError::OutOfForm);
        }
        let Layout { rests, columns } = layout;
        Ok(TypedFile { rests, columns })
    }

    /// A file whose only row is the one at this index, counted from 0. The other rows are not read;
    /// this one is checked as `within` checks all. `None` if the index is not below the number of
    /// rows. `TooDeep` if the rest of the row nests deeper than `depth` levels; levels beyond are
    /// not examined. `OutOfForm` if the names do not ascend strictly, a text of the row is not
    /// UTF-8, or its rest is not a document. `OutOfMemory` if a list of columns cannot be allocated;
    /// the other errors are those of `new`.
    #[tactic(auto, using(crate::proofs::OneRowLaws::form_of_row))]
    pub fn of_row(
        alloc: Global,
        bytes: &'a [u8],
        index: usize,
        depth: usize,
    ) -> Result<Option<Self>, FileError>
        ensures row { (f : Contents) → IsLayout f bytes.entry.now → LengthsFit f → IfOk result
            (λ one. MatchOption one (row_count f ≤ index)
            (λ g. (index < row_count f) × IsRowOf f index g)) }
        ensures laid_out { IfOk result (λ one. (f : Contents) × (IsLayout f bytes.entry.now
            × LengthsFit f)) }
        ensures within { IfOk result (λ one. IfSome one (λ g. IsRowWithin depth g 0)) }
        ensures memory { (f : Contents) → IsLayout f bytes.entry.now → LengthsFit f
            → IsRowInForm f index → IsRowWithin depth f index
            → IfErr result (λ e. e ≡ FileError.OutOfMemory) }
        ensures refused { (f : Contents) → IsLayout f bytes.entry.now → LengthsFit f
            → IsRowInForm f index
            → IfErr result (λ e. (e ≡ FileError.TooDeep) ⊎ (e ≡ FileError.OutOfMemory)) }
        ensures each { (f : Contents) → IsFile f bytes.entry.now → IsRowInForm f index }
        ensures form { IfOk result (λ one. (f : Contents) → IsLayout f bytes.entry.now
            → LengthsFit f → IsRowInForm f index) }
        ensures deep { result ≡ Err FileError.TooDeep → (f : Contents)
            → IsLayout f bytes.entry.now → LengthsFit f → IsRowWithin depth f index → ⊥ }
        ensures layout { IsLayoutTold bytes.entry.now (result_err result) }
    {
        let layout = read_sized(alloc, bytes)?;
        if layout.rows() <= index {
            return Ok(None);
        }
        let one = layout_of_row(alloc, &layout, index)?;
        if nest_deeper(&one, Some(depth)) {
            return Err(FileError::TooDeep);
        }
        if !is_in_form(&one) {
            return Err(FileError::OutOfForm);
        }
        let Layout { rests, columns } = one;
        Ok(Some(TypedFile { rests, columns }))
    }

    /// The number of columns.
    pub fn column_count(&self) -> usize
        ensures { result ≡ length self.now.columns }
    {
        self.columns.len()
    }

    /// The number of rows.
    pub fn len(&self) -> usize
        ensures { result ≡ row_count self.now }
    {
        self.rests.offsets.len() / 8 - 1
    }

    /// The column with this name. `None` if the file has no such column. The buffers of the other
    /// columns are not read.
    pub fn column(&self, name: &str) -> Option<StoredColumn<'a>>
        ensures column { option_map (λ c. c.parts) result
            ≡ column_named name.now self.now.columns }
        ensures rows { IfSome result (λ c. c.rows ≡ row_count self.now) }
    {
        let rows = self.len();
        let mut left = self.columns.as_slice();
        while let [column, later @ ..] = left {
            if column.name == name {
                return Some(StoredColumn::new(rows, *column));
            }
            left = later;
        }
        None
    }

    /// The rest of the row at this index, counted from 0: a document of the members that are not
    /// kept in columns, or the row itself if it is not an object. `None` if the index is not below
    /// the number of rows.
    pub fn rest(&self, index: usize) -> Option<Document<'a>>
        ensures { option_map document_bytes result ≡ rest_at self.now index }
    {
        if index < self.len() {
            match self.rests.at(index) {
                Some(rest) => Some(Document::new_unchecked(rest)),
                None => None,
            }
        } else {
            None
        }
    }

    // The buffers of all columns.
    pub(crate) fn buffers(&self) -> &[Buffers<'a>]
        ensures columns { map buffers_view result.now ≡ self.now.columns }
        ensures size { HaveRows (row_count self.now) (map buffers_view result.now) }
        ensures texts { HaveTexts (row_count self.now) (map buffers_view result.now) }
    {
        &self.columns
    }

    /// The canonical document of the row at this index, counted from 0: an object of the members of
    /// its rest and of those that are kept in columns, or the rest alone if that is not an object.
    /// `None` if the index is not below the number of rows. `InvalidJsonb` if the row exceeds a
    /// limit of the format, `OutOfMemory` if an allocation fails.
    pub fn row(&self, alloc: Global, index: usize) -> Option<Result<OwnedJsonb, Error>>
        ensures { MatchOption result (row_count self.now ≤ index)
            (λ made. (index < row_count self.now) × IsMadeRow (row_tree self.now index) made) }
    {
        match self.rest(index) {
            Some(rest) => Some(whole_row(alloc, rest, &self.columns, self.len(), index)),
            None => None,
        }
    }
}

// The sections of a file, after a test that their lengths fit the number of rows.
pub(crate) fn read_sized(alloc: Global, bytes: &[u8]) -> Result<Layout<'_>, FileError>
    ensures ok { IfOk result (λ l. IsLayout (layout_view l) bytes.now) }
    ensures lengths { IfOk result (λ l. LengthsFit (layout_view l)) }
    ensures same { (f : Contents) → IsLayout f bytes.now → LengthsFit f
        → IfOk result (λ l. layout_view l ≡ f) }
    ensures memory { (f : Contents) → IsLayout f bytes.now → LengthsFit f
        → IfErr result (λ e. e ≡ FileError.OutOfMemory) }
    ensures layout { IsLayoutTold bytes.now (result_err result) }
    ensures deep { IfErr result (λ e. e ≢ FileError.TooDeep) }
{
    let layout = read_layout(alloc, bytes)?;
    if !lengths_fit(&layout) {
        return Err(FileError::WrongLength);
    }
    Ok(layout)
}
