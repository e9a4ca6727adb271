//! The sections of a file.

ghost use Rattle.std.specs.Prelude.{◌≡◌, ◌<◌, ◌^◌, ◌++◌, ◌⊎◌, ◌≢◌, [], ℕ, List, All, Err, IfErr};
ghost use Rattle.std.specs.Prelude.{IfOk, IsErrAnd, IsOk, length, map, ◌↔◌};
ghost use Rattle.jsonb_typed_file.specs.Words.{IsColumn, IsLayout, Parts, Contents, column_bytes};
ghost use Rattle.jsonb_typed_file.specs.Words.{buffers_view, columns_bytes, layout_view, row_bytes};
ghost use Rattle.jsonb_typed_file.specs.Words.{EndsEarly, HasNoMagic, HasOtherVersion};
ghost use Rattle.jsonb_typed_file.specs.Words.{HasTrailingData, IsCutOff, row_count};

use crate::buffers::Buffers;
use crate::error::FileError;
use crate::header::split_header;
use crate::strings::Strings;
use jsonb::split_row;
use jsonb_typed::split_type;
use std::alloc::Global;

/// The sections of a file.
#[derive(Drop)]
pub(crate) struct Layout<'a> {
    pub rests: Strings<'a>,
    pub columns: Vec<Buffers<'a>>,
}

impl<'a> Layout<'a> {
    // The number of rows.
    pub fn rows(&self) -> usize
        ensures { result ≡ row_count (layout_view self.now) }
    {
        (self.rests.offsets.len() / 8).saturating_sub(1)
    }
}

// Reads the sections of a file.
pub(crate) fn read_layout(alloc: Global, bytes: &[u8]) -> Result<Layout<'_>, FileError>
    ensures ok { IfOk result (λ l. IsLayout (layout_view l) bytes.now) }
    ensures same { (f : Contents) (front more : List ℕ) → IsLayout f front
        → bytes.now ≡ front ++ more
        → IfOk result (λ l. (layout_view l ≡ f) × (more ≡ [])) }
    ensures begun { (f : Contents) (front more : List ℕ) → IsLayout f front
        → bytes.now ≡ front ++ more → IfErr result (λ e. (e ≡ FileError.OutOfMemory)
        ⊎ ((e ≡ FileError.TrailingData) × (more ≢ []))) }
    ensures magic { result ≡ Err FileError.BadMagic ↔ HasNoMagic bytes.now }
    ensures version { result ≡ Err FileError.UnknownVersion ↔ HasOtherVersion bytes.now }
    ensures cut_refused { IsCutOff bytes.now → IsErrAnd result (λ e. (e ≡ FileError.BadMagic)
        ⊎ ((e ≡ FileError.Cut) ⊎ (e ≡ FileError.OutOfMemory))) }
    ensures trailing { result ≡ Err FileError.TrailingData → HasTrailingData bytes.now }
    ensures lengths { IfErr result (λ e. e ≢ FileError.WrongLength) }
    ensures deep { IfErr result (λ e. e ≢ FileError.TooDeep) }
{
    let (count, later) = split_header(bytes)?;
    let (offsets, later) = split_section(later)?;
    let (documents, later) = split_section(later)?;
    let columns = read_columns(alloc, count, later)?;
    let rests = Strings {
        offsets,
        bytes: documents,
    };
    Ok(Layout { rests, columns })
}

// Reads so many columns, which are all the bytes.
fn read_columns(alloc: Global, count: u32, bytes: &[u8]) -> Result<Vec<Buffers<'_>>, FileError>
    ensures ok { IfOk result (λ cs. bytes.now ≡ columns_bytes (map buffers_view cs.items)) }
    ensures count { IfOk result (λ cs. length cs.items ≡ count) }
    ensures each { IfOk result (λ cs. All IsColumn (map buffers_view cs.items)) }
    ensures same { (ps : List Parts) (more : List ℕ) → All IsColumn ps → length ps ≡ count
        → bytes.now ≡ columns_bytes ps ++ more
        → IfOk result (λ cs. (map buffers_view cs.items ≡ ps) × (more ≡ [])) }
    ensures begun { (ps : List Parts) (more : List ℕ) → All IsColumn ps → length ps ≡ count
        → bytes.now ≡ columns_bytes ps ++ more
        → IfErr result (λ e. (e ≡ FileError.OutOfMemory)
        ⊎ ((e ≡ FileError.TrailingData) × (more ≢ []))) }
    ensures cut { (ps : List Parts) (more : List ℕ) → All IsColumn ps → length ps ≡ count
        → bytes.now ++ more ≡ columns_bytes ps → more ≢ []
        → IsErrAnd result (λ e. (e ≡ FileError.Cut) ⊎ (e ≡ FileError.OutOfMemory)) }
    ensures trailing { result ≡ Err FileError.TrailingData → EndsEarly count bytes.now }
    ensures only { IfErr result (λ e. (e ≡ FileError.Cut) ⊎ ((e ≡ FileError.OutOfForm)
        ⊎ ((e ≡ FileError.TrailingData) ⊎ (e ≡ FileError.OutOfMemory)))) }
{
    let mut columns = Vec::new(alloc);
    let mut rest = bytes;
    for _index in 0..count {
        let (column, later) = split_column(rest)?;
        columns.push(column)?;
        rest = later;
    }
    if rest.is_empty() {
        Ok(columns)
    } else {
        Err(FileError::TrailingData)
    }
}

// The first column, and the bytes after it.
fn split_column(bytes: &[u8]) -> Result<(Buffers<'_>, &[u8]), FileError>
    ensures ok { IfOk result (λ x. bytes.now ≡ column_bytes (buffers_view x.0) ++ x.1.now) }
    ensures column { IfOk result (λ x. IsColumn (buffers_view x.0)) }
    ensures begun { (p : Parts) (later : List ℕ) → IsColumn p
        → bytes.now ≡ column_bytes p ++ later → IsOk result }
    ensures cut { (p : Parts) (more later : List ℕ) → IsColumn p
        → bytes.now ++ more ≡ column_bytes p ++ later
        → IfErr result (λ e. e ≡ FileError.Cut) }
    ensures only { IfErr result (λ e. (e ≡ FileError.Cut) ⊎ (e ≡ FileError.OutOfForm)) }
{
    let (head, later) = split_section(bytes)?;
    let (flags, later) = split_section(later)?;
    let (numbers, later) = split_section(later)?;
    let (texts, later) = split_section(later)?;
    let Some((column_type, name)) = split_type(head) else {
        return Err(FileError::OutOfForm);
    };
    let Ok(name) = str::from_utf8(name) else {
        return Err(FileError::OutOfForm);
    };
    let column = Buffers {
        name,
        column_type,
        flags,
        numbers,
        texts,
    };
    Ok((column, later))
}

// The first section, and the bytes after it.
fn split_section(bytes: &[u8]) -> Result<(&[u8], &[u8]), FileError>
    ensures ok { IfOk result (λ x. bytes.now ≡ row_bytes x.0.now ++ x.1.now) }
    ensures short { IfOk result (λ x. length x.0.now < 2 ^ 64) }
    ensures begun { (section later : List ℕ) → length section < 2 ^ 64
        → bytes.now ≡ row_bytes section ++ later → IsOk result }
    ensures only { IfErr result (λ e. e ≡ FileError.Cut) }
{
    match split_row(bytes) {
        Ok(parts) => Ok(parts),
        Err(_) => Err(FileError::Cut),
    }
}
