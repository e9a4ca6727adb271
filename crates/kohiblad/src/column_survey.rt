//! What the members of rows are, counted.

ghost use Rattle.std.specs.Prelude.{◌≡◌, List, map};
ghost use Rattle.jsonb_typed.specs.Words.{rest_cell, survey_of, with_cell};
ghost use Rattle.kohiblad.specs.ColumnSurvey.{AreRowsSurveyed, greatest_scale};
ghost use Rattle.kohiblad.specs.ColumnSurvey.{least_scale, no_survey, survey_answer};
ghost use Rattle.kohiblad.specs.RowCells.{row_cell};
ghost use Rattle.kohiblad.specs.Words.{meaning_within};

use crate::answer::{OK, code};
use crate::row_paths::steps_of;
use crate::rows::Rows;
use jsonb::{Error, SortKey};
use jsonb_functions::Step;
use jsonb_typed::{Scales, Survey, member_of};
use std::alloc::Global;

/// What the members of rows are: the number of rows, and of those whose member is what a count is
/// named after. They are 0 if the status is not `OK`.
#[repr(C)]
#[derive(Clone, Copy)]
pub struct KohibladSurvey {
    pub status: u32,
    pub least_scale: u32,
    pub greatest_scale: u32,
    pub most_digits: u64,
    pub longest_text: u64,
    pub rows: u64,
    pub not_documents: u64,
    pub absent: u64,
    pub nulls: u64,
    pub booleans: u64,
    pub int64s: u64,
    pub uint64s: u64,
    pub decimal64s: u64,
    pub decimal128s: u64,
    pub texts: u64,
    pub binaries: u64,
    pub dates: u64,
    pub timestamps: u64,
    pub zoned_timestamps: u64,
    pub intervals: u64,
    pub opaques: u64,
    pub arrays: u64,
    pub objects: u64,
}

/// Counts what the members of rows at the end of a path are: numbers by the kind in which they are
/// stored, and rows without the member. Row k begins at `offsets[k]` and ends at `offsets[k + 1]`.
/// A row of no bytes has no member, and one that is not a document of at most this depth has a
/// count of its own. Beside the counts are the least and the greatest number of digits after the
/// point, the most digits of a number without its point and the zeros in front of it, as 1 of 0.05,
/// and the longest text in bytes; each is 0 if there is no number or text. `path` is the document
/// of a path, as `kohiblad_get_path` takes it. `InvalidEOF` if an offset is below the previous one
/// or beyond the bytes; then `InvalidJsonb` if the path is not a document of at most this depth;
/// `OTHER_KIND` if it is not an array of texts and whole numbers of 64 bits; `OutOfMemory` if an
/// allocation fails, which only the path makes. If the status is not `OK`, all fields are 0. A
/// scalar has depth 0, an array or object one more than its deepest child, and at least 1. Deeper
/// levels are not examined.
#[unsafe(no_mangle)]
pub extern "C" fn kohiblad_survey(
    alloc: Global,
    bytes: &[u8],
    offsets: &[usize],
    path: &[u8],
    depth: usize,
) -> KohibladSurvey
    ensures { AreRowsSurveyed depth bytes.now offsets.now (meaning_within depth path.now) result }
{
    let Ok(rows) = Rows::new(bytes, offsets) else {
        return no_survey(code(Error::InvalidEOF));
    };
    match steps_of(alloc, path, depth) {
        Ok(steps) => survey_answer(survey_of(rows, &steps, depth)),
        Err(status) => no_survey(status),
    }
}

// The survey of the rows.
fn survey_of(rows: Rows<'_>, path: &[Step<'_>], depth: usize) -> Survey
    ensures { result ≡ survey_of (map (row_cell depth path.now) rows.entry) }
{
    let mut survey = Survey::new();
    let mut left = rows;
    while let Some(row) = left.next() {
        add_row(&mut survey, row, path, depth);
    }
    survey
}

// Counts one more row.
fn add_row(survey: &mut Survey, row: &[u8], path: &[Step<'_>], depth: usize)
    ensures { survey.new ≡ with_cell survey.old (row_cell depth path.now row.now) }
{
    match SortKey::within(row, depth) {
        SortKey::Document(document) => survey.add_member(member_of(document, path)),
        SortKey::Other(bytes) => add_bytes(survey, bytes),
    }
}

// Counts a row of bytes that are not a document of the depth.
fn add_bytes(survey: &mut Survey, row: &[u8])
    ensures { survey.new ≡ with_cell survey.old (rest_cell row.now) }
{
    survey.rows = survey.rows.saturating_add(1);
    if row.is_empty() {
        survey.absent = survey.absent.saturating_add(1);
    } else {
        survey.not_documents = survey.not_documents.saturating_add(1);
    }
}

// The survey as C receives it.
fn survey_answer(survey: Survey) -> KohibladSurvey
    ensures { result ≡ survey_answer survey }
{
    KohibladSurvey {
        status: OK,
        least_scale: least_scale(survey.scales),
        greatest_scale: greatest_scale(survey.scales),
        most_digits: survey.most_digits as u64,
        longest_text: survey.longest_text as u64,
        rows: survey.rows as u64,
        not_documents: survey.not_documents as u64,
        absent: survey.absent as u64,
        nulls: survey.nulls as u64,
        booleans: survey.booleans as u64,
        int64s: survey.int64s as u64,
        uint64s: survey.uint64s as u64,
        decimal64s: survey.decimal64s as u64,
        decimal128s: survey.decimal128s as u64,
        texts: survey.texts as u64,
        binaries: survey.binaries as u64,
        dates: survey.dates as u64,
        timestamps: survey.timestamps as u64,
        zoned_timestamps: survey.zoned_timestamps as u64,
        intervals: survey.intervals as u64,
        opaques: survey.opaques as u64,
        arrays: survey.arrays as u64,
        objects: survey.objects as u64,
    }
}

// The least number of digits after the point, 0 without numbers.
fn least_scale(scales: Option<Scales>) -> u32
    ensures { result ≡ least_scale scales }
{
    match scales {
        Some(scales) => u32::from(scales.least),
        None => 0,
    }
}

// The greatest number of digits after the point, 0 without numbers.
fn greatest_scale(scales: Option<Scales>) -> u32
    ensures { result ≡ greatest_scale scales }
{
    match scales {
        Some(scales) => u32::from(scales.greatest),
        None => 0,
    }
}

// A survey with this status, and with 0 in all fields.
fn no_survey(status: u32) -> KohibladSurvey
    ensures { result ≡ no_survey status }
{
    KohibladSurvey {
        status,
        ..survey_answer(Survey::new())
    }
}
