//! Counting what the values of rows are.

ghost use Rattle.std.specs.Prelude.{◌≡◌, IfOk, IfErr, string_bytes};
ghost use Rattle.kohiblad_shell.specs.Words.{IsDocument, IsRefusedRow, IsRow};
ghost use Rattle.kohiblad_shell.specs.Words.{container_count_lines, count_line, document_rule};
ghost use Rattle.kohiblad_shell.specs.Words.{extension_count_lines, length_lines};
ghost use Rattle.kohiblad_shell.specs.Words.{number_count_lines, row_count_lines};
ghost use Rattle.kohiblad_shell.specs.Words.{scale_lines, survey_lines, time_count_lines};
ghost use Rattle.kohiblad_shell.specs.Words.{with_row};

use crate::first::first_value;
use crate::input::Form;
use crate::outcome::{LineWorker, Unanswered};
use crate::row::{check_document, parse_line};
use jsonb::Document;
use jsonb_path::Path;
use jsonb_typed::{Scales, Survey};
use std::alloc::{AllocError, Global};

/// Counts the first value to which the path leads in each row, and gives the row's document; no
/// bytes of a row that is passed over.
#[derive(Clone, Copy)]
pub struct ValueCounter<'a> {
    pub path: &'a Path,
    pub form: Form,
    pub survey: Survey,
}

impl LineWorker for ValueCounter<'_> {
    ghost rule = { λ counter. document_rule counter.form };

    ghost after = { with_row };

    ghost keeps = { λ counter rows line outcome is. is };

    #[tactic(auto, using(crate::proofs::PassedLaws::passed_gives, crate::proofs::PassedLaws::read_gives, crate::proofs::PassedLaws::refused_gives, crate::proofs::PassedLaws::passed_keeps, crate::proofs::PassedLaws::read_counts))]
    fn answer(&mut self, alloc: Global, row: &[u8]) -> Result<Vec<u8>, Unanswered> {
        if self.form.passes_over(row) {
            return Ok(Vec::new(alloc));
        }
        let bytes = row_document(alloc, self.form, row)?;
        let value = first_value(alloc, Document::new_unchecked(&bytes), self.path)?;
        self.survey.add_member(value);
        Ok(bytes)
    }
}

/// The document of a row.
pub fn row_document(alloc: Global, form: Form, row: &[u8]) -> Result<Vec<u8>, Unanswered>
    ensures row { IfOk result (λ bytes. IsRow form row.now bytes.items) }
    ensures document { IfOk result (λ bytes. IsDocument bytes.items) }
    ensures refused { IfErr result (IsRefusedRow form row.now) }
{
    match form {
        Form::Lines(reading) => Ok(parse_line(alloc, row, reading)?.to_vec()),
        Form::Documents => Ok(check_document(row)?.as_bytes().to_vec(alloc)?),
    }
}

/// The lines of a survey: each count that is not 0 with its name.
pub fn survey_text(alloc: Global, survey: &Survey) -> Result<String, AllocError>
    ensures { IfOk result (λ text. string_bytes text ≡ survey_lines survey.now) }
{
    let rows = row_count_lines(alloc, survey)?;
    let numbers = number_count_lines(alloc, survey)?;
    let times = time_count_lines(alloc, survey)?;
    let extensions = extension_count_lines(alloc, survey)?;
    let containers = container_count_lines(alloc, survey)?;
    let lengths = length_lines(alloc, survey)?;
    let scales = scale_lines(alloc, survey.scales)?;
    format!(in alloc; "{rows}{numbers}{times}{extensions}{containers}{lengths}{scales}")
}

// The line of a count, unless it is 0.
fn count_line(alloc: Global, name: &str, count: usize) -> Result<String, AllocError>
    ensures { IfOk result (λ line. string_bytes line ≡ count_line name.now count) }
{
    if count == 0 {
        Ok(String::new(alloc))
    } else {
        format!(in alloc; "{name} {count}\n")
    }
}

// How many rows there are, how many have no value, and how many values are null or booleans.
fn row_count_lines(alloc: Global, survey: &Survey) -> Result<String, AllocError>
    ensures { IfOk result (λ text. string_bytes text ≡ row_count_lines survey.now) }
{
    let rows = survey.rows;
    let absent = count_line(alloc, "absent", survey.absent)?;
    let nulls = count_line(alloc, "null", survey.nulls)?;
    let booleans = count_line(alloc, "boolean", survey.booleans)?;
    format!(in alloc; "rows {rows}\n{absent}{nulls}{booleans}")
}

// How many values are numbers of each kind.
fn number_count_lines(alloc: Global, survey: &Survey) -> Result<String, AllocError>
    ensures { IfOk result (λ text. string_bytes text ≡ number_count_lines survey.now) }
{
    let int64s = count_line(alloc, "int64", survey.int64s)?;
    let uint64s = count_line(alloc, "uint64", survey.uint64s)?;
    let decimal64s = count_line(alloc, "decimal64", survey.decimal64s)?;
    let decimal128s = count_line(alloc, "decimal128", survey.decimal128s)?;
    format!(in alloc; "{int64s}{uint64s}{decimal64s}{decimal128s}")
}

// How many values are dates, timestamps or intervals.
fn time_count_lines(alloc: Global, survey: &Survey) -> Result<String, AllocError>
    ensures { IfOk result (λ text. string_bytes text ≡ time_count_lines survey.now) }
{
    let dates = count_line(alloc, "date", survey.dates)?;
    let timestamps = count_line(alloc, "timestamp", survey.timestamps)?;
    let zoned = count_line(alloc, "timestamp_tz", survey.zoned_timestamps)?;
    let intervals = count_line(alloc, "interval", survey.intervals)?;
    format!(in alloc; "{dates}{timestamps}{zoned}{intervals}")
}

// How many values are extension values of other kinds.
fn extension_count_lines(alloc: Global, survey: &Survey) -> Result<String, AllocError>
    ensures { IfOk result (λ text. string_bytes text ≡ extension_count_lines survey.now) }
{
    let binaries = count_line(alloc, "binary", survey.binaries)?;
    let opaques = count_line(alloc, "opaque", survey.opaques)?;
    format!(in alloc; "{binaries}{opaques}")
}

// How many values are texts, arrays or objects.
fn container_count_lines(alloc: Global, survey: &Survey) -> Result<String, AllocError>
    ensures { IfOk result (λ text. string_bytes text ≡ container_count_lines survey.now) }
{
    let texts = count_line(alloc, "text", survey.texts)?;
    let arrays = count_line(alloc, "array", survey.arrays)?;
    let objects = count_line(alloc, "object", survey.objects)?;
    format!(in alloc; "{texts}{arrays}{objects}")
}

// How many bytes texts have, and how many digits numbers, at most.
fn length_lines(alloc: Global, survey: &Survey) -> Result<String, AllocError>
    ensures { IfOk result (λ text. string_bytes text ≡ length_lines survey.now) }
{
    let longest = count_line(alloc, "length", survey.longest_text)?;
    let digits = count_line(alloc, "digits", survey.most_digits)?;
    format!(in alloc; "{longest}{digits}")
}

// How many digits numbers have after the point, if there are numbers.
fn scale_lines(alloc: Global, scales: Option<Scales>) -> Result<String, AllocError>
    ensures { IfOk result (λ text. string_bytes text ≡ scale_lines scales) }
{
    let Some(Scales { least, greatest }) = scales else {
        return Ok(String::new(alloc));
    };
    format!(in alloc; "scales {least} {greatest}\n")
}
