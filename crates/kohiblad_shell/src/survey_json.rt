//! The counts of a survey as JSON.

ghost use Rattle.std.specs.Prelude.{◌≡◌, IfOk, string_bytes};
ghost use Rattle.kohiblad_shell.specs.Words.{container_count_members, count_member, count_members};
ghost use Rattle.kohiblad_shell.specs.Words.{extension_count_members, length_members};
ghost use Rattle.kohiblad_shell.specs.Words.{number_count_members, row_count_members};
ghost use Rattle.kohiblad_shell.specs.Words.{scales_json, survey_json, time_count_members};

use jsonb_typed::{Scales, Survey};
use std::alloc::{AllocError, Global};

/// A survey as an object on one line: each count with its name, also if it is 0, and then the
/// fewest and the most digits after the point, as an array, or null if there are no numbers.
pub fn survey_json(alloc: Global, survey: &Survey) -> Result<String, AllocError>
    ensures { IfOk result (λ text. string_bytes text ≡ survey_json survey.now) }
{
    let counts = count_members(alloc, survey)?;
    let scales = scales_json(alloc, survey.scales)?;
    format!(in alloc; "{{{counts}\"scales\":{scales}}}\n")
}

// All counts, each with a comma after it.
fn count_members(alloc: Global, survey: &Survey) -> Result<String, AllocError>
    ensures { IfOk result (λ text. string_bytes text ≡ count_members survey.now) }
{
    let rows = row_count_members(alloc, survey)?;
    let numbers = number_count_members(alloc, survey)?;
    let times = time_count_members(alloc, survey)?;
    let extensions = extension_count_members(alloc, survey)?;
    let containers = container_count_members(alloc, survey)?;
    let lengths = length_members(alloc, survey)?;
    format!(in alloc; "{rows}{numbers}{times}{extensions}{containers}{lengths}")
}

// A count with its name, and a comma after it.
fn count_member(alloc: Global, name: &str, count: usize) -> Result<String, AllocError>
    ensures { IfOk result (λ member. string_bytes member ≡ count_member name.now count) }
{
    format!(in alloc; "\"{name}\":{count},")
}

// How many rows there are, how many have no value, and how many values are null or booleans.
fn row_count_members(alloc: Global, survey: &Survey) -> Result<String, AllocError>
    ensures { IfOk result (λ text. string_bytes text ≡ row_count_members survey.now) }
{
    let rows = count_member(alloc, "rows", survey.rows)?;
    let absent = count_member(alloc, "absent", survey.absent)?;
    let nulls = count_member(alloc, "null", survey.nulls)?;
    let booleans = count_member(alloc, "boolean", survey.booleans)?;
    format!(in alloc; "{rows}{absent}{nulls}{booleans}")
}

// How many values are numbers of each kind.
fn number_count_members(alloc: Global, survey: &Survey) -> Result<String, AllocError>
    ensures { IfOk result (λ text. string_bytes text ≡ number_count_members survey.now) }
{
    let int64s = count_member(alloc, "int64", survey.int64s)?;
    let uint64s = count_member(alloc, "uint64", survey.uint64s)?;
    let decimal64s = count_member(alloc, "decimal64", survey.decimal64s)?;
    let decimal128s = count_member(alloc, "decimal128", survey.decimal128s)?;
    format!(in alloc; "{int64s}{uint64s}{decimal64s}{decimal128s}")
}

// How many values are dates, timestamps or intervals.
fn time_count_members(alloc: Global, survey: &Survey) -> Result<String, AllocError>
    ensures { IfOk result (λ text. string_bytes text ≡ time_count_members survey.now) }
{
    let dates = count_member(alloc, "date", survey.dates)?;
    let timestamps = count_member(alloc, "timestamp", survey.timestamps)?;
    let zoned = count_member(alloc, "timestamp_tz", survey.zoned_timestamps)?;
    let intervals = count_member(alloc, "interval", survey.intervals)?;
    format!(in alloc; "{dates}{timestamps}{zoned}{intervals}")
}

// How many values are extension values of other kinds.
fn extension_count_members(alloc: Global, survey: &Survey) -> Result<String, AllocError>
    ensures { IfOk result (λ text. string_bytes text ≡ extension_count_members survey.now) }
{
    let binaries = count_member(alloc, "binary", survey.binaries)?;
    let opaques = count_member(alloc, "opaque", survey.opaques)?;
    format!(in alloc; "{binaries}{opaques}")
}

// How many values are texts, arrays or objects.
fn container_count_members(alloc: Global, survey: &Survey) -> Result<String, AllocError>
    ensures { IfOk result (λ text. string_bytes text ≡ container_count_members survey.now) }
{
    let texts = count_member(alloc, "text", survey.texts)?;
    let arrays = count_member(alloc, "array", survey.arrays)?;
    let objects = count_member(alloc, "object", survey.objects)?;
    format!(in alloc; "{texts}{arrays}{objects}")
}

// How many bytes texts have, and how many digits numbers, at most.
fn length_members(alloc: Global, survey: &Survey) -> Result<String, AllocError>
    ensures { IfOk result (λ text. string_bytes text ≡ length_members survey.now) }
{
    let longest = count_member(alloc, "length", survey.longest_text)?;
    let digits = count_member(alloc, "digits", survey.most_digits)?;
    format!(in alloc; "{longest}{digits}")
}

// How many digits numbers have after the point, if there are numbers.
fn scales_json(alloc: Global, scales: Option<Scales>) -> Result<String, AllocError>
    ensures { IfOk result (λ text. string_bytes text ≡ scales_json scales) }
{
    match scales {
        Some(Scales { least, greatest }) => format!(in alloc; "[{least},{greatest}]"),
        None => String::from_str(alloc, "null"),
    }
}
