//! The command that counts what values are.

use crate::arguments::{
    form_in, is_quiet_in, operand_in, output_in, stops_in, words_in, writes_json_in,
};
use crate::commands::End;
use crate::files::{Inputs, closed, expect_input_once, progress_of, run_inputs};
use crate::halt::Halt;
use crate::messages::{ended, notice, reports};
use crate::output::Output;
use crate::progress::Progress;
use crate::run::Summary;
use crate::status::Aim;
use crate::survey::{ValueCounter, survey_text};
use crate::survey_json::survey_json;
use crate::write::write_bytes;
use clap::ArgMatches;
use jsonb_path::Path;
use jsonb_typed::Survey;
use std::io;

/// Counts what the values are to which a path leads. After a wrong row at which the run stops
/// nothing is written.
pub fn write_survey(rt: &HostRuntime, path: &Path, arguments: &ArgMatches<'_>) -> u8 {
    let words = words_in(arguments).unwrap_or(&[]);
    if let Err(status) = expect_input_once(rt, words) {
        return status;
    }
    let mut output = match Output::open(rt, output_in(arguments), words) {
        Ok(output) => output,
        Err(status) => return status,
    };
    let outcome = write_counts(rt, path, arguments, &mut output);
    ended(rt, Aim::Rows, closed(output, outcome))
}

// Counts what the values are, and writes it unless the run stopped.
fn write_counts(
    rt: &HostRuntime,
    path: &Path,
    arguments: &ArgMatches<'_>,
    output: &mut Output<'_>,
) -> Result<Summary, Halt> {
    let names = words_in(arguments).unwrap_or(&[]);
    let progress = progress_of(rt, End::Survey, names, arguments);
    let mut counter = ValueCounter {
        path,
        form: form_in(arguments, End::Survey),
        survey: Survey::new(),
    };
    let summary = count_values(rt, &mut counter, arguments, &progress)?;
    if !summary.is_stopped {
        let text = if writes_json_in(arguments) {
            survey_json(rt.alloc(), &counter.survey)?
        } else {
            survey_text(rt.alloc(), &counter.survey)?
        };
        write_bytes(output, text.as_bytes())?;
        notice_absent(rt, &counter.survey, arguments);
    }
    Ok(summary)
}

// Counts the values of the rows of each file, or of standard input if none is named.
fn count_values<'p>(
    rt: &HostRuntime,
    counter: &mut ValueCounter<'_>,
    arguments: &ArgMatches<'_>,
    progress: &'p Progress<'p>,
) -> Result<Summary, Halt> {
    let inputs = Inputs {
        names: words_in(arguments).unwrap_or(&[]),
        form: counter.form,
        stops_at_faults: stops_in(arguments, true),
        are_checked: false,
        progress,
    };
    let mut errors = reports(rt, progress);
    run_inputs(rt, counter, inputs, &mut io::sink(), &mut errors)
}

// Says that no row has a value at the path of a survey, if there are rows.
fn notice_absent(rt: &HostRuntime, survey: &Survey, arguments: &ArgMatches<'_>) {
    if survey.rows > 0 && survey.absent == survey.rows && !is_quiet_in(arguments) {
        notice(rt, survey.rows as u64, operand_in(arguments));
    }
}
