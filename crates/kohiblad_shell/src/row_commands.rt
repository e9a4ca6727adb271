//! Commands that answer each row: they write rows, faults or how many rows there are.

use crate::arguments::stops_in;
use crate::files::{BUFFER_LEN, closed, output_of, run_files};
use crate::halt::Halt;
use crate::messages::{ended, reports};
use crate::operation::{Job, Operation};
use crate::output::Output;
use crate::run::Summary;
use crate::status::Aim;
use crate::table::write_heading;
use crate::write::{flush, write_bytes};
use clap::ArgMatches;
use std::io::{self, BufWriter};

/// Reports all lines that are wrong.
pub fn check(rt: &HostRuntime, job: Job<'_, '_>, arguments: &ArgMatches<'_>) -> u8 {
    let stops = stops_in(arguments, false);
    let mut errors = reports(rt, job.watch.progress);
    let outcome = run_files(rt, job, arguments, stops, &mut io::sink(), &mut errors);
    ended(rt, Aim::Faults, outcome)
}

/// Writes the reports of all lines that are wrong.
pub fn write_faults(rt: &HostRuntime, job: Job<'_, '_>, arguments: &ArgMatches<'_>) -> u8 {
    let mut output = match output_of(rt, job.operation, arguments) {
        Ok(output) => output,
        Err(status) => return status,
    };
    let outcome = report_to(rt, job, arguments, &mut output);
    ended(rt, Aim::Rows, closed(output, outcome))
}

// Runs a job, whose reports go to an output.
fn report_to(
    rt: &HostRuntime,
    job: Job<'_, '_>,
    arguments: &ArgMatches<'_>,
    output: &mut Output<'_>,
) -> Result<Summary, Halt> {
    let Ok(mut errors) = BufWriter::with_capacity(rt.alloc(), BUFFER_LEN, output) else {
        return Err(Halt::Memory);
    };
    let outcome = run_files(rt, job, arguments, false, &mut io::sink(), &mut errors);
    flush(&mut errors)?;
    Ok(outcome?.of_reports())
}

/// Writes the rows of a job.
pub fn write_rows(rt: &HostRuntime, job: Job<'_, '_>, arguments: &ArgMatches<'_>) -> u8 {
    let mut output = match output_of(rt, job.operation, arguments) {
        Ok(output) => output,
        Err(status) => return status,
    };
    let outcome = run_to(rt, job, arguments, &mut output);
    ended(rt, Aim::Rows, closed(output, outcome))
}

// Runs a job, whose rows go to an output, after the heading of a table.
fn run_to(
    rt: &HostRuntime,
    job: Job<'_, '_>,
    arguments: &ArgMatches<'_>,
    output: &mut Output<'_>,
) -> Result<Summary, Halt> {
    let Ok(mut writer) = BufWriter::with_capacity(rt.alloc(), BUFFER_LEN, output) else {
        return Err(Halt::Memory);
    };
    if let Operation::Extract(table) = job.operation {
        write_heading(rt.alloc(), table, &mut writer)?;
    }
    let stops = stops_in(arguments, true);
    let mut errors = reports(rt, job.watch.progress);
    run_files(rt, job, arguments, stops, &mut writer, &mut errors)
}

/// Counts the rows that a job gives. After a wrong row at which the run stops no number is written.
pub fn count(rt: &HostRuntime, job: Job<'_, '_>, arguments: &ArgMatches<'_>) -> u8 {
    let mut output = match output_of(rt, job.operation, arguments) {
        Ok(output) => output,
        Err(status) => return status,
    };
    let outcome = write_count(rt, job, arguments, &mut output);
    ended(rt, Aim::Rows, closed(output, outcome))
}

// Counts the rows that a job gives, and writes their number unless the run stopped.
fn write_count(
    rt: &HostRuntime,
    job: Job<'_, '_>,
    arguments: &ArgMatches<'_>,
    output: &mut Output<'_>,
) -> Result<Summary, Halt> {
    let stops = stops_in(arguments, true);
    let mut errors = reports(rt, job.watch.progress);
    let summary = run_files(rt, job, arguments, stops, &mut io::sink(), &mut errors)?;
    if !summary.is_stopped {
        let number = format!(in rt.alloc(); "{}\n", summary.rows)?;
        write_bytes(output, number.as_bytes())?;
    }
    Ok(summary)
}
