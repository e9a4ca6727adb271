//! The command that writes the first row of each key.

use crate::arguments::stops_in;
use crate::distinct::FirstRows;
use crate::files::{BUFFER_LEN, closed, output_of, run_files};
use crate::halt::Halt;
use crate::messages::{ended, reports};
use crate::operation::Job;
use crate::output::Output;
use crate::run::Summary;
use crate::status::Aim;
use clap::ArgMatches;
use std::io::BufWriter;

/// Writes the first row of each key, as soon as it is read.
pub fn write_first(rt: &HostRuntime, job: Job<'_, '_>, arguments: &ArgMatches<'_>) -> u8 {
    let mut output = match output_of(rt, job.operation, arguments) {
        Ok(output) => output,
        Err(status) => return status,
    };
    let outcome = write_first_to(rt, job, arguments, &mut output);
    ended(rt, Aim::Rows, closed(output, outcome))
}

// Runs a job, of whose rows the first of each key go to an output.
fn write_first_to(
    rt: &HostRuntime,
    job: Job<'_, '_>,
    arguments: &ArgMatches<'_>,
    output: &mut Output<'_>,
) -> Result<Summary, Halt> {
    let Ok(writer) = BufWriter::with_capacity(rt.alloc(), BUFFER_LEN, output) else {
        return Err(Halt::Memory);
    };
    let mut first = FirstRows::new(rt.alloc(), writer);
    let stops = stops_in(arguments, true);
    let mut errors = reports(rt, job.watch.progress);
    match run_files(rt, job, arguments, stops, &mut first, &mut errors) {
        Ok(summary) => Ok(summary),
        Err(halt) => Err(first.halt_or(halt)),
    }
}
