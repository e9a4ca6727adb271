//! The command that sorts rows.

use crate::arguments::{arrangement_in, folder_in, memory_in, stops_in};
use crate::files::{BUFFER_LEN, closed, output_of, run_files};
use crate::halt::Halt;
use crate::messages::{ended, failure, misuse, reports};
use crate::operation::Job;
use crate::output::Output;
use crate::run::Summary;
use crate::spill::Spill;
use crate::status::Aim;
use clap::ArgMatches;
use std::env;
use std::io::{BufWriter, Read};

/// Sorts the lines by their keys.
pub fn write_in_order(rt: &HostRuntime, job: Job<'_, '_>, arguments: &ArgMatches<'_>) -> u8 {
    let Some(memory) = memory_in(arguments) else {
        return misuse(rt, "the memory is no size, such as 500M or 1.5G");
    };
    let Ok(usual) = env::temp_dir(rt) else {
        return failure(rt, Halt::Read);
    };
    let folder = folder_in(arguments).unwrap_or(usual.as_str());
    let output = match output_of(rt, job.operation, arguments) {
        Ok(output) => output,
        Err(status) => return status,
    };
    let mut spill = Spill::new(rt, folder, memory, arrangement_in(arguments));
    let outcome = write_spilled(rt, job, arguments, &mut spill, output);
    ended(rt, Aim::Rows, outcome)
}

// Keeps the lines with their keys, and writes them in order unless the run stopped.
fn write_spilled(
    rt: &HostRuntime,
    job: Job<'_, '_>,
    arguments: &ArgMatches<'_>,
    spill: &mut Spill<'_>,
    output: Output<'_>,
) -> Result<Summary, Halt> {
    let mut output = output;
    let stops = stops_in(arguments, true);
    let mut errors = reports(rt, job.watch.progress);
    let outcome = match run_files(rt, job, arguments, stops, spill, &mut errors) {
        Ok(summary) if summary.is_stopped => Ok(summary),
        Ok(summary) => match write_sorted(rt, spill, &mut output) {
            Ok(()) => Ok(summary),
            Err(halt) => Err(halt),
        },
        Err(halt) => Err(spill.halt_or(halt)),
    };
    closed(output, outcome)
}

// Writes the lines that are kept, sorted.
fn write_sorted(
    rt: &HostRuntime,
    spill: &mut Spill<'_>,
    output: &mut Output<'_>,
) -> Result<(), Halt> {
    let Ok(mut writer) = BufWriter::with_capacity(rt.alloc(), BUFFER_LEN, output) else {
        return Err(Halt::Memory);
    };
    spill.write_sorted(&mut writer)
}
