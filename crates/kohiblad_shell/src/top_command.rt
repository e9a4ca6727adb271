//! The command that writes the first rows in the order of their values.

use crate::arguments::{limit_in, stops_in};
use crate::files::{BUFFER_LEN, closed, output_of, run_files};
use crate::halt::Halt;
use crate::messages::{ended, misuse, reports};
use crate::operation::Job;
use crate::output::Output;
use crate::run::Summary;
use crate::status::Aim;
use crate::top::TopSink;
use clap::ArgMatches;
use std::io::BufWriter;

/// Writes the first rows in the order of their keys. After a wrong row at which the run stops
/// nothing is written.
pub fn write_top(rt: &HostRuntime, job: Job<'_, '_>, arguments: &ArgMatches<'_>) -> u8 {
    let Some(limit) = limit_in(arguments) else {
        return misuse(
            rt,
            "how many rows are wanted is no whole number, such as 10",
        );
    };
    let mut output = match output_of(rt, job.operation, arguments) {
        Ok(output) => output,
        Err(status) => return status,
    };
    let sink = TopSink::new(rt.alloc(), limit);
    let outcome = write_kept(rt, job, arguments, sink, &mut output);
    ended(rt, Aim::Rows, closed(output, outcome))
}

// Runs a job, and writes the first of its rows unless the run stopped.
fn write_kept(
    rt: &HostRuntime,
    job: Job<'_, '_>,
    arguments: &ArgMatches<'_>,
    sink: TopSink,
    output: &mut Output<'_>,
) -> Result<Summary, Halt> {
    let mut sink = sink;
    let stops = stops_in(arguments, true);
    let mut errors = reports(rt, job.watch.progress);
    let summary = match run_files(rt, job, arguments, stops, &mut sink, &mut errors) {
        Ok(summary) => summary,
        Err(halt) => return Err(sink.halt_or(halt)),
    };
    if !summary.is_stopped {
        let Ok(mut writer) = BufWriter::with_capacity(rt.alloc(), BUFFER_LEN, output) else {
            return Err(Halt::Memory);
        };
        sink.write_top(&mut writer)?;
    }
    Ok(summary)
}
