//! The command that merges files whose rows are sorted.

use crate::arguments::words_in;
use crate::files::{
    BUFFER_LEN, Input, closed, fault_at_start, inputs_of, kind_after_mark, open_inputs, output_of,
};
use crate::halt::Halt;
use crate::input::Form;
use crate::kind::InputKind;
use crate::merge::{self, InputFault, MergeEnd};
use crate::messages::{ended, failure, misuse, name_kind};
use crate::operation::Job;
use crate::outcome::fault_text;
use crate::output::Output;
use crate::run::Summary;
use crate::status::{Aim, NOT_FOUND};
use clap::ArgMatches;
use std::io::{BufRead, BufWriter};

// How many files are merged at most: each row is compared with the next one of every file.
const MAX_MERGED: usize = 64;

/// Merges files whose rows are sorted, or checks that those of standard input are.
pub fn write_merged(rt: &HostRuntime, job: Job<'_, '_>, arguments: &ArgMatches<'_>) -> u8 {
    let names = inputs_of(words_in(arguments).unwrap_or(&[]));
    if names.len() > MAX_MERGED {
        return misuse(rt, "at most 64 files can be merged at a time");
    }
    let output = match output_of(rt, job.operation, arguments) {
        Ok(output) => output,
        Err(status) => return status,
    };
    match open_inputs(rt, job.watch.progress, names) {
        Ok(inputs) => merge_inputs(rt, job, inputs, names, output),
        Err(halt) => not_written(rt, output, halt),
    }
}

// Ends an output that is not whole, and reports why.
fn not_written(rt: &HostRuntime, output: Output<'_>, halt: Halt) -> u8 {
    ended(rt, Aim::Rows, closed(output, Err(halt)))
}

/// Inputs that are merged, and what each is if it has no rows.
#[derive(Drop)]
struct Begun<'a> {
    readers: Vec<Input<'a>>,
    kinds: Vec<Option<InputKind>>,
}

// Begins to read these inputs, which have names.
fn begin_inputs<'a>(
    rt: &HostRuntime,
    form: Form,
    inputs: Vec<Input<'a>>,
    names: &[&str],
) -> Result<Begun<'a>, MergeEnd> {
    let alloc = rt.alloc();
    let mut begun = Begun {
        readers: Vec::new(alloc),
        kinds: Vec::new(alloc),
    };
    for (index, input) in inputs.into_iter().enumerate() {
        let mut reader = input;
        let name = names.get(index).copied().unwrap_or("-");
        let kind = kind_after_mark(rt, name, form, &mut reader);
        if let Some(fault) = fault_at_start(form, &mut reader)? {
            return Err(MergeEnd::Faulty(InputFault {
                input: index,
                number: 1,
                fault,
            }));
        }
        if begun.kinds.push(kind).is_err() || begun.readers.push(reader).is_err() {
            return Err(MergeEnd::Halted(Halt::Memory));
        }
    }
    Ok(begun)
}

// Merges the rows of these inputs, which have names.
fn merge_inputs(
    rt: &HostRuntime,
    job: Job<'_, '_>,
    inputs: Vec<Input<'_>>,
    names: &[&str],
    output: Output<'_>,
) -> u8 {
    let mut output = output;
    let mut kinds = Vec::new(rt.alloc());
    let outcome = match begin_inputs(rt, job.form, inputs, names) {
        Ok(begun) => {
            let mut readers = begun.readers;
            kinds = begun.kinds;
            merge_to(rt, job, &mut readers, &mut output)
        }
        Err(end) => Err(end),
    };
    job.watch.progress.clear();
    match outcome {
        Ok(rows) => {
            let summary = Summary {
                rows,
                faults: 0,
                is_stopped: false,
                lacks_input: false,
            };
            ended(rt, Aim::Rows, closed(output, Ok(summary)))
        }
        Err(MergeEnd::Halted(halt)) => not_written(rt, output, halt),
        Err(MergeEnd::Faulty(at)) => {
            let _ = output.close(false);
            let kind = kinds.get(at.input).copied().flatten();
            input_fault(rt, at, names, kind)
        }
    }
}

// Merges the rows of these readers.
fn merge_to<R: BufRead>(
    rt: &HostRuntime,
    job: Job<'_, '_>,
    readers: &mut [R],
    output: &mut Output<'_>,
) -> Result<u64, MergeEnd> {
    let alloc = rt.alloc();
    let Ok(mut writer) = BufWriter::with_capacity(alloc, BUFFER_LEN, output) else {
        return Err(MergeEnd::Halted(Halt::Memory));
    };
    merge::merge(alloc, &job, job.form, readers, &mut writer)
}

// Reports the fault at which a merge ended.
fn input_fault(rt: &HostRuntime, at: InputFault, names: &[&str], kind: Option<InputKind>) -> u8 {
    let name = match names.get(at.input) {
        Some(name) => *name,
        None => "-",
    };
    match fault_text(rt.alloc(), name, at.number, at.fault) {
        Ok(report) => {
            let _ = eprint!(rt; "{report}");
            name_kind(rt, name, kind);
            NOT_FOUND
        }
        Err(halt) => failure(rt, halt),
    }
}
