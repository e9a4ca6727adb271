//! The files that a command reads, and the output that it writes.

use crate::arguments::{output_in, shows_progress_in, words_in};
use crate::columns::column_words;
use crate::commands::End;
use crate::halt::Halt;
use crate::input::{Form, TextForm};
use crate::kind::{InputKind, input_kind};
use crate::mark::pass_mark;
use crate::messages::{misuse, name_kind, notice_mark, tell_failed};
use crate::operation::{Job, Operation};
use crate::outcome::{LineFault, LineWorker, Reason};
use crate::output::Output;
use crate::progress::{Metered, Progress};
use crate::removal::path_count;
use crate::run::{self, Plan, Summary, report_fault};
use array_items::{ArrayFault, begins_array};
use clap::ArgMatches;
use std::fs::{self, File};
use std::io::{self, BufRead, BufReader, IsTerminal, Read, Stdin, Write};

/// How many bytes are read, and written, at a time.
pub const BUFFER_LEN: usize = 1 << 16;

/// The names of the inputs, where none stands for standard input.
pub fn inputs_of<'m, 'a>(files: &'m [&'a str]) -> &'m [&'a str] {
    if files.is_empty() { &["-"] } else { files }
}

/// Refuses files of which several are standard input, which can be read once, and returns the
/// status after the report.
pub fn expect_input_once(rt: &HostRuntime, files: &[&str]) -> Result<(), u8> {
    let mut is_read = false;
    for name in files {
        if *name == "-" && is_read {
            return Err(misuse(rt, "standard input, -, can be read only once"));
        }
        is_read = is_read || *name == "-";
    }
    Ok(())
}

/// The files among the words after an operand.
pub fn files_of<'m, 'a>(operation: Operation<'_>, words: &'m [&'a str]) -> &'m [&'a str] {
    match operation {
        Operation::Remove(_) => &words[path_count(words)..],
        Operation::Extract(_) => &words[column_words(words)..],
        _ => words,
    }
}

// How many bytes these inputs have, if all of them are files on a disk.
fn size_of(rt: &HostRuntime, names: &[&str]) -> Option<u64> {
    let mut size = Some(0);
    for name in names {
        size = match (size, fs::metadata(rt, *name)) {
            (Some(size), Ok(data)) if data.is_file() && *name != "-" => {
                data.len().checked_add(size)
            }
            _ => None,
        };
    }
    size
}

/// Whether a terminal shows what is written.
pub fn goes_to_terminal(rt: &HostRuntime, arguments: &ArgMatches<'_>) -> bool {
    output_in(arguments) == "-" && rt.stdout().is_terminal()
}

/// The progress of a run over these files, which ends so and begins now.
pub fn progress_of<'a>(
    rt: &'a HostRuntime,
    end: End,
    files: &[&str],
    arguments: &ArgMatches<'_>,
) -> Progress<'a> {
    let is_usual = rt.stderr().is_terminal() && (end.is_last() || !goes_to_terminal(rt, arguments));
    Progress::new(
        rt,
        shows_progress_in(arguments, is_usual),
        size_of(rt, inputs_of(files)),
    )
}

/// Where rows come from.
#[derive(Drop)]
pub enum Source {
    /// Standard input.
    Standard(Stdin),
    /// A file.
    File(File),
}

impl Read for Source {
    fn read(&mut self, bytes: &mut [u8]) -> io::Result<usize> {
        match self {
            Source::Standard(stdin) => stdin.read(bytes),
            Source::File(file) => file.read(bytes),
        }
    }
}

/// The input of this name: standard input if it is `-`, or else a file, which is reported if it
/// cannot be opened.
pub fn open_source(rt: &HostRuntime, name: &str) -> Result<Source, Halt> {
    if name == "-" {
        return Ok(Source::Standard(rt.stdin()));
    }
    match File::open(rt, name) {
        Ok(file) => Ok(Source::File(file)),
        Err(error) => {
            tell_failed(rt, "cannot open", name, &error);
            Err(Halt::Read)
        }
    }
}

/// The inputs of these names. One that cannot be opened, or read, is reported.
pub fn open_inputs<'a>(
    rt: &HostRuntime,
    progress: &'a Progress<'a>,
    names: &[&'a str],
) -> Result<Vec<Input<'a>>, Halt> {
    let mut readers = Vec::new(rt.alloc());
    for name in names {
        let reader = open_input(rt, progress, *name)?;
        if readers.push(reader).is_err() {
            return Err(Halt::Memory);
        }
    }
    Ok(readers)
}

/// What reads an input, many bytes at a time.
pub type Input<'a> = BufReader<Metered<'a, Source>>;

/// The input of this name, of which the first bytes are read. One that cannot be opened, or read,
/// is reported.
fn open_input<'a>(
    rt: &HostRuntime,
    progress: &'a Progress<'a>,
    name: &'a str,
) -> Result<Input<'a>, Halt> {
    let metered = Metered {
        reader: open_source(rt, name)?,
        name,
        progress,
    };
    let Ok(mut input) = BufReader::with_capacity(rt.alloc(), BUFFER_LEN, metered) else {
        return Err(Halt::Memory);
    };
    match input.fill_buf() {
        Ok(_) => Ok(input),
        Err(_) => Err(Halt::Read),
    }
}

/// What an input is, by its first bytes, if it has no rows in this form. A byte order mark before
/// lines is passed over, which is said.
pub fn kind_after_mark<R: BufRead>(
    rt: &HostRuntime,
    name: &str,
    form: Form,
    reader: &mut R,
) -> Option<InputKind> {
    if matches!(form, Form::Lines(_)) && pass_mark(reader) {
        notice_mark(rt, name);
    }
    kind_of(form, reader)
}

/// Where an input is to be one array, the fault of its first row if none begins in it.
pub fn fault_at_start<R: BufRead>(form: Form, reader: &mut R) -> Result<Option<LineFault>, Halt> {
    match form {
        Form::Lines(reading) if reading.texts == TextForm::Items => {
            if begins_array(reader)? {
                Ok(None)
            } else {
                let reason = Reason::NoArray(ArrayFault::NoArray);
                Ok(Some(LineFault::plain(0, reason)))
            }
        }
        _ => Ok(None),
    }
}

// What an input is, by its first bytes, if it has no rows in this form.
fn kind_of<R: BufRead>(form: Form, reader: &mut R) -> Option<InputKind> {
    match reader.fill_buf() {
        Ok(start) => input_kind(form, start),
        Err(_) => None,
    }
}

/// Runs a job on the rows of each file, or of standard input if none is named, as `run_inputs` does
/// it.
pub fn run_files<W: Write, E: Write>(
    rt: &HostRuntime,
    job: Job<'_, '_>,
    arguments: &ArgMatches<'_>,
    stops_at_faults: bool,
    writer: &mut W,
    errors: &mut E,
) -> Result<Summary, Halt> {
    let inputs = Inputs {
        names: files_of(job.operation, words_in(arguments).unwrap_or(&[])),
        form: job.form,
        stops_at_faults,
        are_checked: matches!(job.operation, Operation::Check),
        progress: job.watch.progress,
    };
    let mut worker = job;
    let total = run_inputs(rt, &mut worker, inputs, writer, errors)?;
    job.watch
        .is_whole
        .set(!total.is_stopped && !total.lacks_input);
    Ok(total)
}

/// The files of a run, standard input if none is named: in which form their rows stand, whether it
/// ends at the first one that is wrong, whether it only looks for rows that are wrong, and how far
/// it is.
#[derive(Clone, Copy)]
pub struct Inputs<'n, 'p> {
    pub names: &'n [&'n str],
    pub form: Form,
    pub stops_at_faults: bool,
    pub are_checked: bool,
    pub progress: &'p Progress<'p>,
}

/// Answers the rows of each input up to a fault at which the run ends. A search for faults goes on
/// with the next input after a row that is cut off, and a run that does not end at faults after an
/// input that cannot be opened, or of which no byte can be read.
pub fn run_inputs<L: LineWorker, W: Write, E: Write>(
    rt: &HostRuntime,
    worker: &mut L,
    inputs: Inputs<'_, '_>,
    writer: &mut W,
    errors: &mut E,
) -> Result<Summary, Halt> {
    let mut total = Summary {
        rows: 0,
        faults: 0,
        is_stopped: false,
        lacks_input: false,
    };
    let goes_on = inputs.are_checked && !inputs.stops_at_faults;
    for name in inputs_of(inputs.names) {
        let input = match open_input(rt, inputs.progress, *name) {
            Ok(input) => input,
            Err(Halt::Read) if !inputs.stops_at_faults => {
                total.lacks_input = true;
                continue;
            }
            Err(halt) => return Err(halt),
        };
        let summary = run_input(rt, worker, inputs, *name, input, writer, errors)?;
        total = total.with(summary);
        if total.is_stopped && !goes_on {
            break;
        }
    }
    Ok(total)
}

// Answers the rows of the input of this name.
fn run_input<L: LineWorker, W: Write, E: Write>(
    rt: &HostRuntime,
    worker: &mut L,
    inputs: Inputs<'_, '_>,
    name: &str,
    input: Input<'_>,
    writer: &mut W,
    errors: &mut E,
) -> Result<Summary, Halt> {
    let alloc = rt.alloc();
    let plan = Plan {
        name,
        form: inputs.form,
        stops_at_faults: inputs.stops_at_faults,
    };
    let mut reader = input;
    let kind = if inputs.are_checked {
        kind_of(plan.form, &mut reader)
    } else {
        kind_after_mark(rt, name, plan.form, &mut reader)
    };
    let outcome = match fault_at_start(plan.form, &mut reader)? {
        None => run::run(alloc, worker, &plan, &mut reader, writer, errors),
        Some(fault) => {
            let reported = report_fault(alloc, name, 1, fault, writer, errors);
            reported.map(|_| Summary::stopped_at_start())
        }
    };
    inputs.progress.clear();
    let summary = outcome?;
    if summary.faults > 0 {
        name_kind(rt, name, kind);
    }
    Ok(summary)
}

/// Where the rows of a job go, or the status after its fault is reported.
pub fn output_of<'a>(
    rt: &'a HostRuntime,
    operation: Operation<'_>,
    arguments: &ArgMatches<'_>,
) -> Result<Output<'a>, u8> {
    let words = words_in(arguments).unwrap_or(&[]);
    Output::open(rt, output_in(arguments), files_of(operation, words))
}

/// Ends the output after a run: it is whole if the run came to its end, also if this passed over an
/// input.
pub fn closed(output: Output<'_>, outcome: Result<Summary, Halt>) -> Result<Summary, Halt> {
    let is_whole = matches!(outcome, Ok(summary) if !summary.is_stopped);
    output.close(is_whole)?;
    outcome
}
