//! The command that groups rows.

use crate::arguments::{form_in, operand_in, output_in, stops_in, words_in};
use crate::commands::End;
use crate::files::{Inputs, closed, expect_input_once, progress_of, run_inputs};
use crate::group::{Aggregate, Grouper, NamedAggregate};
use crate::group_rows::{NamedPath, group_rows};
use crate::group_words::{aggregate_words, member_name};
use crate::groups::Groups;
use crate::halt::Halt;
use crate::messages::{ended, failure, misuse, reports, tell};
use crate::operands::{path_in, rising_paths_in};
use crate::outcome::Unanswered;
use crate::output::Output;
use crate::progress::Progress;
use crate::run::Summary;
use crate::sort_path::SortPath;
use crate::status::Aim;
use crate::write::write_bytes;
use clap::ArgMatches;
use std::alloc::AllocError;
use std::io;

/// Writes a row for each group of rows. After a wrong row at which the run stops nothing is
/// written.
pub fn write_groups(rt: &HostRuntime, arguments: &ArgMatches<'_>) -> u8 {
    match words_of(rt, arguments) {
        Ok(words) => write_said(rt, &words, arguments),
        Err(_) => failure(rt, Halt::Memory),
    }
}

// The same, where these words say aggregates, and then files.
fn write_said(rt: &HostRuntime, words: &[&str], arguments: &ArgMatches<'_>) -> u8 {
    let (said, files) = words.split_at(aggregate_words(words));
    if said.is_empty() {
        return misuse(rt, NO_AGGREGATE);
    }
    if files.iter().take(1).any(|word| *word == "sum") {
        return misuse(rt, "the last sum has no path after it");
    }
    let aggregates = match aggregates_in(rt, said) {
        Ok(aggregates) => aggregates,
        Err(status) => return status,
    };
    let by = arguments.get_strs("by").unwrap_or(&[]);
    let paths = match rising_paths_in(rt, by) {
        Ok(paths) => paths,
        Err(status) => return status,
    };
    let Ok(named) = named_paths(rt, by, &paths) else {
        return failure(rt, Halt::Memory);
    };
    if let Err(status) = expect_names_once(rt, &named, &aggregates) {
        return status;
    }
    if let Err(status) = expect_input_once(rt, files) {
        return status;
    }
    let mut output = match Output::open(rt, output_in(arguments), files) {
        Ok(output) => output,
        Err(status) => return status,
    };
    let mut grouper = Grouper {
        by: &paths,
        aggregates: &aggregates,
        form: form_in(arguments, End::Groups),
        groups: Groups::new(rt.alloc()),
    };
    let outcome = write_grouped(rt, &mut grouper, &named, files, arguments, &mut output);
    ended(rt, Aim::Rows, closed(output, outcome))
}

// What is said of a word that is no aggregate.
const NO_AGGREGATE: &str = "the first word is no aggregate: write count, or sum and a path";

// The words after the command that are no options.
fn words_of<'a>(rt: &HostRuntime, arguments: &ArgMatches<'a>) -> Result<Vec<&'a str>, AllocError> {
    let mut words = Vec::new(rt.alloc());
    words.push(operand_in(arguments))?;
    words.extend_from_slice(words_in(arguments).unwrap_or(&[]))?;
    Ok(words)
}

// The aggregates that words say, or the status after the fault of a path is reported.
fn aggregates_in(rt: &HostRuntime, words: &[&str]) -> Result<Vec<NamedAggregate>, u8> {
    let mut aggregates = Vec::new(rt.alloc());
    let mut is_path_due = false;
    for word in words {
        if !is_path_due && *word != "count" {
            is_path_due = true;
            continue;
        }
        let named = if is_path_due {
            sum_of(rt, *word)?
        } else {
            count_of(rt)?
        };
        is_path_due = false;
        if aggregates.push(named).is_err() {
            return Err(failure(rt, Halt::Memory));
        }
    }
    Ok(aggregates)
}

// The number of rows.
fn count_of(rt: &HostRuntime) -> Result<NamedAggregate, u8> {
    match String::from_str(rt.alloc(), "count") {
        Ok(name) => Ok(NamedAggregate {
            name,
            aggregate: Aggregate::Count,
        }),
        Err(_) => Err(failure(rt, Halt::Memory)),
    }
}

// The sum of the values at a path.
fn sum_of(rt: &HostRuntime, text: &str) -> Result<NamedAggregate, u8> {
    let path = path_in(rt, text)?;
    let of = member_name(text);
    match format!(in rt.alloc(); "{of}_sum") {
        Ok(name) => Ok(NamedAggregate {
            name,
            aggregate: Aggregate::Sum(path),
        }),
        Err(_) => Err(failure(rt, Halt::Memory)),
    }
}

// Paths with the names of their members.
fn named_paths<'a>(
    rt: &HostRuntime,
    texts: &[&'a str],
    paths: &'a [SortPath],
) -> Result<Vec<NamedPath<'a>>, AllocError> {
    let mut named = Vec::new(rt.alloc());
    for (text, path) in texts.iter().zip(paths) {
        let name = member_name(*text);
        named.push(NamedPath { name, path })?;
    }
    Ok(named)
}

// Refuses members of which two have one name, and returns the status after the report.
fn expect_names_once(
    rt: &HostRuntime,
    paths: &[NamedPath<'_>],
    aggregates: &[NamedAggregate],
) -> Result<(), u8> {
    let mut all = Vec::new(rt.alloc());
    for named in paths {
        if all.push(named.name).is_err() {
            return Err(failure(rt, Halt::Memory));
        }
    }
    for named in aggregates {
        if all.push(named.name.as_str()).is_err() {
            return Err(failure(rt, Halt::Memory));
        }
    }
    if all.sort().is_err() {
        return Err(failure(rt, Halt::Memory));
    }
    for pair in all.windows(2) {
        if let [first, second] = pair {
            if *first == *second {
                return Err(refused_name(rt, *first));
            }
        }
    }
    Ok(())
}

// Reports a name that two members would have.
fn refused_name(rt: &HostRuntime, name: &str) -> u8 {
    match format!(in rt.alloc(); "two members of a group would have the name '{name}'") {
        Ok(words) => misuse(rt, words.as_str()),
        Err(_) => failure(rt, Halt::Memory),
    }
}

// Groups the rows, and writes the groups unless the run stopped.
fn write_grouped(
    rt: &HostRuntime,
    grouper: &mut Grouper<'_>,
    paths: &[NamedPath<'_>],
    files: &[&str],
    arguments: &ArgMatches<'_>,
    output: &mut Output<'_>,
) -> Result<Summary, Halt> {
    let progress = progress_of(rt, End::Groups, files, arguments);
    let summary = group_values(rt, grouper, files, arguments, &progress)?;
    if summary.is_stopped {
        return Ok(summary);
    }
    match group_rows(rt.alloc(), grouper, paths) {
        Ok(rows) => {
            write_bytes(output, &rows)?;
            Ok(summary)
        }
        Err(Unanswered::OutOfMemory) => Err(Halt::Memory),
        Err(Unanswered::Wrong(fault)) => {
            let reason = fault.reason.name();
            tell(
                rt,
                format!(in rt.alloc(); "a group has no row, so none is written: {reason}"),
            );
            Ok(Summary {
                rows: summary.rows,
                faults: summary.faults.saturating_add(1),
                is_stopped: true,
                lacks_input: summary.lacks_input,
            })
        }
    }
}

// Groups the rows of each file, or of standard input if none is named.
fn group_values<'p>(
    rt: &HostRuntime,
    grouper: &mut Grouper<'_>,
    files: &[&str],
    arguments: &ArgMatches<'_>,
    progress: &'p Progress<'p>,
) -> Result<Summary, Halt> {
    let inputs = Inputs {
        names: files,
        form: grouper.form,
        stops_at_faults: stops_in(arguments, true),
        are_checked: false,
        progress,
    };
    let mut errors = reports(rt, progress);
    run_inputs(rt, grouper, inputs, &mut io::sink(), &mut errors)
}
