//! A program for people at the shell: files of JSON lines, or of documents, row by row.
#![tactic(auto)]

mod arguments;
mod columns;
mod command;
mod command_line;
mod commands;
mod dated;
mod distinct;
mod distinct_command;
mod escape;
mod expected;
mod extract;
mod files;
mod first;
mod group;
mod group_command;
mod group_rows;
mod group_words;
mod groups;
mod halt;
mod input;
mod iso;
mod iso_text;
mod key;
mod kind;
mod mark;
mod member;
mod merge;
mod merge_command;
mod messages;
mod mode;
mod operand_kind;
mod operands;
mod operation;
mod outcome;
mod output;
mod part_lines;
mod path_help;
mod progress;
mod range;
mod removal;
mod row;
mod row_commands;
mod run;
mod same_file;
mod show;
mod size;
mod sort;
mod sort_command;
mod sort_path;
mod sorted_run;
mod spill;
mod status;
mod survey;
mod survey_command;
mod survey_json;
mod table;
mod table_text;
mod target;
mod template;
mod template_text;
mod temporary;
mod text_search;
mod titles;
mod top;
mod top_command;
mod total;
mod watch;
mod write;

use arguments::{
    form_in, has_heading_in, is_inverted_in, is_quiet_in, layout_in, look_in, operand_in,
    pattern_flags_in, style_in, table_layout_in, value_in, value_kind_in, words_in,
};
use clap::ArgMatches;
use columns::{column_words, columns_in, split_name};
use command::{Command, Operands, operation_of};
use command_line::program;
use commands::{CommandRow, End, row_named};
use distinct_command::write_first;
use files::{expect_input_once, files_of, goes_to_terminal, progress_of};
use group_command::write_groups;
use halt::{Halt, halt_of_write};
use input::Form;
use jsonb::Document;
use jsonb_rows::EachEdit;
use merge_command::write_merged;
use messages::{failure, misuse, notice_missed, refused_line};
use operand_kind::OperandKind;
use operands::{
    deciding_path_in, document_of, path_in, pattern_in, push_path, push_sort_path, push_target,
    renamed_in, rising_paths_in, target_in, template_in,
};
use operation::Job;
use range::ValueRange;
use removal::path_count;
use row_commands::{check, count, write_faults, write_rows};
use sort_command::write_in_order;
use sort_path::split_direction;
use status::{FOUND, halt_status};
use std::alloc::AllocError;
use std::env;
use std::process::ExitCode;
use survey_command::write_survey;
use table::Table;
use target::Target;
use text_search::TextSearch;
use top_command::write_top;
use watch::Watch;

// All values of a row.
const ALL_VALUES: &str = "$.**";

// What `keys` makes of a row.
const MEMBER_NAMES: &str = "[strict $.keyvalue().key]";

fn main(rt: HostRuntime) -> ExitCode {
    ExitCode::from(shell(&rt))
}

// Runs the command that the arguments name, and returns the program's status.
fn shell(rt: &HostRuntime) -> u8 {
    let alloc = rt.alloc();
    let Ok(Ok(words)) = env::args(rt).map(|words| words.collect::<Vec<String>>(alloc)) else {
        return misuse(rt, "an argument is not UTF-8");
    };
    let Ok(program) = program(alloc) else {
        return failure(rt, Halt::Memory);
    };
    match program.try_get_matches_from(words.as_slice()) {
        Ok(matches) => run_named(rt, &matches),
        Err(error) if error.use_stderr() => refused_line(rt, &error),
        Err(error) => match error.print(rt) {
            Ok(()) => FOUND,
            Err(error) => halt_status(halt_of_write(&error)),
        },
    }
}

// Runs the command that was named.
fn run_named(rt: &HostRuntime, matches: &ArgMatches<'_>) -> u8 {
    let Some((name, arguments)) = matches.subcommand() else {
        return misuse(rt, "no command");
    };
    match row_named(name) {
        Some(row) => run_command(rt, row, arguments),
        None => misuse(rt, "no such command"),
    }
}

// Runs a command, whose operands are read first.
fn run_command(rt: &HostRuntime, row: &CommandRow, arguments: &ArgMatches<'_>) -> u8 {
    match row.operands {
        OperandKind::Nothing => run_operands(rt, row, Operands::Nothing, arguments),
        OperandKind::Path | OperandKind::Condition => with_path(rt, row, arguments),
        OperandKind::Value => with_value(rt, row, arguments),
        OperandKind::Names => with_names(rt, row, arguments),
        OperandKind::Template => with_template(rt, row, operand_in(arguments), arguments),
        OperandKind::MemberNames => with_member_names(rt, row, arguments),
        OperandKind::Steps => with_steps(rt, row, arguments),
        OperandKind::Removed => with_removals(rt, row, arguments),
        OperandKind::Renamed => with_new_name(rt, row, arguments),
        OperandKind::Columns => with_columns(rt, row, arguments),
        OperandKind::Aggregates => write_groups(rt, arguments),
        OperandKind::Bounds => with_bounds(rt, row, arguments),
        OperandKind::Pattern => with_pattern(rt, row, arguments),
        OperandKind::Keys | OperandKind::NumberAndKeys => with_paths(rt, row, arguments),
        OperandKind::Values => with_values(rt, row, arguments),
        OperandKind::Layout => {
            run_operands(rt, row, Operands::Layout(layout_in(arguments)), arguments)
        }
        OperandKind::Look => {
            let look = look_in(arguments, shows_colors(rt, arguments));
            run_operands(rt, row, Operands::Look(look), arguments)
        }
    }
}

// Whether colors are for whom reads what is written: a terminal shows it, and the environment does
// not say otherwise.
fn shows_colors(rt: &HostRuntime, arguments: &ArgMatches<'_>) -> bool {
    let refuses = match env::var(rt, "NO_COLOR") {
        Ok(value) => !value.is_empty(),
        Err(_) => false,
    };
    let is_dumb = match env::var(rt, "TERM") {
        Ok(value) => value.as_str() == "dumb",
        Err(_) => false,
    };
    goes_to_terminal(rt, arguments) && !refuses && !is_dumb
}

// Runs the operation of a command that is given these operands.
fn run_operands(
    rt: &HostRuntime,
    row: &CommandRow,
    operands: Operands<'_>,
    arguments: &ArgMatches<'_>,
) -> u8 {
    let Some(operation) = operation_of(row.command, operands) else {
        return misuse(rt, "no such command");
    };
    let form = if row.reads_lines() {
        form_in(arguments, row.end)
    } else {
        Form::Documents
    };
    let files = files_of(operation, words_in(arguments).unwrap_or(&[]));
    if let Err(status) = expect_input_once(rt, files) {
        return status;
    }
    let progress = progress_of(rt, row.end, files, arguments);
    let Ok(texts) = watched_texts(rt, row.command, arguments) else {
        return failure(rt, Halt::Memory);
    };
    let Ok(watch) = Watch::new(rt.alloc(), texts.len(), &progress) else {
        return failure(rt, Halt::Memory);
    };
    let job = Job {
        operation,
        form,
        watch: &watch,
    };
    let status = run_job(rt, row.end, job, arguments);
    notice_missed(rt, &watch, &texts, matches!(row.command, Command::Pick));
    status
}

// Runs a job, and does with its rows what the end says.
fn run_job(rt: &HostRuntime, end: End, job: Job<'_, '_>, arguments: &ArgMatches<'_>) -> u8 {
    match end {
        End::Faults => check(rt, job, arguments),
        End::Reports => write_faults(rt, job, arguments),
        End::Count => count(rt, job, arguments),
        End::Sorted => write_in_order(rt, job, arguments),
        End::First => write_first(rt, job, arguments),
        End::Top => write_top(rt, job, arguments),
        End::Merged => write_merged(rt, job, arguments),
        End::Rows | End::Survey | End::Groups => write_rows(rt, job, arguments),
    }
}

// The texts of the paths, or the names, for which a notice helps where they lead to no value in any
// row, in the order of the operation; none if the command is to be quiet.
fn watched_texts<'a>(
    rt: &HostRuntime,
    command: Command,
    arguments: &ArgMatches<'a>,
) -> Result<Vec<&'a str>, AllocError> {
    let mut texts = Vec::new(rt.alloc());
    if is_quiet_in(arguments) {
        return Ok(texts);
    }
    match command {
        Command::Get
        | Command::Select
        | Command::Filter
        | Command::Count
        | Command::Set
        | Command::Rename => texts.push(operand_in(arguments))?,
        Command::Remove => {
            texts.push(operand_in(arguments))?;
            let words = words_in(arguments).unwrap_or(&[]);
            texts.extend_from_slice(&words[..path_count(words)])?;
        }
        Command::Pick => {
            for name in operand_in(arguments).split(',') {
                texts.push(name)?;
            }
        }
        Command::Extract => {
            texts.push(split_name(operand_in(arguments)).1)?;
            let words = words_in(arguments).unwrap_or(&[]);
            for word in words[..column_words(words)].iter().step_by(2) {
                texts.push(split_name(*word).1)?;
            }
        }
        Command::Range | Command::Grep | Command::Distinct => {
            texts.extend_from_slice(arguments.get_strs("by").unwrap_or(&[]))?;
        }
        Command::Sort | Command::Top => {
            for text in arguments.get_strs("by").unwrap_or(&[]) {
                texts.push(split_direction(*text).0)?;
            }
        }
        _ => {}
    }
    Ok(texts)
}

// Runs a command whose operand is a JSON text.
fn with_value(rt: &HostRuntime, row: &CommandRow, arguments: &ArgMatches<'_>) -> u8 {
    match document_of(rt, operand_in(arguments), value_kind_in(arguments)) {
        Ok(owned) => {
            let value = Document::new_unchecked(owned.as_bytes());
            run_operands(rt, row, Operands::Value(value), arguments)
        }
        Err(status) => status,
    }
}

// Runs the command whose operand is a list of names.
fn with_names(rt: &HostRuntime, row: &CommandRow, arguments: &ArgMatches<'_>) -> u8 {
    let names = operand_in(arguments).split(',');
    match names.collect::<Vec<&str>>(rt.alloc()) {
        Ok(names) => run_operands(rt, row, Operands::Names(&names), arguments),
        Err(_) => failure(rt, Halt::Memory),
    }
}

// Runs a command that makes new rows by this text of a template.
fn with_template(rt: &HostRuntime, row: &CommandRow, text: &str, arguments: &ArgMatches<'_>) -> u8 {
    match template_in(rt, text) {
        Ok(template) => run_operands(rt, row, Operands::Template(&template), arguments),
        Err(status) => status,
    }
}

// Runs the command for the names of members, or for comparable keys if it is given paths to them.
fn with_member_names(rt: &HostRuntime, row: &CommandRow, arguments: &ArgMatches<'_>) -> u8 {
    match arguments.get_strs("by") {
        None => with_template(rt, row, MEMBER_NAMES, arguments),
        Some(_) => with_paths(rt, row, arguments),
    }
}

// Runs a command of keys by several paths.
fn with_paths(rt: &HostRuntime, row: &CommandRow, arguments: &ArgMatches<'_>) -> u8 {
    let mut paths = Vec::new(rt.alloc());
    if let Some(texts) = arguments.get_strs("by") {
        for text in texts {
            if let Err(status) = push_sort_path(rt, &mut paths, *text) {
                return status;
            }
        }
    }
    run_operands(rt, row, Operands::Keys(&paths), arguments)
}

// Runs a command of the values at several paths, which have no directions.
fn with_values(rt: &HostRuntime, row: &CommandRow, arguments: &ArgMatches<'_>) -> u8 {
    match rising_paths_in(rt, arguments.get_strs("by").unwrap_or(&[])) {
        Ok(paths) => run_operands(rt, row, Operands::Keys(&paths), arguments),
        Err(status) => status,
    }
}

// Runs a command whose operand is a path.
fn with_path(rt: &HostRuntime, row: &CommandRow, arguments: &ArgMatches<'_>) -> u8 {
    match path_in(rt, operand_in(arguments)) {
        Ok(path) if matches!(row.end, End::Survey) => write_survey(rt, &path, arguments),
        Ok(path) => {
            let operands = Operands::Path(&path, style_in(arguments));
            run_operands(rt, row, operands, arguments)
        }
        Err(status) => status,
    }
}

// Runs the command whose operands are a path without filters, and a value.
fn with_steps(rt: &HostRuntime, row: &CommandRow, arguments: &ArgMatches<'_>) -> u8 {
    let path = match path_in(rt, operand_in(arguments)) {
        Ok(path) => path,
        Err(status) => return status,
    };
    let target = match target_in(rt, &path) {
        Ok(target) => target,
        Err(status) => return status,
    };
    match document_of(rt, value_in(arguments), value_kind_in(arguments)) {
        Ok(owned) => {
            let value = Document::new_unchecked(owned.as_bytes());
            let operands = match &target {
                Target::One(steps) => Operands::Steps(steps, value),
                Target::Each(steps) => Operands::Each(steps, EachEdit::Set(value)),
            };
            run_operands(rt, row, operands, arguments)
        }
        Err(status) => status,
    }
}

// Runs the command whose operands are a path that ends in a key, and a name.
fn with_new_name(rt: &HostRuntime, row: &CommandRow, arguments: &ArgMatches<'_>) -> u8 {
    let path = match path_in(rt, operand_in(arguments)) {
        Ok(path) => path,
        Err(status) => return status,
    };
    match renamed_in(rt, &path) {
        Ok((steps, from)) => {
            let edit = EachEdit::Rename(from, value_in(arguments));
            run_operands(rt, row, Operands::Each(&steps, edit), arguments)
        }
        Err(status) => status,
    }
}

// Runs the command whose operands are paths, which come before the files.
fn with_removals(rt: &HostRuntime, row: &CommandRow, arguments: &ArgMatches<'_>) -> u8 {
    let mut paths = Vec::new(rt.alloc());
    if let Err(status) = push_path(rt, &mut paths, operand_in(arguments)) {
        return status;
    }
    let words = words_in(arguments).unwrap_or(&[]);
    for text in &words[..path_count(words)] {
        if let Err(status) = push_path(rt, &mut paths, *text) {
            return status;
        }
    }
    let mut removed = Vec::new(rt.alloc());
    for path in &paths {
        if let Err(status) = push_target(rt, &mut removed, path) {
            return status;
        }
    }
    run_operands(rt, row, Operands::Removed(&removed), arguments)
}

// Runs the command whose operands are paths, each with a type, which come before the files.
fn with_columns(rt: &HostRuntime, row: &CommandRow, arguments: &ArgMatches<'_>) -> u8 {
    match columns_in(rt, arguments) {
        Ok(columns) => {
            let table = Table {
                columns: &columns,
                layout: table_layout_in(arguments),
                has_heading: has_heading_in(arguments),
            };
            run_operands(rt, row, Operands::Table(table), arguments)
        }
        Err(status) => status,
    }
}

// Runs the command whose operand is a pattern.
fn with_pattern(rt: &HostRuntime, row: &CommandRow, arguments: &ArgMatches<'_>) -> u8 {
    let pattern = match pattern_in(rt, operand_in(arguments), pattern_flags_in(arguments)) {
        Ok(pattern) => pattern,
        Err(status) => return status,
    };
    match path_in(rt, arguments.get_str("by").unwrap_or(ALL_VALUES)) {
        Ok(path) => {
            let search = TextSearch {
                pattern: &pattern,
                path: &path,
                is_inverted: is_inverted_in(arguments),
            };
            run_operands(rt, row, Operands::Search(search), arguments)
        }
        Err(status) => status,
    }
}

// Runs the command whose operands are the bounds of a range.
fn with_bounds(rt: &HostRuntime, row: &CommandRow, arguments: &ArgMatches<'_>) -> u8 {
    let path = match deciding_path_in(rt, arguments) {
        Ok(path) => path,
        Err(status) => return status,
    };
    let kind = value_kind_in(arguments);
    let from = match document_of(rt, operand_in(arguments), kind) {
        Ok(from) => from,
        Err(status) => return status,
    };
    match document_of(rt, value_in(arguments), kind) {
        Ok(to) => {
            let range = ValueRange {
                path: &path,
                from: Document::new_unchecked(from.as_bytes()),
                to: Document::new_unchecked(to.as_bytes()),
            };
            run_operands(rt, row, Operands::Range(range), arguments)
        }
        Err(status) => status,
    }
}
