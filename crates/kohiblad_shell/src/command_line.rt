//! The command line, as `clap` parses it.

use crate::commands::{COMMANDS, CommandOption, CommandRow};
use crate::operand_kind::Operand;
use crate::path_help::PATH_HELP;
use clap::{Arg, ArgAction, Command};
use std::alloc::{AllocError, Global};

// What is said of the paths to values that decide.
const BY_HELP: &str = "A path to the value that decides, as '$.size', or '$.size desc' for the \
    greatest first; with several the first one decides first";

// What is said of the paths to values by which rows are grouped.
const GROUP_HELP: &str = "A path to the value that rows of one group have in common, as \
    '$.town'; several may be given, and with none all rows are one group";

// What is said of the paths to values that rows may have in common.
const DISTINCT_HELP: &str = "A path to the value that tells rows apart, as '$.who'; with several, \
    rows are told apart by all of them, and with none by the whole row";

const AFTER_HELP: &str = "The status is 0 if some row gave a result, 1 if none did or a row is \
    wrong, 2 for wrong use, and 3 if a device or memory failed.";

/// The program with its commands, as `clap` parses them.
pub fn program<'a>(alloc: Global) -> Result<Command<'a>, AllocError> {
    let mut program = Command::new(alloc, "kohiblad")
        .version("0.9.0")
        .about("Query and change files of JSON lines and of documents, row by row")
        .after_help(AFTER_HELP)
        .subcommand_required(true)
        .arg_required_else_help(true);
    for row in &COMMANDS {
        program = program.subcommand(command_of(alloc, row)?)?;
    }
    Ok(program)
}

// A command of the table.
fn command_of<'a>(alloc: Global, row: &CommandRow) -> Result<Command<'a>, AllocError> {
    let mut command = Command::new(alloc, row.name).about(row.about);
    if let Some(alias) = row.command.alias() {
        command = command.visible_alias(alias)?;
    }
    for operand in row.operands.operands() {
        command = command.arg(operand_of(alloc, operand))?;
    }
    if row.operands.has_paths() {
        command = command.after_help(PATH_HELP);
    }
    for option in row.options {
        command = command.arg(option_of(alloc, *option))?;
    }
    if row.reads_lines() {
        command = command
            .arg(array(alloc)?)?
            .arg(values(alloc)?)?
            .arg(exponents(alloc))?;
    }
    if row.end.writes() {
        command = command.arg(output(alloc))?;
    }
    command.arg(progress(alloc))?.arg(files(alloc))
}

// An operand of a command.
fn operand_of<'a>(alloc: Global, operand: &Operand) -> Arg<'a> {
    Arg::new(alloc, operand.id)
        .value_name(operand.name)
        .help(operand.help)
        .allow_negative_numbers(operand.is_value)
        .required(true)
}

// An option of a command.
fn option_of<'a>(alloc: Global, option: CommandOption) -> Arg<'a> {
    match option {
        CommandOption::Raw => {
            flag(alloc, "raw", "Write strings without quotes and escapes").short('r')
        }
        CommandOption::IsoDates => {
            let help = "Read and write dates and timestamps as texts of RFC 3339, not as numbers";
            flag(alloc, "iso-dates", help)
        }
        CommandOption::Header => flag(alloc, "header", "Write the names of the columns first"),
        CommandOption::Tsv => {
            let help =
                "Write tabs between values, with \\t, \\n, \\r and \\\\ in texts, and \\N for none";
            flag(alloc, "tsv", help)
        }
        CommandOption::Text => {
            let help = "Take VALUE, or FROM and TO, as texts, and not as JSON texts";
            flag(alloc, "text", help)
        }
        CommandOption::Pretty => {
            flag(
                alloc,
                "pretty",
                "Write each item and member on a line of its own",
            )
        }
        CommandOption::By => deciding_path(alloc).help(BY_HELP).action(ArgAction::Append),
        CommandOption::ByOne => deciding_path(alloc).help("A path to the value that decides"),
        CommandOption::GroupBy => deciding_path(alloc)
            .help(GROUP_HELP)
            .action(ArgAction::Append),
        CommandOption::DistinctBy => deciding_path(alloc)
            .help(DISTINCT_HELP)
            .action(ArgAction::Append),
        CommandOption::Texts => deciding_path(alloc).help(
            "A path to the texts; all texts of the row if none",
        ),
        CommandOption::IgnoreCase => {
            let help = "Let ASCII letters match in either case";
            flag(alloc, "ignore-case", help).short('i')
        }
        CommandOption::FixedStrings => {
            let help = "Take PATTERN as a text, each character for itself";
            flag(alloc, "fixed-strings", help).short('F')
        }
        CommandOption::InvertMatch => {
            let help = "Write the rows in which it is not found";
            flag(alloc, "invert-match", help).short('v')
        }
        CommandOption::Reverse => flag(alloc, "reverse", "Write the last one first").short('r'),
        CommandOption::Unique => {
            let help = "Write only the first of several rows that are equal";
            flag(alloc, "unique", help).short('u')
        }
        CommandOption::Memory => memory(alloc),
        CommandOption::TemporaryDirectory => temporary_directory(alloc),
        CommandOption::Documents => {
            let help = "Read documents as a column stores them, and write rows as such";
            flag(alloc, "documents", help)
        }
        CommandOption::Quiet => {
            flag(
                alloc,
                "quiet",
                "Say nothing of a path or name at which no row has a value",
            )
            .short('q')
        }
        CommandOption::OnError => on_error(alloc),
        CommandOption::Whole => flag(
            alloc,
            "whole",
            "Write the bytes of long texts and data whole",
        ),
        CommandOption::Color => color(alloc),
        CommandOption::Json => flag(alloc, "json", "Write all counts as one JSON object"),
    }
}

// An option without a value.
fn flag<'a>(alloc: Global, name: &'a str, help: &'a str) -> Arg<'a> {
    Arg::new(alloc, name)
        .long(name)
        .help(help)
        .action(ArgAction::SetTrue)
}

// The option with a path to the value that decides.
fn deciding_path<'a>(alloc: Global) -> Arg<'a> {
    Arg::new(alloc, "by").long("by").value_name("PATH")
}

// How much memory rows and their keys may take.
fn memory<'a>(alloc: Global) -> Arg<'a> {
    Arg::new(alloc, "memory")
        .long("memory")
        .short('S')
        .value_name("SIZE")
        .help("About how many bytes the rows may take in memory, as 500MB or 1.5G; 1G if none")
}

// Where rows go that do not fit.
fn temporary_directory<'a>(alloc: Global) -> Arg<'a> {
    Arg::new(alloc, "temporary-directory")
        .long("temporary-directory")
        .short('T')
        .value_name("DIR")
        .help("Where rows go that do not fit in memory; $TMPDIR or /tmp if none")
}

// Where rows are written.
fn output<'a>(alloc: Global) -> Arg<'a> {
    Arg::new(alloc, "output")
        .long("output")
        .short('o')
        .value_name("FILE")
        .help("The output, which takes the place of FILE at the end; standard output if none or -")
}

// Whether rows are the items of arrays.
fn array<'a>(alloc: Global) -> Result<Arg<'a>, AllocError> {
    let help = "Read the items of the one array that each file is, over any number of lines";
    flag(alloc, "array", help)
        .conflicts_with("documents")?
        .conflicts_with("values")
}

// Whether rows are values one after another.
fn values<'a>(alloc: Global) -> Result<Arg<'a>, AllocError> {
    let help = "Read JSON values one after another, over several lines or several on a line";
    flag(alloc, "values", help).conflicts_with("documents")
}

// Whether numbers of rows may have exponents.
fn exponents<'a>(alloc: Global) -> Arg<'a> {
    Arg::new(alloc, "exponents")
        .long("exponents")
        .value_name("WHAT")
        .help("Whether numbers such as 1e5 are read; accept, if none is said, or refuse")
        .value_parser(["accept", "refuse"].as_slice())
}

// What happens at a row that is wrong.
fn on_error<'a>(alloc: Global) -> Arg<'a> {
    Arg::new(alloc, "on-error")
        .long("on-error")
        .value_name("WHAT")
        .help("What to do after a row that is wrong, or a file that cannot be opened")
        .value_parser(["stop", "skip"].as_slice())
}

// When a line says how far the run is.
fn progress<'a>(alloc: Global) -> Arg<'a> {
    Arg::new(alloc, "progress")
        .long("progress")
        .value_name("WHEN")
        .help("Show how far a run of more than a second is; auto: at a terminal")
        .value_parser(["auto", "always", "never"].as_slice())
}

// When words have colors.
fn color<'a>(alloc: Global) -> Arg<'a> {
    Arg::new(alloc, "color")
        .long("color")
        .value_name("WHEN")
        .help("Whether words have colors; auto, if none is said, where a terminal shows them")
        .value_parser(["always", "never", "auto"].as_slice())
}

// The files that are read.
fn files<'a>(alloc: Global) -> Arg<'a> {
    Arg::new(alloc, "file")
        .value_name("FILE")
        .help("Files to read; standard input if none is named, or where one is -")
        .action(ArgAction::Append)
        .num_args(0..)
}
