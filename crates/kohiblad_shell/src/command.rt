//! The commands, and which operation each of them is.

ghost use Rattle.std.specs.Prelude.{◌≡◌};
ghost use Rattle.kohiblad_shell.specs.Commands.{key_operation, lone_operation, operation_of};
ghost use Rattle.kohiblad_shell.specs.Commands.{path_operation, value_operation};

use crate::operation::{Change, Operation, Style, TextLayout};
use crate::part_lines::Look;
use crate::range::ValueRange;
use crate::sort_path::SortPath;
use crate::table::Table;
use crate::target::Target;
use crate::template::Template;
use crate::text_search::TextSearch;
use jsonb::Document;
use jsonb_functions::Step;
use jsonb_path::Path;
use jsonb_rows::{EachEdit, Reach};

/// A command.
#[derive(Clone, Copy)]
pub enum Command {
    Check,
    Fault,
    Canonical,
    Get,
    Select,
    Filter,
    Count,
    Survey,
    Group,
    Extract,
    Contains,
    Set,
    Remove,
    Rename,
    Merge,
    Pick,
    Build,
    StripNulls,
    Range,
    Grep,
    Sort,
    Distinct,
    Top,
    MergeSorted,
    Keys,
    ComparableKeys,
    Encode,
    Decode,
    Show,
}

impl Command {
    /// Another name, for those who know the command by it.
    pub fn alias(self) -> Option<&'static str> {
        match self {
            Command::Check => Some("validate"),
            Command::Merge => Some("patch"),
            Command::Remove => Some("del"),
            _ => None,
        }
    }
}

/// What a command is given besides its files and the form of its rows.
#[derive(Clone, Copy)]
pub enum Operands<'a> {
    /// Nothing.
    Nothing,
    /// How texts are laid out.
    Layout(TextLayout),
    /// A path, and how values are written.
    Path(&'a Path, Style),
    /// A value.
    Value(Document<'a>),
    /// Names of members.
    Names(&'a [&'a str]),
    /// Paths to the values that decide, each with its direction.
    Keys(&'a [SortPath]),
    /// A path of keys and indexes alone, and a value for its end.
    Steps(&'a [Step<'a>], Document<'a>),
    /// Paths of keys, indexes and wildcards alone.
    Removed(&'a [Target<'a>]),
    /// A path of keys, indexes and wildcards alone, and what is done at each place.
    Each(&'a [Reach<'a>], EachEdit<'a>),
    /// A range of values.
    Range(ValueRange<'a>),
    /// A pattern that is looked for.
    Search(TextSearch<'a>),
    /// Paths, each with a name and a type, and how their lines are laid out.
    Table(Table<'a>),
    /// What new rows are made of.
    Template(&'a Template),
    /// How parts are shown.
    Look(Look),
}

/// The operation of a command. Most operands are those of one operation; several commands are given
/// nothing, a path, a value or paths of keys, and decide which it is. `None` if the command is not
/// given such operands.
pub fn operation_of<'a>(command: Command, operands: Operands<'a>) -> Option<Operation<'a>>
    ensures { result ≡ operation_of command operands.entry }
{
    match operands {
        Operands::Nothing => lone_operation(command),
        Operands::Path(path, style) => path_operation(command, path, style),
        Operands::Value(value) => value_operation(command, value),
        Operands::Keys(paths) => Some(key_operation(command, paths)),
        Operands::Layout(layout) => Some(Operation::Decode(layout)),
        Operands::Look(look) => Some(Operation::Show(look)),
        Operands::Names(names) => Some(Operation::Change(Change::Pick(names))),
        Operands::Steps(path, value) => Some(Operation::Change(Change::Set(path, value))),
        Operands::Removed(paths) => Some(Operation::Remove(paths)),
        Operands::Each(path, edit) => Some(Operation::Change(Change::Each(path, edit))),
        Operands::Table(table) => Some(Operation::Extract(table)),
        Operands::Template(template) => Some(Operation::Build(template)),
        Operands::Range(range) => Some(Operation::Range(range)),
        Operands::Search(search) => Some(Operation::Grep(search)),
    }
}

// The operation of a command that is given nothing. `fault` writes what `check` reports.
fn lone_operation<'a>(command: Command) -> Option<Operation<'a>>
    ensures { result ≡ lone_operation command }
{
    match command {
        Command::Check | Command::Fault => Some(Operation::Check),
        Command::Canonical => Some(Operation::Canonical),
        Command::StripNulls => Some(Operation::Change(Change::StripNulls)),
        Command::Encode => Some(Operation::Encode),
        _ => None,
    }
}

// The operation of a command that is given a path. `count` counts the rows that `filter` writes.
fn path_operation<'a>(command: Command, path: &'a Path, style: Style) -> Option<Operation<'a>>
    ensures { result ≡ path_operation command path.entry style }
{
    match command {
        Command::Get => Some(Operation::Get(path, style)),
        Command::Select => Some(Operation::Select(path, style)),
        Command::Filter | Command::Count => Some(Operation::Filter(path)),
        _ => None,
    }
}

// The operation of a command that is given a value.
fn value_operation<'a>(command: Command, value: Document<'a>) -> Option<Operation<'a>>
    ensures { result ≡ value_operation command value.entry }
{
    match command {
        Command::Contains => Some(Operation::Contains(value)),
        Command::Merge => Some(Operation::Change(Change::Merge(value))),
        _ => None,
    }
}

// The operation of a command that is given paths of keys: but for those that write keys all keep
// each row with its key.
fn key_operation<'a>(command: Command, paths: &'a [SortPath]) -> Operation<'a>
    ensures { result ≡ key_operation command paths.entry }
{
    match command {
        Command::Keys | Command::ComparableKeys => Operation::Key(paths),
        _ => Operation::Sort(paths),
    }
}
