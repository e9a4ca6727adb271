//! The table of the commands.

ghost use Rattle.std.specs.Prelude.{◌≡◌, IfSome};
ghost use Rattle.kohiblad_shell.specs.Words.{passes_empty_lines};

use crate::command::Command;
use crate::operand_kind::OperandKind;

/// A command: its name, what its help says, what it is given besides its files, its options, and
/// what becomes of what its rows give.
pub struct CommandRow {
    pub command: Command,
    pub name: &'static str,
    pub about: &'static str,
    pub operands: OperandKind,
    pub options: &'static [CommandOption],
    pub end: End,
}

impl CommandRow {
    /// Whether rows are lines unless the arguments say that they are documents.
    pub fn reads_lines(&self) -> bool {
        !matches!(self.command, Command::Decode)
    }
}

/// An option of some commands.
#[derive(Clone, Copy)]
pub enum CommandOption {
    Raw,
    IsoDates,
    Header,
    Tsv,
    Text,
    Pretty,
    By,
    ByOne,
    GroupBy,
    DistinctBy,
    Texts,
    IgnoreCase,
    FixedStrings,
    InvertMatch,
    Reverse,
    Unique,
    Memory,
    TemporaryDirectory,
    Documents,
    Quiet,
    OnError,
    Whole,
    Color,
    Json,
}

/// What becomes of what the rows of a command give.
#[derive(Clone, Copy)]
pub enum End {
    /// Rows are written.
    Rows,
    /// Rows that are wrong are reported, and nothing is written.
    Faults,
    /// The reports of rows that are wrong are written.
    Reports,
    /// The number of the rows is written.
    Count,
    /// How many values there are of each kind is written.
    Survey,
    /// A row for each group of rows is written.
    Groups,
    /// Rows are written in the order of their keys.
    Sorted,
    /// The first row of each key is written.
    First,
    /// The first so many rows are written in the order of their keys.
    Top,
    /// The rows of sorted files are written in the order of their keys.
    Merged,
}

impl End {
    /// Whether there is an output.
    pub fn writes(self) -> bool {
        !matches!(self, End::Faults)
    }

    /// Whether lines that are empty, or have white space alone, are passed over.
    pub fn passes_empty_lines(self) -> bool
        ensures { result ≡ passes_empty_lines self }
    {
        !matches!(self, End::Faults | End::Reports)
    }

    /// Whether nothing is written before the last row is read.
    pub fn is_last(self) -> bool {
        matches!(
            self,
            End::Faults | End::Count | End::Survey | End::Groups | End::Sorted | End::Top
        )
    }
}

/// The commands, in the order of the help.
pub static COMMANDS: [CommandRow; 29] = [
    CommandRow {
        command: Command::Check,
        name: "check",
        about: "Report the rows that are not JSON",
        operands: OperandKind::Nothing,
        options: &[CommandOption::Documents, CommandOption::OnError],
        end: End::Faults,
    },
    CommandRow {
        command: Command::Fault,
        name: "fault",
        about: "Write the reports of the rows that are not JSON",
        operands: OperandKind::Nothing,
        options: &[CommandOption::Documents],
        end: End::Reports,
    },
    CommandRow {
        command: Command::Canonical,
        name: "canonical",
        about: "Write each value as compact JSON, with its keys in order",
        operands: OperandKind::Nothing,
        options: &[CommandOption::Documents, CommandOption::OnError],
        end: End::Rows,
    },
    CommandRow {
        command: Command::Get,
        name: "get",
        about: "Write the first value that a path gives, of each row",
        operands: OperandKind::Path,
        options: &[
            CommandOption::Documents,
            CommandOption::Raw,
            CommandOption::Quiet,
            CommandOption::OnError,
        ],
        end: End::Rows,
    },
    CommandRow {
        command: Command::Select,
        name: "select",
        about: "Write all values that a path gives, of each row",
        operands: OperandKind::Path,
        options: &[
            CommandOption::Documents,
            CommandOption::Raw,
            CommandOption::Quiet,
            CommandOption::OnError,
        ],
        end: End::Rows,
    },
    CommandRow {
        command: Command::Filter,
        name: "filter",
        about: "Write the rows of which a test is true, or a path gives a value",
        operands: OperandKind::Condition,
        options: &[
            CommandOption::Documents,
            CommandOption::Quiet,
            CommandOption::OnError,
        ],
        end: End::Rows,
    },
    CommandRow {
        command: Command::Count,
        name: "count",
        about: "Count the rows of which a test is true, or a path gives a value",
        operands: OperandKind::Condition,
        options: &[
            CommandOption::Documents,
            CommandOption::Quiet,
            CommandOption::OnError,
        ],
        end: End::Count,
    },
    CommandRow {
        command: Command::Survey,
        name: "survey",
        about: "Count what the values are to which a path leads",
        operands: OperandKind::Path,
        options: &[
            CommandOption::Documents,
            CommandOption::Json,
            CommandOption::Quiet,
            CommandOption::OnError,
        ],
        end: End::Survey,
    },
    CommandRow {
        command: Command::Group,
        name: "group",
        about: "Count the rows of each group, and sum their values, in the order of the first rows",
        operands: OperandKind::Aggregates,
        options: &[
            CommandOption::Documents,
            CommandOption::GroupBy,
            CommandOption::OnError,
        ],
        end: End::Groups,
    },
    CommandRow {
        command: Command::Extract,
        name: "extract",
        about: "Write the values at paths as a table, each as one of a type",
        operands: OperandKind::Columns,
        options: &[
            CommandOption::Documents,
            CommandOption::IsoDates,
            CommandOption::Header,
            CommandOption::Tsv,
            CommandOption::Quiet,
            CommandOption::OnError,
        ],
        end: End::Rows,
    },
    CommandRow {
        command: Command::Contains,
        name: "contains",
        about: "Write the rows whose value contains another",
        operands: OperandKind::Value,
        options: &[
            CommandOption::Documents,
            CommandOption::Text,
            CommandOption::OnError,
        ],
        end: End::Rows,
    },
    CommandRow {
        command: Command::Set,
        name: "set",
        about: "Put a value at each place of a path, of each row",
        operands: OperandKind::Steps,
        options: &[
            CommandOption::Documents,
            CommandOption::Text,
            CommandOption::Quiet,
            CommandOption::OnError,
        ],
        end: End::Rows,
    },
    CommandRow {
        command: Command::Remove,
        name: "remove",
        about: "Remove what is at the ends of paths, of each row",
        operands: OperandKind::Removed,
        options: &[
            CommandOption::Documents,
            CommandOption::Quiet,
            CommandOption::OnError,
        ],
        end: End::Rows,
    },
    CommandRow {
        command: Command::Rename,
        name: "rename",
        about: "Give the members at each place of a path another name, of each row",
        operands: OperandKind::Renamed,
        options: &[
            CommandOption::Documents,
            CommandOption::Quiet,
            CommandOption::OnError,
        ],
        end: End::Rows,
    },
    CommandRow {
        command: Command::Merge,
        name: "merge",
        about: "Apply a JSON Merge Patch to each row",
        operands: OperandKind::Value,
        options: &[
            CommandOption::Documents,
            CommandOption::Text,
            CommandOption::OnError,
        ],
        end: End::Rows,
    },
    CommandRow {
        command: Command::Pick,
        name: "pick",
        about: "Keep the members of these names, of each row",
        operands: OperandKind::Names,
        options: &[
            CommandOption::Documents,
            CommandOption::Quiet,
            CommandOption::OnError,
        ],
        end: End::Rows,
    },
    CommandRow {
        command: Command::Build,
        name: "build",
        about: "Make a new row of each, of paths, values and arithmetic",
        operands: OperandKind::Template,
        options: &[CommandOption::Documents, CommandOption::OnError],
        end: End::Rows,
    },
    CommandRow {
        command: Command::StripNulls,
        name: "strip-nulls",
        about: "Remove members that are null, of each row",
        operands: OperandKind::Nothing,
        options: &[CommandOption::Documents, CommandOption::OnError],
        end: End::Rows,
    },
    CommandRow {
        command: Command::Range,
        name: "range",
        about: "Write the rows whose value lies from one up to before another",
        operands: OperandKind::Bounds,
        options: &[
            CommandOption::Documents,
            CommandOption::Text,
            CommandOption::ByOne,
            CommandOption::Quiet,
            CommandOption::OnError,
        ],
        end: End::Rows,
    },
    CommandRow {
        command: Command::Grep,
        name: "grep",
        about: "Write the rows in whose texts a regular expression is found",
        operands: OperandKind::Pattern,
        options: &[
            CommandOption::Documents,
            CommandOption::Texts,
            CommandOption::IgnoreCase,
            CommandOption::FixedStrings,
            CommandOption::InvertMatch,
            CommandOption::Quiet,
            CommandOption::OnError,
        ],
        end: End::Rows,
    },
    CommandRow {
        command: Command::Sort,
        name: "sort",
        about: "Write the rows in the order of their values",
        operands: OperandKind::Keys,
        options: &[
            CommandOption::Documents,
            CommandOption::By,
            CommandOption::Reverse,
            CommandOption::Unique,
            CommandOption::Memory,
            CommandOption::TemporaryDirectory,
            CommandOption::Quiet,
            CommandOption::OnError,
        ],
        end: End::Sorted,
    },
    CommandRow {
        command: Command::Distinct,
        name: "distinct",
        about: "Write the first of the rows that are equal, or whose values are, in their order",
        operands: OperandKind::Values,
        options: &[
            CommandOption::Documents,
            CommandOption::DistinctBy,
            CommandOption::Quiet,
            CommandOption::OnError,
        ],
        end: End::First,
    },
    CommandRow {
        command: Command::Top,
        name: "top",
        about: "Write the first rows in the order of their values, as many as are asked for",
        operands: OperandKind::NumberAndKeys,
        options: &[
            CommandOption::Documents,
            CommandOption::By,
            CommandOption::Quiet,
            CommandOption::OnError,
        ],
        end: End::Top,
    },
    CommandRow {
        command: Command::MergeSorted,
        name: "merge-sorted",
        about: "Write the rows of sorted files in the order of their values",
        operands: OperandKind::Keys,
        options: &[CommandOption::Documents, CommandOption::By],
        end: End::Merged,
    },
    CommandRow {
        command: Command::Keys,
        name: "keys",
        about: "Write the names of the members of each row",
        operands: OperandKind::MemberNames,
        options: &[
            CommandOption::Documents,
            CommandOption::By,
            CommandOption::OnError,
        ],
        end: End::Rows,
    },
    CommandRow {
        command: Command::ComparableKeys,
        name: "comparable-keys",
        about: "Write the comparable key of each row in hexadecimal",
        operands: OperandKind::Keys,
        options: &[
            CommandOption::Documents,
            CommandOption::By,
            CommandOption::OnError,
        ],
        end: End::Rows,
    },
    CommandRow {
        command: Command::Encode,
        name: "encode",
        about: "Write the document of each row as a column stores it",
        operands: OperandKind::Nothing,
        options: &[CommandOption::OnError],
        end: End::Rows,
    },
    CommandRow {
        command: Command::Decode,
        name: "decode",
        about: "Write the text of each document of a stored column",
        operands: OperandKind::Layout,
        options: &[CommandOption::Pretty, CommandOption::OnError],
        end: End::Rows,
    },
    CommandRow {
        command: Command::Show,
        name: "show",
        about: "Write the bytes of each document, part by part",
        operands: OperandKind::Look,
        options: &[
            CommandOption::Documents,
            CommandOption::Whole,
            CommandOption::Color,
            CommandOption::OnError,
        ],
        end: End::Rows,
    },
];

/// The command of this name.
pub fn row_named(name: &str) -> Option<&'static CommandRow>
    ensures { IfSome result (λ row. row.now.name.now ≡ name.now) }
{
    COMMANDS.iter().find(|row| row.name == name)
}
