//! What commands are given besides their files.

/// What a command is given besides its files and the form of its rows.
#[derive(Clone, Copy)]
pub enum OperandKind {
    /// Nothing.
    Nothing,
    /// A path, and the style of values.
    Path,
    /// A path with a condition.
    Condition,
    /// A value.
    Value,
    /// Names of members.
    Names,
    /// What new rows are made of.
    Template,
    /// Nothing, or the paths of comparable keys as an older version took them.
    MemberNames,
    /// A path without filters, and a value.
    Steps,
    /// Paths without filters.
    Removed,
    /// A path without filters that ends in a key, and a name.
    Renamed,
    /// Paths, each with a type, and with a name or none.
    Columns,
    /// What is reckoned of each group of rows, and the paths to values that rows of one have in
    /// common.
    Aggregates,
    /// The bounds of a range, and the path to the value that decides.
    Bounds,
    /// A pattern, and the path to the texts.
    Pattern,
    /// Paths to the values that decide.
    Keys,
    /// Paths to values that rows may have in common.
    Values,
    /// How many rows are wanted, and paths to the values that decide.
    NumberAndKeys,
    /// How texts are laid out.
    Layout,
    /// How parts are shown.
    Look,
}

impl OperandKind {
    /// The operands that stand before the files.
    pub fn operands(self) -> &'static [Operand] {
        match self {
            OperandKind::Path => &[PATH],
            OperandKind::Condition => &[CONDITION],
            OperandKind::Value => &[VALUE],
            OperandKind::Names => &[NAMES],
            OperandKind::Template => &[TEMPLATE],
            OperandKind::Steps => &[STEPS, NEW_VALUE],
            OperandKind::Removed => &[REMOVED],
            OperandKind::Renamed => &[RENAMED, NEW_NAME],
            OperandKind::Columns => &[COLUMN, TYPE],
            OperandKind::Aggregates => &[AGGREGATE],
            OperandKind::Bounds => &[FROM, TO],
            OperandKind::Pattern => &[PATTERN],
            OperandKind::NumberAndKeys => &[NUMBER],
            OperandKind::Nothing
            | OperandKind::MemberNames
            | OperandKind::Keys
            | OperandKind::Values
            | OperandKind::Layout
            | OperandKind::Look => &[],
        }
    }

    /// Whether some of what the command is given are paths, or have paths in them.
    pub fn has_paths(self) -> bool {
        !matches!(
            self,
            OperandKind::Nothing
                | OperandKind::Value
                | OperandKind::Names
                | OperandKind::MemberNames
                | OperandKind::Layout
                | OperandKind::Look
        )
    }
}

/// What the values among the operands are.
#[derive(Clone, Copy, Debug, PartialEq, Eq)]
pub enum ValueKind {
    /// JSON texts.
    Json,
    /// The texts of strings, without quotes and escapes.
    Text,
}

/// An operand as the arguments and the help name it, and whether it is a value, which may be a
/// negative number.
#[derive(Clone, Copy)]
pub struct Operand {
    pub id: &'static str,
    pub name: &'static str,
    pub help: &'static str,
    pub is_value: bool,
}

const PATH: Operand = Operand {
    id: "operand",
    name: "PATH",
    help: "A path, such as '$.lines[*].price'",
    is_value: false,
};

const CONDITION: Operand = Operand {
    id: "operand",
    name: "PATH",
    help: "A path, such as '$.lines[*]?(@.price < 3)'",
    is_value: false,
};

const VALUE: Operand = Operand {
    id: "operand",
    name: "VALUE",
    help: "A JSON text, such as 5 or '\"Oslo\"'; with --text any text",
    is_value: true,
};

const NEW_VALUE: Operand = Operand {
    id: "value",
    name: "VALUE",
    help: "A JSON text, such as 5 or '\"Oslo\"'; with --text any text",
    is_value: true,
};

const FROM: Operand = Operand {
    id: "operand",
    name: "FROM",
    help: "A JSON text, the first value of the range; with --text any text",
    is_value: true,
};

const TO: Operand = Operand {
    id: "value",
    name: "TO",
    help: "A JSON text, the first value after the range; with --text any text",
    is_value: true,
};

const PATTERN: Operand = Operand {
    id: "operand",
    name: "PATTERN",
    help: "A regular expression: characters, ., [a-z], [^a-z], (..|..), *, +, ?, {2,3}, ^ and $",
    is_value: true,
};

const NUMBER: Operand = Operand {
    id: "operand",
    name: "NUMBER",
    help: "How many rows are written, such as 10",
    is_value: true,
};

const STEPS: Operand = Operand {
    id: "operand",
    name: "PATH",
    help: "A path of keys, indexes and wildcards, such as '$.lines[*].price'",
    is_value: false,
};

const REMOVED: Operand = Operand {
    id: "operand",
    name: "PATH",
    help: "A path of keys, indexes and wildcards; words after it that begin with '$' are paths \
        too",
    is_value: false,
};

const RENAMED: Operand = Operand {
    id: "operand",
    name: "PATH",
    help: "A path of keys, indexes and wildcards that ends in a key, such as '$.lines[*].price'",
    is_value: false,
};

const NEW_NAME: Operand = Operand {
    id: "value",
    name: "NAME",
    help: "The new name, in place of a member that has it already",
    is_value: false,
};

const COLUMN: Operand = Operand {
    id: "operand",
    name: "PATH",
    help: "A path, such as '$.price', or NAME=PATH, where NAME has letters, digits, spaces, '_', \
        '-' and '.' alone; after TYPE more may come, each with its type",
    is_value: false,
};

const TYPE: Operand = Operand {
    id: "value",
    name: "TYPE",
    help: "boolean, int64, uint64, 'decimal 2', text, date, timestamp, timestamp_tz, interval, \
        binary, nothing or mixed",
    is_value: false,
};

const AGGREGATE: Operand = Operand {
    id: "operand",
    name: "AGGREGATE",
    help: "count, or sum and after it a path, such as sum '$.price'; more of them may come after \
        it, before the files",
    is_value: false,
};

const NAMES: Operand = Operand {
    id: "operand",
    name: "NAMES",
    help: "Names with commas between them, such as id,who",
    is_value: false,
};

const TEMPLATE: Operand = Operand {
    id: "operand",
    name: "TEMPLATE",
    help: "A JSON text that may have paths for values, such as '{\"town\": $.customer.town}'",
    is_value: true,
};
