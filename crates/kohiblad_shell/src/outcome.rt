//! What an input's row gives: rows, or a fault.

ghost use Rattle.std.specs.Prelude.{◌≡◌, ℕ, List, IfOk, IfErr, OnErr, string_bytes};
ghost use Rattle.kohiblad_shell.specs.Words.{IsAnswer, KeepsRule, LineRule, OutOfMemory};
ghost use Rattle.kohiblad_shell.specs.Faults.{path_error_name};
ghost use Rattle.kohiblad_shell.specs.Words.{array_fault_name, fault_line, is_cut, plain_fault};
ghost use Rattle.kohiblad_shell.specs.Words.{reason_name, reason_text};

use crate::escape::escaped_text;
use crate::expected::expected_text;
use crate::halt::Halt;
use array_items::ArrayFault;
use jsonb_path::PathError;
use std::alloc::{AllocError, Global};

/// Why a row is wrong.
#[derive(Clone, Copy, Debug, PartialEq, Eq)]
pub enum Reason {
    /// It is not UTF-8.
    InvalidUtf8,
    /// It is not JSON, and no number is at fault.
    InvalidJson,
    /// It is not JSON: a number is unfinished or too large.
    BadNumber,
    /// It nests too deep.
    TooDeep,
    /// Its value, or the row that is made of it, is too large for a document.
    TooLarge,
    /// It is no document, or one that nests too deep.
    BadDocument,
    /// The input ends within it.
    Cut,
    /// Its key is below that of the row before it.
    NotSorted,
    /// A value of it is not of the type that was asked for.
    NotOfType,
    /// A path is given up that is asked of it.
    GivenUp(PathError),
    /// The input is no array from it on.
    NoArray(ArrayFault),
}

impl Reason {
    /// The word in a report.
    pub fn name(self) -> &'static str
        ensures { result.now ≡ reason_name self }
    {
        match self {
            Reason::InvalidUtf8 => "InvalidUtf8",
            Reason::InvalidJson => "InvalidJson",
            Reason::BadNumber => "BadNumber",
            Reason::TooDeep => "TooDeep",
            Reason::TooLarge => "TooLarge",
            Reason::BadDocument => "InvalidJsonb",
            Reason::Cut => "InvalidEOF",
            Reason::NotSorted => "NotSorted",
            Reason::NotOfType => "NotOfType",
            Reason::GivenUp(error) => path_error_name(error),
            Reason::NoArray(fault) => array_fault_name(fault),
        }
    }

    /// Whether rows after it may be lost.
    pub fn is_cut(self) -> bool
        ensures { result ≡ is_cut self }
    {
        matches!(self, Reason::Cut | Reason::NoArray(_))
    }
}

// The word for why an input is no array.
fn array_fault_name(fault: ArrayFault) -> &'static str
    ensures { result.now ≡ array_fault_name fault }
{
    match fault {
        ArrayFault::NoArray => "NoArray",
        ArrayFault::NoItem => "NoItem",
        ArrayFault::NoComma => "NoComma",
        ArrayFault::NoEnd => "NoEnd",
        ArrayFault::AfterEnd => "AfterEnd",
    }
}

// The word for why a path is given up.
fn path_error_name(error: PathError) -> &'static str
    ensures { result.now ≡ path_error_name error }
{
    match error {
        PathError::MemberNotFound => "MemberNotFound",
        PathError::ObjectNotFound => "ObjectNotFound",
        PathError::ArrayNotFound => "ArrayNotFound",
        PathError::InvalidSubscript => "InvalidSubscript",
        PathError::NonNumericItem => "NonNumericItem",
        PathError::SingletonRequired => "SingletonRequired",
        PathError::NumberNotFound => "NumberNotFound",
        PathError::DivisionByZero => "DivisionByZero",
        PathError::OutOfRange => "OutOfRange",
        PathError::UndefinedVariable => "UndefinedVariable",
        PathError::BooleanRequired => "BooleanRequired",
    }
}

/// Where a row is wrong, and why.
#[derive(Clone, Copy, Debug, PartialEq, Eq)]
pub struct LineFault {
    /// How many bytes of the line are before the fault.
    pub offset: usize,
    /// Why it is wrong there.
    pub reason: Reason,
    /// What could have come there, as the sum of the library's classes; 0 if that is not said.
    pub expected: u32,
    /// The character that came, if one is there.
    pub found: Option<char>,
}

impl LineFault {
    /// A fault after so many bytes, of which is not said what could have come there.
    pub fn plain(offset: usize, reason: Reason) -> LineFault
        ensures { result ≡ plain_fault offset reason }
    {
        LineFault {
            offset,
            reason,
            expected: 0,
            found: None,
        }
    }
}

/// Why a line has no answer.
#[derive(Clone, Copy, Debug, PartialEq, Eq)]
pub enum Unanswered {
    /// The row is wrong.
    Wrong(LineFault),
    /// An allocation failed.
    OutOfMemory,
}

impl From<AllocError> for Unanswered {
    ghost from_gives = { λ _ unanswered. unanswered ≡ OutOfMemory };

    fn from(_error: AllocError) -> Unanswered {
        Unanswered::OutOfMemory
    }
}

/// Answers lines, one after another, and may change with each.
pub trait LineWorker {
    // What a line may give.
    ghost rule: { Self → LineRule };

    // What it is after a line gave these rows.
    ghost after: { Self → List ℕ → Self };

    ghost keeps: { KeepsRule rule after };

    /// The rows that the line gives, each with its line feed, or why it has none: such a line
    /// changes nothing, and no line changes what later ones may give.
    fn answer(&mut self, alloc: Global, line: &[u8]) -> Result<Vec<u8>, Unanswered>
        ensures answer { IsAnswer (rule self.old) line.now result }
        ensures after { IfOk result (λ rows. self.new ≡ after self.old rows.items) }
        ensures kept { OnErr result (self.new ≡ self.old) };
}

/// The line that reports a fault: the name of the input with escapes, the number of the line, that
/// of the byte, both counted from 1, the reason, and of a text that is not JSON what could have
/// come there and what came.
pub fn fault_text(alloc: Global, name: &str, number: u64, fault: LineFault) -> Result<String, Halt>
    ensures ok { IfOk result (λ text. string_bytes text ≡ fault_line name.now number fault) }
    ensures memory { IfErr result (λ e. e ≡ Halt.Memory) }
{
    let byte = fault.offset as u128 + 1;
    let shown = escaped_text(alloc, name)?;
    let reason = reason_text(alloc, fault)?;
    Ok(format!(in alloc; "{shown}:{number}:{byte}: {reason}\n")?)
}

/// Why a row is wrong: the reason, and of a text that is not JSON what could have come there and
/// what came.
#[tactic(auto, unfolding(crate::specs::Faults::reason_text))]
pub fn reason_text(alloc: Global, fault: LineFault) -> Result<String, AllocError>
    ensures { IfOk result (λ text. string_bytes text ≡ reason_text fault) }
{
    let reason = fault.reason.name();
    let words = expected_text(alloc, fault.expected, fault.found)?;
    format!(in alloc; "{reason}{words}")
}
