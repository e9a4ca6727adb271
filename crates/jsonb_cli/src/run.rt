//! The loop from lines to answers, over any reader and any writer.

ghost use Rattle.std.specs.Prelude.{◌≡◌, ℕ, List, OnOk, OnErr, IfSome, IsErrOf};
ghost use Rattle.jsonb_cli.specs.Names.{IsAtEnd, AreAnswers, AppendsReplies, AppendsBeginning};
ghost use Rattle.jsonb_cli.specs.Names.{AppendsWhole, OneAnswer, line_rule, commands, error_of};
ghost use Rattle.jsonb_cli.specs.Names.{fault_line};

use crate::answer::line_text;
use crate::command;
use answer_lines::{LineAnswerer, answer_lines};
use std::alloc::{AllocError, Global};
use std::io::{Read, Write};

/// Why a run ended early.
#[derive(Clone, Copy, Debug, PartialEq, Eq)]
pub enum RunError {
    /// The reader failed, or never reached the end of its input.
    Read,
    /// The writer failed, or accepted no byte.
    Write,
    /// Memory for a line or for an answer was refused.
    Memory,
}

impl RunError {
    /// The line that the program writes to standard error before it exits with a failure.
    pub fn line(&self) -> &'static str
        ensures { result.now ≡ fault_line self.now }
    {
        match self {
            RunError::Read => "jsonb_cli: read failed",
            RunError::Write => "jsonb_cli: write failed",
            RunError::Memory => "jsonb_cli: out of memory",
        }
    }
}

impl From<answer_lines::RunError> for RunError {
    ghost from_gives = { λ error result. result ≡ error_of error };

    fn from(error: answer_lines::RunError) -> RunError {
        match error {
            answer_lines::RunError::Read => RunError::Read,
            answer_lines::RunError::Write => RunError::Write,
            answer_lines::RunError::Memory => RunError::Memory,
        }
    }
}

/// Answers each line by its command, without any state.
#[derive(Drop)]
pub struct Commands;

impl LineAnswerer for Commands {
    ghost rule = { line_rule };

    fn answer(&mut self, alloc: Global, line: &[u8]) -> Result<String, AllocError> {
        line_text(alloc, &command::answer(alloc, line))
    }
}

/// Writes one answer line for each line of the reader. A line ends at a line feed; what follows the
/// last line feed is a line unless it is empty. All whole lines that were read are answered before
/// the next read. After `Ok` the input was read to its end, and exactly its answers were written,
/// in order.
///
/// If a command runs out of memory, its answer is `error OutOfMemory`, and the run continues. After
/// an error, a prefix of the answers was written. `Read`: the reader failed, or was called
/// 18,446,744,073,709,551,615 times without reaching the end of the input. `Write`: the writer
/// failed, or accepted no byte. `Memory`: the allocation of a line or of an answer failed.
///
/// A line has exactly one answer beside `error OutOfMemory`, so an input has only one output if no
/// answer is that.
pub fn run<R: Read, W: Write>(alloc: Global, reader: &mut R, writer: &mut W) -> Result<(), RunError>
    ensures done { OnOk result (IfSome (R.remaining reader.old) (λ input. AppendsReplies
        line_rule commands commands input (W.contents writer.old) (W.contents writer.new))) }
    ensures all_read { OnOk result (IsAtEnd (R.remaining reader.new)) }
    ensures beginning { OnErr result (IfSome (R.remaining reader.old) (λ input. AppendsBeginning
        line_rule commands input (W.contents writer.old) (W.contents writer.new))) }

    // After a fault of the reader, exactly the whole lines that it returned are answered.
    ensures prompt { IsErrOf result RunError.Read → IfSome (R.remaining reader.old) (λ input.
        IfSome (R.remaining reader.new) (λ left. (start : List ℕ) × AppendsWhole line_rule
        commands commands input start left (W.contents writer.old) (W.contents writer.new))) }

    // Each line has exactly one answer beside `error OutOfMemory`.
    ensures one_answer { (line : List ℕ) → OneAnswer line }

    // If no answer is `error OutOfMemory`, the output is determined by the input.
    ensures one_output { (input a b : List ℕ) → AreAnswers line_rule commands input a
        → AreAnswers line_rule commands input b → a ≡ b }
{
    Ok(answer_lines(alloc, &mut Commands, reader, writer)?)
}
