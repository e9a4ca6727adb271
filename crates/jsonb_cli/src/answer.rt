//! The outcome of a command, and its line.

ghost use Rattle.std.specs.Prelude.{◌≡◌, ◌∷◌, ◌++◌, [], IfOk, string_bytes};
ghost use Rattle.jsonb_cli.specs.Names.{Call, refusal_name, outcome_line};

use jsonb_value::Error;
use std::alloc::{AllocError, Global};

/// The outcome of a command that succeeds, which follows `ok` in its line.
#[derive(Drop)]
pub enum Answer {
    /// Bytes, written in lower-case hexadecimal.
    Hex(Vec<u8>),
    /// A text, written unchanged.
    Text(String),
    /// A fixed word.
    Word(&'static str),
    /// A fixed word and a count in decimal.
    Counted(&'static str, usize),
}

/// Why the reply to a line is an error.
#[derive(Clone, Copy, Debug, PartialEq, Eq)]
pub enum Refusal {
    /// The line does not have the form of a command.
    BadCommand,
    /// A word is not hexadecimal.
    BadHex,
    /// The bytes of a word nest too deep: the memory that lacks is that of the stack.
    TooDeep,
    /// A call of the library returned this error.
    Call(Error),
}

impl From<Error> for Refusal {
    ghost from_gives = { λ error refusal. refusal ≡ Call error };

    fn from(error: Error) -> Refusal {
        Refusal::Call(error)
    }
}

impl Refusal {
    /// The word after `error` in the line.
    pub fn name(&self) -> &'static str
        ensures { result.now ≡ refusal_name self.now }
    {
        match self {
            Refusal::BadCommand => "BadCommand",
            Refusal::BadHex => "BadHex",
            Refusal::TooDeep => Error::OutOfMemory.name(),
            Refusal::Call(error) => error.name(),
        }
    }
}

/// The line of an outcome, with its line feed.
pub fn line_text(alloc: Global, outcome: &Result<Answer, Refusal>) -> Result<String, AllocError>
    ensures { IfOk result (λ line. string_bytes line ≡ outcome_line outcome.now ++ 10 ∷ []) }
{
    match outcome {
        Ok(Answer::Hex(bytes)) => {
            let word = hex::encode(alloc, bytes.as_slice())?;
            format!(in alloc; "ok {word}\n")
        }
        Ok(Answer::Text(text)) => format!(in alloc; "ok {text}\n"),
        Ok(Answer::Word(word)) => format!(in alloc; "ok {word}\n"),
        Ok(Answer::Counted(word, count)) => format!(in alloc; "ok {word} {count}\n"),
        Err(refusal) => {
            let name = refusal.name();
            format!(in alloc; "error {name}\n")
        }
    }
}
