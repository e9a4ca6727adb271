//! The loop from lines to replies, over any reader and any writer.

ghost use Rattle.std.specs.Prelude.{◌≡◌, ℕ, [], ◌∷◌, ◌++◌, List, Option, OnOk, OnErr, IfOk, IfSome};
ghost use Rattle.std.specs.Prelude.{IsErrOf, IsOkUnless, string_bytes};
ghost use Rattle.answer_lines.specs.Words.{IsAtEnd, IsLine, IsReply, AppendsReplies, AppendsWhole};
ghost use Rattle.answer_lines.specs.Words.{AppendsBeginning, IsPrompt, Memory, reason_of};

use crate::answerer::LineAnswerer;
use crate::reader::LineReader;
use crate::split::split_once;
use crate::write::{write_bytes, write_later};
use std::alloc::{AllocError, Global};
use std::io::Write;

/// Why a run ended early.
#[derive(Clone, Copy, Debug, PartialEq, Eq)]
pub enum RunError {
    /// The reader failed, or never reached the end of its input.
    Read,
    /// The writer failed, or accepted no byte.
    Write,
    /// The allocation of a line or of a reply failed.
    Memory,
}

impl RunError {
    /// What failed, in words: the line on standard error has them after the program's name.
    pub fn reason(self) -> &'static str
        ensures { result.now ≡ reason_of self }
    {
        match self {
            Self::Read => "read failed",
            Self::Write => "write failed",
            Self::Memory => "out of memory",
        }
    }
}

impl From<AllocError> for RunError {
    ghost from_gives = { λ _ e. e ≡ Memory };

    fn from(_error: AllocError) -> RunError {
        RunError::Memory
    }
}

// The reply to a line, given its beginning and its end, with its line feed.
fn reply_to<A: LineAnswerer>(
    alloc: Global,
    answerer: &mut A,
    start: &mut Vec<u8>,
    end: &[u8],
) -> Result<String, RunError>
    ensures ok { IfOk result (λ text. (reply : List ℕ)
        × (IsReply A.rule answerer.old (start.old.items ++ end.now) reply answerer.new
        × (string_bytes text ≡ reply ++ 10 ∷ []))) }
    ensures refused { IsOkUnless result RunError.Memory }
{
    start.extend_from_slice(end)?;
    Ok(answerer.answer(alloc, start)?)
}

// Continues a line that was begun: replies to each line that ends in the chunk, and keeps the rest.
// All replies are written together.
fn answer_chunk<A: LineAnswerer, W: Write>(
    alloc: Global,
    answerer: &mut A,
    writer: &mut W,
    start: &mut Vec<u8>,
    chunk: &[u8],
) -> Result<(), RunError>
    requires { IsLine start.old.items }
    ensures ok { OnOk result (AppendsWhole A.rule answerer.old answerer.new
        (start.old.items ++ chunk.now) start.new.items []
        (W.contents writer.old) (W.contents writer.new)) }
    ensures err { OnErr result ((later : List ℕ) → AppendsBeginning A.rule answerer.old
        (start.old.items ++ (chunk.now ++ later))
        (W.contents writer.old) (W.contents writer.new)) }
    ensures refused { IsErrOf result RunError.Read → ⊥ }
{
    let mut waiting = Vec::new(alloc);
    let mut rest = chunk;
    while let Some((end, later)) = split_once(rest, b'\n') {
        let Ok(reply) = reply_to(alloc, answerer, start, end) else {
            write_bytes(writer, &waiting)?;
            return Err(RunError::Memory);
        };
        write_later(writer, &mut waiting, reply.as_bytes())?;
        start.clear();
        rest = later;
    }
    write_bytes(writer, &waiting)?;
    start.extend_from_slice(rest)?;
    Ok(())
}

// Replies to the last line, if it has no line feed.
fn answer_rest<A: LineAnswerer, W: Write>(
    alloc: Global,
    answerer: &mut A,
    writer: &mut W,
    start: &mut Vec<u8>,
) -> Result<(), RunError>
    requires { IsLine start.old.items }
    ensures ok { OnOk result (AppendsReplies A.rule answerer.old answerer.new start.old.items
        (W.contents writer.old) (W.contents writer.new)) }
    ensures err { OnErr result (AppendsBeginning A.rule answerer.old start.old.items
        (W.contents writer.old) (W.contents writer.new)) }
    ensures refused { IsErrOf result RunError.Read → ⊥ }
{
    if start.is_empty() {
        return Ok(());
    }
    write_bytes(writer, reply_to(alloc, answerer, start, &[])?.as_bytes())
}

/// Writes one reply line for each line of the reader. A line ends at a line feed; what follows the
/// last line feed is a line unless it is empty. All whole lines that were read are answered before
/// the next read, which the reader may require. After `Ok` the input was read to its end, and
/// exactly its replies were written, in order.
///
/// If an answer runs out of memory, its reply is `error OutOfMemory`, and the run continues. After
/// an error, a prefix of the replies was written. `Read`: the reader failed, or was called
/// 18,446,744,073,709,551,615 times without reaching the end of the input. `Write`: the writer
/// failed, or accepted no byte. `Memory`: the allocation of a line or of a reply failed.
pub fn answer_lines<A: LineAnswerer, R: LineReader<W>, W: Write>(
    alloc: Global,
    answerer: &mut A,
    reader: &mut R,
    writer: &mut W,
) -> Result<(), RunError>
    // At each read all whole lines that the reader returned are answered.
    requires { (a : A) (r : R) (start : List ℕ) (now : Option (List ℕ)) → IsPrompt A.rule
        answerer.old a (R.remaining reader.old) (R.remaining r) start (W.contents writer.old) now
        → R.may_ask r now }
    ensures done { OnOk result (IfSome (R.remaining reader.old) (λ input.
        AppendsReplies A.rule answerer.old answerer.new input
        (W.contents writer.old) (W.contents writer.new))) }
    ensures all_read { OnOk result (IsAtEnd (R.remaining reader.new)) }
    ensures beginning { OnErr result (IfSome (R.remaining reader.old) (λ input.
        AppendsBeginning A.rule answerer.old input
        (W.contents writer.old) (W.contents writer.new))) }

    // After a fault of the reader, exactly the whole lines that it returned are answered.
    ensures prompt { IsErrOf result RunError.Read → IfSome (R.remaining reader.old) (λ input.
        IfSome (R.remaining reader.new) (λ left. (start : List ℕ) × AppendsWhole A.rule
        answerer.old answerer.new input start left
        (W.contents writer.old) (W.contents writer.new))) }
{
    let mut start = Vec::new(alloc);
    let mut buffer = [0; 4096];
    'reads: for _ in 0..u64::MAX {
        let Ok(count) = reader.ask(writer, &mut buffer) else {
            return Err(RunError::Read);
        };
        if count == 0 {
            return answer_rest(alloc, answerer, writer, &mut start);
        }
        answer_chunk(alloc, answerer, writer, &mut start, &buffer[..count])?;
    }
    Err(RunError::Read)
}
