//! Bytes that a reader holds.

ghost use Rattle.std.specs.Prelude.{◌≡◌, ◌≤◌, IfOk, drop, length};
ghost use Rattle.array_items.specs.Words.{PassesBlanks, PassesHeld, error_kind, is_blank};
ghost use Rattle.array_items.specs.Words.{left_after, next_of, read_fault, trimmed};

use std::io::{self, BufRead};

/// Why bytes could not be read.
#[derive(Clone, Copy, Debug, PartialEq, Eq)]
pub enum ReadFault {
    /// The reader failed, or never reached the end of its input.
    Reader,
    /// There is not enough memory.
    Memory,
}

/// What an error of a reader comes to.
pub(crate) fn fault_of(error: &io::Error) -> ReadFault
    ensures { result ≡ read_fault (error_kind error.now) }
{
    match error.kind() {
        io::ErrorKind::OutOfMemory => ReadFault::Memory,
        _ => ReadFault::Reader,
    }
}

// Whether a byte is white space between values.
pub(crate) fn is_blank(byte: u8) -> bool
    ensures { result ≡ is_blank byte }
{
    matches!(byte, b' ' | b'\t' | b'\n' | b'\r')
}

// What a reader has next.
#[derive(Clone, Copy)]
pub(crate) enum Next {
    // A byte that is no white space.
    Byte(u8),
    // Nothing, as no byte is left.
    End,
    // White space was passed over, or a read was interrupted.
    Again,
}

// Passes over white space. The byte that follows it, if one does, which is taken if that is said.
pub(crate) fn next_byte<R: BufRead>(reader: &mut R, is_taken: bool) -> Result<Option<u8>, ReadFault>
    ensures { IfOk result (λ byte.
        PassesBlanks is_taken (R.remaining reader.old) (R.remaining reader.new) byte) }
{
    'passing: for _ in 0..u64::MAX {
        match pass_held(reader, is_taken)? {
            Next::Byte(byte) => return Ok(Some(byte)),
            Next::End => return Ok(None),
            Next::Again => {}
        }
    }
    Err(ReadFault::Reader)
}

// Passes over the white space that a reader holds, and takes the byte after it if that is said.
fn pass_held<R: BufRead>(reader: &mut R, is_taken: bool) -> Result<Next, ReadFault>
    ensures { IfOk result (λ next.
        PassesHeld is_taken (R.remaining reader.old) (R.remaining reader.new) next) }
{
    let held = match reader.fill_buf() {
        Ok(held) => held,
        Err(error) if error.kind() == io::ErrorKind::Interrupted => return Ok(Next::Again),
        Err(error) => return Err(fault_of(&error)),
    };
    if held.is_empty() {
        return Ok(Next::End);
    }
    let (next, count) = look(held, is_taken);
    reader.consume(count);
    Ok(next)
}

// What comes after the white space at the start of these bytes, and how many of them are taken.
fn look(held: &[u8], is_taken: bool) -> (Next, usize)
    ensures within { result.1 ≤ length held.now }
    ensures next { result.0 ≡ next_of (trimmed held.now) }
    ensures rest { drop result.1 held.now ≡ left_after is_taken (trimmed held.now) }
{
    for (index, byte) in held.iter().enumerate() {
        if !is_blank(*byte) {
            let count = if is_taken { index + 1 } else { index };
            return (Next::Byte(*byte), count);
        }
    }
    (Next::Again, held.len())
}
