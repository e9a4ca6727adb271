//! Writing to any writer.

ghost use Rattle.std.specs.Prelude.{◌++◌, OnOk, OnErr, IsOkUnless};
ghost use Rattle.answer_lines.specs.Words.{Appends, AppendsPrefix, AppendsAllBut};

use crate::run::RunError;
use std::io::Write;

// At most this many bytes are buffered, so that a long reply is not stored twice.
const MOST_WAITING: usize = 1 << 16;

/// Writes all the bytes. `Write` if the writer fails, or accepts no byte; a prefix of the bytes is
/// then written.
pub fn write_bytes<W: Write>(writer: &mut W, bytes: &[u8]) -> Result<(), RunError>
    ensures ok { OnOk result (Appends (W.contents writer.old) (W.contents writer.new) bytes.now) }
    ensures err { OnErr result (AppendsPrefix
        (W.contents writer.old) (W.contents writer.new) bytes.now) }
    ensures refused { IsOkUnless result RunError.Write }
{
    let mut rest = bytes;
    while !rest.is_empty() {
        match writer.write(rest) {
            Ok(0) | Err(_) => return Err(RunError::Write),
            Ok(count) => rest = &rest[count..],
        }
    }
    Ok(())
}

/// Buffers the bytes after those in `waiting`. If the buffer would exceed its limit, or cannot
/// grow, everything is written instead. `Write` if the writer fails, or accepts no byte; a prefix
/// of the buffered bytes followed by these is then written.
pub fn write_later<W: Write>(
    writer: &mut W,
    waiting: &mut Vec<u8>,
    bytes: &[u8],
) -> Result<(), RunError>
    ensures ok { OnOk result (AppendsAllBut waiting.new.items
        (W.contents writer.old) (W.contents writer.new) (waiting.old.items ++ bytes.now)) }
    ensures err { OnErr result (AppendsPrefix
        (W.contents writer.old) (W.contents writer.new) (waiting.old.items ++ bytes.now)) }
    ensures refused { IsOkUnless result RunError.Write }
{
    let fits = bytes.len() <= MOST_WAITING && waiting.len() <= MOST_WAITING - bytes.len();
    if fits && waiting.extend_from_slice(bytes).is_ok() {
        return Ok(());
    }
    write_bytes(writer, waiting)?;
    waiting.clear();
    write_bytes(writer, bytes)
}
