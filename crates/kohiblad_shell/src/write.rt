//! Writing to any writer.

ghost use Rattle.std.specs.Prelude.{OnOk, OnErr, IfErr};
ghost use Rattle.kohiblad_shell.specs.Words.{Appends, AppendsPrefix, IsWriteHalt, Keeps};

use crate::halt::{Halt, halt_of_write};
use std::io::Write;

/// Writes all the bytes. After an error, which is the writer's, a prefix of them is written.
pub fn write_bytes<W: Write>(writer: &mut W, bytes: &[u8]) -> Result<(), Halt>
    ensures ok { OnOk result (Appends (W.contents writer.old) (W.contents writer.new) bytes.now) }
    ensures err { OnErr result (AppendsPrefix
        (W.contents writer.old) (W.contents writer.new) bytes.now) }
    ensures refused { IfErr result IsWriteHalt }
{
    let mut rest = bytes;
    while !rest.is_empty() {
        match writer.write(rest) {
            Ok(0) => return Err(Halt::Write),
            Ok(count) => rest = &rest[count..],
            Err(error) => return Err(halt_of_write(&error)),
        }
    }
    Ok(())
}

/// Writes what the writer still holds.
pub fn flush<W: Write>(writer: &mut W) -> Result<(), Halt>
    ensures kept { Keeps (W.contents writer.old) (W.contents writer.new) }
    ensures refused { IfErr result IsWriteHalt }
{
    match writer.flush() {
        Ok(()) => Ok(()),
        Err(error) => Err(halt_of_write(&error)),
    }
}
