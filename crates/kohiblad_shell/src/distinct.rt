//! The first row of each key.

ghost use Rattle.std.specs.Prelude.{OnErr, OnOk};
ghost use Rattle.kohiblad_shell.specs.KeptWrites.{AppendsPrefixIfNew, WritesIfNew};

use crate::halt::Halt;
use crate::sort::split_keyed;
use crate::write::{flush, write_bytes};
use kept_rows::SeenKeys;
use std::alloc::Global;
use std::io::{self, ErrorKind, Write};

/// A writer that passes on the first row of each key. Each write is one row after its key, each
/// after its length.
#[derive(Drop)]
pub struct FirstRows<W> {
    alloc: Global,
    seen: SeenKeys,
    writer: W,
    halt: Option<Halt>,
}

impl<W: Write> FirstRows<W> {
    /// No rows so far, of which the first ones are to go to this writer.
    pub fn new(alloc: Global, writer: W) -> FirstRows<W> {
        FirstRows {
            alloc,
            seen: SeenKeys::new(alloc),
            writer,
            halt: None,
        }
    }

    /// Why a row could not be passed on, if one could not, or else this.
    pub fn halt_or(&self, halt: Halt) -> Halt {
        self.halt.unwrap_or(halt)
    }

    // Notes why no more rows are taken.
    fn refused(&mut self, halt: Halt) -> io::Error {
        self.halt = Some(halt);
        io::Error::from(ErrorKind::Other)
    }
}

impl<W: Write> Write for FirstRows<W> {
    fn write(&mut self, row: &[u8]) -> io::Result<usize> {
        match write_new(self.alloc, &mut self.seen, row, &mut self.writer) {
            Ok(()) => Ok(row.len()),
            Err(halt) => Err(self.refused(halt)),
        }
    }

    fn flush(&mut self) -> io::Result<()> {
        match flush(&mut self.writer) {
            Ok(()) => Ok(()),
            Err(halt) => Err(self.refused(halt)),
        }
    }
}

// Writes a row, which stands in these bytes after its key, if it is the first of that key. `Read`
// if the bytes are no such row.
fn write_new<W: Write>(
    alloc: Global,
    seen: &mut SeenKeys,
    keyed: &[u8],
    writer: &mut W,
) -> Result<(), Halt>
    ensures ok { OnOk result (WritesIfNew seen.old seen.new
        (W.contents writer.old) (W.contents writer.new) keyed.now) }
    ensures err { OnErr result (AppendsPrefixIfNew seen.old
        (W.contents writer.old) (W.contents writer.new) keyed.now) }
{
    let Some((row, [])) = split_keyed(keyed) else {
        return Err(Halt::Read);
    };
    if seen.add(row.key.to_vec(alloc)?)? {
        write_bytes(writer, row.line)
    } else {
        Ok(())
    }
}
