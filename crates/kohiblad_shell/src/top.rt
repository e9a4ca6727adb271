//! The first rows in the order of their keys.

ghost use Rattle.std.specs.Prelude.{◌≡◌, OnErr, OnOk, flat_map};
ghost use Rattle.kept_rows.specs.FirstRows.{row_line};
ghost use Rattle.kohiblad_shell.specs.KeptWrites.{KeepsAmongFirst};
ghost use Rattle.kohiblad_shell.specs.Words.{Appends, AppendsPrefix};

use crate::halt::Halt;
use crate::sort::split_keyed;
use crate::write::{flush, write_bytes};
use kept_rows::TopRows;
use std::alloc::Global;
use std::io::{self, ErrorKind, Write};

/// The first rows of those that are written to it, in the order of their keys. Each write is one
/// row after its key, each after its length.
#[derive(Drop)]
pub struct TopSink {
    alloc: Global,
    top: TopRows,
    halt: Option<Halt>,
}

impl TopSink {
    /// No rows, of which at most so many are kept.
    pub fn new(alloc: Global, limit: usize) -> TopSink {
        TopSink {
            alloc,
            top: TopRows::new(alloc, limit),
            halt: None,
        }
    }

    /// Why a row could not be kept, if one could not, or else this.
    pub fn halt_or(&self, halt: Halt) -> Halt {
        self.halt.unwrap_or(halt)
    }

    /// Writes the rows that are kept.
    pub fn write_top<W: Write>(self, writer: &mut W) -> Result<(), Halt> {
        write_kept(self.alloc, self.top, writer)
    }
}

impl Write for TopSink {
    fn write(&mut self, row: &[u8]) -> io::Result<usize> {
        match keep_top(self.alloc, &mut self.top, row) {
            Ok(()) => Ok(row.len()),
            Err(halt) => {
                self.halt = Some(halt);
                Err(io::Error::from(ErrorKind::Other))
            }
        }
    }

    fn flush(&mut self) -> io::Result<()> {
        Ok(())
    }
}

// Adds a row, which stands in these bytes after its key. `Read` if the bytes are no such row.
fn keep_top(alloc: Global, top: &mut TopRows, keyed: &[u8]) -> Result<(), Halt>
    ensures ok { OnOk result (KeepsAmongFirst top.old top.new keyed.now) }
    ensures err { OnErr result (top.new ≡ top.old) }
{
    let Some((row, [])) = split_keyed(keyed) else {
        return Err(Halt::Read);
    };
    Ok(top.add(alloc, row.key, row.line)?)
}

// Writes the rows that are kept. After an error a prefix of them is written.
fn write_kept<W: Write>(alloc: Global, top: TopRows, writer: &mut W) -> Result<(), Halt>
    ensures ok { OnOk result (Appends (W.contents writer.old) (W.contents writer.new)
        (flat_map row_line top.rows)) }
    ensures err { OnErr result (AppendsPrefix (W.contents writer.old) (W.contents writer.new)
        (flat_map row_line top.rows)) }
{
    let bytes = top.into_bytes(alloc)?;
    write_bytes(writer, &bytes)?;
    flush(writer)
}
