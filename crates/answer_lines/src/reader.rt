//! The source of lines.

ghost use Rattle.std.specs.Prelude.{ℕ, List, Option, ⊤};
ghost use Rattle.answer_lines.specs.Words.{ReadsAtMost, ReadConsumes};

use std::io::{self, Read, Write};

/// A reader of lines. At each read it has access to the writer of the replies, and may require what
/// was written by then.
pub trait LineReader<W: Write> {
    // The bytes that are still to be read, if they are known.
    ghost remaining: { Self → Option (List ℕ) };

    // Whether the reader may be called while the writer holds these bytes.
    ghost may_ask: { Self → Option (List ℕ) → Type 0 };

    /// Reads once, as `Read::read` does.
    fn ask(&mut self, writer: &W, buffer: &mut [u8]) -> io::Result<usize>
        requires { may_ask self.old (W.contents writer.now) }
        ensures bound { ReadsAtMost result buffer.new }
        ensures bytes { ReadConsumes (remaining self.old) (remaining self.new)
            result buffer.new };
}

/// Every reader is a reader of lines without a requirement.
impl<R: Read, W: Write> LineReader<W> for R {
    ghost remaining = { R.remaining };

    ghost may_ask = { λ _ _. ⊤ };

    fn ask(&mut self, _writer: &W, buffer: &mut [u8]) -> io::Result<usize> {
        self.read(buffer)
    }
}
