//! A byte order mark at the start of an input.

ghost use Rattle.kohiblad_shell.specs.Words.{PassesMark};

use std::io::BufRead;

/// Takes a byte order mark, if the reader holds one. `false` if it holds none, or cannot be read, and
/// then nothing is taken.
pub fn pass_mark<R: BufRead>(reader: &mut R) -> bool
    ensures { PassesMark (R.remaining reader.old) (R.remaining reader.new) result }
{
    let Ok(held) = reader.fill_buf() else {
        return false;
    };
    if !held.starts_with(&[0xef, 0xbb, 0xbf]) {
        return false;
    }
    reader.consume(3);
    true
}
