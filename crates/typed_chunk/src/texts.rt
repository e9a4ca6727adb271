//! Texts by their common beginning, how long each is behind it, and what is there.

ghost use Rattle.std.specs.Prelude.{◌≡◌, ◌≤◌, ◌<◌, ◌^◌, ◌+◌, ◌++◌, ◌∷◌, OnErr, OnOk};
ghost use Rattle.std.specs.Prelude.{if◌then◌else◌, is_ok, length, take};
ghost use Rattle.typed_vector.specs.Cells.{rows};
ghost use Rattle.typed_chunk.specs.Texts.{AreSpans, begun, text_bytes};

use crate::beginning::common;
use crate::naturals::append_naturals;
use crate::spans::{append_tails, write_lengths};
use std::alloc::AllocError;

/// Appends the bytes of the rows' texts: the length of their longest common beginning, which has at
/// most 255 bytes, and its bytes; then, as a frame of numbers of 4 bytes, how long each text is
/// behind it, and the bytes that are there. A row that has no text counts for the beginning
/// neither way. The texts follow one another between the offsets, of which there is one more than
/// rows. `lengths` is room for one number a row, and afterwards they may be any. If memory is
/// refused, nothing is appended.
pub fn append_texts(
    out: &mut Vec<u8>,
    texts: &[u8],
    offsets: &[usize],
    has: &[bool],
    lengths: &mut [u64],
) -> Result<(), AllocError>
    requires some { 0 < length has.now }
    requires few { length has.now < 2 ^ 57 }
    requires spans { AreSpans (length texts.now) offsets.now }
    requires many { length offsets.now ≡ length has.now + 1 }
    requires short { length texts.now < 2 ^ 32 }
    requires room { length lengths.old ≡ length has.now }
    ensures { out.new.items ≡ (if is_ok result
        then out.old.items ++ text_bytes (rows texts.now offsets.now) has.now
        else out.old.items) }
{
    let start = common(255, texts, offsets, has);
    let kept = out.len();
    match append_begun(out, start, texts, offsets, lengths) {
        Ok(()) => Ok(()),
        Err(error) => {
            out.truncate(kept);
            Err(error)
        }
    }
}

// Appends the bytes of texts that all begin so.
fn append_begun(
    out: &mut Vec<u8>,
    start: &[u8],
    texts: &[u8],
    offsets: &[usize],
    lengths: &mut [u64],
) -> Result<(), AllocError>
    requires low { length start.now ≤ 255 }
    requires some { 0 < length lengths.old }
    requires few { length lengths.old < 2 ^ 57 }
    requires spans { AreSpans (length texts.now) offsets.now }
    requires room { length offsets.now ≡ length lengths.old + 1 }
    requires short { length texts.now < 2 ^ 32 }
    ensures ok { OnOk result (out.new.items
        ≡ out.old.items ++ begun start.now (rows texts.now offsets.now)) }
    ensures err { OnErr result (take (length out.old.items) out.new.items ≡ out.old.items) }
{
    let count = lengths.len();
    write_lengths(texts, offsets, start.len(), lengths);
    append_start(out, start)?;
    append_naturals(out, 4, lengths)?;
    append_tails(out, texts, offsets, start.len(), count)?;
    Ok(())
}

// Appends how many bytes there are, and the bytes.
fn append_start(out: &mut Vec<u8>, start: &[u8]) -> Result<(), AllocError>
    requires { length start.now ≤ 255 }
    ensures { out.new.items ≡ (if is_ok result
        then out.old.items ++ length start.now ∷ start.now else out.old.items) }
{
    out.reserve(1 + start.len())?;
    out.push_reserved(start.len() as u8);
    out.extend_from_slice(start)
}
