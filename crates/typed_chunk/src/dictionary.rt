//! Texts by a list of those that differ, and the place in it of each row's text.

ghost use Rattle.std.specs.Prelude.{◌≡◌, ◌≤◌, ◌<◌, ◌^◌, ◌+◌, ◌++◌, All, OnErr, OnOk};
ghost use Rattle.std.specs.Prelude.{if◌then◌else◌, is_ok, length, take};
ghost use Rattle.typed_vector.specs.Cells.{rows};
ghost use Rattle.typed_chunk.specs.Dictionary.{dictionary_bytes};
ghost use Rattle.typed_chunk.specs.Texts.{AreSpans};

use crate::flags::set_all;
use crate::packed::append_codes;
use crate::texts::append_texts;
use crate::width::Width;
use std::alloc::AllocError;

/// Appends the bytes of a dictionary: one less than the number of its entries, of which there are
/// at most 256; the entries, as the texts of rows that all have one; and for each row the place of
/// its entry, as a code of the least width that the last place has. `all` and `lengths` are room
/// for one flag and one number an entry, and afterwards they may be any. If memory is refused,
/// nothing is appended.
pub fn append_dictionary(
    out: &mut Vec<u8>,
    entries: &[u8],
    offsets: &[usize],
    codes: &[u64],
    all: &mut [bool],
    lengths: &mut [u64],
) -> Result<(), AllocError>
    requires some { 0 < length all.old }
    requires most { length all.old ≤ 256 }
    requires spans { AreSpans (length entries.now) offsets.now }
    requires many { length offsets.now ≡ length all.old + 1 }
    requires short { length entries.now < 2 ^ 32 }
    requires room { length lengths.old ≡ length all.old }
    requires few { length codes.now < 2 ^ 57 }
    requires inside { All (λ code. code < length all.old) codes.now }
    ensures { out.new.items ≡ (if is_ok result
        then out.old.items ++ dictionary_bytes (rows entries.now offsets.now) codes.now
        else out.old.items) }
{
    let kept = out.len();
    match append_parts(out, entries, offsets, codes, all, lengths) {
        Ok(()) => Ok(()),
        Err(error) => {
            out.truncate(kept);
            Err(error)
        }
    }
}

// Appends the number of entries, these, and the codes.
fn append_parts(
    out: &mut Vec<u8>,
    entries: &[u8],
    offsets: &[usize],
    codes: &[u64],
    all: &mut [bool],
    lengths: &mut [u64],
) -> Result<(), AllocError>
    requires some { 0 < length all.old }
    requires most { length all.old ≤ 256 }
    requires spans { AreSpans (length entries.now) offsets.now }
    requires many { length offsets.now ≡ length all.old + 1 }
    requires short { length entries.now < 2 ^ 32 }
    requires room { length lengths.old ≡ length all.old }
    requires few { length codes.now < 2 ^ 57 }
    requires inside { All (λ code. code < length all.old) codes.now }
    ensures ok { OnOk result (out.new.items
        ≡ out.old.items ++ dictionary_bytes (rows entries.now offsets.now) codes.now) }
    ensures err { OnErr result (take (length out.old.items) out.new.items ≡ out.old.items) }
{
    let last = all.len() - 1;
    set_all(all);
    out.extend_from_slice(&[last as u8])?;
    append_texts(out, entries, offsets, all, lengths)?;
    append_codes(out, Width::of(last as u64), codes)?;
    Ok(())
}
