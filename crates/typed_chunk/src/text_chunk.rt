//! The chunk of a column of texts.

ghost use Rattle.std.specs.Prelude.{◌≡◌, ◌<◌, ◌≤◌, ◌^◌, ◌+◌, ◌++◌, ◌∷◌, All, IsTrue, OnErr, OnOk};
ghost use Rattle.std.specs.Prelude.{if◌then◌else◌, is_ok, length, take};
ghost use Rattle.typed_chunk.specs.Dictionary.{dictionary_bytes};
ghost use Rattle.typed_chunk.specs.Flags.{some_has};
ghost use Rattle.typed_chunk.specs.RowTexts.{AreTexts};
ghost use Rattle.typed_chunk.specs.TextChunk.{text_chunk, text_kind};
ghost use Rattle.typed_chunk.specs.TextReading.{are_blank};
ghost use Rattle.typed_chunk.specs.Texts.{AreSpans, text_bytes};
ghost use Rattle.typed_vector.specs.Cells.{rows};

use crate::dictionary::append_dictionary;
use crate::flags::{append_flags, some_has};
use crate::text_kinds::shorter_dictionary;
use crate::texts::append_texts;
use std::alloc::{AllocError, Global};

/// Appends the chunk of a column of texts: which rows have one, as `append_flags` does; and if one
/// has, a byte of the kind, and the texts:
///
/// - 2, as `append_dictionary` does with the dictionary that `find_dictionary` finds, if there is
///   one and these bytes are fewer than the others;
/// - else 0, as `append_texts` does.
///
/// The texts follow one another between the offsets, of which there is one more than rows; a row
/// that has no text has no bytes there. `codes` is room for one code a row, and afterwards they may
/// be any. If memory is refused, nothing is appended.
pub fn append_text_chunk(
    alloc: Global,
    out: &mut Vec<u8>,
    texts: &[u8],
    offsets: &[usize],
    has: &[bool],
    codes: &mut [u64],
) -> Result<(), AllocError>
    requires texts { AreTexts (length texts.now) offsets.now (length has.now) }
    requires blank { IsTrue (are_blank (rows texts.now offsets.now) has.now) }
    requires room { length codes.old ≡ length has.now }
    ensures { out.new.items ≡ (if is_ok result
        then out.old.items ++ text_chunk (rows texts.now offsets.now) has.now
        else out.old.items) }
{
    let kept = out.len();
    match append_parts(alloc, out, texts, offsets, has, codes) {
        Ok(()) => Ok(()),
        Err(error) => {
            out.truncate(kept);
            Err(error)
        }
    }
}

// Appends which rows have a text, and the texts.
fn append_parts(
    alloc: Global,
    out: &mut Vec<u8>,
    texts: &[u8],
    offsets: &[usize],
    has: &[bool],
    codes: &mut [u64],
) -> Result<(), AllocError>
    requires texts { AreTexts (length texts.now) offsets.now (length has.now) }
    requires room { length codes.old ≡ length has.now }
    ensures ok { OnOk result (out.new.items
        ≡ out.old.items ++ text_chunk (rows texts.now offsets.now) has.now) }
    ensures err { OnErr result (take (length out.old.items) out.new.items ≡ out.old.items) }
{
    append_flags(out, has, codes)?;
    if !some_has(has) {
        return Ok(());
    }
    append_kind(alloc, out, texts, offsets, has, codes)?;
    Ok(())
}

// Appends the kind of texts, and they.
fn append_kind(
    alloc: Global,
    out: &mut Vec<u8>,
    texts: &[u8],
    offsets: &[usize],
    has: &[bool],
    codes: &mut [u64],
) -> Result<(), AllocError>
    requires some { IsTrue (some_has has.now) }
    requires texts { AreTexts (length texts.now) offsets.now (length has.now) }
    requires room { length codes.old ≡ length has.now }
    ensures ok { OnOk result (out.new.items
        ≡ out.old.items ++ text_kind (rows texts.now offsets.now) has.now) }
    ensures err { OnErr result (take (length out.old.items) out.new.items ≡ out.old.items) }
{
    if let Some(entries) = shorter_dictionary(alloc, texts, offsets, has, codes)? {
        append_coded(out, &entries.texts, &entries.offsets, codes)?;
        return Ok(());
    }
    out.extend_from_slice(&[0])?;
    append_texts(out, texts, offsets, has, codes)?;
    Ok(())
}

// Appends the kind of a dictionary, and it.
fn append_coded(
    out: &mut Vec<u8>,
    entries: &[u8],
    offsets: &[usize],
    codes: &[u64],
) -> Result<(), AllocError>
    requires some { 1 < length offsets.now }
    requires most { length offsets.now ≤ 257 }
    requires spans { AreSpans (length entries.now) offsets.now }
    requires short { length entries.now < 2 ^ 32 }
    requires few { length codes.now < 2 ^ 57 }
    requires inside { All (λ code. code + 1 < length offsets.now) codes.now }
    ensures ok { OnOk result (out.new.items
        ≡ out.old.items ++ 2 ∷ dictionary_bytes (rows entries.now offsets.now) codes.now) }
    ensures err { OnErr result (take (length out.old.items) out.new.items ≡ out.old.items) }
{
    let count = offsets.len() - 1;
    let mut all = [false; 256];
    let mut lengths = [0; 256];
    let (all, lengths) = (&mut all[..count], &mut lengths[..count]);
    out.extend_from_slice(&[2])?;
    append_dictionary(out, entries, offsets, codes, all, lengths)?;
    Ok(())
}
