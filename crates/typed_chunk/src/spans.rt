//! Texts that follow one another.

ghost use Rattle.std.specs.Prelude.{◌≡◌, ◌<◌, ◌+◌, ◌++◌, [], OnErr, OnOk, get_or, length, map};
ghost use Rattle.std.specs.Prelude.{take};
ghost use Rattle.std.specs.List.{concat};
ghost use Rattle.typed_vector.specs.Cells.{rows};
ghost use Rattle.typed_chunk.specs.Texts.{AreSpans, tails};

use std::alloc::AllocError;

// The text at an index.
pub(crate) fn text_at<'a>(texts: &'a [u8], offsets: &[usize], index: usize) -> &'a [u8]
    requires spans { AreSpans (length texts.now) offsets.now }
    requires within { index + 1 < length offsets.now }
    ensures { result.now ≡ get_or (rows texts.now offsets.now) index [] }
{
    let start = offsets[index];
    let end = offsets[index + 1];
    &texts[start..end]
}

// What is behind so many bytes of the text at an index.
fn tail_at<'a>(texts: &'a [u8], offsets: &[usize], size: usize, index: usize) -> &'a [u8]
    requires spans { AreSpans (length texts.now) offsets.now }
    requires within { index + 1 < length offsets.now }
    ensures { result.now ≡ get_or (tails size (rows texts.now offsets.now)) index [] }
{
    let text = text_at(texts, offsets, index);
    &text[size.min(text.len())..]
}

// Writes how long each text is behind so many bytes.
pub(crate) fn write_lengths(texts: &[u8], offsets: &[usize], size: usize, lengths: &mut [u64])
    requires spans { AreSpans (length texts.now) offsets.now }
    requires room { length offsets.now ≡ length lengths.old + 1 }
    ensures { lengths.new ≡ map length (tails size (rows texts.now offsets.now)) }
{
    for (index, length) in lengths.iter_mut().enumerate() {
        *length = tail_at(texts, offsets, size, index).len() as u64;
    }
}

// Appends what is behind so many bytes of each of so many texts. If memory is refused, some of it
// may be appended.
pub(crate) fn append_tails(
    out: &mut Vec<u8>,
    texts: &[u8],
    offsets: &[usize],
    size: usize,
    count: usize,
) -> Result<(), AllocError>
    requires spans { AreSpans (length texts.now) offsets.now }
    requires many { length offsets.now ≡ count + 1 }
    ensures ok { OnOk result (out.new.items
        ≡ out.old.items ++ concat (tails size (rows texts.now offsets.now))) }
    ensures err { OnErr result (take (length out.old.items) out.new.items ≡ out.old.items) }
{
    for index in 0..count {
        out.extend_from_slice(tail_at(texts, offsets, size, index))?;
    }
    Ok(())
}
