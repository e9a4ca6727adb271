//! Texts whose common beginning is put in front of each of them.

ghost use Rattle.std.specs.Prelude.{◌≡◌, ◌+◌, ◌++◌, [], OnErr, OnOk, if◌then◌else◌, length, map};
ghost use Rattle.std.specs.Prelude.{take};
ghost use Rattle.std.specs.List.{concat};
ghost use Rattle.typed_vector.specs.Cells.{rows};
ghost use Rattle.typed_chunk.specs.Texts.{AreSpans};
ghost use Rattle.typed_chunk.specs.TextReading.{offsets_of, with_beginning};

use crate::spans::text_at;
use crate::text_reading::BegunTexts;
use std::alloc::AllocError;

/// Appends the texts of rows that were read, one after another, and writes where each begins and
/// ends among them. There is room for one offset more than rows. If memory is refused, nothing is
/// appended, and the offsets may be any.
pub fn append_whole_texts(
    out: &mut Vec<u8>,
    read: &BegunTexts<'_>,
    offsets: &[usize],
    has: &[bool],
    whole: &mut [usize],
) -> Result<(), AllocError>
    requires spans { AreSpans (length read.now.tails.now) offsets.now }
    requires many { length offsets.now ≡ length has.now + 1 }
    requires room { length whole.old ≡ length has.now + 1 }
    ensures bytes { OnOk result (out.new.items ≡ out.old.items ++ concat
        (with_beginning read.now.start.now (rows read.now.tails.now offsets.now) has.now)) }
    ensures offsets { OnOk result (whole.new ≡ offsets_of (map length
        (with_beginning read.now.start.now (rows read.now.tails.now offsets.now) has.now))) }
    ensures err { OnErr result (out.new.items ≡ out.old.items) }
{
    let kept = out.len();
    match append_rows(out, read.start, read.tails, offsets, has, whole) {
        Ok(()) => Ok(()),
        Err(error) => {
            out.truncate(kept);
            Err(error)
        }
    }
}

// Appends texts that begin so.
fn append_rows(
    out: &mut Vec<u8>,
    start: &[u8],
    tails: &[u8],
    offsets: &[usize],
    has: &[bool],
    whole: &mut [usize],
) -> Result<(), AllocError>
    requires spans { AreSpans (length tails.now) offsets.now }
    requires many { length offsets.now ≡ length has.now + 1 }
    requires room { length whole.old ≡ length has.now + 1 }
    ensures bytes { OnOk result (out.new.items ≡ out.old.items ++ concat
        (with_beginning start.now (rows tails.now offsets.now) has.now)) }
    ensures offsets { OnOk result (whole.new ≡ offsets_of (map length
        (with_beginning start.now (rows tails.now offsets.now) has.now))) }
    ensures err { OnErr result (take (length out.old.items) out.new.items ≡ out.old.items) }
{
    let kept = out.len();
    whole[0] = 0;
    for index in 0..has.len() {
        append_row(out, start, text_at(tails, offsets, index), has[index])?;
        whole[index + 1] = out.len() - kept;
    }
    Ok(())
}

// Appends a text that begins so, or nothing for a row that has none. If memory is refused, the
// beginning may be appended.
#[tactic(auto, using(crate::proofs::SpanLaws::kept_front))]
fn append_row(out: &mut Vec<u8>, start: &[u8], tail: &[u8], has: bool) -> Result<(), AllocError>
    ensures ok { OnOk result (out.new.items
        ≡ out.old.items ++ (if has then start.now ++ tail.now else [])) }
    ensures err { OnErr result (take (length out.old.items) out.new.items ≡ out.old.items) }
{
    if !has {
        return Ok(());
    }
    out.extend_from_slice(start)?;
    out.extend_from_slice(tail)?;
    Ok(())
}
