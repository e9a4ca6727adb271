//! The way back from bytes to texts.

ghost use Rattle.std.specs.Prelude.{◌≡◌, ◌≤◌, ◌<◌, ◌^◌, ◌+◌, ◌++◌, ◌∷◌, ℕ, pos, All, IfOk, IsOk};
ghost use Rattle.std.specs.Prelude.{IsTrue, List, OnOk, length, map, sum};
ghost use Rattle.std.specs.Result.{result_err};
ghost use Rattle.typed_vector.specs.Cells.{rows};
ghost use Rattle.typed_chunk.specs.Flags.{some_has};
ghost use Rattle.typed_chunk.specs.Frame.{frame, naturals_fault, numbers_in, unsigned_word};
ghost use Rattle.typed_chunk.specs.Texts.{AreSpans, text_bytes};
ghost use Rattle.typed_chunk.specs.TextReading.{AreBegun, are_blank, begun_fault, behind_frame};
ghost use Rattle.typed_chunk.specs.TextReading.{frame_before};
ghost use Rattle.typed_chunk.specs.TextReading.{frame_len, offsets_of, rows_fault, sum_fault};
ghost use Rattle.typed_chunk.specs.TextReading.{texts_fault, with_beginning};

use crate::beginning::common;
use crate::fault::ChunkFault;
use crate::naturals::read_naturals;
use crate::parts::{behind, front};
use crate::spans::text_at;

/// Texts as their bytes have them.
#[derive(Drop)]
pub struct BegunTexts<'a> {
    /// What the text of each row begins with that has one.
    pub start: &'a [u8],
    /// What is behind it of each text, one after another.
    pub tails: &'a [u8],
    /// The bytes behind the texts.
    pub rest: &'a [u8],
}

/// Reads the texts of rows, of which some have one, and says where each ends in the tails: there is
/// room for one offset more than rows. `lengths` is room for one number a row, and afterwards they
/// may be any. Bytes that do not begin as these rows are written are refused, and then the offsets
/// may be any. The first of these is reported:
///
/// - `WrongLength`: there is no byte, or there are fewer than those of the beginning;
/// - `WrongLength`: there are fewer than 5 bytes behind it;
/// - `NoSuchWidth`: lengths never have so many bits as the first of these says;
/// - `WrongLength`: there are fewer bytes than those of so many lengths;
/// - `BitsPastEnd`: a bit past the last length is set;
/// - `NotLeastWidth`: all lengths above the least fit a lower width;
/// - `NotLeastValue`: no length is the least;
/// - `ValueOutOfRange`: the greatest length does not fit 4 bytes;
/// - `WrongLength`: there are fewer bytes than the lengths say;
/// - `TextOfNoValue`: a row that has no text has bytes;
/// - `NotLongestBeginning`: all texts go on alike, and the beginning has fewer than 255 bytes.
pub fn read_texts<'a>(
    bytes: &'a [u8],
    has: &[bool],
    lengths: &mut [u64],
    offsets: &mut [usize],
) -> Result<BegunTexts<'a>, ChunkFault>
    requires some { IsTrue (some_has has.now) }
    requires few { length has.now < 2 ^ 48 }
    requires short { length bytes.now < 2 ^ 32 }
    requires room { length lengths.old ≡ length has.now }
    requires ends { length offsets.old ≡ length has.now + 1 }
    ensures fault { result_err result ≡ texts_fault has.now bytes.now }
    ensures spans { IfOk result (λ read. AreSpans (length read.tails.now) offsets.new) }
    ensures form { IfOk result (λ read.
        AreBegun read.start.now (rows read.tails.now offsets.new) has.now) }
    ensures ok { IfOk result (λ read. bytes.now ≡ text_bytes
        (with_beginning read.start.now (rows read.tails.now offsets.new) has.now) has.now
        ++ read.rest.now) }
    ensures back { (items : List (List ℕ)) (rest : List ℕ) → length items ≡ length has.now
        → IsTrue (are_blank items has.now) → bytes.now ≡ text_bytes items has.now ++ rest
        → IsOk result × IfOk result (λ read. (with_beginning read.start.now
        (rows read.tails.now offsets.new) has.now ≡ items) × (read.rest.now ≡ rest)) }
{
    if bytes.is_empty() {
        return Err(ChunkFault::WrongLength);
    }
    let end = 1 + usize::from(bytes[0]);
    if bytes.len() < end {
        return Err(ChunkFault::WrongLength);
    }
    let start = behind(front(bytes, end), 1);
    read_begun(start, behind(bytes, end), has, lengths, offsets)
}

// Reads texts that all begin so, of which the bytes have what is behind that.
fn read_begun<'a>(
    start: &'a [u8],
    bytes: &'a [u8],
    has: &[bool],
    lengths: &mut [u64],
    offsets: &mut [usize],
) -> Result<BegunTexts<'a>, ChunkFault>
    requires low { length start.now ≤ 255 }
    requires some { IsTrue (some_has has.now) }
    requires few { length has.now < 2 ^ 48 }
    requires short { length bytes.now < 2 ^ 32 }
    requires room { length lengths.old ≡ length has.now }
    requires ends { length offsets.old ≡ length has.now + 1 }
    ensures fault { result_err result ≡ begun_fault (length start.now) has.now bytes.now }
    ensures spans { IfOk result (λ read. AreSpans (length read.tails.now) offsets.new) }
    ensures form { IfOk result (λ read.
        AreBegun read.start.now (rows read.tails.now offsets.new) has.now) }
    ensures ok { IfOk result (λ read. length start.now ∷ (start.now ++ bytes.now) ≡ text_bytes
        (with_beginning read.start.now (rows read.tails.now offsets.new) has.now) has.now
        ++ read.rest.now) }
    ensures back { (items : List (List ℕ)) (rest : List ℕ) → length items ≡ length has.now
        → IsTrue (are_blank items has.now)
        → length start.now ∷ (start.now ++ bytes.now) ≡ text_bytes items has.now ++ rest
        → IsOk result × IfOk result (λ read. (with_beginning read.start.now
        (rows read.tails.now offsets.new) has.now ≡ items) × (read.rest.now ≡ rest)) }
{
    let bytes = read_lengths(bytes, lengths)?;
    let size = write_offsets(lengths, bytes.len(), offsets)?;
    let tails = front(bytes, size);
    check_tails(start.len(), tails, offsets, has)?;
    let rest = behind(bytes, size);
    Ok(BegunTexts { start, tails, rest })
}

// Reads as many lengths as there is room for, and answers what is behind them.
fn read_lengths<'a>(bytes: &'a [u8], lengths: &mut [u64]) -> Result<&'a [u8], ChunkFault>
    requires { length lengths.old < 2 ^ 48 }
    ensures fault { result_err result
        ≡ naturals_fault 4 (length lengths.old) (frame_before 4 (length lengths.old) bytes.now) }
    ensures numbers { OnOk result (lengths.new
        ≡ numbers_in 4 (length lengths.old) (frame_before 4 (length lengths.old) bytes.now)) }
    ensures rest { IfOk result (λ rest. rest.now
        ≡ behind_frame 4 (length lengths.old) bytes.now) }
    ensures ok { IfOk result (λ rest. bytes.now
        ≡ frame (unsigned_word 4) (map pos lengths.new) ++ rest.now) }
    ensures back { (items rest : List ℕ) → length items ≡ length lengths.old
        → 0 < length items → All (λ item. item < 256 ^ 4) items
        → bytes.now ≡ frame (unsigned_word 4) (map pos items) ++ rest
        → IsOk result × (lengths.new ≡ items) × IfOk result (λ behind. behind.now ≡ rest) }
{
    let size = frame_len(bytes, lengths.len());
    read_naturals(front(bytes, size.min(bytes.len())), 4, lengths)?;
    Ok(behind(bytes, size))
}

// How many bytes a frame of so many lengths takes that begins so.
fn frame_len(bytes: &[u8], count: usize) -> usize
    requires { count < 2 ^ 48 }
    ensures { result ≡ frame_len 4 count bytes.now }
{
    match bytes {
        [width, ..] => 5 + (count * usize::from(*width)).div_ceil(8),
        [] => 5,
    }
}

// Writes where texts of these lengths begin and end, and answers where the last one ends, which is
// at most there.
fn write_offsets(lengths: &[u64], most: usize, offsets: &mut [usize]) -> Result<usize, ChunkFault>
    requires { length offsets.old ≡ length lengths.now + 1 }
    ensures fault { result_err result ≡ sum_fault most lengths.now }
    ensures size { IfOk result (λ size. size ≡ sum lengths.now) }
    ensures offsets { OnOk result (offsets.new ≡ offsets_of lengths.now) }
{
    let mut end = 0;
    offsets[0] = 0;
    for (index, length) in lengths.iter().enumerate() {
        if *length > (most - end) as u64 {
            return Err(ChunkFault::WrongLength);
        }
        end += *length as usize;
        offsets[index + 1] = end;
    }
    Ok(end)
}

// Whether rows without a text have no bytes, and the others no longer beginning in common, where
// they have so many bytes of it.
fn check_tails(size: usize, tails: &[u8], offsets: &[usize], has: &[bool]) -> Result<(), ChunkFault>
    requires low { size ≤ 255 }
    requires spans { AreSpans (length tails.now) offsets.now }
    requires many { length offsets.now ≡ length has.now + 1 }
    ensures { result_err result ≡ rows_fault size (rows tails.now offsets.now) has.now }
{
    if !are_blank(tails, offsets, has) {
        return Err(ChunkFault::TextOfNoValue);
    }
    if common(255 - size, tails, offsets, has).is_empty() {
        return Ok(());
    }
    Err(ChunkFault::NotLongestBeginning)
}

// Whether each row that has no text has no bytes either.
#[tactic(auto, using(crate::proofs::BegunLaws::blank_steps))]
fn are_blank(texts: &[u8], offsets: &[usize], has: &[bool]) -> bool
    requires spans { AreSpans (length texts.now) offsets.now }
    requires many { length offsets.now ≡ length has.now + 1 }
    ensures { result ≡ are_blank (rows texts.now offsets.now) has.now }
{
    for (index, flag) in has.iter().enumerate() {
        if *flag {
            continue;
        }
        if !text_at(texts, offsets, index).is_empty() {
            return false;
        }
    }
    true
}
