//! The way back from bytes to a chunk of texts.

ghost use Rattle.std.specs.Prelude.{◌≡◌, ◌≤◌, ◌<◌, ◌^◌, ◌+◌, ◌-◌, ◌++◌, ◌∷◌, ℕ, [], All, Bool};
ghost use Rattle.std.specs.Prelude.{IfOk};
ghost use Rattle.std.specs.Prelude.{IfErr, IsTrue, List, None, OnErr, OnOk, Some, get_or, length};
ghost use Rattle.std.specs.Prelude.{map, replicate, true};
ghost use Rattle.typed_chunk.specs.Dictionary.{dictionary_bytes};
ghost use Rattle.typed_chunk.specs.Flags.{flags, flags_fault, some_has};
ghost use Rattle.typed_chunk.specs.TextChunk.{dictionary_shorter, kind_bytes, text_chunk};
ghost use Rattle.typed_chunk.specs.TextChunk.{text_kind};
ghost use Rattle.typed_chunk.specs.TextChunkReading.{IfRead, IsCodedFault, IsKindFault};
ghost use Rattle.typed_chunk.specs.TextChunkReading.{IsPlainFault, IsTextsFault, placed};
ghost use Rattle.typed_chunk.specs.TextChunkReading.{texts_read};
ghost use Rattle.typed_chunk.specs.TextReading.{AreBegun, are_blank, with_beginning};
ghost use Rattle.typed_chunk.specs.Texts.{AreSpans, text_bytes};
ghost use Rattle.typed_chunk.specs.declared.fault.ChunkFault.{ChunkFault};
ghost use Rattle.typed_chunk.specs.declared.fault.ChunkFault.TheVariants.{WrongLength};
ghost use Rattle.typed_vector.specs.Cells.{rows};

use crate::dictionary_reading::read_dictionary;
use crate::fault::{ChunkFault, ReadError};
use crate::flags::{read_flags, some_has};
use crate::found::find_dictionary;
use crate::packed::packed_len;
use crate::parts::behind;
use crate::spans::{text_at, write_lengths};
use crate::text_kinds::begun_size;
use crate::text_reading::{BegunTexts, read_texts};
use crate::width::Width;
use std::alloc::{AllocError, Global};

/// The texts of a chunk, as its bytes have them.
#[derive(Drop)]
pub enum ChunkTexts<'a> {
    /// No row has a text.
    Blank,
    /// The texts of the rows.
    Plain(BegunTexts<'a>),
    /// The texts of a dictionary, so many.
    Coded {
        entries: BegunTexts<'a>,
        count: usize,
    },
}

/// Reads the chunk of a column of texts: which of so many rows have one as there is room for, and
/// the texts, as `append_text_chunk` writes them. Of texts as they are the first offsets say where
/// each ends in the tails; of a dictionary they say it of the entries, and `codes` has for each
/// row the place of its entry. There is room for one offset more than rows, and for 257 at least;
/// `codes` and `lengths` are room for one number a row. What is not said may be any afterwards.
///
/// Bytes that are not those of a chunk of so many rows are refused. The first of these is reported:
///
/// - what `read_flags` reports;
/// - `WrongLength`: there is a byte behind the flags although no row has a text, or there is none
///   although one has;
/// - `NoSuchKind`: the byte of the kind is neither 0 nor 2;
/// - behind a 0, what `read_texts` reports; `WrongLength`: there are bytes behind the texts;
/// - behind a 2, `WrongLength`: there is no byte; what `read_dictionary` reports;
/// - `NotShortestKind`: the texts take fewer bytes by the other kind, or as many and the kind is 2.
pub fn read_text_chunk<'a>(
    alloc: Global,
    bytes: &'a [u8],
    has: &mut [bool],
    codes: &mut [u64],
    lengths: &mut [u64],
    offsets: &mut [usize],
) -> Result<ChunkTexts<'a>, ReadError>
    requires some { 0 < length has.old }
    requires few { length has.old < 2 ^ 48 }
    requires short { length bytes.now < 2 ^ 32 }
    requires codes { length codes.old ≡ length has.old }
    requires lengths { length lengths.old ≡ length has.old }
    requires rows { length has.old < length offsets.old }
    requires entries { 256 < length offsets.old }
    ensures flags { (fault : ChunkFault) → flags_fault (length has.old) bytes.now ≡ Some fault
        → IfRead result (λ found. found ≡ Some fault) }
    ensures fault { (rows : List Bool) (rest : List ℕ) → length rows ≡ length has.old
        → bytes.now ≡ flags rows ++ rest → IfRead result (IsTextsFault rows rest) }
    ensures blank { IfOk result (λ read.
        IsTrue (are_blank (texts_read read offsets.new codes.new has.new) has.new)) }
    ensures ok { IfOk result (λ read.
        bytes.now ≡ text_chunk (texts_read read offsets.new codes.new has.new) has.new) }
    ensures back { (items : List (List ℕ)) (rows : List Bool) → length items ≡ length has.old
        → length rows ≡ length has.old → IsTrue (are_blank items rows)
        → bytes.now ≡ text_chunk items rows → IfRead result (λ found. found ≡ None)
        × IfOk result (λ read. (has.new ≡ rows)
        × (texts_read read offsets.new codes.new rows ≡ items)) }
{
    let rest = read_flags(bytes, codes, has)?;
    read_behind(alloc, rest, has, codes, lengths, offsets)
}

// Reads the texts of rows behind their flags.
fn read_behind<'a>(
    alloc: Global,
    bytes: &'a [u8],
    has: &[bool],
    codes: &mut [u64],
    lengths: &mut [u64],
    offsets: &mut [usize],
) -> Result<ChunkTexts<'a>, ReadError>
    requires few { length has.now < 2 ^ 48 }
    requires short { length bytes.now < 2 ^ 32 }
    requires codes { length codes.old ≡ length has.now }
    requires lengths { length lengths.old ≡ length has.now }
    requires rows { length has.now < length offsets.old }
    requires entries { 256 < length offsets.old }
    ensures fault { IfRead result (IsTextsFault has.now bytes.now) }
    ensures blank { IfOk result (λ read.
        IsTrue (are_blank (texts_read read offsets.new codes.new has.now) has.now)) }
    ensures ok { IfOk result (λ read.
        bytes.now ≡ kind_bytes (texts_read read offsets.new codes.new has.now) has.now) }
    ensures back { (items : List (List ℕ)) → length items ≡ length has.now
        → IsTrue (are_blank items has.now) → bytes.now ≡ kind_bytes items has.now
        → IfRead result (λ found. found ≡ None)
        × IfOk result (λ read. texts_read read offsets.new codes.new has.now ≡ items) }
{
    if !some_has(has) {
        check_empty(bytes)?;
        return Ok(ChunkTexts::Blank);
    }
    if bytes.is_empty() {
        return Err(ReadError::Refused(ChunkFault::WrongLength));
    }
    let rest = behind(bytes, 1);
    read_kind(alloc, bytes[0], rest, has, codes, lengths, offsets)
}

// Whether there are no bytes.
fn check_empty(bytes: &[u8]) -> Result<(), ChunkFault>
    ensures ok { OnOk result (bytes.now ≡ []) }
    ensures err { OnErr result (0 < length bytes.now) }
    ensures fault { IfErr result (λ fault. fault ≡ WrongLength) }
{
    if bytes.is_empty() {
        return Ok(());
    }
    Err(ChunkFault::WrongLength)
}

// Reads texts of a kind.
fn read_kind<'a>(
    alloc: Global,
    kind: u8,
    bytes: &'a [u8],
    has: &[bool],
    codes: &mut [u64],
    lengths: &mut [u64],
    offsets: &mut [usize],
) -> Result<ChunkTexts<'a>, ReadError>
    requires some { IsTrue (some_has has.now) }
    requires few { length has.now < 2 ^ 48 }
    requires short { length bytes.now < 2 ^ 32 }
    requires codes { length codes.old ≡ length has.now }
    requires lengths { length lengths.old ≡ length has.now }
    requires rows { length has.now < length offsets.old }
    requires entries { 256 < length offsets.old }
    ensures fault { IfRead result (IsKindFault has.now kind bytes.now) }
    ensures blank { IfOk result (λ read.
        IsTrue (are_blank (texts_read read offsets.new codes.new has.now) has.now)) }
    ensures ok { IfOk result (λ read. kind ∷ bytes.now
        ≡ text_kind (texts_read read offsets.new codes.new has.now) has.now) }
    ensures back { (items : List (List ℕ)) → length items ≡ length has.now
        → IsTrue (are_blank items has.now) → kind ∷ bytes.now ≡ text_kind items has.now
        → IfRead result (λ found. found ≡ None)
        × IfOk result (λ read. texts_read read offsets.new codes.new has.now ≡ items) }
{
    if kind == 0 {
        let texts = read_plain(
            alloc,
            bytes,
            has,
            codes,
            lengths,
            &mut offsets[..has.len() + 1],
        )?;
        return Ok(ChunkTexts::Plain(texts));
    }
    if kind != 2 {
        return Err(ReadError::Refused(ChunkFault::NoSuchKind));
    }
    if bytes.is_empty() {
        return Err(ReadError::Refused(ChunkFault::WrongLength));
    }
    let count = 1 + usize::from(bytes[0]);
    let entries = read_coded(bytes, has, codes, lengths, &mut offsets[..count + 1])?;
    Ok(ChunkTexts::Coded { entries, count })
}

// Reads texts as they are.
fn read_plain<'a>(
    alloc: Global,
    bytes: &'a [u8],
    has: &[bool],
    codes: &mut [u64],
    lengths: &mut [u64],
    offsets: &mut [usize],
) -> Result<BegunTexts<'a>, ReadError>
    requires some { IsTrue (some_has has.now) }
    requires few { length has.now < 2 ^ 48 }
    requires short { length bytes.now < 2 ^ 32 }
    requires codes { length codes.old ≡ length has.now }
    requires lengths { length lengths.old ≡ length has.now }
    requires ends { length offsets.old ≡ length has.now + 1 }
    ensures fault { IfRead result (IsPlainFault has.now bytes.now) }
    ensures form { IfOk result (λ read.
        AreBegun read.start.now (rows read.tails.now offsets.new) has.now) }
    ensures spans { IfOk result (λ read. AreSpans (length read.tails.now) offsets.new) }
    ensures ok { IfOk result (λ read. 0 ∷ bytes.now ≡ text_kind
        (with_beginning read.start.now (rows read.tails.now offsets.new) has.now) has.now) }
    ensures back { (items : List (List ℕ)) → length items ≡ length has.now
        → IsTrue (are_blank items has.now) → 0 ∷ bytes.now ≡ text_kind items has.now
        → IfRead result (λ found. found ≡ None) × IfOk result (λ read.
        with_beginning read.start.now (rows read.tails.now offsets.new) has.now ≡ items) }
{
    let read = read_texts(bytes, has, lengths, offsets)?;
    if !read.rest.is_empty() {
        return Err(ReadError::Refused(ChunkFault::WrongLength));
    }
    let size = bytes.len();
    let shorter = coded_shorter(alloc, read.start, read.tails, offsets, has, codes, size)?;
    if shorter {
        return Err(ReadError::Refused(ChunkFault::NotShortestKind));
    }
    Ok(read)
}

// Whether texts that all begin so, and take so many bytes, take fewer as a dictionary. Afterwards
// the codes, one for each row, may be any.
fn coded_shorter(
    alloc: Global,
    start: &[u8],
    tails: &[u8],
    offsets: &[usize],
    has: &[bool],
    codes: &mut [u64],
    size: usize,
) -> Result<bool, AllocError>
    requires some { IsTrue (some_has has.now) }
    requires few { length has.now < 2 ^ 57 }
    requires spans { AreSpans (length tails.now) offsets.now }
    requires many { length offsets.now ≡ length has.now + 1 }
    requires form { AreBegun start.now (rows tails.now offsets.now) has.now }
    requires room { length codes.old ≡ length has.now }
    requires long { size ≡ length (text_bytes
        (with_beginning start.now (rows tails.now offsets.now) has.now) has.now) }
    ensures { IfOk result (λ shorter. shorter ≡ dictionary_shorter
        (with_beginning start.now (rows tails.now offsets.now) has.now) has.now) }
{
    let Some(entries) = find_dictionary(alloc, tails, offsets, has, codes)? else {
        return Ok(false);
    };
    Ok(coded_size(start, &entries.texts, &entries.offsets, codes) < size as u128)
}

// How many bytes a dictionary takes of entries that all begin so.
fn coded_size(start: &[u8], entries: &[u8], offsets: &[usize], codes: &[u64]) -> u128
    requires some { 1 < length offsets.now }
    requires most { length offsets.now ≤ 257 }
    requires spans { AreSpans (length entries.now) offsets.now }
    requires few { length codes.now < 2 ^ 57 }
    requires form { AreBegun start.now (rows entries.now offsets.now)
        (replicate (length (rows entries.now offsets.now)) true) }
    ensures { result ≡ length (dictionary_bytes
        (map (λ text. start.now ++ text) (rows entries.now offsets.now)) codes.now) }
{
    let count = offsets.len() - 1;
    let mut lengths = [0; 256];
    let lengths = &mut lengths[..count];
    write_lengths(entries, offsets, 0, lengths);
    let size = begun_size(start.len(), lengths);
    let places = packed_len(Width::of(count as u64 - 1), codes.len());
    1 + size + places as u128
}

// Reads a dictionary, of which the first byte says how many entries it has.
fn read_coded<'a>(
    bytes: &'a [u8],
    has: &[bool],
    places: &mut [u64],
    lengths: &mut [u64],
    ends: &mut [usize],
) -> Result<BegunTexts<'a>, ReadError>
    requires first { 0 < length bytes.now }
    requires some { IsTrue (some_has has.now) }
    requires few { length has.now < 2 ^ 48 }
    requires short { length bytes.now < 2 ^ 32 }
    requires places { length places.old ≡ length has.now }
    requires lengths { length lengths.old ≡ length has.now }
    requires ends { length ends.old ≡ get_or bytes.now 0 0 + 2 }
    ensures fault { IfRead result (IsCodedFault has.now bytes.now) }
    ensures ok { IfOk result (λ read. 2 ∷ bytes.now ≡ text_kind (placed
        (with_beginning read.start.now (rows read.tails.now ends.new)
        (replicate (get_or bytes.now 0 0 + 1) true)) places.new has.now) has.now) }
    ensures back { (items : List (List ℕ)) → length items ≡ length has.now
        → IsTrue (are_blank items has.now) → 2 ∷ bytes.now ≡ text_kind items has.now
        → IfRead result (λ found. found ≡ None) × IfOk result (λ read. placed
        (with_beginning read.start.now (rows read.tails.now ends.new)
        (replicate (get_or bytes.now 0 0 + 1) true)) places.new has.now ≡ items) }
{
    let count = ends.len() - 1;
    let mut all = [false; 256];
    let mut sizes = [0; 256];
    read_entries(
        bytes,
        has,
        &mut all[..count],
        &mut sizes[..count],
        ends,
        places,
        lengths,
    )
}

// Reads a dictionary with room for one flag and one number an entry.
fn read_entries<'a>(
    bytes: &'a [u8],
    has: &[bool],
    all: &mut [bool],
    sizes: &mut [u64],
    ends: &mut [usize],
    places: &mut [u64],
    lengths: &mut [u64],
) -> Result<BegunTexts<'a>, ReadError>
    requires first { 0 < length bytes.now }
    requires some { IsTrue (some_has has.now) }
    requires few { length has.now < 2 ^ 48 }
    requires short { length bytes.now < 2 ^ 32 }
    requires entries { length all.old ≡ get_or bytes.now 0 0 + 1 }
    requires room { length sizes.old ≡ length all.old }
    requires ends { length ends.old ≡ length all.old + 1 }
    requires places { length places.old ≡ length has.now }
    requires lengths { length lengths.old ≡ length has.now }
    ensures fault { IfRead result (IsCodedFault has.now bytes.now) }
    ensures ok { IfOk result (λ read. 2 ∷ bytes.now ≡ text_kind (placed
        (with_beginning read.start.now (rows read.tails.now ends.new)
        (replicate (get_or bytes.now 0 0 + 1) true)) places.new has.now) has.now) }
    ensures back { (items : List (List ℕ)) → length items ≡ length has.now
        → IsTrue (are_blank items has.now) → 2 ∷ bytes.now ≡ text_kind items has.now
        → IfRead result (λ found. found ≡ None) × IfOk result (λ read. placed
        (with_beginning read.start.now (rows read.tails.now ends.new)
        (replicate (get_or bytes.now 0 0 + 1) true)) places.new has.now ≡ items) }
{
    let read = read_dictionary(bytes, has, all, sizes, ends, places)?;
    write_placed(read.tails, ends, places, has, lengths);
    let size = begun_size(read.start.len(), lengths);
    let long = bytes.len() as u128;
    if long < size {
        return Ok(read);
    }
    Err(ReadError::Refused(ChunkFault::NotShortestKind))
}

// Writes how long the text of each row's entry is, and 0 for a row that has none.
fn write_placed(
    entries: &[u8],
    offsets: &[usize],
    places: &[u64],
    has: &[bool],
    lengths: &mut [u64],
)
    requires spans { AreSpans (length entries.now) offsets.now }
    requires inside { All (λ place. place + 1 < length offsets.now) places.now }
    requires rows { length places.now ≡ length has.now }
    requires room { length lengths.old ≡ length has.now }
    ensures { lengths.new
        ≡ map length (placed (rows entries.now offsets.now) places.now has.now) }
{
    for (index, length) in lengths.iter_mut().enumerate() {
        *length = placed_len(entries, offsets, places, has, index);
    }
}

// How long the text of a row's entry is, or 0 for one that has none.
#[tactic(auto, using(crate::proofs::TextChunkReadLaws::placed_steps))]
fn placed_len(entries: &[u8], offsets: &[usize], places: &[u64], has: &[bool], index: usize) -> u64
    requires spans { AreSpans (length entries.now) offsets.now }
    requires inside { All (λ place. place + 1 < length offsets.now) places.now }
    requires rows { length places.now ≡ length has.now }
    requires within { index < length has.now }
    ensures { result ≡ length
        (get_or (placed (rows entries.now offsets.now) places.now has.now) index []) }
{
    let flag = has[index];
    if !flag {
        return 0;
    }
    text_at(entries, offsets, places[index] as usize).len() as u64
}
