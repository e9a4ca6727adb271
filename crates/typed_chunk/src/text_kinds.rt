//! Which kind of a chunk of texts takes fewer bytes.

ghost use Rattle.std.specs.Prelude.{◌≡◌, ◌<◌, ◌≤◌, ◌^◌, ◌+◌, IfOk, IfSome, IsTrue, is_some, length};
ghost use Rattle.std.specs.Prelude.{map, pos, sum};
ghost use Rattle.typed_chunk.specs.Dictionary.{dictionary_bytes};
ghost use Rattle.typed_chunk.specs.Entries.{IsDictionaryOf};
ghost use Rattle.typed_chunk.specs.Flags.{some_has};
ghost use Rattle.typed_chunk.specs.Frame.{frame, unsigned_word};
ghost use Rattle.typed_chunk.specs.TextChunk.{dictionary_shorter};
ghost use Rattle.typed_chunk.specs.Texts.{AreSpans, text_bytes};
ghost use Rattle.typed_vector.specs.Cells.{rows};

use crate::beginning::common;
use crate::found::{Entries, find_dictionary};
use crate::headed::width_of;
use crate::naturals::{least_number, lower};
use crate::packed::packed_len;
use crate::spans::write_lengths;
use crate::width::Width;
use std::alloc::{AllocError, Global};

// The dictionary of texts, if it takes fewer bytes than they do. Then the codes, one for each row,
// are its places; else they may be any.
pub(crate) fn shorter_dictionary(
    alloc: Global,
    texts: &[u8],
    offsets: &[usize],
    has: &[bool],
    codes: &mut [u64],
) -> Result<Option<Entries>, AllocError>
    requires some { IsTrue (some_has has.now) }
    requires few { length has.now < 2 ^ 57 }
    requires spans { AreSpans (length texts.now) offsets.now }
    requires many { length offsets.now ≡ length has.now + 1 }
    requires room { length codes.old ≡ length has.now }
    ensures spans { IfOk result (λ found. IfSome found (λ entries.
        AreSpans (length entries.texts.items) entries.offsets.items)) }
    ensures short { IfOk result (λ found. IfSome found (λ entries.
        length entries.texts.items ≤ length texts.now)) }
    ensures most { IfOk result (λ found. IfSome found (λ entries.
        length (rows entries.texts.items entries.offsets.items) ≤ 256)) }
    ensures dictionary { IfOk result (λ found. IfSome found (λ entries.
        IsDictionaryOf (rows texts.now offsets.now) has.now
        (rows entries.texts.items entries.offsets.items) codes.new)) }
    ensures shorter { IfOk result (λ found. is_some found
        ≡ dictionary_shorter (rows texts.now offsets.now) has.now) }
{
    let size = texts_size(texts, offsets, has, codes);
    let Some(entries) = find_dictionary(alloc, texts, offsets, has, codes)? else {
        return Ok(None);
    };
    if dictionary_size(&entries.texts, &entries.offsets, codes) < size {
        return Ok(Some(entries));
    }
    Ok(None)
}

// How many bytes the rows' texts take. Afterwards the lengths, one for each row, may be any.
fn texts_size(texts: &[u8], offsets: &[usize], has: &[bool], lengths: &mut [u64]) -> u128
    requires few { length has.now < 2 ^ 57 }
    requires spans { AreSpans (length texts.now) offsets.now }
    requires many { length offsets.now ≡ length has.now + 1 }
    requires room { length lengths.old ≡ length has.now }
    ensures is { result ≡ length (text_bytes (rows texts.now offsets.now) has.now) }
    ensures low { result < 2 ^ 122 }
{
    let start = common(255, texts, offsets, has).len();
    write_lengths(texts, offsets, start, lengths);
    begun_size(start, lengths)
}

// How many bytes texts take that have these lengths behind a beginning of so many bytes.
// Afterwards the lengths may be any.
pub(crate) fn begun_size(start: usize, lengths: &mut [u64]) -> u128
    requires low { start ≤ 255 }
    requires few { length lengths.old < 2 ^ 57 }
    ensures is { result ≡ 1 + start + length (frame (unsigned_word 4) (map pos lengths.old))
        + sum lengths.old }
    ensures low { result < 2 ^ 122 }
{
    let total = total(lengths);
    let least = least_number(lengths);
    lower(least, lengths);
    let size = 6 + start + packed_len(width_of(lengths), lengths.len());
    total + size as u128
}

// The sum of numbers.
fn total(numbers: &[u64]) -> u128
    requires { length numbers.now < 2 ^ 57 }
    ensures is { result ≡ sum numbers.now }
    ensures low { result < 2 ^ 121 }
{
    let mut total = 0;
    for number in numbers {
        total += u128::from(*number);
    }
    total
}

// How many bytes a dictionary takes.
fn dictionary_size(entries: &[u8], offsets: &[usize], codes: &[u64]) -> u128
    requires some { 1 < length offsets.now }
    requires most { length offsets.now ≤ 257 }
    requires spans { AreSpans (length entries.now) offsets.now }
    requires few { length codes.now < 2 ^ 57 }
    ensures { result ≡ length (dictionary_bytes (rows entries.now offsets.now) codes.now) }
{
    let count = offsets.len() - 1;
    let all = [true; 256];
    let mut lengths = [0; 256];
    let size = texts_size(entries, offsets, &all[..count], &mut lengths[..count]);
    let places = packed_len(Width::of(count as u64 - 1), codes.len());
    1 + size + places as u128
}
