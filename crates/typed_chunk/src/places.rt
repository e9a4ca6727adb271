//! Whether a dictionary's entries, and the places of rows in it, are those that are written.

ghost use Rattle.std.specs.Prelude.{◌≡◌, ◌<◌, ◌+◌, All, length, nat_lt};
ghost use Rattle.std.specs.List.{list_all};
ghost use Rattle.std.specs.Result.{result_err};
ghost use Rattle.typed_chunk.specs.Places.{all_used, are_zeros, places_fault, texts_ascend};
ghost use Rattle.typed_chunk.specs.Texts.{AreSpans};
ghost use Rattle.typed_vector.specs.Cells.{rows};
ghost use Rattle.typed_vector.specs.ZoneMap.{set_values};

use crate::fault::ChunkFault;
use crate::flags::{all_have, unset_all};
use crate::spans::text_at;

// Whether entries and places are those that are written. Afterwards the marks, one for each entry,
// may be any.
pub(crate) fn check_places(
    entries: &[u8],
    offsets: &[usize],
    places: &[u64],
    has: &[bool],
    marks: &mut [bool],
) -> Result<(), ChunkFault>
    requires spans { AreSpans (length entries.now) offsets.now }
    requires many { length offsets.now ≡ length marks.old + 1 }
    requires rows { length places.now ≡ length has.now }
    ensures { result_err result
        ≡ places_fault (rows entries.now offsets.now) places.now has.now }
{
    if !texts_ascend(entries, offsets) {
        return Err(ChunkFault::EntriesNotAscending);
    }
    if !all_below(places, marks.len()) {
        return Err(ChunkFault::NoSuchEntry);
    }
    if !are_zeros(places, has) {
        return Err(ChunkFault::PlaceOfNoValue);
    }
    if !all_used(places, has, marks) {
        return Err(ChunkFault::EntryOfNoRow);
    }
    Ok(())
}

// Whether each text is greater by its bytes than the one before it.
fn texts_ascend(texts: &[u8], offsets: &[usize]) -> bool
    requires { AreSpans (length texts.now) offsets.now }
    ensures { result ≡ texts_ascend (rows texts.now offsets.now) }
{
    for index in 2..offsets.len() {
        let before = text_at(texts, offsets, index - 2);
        if !before.cmp(text_at(texts, offsets, index - 1)).is_lt() {
            return false;
        }
    }
    true
}

// Whether each place is below the number of entries.
pub(crate) fn all_below(places: &[u64], count: usize) -> bool
    ensures { result ≡ list_all (λ place. nat_lt place count) places.now }
{
    for place in places {
        if *place >= count as u64 {
            return false;
        }
    }
    true
}

// Whether each row that has no text has the place 0.
#[tactic(auto, using(crate::proofs::PlaceLaws::zero_steps))]
pub(crate) fn are_zeros(places: &[u64], has: &[bool]) -> bool
    requires { length places.now ≡ length has.now }
    ensures { result ≡ are_zeros places.now has.now }
{
    for (index, flag) in has.iter().enumerate() {
        if *flag {
            continue;
        }
        if places[index] != 0 {
            return false;
        }
    }
    true
}

// Whether each entry is that of a row that has a text.
fn all_used(places: &[u64], has: &[bool], marks: &mut [bool]) -> bool
    requires inside { All (λ place. place < length marks.old) places.now }
    requires rows { length places.now ≡ length has.now }
    ensures { result ≡ all_used (length marks.old) (set_values places.now has.now) }
{
    unset_all(marks);
    for (index, flag) in has.iter().enumerate() {
        if !*flag {
            continue;
        }
        marks[places[index] as usize] = true;
    }
    all_have(marks)
}
