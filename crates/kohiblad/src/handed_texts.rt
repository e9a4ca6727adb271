//! Texts that were taken, copied to the caller's buffers.

ghost use Rattle.std.specs.Prelude.{◌-◌, ◌^◌, ◌≡◌, ◌≤◌, List, length, map, ℕ};
ghost use Rattle.kohiblad.specs.Status.{IsCopied};
ghost use Rattle.kohiblad.specs.TakenTexts.{AreRowTextsTaken, AreTextsHandedOver, AreTextsTaken};
ghost use Rattle.kohiblad.specs.TakenTexts.{AreTextsWithin, IsBytesAt, IsBytesRow, IsTextAt};
ghost use Rattle.kohiblad.specs.TakenTexts.{IsTextsOf, low_word, text_outputs};
ghost use Rattle.kohiblad.specs.Words.{meaning_within};

use crate::answer::{NO_ROOM, code};
use crate::located::Places;
use crate::taking::{KohibladTaken, Source, not_taken, taken_answer};
use crate::taking_texts::{BytesType, TakenTexts, source_texts, texts_at};
use std::alloc::Global;

// The greatest offset of 32 bits: those of Arrow have a sign.
const OFFSET_LIMIT: usize = (1 << 31) - 1;

/// Takes the members of rows at the end of a path as texts, or as binary values.
#[tactic(auto, using(crate::proofs::TakenTextLaws::made_texts, crate::proofs::TakenTextLaws::refused_texts))]
pub fn take_texts(
    alloc: Global,
    source: Source<'_>,
    bytes_type: BytesType,
    out: &mut [u8],
    size: &mut usize,
    text_offsets: &mut [usize],
    states: &mut [u8],
) -> KohibladTaken
    ensures { AreTextsTaken AreTextsHandedOver
        (IsBytesRow source.entry.reading bytes_type)
        source.entry.bytes.now source.entry.offsets.now
        (meaning_within source.entry.depth source.entry.path.now)
        (text_outputs out.old out.new size.new text_offsets.old text_offsets.new
        states.old states.new) result }
{
    *size = 0;
    match source_texts(alloc, source, bytes_type) {
        Ok(taken) => hand_over_texts(&taken, out, size, text_offsets, states),
        Err(status) => not_taken(status),
    }
}

/// Takes the members of rows at the end of a path as texts.
#[tactic(auto, using(crate::proofs::TakenTextLaws::made_texts, crate::proofs::TakenTextLaws::refused_texts))]
pub fn take_texts32(
    alloc: Global,
    source: Source<'_>,
    out: &mut [u8],
    size: &mut usize,
    text_offsets: &mut [u32],
    states: &mut [u8],
) -> KohibladTaken
    ensures { AreTextsTaken (AreTextsWithin (2 ^ 31 - 1))
        (IsBytesRow source.entry.reading BytesType.Text)
        source.entry.bytes.now source.entry.offsets.now
        (meaning_within source.entry.depth source.entry.path.now)
        (text_outputs out.old out.new size.new text_offsets.old text_offsets.new
        states.old states.new) result }
{
    *size = 0;
    match source_texts(alloc, source, BytesType::Text) {
        Ok(taken) => hand_over_texts32(&taken, out, size, text_offsets, states),
        Err(status) => not_taken(status),
    }
}

/// Takes the members at the places as texts, or as binary values.
pub fn take_texts_at(
    alloc: Global,
    bytes: &[u8],
    places: Places<'_>,
    bytes_type: BytesType,
    out: &mut [u8],
    size: &mut usize,
    text_offsets: &mut [usize],
    states: &mut [u8],
) -> KohibladTaken
    ensures { AreRowTextsTaken AreTextsHandedOver (IsBytesAt bytes_type bytes.now)
        places.entry
        (text_outputs out.old out.new size.new text_offsets.old text_offsets.new
        states.old states.new) result }
{
    *size = 0;
    match texts_at(alloc, bytes, places, bytes_type) {
        Ok(taken) => hand_over_texts(&taken, out, size, text_offsets, states),
        Err(error) => not_taken(code(error)),
    }
}

/// The same as texts, with offsets of 32 bits.
pub fn take_texts32_at(
    alloc: Global,
    bytes: &[u8],
    places: Places<'_>,
    out: &mut [u8],
    size: &mut usize,
    text_offsets: &mut [u32],
    states: &mut [u8],
) -> KohibladTaken
    ensures { AreRowTextsTaken (AreTextsWithin (2 ^ 31 - 1)) (IsTextAt bytes.now)
        places.entry
        (text_outputs out.old out.new size.new text_offsets.old text_offsets.new
        states.old states.new) result }
{
    *size = 0;
    match texts_at(alloc, bytes, places, BytesType::Text) {
        Ok(taken) => hand_over_texts32(&taken, out, size, text_offsets, states),
        Err(error) => not_taken(code(error)),
    }
}

// Copies out the texts, or says that a buffer is too short.
fn hand_over_texts(
    taken: &TakenTexts,
    out: &mut [u8],
    size: &mut usize,
    text_offsets: &mut [usize],
    states: &mut [u8],
) -> KohibladTaken
    ensures { (rows : List (List ℕ × ℕ)) → IsTextsOf rows taken.now → AreTextsHandedOver rows
        (text_outputs out.old out.new size.new text_offsets.old text_offsets.new
        states.old states.new) result }
{
    *size = taken.texts.len();
    if out.len() < taken.texts.len()
        || text_offsets.len() < taken.offsets.len()
        || states.len() < taken.states.len()
    {
        return not_taken(NO_ROOM);
    }
    copy_in(&taken.texts, out);
    copy_in(&taken.offsets, text_offsets);
    copy_in(&taken.states, states);
    taken_answer(&taken.states)
}

// Copies out the texts, or says that they are too long, or a buffer too short.
#[tactic(auto, using(crate::proofs::TakenTextLaws::short_offsets))]
fn hand_over_texts32(
    taken: &TakenTexts,
    out: &mut [u8],
    size: &mut usize,
    text_offsets: &mut [u32],
    states: &mut [u8],
) -> KohibladTaken
    ensures { (rows : List (List ℕ × ℕ)) → IsTextsOf rows taken.now
        → AreTextsWithin (2 ^ 31 - 1) rows
        (text_outputs out.old out.new size.new text_offsets.old text_offsets.new
        states.old states.new) result }
{
    *size = taken.texts.len();
    if OFFSET_LIMIT < taken.texts.len()
        || out.len() < taken.texts.len()
        || text_offsets.len() < taken.offsets.len()
        || states.len() < taken.states.len()
    {
        return not_taken(NO_ROOM);
    }
    copy_in(&taken.texts, out);
    copy_low_halves(&taken.offsets, text_offsets);
    copy_in(&taken.states, states);
    taken_answer(&taken.states)
}

// Copies the items to the start of the buffer, which has room for them.
fn copy_in<T: Copy>(items: &[T], out: &mut [T])
    requires { length items.now ≤ length out.old }
    ensures { IsCopied items.now out.old out.new }
{
    out[..items.len()].copy_from_slice(items);
}

// Copies the low 32 bits of the words to the start of the buffer, which has room for them.
fn copy_low_halves(words: &[usize], out: &mut [u32])
    requires { length words.now ≤ length out.old }
    ensures { IsCopied (map low_word words.now) out.old out.new }
{
    let mut number = 0;
    for word in words {
        out[number] = low_half(*word);
        number += 1;
    }
}

// The low 32 bits of a word.
fn low_half(word: usize) -> u32
    ensures { result ≡ low_word word }
{
    (word % (1 << 32)) as u32
}
