//! The calls that take members as texts and binary values: of rows that are checked, of rows that
//! are not, and at places.

ghost use Rattle.std.specs.Prelude.{◌-◌, ◌^◌, [], length};
ghost use Rattle.jsonb_typed.specs.Words.{IsBinary, IsText};
ghost use Rattle.kohiblad.specs.Located.{IsTakenAt, each_of};
ghost use Rattle.kohiblad.specs.TakenTexts.{AreRowTextsTaken, AreTextsHandedOver, AreTextsTaken};
ghost use Rattle.kohiblad.specs.TakenTexts.{AreTextsWithin, IsTextAt, IsTextUnchecked};
ghost use Rattle.kohiblad.specs.TakenTexts.{text_outputs};
ghost use Rattle.kohiblad.specs.Taking.{IsTakenBy};
ghost use Rattle.kohiblad.specs.Words.{meaning_within};
ghost use Rattle.kohiblad.specs.declared.taking.Reading.TheVariants.{Checked, Unchecked};

use crate::handed_texts::{take_texts, take_texts_at, take_texts32, take_texts32_at};
use crate::located::Places;
use crate::places::KohibladPlace;
use crate::taking::{KohibladTaken, Source};
use crate::taking_texts::BytesType;
use std::alloc::Global;

/// Takes the members of rows at the end of a path as texts, and copies them to `out`, one after
/// another, and their length in bytes to `length`. The text of row k, which begins at `offsets[k]`
/// and ends at `offsets[k + 1]`, begins at `text_offsets[k]` and ends at `text_offsets[k + 1]`; so
/// there is one offset more than there are rows, and the first is 0. `states[k]` is 1; or the text
/// is empty, and the state 0 if the row has no such member or no bytes, 2 if the member is null, 3
/// if it is no text, and 4 if the row is not a document of at most this depth. `path` is the
/// document of a path, as `kohiblad_get_path` takes it. The answer counts the rows of states 3 and
/// 4, and names the first of them, or their number if there is none. `InvalidEOF` if an offset is
/// below the previous one or beyond the bytes; then `InvalidJsonb` if the path is not a document of
/// at most this depth; `OTHER_KIND` if it is not an array of texts and whole numbers of 64 bits;
/// `OutOfMemory` if an allocation fails; `NO_ROOM` if `out`, `text_offsets` or `states` is too
/// short. If the status is not `OK`, these are unchanged, the counts are 0, and `length` is 0, or
/// for `NO_ROOM` the length of the texts. A scalar has depth 0, an array or object one more than
/// its deepest child, and at least 1. Deeper levels are not examined.
#[unsafe(no_mangle)]
pub extern "C" fn kohiblad_take_text(
    alloc: Global,
    bytes: &[u8],
    offsets: &[usize],
    path: &[u8],
    depth: usize,
    out: &mut [u8],
    length: &mut usize,
    text_offsets: &mut [usize],
    states: &mut [u8],
) -> KohibladTaken
    ensures { AreTextsTaken AreTextsHandedOver (IsTakenBy IsText [] (Checked depth)) bytes.now
        offsets.now (meaning_within depth path.now) (text_outputs out.old out.new length.new
        text_offsets.old text_offsets.new states.old states.new) result }
{
    let texts = Source::checked(bytes, offsets, path, depth);
    take_texts(
        alloc,
        texts,
        BytesType::Text,
        out,
        length,
        text_offsets,
        states,
    )
}

/// Takes the members of rows at the end of a path as texts, without checking the rows. What holds
/// of them and of the depth is as `kohiblad_take_int64_unchecked` has it, and a text is UTF-8. All
/// else is as `kohiblad_take_text` has it.
#[unsafe(no_mangle)]
pub extern "C" fn kohiblad_take_text_unchecked(
    alloc: Global,
    bytes: &[u8],
    offsets: &[usize],
    path: &[u8],
    depth: usize,
    out: &mut [u8],
    length: &mut usize,
    text_offsets: &mut [usize],
    states: &mut [u8],
) -> KohibladTaken
    ensures { AreTextsTaken AreTextsHandedOver IsTextUnchecked bytes.now offsets.now
        (meaning_within depth path.now) (text_outputs out.old out.new length.new text_offsets.old
        text_offsets.new states.old states.new) result }
{
    let texts = Source::unchecked(bytes, offsets, path, depth);
    take_texts(
        alloc,
        texts,
        BytesType::Text,
        out,
        length,
        text_offsets,
        states,
    )
}

/// Takes the members of rows at the end of a path as texts, with offsets of 32 bits, which are
/// below 2^31, as those of Arrow are. `NO_ROOM` also if the texts have 2^31 bytes or more. All else
/// is as `kohiblad_take_text` has it.
#[unsafe(no_mangle)]
pub extern "C" fn kohiblad_take_text32(
    alloc: Global,
    bytes: &[u8],
    offsets: &[usize],
    path: &[u8],
    depth: usize,
    out: &mut [u8],
    length: &mut usize,
    text_offsets: &mut [u32],
    states: &mut [u8],
) -> KohibladTaken
    ensures { AreTextsTaken (AreTextsWithin (2 ^ 31 - 1)) (IsTakenBy IsText [] (Checked depth))
        bytes.now offsets.now (meaning_within depth path.now) (text_outputs out.old out.new
        length.new text_offsets.old text_offsets.new states.old states.new) result }
{
    let texts32 = Source::checked(bytes, offsets, path, depth);
    take_texts32(alloc, texts32, out, length, text_offsets, states)
}

/// Takes the members of rows at the end of a path as texts, with offsets of 32 bits, as
/// `kohiblad_take_text32` has them, without checking the rows. All else is as
/// `kohiblad_take_text_unchecked` has it.
#[unsafe(no_mangle)]
pub extern "C" fn kohiblad_take_text32_unchecked(
    alloc: Global,
    bytes: &[u8],
    offsets: &[usize],
    path: &[u8],
    depth: usize,
    out: &mut [u8],
    length: &mut usize,
    text_offsets: &mut [u32],
    states: &mut [u8],
) -> KohibladTaken
    ensures { AreTextsTaken (AreTextsWithin (2 ^ 31 - 1)) IsTextUnchecked bytes.now offsets.now
        (meaning_within depth path.now) (text_outputs out.old out.new length.new text_offsets.old
        text_offsets.new states.old states.new) result }
{
    let texts32 = Source::unchecked(bytes, offsets, path, depth);
    take_texts32(alloc, texts32, out, length, text_offsets, states)
}

/// Takes the members of rows at the end of a path as binary values, and copies them to `out`, one
/// after another, and their length in bytes to `length`. The value of row k begins at
/// `value_offsets[k]` and ends at `value_offsets[k + 1]`; where a row has none, it is empty. The
/// state of a row is 3 if its member is neither null nor a binary value. All else is as
/// `kohiblad_take_text` has it.
#[unsafe(no_mangle)]
pub extern "C" fn kohiblad_take_binary(
    alloc: Global,
    bytes: &[u8],
    offsets: &[usize],
    path: &[u8],
    depth: usize,
    out: &mut [u8],
    length: &mut usize,
    value_offsets: &mut [usize],
    states: &mut [u8],
) -> KohibladTaken
    ensures { AreTextsTaken AreTextsHandedOver (IsTakenBy IsBinary [] (Checked depth)) bytes.now
        offsets.now (meaning_within depth path.now) (text_outputs out.old out.new length.new
        value_offsets.old value_offsets.new states.old states.new) result }
{
    let binaries = Source::checked(bytes, offsets, path, depth);
    take_texts(
        alloc,
        binaries,
        BytesType::Binary,
        out,
        length,
        value_offsets,
        states,
    )
}

/// Takes the members of rows at the end of a path as binary values, without checking the rows. What
/// holds of them and of the depth is as `kohiblad_take_int64_unchecked` has it. All else is as
/// `kohiblad_take_binary` has it.
#[unsafe(no_mangle)]
pub extern "C" fn kohiblad_take_binary_unchecked(
    alloc: Global,
    bytes: &[u8],
    offsets: &[usize],
    path: &[u8],
    depth: usize,
    out: &mut [u8],
    length: &mut usize,
    value_offsets: &mut [usize],
    states: &mut [u8],
) -> KohibladTaken
    ensures { AreTextsTaken AreTextsHandedOver (IsTakenBy IsBinary [] Unchecked) bytes.now
        offsets.now (meaning_within depth path.now) (text_outputs out.old out.new length.new
        value_offsets.old value_offsets.new states.old states.new) result }
{
    let binaries = Source::unchecked(bytes, offsets, path, depth);
    take_texts(
        alloc,
        binaries,
        BytesType::Binary,
        out,
        length,
        value_offsets,
        states,
    )
}

/// Takes the members at places, as `kohiblad_locate` writes them, as texts, and copies them to
/// `out`, with their offsets and the states of the rows as `kohiblad_take_text` has them: at the
/// first place, and then at each that is `step` places after the one before it; 0 counts as 1. What
/// holds of the bytes and of other places is as `kohiblad_take_int64_at` has it, and a text is
/// UTF-8. `OutOfMemory` if an allocation fails; `NO_ROOM` if `out`, `text_offsets` or `states` is
/// too short. If the status is not `OK`, these are unchanged, the counts are 0, and `length` is 0,
/// or for `NO_ROOM` the length of the texts.
#[unsafe(no_mangle)]
pub extern "C" fn kohiblad_take_text_at(
    alloc: Global,
    bytes: &[u8],
    places: &[KohibladPlace],
    step: usize,
    out: &mut [u8],
    length: &mut usize,
    text_offsets: &mut [usize],
    states: &mut [u8],
) -> KohibladTaken
    ensures { AreRowTextsTaken AreTextsHandedOver (IsTextAt bytes.now) (each_of step places.now)
        (text_outputs out.old out.new length.new text_offsets.old text_offsets.new states.old
        states.new) result }
{
    let texts = Places::new(places, step);
    take_texts_at(
        alloc,
        bytes,
        texts,
        BytesType::Text,
        out,
        length,
        text_offsets,
        states,
    )
}

/// Takes the members at places as texts, with offsets of 32 bits, as `kohiblad_take_text32` has
/// them. `NO_ROOM` also if the texts have 2^31 bytes or more. All else is as
/// `kohiblad_take_text_at` has it.
#[unsafe(no_mangle)]
pub extern "C" fn kohiblad_take_text32_at(
    alloc: Global,
    bytes: &[u8],
    places: &[KohibladPlace],
    step: usize,
    out: &mut [u8],
    length: &mut usize,
    text_offsets: &mut [u32],
    states: &mut [u8],
) -> KohibladTaken
    ensures { AreRowTextsTaken (AreTextsWithin (2 ^ 31 - 1)) (IsTextAt bytes.now)
        (each_of step places.now) (text_outputs out.old out.new length.new text_offsets.old
        text_offsets.new states.old states.new) result }
{
    let texts32 = Places::new(places, step);
    take_texts32_at(alloc, bytes, texts32, out, length, text_offsets, states)
}

/// Takes the members at places as binary values, as `kohiblad_take_binary` has them. All else is as
/// `kohiblad_take_text_at` has it.
#[unsafe(no_mangle)]
pub extern "C" fn kohiblad_take_binary_at(
    alloc: Global,
    bytes: &[u8],
    places: &[KohibladPlace],
    step: usize,
    out: &mut [u8],
    length: &mut usize,
    value_offsets: &mut [usize],
    states: &mut [u8],
) -> KohibladTaken
    ensures { AreRowTextsTaken AreTextsHandedOver (IsTakenAt IsBinary [] bytes.now)
        (each_of step places.now) (text_outputs out.old out.new length.new value_offsets.old
        value_offsets.new states.old states.new) result }
{
    let binaries = Places::new(places, step);
    take_texts_at(
        alloc,
        bytes,
        binaries,
        BytesType::Binary,
        out,
        length,
        value_offsets,
        states,
    )
}
