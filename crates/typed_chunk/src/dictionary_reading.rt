//! The way back from bytes to a dictionary.

ghost use Rattle.std.specs.Prelude.{◌≡◌, ◌<◌, ◌^◌, ◌+◌, ◌++◌, ℕ, IfOk, IsOk, List, None, Some};
ghost use Rattle.std.specs.Prelude.{drop, get_or, length, replicate, true};
ghost use Rattle.std.specs.Result.{result_err};
ghost use Rattle.typed_chunk.specs.Dictionary.{dictionary_bytes, dictionary_fault, entry_bytes};
ghost use Rattle.typed_chunk.specs.Places.{places_fault};
ghost use Rattle.typed_chunk.specs.Texts.{AreSpans};
ghost use Rattle.typed_chunk.specs.TextReading.{AreBegun, texts_fault, with_beginning};
ghost use Rattle.typed_chunk.specs.declared.fault.ChunkFault.{ChunkFault};
ghost use Rattle.typed_vector.specs.Cells.{rows};

use crate::fault::ChunkFault;
use crate::flags::set_all;
use crate::parts::behind;
use crate::places::check_places;
use crate::text_reading::{BegunTexts, read_texts};
use crate::unpacked::read_codes;
use crate::width::Width;

/// Reads a dictionary: the texts of its entries, of which there is one more than the first byte
/// says, and for each row the place of its entry, 0 for one that has no text. `all` and `lengths`
/// are room for one flag and one number an entry, and afterwards they may be any; there is room
/// for one offset more. Bytes that are not those of a dictionary of these rows are refused, and
/// then offsets and places may be any. The first of these is reported:
///
/// - what `read_texts` reports of the bytes behind the first;
/// - `WrongLength`: the bytes behind the entries are not as many as those of a code for each row;
/// - `BitsPastEnd`: a bit past the last code is set;
/// - `EntriesNotAscending`: an entry is not greater by its bytes than the one before it;
/// - `NoSuchEntry`: there are no more entries than a place says;
/// - `PlaceOfNoValue`: a row that has no text has another place than 0;
/// - `EntryOfNoRow`: an entry is that of no row that has a text.
pub fn read_dictionary<'a>(
    bytes: &'a [u8],
    has: &[bool],
    all: &mut [bool],
    lengths: &mut [u64],
    offsets: &mut [usize],
    places: &mut [u64],
) -> Result<BegunTexts<'a>, ChunkFault>
    requires first { 0 < length bytes.now }
    requires entries { length all.old ≡ get_or bytes.now 0 0 + 1 }
    requires room { length lengths.old ≡ length all.old }
    requires ends { length offsets.old ≡ length all.old + 1 }
    requires few { length has.now < 2 ^ 48 }
    requires rows { length places.old ≡ length has.now }
    requires short { length bytes.now < 2 ^ 32 }
    ensures texts { (fault : ChunkFault)
        → texts_fault (replicate (length all.old) true) (drop 1 bytes.now) ≡ Some fault
        → result_err result ≡ Some fault }
    ensures fault { (entries : List (List ℕ)) (rest : List ℕ) → length entries ≡ length all.old
        → drop 1 bytes.now ≡ entry_bytes entries ++ rest
        → result_err result ≡ dictionary_fault entries has.now rest }
    ensures back { (entries : List (List ℕ)) (items : List ℕ) → length entries ≡ length all.old
        → length items ≡ length has.now → places_fault entries items has.now ≡ None
        → bytes.now ≡ dictionary_bytes entries items
        → IsOk result × (places.new ≡ items) × IfOk result (λ read. with_beginning
        read.start.now (rows read.tails.now offsets.new) (replicate (length all.old) true)
        ≡ entries) }
    ensures spans { IfOk result (λ read. AreSpans (length read.tails.now) offsets.new) }
    ensures form { IfOk result (λ read. AreBegun read.start.now
        (rows read.tails.now offsets.new) (replicate (length all.old) true)) }
    ensures places { IfOk result (λ read.
        places_fault (rows read.tails.now offsets.new) places.new has.now ≡ None) }
    ensures ok { IfOk result (λ read. bytes.now ≡ dictionary_bytes
        (with_beginning read.start.now (rows read.tails.now offsets.new)
        (replicate (length all.old) true)) places.new) }
{
    set_all(all);
    let read = read_texts(behind(bytes, 1), all, lengths, offsets)?;
    read_codes(Width::of(all.len() as u64 - 1), read.rest, places)?;
    check_places(read.tails, offsets, places, has, all)?;
    Ok(read)
}
