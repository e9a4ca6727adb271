//! The texts of rows that differ, ascending by their bytes, and the places of the rows' texts.

ghost use Rattle.std.specs.Prelude.{◌≡◌, ◌<◌, ◌≤◌, ◌+◌, ℕ, [], Contains, IfOk, IfSome, IsTrue};
ghost use Rattle.std.specs.Prelude.{None, OnOk, false, get_or, length, map, true};
ghost use Rattle.typed_chunk.specs.Entries.{IsPlaceOf, entries_of, with_entry};
ghost use Rattle.typed_chunk.specs.Places.{texts_ascend};
ghost use Rattle.typed_chunk.specs.Texts.{AreSpans};
ghost use Rattle.typed_vector.specs.Cells.{rows};
ghost use Rattle.typed_vector.specs.ZoneMap.{set_values};

use crate::spans::text_at;
use std::alloc::{AllocError, Global};

// The texts of rows that differ, ascending by their bytes, or `None` if there are more than 256.
pub(crate) fn entries_of<'a>(
    alloc: Global,
    texts: &'a [u8],
    offsets: &[usize],
    has: &[bool],
) -> Result<Option<Vec<&'a [u8]>>, AllocError>
    requires spans { AreSpans (length texts.now) offsets.now }
    requires many { length offsets.now ≡ length has.now + 1 }
    ensures some { IfOk result (λ found. IfSome found (λ entries.
        map (λ entry. entry.now) entries.items
        ≡ entries_of (set_values (rows texts.now offsets.now) has.now))) }
    ensures most { IfOk result (λ found. IfSome found (λ entries. length entries.items ≤ 256)) }
    ensures none { IfOk result (λ found. found ≡ None
        → 256 < length (entries_of (set_values (rows texts.now offsets.now) has.now))) }
{
    let mut entries = Vec::new(alloc);
    for (index, flag) in has.iter().enumerate() {
        if !*flag {
            continue;
        }
        add_entry(&mut entries, text_at(texts, offsets, index))?;
        if entries.len() > 256 {
            return Ok(None);
        }
    }
    Ok(Some(entries))
}

// Puts a text among ascending ones, unless it is there.
fn add_entry<'a>(entries: &mut Vec<&'a [u8]>, text: &'a [u8]) -> Result<(), AllocError>
    requires { IsTrue (texts_ascend (map (λ entry. entry.now) entries.old.items)) }
    ensures { OnOk result (map (λ entry. entry.now) entries.new.items
        ≡ with_entry (map (λ entry. entry.now) entries.old.items) text.now) }
{
    match entries.binary_search(&text) {
        Ok(_) => Ok(()),
        Err(place) => match entries.insert(place, text) {
            Ok(()) => Ok(()),
            Err(_) => Err(AllocError),
        },
    }
}

// Writes the place of each row's text among ascending ones that have all of them, and 0 for a row
// that has none.
pub(crate) fn write_places(
    entries: &[&[u8]],
    texts: &[u8],
    offsets: &[usize],
    has: &[bool],
    places: &mut [u64],
)
    requires ascend { IsTrue (texts_ascend (map (λ entry. entry.now) entries.now)) }
    requires spans { AreSpans (length texts.now) offsets.now }
    requires many { length offsets.now ≡ length has.now + 1 }
    requires room { length places.old ≡ length has.now }
    requires there { (index : ℕ) → index < length has.now → get_or has.now index false ≡ true
        → Contains (map (λ entry. entry.now) entries.now)
        (get_or (rows texts.now offsets.now) index []) }
    ensures set { (index : ℕ) → index < length has.now → get_or has.now index false ≡ true
        → IsPlaceOf (map (λ entry. entry.now) entries.now)
        (get_or (rows texts.now offsets.now) index []) (get_or places.new index 0) }
    ensures unset { (index : ℕ) → index < length has.now → get_or has.now index false ≡ false
        → get_or places.new index 0 ≡ 0 }
{
    for (index, place) in places.iter_mut().enumerate() {
        *place = if has[index] {
            place_of(entries, text_at(texts, offsets, index))
        } else {
            0
        };
    }
}

// The place of a text among ascending ones that have it.
fn place_of(entries: &[&[u8]], text: &[u8]) -> u64
    requires ascend { IsTrue (texts_ascend (map (λ entry. entry.now) entries.now)) }
    requires there { Contains (map (λ entry. entry.now) entries.now) text.now }
    ensures { IsPlaceOf (map (λ entry. entry.now) entries.now) text.now result }
{
    match entries.binary_search(&text) {
        Ok(place) => place as u64,
        Err(_) => 0,
    }
}
