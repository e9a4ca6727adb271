//! The dictionary that rows' texts have.

ghost use Rattle.std.specs.Prelude.{◌≡◌, ◌<◌, ◌≤◌, ◌+◌, ℕ, IfOk, IfSome, IsTrue, List, None};
ghost use Rattle.std.specs.Prelude.{length, map};
ghost use Rattle.std.specs.List.{concat};
ghost use Rattle.typed_chunk.specs.Entries.{IsDictionaryOf};
ghost use Rattle.typed_chunk.specs.Flags.{some_has};
ghost use Rattle.typed_chunk.specs.Texts.{AreSpans};
ghost use Rattle.typed_vector.specs.Cells.{rows};

use crate::entries::{entries_of, write_places};
use std::alloc::{AllocError, Global};

/// The entries of a dictionary.
#[derive(Drop)]
pub struct Entries {
    /// The bytes of the entries, one after another.
    pub texts: Vec<u8>,
    /// Where each entry begins, and where the last one ends.
    pub offsets: Vec<usize>,
}

/// Finds the dictionary of rows' texts, of which some have one: the texts that differ, ascending by
/// their bytes, and for each row the place of its text among them, 0 for a row that has none. The
/// texts follow one another between the offsets, of which there is one more than rows, and there is
/// room for one place a row. If more than 256 texts differ, there is `None`, and the places may be
/// any, as they may if memory is refused.
pub fn find_dictionary(
    alloc: Global,
    texts: &[u8],
    offsets: &[usize],
    has: &[bool],
    places: &mut [u64],
) -> Result<Option<Entries>, AllocError>
    requires some { IsTrue (some_has has.now) }
    requires spans { AreSpans (length texts.now) offsets.now }
    requires many { length offsets.now ≡ length has.now + 1 }
    requires room { length places.old ≡ length has.now }
    ensures spans { IfOk result (λ found. IfSome found (λ entries.
        AreSpans (length entries.texts.items) entries.offsets.items)) }
    ensures short { IfOk result (λ found. IfSome found (λ entries.
        length entries.texts.items ≤ length texts.now)) }
    ensures most { IfOk result (λ found. IfSome found (λ entries.
        length (rows entries.texts.items entries.offsets.items) ≤ 256)) }
    ensures dictionary { IfOk result (λ found. IfSome found (λ entries.
        IsDictionaryOf (rows texts.now offsets.now) has.now
        (rows entries.texts.items entries.offsets.items) places.new)) }
    ensures one { IfOk result (λ found. IfSome found (λ entries.
        (others : List (List ℕ)) (items : List ℕ)
        → IsDictionaryOf (rows texts.now offsets.now) has.now others items
        → (others ≡ rows entries.texts.items entries.offsets.items) × (items ≡ places.new))) }
    ensures none { IfOk result (λ found. found ≡ None → (others : List (List ℕ)) (items : List ℕ)
        → IsDictionaryOf (rows texts.now offsets.now) has.now others items
        → 256 < length others) }
{
    let Some(entries) = entries_of(alloc, texts, offsets, has)? else {
        return Ok(None);
    };
    write_places(&entries, texts, offsets, has, places);
    Ok(Some(gather(alloc, &entries)?))
}

// Puts texts one after another.
fn gather(alloc: Global, entries: &[&[u8]]) -> Result<Entries, AllocError>
    ensures bytes { IfOk result (λ found.
        found.texts.items ≡ concat (map (λ entry. entry.now) entries.now)) }
    ensures spans { IfOk result (λ found.
        AreSpans (length found.texts.items) found.offsets.items) }
    ensures rows { IfOk result (λ found. rows found.texts.items found.offsets.items
        ≡ map (λ entry. entry.now) entries.now) }
{
    let mut texts = Vec::new(alloc);
    let mut offsets = Vec::new(alloc);
    offsets.push(0)?;
    for entry in entries {
        texts.extend_from_slice(entry)?;
        offsets.push(texts.len())?;
    }
    Ok(Entries { texts, offsets })
}
