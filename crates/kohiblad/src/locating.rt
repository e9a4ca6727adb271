//! The calls that find several members of rows in one walk over each row.

ghost use Rattle.std.specs.Prelude.{◌≡◌, ◌≢◌, ◌≤◌, ◌<◌, ◌⊎◌, ◌+◌, ◌*◌, ◌^◌, [], ℕ, List, IfErr};
ghost use Rattle.std.specs.Prelude.{IfOk, IfSome, None, false, length, map, nat_le, true};
ghost use Rattle.std.specs.Borrow.{Bor};
ghost use Rattle.std.specs.List.{AllZip};
ghost use Rattle.typed_vector.specs.Cells.{rest_cell};
ghost use Rattle.kohiblad.specs.Located.{IsCellPlace};
ghost use Rattle.kohiblad.specs.Locating.{AreLocated, AreNamesLocated, ArePlacesWritten};
ghost use Rattle.kohiblad.specs.Locating.{ArePutBehind, AreRowsLocated, IsKnownRow, IsLocated};
ghost use Rattle.kohiblad.specs.Locating.{IsMemberPlace, IsValueOfName, placed_answer, spans};
ghost use Rattle.kohiblad.specs.Locating.{spans_from};
ghost use Rattle.kohiblad.specs.PlacedMembers.{names_ascend};
ghost use Rattle.kohiblad.specs.RowWalks.{IsSoughtIn, IsWalk};
ghost use Rattle.kohiblad.specs.Status.{code, other_kind};
ghost use Rattle.kohiblad.specs.Words.{are_offsets, meaning_within};
ghost use Rattle.kohiblad.specs.declared.places.KohibladPlace.{KohibladPlace};

use crate::answer::{NO_ROOM, NONE, OK, OTHER_KIND, code};
use crate::checked::checked;
use crate::names::read_names;
use crate::places::{KohibladPlace, no_place, place_answer};
use crate::row_walk::RowWalk;
use crate::rows::Rows;
use crate::taking::Reading;
use jsonb::layer::Entry;
use jsonb::{Error, SortKey};
use std::alloc::Global;
use std::cmp::Ordering;

/// Finds the members of rows that have these names, in one walk over each row, and writes their
/// places: of row k and name j of m to `places[k * m + j]`. `names` is the document of an array of
/// texts, which ascend by their bytes. A place has the type and the length of the member's payload,
/// and its offset in the bytes of all rows: the row's own member of that name, also where another
/// has an equal value. It has the status `NONE` if the row has no such member
/// or no bytes, and `InvalidJsonb` if the row is not a document of at most this depth. The calls
/// whose names end in `_at` take values there. `InvalidEOF` if an offset is below the previous one
/// or beyond the bytes; then `InvalidJsonb` if the names are not a document of at most this depth;
/// `OTHER_KIND` if they are not an array of texts, or a text is not greater than the one before it;
/// `OutOfMemory` if an allocation fails, which only the names make; then `NO_ROOM` if `places` has
/// fewer than there are rows times names. If the status is not `OK`, `places` is unchanged. A
/// scalar has depth 0, an array or object one more than its deepest child, and at least 1. Deeper
/// levels are not examined.
#[unsafe(no_mangle)]
pub extern "C" fn kohiblad_locate(
    alloc: Global,
    bytes: &[u8],
    offsets: &[usize],
    names: &[u8],
    depth: usize,
    places: &mut [KohibladPlace],
) -> u32
    ensures { AreLocated (Reading.Checked depth) bytes.now offsets.now
        (meaning_within depth names.now) places.old places.new result }
{
    let reading = Reading::Checked(depth);
    locate(alloc, bytes, offsets, names, depth, reading, places)
}

/// Finds the members of rows as `kohiblad_locate` does, without checking the rows. Of each row that
/// is a document, of any depth, or has no bytes, the places are as that call has them. Of any other
/// bytes each place has the status `NONE`, or is one inside the row. The depth is that of the
/// names.
#[unsafe(no_mangle)]
pub extern "C" fn kohiblad_locate_unchecked(
    alloc: Global,
    bytes: &[u8],
    offsets: &[usize],
    names: &[u8],
    depth: usize,
    places: &mut [KohibladPlace],
) -> u32
    ensures { AreLocated Reading.Unchecked bytes.now offsets.now (meaning_within depth names.now)
        places.old places.new result }
{
    locate(
        alloc,
        bytes,
        offsets,
        names,
        depth,
        Reading::Unchecked,
        places,
    )
}

// Finds the members of rows that have these names.
fn locate(
    alloc: Global,
    bytes: &[u8],
    offsets: &[usize],
    names: &[u8],
    depth: usize,
    reading: Reading,
    places: &mut [KohibladPlace],
) -> u32
    ensures { AreLocated reading bytes.now offsets.now (meaning_within depth names.now)
        places.old places.new result }
{
    if Rows::new(bytes, offsets).is_err() {
        return code(Error::InvalidEOF);
    }
    let Ok(names) = checked(names, depth) else {
        return code(Error::InvalidJsonb);
    };
    match read_names(alloc, names) {
        Ok(Some(names)) => locate_names(alloc, bytes, offsets, &names, reading, places),
        Ok(None) => OTHER_KIND,
        Err(error) => code(error),
    }
}

// For each name that no member is passed before its own.
fn none_passed(alloc: Global, names: usize) -> Result<Vec<usize>, Error>
    ensures ok { IfOk result (λ passed. length passed.items ≡ names) }
    ensures memory { IfErr result (λ e. e ≡ Error.OutOfMemory) }
{
    Ok(vec![in alloc; 0; names]?)
}

// The places of the members that have these names, if they ascend and there is room.
fn locate_names(
    alloc: Global,
    bytes: &[u8],
    offsets: &[usize],
    names: &[&str],
    reading: Reading,
    places: &mut [KohibladPlace],
) -> u32
    requires { are_offsets (length bytes.now) 0 offsets.now ≡ true }
    ensures order { names_ascend None (map (λ name. name.now) names.now) ≡ false
        → (result ≡ other_kind) × (places.new ≡ places.old) }
    ensures written { names_ascend None (map (λ name. name.now) names.now) ≡ true
        → ArePlacesWritten reading bytes.now names.now (spans offsets.now)
        places.old places.new result
        ⊎ ((result ≡ code Error.OutOfMemory) × (places.new ≡ places.old)) }
{
    if !names_ascend(names) {
        return OTHER_KIND;
    }
    let Ok(mut passed) = none_passed(alloc, names.len()) else {
        return code(Error::OutOfMemory);
    };
    let (start, ends) = start_and_ends(offsets);
    locate_all(bytes, start, ends, names, &mut passed, reading, places)
}

// Where the first row begins, and where each row ends.
fn start_and_ends(offsets: &[usize]) -> (usize, &[usize])
    ensures rows { spans_from result.0 result.1.now ≡ spans offsets.entry.now }
    ensures good { (size : ℕ) → are_offsets size 0 offsets.entry.now ≡ true
        → are_offsets size result.0 result.1.now ≡ true }
{
    match offsets.split_first() {
        Some((&start, ends)) => (start, ends),
        None => (0, offsets),
    }
}

// The places of the members that have these names, if there is room.
fn locate_all(
    bytes: &[u8],
    start: usize,
    ends: &[usize],
    names: &[&str],
    passed: &mut [usize],
    reading: Reading,
    places: &mut [KohibladPlace],
) -> u32
    requires offsets { are_offsets (length bytes.now) start ends.now ≡ true }
    requires order { names_ascend None (map (λ name. name.now) names.now) ≡ true }
    requires passed { length passed.old ≡ length names.now }
    ensures { ArePlacesWritten reading bytes.now names.now (spans_from start ends.now)
        places.old places.new result }
{
    if have_room(ends.len(), names.len(), places.len()) {
        locate_rows(bytes, start, ends, names, passed, reading, places);
        return OK;
    }
    NO_ROOM
}

// Whether so many places suffice for rows and names.
fn have_room(rows: usize, names: usize, places: usize) -> bool
    ensures { result ≡ nat_le (rows * names) places }
{
    match rows.checked_mul(names) {
        Some(count) => count <= places,
        None => false,
    }
}

// Whether each name is greater than the one before it.
fn names_ascend(names: &[&str]) -> bool
    ensures { result ≡ names_ascend None (map (λ name. name.now) names.now) }
{
    let Some((first, others)) = names.split_first() else {
        return true;
    };
    let mut before = *first;
    let mut left = others;
    while let Some((name, later)) = left.split_first() {
        if before.cmp(name) != Ordering::Less {
            return false;
        }
        before = *name;
        left = later;
    }
    true
}

// Writes the places for each row: the first begins at `start`, and each other at the end of the
// previous one. `passed` is how many members are between that of each name and the one before it,
// as it was in the last row that has them elsewhere.
fn locate_rows(
    bytes: &[u8],
    start: usize,
    ends: &[usize],
    names: &[&str],
    passed: &mut [usize],
    reading: Reading,
    places: &mut [KohibladPlace],
)
    requires offsets { are_offsets (length bytes.now) start ends.now ≡ true }
    requires order { names_ascend None (map (λ name. name.now) names.now) ≡ true }
    requires passed { length passed.old ≡ length names.now }
    requires room { length ends.now * length names.now ≤ length places.old }
    ensures { AreRowsLocated reading bytes.now names.now (spans_from start ends.now)
        places.old places.new }
{
    let mut start = start;
    let mut left = ends;
    let mut at = 0;
    while let Some((&end, later)) = left.split_first() {
        locate_row(bytes, start, end, names, passed, reading, places, at);
        at += names.len();
        start = end;
        left = later;
    }
}

// Writes the places for the row between these offsets, behind so many others.
fn locate_row(
    bytes: &[u8],
    start: usize,
    end: usize,
    names: &[&str],
    passed: &mut [usize],
    reading: Reading,
    places: &mut [KohibladPlace],
    at: usize,
)
    requires start { start ≤ end }
    requires end { end ≤ length bytes.now }
    requires order { names_ascend None (map (λ name. name.now) names.now) ≡ true }
    requires passed { length passed.old ≡ length names.now }
    requires room { at + length names.now ≤ length places.old }
    ensures { (found : List KohibladPlace)
        × (AreNamesLocated reading bytes.now names.now (start, end) found
        × ArePutBehind at found places.old places.new) }
{
    let row = &bytes[start..end];
    match walk_of(row, reading) {
        Ok(walk) => put_members(start, row, names, walk, passed, places, at),
        Err(place) => put_same(names, place, places, at),
    }
}

// A walk over the members of a row; or the place of all names, if the row has no bytes or is not a
// document.
fn walk_of<'a>(row: &'a [u8], reading: Reading) -> Result<RowWalk<'a>, KohibladPlace>
    ensures some { IfOk result (λ walk. row.entry.now ≡ [] → ⊥) }
    ensures walk { IfOk result IsWalk }
    ensures row { IfOk result (λ walk. walk.row.now ≡ row.entry.now) }
    ensures found { IfOk result (λ walk. (name : List ℕ) → IsSoughtIn name walk) }
    ensures known { IfOk result (λ walk. IsKnownRow reading row.entry.now) }
    ensures same { IfErr result (λ place. (bytes : List ℕ) (name : Bor (List ℕ))
        → IsLocated reading bytes row.entry.now name place) }
    ensures other { IfErr result (λ place. (start : ℕ) (name : Bor (List ℕ))
        → IsValueOfName reading start row.entry.now name place) }
    ensures none { IfErr result (λ place. place.status ≢ 0) }
{
    match reading {
        Reading::Checked(depth) => match SortKey::within(row, depth) {
            SortKey::Document(document) => Ok(RowWalk::new(document.as_bytes())),
            SortKey::Other(bytes) => Err(place_of_bytes(bytes)),
        },
        Reading::Unchecked => {
            if row.is_empty() {
                Err(no_place(NONE))
            } else {
                Ok(RowWalk::new(row))
            }
        }
    }
}

// The place of all names in a row that is not a document.
fn place_of_bytes(row: &[u8]) -> KohibladPlace
    ensures place { (bytes : List ℕ) → IsCellPlace bytes (rest_cell row.now) result }
    ensures none { result.status ≢ 0 }
{
    if row.is_empty() {
        no_place(NONE)
    } else {
        no_place(code(Error::InvalidJsonb))
    }
}

// Writes the places of the members that have these names, behind so many others. The row begins at
// `start`.
fn put_members(
    start: usize,
    row: &[u8],
    names: &[&str],
    walk: RowWalk<'_>,
    passed: &mut [usize],
    places: &mut [KohibladPlace],
    at: usize,
)
    requires end { start + length row.now < 2 ^ 64 }
    requires order { names_ascend None (map (λ name. name.now) names.now) ≡ true }
    requires passed { length passed.old ≡ length names.now }
    requires room { at + length names.now ≤ length places.old }
    requires walk { IsWalk walk }
    requires row { walk.row.now ≡ row.now }
    requires found { (name : List ℕ) → IsSoughtIn name walk }
    ensures { (found : List KohibladPlace)
        × (AllZip (IsMemberPlace start row.now) names.now found
        × ArePutBehind at found places.old places.new) }
{
    let mut walk = walk;
    let mut number = at;
    for name in names {
        let found = walk.place_of(name.as_bytes(), &mut passed[number - at]);
        places[number] = placed_answer(start, found);
        number += 1;
    }
}

// The place in all bytes of an entry that was found in a row, which begins at `start`.
fn placed_answer(start: usize, found: Option<Entry>) -> KohibladPlace
    requires { IfSome found (λ entry. start + entry.start < 2 ^ 64) }
    ensures { result ≡ placed_answer start found }
{
    match found {
        Some(entry) => place_answer(Ok(Some(Entry {
            type_code: entry.type_code,
            start: start + entry.start,
            length: entry.length,
        }))),
        None => place_answer(Ok(None)),
    }
}

// Writes one place for all names, behind so many others.
fn put_same(names: &[&str], place: KohibladPlace, places: &mut [KohibladPlace], at: usize)
    requires { at + length names.now ≤ length places.old }
    ensures { (found : List KohibladPlace)
        × (AllZip (λ (name : Bor (List ℕ)) one. one ≡ place) names.now found
        × ArePutBehind at found places.old places.new) }
{
    let mut number = at;
    for _ in names {
        places[number] = place;
        number += 1;
    }
}
