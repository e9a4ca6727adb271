//! Looking up the value of a key, and an item, where only a prefix of the bytes is at hand, as a slice of a long
//! value that is fetched piece by piece.

ghost use Rattle.std.specs.Prelude.{◌≡◌, ◌≤◌, ◌<◌, ◌+◌, ◌*◌, ◌^◌, ◌++◌, ◌⊎◌, ◌∷◌, [], ℕ, List};
ghost use Rattle.std.specs.Prelude.{length};
ghost use Rattle.jsonb.specs.Words.{AsksAtMost, Doc, FindsEntry, IsFoundInDocument, IsKeyProgress};
ghost use Rattle.jsonb.specs.Words.{IsIndexProgress, Tree, index_stops, is_name, key_stops};
ghost use Rattle.jsonb.specs.Words.{next_stop, part_start};

use super::{Reads, count_pairs, find_word};
use crate::entries::{Entry, count_under, payloads_end, payloads_end_within};
use jsonb_codec::constants::ARRAY_CONTAINER_TAG;
use jsonb_codec::read_jentry;
use jsonb_value::Error;

/// How far a look-up comes in a prefix of the bytes.
#[derive(Clone, Copy)]
pub enum Progress {
    /// It needs a prefix of this length in bytes, longer than the one at hand.
    Needs(usize),
    /// It found the entry of the value, with its place in the whole. The payload may lie past the
    /// prefix.
    Found(Entry),
    /// There is no such value.
    Absent,
}

/// Looks up a key in `len` bytes that begin with `prefix`, which must not be longer. The result is
/// `Needs` until the prefix has the header, then all entry words, and then all keys: so a caller
/// that fetches what is needed asks at most three times, and then fetches the payload. `Found` and
/// `Absent` say what a look-up in all bytes finds; the payload itself is not read. `InvalidEOF` if
/// the header or an entry word that is read is cut off by the end of all bytes, `InvalidJsonb` if
/// the header is of no kind, or a key of the name's length or the value runs past that end.
pub fn find_key_in_prefix(prefix: &[u8], len: usize, name: &str) -> Result<Progress, Error>
    requires { length prefix.now ≤ len }

    // Whatever bytes follow the prefix: the end that is needed next, or what a look-up in all of
    // them finds.
    ensures bytes { (rest : List ℕ) → length prefix.now + length rest ≡ len
        → IsKeyProgress name.now (prefix.now ++ rest) (length prefix.now) result }

    ensures asks { (rest : List ℕ) → length prefix.now + length rest ≡ len
        → AsksAtMost 3 (length prefix.now) len (key_stops (prefix.now ++ rest)) }

    // If the whole is a document: the entry of the value that `get` returns.
    ensures document { (rest : List ℕ) (t : Tree) → length prefix.now + length rest ≡ len
        → Doc (prefix.now ++ rest) t
        → IsFoundInDocument name.now (prefix.now ++ rest) t (length prefix.now) result }
{
    if let Some(end) = missing(prefix, len, 4) {
        return Ok(Progress::Needs(end));
    }
    let mut reads = Reads::new();
    let Some(count) = count_pairs(prefix, &mut reads)? else {
        return Ok(Progress::Absent);
    };
    if let Some(end) = missing_of_pairs(prefix, len, count) {
        return Ok(Progress::Needs(end));
    }
    match find_at_hand(prefix, len, count, name, &mut reads)? {
        Some(entry) => Ok(Progress::Found(entry)),
        None => Ok(Progress::Absent),
    }
}

/// Looks up the item at an index, counted from 0, of an array in `len` bytes that begin with
/// `prefix`, which must not be longer. The result is `Needs` until the prefix has the header, and
/// then the entry words up to the item's own: so a caller that fetches what is needed asks at most
/// twice, and then fetches the payload. `Found` and `Absent` say what is in all bytes; `Absent` if
/// the index is not below the number of items, or the bytes are not an array. `InvalidEOF` if the
/// header or an entry word that is read is cut off by the end of all bytes, `InvalidJsonb` if the
/// header is of no kind, or the item runs past that end.
pub fn find_index_in_prefix(prefix: &[u8], len: usize, index: usize) -> Result<Progress, Error>
    requires { length prefix.now ≤ len }

    // Whatever bytes follow the prefix: the end that is needed next, or the item's entry in all of
    // them.
    ensures bytes { (rest : List ℕ) → length prefix.now + length rest ≡ len
        → IsIndexProgress index (prefix.now ++ rest) (length prefix.now) result }

    ensures asks { (rest : List ℕ) → length prefix.now + length rest ≡ len
        → AsksAtMost 2 (length prefix.now) len (index_stops index (prefix.now ++ rest)) }
{
    if let Some(end) = missing(prefix, len, 4) {
        return Ok(Progress::Needs(end));
    }
    let Some(count) = count_under(prefix, ARRAY_CONTAINER_TAG)? else {
        return Ok(Progress::Absent);
    };
    if count <= index {
        return Ok(Progress::Absent);
    }
    if let Some(end) = missing(prefix, len, 8 + 4 * index) {
        return Ok(Progress::Needs(end));
    }
    let start = payloads_end(prefix, 4, 4 + 4 * count, index)?;
    let jentry = read_jentry(prefix, 4 + 4 * index)?;
    Ok(Progress::Found(Entry::within(len, start, jentry)?))
}

// The end of what is not at hand of the bytes up to `end`, or to the end of all bytes. `None` if
// they are at hand.
fn missing(prefix: &[u8], len: usize, end: usize) -> Option<usize>
    ensures { result ≡ next_stop (length prefix.now) len (end ∷ []) }
{
    let end = end.min(len);
    if prefix.len() < end { Some(end) } else { None }
}

// The same of the entry words and then of the keys of an object of `count` pairs.
fn missing_of_pairs(prefix: &[u8], len: usize, count: usize) -> Option<usize>
    requires count { count < 2 ^ 29 }
    requires len { length prefix.now ≤ len }
    ensures end { (rest : List ℕ) → length prefix.now + length rest ≡ len
        → result ≡ next_stop (length prefix.now) len
        ((4 + 8 * count) ∷ part_start (prefix.now ++ rest) count count ∷ []) }
    ensures hand { result ≡ None
        → (length prefix.now ≡ len) ⊎ (part_start prefix.now count count ≤ length prefix.now) }
{
    let words = 4 + 8 * count;
    if let Some(end) = missing(prefix, len, words) {
        return Some(end);
    }
    if prefix.len() < words {
        return None;
    }
    missing(prefix, len, payloads_end_within(prefix, 4, words, count))
}

// What a look-up in all bytes finds, where the header, the entry words and the keys are at hand.
fn find_at_hand(
    prefix: &[u8],
    len: usize,
    count: usize,
    name: &str,
    reads: &mut Reads,
) -> Result<Option<Entry>, Error>
    requires count { count < 2 ^ 29 }
    requires reads { reads.old ≤ 1 }
    requires hand { (length prefix.now ≡ len)
        ⊎ (part_start prefix.now count count ≤ length prefix.now) }
    ensures { (rest : List ℕ) → length prefix.now + length rest ≡ len
        → (reads : ℕ) × FindsEntry (λ key answer. answer ≡ is_name name.now key) (length name.now)
        (prefix.now ++ rest) count result reads }
{
    let is_name = |name: &[u8], key: &[u8]| name == key;
    let Some(value) = find_word(prefix, count, name, &is_name, reads)? else {
        return Ok(None);
    };
    Ok(Some(Entry::within(len, value.start, value.jentry)?))
}
