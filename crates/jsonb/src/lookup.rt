//! Looking up the value of a key in the bytes, with a counted number of word reads.

mod prefix;
mod reads;

ghost use Rattle.std.specs.Prelude.{◌≡◌, ◌+◌, ◌-◌, ◌*◌, ◌<◌, ◌≤◌, ◌^◌, length, Ok, IfOk};
ghost use Rattle.std.specs.Prelude.{IfErr, IfSome, IsOk, IsOkAnd, OnOk, option_map};
ghost use Rattle.jsonb.specs.Words.{FnReturnsAtPair, OBJECT_CONTAINER_TAG, FindsEntry, FindsKey};
ghost use Rattle.jsonb.specs.Words.{FindsWord};
ghost use Rattle.jsonb.specs.Words.{jentry_at, count_under, part_length, part_start, IsEntryIn};
ghost use Rattle.jsonb.specs.Words.{HasParts, IsRefusal, NoneOfSize, IsFirstUnread};
ghost use Rattle.jsonb.specs.Words.{count_in_header, Doc, FindsPlace, IsEntryAt, Tree};
ghost use Rattle.jsonb.specs.Words.{entry_there, is_name};

use crate::entries::Entry;
use crate::item::JsonbItem;
use jsonb_codec::JEntry;
use jsonb_codec::constants::OBJECT_CONTAINER_TAG;
use jsonb_codec::layer::decode_header;
use jsonb_value::Error;
pub use prefix::{Progress, find_index_in_prefix, find_key_in_prefix};
pub use reads::Reads;

/// A value that a look-up found, and its entry, with the place of its payload.
#[derive(Drop)]
pub struct FoundValue<'a> {
    pub item: JsonbItem<'a>,
    pub entry: Entry,
}

/// The greatest tally at which a look-up may begin.
pub const MAX_READS: u64 = 9_223_372_036_854_775_807;

/// The number of pairs, `None` if the header is that of an array or a scalar. `InvalidEOF` if the
/// header is cut off, `InvalidJsonb` if it is of no kind.
#[tactic(auto, unfolding(crate::specs::Walk::count_under, crate::specs::Lookup::count_in_header))]
pub fn count_pairs(bytes: &[u8], reads: &mut Reads) -> Result<Option<usize>, Error>
    requires { reads.old < 2 ^ 63 }
    ensures value { result ≡ count_under bytes.now OBJECT_CONTAINER_TAG }
    ensures counted { IfOk result (λ count. IfSome count (λ n. n ≡ count_in_header bytes.now)) }
    ensures small { IfOk result (λ count. IfSome count (λ n. n < 2 ^ 29)) }
    ensures cost { OnOk result (reads.new ≡ reads.old + 1) }
    ensures bound { (reads.old ≤ reads.new) × (reads.new ≤ reads.old + 1) }
    ensures refused { IfErr result IsRefusal }
{
    match decode_header(reads.word(bytes, 0)?)? {
        (OBJECT_CONTAINER_TAG, count) => Ok(Some(count)),
        _ => Ok(None),
    }
}

// The entry word with this number: first those of the keys, then those of the values. It is known
// to be there.
#[inline(always)]
#[tactic(auto, unfolding(crate::specs::Parts::part_length))]
fn entry_within(bytes: &[u8], number: usize, reads: &mut Reads) -> JEntry
    requires number { number < 2 ^ 30 }
    requires there { 4 + 4 * number + 4 ≤ length bytes.now }
    requires room { reads.old < u64.MAX }
    ensures value { Ok result ≡ jentry_at bytes.now (4 + 4 * number) }
    ensures long { result.length ≡ part_length bytes.now number }
    ensures short { result.length < 2 ^ 28 }
    ensures word { result.type_code + result.length < 2 ^ 31 }
    ensures cost { reads.new ≡ reads.old + 1 }
{
    JEntry::decode_jentry(reads.word_within(bytes, 4 + 4 * number))
}

// Reads the entry words of the keys where those of all pairs are not there, and so no payload is.
// `InvalidJsonb` if there is a key of this size, `InvalidEOF` if an entry word before it is cut
// off.
#[inline(never)]
fn read_cut_keys(bytes: &[u8], count: usize, size: usize, reads: &mut Reads) -> Result<(), Error>
    requires count { count < 2 ^ 29 }
    requires cut { length bytes.now < 4 + 8 * count }
    requires room { reads.old + count < 2 ^ 64 }
    ensures none { OnOk result (NoneOfSize size bytes.now count count) }
    ensures cost { OnOk result (reads.new ≡ reads.old + count) }
    ensures bound { (reads.old ≤ reads.new) × (reads.new ≤ reads.old + count) }
    ensures unread { IfErr result (IsFirstUnread size bytes.now count) }
    ensures refused { IfErr result IsRefusal }
{
    for pair in 0..count {
        if bytes.len() < 8 + 4 * pair {
            return Err(Error::InvalidEOF);
        }
        let key_size = entry_within(bytes, pair, reads).length as usize;
        if key_size == size {
            return Err(Error::InvalidJsonb);
        }
    }
    Ok(())
}

// A pair whose key was accepted, and the offset at which that key ends.
#[derive(Drop)]
struct Accepted {
    pair: usize,
    end: usize,
}

// Calls `eq_func` on the keys of the name's length, in order, until it accepts one. All entry words
// are there.
#[tactic(auto, using(crate::proofs::PartLaws::before_bound, crate::proofs::PartLaws::part_fits))]
fn matching_key<F: Fn(&[u8], &[u8]) -> bool>(
    bytes: &[u8],
    count: usize,
    name: &[u8],
    eq_func: &F,
    reads: &mut Reads,
) -> Result<Option<Accepted>, Error>
    requires count { count < 2 ^ 29 }
    requires words { 4 + 8 * count ≤ length bytes.now }
    requires callable { (a b : _) → a.now ≡ name.now → length b.now ≡ length name.now
        → F.pre eq_func.now a b }
    requires room { reads.old + count < 2 ^ 64 }
    ensures found { FindsKey (FnReturnsAtPair F.Fn eq_func.now name.now) (length name.now)
        bytes.now count result (reads.new - reads.old) }
    ensures bound { (reads.old ≤ reads.new) × (reads.new ≤ reads.old + count) }
    ensures whole { HasParts bytes.now count → IsOk result }
    ensures refused { IfErr result IsRefusal }
{
    let mut start = 4 + 8 * count;
    for pair in 0..count {
        let jentry = entry_within(bytes, pair, reads);
        let size = jentry.length as usize;
        if size == name.len() {
            let key = Entry::of_word(bytes, start, jentry)?;
            if eq_func(name, key.payload(bytes)) {
                return Ok(Some(Accepted {
                    pair,
                    end: start + size,
                }));
            }
        }
        start += size;
    }
    Ok(None)
}

// The offset of the payload of entry `to`, computed from the entries after `from`, which are there.
#[inline(always)]
#[tactic(auto, using(crate::proofs::PartLaws::before_bound, crate::proofs::PartLaws::part_fits))]
fn skip_parts(bytes: &[u8], count: usize, from: Accepted, to: usize, reads: &mut Reads) -> usize
    requires start { from.end ≡ part_start bytes.now count (from.pair + 1) }
    requires order { from.pair + 1 ≤ to }
    requires count { count < 2 ^ 29 }
    requires small { to < 2 ^ 30 }
    requires words { 4 + 4 * to ≤ length bytes.now }
    requires room { reads.old + (to - from.pair) < 2 ^ 64 }
    ensures start { result ≡ part_start bytes.now count to }
    ensures cost { reads.new + from.pair + 1 ≡ reads.old + to }
{
    let mut place = from.end;
    for number in from.pair + 1..to {
        place += entry_within(bytes, number, reads).length as usize;
    }
    place
}

// The entry word of a value, and the offset at which its payload begins.
#[derive(Clone, Copy)]
struct ValueWord {
    jentry: JEntry,
    start: usize,
}

// The entry word of the value of the first accepted key among `count` pairs, `None` if no key is
// accepted. Nothing after the keys is read but entry words.
#[inline(always)]
#[tactic(auto, using(crate::proofs::PartLaws::before_bound, crate::proofs::PartLaws::part_fits))]
fn find_word<F: Fn(&[u8], &[u8]) -> bool>(
    bytes: &[u8],
    count: usize,
    name: &str,
    eq_func: &F,
    reads: &mut Reads,
) -> Result<Option<ValueWord>, Error>
    requires count { count < 2 ^ 29 }
    requires callable { (a b : _) → a.now ≡ name.now → length b.now ≡ length name.now
        → F.pre eq_func.now a b }
    requires room { reads.old + 2 * count < 2 ^ 64 }
    ensures found { FindsWord (FnReturnsAtPair F.Fn eq_func.now name.now) (length name.now)
        bytes.now count result (reads.new - reads.old) }
    ensures short { IfOk result
        (λ o. IfSome o (λ value. value.jentry.type_code + value.jentry.length < 2 ^ 31)) }
    ensures bound { (reads.old ≤ reads.new) × (reads.new ≤ reads.old + 2 * count) }
    ensures whole { HasParts bytes.now count → IsOk result }
    ensures refused { IfErr result IsRefusal }
{
    // The payloads come after all entry words.
    if bytes.len() < 4 + 8 * count {
        read_cut_keys(bytes, count, name.len(), reads)?;
        return Ok(None);
    }
    let Some(key) = matching_key(bytes, count, name.as_bytes(), eq_func, reads)? else {
        return Ok(None);
    };
    let wanted = count + key.pair;
    let start = skip_parts(bytes, count, key, wanted, reads);
    let jentry = entry_within(bytes, wanted, reads);
    Ok(Some(ValueWord { jentry, start }))
}

/// The entry of the value of the first accepted key among `count` pairs, `None` if no key is
/// accepted. `InvalidEOF` if an entry word that is read is cut off, `InvalidJsonb` if a key of the
/// name's length or the value runs past the end.
#[tactic(auto, using(crate::proofs::PartLaws::before_bound, crate::proofs::PartLaws::part_fits))]
pub fn find_value<F: Fn(&[u8], &[u8]) -> bool>(
    bytes: &[u8],
    count: usize,
    name: &str,
    eq_func: &F,
    reads: &mut Reads,
) -> Result<Option<Entry>, Error>
    requires count { count < 2 ^ 29 }
    requires callable { (a b : _) → a.now ≡ name.now → length b.now ≡ length name.now
        → F.pre eq_func.now a b }
    requires room { reads.old + 2 * count < 2 ^ 64 }
    ensures found { FindsEntry (FnReturnsAtPair F.Fn eq_func.now name.now) (length name.now)
        bytes.now count result (reads.new - reads.old) }
    ensures inside { IfOk result (λ o. IfSome o (IsEntryIn bytes.now)) }
    ensures bound { (reads.old ≤ reads.new) × (reads.new ≤ reads.old + 2 * count) }
    ensures whole { HasParts bytes.now count → IsOk result }
    ensures refused { IfErr result IsRefusal }
{
    let Some(value) = find_word(bytes, count, name, eq_func, reads)? else {
        return Ok(None);
    };
    Ok(Some(Entry::of_word(bytes, value.start, value.jentry)?))
}

/// The entry of the value of a key, with the place of its payload, which is not read. `None` if the
/// object has no such key, or the bytes are not an object. `InvalidEOF` if the header or an entry
/// word that is read is cut off; `InvalidJsonb` if the header is of no kind, or if a key of the
/// name's length or the value runs past the end.
pub fn find_entry(bytes: &[u8], name: &str) -> Result<Option<Entry>, Error>
    ensures bytes { FindsPlace name.now bytes.now result }
    ensures inside { IfOk result (λ o. IfSome o (IsEntryIn bytes.now)) }

    // In a document: the entry of the value that `get` returns.
    ensures document { (t : Tree) → Doc bytes.now t
        → IsOkAnd result (λ found. IsEntryAt (is_name name.now) (length name.now)
        bytes.now t (option_map (entry_there bytes.now) found)) }
{
    let mut reads = Reads::new();
    let Some(count) = count_pairs(bytes, &mut reads)? else {
        return Ok(None);
    };
    let is_name = |name: &[u8], key: &[u8]| name == key;
    find_value(bytes, count, name, &is_name, &mut reads)
}
