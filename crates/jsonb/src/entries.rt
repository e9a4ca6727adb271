//! The entries of arrays and objects, with their places, read from the bytes one by one.

ghost use Rattle.std.specs.Prelude.{◌≡◌, ◌≤◌, ◌<◌, ◌+◌, ◌*◌, ◌^◌, length, IfOk, IfErr, IfSome};
ghost use Rattle.std.specs.Prelude.{Ok, Err, [], slice_get};
ghost use Rattle.std.specs.Iterator.{YieldsFirstBy};
ghost use Rattle.jsonb_codec.specs.declared.constants.TheConstants.{ARRAY_CONTAINER_TAG};
ghost use Rattle.jsonb_codec.specs.declared.constants.TheConstants.{OBJECT_CONTAINER_TAG};
ghost use Rattle.jsonb.specs.Entry.{IsEntryIn, entry_read, entry_there, placed_at, placed_by};
ghost use Rattle.jsonb.specs.Entry.{placed_within};
ghost use Rattle.jsonb.specs.Entries.{Run, entries_of};
ghost use Rattle.jsonb.specs.Entries.{item_run, key_run, left_after, others_left, payloads_end};
ghost use Rattle.jsonb.specs.Entries.{run_from, run_in, value_run};
ghost use Rattle.jsonb.specs.EntryTrees.{AreParts, entry_of_part};
ghost use Rattle.jsonb.specs.Walk.{count_under};

use jsonb_codec::constants::{ARRAY_CONTAINER_TAG, OBJECT_CONTAINER_TAG};
use jsonb_codec::parts::Part;
use jsonb_codec::{JEntry, read_header, read_jentry};
use jsonb_value::Error;
use std::marker::Model;

/// An entry of an array or object: its type, and the offset and length of its payload in bytes.
#[derive(Clone, Copy)]
pub struct Entry {
    pub type_code: u32,
    pub start: usize,
    pub length: usize,
}

impl Entry {
    /// The entry whose word is at `word` and whose payload begins at `start`. `InvalidEOF` if the
    /// word is cut off, `InvalidJsonb` if the payload runs past the end.
    pub fn read(bytes: &[u8], word: usize, start: usize) -> Result<Self, Error>
        ensures value { result ≡ placed_at bytes.now word start }
        ensures inside { IfOk result (IsEntryIn bytes.now) }
    {
        Entry::of_word(bytes, start, read_jentry(bytes, word)?)
    }

    // The entry of this word, whose payload begins at `start`. `InvalidJsonb` if it runs past the
    // end.
    #[inline(always)]
    pub(crate) fn of_word(bytes: &[u8], start: usize, jentry: JEntry) -> Result<Self, Error>
        requires { jentry.type_code + jentry.length < 2 ^ 31 }
        ensures value { result ≡ placed_by bytes.now start jentry }
        ensures inside { IfOk result (IsEntryIn bytes.now) }
    {
        Entry::within(bytes.len(), start, jentry)
    }

    // The same in `len` bytes, of which none are read.
    #[inline(always)]
    pub(crate) fn within(len: usize, start: usize, jentry: JEntry) -> Result<Self, Error>
        ensures value { result ≡ placed_within len start jentry }
        ensures inside { IfOk result (λ entry. (entry.start + entry.length ≤ len)
            × ((entry.type_code ≡ jentry.type_code) × (entry.length ≡ jentry.length))) }
    {
        let length = jentry.length as usize;
        // The last valid start does not depend on `start`, so a look-up among keys of one size
        // finds it once.
        if len < length || len - length < start {
            return Err(Error::InvalidJsonb);
        }
        Ok(Entry {
            type_code: jentry.type_code,
            start,
            length,
        })
    }

    // The same as `read`, where no sum overflows. A cursor goes on from the end of the payload, so
    // testing that end saves a tenth of what a comparison takes.
    #[inline(always)]
    fn read_near(bytes: &[u8], word: usize, start: usize) -> Result<Self, Error>
        requires { start ≤ 2 ^ 63 }
        ensures value { result ≡ placed_at bytes.now word start }
        ensures inside { IfOk result (IsEntryIn bytes.now) }
    {
        let jentry = read_jentry(bytes, word)?;
        let length = jentry.length as usize;
        if bytes.len() < start + length {
            return Err(Error::InvalidJsonb);
        }
        Ok(Entry {
            type_code: jentry.type_code,
            start,
            length,
        })
    }

    /// The bytes of the payload. The entry must be inside these bytes, as one that was read from
    /// them is.
    #[inline(always)]
    pub fn payload<'a>(self, bytes: &'a [u8]) -> &'a [u8]
        requires { IsEntryIn bytes.now self }
        ensures bytes { result.now ≡ (entry_there bytes.entry.now self).payload }
        ensures long { length result.now ≡ self.length }
    {
        &bytes[self.start..self.start + self.length]
    }
}

/// The number of children of a container of this kind, `None` if the header is of another kind.
/// `InvalidEOF` if the header is cut off, `InvalidJsonb` if it is of no kind.
#[tactic(auto, unfolding(crate::specs::Walk::count_under))]
pub fn count_under(bytes: &[u8], tag: u32) -> Result<Option<usize>, Error>
    ensures value { result ≡ count_under bytes.now tag }
    ensures small { IfOk result (λ n. IfSome n (λ n. n < 2 ^ 29)) }
    ensures header { IfOk result (λ _. 4 ≤ length bytes.now) }
{
    let (kind, count) = read_header(bytes, 0)?;
    if kind == tag {
        Ok(Some(count))
    } else {
        Ok(None)
    }
}

/// The offset at which the payloads of `count` entries end. Their words begin at `word`, and their
/// payloads at `start`. `InvalidEOF` if a word is cut off. The words must end at 2^34 at most, the
/// payloads at 2^63 if each has 2^32 bytes; if `count` is 0, `word` must be inside the bytes.
#[inline(always)]
pub fn payloads_end(bytes: &[u8], word: usize, start: usize, count: usize) -> Result<usize, Error>
    requires words { word + 4 * count ≤ 2 ^ 34 }
    requires payloads { start + 2 ^ 32 * count ≤ 2 ^ 63 }
    requires there { count ≡ 0 → word ≤ length bytes.now }
    ensures value { result ≡ payloads_end bytes.now count word start }
    ensures near { IfOk result (λ end. end ≤ start + 2 ^ 32 * count) }
{
    // All words are checked to be present at once, so that the loop has a single exit.
    if bytes.len() < word + 4 * count {
        return Err(Error::InvalidEOF);
    }
    Ok(payloads_end_within(bytes, word, start, count))
}

// The same, where all words are known to be there.
#[inline(always)]
pub(crate) fn payloads_end_within(bytes: &[u8], word: usize, start: usize, count: usize) -> usize
    requires words { word + 4 * count ≤ 2 ^ 34 }
    requires payloads { start + 2 ^ 32 * count ≤ 2 ^ 63 }
    requires there { word + 4 * count ≤ length bytes.now }
    ensures value { Ok result ≡ payloads_end bytes.now count word start }
    ensures near { result ≤ start + 2 ^ 32 * count }
{
    let mut words = &bytes[word..word + 4 * count];
    let mut end = start;
    while let Ok(entry) = read_jentry(words, 0) {
        end += entry.length as usize;
        words = &words[4..];
    }
    end
}

/// A position among the entries of an array or object, from which they are read one by one up to
/// the first error: the offset of the next entry word, the offset of its payload, and the number of
/// entries left.
#[derive(Drop)]
pub struct Cursor<'a> {
    bytes: &'a [u8],
    word: usize,
    start: usize,
    left: usize,
}

impl<'a> Model for Cursor<'a> {
    ghost Value = { Run };

    ghost view = { λ s. run_from s.bytes.now s.left s.word s.start };

    ghost invariant = { λ s. (s.word + 4 * s.left ≤ 2 ^ 34)
        × (s.start + 2 ^ 32 * s.left ≤ 2 ^ 63) };
}

impl<'a> Cursor<'a> {
    // A cursor at the first of `left` entries.
    #[inline(always)]
    fn new(bytes: &'a [u8], word: usize, start: usize, left: usize) -> Self
        requires few { left < 2 ^ 30 }
        requires word { word ≤ 2 ^ 33 }
        requires start { start ≤ 2 ^ 62 }
        ensures { result ≡ run_from bytes.entry.now left word start }
    {
        Cursor {
            bytes,
            word,
            start,
            left,
        }
    }

    /// All entries of an array or object: of an object those of its keys and then those of its
    /// values. A scalar has none. `InvalidEOF` if the header is cut off, `InvalidJsonb` if it is of
    /// no kind.
    pub fn over_entries(bytes: &'a [u8]) -> Result<Self, Error>
        ensures { result ≡ run_in bytes.entry.now }
    {
        let count = match read_header(bytes, 0)? {
            (ARRAY_CONTAINER_TAG, count) => count,
            (OBJECT_CONTAINER_TAG, count) => 2 * count,
            _ => 0,
        };
        Ok(Cursor::new(bytes, 4, 4 + 4 * count, count))
    }

    /// The entries of an array of `count` items, which must be below 2^29, as in a header.
    #[inline(always)]
    pub fn over_items(bytes: &'a [u8], count: usize) -> Self
        requires { count < 2 ^ 29 }
        ensures { result ≡ item_run bytes.entry.now count }
    {
        Cursor::new(bytes, 4, 4 + 4 * count, count)
    }

    /// The entries of the keys of an object of `count` pairs, which must be below 2^29, as in a
    /// header.
    #[inline(always)]
    pub fn over_keys(bytes: &'a [u8], count: usize) -> Self
        requires { count < 2 ^ 29 }
        ensures { result ≡ key_run bytes.entry.now count }
    {
        Cursor::new(bytes, 4, 4 + 8 * count, count)
    }

    /// The entries of the values of an object of `count` pairs, which must be below 2^29, as in a
    /// header; the bytes must have four bytes of a header. `InvalidEOF` if the entry word of a key
    /// is cut off.
    #[inline(always)]
    pub fn over_values(bytes: &'a [u8], count: usize) -> Result<Self, Error>
        requires count { count < 2 ^ 29 }
        requires header { 4 ≤ length bytes.now }
        ensures { result ≡ value_run bytes.entry.now count }
    {
        let start = payloads_end(bytes, 4, 4 + 8 * count, count)?;
        Ok(Cursor::new(bytes, 4 + 4 * count, start, count))
    }

    // The same, where the words of all keys are known to be there.
    #[inline(always)]
    pub(crate) fn over_values_within(bytes: &'a [u8], count: usize) -> Self
        requires count { count < 2 ^ 29 }
        requires there { 4 + 4 * count ≤ length bytes.now }
        ensures { Ok result ≡ value_run bytes.entry.now count }
    {
        let start = payloads_end_within(bytes, 4, 4 + 8 * count, count);
        Cursor::new(bytes, 4 + 4 * count, start, count)
    }

    /// The bytes that the entries are in.
    #[inline(always)]
    pub fn bytes(&self) -> &'a [u8]
        ensures { result.now ≡ self.now.bytes }
    {
        self.bytes
    }

    /// The number of entries left.
    pub fn len(&self) -> usize
        ensures { result ≡ length self.now.entries }
    {
        self.left
    }

    /// Passes over `count` entries, or over all that are left if there are fewer, without looking
    /// at their payloads. `InvalidEOF` if the word of one of them is cut off; no entry is left
    /// then.
    pub fn skip(&mut self, count: usize) -> Result<(), Error>
        ensures rest { IfOk result (λ _. left_after count self.old.entries ≡ Ok self.new.entries) }
        ensures cut { IfErr result (λ e. (left_after count self.old.entries ≡ Err e)
            × (self.new.entries ≡ [])) }
        ensures bytes { self.new.bytes ≡ self.old.bytes }
    {
        let count = if count < self.left { count } else { self.left };
        if count == 0 {
            return Ok(());
        }
        match payloads_end(self.bytes, self.word, self.start, count) {
            Ok(start) => {
                self.word += 4 * count;
                self.start = start;
                self.left -= count;
                Ok(())
            }
            Err(error) => {
                self.end();
                Err(error)
            }
        }
    }

    /// The next entry, which is in the bytes. `InvalidEOF` if its word is cut off, `InvalidJsonb`
    /// if its payload runs past the end; after an error there is no next entry.
    #[inline(always)]
    pub fn next(&mut self) -> Option<Result<Entry, Error>>
        ensures first { result ≡ slice_get self.old.entries 0 }
        ensures rest { self.new
            ≡ record { bytes = self.old.bytes; entries = others_left self.old.entries } }
        ensures inside { IfSome result (λ read. IfOk read (IsEntryIn self.old.bytes)) }
        ensures steps { YieldsFirstBy
            (entry_read self.old.bytes) entries_of self.old result self.new }
    {
        if self.left == 0 {
            return None;
        }
        match Entry::read_near(self.bytes, self.word, self.start) {
            Ok(entry) => {
                self.word += 4;
                self.start += entry.length;
                self.left -= 1;
                Some(Ok(entry))
            }
            Err(error) => {
                self.end();
                Some(Err(error))
            }
        }
    }

    /// Ends the iteration: no entry is left.
    pub fn end(&mut self)
        ensures { self.new ≡ record { bytes = self.old.bytes; entries = [] } }
    {
        self.left = 0;
    }

    /// The next entry of a document, as a part.
    #[inline(always)]
    pub fn next_part(&mut self) -> Option<Part<'a>>
        requires { AreParts (entries_of self.old) }
        ensures steps { YieldsFirstBy (λ part. Ok (entry_of_part part))
            entries_of self.old result self.new }
        ensures others { AreParts (entries_of self.new) }
    {
        if self.left == 0 {
            return None;
        }
        let Ok(entry) = Entry::read_near(self.bytes, self.word, self.start) else {
            unreachable!();
        };
        self.word += 4;
        self.start += entry.length;
        self.left -= 1;
        Some(Part {
            type_code: entry.type_code,
            payload: entry.payload(self.bytes),
        })
    }
}
