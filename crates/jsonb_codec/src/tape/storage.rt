//! What is stored of values that have been read: nothing of it is changed later.

ghost use Rattle.std.specs.Prelude.{◌≡◌, ◌<◌, ◌≤◌, ◌+◌, ◌^◌, ℕ, List, length, IfErr, IfOk, IfSome};
ghost use Rattle.std.specs.Prelude.{[], OnOk};
ghost use Rattle.jsonb_value.specs.declared.error.Error.TheVariants.{OutOfMemory};
ghost use Rattle.jsonb_value.specs.Json.Syntax.{Entries, pairs};
ghost use Rattle.jsonb_value.specs.Tree.{Ascend, Tree, array, object};
ghost use Rattle.jsonb_value.specs.Value.{trees_of};
ghost use Rattle.jsonb_value.specs.WellFormed.{AreTrees};
ghost use Rattle.jsonb_codec.specs.WordBytes.{word};
ghost use Rattle.jsonb_codec.specs.Shape.{AllFit, entries, key_payloads, payloads};
ghost use Rattle.jsonb_codec.specs.Canon.{pairs_shapes};
ghost use Rattle.jsonb_codec.specs.Keys.{IsKey, key_bytes};
ghost use Rattle.jsonb_codec.specs.Tape.{AreKeyWordsIfFit, Grows, IsHeadIfFit, MembersAre};
ghost use Rattle.jsonb_codec.specs.Tape.{StoresHead, shapes_of, values_of};

use super::key::{Key, append_key, bytes_of};
use super::member::Member;
use super::place::Place;
use crate::constants::{ARRAY_CONTAINER_TAG, OBJECT_CONTAINER_TAG, STRING_TAG};
use crate::word::{split_entry, tagged_word, word_bytes};
use crate::writer::measure::{MAX_COUNT, MAX_PAYLOAD};
use jsonb_value::Error;
use std::alloc::Global;

/// The payloads of scalars in the order of the text; the heads of closed containers: their headers,
/// entry words and keys; the keys that were spelled with escapes; and the places inside objects
/// whose keys did not ascend.
#[derive(Drop)]
pub struct Storage {
    pub payload: Vec<u8>,
    pub heads: Vec<u8>,
    pub spelled: Vec<u8>,
    pub moved: Vec<Place>,
}

impl Storage {
    /// Nothing.
    pub fn new(alloc: Global) -> Storage
        ensures { result.payload.items ≡ [] }
    {
        Storage {
            payload: Vec::new(alloc),
            heads: Vec::new(alloc),
            spelled: Vec::new(alloc),
            moved: Vec::new(alloc),
        }
    }

    // Appends a word to the heads.
    #[inline(always)]
    fn push_word(&mut self, number: u32) -> Result<(), Error>
        ensures ok { OnOk result (StoresHead self.old self.new (word number)) }
        ensures memory { IfErr result (λ e. e ≡ OutOfMemory) }
    {
        self.heads.extend_from_slice(&word_bytes(number))?;
        Ok(())
    }

    /// Stores the head of an array of items with these entry words. The answer is the length of its
    /// payload. `None` if its count exceeds the limit.
    #[inline(always)]
    pub fn push_array_head(&mut self, words: &[u8]) -> Result<Option<usize>, Error>
        ensures grows { OnOk result (Grows self.old self.new) }
        ensures ok { IfOk result (λ size. (front : List Tree) → AreTrees (trees_of front)
            → AllFit (shapes_of front) → words.now ≡ entries (shapes_of front)
            → IsHeadIfFit self.old self.new size (payloads (shapes_of front))
            (array (trees_of front))) }
        ensures memory { IfErr result (λ e. e ≡ OutOfMemory) }
    {
        let count = words.len() / 4;
        if count > MAX_COUNT {
            return Ok(None);
        }
        self.push_word(tagged_word(ARRAY_CONTAINER_TAG, count))?;
        self.heads.extend_from_slice(words)?;
        Ok(Some(4 + words.len() + payloads_len(words)))
    }

    /// Stores the head of an object of these members. The answer is the length of its payload.
    /// `None` if its count, a key or a value exceeds its limit.
    pub fn push_object_head(&mut self, members: &[Member<'_>]) -> Result<Option<usize>, Error>
        requires { (base : ℕ) × ((ps : List Place) × ((front : Entries)
            × MembersAre self.old base ps members.now front)) }
        ensures grows { OnOk result (Grows self.old self.new) }
        ensures ok { IfOk result (λ size. (base : ℕ) (ps : List Place) (front : Entries)
            → MembersAre self.old base ps members.now front → Ascend (pairs front)
            → IsHeadIfFit self.old self.new size (payloads (shapes_of (values_of front)))
            (object (pairs front))) }
        ensures memory { IfErr result (λ e. e ≡ OutOfMemory) }
    {
        let count = members.len();
        if count > MAX_COUNT {
            return Ok(None);
        }
        self.push_word(tagged_word(OBJECT_CONTAINER_TAG, count))?;
        let Some(size) = self.push_key_words(members)? else {
            return Ok(None);
        };
        self.push_value_words(members)?;
        self.push_keys(members)?;
        Ok(Some(4 + 8 * count + size))
    }

    // Stores the entry words of the keys. The answer is the length of all keys and values. `None`
    // if a key or a value exceeds its limit.
    #[inline(always)]
    fn push_key_words(&mut self, members: &[Member<'_>]) -> Result<Option<usize>, Error>
        requires few { length members.now < 2 ^ 29 }
        requires members { (base : ℕ) × ((ps : List Place) × ((front : Entries)
            × MembersAre self.old base ps members.now front)) }
        ensures most { IfOk result (λ size. IfSome size (λ n. n ≤ 2 ^ 58)) }
        ensures grows { OnOk result (Grows self.old self.new) }
        ensures ok { IfOk result (λ size. (base : ℕ) (ps : List Place) (front : Entries)
            → MembersAre self.old base ps members.now front
            → AreKeyWordsIfFit self.old self.new size (pairs_shapes (pairs front))) }
        ensures memory { IfErr result (λ e. e ≡ OutOfMemory) }
    {
        let mut size = 0;
        for member in members {
            let length = key_len(member.key, &self.spelled);
            if member.word.is_none() || length > MAX_PAYLOAD {
                return Ok(None);
            }
            self.push_word(tagged_word(STRING_TAG, length))?;
            size += length + member.part.size;
        }
        Ok(Some(size))
    }

    // Stores the entry words of the values, all of which fit.
    #[inline(always)]
    fn push_value_words(&mut self, members: &[Member<'_>]) -> Result<(), Error>
        ensures grows { OnOk result (Grows self.old self.new) }
        ensures ok { OnOk result ((base : ℕ) (ps : List Place) (front : Entries)
            → MembersAre self.old base ps members.now front → AllFit (pairs_shapes (pairs front))
            → StoresHead self.old self.new (entries (pairs_shapes (pairs front)))) }
        ensures memory { IfErr result (λ e. e ≡ OutOfMemory) }
    {
        for member in members {
            if let Some(word) = member.word {
                self.push_word(word)?;
            }
        }
        Ok(())
    }

    // Stores the keys.
    #[inline(always)]
    fn push_keys(&mut self, members: &[Member<'_>]) -> Result<(), Error>
        requires { (base : ℕ) × ((ps : List Place) × ((front : Entries)
            × MembersAre self.old base ps members.now front)) }
        ensures grows { OnOk result (Grows self.old self.new) }
        ensures ok { OnOk result ((base : ℕ) (ps : List Place) (front : Entries)
            → MembersAre self.old base ps members.now front
            → StoresHead self.old self.new (key_payloads (pairs_shapes (pairs front)))) }
        ensures memory { IfErr result (λ e. e ≡ OutOfMemory) }
    {
        for member in members {
            let key = bytes_of(member.key, &self.spelled);
            append_key(&mut self.heads, member.prefix, key)?;
        }
        Ok(())
    }
}

// The length of a key.
#[inline(always)]
fn key_len(key: Key<'_>, spelled: &[u8]) -> usize
    requires { IsKey spelled.now key }
    ensures { result ≡ length (key_bytes spelled.now key.entry) }
{
    match key {
        Key::Text(text) => text.len(),
        Key::Spelled { start, end } => end - start,
    }
}

// The length of the payloads of entries with these words.
#[inline(always)]
fn payloads_len(words: &[u8]) -> usize
    requires { length words.now < 2 ^ 31 }
    ensures most { result ≤ 2 ^ 57 }
    ensures ok { (front : List Tree) → AllFit (shapes_of front)
        → words.now ≡ entries (shapes_of front) → result ≡ length (payloads (shapes_of front)) }
{
    let mut size = 0;
    let mut left = words;
    while let Some(entry) = split_entry(left) {
        size += entry.number;
        left = entry.rest;
    }
    size
}
