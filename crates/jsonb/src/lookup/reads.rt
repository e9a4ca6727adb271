//! Counting the words that are read from a document. The count is a private field of this module,
//! which has no children: so no other code, and not the look-up, raises a tally without a read.

ghost use Rattle.std.specs.Prelude.{◌≡◌, ℕ, ◌+◌, ◌<◌, ◌≤◌, ◌^◌, length, Ok, OnOk, OnErr};
ghost use Rattle.jsonb.specs.Words.{word_at};

use byteorder::{BigEndian, ByteOrder};
use jsonb_codec::layer::read_word;
use jsonb_value::Error;
use std::marker::Model;

/// A tally of the words that were read. `word` raises it by the word that it reads, and `add` by
/// another tally, which is consumed: so no word is counted twice.
#[derive(Drop)]
pub struct Reads {
    count: u64,
}

impl Model for Reads {
    ghost Value = { ℕ };

    ghost view = { λ reads. reads.count };

    ghost invariant = { λ reads. reads.count < 2 ^ 64 };
}

impl Reads {
    /// A tally of 0.
    pub fn new() -> Self
        ensures { result ≡ 0 }
    {
        Reads { count: 0 }
    }

    /// The number of words that were read.
    pub fn count(&self) -> u64
        ensures { result ≡ self.now }
    {
        self.count
    }

    /// Adds the words of another tally. Both together must be at most `u64::MAX`, as they are if
    /// each is at most `MAX_READS`.
    pub fn add(&mut self, other: Reads)
        requires { self.old + other ≤ u64.MAX }
        ensures { self.new ≡ self.old + other }
    {
        self.raise(other.count);
    }

    /// The big-endian word of four bytes at `index`; the tally is raised by one. `InvalidEOF` if
    /// the bytes end before the word does; the tally is then unchanged. The tally must be below
    /// `u64::MAX` before the call.
    #[inline(always)]
    pub fn word(&mut self, bytes: &[u8], index: usize) -> Result<u32, Error>
        requires { self.old < u64.MAX }
        ensures word { result ≡ word_at bytes.now index }
        ensures counted { OnOk result (self.new ≡ self.old + 1) }
        ensures kept { OnErr result (self.new ≡ self.old) }
    {
        let word = read_word(bytes, index)?;
        self.raise(1);
        Ok(word)
    }

    // The same word, where it is known to be there. Only the look-up can read so.
    #[inline(always)]
    pub(super) fn word_within(&mut self, bytes: &[u8], index: usize) -> u32
        requires room { self.old < u64.MAX }
        requires there { index + 4 ≤ length bytes.now }
        ensures word { word_at bytes.now index ≡ Ok result }
        ensures counted { self.new ≡ self.old + 1 }
    {
        self.raise(1);
        BigEndian::read_u32(&bytes[index..])
    }

    // Every call of this module that raises the tally does it by this.
    #[inline(always)]
    fn raise(&mut self, words: u64)
        requires { self.old + words ≤ u64.MAX }
        ensures { self.new ≡ self.old + words }
    {
        self.count += words;
    }
}
