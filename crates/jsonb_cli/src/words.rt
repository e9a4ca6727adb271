//! Words between single spaces.

ghost use Rattle.std.specs.Prelude.{◌≡◌, ◌++◌, List, ℕ};
ghost use Rattle.std.specs.Iterator.{YieldsFirstRef, item_count};
ghost use Rattle.jsonb_cli.specs.Words.{IsWord, after_space, words_from};

use answer_lines::split_once;
use std::marker::Model;

/// The bytes before the first space, and those after it if there is a space.
pub fn split_word(bytes: &[u8]) -> (&[u8], Option<&[u8]>)
    ensures word { IsWord result.0.now }
    ensures parts { bytes.now ≡ result.0.now ++ after_space result.1 }
{
    match split_once(bytes, b' ') {
        Some((word, rest)) => (word, Some(rest)),
        None => (bytes, None),
    }
}

/// The remaining words: the parts of some bytes between single spaces, or none.
#[derive(Drop)]
pub struct Words<'a> {
    rest: Option<&'a [u8]>,
}

impl<'a> Model for Words<'a> {
    ghost Value = { List (List ℕ) };

    ghost view = { λ words. words_from words.rest };
}

impl<'a> Words<'a> {
    /// The words of some bytes, or none if there are no bytes to split.
    pub fn new(rest: Option<&'a [u8]>) -> Self
        ensures { result ≡ words_from rest.entry }
    {
        Words { rest }
    }
}

impl<'a> Iterator for Words<'a> {
    type Item = &'a [u8];

    ghost next_gives = { YieldsFirstRef (λ words. words) };

    ghost remaining = { item_count (λ words. words) };

    fn next(&mut self) -> Option<&'a [u8]> {
        let (word, rest) = split_word(self.rest?);
        self.rest = rest;
        Some(word)
    }
}
