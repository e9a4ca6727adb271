//! Decoding and encoding entry words.

ghost use Rattle.std.specs.Prelude.{◌≡◌, ◌≤◌, ◌%◌, ◌^◌, bit_and, bit_or};
ghost use Rattle.std.proofs.Common.{rules};
ghost use Rattle.jsonb_codec.specs.Words.{as_partial_cmp, partial_order_from_own_ties, comparing};
ghost use Rattle.jsonb_codec.specs.Words.{jentry_cmp};

use crate::constants::{
    CONTAINER_TAG, EXTENSION_TAG, FALSE_TAG, JENTRY_OFF_LEN_MASK, JENTRY_TYPE_MASK, NULL_TAG,
    NUMBER_TAG, STRING_TAG, TRUE_TAG,
};
use std::cmp::Ordering;

/// An entry word: the type of a child, and the length of its payload in bytes. Entries are ordered
/// by type, then by length.
#[derive(Clone, Copy, Debug, PartialEq, Eq)]
pub struct JEntry {
    pub type_code: u32,
    pub length: u32,
}

impl JEntry {
    ghost use Rattle.jsonb_codec.specs.Words.{jentry_of};

    /// Decodes a word: its type and length are extracted by their masks, its top bit is ignored.
    #[inline(always)]
    pub fn decode_jentry(encoded: u32) -> JEntry
        ensures value { result ≡ jentry_of encoded }
        ensures type_code { result.type_code ≡ bit_and encoded JENTRY_TYPE_MASK }
        ensures length { result.length ≡ bit_and encoded JENTRY_OFF_LEN_MASK }

        // Encoding it again gives the word without its top bit.
        ensures again { bit_or result.type_code result.length ≡ encoded % 2 ^ 31 }
    {
        JEntry {
            type_code: encoded & JENTRY_TYPE_MASK,
            length: encoded & JENTRY_OFF_LEN_MASK,
        }
    }

    /// Encodes this entry as a word.
    pub fn encoded(&self) -> u32
        ensures { result ≡ bit_or self.now.type_code self.now.length }
    {
        self.type_code | self.length
    }

    /// An entry for null.
    pub fn make_null_jentry() -> JEntry
        ensures type_code { result.type_code ≡ NULL_TAG }
        ensures length { result.length ≡ 0 }
    {
        JEntry {
            type_code: NULL_TAG,
            length: 0,
        }
    }

    /// An entry for true.
    pub fn make_true_jentry() -> JEntry
        ensures type_code { result.type_code ≡ TRUE_TAG }
        ensures length { result.length ≡ 0 }
    {
        JEntry {
            type_code: TRUE_TAG,
            length: 0,
        }
    }

    /// An entry for false.
    pub fn make_false_jentry() -> JEntry
        ensures type_code { result.type_code ≡ FALSE_TAG }
        ensures length { result.length ≡ 0 }
    {
        JEntry {
            type_code: FALSE_TAG,
            length: 0,
        }
    }

    /// An entry for a string of this many bytes.
    pub fn make_string_jentry(length: usize) -> JEntry
        requires { length ≤ JENTRY_OFF_LEN_MASK }
        ensures type_code { result.type_code ≡ STRING_TAG }
        ensures length { result.length ≡ length }
    {
        JEntry {
            type_code: STRING_TAG,
            length: length as u32,
        }
    }

    /// An entry for a number whose payload has this many bytes.
    pub fn make_number_jentry(length: usize) -> JEntry
        requires { length ≤ JENTRY_OFF_LEN_MASK }
        ensures type_code { result.type_code ≡ NUMBER_TAG }
        ensures length { result.length ≡ length }
    {
        JEntry {
            type_code: NUMBER_TAG,
            length: length as u32,
        }
    }

    /// An entry for a nested array or object of this many bytes, its header included.
    pub fn make_container_jentry(length: usize) -> JEntry
        requires { length ≤ JENTRY_OFF_LEN_MASK }
        ensures type_code { result.type_code ≡ CONTAINER_TAG }
        ensures length { result.length ≡ length }
    {
        JEntry {
            type_code: CONTAINER_TAG,
            length: length as u32,
        }
    }

    /// An entry for an extension value whose payload has this many bytes.
    pub fn make_extension_jentry(length: usize) -> JEntry
        requires { length ≤ JENTRY_OFF_LEN_MASK }
        ensures type_code { result.type_code ≡ EXTENSION_TAG }
        ensures length { result.length ≡ length }
    {
        JEntry {
            type_code: EXTENSION_TAG,
            length: length as u32,
        }
    }
}

impl PartialOrd for JEntry {
    ghost partial_cmp = { as_partial_cmp jentry_cmp };

    ghost laws = { partial_order_from_own_ties
        (Prim.search (comparing, rules))
        (Prim.search (comparing, rules)) };

    fn partial_cmp(&self, other: &Self) -> Option<Ordering> {
        Some(self.cmp(other))
    }
}

impl Ord for JEntry {
    ghost cmp = { jentry_cmp };

    ghost total = { Prim.search (comparing, rules) };

    ghost matches_partial_cmp = { Prim.search (comparing, rules) };

    ghost matches_eq = { Prim.search (comparing, rules) };

    /// Compares entries by type, then by length.
    fn cmp(&self, other: &Self) -> Ordering {
        self.type_code
            .cmp(&other.type_code)
            .then(self.length.cmp(&other.length))
    }
}
