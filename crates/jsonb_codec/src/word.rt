//! Words of 32 bits, read from and written to bytes.

ghost use Rattle.std.specs.Prelude.{◌≡◌, ◌+◌, ◌<◌, ◌%◌, ◌^◌, ◌++◌, length, IfSome, IfNone};
ghost use Rattle.jsonb_codec.specs.Words.{word, word_at, header_of, header_at, jentry_at};

use crate::constants::{
    ARRAY_CONTAINER_TAG, CONTAINER_HEADER_LEN_MASK, JENTRY_OFF_LEN_MASK, OBJECT_CONTAINER_TAG,
    SCALAR_CONTAINER_TAG,
};
use crate::jentry::JEntry;
use byteorder::{BigEndian, ByteOrder};
use jsonb_value::Error;

/// The big-endian word of four bytes at `index`. `InvalidEOF` if the bytes end before the word
/// does.
#[inline]
pub fn read_word(bytes: &[u8], index: usize) -> Result<u32, Error>
    ensures { result ≡ word_at bytes.now index }
{
    // The last valid index does not depend on `index`, so a loop tests each word only once.
    if bytes.len() < 4 || bytes.len() - 4 < index {
        return Err(Error::InvalidEOF);
    }
    Ok(BigEndian::read_u32(&bytes[index..]))
}

/// The bytes of a word, most significant first.
#[tactic(auto, unfolding(crate::specs::WordBytes::word))]
#[inline(always)]
pub fn word_bytes(number: u32) -> [u8; 4]
    ensures { result ≡ word number }
{
    let mut bytes = [0; 4];
    BigEndian::write_u32(&mut bytes, number);
    bytes
}

/// The word of a tag and a number, which `split_entry` and `split_header` take apart again: an entry
/// word of a type and a length, or the header of a kind and a count.
#[inline(always)]
pub fn tagged_word(tag: u32, number: usize) -> u32
    requires { tag + number < 2 ^ 32 }
    ensures { result ≡ tag + number }
{
    tag + number as u32
}

/// The header at `index`: its kind (an array, object or scalar tag) and its count. `InvalidEOF` if
/// the bytes end before the word does, `InvalidJsonb` if it is of none of the three kinds.
#[inline]
pub fn read_header(bytes: &[u8], index: usize) -> Result<(u32, usize), Error>
    ensures { result ≡ header_at bytes.now index }
{
    decode_header(read_word(bytes, index)?)
}

/// Decodes a header word: its kind (an array, object or scalar tag) and its count. `InvalidJsonb`
/// if it is of none of the three kinds.
#[inline]
pub fn decode_header(header: u32) -> Result<(u32, usize), Error>
    ensures { result ≡ header_of header }
{
    let count = header & CONTAINER_HEADER_LEN_MASK;
    match header - count {
        kind @ (ARRAY_CONTAINER_TAG | OBJECT_CONTAINER_TAG | SCALAR_CONTAINER_TAG) => Ok((
            kind,
            count as usize,
        )),
        _ => Err(Error::InvalidJsonb),
    }
}

/// The entry word at `index`. `InvalidEOF` if the bytes end before the word does.
#[inline(always)]
pub fn read_jentry(bytes: &[u8], index: usize) -> Result<JEntry, Error>
    ensures { result ≡ jentry_at bytes.now index }
{
    Ok(JEntry::decode_jentry(read_word(bytes, index)?))
}

/// A word that is the sum of a tag and a number, and the bytes after it.
#[derive(Clone, Copy)]
pub struct Tagged<'a> {
    pub tag: u32,
    pub number: usize,
    pub rest: &'a [u8],
}

/// The word at the start of the bytes, and the bytes after it. `None` if there are fewer than four
/// bytes.
#[inline(always)]
#[tactic(auto, using(crate::proofs::Words::word_at_front))]
pub fn split_word(bytes: &[u8]) -> Option<(u32, &[u8])>
    ensures found { IfSome result (λ x. bytes.now ≡ word x.0 ++ x.1.now) }
    ensures small { IfSome result (λ x. x.0 < 2 ^ 32) }
    ensures none { IfNone result (length bytes.now < 4) }
{
    if bytes.len() < 4 {
        return None;
    }
    Some((BigEndian::read_u32(bytes), &bytes[4..]))
}

/// The entry word at the start of the bytes: its type and the length of its payload. `None` if
/// there are fewer than four bytes.
#[inline(always)]
pub fn split_entry(entries: &[u8]) -> Option<Tagged>
    ensures found { IfSome result
        (λ x. entries.now ≡ word (x.tag + x.number) ++ x.rest.now) }
    ensures tag { IfSome result (λ x. x.tag % 2 ^ 28 ≡ 0) }
    ensures number { IfSome result (λ x. x.number < 2 ^ 28) }
    ensures small { IfSome result (λ x. x.tag + x.number < 2 ^ 32) }
    ensures none { IfNone result (length entries.now < 4) }
{
    let (entry, rest) = split_word(entries)?;
    let number = entry & JENTRY_OFF_LEN_MASK;
    Some(Tagged {
        tag: entry - number,
        number: number as usize,
        rest,
    })
}

/// The header at the start of the bytes: its kind and its count of children. `None` if there are
/// fewer than four bytes.
#[inline(always)]
pub fn split_header(bytes: &[u8]) -> Option<Tagged>
    ensures found { IfSome result (λ x. bytes.now ≡ word (x.tag + x.number) ++ x.rest.now) }
    ensures tag { IfSome result (λ x. x.tag % 2 ^ 29 ≡ 0) }
    ensures number { IfSome result (λ x. x.number < 2 ^ 29) }
    ensures small { IfSome result (λ x. x.tag + x.number < 2 ^ 32) }
    ensures none { IfNone result (length bytes.now < 4) }
{
    let (header, rest) = split_word(bytes)?;
    let number = header & CONTAINER_HEADER_LEN_MASK;
    Some(Tagged {
        tag: header - number,
        number: number as usize,
        rest,
    })
}
