//! The keys of members, compared by their first eight bytes.

ghost use Rattle.std.specs.Prelude.{◌≡◌, ◌++◌, OnOk};
ghost use Rattle.std.specs.Ordering.{nat_cmp};
ghost use Rattle.std.specs.Cmp.Lexicographic.{slice_cmp};
ghost use Rattle.byteorder.specs.Endian.{big_number};
ghost use Rattle.jsonb_codec.specs.Keys.{key_bytes, IsKey};

use byteorder::{BigEndian, ByteOrder};
use std::alloc::AllocError;
use std::cmp::Ordering;

/// A key: a part of the text, or, of a key that is spelled with escapes, where its bytes are among
/// the bytes of such keys.
#[derive(Clone, Copy)]
pub enum Key<'a> {
    Text(&'a str),
    Spelled { start: usize, end: usize },
}

/// The bytes of a key.
#[inline(always)]
pub fn bytes_of<'a>(key: Key<'a>, spelled: &'a [u8]) -> &'a [u8]
    requires { IsKey spelled.now key }
    ensures { result.now ≡ key_bytes spelled.now key.entry }
{
    match key {
        Key::Text(text) => text.as_bytes(),
        Key::Spelled { start, end } => &spelled[start..end],
    }
}

/// The number in the first eight bytes of a key, most significant first, with zeros after its end.
#[inline(always)]
pub fn prefix_of(key: &[u8]) -> u64
    ensures { result ≡ big_number 8 key.now }
{
    if key.len() >= 8 {
        return BigEndian::read_u64(key);
    }
    let front = u64::from(first_four(key)) << 32;
    if key.len() <= 4 {
        return front;
    }
    front + u64::from(first_four(&key[4..]))
}

// The number in the first four bytes, most significant first, with zeros after the end.
#[inline(always)]
fn first_four(bytes: &[u8]) -> u32
    ensures { result ≡ big_number 4 bytes.now }
{
    match bytes {
        [] => 0,
        [first] => u32::from_be_bytes([*first, 0, 0, 0]),
        [first, second] => u32::from_be_bytes([*first, *second, 0, 0]),
        [first, second, third] => u32::from_be_bytes([*first, *second, *third, 0]),
        _ => BigEndian::read_u32(bytes),
    }
}

/// Appends a key, of which the number is the first eight bytes. Where there is room for eight, a
/// short key is stored as that number and cut off, which takes no call.
#[inline(always)]
pub fn append_key(buf: &mut Vec<u8>, prefix: u64, key: &[u8]) -> Result<(), AllocError>
    requires { prefix ≡ big_number 8 key.now }
    ensures { OnOk result (buf.new.items ≡ buf.old.items ++ key.now) }
{
    let word = prefix.to_be_bytes();
    if key.len() > word.len() || buf.capacity() - buf.len() < word.len() {
        return buf.extend_from_slice(key);
    }
    let end = buf.len() + key.len();
    buf.extend_from_slice(&word)?;
    buf.truncate(end);
    Ok(())
}

/// The order of two keys by their bytes, of which the numbers are the first eight.
#[inline(always)]
pub fn compare_keys(left_prefix: u64, left: &[u8], right_prefix: u64, right: &[u8]) -> Ordering
    ensures bytes { left_prefix ≡ big_number 8 left.now → right_prefix ≡ big_number 8 right.now
        → result ≡ slice_cmp nat_cmp left.now right.now }
{
    if left_prefix < right_prefix {
        return Ordering::Less;
    }
    if left_prefix > right_prefix {
        return Ordering::Greater;
    }
    left.cmp(right)
}
