//! Runs of bytes that a JSON string holds unescaped, and of white space, tested several at a time.

ghost use Rattle.std.specs.Prelude.{◌≡◌, ◌+◌, ◌≤◌, length, map};
ghost use Rattle.jsonb_value.specs.Words.{OnTrue, prefix_len, mask_l, is_plain, is_escaped, ends};
ghost use Rattle.jsonb_value.specs.Words.{NoneEscaped, is_blank, is_not_blank};

use std::simd::Simd;
use std::simd::prelude::*;

// Whether the byte is written unescaped.
fn is_plain(byte: u8) -> bool
    ensures { result ≡ is_plain byte }
{
    byte >= 0x20 && byte != b'"' && byte != b'\\'
}

// The lanes with a byte that must be escaped, one bit for each lane.
#[inline(always)]
fn escape_lanes<const N: usize>(lanes: Simd<u8, N>) -> u64
    requires { N ≤ 64 }
    ensures { result ≡ mask_l (map is_escaped lanes.entry) }
{
    let escaped = lanes.simd_eq(Simd::splat(b'"'))
        | lanes.simd_eq(Simd::splat(b'\\'))
        | lanes.simd_lt(Simd::splat(0x20));
    escaped.to_bitmask()
}

// Whether the N bytes at `at` are all unescaped.
#[inline(always)]
#[tactic(auto, using(crate::proofs::RunLaws::none_escaped))]
fn is_plain_at<const N: usize>(bytes: &[u8], at: usize) -> bool
    requires few { N ≤ 64 }
    requires within { at + N ≤ length bytes.now }
    ensures { OnTrue result (NoneEscaped bytes.now at (at + N)) }
{
    escape_lanes(Simd::<u8, N>::from_slice(&bytes[at..])) == 0
}

#[inline(always)]
fn is_plain_long(bytes: &[u8]) -> bool
    requires { 16 ≤ length bytes.now }
    ensures { OnTrue result (NoneEscaped bytes.now 0 (length bytes.now)) }
{
    let last = bytes.len() - 16;
    let mut at = 0;
    'vectors: while at < last {
        if !is_plain_at::<16>(bytes, at) {
            return false;
        }
        at += 16;
    }
    is_plain_at::<16>(bytes, last)
}

// The first eight and the last eight bytes.
#[inline(always)]
fn ends_of_eight(bytes: &[u8]) -> u8x16
    requires { 8 ≤ length bytes.now }
    ensures { result ≡ ends 8 bytes.now }
{
    let front = u8x8::from_slice(bytes);
    let back = u8x8::from_slice(&bytes[bytes.len() - 8..]);
    front.shuffle(back, [0, 1, 2, 3, 4, 5, 6, 7, 8, 9, 10, 11, 12, 13, 14, 15])
}

// The first four and the last four bytes.
#[inline(always)]
fn ends_of_four(bytes: &[u8]) -> u8x8
    requires { 4 ≤ length bytes.now }
    ensures { result ≡ ends 4 bytes.now }
{
    let front = u8x4::from_slice(bytes);
    let back = u8x4::from_slice(&bytes[bytes.len() - 4..]);
    front.shuffle(back, [0, 1, 2, 3, 4, 5, 6, 7])
}

/// Whether all bytes are unescaped. Overlapping vectors cover every length.
#[inline(always)]
pub fn is_all_plain(bytes: &[u8]) -> bool
    ensures { OnTrue result (NoneEscaped bytes.now 0 (length bytes.now)) }
{
    let len = bytes.len();
    if len >= 16 {
        is_plain_long(bytes)
    } else if len >= 8 {
        escape_lanes(ends_of_eight(bytes)) == 0
    } else if len >= 4 {
        escape_lanes(ends_of_four(bytes)) == 0
    } else {
        plain_len_by_one(bytes) == len
    }
}

#[inline(always)]
fn plain_len_by_one(bytes: &[u8]) -> usize
    ensures count { result ≡ prefix_len is_plain bytes.now }
    ensures within { result ≤ length bytes.now }
{
    bytes.iter().take_while(|byte| is_plain(**byte)).count()
}

/// The length of the longest prefix of unescaped bytes.
#[inline(always)]
pub fn plain_len(bytes: &[u8]) -> usize
    ensures { result ≡ prefix_len is_plain bytes.now }
{
    let mut at = 0;
    'vectors: while bytes.len() - at >= 16 {
        let escaped = escape_lanes(u8x16::from_slice(&bytes[at..]));
        if escaped != 0 {
            return at + escaped.trailing_zeros() as usize;
        }
        at += 16;
    }
    at + plain_len_by_one(&bytes[at..])
}

fn is_blank(byte: u8) -> bool
    ensures { result ≡ is_blank byte }
{
    byte <= b' ' && matches!(byte, b' ' | b'\t' | b'\n' | b'\r')
}

// The lanes with a byte that is not white space, one bit for each lane.
#[inline(always)]
fn not_blank_lanes<const N: usize>(lanes: Simd<u8, N>) -> u64
    requires { N ≤ 64 }
    ensures { result ≡ mask_l (map is_not_blank lanes.entry) }
{
    let others = lanes.simd_ne(Simd::splat(b' '))
        & lanes.simd_ne(Simd::splat(b'\t'))
        & lanes.simd_ne(Simd::splat(b'\n'))
        & lanes.simd_ne(Simd::splat(b'\r'));
    others.to_bitmask()
}

#[inline(always)]
fn blank_len_by_one(bytes: &[u8]) -> usize
    ensures count { result ≡ prefix_len is_blank bytes.now }
    ensures within { result ≤ length bytes.now }
{
    bytes.iter().take_while(|byte| is_blank(**byte)).count()
}

#[inline(never)]
fn blank_run_len(bytes: &[u8]) -> usize
    ensures { result ≡ prefix_len is_blank bytes.now }
{
    let mut at = 0;
    'vectors: while bytes.len() - at >= 16 {
        let others = not_blank_lanes(u8x16::from_slice(&bytes[at..]));
        if others != 0 {
            return at + others.trailing_zeros() as usize;
        }
        at += 16;
    }
    at + blank_len_by_one(&bytes[at..])
}

/// The length of the longest prefix of white space.
#[inline(always)]
pub fn blank_len(bytes: &[u8]) -> usize
    ensures { result ≡ prefix_len is_blank bytes.now }
{
    match bytes {
        [first, ..] if is_blank(*first) => blank_run_len(bytes),
        _ => 0,
    }
}
