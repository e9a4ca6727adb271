//! Bytes of ASCII, tested several at a time.

ghost use Rattle.std.specs.Prelude.{◌≤◌, ◌+◌, length, IsAscii};
ghost use Rattle.jsonb_codec.specs.Words.{OnTrue, IsAsciiWithin};

use std::simd::Simd;
use std::simd::prelude::*;

// Whether the N bytes at `at` are ASCII.
#[inline(always)]
fn is_ascii_at<const N: usize>(bytes: &[u8], at: usize) -> bool
    requires few { N ≤ 64 }
    requires within { at + N ≤ length bytes.now }
    ensures { OnTrue result (IsAsciiWithin bytes.now at (at + N)) }
{
    let lanes = Simd::<u8, N>::from_slice(&bytes[at..]);
    lanes.simd_ge(Simd::splat(0x80)).to_bitmask() == 0
}

// Whether the first N and the last N bytes are ASCII.
#[inline(always)]
fn is_ascii_at_ends<const N: usize>(bytes: &[u8]) -> bool
    requires few { N ≤ 64 }
    requires long { N ≤ length bytes.now }
    requires short { length bytes.now ≤ N + N }
    ensures { OnTrue result (IsAsciiWithin bytes.now 0 (length bytes.now)) }
{
    let front = is_ascii_at::<N>(bytes, 0);
    let back = is_ascii_at::<N>(bytes, bytes.len() - N);
    front && back
}

#[inline(always)]
fn is_ascii_long(bytes: &[u8]) -> bool
    requires { 16 ≤ length bytes.now }
    ensures { OnTrue result (IsAsciiWithin bytes.now 0 (length bytes.now)) }
{
    let last = bytes.len() - 16;
    let mut at = 0;
    'vectors: while at < last {
        if !is_ascii_at::<16>(bytes, at) {
            return false;
        }
        at += 16;
    }
    is_ascii_at::<16>(bytes, last)
}

/// Whether all bytes are ASCII. Overlapping vectors cover every length.
#[inline(always)]
pub fn is_all_ascii(bytes: &[u8]) -> bool
    ensures { OnTrue result (IsAscii bytes.now) }
{
    let len = bytes.len();
    if len >= 16 {
        is_ascii_long(bytes)
    } else if len >= 8 {
        is_ascii_at_ends::<8>(bytes)
    } else if len >= 4 {
        is_ascii_at_ends::<4>(bytes)
    } else {
        bytes.iter().all(|byte| byte.is_ascii())
    }
}
