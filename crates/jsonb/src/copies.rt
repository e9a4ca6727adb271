//! Copies of short texts without a call.

ghost use Rattle.std.specs.Prelude.{◌≡◌, ◌+◌, ◌<◌, ◌≤◌, ◌++◌, length, take};

use std::simd::Simd;

/// Stores a text at a place. The place after it.
#[inline(always)]
pub fn store(bytes: &mut [u8], at: usize, text: &[u8]) -> usize
    requires { at + length text.now ≤ length bytes.old }
    ensures text { take result bytes.new ≡ take at bytes.old ++ text.now }
    ensures within { result ≤ length bytes.new }
    ensures len { length bytes.new ≡ length bytes.old }
{
    let end = at + text.len();
    copy(&mut bytes[at..end], text);
    end
}

// Copies a text. A short one is two copies of a constant length, which overlap.
#[inline(always)]
fn copy(room: &mut [u8], text: &[u8])
    requires { length room.old ≡ length text.now }
    ensures { room.new ≡ text.now }
{
    let len = text.len();
    if len < 8 {
        copy_few(room, text);
    } else if len <= 16 {
        copy_ends::<8>(room, text);
    } else if len <= 32 {
        copy_ends::<16>(room, text);
    } else if len <= 64 {
        copy_ends::<32>(room, text);
    } else {
        copy_long(room, text);
    }
}

#[inline(always)]
fn copy_few(room: &mut [u8], text: &[u8])
    requires same { length room.old ≡ length text.now }
    requires few { length text.now < 8 }
    ensures { room.new ≡ text.now }
{
    let len = text.len();
    if len >= 4 {
        copy_ends::<4>(room, text);
    } else if len >= 2 {
        copy_ends::<2>(room, text);
    } else if len == 1 {
        copy_ends::<1>(room, text);
    }
}

// Copies the first and the last N bytes, which are all.
#[inline(always)]
fn copy_ends<const N: usize>(room: &mut [u8], text: &[u8])
    requires same { length room.old ≡ length text.now }
    requires covers { (N ≤ length text.now) × (length text.now ≤ N + N) }
    ensures { room.new ≡ text.now }
{
    let back = text.len() - N;
    Simd::<u8, N>::from_slice(text).copy_to_slice(room);
    Simd::<u8, N>::from_slice(&text[back..]).copy_to_slice(&mut room[back..]);
}

#[inline(never)]
fn copy_long(room: &mut [u8], text: &[u8])
    requires { length room.old ≡ length text.now }
    ensures { room.new ≡ text.now }
{
    room.copy_from_slice(text);
}
