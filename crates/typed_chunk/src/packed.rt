//! Codes of one width in bytes, one after the other, the lowest bits first.

ghost use Rattle.std.specs.Prelude.{◌≡◌, ◌≤◌, ◌<◌, ◌^◌, ◌+◌, ◌*◌, ◌/◌, ◌++◌, IsOk, length};
ghost use Rattle.std.specs.Prelude.{if◌then◌else◌, is_ok, vec_capacity, vec_len};
ghost use Rattle.typed_chunk.specs.Digits.{number};
ghost use Rattle.typed_chunk.specs.Packed.{FitWidth, bits, packed, packed_len};

use crate::width::Width;
use byteorder::{ByteOrder, LittleEndian};
use std::alloc::AllocError;

/// How many bytes so many codes take.
pub fn packed_len(width: Width, count: usize) -> usize
    requires { count < 2 ^ 57 }
    ensures { result ≡ packed_len (bits width) count }
{
    (count * usize::from(width.bits())).div_ceil(8)
}

/// Appends the bytes of codes that fit the width. If memory is refused, nothing is appended.
pub fn append_codes(out: &mut Vec<u8>, width: Width, codes: &[u64]) -> Result<(), AllocError>
    requires few { length codes.now < 2 ^ 57 }
    requires fit { FitWidth (bits width) codes.now }
    ensures items { out.new.items ≡ (if is_ok result
        then out.old.items ++ packed (bits width) codes.now else out.old.items) }
    ensures succeeds { vec_len out.old + packed_len (bits width) (length codes.now)
        ≤ vec_capacity out.old → IsOk result }
{
    let start = out.len();
    out.resize(start + packed_len(width, codes.len()), 0)?;
    write_codes(width, codes, &mut out[start..]);
    Ok(())
}

// Writes codes into exactly as many bytes as they take.
fn write_codes(width: Width, codes: &[u64], bytes: &mut [u8])
    requires few { length codes.now < 2 ^ 57 }
    requires fit { FitWidth (bits width) codes.now }
    requires room { length bytes.old ≡ packed_len (bits width) (length codes.now) }
    ensures { bytes.new ≡ packed (bits width) codes.now }
{
    match width {
        Width::Zero => {}
        Width::One => write_narrow(codes, bytes, 1),
        Width::Two => write_narrow(codes, bytes, 2),
        Width::Four => write_narrow(codes, bytes, 4),
        Width::Eight => write_wide(codes, bytes, 1),
        Width::Sixteen => write_wide(codes, bytes, 2),
        Width::ThirtyTwo => write_wide(codes, bytes, 4),
        Width::SixtyFour => write_wide(codes, bytes, 8),
    }
}

// Writes codes of which several are in a byte.
fn write_narrow(codes: &[u64], bytes: &mut [u8], width: usize)
    requires some { 0 < width }
    requires whole { width * (8 / width) ≡ 8 }
    requires few { length codes.now < 2 ^ 57 }
    requires fit { FitWidth width codes.now }
    requires room { length bytes.old ≡ packed_len width (length codes.now) }
    ensures { bytes.new ≡ packed width codes.now }
{
    let each = 8 / width;
    for index in 0..bytes.len() {
        let start = each * index;
        let end = codes.len().min(start + each);
        bytes[index] = byte_of(&codes[start..end], width);
    }
}

// The byte of a few codes.
fn byte_of(codes: &[u64], width: usize) -> u8
    requires few { width * length codes.now ≤ 8 }
    requires some { 0 < width }
    requires fit { FitWidth width codes.now }
    ensures { result ≡ number (2 ^ width) codes.now }
{
    let mut byte = 0;
    for (index, code) in codes.iter().enumerate() {
        byte += *code << (width * index);
    }
    byte as u8
}

// Writes codes of whole bytes.
fn write_wide(codes: &[u64], bytes: &mut [u8], size: usize)
    requires some { 1 ≤ size }
    requires few { size ≤ 8 }
    requires fit { FitWidth (8 * size) codes.now }
    requires room { length bytes.old ≡ size * length codes.now }
    ensures { bytes.new ≡ packed (8 * size) codes.now }
{
    for (index, code) in codes.iter().enumerate() {
        let start = size * index;
        LittleEndian::write_uint(&mut bytes[start..start + size], *code, size);
    }
}
