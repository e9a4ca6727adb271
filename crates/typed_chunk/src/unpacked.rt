//! The way back from bytes to codes of one width.

ghost use Rattle.std.specs.Prelude.{◌≡◌, ◌≤◌, ◌<◌, ◌^◌, ◌*◌, ◌+◌, ◌/◌, ◌↔◌, ℕ, IsOk, IsTrue, List};
ghost use Rattle.std.specs.Prelude.{OnErr, OnOk, length, slice_index};
ghost use Rattle.std.specs.Int.{div_ceil};
ghost use Rattle.std.specs.Result.{result_err};
ghost use Rattle.typed_chunk.specs.Digits.{digits, number};
ghost use Rattle.typed_chunk.specs.Packed.{ArePacked, bits, code_in, codes_fault, packed_len};

use crate::fault::ChunkFault;
use crate::packed::packed_len;
use crate::width::Width;
use byteorder::{ByteOrder, LittleEndian};

/// The code at an index of the bytes of codes.
pub fn code_at(width: Width, bytes: &[u8], index: usize) -> u64
    requires few { index < 2 ^ 57 }
    requires within { bits width * (index + 1) ≤ 8 * length bytes.now }
    ensures value { result ≡ code_in (bits width) bytes.now index }
    ensures packed { (codes : List ℕ) → ArePacked (bits width) codes bytes.now
        → index < length codes → result ≡ slice_index codes index }
{
    code_of_width(width, bytes, index)
}

/// Reads as many codes as there is room for, which are all that the bytes have. The bytes are
/// refused, and nothing is written, if they are not as many as those of so many codes
/// (`WrongLength`), or if a bit past the last code is set (`BitsPastEnd`).
pub fn read_codes(width: Width, bytes: &[u8], codes: &mut [u64]) -> Result<(), ChunkFault>
    requires few { length codes.old < 2 ^ 57 }
    ensures fault { result_err result ≡ codes_fault (bits width) (length codes.old) bytes.now }
    ensures ok { OnOk result (ArePacked (bits width) codes.new bytes.now) }
    ensures err { OnErr result (codes.new ≡ codes.old) }
    ensures back { (items : List ℕ) → length items ≡ length codes.old
        → ArePacked (bits width) items bytes.now → IsOk result × (codes.new ≡ items) }
{
    if bytes.len() != packed_len(width, codes.len()) {
        return Err(ChunkFault::WrongLength);
    }
    if !ends_in_zeros(bytes, codes.len() * usize::from(width.bits())) {
        return Err(ChunkFault::BitsPastEnd);
    }
    fill_codes(width, bytes, codes);
    Ok(())
}

// The code at an index of the bytes.
fn code_of_width(width: Width, bytes: &[u8], index: usize) -> u64
    requires few { index < 2 ^ 57 }
    requires within { bits width * (index + 1) ≤ 8 * length bytes.now }
    ensures { result ≡ code_in (bits width) bytes.now index }
{
    match width {
        Width::Zero => 0,
        Width::One => narrow_code(bytes, index, 1),
        Width::Two => narrow_code(bytes, index, 2),
        Width::Four => narrow_code(bytes, index, 4),
        Width::Eight => wide_code(bytes, index, 1),
        Width::Sixteen => wide_code(bytes, index, 2),
        Width::ThirtyTwo => wide_code(bytes, index, 4),
        Width::SixtyFour => wide_code(bytes, index, 8),
    }
}

// Whether all bits past so many are 0.
fn ends_in_zeros(bytes: &[u8], count: usize) -> bool
    requires { length bytes.now ≡ div_ceil count 8 }
    ensures { IsTrue result ↔ (number 256 bytes.now < 2 ^ count) }
{
    count % 8 == 0 || bytes[count / 8] >> (count % 8) == 0
}

// Writes the codes of the bytes.
fn fill_codes(width: Width, bytes: &[u8], codes: &mut [u64])
    requires few { length codes.old < 2 ^ 57 }
    requires long { length bytes.now ≡ packed_len (bits width) (length codes.old) }
    ensures { codes.new ≡ digits (2 ^ bits width) (length codes.old) (number 256 bytes.now) }
{
    match width {
        Width::Zero => codes.fill(0),
        Width::One => fill_narrow(bytes, codes, 1),
        Width::Two => fill_narrow(bytes, codes, 2),
        Width::Four => fill_narrow(bytes, codes, 4),
        Width::Eight => fill_wide(bytes, codes, 1),
        Width::Sixteen => fill_wide(bytes, codes, 2),
        Width::ThirtyTwo => fill_wide(bytes, codes, 4),
        Width::SixtyFour => fill_wide(bytes, codes, 8),
    }
}

// Writes codes of which several are in a byte.
fn fill_narrow(bytes: &[u8], codes: &mut [u64], width: usize)
    requires some { 0 < width }
    requires whole { width * (8 / width) ≡ 8 }
    requires few { length codes.old < 2 ^ 57 }
    requires long { width * length codes.old ≤ 8 * length bytes.now }
    ensures { codes.new ≡ digits (2 ^ width) (length codes.old) (number 256 bytes.now) }
{
    for (index, code) in codes.iter_mut().enumerate() {
        *code = narrow_code(bytes, index, width);
    }
}

// Writes codes of whole bytes.
fn fill_wide(bytes: &[u8], codes: &mut [u64], size: usize)
    requires some { 1 ≤ size }
    requires low { size ≤ 8 }
    requires few { length codes.old < 2 ^ 57 }
    requires long { size * length codes.old ≤ length bytes.now }
    ensures { codes.new ≡ digits (2 ^ (8 * size)) (length codes.old) (number 256 bytes.now) }
{
    for (index, code) in codes.iter_mut().enumerate() {
        *code = wide_code(bytes, index, size);
    }
}

// The code at an index, where several are in a byte.
fn narrow_code(bytes: &[u8], index: usize, width: usize) -> u64
    requires some { 0 < width }
    requires whole { width * (8 / width) ≡ 8 }
    requires few { index < 2 ^ 57 }
    requires within { width * (index + 1) ≤ 8 * length bytes.now }
    ensures { result ≡ code_in width bytes.now index }
{
    let each = 8 / width;
    u64::from(bytes[index / each] >> (width * (index % each))) % (1 << width)
}

// The code at an index, where each is whole bytes.
fn wide_code(bytes: &[u8], index: usize, size: usize) -> u64
    requires some { 1 ≤ size }
    requires low { size ≤ 8 }
    requires few { index < 2 ^ 57 }
    requires within { size * (index + 1) ≤ length bytes.now }
    ensures { result ≡ code_in (8 * size) bytes.now index }
{
    let start = size * index;
    LittleEndian::read_uint(&bytes[start..start + size], size)
}
