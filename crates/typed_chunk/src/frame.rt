//! Signed numbers of 64 bits by the least of them and how far each is above it.

ghost use Rattle.std.specs.Prelude.{◌≡◌, ◌<◌, ◌^◌, ◌++◌, ℤ, All, FitsSigned, IsOk, List, OnErr};
ghost use Rattle.std.specs.Prelude.{OnOk};
ghost use Rattle.std.specs.Prelude.{fold, if◌then◌else◌, is_ok, length, map};
ghost use Rattle.std.specs.Int.{int_min, w64};
ghost use Rattle.std.specs.Result.{result_err};
ghost use Rattle.typed_chunk.specs.Frame.{IsFrame, frame, frame_fault, frame_values, height};
ghost use Rattle.typed_chunk.specs.Frame.{least_in, least_value, range_fault, signed_word};
ghost use Rattle.typed_chunk.specs.Frame.{value_at_height};

use crate::fault::ChunkFault;
use crate::headed::{append_headed, greatest, read_headed};
use byteorder::{BigEndian, ByteOrder};
use std::alloc::AllocError;

/// Appends the bytes of values: the least width for how far they are above the least of them, that
/// one in 8 bytes, and how far each is above it. `codes` is room for as many codes as there are
/// values, and afterwards they may be any. If memory is refused, nothing is appended.
pub fn append_frame(out: &mut Vec<u8>, values: &[i64], codes: &mut [u64]) -> Result<(), AllocError>
    requires some { 0 < length values.now }
    requires few { length values.now < 2 ^ 57 }
    requires room { length codes.old ≡ length values.now }
    ensures { out.new.items ≡ (if is_ok result
        then out.old.items ++ frame (signed_word w64) values.now else out.old.items) }
{
    let least = least_value(values);
    write_heights(least, values, codes);
    append_headed(out, &least.to_be_bytes(), codes)
}

/// Reads as many values as there is room for, which are all that the bytes have. `codes` is room
/// for as many codes, and afterwards they may be any. Bytes that are not those that these values
/// are written as are refused, and then no value is written. The first of these is reported:
///
/// - `WrongLength`: there are fewer than 9 bytes;
/// - `NoSuchWidth`: codes never have so many bits as the first byte says;
/// - `WrongLength`: the bytes behind the least value are not as many as those of so many codes;
/// - `BitsPastEnd`: a bit past the last code is set;
/// - `NotLeastWidth`: all codes fit a lower width;
/// - `NotLeastValue`: no code is 0;
/// - `ValueOutOfRange`: the greatest value is not one of 64 bits.
pub fn read_frame(bytes: &[u8], codes: &mut [u64], values: &mut [i64]) -> Result<(), ChunkFault>
    requires few { length values.old < 2 ^ 57 }
    requires room { length codes.old ≡ length values.old }
    ensures fault { result_err result ≡ frame_fault w64 (length values.old) bytes.now }
    ensures ok { OnOk result (IsFrame (signed_word w64) values.new bytes.now) }
    ensures told { OnOk result (values.new
        ≡ frame_values w64 (length values.old) bytes.now) }
    ensures err { OnErr result (values.new ≡ values.old) }
    ensures back { (items : List ℤ) → length items ≡ length values.old
        → All (FitsSigned w64) items → IsFrame (signed_word w64) items bytes.now
        → IsOk result × (values.new ≡ items) }
{
    read_headed(bytes, 8, codes)?;
    let least = least_in(bytes);
    check_range(least, codes)?;
    write_values(least, codes, values);
    Ok(())
}

// The least of the values, or 0 of none.
pub(crate) fn least_value(values: &[i64]) -> i64
    ensures { result ≡ least_value values.now }
{
    match values {
        [first, rest @ ..] => least_of(*first, rest),
        [] => 0,
    }
}

// The least of one value and others.
#[tactic(auto, using(crate::proofs::FrameLaws::least_steps))]
fn least_of(first: i64, rest: &[i64]) -> i64
    ensures { result ≡ fold int_min first rest.now }
{
    let mut least = first;
    for value in rest {
        least = least.min(*value);
    }
    least
}

// Writes how far each value is above the least.
pub(crate) fn write_heights(least: i64, values: &[i64], codes: &mut [u64])
    requires { length codes.old ≡ length values.now }
    ensures { codes.new ≡ map (height least) values.now }
{
    for (index, code) in codes.iter_mut().enumerate() {
        *code = values[index].abs_diff(least);
    }
}

// The least value that bytes tell.
fn least_in(bytes: &[u8]) -> i64
    requires { 8 < length bytes.now }
    ensures { result ≡ least_in w64 bytes.now }
{
    BigEndian::read_i64(&bytes[1..])
}

// Whether the value of the greatest code has 64 bits.
fn check_range(least: i64, codes: &[u64]) -> Result<(), ChunkFault>
    ensures { result_err result ≡ range_fault 63 least codes.now }
{
    match least.checked_add_unsigned(greatest(codes)) {
        Some(_) => Ok(()),
        None => Err(ChunkFault::ValueOutOfRange),
    }
}

// Writes the values that are so far above the least.
fn write_values(least: i64, codes: &[u64], values: &mut [i64])
    requires long { length values.old ≡ length codes.now }
    requires fit { All (λ code. FitsSigned w64 (value_at_height least code)) codes.now }
    ensures { values.new ≡ map (value_at_height least) codes.now }
{
    for (index, value) in values.iter_mut().enumerate() {
        *value = least.wrapping_add_unsigned(codes[index]);
    }
}
