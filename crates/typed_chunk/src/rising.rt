//! Signed numbers of 64 bits of which none is below the one before it, by the first of them and
//! how far each of the others rises.

ghost use Rattle.std.specs.Prelude.{◌≡◌, ◌≤◌, ◌<◌, ◌^◌, ◌+◌, ◌++◌, ℕ, ℤ, pos, ◌+ℤ◌, ◌∷◌, All};
ghost use Rattle.std.specs.Prelude.{FitsSigned};
ghost use Rattle.std.specs.Prelude.{IsOk, IsTrue, List, OnErr, OnOk, if◌then◌else◌, is_ok, length};
ghost use Rattle.std.specs.Prelude.{get_or, set, sum};
ghost use Rattle.std.specs.Int.{cast_signed, w64};
ghost use Rattle.std.specs.Result.{result_err};
ghost use Rattle.byteorder.specs.Endian.{big_number};
ghost use Rattle.typed_chunk.specs.Frame.{signed_word};
ghost use Rattle.typed_chunk.specs.Rising.{IsRising, last_fault, rises, rises_from, rising};
ghost use Rattle.typed_chunk.specs.Rising.{rising_fault, rising_values, steps_of, values_from};

use crate::fault::ChunkFault;
use crate::naturals::{append_naturals, read_naturals};
use byteorder::{BigEndian, ByteOrder};
use std::alloc::AllocError;

/// Whether no value is below the one before it.
pub fn rises(values: &[i64]) -> bool
    ensures { result ≡ rises values.now }
{
    match values {
        [first, rest @ ..] => rises_from(*first, rest),
        [] => true,
    }
}

/// Appends the bytes of values of which none is below the one before it: the first in 8 bytes,
/// then, as a frame of numbers without a sign, how far each of the others is above the one before
/// it. `steps` is room for one number less than there are values, and afterwards they may be any.
/// If memory is refused, nothing is appended.
pub fn append_rising(out: &mut Vec<u8>, values: &[i64], steps: &mut [u64]) -> Result<(), AllocError>
    requires two { 1 < length values.now }
    requires few { length values.now < 2 ^ 57 }
    requires rises { IsTrue (rises values.now) }
    requires room { length steps.old + 1 ≡ length values.now }
    ensures { out.new.items ≡ (if is_ok result
        then out.old.items ++ rising w64 values.now else out.old.items) }
{
    write_steps(values, steps);
    let start = out.len();
    append_first(out, values)?;
    match append_naturals(out, 8, steps) {
        Ok(()) => Ok(()),
        Err(error) => {
            out.truncate(start);
            Err(error)
        }
    }
}

/// Reads as many values as there is room for, which are all that the bytes have. `steps` is room
/// for one number less, and afterwards they may be any. Bytes that are not those that these values
/// are written as are refused, and then no value is written. The first of these is reported:
///
/// - `WrongLength`: there are fewer than 17 bytes;
/// - `NoSuchWidth`: codes never have so many bits as the ninth byte says;
/// - `WrongLength`: the bytes behind the least step are not as many as those of so many codes;
/// - `BitsPastEnd`: a bit past the last code is set;
/// - `NotLeastWidth`: all codes fit a lower width;
/// - `NotLeastValue`: no code is 0;
/// - `ValueOutOfRange`: the greatest step or the last value is not one of 64 bits.
pub fn read_rising(bytes: &[u8], steps: &mut [u64], values: &mut [i64]) -> Result<(), ChunkFault>
    requires two { 1 < length values.old }
    requires few { length values.old < 2 ^ 57 }
    requires room { length steps.old + 1 ≡ length values.old }
    ensures fault { result_err result ≡ rising_fault w64 (length values.old) bytes.now }
    ensures ok { OnOk result (IsRising w64 values.new bytes.now) }
    ensures told { OnOk result (values.new
        ≡ rising_values w64 (length values.old) bytes.now) }
    ensures err { OnErr result (values.new ≡ values.old) }
    ensures back { (items : List ℤ) → length items ≡ length values.old
        → All (FitsSigned w64) items → IsRising w64 items bytes.now
        → IsOk result × (values.new ≡ items) }
{
    if bytes.len() < 8 {
        return Err(ChunkFault::WrongLength);
    }
    read_naturals(&bytes[8..], 8, steps)?;
    let first = first_in(bytes);
    check_last(first, steps)?;
    write_values(first, steps, values);
    Ok(())
}

// Appends the first value.
fn append_first(out: &mut Vec<u8>, values: &[i64]) -> Result<(), AllocError>
    requires { 0 < length values.now }
    ensures { out.new.items ≡ (if is_ok result
        then out.old.items ++ signed_word w64 (get_or values.now 0 (pos 0)) else out.old.items) }
{
    out.extend_from_slice(&values[0].to_be_bytes())
}

// Whether no value is below the one before it, where one was before them.
#[tactic(auto, using(crate::proofs::RisingLaws::order_steps))]
fn rises_from(first: i64, rest: &[i64]) -> bool
    ensures { result ≡ rises_from first rest.now }
{
    let mut before = first;
    for value in rest {
        if *value < before {
            return false;
        }
        before = *value;
    }
    true
}

// Writes how far each value but the first is above the one before it.
pub(crate) fn write_steps(values: &[i64], steps: &mut [u64])
    requires { length steps.old + 1 ≡ length values.now }
    ensures { steps.new ≡ steps_of values.now }
{
    for (index, step) in steps.iter_mut().enumerate() {
        *step = values[index + 1].abs_diff(values[index]);
    }
}

// The first value that bytes tell.
fn first_in(bytes: &[u8]) -> i64
    requires { 8 ≤ length bytes.now }
    ensures { result ≡ cast_signed w64 (big_number 8 bytes.now) }
{
    BigEndian::read_i64(bytes)
}

// Whether the last value has 64 bits.
#[tactic(auto, using(crate::proofs::RisingLaws::last_steps))]
fn check_last(first: i64, steps: &[u64]) -> Result<(), ChunkFault>
    requires { length steps.now < 2 ^ 57 }
    ensures { result_err result ≡ last_fault 63 first steps.now }
{
    let mut sum: u128 = 0;
    for step in steps {
        sum += u128::from(*step);
    }
    if i128::from(first) + sum as i128 >= 0x8000_0000_0000_0000 {
        return Err(ChunkFault::ValueOutOfRange);
    }
    Ok(())
}

// Writes the values that rise by these steps.
fn write_values(first: i64, steps: &[u64], values: &mut [i64])
    requires room { length values.old ≡ length steps.now + 1 }
    requires fits { FitsSigned w64 (first +ℤ pos (sum steps.now)) }
    ensures { values.new ≡ first ∷ values_from first steps.now }
{
    values[0] = first;
    for (index, step) in steps.iter().enumerate() {
        write_next(values, index, *step);
    }
}

// Writes the value behind an index, which is so far above that at the index.
fn write_next(values: &mut [i64], index: usize, step: u64)
    requires inside { index + 1 < length values.old }
    requires fits { FitsSigned w64 (get_or values.old index (pos 0) +ℤ pos step) }
    ensures { values.new
        ≡ set values.old (index + 1) (get_or values.old index (pos 0) +ℤ pos step) }
{
    values[index + 1] = raised(values[index], step);
}

// The value that is so far above another.
fn raised(value: i64, step: u64) -> i64
    requires { FitsSigned w64 (value +ℤ pos step) }
    ensures { result ≡ value +ℤ pos step }
{
    value.wrapping_add_unsigned(step)
}
