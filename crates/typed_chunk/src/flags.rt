//! Which rows of a block have a value.

ghost use Rattle.std.specs.Prelude.{◌≡◌, ◌≤◌, ◌<◌, ◌^◌, ◌++◌, ◌∷◌, ℕ, Bool, IfOk, IsOk, List};
ghost use Rattle.std.specs.Prelude.{drop, false, if◌then◌else◌, is_ok, length, replicate, take};
ghost use Rattle.std.specs.Prelude.{true};
ghost use Rattle.std.specs.Result.{result_err};
ghost use Rattle.typed_chunk.specs.Flags.{all_have, bits_fault, flag_bits, flags, flags_fault};
ghost use Rattle.typed_chunk.specs.Flags.{rows_of, some_fault, some_has};

use crate::fault::ChunkFault;
use crate::packed::{append_codes, packed_len};
use crate::parts::{behind, front};
use crate::unpacked::read_codes;
use crate::width::Width;
use std::alloc::AllocError;

/// Appends which rows have a value: 0 if none has one, 1 if all have one, else 2 and a bit for each
/// row, the lowest first. `codes` is room for one code a row, and afterwards they may be any. If
/// memory is refused, nothing is appended.
#[tactic(auto, using(crate::proofs::FlagLaws::flag_cases))]
pub fn append_flags(out: &mut Vec<u8>, has: &[bool], codes: &mut [u64]) -> Result<(), AllocError>
    requires few { length has.now < 2 ^ 57 }
    requires room { length codes.old ≡ length has.now }
    ensures { out.new.items ≡ (if is_ok result
        then out.old.items ++ flags has.now else out.old.items) }
{
    if !some_has(has) {
        return out.extend_from_slice(&[0]);
    }
    if all_have(has) {
        return out.extend_from_slice(&[1]);
    }
    write_bits(has, codes);
    out.reserve(1 + packed_len(Width::One, codes.len()))?;
    out.push_reserved(2);
    append_codes(out, Width::One, codes)
}

/// Reads which of so many rows have a value as there is room for, and answers what is behind that.
/// `codes` is room for as many codes, and afterwards they may be any. Bytes that do not begin as
/// these rows are written are refused, and then the rows may be any. The first of these is
/// reported:
///
/// - `WrongLength`: there is no byte;
/// - `NoSuchFlags`: the first byte is none of 0, 1 and 2;
/// - `WrongLength`: behind a 2 there are fewer bytes than those of a bit for each row;
/// - `BitsPastEnd`: a bit past the last is set;
/// - `NotSomeFlags`: no bit or each bit is set.
pub fn read_flags<'a>(
    bytes: &'a [u8],
    codes: &mut [u64],
    has: &mut [bool],
) -> Result<&'a [u8], ChunkFault>
    requires some { 0 < length has.old }
    requires few { length has.old < 2 ^ 57 }
    requires room { length codes.old ≡ length has.old }
    ensures fault { result_err result ≡ flags_fault (length has.old) bytes.now }
    ensures ok { IfOk result (λ rest. bytes.now ≡ flags has.new ++ rest.now) }
    ensures back { (items : List Bool) (rest : List ℕ) → length items ≡ length has.old
        → bytes.now ≡ flags items ++ rest
        → IsOk result × (has.new ≡ items) × IfOk result (λ behind. behind.now ≡ rest) }
{
    if bytes.is_empty() {
        return Err(ChunkFault::WrongLength);
    }
    read_behind(bytes[0], behind(bytes, 1), codes, has)
}

// Reads which rows have a value behind the first byte.
fn read_behind<'a>(
    first: u8,
    bytes: &'a [u8],
    codes: &mut [u64],
    has: &mut [bool],
) -> Result<&'a [u8], ChunkFault>
    requires some { 0 < length has.old }
    requires few { length has.old < 2 ^ 57 }
    requires room { length codes.old ≡ length has.old }
    ensures fault { result_err result ≡ flags_fault (length has.old) (first ∷ bytes.now) }
    ensures ok { IfOk result (λ rest. first ∷ bytes.now ≡ flags has.new ++ rest.now) }
    ensures back { (items : List Bool) (rest : List ℕ) → length items ≡ length has.old
        → first ∷ bytes.now ≡ flags items ++ rest
        → IsOk result × (has.new ≡ items) × IfOk result (λ behind. behind.now ≡ rest) }
{
    if first == 0 {
        unset_all(has);
        return Ok(bytes);
    }
    if first == 1 {
        set_all(has);
        return Ok(bytes);
    }
    if first == 2 {
        return read_some(bytes, codes, has);
    }
    Err(ChunkFault::NoSuchFlags)
}

// Says that no row has a value.
pub(crate) fn unset_all(has: &mut [bool])
    ensures { has.new ≡ replicate (length has.old) false }
{
    has.fill(false);
}

// Says that each row has a value.
pub(crate) fn set_all(has: &mut [bool])
    ensures { has.new ≡ replicate (length has.old) true }
{
    has.fill(true);
}

// Reads a bit for each row, and answers what is behind them.
fn read_some<'a>(
    bytes: &'a [u8],
    codes: &mut [u64],
    has: &mut [bool],
) -> Result<&'a [u8], ChunkFault>
    requires few { length has.old < 2 ^ 57 }
    requires room { length codes.old ≡ length has.old }
    ensures fault { result_err result ≡ bits_fault (length has.old) bytes.now }
    ensures ok { IfOk result (λ rest. 2 ∷ bytes.now ≡ flags has.new ++ rest.now) }
    ensures back { (items : List Bool) (rest : List ℕ) → length items ≡ length has.old
        → 2 ∷ bytes.now ≡ flags items ++ rest
        → IsOk result × (has.new ≡ items) × IfOk result (λ behind. behind.now ≡ rest) }
{
    let size = packed_len(Width::One, codes.len());
    if bytes.len() < size {
        return Err(ChunkFault::WrongLength);
    }
    read_codes(Width::One, front(bytes, size), codes)?;
    write_rows(codes, has);
    check_some(has)?;
    Ok(behind(bytes, size))
}

// Whether some rows have a value, and some have none.
fn check_some(has: &[bool]) -> Result<(), ChunkFault>
    ensures { result_err result ≡ some_fault has.now }
{
    if !some_has(has) || all_have(has) {
        return Err(ChunkFault::NotSomeFlags);
    }
    Ok(())
}

// Whether a row has a value.
pub(crate) fn some_has(has: &[bool]) -> bool
    ensures { result ≡ some_has has.now }
{
    for flag in has {
        if *flag {
            return true;
        }
    }
    false
}

// Whether all rows have a value.
pub(crate) fn all_have(has: &[bool]) -> bool
    ensures { result ≡ all_have has.now }
{
    for flag in has {
        if !*flag {
            return false;
        }
    }
    true
}

// Writes a code for each row: 1 if it has a value.
fn write_bits(has: &[bool], codes: &mut [u64])
    requires { length codes.old ≡ length has.now }
    ensures { codes.new ≡ flag_bits has.now }
{
    for (index, code) in codes.iter_mut().enumerate() {
        *code = u64::from(has[index]);
    }
}

// Writes which rows have a value by their codes.
pub(crate) fn write_rows(codes: &[u64], has: &mut [bool])
    requires { length has.old ≡ length codes.now }
    ensures { has.new ≡ rows_of codes.now }
{
    for (index, flag) in has.iter_mut().enumerate() {
        *flag = codes[index] == 1;
    }
}
