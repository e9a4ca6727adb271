//! The way back from bytes to a chunk of numbers.

ghost use Rattle.std.specs.Prelude.{◌≡◌, ◌<◌, ◌^◌, ◌++◌, ◌∷◌, ℤ, [], All, Bool, FitsSigned, IsOk};
ghost use Rattle.std.specs.Prelude.{IsTrue, List, OnOk, Some, length, true, ℕ};
ghost use Rattle.std.specs.Int.{w64};
ghost use Rattle.std.specs.Result.{result_err};
ghost use Rattle.typed_chunk.specs.Flags.{all_have, flags, flags_fault, some_has};
ghost use Rattle.typed_chunk.specs.Frame.{frame_fault, frame_values};
ghost use Rattle.typed_chunk.specs.Headed.{first_fault};
ghost use Rattle.typed_chunk.specs.NumberChunk.{filled, number_chunk, number_kind, rises_shorter};
ghost use Rattle.typed_chunk.specs.NumberChunk.{values_bytes};
ghost use Rattle.typed_chunk.specs.NumberReading.{IsPacked, kind_fault, may_rise, packed_fault};
ghost use Rattle.typed_chunk.specs.NumberReading.{risen_fault, values_fault};
ghost use Rattle.typed_chunk.specs.Rising.{IsRising, rising_fault, rising_values};
ghost use Rattle.typed_chunk.specs.declared.fault.ChunkFault.{ChunkFault};

use crate::fault::ChunkFault;
use crate::filled::least_set;
use crate::flags::{all_have, read_flags, some_has};
use crate::frame::{read_frame, write_heights};
use crate::kinds::rises_shorter;
use crate::parts::behind;
use crate::places::are_zeros;
use crate::rising::read_rising;

/// Reads the chunk of a column of numbers: which of so many rows have one as there is room for, and
/// the numbers. A row that has none gets the least of the others, or any if no row has one. `codes`
/// is room for one code a row, and afterwards they may be any. Bytes that are not those of the
/// chunk of these rows are refused, and then rows and numbers may be any. The first of these is
/// reported:
///
/// - what `read_flags` reports;
/// - `WrongLength`: there is a byte behind the flags although no row has a number, or there is none
///   although one has;
/// - `NoSuchKind`: the byte of the kind is neither 0, nor 1 where each row has a number and there
///   are two;
/// - what `read_frame` reports of the bytes behind a 0, or `read_rising` of those behind a 1;
/// - `NumberOfNoValue`: behind a 0, a row that has no number has another one than the least of the
///   others;
/// - `NotShortestKind`: the numbers take fewer bytes by the other kind, or as many and the kind is
///   1.
pub fn read_number_chunk(
    bytes: &[u8],
    codes: &mut [u64],
    has: &mut [bool],
    values: &mut [i64],
) -> Result<(), ChunkFault>
    requires some { 0 < length has.old }
    requires few { length has.old < 2 ^ 57 }
    requires rows { length values.old ≡ length has.old }
    requires room { length codes.old ≡ length has.old }
    ensures flags { (fault : ChunkFault) → flags_fault (length has.old) bytes.now ≡ Some fault
        → result_err result ≡ Some fault }
    ensures fault { (rows : List Bool) (rest : List ℕ) → length rows ≡ length has.old
        → bytes.now ≡ flags rows ++ rest → result_err result ≡ values_fault rows rest }
    ensures ok { OnOk result (bytes.now ≡ number_chunk values.new has.new) }
    ensures back { (items : List ℤ) (rows : List Bool) → length items ≡ length has.old
        → length rows ≡ length has.old → All (FitsSigned w64) items
        → bytes.now ≡ number_chunk items rows → IsOk result × (has.new ≡ rows)
        × (some_has rows ≡ true → values.new ≡ filled items rows) }
{
    let rest = read_flags(bytes, codes, has)?;
    read_values(rest, has, codes, values)?;
    Ok(())
}

// Reads the numbers of rows behind their flags.
fn read_values(
    bytes: &[u8],
    has: &[bool],
    codes: &mut [u64],
    values: &mut [i64],
) -> Result<(), ChunkFault>
    requires some { 0 < length has.now }
    requires few { length has.now < 2 ^ 57 }
    requires rows { length values.old ≡ length has.now }
    requires room { length codes.old ≡ length has.now }
    ensures fault { result_err result ≡ values_fault has.now bytes.now }
    ensures ok { OnOk result (bytes.now ≡ values_bytes values.new has.now) }
    ensures back { (items : List ℤ) → length items ≡ length has.now → All (FitsSigned w64) items
        → bytes.now ≡ values_bytes items has.now
        → IsOk result × (some_has has.now ≡ true → values.new ≡ filled items has.now) }
{
    if bytes.is_empty() {
        return check_no_bytes(has);
    }
    if !some_has(has) {
        return Err(ChunkFault::WrongLength);
    }
    read_kind(bytes[0], behind(bytes, 1), has, codes, values)?;
    Ok(())
}

// Whether no row has a number, so that there are no bytes behind the flags.
pub(crate) fn check_no_bytes(has: &[bool]) -> Result<(), ChunkFault>
    ensures { result_err result ≡ values_fault has.now [] }
{
    if some_has(has) {
        return Err(ChunkFault::WrongLength);
    }
    Ok(())
}

// Reads numbers of a kind.
fn read_kind(
    kind: u8,
    bytes: &[u8],
    has: &[bool],
    codes: &mut [u64],
    values: &mut [i64],
) -> Result<(), ChunkFault>
    requires some { 0 < length has.now }
    requires few { length has.now < 2 ^ 57 }
    requires rows { length values.old ≡ length has.now }
    requires room { length codes.old ≡ length has.now }
    ensures fault { result_err result ≡ kind_fault has.now kind bytes.now }
    ensures ok { OnOk result (kind ∷ bytes.now ≡ number_kind (all_have has.now) values.new) }
    ensures unset { OnOk result (values.new ≡ filled values.new has.now) }
    ensures back { (items : List ℤ) → length items ≡ length has.now → All (FitsSigned w64) items
        → items ≡ filled items has.now → kind ∷ bytes.now ≡ number_kind (all_have has.now) items
        → IsOk result × (values.new ≡ items) }
{
    if kind == 0 {
        read_packed(bytes, has, codes, values)?;
        return Ok(());
    }
    if kind != 1 {
        return Err(ChunkFault::NoSuchKind);
    }
    if !may_rise(has) {
        return Err(ChunkFault::NoSuchKind);
    }
    read_risen(bytes, codes, values)?;
    Ok(())
}

// Whether all rows have a value, and there are two.
fn may_rise(has: &[bool]) -> bool
    ensures { result ≡ may_rise has.now }
{
    if !all_have(has) {
        return false;
    }
    has.len() > 1
}

// Reads numbers as a frame.
fn read_packed(
    bytes: &[u8],
    has: &[bool],
    codes: &mut [u64],
    values: &mut [i64],
) -> Result<(), ChunkFault>
    requires few { length has.now < 2 ^ 57 }
    requires rows { length values.old ≡ length has.now }
    requires room { length codes.old ≡ length has.now }
    ensures fault { result_err result ≡ first_fault (frame_fault w64 (length has.now) bytes.now)
        (packed_fault has.now (frame_values w64 (length has.now) bytes.now)) }
    ensures ok { OnOk result (IsPacked has.now values.new bytes.now) }
    ensures back { (items : List ℤ) → length items ≡ length has.now → All (FitsSigned w64) items
        → IsPacked has.now items bytes.now → IsOk result × (values.new ≡ items) }
{
    read_frame(bytes, codes, values)?;
    check_packed(has, values, codes)?;
    Ok(())
}

// Whether numbers that were read as a frame are so written.
fn check_packed(has: &[bool], values: &[i64], codes: &mut [u64]) -> Result<(), ChunkFault>
    requires few { length has.now < 2 ^ 57 }
    requires rows { length values.now ≡ length has.now }
    requires room { length codes.old ≡ length has.now }
    ensures { result_err result ≡ packed_fault has.now values.now }
{
    let least = least_set(values, has);
    write_heights(least, values, codes);
    if !are_zeros(codes, has) {
        return Err(ChunkFault::NumberOfNoValue);
    }
    if rises_shorter(all_have(has), values, codes) {
        return Err(ChunkFault::NotShortestKind);
    }
    Ok(())
}

// Reads numbers as rising ones.
fn read_risen(bytes: &[u8], codes: &mut [u64], values: &mut [i64]) -> Result<(), ChunkFault>
    requires two { 1 < length values.old }
    requires few { length values.old < 2 ^ 57 }
    requires room { length codes.old ≡ length values.old }
    ensures fault { result_err result ≡ first_fault (rising_fault w64 (length values.old) bytes.now)
        (risen_fault (rising_values w64 (length values.old) bytes.now)) }
    ensures ok { OnOk result (IsRising w64 values.new bytes.now) }
    ensures shorter { OnOk result (rises_shorter true values.new ≡ true) }
    ensures back { (items : List ℤ) → length items ≡ length values.old
        → All (FitsSigned w64) items → IsRising w64 items bytes.now
        → rises_shorter true items ≡ true → IsOk result × (values.new ≡ items) }
{
    read_rising(bytes, &mut codes[1..], values)?;
    if !rises_shorter(true, values, codes) {
        return Err(ChunkFault::NotShortestKind);
    }
    Ok(())
}
