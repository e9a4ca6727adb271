//! The way back from bytes to a chunk of booleans.

ghost use Rattle.std.specs.Prelude.{◌≡◌, ◌<◌, ◌^◌, ◌++◌, Bool, IsOk, IsTrue, List, OnOk, Some};
ghost use Rattle.std.specs.Prelude.{◌∷◌, length, true, ℕ};
ghost use Rattle.std.specs.Result.{result_err};
ghost use Rattle.typed_chunk.specs.BooleanChunk.{all_unset, boolean_bytes, boolean_chunk};
ghost use Rattle.typed_chunk.specs.BooleanChunk.{booleans_fault, numbers_fault, numbers_of};
ghost use Rattle.typed_chunk.specs.BooleanChunk.{unset_least};
ghost use Rattle.typed_chunk.specs.Flags.{flags, flags_fault, rows_of, some_has};
ghost use Rattle.typed_chunk.specs.Frame.{frame, naturals_fault, numbers_in, unsigned_word};
ghost use Rattle.typed_chunk.specs.Headed.{first_fault};
ghost use Rattle.typed_chunk.specs.NumberChunk.{filled};
ghost use Rattle.typed_chunk.specs.declared.fault.ChunkFault.{ChunkFault};

use crate::boolean_chunk::all_true;
use crate::fault::ChunkFault;
use crate::flags::{read_flags, some_has, write_rows};
use crate::naturals::read_naturals;
use crate::number_reading::check_no_bytes;
use crate::parts::behind;
use crate::places::all_below;

/// Reads the chunk of a column of booleans: which of so many rows have one as there is room for,
/// and the booleans. A row that has none gets the least of the others, which is false if one of
/// them is, or any if no row has one. `codes` is room for one code a row, and afterwards they may
/// be any. Bytes that are not those of the chunk of these rows are refused, and then rows and
/// booleans may be any. The first of these is reported:
///
/// - what `read_flags` reports;
/// - `WrongLength`: there is a byte behind the flags although no row has a boolean, or there is
///   none although one has;
/// - `NoSuchKind`: the byte of the kind is not 0;
/// - `WrongLength`: there are fewer than 2 bytes behind it;
/// - `NoSuchWidth`: codes never have so many bits as the first of these says;
/// - `WrongLength`: the bytes behind the least number are not as many as those of so many codes;
/// - `BitsPastEnd`: a bit past the last code is set;
/// - `NotLeastWidth`: all codes fit a lower width;
/// - `NotLeastValue`: no code is 0;
/// - `ValueOutOfRange`: the greatest number is above 1;
/// - `NumberOfNoValue`: a row that has no boolean has another number than the least of the others.
pub fn read_boolean_chunk(
    bytes: &[u8],
    codes: &mut [u64],
    has: &mut [bool],
    values: &mut [bool],
) -> Result<(), ChunkFault>
    requires some { 0 < length has.old }
    requires few { length has.old < 2 ^ 57 }
    requires rows { length values.old ≡ length has.old }
    requires room { length codes.old ≡ length has.old }
    ensures flags { (fault : ChunkFault) → flags_fault (length has.old) bytes.now ≡ Some fault
        → result_err result ≡ Some fault }
    ensures fault { (rows : List Bool) (rest : List ℕ) → length rows ≡ length has.old
        → bytes.now ≡ flags rows ++ rest → result_err result ≡ booleans_fault rows rest }
    ensures ok { OnOk result (bytes.now ≡ boolean_chunk values.new has.new) }
    ensures back { (items rows : List Bool) → length items ≡ length has.old
        → length rows ≡ length has.old → bytes.now ≡ boolean_chunk items rows
        → IsOk result × (has.new ≡ rows)
        × (some_has rows ≡ true → numbers_of values.new ≡ filled (numbers_of items) rows) }
{
    let rest = read_flags(bytes, codes, has)?;
    read_booleans(rest, has, codes, values)?;
    Ok(())
}

// Reads the booleans of rows behind their flags.
fn read_booleans(
    bytes: &[u8],
    has: &[bool],
    codes: &mut [u64],
    values: &mut [bool],
) -> Result<(), ChunkFault>
    requires few { length has.now < 2 ^ 57 }
    requires rows { length values.old ≡ length has.now }
    requires room { length codes.old ≡ length has.now }
    ensures fault { result_err result ≡ booleans_fault has.now bytes.now }
    ensures ok { OnOk result (bytes.now ≡ boolean_bytes values.new has.now) }
    ensures back { (items : List Bool) → length items ≡ length has.now
        → bytes.now ≡ boolean_bytes items has.now → IsOk result
        × (some_has has.now ≡ true → numbers_of values.new ≡ filled (numbers_of items) has.now) }
{
    if bytes.is_empty() {
        return check_no_bytes(has);
    }
    if !some_has(has) {
        return Err(ChunkFault::WrongLength);
    }
    read_kind(bytes[0], behind(bytes, 1), has, codes, values)?;
    Ok(())
}

// Reads booleans of a kind.
fn read_kind(
    kind: u8,
    bytes: &[u8],
    has: &[bool],
    codes: &mut [u64],
    values: &mut [bool],
) -> Result<(), ChunkFault>
    requires some { IsTrue (some_has has.now) }
    requires few { length has.now < 2 ^ 57 }
    requires rows { length values.old ≡ length has.now }
    requires room { length codes.old ≡ length has.now }
    ensures fault { result_err result ≡ booleans_fault has.now (kind ∷ bytes.now) }
    ensures ok { OnOk result (kind ∷ bytes.now
        ≡ 0 ∷ frame (unsigned_word 1) (filled (numbers_of values.new) has.now)) }
    ensures back { (items : List Bool) → length items ≡ length has.now → kind ∷ bytes.now
        ≡ 0 ∷ frame (unsigned_word 1) (filled (numbers_of items) has.now)
        → IsOk result × (numbers_of values.new ≡ filled (numbers_of items) has.now) }
{
    if kind == 0 {
        read_numbers(bytes, has, codes, values)?;
        return Ok(());
    }
    Err(ChunkFault::NoSuchKind)
}

// Reads the numbers of booleans.
fn read_numbers(
    bytes: &[u8],
    has: &[bool],
    codes: &mut [u64],
    values: &mut [bool],
) -> Result<(), ChunkFault>
    requires some { IsTrue (some_has has.now) }
    requires few { length has.now < 2 ^ 57 }
    requires rows { length values.old ≡ length has.now }
    requires room { length codes.old ≡ length has.now }
    ensures fault { result_err result
        ≡ first_fault (naturals_fault 1 (length has.now) bytes.now)
        (numbers_fault has.now (numbers_in 1 (length has.now) bytes.now)) }
    ensures ok { OnOk result (bytes.now
        ≡ frame (unsigned_word 1) (filled (numbers_of values.new) has.now)) }
    ensures back { (items : List Bool) → length items ≡ length has.now
        → bytes.now ≡ frame (unsigned_word 1) (filled (numbers_of items) has.now)
        → IsOk result × (numbers_of values.new ≡ filled (numbers_of items) has.now) }
{
    read_naturals(bytes, 1, codes)?;
    write_rows(codes, values);
    check_numbers(codes, values, has)?;
    Ok(())
}

// Whether numbers are those of booleans as they are written.
#[tactic(auto, using(crate::proofs::BooleanReadLaws::number_tests))]
fn check_numbers(numbers: &[u64], values: &[bool], has: &[bool]) -> Result<(), ChunkFault>
    requires rows { length values.now ≡ length has.now }
    requires of { values.now ≡ rows_of numbers.now }
    ensures { result_err result ≡ numbers_fault has.now numbers.now }
{
    if !all_below(numbers, 2) {
        return Err(ChunkFault::ValueOutOfRange);
    }
    if !unset_least(values, has) {
        return Err(ChunkFault::NumberOfNoValue);
    }
    Ok(())
}

// Whether each row that is not set has the least boolean of the others.
fn unset_least(values: &[bool], has: &[bool]) -> bool
    requires { length values.now ≡ length has.now }
    ensures { result ≡ unset_least values.now has.now }
{
    all_unset(all_true(values, has), values, has)
}

// Whether each row that is not set has this boolean.
#[tactic(auto, using(crate::proofs::BooleanReadLaws::unset_steps))]
fn all_unset(least: bool, values: &[bool], has: &[bool]) -> bool
    requires { length values.now ≡ length has.now }
    ensures { result ≡ all_unset least values.now has.now }
{
    for (index, flag) in has.iter().enumerate() {
        if *flag {
            continue;
        }
        if values[index] != least {
            return false;
        }
    }
    true
}
