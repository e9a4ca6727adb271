//! The chunk of a column of booleans.

ghost use Rattle.std.specs.Prelude.{◌≡◌, ◌<◌, ◌^◌, ◌++◌, IsTrue, All, OnErr, OnOk, cond, get_or};
ghost use Rattle.std.specs.Prelude.{if◌then◌else◌, is_ok, length, map, pos, take};
ghost use Rattle.typed_chunk.specs.BooleanChunk.{boolean_chunk, numbers_of};
ghost use Rattle.typed_chunk.specs.Flags.{all_have, some_has};
ghost use Rattle.typed_chunk.specs.NumberChunk.{filled, with_unset};
ghost use Rattle.typed_vector.specs.ZoneMap.{set_values};

use crate::flags::{append_flags, some_has};
use crate::naturals::append_naturals;
use std::alloc::AllocError;

/// Appends the chunk of a column of booleans: which rows have one, as `append_flags` does; and if
/// one has, a 0 for the kind, and the booleans as numbers, 1 for true: the bits of a code, 1 byte,
/// which are 1, or 0 if all are alike; the least number, 1 byte; and for each row how far it is
/// above that, the lowest bits first, and 0 for a row that has none. `codes` is room for one code
/// a row, and afterwards they may be any. If memory is refused, nothing is appended.
pub fn append_boolean_chunk(
    out: &mut Vec<u8>,
    values: &[bool],
    has: &[bool],
    codes: &mut [u64],
) -> Result<(), AllocError>
    requires few { length has.now < 2 ^ 57 }
    requires rows { length values.now ≡ length has.now }
    requires room { length codes.old ≡ length has.now }
    ensures { out.new.items ≡ (if is_ok result
        then out.old.items ++ boolean_chunk values.now has.now else out.old.items) }
{
    let kept = out.len();
    match append_parts(out, values, has, codes) {
        Ok(()) => Ok(()),
        Err(error) => {
            out.truncate(kept);
            Err(error)
        }
    }
}

// Appends which rows have a boolean, and they.
fn append_parts(
    out: &mut Vec<u8>,
    values: &[bool],
    has: &[bool],
    codes: &mut [u64],
) -> Result<(), AllocError>
    requires few { length has.now < 2 ^ 57 }
    requires rows { length values.now ≡ length has.now }
    requires room { length codes.old ≡ length has.now }
    ensures ok { OnOk result (out.new.items ≡ out.old.items ++ boolean_chunk values.now has.now) }
    ensures err { OnErr result (take (length out.old.items) out.new.items ≡ out.old.items) }
{
    append_flags(out, has, codes)?;
    if !some_has(has) {
        return Ok(());
    }
    out.extend_from_slice(&[0])?;
    write_numbers(values, has, codes);
    append_naturals(out, 1, codes)?;
    Ok(())
}

// Writes the number of each row's boolean, or the least of the others for a row that has none.
fn write_numbers(values: &[bool], has: &[bool], codes: &mut [u64])
    requires some { IsTrue (some_has has.now) }
    requires rows { length values.now ≡ length has.now }
    requires room { length codes.old ≡ length has.now }
    ensures is { map pos codes.new ≡ filled (numbers_of values.now) has.now }
    ensures fit { All (λ number. number < 256 ^ 1) codes.new }
{
    let least = all_true(values, has);
    for (index, code) in codes.iter_mut().enumerate() {
        *code = number_at(values, has, least, index);
    }
}

// The number of a row's boolean, or of this one if it has none.
#[tactic(auto, using(crate::proofs::BooleanLaws::number_steps))]
fn number_at(values: &[bool], has: &[bool], least: bool, index: usize) -> u64
    requires rows { length values.now ≡ length has.now }
    requires within { index < length has.now }
    ensures is { pos result ≡ get_or
        (with_unset (pos (cond least 1 0)) (numbers_of values.now) has.now) index (pos 0) }
    ensures low { result < 2 }
{
    let flag = has[index];
    if flag {
        return u64::from(values[index]);
    }
    u64::from(least)
}

// Whether all booleans that are set are true.
#[tactic(auto, using(crate::proofs::BooleanLaws::true_steps))]
pub(crate) fn all_true(values: &[bool], has: &[bool]) -> bool
    requires { length values.now ≡ length has.now }
    ensures { result ≡ all_have (set_values values.now has.now) }
{
    for (index, flag) in has.iter().enumerate() {
        if !*flag {
            continue;
        }
        if !values[index] {
            return false;
        }
    }
    true
}
