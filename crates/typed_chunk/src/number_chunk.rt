//! The chunk of a column of numbers.

ghost use Rattle.std.specs.Prelude.{◌≡◌, ◌<◌, ◌^◌, ◌++◌, OnErr, OnOk, if◌then◌else◌, is_ok, length};
ghost use Rattle.std.specs.Prelude.{take};
ghost use Rattle.typed_chunk.specs.NumberChunk.{filled, number_chunk, number_kind};

use crate::filled::fill_unset;
use crate::flags::{all_have, append_flags, some_has};
use crate::frame::append_frame;
use crate::kinds::rises_shorter;
use crate::rising::append_rising;
use std::alloc::AllocError;

/// Appends the chunk of a column of numbers: which rows have one, as `append_flags` does; and if
/// one has, a byte of the kind, and the numbers:
///
/// - 1, as `append_rising` does, if each row has a number, there are two, none is below the one
///   before it, and these bytes are fewer than the others;
/// - else 0, as `append_frame` does, where a row that has none has the least of those that are.
///
/// `codes` is room for one code a row, and afterwards they may be any. Of the values, those of rows
/// that have none are the least of the others afterwards, or as before. If memory is refused,
/// nothing is appended.
pub fn append_number_chunk(
    out: &mut Vec<u8>,
    values: &mut [i64],
    has: &[bool],
    codes: &mut [u64],
) -> Result<(), AllocError>
    requires few { length has.now < 2 ^ 57 }
    requires rows { length values.old ≡ length has.now }
    requires room { length codes.old ≡ length has.now }
    ensures { out.new.items ≡ (if is_ok result
        then out.old.items ++ number_chunk values.old has.now else out.old.items) }
{
    let kept = out.len();
    match append_parts(out, values, has, codes) {
        Ok(()) => Ok(()),
        Err(error) => {
            out.truncate(kept);
            Err(error)
        }
    }
}

// Appends which rows have a value, and the values.
fn append_parts(
    out: &mut Vec<u8>,
    values: &mut [i64],
    has: &[bool],
    codes: &mut [u64],
) -> Result<(), AllocError>
    requires few { length has.now < 2 ^ 57 }
    requires rows { length values.old ≡ length has.now }
    requires room { length codes.old ≡ length has.now }
    ensures ok { OnOk result (out.new.items ≡ out.old.items ++ number_chunk values.old has.now) }
    ensures err { OnErr result (take (length out.old.items) out.new.items ≡ out.old.items) }
{
    append_flags(out, has, codes)?;
    if !some_has(has) {
        return Ok(());
    }
    fill_unset(values, has);
    append_kind(out, all_have(has), values, codes)?;
    Ok(())
}

// Appends the kind of values, and they.
fn append_kind(
    out: &mut Vec<u8>,
    all: bool,
    values: &[i64],
    codes: &mut [u64],
) -> Result<(), AllocError>
    requires some { 0 < length values.now }
    requires few { length values.now < 2 ^ 57 }
    requires room { length codes.old ≡ length values.now }
    ensures ok { OnOk result (out.new.items ≡ out.old.items ++ number_kind all values.now) }
    ensures err { OnErr result (take (length out.old.items) out.new.items ≡ out.old.items) }
{
    if rises_shorter(all, values, codes) {
        out.extend_from_slice(&[1])?;
        append_rising(out, values, &mut codes[1..])?;
        return Ok(());
    }
    out.extend_from_slice(&[0])?;
    append_frame(out, values, codes)?;
    Ok(())
}
