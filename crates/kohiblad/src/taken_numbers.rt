//! The calls that take members as numbers and truth values: of rows that are checked, of rows that
//! are not, and at places.

ghost use Rattle.std.specs.Prelude.{◌<◌, ◌≡◌, ◌≤◌, pos};
ghost use Rattle.jsonb_typed.specs.Words.{IsInt64, IsUInt64};
ghost use Rattle.kohiblad.specs.Located.{IsTakenAt, each_of};
ghost use Rattle.kohiblad.specs.Taking.{AreKept, AreRowsTaken, AreTaken, IsInt128};
ghost use Rattle.kohiblad.specs.Taking.{IsTakenBy, IsTruth};
ghost use Rattle.kohiblad.specs.Taking.{fit_of, not_taken, outputs};
ghost use Rattle.kohiblad.specs.Words.{Error, code, meaning_within};
ghost use Rattle.kohiblad.specs.declared.taking.Reading.TheVariants.{Checked, Unchecked};

use crate::answer::code;
use crate::located::{Places, take_at};
use crate::places::KohibladPlace;
use crate::taken_values::{Halves, KohibladInt128, TruthBytes};
use crate::taking::{KohibladTaken, Source, fit_of, not_taken, take};
use jsonb::Error;
use jsonb_typed::{Decimal, Int64, UInt64};
use std::alloc::Global;

/// Takes the members of rows at the end of a path as whole numbers of 64 bits with a sign. For row
/// k, which begins at `offsets[k]` and ends at `offsets[k + 1]`, `values[k]` is the number, and
/// `states[k]` is 1; or the value is 0, and the state 0 if the row has no such member or no bytes,
/// 2 if the member is null, 3 if it is no such number, and 4 if the row is not a document of at
/// most this depth. With `fit` 0 a number is taken if it equals the value, as 2.0 equals 2;
/// otherwise only if it is stored in the kind that the value's digits have in a JSON text. `path`
/// is the document of a path, as `kohiblad_get_path` takes it. The answer counts the rows of states
/// 3 and 4, and names the first of them, or their number if there is none. `InvalidEOF` if an
/// offset is below the previous one or beyond the bytes; then `InvalidJsonb` if the path is not a
/// document of at most this depth; `OTHER_KIND` if it is not an array of texts and whole numbers of
/// 64 bits; `OutOfMemory` if an allocation fails, which only the path makes; then `NO_ROOM` if
/// `values` or `states` has fewer places than there are rows. If the status is not `OK`, `values`
/// and `states` are unchanged, and the counts are 0. A scalar has depth 0, an array or object one
/// more than its deepest child, and at least 1. Deeper levels are not examined.
#[unsafe(no_mangle)]
pub extern "C" fn kohiblad_take_int64(
    alloc: Global,
    bytes: &[u8],
    offsets: &[usize],
    path: &[u8],
    depth: usize,
    fit: u32,
    values: &mut [i64],
    states: &mut [u8],
) -> KohibladTaken
    ensures { AreTaken (IsTakenBy (λ v t. IsInt64 (fit_of fit) v t) (pos 0) (Checked depth))
        bytes.now offsets.now (meaning_within depth path.now)
        (outputs values.old values.new states.old states.new) result }
{
    let int64s = Source::checked(bytes, offsets, path, depth);
    take(alloc, int64s, &int64(fit), values, states)
}

/// Takes the members of rows at the end of a path as whole numbers of 64 bits without a sign. All
/// else is as `kohiblad_take_int64` has it.
#[unsafe(no_mangle)]
pub extern "C" fn kohiblad_take_uint64(
    alloc: Global,
    bytes: &[u8],
    offsets: &[usize],
    path: &[u8],
    depth: usize,
    fit: u32,
    values: &mut [u64],
    states: &mut [u8],
) -> KohibladTaken
    ensures { AreTaken (IsTakenBy (λ v t. IsUInt64 (fit_of fit) v t) 0 (Checked depth)) bytes.now
        offsets.now (meaning_within depth path.now)
        (outputs values.old values.new states.old states.new) result }
{
    let uint64s = Source::checked(bytes, offsets, path, depth);
    take(alloc, uint64s, &uint64(fit), values, states)
}

/// Takes the members of rows at the end of a path as decimals with `scale` digits after the point,
/// each a whole number of 128 bits without its point: 5 with scale 2 is 500. With `fit` 0 a number
/// is taken if it equals the value; otherwise only if it is stored in the kind that the value's
/// digits have in a JSON text, with as many of them after the point: 1.50, and not 1.5.
/// `InvalidJsonb` also, before all others, if the scale is above 255. All else is as
/// `kohiblad_take_int64` has it.
#[unsafe(no_mangle)]
pub extern "C" fn kohiblad_take_decimal(
    alloc: Global,
    bytes: &[u8],
    offsets: &[usize],
    path: &[u8],
    depth: usize,
    fit: u32,
    scale: u32,
    values: &mut [KohibladInt128],
    states: &mut [u8],
) -> KohibladTaken
    ensures scale { 255 < scale → (result ≡ not_taken (code Error.InvalidJsonb)) × AreKept
        (outputs values.old values.new states.old states.new) }
    ensures taken { scale ≤ 255 → AreTaken (IsTakenBy (IsInt128 (fit_of fit) scale)
        (record { low = 0; high = pos 0 }) (Checked depth)) bytes.now offsets.now
        (meaning_within depth path.now) (outputs values.old values.new states.old states.new)
        result }
{
    let Ok(scale) = u8::try_from(scale) else {
        return not_taken(code(Error::InvalidJsonb));
    };
    let decimals = Source::checked(bytes, offsets, path, depth);
    take(alloc, decimals, &decimal(fit, scale), values, states)
}

/// Takes the members of rows at the end of a path as truth values, 0 or 1. All else is as
/// `kohiblad_take_int64` has it.
#[unsafe(no_mangle)]
pub extern "C" fn kohiblad_take_boolean(
    alloc: Global,
    bytes: &[u8],
    offsets: &[usize],
    path: &[u8],
    depth: usize,
    values: &mut [u8],
    states: &mut [u8],
) -> KohibladTaken
    ensures { AreTaken (IsTakenBy IsTruth 0 (Checked depth)) bytes.now offsets.now
        (meaning_within depth path.now) (outputs values.old values.new states.old states.new)
        result }
{
    let truths = Source::checked(bytes, offsets, path, depth);
    take(alloc, truths, &TruthBytes, values, states)
}

/// Takes the members of rows at the end of a path as whole numbers of 64 bits with a sign, without
/// checking the rows, which takes most of the time of `kohiblad_take_int64`. Of each row that is a
/// document, of any depth, or has no bytes, value and state are as that call has them. Any other
/// bytes do no harm: nothing beyond the row is read, and its state is one of the five, with the
/// value 0 unless it is 1; so rows from outside are checked once, by `kohiblad_check` or by the
/// state 4 of a call that checks them. The depth is that of the path. All else is as
/// `kohiblad_take_int64` has it.
#[unsafe(no_mangle)]
pub extern "C" fn kohiblad_take_int64_unchecked(
    alloc: Global,
    bytes: &[u8],
    offsets: &[usize],
    path: &[u8],
    depth: usize,
    fit: u32,
    values: &mut [i64],
    states: &mut [u8],
) -> KohibladTaken
    ensures { AreTaken (IsTakenBy (λ v t. IsInt64 (fit_of fit) v t) (pos 0) Unchecked) bytes.now
        offsets.now (meaning_within depth path.now)
        (outputs values.old values.new states.old states.new) result }
{
    let int64s = Source::unchecked(bytes, offsets, path, depth);
    take(alloc, int64s, &int64(fit), values, states)
}

/// Takes the members of rows at the end of a path as whole numbers of 64 bits without a sign,
/// without checking the rows. All else is as `kohiblad_take_int64_unchecked` has it.
#[unsafe(no_mangle)]
pub extern "C" fn kohiblad_take_uint64_unchecked(
    alloc: Global,
    bytes: &[u8],
    offsets: &[usize],
    path: &[u8],
    depth: usize,
    fit: u32,
    values: &mut [u64],
    states: &mut [u8],
) -> KohibladTaken
    ensures { AreTaken (IsTakenBy (λ v t. IsUInt64 (fit_of fit) v t) 0 Unchecked) bytes.now
        offsets.now (meaning_within depth path.now)
        (outputs values.old values.new states.old states.new) result }
{
    let uint64s = Source::unchecked(bytes, offsets, path, depth);
    take(alloc, uint64s, &uint64(fit), values, states)
}

/// Takes the members of rows at the end of a path as decimals, as `kohiblad_take_decimal` has them,
/// without checking the rows. All else is as `kohiblad_take_int64_unchecked` has it.
#[unsafe(no_mangle)]
pub extern "C" fn kohiblad_take_decimal_unchecked(
    alloc: Global,
    bytes: &[u8],
    offsets: &[usize],
    path: &[u8],
    depth: usize,
    fit: u32,
    scale: u32,
    values: &mut [KohibladInt128],
    states: &mut [u8],
) -> KohibladTaken
    ensures scale { 255 < scale → (result ≡ not_taken (code Error.InvalidJsonb)) × AreKept
        (outputs values.old values.new states.old states.new) }
    ensures taken { scale ≤ 255 → AreTaken
        (IsTakenBy (IsInt128 (fit_of fit) scale) (record { low = 0; high = pos 0 }) Unchecked)
        bytes.now offsets.now (meaning_within depth path.now)
        (outputs values.old values.new states.old states.new) result }
{
    let Ok(scale) = u8::try_from(scale) else {
        return not_taken(code(Error::InvalidJsonb));
    };
    let decimals = Source::unchecked(bytes, offsets, path, depth);
    take(alloc, decimals, &decimal(fit, scale), values, states)
}

/// Takes the members of rows at the end of a path as truth values, 0 or 1, without checking the
/// rows. All else is as `kohiblad_take_int64_unchecked` has it.
#[unsafe(no_mangle)]
pub extern "C" fn kohiblad_take_boolean_unchecked(
    alloc: Global,
    bytes: &[u8],
    offsets: &[usize],
    path: &[u8],
    depth: usize,
    values: &mut [u8],
    states: &mut [u8],
) -> KohibladTaken
    ensures { AreTaken (IsTakenBy IsTruth 0 Unchecked) bytes.now offsets.now
        (meaning_within depth path.now) (outputs values.old values.new states.old states.new)
        result }
{
    let truths = Source::unchecked(bytes, offsets, path, depth);
    take(alloc, truths, &TruthBytes, values, states)
}

/// Takes the members at places, as `kohiblad_locate` writes them, as whole numbers of 64 bits with
/// a sign: at the first place, and then at each that is `step` places after the one before it; 0
/// counts as 1. So of three names, the places of the second are those from `places + 1` on, each 3
/// after the one before it. The bytes are those of all rows, as that call had them. Values and
/// states are as `kohiblad_take_int64` has them, which looks up the name in each row; after
/// `kohiblad_locate_unchecked` as `kohiblad_take_int64_unchecked` has them. At any other place
/// nothing beyond the bytes is read, and what is taken is what is there: a payload of its type as
/// that member, and everywhere else no value, with the state 0 of the status `NONE`, 3 where the
/// type is that of arrays and objects, and otherwise 4. With `fit` 0 a number is taken if it equals
/// the value, as 2.0 equals 2; otherwise only if it is stored in the kind that the value's digits
/// have in a JSON text. The answer counts the rows of states 3 and 4, and names the first of them,
/// or their number if there is none. `NO_ROOM` if `values` or `states` has fewer places than are
/// read; they are then unchanged, and the counts are 0.
#[unsafe(no_mangle)]
pub extern "C" fn kohiblad_take_int64_at(
    bytes: &[u8],
    places: &[KohibladPlace],
    step: usize,
    fit: u32,
    values: &mut [i64],
    states: &mut [u8],
) -> KohibladTaken
    ensures { AreRowsTaken (IsTakenAt (λ v t. IsInt64 (fit_of fit) v t) (pos 0) bytes.now)
        (each_of step places.now) (outputs values.old values.new states.old states.new) result }
{
    let int64s = Places::new(places, step);
    take_at(bytes, int64s, &int64(fit), values, states)
}

/// Takes the members at places as whole numbers of 64 bits without a sign. All else is as
/// `kohiblad_take_int64_at` has it.
#[unsafe(no_mangle)]
pub extern "C" fn kohiblad_take_uint64_at(
    bytes: &[u8],
    places: &[KohibladPlace],
    step: usize,
    fit: u32,
    values: &mut [u64],
    states: &mut [u8],
) -> KohibladTaken
    ensures { AreRowsTaken (IsTakenAt (λ v t. IsUInt64 (fit_of fit) v t) 0 bytes.now)
        (each_of step places.now) (outputs values.old values.new states.old states.new) result }
{
    let uint64s = Places::new(places, step);
    take_at(bytes, uint64s, &uint64(fit), values, states)
}

/// Takes the members at places as decimals, as `kohiblad_take_decimal` has them. `InvalidJsonb`
/// also, before all others, if the scale is above 255. All else is as `kohiblad_take_int64_at` has
/// it.
#[unsafe(no_mangle)]
pub extern "C" fn kohiblad_take_decimal_at(
    bytes: &[u8],
    places: &[KohibladPlace],
    step: usize,
    fit: u32,
    scale: u32,
    values: &mut [KohibladInt128],
    states: &mut [u8],
) -> KohibladTaken
    ensures scale { 255 < scale → (result ≡ not_taken (code Error.InvalidJsonb)) × AreKept
        (outputs values.old values.new states.old states.new) }
    ensures taken { scale ≤ 255 → AreRowsTaken
        (IsTakenAt (IsInt128 (fit_of fit) scale) (record { low = 0; high = pos 0 }) bytes.now)
        (each_of step places.now) (outputs values.old values.new states.old states.new) result }
{
    let Ok(scale) = u8::try_from(scale) else {
        return not_taken(code(Error::InvalidJsonb));
    };
    let decimals = Places::new(places, step);
    take_at(bytes, decimals, &decimal(fit, scale), values, states)
}

/// Takes the members at places as truth values, 0 or 1. All else is as `kohiblad_take_int64_at` has
/// it.
#[unsafe(no_mangle)]
pub extern "C" fn kohiblad_take_boolean_at(
    bytes: &[u8],
    places: &[KohibladPlace],
    step: usize,
    values: &mut [u8],
    states: &mut [u8],
) -> KohibladTaken
    ensures { AreRowsTaken (IsTakenAt IsTruth 0 bytes.now) (each_of step places.now)
        (outputs values.old values.new states.old states.new) result }
{
    let truths = Places::new(places, step);
    take_at(bytes, truths, &TruthBytes, values, states)
}

// Whole numbers with a sign that fit as the caller says.
fn int64(fit: u32) -> Int64
    ensures { result ≡ record { fit = fit_of fit } }
{
    Int64 { fit: fit_of(fit) }
}

// The same of numbers without a sign.
fn uint64(fit: u32) -> UInt64
    ensures { result ≡ record { fit = fit_of fit } }
{
    UInt64 { fit: fit_of(fit) }
}

// The same of decimals with so many digits after the point.
fn decimal(fit: u32, scale: u8) -> Halves
    ensures { result ≡ record { decimal = record { scale = scale; fit = fit_of fit } } }
{
    let fit = fit_of(fit);
    Halves {
        decimal: Decimal { scale, fit },
    }
}
