//! The calls that take members as dates, timestamps and intervals: of rows that are checked, of
//! rows that are not, and at places.

ghost use Rattle.std.specs.Prelude.{pos};
ghost use Rattle.kohiblad.specs.Located.{IsTakenAt, each_of};
ghost use Rattle.kohiblad.specs.Taking.{AreRowsTaken, AreTaken, IsDate};
ghost use Rattle.kohiblad.specs.Taking.{IsIntervalIn, IsTakenBy, IsTimestamp};
ghost use Rattle.kohiblad.specs.Taking.{IsZonedTimestamp, outputs};
ghost use Rattle.kohiblad.specs.Words.{meaning_within};
ghost use Rattle.kohiblad.specs.declared.taking.Reading.TheVariants.{Checked, Unchecked};

use crate::located::{Places, take_at};
use crate::places::KohibladPlace;
use crate::taken_values::{
    DateNumbers, IntervalNumbers, KohibladInterval, KohibladTimestampTz, TimestampNumbers,
    ZonedNumbers,
};
use crate::taking::{KohibladTaken, Source, take};
use std::alloc::Global;

/// Takes the members of rows at the end of a path as dates, each the number that is stored for it.
/// The format does not say what it counts; writers store the days since 1970. All else is as
/// `kohiblad_take_int64` has it.
#[unsafe(no_mangle)]
pub extern "C" fn kohiblad_take_date(
    alloc: Global,
    bytes: &[u8],
    offsets: &[usize],
    path: &[u8],
    depth: usize,
    values: &mut [i32],
    states: &mut [u8],
) -> KohibladTaken
    ensures { AreTaken (IsTakenBy IsDate (pos 0) (Checked depth)) bytes.now offsets.now
        (meaning_within depth path.now) (outputs values.old values.new states.old states.new)
        result }
{
    let dates = Source::checked(bytes, offsets, path, depth);
    take(alloc, dates, &DateNumbers, values, states)
}

/// Takes the members of rows at the end of a path as timestamps without a time zone, each the
/// number that is stored for it. The format does not say what it counts; writers store the
/// microseconds since 1970. All else is as `kohiblad_take_int64` has it.
#[unsafe(no_mangle)]
pub extern "C" fn kohiblad_take_timestamp(
    alloc: Global,
    bytes: &[u8],
    offsets: &[usize],
    path: &[u8],
    depth: usize,
    values: &mut [i64],
    states: &mut [u8],
) -> KohibladTaken
    ensures { AreTaken (IsTakenBy IsTimestamp (pos 0) (Checked depth)) bytes.now offsets.now
        (meaning_within depth path.now) (outputs values.old values.new states.old states.new)
        result }
{
    let timestamps = Source::checked(bytes, offsets, path, depth);
    take(alloc, timestamps, &TimestampNumbers, values, states)
}

/// Takes the members of rows at the end of a path as timestamps with a time zone, each the number
/// that is stored for it and the offset of its zone in seconds. The format does not say what the
/// number counts; writers store the microseconds since 1970 in UTC. All else is as
/// `kohiblad_take_int64` has it, and a blank value is 0 in both fields.
#[unsafe(no_mangle)]
pub extern "C" fn kohiblad_take_timestamp_tz(
    alloc: Global,
    bytes: &[u8],
    offsets: &[usize],
    path: &[u8],
    depth: usize,
    values: &mut [KohibladTimestampTz],
    states: &mut [u8],
) -> KohibladTaken
    ensures { AreTaken
        (IsTakenBy IsZonedTimestamp (record { value = pos 0; seconds = pos 0 }) (Checked depth))
        bytes.now offsets.now (meaning_within depth path.now)
        (outputs values.old values.new states.old states.new) result }
{
    let zoned = Source::checked(bytes, offsets, path, depth);
    take(alloc, zoned, &ZonedNumbers, values, states)
}

/// Takes the members of rows at the end of a path as intervals, each the three numbers that are
/// stored for it. All else is as `kohiblad_take_int64` has it, and a blank value is 0 in all three
/// fields.
#[unsafe(no_mangle)]
pub extern "C" fn kohiblad_take_interval(
    alloc: Global,
    bytes: &[u8],
    offsets: &[usize],
    path: &[u8],
    depth: usize,
    values: &mut [KohibladInterval],
    states: &mut [u8],
) -> KohibladTaken
    ensures { AreTaken (IsTakenBy IsIntervalIn
        (record { months = pos 0; days = pos 0; micros = pos 0 }) (Checked depth)) bytes.now
        offsets.now (meaning_within depth path.now)
        (outputs values.old values.new states.old states.new) result }
{
    let intervals = Source::checked(bytes, offsets, path, depth);
    take(alloc, intervals, &IntervalNumbers, values, states)
}

/// Takes the members of rows at the end of a path as dates, as `kohiblad_take_date` has them,
/// without checking the rows. All else is as `kohiblad_take_int64_unchecked` has it.
#[unsafe(no_mangle)]
pub extern "C" fn kohiblad_take_date_unchecked(
    alloc: Global,
    bytes: &[u8],
    offsets: &[usize],
    path: &[u8],
    depth: usize,
    values: &mut [i32],
    states: &mut [u8],
) -> KohibladTaken
    ensures { AreTaken (IsTakenBy IsDate (pos 0) Unchecked) bytes.now offsets.now
        (meaning_within depth path.now) (outputs values.old values.new states.old states.new)
        result }
{
    let dates = Source::unchecked(bytes, offsets, path, depth);
    take(alloc, dates, &DateNumbers, values, states)
}

/// Takes the members of rows at the end of a path as timestamps, as `kohiblad_take_timestamp` has
/// them, without checking the rows. All else is as `kohiblad_take_int64_unchecked` has it.
#[unsafe(no_mangle)]
pub extern "C" fn kohiblad_take_timestamp_unchecked(
    alloc: Global,
    bytes: &[u8],
    offsets: &[usize],
    path: &[u8],
    depth: usize,
    values: &mut [i64],
    states: &mut [u8],
) -> KohibladTaken
    ensures { AreTaken (IsTakenBy IsTimestamp (pos 0) Unchecked) bytes.now offsets.now
        (meaning_within depth path.now) (outputs values.old values.new states.old states.new)
        result }
{
    let timestamps = Source::unchecked(bytes, offsets, path, depth);
    take(alloc, timestamps, &TimestampNumbers, values, states)
}

/// Takes the members of rows at the end of a path as timestamps with a time zone, as
/// `kohiblad_take_timestamp_tz` has them, without checking the rows. All else is as
/// `kohiblad_take_int64_unchecked` has it.
#[unsafe(no_mangle)]
pub extern "C" fn kohiblad_take_timestamp_tz_unchecked(
    alloc: Global,
    bytes: &[u8],
    offsets: &[usize],
    path: &[u8],
    depth: usize,
    values: &mut [KohibladTimestampTz],
    states: &mut [u8],
) -> KohibladTaken
    ensures { AreTaken
        (IsTakenBy IsZonedTimestamp (record { value = pos 0; seconds = pos 0 }) Unchecked) bytes.now
        offsets.now (meaning_within depth path.now)
        (outputs values.old values.new states.old states.new) result }
{
    let zoned = Source::unchecked(bytes, offsets, path, depth);
    take(alloc, zoned, &ZonedNumbers, values, states)
}

/// Takes the members of rows at the end of a path as intervals, as `kohiblad_take_interval` has
/// them, without checking the rows. All else is as `kohiblad_take_int64_unchecked` has it.
#[unsafe(no_mangle)]
pub extern "C" fn kohiblad_take_interval_unchecked(
    alloc: Global,
    bytes: &[u8],
    offsets: &[usize],
    path: &[u8],
    depth: usize,
    values: &mut [KohibladInterval],
    states: &mut [u8],
) -> KohibladTaken
    ensures { AreTaken
        (IsTakenBy IsIntervalIn (record { months = pos 0; days = pos 0; micros = pos 0 }) Unchecked)
        bytes.now offsets.now (meaning_within depth path.now)
        (outputs values.old values.new states.old states.new) result }
{
    let intervals = Source::unchecked(bytes, offsets, path, depth);
    take(alloc, intervals, &IntervalNumbers, values, states)
}

/// Takes the members at places as dates, as `kohiblad_take_date` has them. All else is as
/// `kohiblad_take_int64_at` has it.
#[unsafe(no_mangle)]
pub extern "C" fn kohiblad_take_date_at(
    bytes: &[u8],
    places: &[KohibladPlace],
    step: usize,
    values: &mut [i32],
    states: &mut [u8],
) -> KohibladTaken
    ensures { AreRowsTaken (IsTakenAt IsDate (pos 0) bytes.now) (each_of step places.now)
        (outputs values.old values.new states.old states.new) result }
{
    let dates = Places::new(places, step);
    take_at(bytes, dates, &DateNumbers, values, states)
}

/// Takes the members at places as timestamps without a time zone, as `kohiblad_take_timestamp` has
/// them. All else is as `kohiblad_take_int64_at` has it.
#[unsafe(no_mangle)]
pub extern "C" fn kohiblad_take_timestamp_at(
    bytes: &[u8],
    places: &[KohibladPlace],
    step: usize,
    values: &mut [i64],
    states: &mut [u8],
) -> KohibladTaken
    ensures { AreRowsTaken (IsTakenAt IsTimestamp (pos 0) bytes.now) (each_of step places.now)
        (outputs values.old values.new states.old states.new) result }
{
    let timestamps = Places::new(places, step);
    take_at(bytes, timestamps, &TimestampNumbers, values, states)
}

/// Takes the members at places as timestamps with a time zone, as `kohiblad_take_timestamp_tz` has
/// them. All else is as `kohiblad_take_int64_at` has it.
#[unsafe(no_mangle)]
pub extern "C" fn kohiblad_take_timestamp_tz_at(
    bytes: &[u8],
    places: &[KohibladPlace],
    step: usize,
    values: &mut [KohibladTimestampTz],
    states: &mut [u8],
) -> KohibladTaken
    ensures { AreRowsTaken
        (IsTakenAt IsZonedTimestamp (record { value = pos 0; seconds = pos 0 }) bytes.now)
        (each_of step places.now) (outputs values.old values.new states.old states.new) result }
{
    let zoned = Places::new(places, step);
    take_at(bytes, zoned, &ZonedNumbers, values, states)
}

/// Takes the members at places as intervals, as `kohiblad_take_interval` has them. All else is as
/// `kohiblad_take_int64_at` has it.
#[unsafe(no_mangle)]
pub extern "C" fn kohiblad_take_interval_at(
    bytes: &[u8],
    places: &[KohibladPlace],
    step: usize,
    values: &mut [KohibladInterval],
    states: &mut [u8],
) -> KohibladTaken
    ensures { AreRowsTaken
        (IsTakenAt IsIntervalIn (record { months = pos 0; days = pos 0; micros = pos 0 }) bytes.now)
        (each_of step places.now) (outputs values.old values.new states.old states.new) result }
{
    let intervals = Places::new(places, step);
    take_at(bytes, intervals, &IntervalNumbers, values, states)
}
