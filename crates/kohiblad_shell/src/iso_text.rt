//! Texts of RFC 3339 for dates and timestamps, in one form.

ghost use Rattle.std.specs.Prelude.{◌≡◌, ◌/◌, ◌<◌, ◌≤◌, ◌≤ℤ◌, ◌*ℤ◌, IfOk, IfSome, IsNone, Some};
ghost use Rattle.std.specs.Prelude.{false, length, option_map, pos, slice_index};
ghost use Rattle.jiff_core.specs.Calendar.{IsWithin};
ghost use Rattle.jiff_core.specs.Date.{epoch_day};
ghost use Rattle.jiff_core.specs.DateTime.{civil_nanos};
ghost use Rattle.jiff_core.specs.Time.{time_seconds};
ghost use Rattle.kohiblad_shell.specs.Words.{IsBeyondClock, IsBeyondYears, IsDayText};
ghost use Rattle.kohiblad_shell.specs.Words.{IsPlainOffset, IsPlainTime, IsWallText, IsZonedText};
ghost use Rattle.kohiblad_shell.specs.Words.{digit_pair, digits_millionths, ends_in_zero};
ghost use Rattle.kohiblad_shell.specs.Words.{is_minute_offset, iso_day, iso_millionths};
ghost use Rattle.kohiblad_shell.specs.Words.{iso_second, iso_wall};
ghost use Rattle.kohiblad_shell.specs.Words.{wall_micros};

use jiff_core::civil::{Date, DateTime, Time};
use jsonb::TimestampTz;
use std::alloc::{AllocError, Global};

/// The text that says a day, by its days from 1970-01-01, as `2026-11-29`. `None` if it is of no
/// year from 0000 to 9999.
pub fn day_text(alloc: Global, day: i32) -> Result<Option<Vec<u8>>, AllocError>
    ensures { IfOk result (λ text. IsDayText day (option_map (λ text. text.items) text)) }
{
    match date_on(day as i64) {
        Some(date) => Ok(Some(date_digits(date).to_vec(alloc)?)),
        None => Ok(None),
    }
}

/// The text that says what a clock shows, in microseconds from the start of 1970, as
/// `2026-11-29T12:30:05.25`. `None` if it is of no year from 0000 to 9999.
pub fn wall_text(alloc: Global, wall: i128) -> Result<Option<Vec<u8>>, AllocError>
    requires { IsWithin 100_000_000_000_000_000_000 wall }
    ensures { IfOk result (λ text. IsWallText wall (option_map (λ text. text.items) text)) }
{
    match clock_at(wall) {
        Some(clock) => Ok(Some(clock_text(alloc, clock)?)),
        None => Ok(None),
    }
}

/// The text that says a timestamp with its zone, as `2026-11-29T12:30:05.25+02:00`. `None` if its
/// clock shows no year from 0000 to 9999, or its offset is not one of whole minutes below a day.
pub fn zoned_text(alloc: Global, value: TimestampTz) -> Result<Option<Vec<u8>>, AllocError>
    ensures { IfOk result (λ text. IsZonedText value (option_map (λ text. text.items) text)) }
{
    let Some(zone) = offset_digits(value.offset) else {
        return Ok(None);
    };
    let wall = value.value as i128 + value.offset as i128 * 1_000_000;
    let Some(mut text) = wall_text(alloc, wall)? else {
        return Ok(None);
    };
    text.extend_from_slice(&zone)?;
    Ok(Some(text))
}

// The date of a day in the years 0000 to 9999.
fn date_on(day: i64) -> Option<Date>
    ensures some { IfSome result (λ date. (pos 0 ≤ℤ date.year) × (epoch_day date ≡ day)) }
    ensures none { IsNone result → IsBeyondYears day }
{
    match Date::from_unix_epoch_day(day) {
        Ok(date) if date.year >= 0 => Some(date),
        _ => None,
    }
}

// The date and time that a clock shows in the years 0000 to 9999.
fn clock_at(wall: i128) -> Option<DateTime>
    requires { IsWithin 100_000_000_000_000_000_000 wall }
    ensures some { IfSome result (λ clock. (pos 0 ≤ℤ clock.date.year)
        × (civil_nanos clock ≡ wall *ℤ pos 1000)) }
    ensures none { IsNone result → IsBeyondClock wall }
{
    match DateTime::from_nanosecond(wall * 1000) {
        Ok(clock) if clock.date.year >= 0 => Some(clock),
        _ => None,
    }
}

// The text of a date and a time, up to the microseconds.
fn clock_text(alloc: Global, clock: DateTime) -> Result<Vec<u8>, AllocError>
    requires { pos 0 ≤ℤ clock.date.year }
    ensures says { IfOk result (λ text. iso_wall text.items ≡ Some (wall_micros
        (epoch_day clock.date) (time_seconds clock.time) (clock.time.subsec_nanosecond / 1000))) }
    ensures plain { IfOk result (λ text. IsPlainTime text.items) }
{
    let mut text = Vec::new(alloc);
    text.extend_from_slice(&date_digits(clock.date))?;
    text.push(b'T')?;
    text.extend_from_slice(&time_digits(clock.time))?;
    let fraction = fraction_digits(alloc, clock.time.subsec_nanosecond / 1000)?;
    text.extend_from_slice(&fraction)?;
    Ok(text)
}

// The digits of a date, as `2026-11-29`.
fn date_digits(date: Date) -> [u8; 10]
    requires { pos 0 ≤ℤ date.year }
    ensures { iso_day result ≡ Some (epoch_day date) }
{
    let year = date.year as u16;
    let (a, b) = two_digits((year / 100) as u8);
    let (c, d) = two_digits((year % 100) as u8);
    let (e, f) = two_digits(date.month);
    let (g, h) = two_digits(date.day);
    [a, b, c, d, b'-', e, f, b'-', g, h]
}

// The digits of a time of day, as `12:30:05`.
fn time_digits(time: Time) -> [u8; 8]
    ensures { iso_second result ≡ Some (time_seconds time) }
{
    let (a, b) = two_digits(time.hour);
    let (c, d) = two_digits(time.minute);
    let (e, f) = two_digits(time.second);
    [a, b, b':', c, d, b':', e, f]
}

// The fraction of a second with so many millionths: a point and its digits with no 0 at the end,
// or nothing if there are none.
fn fraction_digits(alloc: Global, micros: u32) -> Result<Vec<u8>, AllocError>
    requires { micros < 1_000_000 }
    ensures says { IfOk result (λ text. iso_millionths text.items ≡ Some micros) }
    ensures short { IfOk result (λ text. ends_in_zero text.items ≡ false) }
{
    let mut text = Vec::new(alloc);
    if micros > 0 {
        text.push(b'.')?;
        let digits = six_digits(micros);
        text.extend_from_slice(without_zeros(&digits))?;
    }
    Ok(text)
}

// The digits of millionths after a point, without zeros at their end.
fn without_zeros(digits: &[u8]) -> &[u8]
    requires { length digits.now ≤ 6 }
    ensures same { digits_millionths result.now ≡ digits_millionths digits.now }
    ensures short { ends_in_zero result.now ≡ false }
{
    let mut count = digits.len();
    while count > 0 && digits[count - 1] == b'0' {
        count -= 1;
    }
    &digits[..count]
}

// The six digits of millionths after a point.
fn six_digits(micros: u32) -> [u8; 6]
    requires { micros < 1_000_000 }
    ensures { digits_millionths result ≡ Some micros }
{
    let (a, b) = two_digits((micros / 10_000) as u8);
    let (c, d) = two_digits((micros / 100 % 100) as u8);
    let (e, f) = two_digits((micros % 100) as u8);
    [a, b, c, d, e, f]
}

// The digits of an offset from UTC in seconds, as `+02:00`. `None` if it is not one of whole
// minutes below a day.
fn offset_digits(offset: i32) -> Option<[u8; 6]>
    ensures some { IfSome result (IsPlainOffset offset) }
    ensures digit { IfSome result (λ zone. slice_index zone 5 < 58) }
    ensures none { IsNone result → is_minute_offset offset ≡ false }
{
    let seconds = offset.unsigned_abs();
    if seconds >= 86_400 || seconds % 60 != 0 {
        return None;
    }
    let sign = if offset < 0 { b'-' } else { b'+' };
    let (a, b) = two_digits((seconds / 3600) as u8);
    let (c, d) = two_digits((seconds / 60 % 60) as u8);
    Some([sign, a, b, b':', c, d])
}

// The two digits that spell a number.
fn two_digits(number: u8) -> (u8, u8)
    requires { number < 100 }
    ensures spells { digit_pair result.0 result.1 ≡ Some number }
    ensures ones { result.1 < 58 }
{
    (b'0' + number / 10, b'0' + number % 10)
}
