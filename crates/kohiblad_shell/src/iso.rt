//! Dates and timestamps of texts of RFC 3339, a profile of ISO 8601.

ghost use Rattle.std.specs.Prelude.{◌≡◌, ◌≤◌, ◌<◌, ◌==◌, ◌-ℤ◌, ◌*ℤ◌, IfSome, Some, option_map, pos};
ghost use Rattle.std.specs.List.{list_all};
ghost use Rattle.jiff_core.specs.Calendar.{IsWithin};
ghost use Rattle.jiff_core.specs.Date.{epoch_day};
ghost use Rattle.jiff_core.specs.Time.{time_seconds};
ghost use Rattle.kohiblad_shell.specs.Words.{begins_time, calendar_day, clock_second, digit_or_zero};
ghost use Rattle.kohiblad_shell.specs.Words.{digit_pair, digits_millionths, is_utc, iso_day};
ghost use Rattle.kohiblad_shell.specs.Words.{iso_millionths, iso_offset, iso_second, iso_wall};
ghost use Rattle.kohiblad_shell.specs.Words.{iso_zoned, offset_of_parts, wall_micros, wall_of_parts};
ghost use Rattle.kohiblad_shell.specs.Words.{wall_said};

use jiff_core::civil::{self, Date, DateTime, Time};
use jsonb::TimestampTz;

/// The day that a text says, as `2026-11-29`, by its days from 1970-01-01. `None` if it says none.
pub fn iso_day(text: &[u8]) -> Option<i32>
    ensures { result ≡ iso_day text.now }
{
    match date_in(text) {
        Some(date) => Some(date.to_unix_epoch_day()),
        None => None,
    }
}

/// What a clock shows at the time that a text says, as `2026-11-29T12:30:05.25`, in microseconds
/// from the start of 1970. `None` if it says none, or one between two microseconds.
pub fn iso_wall(text: &[u8]) -> Option<i64>
    ensures is { result ≡ iso_wall text.now }
    ensures bound { IfSome result (IsWithin 400_000_000_000_000_000) }
{
    if text.len() < 19 || !begins_time(&text[10..]) {
        return None;
    }
    wall_said(&text[..10], &text[11..19], &text[19..])
}

/// The timestamp with a zone that a text says: `Z`, or an offset as `+02:00`, stands after the
/// time. `None` if it says none.
pub fn iso_zoned(text: &[u8]) -> Option<TimestampTz>
    ensures { result ≡ iso_zoned text.now }
{
    let (front, last) = text.split_at(text.len().saturating_sub(1));
    if is_utc(last) {
        return Some(zoned(0, iso_wall(front)?));
    }
    let (front, zone) = text.split_at(text.len().saturating_sub(6));
    let offset = offset_in(zone)?;
    Some(zoned(offset, iso_wall(front)?))
}

// The timestamp at which a clock with this offset shows a time.
fn zoned(offset: i32, wall: i64) -> TimestampTz
    requires offset { IsWithin 86_400 offset }
    requires wall { IsWithin 400_000_000_000_000_000 wall }
    ensures offset { result.offset ≡ offset }
    ensures value { result.value ≡ wall -ℤ offset *ℤ pos 1_000_000 }
{
    TimestampTz {
        offset,
        value: wall - offset as i64 * 1_000_000,
    }
}

// What a clock shows on a day that a text says, at a second and millionths that two others say.
#[tactic(auto, unfolding(crate::specs::IsoTexts::wall_said))]
fn wall_said(date: &[u8], time: &[u8], fraction: &[u8]) -> Option<i64>
    ensures is { result ≡ wall_said date.now time.now fraction.now }
    ensures bound { IfSome result (IsWithin 400_000_000_000_000_000) }
{
    wall_of_parts(date_in(date), time_in(time), millionths_in(fraction))
}

// What a clock shows on a date at a time, and so many microseconds later, if all three are there.
fn wall_of_parts(date: Option<Date>, time: Option<Time>, micros: Option<u32>) -> Option<i64>
    requires { IfSome micros (λ n. n < 1_000_000) }
    ensures is { result ≡ wall_of_parts (option_map epoch_day date)
        (option_map time_seconds time) micros }
    ensures bound { IfSome result (IsWithin 400_000_000_000_000_000) }
{
    let date = date?;
    let time = time?;
    let micros = micros?;
    Some(wall_of(date, time, micros))
}

// What a clock shows on a date at a time, and so many microseconds later.
#[tactic(auto, unfolding(jiff_core::specs::DateTime::civil_seconds))]
fn wall_of(date: Date, time: Time, micros: u32) -> i64
    requires { micros < 1_000_000 }
    ensures is { result ≡ wall_micros (epoch_day date) (time_seconds time) micros }
    ensures bound { IsWithin 400_000_000_000_000_000 result }
{
    DateTime { date, time }.to_second() * 1_000_000 + micros as i64
}

// The date that a text says.
fn date_in(text: &[u8]) -> Option<Date>
    ensures { option_map epoch_day result ≡ iso_day text.now }
{
    let [a, b, c, d, first, e, f, second, g, h] = text else {
        return None;
    };
    if *first != b'-' || *second != b'-' {
        return None;
    }
    let century = digit_pair(*a, *b)?;
    let year = digit_pair(*c, *d)?;
    let month = digit_pair(*e, *f)?;
    let day = digit_pair(*g, *h)?;
    date_of(century as u16 * 100 + year as u16, month, day)
}

// The date of a year, a month and a day, if the calendar has it.
fn date_of(year: u16, month: u8, day: u8) -> Option<Date>
    requires { year ≤ 9999 }
    ensures { option_map epoch_day result ≡ calendar_day year month day }
{
    let year = year as i16;
    if month < 1 || month > 12 || day < 1 || day > civil::days_in_month(year, month) {
        return None;
    }
    Some(Date { year, month, day })
}

// The time of day that a text says, as `12:30:05`.
fn time_in(text: &[u8]) -> Option<Time>
    ensures { option_map time_seconds result ≡ iso_second text.now }
{
    let [a, b, first, c, d, second, e, f] = text else {
        return None;
    };
    if *first != b':' || *second != b':' {
        return None;
    }
    let hour = digit_pair(*a, *b)?;
    let minute = digit_pair(*c, *d)?;
    let second = digit_pair(*e, *f)?;
    time_of(hour, minute, second)
}

// The time of day of an hour, a minute and a second, if a clock shows it.
fn time_of(hour: u8, minute: u8, second: u8) -> Option<Time>
    ensures { option_map time_seconds result
        ≡ clock_second (Some hour) (Some minute) (Some second) }
{
    if hour < 24 && minute < 60 && second < 60 {
        Some(Time {
            hour,
            minute,
            second,
            subsec_nanosecond: 0,
        })
    } else {
        None
    }
}

// The millionths of a second that a text says: none, or digits after a point.
fn millionths_in(text: &[u8]) -> Option<u32>
    ensures is { result ≡ iso_millionths text.now }
    ensures bound { IfSome result (λ n. n < 1_000_000) }
{
    let [point, digits @ ..] = text else {
        return Some(0);
    };
    if *point == b'.' && digits.len() > 0 {
        digits_millionths(digits)
    } else {
        None
    }
}

// The millionths that digits after a point say. `None` if they are no digits, or one but 0 comes
// after the sixth.
fn digits_millionths(digits: &[u8]) -> Option<u32>
    ensures is { result ≡ digits_millionths digits.now }
    ensures bound { IfSome result (λ n. n < 1_000_000) }
{
    if !are_zeros(&digits[digits.len().min(6)..]) {
        return None;
    }
    let first = digit_pair(digit_or_zero(digits, 0), digit_or_zero(digits, 1))?;
    let second = digit_pair(digit_or_zero(digits, 2), digit_or_zero(digits, 3))?;
    let third = digit_pair(digit_or_zero(digits, 4), digit_or_zero(digits, 5))?;
    Some(first as u32 * 10_000 + second as u32 * 100 + third as u32)
}

// Whether all these bytes are the digit 0.
fn are_zeros(text: &[u8]) -> bool
    ensures { result ≡ list_all (λ b. b == 48) text.now }
{
    text.iter().all(|byte| *byte == b'0')
}

// A byte of a text, or the digit 0 past its end.
fn digit_or_zero(text: &[u8], index: usize) -> u8
    ensures { result ≡ digit_or_zero text.now index }
{
    match text.get(index) {
        Some(byte) => *byte,
        None => b'0',
    }
}

// Whether a text begins as a time after a date does.
fn begins_time(text: &[u8]) -> bool
    ensures { result ≡ begins_time text.now }
{
    matches!(text, [b'T' | b't' | b' ', ..])
}

// Whether a text says UTC.
fn is_utc(text: &[u8]) -> bool
    ensures { result ≡ is_utc text.now }
{
    matches!(text, [b'Z' | b'z'])
}

// The offset from UTC in seconds that a text says, as `+02:00`.
fn offset_in(text: &[u8]) -> Option<i32>
    ensures is { result ≡ iso_offset text.now }
    ensures bound { IfSome result (IsWithin 86_400) }
{
    let [sign, a, b, colon, c, d] = text else {
        return None;
    };
    if *sign != b'+' && *sign != b'-' || *colon != b':' {
        return None;
    }
    let hours = digit_pair(*a, *b)?;
    let minutes = digit_pair(*c, *d)?;
    offset_of(*sign, hours, minutes)
}

// The offset of so many hours and minutes in seconds.
fn offset_of(sign: u8, hours: u8, minutes: u8) -> Option<i32>
    ensures is { result ≡ offset_of_parts sign (Some hours) (Some minutes) }
    ensures bound { IfSome result (IsWithin 86_400) }
{
    if hours >= 24 || minutes >= 60 {
        return None;
    }
    let seconds = (hours as u32 * 3600 + minutes as u32 * 60) as i32;
    if sign == b'-' {
        Some(-seconds)
    } else {
        Some(seconds)
    }
}

// The number that two digits spell.
fn digit_pair(tens: u8, ones: u8) -> Option<u8>
    ensures is { result ≡ digit_pair tens ones }
    ensures bound { IfSome result (λ n. n < 100) }
{
    if tens.is_ascii_digit() && ones.is_ascii_digit() {
        Some((tens - b'0') * 10 + (ones - b'0'))
    } else {
        None
    }
}
