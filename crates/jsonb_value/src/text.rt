//! The texts of numbers, strings and extension values.

ghost use Rattle.std.specs.Prelude.{◌≡◌, ◌<◌, false, Some, position, flat_map};
ghost use Rattle.jsonb_value.specs.Words.{WritesStyledOnOk, digit_glyph, extension_of, interval};
ghost use Rattle.jsonb_value.specs.Words.{timestamp_tz, number_text, decimal_text, point_text};
ghost use Rattle.jsonb_value.specs.Words.{hex_text, hex_byte, is_escaped, escape, byte_text};
ghost use Rattle.jsonb_value.specs.Words.{string_text, extension_text};

use crate::extension::{ExtensionValue, Interval, TimestampTz};
use crate::number::Number;
use crate::runs::{is_all_plain, plain_len};
use itoa::{Buffer, Integer};
use std::fmt;

/// Writes a number: an integer in decimal, a decimal with as many fraction digits as its scale, and
/// `-` exactly if the value is negative. Width and fill are ignored.
#[inline(always)]
pub fn write_number<W: fmt::Write>(number: &Number, f: &mut fmt::Formatter<W>) -> fmt::Result
    ensures { WritesStyledOnOk W.write_str_gives f.old result (number_text number.now) f.new }
{
    match number {
        Number::Int64(value) => write_whole(*value, f),
        Number::UInt64(value) => write_whole(*value, f),
        Number::Decimal64(decimal) => write_decimal(i128::from(decimal.value), decimal.scale, f),
        Number::Decimal128(decimal) => write_decimal(decimal.value, decimal.scale, f),
    }
}

/// Writes a string between quotes. `"`, `\` and the bytes below 0x20 are escaped; everything else
/// is copied. Width and fill are ignored.
#[tactic(auto, using(crate::proofs::Writing::joins))]
pub fn write_string<W: fmt::Write>(text: &str, f: &mut fmt::Formatter<W>) -> fmt::Result
    ensures { WritesStyledOnOk W.write_str_gives f.old result (string_text text.now) f.new }
{
    f.write_str("\"")?;
    write_content(text, f)?;
    f.write_str("\"")
}

/// Writes an extension value without quotes: bytes in lower-case hexadecimal, other kinds as
/// integers separated by single spaces. In the text of a document it is quoted, as a string is.
/// Width and fill are ignored.
#[tactic(auto, using(crate::proofs::Writing::joins))]
pub fn extension_text<W: fmt::Write>(
    value: &ExtensionValue,
    f: &mut fmt::Formatter<W>,
) -> fmt::Result
    ensures { WritesStyledOnOk W.write_str_gives f.old result
        (extension_text (extension_of value.now)) f.new }
{
    match value {
        ExtensionValue::Binary(bytes) => write_hex(bytes, f),
        ExtensionValue::Date(date) => write_whole(date.value, f),
        ExtensionValue::Timestamp(timestamp) => write_whole(timestamp.value, f),
        ExtensionValue::TimestampTz(zoned) => write_timestamp_tz(zoned, f),
        ExtensionValue::Interval(interval) => write_interval(interval, f),
        ExtensionValue::Opaque(opaque) => {
            write_hex_byte(opaque.tag(), f)?;
            write_hex(opaque.bytes(), f)
        }
    }
}

/// Writes the text of `extension_text`.
impl fmt::Display for ExtensionValue<'_> {
    ghost output = { λ value. Some (extension_text (extension_of value)) };

    ghost styled_output = { λ value _. Some (extension_text (extension_of value)) };

    fn fmt<W: fmt::Write>(&self, f: &mut fmt::Formatter<W>) -> fmt::Result {
        extension_text(self, f)
    }
}

#[inline(never)]
fn write_whole<I: Integer, W: fmt::Write>(value: I, f: &mut fmt::Formatter<W>) -> fmt::Result
    ensures { WritesStyledOnOk W.write_str_gives f.old result (I.text value) f.new }
{
    f.write_str(Buffer::new().format(value))
}

#[tactic(auto, using(crate::proofs::Writing::joins))]
fn write_decimal<W: fmt::Write>(value: i128, scale: u8, f: &mut fmt::Formatter<W>) -> fmt::Result
    ensures { WritesStyledOnOk W.write_str_gives f.old result (decimal_text scale value) f.new }
{
    if scale == 0 {
        return write_whole(value, f);
    }
    if value < 0 {
        f.write_str("-")?;
    }
    write_fraction(value.unsigned_abs(), usize::from(scale), f)
}

// Writes the magnitude of a decimal, with a point before its last `scale` digits.
fn write_fraction<W: fmt::Write>(
    magnitude: u128,
    scale: usize,
    f: &mut fmt::Formatter<W>,
) -> fmt::Result
    requires { 0 < scale }
    ensures { WritesStyledOnOk W.write_str_gives f.old result (point_text scale magnitude) f.new }
{
    let mut buffer = Buffer::new();
    // Division of 64 bits is many times as fast as that of 128.
    let digits = match u64::try_from(magnitude) {
        Ok(magnitude) => buffer.format(magnitude),
        Err(_) => buffer.format(magnitude),
    };
    if digits.len() > scale {
        let (front, back) = digits.split_at(digits.len() - scale);
        f.write_str(front)?;
        f.write_str(".")?;
        f.write_str(back)
    } else {
        f.write_str("0.")?;
        f.write_repeated("0", scale - digits.len())?;
        f.write_str(digits)
    }
}

#[tactic(auto, using(crate::proofs::Writing::joins))]
fn write_timestamp_tz<W: fmt::Write>(zoned: &TimestampTz, f: &mut fmt::Formatter<W>) -> fmt::Result
    ensures { WritesStyledOnOk W.write_str_gives f.old result
        (extension_text (timestamp_tz zoned.now)) f.new }
{
    write_whole(zoned.value, f)?;
    f.write_str(" ")?;
    write_whole(zoned.offset, f)
}

#[tactic(auto, using(crate::proofs::Writing::joins))]
fn write_interval<W: fmt::Write>(given: &Interval, f: &mut fmt::Formatter<W>) -> fmt::Result
    ensures { WritesStyledOnOk W.write_str_gives f.old result
        (extension_text (interval given.now)) f.new }
{
    write_whole(given.months, f)?;
    f.write_str(" ")?;
    write_whole(given.days, f)?;
    f.write_str(" ")?;
    write_whole(given.micros, f)
}

fn write_hex<W: fmt::Write>(bytes: &[u8], f: &mut fmt::Formatter<W>) -> fmt::Result
    ensures { WritesStyledOnOk W.write_str_gives f.old result (hex_text bytes.now) f.new }
{
    'bytes: for byte in bytes {
        write_hex_byte(*byte, f)?;
    }
    Ok(())
}

#[tactic(auto, using(crate::proofs::Writing::joins))]
fn write_hex_byte<W: fmt::Write>(byte: u8, f: &mut fmt::Formatter<W>) -> fmt::Result
    ensures { WritesStyledOnOk W.write_str_gives f.old result (hex_byte byte) f.new }
{
    f.write_char(hex_digit(byte / 16))?;
    f.write_char(hex_digit(byte % 16))
}

fn hex_digit(digit: u8) -> char
    requires { digit < 16 }
    ensures value { result ≡ digit_glyph false digit }
    ensures ascii { result < 128 }
{
    char::from(if digit < 10 {
        b'0' + digit
    } else {
        b'a' + (digit - 10)
    })
}

/// Writes the text of a string without its quotes, as `write_string` escapes it: for callers that
/// write the quotes together with what is beside them. Width and fill are ignored.
#[inline(always)]
#[tactic(auto, using(crate::proofs::Escapes::plain_front))]
pub fn write_content<W: fmt::Write>(text: &str, f: &mut fmt::Formatter<W>) -> fmt::Result
    ensures { WritesStyledOnOk W.write_str_gives f.old result (flat_map byte_text text.now) f.new }
{
    if is_all_plain(text.as_bytes()) {
        f.write_str(text)
    } else {
        write_runs(text, f)
    }
}

// Writes unescaped bytes in runs, and each escape on its own.
#[inline(never)]
fn write_runs<W: fmt::Write>(text: &str, f: &mut fmt::Formatter<W>) -> fmt::Result
    ensures { WritesStyledOnOk W.write_str_gives f.old result (flat_map byte_text text.now) f.new }
{
    let mut rest = text;
    'runs: while let Some(at) = first_escape(rest) {
        f.write_str(&rest[..at])?;
        write_escape(rest.as_bytes()[at], f)?;
        rest = &rest[at + 1..];
    }
    f.write_str(rest)
}

fn first_escape(text: &str) -> Option<usize>
    ensures { result ≡ position is_escaped text.now }
{
    let at = plain_len(text.as_bytes());
    if at < text.len() { Some(at) } else { None }
}

#[tactic(auto, using(crate::proofs::Writing::joins))]
fn write_escape<W: fmt::Write>(byte: u8, f: &mut fmt::Formatter<W>) -> fmt::Result
    requires { byte < 128 }
    ensures { WritesStyledOnOk W.write_str_gives f.old result (escape byte) f.new }
{
    match byte {
        b'"' => f.write_str("\\\""),
        b'\\' => f.write_str("\\\\"),
        0x08 => f.write_str("\\b"),
        0x09 => f.write_str("\\t"),
        0x0A => f.write_str("\\n"),
        0x0C => f.write_str("\\f"),
        0x0D => f.write_str("\\r"),
        _ => {
            f.write_str("\\u00")?;
            write_hex_byte(byte, f)
        }
    }
}
