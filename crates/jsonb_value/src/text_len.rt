//! The lengths of the texts of numbers, strings and extension values, counted without writing them.

ghost use Rattle.std.specs.Prelude.{◌≡◌, ◌<◌, ◌≤◌, length, flat_map};
ghost use Rattle.jsonb_value.specs.Words.{number_text, decimal_text, point_text, string_text};
ghost use Rattle.jsonb_value.specs.Words.{extension_text, extension_of, hex_text, byte_text};
ghost use Rattle.jsonb_value.specs.Words.{length_64};

use crate::extension::ExtensionValue;
use crate::number::Number;
use crate::runs::is_all_plain;
use itoa::{Buffer, Integer};

/// The length in bytes of what `write_number` writes.
pub fn number_len(number: &Number) -> usize
    ensures value { result ≡ length (number_text number.now) }
    ensures short { result < 300 }
{
    match number {
        Number::Int64(value) => whole_len(*value),
        Number::UInt64(value) => whole_len(*value),
        Number::Decimal64(decimal) => decimal_len(i128::from(decimal.value), decimal.scale),
        Number::Decimal128(decimal) => decimal_len(decimal.value, decimal.scale),
    }
}

/// The length in bytes of what `write_string` writes, or `usize::MAX` if that is more.
pub fn string_len(text: &str) -> usize
    ensures { result ≡ length_64 (string_text text.now) }
{
    content_len(text.as_bytes()).saturating_add(2)
}

/// The length in bytes of what `extension_text` writes, or `usize::MAX` if that is more.
pub fn extension_len(value: &ExtensionValue) -> usize
    ensures { result ≡ length_64 (extension_text (extension_of value.now)) }
{
    match value {
        ExtensionValue::Binary(bytes) => hex_len(bytes),
        ExtensionValue::Date(date) => whole_len(date.value),
        ExtensionValue::Timestamp(timestamp) => whole_len(timestamp.value),
        ExtensionValue::TimestampTz(zoned) => whole_len(zoned.value) + 1 + whole_len(zoned.offset),
        ExtensionValue::Interval(interval) => {
            whole_len(interval.months)
                + 1
                + whole_len(interval.days)
                + 1
                + whole_len(interval.micros)
        }
        ExtensionValue::Opaque(opaque) => hex_len(opaque.bytes()).saturating_add(2),
    }
}

fn whole_len<I: Integer>(value: I) -> usize
    ensures value { result ≡ length (I.text value) }
    ensures short { result ≤ 40 }
{
    Buffer::new().format(value).len()
}

fn decimal_len(value: i128, scale: u8) -> usize
    ensures value { result ≡ length (decimal_text scale value) }
    ensures short { result < 300 }
{
    if scale == 0 {
        return whole_len(value);
    }
    usize::from(value < 0) + fraction_len(value.unsigned_abs(), usize::from(scale))
}

// The length of the magnitude of a decimal, with a point before its last `scale` digits and at
// least one digit before the point.
fn fraction_len(magnitude: u128, scale: usize) -> usize
    requires some { 0 < scale }
    requires few { scale < 256 }
    ensures value { result ≡ length (point_text scale magnitude) }
    ensures short { result < 299 }
{
    whole_len(magnitude).max(scale + 1) + 1
}

fn hex_len(bytes: &[u8]) -> usize
    ensures { result ≡ length_64 (hex_text bytes.now) }
{
    bytes.len().saturating_add(bytes.len())
}

// The length of a string's text without its quotes.
#[tactic(auto, using(crate::proofs::Escapes::plain_front))]
fn content_len(bytes: &[u8]) -> usize
    ensures { result ≡ length_64 (flat_map byte_text bytes.now) }
{
    if is_all_plain(bytes) {
        return bytes.len();
    }
    let mut len: usize = 0;
    'bytes: for byte in bytes {
        len = len.saturating_add(byte_len(*byte));
    }
    len
}

fn byte_len(byte: u8) -> usize
    ensures { result ≡ length (byte_text byte) }
{
    match byte {
        b'"' | b'\\' | 0x08 | 0x09 | 0x0A | 0x0C | 0x0D => 2,
        0x00..=0x1F => 6,
        _ => 1,
    }
}
