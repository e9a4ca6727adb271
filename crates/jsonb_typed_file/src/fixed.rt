//! The numbers of a column: values that each take as many bytes, or offsets.

ghost use Rattle.std.specs.Prelude.{◌≡◌, ◌≤◌, ◌+◌, drop, length, option_map};
ghost use Rattle.std.specs.Int.{w32, w64, w128, cast_signed};
ghost use Rattle.byteorder.specs.Endian.{big_number};
ghost use Rattle.jsonb_typed_file.specs.Words.{date_in, extension_at, extension_of, fixed_value};
ghost use Rattle.jsonb_typed_file.specs.Words.{interval_in, number, number_of, stored_view};
ghost use Rattle.jsonb_typed_file.specs.Words.{timestamp_in, value_size, zoned_timestamp_in};

use crate::column::StoredValue;
use byteorder::{BigEndian, ByteOrder};
use jsonb::{Date, ExtensionValue, Interval, Number, Timestamp, TimestampTz};
use jsonb_typed::{Fit, ScalarType, value_at_scale};
use std::alloc::AllocError;

// How many bytes a value takes in the numbers of a column, or an offset.
pub(crate) fn value_size(column_type: ScalarType) -> usize
    ensures size { result ≡ value_size column_type }
    ensures few { result ≤ 16 }
{
    match column_type {
        ScalarType::Boolean => 1,
        ScalarType::Date => 4,
        ScalarType::Int64 | ScalarType::UInt64 | ScalarType::Timestamp => 8,
        ScalarType::Text | ScalarType::Binary => 8,
        ScalarType::ZonedTimestamp => 12,
        ScalarType::Decimal(_) | ScalarType::Interval => 16,
    }
}

// The value in the first bytes, of a type whose values all take as many.
pub(crate) fn fixed_value<'a>(column_type: ScalarType, bytes: &[u8]) -> Option<StoredValue<'a>>
    requires { value_size column_type ≤ length bytes.now }
    ensures { option_map stored_view result ≡ fixed_value column_type bytes.now }
{
    match column_type {
        ScalarType::Boolean => Some(StoredValue::Boolean(bytes[0] != 0)),
        ScalarType::Int64 => number(0, i128::from(BigEndian::read_i64(bytes))),
        ScalarType::UInt64 => number(0, i128::from(BigEndian::read_u64(bytes))),
        ScalarType::Decimal(scale) => number(scale, decimal_in(bytes)),
        _ => Some(StoredValue::Extension(extension_in(column_type, bytes)?)),
    }
}

// A number with so many digits after its point.
fn number<'a>(scale: u8, value: i128) -> Option<StoredValue<'a>>
    ensures { option_map stored_view result ≡ option_map number (number_of scale value) }
{
    Some(StoredValue::Number(Number::from_scaled(usize::from(scale), value)?))
}

// The extension value in the first bytes, of a type whose values all take as many.
fn extension_in<'a>(column_type: ScalarType, bytes: &[u8]) -> Option<ExtensionValue<'a>>
    requires { value_size column_type ≤ length bytes.now }
    ensures { option_map extension_of result ≡ extension_at column_type bytes.now }
{
    match column_type {
        ScalarType::Date => Some(ExtensionValue::Date(date_in(bytes))),
        ScalarType::Timestamp => Some(ExtensionValue::Timestamp(timestamp_in(bytes))),
        ScalarType::ZonedTimestamp => Some(ExtensionValue::TimestampTz(zoned_timestamp_in(bytes))),
        ScalarType::Interval => Some(ExtensionValue::Interval(interval_in(bytes))),
        _ => None,
    }
}

// The number of 128 bits in the first bytes.
fn decimal_in(bytes: &[u8]) -> i128
    requires { 16 ≤ length bytes.now }
    ensures { result ≡ cast_signed w128 (big_number 16 bytes.now) }
{
    BigEndian::read_i128(bytes)
}

// The date in the first bytes.
fn date_in(bytes: &[u8]) -> Date
    requires { 4 ≤ length bytes.now }
    ensures { result ≡ date_in bytes.now }
{
    Date {
        value: BigEndian::read_i32(bytes),
    }
}

// The timestamp in the first bytes.
fn timestamp_in(bytes: &[u8]) -> Timestamp
    requires { 8 ≤ length bytes.now }
    ensures { result ≡ timestamp_in bytes.now }
{
    Timestamp {
        value: BigEndian::read_i64(bytes),
    }
}

// The timestamp in the first bytes, and the offset of its time zone behind it.
fn zoned_timestamp_in(bytes: &[u8]) -> TimestampTz
    requires { 12 ≤ length bytes.now }
    ensures { result ≡ zoned_timestamp_in bytes.now }
{
    TimestampTz {
        offset: i32_after(bytes, 8),
        value: BigEndian::read_i64(bytes),
    }
}

// The months, the days and the microseconds in the first bytes.
fn interval_in(bytes: &[u8]) -> Interval
    requires { 16 ≤ length bytes.now }
    ensures { result ≡ interval_in bytes.now }
{
    Interval {
        months: BigEndian::read_i32(bytes),
        days: i32_after(bytes, 4),
        micros: i64_after(bytes, 8),
    }
}

// The number of 32 bits after so many bytes.
#[tactic(auto, using(crate::proofs::FixedLaws::all_after))]
fn i32_after(bytes: &[u8], count: usize) -> i32
    requires { count + 4 ≤ length bytes.now }
    ensures { result ≡ cast_signed w32 (big_number 4 (drop count bytes.now)) }
{
    BigEndian::read_i32(&bytes[count..])
}

// The number of 64 bits after so many bytes.
#[tactic(auto, using(crate::proofs::FixedLaws::all_after))]
fn i64_after(bytes: &[u8], count: usize) -> i64
    requires { count + 8 ≤ length bytes.now }
    ensures { result ≡ cast_signed w64 (big_number 8 (drop count bytes.now)) }
{
    BigEndian::read_i64(&bytes[count..])
}

// Appends a value of the type, or zeros if there is none.
pub(crate) fn append_fixed(
    numbers: &mut Vec<u8>,
    column_type: ScalarType,
    value: Option<StoredValue<'_>>,
) -> Result<(), AllocError> {
    match value {
        Some(StoredValue::Boolean(truth)) => Ok(numbers.push(u8::from(truth))?),
        Some(StoredValue::Number(number)) => append_number(numbers, column_type, number),
        Some(StoredValue::Extension(value)) => append_extension(numbers, value),
        _ => numbers.extend_from_slice(&[0; 16][..value_size(column_type)]),
    }
}

// Appends a number without its point, at the scale of the type.
fn append_number(
    numbers: &mut Vec<u8>,
    column_type: ScalarType,
    number: Number,
) -> Result<(), AllocError> {
    let scale = match column_type {
        ScalarType::Decimal(scale) => scale,
        _ => 0,
    };
    let value = value_at_scale(number, scale, Fit::Exact).unwrap_or(0);
    numbers.extend_from_slice(&value.to_be_bytes()[16 - value_size(column_type)..])
}

// Appends an extension value, each of its numbers with the highest byte first.
fn append_extension(numbers: &mut Vec<u8>, value: ExtensionValue<'_>) -> Result<(), AllocError> {
    match value {
        ExtensionValue::Date(date) => numbers.extend_from_slice(&date.value.to_be_bytes()),
        ExtensionValue::Timestamp(timestamp) => {
            numbers.extend_from_slice(&timestamp.value.to_be_bytes())
        }
        ExtensionValue::TimestampTz(zoned) => {
            numbers.extend_from_slice(&zoned.value.to_be_bytes())?;
            numbers.extend_from_slice(&zoned.offset.to_be_bytes())
        }
        ExtensionValue::Interval(interval) => {
            numbers.extend_from_slice(&interval.months.to_be_bytes())?;
            numbers.extend_from_slice(&interval.days.to_be_bytes())?;
            numbers.extend_from_slice(&interval.micros.to_be_bytes())
        }
        ExtensionValue::Binary(_) | ExtensionValue::Opaque(_) => Ok(()),
    }
}
