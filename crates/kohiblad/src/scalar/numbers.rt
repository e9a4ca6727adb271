//! Documents made of numbers, and the numbers read from documents.

ghost use Rattle.std.specs.Prelude.{IfNone, IfSome, None, Some, ◌≡◌};
ghost use Rattle.kohiblad.specs.Words.{Doc, Error, IsDecimalOf, IsRefused, IsWrittenOut, Number};
ghost use Rattle.kohiblad.specs.Words.{canon, code, coefficient, from_halves, int64_answer};
ghost use Rattle.kohiblad.specs.Words.{int64_number, kind, kind_answer, no_decimal, no_integer};
ghost use Rattle.kohiblad.specs.Words.{number, number_of, scale, why_none};

use crate::answer::{OK, PAST_RANGE, code, hand_over_made, refuse};
use crate::scalar::{scalar_part, why_none};
use jsonb::{Error, JsonbItem, Number, NumberItem, OwnedJsonb};
use jsonb_codec::constants::NUMBER_TAG;
use std::alloc::Global;

// The kind of a number, as `kohiblad_kind` returns it.
const NUMBER: u32 = 2;

/// A number: `high` times 2 to the power of 64, plus `low`, divided by 10 to the power of `scale`.
/// The three are 0 if the status is not `OK`.
#[repr(C)]
#[derive(Clone, Copy)]
pub struct KohibladDecimal {
    pub status: u32,
    pub scale: u32,
    pub high: i64,
    pub low: u64,
}

/// A whole number of 64 bits, or 0 if the status is not `OK`.
#[repr(C)]
#[derive(Clone, Copy)]
pub struct KohibladInteger {
    pub status: u32,
    pub value: i64,
}

/// Copies the canonical document of the number `high` times 2 to the power of 64, plus `low`, with
/// `scale` of its digits after the point, to `out`. It is the document that `kohiblad_parse` makes
/// of the number: 150 with scale 2 is 1.50. `InvalidJsonb` if the scale is above 255; `OutOfMemory`
/// if an allocation fails.
#[unsafe(no_mangle)]
pub extern "C" fn kohiblad_of_decimal(
    alloc: Global,
    high: i64,
    low: u64,
    scale: u32,
    out: &mut [u8],
    length: &mut usize,
) -> u32
    ensures number { (x : Number) → number_of scale (from_halves high low) ≡ Some x
        → IsWrittenOut (canon (number x)) out.old out.new length.new result }
    ensures past { number_of scale (from_halves high low) ≡ None
        → IsRefused (code Error.InvalidJsonb) out.old out.new length.new result }
{
    match Number::from_scaled(scale as usize, whole_of(high, low)) {
        Some(number) => write_number(alloc, number, out, length),
        None => refuse(code(Error::InvalidJsonb), out, length),
    }
}

/// The whole number of two halves.
pub fn whole_of(high: i64, low: u64) -> i128
    ensures { result ≡ from_halves high low }
{
    i128::from(high) * (1 << 64) + i128::from(low)
}

/// The number in the document of a number, as a whole number of 128 bits in two halves and a scale,
/// the count of its digits after the point. `InvalidEOF` if one of the first two words is cut off;
/// `InvalidJsonb` if these are of no kind, or the bytes begin like a number but are not a document;
/// `OTHER_KIND` if they begin like a value of another kind.
#[unsafe(no_mangle)]
pub extern "C" fn kohiblad_as_decimal(bytes: &[u8]) -> KohibladDecimal
    ensures number { (x : Number) → Doc bytes.now (number x) → IsDecimalOf x result }
    ensures other { ((x : Number) → Doc bytes.now (number x) → ⊥)
        → result ≡ no_decimal (why_none 2 (kind_answer (kind bytes.now))) }
{
    match number_in(bytes) {
        Some(number) => decimal_of(number),
        None => KohibladDecimal {
            status: why_none(bytes, NUMBER),
            scale: 0,
            high: 0,
            low: 0,
        },
    }
}

// The number as C receives it: in two halves, with its scale.
fn decimal_of(number: Number) -> KohibladDecimal
    ensures { IsDecimalOf number result }
{
    let (value, scale) = unscaled(number);
    let bits = value.cast_unsigned();
    KohibladDecimal {
        status: OK,
        scale: u32::from(scale),
        high: ((bits >> 64) as u64).cast_signed(),
        low: (bits % (1 << 64)) as u64,
    }
}

/// Copies the canonical document of a whole number to `out`. It is the document that
/// `kohiblad_parse` makes of the number's digits. `OutOfMemory` if an allocation fails.
#[unsafe(no_mangle)]
pub extern "C" fn kohiblad_of_int64(
    alloc: Global,
    value: i64,
    out: &mut [u8],
    length: &mut usize,
) -> u32
    ensures { IsWrittenOut (canon (number (int64_number value))) out.old out.new length.new result }
{
    match u64::try_from(value) {
        Ok(value) => write_number(alloc, Number::UInt64(value), out, length),
        Err(_) => write_number(alloc, Number::Int64(value), out, length),
    }
}

/// The number in the document of a number, if it is a whole number of 64 bits, signed. `PAST_RANGE`
/// if it does not fit or has digits after its point, even zeros; `InvalidEOF` if one of the first
/// two words is cut off; `InvalidJsonb` if these are of no kind, or the bytes begin like a number
/// but are not a document; `OTHER_KIND` if they begin like a value of another kind.
#[unsafe(no_mangle)]
pub extern "C" fn kohiblad_as_int64(bytes: &[u8]) -> KohibladInteger
    ensures number { (x : Number) → Doc bytes.now (number x) → result ≡ int64_answer x }
    ensures other { ((x : Number) → Doc bytes.now (number x) → ⊥)
        → result ≡ no_integer (why_none 2 (kind_answer (kind bytes.now))) }
{
    match number_in(bytes) {
        Some(number) => int64_of(number),
        None => KohibladInteger {
            status: why_none(bytes, NUMBER),
            value: 0,
        },
    }
}

// The number as C receives it, or `PAST_RANGE` if it is not a whole number of 64 bits.
fn int64_of(number: Number) -> KohibladInteger
    ensures { result ≡ int64_answer number }
{
    let (value, scale) = unscaled(number);
    match i64::try_from(value) {
        Ok(value) if scale == 0 => KohibladInteger { status: OK, value },
        _ => KohibladInteger {
            status: PAST_RANGE,
            value: 0,
        },
    }
}

// Copies out the document of a number.
fn write_number(alloc: Global, value: Number, out: &mut [u8], length: &mut usize) -> u32
    ensures { IsWrittenOut (canon (number value)) out.old out.new length.new result }
{
    let item = JsonbItem::Number(NumberItem::from_number(value));
    hand_over_made(OwnedJsonb::from_item(alloc, item), out, length)
}

// The number in the document of one. `None` for all other bytes.
fn number_in(bytes: &[u8]) -> Option<Number>
    ensures found { IfSome result (λ x. Doc bytes.now (number x)) }
    ensures none { IfNone result ((x : Number) → Doc bytes.now (number x) → ⊥) }
{
    let Some(part) = scalar_part(bytes) else {
        return None;
    };
    if part.type_code == NUMBER_TAG {
        Some(part.number())
    } else {
        None
    }
}

// The number without its point, and the count of its digits after the point.
fn unscaled(number: Number) -> (i128, u8)
    ensures value { result.0 ≡ coefficient number }
    ensures scale { result.1 ≡ scale number }
{
    match number {
        Number::Int64(value) => (i128::from(value), 0),
        Number::UInt64(value) => (i128::from(value), 0),
        Number::Decimal64(decimal) => (i128::from(decimal.value), decimal.scale),
        Number::Decimal128(decimal) => (decimal.value, decimal.scale),
    }
}
