//! Numbers with their kinds, and their payloads.

ghost use Rattle.std.specs.Prelude.{◌≡◌, ◌↔◌, ◌≤◌, ◌∷◌, ◌++◌, ℕ, ℤ, List, IsTrue, IfSome, IfNone};
ghost use Rattle.std.specs.Prelude.{IfOk, IfErr, OnOk, OnErr, length, IsOk, vec_len, ◌+◌};
ghost use Rattle.std.specs.Prelude.{vec_capacity, take, Some};
ghost use Rattle.jsonb_value.specs.Words.{w64, w128, Appends, Number, IsSignedNumber, NumCode};
ghost use Rattle.jsonb_value.specs.Words.{IsUnsignedNumber, IsWholeLength, IsDecimalLength};
ghost use Rattle.jsonb_value.specs.Words.{number_payload, int_payload, uint_payload, number_of};
ghost use Rattle.jsonb_value.specs.Words.{decimal_payload, whole_number, decimal_number};
ghost use Rattle.jsonb_value.specs.Words.{to_be_bytes};

use crate::constants::{NUMBER_DECIMAL, NUMBER_INT, NUMBER_UINT, NUMBER_ZERO};
use crate::error::Error;
use crate::payload::{Short, append, append_short, word_of};
use byteorder::{BigEndian, ByteOrder};

/// A decimal of 64 bits, equal to `value` / 10^`scale`.
#[derive(Clone, Copy, Debug, PartialEq, Eq)]
pub struct Decimal64 {
    pub scale: u8,
    pub value: i64,
}

/// A decimal of 128 bits, equal to `value` / 10^`scale`.
#[derive(Clone, Copy, Debug, PartialEq, Eq)]
pub struct Decimal128 {
    pub scale: u8,
    pub value: i128,
}

/// A number with its kind. `==` compares by structure: `Int64(5)` and `UInt64(5)` differ.
#[derive(Clone, Copy, Debug, PartialEq, Eq)]
pub enum Number {
    Int64(i64),
    UInt64(u64),
    Decimal64(Decimal64),
    Decimal128(Decimal128),
}

impl Number {
    /// The number with `scale` digits after the point and, without the point, this value. Its kind
    /// is the one that the digits have in a JSON text. With scale 0 it is `UInt64` if it fits,
    /// otherwise `Int64` if it fits, otherwise `Decimal128`; with scale 1 to 255 it is `Decimal64`
    /// if it fits, and otherwise `Decimal128`. `None` if the scale is above 255.
    pub fn from_scaled(scale: usize, value: i128) -> Option<Number>
        ensures { result ≡ number_of scale value }
    {
        if scale == 0 {
            Some(whole_number(value))
        } else {
            Some(decimal_number(u8::try_from(scale).ok()?, value))
        }
    }

    /// Decodes a payload: zero, an integer of 1, 2, 4 or 8 bytes, or a decimal in its written form
    /// or in the older form with a precision byte, which has 19 bytes. `InvalidJsonbNumber` for
    /// every other byte string.
    #[inline(always)]
    #[tactic(auto, using(crate::proofs::PayloadLengths::number_payload_short))]
    pub fn decode(bytes: &[u8]) -> Result<Number, Error>
        ensures ok { IfOk result (λ x. NumCode bytes.now x) }
        ensures only { (x : Number) → NumCode bytes.now x → result ≡ Ok x }
        ensures short { OnOk result (length bytes.now ≤ 19) }
        ensures err { IfErr result (λ e. e ≡ Error.InvalidJsonbNumber) }
    {
        match bytes {
            [tag, rest @ ..] => number_of_tag(*tag, rest).ok_or(Error::InvalidJsonbNumber),
            [] => Err(Error::InvalidJsonbNumber),
        }
    }

    /// Whether the bytes are the payload of some number.
    #[inline(always)]
    pub fn is_payload(bytes: &[u8]) -> bool
        ensures { IsTrue result ↔ ((x : Number) × NumCode bytes.now x) }
    {
        match bytes {
            [tag, rest @ ..] => has_tag(*tag, rest.len()),
            [] => false,
        }
    }

    /// Appends the payload, the shortest one for an integer, and returns its length in bytes.
    /// `OutOfMemory` is the only error; the bytes of `buf` are then unchanged.
    #[inline(always)]
    pub fn compact_encode(&self, buf: &mut Vec<u8>) -> Result<usize, Error>
        ensures len { IfOk result (λ n. n ≡ length (number_payload self.now)) }
        ensures appended { OnOk result (buf.new.items ≡ buf.old.items ++ number_payload self.now) }
        ensures err { OnErr result (buf.new.items ≡ buf.old.items) }
        ensures memory { IfErr result (λ e. e ≡ Error.OutOfMemory) }
        ensures capacity { vec_capacity buf.old ≤ vec_capacity buf.new }
        ensures room { vec_len buf.old + length (number_payload self.now) ≤ vec_capacity buf.old
            → IsOk result }
    {
        match self {
            Number::Int64(value) => append_int(buf, *value),
            Number::UInt64(value) => append_uint(buf, *value),
            Number::Decimal64(decimal) => append_decimal64(buf, decimal),
            Number::Decimal128(decimal) => append_decimal128(buf, decimal),
        }
    }

    /// The length in bytes of the payload that `compact_encode` appends, at most 19.
    #[inline(always)]
    pub fn compact_len(&self) -> usize
        ensures len { result ≡ length (number_payload self.now) }
        ensures most { result ≤ 19 }
    {
        match self {
            Number::Int64(value) => int_len(*value),
            Number::UInt64(value) => uint_len(*value),
            Number::Decimal64(_) => 10,
            Number::Decimal128(_) => 18,
        }
    }
}

fn whole_number(value: i128) -> Number
    ensures { Some result ≡ whole_number value }
{
    if let Ok(value) = u64::try_from(value) {
        Number::UInt64(value)
    } else if let Ok(value) = i64::try_from(value) {
        Number::Int64(value)
    } else {
        Number::Decimal128(Decimal128 { scale: 0, value })
    }
}

fn decimal_number(scale: u8, value: i128) -> Number
    ensures { Some result ≡ decimal_number scale value }
{
    match i64::try_from(value) {
        Ok(value) => Number::Decimal64(Decimal64 { scale, value }),
        Err(_) => Number::Decimal128(Decimal128 { scale, value }),
    }
}

// Whether this tag and `count` further bytes are the payload of a number.
#[inline(always)]
fn has_tag(tag: u8, count: usize) -> bool
    ensures { (rest : List ℕ) → length rest ≡ count
        → (IsTrue result ↔ ((x : Number) × NumCode (tag ∷ rest) x)) }
{
    match tag {
        NUMBER_INT | NUMBER_UINT => is_whole_length(count),
        NUMBER_DECIMAL => is_decimal_length(count),
        NUMBER_ZERO => count == 0,
        _ => false,
    }
}

// Whether an integer payload can have this length. No branch per length: it would be mispredicted.
#[inline(always)]
fn is_whole_length(length: usize) -> bool
    ensures { IsTrue result ↔ IsWholeLength length }
{
    length <= 8 && length.is_power_of_two()
}

// Whether a decimal's value and scale can have this length.
#[inline(always)]
fn is_decimal_length(length: usize) -> bool
    ensures { IsTrue result ↔ IsDecimalLength length }
{
    matches!(length, 9 | 17 | 18)
}

// Decodes `rest` as the payload of the tag.
#[inline(always)]
fn number_of_tag(tag: u8, rest: &[u8]) -> Option<Number>
    ensures found { IfSome result (λ x. NumCode (tag ∷ rest.now) x) }
    ensures none { IfNone result ((x : Number) → NumCode (tag ∷ rest.now) x → ⊥) }
{
    match tag {
        NUMBER_ZERO if rest.is_empty() => Some(Number::UInt64(0)),
        NUMBER_INT => Some(Number::Int64(signed_of(rest)?)),
        NUMBER_UINT => Some(Number::UInt64(unsigned_of(rest)?)),
        NUMBER_DECIMAL => decimal_of(rest),
        _ => None,
    }
}

#[inline(always)]
fn signed_of(bytes: &[u8]) -> Option<i64>
    ensures found { IfSome result (λ v. IsSignedNumber bytes.now v) }
    ensures none { IfNone result ((v : ℤ) → IsSignedNumber bytes.now v → ⊥) }
{
    match bytes {
        [byte] => Some(i64::from(byte.cast_signed())),
        [_, _] => Some(i64::from(BigEndian::read_i16(bytes))),
        [_, _, _, _] => Some(i64::from(BigEndian::read_i32(bytes))),
        [_, _, _, _, _, _, _, _] => Some(BigEndian::read_i64(bytes)),
        _ => None,
    }
}

#[inline(always)]
fn unsigned_of(bytes: &[u8]) -> Option<u64>
    ensures found { IfSome result (λ v. IsUnsignedNumber bytes.now v) }
    ensures none { IfNone result ((n : ℕ) → IsUnsignedNumber bytes.now n → ⊥) }
{
    match bytes {
        [byte] => Some(u64::from(*byte)),
        [_, _] => Some(u64::from(BigEndian::read_u16(bytes))),
        [_, _, _, _] => Some(u64::from(BigEndian::read_u32(bytes))),
        [_, _, _, _, _, _, _, _] => Some(BigEndian::read_u64(bytes)),
        _ => None,
    }
}

#[inline(always)]
fn decimal_of(bytes: &[u8]) -> Option<Number>
    ensures found { IfSome result (λ x. NumCode (112 ∷ bytes.now) x) }
    ensures none { IfNone result ((x : Number) → NumCode (112 ∷ bytes.now) x → ⊥) }
{
    match bytes.len() {
        9 => Some(Number::Decimal64(Decimal64 {
            scale: bytes[8],
            value: BigEndian::read_i64(bytes),
        })),
        17 => Some(Number::Decimal128(Decimal128 {
            scale: bytes[16],
            value: BigEndian::read_i128(bytes),
        })),
        18 => Some(Number::Decimal128(Decimal128 {
            scale: bytes[17],
            value: BigEndian::read_i128(bytes),
        })),
        _ => None,
    }
}

#[inline(always)]
fn int_len(value: i64) -> usize
    ensures { result ≡ length (int_payload value) }
{
    if value == 0 {
        1
    } else if i8::try_from(value).is_ok() {
        2
    } else if i16::try_from(value).is_ok() {
        3
    } else if i32::try_from(value).is_ok() {
        5
    } else {
        9
    }
}

#[inline(always)]
fn uint_len(value: u64) -> usize
    ensures { result ≡ length (uint_payload value) }
{
    if value == 0 {
        1
    } else if value < 0x100 {
        2
    } else if value < 0x1_0000 {
        3
    } else if value < 0x1_0000_0000 {
        5
    } else {
        9
    }
}

#[inline(always)]
fn append_int(buf: &mut Vec<u8>, value: i64) -> Result<usize, Error>
    ensures { Appends (int_payload value) buf.old buf.new result }
{
    if let Ok(value) = i32::try_from(value) {
        return append_short(buf, short_int(value));
    }
    let mut payload = [NUMBER_INT, 0, 0, 0, 0, 0, 0, 0, 0];
    BigEndian::write_i64(&mut payload[1..], value);
    append(buf, &payload)
}

// The payload of an integer of 32 bits.
#[inline(always)]
fn short_int(value: i32) -> Short
    ensures { take result.size (to_be_bytes w64 result.word) ≡ int_payload value }
{
    if value == 0 {
        return Short {
            word: word_of(NUMBER_ZERO, 0, 0, 0, 0),
            size: 1,
        };
    }
    if let Ok(byte) = i8::try_from(value) {
        return Short {
            word: word_of(NUMBER_INT, byte.cast_unsigned(), 0, 0, 0),
            size: 2,
        };
    }
    if let Ok(short) = i16::try_from(value) {
        let [high, low] = short.to_be_bytes();
        return Short {
            word: word_of(NUMBER_INT, high, low, 0, 0),
            size: 3,
        };
    }
    let [first, second, third, fourth] = value.to_be_bytes();
    Short {
        word: word_of(NUMBER_INT, first, second, third, fourth),
        size: 5,
    }
}

#[inline(always)]
fn append_uint(buf: &mut Vec<u8>, value: u64) -> Result<usize, Error>
    ensures { Appends (uint_payload value) buf.old buf.new result }
{
    if let Ok(value) = u32::try_from(value) {
        return append_short(buf, short_uint(value));
    }
    let mut payload = [NUMBER_UINT, 0, 0, 0, 0, 0, 0, 0, 0];
    BigEndian::write_u64(&mut payload[1..], value);
    append(buf, &payload)
}

// The payload of an unsigned integer of 32 bits.
#[inline(always)]
fn short_uint(value: u32) -> Short
    ensures { take result.size (to_be_bytes w64 result.word) ≡ uint_payload value }
{
    if value == 0 {
        return Short {
            word: word_of(NUMBER_ZERO, 0, 0, 0, 0),
            size: 1,
        };
    }
    if let Ok(byte) = u8::try_from(value) {
        return Short {
            word: word_of(NUMBER_UINT, byte, 0, 0, 0),
            size: 2,
        };
    }
    if let Ok(short) = u16::try_from(value) {
        let [high, low] = short.to_be_bytes();
        return Short {
            word: word_of(NUMBER_UINT, high, low, 0, 0),
            size: 3,
        };
    }
    let [first, second, third, fourth] = value.to_be_bytes();
    Short {
        word: word_of(NUMBER_UINT, first, second, third, fourth),
        size: 5,
    }
}

fn append_decimal64(buf: &mut Vec<u8>, decimal: &Decimal64) -> Result<usize, Error>
    ensures { Appends (decimal_payload w64 decimal.now.value decimal.now.scale)
        buf.old buf.new result }
{
    let mut payload = [0; 10];
    payload[0] = NUMBER_DECIMAL;
    BigEndian::write_i64(&mut payload[1..], decimal.value);
    payload[9] = decimal.scale;
    append(buf, &payload)
}

fn append_decimal128(buf: &mut Vec<u8>, decimal: &Decimal128) -> Result<usize, Error>
    ensures { Appends (decimal_payload w128 decimal.now.value decimal.now.scale)
        buf.old buf.new result }
{
    let mut payload = [0; 18];
    payload[0] = NUMBER_DECIMAL;
    BigEndian::write_i128(&mut payload[1..], decimal.value);
    payload[17] = decimal.scale;
    append(buf, &payload)
}
