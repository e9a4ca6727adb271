//! The parser of short numbers: those of a value below 10^18 without their point, in 64 bits.

ghost use Rattle.std.specs.Prelude.{◌≡◌, ℕ, pos, ◌+◌, ◌*◌, ◌^◌, ◌<◌, ◌≤◌, List, Some, chars, IfSome};
ghost use Rattle.std.specs.Prelude.{IsTrue, false};
ghost use Rattle.jsonb_value.specs.declared.parser.number.Exponents.{Exponents};
ghost use Rattle.jsonb_value.specs.Words.{digit_value, is_ascii_digit, digits_value, IsShort, OnTrue};
ghost use Rattle.jsonb_value.specs.Words.{signed_number, number_of, read_whole, read_fraction};
ghost use Rattle.jsonb_value.specs.Words.{read_exponent, read_number, front_digits, after_digits};

use crate::number::{Decimal64, Number};
use crate::parser::cursor::{after_char, split_ascii};
use crate::parser::number::{is_exponent_mark, read_sign};
use core::dec2flt::{read_digits, ten_to};

// A number below this is still short after one more digit.
const SHORT_AFTER_A_DIGIT: u64 = 100_000_000_000_000_000;

// How many digits are short whatever they are.
const SHORT_DIGITS: usize = 18;

/// Digits that were read: their count, and the number below 10^18 that they form with the digits
/// before them.
#[derive(Clone, Copy)]
pub struct ShortDigits {
    pub count: usize,
    pub value: u64,
}

// The short number with one more digit appended.
#[inline(always)]
fn short_with_digit(value: u64, digit: char) -> u64
    requires digit { IsTrue (is_ascii_digit digit) }
    requires short { value < 10 ^ 17 }
    ensures value { result ≡ value * 10 + digit_value digit }
    ensures short { result < 10 ^ 18 }
{
    match digit.to_digit(10) {
        Some(digit) => value * 10 + u64::from(digit),
        None => unreachable!(),
    }
}

// Reads the digits at the start of the text, which continue the number `start`; returns the text
// after them. `None` if the number is not short.
#[inline(always)]
fn read_short_digits(start: u64, text: &str) -> Option<(ShortDigits, &str)>
    requires { start < 10 ^ 18 }
    ensures { IfSome result (λ found. IsShort found.0 start (front_digits (chars text.now))
        × (chars found.1.now ≡ after_digits (chars text.now))) }
{
    let mut digits = ShortDigits {
        count: 0,
        value: start,
    };
    let mut rest = text;
    'digits: while let Some((digit, after)) = split_ascii(rest) {
        if !digit.is_ascii_digit() {
            break;
        }
        if digits.value >= SHORT_AFTER_A_DIGIT {
            return None;
        }
        digits.count += 1;
        digits.value = short_with_digit(digits.value, digit);
        rest = after;
    }
    Some((digits, rest))
}

// Whether the number `start` is still short after this many more digits, whatever they are.
#[inline(always)]
fn stays_short(start: u64, count: usize) -> bool
    ensures { OnTrue result (start * 10 ^ count + 10 ^ count ≤ 10 ^ 18) }
{
    count <= SHORT_DIGITS && start < ten_to((SHORT_DIGITS - count) as u64)
}

// As `read_short_digits`, eight digits at a time.
#[inline(never)]
fn read_many_digits(start: u64, text: &str) -> Option<(ShortDigits, &str)>
    requires { start < 10 ^ 18 }
    ensures { IfSome result (λ found. IsShort found.0 start (front_digits (chars text.now))
        × (chars found.1.now ≡ after_digits (chars text.now))) }
{
    let (count, value) = read_digits(text.as_bytes(), 0, start);
    if !stays_short(start, count) {
        return None;
    }
    Some((ShortDigits { count, value }, text.split_at(count).1))
}

// As `read_short_digits`, eight digits at a time if there seem to be many.
#[inline(always)]
fn read_fraction_digits(start: u64, text: &str) -> Option<(ShortDigits, &str)>
    requires { start < 10 ^ 18 }
    ensures { IfSome result (λ found. IsShort found.0 start (front_digits (chars text.now))
        × (chars found.1.now ≡ after_digits (chars text.now))) }
{
    match text.as_bytes() {
        [_, _, third, _, _, _, _, eighth, ..]
            if third.is_ascii_digit() && eighth.is_ascii_digit() => {
            read_many_digits(start, text)
        }
        _ => read_short_digits(start, text),
    }
}

// As `read_whole`, if the number is short.
#[inline(always)]
fn read_short_whole(text: &str) -> Option<(u64, &str)>
    ensures { IfSome result (λ found. (ds : List ℕ)
        × (read_whole (chars text.now) ≡ Some (ds, chars found.1.now))
        × (found.0 ≡ digits_value 10 ds) × (found.0 < 10 ^ 18)) }
{
    let (first, rest) = split_ascii(text)?;
    if !first.is_ascii_digit() {
        return None;
    }
    let start = short_with_digit(0, first);
    if first == '0' {
        return Some((start, rest));
    }
    let (digits, rest) = read_short_digits(start, rest)?;
    Some((digits.value, rest))
}

// As `read_fraction`, if the number is short.
#[inline(always)]
fn read_short_fraction(whole: u64, text: &str) -> Option<(ShortDigits, &str)>
    requires { whole < 10 ^ 18 }
    ensures { IfSome result (λ found. (ds : List ℕ)
        × (read_fraction (chars text.now) ≡ Some (ds, chars found.1.now))
        × IsShort found.0 whole ds) }
{
    let Some(rest) = after_char(text, '.') else {
        let digits = ShortDigits {
            count: 0,
            value: whole,
        };
        return Some((digits, text));
    };
    let (digits, rest) = read_fraction_digits(whole, rest)?;
    if digits.count == 0 {
        return None;
    }
    Some((digits, rest))
}

// Whether the text begins as an exponent does.
#[inline(always)]
fn begins_exponent(text: &str) -> bool
    ensures { result ≡ false → (rule : Exponents)
        → read_exponent rule (chars text.now) ≡ Some (pos 0, chars text.now) }
{
    match split_ascii(text) {
        Some((mark, _)) => is_exponent_mark(mark),
        None => false,
    }
}

// The number with these fraction digits. `None` if they are more than a scale can be.
#[inline(always)]
fn short_number(is_negative: bool, digits: ShortDigits) -> Option<Number>
    requires { digits.value < 10 ^ 18 }
    ensures { IfSome result (λ number. number_of digits.count
        (signed_number is_negative digits.value) ≡ Some number) }
{
    let magnitude = digits.value as i64;
    let value = if is_negative { -magnitude } else { magnitude };
    if digits.count == 0 {
        return Some(if value < 0 {
            Number::Int64(value)
        } else {
            Number::UInt64(digits.value)
        });
    }
    let scale = u8::try_from(digits.count).ok()?;
    Some(Number::Decimal64(Decimal64 { scale, value }))
}

/// Reads the number at the start of the text as `read_number` does, if it is short and has no
/// exponent; `None` says nothing of the text.
#[inline(always)]
pub fn read_short_number(text: &str) -> Option<(Number, &str)>
    ensures { IfSome result (λ found. (rule : Exponents)
        → read_number rule (chars text.now) ≡ Some (found.0, chars found.1.now)) }
{
    let (is_negative, rest) = read_sign(text);
    let (whole, rest) = read_short_whole(rest)?;
    let (digits, rest) = read_short_fraction(whole, rest)?;
    if begins_exponent(rest) {
        return None;
    }
    let number = short_number(is_negative, digits)?;
    Some((number, rest))
}
