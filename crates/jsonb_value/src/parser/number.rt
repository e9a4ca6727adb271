//! The parser of numbers.

ghost use Rattle.std.specs.Prelude.{◌≡◌, ℕ, ℤ, pos, ◌+◌, ◌*◌, ◌^◌, ◌<◌, ◌-ℤ◌, List, Some, None};
ghost use Rattle.std.specs.Prelude.{chars, option_map, Bool, SomeIff, MatchOption, IsTrue};
ghost use Rattle.jsonb_value.specs.Words.{digit_value, is_ascii_digit, digits_value, is_within};
ghost use Rattle.jsonb_value.specs.Words.{signed_number, read_sign, read_whole, read_fraction};
ghost use Rattle.jsonb_value.specs.Words.{is_exponent_mark, read_either_sign, read_integer};
ghost use Rattle.jsonb_value.specs.Words.{read_exponent, read_number, front_digits, after_digits};
ghost use Rattle.jsonb_value.specs.Words.{AreDigits, IsCounted, HasInteger, number_of};
ghost use Rattle.jsonb_value.specs.Words.{scaled_number};

mod short;

use crate::number::Number;
use crate::parser::cursor::{after_char, split_ascii, split_first};
pub use short::read_short_number;

/// Whether numbers may have an exponent.
#[derive(Clone, Copy)]
pub enum Exponents {
    Forbidden,
    Allowed,
}

// A number below this still fits 64 bits after one more digit.
const FITS_AFTER_A_DIGIT: u128 = 1 << 60;

/// Digits that were read: their count, and the number that they form with the digits before them,
/// `None` if it exceeds 128 bits.
#[derive(Clone, Copy)]
pub struct Digits {
    pub count: usize,
    pub value: Option<u128>,
}

/// An integer that was read: its sign, and its magnitude, `None` if that exceeds 128 bits.
#[derive(Clone, Copy)]
pub struct Integer {
    pub is_negative: bool,
    pub magnitude: Option<u128>,
}

// Whether the text begins with a minus, and the text after it.
#[inline(always)]
fn read_sign(text: &str) -> (bool, &str)
    ensures { (result.0, chars result.1.now) ≡ read_sign (chars text.now) }
{
    match split_ascii(text) {
        Some(('-', rest)) => (true, rest),
        _ => (false, text),
    }
}

// The number with one more digit appended. Short numbers are computed in 64 bits.
#[inline(always)]
fn with_digit(value: Option<u128>, digit: char) -> Option<u128>
    requires { IsTrue (is_ascii_digit digit) }
    ensures { (n : ℕ) → IsCounted n value → IsCounted (n * 10 + digit_value digit) result }
{
    let digit = digit.to_digit(10)?;
    let value = value?;
    if value < FITS_AFTER_A_DIGIT {
        return Some(u128::from(value as u64 * 10 + u64::from(digit)));
    }
    value.checked_mul(10)?.checked_add(u128::from(digit))
}

// Reads the digits at the start of the text, which continue the number `start`; returns the text
// after them.
#[inline(always)]
fn read_digits(start: Option<u128>, text: &str) -> (Digits, &str)
    ensures digits { (n : ℕ) → IsCounted n start
        → AreDigits n (front_digits (chars text.now)) result.0 }
    ensures rest { chars result.1.now ≡ after_digits (chars text.now) }
{
    let mut digits = Digits {
        count: 0,
        value: start,
    };
    let mut rest = text;
    'digits: while let Some((digit, after)) = split_first(rest) {
        if !digit.is_ascii_digit() {
            break;
        }
        digits.count += 1;
        digits.value = with_digit(digits.value, digit);
        rest = after;
    }
    (digits, rest)
}

// Reads `0`, or digits that begin with another digit: their number, `None` if it exceeds 128 bits,
// and the text after them.
#[inline(always)]
fn read_whole(text: &str) -> Option<(Option<u128>, &str)>
    ensures { MatchOption result (read_whole (chars text.now) ≡ None)
        (λ found. (ds : List ℕ) × (read_whole (chars text.now) ≡ Some (ds, chars found.1.now))
        × IsCounted (digits_value 10 ds) found.0) }
{
    let (first, rest) = split_first(text)?;
    if !first.is_ascii_digit() {
        return None;
    }
    let value = with_digit(Some(0), first);
    if first == '0' {
        return Some((value, rest));
    }
    let (digits, rest) = read_digits(value, rest);
    Some((digits.value, rest))
}

// Reads a point and its digits, if the text begins with a point. The digits continue the number
// `whole`.
#[inline(always)]
fn read_fraction(whole: Option<u128>, text: &str) -> Option<(Digits, &str)>
    ensures { (n : ℕ) → IsCounted n whole
        → MatchOption result (read_fraction (chars text.now) ≡ None)
        (λ found. (ds : List ℕ) × (read_fraction (chars text.now) ≡ Some (ds, chars found.1.now))
        × AreDigits n ds found.0) }
{
    let Some(rest) = after_char(text, '.') else {
        let digits = Digits {
            count: 0,
            value: whole,
        };
        return Some((digits, text));
    };
    let (digits, rest) = read_digits(whole, rest);
    if digits.count == 0 {
        return None;
    }
    Some((digits, rest))
}

// Whether the text begins with a minus, and the text after that or after a plus.
fn read_either_sign(text: &str) -> (bool, &str)
    ensures { (result.0, chars result.1.now) ≡ read_either_sign (chars text.now) }
{
    match after_char(text, '+') {
        Some(rest) => (false, rest),
        None => read_sign(text),
    }
}

// Reads an integer: digits, at least one, after a sign or none; returns the text after it.
#[inline(never)]
fn read_integer(text: &str) -> Option<(Integer, &str)>
    ensures { MatchOption result (read_integer (chars text.now) ≡ None)
        (λ found. (z : ℤ) × (read_integer (chars text.now) ≡ Some (z, chars found.1.now))
        × HasInteger z found.0) }
{
    let (is_negative, rest) = read_either_sign(text);
    let (digits, rest) = read_digits(Some(0), rest);
    if digits.count == 0 {
        return None;
    }
    let integer = Integer {
        is_negative,
        magnitude: digits.value,
    };
    Some((integer, rest))
}

// Whether the character begins an exponent.
fn is_exponent_mark(character: char) -> bool
    ensures { result ≡ is_exponent_mark character }
{
    matches!(character, 'E' | 'e')
}

// Reads an exponent, if exponents are allowed and the text begins with `e` or `E`; otherwise it is
// 0. Returns the text after it.
#[inline(always)]
#[tactic(auto, using(crate::proofs::Json::NumberSteps::no_exponent))]
fn read_exponent(exponents: Exponents, text: &str) -> Option<(Integer, &str)>
    ensures { MatchOption result (read_exponent exponents (chars text.now) ≡ None)
        (λ found. (z : ℤ)
        × (read_exponent exponents (chars text.now) ≡ Some (z, chars found.1.now))
        × HasInteger z found.0) }
{
    let none = Integer {
        is_negative: false,
        magnitude: Some(0),
    };
    if let Exponents::Forbidden = exponents {
        return Some((none, text));
    }
    match split_first(text) {
        Some((mark, rest)) if is_exponent_mark(mark) => read_integer(rest),
        _ => Some((none, text)),
    }
}

// The magnitude with its sign, if the type can hold it.
fn signed(is_negative: bool, magnitude: u128) -> Option<i128>
    ensures { SomeIff result (IsTrue (is_within 127 (signed_number is_negative magnitude)))
        (signed_number is_negative magnitude) }
{
    if is_negative {
        0i128.checked_sub_unsigned(magnitude)
    } else {
        i128::try_from(magnitude).ok()
    }
}

// The number with this many zeros appended, if 128 bits hold it. At most 38 zeros take time.
fn with_zeros(number: u128, zeros: u128) -> Option<u128>
    ensures { SomeIff result (number * 10 ^ zeros < 2 ^ 128) (number * 10 ^ zeros) }
{
    if number == 0 {
        return Some(0);
    }
    let power = 10u128.checked_pow(u32::try_from(zeros).ok()?)?;
    number.checked_mul(power)
}

// The scale and the magnitude of a number with `count` fraction digits, with this magnitude without
// its point and with this exponent; `None` if no number has them.
#[inline(always)]
fn scaled(count: usize, magnitude: u128, exponent: Integer) -> Option<(usize, u128)>
    ensures { (is_negative : Bool) (z : ℤ) → HasInteger z exponent
        → MatchOption result
        (scaled_number (pos count -ℤ z) (signed_number is_negative magnitude) ≡ None)
        (λ found. scaled_number (pos count -ℤ z) (signed_number is_negative magnitude)
        ≡ number_of found.0 (signed_number is_negative found.1)) }
{
    if exponent.is_negative {
        let lowered = usize::try_from(exponent.magnitude?).ok()?;
        return Some((count.checked_add(lowered)?, magnitude));
    }
    // An exponent past 128 bits has the effect of the greatest one below.
    let raised = exponent.magnitude.unwrap_or(u128::MAX);
    if raised <= count as u128 {
        return Some((count - raised as usize, magnitude));
    }
    Some((0, with_zeros(magnitude, raised - count as u128)?))
}

/// Reads the number at the start of the text, in 128 bits; returns the text after it.
#[inline(never)]
pub fn read_number(exponents: Exponents, text: &str) -> Option<(Number, &str)>
    ensures { option_map
        (λ found. (found.0, chars found.1.now)) result ≡ read_number exponents (chars text.now) }
{
    let (is_negative, rest) = read_sign(text);
    let (whole, rest) = read_whole(rest)?;
    let (digits, rest) = read_fraction(whole, rest)?;
    let (exponent, rest) = read_exponent(exponents, rest)?;
    let (scale, magnitude) = scaled(digits.count, digits.value?, exponent)?;
    let value = signed(is_negative, magnitude)?;
    let number = Number::from_scaled(scale, value)?;
    Some((number, rest))
}
