//! Exponents of numbers, character by character.

ghost use Rattle.std.specs.Prelude.{◌≡◌, ◌*◌, ◌+◌, ◌<◌, ◌≤◌, ◌^◌};
ghost use Rattle.json_fault.specs.Words.{log10, zeros, without_digits, raising, lowering, reaches};
ghost use Rattle.json_fault.specs.Words.{with_value, exponent_continued, exponent_begun, at_most};
ghost use Rattle.json_fault.specs.Words.{is_final};

use crate::number::{Numeral, limit};

/// What is known of an exponent that is being read.
#[derive(Clone, Copy)]
pub struct Exponent {
    /// Whether a digit was read.
    pub has_digits: bool,
    /// The number that the digits form, or `least` if all from there on have the same effect.
    pub value: u128,
    /// The least that it may become.
    pub least: u128,
    /// The greatest that it may become, if there is one.
    pub greatest: Option<u128>,
}

// The exponent of the greatest power of ten that is at most the number; 0 for 0.
#[tactic(auto, using(crate::proofs::Powers::log10_is, crate::proofs::Powers::log10_none))]
fn log10(number: u128) -> u32
    ensures value { result ≡ log10 number }
    ensures power { 0 < number → 10 ^ result ≤ number }
{
    if number == 0 { 0 } else { number.ilog10() }
}

// How many zeros the digits have room for; `None` if for all, as the number is 0.
fn zeros(is_negative: bool, magnitude: u128) -> Option<u32>
    ensures { result ≡ zeros is_negative magnitude }
{
    if magnitude == 0 {
        return None;
    }
    Some(log10((limit(is_negative) - 1) / magnitude))
}

// An exponent of which no digit was read, with the least and the greatest that it may become.
fn without_digits(least: u128, greatest: Option<u128>) -> Exponent
    ensures { result ≡ without_digits least greatest }
{
    Exponent {
        has_digits: false,
        value: 0,
        least,
        greatest,
    }
}

// The exponent after its mark, if it has no minus.
fn raising(numeral: Numeral) -> Exponent
    ensures { result ≡ raising numeral }
{
    let greatest = match zeros(numeral.is_negative, numeral.magnitude) {
        Some(count) => Some(numeral.scale as u128 + u128::from(count)),
        None => None,
    };
    without_digits(numeral.scale.saturating_sub(255) as u128, greatest)
}

// The exponent after its mark and a minus.
fn lowering(numeral: Numeral) -> Option<Exponent>
    ensures { result ≡ lowering numeral }
{
    if numeral.scale < 256 {
        Some(without_digits(0, Some(255 - numeral.scale as u128)))
    } else {
        None
    }
}

// Whether some number from `least` to `greatest`, if there is any, begins with the digits of
// `value`.
#[tactic(auto, using(crate::proofs::Powers::power_some))]
fn reaches(value: u128, least: u128, greatest: u128) -> bool
    ensures { result ≡ reaches value least greatest }
{
    if value == 0 {
        return true;
    }
    if greatest < value {
        return false;
    }
    // Those that begin so and have the most digits that `greatest` allows are the largest.
    least / 10u128.pow(log10(greatest / value)) <= value
}

// The exponent with one more digit, if the format holds a number that begins so. Without a greatest
// all values from the least on have the same effect, so that no count of digits overflows.
fn with_digit(exponent: Exponent, digit: u32) -> Option<Exponent>
    ensures { result ≡ with_value exponent.greatest exponent (exponent.value * 10 + digit) }
{
    let least = exponent.least;
    let Some(greatest) = exponent.greatest else {
        let tens = exponent.value.saturating_mul(10);
        let value = tens.saturating_add(u128::from(digit)).min(least);
        return Some(Exponent {
            has_digits: true,
            value,
            least,
            greatest: None,
        });
    };
    let tens = exponent.value.checked_mul(10)?;
    let value = tens.checked_add(u128::from(digit))?;
    if reaches(value, least, greatest) {
        Some(Exponent {
            has_digits: true,
            value,
            least,
            greatest: Some(greatest),
        })
    } else {
        None
    }
}

/// The exponent after one more digit, if the format holds a number that begins so.
pub fn exponent_continued(exponent: Exponent, character: char) -> Option<Exponent>
    ensures { result ≡ exponent_continued exponent character }
{
    let digit = character.to_digit(10)?;
    with_digit(exponent, digit)
}

/// The exponent after the character that follows its mark.
pub fn exponent_begun(numeral: Numeral, character: char) -> Option<Exponent>
    ensures { result ≡ exponent_begun numeral character }
{
    match character {
        '+' => Some(raising(numeral)),
        '-' => lowering(numeral),
        _ => exponent_continued(raising(numeral), character),
    }
}

// Whether the value is at most the greatest.
fn at_most(value: u128, greatest: Option<u128>) -> bool
    ensures { result ≡ at_most value greatest }
{
    match greatest {
        Some(greatest) => value <= greatest,
        None => true,
    }
}

/// Whether the exponent may end here.
pub fn is_final(exponent: Exponent) -> bool
    ensures { result ≡ is_final exponent }
{
    exponent.has_digits
        && exponent.least <= exponent.value
        && at_most(exponent.value, exponent.greatest)
}
