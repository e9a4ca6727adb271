//! Numbers, as they are written.

ghost use Rattle.std.specs.Prelude.{◌≡◌, Ok, chars, option_map, string_bytes};
ghost use Rattle.jsonb_value.specs.Json.Characters.{is_exponent_mark};
ghost use Rattle.jsonb_path.specs.Fault.{Reads};
ghost use Rattle.jsonb_path.specs.Numeral.{after_character, after_sign, begins_numeral, exponent};
ghost use Rattle.jsonb_path.specs.Numeral.{fraction, numeral_at};

use super::Stop;
use super::cursor::{Class, begins, read_run, split_first};

/// Whether a text begins with a number: with a digit, or with a point and a digit.
pub fn begins_numeral(text: &str) -> bool
    ensures { result ≡ begins_numeral (chars text.now) }
{
    match split_first(text) {
        Some(('.', rest)) => begins(Class::Digit, rest),
        Some((first, _)) => Class::Digit.has(first),
        None => false,
    }
}

/// Appends the number that a text begins with, whose first character is not tested; returns what is
/// after it.
#[tactic(auto, unfolding(crate::specs::Numeral::numeral_at))]
pub fn read_numeral<'a>(content: &mut String, text: &'a str) -> Result<&'a str, Stop>
    ensures { Reads (λ rest. (string_bytes content.new, chars rest.now)) result
        (Ok (numeral_at (string_bytes content.old) (chars text.now))) }
{
    let Some((first, rest)) = split_first(text) else {
        return Ok(text);
    };
    content.push(first)?;
    let rest = read_after(first, content, rest)?;
    read_exponent(content, rest)
}

// Appends what is after the first character of a number, up to its exponent: digits after a point,
// and after a digit the others, which a zero has not, a point and digits.
fn read_after<'a>(first: char, content: &mut String, text: &'a str) -> Result<&'a str, Stop>
    ensures { Reads (λ rest. (string_bytes content.new, chars rest.now)) result
        (Ok (after_character (string_bytes content.old) first (chars text.now))) }
{
    match first {
        '.' => read_run(Class::Digit, content, text),
        '0' => read_fraction(content, text),
        _ => {
            let rest = read_run(Class::Digit, content, text)?;
            read_fraction(content, rest)
        }
    }
}

// Appends a point and the digits after it, or nothing without a point.
fn read_fraction<'a>(content: &mut String, text: &'a str) -> Result<&'a str, Stop>
    ensures { Reads (λ rest. (string_bytes content.new, chars rest.now)) result
        (Ok (fraction (string_bytes content.old) (chars text.now))) }
{
    if let Some(('.', rest)) = split_first(text) {
        content.push('.')?;
        return read_run(Class::Digit, content, rest);
    }
    Ok(text)
}

// Appends an exponent, or nothing without its mark or without digits.
fn read_exponent<'a>(content: &mut String, text: &'a str) -> Result<&'a str, Stop>
    ensures { Reads (λ rest. (string_bytes content.new, chars rest.now)) result
        (Ok (exponent (string_bytes content.old) (chars text.now))) }
{
    let Some((mark, rest)) = split_first(text) else {
        return Ok(text);
    };
    if !is_exponent_mark(mark) {
        return Ok(text);
    }
    let (sign, digits) = after_sign(rest);
    if !begins(Class::Digit, digits) {
        return Ok(text);
    }
    content.push(mark)?;
    if let Some(sign) = sign {
        content.push(sign)?;
    }
    read_run(Class::Digit, content, digits)
}

// A sign, if the text begins with one, and what is after it.
fn after_sign(text: &str) -> (Option<char>, &str)
    ensures { (result.0, chars result.1.now) ≡ after_sign (chars text.now) }
{
    match split_first(text) {
        Some((sign, rest)) if sign == '+' || sign == '-' => (Some(sign), rest),
        _ => (None, text),
    }
}

// Whether a character begins an exponent.
fn is_exponent_mark(character: char) -> bool
    ensures { result ≡ is_exponent_mark character }
{
    character == 'E' || character == 'e'
}
