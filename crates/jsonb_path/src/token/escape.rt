//! Escapes, after their backslash.

ghost use Rattle.std.specs.Prelude.{◌≡◌, ◌<◌, ◌≤◌, Some, None, chars, option_map, IfSome};
ghost use Rattle.jsonb_value.specs.Json.Piece.{pair_character, unit4, unit_value};
ghost use Rattle.jsonb_path.specs.Escape.{braced, braced_after, code_point, escape_at};
ghost use Rattle.jsonb_path.specs.Escape.{escape_letter, four_digits, is_braced, low_half, scalar};
ghost use Rattle.jsonb_path.specs.Escape.{two_digits};
ghost use Rattle.jsonb_path.specs.Escape.{unicode, with_digit};

use super::cursor::{byte_len, split_first};

// The greatest code point.
const LAST_CODE_POINT: u32 = 0x10ffff;

/// The character that an escape means, and what is after it.
#[tactic(auto, unfolding(crate::specs::Escape::escape_at))]
pub fn read_escape(text: &str) -> Option<(char, &str)>
    ensures { option_map
        (λ found. (found.0, chars found.1.now)) result ≡ escape_at (chars text.now) }
{
    let (letter, rest) = split_first(text)?;
    match letter {
        'u' => read_unicode(rest),
        'x' => read_two_digits(rest),
        _ => Some((escape_letter(letter)?, rest)),
    }
}

// The character that a letter means after a backslash: itself, if it is no letter of a control
// character. A line feed means none.
fn escape_letter(letter: char) -> Option<char>
    ensures { result ≡ escape_letter letter }
{
    match letter {
        'b' => Some('\u{8}'),
        'f' => Some('\u{c}'),
        'n' => Some('\n'),
        'r' => Some('\r'),
        't' => Some('\t'),
        'v' => Some('\u{b}'),
        '\n' => None,
        _ => Some(letter),
    }
}

// The character of two hexadecimal digits.
#[tactic(auto, using(crate::proofs::EscapeLaws::two_digits_give), unfolding(crate::specs::Escape::two_digits))]
fn read_two_digits(text: &str) -> Option<(char, &str)>
    ensures { option_map
        (λ found. (found.0, chars found.1.now)) result ≡ two_digits (chars text.now) }
{
    let (first, rest) = split_first(text)?;
    let (second, rest) = split_first(rest)?;
    let point = first.to_digit(16)? * 16 + second.to_digit(16)?;
    Some((scalar(point)?, rest))
}

// The character of a code point, or of two that form one.
#[tactic(auto, unfolding(crate::specs::Escape::unicode))]
fn read_unicode(text: &str) -> Option<(char, &str)>
    ensures { option_map (λ found. (found.0, chars found.1.now)) result ≡ unicode (chars text.now) }
{
    let (point, rest) = read_code_point(text)?;
    if (0xd800..0xdc00).contains(&point) {
        let (low, rest) = read_low_half(rest)?;
        Some((pair_character(point, low)?, rest))
    } else {
        Some((scalar(point)?, rest))
    }
}

// The second half of a pair: an escape of its own.
#[tactic(auto, unfolding(crate::specs::Escape::low_half))]
fn read_low_half(text: &str) -> Option<(u32, &str)>
    ensures value { option_map
        (λ found. (found.0, chars found.1.now)) result ≡ low_half (chars text.now) }
    ensures within { IfSome result (λ found. found.0 ≤ 0x10ffff) }
{
    let (backslash, rest) = split_first(text)?;
    let (letter, rest) = split_first(rest)?;
    if backslash == '\\' && letter == 'u' {
        read_code_point(rest)
    } else {
        None
    }
}

// A code point in four hexadecimal digits, or in braces.
#[tactic(auto, unfolding(crate::specs::Escape::code_point))]
fn read_code_point(text: &str) -> Option<(u32, &str)>
    ensures value { option_map
        (λ found. (found.0, chars found.1.now)) result ≡ code_point (chars text.now) }
    ensures within { IfSome result (λ found. found.0 ≤ 0x10ffff) }
{
    match split_first(text)? {
        ('{', rest) => read_braced(rest),
        _ => read_four_digits(text),
    }
}

#[tactic(auto, unfolding(crate::specs::Escape::four_digits))]
fn read_four_digits(text: &str) -> Option<(u32, &str)>
    ensures value { option_map
        (λ found. (found.0, chars found.1.now)) result ≡ four_digits (chars text.now) }
    ensures within { IfSome result (λ found. found.0 ≤ 0x10ffff) }
{
    let (first, text) = split_first(text)?;
    let (second, text) = split_first(text)?;
    let (third, text) = split_first(text)?;
    let (fourth, text) = split_first(text)?;
    Some((unit_value(first, second, third, fourth)?, text))
}

// The number of four hexadecimal digits.
#[tactic(auto, using(jsonb_value::proofs::Json::TextSteps::all_digits_give))]
fn unit_value(first: char, second: char, third: char, fourth: char) -> Option<u32>
    ensures value { result ≡ unit_value (unit4 first second third fourth) }
    ensures within { IfSome result (λ value. value ≤ 0x10ffff) }
{
    Some(
        first.to_digit(16)? * 4096
            + second.to_digit(16)? * 256
            + third.to_digit(16)? * 16
            + fourth.to_digit(16)?,
    )
}

// One to six hexadecimal digits before a closing brace.
#[tactic(auto, unfolding(crate::specs::Escape::braced))]
fn read_braced(text: &str) -> Option<(u32, &str)>
    ensures value { option_map
        (λ found. (found.0, chars found.1.now)) result ≡ braced (chars text.now) }
    ensures within { IfSome result (λ found. found.0 ≤ 0x10ffff) }
{
    let (point, rest) = read_to_brace(text)?;
    is_braced(byte_len(text), byte_len(rest)).then_some((point, rest))
}

// Whether one to six digits and a brace are in a text of so many bytes, of which so many are after
// the brace.
fn is_braced(all: usize, after: usize) -> bool
    ensures { result ≡ is_braced all after }
{
    matches!(all.saturating_sub(after), 2..=7)
}

// The number of all hexadecimal digits before a closing brace, if it is a code point.
fn read_to_brace(text: &str) -> Option<(u32, &str)>
    ensures value { option_map
        (λ found. (found.0, chars found.1.now)) result ≡ braced_after 0 (chars text.now) }
    ensures within { IfSome result (λ found. found.0 ≤ 0x10ffff) }
{
    let mut point = 0;
    let mut left = text;
    'digits: while let Some((first, rest)) = split_first(left) {
        if first == '}' {
            return Some((point, rest));
        }
        point = with_digit(point, first)?;
        left = rest;
    }
    None
}

// The number with one more digit, if it is a code point.
#[tactic(auto, using(crate::proofs::EscapeLaws::with_digit_gives))]
fn with_digit(point: u32, digit: char) -> Option<u32>
    requires { point ≤ 0x10ffff }
    ensures value { result ≡ with_digit point digit }
    ensures within { IfSome result (λ next. next ≤ 0x10ffff) }
{
    let next = point * 16 + digit.to_digit(16)?;
    (next <= LAST_CODE_POINT).then_some(next)
}

// The character of a code point: not of 0 and of half a pair.
fn scalar(point: u32) -> Option<char>
    requires { point ≤ 0x10ffff }
    ensures { result ≡ scalar point }
{
    if point == 0 {
        return None;
    }
    char::from_u32(point)
}

// The character of the two halves of a pair.
fn pair_character(high: u32, low: u32) -> Option<char>
    requires high_within { high ≤ 0x10ffff }
    requires low_within { low ≤ 0x10ffff }
    ensures { result ≡ pair_character high low }
{
    if (0xd800..0xdc00).contains(&high) && (0xdc00..0xe000).contains(&low) {
        char::from_u32(0x10000 + (high - 0xd800) * 1024 + (low - 0xdc00))
    } else {
        None
    }
}
