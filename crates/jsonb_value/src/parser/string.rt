//! The parser of strings; the opening quote has been read.

ghost use Rattle.std.specs.Prelude.{◌≡◌, ℕ, ◌<◌, ◌++◌, true, Some, None, chars, length, IfSome};
ghost use Rattle.std.specs.Prelude.{IfErr, OnOk};
ghost use Rattle.std.specs.Prelude.{option_map, string_bytes, encode_utf8_all};
ghost use Rattle.jsonb_value.specs.Words.{list_all, unit4, unit_value, escape_value};
ghost use Rattle.jsonb_value.specs.Words.{unit_character, pair_character, is_plain, read_unit};
ghost use Rattle.jsonb_value.specs.Words.{read_second, read_character, read_escape, read_piece};
ghost use Rattle.jsonb_value.specs.Words.{read_text, Gives};

use crate::error::Error;
use crate::parser::cursor::split_first;
use crate::runs::plain_len;

// How many bytes are asked for at first for what follows the front of a string that has escapes.
const ROOM_AFTER_FRONT: usize = 40;

// Reads four hexadecimal digits; returns the text after them.
fn read_unit(text: &str) -> Option<(u32, &str)>
    ensures value { option_map
        (λ found. (found.0, chars found.1.now)) result ≡ read_unit (chars text.now) }
    ensures short { IfSome result (λ found. found.0 < 65536) }
{
    let (first, text) = split_first(text)?;
    let (second, text) = split_first(text)?;
    let (third, text) = split_first(text)?;
    let (fourth, text) = split_first(text)?;
    Some((unit_value(first, second, third, fourth)?, text))
}

// The number of four hexadecimal digits.
#[tactic(auto, using(crate::proofs::Json::TextSteps::all_digits_give))]
fn unit_value(first: char, second: char, third: char, fourth: char) -> Option<u32>
    ensures value { result ≡ unit_value (unit4 first second third fourth) }
    ensures short { IfSome result (λ value. value < 65536) }
{
    Some(
        first.to_digit(16)? * 4096
            + second.to_digit(16)? * 256
            + third.to_digit(16)? * 16
            + fourth.to_digit(16)?,
    )
}

// Reads `\u` and four hexadecimal digits, as the second half of a surrogate pair.
fn read_second(text: &str) -> Option<(u32, &str)>
    ensures value { option_map
        (λ found. (found.0, chars found.1.now)) result ≡ read_second (chars text.now) }
    ensures short { IfSome result (λ found. found.0 < 65536) }
{
    let (backslash, text) = split_first(text)?;
    let (letter, text) = split_first(text)?;
    if backslash == '\\' && letter == 'u' {
        read_unit(text)
    } else {
        None
    }
}

// The character of a unit that is not a surrogate.
fn unit_character(unit: u32) -> Option<char>
    requires { unit < 65536 }
    ensures { result ≡ unit_character unit }
{
    char::from_u32(unit)
}

// The character of a surrogate pair.
fn pair_character(high: u32, low: u32) -> Option<char>
    requires high_short { high < 65536 }
    requires low_short { low < 65536 }
    ensures { result ≡ pair_character high low }
{
    if (0xd800..0xdc00).contains(&high) && (0xdc00..0xe000).contains(&low) {
        char::from_u32(0x10000 + (high - 0xd800) * 1024 + (low - 0xdc00))
    } else {
        None
    }
}

// Reads the rest of the character whose first unit this is.
fn read_character(unit: u32, text: &str) -> Option<(char, &str)>
    requires { unit < 65536 }
    ensures { option_map
        (λ found. (found.0, chars found.1.now)) result ≡ read_character unit (chars text.now) }
{
    if (0xd800..0xdc00).contains(&unit) {
        let (low, text) = read_second(text)?;
        Some((pair_character(unit, low)?, text))
    } else {
        Some((unit_character(unit)?, text))
    }
}

fn escape_value(letter: char) -> Option<char>
    ensures { result ≡ escape_value letter }
{
    match letter {
        '"' | '\\' | '/' => Some(letter),
        'b' => Some('\u{8}'),
        'f' => Some('\u{c}'),
        'n' => Some('\n'),
        'r' => Some('\r'),
        't' => Some('\t'),
        _ => None,
    }
}

// Reads an escape after its backslash.
fn read_escape(text: &str) -> Option<(char, &str)>
    ensures { option_map
        (λ found. (found.0, chars found.1.now)) result ≡ read_escape (chars text.now) }
{
    let (letter, text) = split_first(text)?;
    if letter == 'u' {
        let (unit, text) = read_unit(text)?;
        read_character(unit, text)
    } else {
        Some((escape_value(letter)?, text))
    }
}

// Reads one character, escaped or not.
fn read_piece(text: &str) -> Option<(char, &str)>
    ensures { option_map
        (λ found. (found.0, chars found.1.now)) result ≡ read_piece (chars text.now) }
{
    let (first, rest) = split_first(text)?;
    match first {
        '\\' => read_escape(rest),
        '"' | '\0'..='\u{1f}' => None,
        _ => Some((first, rest)),
    }
}

/// Splits off the longest prefix of unescaped characters.
#[inline(always)]
pub fn split_plain(text: &str) -> (&str, &str)
    ensures plain { list_all is_plain (chars result.0.now) ≡ true }
    ensures whole { chars text.now ≡ chars result.0.now ++ chars result.1.now }
    ensures bytes { encode_utf8_all (chars result.0.now) ≡ result.0.now }
{
    text.split_at(plain_len(text.as_bytes()))
}

// Makes `front` the whole content, with room for more.
#[inline(always)]
fn begin_content(content: &mut String, front: &str) -> Result<(), Error>
    ensures ok { OnOk result (string_bytes content.new ≡ front.now) }
    ensures memory { IfErr result (λ e. e ≡ Error.OutOfMemory) }
{
    content.clear();
    content.reserve(front.len() + ROOM_AFTER_FRONT)?;
    content.push_str(front)?;
    Ok(())
}

/// Reads the rest of a string up to its closing quote, and makes `content` the whole string, which
/// begins with `front`; returns the text after the quote.
#[inline(never)]
pub fn read_string<'a>(content: &mut String, front: &str, text: &'a str) -> Result<&'a str, Error>
    ensures { (n : ℕ) → length (chars text.now) < n
        → Gives (λ after. (string_bytes content.new, chars after.now)) result
        (read_text n front.now (chars text.now)) }
{
    begin_content(content, front)?;
    let mut rest = text;
    'pieces: loop {
        let Some((first, after)) = split_first(rest) else {
            return Err(Error::InvalidJson);
        };
        if first == '"' {
            return Ok(after);
        }
        let Some((character, after)) = read_piece(rest) else {
            return Err(Error::InvalidJson);
        };
        content.push(character)?;
        let (plain, after) = split_plain(after);
        content.push_str(plain)?;
        rest = after;
    }
}
