//! What may come next in a JSON text, character by character.

ghost use Rattle.std.specs.Prelude.{◌≡◌, ◌+◌, ◌<◌, ◌^◌};
ghost use Rattle.json_fault.specs.Words.{is_blank, value_begun, number_first, mark_begun, in_name};
ghost use Rattle.json_fault.specs.Words.{closed_or, rest_begun, rest_followed, word_continued};
ghost use Rattle.json_fault.specs.Words.{mark_after, number_ended, in_number};
ghost use Rattle.json_fault.specs.Words.{mark_followed, in_exponent, in_content, skips, scale_of};
ghost use Rattle.json_fault.specs.Words.{token_begun, followed, goes_on, stops_in_number};
ghost use Rattle.json_fault.specs.Words.{is_unfinished};

use crate::exponent::{Exponent, exponent_begun, exponent_continued, is_final};
use crate::number::{
    Numeral, Part, is_complete, is_exponent_mark, number_begun, number_continued, part_goes_on,
    takes_exponent,
};
use crate::string::{Place, is_closed, string_continued};
use jsonb_value::Exponents;

/// The kind of an open bracket.
#[derive(Clone, Copy)]
pub enum Bracket {
    Array,
    Object,
}

/// The letters of a word that are missing.
#[derive(Clone, Copy)]
pub enum Word {
    Rue,
    Ue,
    E,
    Alse,
    Lse,
    Se,
    Ull,
    Ll,
    L,
}

/// What is expected next.
#[derive(Clone, Copy)]
pub enum Expected {
    /// A value.
    Value,
    /// The first item of an array, or its end.
    FirstItem,
    /// The first key of an object, or its end.
    FirstKey,
    /// A key.
    Key,
    /// The colon after a key.
    Colon,
    /// What may follow a value.
    Rest,
    /// The rest of `null`, `true` or `false`.
    Letters(Word),
    /// The rest of a number.
    Digits(Numeral),
    /// The rest of a number after the mark of its exponent.
    ExponentSign(Numeral),
    /// The digits of an exponent.
    ExponentDigits(Exponent),
    /// The rest of a string that is a value.
    Content(Place),
    /// The rest of a key.
    Name(Place),
}

/// What happens to the open brackets.
#[derive(Clone, Copy)]
pub enum Change {
    Keep,
    Open(Bracket),
    Close,
}

// Whether the character is JSON white space.
fn is_blank(character: char) -> bool
    ensures { result ≡ is_blank character }
{
    matches!(character, ' ' | '\t' | '\n' | '\r')
}

// The beginning of a value.
fn value_begun(character: char) -> Option<(Expected, Change)>
    ensures { result ≡ value_begun character }
{
    match character {
        '"' => Some((Expected::Content(Place::Inside), Change::Keep)),
        '[' => Some((Expected::FirstItem, Change::Open(Bracket::Array))),
        '{' => Some((Expected::FirstKey, Change::Open(Bracket::Object))),
        't' => Some((Expected::Letters(Word::Rue), Change::Keep)),
        'f' => Some((Expected::Letters(Word::Alse), Change::Keep)),
        'n' => Some((Expected::Letters(Word::Ull), Change::Keep)),
        _ => number_first(character),
    }
}

// The beginning of a number.
fn number_first(character: char) -> Option<(Expected, Change)>
    ensures { result ≡ number_first character }
{
    if character == '-' {
        let numeral = Numeral {
            is_negative: true,
            part: Part::Sign,
            magnitude: 0,
            scale: 0,
        };
        return Some((Expected::Digits(numeral), Change::Keep));
    }
    let numeral = number_begun(false, character)?;
    Some((Expected::Digits(numeral), Change::Keep))
}

// `next`, if the character is `mark`.
fn mark_begun(character: char, mark: char, next: Expected) -> Option<(Expected, Change)>
    ensures { result ≡ mark_begun character mark next }
{
    if character == mark {
        Some((next, Change::Keep))
    } else {
        None
    }
}

// The end of a container, if the character is `mark`, or else `other`.
fn closed_or(
    character: char,
    mark: char,
    other: Option<(Expected, Change)>,
) -> Option<(Expected, Change)>
    ensures { result ≡ closed_or character mark other }
{
    if character == mark {
        Some((Expected::Rest, Change::Close))
    } else {
        other
    }
}

// What follows a value, other than white space.
fn rest_begun(top: Option<Bracket>, character: char) -> Option<(Expected, Change)>
    ensures { result ≡ rest_begun top character }
{
    match top {
        None => None,
        Some(Bracket::Array) => {
            closed_or(character, ']', mark_begun(character, ',', Expected::Value))
        }
        Some(Bracket::Object) => {
            closed_or(character, '}', mark_begun(character, ',', Expected::Key))
        }
    }
}

// What follows a value.
fn rest_followed(top: Option<Bracket>, character: char) -> Option<(Expected, Change)>
    ensures { result ≡ rest_followed top character }
{
    if is_blank(character) {
        Some((Expected::Rest, Change::Keep))
    } else {
        rest_begun(top, character)
    }
}

// What follows a letter of a word.
fn word_continued(word: Word, letter: char) -> Option<(Expected, Change)>
    ensures { result ≡ word_continued word letter }
{
    match word {
        Word::Rue => mark_begun(letter, 'r', Expected::Letters(Word::Ue)),
        Word::Ue => mark_begun(letter, 'u', Expected::Letters(Word::E)),
        Word::E => mark_begun(letter, 'e', Expected::Rest),
        Word::Alse => mark_begun(letter, 'a', Expected::Letters(Word::Lse)),
        Word::Lse => mark_begun(letter, 'l', Expected::Letters(Word::Se)),
        Word::Se => mark_begun(letter, 's', Expected::Letters(Word::E)),
        Word::Ull => mark_begun(letter, 'u', Expected::Letters(Word::Ll)),
        Word::Ll => mark_begun(letter, 'l', Expected::Letters(Word::L)),
        Word::L => mark_begun(letter, 'l', Expected::Rest),
    }
}

// The mark of an exponent, if one may follow.
fn mark_after(exponents: Exponents, numeral: Numeral, character: char) -> Option<(Expected, Change)>
    ensures { result ≡ mark_after exponents numeral character }
{
    if takes_exponent(exponents, numeral) && is_exponent_mark(character) {
        Some((Expected::ExponentSign(numeral), Change::Keep))
    } else {
        None
    }
}

// What follows the end of a number, if it may end here.
fn number_ended(ends: bool, top: Option<Bracket>, character: char) -> Option<(Expected, Change)>
    ensures { result ≡ number_ended ends top character }
{
    if ends {
        rest_followed(top, character)
    } else {
        None
    }
}

// What follows a character of a number, or after its end.
fn in_number(
    exponents: Exponents,
    numeral: Numeral,
    top: Option<Bracket>,
    character: char,
) -> Option<(Expected, Change)>
    requires { numeral.scale + 1 < 2 ^ 64 }
    ensures { result ≡ in_number exponents numeral top character }
{
    if let Some(continued) = number_continued(exponents, numeral, character) {
        return Some((Expected::Digits(continued), Change::Keep));
    }
    match mark_after(exponents, numeral, character) {
        Some(marked) => Some(marked),
        None => number_ended(is_complete(numeral), top, character),
    }
}

// What follows the mark of an exponent.
fn mark_followed(numeral: Numeral, character: char) -> Option<(Expected, Change)>
    ensures { result ≡ mark_followed numeral character }
{
    let exponent = exponent_begun(numeral, character)?;
    Some((Expected::ExponentDigits(exponent), Change::Keep))
}

// What follows the sign or a digit of an exponent.
fn in_exponent(
    exponent: Exponent,
    top: Option<Bracket>,
    character: char,
) -> Option<(Expected, Change)>
    ensures { result ≡ in_exponent exponent top character }
{
    match exponent_continued(exponent, character) {
        Some(continued) => Some((Expected::ExponentDigits(continued), Change::Keep)),
        None => number_ended(is_final(exponent), top, character),
    }
}

// What follows a character of a string that is a value.
fn in_content(place: Place, character: char) -> Option<(Expected, Change)>
    ensures { result ≡ in_content place character }
{
    if is_closed(place, character) {
        return Some((Expected::Rest, Change::Keep));
    }
    let place = string_continued(place, character)?;
    Some((Expected::Content(place), Change::Keep))
}

// What follows a character of a key.
fn in_name(place: Place, character: char) -> Option<(Expected, Change)>
    ensures { result ≡ in_name place character }
{
    if is_closed(place, character) {
        return Some((Expected::Colon, Change::Keep));
    }
    let place = string_continued(place, character)?;
    Some((Expected::Name(place), Change::Keep))
}

// Whether white space may come next and changes nothing.
fn skips(expected: Expected) -> bool
    ensures { result ≡ skips expected }
{
    match expected {
        Expected::Value
        | Expected::FirstItem
        | Expected::FirstKey
        | Expected::Key
        | Expected::Colon
        | Expected::Rest => true,
        Expected::Letters(_)
        | Expected::Digits(_)
        | Expected::ExponentSign(_)
        | Expected::ExponentDigits(_)
        | Expected::Content(_)
        | Expected::Name(_) => false,
    }
}

// What follows this character, which is not white space between tokens.
fn token_begun(
    exponents: Exponents,
    expected: Expected,
    top: Option<Bracket>,
    character: char,
) -> Option<(Expected, Change)>
    requires { scale_of expected + 1 < 2 ^ 64 }
    ensures { result ≡ token_begun exponents expected top character }
{
    match expected {
        Expected::Value => value_begun(character),
        Expected::FirstItem => closed_or(character, ']', value_begun(character)),
        Expected::FirstKey => {
            let key = mark_begun(character, '"', Expected::Name(Place::Inside));
            closed_or(character, '}', key)
        }
        Expected::Key => mark_begun(character, '"', Expected::Name(Place::Inside)),
        Expected::Colon => mark_begun(character, ':', Expected::Value),
        Expected::Rest => rest_begun(top, character),
        Expected::Letters(word) => word_continued(word, character),
        Expected::Digits(numeral) => in_number(exponents, numeral, top, character),
        Expected::ExponentSign(numeral) => mark_followed(numeral, character),
        Expected::ExponentDigits(exponent) => in_exponent(exponent, top, character),
        Expected::Content(place) => in_content(place, character),
        Expected::Name(place) => in_name(place, character),
    }
}

/// What is expected after this character, and what happens to the open brackets, if the character
/// may come; `top` is the innermost open bracket.
pub fn followed(
    exponents: Exponents,
    expected: Expected,
    top: Option<Bracket>,
    character: char,
) -> Option<(Expected, Change)>
    requires { scale_of expected + 1 < 2 ^ 64 }
    ensures { result ≡ followed exponents expected top character }
{
    if skips(expected) && is_blank(character) {
        Some((expected, Change::Keep))
    } else {
        token_begun(exponents, expected, top, character)
    }
}

// Whether a number of any size may go on with this character.
fn goes_on(expected: Expected, character: char) -> bool
    ensures { result ≡ goes_on expected character }
{
    match expected {
        Expected::Digits(numeral) => part_goes_on(numeral.part, character),
        Expected::ExponentDigits(_) => character.is_ascii_digit(),
        _ => false,
    }
}

// Whether a number is expected to go on, which may not end here.
fn is_unfinished(expected: Expected) -> bool
    ensures { result ≡ is_unfinished expected }
{
    match expected {
        Expected::Digits(numeral) => !is_complete(numeral),
        Expected::ExponentSign(_) => true,
        Expected::ExponentDigits(exponent) => !is_final(exponent),
        _ => false,
    }
}

/// Whether a number is expected to go on, which may not end here, or goes on with the next
/// character, if there is one, where no number of the format does.
pub fn stops_in_number(expected: Expected, next: Option<char>) -> bool
    ensures { result ≡ stops_in_number expected next }
{
    match next {
        Some(character) => is_unfinished(expected) || goes_on(expected, character),
        None => is_unfinished(expected),
    }
}
