//! What is after a point: a key, `*`, `**` or a method.

ghost use Rattle.std.specs.Prelude.{◌≡◌, ◌<◌, ◌≤◌, [], IfOk, IfSome, IsTrue, length};
ghost use Rattle.jsonb_path.specs.Dotted.{called, dotted, last_level, level, level_value, lexemes};
ghost use Rattle.jsonb_path.specs.Dotted.{levels_after, method_of, pair_part, pairs_of};
ghost use Rattle.jsonb_path.specs.Dotted.{with_decimal};
ghost use Rattle.jsonb_path.specs.PathParts.{is_accessor};
ghost use Rattle.jsonb_path.specs.PathTree.{accessor_of};
ghost use Rattle.jsonb_path.specs.Unread.{Parses};

use super::scan::{
    Expected, LeftOut, Unread, after_mark, after_word, expect_mark, is_word, left_out, unexpected,
};
use crate::path::{Accessor, Level, Method};
use crate::token::{PlacedToken, Token};

/// The accessor after a point, and what is after it.
pub fn read_dotted(tokens: &[PlacedToken]) -> Result<(Accessor, &[PlacedToken]), Unread>
    ensures meaning { Parses (λ x. (accessor_of [] x.0, lexemes x.1.now)) result
        (dotted (lexemes tokens.now)) }
    ensures accessor { IfOk result (λ x. IsTrue (is_accessor [] x.0)) }
    ensures shorter { IfOk result (λ x. length x.1.now < length tokens.now) }
{
    let [first, rest @ ..] = tokens else {
        return Err(unexpected(tokens, Expected::Key));
    };
    match &first.token {
        Token::Mark('*') => Ok((Accessor::AllMembers, rest)),
        Token::Pair('*', _) => read_levels(rest),
        Token::Text(key) => Ok((Accessor::Member(key.clone()?), rest)),
        Token::Word(word) => match after_mark('(', rest) {
            Some(inside) => read_method(word.as_str(), inside),
            None => Ok((Accessor::Member(word.clone()?), rest)),
        },
        _ => Err(unexpected(tokens, Expected::Key)),
    }
}

// The method of a name, after its opening parenthesis.
#[tactic(auto, unfolding(crate::specs::Dotted::called))]
fn read_method<'a>(
    name: &str,
    tokens: &'a [PlacedToken],
) -> Result<(Accessor, &'a [PlacedToken]), Unread>
    ensures meaning { Parses (λ x. (accessor_of [] x.0, lexemes x.1.now)) result
        (called name.now (lexemes tokens.now)) }
    ensures accessor { IfOk result (λ x. IsTrue (is_accessor [] x.0)) }
    ensures shorter { IfOk result (λ x. length x.1.now < length tokens.now) }
{
    let Some(rest) = after_mark(')', tokens) else {
        return match left_out_method(name) {
            Some(what) => Err(left_out(tokens, what)),
            None => Err(unexpected(tokens, Expected::Mark(')'))),
        };
    };
    if is_word("keyvalue", name) {
        return read_pairs(rest);
    }
    match (method_of(name), left_out_method(name)) {
        (Some(method), _) => Ok((Accessor::Method(method), rest)),
        (None, Some(what)) => Err(left_out(tokens, what)),
        (None, None) => Err(unexpected(tokens, Expected::Key)),
    }
}

// What a method is that is known and not read: its parentheses may hold something.
fn left_out_method(name: &str) -> Option<LeftOut> {
    if is_word("double", name) {
        Some(LeftOut::Double)
    } else if is_word("datetime", name) {
        Some(LeftOut::Datetime)
    } else {
        None
    }
}

// The method of this name.
#[tactic(auto, unfolding(crate::specs::Dotted::method_of))]
fn method_of(name: &str) -> Option<Method>
    ensures { result ≡ method_of name.now }
{
    if is_word("type", name) {
        Some(Method::Type)
    } else if is_word("size", name) {
        Some(Method::Size)
    } else if is_word("abs", name) {
        Some(Method::Abs)
    } else if is_word("floor", name) {
        Some(Method::Floor)
    } else if is_word("ceiling", name) {
        Some(Method::Ceiling)
    } else {
        None
    }
}

// `.key` or `.value` after `.keyvalue()`.
#[tactic(auto, unfolding(crate::specs::Dotted::pairs_of))]
fn read_pairs(tokens: &[PlacedToken]) -> Result<(Accessor, &[PlacedToken]), Unread>
    ensures meaning { Parses (λ x. (accessor_of [] x.0, lexemes x.1.now)) result
        (pairs_of (lexemes tokens.now)) }
    ensures accessor { IfOk result (λ x. IsTrue (is_accessor [] x.0)) }
    ensures shorter { IfOk result (λ x. length x.1.now < length tokens.now) }
{
    let key = expect_mark('.', tokens)?;
    match key {
        [first, rest @ ..] => match &first.token {
            Token::Text(name) => part_of_pairs(name.as_str(), rest),
            Token::Word(name) if after_mark('(', rest).is_none() => {
                part_of_pairs(name.as_str(), rest)
            }
            _ => Err(unexpected(key, Expected::KeyOrValue)),
        },
        [] => Err(unexpected(key, Expected::KeyOrValue)),
    }
}

// The keys or the values of all members.
#[tactic(auto, unfolding(crate::specs::Dotted::pair_part))]
fn part_of_pairs<'a>(
    name: &str,
    tokens: &'a [PlacedToken],
) -> Result<(Accessor, &'a [PlacedToken]), Unread>
    ensures meaning { Parses (λ x. (accessor_of [] x.0, lexemes x.1.now)) result
        (pair_part name.now (lexemes tokens.now)) }
    ensures accessor { IfOk result (λ x. IsTrue (is_accessor [] x.0)) }
    ensures shorter { IfOk result (λ x. length x.1.now ≤ length tokens.now) }
{
    match name {
        "key" => Ok((Accessor::Method(Method::MemberNames), tokens)),
        "value" => Ok((Accessor::Method(Method::MemberValues), tokens)),
        _ => Err(unexpected(tokens, Expected::KeyOrValue)),
    }
}

// The levels after `.**`: all, if there is no brace.
#[tactic(auto, unfolding(crate::specs::Dotted::levels_after))]
fn read_levels(tokens: &[PlacedToken]) -> Result<(Accessor, &[PlacedToken]), Unread>
    ensures meaning { Parses (λ x. (accessor_of [] x.0, lexemes x.1.now)) result
        (levels_after (lexemes tokens.now)) }
    ensures accessor { IfOk result (λ x. IsTrue (is_accessor [] x.0)) }
    ensures shorter { IfOk result (λ x. length x.1.now ≤ length tokens.now) }
{
    let Some(inside) = after_mark('{', tokens) else {
        return Ok((Accessor::Descendants(Level::Number(0), Level::Last), tokens));
    };
    let (first, rest) = read_level(inside)?;
    let (last, rest) = read_last_level(first, rest)?;
    let rest = expect_mark('}', rest)?;
    Ok((Accessor::Descendants(first, last), rest))
}

// The last level after `to`, or the first one without it.
fn read_last_level(first: Level, tokens: &[PlacedToken]) -> Result<(Level, &[PlacedToken]), Unread>
    ensures meaning { Parses (λ x. (x.0, lexemes x.1.now)) result
        (last_level first (lexemes tokens.now)) }
    ensures shorter { IfOk result (λ x. length x.1.now ≤ length tokens.now) }
{
    match after_word("to", tokens) {
        Some(rest) => read_level(rest),
        None => Ok((first, tokens)),
    }
}

// A level: a number below 2^31, or `last`.
fn read_level(tokens: &[PlacedToken]) -> Result<(Level, &[PlacedToken]), Unread>
    ensures meaning { Parses (λ x. (x.0, lexemes x.1.now)) result (level (lexemes tokens.now)) }
    ensures shorter { IfOk result (λ x. length x.1.now < length tokens.now) }
{
    let [first, rest @ ..] = tokens else {
        return Err(unexpected(tokens, Expected::Level));
    };
    match &first.token {
        Token::Word(name) if is_word("last", name.as_str()) => Ok((Level::Last, rest)),
        Token::Number(digits) => match level_value(digits.as_str().as_bytes()) {
            Some(level) => Ok((Level::Number(level), rest)),
            None => Err(unexpected(tokens, Expected::Level)),
        },
        _ => Err(unexpected(tokens, Expected::Level)),
    }
}

// The number of decimal digits, if it is below 2^31.
fn level_value(digits: &[u8]) -> Option<u32>
    ensures { result ≡ level_value 0 digits.now }
{
    let mut value = 0;
    let mut left = digits;
    'digits: while let [first, rest @ ..] = left {
        value = with_decimal(value, *first)?;
        left = rest;
    }
    Some(value)
}

// The number with one more digit, if it is below 2^31.
fn with_decimal(value: u32, digit: u8) -> Option<u32>
    requires { value ≤ 0x7fffffff }
    ensures value { result ≡ with_decimal value digit }
    ensures within { IfSome result (λ next. next ≤ 0x7fffffff) }
{
    if !digit.is_ascii_digit() {
        return None;
    }
    let next = u64::from(value) * 10 + u64::from(digit - b'0');
    if next <= 0x7fff_ffff {
        Some(next as u32)
    } else {
        None
    }
}
