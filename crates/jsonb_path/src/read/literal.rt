//! What a chain begins with, but for parentheses: `$`, `@`, `last`, a literal or a variable.

ghost use Rattle.std.specs.Prelude.{◌≡◌, ◌<◌, ◌++◌, [], IfOk, IfSome, IsTrue, chars};
ghost use Rattle.std.specs.Prelude.{Some, length, option_map, string_bytes};
ghost use Rattle.jsonb_value.specs.Reader.Reading.{read_document};
ghost use Rattle.jsonb_value.specs.Words.{tree_of};
ghost use Rattle.jsonb_value.specs.declared.parser.number.Exponents.TheVariants.{Allowed};
ghost use Rattle.jsonb_path.specs.Dotted.{lexemes};
ghost use Rattle.jsonb_path.specs.Literal.{within_filter, within_subscript};
ghost use Rattle.jsonb_path.specs.Literal.{as_json, number_in_tree, numeral_value};
ghost use Rattle.jsonb_path.specs.Literal.{prefix_at, primary_at};
ghost use Rattle.jsonb_path.specs.Literal.{with_written, worded, zero_before};
ghost use Rattle.jsonb_path.specs.PathParts.{is_prefix, is_source};
ghost use Rattle.jsonb_path.specs.PathTree.{primary_of};
ghost use Rattle.jsonb_path.specs.Unread.{Parses};

use super::scan::{Expected, LeftOut, Unread, is_word, left_out, unexpected};
use crate::path::{Literal, Source};
use crate::token::cursor::{Class, begins, split_first};
use crate::token::{PlacedToken, Token};
use jsonb_value::layer::parse_scalar;
use jsonb_value::{Error, Exponents, Number, Value};
use std::alloc::{AllocError, Global};

/// Where an expression stands: `@` may stand within filters only, `last` within subscripts.
#[derive(Clone, Copy, Debug)]
pub struct Scope {
    pub in_filter: bool,
    pub in_subscript: bool,
}

impl Scope {
    /// The scope of a filter.
    pub fn within_filter(self) -> Scope
        ensures { result ≡ within_filter self }
    {
        Scope {
            in_filter: true,
            in_subscript: self.in_subscript,
        }
    }

    /// The scope of a subscript.
    pub fn within_subscript(self) -> Scope
        ensures { result ≡ within_subscript self }
    {
        Scope {
            in_filter: self.in_filter,
            in_subscript: true,
        }
    }
}

/// `$`, `@`, `last`, a literal or a variable, and what is after it.
pub fn read_primary(
    alloc: Global,
    scope: Scope,
    tokens: &[PlacedToken],
) -> Result<(Source, &[PlacedToken]), Unread>
    ensures meaning { Parses (λ x. (primary_of [] x.0, lexemes x.1.now)) result
        (primary_at scope (lexemes tokens.now)) }
    ensures source { IfOk result (λ x. IsTrue (is_source [] x.0)) }
    ensures shorter { IfOk result (λ x. length x.1.now < length tokens.now) }
{
    let [first, rest @ ..] = tokens else {
        return Err(unexpected(tokens, Expected::Value));
    };
    match &first.token {
        Token::Text(text) => Ok((Source::Literal(Literal::Text(text.clone()?)), rest)),
        Token::Variable(name) => Ok((Source::Variable(name.clone()?), rest)),
        Token::Number(digits) => {
            let number = read_number(alloc, digits.as_str(), tokens)?;
            Ok((Source::Literal(Literal::Number(number)), rest))
        }
        Token::Mark('$') => Ok((Source::Root, rest)),
        Token::Mark('@') if scope.in_filter => Ok((Source::Current, rest)),
        Token::Word(word) => {
            read_word(scope, word.as_str(), rest).ok_or(unexpected(tokens, Expected::Value))
        }
        _ => Err(unexpected(tokens, Expected::Value)),
    }
}

// `null`, `true` and `false`, and `last` in any case, if it may stand there.
#[tactic(auto, unfolding(crate::specs::Literal::worded))]
fn read_word<'a>(
    scope: Scope,
    word: &str,
    tokens: &'a [PlacedToken],
) -> Option<(Source, &'a [PlacedToken])>
    ensures meaning { option_map (λ x. (primary_of [] x.0, lexemes x.1.now)) result
        ≡ worded scope word.now (lexemes tokens.now) }
    ensures source { IfSome result (λ x. IsTrue (is_source [] x.0)) }
    ensures rest { IfSome result (λ x. x.1.now ≡ tokens.now) }
{
    match word {
        "null" => Some((Source::Literal(Literal::Null), tokens)),
        "true" => Some((Source::Literal(Literal::Bool(true)), tokens)),
        "false" => Some((Source::Literal(Literal::Bool(false)), tokens)),
        _ if scope.in_subscript && is_word("last", word) => Some((Source::Last, tokens)),
        _ => None,
    }
}

/// The text or the variable after `starts with`, and what is after it.
pub fn read_prefix(tokens: &[PlacedToken]) -> Result<(Source, &[PlacedToken]), Unread>
    ensures meaning { Parses (λ x. (primary_of [] x.0, lexemes x.1.now)) result
        (prefix_at (lexemes tokens.now)) }
    ensures prefix { IfOk result (λ x. IsTrue (is_prefix x.0)) }
    ensures shorter { IfOk result (λ x. length x.1.now < length tokens.now) }
{
    let [first, rest @ ..] = tokens else {
        return Err(unexpected(tokens, Expected::TextOrVariable));
    };
    match &first.token {
        Token::Text(text) => Ok((Source::Literal(Literal::Text(text.clone()?)), rest)),
        Token::Variable(name) => Ok((Source::Variable(name.clone()?), rest)),
        _ => Err(unexpected(tokens, Expected::TextOrVariable)),
    }
}

// The number of a token, if 128 bits and a scale of 255 hold it.
#[tactic(auto, unfolding(crate::specs::Literal::numeral_value))]
fn read_number(alloc: Global, digits: &str, tokens: &[PlacedToken]) -> Result<Number, Unread>
    ensures { Parses (λ x. x) result (numeral_value digits.now) }
{
    let text = as_json(alloc, digits)?;
    match read_json_number(alloc, text.as_str())? {
        Some(number) => Ok(number),
        None => Err(left_out(tokens, LeftOut::WideNumber)),
    }
}

// The number that a JSON text is, if it is one.
#[tactic(auto, using(crate::proofs::NumeralLaws::numerals))]
fn read_json_number(alloc: Global, text: &str) -> Result<Option<Number>, AllocError>
    ensures { IfOk result (λ found. found
        ≡ number_in_tree (read_document Allowed (chars text.now))) }
{
    match parse_scalar(alloc, text, Exponents::Allowed) {
        Ok(value) => Ok(number_of_value(value)),
        Err(Error::InvalidJson) => Ok(None),
        Err(_) => Err(AllocError),
    }
}

// The number that a value is, if it is one.
fn number_of_value(value: Value<'_>) -> Option<Number>
    ensures { result ≡ number_in_tree (Some (tree_of value.entry)) }
{
    match value {
        Value::Number(number) => Some(number),
        _ => None,
    }
}

// A number as JSON writes it, with digits on both sides of its point.
fn as_json(alloc: Global, digits: &str) -> Result<String, AllocError>
    ensures { IfOk result (λ text. string_bytes text ≡ as_json (chars digits.now)) }
{
    let mut text = String::new(alloc);
    push_zero(&mut text, digits)?;
    let mut left = digits;
    'characters: while let Some((first, rest)) = split_first(left) {
        push_unless_bare(&mut text, first, rest)?;
        left = rest;
    }
    Ok(text)
}

// Appends a zero before a point that comes first.
fn push_zero(text: &mut String, digits: &str) -> Result<(), AllocError>
    ensures { IfOk result (λ _. string_bytes text.new
        ≡ string_bytes text.old ++ zero_before (chars digits.now)) }
{
    if let Some(('.', _)) = split_first(digits) {
        text.push('0')?;
    }
    Ok(())
}

// Appends a character, unless it is a point that no digit follows.
fn push_unless_bare(text: &mut String, first: char, rest: &str) -> Result<(), AllocError>
    ensures { IfOk result (λ _. string_bytes text.new
        ≡ with_written (string_bytes text.old) first (chars rest.now)) }
{
    if first != '.' || begins(Class::Digit, rest) {
        text.push(first)?;
    }
    Ok(())
}
