//! What tokens begin with, and why they are refused.

ghost use Rattle.std.specs.Prelude.{◌≡◌, ◌<◌, IfOk, IfSome, length, option_map};
ghost use Rattle.jsonb_path.specs.Dotted.{after_mark, after_word, is_word, lexemes};
ghost use Rattle.jsonb_path.specs.Refusal.{refusal_at};
ghost use Rattle.jsonb_path.specs.Unread.{Parses};
ghost use Rattle.jsonb_path.specs.declared.read.scan.Refusal.TheVariants as refusals;
ghost use Rattle.jsonb_path.specs.declared.read.scan.Unread.TheVariants as ends;

use crate::token::{PlacedToken, Token};
use std::alloc::{AllocError, AllocFailed};

/// What may be read at a place.
#[derive(Clone, Copy, Debug, PartialEq, Eq)]
pub enum Expected {
    /// A key, `*`, `**` or a method after a point.
    Key,
    /// A level of `.**`: a number below 2^31 or `last`.
    Level,
    /// `.key` or `.value` after `.keyvalue()`.
    KeyOrValue,
    /// `$`, `@` within a filter, `last` within a subscript, a literal, a variable or `(`.
    Value,
    /// A text in quotes or a variable after `starts with`.
    TextOrVariable,
    /// This mark.
    Mark(char),
    /// An expression, and no test, before this place.
    ExpressionBefore,
    /// A test, and no expression, before this place.
    TestBefore,
    /// An operator, an accessor or the end.
    End,
}

/// What is known, and not read here: methods, operators, and numbers past 128 bits or a scale of 255.
#[derive(Clone, Copy, Debug, PartialEq, Eq)]
pub enum LeftOut {
    Double,
    Datetime,
    WideNumber,
    Division,
    LikeRegex,
}

/// Why tokens are no path.
#[derive(Clone, Copy, Debug, PartialEq, Eq)]
pub enum Refusal {
    Expected(Expected),
    LeftOut(LeftOut),
    /// More than 64 levels of parentheses, filters, subscripts and signs, or 400 with operators.
    TooDeep,
}

/// Why tokens are not read: memory, or a refusal at so many tokens before the end.
#[derive(Clone, Copy, Debug, PartialEq, Eq)]
pub enum Unread {
    OutOfMemory,
    Refused(usize, Refusal),
}

impl From<AllocError> for Unread {
    ghost from_gives = { λ _ e. e ≡ ends.OutOfMemory };

    fn from(_error: AllocError) -> Unread {
        Unread::OutOfMemory
    }
}

impl<T: Drop> From<AllocFailed<T>> for Unread {
    ghost from_gives = { λ _ e. e ≡ ends.OutOfMemory };

    fn from(_failed: AllocFailed<T>) -> Unread {
        Unread::OutOfMemory
    }
}

/// The refusal of these tokens at the first of them, where something else is expected.
pub fn unexpected(tokens: &[PlacedToken], what: Expected) -> Unread
    ensures { result ≡ ends.Refused (length tokens.now) (refusal_at what (lexemes tokens.now)) }
{
    Unread::Refused(tokens.len(), refusal_at(what, tokens))
}

// Why the first of these tokens is refused: `/` and `like_regex` are left out.
fn refusal_at(what: Expected, tokens: &[PlacedToken]) -> Refusal
    ensures { result ≡ refusal_at what (lexemes tokens.now) }
{
    let [first, ..] = tokens else {
        return Refusal::Expected(what);
    };
    match &first.token {
        Token::Mark('/') => Refusal::LeftOut(LeftOut::Division),
        Token::Word(word) if is_word("like_regex", word.as_str()) => {
            Refusal::LeftOut(LeftOut::LikeRegex)
        }
        _ => Refusal::Expected(what),
    }
}

/// The refusal of what is left out.
pub fn left_out(tokens: &[PlacedToken], what: LeftOut) -> Unread
    ensures { result ≡ ends.Refused (length tokens.now) (refusals.LeftOut what) }
{
    Unread::Refused(tokens.len(), Refusal::LeftOut(what))
}

/// The refusal of a level too many.
pub fn too_deep(tokens: &[PlacedToken]) -> Unread
    ensures { result ≡ ends.Refused (length tokens.now) refusals.TooDeep }
{
    Unread::Refused(tokens.len(), Refusal::TooDeep)
}

/// What is after a mark, if it is the first token.
pub fn after_mark(mark: char, tokens: &[PlacedToken]) -> Option<&[PlacedToken]>
    ensures meaning { option_map (λ rest. lexemes rest.now) result
        ≡ after_mark mark (lexemes tokens.now) }
    ensures shorter { IfSome result (λ rest. length rest.now < length tokens.now) }
{
    match tokens {
        [first, rest @ ..] => match &first.token {
            Token::Mark(found) if *found == mark => Some(rest),
            _ => None,
        },
        [] => None,
    }
}

/// What is after a word in any case, if it is the first token.
pub fn after_word<'a>(word: &str, tokens: &'a [PlacedToken]) -> Option<&'a [PlacedToken]>
    ensures meaning { option_map (λ rest. lexemes rest.now) result
        ≡ after_word word.now (lexemes tokens.now) }
    ensures shorter { IfSome result (λ rest. length rest.now < length tokens.now) }
{
    match tokens {
        [first, rest @ ..] => match &first.token {
            Token::Word(found) if is_word(word, found.as_str()) => Some(rest),
            _ => None,
        },
        [] => None,
    }
}

/// Whether a name is a word of the language, in capital or small letters.
#[tactic(auto, using(crate::proofs::DottedLaws::same_letters))]
pub fn is_word(word: &str, name: &str) -> bool
    ensures { result ≡ is_word word.now name.now }
{
    name.eq_ignore_ascii_case(word)
}

/// What is after a mark, which has to be the first token.
pub fn expect_mark(mark: char, tokens: &[PlacedToken]) -> Result<&[PlacedToken], Unread>
    ensures meaning { Parses (λ rest. lexemes rest.now) result
        (after_mark mark (lexemes tokens.now)) }
    ensures shorter { IfOk result (λ rest. length rest.now < length tokens.now) }
{
    match after_mark(mark, tokens) {
        Some(rest) => Ok(rest),
        None => Err(unexpected(tokens, Expected::Mark(mark))),
    }
}
