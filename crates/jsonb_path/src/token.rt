//! The tokens of a path's text.

ghost use Rattle.std.specs.Prelude.{◌≡◌, chars, false, map, option_map, string_bytes, IfErr, OnOk};
ghost use Rattle.jsonb_path.specs.declared.token.ReadError.TheVariants as read_errors;
ghost use Rattle.jsonb_path.specs.declared.token.Stop.TheVariants as stops;
ghost use Rattle.jsonb_path.specs.Fault.{Reads, ReadsText, error_at};
ghost use Rattle.jsonb_path.specs.Token.{after_comment, after_first, character, content_of};
ghost use Rattle.jsonb_path.specs.Token.{is_ended, is_pair, lexed, lexeme_of, mark_at, number_at};
ghost use Rattle.jsonb_path.specs.Token.{placed_of, slash_at, text_at, tokens_of, variable_at};
ghost use Rattle.jsonb_path.specs.Token.{with_token, word_at};

pub(crate) mod cursor;
mod escape;
mod numeral;

use crate::read::{Expected, LeftOut};
use cursor::{Class, begins, byte_len, is_mark, is_white, read_run, split_first};
use escape::read_escape;
use numeral::{begins_numeral, read_numeral};
use std::alloc::{AllocError, AllocFailed, Global};

/// A token of a path's text.
#[derive(Debug, Drop)]
pub enum Token {
    /// A word: a key, or a word of the language.
    Word(String),
    /// What stands in quotes.
    Text(String),
    /// The name of a variable, which is after a `$`.
    Variable(String),
    /// A number, as it is written.
    Number(String),
    /// A mark alone, as `(`.
    Mark(char),
    /// Two marks that are one operator, as `&&`.
    Pair(char, char),
}

/// A token, and at which byte of the text it begins.
#[derive(Debug, Drop)]
pub struct PlacedToken {
    pub at: usize,
    pub token: Token,
}

/// Why a text is no path.
#[derive(Clone, Copy, Debug, PartialEq, Eq)]
pub enum Reason {
    /// A comment does not end.
    UnclosedComment,
    /// A text in quotes does not end.
    UnclosedText,
    /// A backslash begins no escape.
    InvalidEscape,
    /// A number goes on with a letter or another digit.
    InvalidNumber,
    /// What may stand here, and what does.
    Expected(Expected, Found),
    /// What is known to PostgreSQL, and not read here.
    LeftOut(LeftOut),
    /// More than 64 levels of parentheses, filters, subscripts and signs, or 400 with operators.
    TooDeep,
}

/// What stands where something else is expected.
#[derive(Clone, Copy, Debug, PartialEq, Eq)]
pub enum Found {
    End,
    Word,
    Text,
    Variable,
    Number,
    Mark(char),
    Pair(char, char),
}

impl Found {
    /// What a token is; `None` stands for the end.
    pub(crate) fn of(token: Option<&PlacedToken>) -> Found {
        let Some(placed) = token else {
            return Found::End;
        };
        match &placed.token {
            Token::Word(_) => Found::Word,
            Token::Text(_) => Found::Text,
            Token::Variable(_) => Found::Variable,
            Token::Number(_) => Found::Number,
            Token::Mark(mark) => Found::Mark(*mark),
            Token::Pair(first, second) => Found::Pair(*first, *second),
        }
    }
}

/// At which byte a text is no path, and why.
#[derive(Clone, Copy, Debug, PartialEq, Eq)]
pub struct PathFault {
    pub at: usize,
    pub reason: Reason,
}

/// Why a text is not read.
#[derive(Clone, Copy, Debug, PartialEq, Eq)]
pub enum ReadError {
    /// An allocation failed.
    OutOfMemory,
    /// The text is no path.
    Refused(PathFault),
}

impl<T: Drop> From<AllocFailed<T>> for ReadError {
    ghost from_gives = { λ _ e. e ≡ read_errors.OutOfMemory };

    fn from(_failed: AllocFailed<T>) -> ReadError {
        ReadError::OutOfMemory
    }
}

// Why a token is not read.
#[derive(Clone, Copy, Debug, PartialEq, Eq)]
pub(crate) enum Stop {
    OutOfMemory,
    Refused(Reason),
}

impl From<AllocError> for Stop {
    ghost from_gives = { λ _ e. e ≡ stops.OutOfMemory };

    fn from(_error: AllocError) -> Stop {
        Stop::OutOfMemory
    }
}

// Where a name ends: at its closing quote, or before what cannot stand in a word.
#[derive(Clone, Copy)]
enum Ending {
    Quote,
    Word,
}

impl Ending {
    // Whether a name ends before a text.
    fn is_before(self, text: &str) -> bool
        ensures { result ≡ is_ended self (chars text.now) }
    {
        match (self, split_first(text)) {
            (Ending::Quote, Some((first, _))) => first == '"',
            (Ending::Quote, None) => false,
            (Ending::Word, Some((first, _))) => first != '\\' && !Class::Name.has(first),
            (Ending::Word, None) => true,
        }
    }
}

/// The tokens of a text, white space and comments left out. The first fault is refused.
#[tactic(auto, using(crate::proofs::TokenLaws::token_laws))]
pub fn tokens(alloc: Global, text: &str) -> Result<Vec<PlacedToken>, ReadError>
    ensures { ReadsText (λ found. map placed_of found.items) result (tokens_of (chars text.now)) }
{
    let mut tokens = Vec::new(alloc);
    let mut left = text;
    'tokens: while let Some(_) = split_first(left) {
        let at = byte_len(text).saturating_sub(byte_len(left));
        match read_next(alloc, left) {
            Ok((token, rest)) => {
                push_token(&mut tokens, at, token)?;
                left = rest;
            }
            Err(stop) => return Err(error_at(at, stop)),
        }
    }
    Ok(tokens)
}

// Appends a token, if it is one, with its place.
fn push_token(
    tokens: &mut Vec<PlacedToken>,
    at: usize,
    token: Option<Token>,
) -> Result<(), ReadError>
    ensures pushed { OnOk result (map placed_of tokens.new.items
        ≡ with_token at (map placed_of tokens.old.items) (option_map lexeme_of token)) }
    ensures memory { IfErr result (λ e. e ≡ read_errors.OutOfMemory) }
{
    match token {
        Some(token) => Ok(tokens.push(PlacedToken { at, token })?),
        None => Ok(()),
    }
}

// The error of a token that begins at this byte.
fn error_at(at: usize, stop: Stop) -> ReadError
    ensures { result ≡ error_at at stop }
{
    match stop {
        Stop::OutOfMemory => ReadError::OutOfMemory,
        Stop::Refused(reason) => ReadError::Refused(PathFault { at, reason }),
    }
}

// White space, a comment or a token that a text begins with, and what is after it.
fn read_next<'a>(alloc: Global, text: &'a str) -> Result<(Option<Token>, &'a str), Stop>
    ensures { Reads (λ found. (option_map lexeme_of found.0, chars found.1.now)) result
        (lexed (chars text.now)) }
{
    let Some((first, rest)) = split_first(text) else {
        return Ok((None, text));
    };
    match first {
        '"' => read_text(alloc, rest),
        '$' => read_variable(alloc, rest),
        '/' => read_slash(rest),
        _ if is_white(first) => Ok((None, rest)),
        _ if begins_numeral(text) => read_number(alloc, text),
        _ if is_mark(first) => Ok(read_mark(first, rest)),
        _ => read_word(alloc, text),
    }
}

// A text in quotes, after the first quote.
#[tactic(auto, unfolding(crate::specs::Token::text_at))]
fn read_text<'a>(alloc: Global, text: &'a str) -> Result<(Option<Token>, &'a str), Stop>
    ensures { Reads (λ found. (option_map lexeme_of found.0, chars found.1.now)) result
        (text_at (chars text.now)) }
{
    let mut content = String::new(alloc);
    let rest = read_content(Ending::Quote, &mut content, text)?;
    Ok((Some(Token::Text(content)), after_first(rest)))
}

// The name of a variable after its `$`, in quotes or not; or the `$` alone.
#[tactic(auto, unfolding(crate::specs::Token::variable_at))]
fn read_variable<'a>(alloc: Global, text: &'a str) -> Result<(Option<Token>, &'a str), Stop>
    ensures { Reads (λ found. (option_map lexeme_of found.0, chars found.1.now)) result
        (variable_at (chars text.now)) }
{
    let mut content = String::new(alloc);
    match split_first(text) {
        Some(('"', rest)) => {
            let rest = read_content(Ending::Quote, &mut content, rest)?;
            Ok((Some(Token::Variable(content)), after_first(rest)))
        }
        Some((first, _)) if Class::Name.has(first) => {
            let rest = read_run(Class::Name, &mut content, text)?;
            Ok((Some(Token::Variable(content)), rest))
        }
        _ => Ok((Some(Token::Mark('$')), text)),
    }
}

// A comment after its first slash, or the slash alone.
#[tactic(auto, unfolding(crate::specs::Token::slash_at))]
fn read_slash(text: &str) -> Result<(Option<Token>, &str), Stop>
    ensures { Reads (λ found. (option_map lexeme_of found.0, chars found.1.now)) result
        (slash_at (chars text.now)) }
{
    match split_first(text) {
        Some(('*', inside)) => match after_comment(inside) {
            Some(rest) => Ok((None, rest)),
            None => Err(Stop::Refused(Reason::UnclosedComment)),
        },
        _ => Ok((Some(Token::Mark('/')), text)),
    }
}

// What is after a comment that has begun.
fn after_comment(text: &str) -> Option<&str>
    ensures { option_map (λ rest. chars rest.now) result ≡ after_comment false (chars text.now) }
{
    let mut is_starred = false;
    let mut left = text;
    'comment: while let Some((first, rest)) = split_first(left) {
        if is_starred && first == '/' {
            return Some(rest);
        }
        is_starred = first == '*';
        left = rest;
    }
    None
}

// A number, or a word that begins with digits and is longer.
#[tactic(auto, unfolding(crate::specs::Token::number_at))]
fn read_number<'a>(alloc: Global, text: &'a str) -> Result<(Option<Token>, &'a str), Stop>
    ensures { Reads (λ found. (option_map lexeme_of found.0, chars found.1.now)) result
        (number_at (chars text.now)) }
{
    let mut numeral = String::new(alloc);
    let rest = read_numeral(&mut numeral, text)?;
    if !begins(Class::Name, rest) {
        return Ok((Some(Token::Number(numeral)), rest));
    }
    let mut word = String::new(alloc);
    let after_word = read_run(Class::Name, &mut word, text)?;
    if byte_len(rest).saturating_sub(byte_len(after_word)) >= 2 {
        read_word(alloc, text)
    } else {
        Err(Stop::Refused(Reason::InvalidNumber))
    }
}

// A word.
#[tactic(auto, unfolding(crate::specs::Token::word_at))]
fn read_word<'a>(alloc: Global, text: &'a str) -> Result<(Option<Token>, &'a str), Stop>
    ensures { Reads (λ found. (option_map lexeme_of found.0, chars found.1.now)) result
        (word_at (chars text.now)) }
{
    let mut content = String::new(alloc);
    let (first, rest) = read_character(text)?;
    content.push(first)?;
    let rest = read_content(Ending::Word, &mut content, rest)?;
    Ok((Some(Token::Word(content)), rest))
}

// A mark, or two that are one operator.
#[tactic(auto, unfolding(crate::specs::Token::mark_at))]
fn read_mark(first: char, text: &str) -> (Option<Token>, &str)
    ensures { (option_map lexeme_of result.0, chars result.1.now) ≡ mark_at first (chars text.now) }
{
    match split_first(text) {
        Some((second, rest)) if is_pair(first, second) => (Some(Token::Pair(first, second)), rest),
        _ => (Some(Token::Mark(first)), text),
    }
}

// Whether two marks are one operator.
fn is_pair(first: char, second: char) -> bool
    ensures { result ≡ is_pair first second }
{
    match second {
        '&' | '|' | '*' => first == second,
        '=' => matches!(first, '=' | '!' | '<' | '>'),
        '>' => first == '<',
        _ => false,
    }
}

// Appends all characters up to the end of a name; returns what is after them.
#[tactic(auto, using(crate::proofs::NameLaws::content_laws))]
fn read_content<'a>(ending: Ending, content: &mut String, text: &'a str) -> Result<&'a str, Stop>
    ensures { Reads (λ rest. (string_bytes content.new, chars rest.now)) result
        (content_of ending (string_bytes content.old) (chars text.now)) }
{
    let mut left = text;
    'characters: while !ending.is_before(left) {
        let (character, rest) = read_character(left)?;
        content.push(character)?;
        left = rest;
    }
    Ok(left)
}

// A character of a name: itself, or an escape after a backslash.
fn read_character(text: &str) -> Result<(char, &str), Stop>
    ensures { Reads (λ found. (found.0, chars found.1.now)) result (character (chars text.now)) }
{
    match split_first(text) {
        Some(('\\', rest)) => read_escape(rest).ok_or(Stop::Refused(Reason::InvalidEscape)),
        Some((first, rest)) => Ok((first, rest)),
        None => Err(Stop::Refused(Reason::UnclosedText)),
    }
}

// What is after the first character.
fn after_first(text: &str) -> &str
    ensures { chars result.now ≡ after_first (chars text.now) }
{
    match split_first(text) {
        Some((_, rest)) => rest,
        None => text,
    }
}
