//! A refusal in words, and how what other languages of paths write is written here.

ghost use Rattle.std.specs.Prelude.{◌≡◌, chars};
ghost use Rattle.jsonb_path.specs.Hint.{begins_with, begins_word, expected_hint, found_hint};
ghost use Rattle.jsonb_path.specs.Hint.{from_byte, hint_of, mark_hint, mark_where, word_hint};

use crate::read::{Expected, LeftOut};
use crate::token::cursor::{Class, begins, byte_len, split_first};
use crate::token::{Found, PathFault, Reason};
use std::fmt;

/// How to write in SQL/JSON what was refused.
#[derive(Clone, Copy, Debug, PartialEq, Eq)]
pub enum Hint {
    /// `$.a` for `.a`, and `@.a` in a filter.
    Root,
    /// `$.**.a` for `$..a`.
    Descendants,
    /// `$[0 to 1]` for `$[0:2]`.
    Range,
    /// `$[*] ? (@.a == 1)` for `$[?@.a == 1]`.
    Filter,
    /// `exists(@.a)` for `@.a` where a test is wanted.
    Exists,
    /// `==` for `=`.
    Equal,
    /// `"text"` for `'text'`.
    Quotes,
    /// `&&` for `and`.
    And,
    /// `||` for `or`.
    Or,
}

impl PathFault {
    /// How to write in SQL/JSON what was refused at this place of the text: known of a `.` or `[`
    /// without a `$`, `..`, a filter within brackets or without parentheses, `=`, `:`, a word
    /// in single quotes, `and`, `or`, and an expression where a test is wanted. `None` of all else.
    pub fn hint(self, text: &str) -> Option<Hint>
        ensures { result ≡ hint_of self (chars text.now) }
    {
        match self.reason {
            Reason::Expected(what, found) => expected_hint(what, found, from_byte(self.at, text)),
            _ => None,
        }
    }

    /// The refusal of this text in words, with the text and a caret under the place.
    pub fn report(self, text: &str) -> Report<'_>
        ensures text { result.text.now ≡ text.now }
        ensures fault { result.fault ≡ self }
    {
        Report { text, fault: self }
    }
}

// The hint of what was found where something else is expected.
fn expected_hint(what: Expected, found: Found, text: &str) -> Option<Hint>
    ensures { result ≡ expected_hint what found (chars text.now) }
{
    match what {
        Expected::TestBefore => Some(Hint::Exists),
        _ => found_hint(what, found, text),
    }
}

fn found_hint(what: Expected, found: Found, text: &str) -> Option<Hint>
    ensures { result ≡ found_hint what found (chars text.now) }
{
    match found {
        Found::Word => word_hint(text),
        Found::Mark(mark) => mark_hint(what, mark),
        _ => None,
    }
}

// The hint of a word that cannot stand there.
fn word_hint(text: &str) -> Option<Hint>
    ensures { result ≡ word_hint (chars text.now) }
{
    if begins_with('\'', text) {
        Some(Hint::Quotes)
    } else if begins_word("and", text) {
        Some(Hint::And)
    } else if begins_word("or", text) {
        Some(Hint::Or)
    } else {
        None
    }
}

// The hint of a mark that cannot stand there.
fn mark_hint(what: Expected, mark: char) -> Option<Hint>
    ensures { result ≡ mark_hint what mark }
{
    match mark {
        '=' => Some(Hint::Equal),
        ':' => Some(Hint::Range),
        _ => mark_where(what, mark),
    }
}

fn mark_where(what: Expected, mark: char) -> Option<Hint>
    ensures { result ≡ mark_where what mark }
{
    match (what, mark) {
        (Expected::Value, '.' | '[') => Some(Hint::Root),
        (Expected::Value, '?') | (Expected::Mark(_), '@') => Some(Hint::Filter),
        (Expected::Key, '.') => Some(Hint::Descendants),
        _ => None,
    }
}

// Whether a text begins with a character.
fn begins_with(character: char, text: &str) -> bool
    ensures { result ≡ begins_with character (chars text.now) }
{
    match split_first(text) {
        Some((first, _)) => first == character,
        None => false,
    }
}

// Whether a text begins with a word, in capital or small letters, that ends there.
#[tactic(auto, unfolding(crate::specs::Hint::begins_word))]
fn begins_word(word: &str, text: &str) -> bool
    ensures { result ≡ begins_word (chars word.now) (chars text.now) }
{
    let mut wanted = word;
    let mut left = text;
    'letters: while let Some((letter, letters)) = split_first(wanted) {
        let Some((first, rest)) = split_first(left) else {
            return false;
        };
        if first.to_ascii_lowercase() != letter {
            return false;
        }
        wanted = letters;
        left = rest;
    }
    !begins(Class::Name, left)
}

// The text from this byte on.
fn from_byte(at: usize, text: &str) -> &str
    ensures { chars result.now ≡ from_byte at (chars text.now) }
{
    let mut before = at;
    let mut left = text;
    'characters: while let Some((first, rest)) = split_first(left) {
        if before == 0 {
            return left;
        }
        before = before.saturating_sub(first.len_utf8());
        left = rest;
    }
    left
}

/// A refusal in words: the text about the place in a line, a caret under the place, and beside it
/// what may stand there, what was found, and the hint if there is one.
///
/// ```text
/// $.a = 1
///     ^ expected an operator, an accessor or the end at byte 4, found `=`; equal is `==`
/// ```
#[derive(Clone, Copy, Debug)]
pub struct Report<'a> {
    pub text: &'a str,
    pub fault: PathFault,
}

// How many bytes of a text are shown before the place, and as many after it.
const SHOWN: usize = 60;

impl fmt::Display for Report<'_> {
    fn fmt<W: fmt::Write>(&self, f: &mut fmt::Formatter<W>) -> fmt::Result {
        let at = self.fault.at;
        let begun = from_byte(at.saturating_sub(SHOWN), self.text);
        write_line(begun, f)?;
        let place = from_byte(at, self.text);
        write_spaces(begun, byte_len(place), f)?;
        write!(f, "^ {}", self.fault)?;
        match self.fault.hint(self.text) {
            Some(hint) => write!(f, "; {hint}"),
            None => Ok(()),
        }
    }
}

// Writes the first characters of a text as a line: white space as a space each.
fn write_line<W: fmt::Write>(text: &str, f: &mut fmt::Formatter<W>) -> fmt::Result {
    let mut left = text;
    'characters: while let Some((first, rest)) = split_first(left) {
        if byte_len(text).saturating_sub(byte_len(rest)) > 2 * SHOWN {
            break;
        }
        f.write_char(if first.is_control() { ' ' } else { first })?;
        left = rest;
    }
    f.write_char('\n')
}

// Writes a space for each character before the last bytes of a text.
fn write_spaces<W: fmt::Write>(text: &str, after: usize, f: &mut fmt::Formatter<W>) -> fmt::Result {
    let mut left = text;
    'characters: while byte_len(left) > after {
        let Some((_, rest)) = split_first(left) else {
            break;
        };
        f.write_char(' ')?;
        left = rest;
    }
    Ok(())
}

/// Writes the fault in words with its byte, as `expected a value at byte 9, found the end`.
impl fmt::Display for PathFault {
    fn fmt<W: fmt::Write>(&self, f: &mut fmt::Formatter<W>) -> fmt::Result {
        let at = self.at;
        match self.reason {
            Reason::UnclosedComment => write!(f, "the comment at byte {at} does not end"),
            Reason::UnclosedText => write!(f, "the quotes at byte {at} are not closed"),
            Reason::InvalidEscape => {
                write!(
                    f,
                    "a backslash begins no escape in what begins at byte {at}"
                )
            }
            Reason::InvalidNumber => {
                write!(
                    f,
                    "the number at byte {at} goes on with a letter or a digit"
                )
            }
            Reason::Expected(what, found) => {
                write!(f, "expected {what} {} byte {at}, found {found}", side(what))
            }
            Reason::LeftOut(what) => write!(f, "{what} at byte {at} is not read here"),
            Reason::TooDeep => write!(f, "the path nests too deep at byte {at}"),
        }
    }
}

// Whether what is expected stands at the place or before it.
fn side(what: Expected) -> &'static str {
    match what {
        Expected::ExpressionBefore | Expected::TestBefore => "before",
        _ => "at",
    }
}

/// Writes what may be read, as `a value`.
impl fmt::Display for Expected {
    fn fmt<W: fmt::Write>(&self, f: &mut fmt::Formatter<W>) -> fmt::Result {
        match self {
            Expected::Key => f.write_str("a key, `*`, `**` or a method"),
            Expected::Level => f.write_str("a level, which is a number or `last`"),
            Expected::KeyOrValue => f.write_str("`.key` or `.value`"),
            Expected::Value => f.write_str("a value"),
            Expected::TextOrVariable => f.write_str("a text in quotes or a variable"),
            Expected::Mark(mark) => write!(f, "`{mark}`"),
            Expected::ExpressionBefore => f.write_str("an expression and no test"),
            Expected::TestBefore => f.write_str("a test"),
            Expected::End => f.write_str("an operator, an accessor or the end"),
        }
    }
}

/// Writes what was found, as `the end`.
impl fmt::Display for Found {
    fn fmt<W: fmt::Write>(&self, f: &mut fmt::Formatter<W>) -> fmt::Result {
        match self {
            Found::End => f.write_str("the end"),
            Found::Word => f.write_str("a word"),
            Found::Text => f.write_str("a text in quotes"),
            Found::Variable => f.write_str("a variable"),
            Found::Number => f.write_str("a number"),
            Found::Mark(mark) => write!(f, "`{mark}`"),
            Found::Pair(first, second) => write!(f, "`{first}{second}`"),
        }
    }
}

/// Writes what is left out, as `.double()`.
impl fmt::Display for LeftOut {
    fn fmt<W: fmt::Write>(&self, f: &mut fmt::Formatter<W>) -> fmt::Result {
        f.write_str(match self {
            LeftOut::Double => "`.double()`",
            LeftOut::Datetime => "`.datetime()`",
            LeftOut::WideNumber => "a number past 128 bits or a scale of 255",
            LeftOut::Division => "`/`",
            LeftOut::LikeRegex => "`like_regex`",
        })
    }
}

/// Writes how something is written here, as "all levels are `.**`".
impl fmt::Display for Hint {
    fn fmt<W: fmt::Write>(&self, f: &mut fmt::Formatter<W>) -> fmt::Result {
        f.write_str(match self {
            Hint::Root => "a path begins with `$`, a filter's with `@`",
            Hint::Descendants => "all levels are `.**`",
            Hint::Range => "the first two items are `[0 to 1]`",
            Hint::Filter => "a filter is `? (@.a == 1)`, without brackets",
            Hint::Exists => "that there is a value is `exists(@.a)`",
            Hint::Equal => "equal is `==`",
            Hint::Quotes => "a text is `\"a\"`, a key is `.\"a\"`",
            Hint::And => "and is `&&`",
            Hint::Or => "or is `||`",
        })
    }
}
