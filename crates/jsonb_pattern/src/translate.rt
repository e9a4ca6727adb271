//! A pattern in the syntax of the crate `regex`.

ghost use Rattle.std.specs.Prelude.{◌≡◌, ◌++◌, IfOk, chars, encode_utf8_all};
ghost use Rattle.std.specs.Prelude.{string_bytes};
ghost use Rattle.jsonb_pattern.specs.Translated.{Translates, cased, membered, piece, ranged};
ghost use Rattle.jsonb_pattern.specs.Translated.{translated};

use crate::flags::Flags;
use crate::letters::{first_and_rest, is_escapable, other_case};
use crate::pattern::PatternError;
use crate::place::{Place, first_place, may_end, place_after};
use std::alloc::{AllocError, Global};
use std::fmt;

/// At which byte a text is no pattern that is read here, after what, and the character that was
/// found there: `None` stands for the end.
#[derive(Clone, Copy, Debug, PartialEq, Eq)]
pub struct PatternFault {
    pub at: usize,
    pub place: Place,
    pub found: Option<char>,
}

/// Writes the fault in words, as "expected `}` at byte 4, found the end".
impl fmt::Display for PatternFault {
    fn fmt<W: fmt::Write>(&self, f: &mut fmt::Formatter<W>) -> fmt::Result {
        write!(f, "expected {} at byte {}, found ", self.place, self.at)?;
        match self.found {
            Some(character) => write!(f, "`{character}`"),
            None => f.write_str("the end"),
        }
    }
}

/// Writes what may come there, as "a number up to 255".
impl fmt::Display for Place {
    fn fmt<W: fmt::Write>(&self, f: &mut fmt::Formatter<W>) -> fmt::Result {
        f.write_str(match self {
            Place::Quoted => "an ASCII character",
            Place::Branch => "a character, `.`, `[`, `(`, `^` or `$`",
            Place::Atom => "more of a branch, a repetition, `|` or `)`",
            Place::Fixed => "more of a branch, `|` or `)`",
            Place::Escape | Place::ClassEscape => "a punctuation mark after the backslash",
            Place::Bound => "a number up to 255",
            Place::Least(_) => "a number up to 255, `,` or `}`",
            Place::Comma(_) => "a number up to 255 or `}`",
            Place::Most(_, _) => "a number up to 255 that is no less, or `}`",
            Place::Class | Place::Negated => "a character or a range",
            Place::Member(_) | Place::Members => "a character, a range or `]`",
            Place::Range(_) => "a character that ends the range",
        })
    }
}

/// The pattern as the crate `regex` reads it: a letter of either case is a class of both, and a
/// negated class has the line feed, unless the dot matches it.
pub fn translate(alloc: Global, flags: Flags, source: &str) -> Result<String, PatternError>
    ensures { Translates (λ text. string_bytes text) result (translated flags (chars source.now)) }
{
    let mut text = String::new(alloc);
    let mut scan = first_place(flags);
    let mut left = source;
    'characters: while let Some((character, rest)) = first_and_rest(left) {
        let Some(next) = place_after(flags, scan, character) else {
            return Err(PatternError::Refused(fault_at(source, left, scan.place)));
        };
        push_piece(&mut text, flags, scan.place, character)?;
        scan = next;
        left = rest;
    }
    if may_end(scan) {
        Ok(text)
    } else {
        Err(PatternError::Refused(fault_at(source, left, scan.place)))
    }
}

/// The fault at what is left of a pattern, after this place.
pub fn fault_at(source: &str, left: &str, place: Place) -> PatternFault {
    PatternFault {
        at: source.len().saturating_sub(left.len()),
        place,
        found: first_of(left),
    }
}

// The first character of a text.
fn first_of(text: &str) -> Option<char> {
    let (first, _) = first_and_rest(text)?;
    Some(first)
}

// Appends what a character of a pattern is in the syntax of the crate `regex`.
fn push_piece(
    text: &mut String,
    flags: Flags,
    place: Place,
    character: char,
) -> Result<(), AllocError>
    ensures { IfOk result (λ _. string_bytes text.new
        ≡ string_bytes text.old ++ encode_utf8_all (piece flags place character)) }
{
    match place {
        Place::Quoted => {
            if is_escapable(character) {
                text.push('\\')?;
                text.push(character)?;
                Ok(())
            } else {
                push_cased(text, flags, character)
            }
        }
        Place::Branch | Place::Atom | Place::Fixed => push_cased(text, flags, character),
        Place::Class => {
            if character == '^' && !flags.dot_all {
                text.push_str("^\n")?;
                Ok(())
            } else {
                push_member(text, flags, character)
            }
        }
        Place::Negated | Place::Member(_) | Place::Members => push_member(text, flags, character),
        Place::Range(first) => push_range(text, flags, first, character),
        _ => {
            text.push(character)?;
            Ok(())
        }
    }
}

// Appends a character outside of brackets: a letter whose case is ignored as a class of both.
fn push_cased(text: &mut String, flags: Flags, character: char) -> Result<(), AllocError>
    ensures { IfOk result (λ _. string_bytes text.new
        ≡ string_bytes text.old ++ encode_utf8_all (cased flags character)) }
{
    match other_case(flags.ignore_case, character) {
        Some(other) => {
            text.push('[')?;
            text.push(character)?;
            text.push(other)?;
            text.push(']')?;
            Ok(())
        }
        None => {
            text.push(character)?;
            Ok(())
        }
    }
}

// Appends a member of brackets: a letter whose case is ignored after that of the other case.
fn push_member(text: &mut String, flags: Flags, character: char) -> Result<(), AllocError>
    ensures { IfOk result (λ _. string_bytes text.new
        ≡ string_bytes text.old ++ encode_utf8_all (membered flags character)) }
{
    if let Some(other) = other_case(flags.ignore_case, character) {
        text.push(other)?;
    }
    text.push(character)?;
    Ok(())
}

// Appends the end of a range: of letters whose case is ignored with the range of the other case.
fn push_range(text: &mut String, flags: Flags, first: char, last: char) -> Result<(), AllocError>
    ensures { IfOk result (λ _. string_bytes text.new
        ≡ string_bytes text.old ++ encode_utf8_all (ranged flags first last)) }
{
    text.push(last)?;
    match (
        other_case(flags.ignore_case, first),
        other_case(flags.ignore_case, last),
    ) {
        (Some(first), Some(last)) => {
            text.push(first)?;
            text.push('-')?;
            text.push(last)?;
            Ok(())
        }
        _ => Ok(()),
    }
}
