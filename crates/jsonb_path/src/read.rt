//! Paths, read of their tokens.

ghost use Rattle.std.specs.Prelude.{◌≡◌, Option, chars};
ghost use Rattle.jsonb_path.specs.Dotted.{lexemes};
ghost use Rattle.jsonb_path.specs.Grammar.{mode_front, path_of_lexemes, path_of_text};
ghost use Rattle.jsonb_path.specs.Meaning.{Query};
ghost use Rattle.jsonb_path.specs.PathTree.{query_of};
ghost use Rattle.jsonb_path.specs.Unread.{Parses, ParsesText, Refuses, Rejects};

mod dotted;
mod grammar;
mod high;
mod infix;
mod literal;
mod operand;
mod scan;

use crate::path::{Mode, Path};
use crate::token::{Found, PathFault, PlacedToken, ReadError, Reason, tokens};
use grammar::{LOOSEST, read_ranked};
use high::too_high;
use literal::Scope;
pub use scan::{Expected, LeftOut};
use scan::{Refusal, Unread, after_word, unexpected};
use std::alloc::Global;

// How many levels of parentheses, filters, subscripts and signs a path may have.
const DEPTH: usize = 64;

// Where a path stands.
const TOP: Scope = Scope {
    in_filter: false,
    in_subscript: false,
};

/// The path of a text.
#[tactic(auto, using(crate::proofs::WholePathLaws::paths))]
pub fn read_path(alloc: Global, text: &str) -> Result<Path, ReadError>
    ensures { ParsesText (λ path. query_of path) result (path_of_text (chars text.now)) }
{
    let tokens = tokens(alloc, text)?;
    match read_tokens(alloc, &tokens) {
        Ok(path) => Ok(path),
        Err(unread) => Err(error_of(text, &tokens, unread)),
    }
}

// The path of tokens.
#[tactic(auto, using(crate::proofs::WholePathLaws::paths), unfolding(crate::specs::Grammar::path_of_lexemes))]
fn read_tokens(alloc: Global, tokens: &[PlacedToken]) -> Result<Path, Unread>
    ensures { Parses (λ path. query_of path) result (path_of_lexemes (lexemes tokens.now)) }
{
    let (mode, begun) = mode_front(tokens);
    let mut parts = Vec::new(alloc);
    let (part, rest) = read_ranked(alloc, &mut parts, DEPTH, TOP, LOOSEST, begun)?;
    match rest {
        [] => {
            match Path::of_parts(mode, parts, part)? {
                Some(path) => Ok(path),
                None => Err(too_high(alloc, begun)),
            }
        }
        [_, ..] => Err(unexpected(rest, Expected::End)),
    }
}

// `strict`, `lax` or neither, which is lax, and what is after it.
fn mode_front(tokens: &[PlacedToken]) -> (Mode, &[PlacedToken])
    ensures { (result.0, lexemes result.1.now) ≡ mode_front (lexemes tokens.now) }
{
    match after_word("strict", tokens) {
        Some(rest) => (Mode::Strict, rest),
        None => match after_word("lax", tokens) {
            Some(rest) => (Mode::Lax, rest),
            None => (Mode::Lax, tokens),
        },
    }
}

// The error of tokens at so many before their end.
fn error_of(text: &str, tokens: &[PlacedToken], unread: Unread) -> ReadError
    ensures { (meant : Option Query) → Refuses unread meant → Rejects result meant }
{
    match unread {
        Unread::OutOfMemory => ReadError::OutOfMemory,
        Unread::Refused(left, refusal) => ReadError::Refused(fault_of(text, tokens, left, refusal)),
    }
}

// The place of a refusal, and its reason.
fn fault_of(text: &str, tokens: &[PlacedToken], left: usize, refusal: Refusal) -> PathFault {
    let found = tokens.get(tokens.len().saturating_sub(left));
    let at = match found {
        Some(token) => token.at,
        None => text.len(),
    };
    let reason = match refusal {
        Refusal::Expected(expected) => Reason::Expected(expected, Found::of(found)),
        Refusal::LeftOut(what) => Reason::LeftOut(what),
        Refusal::TooDeep => Reason::TooDeep,
    };
    PathFault { at, reason }
}
