//! Texts of JSON, read within a depth.

ghost use Rattle.std.specs.Prelude.{◌≡◌, ◌↔◌, ◌⊎◌, ◌<◌, ◌≤◌, Err, IfOk, IfErr, chars};
ghost use Rattle.jsonb_value.specs.Depth.{depth as tree_depth};
ghost use Rattle.jsonb_value.specs.Words.{Refused, Tree, tree_of, Json, JsonText, text_depth};
ghost use Rattle.jsonb_value.specs.Words.{JsonWithExponents, parse_error_name};

use crate::error::Error;
use crate::parser::{Exponents, parse_to_depth};
use crate::text_depth::is_text_within;
use crate::value::Value;
use std::alloc::Global;

/// Why a text is not read within a depth.
#[derive(Clone, Copy, Debug, PartialEq, Eq, thiserror::Error)]
pub enum ParseError {
    /// The text nests deeper than the caller allows.
    #[error("TooDeep")]
    TooDeep,
    /// The text is refused at any depth.
    #[error("{0}")]
    Refused(Error),
}

impl ParseError {
    /// `TooDeep`, or the name of the other refusal, as `Display` writes it too.
    pub fn name(&self) -> &'static str
        ensures { result.now ≡ parse_error_name self.now }
    {
        match self {
            ParseError::TooDeep => "TooDeep",
            ParseError::Refused(error) => error.name(),
        }
    }
}

impl From<Error> for ParseError {
    ghost from_gives = { λ error refusal. refusal ≡ Refused error };

    fn from(error: Error) -> ParseError {
        Self::Refused(error)
    }
}

// The value of a whole text that nests at most `depth` deep, with exponents if they are allowed.
fn parse_within<'a>(
    alloc: Global,
    text: &'a str,
    depth: usize,
    exponents: Exponents,
) -> Result<Value<'a>, ParseError>
    ensures ok { IfOk result (λ value. JsonText exponents (chars text.now) (tree_of value)) }
    ensures deep { (result ≡ Err ParseError.TooDeep) ↔ (depth < text_depth text.now) }
    ensures within { IfOk result (λ value. tree_depth (tree_of value) ≤ depth) }
    ensures invalid { result ≡ Err (ParseError.Refused Error.InvalidJson)
        → (t : Tree) → JsonText exponents (chars text.now) t → ⊥ }
    ensures errors { IfErr result (λ e. (e ≡ ParseError.TooDeep)
        ⊎ ((e ≡ ParseError.Refused Error.InvalidJson)
        ⊎ (e ≡ ParseError.Refused Error.OutOfMemory))) }
{
    match parse_to_depth(alloc, text, exponents, depth) {
        Ok(value) => Ok(value),
        Err(error) => Err(refusal_within(text.as_bytes(), depth, error)),
    }
}

/// Why a text was refused that was read within a depth: `TooDeep` if more of its brackets are open
/// at once, those in strings not counted, else this error.
pub fn refusal_within(text: &[u8], depth: usize, error: Error) -> ParseError
    ensures deep { depth < text_depth text.now → result ≡ ParseError.TooDeep }
    ensures other { text_depth text.now ≤ depth → result ≡ ParseError.Refused error }
{
    if is_text_within(text, depth) {
        ParseError::Refused(error)
    } else {
        ParseError::TooDeep
    }
}

/// The value of a whole text that nests at most `depth` deep, as `parse_value` reads it. Use this
/// for untrusted texts: to read one takes no stack for its depth, but to encode, print or drop the
/// value does.
///
/// `TooDeep` exactly if more brackets than `depth` are open at once, those in strings not counted.
/// It comes before any other refusal. For JSON that number is the depth of its value, where values
/// that a later equal key replaces count too (`json_laws`): a scalar has depth 0, an empty array or
/// object 1, any other one more than its deepest child. `Refused` has the errors of `parse_value`:
/// `InvalidJson` and `OutOfMemory`.
pub fn parse_value_within<'a>(
    alloc: Global,
    text: &'a str,
    depth: usize,
) -> Result<Value<'a>, ParseError>
    // What is read is what the text means.
    ensures ok { IfOk result (λ value. Json (chars text.now) (tree_of value)) }
    // The depth is exact.
    ensures deep { (result ≡ Err ParseError.TooDeep) ↔ (depth < text_depth text.now) }
    ensures within { IfOk result (λ value. tree_depth (tree_of value) ≤ depth) }
    // What is refused at any depth means nothing.
    ensures invalid { result ≡ Err (ParseError.Refused Error.InvalidJson)
        → (t : Tree) → Json (chars text.now) t → ⊥ }
    ensures errors { IfErr result (λ e. (e ≡ ParseError.TooDeep)
        ⊎ ((e ≡ ParseError.Refused Error.InvalidJson)
        ⊎ (e ≡ ParseError.Refused Error.OutOfMemory))) }
{
    parse_within(alloc, text, depth, Exponents::Forbidden)
}

/// The value of a whole text that nests at most `depth` deep, as `parse_value_with_exponents` reads
/// it.
///
/// `TooDeep` comes as from `parse_value_within`, and `Refused` has the errors of
/// `parse_value_with_exponents`: `InvalidJson` and `OutOfMemory`.
pub fn parse_value_with_exponents_within<'a>(
    alloc: Global,
    text: &'a str,
    depth: usize,
) -> Result<Value<'a>, ParseError>
    // What is read is what the text means.
    ensures ok { IfOk result (λ value. JsonWithExponents (chars text.now) (tree_of value)) }
    // The depth is exact.
    ensures deep { (result ≡ Err ParseError.TooDeep) ↔ (depth < text_depth text.now) }
    ensures within { IfOk result (λ value. tree_depth (tree_of value) ≤ depth) }
    // What is refused at any depth means nothing.
    ensures invalid { result ≡ Err (ParseError.Refused Error.InvalidJson)
        → (t : Tree) → JsonWithExponents (chars text.now) t → ⊥ }
    ensures errors { IfErr result (λ e. (e ≡ ParseError.TooDeep)
        ⊎ ((e ≡ ParseError.Refused Error.InvalidJson)
        ⊎ (e ≡ ParseError.Refused Error.OutOfMemory))) }
{
    parse_within(alloc, text, depth, Exponents::Allowed)
}
