//! The parser of JSON texts: one reader, which is two loops, and sinks for what it reads.

ghost use Rattle.std.specs.Prelude.{◌≡◌, ◌≤◌, ◌⊎◌, ◌↔◌, IsTrue, Err, chars, IfOk, IfErr};
ghost use Rattle.jsonb_value.specs.Depth.{depth as tree_depth};
ghost use Rattle.jsonb_value.specs.TextDepth.{text_depth};
ghost use Rattle.jsonb_value.specs.Words.{Tree, Json, JsonText, JsonWithExponents, tree_of};

mod cursor;
mod members;
mod nothing;
mod number;
mod open_kinds;
mod reader;
mod sink;
mod string;
mod trees;

use crate::error::Error;
use crate::value::Value;
pub use cursor::{after_char, skip_blank};
use nothing::Nothing;
pub use number::Exponents;
pub use reader::{read_text, read_text_within};
pub use sink::Sink;
use std::alloc::Global;
use trees::Trees;

/// Whether a whole text is JSON, with exponents if they are allowed, and only numbers that a
/// document can hold. `OutOfMemory` if an allocation fails. No value is made, and no stack is taken
/// for the depth of the text.
pub fn is_json(alloc: Global, text: &str, exponents: Exponents) -> Result<bool, Error>
    ensures ok { IfOk result (λ is. IsTrue is
        ↔ ((t : Tree) × JsonText exponents (chars text.now) t)) }
    ensures memory { IfErr result (λ e. e ≡ Error.OutOfMemory) }
{
    match read_text(alloc, &mut Nothing, text, exponents) {
        Ok(()) => Ok(true),
        Err(Error::InvalidJson) => Ok(false),
        Err(_) => Err(Error::OutOfMemory),
    }
}

/// Parses a whole text, with exponents if they are allowed.
pub fn parse<'a>(alloc: Global, text: &'a str, exponents: Exponents) -> Result<Value<'a>, Error>
    ensures ok { IfOk result (λ value. JsonText exponents (chars text.now) (tree_of value)) }
    ensures invalid { result ≡ Err Error.InvalidJson
        → (t : Tree) → JsonText exponents (chars text.now) t → ⊥ }
    ensures errors { IfErr result (λ e. (e ≡ Error.InvalidJson) ⊎ (e ≡ Error.OutOfMemory)) }
    ensures one { (t u : Tree) → JsonText exponents (chars text.now) t
        → JsonText exponents (chars text.now) u → t ≡ u }
{
    let mut trees = Trees::new(alloc);
    read_text(alloc, &mut trees, text, exponents)?;
    Ok(trees.into_value())
}

/// Parses a whole text as `parse` does, if at most `depth` of its brackets are open at once, those
/// in strings not counted. `InvalidJson` also if it is deeper.
pub fn parse_to_depth<'a>(
    alloc: Global,
    text: &'a str,
    exponents: Exponents,
    depth: usize,
) -> Result<Value<'a>, Error>
    ensures ok { IfOk result (λ value. JsonText exponents (chars text.now) (tree_of value)) }
    ensures within { IfOk result (λ value. text_depth text.now ≤ depth) }
    ensures invalid { result ≡ Err Error.InvalidJson → text_depth text.now ≤ depth
        → (t : Tree) → JsonText exponents (chars text.now) t → ⊥ }
    ensures errors { IfErr result (λ e. (e ≡ Error.InvalidJson) ⊎ (e ≡ Error.OutOfMemory)) }
{
    let mut trees = Trees::new(alloc);
    read_text_within(alloc, &mut trees, text, exponents, depth)?;
    Ok(trees.into_value())
}

/// Parses a whole text. Strings without escapes are borrowed from the text. No text means two
/// values.
///
/// The grammar is JSON without exponents. The kind of a number follows from its value and its
/// number of fraction digits: an integer is `UInt64` (`-0` too), `Int64`, or `Decimal128` of scale
/// 0 within 128 bits; a number with 1 to 255 fraction digits is `Decimal64` or `Decimal128` of that
/// scale. Of equal keys in an object the last value is kept. `InvalidJson` for every other text,
/// among them numbers out of range, lone surrogates and a byte order mark; `OutOfMemory` if an
/// allocation fails.
pub fn parse_value<'a>(alloc: Global, text: &'a str) -> Result<Value<'a>, Error>
    // An accepted text means the returned value.
    ensures ok { IfOk result (λ value. Json (chars text.now) (tree_of value)) }
    // A text refused as `InvalidJson` means no value.
    ensures invalid { result ≡ Err Error.InvalidJson → (t : Tree) → Json (chars text.now) t → ⊥ }
    ensures errors { IfErr result (λ e. (e ≡ Error.InvalidJson) ⊎ (e ≡ Error.OutOfMemory)) }
    // No text means two values.
    ensures one { (t u : Tree) → Json (chars text.now) t → Json (chars text.now) u → t ≡ u }
{
    parse(alloc, text, Exponents::Forbidden)
}

/// Parses a whole text as `parse_value` does, but takes a number with an exponent too, as `1.5e3`,
/// which means exactly its value. No text means two values, and a text without exponents means what
/// `parse_value` returns (`json_laws`).
///
/// The scale of a number is the count of its fraction digits less its exponent. A number whose
/// scale is 1 to 255 is a decimal of that scale, with the digits as written: `1.50e1` is a decimal
/// of scale 1, `15.0`. A number whose scale is 0 or less is an integer, so `1.0e5` is `100000`. A
/// number of a greater scale, or past 128 bits, is refused as `InvalidJson`. However large the
/// exponent is, reading it takes no more than its digits do.
pub fn parse_value_with_exponents<'a>(alloc: Global, text: &'a str) -> Result<Value<'a>, Error>
    // An accepted text means the returned value.
    ensures ok { IfOk result (λ value. JsonWithExponents (chars text.now) (tree_of value)) }
    // A text refused as `InvalidJson` means no value.
    ensures invalid { result ≡ Err Error.InvalidJson
        → (t : Tree) → JsonWithExponents (chars text.now) t → ⊥ }
    ensures errors { IfErr result (λ e. (e ≡ Error.InvalidJson) ⊎ (e ≡ Error.OutOfMemory)) }
    // No text means two values.
    ensures one { (t u : Tree) → JsonWithExponents (chars text.now) t
        → JsonWithExponents (chars text.now) u → t ≡ u }
{
    parse(alloc, text, Exponents::Allowed)
}

/// The scalar that a whole text spells, with exponents if they are allowed: null, a truth value, a
/// number or a string. `InvalidJson` for every other text; an array or an object is refused at its
/// first character, so no stack is taken for its depth. `OutOfMemory` if an allocation fails.
pub fn parse_scalar<'a>(
    alloc: Global,
    text: &'a str,
    exponents: Exponents,
) -> Result<Value<'a>, Error>
    // An accepted text means the returned value, which is a scalar.
    ensures ok { IfOk result (λ value. JsonText exponents (chars text.now) (tree_of value)) }
    ensures scalar { IfOk result (λ value. tree_depth (tree_of value) ≡ 0) }
    // A text refused as `InvalidJson` means no scalar.
    ensures invalid { result ≡ Err Error.InvalidJson
        → (t : Tree) → JsonText exponents (chars text.now) t → tree_depth t ≡ 0 → ⊥ }
    ensures errors { IfErr result (λ e. (e ≡ Error.InvalidJson) ⊎ (e ≡ Error.OutOfMemory)) }
{
    let begun = skip_blank(text);
    if after_char(begun, '[').is_some() || after_char(begun, '{').is_some() {
        return Err(Error::InvalidJson);
    }
    parse(alloc, text, exponents)
}
