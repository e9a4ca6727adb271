//! The strings that JSON texts spell.

ghost use Rattle.std.specs.Prelude.{◌≡◌, ◌⊎◌, ℕ, IfErr, IfNone, IfOk, IfSome, List, chars};
ghost use Rattle.jsonb_value.specs.Words.{Json, text, cow_bytes, tree_of};

use crate::error::Error;
use crate::parser::{after_char, parse_value, skip_blank};
use crate::value::Value;
use std::alloc::Global;
use std::borrow::CowStr;

/// The string that a JSON text spells, as a program takes a key or a name. It is borrowed from the
/// text if it has no escapes. `InvalidJson` if the text is not JSON, or spells something else: what
/// does not begin with a quote is refused there, so no stack is taken for its depth. `OutOfMemory`
/// if an allocation fails.
pub fn parse_string<'a>(alloc: Global, json: &'a str) -> Result<CowStr<'a>, Error>
    ensures ok { IfOk result (λ string. Json (chars json.now) (text (cow_bytes string))) }
    ensures invalid { IfErr result (λ e. e ≡ Error.InvalidJson
        → (string : List ℕ) → Json (chars json.now) (text string) → ⊥) }
    ensures only { IfErr result (λ e. (e ≡ Error.InvalidJson) ⊎ (e ≡ Error.OutOfMemory)) }
{
    if after_char(skip_blank(json), '"').is_none() {
        return Err(Error::InvalidJson);
    }
    match parse_value(alloc, json) {
        Ok(value) => string_of(value).ok_or(Error::InvalidJson),
        Err(error) => Err(error),
    }
}

// The string that a value is.
fn string_of<'a>(value: Value<'a>) -> Option<CowStr<'a>>
    ensures some { IfSome result (λ string. tree_of value.entry ≡ text (cow_bytes string)) }
    ensures none { IfNone result ((string : List ℕ) → tree_of value.entry ≡ text string → ⊥) }
{
    match value {
        Value::String(string) => Some(string),
        Value::Null
        | Value::Bool(_)
        | Value::Number(_)
        | Value::Binary(_)
        | Value::Date(_)
        | Value::Timestamp(_)
        | Value::TimestampTz(_)
        | Value::Interval(_)
        | Value::Opaque(_)
        | Value::Array(_)
        | Value::Object(_) => None,
    }
}
