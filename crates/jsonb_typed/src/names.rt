//! The names of types of columns.

ghost use Rattle.std.specs.Prelude.{◌≡◌, IfNone, IfOk, IfSome, string_bytes};
ghost use Rattle.jsonb_typed.specs.Words.{IsScale, IsType, LeastType, after_first, before_first};
ghost use Rattle.jsonb_typed.specs.Words.{ends_word, scalar_type_named, scalar_type_word};
ghost use Rattle.jsonb_typed.specs.Words.{scale_of_digits, type_named, type_text, type_word};

use crate::lattice::LeastType;
use crate::scalar::ScalarType;
use std::alloc::{AllocError, Global};

/// The type that a text names: `decimal` and the digits after the point, as `decimal 2`, or one of
/// `nothing`, `boolean`, `int64`, `uint64`, `text`, `date`, `timestamp`, `timestamp_tz`, `interval`,
/// `binary` and `mixed`. What follows such a word after a space is passed over.
pub fn parse_type(text: &str) -> Option<LeastType>
    ensures is { IfSome result (λ type. IsType text.now type) }
    ensures none { IfNone result ((type : LeastType) → IsType text.now type → ⊥) }
{
    let (name, rest) = split_word(text);
    if name == "decimal" {
        let scale = parse_scale(rest)?;
        return Some(LeastType::Of(ScalarType::Decimal(scale)));
    }
    type_named(name)
}

/// The name of a type, as `parse_type` reads it.
pub fn type_text(alloc: Global, column_type: LeastType) -> Result<String, AllocError>
    ensures { IfOk result (λ text. string_bytes text ≡ type_text column_type) }
{
    match column_type {
        LeastType::Of(ScalarType::Decimal(scale)) => format!(in alloc; "decimal {scale}"),
        other => String::from_str(alloc, type_word(other)),
    }
}

// The text before the first space, and the text after it.
fn split_word(text: &str) -> (&str, &str)
    ensures before { result.0.now ≡ before_first ends_word text.now }
    ensures later { result.1.now ≡ after_first ends_word text.now }
{
    text.split_once(' ').unwrap_or((text, ""))
}

// The digits after the point that a text says.
fn parse_scale(digits: &str) -> Option<u8>
    ensures is { IfSome result (λ scale. IsScale digits.now
        × (scale ≡ scale_of_digits digits.now)) }
    ensures none { IfNone result (IsScale digits.now → ⊥) }
{
    digits.parse::<u8>().ok()
}

// The type of this word, but decimals.
fn type_named(name: &str) -> Option<LeastType>
    ensures { result ≡ type_named name.now }
{
    if name == "nothing" {
        Some(LeastType::Nothing)
    } else if name == "mixed" {
        Some(LeastType::Mixed)
    } else {
        Some(LeastType::Of(scalar_type_named(name)?))
    }
}

// The type of scalars of this word, but decimals.
fn scalar_type_named(name: &str) -> Option<ScalarType>
    ensures { result ≡ scalar_type_named name.now }
{
    if name == "boolean" {
        Some(ScalarType::Boolean)
    } else if name == "int64" {
        Some(ScalarType::Int64)
    } else if name == "uint64" {
        Some(ScalarType::UInt64)
    } else if name == "text" {
        Some(ScalarType::Text)
    } else if name == "date" {
        Some(ScalarType::Date)
    } else if name == "timestamp" {
        Some(ScalarType::Timestamp)
    } else if name == "timestamp_tz" {
        Some(ScalarType::ZonedTimestamp)
    } else if name == "interval" {
        Some(ScalarType::Interval)
    } else if name == "binary" {
        Some(ScalarType::Binary)
    } else {
        None
    }
}

// The word of a type, but for the scale of decimals.
fn type_word(column_type: LeastType) -> &'static str
    ensures { result.now ≡ type_word column_type }
{
    match column_type {
        LeastType::Nothing => "nothing",
        LeastType::Of(of) => scalar_type_word(of),
        LeastType::Mixed => "mixed",
    }
}

// The word of a type of scalars.
fn scalar_type_word(of: ScalarType) -> &'static str
    ensures { result.now ≡ scalar_type_word of }
{
    match of {
        ScalarType::Boolean => "boolean",
        ScalarType::Int64 => "int64",
        ScalarType::UInt64 => "uint64",
        ScalarType::Decimal(_) => "decimal",
        ScalarType::Text => "text",
        ScalarType::Date => "date",
        ScalarType::Timestamp => "timestamp",
        ScalarType::ZonedTimestamp => "timestamp_tz",
        ScalarType::Interval => "interval",
        ScalarType::Binary => "binary",
    }
}
