//! The types of scalars, and which members are values of them.

ghost use Rattle.std.specs.Prelude.{◌≡◌, ◌↔◌, ◌++◌, IsTrue, MatchOption, List, ℕ};
ghost use Rattle.jsonb_typed.specs.Words.{HoldsNoScalar, IsBinary, IsOfScalarType, IsText};
ghost use Rattle.jsonb_typed.specs.Words.{ScalarType, node_tree, type_bytes};

use crate::binaries::binary_of;
use crate::column_type::ColumnType;
use crate::numbers::Fit;
use crate::types::{
    Boolean, Dates, Decimal, Int64, Intervals, Timestamps, UInt64, ZonedTimestamps,
};
use jsonb::Node;

/// A type of scalars, which is the type of a column.
#[derive(Clone, Copy, Debug, PartialEq, Eq)]
pub enum ScalarType {
    /// `true` and `false`.
    Boolean,
    /// Whole numbers from -2^63 to 2^63 - 1.
    Int64,
    /// Whole numbers from 0 to 2^64 - 1.
    UInt64,
    /// Numbers with so many digits after the point, as integers of 128 bits without it.
    Decimal(u8),
    /// Texts.
    Text,
    /// Dates.
    Date,
    /// Timestamps without a time zone.
    Timestamp,
    /// Timestamps, each with the offset of its time zone.
    ZonedTimestamp,
    /// Intervals.
    Interval,
    /// Binary values.
    Binary,
}

/// The two bytes of a type: its code, and the scale of decimals.
pub fn type_bytes(column_type: ScalarType) -> [u8; 2]
    ensures { result ≡ type_bytes column_type }
{
    match column_type {
        ScalarType::Boolean => [0, 0],
        ScalarType::Int64 => [1, 0],
        ScalarType::UInt64 => [2, 0],
        ScalarType::Decimal(scale) => [3, scale],
        ScalarType::Text => [4, 0],
        ScalarType::Date => [5, 0],
        ScalarType::Timestamp => [6, 0],
        ScalarType::ZonedTimestamp => [7, 0],
        ScalarType::Interval => [8, 0],
        ScalarType::Binary => [9, 0],
    }
}

/// The type at the beginning of the bytes, and the bytes after it. `None` if the bytes do not begin
/// with a type.
pub fn split_type(bytes: &[u8]) -> Option<(ScalarType, &[u8])>
    ensures { MatchOption result
        ((type : ScalarType) (later : List ℕ) → bytes.now ≡ type_bytes type ++ later → ⊥)
        (λ x. bytes.now ≡ type_bytes x.0 ++ x.1.now) }
{
    match bytes {
        [0, 0, later @ ..] => Some((ScalarType::Boolean, later)),
        [1, 0, later @ ..] => Some((ScalarType::Int64, later)),
        [2, 0, later @ ..] => Some((ScalarType::UInt64, later)),
        [3, scale, later @ ..] => Some((ScalarType::Decimal(*scale), later)),
        [4, 0, later @ ..] => Some((ScalarType::Text, later)),
        [5, 0, later @ ..] => Some((ScalarType::Date, later)),
        [6, 0, later @ ..] => Some((ScalarType::Timestamp, later)),
        [7, 0, later @ ..] => Some((ScalarType::ZonedTimestamp, later)),
        [8, 0, later @ ..] => Some((ScalarType::Interval, later)),
        [9, 0, later @ ..] => Some((ScalarType::Binary, later)),
        _ => None,
    }
}

/// Whether a member, as `opened` returns it, is a value of a type. A number is one if it fits the
/// type as `fit` says.
pub fn is_scalar(member: Node<'_>, of: ScalarType, fit: Fit) -> bool
    requires { HoldsNoScalar member }
    ensures { IsTrue result ↔ IsOfScalarType fit of (node_tree member.entry) }
{
    match of {
        ScalarType::Boolean => is_value(member, &Boolean),
        ScalarType::Int64 => is_value(member, &Int64 { fit }),
        ScalarType::UInt64 => is_value(member, &UInt64 { fit }),
        ScalarType::Decimal(scale) => is_value(member, &Decimal { scale, fit }),
        ScalarType::Text => is_text(member),
        ScalarType::Date => is_value(member, &Dates),
        ScalarType::Timestamp => is_value(member, &Timestamps),
        ScalarType::ZonedTimestamp => is_value(member, &ZonedTimestamps),
        ScalarType::Interval => is_value(member, &Intervals),
        ScalarType::Binary => is_binary(member),
    }
}

// Whether a value of the type stands for a member.
fn is_value<T: ColumnType>(member: Node<'_>, column_type: &T) -> bool
    requires { HoldsNoScalar member }
    ensures { IsTrue result
        ↔ ((v : T.Value) × T.stands column_type.now v (node_tree member.entry)) }
{
    matches!(column_type.value_of(member), Some(_))
}

// Whether a member is a text.
fn is_text(member: Node<'_>) -> bool
    requires { HoldsNoScalar member }
    ensures { IsTrue result ↔ ((s : List ℕ) × IsText s (node_tree member.entry)) }
{
    match member {
        Node::String(_) => true,
        _ => false,
    }
}

// Whether a member is a binary value.
fn is_binary(member: Node<'_>) -> bool
    requires { HoldsNoScalar member }
    ensures { IsTrue result ↔ ((s : List ℕ) × IsBinary s (node_tree member.entry)) }
{
    matches!(binary_of(member), Some(_))
}
