//! The order of numbers and of extension values by value, and laws of the document order, which
//! builds on it.

ghost use Rattle.std.specs.Prelude.{◌≡◌, ◌≢◌, ◌^◌, ◌*ℤ◌, pos};
ghost use Rattle.jsonb_value.specs.Order.{extension_kind};
ghost use Rattle.jsonb_value.specs.Words.{IsTotalOrder, nat_cmp, int_cmp, extension_of, norm, Tree};
ghost use Rattle.jsonb_value.specs.Words.{meaning_cmp, fraction_of, number_cmp, extension_cmp};
ghost use Rattle.jsonb_value.specs.Words.{interval, rank_of, tree_cmp};

use crate::extension::{ExtensionValue, Interval};
use crate::number::{Decimal128, Number};
use std::cmp::Ordering;

impl Number {
    /// Compares the exact values of two numbers, whatever their kinds and scales. The order is
    /// total. It can be `Equal` where `==` is false, as for `Int64(5)` and `UInt64(5)`.
    #[inline(always)]
    pub fn cmp_value(&self, other: &Number) -> Ordering
        ensures { result ≡ number_cmp self.now other.now }
    {
        match (*self, *other) {
            (Number::Int64(left), Number::Int64(right)) => left.cmp(&right),
            (Number::UInt64(left), Number::UInt64(right)) => left.cmp(&right),
            _ => cmp_decimals(self.widen(), other.widen()),
        }
    }

    // The same value as a decimal of 128 bits, which can represent every kind.
    #[inline(always)]
    fn widen(&self) -> Decimal128
        ensures { fraction_of (Number.Decimal128 result) ≡ fraction_of self.now }
    {
        match *self {
            Number::Int64(value) => Decimal128 {
                scale: 0,
                value: i128::from(value),
            },
            Number::UInt64(value) => Decimal128 {
                scale: 0,
                value: i128::from(value),
            },
            Number::Decimal64(decimal) => Decimal128 {
                scale: decimal.scale,
                value: i128::from(decimal.value),
            },
            Number::Decimal128(decimal) => decimal,
        }
    }
}

// Compares two decimals by value.
#[inline(never)]
fn cmp_decimals(left: Decimal128, right: Decimal128) -> Ordering
    ensures { result ≡ number_cmp (Number.Decimal128 left) (Number.Decimal128 right) }
{
    if left.scale <= right.scale {
        cmp_by_scale(left.value, right.scale - left.scale, right.value)
    } else {
        cmp_by_scale(right.value, left.scale - right.scale, left.value).reverse()
    }
}

// Compares `value` * 10^`steps` with `other`. A product that overflows is beyond every value of the
// type, on the side of its sign.
fn cmp_by_scale(value: i128, steps: u8, other: i128) -> Ordering
    ensures { result ≡ int_cmp (value *ℤ pos (10 ^ steps)) other }
{
    let mut scaled = value;
    for _step in 0..steps {
        match scaled.checked_mul(10) {
            Some(product) => scaled = product,
            None => return scaled.cmp(&0),
        }
    }
    scaled.cmp(&other)
}

impl ExtensionValue<'_> {
    /// Compares first by kind, in the order of the variants, then by content: bytes; a date; a
    /// timestamp; a timestamp, then its offset; months, then days, then micros; a tag, then its
    /// bytes. Byte strings compare lexicographically.
    pub fn cmp_value(&self, other: &ExtensionValue<'_>) -> Ordering
        ensures { result ≡ extension_cmp (extension_of self.now) (extension_of other.now) }
    {
        match (*self, *other) {
            (ExtensionValue::Binary(left), ExtensionValue::Binary(right)) => left.cmp(right),
            (ExtensionValue::Date(left), ExtensionValue::Date(right)) => {
                left.value.cmp(&right.value)
            }
            (ExtensionValue::Timestamp(left), ExtensionValue::Timestamp(right)) => {
                left.value.cmp(&right.value)
            }
            (ExtensionValue::TimestampTz(left), ExtensionValue::TimestampTz(right)) => {
                (left.value, left.offset).cmp(&(right.value, right.offset))
            }
            (ExtensionValue::Interval(left), ExtensionValue::Interval(right)) => {
                cmp_intervals(left, right)
            }
            (ExtensionValue::Opaque(left), ExtensionValue::Opaque(right)) => {
                (left.tag(), left.bytes()).cmp(&(right.tag(), right.bytes()))
            }
            _ => self.kind().cmp(&other.kind()),
        }
    }

    // The position of the kind among the six, from 0.
    fn kind(&self) -> u8
        ensures { result ≡ extension_kind (extension_of self.now) }
    {
        match self {
            ExtensionValue::Binary(_) => 0,
            ExtensionValue::Date(_) => 1,
            ExtensionValue::Timestamp(_) => 2,
            ExtensionValue::TimestampTz(_) => 3,
            ExtensionValue::Interval(_) => 4,
            ExtensionValue::Opaque(_) => 5,
        }
    }
}

fn cmp_intervals(left: Interval, right: Interval) -> Ordering
    ensures { result ≡ extension_cmp (interval left) (interval right) }
{
    (left.months, left.days, left.micros).cmp(&(right.months, right.days, right.micros))
}

/// The order of numbers by value is total: swapping the arguments reverses the result, it is
/// transitive, and two numbers that compare `Equal` compare alike with every other.
#[tactic(auto, using(crate::proofs::NumberLaws::number_cmp_total))]
pub fn order_of_numbers()
    ensures { IsTotalOrder number_cmp }
{}

/// The order of extension values is total: swapping the arguments reverses the result, it is
/// transitive, and two values that compare `Equal` compare alike with every other.
#[tactic(auto, using(crate::proofs::ExtensionLaws::extension_cmp_total))]
pub fn order_of_extension_values()
    ensures { IsTotalOrder extension_cmp }
{}

/// The order of trees is total. Each tree is `Equal` to itself, trees of different kinds compare by
/// kind, and a signed zero equals an unsigned one.
pub fn order_of_trees()
    ensures total { IsTotalOrder tree_cmp }
    ensures itself { (t : Tree) → tree_cmp t t ≡ Ordering.Equal }
    ensures kinds { (t u : Tree) → rank_of t ≢ rank_of u
        → tree_cmp t u ≡ nat_cmp (rank_of t) (rank_of u) }
    ensures zeros_left { (t u : Tree) → tree_cmp (norm t) u ≡ tree_cmp t u }
    ensures zeros_right { (t u : Tree) → tree_cmp t (norm u) ≡ tree_cmp t u }
{}

/// The order of byte strings by meaning is total. A byte string means the tree of a document, or
/// itself if it is not a document.
#[tactic(auto, using(crate::proofs::MeaningLaws::meaning_cmp_total))]
pub fn order_of_meanings()
    ensures { IsTotalOrder meaning_cmp }
{}
