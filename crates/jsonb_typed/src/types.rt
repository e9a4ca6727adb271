//! The types of columns.

ghost use Rattle.std.specs.Prelude.{◌≡◌, ◌↔◌, ℤ, Some, FitsSigned, false, option_map, pos};
ghost use Rattle.jsonb_typed.specs.Words.{HoldsNoScalar, IsAtScale, IsDecimalAt, IsInt64, IsUInt64};
ghost use Rattle.jsonb_typed.specs.Words.{boolean, date, extension, extension_of, extension_tree};
ghost use Rattle.jsonb_typed.specs.Words.{interval, node_tree, scalar_boolean, scalar_extension};
ghost use Rattle.jsonb_typed.specs.Words.{scalar_number, timestamp, timestamp_tz, w128};

use crate::column_type::ColumnType;
use crate::numbers::{Fit, value_at_scale};
use jsonb::{Date, ExtensionValue, Interval, Node, Timestamp, TimestampTz};

/// Whole numbers from -2^63 to 2^63 - 1.
#[derive(Clone, Copy, Debug)]
pub struct Int64 {
    pub fit: Fit,
}

impl ColumnType for Int64 {
    type Value = i64;

    ghost stands = { λ s v t. IsInt64 s.fit v t };

    ghost scalars = { λ s v t is stands. scalar_number s.fit 0 v t is stands.1 };

    ghost blank = { λ s. pos 0 };

    fn blank(&self) -> i64 {
        0
    }

    #[inline(always)]
    fn value_of(&self, member: Node<'_>) -> Option<i64> {
        i64::try_from(number_at(member, 0, self.fit)?).ok()
    }
}

/// Whole numbers from 0 to 2^64 - 1.
#[derive(Clone, Copy, Debug)]
pub struct UInt64 {
    pub fit: Fit,
}

impl ColumnType for UInt64 {
    type Value = u64;

    ghost stands = { λ s v t. IsUInt64 s.fit v t };

    ghost scalars = { λ s v t is stands. scalar_number s.fit 0 (pos v) t is stands.1 };

    ghost blank = { λ s. 0 };

    fn blank(&self) -> u64 {
        0
    }

    #[inline(always)]
    fn value_of(&self, member: Node<'_>) -> Option<u64> {
        u64::try_from(number_at(member, 0, self.fit)?).ok()
    }
}

/// Numbers with `scale` digits after the point, as integers of 128 bits without it.
#[derive(Clone, Copy, Debug)]
pub struct Decimal {
    pub scale: u8,
    pub fit: Fit,
}

impl ColumnType for Decimal {
    type Value = i128;

    ghost stands = { λ s v t. IsDecimalAt s.fit s.scale v t };

    ghost scalars = { λ s v t is stands. scalar_number s.fit s.scale v t is stands.1 };

    ghost blank = { λ s. pos 0 };

    fn blank(&self) -> i128 {
        0
    }

    #[inline(always)]
    fn value_of(&self, member: Node<'_>) -> Option<i128> {
        number_at(member, self.scale, self.fit)
    }
}

/// `true` and `false`.
#[derive(Clone, Copy, Debug)]
pub struct Boolean;

impl ColumnType for Boolean {
    type Value = bool;

    ghost stands = { λ s v t. t ≡ boolean v };

    ghost scalars = { λ s v t. scalar_boolean v t };

    ghost blank = { λ s. false };

    fn blank(&self) -> bool {
        false
    }

    fn value_of(&self, member: Node<'_>) -> Option<bool> {
        match member {
            Node::Boolean(value) => Some(value),
            _ => None,
        }
    }
}

/// Dates.
#[derive(Clone, Copy, Debug)]
pub struct Dates;

impl ColumnType for Dates {
    type Value = Date;

    ghost stands = { λ s v t. t ≡ extension (date v) };

    ghost scalars = { λ s v t. scalar_extension (date v) t };

    ghost blank = { λ s. record { value = pos 0 } };

    fn blank(&self) -> Date {
        Date { value: 0 }
    }

    fn value_of(&self, member: Node<'_>) -> Option<Date> {
        match extension_of(member)? {
            ExtensionValue::Date(value) => Some(value),
            _ => None,
        }
    }
}

/// Timestamps.
#[derive(Clone, Copy, Debug)]
pub struct Timestamps;

impl ColumnType for Timestamps {
    type Value = Timestamp;

    ghost stands = { λ s v t. t ≡ extension (timestamp v) };

    ghost scalars = { λ s v t. scalar_extension (timestamp v) t };

    ghost blank = { λ s. record { value = pos 0 } };

    fn blank(&self) -> Timestamp {
        Timestamp { value: 0 }
    }

    fn value_of(&self, member: Node<'_>) -> Option<Timestamp> {
        match extension_of(member)? {
            ExtensionValue::Timestamp(value) => Some(value),
            _ => None,
        }
    }
}

/// Timestamps, each with the offset of its time zone.
#[derive(Clone, Copy, Debug)]
pub struct ZonedTimestamps;

impl ColumnType for ZonedTimestamps {
    type Value = TimestampTz;

    ghost stands = { λ s v t. t ≡ extension (timestamp_tz v) };

    ghost scalars = { λ s v t. scalar_extension (timestamp_tz v) t };

    ghost blank = { λ s. record { offset = pos 0; value = pos 0 } };

    fn blank(&self) -> TimestampTz {
        TimestampTz {
            offset: 0,
            value: 0,
        }
    }

    fn value_of(&self, member: Node<'_>) -> Option<TimestampTz> {
        match extension_of(member)? {
            ExtensionValue::TimestampTz(value) => Some(value),
            _ => None,
        }
    }
}

/// Intervals.
#[derive(Clone, Copy, Debug)]
pub struct Intervals;

impl ColumnType for Intervals {
    type Value = Interval;

    ghost stands = { λ s v t. t ≡ extension (interval v) };

    ghost scalars = { λ s v t. scalar_extension (interval v) t };

    ghost blank = { λ s. record { months = pos 0; days = pos 0; micros = pos 0 } };

    fn blank(&self) -> Interval {
        Interval {
            months: 0,
            days: 0,
            micros: 0,
        }
    }

    fn value_of(&self, member: Node<'_>) -> Option<Interval> {
        match extension_of(member)? {
            ExtensionValue::Interval(value) => Some(value),
            _ => None,
        }
    }
}

/// No values: each member is kept. It is for members of no one type.
#[derive(Clone, Copy, Debug)]
pub struct Nothing;

impl ColumnType for Nothing {
    type Value = ();

    ghost stands = { λ s v t. ⊥ };

    ghost scalars = { λ s v t is stands. stands };

    ghost blank = { λ s. tt };

    fn blank(&self) {}

    fn value_of(&self, _member: Node<'_>) -> Option<()> {
        None
    }
}

// The value of a number without its point, written with this many digits after it.
#[inline(always)]
fn number_at(member: Node<'_>, scale: u8, fit: Fit) -> Option<i128>
    requires { HoldsNoScalar member }
    ensures { (v : ℤ) → FitsSigned w128 v
        → (result ≡ Some v) ↔ IsAtScale fit scale v (node_tree member.entry) }
{
    match member {
        Node::Number(item) => value_at_scale(item.as_number(), scale, fit),
        _ => None,
    }
}

/// The extension value of a member, if it is one.
pub fn extension_of(member: Node<'_>) -> Option<ExtensionValue<'_>>
    requires { HoldsNoScalar member }
    ensures { option_map (λ value. extension (extension_of value)) result
        ≡ extension_tree (node_tree member.entry) }
{
    match member {
        Node::Extension(item) => Some(item.as_extension_value()),
        _ => None,
    }
}
