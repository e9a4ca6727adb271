//! The values of members, as C receives them.

ghost use Rattle.std.specs.Prelude.{◌≡◌, Some, pos, refl};
ghost use Rattle.std.specs.Cmp.{int_cmp_total, int_eq_equiv, on_equiv, on_per, on_po, on_total};
ghost use Rattle.std.specs.Cmp.{partial_equiv_from_equiv, signed_po};
ghost use Rattle.std.specs.Ordering.{int_cmp, int_eq, on};
ghost use Rattle.jsonb_typed.specs.Words.{date, interval, scalar_boolean, scalar_extension};
ghost use Rattle.jsonb_typed.specs.Words.{scalar_number, timestamp, timestamp_tz};
ghost use Rattle.kohiblad.specs.Taking.{IsDate, IsInt128, IsIntervalIn, IsTimestamp, IsTruth};
ghost use Rattle.kohiblad.specs.Taking.{IsZonedTimestamp, int128_whole};
ghost use Rattle.kohiblad.specs.Words.{from_halves};

use crate::scalar::whole_of;
use jsonb::Node;
use jsonb_typed::{Boolean, ColumnType, Dates, Decimal, Intervals, Timestamps, ZonedTimestamps};
use std::cmp::Ordering;

/// A whole number of 128 bits: `high` times 2 to the power of 64, plus `low`.
#[repr(C)]
#[derive(Clone, Copy)]
pub struct KohibladInt128 {
    pub low: u64,
    pub high: i64,
}

impl KohibladInt128 {
    // The whole number.
    fn whole(&self) -> i128
        ensures { result ≡ int128_whole self.now }
    {
        whole_of(self.high, self.low)
    }
}

impl PartialEq for KohibladInt128 {
    ghost eq = { on int128_whole int_eq };

    ghost laws = { on_per int128_whole (partial_equiv_from_equiv int_eq_equiv) };

    fn eq(&self, other: &Self) -> bool {
        self.whole() == other.whole()
    }
}

impl Eq for KohibladInt128 {
    ghost laws = { on_equiv int128_whole int_eq_equiv };
}

impl PartialOrd for KohibladInt128 {
    ghost partial_cmp = { λ x y. Some (int_cmp (int128_whole x) (int128_whole y)) };

    ghost laws = { on_po int128_whole signed_po };

    fn partial_cmp(&self, other: &Self) -> Option<Ordering> {
        Some(self.cmp(other))
    }
}

impl Ord for KohibladInt128 {
    ghost cmp = { on int128_whole int_cmp };

    ghost total = { on_total int128_whole int_cmp_total };

    ghost matches_partial_cmp = { λ x y. refl };

    ghost matches_eq = { λ x y. refl };

    /// Compares the whole numbers.
    fn cmp(&self, other: &Self) -> Ordering {
        self.whole().cmp(&other.whole())
    }
}

/// A timestamp with a time zone: the number that is stored for it, and the offset of its zone in
/// seconds.
#[repr(C)]
#[derive(Clone, Copy)]
pub struct KohibladTimestampTz {
    pub value: i64,
    pub seconds: i32,
}

/// An interval of months, days and microseconds, each a number of its own.
#[repr(C)]
#[derive(Clone, Copy)]
pub struct KohibladInterval {
    pub months: i32,
    pub days: i32,
    pub micros: i64,
}

/// Decimals in two halves.
#[derive(Clone, Copy)]
pub struct Halves {
    pub decimal: Decimal,
}

impl ColumnType for Halves {
    type Value = KohibladInt128;

    ghost stands = { λ s v t. IsInt128 s.decimal.fit s.decimal.scale v t };

    ghost scalars = { λ s v t is stands.
        scalar_number s.decimal.fit s.decimal.scale (int128_whole v) t is stands.1 };

    ghost blank = { λ s. record { low = 0; high = pos 0 } };

    fn blank(&self) -> KohibladInt128 {
        KohibladInt128 { low: 0, high: 0 }
    }

    fn value_of(&self, member: Node<'_>) -> Option<KohibladInt128> {
        match self.decimal.value_of(member) {
            Some(value) => Some(halves_of(value)),
            None => None,
        }
    }
}

// A whole number in two halves.
fn halves_of(value: i128) -> KohibladInt128
    ensures { from_halves result.high result.low ≡ value }
{
    let bits = value.cast_unsigned();
    KohibladInt128 {
        low: (bits % (1 << 64)) as u64,
        high: ((bits >> 64) as u64).cast_signed(),
    }
}

/// Truth values as bytes.
#[derive(Clone, Copy)]
pub struct TruthBytes;

impl ColumnType for TruthBytes {
    type Value = u8;

    ghost stands = { λ s v t. IsTruth v t };

    ghost scalars = { λ s v t is stands. scalar_boolean stands.0 t is stands.1.1 };

    ghost blank = { λ s. 0 };

    fn blank(&self) -> u8 {
        0
    }

    fn value_of(&self, member: Node<'_>) -> Option<u8> {
        match Boolean.value_of(member) {
            Some(value) => Some(u8::from(value)),
            None => None,
        }
    }
}

/// Dates as their numbers.
#[derive(Clone, Copy)]
pub struct DateNumbers;

impl ColumnType for DateNumbers {
    type Value = i32;

    ghost stands = { λ s v t. IsDate v t };

    ghost scalars = { λ s v t. scalar_extension (date (record { value = v })) t };

    ghost blank = { λ s. pos 0 };

    fn blank(&self) -> i32 {
        0
    }

    fn value_of(&self, member: Node<'_>) -> Option<i32> {
        match Dates.value_of(member) {
            Some(found) => Some(found.value),
            None => None,
        }
    }
}

/// Timestamps as their numbers.
#[derive(Clone, Copy)]
pub struct TimestampNumbers;

impl ColumnType for TimestampNumbers {
    type Value = i64;

    ghost stands = { λ s v t. IsTimestamp v t };

    ghost scalars = { λ s v t. scalar_extension (timestamp (record { value = v })) t };

    ghost blank = { λ s. pos 0 };

    fn blank(&self) -> i64 {
        0
    }

    fn value_of(&self, member: Node<'_>) -> Option<i64> {
        match Timestamps.value_of(member) {
            Some(found) => Some(found.value),
            None => None,
        }
    }
}

/// Timestamps with a time zone as their numbers.
#[derive(Clone, Copy)]
pub struct ZonedNumbers;

impl ColumnType for ZonedNumbers {
    type Value = KohibladTimestampTz;

    ghost stands = { λ s v t. IsZonedTimestamp v t };

    ghost scalars = { λ s v t.
        scalar_extension (timestamp_tz (record { offset = v.seconds; value = v.value })) t };

    ghost blank = { λ s. record { value = pos 0; seconds = pos 0 } };

    fn blank(&self) -> KohibladTimestampTz {
        KohibladTimestampTz {
            value: 0,
            seconds: 0,
        }
    }

    fn value_of(&self, member: Node<'_>) -> Option<KohibladTimestampTz> {
        match ZonedTimestamps.value_of(member) {
            Some(found) => Some(KohibladTimestampTz {
                value: found.value,
                seconds: found.offset,
            }),
            None => None,
        }
    }
}

/// Intervals as their numbers.
#[derive(Clone, Copy)]
pub struct IntervalNumbers;

impl ColumnType for IntervalNumbers {
    type Value = KohibladInterval;

    ghost stands = { λ s v t. IsIntervalIn v t };

    ghost scalars = { λ s v t. scalar_extension
        (interval (record { months = v.months; days = v.days; micros = v.micros })) t };

    ghost blank = { λ s. record { months = pos 0; days = pos 0; micros = pos 0 } };

    fn blank(&self) -> KohibladInterval {
        KohibladInterval {
            months: 0,
            days: 0,
            micros: 0,
        }
    }

    fn value_of(&self, member: Node<'_>) -> Option<KohibladInterval> {
        match Intervals.value_of(member) {
            Some(found) => Some(KohibladInterval {
                months: found.months,
                days: found.days,
                micros: found.micros,
            }),
            None => None,
        }
    }
}
