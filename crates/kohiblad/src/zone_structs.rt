//! The least and the greatest value of a block of rows, as C has them.

ghost use Rattle.std.specs.Prelude.{◌≡◌, Option};
ghost use Rattle.typed_vector.specs.declared.zone_map.Zone.{Zone};
ghost use Rattle.kohiblad.specs.ZoneStructs.{date_zone, decimal_zone, int64_zone, uint64_zone};

use crate::taken_values::KohibladInt128;
use typed_vector::Zone;

/// A struct for a zone, or for none.
pub trait ZoneStruct: Copy {
    type Limit: Copy + Ord;

    ghost written: { Option (Zone Self.Limit) → Self };

    /// The zone in the struct.
    fn of(zone: Option<Zone<Self::Limit>>) -> Self
        ensures { result ≡ written zone };
}

/// The least and the greatest value of a block of rows of whole numbers of 64 bits with a sign, and
/// 1; or 0 in all fields if no row of the block has a value.
#[repr(C)]
#[derive(Clone, Copy)]
pub struct KohibladInt64Zone {
    pub least: i64,
    pub greatest: i64,
    pub has_value: u64,
}

impl ZoneStruct for KohibladInt64Zone {
    type Limit = i64;

    ghost written = { int64_zone };

    fn of(zone: Option<Zone<i64>>) -> Self
        ensures { result ≡ int64_zone zone }
    {
        match zone {
            Some(zone) => KohibladInt64Zone {
                least: zone.least,
                greatest: zone.greatest,
                has_value: 1,
            },
            None => KohibladInt64Zone {
                least: 0,
                greatest: 0,
                has_value: 0,
            },
        }
    }
}

/// The same of whole numbers of 64 bits without a sign.
#[repr(C)]
#[derive(Clone, Copy)]
pub struct KohibladUInt64Zone {
    pub least: u64,
    pub greatest: u64,
    pub has_value: u64,
}

impl ZoneStruct for KohibladUInt64Zone {
    type Limit = u64;

    ghost written = { uint64_zone };

    fn of(zone: Option<Zone<u64>>) -> Self
        ensures { result ≡ uint64_zone zone }
    {
        match zone {
            Some(zone) => KohibladUInt64Zone {
                least: zone.least,
                greatest: zone.greatest,
                has_value: 1,
            },
            None => KohibladUInt64Zone {
                least: 0,
                greatest: 0,
                has_value: 0,
            },
        }
    }
}

/// The same of decimals of one scale.
#[repr(C)]
#[derive(Clone, Copy)]
pub struct KohibladDecimalZone {
    pub least: KohibladInt128,
    pub greatest: KohibladInt128,
    pub has_value: u64,
}

impl ZoneStruct for KohibladDecimalZone {
    type Limit = KohibladInt128;

    ghost written = { decimal_zone };

    fn of(zone: Option<Zone<KohibladInt128>>) -> Self
        ensures { result ≡ decimal_zone zone }
    {
        match zone {
            Some(zone) => KohibladDecimalZone {
                least: zone.least,
                greatest: zone.greatest,
                has_value: 1,
            },
            None => {
                let zero = KohibladInt128 { low: 0, high: 0 };
                KohibladDecimalZone {
                    least: zero,
                    greatest: zero,
                    has_value: 0,
                }
            }
        }
    }
}

/// The same of dates.
#[repr(C)]
#[derive(Clone, Copy)]
pub struct KohibladDateZone {
    pub least: i32,
    pub greatest: i32,
    pub has_value: u64,
}

impl ZoneStruct for KohibladDateZone {
    type Limit = i32;

    ghost written = { date_zone };

    fn of(zone: Option<Zone<i32>>) -> Self
        ensures { result ≡ date_zone zone }
    {
        match zone {
            Some(zone) => KohibladDateZone {
                least: zone.least,
                greatest: zone.greatest,
                has_value: 1,
            },
            None => KohibladDateZone {
                least: 0,
                greatest: 0,
                has_value: 0,
            },
        }
    }
}
