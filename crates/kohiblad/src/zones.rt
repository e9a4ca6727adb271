//! Zone maps of columns that were taken.

ghost use Rattle.std.specs.Prelude.{◌≡◌};
ghost use Rattle.std.specs.Ordering.{int_cmp, nat_cmp, on};
ghost use Rattle.kohiblad.specs.Taking.{int128_whole};
ghost use Rattle.kohiblad.specs.ZoneStructs.{date_zone, decimal_zone, int64_zone, uint64_zone};
ghost use Rattle.kohiblad.specs.Zones.{AreZonesWritten};

use crate::answer::{NO_ROOM, OK, code, refuse};
use crate::taken_values::KohibladInt128;
use crate::taking::VALUE;
use crate::zone_structs::{
    KohibladDateZone, KohibladDecimalZone, KohibladInt64Zone, KohibladUInt64Zone, ZoneStruct,
};
use jsonb::Error;
use typed_vector::zone_of_block;

/// Copies the zone map of a column of whole numbers of 64 bits with a sign to `out`: for each block
/// of `block_rows` rows, where 0 counts as 1, the least and the greatest value; or 0 in all fields
/// if no row of the block has a value. Row k has the value `values[k]` if `states[k]` is 1, as
/// `kohiblad_take_int64` writes them, and otherwise none. The last block may have fewer rows. A
/// reader who wants values of a range passes over the blocks without a value, and over those whose
/// greatest value is below the range, or whose least one is above it: no row there has a value in
/// it. Timestamps, by their numbers, have their zones by this call too. `InvalidEOF` if there are
/// not as many states as values.
#[unsafe(no_mangle)]
pub extern "C" fn kohiblad_zones_int64(
    values: &[i64],
    states: &[u8],
    block_rows: usize,
    out: &mut [KohibladInt64Zone],
    count: &mut usize,
) -> u32
    ensures { AreZonesWritten int_cmp int64_zone block_rows values.now states.now
        out.old out.new count.new result }
{
    write_zones::<KohibladInt64Zone>(values, states, block_rows, out, count)
}

/// Copies the zone map of a column of whole numbers of 64 bits without a sign to `out`. All else is
/// as `kohiblad_zones_int64` has it.
#[unsafe(no_mangle)]
pub extern "C" fn kohiblad_zones_uint64(
    values: &[u64],
    states: &[u8],
    block_rows: usize,
    out: &mut [KohibladUInt64Zone],
    count: &mut usize,
) -> u32
    ensures { AreZonesWritten nat_cmp uint64_zone block_rows values.now states.now
        out.old out.new count.new result }
{
    write_zones::<KohibladUInt64Zone>(values, states, block_rows, out, count)
}

/// Copies the zone map of a column of decimals of one scale, without their point, to `out`. All
/// else is as `kohiblad_zones_int64` has it.
#[unsafe(no_mangle)]
pub extern "C" fn kohiblad_zones_decimal(
    values: &[KohibladInt128],
    states: &[u8],
    block_rows: usize,
    out: &mut [KohibladDecimalZone],
    count: &mut usize,
) -> u32
    ensures { AreZonesWritten (on int128_whole int_cmp) decimal_zone block_rows
        values.now states.now out.old out.new count.new result }
{
    write_zones::<KohibladDecimalZone>(values, states, block_rows, out, count)
}

/// Copies the zone map of a column of dates, by their numbers, to `out`. All else is as
/// `kohiblad_zones_int64` has it.
#[unsafe(no_mangle)]
pub extern "C" fn kohiblad_zones_date(
    values: &[i32],
    states: &[u8],
    block_rows: usize,
    out: &mut [KohibladDateZone],
    count: &mut usize,
) -> u32
    ensures { AreZonesWritten int_cmp date_zone block_rows values.now states.now
        out.old out.new count.new result }
{
    write_zones::<KohibladDateZone>(values, states, block_rows, out, count)
}

// Copies the zone map of a column to `out`.
fn write_zones<Z: ZoneStruct>(
    values: &[Z::Limit],
    states: &[u8],
    block_rows: usize,
    out: &mut [Z],
    count: &mut usize,
) -> u32
    ensures { AreZonesWritten Z.Limit.cmp Z.written block_rows values.now states.now
        out.old out.new count.new result }
{
    if states.len() != values.len() {
        return refuse(code(Error::InvalidEOF), out, count);
    }
    let block_rows = block_rows.max(1);
    let blocks = values.len().div_ceil(block_rows);
    *count = blocks;
    if out.len() < blocks {
        return NO_ROOM;
    }
    for index in 0..blocks {
        out[index] = Z::of(zone_of_block(values, states, VALUE, block_rows, index));
    }
    OK
}
