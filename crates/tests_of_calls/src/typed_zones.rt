// Zone maps of typed columns.
use std::alloc::{AllocError, Global};
use std::test::Fail;
use typed_vector::{Content, Typed, Zone, zones};

// What seven rows have.
const ROWS: &[Content<'static, i64>] = &[
    Content::Value(4),
    Content::Value(-9223372036854775808),
    Content::Absent,
    Content::Other(b"\x20\0\0\0\0\0\0\0"),
    Content::Value(9),
    Content::Absent,
    Content::Value(9223372036854775807),
];

// The least and the greatest value of each block, by the rows of a block.
const ZONES: &[(usize, &[Option<(i64, i64)>])] = &[
    (
        0,
        &[
            Some((4, 4)),
            Some((i64::MIN, i64::MIN)),
            None,
            None,
            Some((9, 9)),
            None,
            Some((i64::MAX, i64::MAX)),
        ],
    ),
    (
        2,
        &[
            Some((i64::MIN, 4)),
            None,
            Some((9, 9)),
            Some((i64::MAX, i64::MAX)),
        ],
    ),
    (
        3,
        &[
            Some((i64::MIN, 4)),
            Some((9, 9)),
            Some((i64::MAX, i64::MAX)),
        ],
    ),
    (7, &[Some((i64::MIN, i64::MAX))]),
    (usize::MAX, &[Some((i64::MIN, i64::MAX))]),
];

// Ranges, whether a value of the block of 5, 7 and 9 may be in them, and whether all are.
const RANGES: &[(i64, i64, bool, bool)] = &[
    (i64::MIN, 4, false, false),
    (i64::MIN, 5, true, false),
    (6, 6, true, false),
    (5, 8, true, false),
    (5, 9, true, true),
    (9, i64::MAX, true, false),
    (10, i64::MAX, false, false),
];

fn column(alloc: Global) -> Result<Typed<i64>, AllocError> {
    let mut column = Typed::new(alloc, 0)?;
    for row in ROWS {
        match row {
            Content::Absent => column.push_absent()?,
            Content::Value(item) => column.push_value(*item)?,
            Content::Other(bytes) => column.push_other(bytes)?,
        }
    }
    Ok(column)
}

fn has_zones(
    alloc: Global,
    block_rows: usize,
    expected: &[Option<(i64, i64)>],
) -> Result<bool, AllocError> {
    let zones = zones(alloc, &column(alloc)?, block_rows)?;
    let is_same = |(zone, ends): (&Option<Zone<i64>>, &Option<(i64, i64)>)| {
        zone.map(|it| (it.least, it.greatest)) == *ends
    };
    Ok(zones.len() == expected.len() && zones.iter().zip(expected).all(is_same))
}

#[test]
fn zones_of_blocks(rt: HostRuntime) -> Result<(), Fail> {
    for &(block_rows, expected) in ZONES {
        assert!(rt;
            has_zones(rt.alloc(), block_rows, expected)?,
            "{block_rows}"
        );
    }
    Ok(())
}

#[test]
fn no_rows_have_no_zone(rt: HostRuntime) -> Result<(), Fail> {
    let column = Typed::new(rt.alloc(), 0u64)?;
    assert!(rt; zones(rt.alloc(), &column, 4)?.is_empty());
    Ok(())
}

#[test]
fn ranges_of_a_zone(rt: HostRuntime) -> Result<(), Fail> {
    let mut zone = Zone {
        least: 7,
        greatest: 7,
    };
    zone.add(9);
    zone.add(5);
    for &(low, high, may_hold, all_within) in RANGES {
        assert!(rt; zone.may_hold(low, high) == may_hold, "{low} {high}");
        assert!(rt; zone.all_within(low, high) == all_within, "{low} {high}");
    }
    Ok(())
}
