// Worked results of the order, on documents and on other bytes.
use crate::documents::bytes_of;
use jsonb::{
    Decimal64, ExtensionItem, ExtensionValue, JsonbItem, Number, NumberItem, OwnedJsonb, RawJsonb,
};
use std::alloc::Global;
use std::borrow::CowStr;
use std::test::Fail;

// The first rank of bytes that are not a document.
const NO_DOCUMENT: usize = 50;

// Byte strings, each with its rank: those of one rank are equal.
const ROWS: &[(usize, &str)] = &[
    // Extension values: Binary, Date, Timestamp, TimestampTz twice, Interval.
    (0, "20000000 60000001 00"),
    (1, "20000000 60000002 00 00"),
    (2, "20000000 60000005 10 ffffffff"),
    (3, "20000000 60000009 20 0000000000000000"),
    (4, "20000000 6000000a 30 000640d6b7238000 08"),
    (4, "20000000 6000000d 30 000640d6b7238000 00007080"),
    (5, "20000000 60000011 40 00000001 00000000 0000000000000000"),
    (6, "20000000 30000000"),
    (7, "20000000 40000000"),
    // Numbers: -1, slightly below 0, 0 twice, slightly above 0, 1, 5 three times, the greatest.
    (8, "20000000 20000002 40ff"),
    (
        9,
        "20000000 20000012 70 80000000000000000000000000000000 ff",
    ),
    (10, "20000000 20000001 00"),
    (10, "20000000 20000002 4000"),
    (11, "20000000 2000000a 70 0000000000000001 ff"),
    (12, "20000000 20000002 5001"),
    (13, "20000000 20000002 5005"),
    (13, "20000000 20000002 4005"),
    (13, "20000000 2000000a 70 0000000000000032 01"),
    (
        14,
        "20000000 20000012 70 7fffffffffffffffffffffffffffffff 00",
    ),
    // Strings: "", "a", "aa", "b".
    (15, "20000000 10000000"),
    (16, "20000000 10000001 61"),
    (17, "20000000 10000002 6161"),
    (18, "20000000 10000001 62"),
    // Objects: {}, {"":true}, {"a":0}, {"a":1} twice, {"a":1,"b":"123"}, {"a":[]}, {"b":0}.
    (19, "40000000"),
    (20, "40000001 10000000 40000000"),
    (21, "40000001 10000001 20000001 61 00"),
    (22, "40000001 10000001 20000002 61 5001"),
    (22, "40000001 10000001 2000000a 61 70 000000000000000a 01"),
    (
        23,
        "40000002 10000001 10000001 20000002 10000003 61 62 5001 313233",
    ),
    (24, "40000001 10000001 50000004 61 80000000"),
    (25, "40000001 10000001 20000001 62 00"),
    // Arrays: [], [false], [false,10,{"k":"v"}], [true], [0] twice, [1], [1,0], [1,0,0], [5],
    // ["",0], ["a"], [{}], [[]], [[],1], [[0]], [null].
    (26, "80000000"),
    (27, "80000001 30000000"),
    (
        28,
        "80000003 30000000 20000002 5000000e 500a 40000001 10000001 10000001 6b 76",
    ),
    (29, "80000001 40000000"),
    (30, "80000001 20000001 00"),
    (30, "80000001 20000002 4000"),
    (31, "80000001 20000002 5001"),
    (32, "80000002 20000002 20000001 5001 00"),
    (33, "80000003 20000002 20000001 20000001 5001 00 00"),
    (34, "80000001 20000002 5005"),
    (35, "80000002 10000000 20000001 00"),
    (36, "80000001 10000001 61"),
    (37, "80000001 50000004 40000000"),
    (38, "80000001 50000004 80000000"),
    (39, "80000002 50000004 20000002 80000000 5001"),
    (40, "80000001 50000009 80000001 20000001 00"),
    (41, "80000001 00000000"),
    (42, "20000000 00000000"),
    // Bytes that are not a document, by their bytes.
    (50, ""),
    (51, "00"),
    (52, "00000000"),
    (53, "01020304"),
    (54, "20000000"),
    (55, "20000000 20000002 0000"),
    (56, "40000002 10000001 10000001 00000000 00000000 62 61"),
    (57, "80000000 00"),
    (58, "80000001 80000000"),
    (59, "9fffffff"),
];

// The byte strings of the table, with their ranks.
fn rows(alloc: Global) -> Result<Vec<(usize, OwnedJsonb)>, Fail> {
    let mut values = Vec::new(alloc);
    for &(place, text) in ROWS {
        values.push((place, OwnedJsonb::new(bytes_of(alloc, text)?)))?;
    }
    Ok(values)
}

// Whether owned bytes compare as their ranks.
fn are_in_order(left: &(usize, OwnedJsonb), right: &(usize, OwnedJsonb)) -> bool {
    let order = left.0.cmp(&right.0);
    left.1.cmp(&right.1) == order
        && left.1.partial_cmp(&right.1) == Some(order)
        && (left.1 == right.1) == order.is_eq()
}

#[test]
fn by_places(rt: HostRuntime) -> Result<(), Fail> {
    let values = rows(rt.alloc())?;
    for left in &values {
        for right in &values {
            assert!(rt; are_in_order(left, right), "{} and {}", left.0, right.0);
        }
    }
    Ok(())
}

// Whether borrowed bytes compare as their ranks, and documents do so by `try_cmp` too.
fn are_views_in_order(left: &(usize, OwnedJsonb), right: &(usize, OwnedJsonb)) -> bool {
    let order = left.0.cmp(&right.0);
    let are_documents = left.0 < NO_DOCUMENT && right.0 < NO_DOCUMENT;
    let (left, right) = (left.1.as_raw(), right.1.as_raw());
    left.cmp(&right) == order
        && left.partial_cmp(&right) == Some(order)
        && (left == right) == order.is_eq()
        && left.try_cmp(&right) == are_documents.then_some(order)
}

#[test]
fn views_by_places(rt: HostRuntime) -> Result<(), Fail> {
    let values = rows(rt.alloc())?;
    for left in &values {
        for right in &values {
            assert!(rt;
                are_views_in_order(left, right),
                "{} and {}",
                left.0,
                right.0
            );
        }
    }
    Ok(())
}

// Whether an item that holds all bytes and one that was read compare as their ranks.
fn are_items_in_order(left: &(usize, OwnedJsonb), right: &(usize, OwnedJsonb)) -> bool {
    let order = left.0.cmp(&right.0);
    let whole = JsonbItem::Raw(left.1.as_raw());
    match JsonbItem::from_raw_jsonb(right.1.as_raw()) {
        Ok(item) => whole.cmp(&item) == order && (whole == item) == order.is_eq(),
        Err(_) => right.0 >= NO_DOCUMENT,
    }
}

#[test]
fn items_by_places(rt: HostRuntime) -> Result<(), Fail> {
    let values = rows(rt.alloc())?;
    for left in &values {
        for right in &values {
            assert!(rt;
                are_items_in_order(left, right),
                "{} and {}",
                left.0,
                right.0
            );
        }
    }
    Ok(())
}

// Each pair compares consistently from both sides, and the order is transitive.
#[test]
fn triples(rt: HostRuntime) -> Result<(), Fail> {
    let values = rows(rt.alloc())?;
    assert_eq!(rt; values.len(), 59);
    for (_, a) in &values {
        for (_, b) in &values {
            assert!(rt; a.cmp(b) == b.cmp(a).reverse());
            for (_, c) in &values {
                assert!(rt; a > b || b > c || a <= c);
            }
        }
    }
    Ok(())
}

// The document of the number 5.
const FIVE: &[u8] = b"\x20\0\0\0\x20\0\0\x02\x50\x05";

// Whether an item equals another, is less than null and strings, and is greater than what is less
// than numbers.
fn is_number_like(item: &JsonbItem, other: &JsonbItem) -> bool {
    let bytes = ExtensionItem::from_value(ExtensionValue::Binary(b"bytes"));
    item == other
        && *item < JsonbItem::Null
        && *item < JsonbItem::String(CowStr::Borrowed(""))
        && *item > JsonbItem::Boolean(true)
        && *item > JsonbItem::Extension(bytes)
}

#[test]
fn five_as_items(rt: HostRuntime) -> Result<(), Fail> {
    let tenths = Number::Decimal64(Decimal64 {
        scale: 1,
        value: 50,
    });
    let raw = JsonbItem::Raw(RawJsonb::new(FIVE));
    let owned = JsonbItem::Owned(OwnedJsonb::from_bytes(rt.alloc(), FIVE)?);
    let number = JsonbItem::Number(NumberItem::from_number(tenths));
    assert!(rt; is_number_like(&raw, &owned) && is_number_like(&owned, &number));
    assert!(rt; is_number_like(&number, &raw));
    Ok(())
}
