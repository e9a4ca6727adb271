// Files of a few rows.
use jsonb::{
    Date, Decimal64, Encoder, ExtensionValue, Interval, Number, OwnedJsonb, Timestamp, TimestampTz,
    Value,
};
use jsonb_typed::ScalarType;
use jsonb_typed_file::{ColumnPlan, StoredValue, TypedFile, WriteError, write_file};
use std::alloc::Global;
use std::collections::BTreeMap;
use std::test::Fail;

const TEXTS: &[&str] = &[
    r#"{"at":1700000000,"city":"Oslo","ok":true,"price":521.81,"tags":[1,2]}"#,
    r#"{"at":-5,"city":7,"ok":null,"price":521,"zeta":{"a":1}}"#,
    r#"{"city":"","price":0.05}"#,
    "[1,2]",
    "{}",
];

const PLANS: &[ColumnPlan<'static>] = &[
    ColumnPlan {
        name: "at",
        column_type: ScalarType::Int64,
    },
    ColumnPlan {
        name: "city",
        column_type: ScalarType::Text,
    },
    ColumnPlan {
        name: "ok",
        column_type: ScalarType::Boolean,
    },
    ColumnPlan {
        name: "price",
        column_type: ScalarType::Decimal(2),
    },
];

const EXTENSION_PLANS: &[ColumnPlan<'static>] = &[
    ColumnPlan {
        name: "bytes",
        column_type: ScalarType::Binary,
    },
    ColumnPlan {
        name: "day",
        column_type: ScalarType::Date,
    },
    ColumnPlan {
        name: "span",
        column_type: ScalarType::Interval,
    },
    ColumnPlan {
        name: "time",
        column_type: ScalarType::Timestamp,
    },
    ColumnPlan {
        name: "zoned",
        column_type: ScalarType::ZonedTimestamp,
    },
];

const DAY: Date = Date { value: -2 };

const SPAN: Interval = Interval {
    months: 1,
    days: -1,
    micros: 256,
};

const TIME: Timestamp = Timestamp { value: 7 };

// One hour east.
const ZONED: TimestampTz = TimestampTz {
    offset: 3600,
    value: -1,
};

fn sample(alloc: Global) -> Result<Vec<u8>, Fail> {
    let mut owned = Vec::new(alloc);
    for text in TEXTS {
        owned.push(OwnedJsonb::parse(alloc, text)?)?;
    }
    let mut rows = Vec::new(alloc);
    for it in &owned {
        rows.push(it.as_document().ok_or("no document")?)?;
    }
    Ok(write_file(alloc, &rows, PLANS)?)
}

#[test]
fn gives_rows_back(rt: HostRuntime) -> Result<(), Fail> {
    let alloc = rt.alloc();
    let bytes = sample(alloc)?;
    let file = TypedFile::new(alloc, &bytes)?;
    assert_eq!(rt; file.len(), 5);
    for (index, text) in TEXTS.iter().enumerate() {
        let row = file.row(alloc, index).ok_or("no row")??;
        let again = row.as_document().ok_or("no document")?.to_string(alloc)?;
        assert_eq!(rt; again.as_str(), *text);
    }
    Ok(())
}

#[test]
fn keeps_what_does_not_fit_in_the_rest(rt: HostRuntime) -> Result<(), Fail> {
    let alloc = rt.alloc();
    let bytes = sample(alloc)?;
    let file = TypedFile::new(alloc, &bytes)?;
    let price = file.column("price").ok_or("no column")?;
    let number = Number::Decimal64(Decimal64 {
        scale: 2,
        value: 52181,
    });
    assert_eq!(rt; price.value(0), Some(StoredValue::Number(number)));
    assert_eq!(rt; price.value(1), None);
    let rest = file.rest(1).ok_or("no rest")?.to_string(alloc)?;
    let text = r#"{"city":7,"ok":null,"price":521,"zeta":{"a":1}}"#;
    assert_eq!(rt; rest.as_str(), text);
    let first = file.rest(0).ok_or("no rest")?.to_string(alloc)?;
    assert_eq!(rt; first.as_str(), r#"{"tags":[1,2]}"#);
    Ok(())
}

// A row of a value of each type that JSON has no syntax for.
fn extension_row(alloc: Global) -> Result<OwnedJsonb, Fail> {
    let mut row = BTreeMap::new(alloc);
    row.insert(String::from_str(alloc, "bytes")?, Value::Binary(b"\xff\0"))?;
    row.insert(String::from_str(alloc, "day")?, Value::Date(DAY))?;
    row.insert(String::from_str(alloc, "span")?, Value::Interval(SPAN))?;
    row.insert(String::from_str(alloc, "time")?, Value::Timestamp(TIME))?;
    row.insert(String::from_str(alloc, "zoned")?, Value::TimestampTz(ZONED))?;
    let mut document = Vec::new(alloc);
    Encoder::new(&mut document).encode(&Value::Object(row))?;
    Ok(OwnedJsonb::new(document))
}

#[test]
fn keeps_extension_values(rt: HostRuntime) -> Result<(), Fail> {
    let alloc = rt.alloc();
    let first = extension_row(alloc)?;
    let second = OwnedJsonb::parse(alloc, r#"{"bytes":"x","day":null,"span":1}"#)?;
    let rows = [
        first.as_document().ok_or("no document")?,
        second.as_document().ok_or("no document")?,
    ];
    let bytes = write_file(alloc, &rows, EXTENSION_PLANS)?;
    let file = TypedFile::new(alloc, &bytes)?;
    let numbers: &[(&str, &[u8])] = &[
        (
            "bytes",
            b"\0\0\0\0\0\0\0\0\0\0\0\0\0\0\0\x02\0\0\0\0\0\0\0\x02",
        ),
        ("day", b"\xff\xff\xff\xfe\0\0\0\0"),
        (
            "span",
            b"\0\0\0\x01\xff\xff\xff\xff\0\0\0\0\0\0\x01\0\0\0\0\0\0\0\0\0\0\0\0\0\0\0\0\0",
        ),
        ("time", b"\0\0\0\0\0\0\0\x07\0\0\0\0\0\0\0\0"),
        (
            "zoned",
            b"\xff\xff\xff\xff\xff\xff\xff\xff\0\0\x0e\x10\0\0\0\0\0\0\0\0\0\0\0\0",
        ),
    ];
    for (name, stored) in numbers {
        let column = file.column(name).ok_or("no column")?;
        assert_eq!(rt; column.numbers(), *stored);
        assert_eq!(rt; column.flags(), b"\x01".as_slice());
    }
    let day = file.column("day").ok_or("no column")?.value(0);
    assert_eq!(rt;
        day,
        Some(StoredValue::Extension(ExtensionValue::Date(DAY)))
    );
    for (index, row) in rows.iter().enumerate() {
        let again = file.row(alloc, index).ok_or("no row")??;
        assert_eq!(rt; again.as_bytes(), row.as_bytes());
    }
    Ok(())
}

#[test]
fn refuses_names_that_repeat(rt: HostRuntime) -> Result<(), Fail> {
    let alloc = rt.alloc();
    let plans = [PLANS[0], PLANS[0]];
    assert_eq!(rt;
        write_file(alloc, &[], &plans).err(),
        Some(WriteError::NamesNotAscending)
    );
    let empty = write_file(alloc, &[], &[])?;
    assert_eq!(rt; TypedFile::new(alloc, &empty)?.len(), 0);
    Ok(())
}
