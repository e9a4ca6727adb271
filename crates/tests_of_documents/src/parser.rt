// Texts with line feeds, and what a parsed value borrows from its text.
use crate::documents::bytes_of;
use jsonb::{Error, Number, OwnedJsonb, Value, parse_value, parse_value_with_exponents};
use std::borrow::CowStr;
use std::test::Fail;

// Texts, and the documents that they are parsed into.
const TEXTS: &[(&str, &str)] = &[
    (" \t\n\rfalse\r\n\t ", "20000000 30000000"),
    ("{ \n}", "40000000"),
    (
        " [ null\t,\n[ true ]\r] ",
        "80000002 00000000 50000008 80000001 40000000",
    ),
];

#[test]
fn line_feeds_are_white_space(rt: HostRuntime) -> Result<(), Fail> {
    for &(text, document) in TEXTS {
        let bytes = bytes_of(rt.alloc(), document)?;
        let owned = OwnedJsonb::parse(rt.alloc(), text)?;
        assert!(rt; owned.as_bytes() == bytes.as_slice(), "{text}");
    }
    Ok(())
}

#[test]
fn no_string_has_a_line_feed(rt: HostRuntime) -> Result<(), Fail> {
    let refusal = parse_value(rt.alloc(), "\"\n\"").err();
    if refusal == Some(Error::OutOfMemory) {
        Err(Error::OutOfMemory)?;
    }
    assert!(rt; refusal == Some(Error::InvalidJson));
    Ok(())
}

// Texts, and the `Debug` output of the values that they mean.
const DEBUG_TEXTS: &[(&str, &str)] = &[
    (" [null,[ true ]] ", "Array([Null, Array([Bool(true)])])"),
    ("{\"a\":1,\"a\":2}", "Object({\"a\": Number(UInt64(2))})"),
    (
        "{ \"a\" : { \"\\u0062\" : \"c\" } }",
        "Object({\"a\": Object({\"b\": String(\"c\")})})",
    ),
];

#[test]
fn values_are_shown_by_their_variants(rt: HostRuntime) -> Result<(), Fail> {
    for &(text, debug_text) in DEBUG_TEXTS {
        let value = parse_value(rt.alloc(), text)?;
        assert!(rt;
            format!(in rt.alloc(); "{value:?}")?.as_str() == debug_text,
            "{text}"
        );
    }
    Ok(())
}

#[test]
fn zeros_are_unsigned(rt: HostRuntime) -> Result<(), Fail> {
    let zero = parse_value(rt.alloc(), "-0")?;
    assert!(rt; matches!(zero, Value::Number(Number::UInt64(0))));
    Ok(())
}

// Numbers with an exponent, and the `Debug` output of the values that they mean.
const EXPONENTS: &[(&str, &str)] = &[
    ("1.0e5", "Number(UInt64(100000))"),
    ("-3E+2", "Number(Int64(-300))"),
    ("0e999999999", "Number(UInt64(0))"),
    (
        "1.50e1",
        "Number(Decimal64(Decimal64 { scale: 1, value: 150 }))",
    ),
    (
        "25e-1",
        "Number(Decimal64(Decimal64 { scale: 1, value: 25 }))",
    ),
    (
        "6.02e23",
        "Number(Decimal128(Decimal128 { scale: 0, value: 602000000000000000000000 }))",
    ),
];

#[test]
fn exponents_are_exact(rt: HostRuntime) -> Result<(), Fail> {
    for &(text, debug_text) in EXPONENTS {
        let value = parse_value_with_exponents(rt.alloc(), text)?;
        assert!(rt;
            format!(in rt.alloc(); "{value:?}")?.as_str() == debug_text,
            "{text}"
        );
    }
    Ok(())
}

// Their digits would fill the memory, if they were written out.
#[test]
fn great_exponents_are_refused(rt: HostRuntime) {
    for text in [
        "1e999999999",
        "1e-999999999",
        "1e99999999999999999999999999999999999999999",
    ] {
        let read = parse_value_with_exponents(rt.alloc(), text);
        assert!(rt; matches!(read, Err(Error::InvalidJson)), "{text}");
    }
}

#[test]
fn only_strings_with_escapes_are_copied(rt: HostRuntime) -> Result<(), Fail> {
    let plain = parse_value(rt.alloc(), " \"caf\u{e9}\" ")?;
    assert!(rt; matches!(plain, Value::String(CowStr::Borrowed("caf\u{e9}"))));
    let escaped = parse_value(rt.alloc(), "\"caf\\u00e9\"")?;
    assert!(rt; matches!(escaped, Value::String(CowStr::Owned(_))));
    Ok(())
}
