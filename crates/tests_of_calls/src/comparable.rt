// Worked keys, which were computed by another program from the layout alone, and each call once.
use jsonb::{Document, Error, OwnedJsonb, SortKey};
use jsonb_comparable::{ComparableKey, append_key};
use std::alloc::Global;
use std::test::Fail;

// Texts with their keys; those of one key are equal.
const ROWS: &[(&str, &[u8])] = &[
    ("false", &[0x20]),
    ("true", &[0x21]),
    ("-10000", &[0x7B, 0xFD]),
    ("-1.5", &[0x7D, 0xFC, 0x9B]),
    ("-1", &[0x7D, 0xFD]),
    ("-0.001", &[0x7E, 0x80, 0xEB]),
    ("0", &[0x80]),
    ("0.00", &[0x80]),
    ("0.005", &[0x81, 0x7F, 0x64]),
    ("0.5", &[0x81, 0x80, 0x64]),
    ("1", &[0x82, 0x02]),
    ("1.0", &[0x82, 0x02]),
    ("7", &[0x82, 0x0E]),
    ("100", &[0x83, 0x02]),
    ("12345", &[0x84, 0x03, 0x2F, 0x5A]),
    (
        "170141183460469231731687303715884105727",
        &[
            0x95, 0x03, 0x8D, 0x1D, 0x17, 0xA7, 0x5D, 0x09, 0x8B, 0x2F, 0x23, 0x3F, 0x89, 0x93,
            0x07, 0x8F, 0x75, 0xA9, 0x15, 0x73, 0x36,
        ],
    ),
    ("\"\"", &[0xA0, 0x01]),
    ("\"\\u0000\"", &[0xA0, 0x02, 0x01, 0x01]),
    ("\"a\"", &[0xA0, 0x61, 0x01]),
    ("\"a\\u0000b\"", &[0xA0, 0x61, 0x02, 0x01, 0x62, 0x01]),
    ("\"abc\"", &[0xA0, 0x61, 0x62, 0x63, 0x01]),
    ("{}", &[0xB0, 0x00]),
    ("{\"\":1}", &[0xB0, 0x01, 0x82, 0x02, 0x00]),
    (
        "{\"id\":3,\"town\":\"Oslo\"}",
        &[
            0xB0, 0x69, 0x64, 0x01, 0x82, 0x06, 0x74, 0x6F, 0x77, 0x6E, 0x01, 0xA0, 0x4F, 0x73,
            0x6C, 0x6F, 0x01, 0x00,
        ],
    ),
    ("[]", &[0xC0, 0x00]),
    ("[0]", &[0xC0, 0x80, 0x00]),
    ("[[],1]", &[0xC0, 0xC0, 0x00, 0x82, 0x02, 0x00]),
    ("null", &[0xD0]),
];

// The key of a JSON text.
fn key_of_text(alloc: Global, text: &str) -> Result<ComparableKey, Error> {
    let owned = OwnedJsonb::parse(alloc, text)?;
    ComparableKey::new(alloc, SortKey::new(owned.as_bytes()))
}

#[test]
fn worked_keys(rt: HostRuntime) -> Result<(), Fail> {
    for &(text, key) in ROWS {
        let made = key_of_text(rt.alloc(), text)?;
        assert!(rt; made.as_bytes() == key, "{text}");
    }
    Ok(())
}

// Stored bytes with their keys: a date of -1, and bytes that are not a document.
const STORED: &[(&[u8], &[u8])] = &[
    (
        &[0x20, 0, 0, 0, 0x60, 0, 0, 5, 0x10, 0xFF, 0xFF, 0xFF, 0xFF],
        &[0x11, 0x7F, 0xFF, 0xFF, 0xFF],
    ),
    (&[], &[0xFF, 1]),
    (&[0x9F, 0, 2], &[0xFF, 0x9F, 2, 1, 2, 3, 1]),
];

#[test]
fn stored_keys(rt: HostRuntime) -> Result<(), Fail> {
    for &(bytes, key) in STORED {
        let made = ComparableKey::new(rt.alloc(), SortKey::new(bytes))?;
        assert!(rt; made.as_bytes() == key, "{}", bytes.len());
    }
    Ok(())
}

// The array of an empty array, its key, and its key if it counts as other bytes.
pub const NESTED: &[u8] = b"\x80\0\0\x01\x50\0\0\x04\x80\0\0\0";

pub const KEY: &[u8] = b"\xC0\xC0\0\0";

const TWICE: &[u8] = b"\xC0\xC0\0\0\xC0\xC0\0\0";

pub const BYTES_KEY: &[u8] = b"\xFF\x80\x02\x01\x02\x01\x02\x02\x50\x02\x01\x02\x01\x04\x80\x02\x01\
    \x02\x01\x02\x01\x01";

#[test]
fn keys_that_own_their_bytes(rt: HostRuntime) -> Result<(), Fail> {
    let alloc = rt.alloc();
    let deep = ComparableKey::new(alloc, SortKey::within(NESTED, 1))?;
    assert!(rt; deep.as_bytes() == BYTES_KEY);
    let key = ComparableKey::new(alloc, SortKey::within(NESTED, 2))?;
    assert!(rt; key.as_bytes() == KEY);
    assert!(rt; key < deep);
    if let Some(document) = Document::new(NESTED) {
        let of_document = ComparableKey::new(alloc, SortKey::Document(document))?;
        assert!(rt; of_document == key);
        assert!(rt; of_document.into_bytes().as_slice() == KEY);
    }
    Ok(())
}

#[test]
fn a_key_of_bytes_after_another(rt: HostRuntime) -> Result<(), Fail> {
    let mut buffer = Vec::from_slice(rt.alloc(), KEY)?;
    let done = append_key(SortKey::new(NESTED), &mut buffer);
    if done.is_err() {
        assert!(rt; buffer.as_slice() == KEY);
    }
    done?;
    assert!(rt; buffer.as_slice() == TWICE);
    Ok(())
}

#[test]
fn a_key_of_a_document_after_another(rt: HostRuntime) -> Result<(), Fail> {
    let mut buffer = Vec::from_slice(rt.alloc(), KEY)?;
    let Some(document) = Document::new(NESTED) else {
        return Ok(());
    };
    let done = append_key(SortKey::Document(document), &mut buffer);
    if done.is_err() {
        assert!(rt; buffer.as_slice() == KEY);
    }
    done?;
    assert!(rt; buffer.as_slice() == TWICE);
    Ok(())
}

#[test]
fn a_key_within_a_depth(rt: HostRuntime) -> Result<(), Fail> {
    let mut buffer = Vec::new(rt.alloc());
    let done = append_key(SortKey::within(NESTED, 1), &mut buffer);
    if done.is_err() {
        assert!(rt; buffer.is_empty());
    }
    done?;
    assert!(rt; buffer.as_slice() == BYTES_KEY);
    Ok(())
}
