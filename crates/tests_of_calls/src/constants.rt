// The constants of the format, and making entries.
use jsonb_codec::{JEntry, constants};
use std::process::Abort;
use std::test::Fail;

// Tags and masks of words.
const WORDS: &[(u32, u32)] = &[
    (constants::ARRAY_CONTAINER_TAG, 0x80000000),
    (constants::OBJECT_CONTAINER_TAG, 0x40000000),
    (constants::SCALAR_CONTAINER_TAG, 0x20000000),
    (constants::CONTAINER_HEADER_TYPE_MASK, 0xE0000000),
    (constants::CONTAINER_HEADER_LEN_MASK, 0x1FFFFFFF),
    (constants::NULL_TAG, 0x00000000),
    (constants::STRING_TAG, 0x10000000),
    (constants::NUMBER_TAG, 0x20000000),
    (constants::FALSE_TAG, 0x30000000),
    (constants::TRUE_TAG, 0x40000000),
    (constants::CONTAINER_TAG, 0x50000000),
    (constants::EXTENSION_TAG, 0x60000000),
    (constants::JENTRY_IS_OFF_FLAG, 0x80000000),
    (constants::JENTRY_TYPE_MASK, 0x70000000),
    (constants::JENTRY_OFF_LEN_MASK, 0x0FFFFFFF),
];

// First bytes of payloads.
const FIRST_BYTES: &[(u8, u8)] = &[
    (constants::NUMBER_ZERO, 0x00),
    (constants::NUMBER_NAN, 0x10),
    (constants::NUMBER_INF, 0x20),
    (constants::NUMBER_NEG_INF, 0x30),
    (constants::NUMBER_INT, 0x40),
    (constants::NUMBER_UINT, 0x50),
    (constants::NUMBER_FLOAT, 0x60),
    (constants::NUMBER_DECIMAL, 0x70),
    (constants::EXTENSION_BINARY, 0x00),
    (constants::EXTENSION_DATE, 0x10),
    (constants::EXTENSION_TIMESTAMP, 0x20),
    (constants::EXTENSION_TIMESTAMP_TZ, 0x30),
    (constants::EXTENSION_INTERVAL, 0x40),
];

#[test]
fn constants_are_those_of_the_format(rt: HostRuntime) -> Result<(), Fail> {
    for &(constant, value) in WORDS {
        assert_eq!(rt; constant, value);
    }
    for &(constant, value) in FIRST_BYTES {
        assert_eq!(rt; constant, value);
    }
    Ok(())
}

// Asserts that the entry is encoded as this word, and decoded from it.
fn assert_entry(rt: &impl Abort, made: JEntry, word: u32) {
    assert_eq!(rt; made.encoded(), word);
    assert!(rt; JEntry::decode_jentry(word) == made);
}

#[test]
fn entries_as_they_are_made(rt: HostRuntime) -> Result<(), Fail> {
    assert_entry(&rt, JEntry::make_null_jentry(), 0x00000000);
    assert_entry(&rt, JEntry::make_string_jentry(5), 0x10000005);
    assert_entry(&rt, JEntry::make_number_jentry(2), 0x20000002);
    assert_entry(&rt, JEntry::make_false_jentry(), 0x30000000);
    assert_entry(&rt, JEntry::make_true_jentry(), 0x40000000);
    assert_entry(&rt, JEntry::make_container_jentry(22), 0x50000016);
    assert_entry(&rt, JEntry::make_extension_jentry(4), 0x60000004);
    Ok(())
}
