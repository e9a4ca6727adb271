// A decoder that is called again, pairs by their keys, and the values of older payloads.
use jsonb_codec::{Decoder, value_of};
use jsonb_value::{Decimal128, Error, Number, TimestampTz, Value};
use std::alloc::Global;
use std::borrow::CowStr;
use std::test::Fail;

// The errors of a decoder that is called twice.
fn asked_twice(alloc: Global, bytes: &[u8]) -> (Option<Error>, Option<Error>) {
    let mut decoder = Decoder::new(bytes);
    (decoder.decode(alloc).err(), decoder.decode(alloc).err())
}

#[test]
fn a_decoder_is_asked_again(rt: HostRuntime) {
    let answers = asked_twice(rt.alloc(), b"\x80\0\0\x01\x40\0\0\0");
    assert!(rt; answers == (None, Some(Error::InvalidJsonb)));
    let header = Some(Error::InvalidJsonbHeader);
    let answers = asked_twice(rt.alloc(), b"\x80\0\0\x01\x50\0\0\x04\x20\0\0\0");
    assert!(rt; answers == (header, header));
}

// The object {"a":1,"b":"123"}.
const OBJECT: &[u8] = b"\x40\0\0\x02\x10\0\0\x01\x10\0\0\x01\x20\0\0\x02\x10\0\0\x03ab\x50\x01123";

#[test]
fn pairs_are_read_by_their_keys(rt: HostRuntime) -> Result<(), Fail> {
    let Value::Object(pairs) = value_of(rt.alloc(), OBJECT)? else {
        return Ok(assert!(rt; false));
    };
    assert_eq!(rt; pairs.len(), 2);
    assert!(rt; matches!(pairs.get("a"), Some(Value::Number(Number::UInt64(1)))));
    assert!(rt; matches!(pairs.get("b"), Some(Value::String(CowStr::Borrowed("123")))));
    Ok(())
}

// Both zeros and a decimal in its older form, and the numbers that they mean.
const NUMBERS: &[(&[u8], Number)] = &[
    (b"\x20\0\0\0\x20\0\0\x02\x40\0", Number::Int64(0)),
    (b"\x20\0\0\0\x20\0\0\x01\0", Number::UInt64(0)),
    (
        b"\x20\0\0\0\x20\0\0\x13\x70\0\0\0\0\0\0\0\0\0\0\0\0\0\0\x04\xd2\x26\x02",
        Number::Decimal128(Decimal128 {
            scale: 2,
            value: 1234,
        }),
    ),
];

#[test]
fn old_numbers_keep_their_kind(rt: HostRuntime) -> Result<(), Fail> {
    for &(bytes, number) in NUMBERS {
        let value = value_of(rt.alloc(), bytes)?;
        assert!(rt; matches!(value, Value::Number(read) if read == number));
    }
    Ok(())
}

// A timestamp in its older form, with an offset of eight hours.
const TIME: &[u8] = b"\x20\0\0\0\x60\0\0\x0a\x30\x00\x06\x40\xd6\xb7\x23\x80\x00\x08";

#[test]
fn old_times_keep_their_offset(rt: HostRuntime) -> Result<(), Fail> {
    let time = TimestampTz {
        offset: 28800,
        value: 1760140800000000,
    };
    let value = value_of(rt.alloc(), TIME)?;
    assert!(rt; matches!(value, Value::TimestampTz(read) if read == time));
    Ok(())
}
