// Encodings at the limits of the format, several in one buffer, and of lists of pairs.
use jsonb::{Encoder, Error, JsonAst, JsonAstEncoder, Value, parse_value};
use std::alloc::{AllocError, Global};
use std::borrow::CowStr;
use std::str;
use std::test::Fail;

const MEBIBYTES_16: usize = 16_777_216;

// An array that borrows one text `count` times.
fn borrowings<'a>(alloc: Global, text: &'a str, count: usize) -> Result<Value<'a>, Error> {
    let mut items = Vec::new(alloc);
    for _ in 0..count {
        items.push(Value::String(CowStr::Borrowed(text)))?;
    }
    Ok(Value::Array(items))
}

// The length of the document of the first `count` bytes as binary data.
fn binary_length(bytes: &[u8], count: usize) -> Option<Result<usize, Error>> {
    let binary = Value::Binary(bytes.get(..count)?);
    Some(Encoder::measure(&binary))
}

#[test]
fn limit_of_binary_data(rt: HostRuntime) -> Result<(), Fail> {
    let letters = vec![in rt.alloc(); b'a'; 268_435_455]?;
    // The tag of a binary value leaves room for one byte less than a payload can have.
    let refusal = Some(Err(Error::InvalidJsonb));
    assert!(rt; binary_length(&letters, 268_435_455) == refusal);
    assert!(rt; binary_length(&letters, 268_435_454) == Some(Ok(268_435_463)));
    Ok(())
}

#[test]
fn limit_of_an_outer_array(rt: HostRuntime) -> Result<(), Fail> {
    let letters = vec![in rt.alloc(); b'a'; MEBIBYTES_16]?;
    let text = str::from_utf8(&letters)?;
    let top = borrowings(rt.alloc(), text, 16)?;
    let mut buf = Vec::new(rt.alloc());
    Encoder::new(&mut buf).encode(&top)?;
    assert_eq!(rt; Encoder::measure(&top), Ok(268_435_524));
    assert_eq!(rt; buf.len(), 268_435_524);
    Ok(())
}

// An array with an array that borrows one text `count` times.
fn nested<'a>(alloc: Global, text: &'a str, count: usize) -> Result<Value<'a>, Error> {
    let inner = borrowings(alloc, text, count)?;
    Ok(Value::Array(vec![in alloc; inner]?))
}

#[test]
fn limit_of_an_inner_array(rt: HostRuntime) -> Result<(), Fail> {
    let letters = vec![in rt.alloc(); b'a'; MEBIBYTES_16]?;
    let text = str::from_utf8(&letters)?;
    let within = nested(rt.alloc(), text, 15)?;
    assert_eq!(rt; Encoder::measure(&within), Ok(251_658_312));
    let past = nested(rt.alloc(), text, 16)?;
    assert_eq!(rt; Encoder::measure(&past), Err(Error::InvalidJsonb));
    let mut buf = vec![in rt.alloc(); 0xaa]?;
    assert_eq!(rt;
        Encoder::new(&mut buf).encode(&past),
        Err(Error::InvalidJsonb)
    );
    assert!(rt; buf.as_slice() == b"\xaa".as_slice());
    Ok(())
}

// A byte that was in the buffer, followed by null and true.
const NULL_AND_TRUE: &[u8] = b"\xaa\x20\0\0\0\0\0\0\0\x20\0\0\0\x40\0\0\0";

#[test]
fn one_after_another(rt: HostRuntime) -> Result<(), Fail> {
    let mut buf = vec![in rt.alloc(); 0xaa]?;
    let mut encoder = Encoder::new(&mut buf);
    encoder.encode(&Value::Null)?;
    encoder.encode(&Value::Bool(true))?;
    assert!(rt; buf.as_slice() == NULL_AND_TRUE);
    Ok(())
}

// An object of two pairs whose values are null and true.
fn pairs_of<'a>(alloc: Global, first: &'a str, second: &'a str) -> Result<JsonAst<'a>, AllocError> {
    let pairs = [
        (CowStr::Borrowed(first), JsonAst::Null, 7),
        (CowStr::Borrowed(second), JsonAst::Bool(true), 3),
    ];
    Ok(JsonAst::Object(Vec::from_array(alloc, pairs)?))
}

// Whether the keys of the object of two pairs ascend, and those of an array that holds it.
fn ascending(alloc: Global, first: &str, second: &str) -> Result<(bool, bool), AllocError> {
    let value = pairs_of(alloc, first, second)?;
    let alone = value.has_ascending_keys();
    let outer = JsonAst::Array(vec![in alloc; value]?);
    Ok((alone, outer.has_ascending_keys()))
}

#[test]
fn keys_ascend_strictly(rt: HostRuntime) -> Result<(), Fail> {
    assert!(rt; ascending(rt.alloc(), "a", "b")? == (true, true));
    assert!(rt; ascending(rt.alloc(), "b", "a")? == (false, false));
    assert!(rt; ascending(rt.alloc(), "a", "a")? == (false, false));
    Ok(())
}

// The object {"a":null,"b":true}.
const TWO_PAIRS: &[u8] = b"\x40\0\0\x02\x10\0\0\x01\x10\0\0\x01\0\0\0\0\x40\0\0\0ab";

#[test]
fn pairs_in_lists(rt: HostRuntime) -> Result<(), Fail> {
    let value = pairs_of(rt.alloc(), "a", "b")?;
    assert!(rt; value.has_ascending_keys());
    assert!(rt; JsonAstEncoder::measure(&value) == Ok(22));
    let mut buf = Vec::new(rt.alloc());
    JsonAstEncoder::new(&mut buf).encode(&value)?;
    assert!(rt; buf.as_slice() == TWO_PAIRS);
    Ok(())
}

#[test]
fn a_small_tree_is_measured(rt: HostRuntime) -> Result<(), Fail> {
    let value = parse_value(rt.alloc(), "[false,10,{\"k\":\"v\"}]")?;
    assert!(rt; Encoder::measure(&value) == Ok(32));
    Ok(())
}
