// Readers of texts that take exponents within a depth, or make no value.
use jsonb::{
    Error, Exponents, Number, OwnedJsonb, ParseError, Sink, Value, encode_text, is_json,
    parse_value_with_exponents_within, read_text,
};
use std::test::Fail;

// A text, and its document.
const TEXT: &str = "{\"a\":[1e2,true],\"b\":null}";

const DOCUMENT: &[u8] = b"\x40\0\0\x02\x10\0\0\x01\x10\0\0\x01\x50\0\0\x0e\0\0\0\0ab\
    \x80\0\0\x02\x20\0\0\x02\x40\0\0\0\x50\x64";

#[test]
fn exponents_are_encoded_where_they_are_allowed(rt: HostRuntime) -> Result<(), Fail> {
    let document = encode_text(rt.alloc(), TEXT, Exponents::Allowed)?;
    assert!(rt; document.as_slice() == DOCUMENT);
    let refused = encode_text(rt.alloc(), TEXT, Exponents::Forbidden);
    assert!(rt; matches!(refused, Err(Error::InvalidJson | Error::OutOfMemory)));
    assert!(rt; is_json(rt.alloc(), TEXT, Exponents::Allowed)?);
    assert!(rt; !is_json(rt.alloc(), TEXT, Exponents::Forbidden)?);
    Ok(())
}

#[test]
fn exponents_are_read_within_a_depth(rt: HostRuntime) -> Result<(), Fail> {
    let owned = OwnedJsonb::parse_with_exponents_within(rt.alloc(), TEXT, 2)?;
    assert!(rt; owned.as_bytes() == DOCUMENT);
    let deep = OwnedJsonb::parse_with_exponents_within(rt.alloc(), TEXT, 1);
    assert!(rt; matches!(deep, Err(ParseError::TooDeep)));
    let value = parse_value_with_exponents_within(rt.alloc(), TEXT, 2)?;
    assert!(rt; matches!(value, Value::Object(_)));
    let deep = parse_value_with_exponents_within(rt.alloc(), TEXT, 1);
    assert!(rt; matches!(deep, Err(ParseError::TooDeep)));
    Ok(())
}

// Which calls of a sink came, one bit for each.
#[derive(Clone, Copy)]
struct Calls(u32);

impl<'a> Sink<'a> for Calls {
    ghost use Rattle.std.specs.Prelude.{⊤};

    ghost is = { λ sink state. ⊤ };

    fn null(&mut self) -> Result<(), Error> {
        self.0 |= 1;
        Ok(())
    }

    fn truth(&mut self, _truth: bool) -> Result<(), Error> {
        self.0 |= 2;
        Ok(())
    }

    fn number(&mut self, _value: Number) -> Result<(), Error> {
        self.0 |= 4;
        Ok(())
    }

    fn string(&mut self, _content: &'a str) -> Result<(), Error> {
        self.0 |= 8;
        Ok(())
    }

    fn spelled(&mut self, _content: &str) -> Result<(), Error> {
        self.0 |= 512;
        Ok(())
    }

    fn key(&mut self, _content: &'a str) -> Result<(), Error> {
        self.0 |= 16;
        Ok(())
    }

    fn spelled_key(&mut self, _content: &str) -> Result<(), Error> {
        self.0 |= 1024;
        Ok(())
    }

    fn begin_array(&mut self) -> Result<(), Error> {
        self.0 |= 32;
        Ok(())
    }

    fn end_array(&mut self) -> Result<(), Error> {
        self.0 |= 64;
        Ok(())
    }

    fn begin_object(&mut self) -> Result<(), Error> {
        self.0 |= 128;
        Ok(())
    }

    fn end_object(&mut self) -> Result<(), Error> {
        self.0 |= 256;
        Ok(())
    }
}

#[test]
fn a_sink_is_called_for_each_part(rt: HostRuntime) -> Result<(), Fail> {
    let mut calls = Calls(0);
    read_text(rt.alloc(), &mut calls, TEXT, Exponents::Allowed)?;
    assert!(rt; calls.0 == 511 - 8);
    read_text(rt.alloc(), &mut calls, "\"a\"", Exponents::Forbidden)?;
    assert!(rt; calls.0 == 511);
    read_text(
        rt.alloc(),
        &mut calls,
        "{\"\\n\":\"\\t\"}",
        Exponents::Forbidden,
    )?;
    assert!(rt; calls.0 == 2047);
    Ok(())
}
