// The depth of documents of some lengths, and the depth to which they are examined.
use crate::documents::{decode_again, nested, read_as_tree};
use jsonb::layer::is_text_within;
use jsonb::{Error, OwnedJsonb, ParseError, RawJsonb, Value, parse_value_within};
use jsonb_codec::{is_document, is_document_within, nests_deeper};
use std::alloc::Global;
use std::test::Fail;

// Whether both readers read the bytes as a value that is encoded as them.
fn is_read(alloc: Global, bytes: &[u8]) -> Result<bool, Error> {
    let is_tree = read_as_tree(alloc, bytes)?.as_slice() == bytes;
    Ok(is_tree && decode_again(alloc, bytes)?.as_slice() == bytes)
}

#[test]
fn arrays_nest_as_deep_as_bytes_allow(rt: HostRuntime) -> Result<(), Fail> {
    let bytes = nested(rt.alloc(), 512)?;
    assert!(rt; bytes.len() == 4092);
    assert!(rt; bytes.get(4..8) == Some([0x50, 0, 0x0f, 0xf4].as_slice()));
    assert!(rt; is_document(&bytes) && is_document_within(&bytes, 512));
    assert!(rt; !is_document_within(&bytes, 511));
    assert!(rt; nests_deeper(&bytes, 511) && !nests_deeper(&bytes, 512));
    assert!(rt; is_read(rt.alloc(), &bytes)?);
    Ok(())
}

// Checking these arrays down to the innermost would need more than the ordinary stack.
#[test]
fn the_outer_levels_decide_a_depth(rt: HostRuntime) -> Result<(), Fail> {
    let bytes = nested(rt.alloc(), 300_000)?;
    assert!(rt; !is_document_within(&bytes, 10));
    assert!(rt; nests_deeper(&bytes, 10));
    Ok(())
}

#[test]
fn deep_arrays_are_shown(rt: HostRuntime) -> Result<(), Fail> {
    let bytes = nested(rt.alloc(), 512)?;
    let text = RawJsonb::new(&bytes).to_string(rt.alloc())?;
    assert!(rt; text == format!(in rt.alloc(); "{:[<512}{:]<512}", "", "")?);
    Ok(())
}

// A text, and the bytes of its document, that nest two deep.
#[test]
fn texts_are_read_within_a_depth(rt: HostRuntime) -> Result<(), Fail> {
    let text = "[{\"[[\":1}]";
    let owned = OwnedJsonb::parse_within(rt.alloc(), text, 2)?;
    assert!(rt; owned.as_document_within(2).is_some() && owned.as_document_within(1).is_none());
    assert!(rt; owned.as_raw().as_document_within(2).is_some());
    let value = parse_value_within(rt.alloc(), text, 2)?;
    assert!(rt; matches!(value, Value::Array(_)));
    let refused = OwnedJsonb::parse_within(rt.alloc(), text, 1);
    assert!(rt; matches!(refused, Err(ParseError::TooDeep)));
    assert!(rt;
        matches!(
            parse_value_within(rt.alloc(), "]", 1),
            Err(ParseError::Refused(Error::InvalidJson))
        )
    );
    assert!(rt; is_text_within(b"[[", 2) && !is_text_within(b"[[", 1));
    Ok(())
}

// The pretty text of so many arrays inside one another, the innermost empty.
fn lines_of_nested(alloc: Global, levels: usize) -> Result<String, Fail> {
    let mut text = String::new(alloc);
    for level in 1..levels {
        text.push_str(&format!(in alloc; "[\n{:width$}", "", width = level.saturating_mul(2))?)?;
    }
    text.push_str("[]")?;
    for level in 1..levels {
        let indent = levels
            .saturating_sub(level)
            .saturating_sub(1)
            .saturating_mul(2);
        text.push_str(&format!(in alloc; "\n{:indent$}]", "", indent = indent)?)?;
    }
    Ok(text)
}

#[test]
fn deep_arrays_are_printed_on_lines(rt: HostRuntime) -> Result<(), Fail> {
    let bytes = nested(rt.alloc(), 512)?;
    let text = RawJsonb::new(&bytes).to_pretty_string(rt.alloc())?;
    assert!(rt; text == lines_of_nested(rt.alloc(), 512)?);
    Ok(())
}
