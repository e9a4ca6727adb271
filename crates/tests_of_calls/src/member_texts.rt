//! What is found in texts, each once.

use jsonb_value::{Error, Exponents, Value};
use std::alloc::{AllocError, Global};
use std::test::Fail;
use text_lookup::{TextMember, member_of_text};

// What a look-up found, in words.
fn words_of(alloc: Global, found: &TextMember<'_>) -> Result<String, AllocError> {
    match found {
        TextMember::Scalar(Value::Null) => String::from_str(alloc, "null"),
        TextMember::Scalar(Value::Bool(true)) => String::from_str(alloc, "true"),
        TextMember::Scalar(Value::Bool(false)) => String::from_str(alloc, "false"),
        TextMember::Scalar(Value::String(text)) => String::from_str(alloc, text.as_str()),
        TextMember::Scalar(_) => String::from_str(alloc, "number"),
        TextMember::Missing => String::from_str(alloc, "missing"),
        TextMember::Unread => String::from_str(alloc, "unread"),
    }
}

// What is found at the key `k` of a text, in words.
fn found_in(alloc: Global, text: &str) -> Result<String, Error> {
    let found = member_of_text(alloc, text, "k", Exponents::Allowed, 3)?;
    Ok(words_of(alloc, &found)?)
}

#[test]
fn each_kind(rt: HostRuntime) -> Result<(), Fail> {
    let alloc = rt.alloc();
    for (text, expected) in [
        ("{\"k\": null}", "null"),
        ("{\"a\": [{\"k\": 1}], \"k\" : true }", "true"),
        ("{\"k\": 1.5e1}", "number"),
        ("{\"k\": \"b\"}", "b"),
        ("{\"\\u006b\": \"a\\nb\"}", "a\nb"),
        ("{\"k\": 1, \"k\": \"2\"}", "2"),
        ("{\"k\": [1], \"k\": false}", "false"),
        ("{\"k\": 1, \"k\": {}}", "unread"),
        ("{\"kk\": 1, \"a\": {\"k\": 2}}", "missing"),
        ("{}", "missing"),
        ("[{\"k\": 1}]", "unread"),
        ("\"k\"", "unread"),
    ] {
        assert_eq!(rt; found_in(alloc, text)?.as_str(), expected, "{text}");
    }
    Ok(())
}

#[test]
fn no_json(rt: HostRuntime) -> Result<(), Fail> {
    let alloc = rt.alloc();
    for text in [
        "{\"k\": 1",
        "{\"k\": 1} 2",
        "{\"k\": 01}",
        "{\"k\": 1, \"a\": [[[]]]}",
    ] {
        match found_in(alloc, text) {
            Err(Error::InvalidJson) => {}
            Err(error) => Err(error)?,
            Ok(_) => assert!(rt; false, "{text}"),
        }
    }
    Ok(())
}
