//! Values that paths give, as PostgreSQL answered.

use jsonb::{Document, Exponents, encode_text};
use jsonb_path::Truth;
use jsonb_path::path::{Path, PathError};
use jsonb_path::token::ReadError;
use std::alloc::Global;
use std::process::Abort;
use std::test::Fail;

// Whether a path gives these values of a document, and this error after them.
fn gives(
    rt: &impl Abort,
    alloc: Global,
    document: &str,
    path: &str,
    expected: &str,
    error: Option<PathError>,
) -> Result<(), Fail> {
    let bytes = encode_text(alloc, document, Exponents::Allowed)?;
    let Some(value) = Document::new(&bytes) else {
        assert!(rt; false, "{document}");
        return Ok(());
    };
    let path = match Path::of_text(alloc, path) {
        Ok(path) => path,
        Err(ReadError::OutOfMemory) => Err(ReadError::OutOfMemory)?,
        Err(ReadError::Refused(_)) => {
            assert!(rt; false, "{path}");
            return Ok(());
        }
    };
    let outcome = path.query(alloc, value, &[])?;
    let mut written = String::new(alloc);
    for value in &outcome.values {
        written.push_str(&format!(in alloc; "{value} ")?)?;
    }
    assert_eq!(rt; written.as_str(), expected, "{path} of {document}");
    assert!(rt; outcome.error == error, "{path} of {document}");
    Ok(())
}

#[test]
fn examples(rt: HostRuntime) -> Result<(), Fail> {
    let alloc = rt.alloc();
    let rows = [
        ("{\"a\": 1}", "lax $.a", "1 ", None),
        (
            "{\"a\": 1}",
            "strict $.b",
            "",
            Some(PathError::MemberNotFound),
        ),
        (
            "[{\"a\": 1}, {\"b\": 2}, {\"a\": 3}]",
            "lax $.a",
            "1 3 ",
            None,
        ),
        (
            "[{\"a\": 1}, {\"b\": 2}, {\"a\": 3}]",
            "strict $.a",
            "",
            Some(PathError::MemberNotFound),
        ),
        ("[[{\"a\": 1}]]", "lax $.a", "", None),
        ("[[{\"a\": 1}]]", "lax $[*].a", "1 ", None),
        ("1", "lax $.a", "", None),
        ("{\"bb\": 1, \"c\": 2}", "lax $.*", "1 2 ", None),
        (
            "[{\"a\": 1}]",
            "strict $.*",
            "",
            Some(PathError::ObjectNotFound),
        ),
        ("[{\"a\": 1}]", "lax $.keyvalue().key", "\"a\" ", None),
        ("1", "lax $[0]", "1 ", None),
        ("1", "strict $[0]", "", Some(PathError::ArrayNotFound)),
        ("[1, 2, 3]", "lax $[last - 1 to 7]", "2 3 ", None),
        (
            "[1, 2, 3]",
            "strict $[1 to 3]",
            "",
            Some(PathError::InvalidSubscript),
        ),
        ("[1, 2, 3]", "lax $[2, 0, 0 to 1]", "3 1 1 2 ", None),
        ("[1, 2, 3]", "lax $[1.9, -0.9]", "2 1 ", None),
        (
            "[1, 2, 3]",
            "lax $[0 to 1, 5, -1 to 0, last, 2 to 9, 2 to 1]",
            "1 2 1 3 3 ",
            None,
        ),
        (
            "[1, 2, 3]",
            "strict $[0, 3, 1]",
            "1 ",
            Some(PathError::InvalidSubscript),
        ),
        ("7", "lax $[0, 0 to 2, 1]", "7 7 ", None),
        ("[1, 2, 3]", "lax $[-1]", "", None),
        (
            "[1, 2, 3]",
            "lax $[\"a\"]",
            "",
            Some(PathError::InvalidSubscript),
        ),
        (
            "[1, 2, 3]",
            "lax $[2147483648]",
            "",
            Some(PathError::InvalidSubscript),
        ),
        (
            "[1, 2, 3]",
            "strict $[2 to 1]",
            "",
            Some(PathError::InvalidSubscript),
        ),
        (
            "[]",
            "strict $[last]",
            "",
            Some(PathError::InvalidSubscript),
        ),
        ("[5, 1]", "lax $[$[1]]", "1 ", None),
        ("[0]", "lax $[$]", "", Some(PathError::InvalidSubscript)),
        (
            "{\"a\": [1, {\"b\": 2}]}",
            "lax $.**{2}",
            "1 {\"b\":2} ",
            None,
        ),
        ("{\"a\": [1, {\"b\": 2}]}", "lax $.**{last}", "1 2 ", None),
        ("1", "lax $.**{last}", "", None),
        ("{\"a\": [{\"b\": 2}]}", "lax $.**.b", "2 2 ", None),
        ("{\"a\": [{\"b\": 2}]}", "strict $.**.b", "2 ", None),
        ("[1, 2, 3]", "strict $ ? (@ > 1)", "", None),
        ("[[1, 5], [2]]", "lax $ ? (@ > 1)", "[1,5] [2] ", None),
        ("[[1, 5], [2]]", "lax $[*] ? (@ > 1)", "5 2 ", None),
        (
            "[1, \"a\", null, true, [1]]",
            "strict $[*] ? (@ != 1)",
            "null ",
            None,
        ),
        (
            "[1, \"a\", null, true, [1]]",
            "strict $[*] ? ((@ != 1) is unknown)",
            "\"a\" true [1] ",
            None,
        ),
        ("{\"a\": 1}", "strict $.a ? (!(@.b == 1))", "", None),
        ("{\"a\": 1}", "lax $.a ? (!(@.b == 1))", "1 ", None),
        (
            "{\"a\": \"x\"}",
            "lax $.a ? (@ > 1 || 1 == 1)",
            "\"x\" ",
            None,
        ),
        (
            "{\"a\": \"x\"}",
            "lax $.a ? ((@ + 1 > 1) is unknown)",
            "\"x\" ",
            None,
        ),
        ("[[1, 2]]", "lax $[*] ? (@.type() == \"array\")", "", None),
        (
            "{\"a\": [{\"b\": 1}, {\"b\": 2}]}",
            "lax $.a ? (@.b > 1).b",
            "2 ",
            None,
        ),
        (
            "[1, 2]",
            "lax $[*] ? (@ == $nosuch)",
            "",
            Some(PathError::UndefinedVariable),
        ),
        (
            "{\"a\": [{\"x\": [1, 3]}, {\"x\": 2}, {}]}",
            "lax $.a[*] ? (@.x > 2)",
            "{\"x\":[1,3]} ",
            None,
        ),
        (
            "{\"a\": [{\"x\": 2}, {\"x\": 1}], \"b\": {\"c\": 1}}",
            "lax $.a ? (@.x == $.b.c)",
            "{\"x\":1} ",
            None,
        ),
        (
            "[{\"x\": 1}, {}]",
            "strict $[*] ? (@.x != 2)",
            "{\"x\":1} ",
            None,
        ),
        ("{}", "lax $.b.c != 1", "false ", None),
        ("{}", "strict $.b.c != 1", "null ", None),
        ("[[1]]", "lax $[0] == 1", "true ", None),
        ("[[1]]", "strict $[0] == 1", "null ", None),
        ("[\"a\", 1]", "lax $ == 1", "true ", None),
        ("[\"a\", 1]", "strict $[*] == 1", "null ", None),
        ("[\"a\", 2]", "lax $ == 1", "null ", None),
        ("[]", "lax $ != 1", "false ", None),
        ("{}", "lax $.b == 1 + \"a\"", "null ", None),
        ("{\"a\": 1}", "strict exists ($.x) && 1 == 1", "null ", None),
        (
            "{\"a\": 1}",
            "strict exists ($.x) && 1 == 2",
            "false ",
            None,
        ),
        ("[1, \"a\"]", "lax exists ($[*].abs())", "true ", None),
        ("[\"a\", 1]", "lax exists ($[*].abs())", "null ", None),
        (
            "[\"abc\", \"b\", 1]",
            "strict $[*] starts with \"b\"",
            "null ",
            None,
        ),
        ("1", "lax ($ == \"a\").type()", "\"null\" ", None),
        ("{\"a\": {\"c\": 1}}", "lax $.a != null", "true ", None),
        (
            "[1, 2]",
            "lax $[*] + 1",
            "",
            Some(PathError::SingletonRequired),
        ),
        ("[1]", "lax $ + 1", "2 ", None),
        (
            "[1]",
            "strict $ + 1",
            "",
            Some(PathError::SingletonRequired),
        ),
        (
            "[1, \"a\"]",
            "lax -$",
            "-1 ",
            Some(PathError::NumberNotFound),
        ),
        ("[1.50, 2]", "lax $[0] * $[1]", "3.00 ", None),
        (
            "[1, \"a\"]",
            "lax $[*].abs()",
            "1 ",
            Some(PathError::NonNumericItem),
        ),
        ("[-1.50, 2.1]", "lax $.floor()", "-2 2 ", None),
        ("[[1, 2], 3]", "lax $[*].size()", "2 1 ", None),
        (
            "[[1, 2], 3]",
            "strict $[*].size()",
            "2 ",
            Some(PathError::ArrayNotFound),
        ),
    ];
    for (document, path, expected, error) in rows {
        gives(&rt, alloc, document, path, expected, error)?;
    }
    Ok(())
}

// Whether a path matches a document so, as its outcome says it too.
fn matches_as(
    rt: &impl Abort,
    alloc: Global,
    document: &str,
    text: &str,
    expected: Result<Truth, PathError>,
) -> Result<(), Fail> {
    let bytes = encode_text(alloc, document, Exponents::Allowed)?;
    let Some(value) = Document::new(&bytes) else {
        assert!(rt; false, "{document}");
        return Ok(());
    };
    let path = match Path::of_text(alloc, text) {
        Ok(path) => path,
        Err(ReadError::OutOfMemory) => Err(ReadError::OutOfMemory)?,
        Err(ReadError::Refused(_)) => {
            assert!(rt; false, "{text}");
            return Ok(());
        }
    };
    let answer = path.matches(alloc, value, &[])?;
    assert!(rt; answer == expected, "{text} of {document}");
    let outcome = path.query(alloc, value, &[])?;
    assert!(rt; outcome.matches() == expected, "{text} of {document}");
    Ok(())
}

// What a silent call says where an error comes after the value, and which errors it hides.
#[test]
fn silent_matches(rt: HostRuntime) -> Result<(), Fail> {
    let alloc = rt.alloc();
    let bytes = encode_text(alloc, "[{\"b\": true}, {}]", Exponents::Allowed)?;
    let Some(value) = Document::new(&bytes) else {
        assert!(rt; false);
        return Ok(());
    };
    let path = Path::of_text(alloc, "strict $[*].b")?;
    let outcome = path.query(alloc, value, &[])?;
    assert!(rt; outcome.truth() == Some(Truth::True));
    assert!(rt; outcome.exists(path.mode()) == Truth::Unknown);
    assert!(rt; PathError::MemberNotFound.is_hidden());
    assert!(rt; PathError::BooleanRequired.is_hidden());
    assert!(rt; !PathError::UndefinedVariable.is_hidden());
    Ok(())
}

#[test]
fn matches_of_paths(rt: HostRuntime) -> Result<(), Fail> {
    let alloc = rt.alloc();
    let refused = Err(PathError::BooleanRequired);
    let rows = [
        ("{\"a\": 1}", "lax $.a == 1", Ok(Truth::True)),
        ("{\"a\": 1}", "lax $.a > 1", Ok(Truth::False)),
        ("{\"a\": 1}", "lax $.a > \"b\"", Ok(Truth::Unknown)),
        ("[true]", "lax $[*]", Ok(Truth::True)),
        ("false", "lax $", Ok(Truth::False)),
        ("null", "strict $", Ok(Truth::Unknown)),
        ("[null]", "lax $[0]", Ok(Truth::Unknown)),
        ("[true]", "lax $", refused),
        ("[true, true]", "lax $[*]", refused),
        ("[]", "lax $[*]", refused),
        ("1", "lax $", refused),
        ("\"true\"", "lax $", refused),
        (
            "[{\"b\": true}, {}]",
            "strict $[*].b",
            Err(PathError::MemberNotFound),
        ),
        (
            "true",
            "lax $ ? (@ == $nosuch)",
            Err(PathError::UndefinedVariable),
        ),
    ];
    for (document, path, expected) in rows {
        matches_as(&rt, alloc, document, path, expected)?;
    }
    Ok(())
}
