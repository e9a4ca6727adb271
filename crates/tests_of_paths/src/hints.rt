//! Refusals in words, and their hints.

use jsonb_path::path::Path;
use jsonb_path::token::ReadError;
use std::alloc::Global;
use std::test::Fail;

// What is said of a text that is refused.
fn said(alloc: Global, text: &str) -> Result<String, Fail> {
    match Path::of_text(alloc, text) {
        Ok(_) => Ok(format!(in alloc; "read")?),
        Err(ReadError::OutOfMemory) => Err(ReadError::OutOfMemory)?,
        Err(ReadError::Refused(fault)) => {
            let report = fault.report(text);
            Ok(format!(in alloc; "{report}")?)
        }
    }
}

#[test]
fn refusals_in_words(rt: HostRuntime) -> Result<(), Fail> {
    let alloc = rt.alloc();
    let rows = [
        (
            ".a",
            0,
            "expected a value at byte 0, found `.`; a path begins with `$`, a filter's with `@`",
        ),
        (
            "$..a",
            2,
            "expected a key, `*`, `**` or a method at byte 2, found `.`; all levels are `.**`",
        ),
        (
            "$[0:2]",
            3,
            "expected `]` at byte 3, found `:`; the first two items are `[0 to 1]`",
        ),
        (
            "$[?@.a == 1]",
            2,
            "expected a value at byte 2, found `?`; a filter is `? (@.a == 1)`, without brackets",
        ),
        (
            "$ ? @.a",
            4,
            "expected `(` at byte 4, found `@`; a filter is `? (@.a == 1)`, without brackets",
        ),
        (
            "$ ? (@.a)",
            9,
            "expected a test before byte 9, found the end; that there is a value is `exists(@.a)`",
        ),
        (
            "$.a = 1",
            4,
            "expected an operator, an accessor or the end at byte 4, found `=`; equal is `==`",
        ),
        (
            "$.a == 'x'",
            7,
            "expected a value at byte 7, found a word; a text is `\"a\"`, a key is `.\"a\"`",
        ),
        (
            "$.a == 1 AND $.b == 2",
            9,
            "expected an operator, an accessor or the end at byte 9, found a word; and is `&&`",
        ),
        (
            "$ ? (@ == 1 or @ == 2)",
            12,
            "expected `)` at byte 12, found a word; or is `||`",
        ),
        (
            "$.a == 1 order",
            9,
            "expected an operator, an accessor or the end at byte 9, found a word",
        ),
        (
            "\"\u{e9}\" )",
            4,
            "expected an operator, an accessor or the end at byte 5, found `)`",
        ),
        (
            "$.a.datetime(\"HH\")",
            13,
            "`.datetime()` at byte 13 is not read here",
        ),
        (
            "1e400",
            0,
            "a number past 128 bits or a scale of 255 at byte 0 is not read here",
        ),
        ("$.a[/* 1", 4, "the comment at byte 4 does not end"),
    ];
    for (text, column, words) in rows {
        let mut expected = format!(in alloc; "{text}\n")?;
        for _ in 0..column {
            expected.push(' ')?;
        }
        expected.push_str(&format!(in alloc; "^ {words}")?)?;
        assert_eq!(rt; said(alloc, text)?.as_str(), expected.as_str(), "{text}");
    }
    Ok(())
}
