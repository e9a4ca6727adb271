//! Paths of texts, as PostgreSQL reads and prints them.

use jsonb_path::path::{Mode, Part, Path, Sign, Source};
use jsonb_path::token::{PathFault, ReadError};
use std::alloc::Global;
use std::test::Fail;

// Whether a text is printed so once it is read, or refused so.
fn reads(all: &mut String, alloc: Global, text: &str, expected: &str) -> Result<(), Fail> {
    let written = match Path::of_text(alloc, text) {
        Ok(path) => format!(in alloc; "{path}")?,
        Err(ReadError::OutOfMemory) => Err(ReadError::OutOfMemory)?,
        Err(ReadError::Refused(PathFault { at, reason })) => format!(in alloc; "{at}: {reason:?}")?,
    };
    if written.as_str() != expected {
        all.push_str(&format!(in alloc; "MISS {text} => {written} WANT {expected}\n")?)?;
    }
    Ok(())
}

#[test]
fn paths_of_texts(rt: HostRuntime) -> Result<(), Fail> {
    let alloc = rt.alloc();
    let rows = [
        ("$", "$"),
        ("strict$.a", "strict $.\"a\""),
        ("LAX $ . a [ 0 ]", "$.\"a\"[0]"),
        ("", "0: Expected(Value, End)"),
        ("strict", "6: Expected(Value, End)"),
        ("$.a && $.b", "7: Expected(TestBefore, Mark('$'))"),
        (
            "$.a > 1 && $.b == 2 || !($.c < 3)",
            "($.\"a\" > 1 && $.\"b\" == 2 || !($.\"c\" < 3))",
        ),
        ("1 - 2 - 3", "((1 - 2) - 3)"),
        ("1 + 2 * 3", "(1 + 2 * 3)"),
        ("($.a > 1).type()", "($.\"a\" > 1).type()"),
        ("($.a)[0]", "$.\"a\"[0]"),
        ("-1", "-1"),
        ("- -1", "1"),
        ("-1.5.type()", "(-(1.5).type())"),
        ("-$.a.b", "(-$.\"a\".\"b\")"),
        ("1 < 2 < 3", "8: Expected(ExpressionBefore, Number)"),
        ("!!($.a == 1)", "1: Expected(Mark('('), Mark('!'))"),
        ("$.** {1}", "$.**{1}"),
        ("$.a ? (@.b > 1).c", "$.\"a\"?(@.\"b\" > 1).\"c\""),
        ("@", "0: Expected(Value, Mark('@'))"),
        ("$[@]", "2: Expected(Value, Mark('@'))"),
        ("$[last - 1 to 7, 0]", "$[last - 1 to 7,0]"),
        ("last", "0: Expected(Value, Word)"),
        ("exists($.a)", "exists ($.\"a\")"),
        ("(exists($.a)) is unknown", "(exists ($.\"a\")) is unknown"),
        ("exists($.a) is unknown", "12: Expected(End, Word)"),
        ("$ starts with \"a\"", "($ starts with \"a\")"),
        (
            "$ starts with (\"a\")",
            "14: Expected(TextOrVariable, Mark('('))",
        ),
        ("$x == null", "($\"x\" == null)"),
        ("NULL == 1", "0: Expected(Value, Word)"),
        ("!$.a", "1: Expected(Mark('('), Mark('$'))"),
        ("$?(@.a)", "7: Expected(TestBefore, End)"),
        ("$?(true)", "8: Expected(TestBefore, End)"),
        ("exists($.a > 1)", "15: Expected(ExpressionBefore, End)"),
        ("$.a == ($.b > 1)", "16: Expected(ExpressionBefore, End)"),
        ("($.a > 1) == true", "13: Expected(ExpressionBefore, Word)"),
        (
            "$.last.exists.type.null",
            "$.\"last\".\"exists\".\"type\".\"null\"",
        ),
        ("$.type ( )", "$.type()"),
        ("$.\"type\"()", "8: Expected(End, Mark('('))"),
        ("$.a-b", "4: Expected(Value, Word)"),
        ("$.a$b", "3: Expected(End, Variable)"),
        ("$.1", "1: Expected(End, Number)"),
        ("$. 1a2", "$.\"1a2\""),
        ("1.type()", "0: InvalidNumber"),
        ("(1).type()", "(1).type()"),
        ("1..type()", "(1).type()"),
        ("$[0 to 1, 2 to last]", "$[0 to 1,2 to last]"),
        ("$[*].*.**", "$[*].*.**"),
        ("$ ? (@[@.a] == 1)", "$?(@[@.\"a\"] == 1)"),
        ("$[$ ? (last > 1).a]", "$[$?(last > 1).\"a\"]"),
        ("$ ? (last > 1)", "5: Expected(Value, Word)"),
        ("$.a / 2", "4: LeftOut(Division)"),
        ("($ LIKE_REGEX \"a\")", "3: LeftOut(LikeRegex)"),
        ("$.a.double()", "11: LeftOut(Double)"),
        ("1 % 2 == 1", "(1 % 2 == 1)"),
        ("$.a <> 1", "($.\"a\" != 1)"),
        ("$.a = 1", "4: Expected(End, Mark('='))"),
        ("-(1)", "-1"),
        ("+$", "(+$)"),
        ("($.**).b", "$.**.\"b\""),
        ("true", "true"),
        ("1e400", "0: LeftOut(WideNumber)"),
        ("(1 == 1)", "(1 == 1)"),
        ("()", "1: Expected(Value, Mark(')'))"),
        ("($", "2: Expected(Mark(')'), End)"),
        ("$[]", "2: Expected(Value, Mark(']'))"),
        ("$[1 == 1]", "8: Expected(ExpressionBefore, Mark(']'))"),
        (
            "(1 == 1) is unknown && exists ($)",
            "((1 == 1) is unknown && exists ($))",
        ),
        ("!exists($)", "!(exists ($))"),
        (".5 + 5. + 1.5e2 + 5.e1", "(((0.5 + 5) + 150) + 50)"),
    ];
    let mut all = String::new(alloc);
    for (text, expected) in rows {
        reads(&mut all, alloc, text, expected)?;
    }
    assert_eq!(rt; all.as_str(), "");
    Ok(())
}

// A text with others around it so many times.
fn nested(alloc: Global, row: (&str, &str, &str), times: usize) -> Result<String, Fail> {
    let (front, middle, back) = row;
    let mut text = String::new(alloc);
    for _ in 0..times {
        text.push_str(front)?;
    }
    text.push_str(middle)?;
    for _ in 0..times {
        text.push_str(back)?;
    }
    Ok(text)
}

#[test]
fn levels_of_texts(rt: HostRuntime) -> Result<(), Fail> {
    let alloc = rt.alloc();
    let rows = [
        ("(", "$", ")", 64, "read"),
        ("(", "$", ")", 65, "65: TooDeep"),
        ("$[", "0", "]", 65, "130: TooDeep"),
        ("-", "$", "", 64, "read"),
        ("-", "$", "", 65, "65: TooDeep"),
        ("", "1", " + 1", 399, "read"),
        ("", "1", " + 1", 400, "1600: TooDeep"),
        ("", "1", " + 1", 500, "1602: TooDeep"),
        ("", "1 == 1", " || 1 == 1", 398, "read"),
        ("", "1 == 1", " || 1 == 1", 399, "3995: TooDeep"),
    ];
    for (front, middle, back, times, expected) in rows {
        let text = nested(alloc, (front, middle, back), times)?;
        let written = match Path::of_text(alloc, &text) {
            Ok(_) => format!(in alloc; "read")?,
            Err(ReadError::OutOfMemory) => Err(ReadError::OutOfMemory)?,
            Err(ReadError::Refused(PathFault { at, reason })) => {
                format!(in alloc; "{at}: {reason:?}")?
            }
        };
        assert_eq!(rt;
            written.as_str(),
            expected,
            "{front}{middle}{back} {times} times"
        );
    }
    Ok(())
}

// A path of signs, each before the last one.
fn signs(alloc: Global, levels: usize) -> Result<Option<Path>, Fail> {
    let mut parts = Vec::new(alloc);
    parts.push(Part::Chain(Source::Root, Vec::new(alloc)))?;
    for at in 1..levels {
        parts.push(Part::Sign(Sign::Minus, at - 1))?;
    }
    Ok(Path::new(Mode::Lax, parts))
}

#[test]
fn levels_of_parts(rt: HostRuntime) -> Result<(), Fail> {
    let alloc = rt.alloc();
    assert!(rt; signs(alloc, 400)?.is_some());
    assert!(rt; signs(alloc, 401)?.is_none());
    Ok(())
}
