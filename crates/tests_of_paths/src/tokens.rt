//! Tokens of texts, as PostgreSQL reads them.

use jsonb_path::token::{PathFault, ReadError, Token, tokens};
use std::alloc::Global;
use std::process::Abort;
use std::test::Fail;

// Whether a text has these tokens, each written with its place.
fn reads(rt: &impl Abort, alloc: Global, text: &str, expected: &str) -> Result<(), Fail> {
    let mut written = String::new(alloc);
    match tokens(alloc, text) {
        Ok(found) => {
            for placed in &found {
                let at = placed.at;
                let one = match &placed.token {
                    Token::Word(name) => format!(in alloc; "{at}:{name} ")?,
                    Token::Text(name) => format!(in alloc; "{at}:'{name}' ")?,
                    Token::Variable(name) => format!(in alloc; "{at}:${name} ")?,
                    Token::Number(name) => format!(in alloc; "{at}:#{name} ")?,
                    Token::Mark(mark) => format!(in alloc; "{at}:{mark} ")?,
                    Token::Pair(first, second) => format!(in alloc; "{at}:{first}{second} ")?,
                };
                written.push_str(&one)?;
            }
        }
        Err(ReadError::OutOfMemory) => Err(ReadError::OutOfMemory)?,
        Err(ReadError::Refused(PathFault { at, reason })) => {
            written.push_str(&format!(in alloc; "{reason:?} {at}")?)?;
        }
    }
    assert_eq!(rt; written.as_str(), expected, "{text}");
    Ok(())
}

#[test]
fn tokens_of_texts(rt: HostRuntime) -> Result<(), Fail> {
    let alloc = rt.alloc();
    let rows = [
        ("", ""),
        ("strict$.a", "0:strict 6:$ 7:. 8:a "),
        ("$ /* x */ .\tkey", "0:$ 10:. 12:key "),
        ("/**/ /***/ /*/*/$", "16:$ "),
        ("$.a/**/.b", "0:$ 1:. 2:a 7:. 8:b "),
        ("$.a /* x", "UnclosedComment 4"),
        ("$.\"a b\"", "0:$ 1:. 2:'a b' "),
        (
            "\"\\b\\f\\n\\r\\t\\v\\q\\\"\\\\\\/\"",
            "0:'\u{8}\u{c}\n\r\t\u{b}q\"\\/' ",
        ),
        (
            "\"\\x41\\u00e9\\u{1F600}\\ud83d\\uDE00\\ud83d\\u{de00}\"",
            "0:'A\u{e9}\u{1f600}\u{1f600}\u{1f600}' ",
        ),
        ("\"\\x00\"", "InvalidEscape 0"),
        ("\"\\x4\"", "InvalidEscape 0"),
        ("  \"\\ud83d\"", "InvalidEscape 2"),
        ("\"\\ude00\"", "InvalidEscape 0"),
        ("\"\\ud83d\\ud83d\"", "InvalidEscape 0"),
        ("\"\\u{110000}\"", "InvalidEscape 0"),
        ("\"\\u{10FFFF}\"", "0:'\u{10ffff}' "),
        ("\"\\u{}\"", "InvalidEscape 0"),
        ("\"\\u{0000041}\"", "InvalidEscape 0"),
        ("\"\\u{000041}\"", "0:'A' "),
        ("\"\\\n\"", "InvalidEscape 0"),
        ("\"a", "UnclosedText 0"),
        ("$.a\\", "InvalidEscape 2"),
        (
            "$.a\\u0062.s\\u0069ze()",
            "0:$ 1:. 2:ab 9:. 10:size 19:( 20:) ",
        ),
        ("$.a\\.b'c\u{e9}", "0:$ 1:. 2:a.b'c\u{e9} "),
        ("$name $\"a b\" $ a $1", "0:$name 6:$a b 13:$ 15:a 17:$1 "),
        ("$a\\u0062", "0:$a 2:b "),
        (
            "0 12 1.5 .5 5. 1e5 1.5E-3 .5e+2 5.e1",
            "0:#0 2:#12 5:#1.5 9:#.5 12:#5. 15:#1e5 19:#1.5E-3 26:#.5e+2 32:#5.e1 ",
        ),
        ("01", "InvalidNumber 0"),
        ("1a", "InvalidNumber 0"),
        ("1.t", "InvalidNumber 0"),
        ("1e", "InvalidNumber 0"),
        ("1e+", "InvalidNumber 0"),
        ("1.5ab", "InvalidNumber 0"),
        ("1a2 012 12ab 1\u{e9}", "0:1a2 4:012 8:12ab 13:1\u{e9} "),
        ("1..type()", "0:#1. 2:. 3:type 7:( 8:) "),
        ("$.1", "0:$ 1:#.1 "),
        (
            "&&||**==!=<><=>=",
            "0:&& 2:|| 4:** 6:== 8:!= 10:<> 12:<= 14:>= ",
        ),
        (
            "!<>=&|*+-%()[]{},.?@#:/",
            "0:! 1:<> 3:= 4:& 5:| 6:* 7:+ 8:- 9:% 10:( 11:) 12:[ 13:] 14:{ 15:} 16:, 17:. 18:? 19:@ 20:# 21:: 22:/ ",
        ),
    ];
    for (text, expected) in rows {
        reads(&rt, alloc, text, expected)?;
    }
    Ok(())
}
