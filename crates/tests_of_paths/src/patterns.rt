//! Patterns over texts.

use jsonb_pattern::{Flags, Pattern, PatternError};
use std::test::Fail;

#[test]
fn patterns(rt: HostRuntime) -> Result<(), Fail> {
    let alloc = rt.alloc();
    let rows = [
        ("^ab.*c$", "", "abxc", "found"),
        ("^ab.*c$", "", "abxcd", "not found"),
        ("a.c", "", "a\nc", "not found"),
        ("a.c", "s", "a\nc", "found"),
        ("a[^b]c", "", "a\nc", "not found"),
        ("a[^b]c", "s", "a\nc", "found"),
        ("[a-c]+D", "i", "xBd", "found"),
        ("k", "i", "\u{212a}", "not found"),
        ("a.c", "q", "abc", "not found"),
        ("a.C", "qi", "A.c", "found"),
        ("^b", "m", "a\nb", "found"),
        ("^b", "", "a\nb", "not found"),
        ("a{2,3}$", "", "aaa", "found"),
        ("a**", "", "", "2"),
        ("(a", "", "", "2"),
        ("\\d", "", "", "1"),
        ("a|", "", "", "2"),
        ("a{256}", "", "", "4"),
        ("((a{255}){255}){255}", "", "", "too large"),
    ];
    for (source, flags, text, expected) in rows {
        let Some(flags) = Flags::of_text(flags) else {
            assert!(rt; false, "{source}");
            continue;
        };
        let found = match Pattern::new(alloc, source, flags) {
            Ok(pattern) => {
                if pattern.is_found(alloc, text)? {
                    format!(in alloc; "found")?
                } else {
                    format!(in alloc; "not found")?
                }
            }
            Err(PatternError::Refused(fault)) => format!(in alloc; "{}", fault.at)?,
            Err(PatternError::TooLarge) => format!(in alloc; "too large")?,
            Err(PatternError::OutOfMemory) => Err(std::alloc::AllocError)?,
        };
        assert_eq!(rt; found.as_str(), expected, "{source}");
    }
    Ok(())
}
