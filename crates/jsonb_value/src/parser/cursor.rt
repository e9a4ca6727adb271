//! Steps over the characters at the start of a text.

ghost use Rattle.std.specs.Prelude.{◌≡◌, ℕ, ◌≤◌, List, [], ◌∷◌, chars, option_map, MatchOption};
ghost use Rattle.jsonb_value.specs.Words.{skip_blank, expect, expect_all};

use crate::runs::blank_len;

/// The first character, and the text after it.
#[inline(always)]
#[tactic(auto, using(std::proofs::lemmas::Str::chars_past_char))]
pub fn split_first(text: &str) -> Option<(char, &str)>
    ensures { MatchOption result (chars text.now ≡ [])
        (λ parts. chars text.now ≡ parts.0 ∷ chars parts.1.now) }
{
    let mut characters = text.chars();
    let first = characters.next()?;
    Some((first, characters.as_str()))
}

/// The first character, if it is ASCII, and the text after it.
#[inline(always)]
pub fn split_ascii(text: &str) -> Option<(char, &str)>
    ensures { MatchOption result
        ((c : ℕ) (more : List ℕ) → chars text.now ≡ c ∷ more → 128 ≤ c)
        (λ parts. chars text.now ≡ parts.0 ∷ chars parts.1.now) }
{
    match text.as_bytes() {
        [] => None,
        [first, ..] if *first < 128 => Some((char::from(*first), text.split_at(1).1)),
        [_, ..] => None,
    }
}

/// The text after `expected`, if it is the first character.
#[inline(always)]
pub fn after_char(text: &str, expected: char) -> Option<&str>
    ensures { option_map (λ rest. chars rest.now) result ≡ expect expected (chars text.now) }
{
    if !expected.is_ascii() {
        return match split_first(text) {
            Some((first, rest)) if first == expected => Some(rest),
            _ => None,
        };
    }
    match split_ascii(text) {
        Some((first, rest)) if first == expected => Some(rest),
        _ => None,
    }
}

/// The text after these characters, if it begins with them.
pub fn after_all<'a>(text: &'a str, expected: &[char]) -> Option<&'a str>
    ensures { option_map
        (λ rest. chars rest.now) result ≡ expect_all expected.now (chars text.now) }
{
    let mut rest = text;
    for character in expected {
        rest = after_char(rest, *character)?;
    }
    Some(rest)
}

/// The text after its leading white space.
#[inline(always)]
pub fn skip_blank(text: &str) -> &str
    ensures { chars result.now ≡ skip_blank (chars text.now) }
{
    text.split_at(blank_len(text.as_bytes())).1
}
