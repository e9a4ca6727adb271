//! What could have come where a row is wrong, and what came, in words.

ghost use Rattle.std.specs.Prelude.{◌≡◌, IfOk, encode_utf8_all, map, string_bytes, true};
ghost use Rattle.kohiblad_shell.specs.Words.{expected_text, explained_text, found_text};
ghost use Rattle.kohiblad_shell.specs.Words.{listed_classes, mark_before, shown_char};

use crate::escape::{push_shown, text_of_chars};
use std::alloc::{AllocError, Global};

// What may come in a text, by the bits of the library's classes.
const CLASSES: [&str; 21] = [
    "the rest of a string",
    "a value",
    "a key",
    "an escape",
    "a hexadecimal digit",
    "the other half of a surrogate pair",
    "a digit",
    "a sign",
    "'.'",
    "':'",
    "','",
    "']'",
    "'}'",
    "an exponent",
    "'a'",
    "'e'",
    "'l'",
    "'r'",
    "'s'",
    "'u'",
    "the end",
];

/// What could have come, of these classes of the library, and what came, as the end of a report;
/// nothing if there are no classes.
pub fn expected_text(alloc: Global, classes: u32, found: Option<char>) -> Result<String, AllocError>
    ensures { IfOk result (λ text. string_bytes text ≡ expected_text classes found) }
{
    if classes == 0 {
        Ok(String::new(alloc))
    } else {
        explained_text(alloc, classes, found)
    }
}

// What could have come, of these classes, and what came.
#[tactic(auto, unfolding(crate::specs::Expected::explained_text))]
fn explained_text(alloc: Global, classes: u32, found: Option<char>) -> Result<String, AllocError>
    ensures { IfOk result (λ text. string_bytes text ≡ explained_text classes found) }
{
    let expected = listed_classes(alloc, classes, &CLASSES)?;
    let found = found_text(alloc, found)?;
    format!(in alloc; "{expected}{found}")
}

// What came: a character, or the end.
fn found_text(alloc: Global, found: Option<char>) -> Result<String, AllocError>
    ensures { IfOk result (λ text. string_bytes text ≡ found_text found) }
{
    match found {
        None => String::from_str(alloc, ", found the end"),
        Some('\'') => String::from_str(alloc, ", found \"'\""),
        Some(character) => {
            let shown = shown_character(alloc, character)?;
            format!(in alloc; ", found '{shown}'")
        }
    }
}

// A character, or its escape.
fn shown_character(alloc: Global, character: char) -> Result<String, AllocError>
    ensures { IfOk result (λ text. string_bytes text ≡ encode_utf8_all (shown_char character)) }
{
    let mut shown = Vec::new(alloc);
    push_shown(alloc, &mut shown, character)?;
    text_of_chars(alloc, &shown)
}

// Those of these names whose bits are set, from the lowest bit on.
fn listed_classes(alloc: Global, classes: u32, names: &[&str]) -> Result<String, AllocError>
    ensures { IfOk result (λ text. string_bytes text
        ≡ listed_classes true classes (map (λ name. name.now) names.now)) }
{
    let mut text = String::new(alloc);
    let mut is_first = true;
    let mut bits = classes;
    let mut left = names;
    while let [name, rest @ ..] = left {
        if bits % 2 == 1 {
            text.push_str(mark_before(is_first, bits))?;
            text.push_str(*name)?;
            is_first = false;
        }
        bits /= 2;
        left = rest;
    }
    Ok(text)
}

// What stands before a name, whose bit is the lowest of those that are left.
fn mark_before(is_first: bool, bits: u32) -> &'static str
    ensures { result.now ≡ mark_before is_first bits }
{
    if is_first {
        ": expected "
    } else if bits == 1 {
        " or "
    } else {
        ", "
    }
}
