//! Texts with escapes for the characters that a terminal may obey.

ghost use Rattle.std.specs.Prelude.{◌≡◌, ◌++◌, IfOk, OnOk, chars, encode_utf8_all, flat_map};
ghost use Rattle.std.specs.Prelude.{string_bytes};
ghost use Rattle.kohiblad_shell.specs.Words.{escape, escaped_text, escaped_unit, is_escaped};
ghost use Rattle.kohiblad_shell.specs.Words.{shown_char};

use std::alloc::{AllocError, Global};

/// A text with escapes: control characters, separators of lines, and characters that change the
/// direction or the look of the text around them are written as JSON escapes them, as `\u009b`.
#[tactic(auto, unfolding(crate::specs::Escapes::escaped_text))]
pub fn escaped_text(alloc: Global, text: &str) -> Result<String, AllocError>
    ensures { IfOk result (λ shown. string_bytes shown ≡ escaped_text text.now) }
{
    let shown = shown_chars(alloc, text)?;
    text_of_chars(alloc, &shown)
}

/// The characters of a text, with escapes.
pub fn shown_chars(alloc: Global, text: &str) -> Result<Vec<char>, AllocError>
    ensures { IfOk result (λ shown. shown.items ≡ flat_map shown_char (chars text.now)) }
{
    let mut shown = Vec::new(alloc);
    for character in text.chars() {
        push_shown(alloc, &mut shown, character)?;
    }
    Ok(shown)
}

/// Appends a character, or its escape.
pub fn push_shown(alloc: Global, shown: &mut Vec<char>, character: char) -> Result<(), AllocError>
    ensures { OnOk result (shown.new.items ≡ shown.old.items ++ shown_char character) }
{
    if is_escaped(character) {
        push_escape(alloc, shown, character)
    } else {
        Ok(shown.push(character)?)
    }
}

/// The text of these characters.
pub fn text_of_chars(alloc: Global, characters: &[char]) -> Result<String, AllocError>
    ensures { IfOk result (λ text. string_bytes text ≡ encode_utf8_all characters.now) }
{
    let mut text = String::new(alloc);
    for character in characters {
        text.push(*character)?;
    }
    Ok(text)
}

// Whether a character has an escape: a control character, a separator of lines, and one that
// changes the direction or the look of the text around it.
fn is_escaped(character: char) -> bool
    ensures { result ≡ is_escaped character }
{
    matches!(
        character as u32,
        0..=31
            | 127..=159
            | 0xAD
            | 0x61C
            | 0x180E
            | 0x200B..=0x200F
            | 0x2028..=0x202E
            | 0x2060..=0x206F
            | 0xFEFF
            | 0xE0000..=0xE0FFF
    )
}

// Appends the escape of a character, as JSON has it: one unit of UTF-16, or two.
fn push_escape(alloc: Global, shown: &mut Vec<char>, character: char) -> Result<(), AllocError>
    ensures { OnOk result (shown.new.items ≡ shown.old.items ++ escape character) }
{
    let code = character as u32;
    if code < 0x10000 {
        return push_unit(alloc, shown, code);
    }
    push_unit(alloc, shown, 0xD800 + (code - 0x10000) / 1024)?;
    push_unit(alloc, shown, 0xDC00 + code % 1024)
}

// Appends the escape of a unit of UTF-16: `\u` and four hexadecimal digits.
fn push_unit(alloc: Global, shown: &mut Vec<char>, unit: u32) -> Result<(), AllocError>
    ensures { OnOk result (shown.new.items ≡ shown.old.items ++ escaped_unit unit) }
{
    let bytes = unit.to_be_bytes();
    let digits = hex::encode(alloc, &bytes[2..])?;
    shown.push('\\')?;
    shown.push('u')?;
    for digit in digits.as_bytes() {
        shown.push(char::from(*digit))?;
    }
    Ok(())
}
