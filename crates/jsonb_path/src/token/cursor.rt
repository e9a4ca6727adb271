//! What a text begins with.

ghost use Rattle.std.specs.Prelude.{◌≡◌, ◌∷◌, [], MatchOption, chars, length, string_bytes};
ghost use Rattle.jsonb_path.specs.Character.{begins, byte_len, is_in_name, is_mark, is_white};
ghost use Rattle.jsonb_path.specs.Character.{passes, run};
ghost use Rattle.jsonb_path.specs.Fault.{Reads};

use super::Stop;

/// Which characters a run has.
#[derive(Clone, Copy)]
pub enum Class {
    Digit,
    Name,
}

impl Class {
    /// Whether a character is of the class.
    pub fn has(self, character: char) -> bool
        ensures { result ≡ passes self character }
    {
        match self {
            Class::Digit => character.is_ascii_digit(),
            Class::Name => is_in_name(character),
        }
    }
}

// Whether a character may stand in a name as it is: not white space, `"`, `\` and the marks.
fn is_in_name(character: char) -> bool
    ensures { result ≡ is_in_name character }
{
    !is_white(character) && !is_mark(character) && character != '"' && character != '\\'
}

/// Whether a character is white space: space, tab, line feed, carriage return or form feed.
pub fn is_white(character: char) -> bool
    ensures { result ≡ is_white character }
{
    matches!(character, ' ' | '\t' | '\n' | '\r' | '\u{c}')
}

/// Whether a character is a mark, which ends a name.
pub fn is_mark(character: char) -> bool
    ensures { result ≡ is_mark character }
{
    matches!(
        character,
        '!' | '#'..='&' | '('..='/' | ':' | '<'..='@' | '[' | ']' | '{'..='}'
    )
}

/// The first character, and the text after it.
#[tactic(auto, using(std::proofs::lemmas::Str::chars_past_char))]
pub fn split_first(text: &str) -> Option<(char, &str)>
    ensures { MatchOption result (chars text.now ≡ [])
        (λ parts. chars text.now ≡ parts.0 ∷ chars parts.1.now) }
{
    let mut characters = text.chars();
    let first = characters.next()?;
    Some((first, characters.as_str()))
}

/// How many bytes a text has.
#[tactic(auto, using(crate::proofs::CharacterLaws::bytes_counted))]
pub fn byte_len(text: &str) -> usize
    ensures { result ≡ byte_len (chars text.now) }
{
    text.len()
}

/// Whether a text begins with a character of the class.
pub fn begins(class: Class, text: &str) -> bool
    ensures { result ≡ begins class (chars text.now) }
{
    match split_first(text) {
        Some((first, _)) => class.has(first),
        None => false,
    }
}

/// Appends all characters of the class that a text begins with; returns what is after them.
pub fn read_run<'a>(class: Class, content: &mut String, text: &'a str) -> Result<&'a str, Stop>
    ensures { Reads (λ rest. (string_bytes content.new, chars rest.now)) result
        (Ok (run class (string_bytes content.old) (chars text.now))) }
{
    let mut left = text;
    'run: while let Some((first, rest)) = split_first(left) {
        if !class.has(first) {
            return Ok(left);
        }
        content.push(first)?;
        left = rest;
    }
    Ok(left)
}
