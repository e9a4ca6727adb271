//! Characters of regular expressions.

ghost use Rattle.std.specs.Prelude.{◌≡◌, ◌∷◌, [], MatchOption, chars};
ghost use Rattle.jsonb_pattern.specs.Letters.{is_class_member, is_escapable, is_literal, is_readable};
ghost use Rattle.jsonb_pattern.specs.Letters.{other_case};

// The first character, and the text after it.
#[tactic(auto, using(std::proofs::lemmas::Str::chars_past_char))]
pub fn first_and_rest(text: &str) -> Option<(char, &str)>
    ensures { MatchOption result (chars text.now ≡ [])
        (λ parts. chars text.now ≡ parts.0 ∷ chars parts.1.now) }
{
    let mut characters = text.chars();
    let first = characters.next()?;
    Some((first, characters.as_str()))
}

// Whether a character outside of brackets stands for itself.
pub fn is_literal(character: char) -> bool
    ensures { result ≡ is_literal character }
{
    !matches!(
        character,
        '.' | '*' | '+' | '?' | '(' | ')' | '[' | ']' | '{' | '}' | '|' | '^' | '$' | '\\'
    )
}

// Whether a character in brackets stands for itself.
pub fn is_class_member(character: char) -> bool
    ensures { result ≡ is_class_member character }
{
    !matches!(character, '[' | ']' | '\\' | '^' | '-' | '&' | '~')
}

// Whether a character stands for itself after a backslash: ASCII punctuation but `<` and `>`.
pub fn is_escapable(character: char) -> bool
    ensures { result ≡ is_escapable character }
{
    matches!(character, '!'..='/' | ':' | ';' | '=' | '?' | '@' | '['..='`' | '{'..='~')
}

// Whether a character may stand in a pattern: in one that ignores case only ASCII may.
pub fn is_readable(ignore_case: bool, character: char) -> bool
    ensures { result ≡ is_readable ignore_case character }
{
    !ignore_case || character.is_ascii()
}

// An ASCII letter in the other case, as far as case is ignored.
pub fn other_case(ignore_case: bool, character: char) -> Option<char>
    ensures { result ≡ other_case ignore_case character }
{
    if !ignore_case {
        None
    } else if character.is_ascii_lowercase() {
        Some(character.to_ascii_uppercase())
    } else if character.is_ascii_uppercase() {
        Some(character.to_ascii_lowercase())
    } else {
        None
    }
}
