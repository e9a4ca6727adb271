//! Strings, character by character.

ghost use Rattle.std.specs.Prelude.{◌≡◌, ◌≤◌, is_some};
ghost use Rattle.json_fault.specs.Words.{escape_value, after_inside, after_backslash, after_digit};
ghost use Rattle.json_fault.specs.Words.{past_mark, string_continued, after_first_digit};
ghost use Rattle.json_fault.specs.Words.{after_digit_of_d, is_closed};

/// What a string expects next.
#[derive(Clone, Copy)]
pub enum Place {
    /// A character, an escape or the closing quote.
    Inside,
    /// The letter of an escape.
    Escaped,
    /// The four digits of a unit.
    Four,
    /// The last three digits of a unit that begins with `d`.
    ThreeOfD,
    /// Three digits of any kind, and then two and one.
    Three,
    Two,
    One,
    /// The last digits of the first half of a surrogate pair, and the second half.
    HighTwo,
    HighOne,
    /// The second half of a surrogate pair: its backslash, `u`, `d`, and a digit from `c` on.
    Low,
    LowLetter,
    LowUnit,
    LowOfD,
}

// Whether the letter after a backslash is an escape of its own.
fn is_escape(letter: char) -> bool
    ensures { result ≡ is_some (escape_value letter) }
{
    matches!(letter, '"' | '\\' | '/' | 'b' | 'f' | 'n' | 'r' | 't')
}

// The place after an unescaped character or a backslash.
fn after_inside(character: char) -> Option<Place>
    ensures { result ≡ after_inside character }
{
    match character {
        '\\' => Some(Place::Escaped),
        '"' | '\0'..='\u{1f}' => None,
        _ => Some(Place::Inside),
    }
}

// The place after the letter of an escape.
fn after_backslash(letter: char) -> Option<Place>
    ensures { result ≡ after_backslash letter }
{
    if letter == 'u' {
        Some(Place::Four)
    } else if is_escape(letter) {
        Some(Place::Inside)
    } else {
        None
    }
}

// The place after a digit, if it is at least `low` and less than `high`.
fn after_digit(character: char, low: u32, high: u32, place: Place) -> Option<Place>
    requires { high ≤ 16 }
    ensures { result ≡ after_digit character low high place }
{
    let digit = character.to_digit(16)?;
    if low <= digit && digit < high {
        Some(place)
    } else {
        None
    }
}

// `place`, if the character is `mark`.
fn after_mark(character: char, mark: char, place: Place) -> Option<Place>
    ensures { result ≡ past_mark character mark place }
{
    if character == mark { Some(place) } else { None }
}

// The place after the first digit of a unit.
fn after_first_digit(character: char) -> Option<Place>
    ensures { result ≡ after_first_digit character }
{
    match after_digit(character, 13, 14, Place::ThreeOfD) {
        Some(place) => Some(place),
        None => after_digit(character, 0, 16, Place::Three),
    }
}

// The place after the second digit of a unit that begins with `d`.
fn after_digit_of_d(character: char) -> Option<Place>
    ensures { result ≡ after_digit_of_d character }
{
    match after_digit(character, 0, 8, Place::Two) {
        Some(place) => Some(place),
        None => after_digit(character, 8, 12, Place::HighTwo),
    }
}

/// Whether the character is the closing quote.
pub fn is_closed(place: Place, character: char) -> bool
    ensures { result ≡ is_closed place character }
{
    matches!(place, Place::Inside) && character == '"'
}

/// The place in the string after one more character that is not its closing quote.
pub fn string_continued(place: Place, character: char) -> Option<Place>
    ensures { result ≡ string_continued place character }
{
    match place {
        Place::Inside => after_inside(character),
        Place::Escaped => after_backslash(character),
        Place::Four => after_first_digit(character),
        Place::ThreeOfD => after_digit_of_d(character),
        Place::Three => after_digit(character, 0, 16, Place::Two),
        Place::Two => after_digit(character, 0, 16, Place::One),
        Place::One => after_digit(character, 0, 16, Place::Inside),
        Place::HighTwo => after_digit(character, 0, 16, Place::HighOne),
        Place::HighOne => after_digit(character, 0, 16, Place::Low),
        Place::Low => after_mark(character, '\\', Place::LowLetter),
        Place::LowLetter => after_mark(character, 'u', Place::LowUnit),
        Place::LowUnit => after_digit(character, 13, 14, Place::LowOfD),
        Place::LowOfD => after_digit(character, 12, 16, Place::Two),
    }
}
