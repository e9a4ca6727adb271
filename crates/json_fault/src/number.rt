//! Numbers, character by character.

ghost use Rattle.std.specs.Prelude.{◌≡◌, ◌+◌, ◌<◌, ◌^◌};
ghost use Rattle.json_fault.specs.Words.{limit, has_scale, is_viable, viable_only, with_digit};
ghost use Rattle.json_fault.specs.Words.{with_point, number_begun, number_continued, is_end};
ghost use Rattle.json_fault.specs.Words.{is_complete, takes_exponent, part_goes_on};
ghost use Rattle.json_fault.specs.Words.{is_exponent_mark};

use jsonb_value::Exponents;

/// The part of a number that was read last.
#[derive(Clone, Copy)]
pub enum Part {
    Sign,
    Zero,
    Whole,
    Point,
    Fraction,
}

/// What is known of a number that is being read.
#[derive(Clone, Copy)]
pub struct Numeral {
    /// Whether it has a minus.
    pub is_negative: bool,
    /// The part that was read last.
    pub part: Part,
    /// The number that the digits form without the point.
    pub magnitude: u128,
    /// How many digits are after the point.
    pub scale: usize,
}

/// The least magnitude that the format does not hold.
pub fn limit(is_negative: bool) -> u128
    ensures { result ≡ limit is_negative }
{
    if is_negative {
        (1 << 127) + 1
    } else {
        1 << 127
    }
}

// Whether there are fewer fraction digits than `below`, or an exponent can still lower the scale.
fn has_scale(exponents: Exponents, scale: usize, below: usize) -> bool
    ensures { result ≡ has_scale exponents scale below }
{
    match exponents {
        Exponents::Forbidden => scale < below,
        Exponents::Allowed => true,
    }
}

// Whether the format holds the number, or one that begins so.
fn is_viable(exponents: Exponents, numeral: Numeral) -> bool
    ensures { result ≡ is_viable exponents numeral }
{
    let limit = limit(numeral.is_negative);
    match numeral.part {
        Part::Point => match numeral.magnitude.checked_mul(10) {
            Some(magnitude) => magnitude < limit && has_scale(exponents, numeral.scale, 255),
            None => false,
        },
        _ => numeral.magnitude < limit && has_scale(exponents, numeral.scale, 256),
    }
}

// The numeral, if it is viable.
fn viable_only(exponents: Exponents, numeral: Numeral) -> Option<Numeral>
    ensures { result ≡ viable_only exponents numeral }
{
    if is_viable(exponents, numeral) {
        Some(numeral)
    } else {
        None
    }
}

// The numeral after one more digit of this part, which adds `more` to the scale.
fn with_digit(
    exponents: Exponents,
    numeral: Numeral,
    part: Part,
    more: usize,
    character: char,
) -> Option<Numeral>
    requires { numeral.scale + more < 2 ^ 64 }
    ensures { result ≡ with_digit exponents numeral part more character }
{
    let digit = character.to_digit(10)?;
    let tens = numeral.magnitude.checked_mul(10)?;
    let magnitude = tens.checked_add(u128::from(digit))?;
    viable_only(
        exponents,
        Numeral {
            is_negative: numeral.is_negative,
            part,
            magnitude,
            scale: numeral.scale + more,
        },
    )
}

// The numeral after a point.
fn with_point(exponents: Exponents, numeral: Numeral, character: char) -> Option<Numeral>
    ensures { result ≡ with_point exponents numeral character }
{
    if character != '.' {
        return None;
    }
    viable_only(
        exponents,
        Numeral {
            is_negative: numeral.is_negative,
            part: Part::Point,
            magnitude: numeral.magnitude,
            scale: numeral.scale,
        },
    )
}

/// The numeral whose first digit this is.
pub fn number_begun(is_negative: bool, character: char) -> Option<Numeral>
    ensures { result ≡ number_begun is_negative character }
{
    let digit = character.to_digit(10)?;
    let part = if character == '0' {
        Part::Zero
    } else {
        Part::Whole
    };
    Some(Numeral {
        is_negative,
        part,
        magnitude: u128::from(digit),
        scale: 0,
    })
}

/// The numeral after one more character, if the format holds a number that begins so.
pub fn number_continued(exponents: Exponents, numeral: Numeral, character: char) -> Option<Numeral>
    requires { numeral.scale + 1 < 2 ^ 64 }
    ensures { result ≡ number_continued exponents numeral character }
{
    match numeral.part {
        Part::Sign => number_begun(numeral.is_negative, character),
        Part::Zero => with_point(exponents, numeral, character),
        Part::Whole => match with_point(exponents, numeral, character) {
            Some(pointed) => Some(pointed),
            None => with_digit(exponents, numeral, Part::Whole, 0, character),
        },
        Part::Point | Part::Fraction => {
            with_digit(exponents, numeral, Part::Fraction, 1, character)
        }
    }
}

// Whether a number may end with this part.
fn is_end(part: Part) -> bool
    ensures { result ≡ is_end part }
{
    match part {
        Part::Zero | Part::Whole | Part::Fraction => true,
        Part::Sign | Part::Point => false,
    }
}

/// Whether the number may end here.
pub fn is_complete(numeral: Numeral) -> bool
    ensures { result ≡ is_complete numeral }
{
    is_end(numeral.part) && numeral.scale < 256
}

/// Whether an exponent may follow the digits.
pub fn takes_exponent(exponents: Exponents, numeral: Numeral) -> bool
    ensures { result ≡ takes_exponent exponents numeral }
{
    match exponents {
        Exponents::Forbidden => false,
        Exponents::Allowed => is_end(numeral.part),
    }
}

/// Whether the character begins an exponent.
pub fn is_exponent_mark(character: char) -> bool
    ensures { result ≡ is_exponent_mark character }
{
    matches!(character, 'E' | 'e')
}

/// Whether the character may follow this part in a number of any size, with an exponent or without.
pub fn part_goes_on(part: Part, character: char) -> bool
    ensures { result ≡ part_goes_on part character }
{
    match part {
        Part::Sign | Part::Point => character.is_ascii_digit(),
        Part::Zero => character == '.' || is_exponent_mark(character),
        Part::Whole => {
            character.is_ascii_digit() || character == '.' || is_exponent_mark(character)
        }
        Part::Fraction => character.is_ascii_digit() || is_exponent_mark(character),
    }
}
