//! Sizes of memory as they are written.

ghost use Rattle.std.specs.Prelude.{◌≡◌, ◌<◌, ◌^◌, Some, IfSome, length};
ghost use Rattle.kohiblad_shell.specs.Words.{EndsInLetter, HasUnit, IsCount, IsDecimal};
ghost use Rattle.kohiblad_shell.specs.Words.{IsLetter, IsScaled, IsSize, digits_value};

use answer_lines::split_once;

/// The number of bytes that a text says: digits, which may have a point between them, and after
/// them a unit: `K`, `M`, `G` or `T`, or the small letter, for 1,024 bytes, its square, third or
/// fourth power, or nothing for a byte. A `B` after the unit changes nothing, and nor does `iB`
/// after a letter. A part of a byte does not count. `None` if it is no such text, or if the bytes,
/// or the digits without the point, do not fit 64 bits.
pub fn size_of(text: &str) -> Option<u64>
    ensures { IfSome result (IsSize text.now) }
{
    let (number, unit) = split_unit(text)?;
    scaled(number, unit)
}

// The number before a unit, and how many bytes this says.
#[tactic(auto, using(crate::proofs::SizeLaws::with_byte, crate::proofs::SizeLaws::without_byte, crate::proofs::SizeLaws::with_binary_byte))]
fn split_unit(text: &str) -> Option<(&[u8], u64)>
    ensures { IfSome result (λ parts. HasUnit text.now parts.0.now parts.1) }
{
    if let Some(before) = text.strip_suffix("iB") {
        return split_letter(before.as_bytes());
    }
    match text.strip_suffix("B") {
        Some(before) => Some(split_count(before.as_bytes())),
        None => Some(split_count(text.as_bytes())),
    }
}

// The number before a letter or none, and how many bytes this says.
fn split_count(bytes: &[u8]) -> (&[u8], u64)
    ensures { IsCount bytes.now result.0.now result.1 }
{
    match split_letter(bytes) {
        Some(parts) => parts,
        None => (bytes, 1),
    }
}

// The number before the letter of a unit, and how many bytes this says.
fn split_letter(bytes: &[u8]) -> Option<(&[u8], u64)>
    ensures { IfSome result (λ parts. EndsInLetter bytes.now parts.0.now parts.1) }
{
    let (letter, before) = bytes.split_last()?;
    Some((before, unit_of(*letter)?))
}

// How many bytes a letter says.
fn unit_of(letter: u8) -> Option<u64>
    ensures { IfSome result (IsLetter letter) }
{
    match letter {
        b'K' | b'k' => Some(1 << 10),
        b'M' | b'm' => Some(1 << 20),
        b'G' | b'g' => Some(1 << 30),
        b'T' | b't' => Some(1 << 40),
        _ => None,
    }
}

// How many bytes so many units are.
fn scaled(number: &[u8], unit: u64) -> Option<u64>
    ensures { IfSome result (IsScaled number.now unit) }
{
    match split_once(number, b'.') {
        Some((whole, fraction)) => decimal_scaled(whole, fraction, unit),
        None => number_after(0, number)?.checked_mul(unit),
    }
}

// How many whole bytes so many units are, by the digits before a point and those after it.
fn decimal_scaled(whole: &[u8], fraction: &[u8], unit: u64) -> Option<u64>
    ensures { IfSome result (IsDecimal whole.now fraction.now unit) }
{
    let number = number_after(number_after(0, whole)?, fraction)?;
    let parts = power_of_ten(fraction.len())?;
    match u64::try_from(u128::from(number) * u128::from(unit) / parts) {
        Ok(size) => Some(size),
        Err(_) => None,
    }
}

// Ten to this power.
#[tactic(auto, using(crate::proofs::SizeLaws::power_is, crate::proofs::SizeLaws::power_above_zero))]
fn power_of_ten(exponent: usize) -> Option<u128>
    ensures power { IfSome result (λ power. power ≡ 10 ^ exponent) }
    ensures some { IfSome result (λ power. 0 < power) }
{
    match u32::try_from(exponent) {
        Ok(exponent) => 10u128.checked_pow(exponent),
        Err(_) => None,
    }
}

// The number that these digits spell after those of a number. `None` if there are no digits.
fn number_after(start: u64, digits: &[u8]) -> Option<u64>
    ensures some { IfSome result (λ number. 0 < length digits.now) }
    ensures spells { IfSome result (λ number. digits_value start digits.now ≡ Some number) }
{
    if digits.is_empty() {
        return None;
    }
    let mut number = start;
    let mut left = digits;
    while let [digit, rest @ ..] = left {
        if !digit.is_ascii_digit() {
            return None;
        }
        number = number
            .checked_mul(10)?
            .checked_add(u64::from(*digit - b'0'))?;
        left = rest;
    }
    Some(number)
}
