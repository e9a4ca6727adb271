//! Numbers in texts.

ghost use Rattle.std.specs.Prelude.{◌≡◌};
ghost use Rattle.jsonb_functions.specs.Words.{capped_number};

/// The number of decimal digits, or the greatest of 64 bits if it exceeds that. `None` if there are
/// no digits, or other bytes among them.
pub fn read_number(digits: &[u8]) -> Option<usize>
    ensures { result ≡ capped_number digits.now }
{
    if digits.is_empty() {
        return None;
    }
    let mut number: usize = 0;
    let mut left = digits;
    while let [digit, rest @ ..] = left {
        if !digit.is_ascii_digit() {
            return None;
        }
        number = number
            .saturating_mul(10)
            .saturating_add((*digit - b'0') as usize);
        left = rest;
    }
    Some(number)
}
