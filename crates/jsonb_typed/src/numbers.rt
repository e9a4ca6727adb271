//! Which numbers a column of one scale holds, and as which values.

ghost use Rattle.std.specs.Prelude.{◌≡◌, ◌↔◌, ◌*ℤ◌, ◌^◌, ℤ, pos, Some, IfSome, IfNone, FitsSigned};
ghost use Rattle.jsonb_typed.specs.Words.{w128, number_of, fraction_of};
ghost use Rattle.jsonb_typed.specs.Words.{IsNumberAt};

use jsonb::Number;

/// When a number fits a column.
#[derive(Clone, Copy, Debug, PartialEq, Eq)]
pub enum Fit {
    /// If the column gives the same number back, in the kind that its digits have in a JSON text.
    Exact,
    /// If the column gives an equal number back: 1.5 and 2 fit scale 2, as 1.50 and 2.00.
    ByValue,
}

/// The number without its point, written with this many digits after it. `None` if it does not fit,
/// or the value exceeds 128 bits.
pub fn value_at_scale(number: Number, scale: u8, fit: Fit) -> Option<i128>
    ensures { (v : ℤ) → FitsSigned w128 v → (result ≡ Some v) ↔ IsNumberAt fit scale v number }
{
    match fit {
        Fit::Exact => exact_value(number, scale),
        Fit::ByValue => equal_value(number, scale),
    }
}

// The value whose number is this one, with its kind and scale.
fn exact_value(number: Number, scale: u8) -> Option<i128>
    ensures { (v : ℤ) → (result ≡ Some v) ↔ (number_of scale v ≡ Some number) }
{
    let value = coefficient(number);
    match Number::from_scaled(usize::from(scale), value) {
        Some(again) if again == number => Some(value),
        _ => None,
    }
}

// The value whose number equals this one.
fn equal_value(number: Number, scale: u8) -> Option<i128>
    ensures { (v : ℤ) → FitsSigned w128 v
        → (result ≡ Some v) ↔ IsNumberAt Fit.ByValue scale v number }
{
    let value = coefficient(number);
    let digits = scale_of(number);
    if digits <= scale {
        raised(value, scale - digits)
    } else {
        lowered(value, digits - scale)
    }
}

// The value times 10^`steps`. `None` if it exceeds 128 bits.
fn raised(value: i128, steps: u8) -> Option<i128>
    ensures { (v : ℤ) → FitsSigned w128 v → (result ≡ Some v) ↔ (value *ℤ pos (10 ^ steps) ≡ v) }
{
    let mut raised = value;
    for _step in 0..steps {
        match raised.checked_mul(10) {
            Some(product) => raised = product,
            None => return None,
        }
    }
    Some(raised)
}

// The value divided by 10^`steps`. `None` if a digit other than 0 would be lost.
fn lowered(value: i128, steps: u8) -> Option<i128>
    ensures { (v : ℤ) → (result ≡ Some v) ↔ (v *ℤ pos (10 ^ steps) ≡ value) }
{
    let mut lowered = value;
    for _step in 0..steps {
        if lowered % 10 != 0 {
            return None;
        }
        lowered /= 10;
    }
    Some(lowered)
}

/// The number without its point.
pub fn coefficient(number: Number) -> i128
    ensures { result ≡ (fraction_of number).value }
{
    match number {
        Number::Int64(value) => i128::from(value),
        Number::UInt64(value) => i128::from(value),
        Number::Decimal64(decimal) => i128::from(decimal.value),
        Number::Decimal128(decimal) => decimal.value,
    }
}

/// How many digits the number has after its point.
pub fn scale_of(number: Number) -> u8
    ensures { result ≡ (fraction_of number).scale }
{
    match number {
        Number::Int64(_) | Number::UInt64(_) => 0,
        Number::Decimal64(decimal) => decimal.scale,
        Number::Decimal128(decimal) => decimal.scale,
    }
}
