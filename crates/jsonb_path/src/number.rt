//! The arithmetic of paths: exact over decimals, and refused past 128 bits.

ghost use Rattle.std.specs.Prelude.{◌≡◌, ◌+◌, ◌-◌, ◌*◌, ◌/◌, ◌%◌, ◌^◌, ◌<◌, ◌≤◌, ◌+ℤ◌, ◌*ℤ◌, ℤ};
ghost use Rattle.std.specs.Prelude.{SomeIff, FitsSigned, max};
ghost use Rattle.std.specs.Int.{w32, w128};
ghost use Rattle.jsonb_value.specs.Json.Numeral.{signed_number};
ghost use Rattle.jsonb_value.specs.Order.{fraction_of};
ghost use Rattle.jsonb_path.specs.Arithmetic.{GivesExactly, GivesRemainder, HoldsExactly, IsWhole};
ghost use Rattle.jsonb_path.specs.Arithmetic.{sum, difference, product, negated, unsigned};
ghost use Rattle.jsonb_path.specs.Arithmetic.{floor_of, ceiling_of, whole_part_of};
ghost use Rattle.jsonb_path.specs.Decimal.{decimal_fraction, decimal_value, raised_value};
ghost use Rattle.jsonb_path.specs.Decimal.{divided_above};

use jsonb_value::{Decimal128, Number};

/// Why two numbers have no result.
#[derive(Clone, Copy, Debug, PartialEq, Eq)]
pub enum NumberError {
    /// The divisor is zero.
    DivisionByZero,
    /// The exact result has more than 128 bits without its point, or more than 255 digits after it.
    OutOfRange,
}

/// The exact sum, with the greater scale of both. `OutOfRange` if it does not fit.
pub fn add(left: &Number, right: &Number) -> Result<Number, NumberError>
    ensures { GivesExactly (sum (fraction_of left.now) (fraction_of right.now)) result }
{
    total(Decimal::of(left), Decimal::of(right))
}

/// The exact difference, with the greater scale of both. `OutOfRange` if it does not fit.
pub fn subtract(left: &Number, right: &Number) -> Result<Number, NumberError>
    ensures { GivesExactly (difference (fraction_of left.now) (fraction_of right.now)) result }
{
    total(Decimal::of(left), Decimal::of(right).negated())
}

/// The exact product, whose scale is the sum of both. `OutOfRange` if it does not fit.
pub fn multiply(left: &Number, right: &Number) -> Result<Number, NumberError>
    ensures { GivesExactly (product (fraction_of left.now) (fraction_of right.now)) result }
{
    let (left, right) = (Decimal::of(left), Decimal::of(right));
    let scale = usize::from(left.scale) + usize::from(right.scale);
    result_of(scale, product_value(left, right))
}

/// What is left of `left` where `right` is taken from it as often as it goes: with the sign of
/// `left` and the greater scale of both. `DivisionByZero` if `right` is zero; it always fits.
pub fn remainder(left: &Number, right: &Number) -> Result<Number, NumberError>
    ensures { GivesRemainder (fraction_of left.now) (fraction_of right.now) result }
{
    let (left, right) = (Decimal::of(left), Decimal::of(right));
    if right.magnitude == 0 {
        return Err(NumberError::DivisionByZero);
    }
    let scale = left.scale.max(right.scale);
    result_of(
        usize::from(scale),
        signed(left.is_negative, rest(left, right)),
    )
}

/// The number with the other sign and the same scale. `OutOfRange` for the least value of 128 bits.
pub fn negate(number: &Number) -> Result<Number, NumberError>
    ensures { GivesExactly (negated (fraction_of number.now)) result }
{
    let decimal = Decimal::of(number);
    result_of(
        usize::from(decimal.scale),
        signed(!decimal.is_negative, decimal.magnitude),
    )
}

/// The number without its sign, with the same scale. `OutOfRange` for the least value of 128 bits.
pub fn absolute(number: &Number) -> Result<Number, NumberError>
    ensures { GivesExactly (unsigned (fraction_of number.now)) result }
{
    let decimal = Decimal::of(number);
    result_of(usize::from(decimal.scale), signed(false, decimal.magnitude))
}

/// The greatest whole number that is not above this one.
pub fn floor(number: &Number) -> Number
    ensures { IsWhole (floor_of (fraction_of number.now)) result }
{
    let decimal = Decimal::of(number);
    let below = if decimal.is_negative {
        decimal.whole_above()
    } else {
        decimal.whole_below()
    };
    whole(decimal.is_negative, below)
}

/// The least whole number that is not below this one.
pub fn ceiling(number: &Number) -> Number
    ensures { IsWhole (ceiling_of (fraction_of number.now)) result }
{
    let decimal = Decimal::of(number);
    let above = if decimal.is_negative {
        decimal.whole_below()
    } else {
        decimal.whole_above()
    };
    whole(decimal.is_negative, above)
}

/// The number cut towards zero, as a subscript has it. `None` if that has more than 32 bits.
pub fn index_of(number: &Number) -> Option<i32>
    ensures { let index = whole_part_of (fraction_of number.now) in
        SomeIff result (FitsSigned w32 index) index }
{
    let decimal = Decimal::of(number);
    let value = signed(decimal.is_negative, decimal.whole_below())?;
    i32::try_from(value).ok()
}

// A number as its sign, its digits without the point, and the count of those after it.
#[derive(Clone, Copy)]
struct Decimal {
    is_negative: bool,
    magnitude: u128,
    scale: u8,
}

impl Decimal {
    fn of(number: &Number) -> Decimal
        ensures value { decimal_fraction result ≡ fraction_of number.now }
        ensures bound { result.magnitude ≤ 2 ^ 127 }
        ensures fits { FitsSigned w128 (decimal_value result) }
    {
        match *number {
            Number::Int64(value) => Decimal::new(i128::from(value), 0),
            Number::UInt64(value) => Decimal::new(i128::from(value), 0),
            Number::Decimal64(decimal) => Decimal::new(i128::from(decimal.value), decimal.scale),
            Number::Decimal128(decimal) => Decimal::new(decimal.value, decimal.scale),
        }
    }

    fn new(value: i128, scale: u8) -> Decimal
        ensures value { decimal_fraction result ≡ record { value = value; scale = scale } }
        ensures bound { result.magnitude ≤ 2 ^ 127 }
        ensures fits { FitsSigned w128 (decimal_value result) }
    {
        Decimal {
            is_negative: value < 0,
            magnitude: value.unsigned_abs(),
            scale,
        }
    }

    fn negated(self) -> Decimal
        ensures value { decimal_fraction result ≡ negated (decimal_fraction self) }
        ensures bound { result.magnitude ≡ self.magnitude }
    {
        Decimal {
            is_negative: !self.is_negative,
            ..self
        }
    }

    // The digits before the point.
    fn whole_below(self) -> u128
        ensures value { result ≡ self.magnitude / 10 ^ self.scale }
        ensures bound { result ≤ self.magnitude }
    {
        divided_by_power(self.magnitude, self.scale)
    }

    // The digits before the point, and one more if there is another digit than zero after it.
    fn whole_above(self) -> u128
        ensures value { result ≡ divided_above self.magnitude (10 ^ self.scale) }
        ensures bound { result ≤ self.magnitude }
    {
        match self.magnitude.checked_sub(1) {
            Some(less) => divided_by_power(less, self.scale) + 1,
            None => 0,
        }
    }
}

// The sum of two decimals.
fn total(left: Decimal, right: Decimal) -> Result<Number, NumberError>
    requires left { left.magnitude ≤ 2 ^ 127 }
    requires right { right.magnitude ≤ 2 ^ 127 }
    ensures { GivesExactly (sum (decimal_fraction left) (decimal_fraction right)) result }
{
    if left.scale <= right.scale {
        result_of(
            usize::from(right.scale),
            raised_sum(left, right.scale - left.scale, right),
        )
    } else {
        result_of(
            usize::from(left.scale),
            raised_sum(right, left.scale - right.scale, left),
        )
    }
}

// The left decimal with further zeros, and the right one added to it without their scales.
fn raised_sum(left: Decimal, zeros: u8, right: Decimal) -> Option<i128>
    requires left { left.magnitude ≤ 2 ^ 127 }
    requires right { right.magnitude ≤ 2 ^ 127 }
    ensures { HoldsExactly (raised_value left zeros +ℤ decimal_value right) result }
{
    let raised = raised(left.magnitude, zeros)?;
    if left.is_negative == right.is_negative {
        signed(left.is_negative, raised.checked_add(right.magnitude)?)
    } else if raised < right.magnitude {
        signed(right.is_negative, right.magnitude - raised)
    } else {
        signed(left.is_negative, raised - right.magnitude)
    }
}

// The digits with zeros after them.
fn raised(magnitude: u128, zeros: u8) -> Option<u128>
    ensures { SomeIff result (magnitude * 10 ^ zeros < 2 ^ 128) (magnitude * 10 ^ zeros) }
{
    let mut raised = magnitude;
    for _zero in 0..zeros {
        raised = raised.checked_mul(10)?;
    }
    Some(raised)
}

// The remainder of digits with zeros after them.
fn rest_of_raised(magnitude: u128, zeros: u8, divisor: u128) -> u128
    requires least { 0 < divisor }
    requires most { divisor ≤ 2 ^ 127 }
    ensures value { result ≡ (magnitude * 10 ^ zeros) % divisor }
    ensures bound { result < divisor }
{
    let mut rest = magnitude % divisor;
    for _zero in 0..zeros {
        let twice = sum_within(rest, rest, divisor);
        let fourfold = sum_within(twice, twice, divisor);
        let fivefold = sum_within(fourfold, rest, divisor);
        rest = sum_within(fivefold, fivefold, divisor);
    }
    rest
}

// The remainder by digits with zeros after them.
fn rest_by_raised(magnitude: u128, divisor: u128, zeros: u8) -> u128
    requires least { 0 < divisor }
    ensures value { result ≡ magnitude % (divisor * 10 ^ zeros) }
    ensures bound { result ≤ magnitude }
{
    match raised(divisor, zeros) {
        Some(raised) => magnitude % raised,
        None => magnitude,
    }
}

// The remainder of a sum of two remainders.
fn sum_within(left: u128, right: u128, divisor: u128) -> u128
    requires left { left < divisor }
    requires right { right < divisor }
    requires most { divisor ≤ 2 ^ 127 }
    ensures value { result ≡ (left + right) % divisor }
    ensures bound { result < divisor }
{
    let sum = left + right;
    if sum < divisor { sum } else { sum - divisor }
}

// The digits without the last of them.
fn divided_by_power(magnitude: u128, digits: u8) -> u128
    ensures value { result ≡ magnitude / 10 ^ digits }
    ensures bound { result ≤ magnitude }
{
    match raised(1, digits) {
        Some(power) => magnitude / power,
        None => 0,
    }
}

// The product without the point.
fn product_value(left: Decimal, right: Decimal) -> Option<i128>
    ensures { HoldsExactly (decimal_value left *ℤ decimal_value right) result }
{
    let magnitude = left.magnitude.checked_mul(right.magnitude)?;
    signed(left.is_negative != right.is_negative, magnitude)
}

// The digits of the remainder at the greater scale.
fn rest(left: Decimal, right: Decimal) -> u128
    requires fits { FitsSigned w128 (decimal_value left) }
    requires least { 0 < right.magnitude }
    requires most { right.magnitude ≤ 2 ^ 127 }
    ensures value { let scale = max left.scale right.scale in
        result ≡ (left.magnitude * 10 ^ (scale - left.scale))
        % (right.magnitude * 10 ^ (scale - right.scale)) }
    ensures fits { FitsSigned w128 (signed_number left.is_negative result) }
{
    if left.scale <= right.scale {
        rest_of_raised(left.magnitude, right.scale - left.scale, right.magnitude)
    } else {
        rest_by_raised(left.magnitude, right.magnitude, left.scale - right.scale)
    }
}

// The digits with their sign.
fn signed(is_negative: bool, magnitude: u128) -> Option<i128>
    ensures { HoldsExactly (signed_number is_negative magnitude) result }
{
    if is_negative {
        0i128.checked_sub_unsigned(magnitude)
    } else {
        0i128.checked_add_unsigned(magnitude)
    }
}

// The number with this scale and, without the point, this value.
fn result_of(scale: usize, value: Option<i128>) -> Result<Number, NumberError>
    ensures { (x : ℤ) → HoldsExactly x value
        → GivesExactly (record { value = x; scale = scale }) result }
{
    match value {
        Some(value) => Number::from_scaled(scale, value).ok_or(NumberError::OutOfRange),
        None => Err(NumberError::OutOfRange),
    }
}

// The whole number.
fn whole(is_negative: bool, magnitude: u128) -> Number
    requires { FitsSigned w128 (signed_number is_negative magnitude) }
    ensures { IsWhole (signed_number is_negative magnitude) result }
{
    let value = signed(is_negative, magnitude).unwrap();
    Number::from_scaled(0, value).unwrap()
}
