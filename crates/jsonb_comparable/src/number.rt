//! The keys of numbers, computed in 128 bits.

ghost use Rattle.std.specs.Prelude.{◌≡◌, ◌<◌, ◌≤◌, ◌+◌, ◌-◌, ◌*◌, ◌^◌, ◌∷◌, []};
ghost use Rattle.jsonb_comparable.specs.Words.{count_bytes, natural_key, decimal_key, number_key};
ghost use Rattle.jsonb_comparable.specs.Words.{digits_value, split_pairs, signed};

use crate::sink::Sink;
use jsonb::Number;

// The powers of one hundred.
const POWERS: [u128; 20] = [
    1,
    1_00,
    1_00_00,
    1_00_00_00,
    1_00_00_00_00,
    1_00_00_00_00_00,
    1_00_00_00_00_00_00,
    1_00_00_00_00_00_00_00,
    1_00_00_00_00_00_00_00_00,
    1_00_00_00_00_00_00_00_00_00,
    1_00_00_00_00_00_00_00_00_00_00,
    1_00_00_00_00_00_00_00_00_00_00_00,
    1_00_00_00_00_00_00_00_00_00_00_00_00,
    1_00_00_00_00_00_00_00_00_00_00_00_00_00,
    1_00_00_00_00_00_00_00_00_00_00_00_00_00_00,
    1_00_00_00_00_00_00_00_00_00_00_00_00_00_00_00,
    1_00_00_00_00_00_00_00_00_00_00_00_00_00_00_00_00,
    1_00_00_00_00_00_00_00_00_00_00_00_00_00_00_00_00_00,
    1_00_00_00_00_00_00_00_00_00_00_00_00_00_00_00_00_00_00,
    1_00_00_00_00_00_00_00_00_00_00_00_00_00_00_00_00_00_00_00,
];

// A power of one hundred.
fn power_of_100(exponent: usize) -> u128
    requires { exponent < 20 }
    ensures { result ≡ 100 ^ exponent }
{
    POWERS[exponent]
}

// How many pairs of digits a number has.
fn count_pairs(number: u128) -> usize
    requires { number < 100 ^ 19 }
    ensures below { number < 100 ^ result }
    ensures least { 0 < result → 100 ^ (result - 1) ≤ number }
    ensures limit { result ≤ 19 }
{
    for pairs in 0..19 {
        if number < power_of_100(pairs) {
            return pairs;
        }
    }
    19
}

// A byte of a number's key, complemented if the number is negative.
#[inline(always)]
fn append_signed<S: Sink>(negative: bool, byte: u8, sink: &mut S)
    requires { S.room sink.old (signed negative (byte ∷ [])) }
    ensures { S.appends sink.old sink.new (signed negative (byte ∷ [])) }
{
    sink.append(&[if negative { 255 - byte } else { byte }]);
}

// The digits of `high`, which has so many pairs of them, and then those of `low`.
fn append_pairs<S: Sink>(negative: bool, mut high: u128, low: u8, pairs: usize, sink: &mut S)
    requires high { high < 100 ^ pairs }
    requires low { low < 100 }
    requires pairs { pairs < 20 }
    requires room { S.room sink.old (signed negative (split_pairs pairs high low)) }
    ensures { S.appends sink.old sink.new (signed negative (split_pairs pairs high low)) }
{
    for left in (0..pairs).rev() {
        let power = power_of_100(left);
        let pair = (high / power) as u8;
        high %= power;
        if high == 0 && low == 0 {
            append_signed(negative, 2 * pair, sink);
            return;
        }
        append_signed(negative, 2 * pair + 1, sink);
    }
    append_signed(negative, 2 * low, sink);
}

// A number as the pairs of digits before the last, the last pair, and how many pairs of zeros
// follow it.
#[derive(Clone, Copy)]
struct SplitDigits {
    high: u128,
    low: u8,
    zeros: usize,
}

// A magnitude over 10 ^ scale, times 10 ^ 256.
#[tactic(auto, using(crate::proofs::PowerLaws::even_digits, crate::proofs::PowerLaws::odd_digits))]
fn split_digits(magnitude: u128, scale: u8) -> SplitDigits
    requires { magnitude ≤ 2 ^ 127 }
    ensures value { magnitude * 10 ^ (256 - scale) ≡ digits_value result }
    ensures high { result.high < 100 ^ 19 }
    ensures low { result.low < 100 }
    ensures zeros { result.zeros ≤ 128 }
{
    let zeros = (256 - usize::from(scale)) / 2;
    if scale % 2 == 0 {
        SplitDigits {
            high: magnitude / 100,
            low: (magnitude % 100) as u8,
            zeros,
        }
    } else {
        SplitDigits {
            high: magnitude / 10,
            low: (magnitude % 10) as u8 * 10,
            zeros,
        }
    }
}

// How many pairs of digits there are.
fn append_count<S: Sink>(negative: bool, count: usize, sink: &mut S)
    requires count { count < 149 }
    requires room { S.room sink.old (signed negative (count_bytes count)) }
    ensures { S.appends sink.old sink.new (signed negative (count_bytes count)) }
{
    if count >= 129 {
        append_signed(negative, count as u8 + 1, sink);
    } else if negative {
        sink.append(&[126, 255 - count as u8]);
    } else {
        sink.append(&[129, count as u8]);
    }
}

// The key of a number that is not 0, by its sign and its split digits.
fn append_digits<S: Sink>(negative: bool, digits: SplitDigits, sink: &mut S)
    requires some { 0 < digits.high * 100 + digits.low }
    requires high { digits.high < 100 ^ 19 }
    requires low { digits.low < 100 }
    requires zeros { digits.zeros ≤ 128 }
    requires room { S.room sink.old (signed negative (natural_key (digits_value digits))) }
    ensures { S.appends sink.old sink.new (signed negative (natural_key (digits_value digits))) }
{
    let SplitDigits { high, low, zeros } = digits;
    let pairs = count_pairs(high);
    append_count(negative, pairs + zeros + 1, sink);
    append_pairs(negative, high, low, pairs, sink);
}

// The key of a number by its sign and magnitude.
fn append_magnitude<S: Sink>(negative: bool, magnitude: u128, scale: u8, sink: &mut S)
    requires magnitude { magnitude ≤ 2 ^ 127 }
    requires room { S.room sink.old
        (signed negative (natural_key (magnitude * 10 ^ (256 - scale)))) }
    ensures { S.appends sink.old sink.new
        (signed negative (natural_key (magnitude * 10 ^ (256 - scale)))) }
{
    let digits = split_digits(magnitude, scale);
    if digits.high == 0 && digits.low == 0 {
        append_signed(negative, 128, sink);
    } else {
        append_digits(negative, digits, sink);
    }
}

// The key of `value` over 10 ^ scale.
fn append_decimal<S: Sink>(value: i128, scale: u8, sink: &mut S)
    requires { S.room sink.old (decimal_key value scale) }
    ensures { S.appends sink.old sink.new (decimal_key value scale) }
{
    let magnitude = value.unsigned_abs();
    if value < 0 {
        append_magnitude(true, magnitude, scale, sink);
    } else {
        append_magnitude(false, magnitude, scale, sink);
    }
}

/// Appends the key of a number.
pub fn append_number<S: Sink>(number: Number, sink: &mut S)
    requires { S.room sink.old (number_key number) }
    ensures { S.appends sink.old sink.new (number_key number) }
{
    match number {
        Number::Int64(value) => append_decimal(i128::from(value), 0, sink),
        Number::UInt64(value) => append_decimal(i128::from(value), 0, sink),
        Number::Decimal64(decimal) => append_decimal(
            i128::from(decimal.value),
            decimal.scale,
            sink,
        ),
        Number::Decimal128(decimal) => append_decimal(decimal.value, decimal.scale, sink),
    }
}
