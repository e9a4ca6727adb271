//! What may come next in a JSON text, in classes of characters.

ghost use Rattle.std.specs.Prelude.{◌≡◌, ◌+◌, ◌<◌, ◌≤◌, ◌^◌};
ghost use Rattle.json_fault.specs.Words.{scale_of, followed_by, outside, any_digit, class_bit};
ghost use Rattle.json_fault.specs.Words.{value_comes, key_comes, escape_comes, hex_digit_comes};
ghost use Rattle.json_fault.specs.Words.{digit_comes, exponent_comes, structure_bits, string_bits};
ghost use Rattle.json_fault.specs.Words.{number_bits, letter_bits, class_bits};

use crate::expected::{Bracket, Expected, followed};
use jsonb_value::Exponents;

/// The rest of a string may come, which is every character but control characters.
pub const EXPECTED_STRING: u32 = 0x1;
/// A value may begin.
pub const EXPECTED_VALUE: u32 = 0x2;
/// A key may begin.
pub const EXPECTED_KEY: u32 = 0x4;
/// The letter of an escape may come, after its backslash.
pub const EXPECTED_ESCAPE: u32 = 0x8;
/// A hexadecimal digit of an escape may come.
pub const EXPECTED_HEX_DIGIT: u32 = 0x10;
/// The backslash of the second half of a surrogate pair may come.
pub const EXPECTED_LOW_HALF: u32 = 0x20;
/// A digit of a number may come, and no value may begin.
pub const EXPECTED_DIGIT: u32 = 0x40;
/// The sign of an exponent may come.
pub const EXPECTED_SIGN: u32 = 0x80;
/// A decimal point may come.
pub const EXPECTED_POINT: u32 = 0x100;
/// A `:` may come.
pub const EXPECTED_COLON: u32 = 0x200;
/// A `,` may come.
pub const EXPECTED_COMMA: u32 = 0x400;
/// A `]` may come.
pub const EXPECTED_ARRAY_END: u32 = 0x800;
/// A `}` may come.
pub const EXPECTED_OBJECT_END: u32 = 0x1000;
/// An exponent may come.
pub const EXPECTED_EXPONENT: u32 = 0x2000;
/// The next letter of `false` is `a`.
pub const EXPECTED_A: u32 = 0x4000;
/// The last letter of `true` or `false` may come.
pub const EXPECTED_E: u32 = 0x8000;
/// An `l` of `false` or `null` may come.
pub const EXPECTED_L: u32 = 0x1_0000;
/// The `r` of `true` may come.
pub const EXPECTED_R: u32 = 0x2_0000;
/// The `s` of `false` may come.
pub const EXPECTED_S: u32 = 0x4_0000;
/// The `u` of `true` or `null` may come, or that of the second half of a surrogate pair.
pub const EXPECTED_U: u32 = 0x8_0000;
/// The text may end.
pub const EXPECTED_END: u32 = 0x10_0000;

/// What is expected next, and the innermost open bracket.
#[derive(Clone, Copy)]
pub struct Next {
    pub exponents: Exponents,
    pub expected: Expected,
    pub top: Option<Bracket>,
}

// The class if it may come, and otherwise nothing.
fn class_bit(comes: bool, class: u32) -> u32
    ensures bit { result ≡ class_bit comes class }
    ensures within { result ≤ class }
{
    if comes { class } else { 0 }
}

impl Next {
    // Whether this character may come.
    fn may_be(self, character: char) -> bool
        requires { scale_of self.expected + 1 < 2 ^ 64 }
        ensures { result ≡ followed_by self character }
    {
        followed(self.exponents, self.expected, self.top, character).is_some()
    }

    // Whether this character may come outside strings; a `/` comes in strings alone.
    fn may_be_outside(self, character: char) -> bool
        requires { scale_of self.expected + 1 < 2 ^ 64 }
        ensures { result ≡ outside (followed_by self) character }
    {
        self.may_be(character) && !self.may_be('/')
    }

    // Whether a key may begin.
    fn may_be_key(self) -> bool
        requires { scale_of self.expected + 1 < 2 ^ 64 }
        ensures { result ≡ key_comes (followed_by self) }
    {
        self.may_be_outside('"') && !self.may_be('[')
    }

    // Whether the letter of an escape may come.
    fn may_be_escape(self) -> bool
        requires { scale_of self.expected + 1 < 2 ^ 64 }
        ensures { result ≡ escape_comes (followed_by self) }
    {
        self.may_be('/') && !self.may_be('x')
    }

    // Whether a hexadecimal digit of an escape may come: no other token has one of these letters,
    // and each such digit may be one of them.
    fn may_be_hex_digit(self) -> bool
        requires { scale_of self.expected + 1 < 2 ^ 64 }
        ensures { result ≡ hex_digit_comes (followed_by self) }
    {
        self.may_be_outside('A') || self.may_be_outside('D')
    }

    // Whether a decimal digit may come.
    fn may_be_any_digit(self) -> bool
        requires { scale_of self.expected + 1 < 2 ^ 64 }
        ensures { result ≡ any_digit (followed_by self) }
    {
        self.may_be('0')
            || self.may_be('1')
            || self.may_be('2')
            || self.may_be('3')
            || self.may_be('4')
            || self.may_be('5')
            || self.may_be('6')
            || self.may_be('7')
            || self.may_be('8')
            || self.may_be('9')
    }

    // Whether a digit of a number may come where no value may begin.
    fn may_be_digit(self) -> bool
        requires { scale_of self.expected + 1 < 2 ^ 64 }
        ensures { result ≡ digit_comes (followed_by self) }
    {
        self.may_be_any_digit()
            && !self.may_be('[')
            && !self.may_be('/')
            && !self.may_be_hex_digit()
    }

    // Whether an exponent may come.
    fn may_be_exponent(self) -> bool
        requires { scale_of self.expected + 1 < 2 ^ 64 }
        ensures { result ≡ exponent_comes (followed_by self) }
    {
        self.may_be_outside('e') && self.may_be('E') && !self.may_be_hex_digit()
    }

    // The classes outside strings and numbers.
    fn structure(self) -> u32
        requires { scale_of self.expected + 1 < 2 ^ 64 }
        ensures bits { result ≡ structure_bits (followed_by self) }
        ensures within { result ≤ 0x1E06 }
    {
        class_bit(self.may_be_outside('['), EXPECTED_VALUE)
            + class_bit(self.may_be_key(), EXPECTED_KEY)
            + class_bit(self.may_be_outside(':'), EXPECTED_COLON)
            + class_bit(self.may_be_outside(','), EXPECTED_COMMA)
            + class_bit(self.may_be_outside(']'), EXPECTED_ARRAY_END)
            + class_bit(self.may_be_outside('}'), EXPECTED_OBJECT_END)
    }

    // The classes in strings.
    fn strings(self) -> u32
        requires { scale_of self.expected + 1 < 2 ^ 64 }
        ensures bits { result ≡ string_bits (followed_by self) }
        ensures within { result ≤ 0x39 }
    {
        class_bit(self.may_be('x'), EXPECTED_STRING)
            + class_bit(self.may_be_escape(), EXPECTED_ESCAPE)
            + class_bit(self.may_be_hex_digit(), EXPECTED_HEX_DIGIT)
            + class_bit(self.may_be_outside('\\'), EXPECTED_LOW_HALF)
    }

    // The classes in numbers.
    fn numbers(self) -> u32
        requires { scale_of self.expected + 1 < 2 ^ 64 }
        ensures bits { result ≡ number_bits (followed_by self) }
        ensures within { result ≤ 0x21C0 }
    {
        class_bit(self.may_be_digit(), EXPECTED_DIGIT)
            + class_bit(self.may_be_outside('+'), EXPECTED_SIGN)
            + class_bit(self.may_be_outside('.'), EXPECTED_POINT)
            + class_bit(self.may_be_exponent(), EXPECTED_EXPONENT)
    }

    // The letters of words.
    fn letters(self) -> u32
        requires { scale_of self.expected + 1 < 2 ^ 64 }
        ensures bits { result ≡ letter_bits (followed_by self) }
        ensures within { result ≤ 0xF_C000 }
    {
        let is_a = self.may_be_outside('a') && !self.may_be('A');
        let is_e = self.may_be_outside('e') && !self.may_be('E');
        class_bit(is_a, EXPECTED_A)
            + class_bit(is_e, EXPECTED_E)
            + class_bit(self.may_be_outside('l'), EXPECTED_L)
            + class_bit(self.may_be_outside('r'), EXPECTED_R)
            + class_bit(self.may_be_outside('s'), EXPECTED_S)
            + class_bit(self.may_be_outside('u'), EXPECTED_U)
    }

    /// The classes that may come, where the text may end or not.
    pub fn classes(self, ends: bool) -> u32
        requires { scale_of self.expected + 1 < 2 ^ 64 }
        ensures { result ≡ class_bits ends (followed_by self) }
    {
        class_bit(ends, EXPECTED_END)
            + self.structure()
            + self.strings()
            + self.numbers()
            + self.letters()
    }
}
