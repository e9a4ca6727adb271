//! The stored form of values: the type of an entry, and its payload.

ghost use Rattle.std.specs.Prelude.{◌≡◌, ◌≤◌, ◌<◌, ◌^◌, [], length, IsUtf8};
ghost use Rattle.jsonb_value.specs.NumCode.{number_payload};
ghost use Rattle.jsonb_value.specs.ExtCode.{extension_of, extension_payload};
ghost use Rattle.jsonb_value.specs.WellFormed.{IsNumber, IsExtension};
ghost use Rattle.jsonb_codec.specs.Room.{HasRoom, AppendsBytes};

use super::append::append_bytes;
use super::source::Leaf;
use crate::constants::{EXTENSION_TAG, FALSE_TAG, NULL_TAG, NUMBER_TAG, STRING_TAG, TRUE_TAG};
use jsonb_value::{ExtensionValue, Number};

/// A payload: bytes that exist already, or a value to be encoded.
#[derive(Clone, Copy)]
pub enum Payload<'a> {
    Bytes(&'a [u8]),
    Number(Number),
    Extension(ExtensionValue<'a>),
}

/// The stored form of a value: the type of its entry, and its payload.
#[derive(Clone, Copy)]
pub struct StoredEntry<'a> {
    pub type_code: u32,
    pub payload: Payload<'a>,
    ghost small: { type_code ≤ 0x70000000 },
}

impl<'a> StoredEntry<'a> {
    ghost use Rattle.jsonb_codec.specs.Words.{code_of};

    /// An entry that has only a type, and no payload.
    #[inline(always)]
    pub fn of_type(type_code: u32) -> StoredEntry<'a>
        requires { type_code ≤ 0x70000000 }
        ensures { code_of result ≡ (type_code, []) }
    {
        let payload = Payload::Bytes(&[]);
        StoredEntry { type_code, payload }
    }

    /// The stored entry of a text or a key. Every `&str` is UTF-8.
    #[inline(always)]
    pub fn of_text(text: &'a str) -> StoredEntry<'a>
        ensures code { code_of result ≡ (STRING_TAG, text.now) }
        ensures held { IsUtf8 text.now }
    {
        let payload = Payload::Bytes(text.as_bytes());
        StoredEntry {
            type_code: STRING_TAG,
            payload,
        }
    }
}

impl<'a> Leaf for StoredEntry<'a> {
    ghost use Rattle.jsonb_codec.specs.Code.{code_of};

    ghost code = { code_of };

    #[inline(always)]
    fn type_code(self) -> u32 {
        self.type_code
    }

    #[inline(always)]
    fn len(self) -> usize {
        match self.payload {
            Payload::Bytes(bytes) => bytes.len(),
            Payload::Number(number) => number.compact_len(),
            Payload::Extension(value) => value.compact_len(),
        }
    }

    #[inline(always)]
    fn append_to(self, out: &mut Vec<u8>) {
        match self.payload {
            Payload::Bytes(bytes) => append_bytes(out, bytes),
            Payload::Number(number) => append_number(out, number),
            Payload::Extension(value) => append_extension(out, value),
        }
    }
}

/// A scalar by its kind.
#[derive(Clone, Copy)]
pub enum Scalar<'a> {
    Null,
    Bool(bool),
    Text(&'a str),
    Number(&'a Number),
    Extension(ExtensionValue<'a>),
}

impl<'a> Scalar<'a> {
    ghost use Rattle.jsonb_codec.specs.Words.{scalar_code};

    /// A text or a key. Every `&str` is UTF-8.
    #[inline(always)]
    pub fn text(text: &'a str) -> Self
        ensures code { scalar_code result ≡ (STRING_TAG, text.now) }
        ensures held { IsUtf8 text.now }
    {
        Scalar::Text(text)
    }

    /// A number; its value fits its type.
    #[inline(always)]
    pub fn number(number: &'a Number) -> Self
        ensures code { scalar_code result ≡ (NUMBER_TAG, number_payload number.now) }
        ensures held { IsNumber number.now }
    {
        within_width(*number);
        Scalar::Number(number)
    }

    /// An extension value; its fields fit their types.
    #[inline(always)]
    pub fn extension(value: ExtensionValue<'a>) -> Self
        ensures code { scalar_code result
            ≡ (EXTENSION_TAG, extension_payload (extension_of value.entry)) }
        ensures held { IsExtension (extension_of value.entry) }
    {
        Scalar::Extension(value)
    }
}

#[inline(always)]
fn within_width(number: Number)
    ensures { IsNumber number }
{}

// Appends a number's payload. The buffer must have the capacity.
#[inline(always)]
fn append_number(out: &mut Vec<u8>, number: Number)
    requires { HasRoom out.old (number_payload number) }
    ensures { AppendsBytes out.old out.new (number_payload number) }
{
    let Ok(_) = number.compact_encode(out) else {
        unreachable!();
    };
}

// Appends an extension value's payload. The buffer must have the capacity.
fn append_extension(out: &mut Vec<u8>, value: ExtensionValue<'_>)
    requires fits { length (extension_payload (extension_of value)) < 2 ^ 28 }
    requires room { HasRoom out.old (extension_payload (extension_of value)) }
    ensures { AppendsBytes out.old out.new (extension_payload (extension_of value.entry)) }
{
    let Ok(_) = value.compact_encode(out) else {
        unreachable!();
    };
}

impl<'a> Leaf for Scalar<'a> {
    ghost use Rattle.jsonb_codec.specs.Code.{scalar_code};

    ghost code = { scalar_code };

    #[inline(always)]
    fn type_code(self) -> u32 {
        match self {
            Scalar::Null => NULL_TAG,
            Scalar::Bool(false) => FALSE_TAG,
            Scalar::Bool(true) => TRUE_TAG,
            Scalar::Text(_) => STRING_TAG,
            Scalar::Number(_) => NUMBER_TAG,
            Scalar::Extension(_) => EXTENSION_TAG,
        }
    }

    #[inline(always)]
    fn len(self) -> usize {
        match self {
            Scalar::Null | Scalar::Bool(_) => 0,
            Scalar::Text(text) => text.len(),
            Scalar::Number(number) => number.compact_len(),
            Scalar::Extension(value) => value.compact_len(),
        }
    }

    #[inline(always)]
    fn append_to(self, out: &mut Vec<u8>) {
        match self {
            Scalar::Null | Scalar::Bool(_) => (),
            Scalar::Text(text) => append_bytes(out, text.as_bytes()),
            Scalar::Number(number) => append_number(out, *number),
            Scalar::Extension(value) => append_extension(out, value),
        }
    }
}
