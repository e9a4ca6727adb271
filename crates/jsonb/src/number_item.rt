//! Numbers in items: as given payload bytes, or by value.

ghost use Rattle.std.specs.Prelude.{◌≡◌, Some};
ghost use Rattle.std.specs.Option.{ForSome};
ghost use Rattle.jsonb.specs.Payloads.{number_in};

use jsonb_codec::parts::Part;
use jsonb_codec::writer::Payload;
use jsonb_value::{Error, Number};

/// A number, held by value or as the bytes of its payload. Given bytes are stored unchanged.
#[derive(Clone, Copy, Debug)]
pub struct NumberItem<'a> {
    number: Number,
    payload: Option<&'a [u8]>,
    ghost means: { ForSome payload (λ bytes. number_in bytes.now ≡ Some number) },
}

impl<'a> NumberItem<'a> {
    ghost use Rattle.std.specs.Prelude.{IfOk, IfErr, OnErr, None};
    ghost use Rattle.std.specs.Option.{option_copied};
    ghost use Rattle.jsonb.specs.ItemView.{number};
    ghost use Rattle.jsonb.specs.Words.{Number, NumCode, number_source, number_of_item, IsHeld};
    ghost use Rattle.jsonb.specs.Words.{payload_bytes, number_bytes, Tree, NUMBER_TAG, number_item};
    ghost use Rattle.jsonb_value.specs.Tree as trees;
    ghost use Rattle.jsonb_codec.specs.Contents.{PartMeans};
    ghost use Rattle.std.specs.Prelude.{Ok};

    /// The number of these payload bytes, which are kept. `InvalidJsonbNumber` if they are not the
    /// payload of a number.
    pub fn from_bytes(bytes: &'a [u8]) -> Result<NumberItem<'a>, Error>
        ensures ok { IfOk result (λ item. NumCode bytes.entry.now (number_of_item item)) }
        ensures source { IfOk result (λ item. number_source item ≡ Some bytes.entry.now) }
        ensures none { OnErr result ((x : Number) → NumCode bytes.entry.now x → ⊥) }
        ensures err { IfErr result (λ e. e ≡ Error.InvalidJsonbNumber) }
    {
        let number = Number::decode(bytes)?;
        Ok(NumberItem {
            number,
            payload: Some(bytes),
        })
    }

    // The number that a part holds, with its payload.
    #[inline(always)]
    pub(crate) fn of_part(part: Part<'a>) -> NumberItem<'a>
        requires { part.type_code ≡ NUMBER_TAG }
        ensures means { (t : Tree) → PartMeans part.entry t
            → t ≡ trees.number (number_of_item result) }
        ensures item { number_item part.entry.payload.now
            ≡ Ok (number (number_source result) (number_of_item result)) }
    {
        NumberItem {
            number: part.number(),
            payload: Some(part.payload),
        }
    }

    /// An item that holds this number by value.
    pub fn from_number(number: Number) -> NumberItem<'a>
        ensures number { number_of_item result ≡ number }
        ensures source { number_source result ≡ None }
    {
        NumberItem {
            number,
            payload: None,
        }
    }

    /// The number.
    pub fn as_number(&self) -> Number
        ensures { result ≡ number_of_item self.now }
    {
        self.number
    }

    /// The payload bytes that it was made from. `None` if it was made from a number.
    pub fn as_bytes(&self) -> Option<&'a [u8]>
        ensures { option_copied result ≡ number_source self.now }
    {
        self.payload
    }

    /// The payload to store: the given bytes, or the encoded number if there are none.
    pub(crate) fn payload(&self) -> Payload<'a>
        ensures bytes { payload_bytes result
            ≡ number_bytes (number_source self.now) (number_of_item self.now) }
        ensures held { IsHeld (number (number_source self.now) (number_of_item self.now)) }
    {
        match self.payload {
            Some(bytes) => Payload::Bytes(bytes),
            None => Payload::Number(self.as_number()),
        }
    }
}
