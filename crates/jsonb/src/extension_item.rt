//! Extension values in items: as given payload bytes, or by value.

ghost use Rattle.std.specs.Prelude.{◌≡◌, Some};
ghost use Rattle.std.specs.Option.{ForSome};
ghost use Rattle.jsonb_value.specs.ExtCode.{extension_of};
ghost use Rattle.jsonb.specs.Payloads.{extension_in};

use jsonb_codec::parts::Part;
use jsonb_codec::writer::Payload;
use jsonb_value::{Error, ExtensionValue};

/// An extension value, held by value or as the bytes of its payload. Given bytes are stored
/// unchanged.
#[derive(Clone, Copy, Debug)]
pub struct ExtensionItem<'a> {
    value: ExtensionValue<'a>,
    payload: Option<&'a [u8]>,
    ghost means: { ForSome payload (λ bytes. extension_in bytes.now ≡ Some (extension_of value)) },
}

impl<'a> ExtensionItem<'a> {
    ghost use Rattle.std.specs.Prelude.{IfOk, IfErr, OnErr, None};
    ghost use Rattle.jsonb.specs.Words.{Extension, ExtCode, extension_source, extension_of_item};
    ghost use Rattle.jsonb.specs.Words.{extension_error, extension, IsHeld, payload_bytes};
    ghost use Rattle.jsonb.specs.Words.{extension_bytes, Tree, EXTENSION_TAG, extension_item};
    ghost use Rattle.jsonb_value.specs.Tree as trees;
    ghost use Rattle.jsonb_codec.specs.Contents.{PartMeans};
    ghost use Rattle.std.specs.Prelude.{Ok};

    /// The extension value of these payload bytes, which are kept. `InvalidJsonbNumber` if the
    /// first byte is a known tag and the length is wrong for it, `InvalidJsonbExtension` if the
    /// payload is empty or its first byte is not a known tag.
    pub fn from_bytes(bytes: &'a [u8]) -> Result<ExtensionItem<'a>, Error>
        ensures ok { IfOk result (λ item. ExtCode bytes.entry.now (extension_of_item item)) }
        ensures source { IfOk result (λ item. extension_source item ≡ Some bytes.entry.now) }
        ensures none { OnErr result ((e : Extension) → ExtCode bytes.entry.now e → ⊥) }
        ensures err { IfErr result (λ e. e ≡ extension_error bytes.entry.now) }
    {
        let value = ExtensionValue::decode(bytes)?;
        Ok(ExtensionItem {
            value,
            payload: Some(bytes),
        })
    }

    // The extension value that a part holds, with its payload.
    #[inline(always)]
    pub(crate) fn of_part(part: Part<'a>) -> ExtensionItem<'a>
        requires { part.type_code ≡ EXTENSION_TAG }
        ensures means { (t : Tree) → PartMeans part.entry t
            → t ≡ trees.extension (extension_of_item result) }
        ensures item { extension_item part.entry.payload.now
            ≡ Ok (extension (extension_source result) (extension_of_item result)) }
    {
        ExtensionItem {
            value: part.extension(),
            payload: Some(part.payload),
        }
    }

    /// An item that holds this extension value by value.
    pub fn from_value(value: ExtensionValue<'a>) -> ExtensionItem<'a>
        ensures value { extension_of_item result ≡ extension_of value.entry }
        ensures source { extension_source result ≡ None }
    {
        ExtensionItem {
            value,
            payload: None,
        }
    }

    /// The extension value.
    pub fn as_extension_value(&self) -> ExtensionValue<'a>
        ensures { extension_of result ≡ extension_of_item self.now }
    {
        self.value
    }

    /// The payload to store: the given bytes, or the encoded value if there are none.
    pub(crate) fn payload(&self) -> Payload<'a>
        ensures bytes { payload_bytes result
            ≡ extension_bytes (extension_source self.now) (extension_of_item self.now) }
        ensures held { IsHeld (extension (extension_source self.now) (extension_of_item self.now)) }
    {
        match self.payload {
            Some(bytes) => Payload::Bytes(bytes),
            None => Payload::Extension(self.as_extension_value()),
        }
    }
}
