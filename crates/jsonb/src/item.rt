//! Single values: scalars, and documents by their bytes.

ghost use Rattle.std.specs.Prelude.{◌≡◌, ◌↔◌, None, Some, Ok, Err, option_map, IfOk};
ghost use Rattle.std.specs.Prelude.{IfErr, IsOkAnd, IsSome};
ghost use Rattle.jsonb.specs.Words.{Tree, cow_bytes, Doc, raw_bytes, item_view};
ghost use Rattle.jsonb.specs.Words.{result_view, null, item_in, item_of, scalar_item, text_item};
ghost use Rattle.jsonb.specs.Words.{number_item, extension_item, entry_item, entry_there};
ghost use Rattle.jsonb.specs.Words.{item_document, IsEntryIn, IsItemIn};
ghost use Rattle.jsonb.specs.Words.{CanBeStored, kind_of_view, raw_in, text_in};

use crate::entries::Entry;
use crate::extension_item::ExtensionItem;
use crate::item_type::JsonbItemType;
use crate::number_item::NumberItem;
use crate::owned::OwnedJsonb;
use crate::raw::RawJsonb;
use jsonb_codec::constants::{
    CONTAINER_TAG, EXTENSION_TAG, FALSE_TAG, NULL_TAG, NUMBER_TAG, SCALAR_CONTAINER_TAG,
    STRING_TAG, TRUE_TAG,
};
use jsonb_codec::read_header;
use jsonb_value::Error;
use std::alloc::Global;
use std::borrow::CowStr;
use std::str;

/// A value: a scalar, or a document by its bytes, borrowed or owned. The document of a scalar may
/// be held by its bytes too.
#[derive(Debug, Drop)]
pub enum JsonbItem<'a> {
    Null,
    Boolean(bool),
    Number(NumberItem<'a>),
    String(CowStr<'a>),
    Extension(ExtensionItem<'a>),
    Raw(RawJsonb<'a>),
    Owned(OwnedJsonb),
}

impl<'a> JsonbItem<'a> {
    /// The item that these bytes hold. An array or object is recognized by its header and becomes
    /// `Raw` with all the bytes, unchecked. A scalar becomes the item of its one entry; bytes after
    /// its payload are ignored.
    ///
    /// `InvalidEOF` if the header or the entry word is cut off; `InvalidJsonb` for a header or an
    /// entry of an unknown kind, for a payload that runs past the end, and for a container's entry
    /// under a scalar's header; `InvalidUtf8`, `InvalidJsonbNumber` or `InvalidJsonbExtension` if
    /// the payload is invalid for its type.
    pub fn from_raw_jsonb(raw: RawJsonb<'a>) -> Result<JsonbItem<'a>, Error>
        ensures item { result_view result ≡ item_in (raw_bytes raw.entry) }

        // For a document it succeeds; the item means the document's value and is stored as these
        // bytes.
        ensures document { (t : Tree) → Doc (raw_bytes raw.entry) t
            → IsOkAnd result (λ item. IsItemIn t (raw_bytes raw.entry) (item_view item)) }
        ensures again { (t : Tree) → Doc (raw_bytes raw.entry) t
            → IsOkAnd result (λ item. (item_document (item_view item) ≡ raw_bytes raw.entry)
            × CanBeStored (item_view item)) }
    {
        item_of_bytes(raw)
    }

    /// The kind, from the variant or, for `Raw` and `Owned`, from their bytes. Errors occur only
    /// for these two: `InvalidEOF` if the header or the entry word is cut off, `InvalidJsonb` for a
    /// header or an entry of an unknown kind, and for a container's entry under a scalar's header.
    pub fn jsonb_item_type(&self) -> Result<JsonbItemType, Error>
        ensures { result ≡ kind_of_view (item_view self.now) }
    {
        match self {
            JsonbItem::Null => Ok(JsonbItemType::Null),
            JsonbItem::Boolean(_) => Ok(JsonbItemType::Boolean),
            JsonbItem::Number(_) => Ok(JsonbItemType::Number),
            JsonbItem::String(_) => Ok(JsonbItemType::String),
            JsonbItem::Extension(_) => Ok(JsonbItemType::Extension),
            JsonbItem::Raw(raw) => raw.jsonb_item_type(),
            JsonbItem::Owned(owned) => owned.as_raw().jsonb_item_type(),
        }
    }

    /// The bytes of a `Raw`. `None` for every other variant.
    pub fn as_raw_jsonb(&self) -> Option<RawJsonb<'a>>
        ensures { option_map raw_bytes result ≡ raw_in (item_view self.now) }
    {
        match self {
            JsonbItem::Raw(raw) => Some(*raw),
            _ => None,
        }
    }

    /// `Some(())` for `Null`. `None` for every other variant.
    pub fn as_null(&self) -> Option<()>
        ensures { IsSome result ↔ (item_view self.now ≡ null) }
    {
        match self {
            JsonbItem::Null => Some(()),
            _ => None,
        }
    }

    /// The text of a `String`: borrowed if the item borrows it, otherwise a copy. `None` for every
    /// other variant. `OutOfMemory` is the only error.
    pub fn as_str(&self, alloc: Global) -> Result<Option<CowStr<'a>>, Error>
        ensures ok { IfOk result
            (λ text. option_map cow_bytes text ≡ text_in (item_view self.now)) }
        ensures memory { IfErr result (λ e. e ≡ Error.OutOfMemory) }
    {
        match self {
            JsonbItem::String(text) => Ok(Some(clone_text(text, alloc)?)),
            _ => Ok(None),
        }
    }

    /// A copy of the item: owned bytes and texts are copied, borrowed ones are borrowed again.
    /// `OutOfMemory` is the only error.
    pub fn clone(&self, alloc: Global) -> Result<JsonbItem<'a>, Error>
        ensures ok { IfOk result (λ item. item_view item ≡ item_view self.now) }
        ensures memory { IfErr result (λ e. e ≡ Error.OutOfMemory) }
    {
        match self {
            JsonbItem::Null => Ok(JsonbItem::Null),
            JsonbItem::Boolean(value) => Ok(JsonbItem::Boolean(*value)),
            JsonbItem::Number(item) => Ok(JsonbItem::Number(*item)),
            JsonbItem::String(text) => Ok(JsonbItem::String(clone_text(text, alloc)?)),
            JsonbItem::Extension(item) => Ok(JsonbItem::Extension(*item)),
            JsonbItem::Raw(raw) => Ok(JsonbItem::Raw(*raw)),
            JsonbItem::Owned(owned) => Ok(JsonbItem::Owned(owned.clone(alloc)?)),
        }
    }
}

/// The text, borrowed or owned.
pub fn text_of<'t>(text: &'t CowStr<'_>) -> &'t str
    ensures { result.now ≡ cow_bytes text.now }
{
    match text {
        CowStr::Borrowed(text) => text,
        CowStr::Owned(text) => text.as_str(),
    }
}

// A copy of the text: a borrowed text is borrowed again, an owned one is copied.
fn clone_text<'a>(text: &CowStr<'a>, alloc: Global) -> Result<CowStr<'a>, Error>
    ensures ok { IfOk result (λ copy. cow_bytes copy ≡ cow_bytes text.now) }
    ensures memory { IfErr result (λ e. e ≡ Error.OutOfMemory) }
{
    match text {
        CowStr::Borrowed(text) => Ok(CowStr::Borrowed(text)),
        CowStr::Owned(text) => Ok(CowStr::Owned(String::from_str(alloc, text.as_str())?)),
    }
}

/// The item of an entry. For null and truth values only the type matters; a container's bytes are
/// not examined. `InvalidUtf8`, `InvalidJsonbNumber` or `InvalidJsonbExtension` if the payload is
/// invalid for its type, `InvalidJsonb` for an unknown type.
#[tactic(auto, unfolding(crate::specs::Item::item_of))]
pub fn item_of_entry<'a>(bytes: &'a [u8], entry: Entry) -> Result<JsonbItem<'a>, Error>
    requires { IsEntryIn bytes.now entry }
    ensures { result_view result ≡ entry_item (entry_there bytes.entry.now entry) }
{
    let payload = entry.payload(bytes);
    match entry.type_code {
        NULL_TAG => Ok(JsonbItem::Null),
        FALSE_TAG => Ok(JsonbItem::Boolean(false)),
        TRUE_TAG => Ok(JsonbItem::Boolean(true)),
        STRING_TAG => text_item(payload),
        NUMBER_TAG => number_item(payload),
        EXTENSION_TAG => extension_item(payload),
        CONTAINER_TAG => Ok(JsonbItem::Raw(RawJsonb::new(payload))),
        _ => Err(Error::InvalidJsonb),
    }
}

// The item of the entry under a scalar's header. `InvalidJsonb` for a container's entry, otherwise
// as `item_of_entry`.
#[tactic(auto, unfolding(crate::specs::Item::scalar_item))]
fn scalar_item<'a>(bytes: &'a [u8], entry: Entry) -> Result<JsonbItem<'a>, Error>
    requires { IsEntryIn bytes.now entry }
    ensures { result_view result ≡ scalar_item (entry_there bytes.entry.now entry) }
{
    if entry.type_code == CONTAINER_TAG {
        return Err(Error::InvalidJsonb);
    }
    item_of_entry(bytes, entry)
}

#[tactic(auto, using(crate::proofs::Utf8::is_text_yes, crate::proofs::Utf8::is_text_no))]
fn text_item<'a>(bytes: &'a [u8]) -> Result<JsonbItem<'a>, Error>
    ensures { result_view result ≡ text_item bytes.now }
{
    match str::from_utf8(bytes) {
        Ok(text) => Ok(JsonbItem::String(CowStr::Borrowed(text))),
        Err(_) => Err(Error::InvalidUtf8),
    }
}

fn number_item<'a>(bytes: &'a [u8]) -> Result<JsonbItem<'a>, Error>
    ensures { result_view result ≡ number_item bytes.now }
{
    Ok(JsonbItem::Number(NumberItem::from_bytes(bytes)?))
}

fn extension_item<'a>(bytes: &'a [u8]) -> Result<JsonbItem<'a>, Error>
    ensures { result_view result ≡ extension_item bytes.now }
{
    Ok(JsonbItem::Extension(ExtensionItem::from_bytes(bytes)?))
}

// The item that these bytes hold, as `JsonbItem::from_raw_jsonb` documents.
#[tactic(auto, unfolding(crate::specs::Item::item_in))]
fn item_of_bytes<'a>(raw: RawJsonb<'a>) -> Result<JsonbItem<'a>, Error>
    ensures { result_view result ≡ item_in (raw_bytes raw.entry) }
{
    let bytes = raw.as_bytes();
    let (tag, _) = read_header(bytes, 0)?;
    if tag != SCALAR_CONTAINER_TAG {
        return Ok(JsonbItem::Raw(raw));
    }
    scalar_item(bytes, Entry::read(bytes, 4, 8)?)
}
