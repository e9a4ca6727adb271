//! The stored form of items: the type and the payload of an entry.

ghost use Rattle.std.specs.Prelude.{◌≡◌, IsSome, ⊤};
ghost use Rattle.jsonb.specs.Words.{code_of, code_of_some, IsDocument, document_bytes, item_view};
ghost use Rattle.jsonb.specs.Words.{stored_code, document_code, pair_of, IsStored};
ghost use Rattle.jsonb.specs.Words.{IsHeld, HasSameEntry, raw_view};

use crate::document::Document;
use crate::item::{JsonbItem, text_of};
use crate::raw::RawJsonb;
use jsonb_codec::constants::{EXTENSION_TAG, FALSE_TAG, NULL_TAG, NUMBER_TAG, TRUE_TAG};
use jsonb_codec::layer::DocumentBytes;
use jsonb_codec::parts::Part;
use jsonb_codec::writer::{Stored, StoredEntry, part_code};

/// Items are stored as given; bytes must be a document.
impl<'a> Stored for JsonbItem<'a> {
    ghost stored = { λ item. IsStored (item_view item) };

    ghost code = { λ item. stored_code (item_view item) };

    ghost held = { λ item. IsHeld (item_view item) };

    #[inline(always)]
    fn is_stored(&self) -> bool {
        match self {
            JsonbItem::Raw(raw) => raw.is_document(),
            JsonbItem::Owned(owned) => owned.as_raw().is_document(),
            _ => true,
        }
    }

    #[inline(always)]
    fn code<'s>(&'s self) -> StoredEntry<'s> {
        let (type_code, payload) = match self {
            JsonbItem::Null => return StoredEntry::of_type(NULL_TAG),
            JsonbItem::Boolean(false) => return StoredEntry::of_type(FALSE_TAG),
            JsonbItem::Boolean(true) => return StoredEntry::of_type(TRUE_TAG),
            JsonbItem::Number(number) => (NUMBER_TAG, number.payload()),
            JsonbItem::String(text) => return StoredEntry::of_text(text_of(text)),
            JsonbItem::Extension(extension) => (EXTENSION_TAG, extension.payload()),
            JsonbItem::Raw(raw) => return document_code(raw.as_bytes()),
            JsonbItem::Owned(owned) => return document_code(owned.as_bytes()),
        };
        StoredEntry { type_code, payload }
    }
}

/// Documents are stored as given: they were checked on construction.
impl<'a> Stored for Document<'a> {
    ghost stored = { λ document. ⊤ };

    ghost code = { λ document. pair_of (document_code (document_bytes document)) };

    ghost held = { λ document. ⊤ };

    #[inline(always)]
    fn is_stored(&self) -> bool {
        true
    }

    #[inline(always)]
    fn code<'s>(&'s self) -> StoredEntry<'s> {
        document_code(self.as_bytes())
    }
}

// The entry of a document: a scalar's own entry, or an array or object whole.
#[inline(always)]
fn document_code(bytes: &[u8]) -> StoredEntry<'_>
    requires { IsDocument bytes.now }
    ensures { code_of result ≡ pair_of (document_code bytes.now) }
{
    part_code(DocumentBytes::new_unchecked(bytes).part())
}

/// The single part that a document consists of. `None` if the bytes are not a document.
#[inline(always)]
pub fn document_part<'a>(raw: RawJsonb<'a>) -> Option<Part<'a>>
    ensures { HasSameEntry IsSome code_of_some result (raw_view raw.entry) }
{
    Some(DocumentBytes::new(raw.as_bytes())?.part())
}
