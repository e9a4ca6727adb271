//! Documents that own their bytes.

ghost use Rattle.std.specs.Prelude.{◌≡◌, ◌<◌, ◌^◌, length, Err, Some, IfOk, IfErr};
ghost use Rattle.jsonb.specs.Words.{MadeIfFit, owned_bytes, code_of, scalar_bytes, display_text};

use crate::document::Document;
use crate::item::JsonbItem;
use crate::raw::RawJsonb;
use crate::text::write_view;
use jsonb_codec::writer::{Level, Stored, StoredEntry, append_document};
use jsonb_codec::{encode_text, encode_text_within};
use jsonb_value::{Error, Exponents, ParseError};
use std::alloc::Global;
use std::collections::BTreeMap;
use std::fmt;

/// The bytes of a document, owned. Construction does not check them; each method documents its
/// result for bytes that are not a document.
#[derive(Debug, Drop)]
pub struct OwnedJsonb {
    bytes: Vec<u8>,
}

impl OwnedJsonb {
    ghost use Rattle.std.specs.Prelude.{◌↔◌, IfSome, IsSome, IsTrue, chars};
    ghost use Rattle.jsonb.specs.Words.{IsParsed, IsParsedUnder, IsParsedWithExponents, ParsesTo};
    ghost use Rattle.jsonb.specs.Words.{ParsesUnder, ParsesWithin, ParsesUnderWithin};
    ghost use Rattle.jsonb.specs.Words.{Json, JsonText, JsonWithExponents, Tree};
    ghost use Rattle.jsonb.specs.Words.{ParsesWithExponentsTo, ParsesWithExponentsWithin};
    ghost use Rattle.jsonb.specs.Words.{result_bytes};
    ghost use Rattle.jsonb.specs.Words.{IsDocumentWithin, IsDocument, raw_bytes, item_document};
    ghost use Rattle.jsonb.specs.Words.{CanBeStored, document_bytes, item_view, IsTree, IsPlain};
    ghost use Rattle.jsonb.specs.Words.{Doc, Fits, IsReadAgain, IsSignedZero, IsTextOf, ItemMeans};

    /// Takes these bytes, unchecked.
    pub fn new(bytes: Vec<u8>) -> Self
        ensures { owned_bytes result ≡ bytes.items }
    {
        Self { bytes }
    }

    /// A copy of these bytes, unchecked. `OutOfMemory` is the only error.
    pub fn from_bytes(alloc: Global, bytes: &[u8]) -> Result<OwnedJsonb, Error>
        ensures ok { IfOk result (λ owned. owned_bytes owned ≡ bytes.now) }
        ensures memory { IfErr result (λ e. e ≡ Error.OutOfMemory) }
    {
        Ok(OwnedJsonb::new(Vec::from_slice(alloc, bytes)?))
    }

    /// The bytes of the item: those of `Raw` copied and those of `Owned` moved, both unchecked; for
    /// every other item the document of the scalar, in which a number or extension value given as
    /// bytes keeps these bytes. It means what the item means, but for a signed zero given as a
    /// number, which is stored as the unsigned one. `InvalidJsonb`, before any allocation, if the
    /// scalar's payload exceeds 268,435,455 bytes; `OutOfMemory` if an allocation fails.
    pub fn from_item(alloc: Global, item: JsonbItem) -> Result<OwnedJsonb, Error>
        ensures ok { IfOk result
            (λ owned. owned_bytes owned ≡ item_document (item_view item.entry)) }
        ensures means { (t : Tree) → ItemMeans (item_view item.entry) t
            → CanBeStored (item_view item.entry) → (IsSignedZero (item_view item.entry) → ⊥)
            → Doc (item_document (item_view item.entry)) t }
        ensures limits { MadeIfFit (CanBeStored (item_view item.entry)) result }
    {
        match item {
            JsonbItem::Raw(raw) => raw.to_owned(alloc),
            JsonbItem::Owned(owned) => Ok(owned),
            scalar => of_scalar(alloc, scalar.code()),
        }
    }

    /// The bytes, borrowed as a `RawJsonb`.
    pub fn as_raw(&self) -> RawJsonb<'_>
        ensures { raw_bytes result ≡ owned_bytes self.now }
    {
        RawJsonb::new(self.as_bytes())
    }

    /// The bytes, borrowed.
    pub fn as_bytes(&self) -> &[u8]
        ensures { result.now ≡ owned_bytes self.now }
    {
        self.bytes.as_slice()
    }

    /// The bytes as a checked document. `None` if they are not a document.
    pub fn as_document(&self) -> Option<Document<'_>>
        ensures exact { IsSome result ↔ IsDocument (owned_bytes self.now) }
        ensures bytes { IfSome result (λ d. document_bytes d ≡ owned_bytes self.now) }
    {
        Document::new(self.as_bytes())
    }

    /// The bytes as a checked document that nests at most `depth` deep, like `Document::within`.
    /// `None` if they are not.
    pub fn as_document_within(&self, depth: usize) -> Option<Document<'_>>
        ensures exact { IsSome result ↔ IsDocumentWithin depth (owned_bytes self.now) }
        ensures bytes { IfSome result (λ d. document_bytes d ≡ owned_bytes self.now) }
    {
        Document::within(self.as_bytes(), depth)
    }

    /// The owned bytes.
    pub fn to_vec(self) -> Vec<u8>
        ensures { result.items ≡ owned_bytes self }
    {
        let OwnedJsonb { bytes } = self;
        bytes
    }

    /// The number of bytes.
    pub fn len(&self) -> usize
        ensures { result ≡ length (owned_bytes self.now) }
    {
        self.as_bytes().len()
    }

    /// Whether there are no bytes.
    pub fn is_empty(&self) -> bool
        ensures { IsTrue result ↔ (length (owned_bytes self.now) ≡ 0) }
    {
        self.as_bytes().is_empty()
    }

    /// A copy of the bytes. `OutOfMemory` is the only error.
    pub fn clone(&self, alloc: Global) -> Result<OwnedJsonb, Error>
        ensures ok { IfOk result (λ owned. owned_bytes owned ≡ owned_bytes self.now) }
        ensures memory { IfErr result (λ e. e ≡ Error.OutOfMemory) }
    {
        OwnedJsonb::from_bytes(alloc, self.as_bytes())
    }

    /// Parses a JSON text into the canonical document of its value; no text has two values.
    /// `InvalidJson` if the text is not accepted by `parse_value`, `InvalidJsonb` if a payload, a
    /// key or a count of its value exceeds its limit, `OutOfMemory` if an allocation fails. No
    /// stack is taken for the depth of the text. The text that a document without extension values
    /// prints as is read back as an equal document.
    pub fn parse(alloc: Global, text: &str) -> Result<OwnedJsonb, Error>
        ensures value { ParsesTo text.now (result_bytes result) }
        ensures parsed { IfOk result (λ owned. IsParsed text.now (owned_bytes owned)) }
        ensures one { (t u : Tree) → Json (chars text.now) t → Json (chars text.now) u → t ≡ u }
        ensures read_again { (t : Tree) → IsTree t → IsPlain t → Fits t → IsTextOf t text.now
            → IsReadAgain t text.now (result_bytes result) }
    {
        OwnedJsonb::parse_under(alloc, text, Exponents::Forbidden)
    }

    /// Parses a JSON text like `parse`, but takes numbers with an exponent too, each of which means
    /// exactly its value, as `parse_value_with_exponents` reads them: `1e5` is the integer 100000,
    /// and `1.50e1` the decimal 15.0. `InvalidJson` if the text is not accepted by
    /// `parse_value_with_exponents`, among them numbers past 128 bits or with more than 255 digits
    /// after the point; the other errors are those of `parse`.
    pub fn parse_with_exponents(alloc: Global, text: &str) -> Result<OwnedJsonb, Error>
        ensures value { ParsesWithExponentsTo text.now (result_bytes result) }
        ensures parsed { IfOk result
            (λ owned. IsParsedWithExponents text.now (owned_bytes owned)) }
        ensures one { (t u : Tree) → JsonWithExponents (chars text.now) t
            → JsonWithExponents (chars text.now) u → t ≡ u }
    {
        OwnedJsonb::parse_under(alloc, text, Exponents::Allowed)
    }

    // The document of a text, with exponents if they are allowed.
    fn parse_under(alloc: Global, text: &str, exponents: Exponents) -> Result<OwnedJsonb, Error>
        ensures value { ParsesUnder exponents text.now (result_bytes result) }
        ensures parsed { IfOk result
            (λ owned. IsParsedUnder exponents text.now (owned_bytes owned)) }
        ensures one { (t u : Tree) → JsonText exponents (chars text.now) t
            → JsonText exponents (chars text.now) u → t ≡ u }
    {
        Ok(OwnedJsonb::new(encode_text(alloc, text, exponents)?))
    }

    /// The canonical document of a JSON text that nests at most `depth` deep, for callers that walk
    /// the document by recursion later.
    ///
    /// `TooDeep` exactly if more brackets than `depth` are open at once, those in strings not
    /// counted, and before any other refusal. For JSON that number is the depth of its value, where
    /// values that a later equal key replaces count too (`json_laws`). Every other text has the
    /// result of `parse`: its document, which is within the depth, or `Refused` with the error of
    /// `parse`.
    pub fn parse_within(alloc: Global, text: &str, depth: usize) -> Result<OwnedJsonb, ParseError>
        ensures value { ParsesWithin depth text.now (result_bytes result) }
        ensures parsed { IfOk result (λ owned. IsParsed text.now (owned_bytes owned)) }
        ensures within { IfOk result (λ owned. IsDocumentWithin depth (owned_bytes owned)) }
    {
        OwnedJsonb::parse_under_within(alloc, text, depth, Exponents::Forbidden)
    }

    /// The canonical document of a JSON text that nests at most `depth` deep, as
    /// `parse_with_exponents` reads it. `TooDeep` comes as from `parse_within`; every other text
    /// has the result of `parse_with_exponents`.
    pub fn parse_with_exponents_within(
        alloc: Global,
        text: &str,
        depth: usize,
    ) -> Result<OwnedJsonb, ParseError>
        ensures value { ParsesWithExponentsWithin depth text.now (result_bytes result) }
        ensures parsed { IfOk result
            (λ owned. IsParsedWithExponents text.now (owned_bytes owned)) }
        ensures within { IfOk result (λ owned. IsDocumentWithin depth (owned_bytes owned)) }
    {
        OwnedJsonb::parse_under_within(alloc, text, depth, Exponents::Allowed)
    }

    // The document of a text within a depth, with exponents if they are allowed.
    fn parse_under_within(
        alloc: Global,
        text: &str,
        depth: usize,
        exponents: Exponents,
    ) -> Result<OwnedJsonb, ParseError>
        ensures value { ParsesUnderWithin exponents depth text.now (result_bytes result) }
        ensures parsed { IfOk result
            (λ owned. IsParsedUnder exponents text.now (owned_bytes owned)) }
        ensures within { IfOk result (λ owned. IsDocumentWithin depth (owned_bytes owned)) }
    {
        Ok(OwnedJsonb::new(encode_text_within(alloc, text, exponents, depth)?))
    }
}

impl From<Vec<u8>> for OwnedJsonb {
    ghost use Rattle.std.specs.Prelude.{◌≡◌};
    ghost use Rattle.jsonb.specs.Owned.{owned_bytes};

    ghost from_gives = { λ bytes owned. owned_bytes owned ≡ bytes.items };

    fn from(bytes: Vec<u8>) -> Self {
        OwnedJsonb::new(bytes)
    }
}

/// Writes the text that `RawJsonb::to_string` returns for the bytes, without allocating. Width and
/// fill are ignored.
impl fmt::Display for OwnedJsonb {
    ghost output = { λ owned. Some (display_text (owned_bytes owned)) };

    ghost styled_output = { λ owned _. Some (display_text (owned_bytes owned)) };

    fn fmt<W: fmt::Write>(&self, f: &mut fmt::Formatter<W>) -> fmt::Result {
        write_view(self.as_bytes(), f)
    }
}

// The document of a scalar with this entry.
fn of_scalar(alloc: Global, code: StoredEntry) -> Result<OwnedJsonb, Error>
    ensures ok { IfOk result (λ owned. owned_bytes owned
        ≡ scalar_bytes (code_of code.entry).0 (code_of code.entry).1) }
    ensures limits { MadeIfFit (length (code_of code.entry).1 < 2 ^ 28) result }
{
    let mut bytes = Vec::new(alloc);
    append_document::<&BTreeMap<&str, JsonbItem>>(&mut bytes, Level::Leaf(code))?;
    Ok(OwnedJsonb::new(bytes))
}
