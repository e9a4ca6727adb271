//! Documents that were checked once and are not checked again by any later call.

use crate::entries::Cursor;
use crate::item_type::JsonbItemType;
use crate::lookup::{MAX_READS, Reads, count_pairs, find_value};
use crate::node::Node;
use crate::nodes::{Items, Members};
use crate::owned::OwnedJsonb;
use crate::raw::RawJsonb;
use crate::text::{Layout, document_text, write_document};
use crate::text_len::document_text_len;
use jsonb_codec::constants::{ARRAY_CONTAINER_TAG, OBJECT_CONTAINER_TAG, SCALAR_CONTAINER_TAG};
use jsonb_codec::layer::{
    DocumentBytes, append_canonical_document, is_canonical_document, value_of_document,
};
use jsonb_codec::parts::Part;
use jsonb_codec::read_header;
use jsonb_value::{Error, Value};
use std::alloc::Global;
use std::fmt;

/// The borrowed bytes of a document. They were checked on construction, so no method fails because
/// of them or checks them again.
#[derive(Clone, Copy, Debug)]
pub struct Document<'a> {
    bytes: DocumentBytes<'a>,
}

/// The content of an array or object.
#[derive(Drop)]
pub enum Contents<'a> {
    Array(Items<'a>),
    Object(Members<'a>),
}

impl<'a> Document<'a> {
    ghost use Rattle.std.specs.Prelude.{◌≡◌, ◌↔◌, ◌<◌, ◌≤◌, ◌+◌, ◌*◌, ◌^◌, length, nat_eq};
    ghost use Rattle.std.specs.Prelude.{None, Some, Ok, Err, IfOk, IfErr, IfSome, IsSome, IsTrue};
    ghost use Rattle.std.specs.Prelude.{MatchOption, option_map, string_bytes};
    ghost use Rattle.jsonb_codec.specs.Contents.{PartMeans};
    ghost use Rattle.jsonb.specs.Lookup.{pair_count_in};
    ghost use Rattle.jsonb.specs.Words.{pointwise, compact, pretty, Tree, tree_of, canon};
    ghost use Rattle.jsonb.specs.Words.{Fits, IsCanonical, CONTAINER_TAG, depth, Doc};
    ghost use Rattle.jsonb.specs.Words.{MadeIfFit, AreStoredIn, IsFoundIn, node_view};
    ghost use Rattle.jsonb.specs.Words.{IsDocumentWithin, IsDocument, contents_tree, document_tree};
    ghost use Rattle.jsonb.specs.Words.{document_bytes, kind_of_tree, rest_trees, rest_pairs};
    ghost use Rattle.jsonb.specs.Words.{node_tree, value_of_key, words_for_key};
    ghost use Rattle.jsonb.specs.Words.{items_of, item_at_index, members_of, first_key_of};
    ghost use Rattle.jsonb.specs.Words.{IsContainer, HoldsNoScalar, owned_bytes, raw_bytes};
    ghost use Rattle.jsonb.specs.Words.{length_64, header_at, IsEntryAt, IsItemFoundIn};
    ghost use Rattle.jsonb.specs.EntryTrees.{entry_of_part};
    ghost use Rattle.jsonb_codec.specs.declared.constants.TheConstants.{ARRAY_CONTAINER_TAG};
    ghost use Rattle.jsonb_codec.specs.declared.constants.TheConstants.{OBJECT_CONTAINER_TAG};

    /// Checks the bytes. `None` if they are not a document.
    pub fn new(bytes: &'a [u8]) -> Option<Self>
        ensures exact { IsSome result ↔ IsDocument bytes.entry.now }
        ensures bytes { IfSome result (λ d. document_bytes d ≡ bytes.entry.now) }
    {
        match DocumentBytes::new(bytes) {
            Some(bytes) => Some(Document { bytes }),
            None => None,
        }
    }

    /// Checks the bytes and their depth: a scalar has depth 0, an empty array or object 1, any
    /// other array or object one more than its deepest child. `None` if they are not a document of
    /// at most this depth. Levels beyond it are not examined.
    pub fn within(bytes: &'a [u8], depth: usize) -> Option<Self>
        ensures exact { IsSome result ↔ IsDocumentWithin depth bytes.entry.now }
        ensures bytes { IfSome result (λ d. document_bytes d ≡ bytes.entry.now) }
    {
        match DocumentBytes::within(bytes, depth) {
            Some(bytes) => Some(Document { bytes }),
            None => None,
        }
    }

    /// Wraps bytes that the caller knows to be a document, without checking them. For callers that
    /// keep checked bytes, as a column of documents does.
    pub fn new_unchecked(bytes: &'a [u8]) -> Self
        requires { IsDocument bytes.now }
        ensures { document_bytes result ≡ bytes.entry.now }
    {
        Document {
            bytes: DocumentBytes::new_unchecked(bytes),
        }
    }

    // An array or object inside another one is a document itself.
    pub(crate) fn of_container(part: Part<'a>) -> Self
        requires { part.type_code ≡ CONTAINER_TAG }
        ensures tree { (t : Tree) → PartMeans part.entry t → document_tree result ≡ t }
        ensures bytes { document_bytes result ≡ part.entry.payload.now }
    {
        Document {
            bytes: DocumentBytes::of_container(part),
        }
    }

    /// The bytes of the document.
    #[tactic(auto, using(crate::proofs::DocumentLaws::known_Doc))]
    pub fn as_bytes(&self) -> &'a [u8]
        ensures bytes { result.now ≡ document_bytes self.now }
        ensures document { Doc result.now (document_tree self.now) }
    {
        self.bytes.as_bytes()
    }

    /// The same bytes as a `RawJsonb`.
    pub fn as_raw(&self) -> RawJsonb<'a>
        ensures bytes { raw_bytes result ≡ document_bytes self.now }
        ensures document { Doc (raw_bytes result) (document_tree self.now) }
    {
        RawJsonb::new(self.as_bytes())
    }

    /// The kind; an array or object with its count of items or pairs.
    pub fn kind(&self) -> JsonbItemType
        ensures { result ≡ kind_of_tree (document_tree self.now) }
    {
        match self.header() {
            (ARRAY_CONTAINER_TAG, count) => JsonbItemType::Array(count),
            (OBJECT_CONTAINER_TAG, count) => JsonbItemType::Object(count),
            _ => JsonbItemType::of_scalar(self.part().type_code),
        }
    }

    /// The single part that the document consists of.
    #[inline(always)]
    #[tactic(auto, using(crate::proofs::DocumentLaws::known_Doc))]
    pub fn part(&self) -> Part<'a>
        ensures means { PartMeans result (document_tree self.now) }
        ensures len { length result.payload.now < 2 ^ 64 }
    {
        self.bytes.part()
    }

    /// The document as a value.
    pub fn value(&self) -> Node<'a>
        ensures tree { node_tree result ≡ document_tree self.now }
        ensures container { HoldsNoScalar result }
    {
        self.node()
    }

    // The document as a value; a `Container` holds an array or object, never a scalar.
    #[inline(always)]
    pub(crate) fn node(&self) -> Node<'a>
        ensures tree { node_tree result ≡ document_tree self.now }
        ensures container { HoldsNoScalar result }
        ensures shallow { depth (document_tree self.now) < 2 ^ 64 }
    {
        Node::of_part(self.part())
    }

    /// The content of an array or object, by the kind that is in its header. `None` if the document
    /// is a scalar's.
    #[inline(always)]
    pub fn contents(&self) -> Option<Contents<'a>>
        ensures tree { MatchOption result (IsContainer (document_tree self.now) → ⊥)
            (λ contents. contents_tree contents ≡ document_tree self.now) }
        ensures entries { IfSome result
            (AreStoredIn (document_bytes self.now) (document_tree self.now)) }
    {
        match self.header() {
            (ARRAY_CONTAINER_TAG, count) => Some(Contents::Array(self.items_of(count))),
            (OBJECT_CONTAINER_TAG, count) => Some(Contents::Object(self.members_of(count))),
            _ => None,
        }
    }

    // The content of what is known to be an array or object.
    #[inline(always)]
    pub(crate) fn container_contents(&self) -> Contents<'a>
        requires { IsContainer (document_tree self.now) }
        ensures { contents_tree result ≡ document_tree self.now }
    {
        match self.header() {
            (OBJECT_CONTAINER_TAG, count) => Contents::Object(self.members_of(count)),
            (_, count) => Contents::Array(self.items_of(count)),
        }
    }

    // The kind in the header, and the count of items or pairs. That of a document can be read.
    #[inline(always)]
    fn header(&self) -> (u32, usize)
        ensures value { Ok result ≡ header_at (document_bytes self.now) 0 }
        ensures few { result.1 < 2 ^ 29 }
    {
        read_header(self.as_bytes(), 0).unwrap_or((SCALAR_CONTAINER_TAG, 0))
    }

    // The items of an array with this count in its header.
    #[inline(always)]
    fn items_of(&self, count: usize) -> Items<'a>
        requires few { count < 2 ^ 29 }
        requires header { Ok (ARRAY_CONTAINER_TAG, count) ≡ header_at (document_bytes self.now) 0 }
        ensures tree { contents_tree (Contents.Array result) ≡ document_tree self.now }
        ensures entries { AreStoredIn (document_bytes self.now) (document_tree self.now)
            (Contents.Array result) }
    {
        Items::new(Cursor::over_items(self.as_bytes(), count))
    }

    // The members of an object with this count in its header.
    #[inline(always)]
    fn members_of(&self, count: usize) -> Members<'a>
        requires few { count < 2 ^ 29 }
        requires header { Ok (OBJECT_CONTAINER_TAG, count) ≡ header_at (document_bytes self.now) 0 }
        ensures tree { contents_tree (Contents.Object result) ≡ document_tree self.now }
        ensures entries { AreStoredIn (document_bytes self.now) (document_tree self.now)
            (Contents.Object result) }
    {
        let bytes = self.as_bytes();
        let keys = Cursor::over_keys(bytes, count);
        Members::new(keys, Cursor::over_values_within(bytes, count))
    }

    /// The items of an array, in order. `None` if the document is not an array.
    pub fn items(&self) -> Option<Items<'a>>
        ensures { option_map rest_trees result ≡ items_of (document_tree self.now) }
    {
        self.stored_items()
    }

    // The same, by the entries that are stored.
    #[inline(always)]
    fn stored_items(&self) -> Option<Items<'a>>
        ensures tree { option_map rest_trees result ≡ items_of (document_tree self.now) }
        ensures entries { IfSome result (λ items. AreStoredIn (document_bytes self.now)
            (document_tree self.now) (Contents.Array items)) }
    {
        match self.header() {
            (ARRAY_CONTAINER_TAG, count) => Some(self.items_of(count)),
            _ => None,
        }
    }

    /// The members of an object, in the order of their keys. `None` if the document is not an
    /// object.
    pub fn members(&self) -> Option<Members<'a>>
        ensures { option_map rest_pairs result ≡ members_of (document_tree self.now) }
    {
        let Contents::Object(members) = self.contents()? else {
            return None;
        };
        Some(members)
    }

    // The first key of an object, or `Some(None)` if the object is empty. It is read without the
    // lengths of the other keys. `None` for all but objects.
    pub(crate) fn first_key(&self) -> Option<Option<&'a str>>
        ensures { option_map (option_map (λ key. key.now)) result
            ≡ first_key_of (document_tree self.now) }
    {
        let (OBJECT_CONTAINER_TAG, count) = self.header() else {
            return None;
        };
        match Cursor::over_keys(self.as_bytes(), count).next_part() {
            Some(key) => Some(Some(key.text())),
            None => Some(None),
        }
    }

    /// The item of an array at an index, counted from 0. `None` if the index is not below the
    /// number of items, or the document is not an array.
    pub fn index(&self, index: usize) -> Option<Node<'a>>
        // It has the type and payload of the item's entry.
        ensures { (option_map node_tree result ≡ item_at_index index (document_tree self.now))
            × IsItemFoundIn index (document_bytes self.now) (document_tree self.now)
            (option_map node_view result) }
    {
        self.stored_item(index)
    }

    // The same, in two clauses.
    #[inline(always)]
    fn stored_item(&self, index: usize) -> Option<Node<'a>>
        ensures value { option_map node_tree result ≡ item_at_index index (document_tree self.now) }
        ensures entry { IsItemFoundIn index (document_bytes self.now) (document_tree self.now)
            (option_map node_view result) }
    {
        self.stored_items()?.item_at(index)
    }

    /// The value of a key. `None` if there is no such key, or the document is not an object.
    pub fn get(&self, name: &str) -> Option<Node<'a>>
        ensures value { option_map node_tree result
            ≡ value_of_key name.now (document_tree self.now) }

        // It has the type and payload of the key's entry.
        ensures entry { IsFoundIn (pointwise nat_eq name.now) (length name.now)
            (document_bytes self.now) (document_tree self.now) (option_map node_view result) }
    {
        let Contents::Object(members) = self.contents()? else {
            return None;
        };
        let part = members.find(name)?;
        Some(Node::of_part(part))
    }

    /// The value of a key, as `get` returns it. Each word of the document that is read is counted:
    /// the header, each key's entry, and the values' entries up to the wanted one, so at most
    /// 2n + 1 words among n pairs. The count must be at most `MAX_READS` before.
    pub fn get_counted(&self, name: &str, reads: &mut Reads) -> Option<Node<'a>>
        requires { reads.old ≤ MAX_READS }
        ensures value { option_map node_tree result
            ≡ value_of_key name.now (document_tree self.now) }
        ensures cost { reads.new ≡ reads.old + words_for_key name.now (document_tree self.now) }
        ensures bound { reads.new ≤ reads.old + (2 * pair_count_in (document_tree self.now) + 1) }

        // It has the type and payload of the key's entry.
        ensures entry { IsFoundIn (pointwise nat_eq name.now) (length name.now)
            (document_bytes self.now) (document_tree self.now) (option_map node_view result) }
    {
        let part = self.find_counted(name, reads)?;
        Some(Node::of_part(part))
    }

    // The same, as the part that the value is. On a document `ok` drops no error.
    fn find_counted(&self, name: &str, reads: &mut Reads) -> Option<Part<'a>>
        requires { reads.old ≤ MAX_READS }
        ensures entry { IsEntryAt (pointwise nat_eq name.now) (length name.now)
            (document_bytes self.now) (document_tree self.now) (option_map entry_of_part result) }
        ensures cost { reads.new ≡ reads.old + words_for_key name.now (document_tree self.now) }
        ensures bound { reads.new ≤ reads.old + (2 * pair_count_in (document_tree self.now) + 1) }
    {
        let bytes = self.as_bytes();
        let count = count_pairs(bytes, reads).ok()??;
        let is_name = |name: &[u8], key: &[u8]| name == key;
        let entry = find_value(bytes, count, name, &is_name, reads).ok()??;
        Some(Part {
            type_code: entry.type_code,
            payload: entry.payload(bytes),
        })
    }

    /// The compact text, without white space. `OutOfMemory` is the only error.
    pub fn to_string(&self, alloc: Global) -> Result<String, Error>
        ensures text { IfOk result (λ text. string_bytes text ≡ compact (document_tree self.now)) }
        ensures memory { IfErr result (λ e. e ≡ Error.OutOfMemory) }
    {
        // The text is usually about as long as the bytes.
        document_text(alloc, *self, Layout::InOneLine, self.as_bytes().len())
    }

    /// The text with each item or pair on its own line, indented by two spaces for each enclosing
    /// container. `OutOfMemory` is the only error.
    pub fn to_pretty_string(&self, alloc: Global) -> Result<String, Error>
        ensures text { IfOk result (λ text. string_bytes text ≡ pretty (document_tree self.now)) }
        ensures memory { IfErr result (λ e. e ≡ Error.OutOfMemory) }
    {
        // Indents may make the text many times as long as the bytes: memory is asked for once.
        document_text(alloc, *self, Layout::OnLines(0), self.pretty_len())
    }

    /// The length in bytes of the text of `to_string`, or `usize::MAX` if it is longer. The text is
    /// counted without memory for it, in one walk over the document.
    pub fn text_len(&self) -> usize
        ensures { result ≡ length_64 (compact (document_tree self.now)) }
    {
        document_text_len(*self, Layout::InOneLine)
    }

    /// The length in bytes of the text of `to_pretty_string`, or `usize::MAX` if it is longer. The
    /// text is counted without memory for it, in one walk over the document: each indent is one
    /// step, so that the time does not grow with the text.
    pub fn pretty_len(&self) -> usize
        ensures { result ≡ length_64 (pretty (document_tree self.now)) }
    {
        document_text_len(*self, Layout::OnLines(0))
    }

    /// Decodes the document. Strings and extension data in the value are borrowed from the bytes.
    /// `OutOfMemory` is the only error.
    pub fn to_value(&self, alloc: Global) -> Result<Value<'a>, Error>
        ensures ok { IfOk result (λ value. tree_of value ≡ document_tree self.now) }
        ensures memory { IfErr result (λ e. e ≡ Error.OutOfMemory) }
    {
        value_of_document(alloc, self.bytes)
    }

    /// Whether the bytes are canonical: those that the encoder writes for the document's value.
    pub fn is_canonical(&self) -> bool
        ensures { IsTrue result ↔ IsCanonical (document_bytes self.now) }
    {
        is_canonical_document(self.bytes)
    }

    /// The canonical document of the value. `InvalidJsonb`, before any allocation, if a payload in
    /// an older form exceeds 268,435,455 bytes in its newer form; `OutOfMemory` if an allocation
    /// fails.
    pub fn to_canonical(&self, alloc: Global) -> Result<OwnedJsonb, Error>
        ensures ok { IfOk result (λ owned. owned_bytes owned ≡ canon (document_tree self.now)) }
        ensures limits { MadeIfFit (Fits (document_tree self.now)) result }
    {
        let mut bytes = Vec::new(alloc);
        append_canonical_document(&mut bytes, self.bytes)?;
        Ok(OwnedJsonb::new(bytes))
    }
}

/// Writes the compact text, without white space. Width and fill are ignored.
impl fmt::Display for Document<'_> {
    ghost use Rattle.std.specs.Prelude.{Some};
    ghost use Rattle.jsonb_value.specs.Text.{compact};
    ghost use Rattle.jsonb.specs.Document.{document_tree};

    ghost output = { λ document. Some (compact (document_tree document)) };

    ghost styled_output = { λ document _. Some (compact (document_tree document)) };

    fn fmt<W: fmt::Write>(&self, f: &mut fmt::Formatter<W>) -> fmt::Result {
        write_document(*self, Layout::InOneLine, f)
    }
}
