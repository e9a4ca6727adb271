//! Documents by their borrowed bytes.

use crate::document::Document;
use crate::item::{JsonbItem, item_of_entry};
use crate::item_type::{JsonbItemType, kind_of};
use crate::lookup::{FoundValue, MAX_READS, Reads, count_pairs, find_value};
use crate::owned::OwnedJsonb;
use crate::text::{finish_text, text_for, write_pretty, write_view};
use crate::written::Written;
use jsonb_codec::layer::append_canonical;
use jsonb_codec::value_of;
use jsonb_value::{Error, Value};
use std::alloc::Global;
use std::cmp::Ordering;
use std::fmt;

/// Borrowed bytes that are read as a document in place. Construction does not check them; each
/// method documents its result for bytes that are not a document.
#[derive(Clone, Copy, Debug)]
pub struct RawJsonb<'a> {
    bytes: &'a [u8],
}

impl<'a> RawJsonb<'a> {
    ghost use Rattle.std.specs.Prelude.{◌≡◌, ◌≢◌, ◌↔◌, ◌⊎◌, ◌+◌, ◌-◌, ◌*◌, ◌≤◌, ℕ, Bool, List, []};
    ghost use Rattle.std.specs.Prelude.{All, None, Some, Ok, chars, codes, length, option_map};
    ghost use Rattle.std.specs.Prelude.{string_bytes, IfOk, IfErr, IfSome, IsOkAnd, IsSome, IsTrue};
    ghost use Rattle.std.specs.Prelude.{IsUtf8};
    ghost use Rattle.jsonb.specs.Words.{FnReturnsAtPair, meaning_cmp, norm, IsPlain, compact, Tree};
    ghost use Rattle.jsonb.specs.Words.{pretty, tree_cmp, tree_of, canon, Fits, IsCanonical, Doc};
    ghost use Rattle.jsonb.specs.Words.{IsDocumentWithin, IsDocument, IsTreeFault, MeansAgain};
    ghost use Rattle.jsonb.specs.Words.{document_bytes, document_tree, kind, kind_of_tree, LooksUp};
    ghost use Rattle.jsonb.specs.Words.{count_in_header, IsRefusal, LooksUpIn, LooksUpBytes, find};
    ghost use Rattle.jsonb.specs.Words.{LooksUpInBytes, value_view, AnswersBy, IsItemFound};
    ghost use Rattle.jsonb.specs.Words.{found_view, IsPlaceOf, RewritesTo, result_bytes};
    ghost use Rattle.jsonb.specs.Words.{raw_meaning, owned_bytes, raw_bytes, item_view, IsFoundIn};
    ghost use Rattle.jsonb.specs.Words.{other_text, display_text, pretty_display_text};

    /// Borrows these bytes, unchecked.
    pub fn new(bytes: &'a [u8]) -> Self
        ensures { raw_bytes result ≡ bytes.entry.now }
    {
        Self { bytes }
    }

    /// The bytes.
    pub fn as_bytes(&self) -> &'a [u8]
        ensures { result.now ≡ raw_bytes self.now }
    {
        self.bytes
    }

    /// The number of bytes.
    pub fn len(&self) -> usize
        ensures { result ≡ length (raw_bytes self.now) }
    {
        self.as_bytes().len()
    }

    /// Whether there are no bytes.
    pub fn is_empty(&self) -> bool
        ensures { IsTrue result ↔ (length (raw_bytes self.now) ≡ 0) }
    {
        self.as_bytes().is_empty()
    }

    /// A copy of the bytes, unchecked. `OutOfMemory` is the only error.
    pub fn to_owned(&self, alloc: Global) -> Result<OwnedJsonb, Error>
        ensures ok { IfOk result (λ owned. owned_bytes owned ≡ raw_bytes self.now) }
        ensures memory { IfErr result (λ e. e ≡ Error.OutOfMemory) }
    {
        OwnedJsonb::from_bytes(alloc, self.as_bytes())
    }

    /// Decodes the document. Strings and extension data in the value are borrowed from the bytes.
    ///
    /// If the bytes are not a document, the error names their first fault and nothing was
    /// allocated: `InvalidEOF`, `InvalidJsonb`, `InvalidJsonbNumber`, `InvalidJsonbExtension` or
    /// `InvalidUtf8`. `OutOfMemory` occurs only for a document.
    pub fn to_value(&self, alloc: Global) -> Result<Value<'a>, Error>
        ensures ok { IfOk result (λ v. Doc (raw_bytes self.now) (tree_of v)) }
        ensures one_tree { IfOk result
            (λ v. (t : Tree) → Doc (raw_bytes self.now) t → tree_of v ≡ t) }
        ensures fault { IfErr result (λ e. (e ≡ Error.OutOfMemory)
            ⊎ (IsTreeFault e × (IsDocument (raw_bytes self.now) → ⊥))) }
        ensures memory { IfErr result
            (λ e. e ≡ Error.OutOfMemory → IsDocument (raw_bytes self.now)) }
    {
        value_of(alloc, self.as_bytes())
    }

    /// Whether the bytes are a document.
    pub fn is_document(&self) -> bool
        ensures { IsTrue result ↔ IsDocument (raw_bytes self.now) }
    {
        jsonb_codec::is_document(self.as_bytes())
    }

    /// Whether the bytes are a document of at most this depth: a scalar has depth 0, an empty array
    /// or object 1, any other array or object one more than its deepest child.
    pub fn is_document_within(&self, depth: usize) -> bool
        ensures { IsTrue result ↔ IsDocumentWithin depth (raw_bytes self.now) }
    {
        jsonb_codec::is_document_within(self.as_bytes(), depth)
    }

    /// The bytes as a checked document. `None` if they are not a document.
    pub fn as_document(&self) -> Option<Document<'a>>
        ensures exact { IsSome result ↔ IsDocument (raw_bytes self.now) }
        ensures bytes { IfSome result (λ d. document_bytes d ≡ raw_bytes self.now) }
        ensures tree { (t : Tree) → Doc (raw_bytes self.now) t
            → IfSome result (λ d. document_tree d ≡ t) }
    {
        Document::new(self.as_bytes())
    }

    /// The bytes as a checked document that nests at most `depth` deep, like `Document::within`.
    /// `None` if they are not. The calls of a view that read, compare or print a document take
    /// stack for its depth: for untrusted bytes call those of this document.
    pub fn as_document_within(&self, depth: usize) -> Option<Document<'a>>
        ensures exact { IsSome result ↔ IsDocumentWithin depth (raw_bytes self.now) }
        ensures bytes { IfSome result (λ d. document_bytes d ≡ raw_bytes self.now) }
        ensures tree { (t : Tree) → Doc (raw_bytes self.now) t
            → IfSome result (λ d. document_tree d ≡ t) }
    {
        Document::within(self.as_bytes(), depth)
    }

    /// The kind, read from the header or, for a scalar, from its entry; an array or object with its
    /// count. Nothing else is checked. `InvalidEOF` if one of these words is cut off,
    /// `InvalidJsonb` for a header or an entry of an unknown kind, and for a container's entry
    /// under a scalar's header.
    pub fn jsonb_item_type(&self) -> Result<JsonbItemType, Error>
        ensures kind { result ≡ kind (raw_bytes self.now) }

        // The kind of a document is that of its value.
        ensures document { (t : Tree) → Doc (raw_bytes self.now) t
            → result ≡ Ok (kind_of_tree t) }
    {
        kind_of(self.as_bytes())
    }

    /// Compares the values of two documents, with the result of `cmp`. `None` if either side is not
    /// a document.
    pub fn try_cmp(&self, other: &RawJsonb<'_>) -> Option<Ordering>
        ensures none { (result ≡ None) ↔ ((IsDocument (raw_bytes self.now) → ⊥)
            ⊎ (IsDocument (raw_bytes other.now) → ⊥)) }
        ensures order { (t u : Tree) → Doc (raw_bytes self.now) t → Doc (raw_bytes other.now) u
            → result ≡ Some (tree_cmp t u) }
        ensures cmp { IfSome result
            (λ order. order ≡ meaning_cmp (raw_meaning self.now) (raw_meaning other.now)) }
    {
        Some(self.as_document()?.cmp(&other.as_document()?))
    }

    /// The value of a key, like `get_object_value_by_key_name` with its errors, counting the words
    /// that are read: `reads` is raised by one for the header, for each key's entry, and, if a key
    /// is accepted, for the values' entries up to that of its value. It must be at most `MAX_READS`
    /// before the call.
    pub fn get_object_value_by_key_name_counted<F: Fn(&[u8], &[u8]) -> bool + Drop>(
        &self,
        name: &str,
        eq_func: F,
        reads: &mut Reads,
    ) -> Result<Option<JsonbItem<'a>>, Error>
        requires room { reads.old ≤ MAX_READS }
        requires callable { (a b : _) → a.now ≡ name.now → length b.now ≡ length name.now
            → F.pre eq_func a b }
        ensures bound { (reads.old ≤ reads.new)
            × (reads.new ≤ reads.old + (2 * count_in_header (raw_bytes self.now) + 1)) }
        ensures refused { IfErr result IsRefusal }

        // On any bytes: the result or the error, given the results of the closure.
        ensures bytes { LooksUpBytes (FnReturnsAtPair F.Fn eq_func name.now) (length name.now)
            (raw_bytes self.now) (value_view result) (reads.new - reads.old) }

        // On a document: the result, given the document's members and entries.
        ensures document { (t : Tree) → Doc (raw_bytes self.now) t
            → IsOkAnd result
            (λ found. LooksUp (FnReturnsAtPair F.Fn eq_func name.now) (length name.now)
            (raw_bytes self.now) t (option_map item_view found) (reads.new - reads.old)) }
    {
        match self.find_object_value_counted(name, eq_func, reads)? {
            Some(found) => Ok(Some(found.item)),
            None => Ok(None),
        }
    }

    /// The value of a key, like `get_object_value_by_key_name` with its errors, and where its
    /// payload is in the bytes: the type of its entry, and the payload's offset and length. No word
    /// is read twice: `reads` is raised as by `get_object_value_by_key_name_counted`, and must be
    /// at most `MAX_READS` before the call.
    pub fn find_object_value_counted<F: Fn(&[u8], &[u8]) -> bool + Drop>(
        &self,
        name: &str,
        eq_func: F,
        reads: &mut Reads,
    ) -> Result<Option<FoundValue<'a>>, Error>
        requires room { reads.old ≤ MAX_READS }
        requires callable { (a b : _) → a.now ≡ name.now → length b.now ≡ length name.now
            → F.pre eq_func a b }
        ensures bound { (reads.old ≤ reads.new)
            × (reads.new ≤ reads.old + (2 * count_in_header (raw_bytes self.now) + 1)) }
        ensures refused { IfErr result IsRefusal }

        // On any bytes: the result or the error, given the results of the closure.
        ensures bytes { LooksUpBytes (FnReturnsAtPair F.Fn eq_func name.now) (length name.now)
            (raw_bytes self.now) (found_view result) (reads.new - reads.old) }

        // The entry is the one whose word was read last.
        ensures place { IfOk result (λ o. IfSome o (λ found.
            IsPlaceOf (raw_bytes self.now) (count_in_header (raw_bytes self.now))
            (reads.new - reads.old - 2) found.entry)) }
    {
        let bytes = self.as_bytes();
        let Some(count) = count_pairs(bytes, reads)? else {
            return Ok(None);
        };
        let Some(entry) = find_value(bytes, count, name, &eq_func, reads)? else {
            return Ok(None);
        };
        let item = item_of_entry(bytes, entry)?;
        Ok(Some(FoundValue { item, entry }))
    }

    /// The value of the first key, in stored order, that has the name's length in bytes and for
    /// which `eq_func(name, key)` is true; `eq_func` is called only for keys of that length. `None`
    /// for a scalar, an array and `{}`, and if no key is accepted. For an object of n pairs at most
    /// 2n + 1 words are read.
    ///
    /// `InvalidEOF` if the header or an entry word that is read is cut off; `InvalidJsonb` for a
    /// header of an unknown kind, if a key of the name's length or the value runs past the
    /// end, and for a value of an unknown type; `InvalidUtf8`, `InvalidJsonbNumber` or
    /// `InvalidJsonbExtension` if the value's payload is invalid.
    pub fn get_object_value_by_key_name<F: Fn(&[u8], &[u8]) -> bool + Drop>(
        &self,
        name: &str,
        eq_func: F,
    ) -> Result<Option<JsonbItem<'a>>, Error>
        requires callable { (a b : _) → a.now ≡ name.now → length b.now ≡ length name.now
            → F.pre eq_func a b }
        ensures refused { IfErr result IsRefusal }

        // On any bytes: the result or the error, given the results of the closure.
        ensures bytes { LooksUpInBytes (FnReturnsAtPair F.Fn eq_func name.now) (length name.now)
            (raw_bytes self.now) (value_view result) }

        // On a document: the result, given the document's members and entries.
        ensures document { (t : Tree) → Doc (raw_bytes self.now) t
            → IsOkAnd result
            (λ found. LooksUpIn (FnReturnsAtPair F.Fn eq_func name.now) (length name.now)
            (raw_bytes self.now) t (option_map item_view found)) }

        // If the closure computes one predicate: an item of the value that this predicate finds in
        // a document.
        ensures found { (accepts : List ℕ → Bool)
            → AnswersBy accepts (FnReturnsAtPair F.Fn eq_func name.now) (length name.now)
            → (t : Tree) → Doc (raw_bytes self.now) t
            → IsOkAnd result
            (λ found. IsItemFound (find accepts (length name.now) t) (option_map item_view found)) }

        // If the closure computes one predicate: the item of the entry that this predicate finds in
        // a document.
        ensures entry { (accepts : List ℕ → Bool)
            → AnswersBy accepts (FnReturnsAtPair F.Fn eq_func name.now) (length name.now)
            → (t : Tree) → Doc (raw_bytes self.now) t
            → IsOkAnd result (λ found. IsFoundIn accepts (length name.now) (raw_bytes self.now) t
            (option_map item_view found)) }
    {
        let mut reads = Reads::new();
        self.get_object_value_by_key_name_counted(name, eq_func, &mut reads)
    }

    /// The text of the bytes: the compact text of a document, `null` for no bytes, and for all
    /// other bytes their own text, with U+FFFD in place of invalid UTF-8. `OutOfMemory` is the only
    /// error.
    ///
    /// `parse` reads the text of a document without extension values back as an equal document. A
    /// nonempty UTF-8 text of at most 4,294,967,296 bytes without a zero byte is returned
    /// unchanged, since it is not a document.
    pub fn to_string(&self, alloc: Global) -> Result<String, Error>
        ensures display { IfOk result
            (λ text. string_bytes text ≡ display_text (raw_bytes self.now)) }
        ensures document { (t : Tree) → Doc (raw_bytes self.now) t
            → IfOk result (λ text. string_bytes text ≡ compact t) }
        ensures other { (IsDocument (raw_bytes self.now) → ⊥)
            → IfOk result (λ text. string_bytes text ≡ other_text (raw_bytes self.now)) }
        ensures short_text { IsUtf8 (raw_bytes self.now) → All (λ b. b ≢ 0) (raw_bytes self.now)
            → raw_bytes self.now ≢ [] → length (raw_bytes self.now) ≤ 4294967296
            → IfOk result (λ text. string_bytes text ≡ raw_bytes self.now) }
        ensures memory { IfErr result (λ e. e ≡ Error.OutOfMemory) }

        // The text of a document can be parsed again, whatever is returned here.
        ensures read_again { (t : Tree) → Doc (raw_bytes self.now) t → IsPlain t → Fits t
            → MeansAgain (chars (compact t)) t }
    {
        let bytes = self.as_bytes();
        let text = text_for(alloc, bytes)?;
        let mut f = fmt::Formatter::new(text);
        let answer = write_view(bytes, &mut f);
        finish_text(answer, f)
    }

    /// The text of a document with each item or pair on its own line, indented by two spaces for
    /// each enclosing container; `null` for bytes that are not a document. `OutOfMemory` is the
    /// only error. `parse` reads the text of a document without extension values back as an equal
    /// document.
    pub fn to_pretty_string(&self, alloc: Global) -> Result<String, Error>
        ensures display { IfOk result
            (λ text. string_bytes text ≡ pretty_display_text (raw_bytes self.now)) }
        ensures document { (t : Tree) → Doc (raw_bytes self.now) t
            → IfOk result (λ text. string_bytes text ≡ pretty t) }
        ensures other { (IsDocument (raw_bytes self.now) → ⊥)
            → IfOk result (λ text. string_bytes text ≡ codes "null") }
        ensures memory { IfErr result (λ e. e ≡ Error.OutOfMemory) }

        // The text of a document can be parsed again, whatever is returned here.
        ensures read_again { (t : Tree) → Doc (raw_bytes self.now) t → IsPlain t → Fits t
            → MeansAgain (chars (pretty t)) t }
    {
        let mut f = fmt::Formatter::new(Written::new(alloc));
        let answer = write_pretty(self.as_bytes(), &mut f);
        finish_text(answer, f)
    }

    /// Whether the bytes are canonical: those that the encoder writes for some value.
    pub fn is_canonical(&self) -> bool
        ensures { IsTrue result ↔ IsCanonical (raw_bytes self.now) }
    {
        jsonb_codec::is_canonical(self.as_bytes())
    }

    /// The canonical document of the value that the bytes mean: integers in the fewest bytes, zero
    /// as the single byte 0, decimals and timestamps with a time zone in their newer forms. It is
    /// canonical itself, compares `Equal` to its source, and is the same bytes exactly if the
    /// source is canonical. Every decimal keeps its kind and its scale.
    ///
    /// `InvalidJsonb`, before any allocation, if the bytes are not a document, or a payload in an
    /// older form exceeds 268,435,455 bytes in its newer form; `OutOfMemory` if an allocation
    /// fails. Everything is measured first and written with a single growth of the buffer; no tree
    /// is built.
    pub fn to_canonical(&self, alloc: Global) -> Result<OwnedJsonb, Error>
        ensures value { RewritesTo (raw_bytes self.now) (result_bytes result) }

        // How the result relates to its source; its own canonical form is itself.
        ensures same { IfOk result (λ owned. (owned_bytes owned ≡ raw_bytes self.now)
            ↔ IsCanonical (raw_bytes self.now)) }
        ensures canonical { IfOk result (λ owned. IsCanonical (owned_bytes owned)) }
        ensures means { IfOk result (λ owned. (t : Tree) → Doc (raw_bytes self.now) t
            → Doc (owned_bytes owned) (norm t)) }
        ensures equal { IfOk result (λ owned. (t u : Tree) → Doc (raw_bytes self.now) t
            → Doc (owned_bytes owned) u → tree_cmp u t ≡ Ordering.Equal) }
        ensures twice { IfOk result (λ owned. (u : Tree) → Doc (owned_bytes owned) u
            → Fits u × (canon u ≡ owned_bytes owned)) }
    {
        let mut bytes = Vec::new(alloc);
        append_canonical(&mut bytes, self.as_bytes())?;
        Ok(OwnedJsonb::new(bytes))
    }
}

impl<'a> From<&'a [u8]> for RawJsonb<'a> {
    ghost use Rattle.std.specs.Prelude.{◌≡◌};
    ghost use Rattle.jsonb.specs.Raw.{raw_bytes};

    ghost from_gives = { λ bytes raw. raw_bytes raw ≡ bytes.now };

    fn from(bytes: &'a [u8]) -> Self {
        RawJsonb::new(bytes)
    }
}
