//! Any bytes, checked once for many comparisons.

use crate::document::Document;

/// Bytes with the result of checking them once: a document, or other bytes. Keys are ordered as
/// `RawJsonb`s are: documents by their values, and after them all other bytes, which compare as
/// bytes. No comparison checks them again. Use it to sort a column that may hold bytes that are not
/// documents.
#[derive(Clone, Copy, Debug, PartialEq, Eq, PartialOrd, Ord)]
pub enum SortKey<'a> {
    Document(Document<'a>),
    Other(&'a [u8]),
}

impl<'a> SortKey<'a> {
    ghost use Rattle.std.specs.Prelude.{◌≡◌};
    ghost use Rattle.jsonb.specs.SortKey.{sort_bytes};
    ghost use Rattle.jsonb.specs.Words.{meaning_of, meaning_within, key_meaning};

    /// Checks the bytes and returns their key.
    pub fn new(bytes: &'a [u8]) -> Self
        ensures bytes { sort_bytes result ≡ bytes.now }
        ensures meaning { key_meaning result ≡ meaning_of bytes.now }
    {
        match Document::new(bytes) {
            Some(document) => SortKey::Document(document),
            None => SortKey::Other(bytes),
        }
    }

    /// Checks the bytes and their depth, and returns their key: a document that nests deeper than
    /// `depth` levels is ordered by its bytes, after all documents that do not. A scalar has depth
    /// 0, an empty array or object 1, any other array or object one more than its deepest child.
    /// Levels beyond `depth` are not examined, so bytes from outside are safe.
    pub fn within(bytes: &'a [u8], depth: usize) -> Self
        ensures bytes { sort_bytes result ≡ bytes.now }
        ensures meaning { key_meaning result ≡ meaning_within depth bytes.now }
    {
        match Document::within(bytes, depth) {
            Some(document) => SortKey::Document(document),
            None => SortKey::Other(bytes),
        }
    }

    /// The bytes of the key.
    pub fn as_bytes(&self) -> &'a [u8]
        ensures { result.now ≡ sort_bytes self.now }
    {
        match self {
            SortKey::Document(document) => document.as_bytes(),
            SortKey::Other(bytes) => bytes,
        }
    }
}
