//! Consecutive rows that were checked: documents, or keys with documents.

ghost use Rattle.std.specs.Prelude.{◌≡◌, ◌↔◌, ◌⊎◌, ℕ, List, IfErr, IfOk, IsTrue, IsUtf8};
ghost use Rattle.std.specs.Iterator.{YieldsFirstBy, item_count};
ghost use Rattle.std.specs.List.{AllByRecursion};
ghost use Rattle.kohiblad.specs.Words.{AreTexts, AreWithin, IsDocument, IsMember, document_bytes};
ghost use Rattle.kohiblad.specs.Words.{document_pair, keys_of, row_pairs, values_of};

use crate::rows::Rows;
use jsonb::{Document, Error, is_document_within};
use simdutf8::basic;
use std::marker::Model;
use std::str;

/// The remaining rows as documents, one after another.
#[derive(Drop)]
pub struct Documents<'a> {
    rows: Rows<'a>,
}

impl<'a> Model for Documents<'a> {
    ghost Value = { List (List ℕ) };

    ghost view = { λ s. s.rows };

    ghost invariant = { λ s. AllByRecursion IsDocument s.rows };
}

impl<'a> Documents<'a> {
    /// Checks the rows. `InvalidJsonb` if one is not a document of at most this depth.
    #[tactic(auto, using(crate::proofs::CheckedRows::are_documents))]
    pub fn within(rows: Rows<'a>, depth: usize) -> Result<Self, Error>
        ensures ok { IfOk result (λ documents.
            (documents ≡ rows.entry) × AreWithin depth rows.entry) }
        ensures err { IfErr result (λ e.
            (e ≡ Error.InvalidJsonb) × (AreWithin depth rows.entry → ⊥)) }
    {
        if are_within(rows.again(), depth) {
            Ok(Documents { rows })
        } else {
            Err(Error::InvalidJsonb)
        }
    }
}

impl<'a> Iterator for Documents<'a> {
    type Item = Document<'a>;

    ghost next_gives = { YieldsFirstBy document_bytes (λ documents. documents) };

    ghost remaining = { item_count (λ documents. documents) };

    fn next(&mut self) -> Option<Document<'a>> {
        let row = self.rows.next()?;
        Some(Document::new_unchecked(row))
    }
}

// Whether each row is a document of at most this depth.
fn are_within(rows: Rows, depth: usize) -> bool
    ensures { IsTrue result ↔ AreWithin depth rows.entry }
{
    let mut left = rows;
    while let Some(document) = left.next() {
        if !is_document_within(document, depth) {
            return false;
        }
    }
    true
}

/// The remaining rows as keys with documents: a key, then its document, and so on.
#[derive(Drop)]
pub struct Members<'a> {
    rows: Rows<'a>,
}

impl<'a> Model for Members<'a> {
    ghost Value = { List (List ℕ × List ℕ) };

    ghost view = { λ s. row_pairs s.rows };

    ghost invariant = { λ s. AllByRecursion IsMember (row_pairs s.rows) };
}

impl<'a> Members<'a> {
    /// Checks the rows. `InvalidJsonb` if the document of a pair is not one of at most this depth,
    /// and otherwise `InvalidUtf8` if a key is not UTF-8.
    pub fn within(rows: Rows<'a>, depth: usize) -> Result<Self, Error>
        ensures ok { IfOk result (λ members. (members ≡ row_pairs rows.entry)
            × (AreWithin depth (values_of (row_pairs rows.entry))
            × AreTexts (keys_of (row_pairs rows.entry)))) }
        ensures err { IfErr result (λ e. ((e ≡ Error.InvalidJsonb)
            × (AreWithin depth (values_of (row_pairs rows.entry)) → ⊥))
            ⊎ ((e ≡ Error.InvalidUtf8)
            × (AreWithin depth (values_of (row_pairs rows.entry))
            × (AreTexts (keys_of (row_pairs rows.entry)) → ⊥)))) }
    {
        if !are_pairs_within(rows.again(), depth) {
            return Err(Error::InvalidJsonb);
        }
        if !are_texts(rows.again()) {
            return Err(Error::InvalidUtf8);
        }
        Ok(Members { rows })
    }
}

impl<'a> Iterator for Members<'a> {
    type Item = (&'a str, Document<'a>);

    ghost next_gives = { YieldsFirstBy document_pair (λ members. members) };

    ghost remaining = { item_count (λ members. members) };

    fn next(&mut self) -> Option<(&'a str, Document<'a>)> {
        let (key, document) = self.rows.next_pair()?;
        // The key was checked.
        let key = unsafe { str::from_utf8_unchecked(key) };
        Some((key, Document::new_unchecked(document)))
    }
}

// Whether the document of each pair is one of at most this depth.
fn are_pairs_within(rows: Rows, depth: usize) -> bool
    ensures { IsTrue result ↔ AreWithin depth (values_of (row_pairs rows.entry)) }
{
    let mut left = rows;
    while let Some((_, document)) = left.next_pair() {
        if !is_document_within(document, depth) {
            return false;
        }
    }
    true
}

// Whether the key of each pair is UTF-8.
fn are_texts(rows: Rows) -> bool
    ensures { IsTrue result ↔ AreTexts (keys_of (row_pairs rows.entry)) }
{
    let mut left = rows;
    while let Some((key, _)) = left.next_pair() {
        if basic::from_utf8(key).is_err() {
            return false;
        }
    }
    true
}
