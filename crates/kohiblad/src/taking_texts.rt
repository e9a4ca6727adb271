//! The members of rows as texts or binary values.

ghost use Rattle.std.specs.Prelude.{◌++◌, ◌+◌, ◌∷◌, ◌≡◌, [], Err, IfErr, IfOk, IfSome, IsUtf8};
ghost use Rattle.std.specs.Prelude.{List, MatchOption, OnOk, option_map, ℕ};
ghost use Rattle.std.specs.List.{AllZip};
ghost use Rattle.jsonb_typed.specs.Words.{HoldsNoScalar, IsText, member_cell, node_tree};
ghost use Rattle.kohiblad.specs.OverRows.{OverRows};
ghost use Rattle.kohiblad.specs.TakenTexts.{AreTextsMade, IsBytes, IsBytesAt, IsBytesRow};
ghost use Rattle.kohiblad.specs.TakenTexts.{IsBytesUnchecked, IsTextsOf};
ghost use Rattle.kohiblad.specs.Taking.{IsTakenBy, IsTakenCell};
ghost use Rattle.kohiblad.specs.Words.{Error, meaning_within};

use crate::answer::code;
use crate::located::{Places, member_at};
use crate::places::KohibladPlace;
use crate::row_paths::steps_of;
use crate::rows::Rows;
use crate::taking::{ABSENT, Reading, Source, VALUE, opened_member, state_of, state_of_bytes};
use crate::unchecked_rows::unchecked_member;
use jsonb::{Error, Node, SortKey};
use jsonb_functions::Step;
use jsonb_typed::binary_of;
use std::alloc::Global;

/// What the bytes that are taken are.
#[derive(Clone, Copy)]
pub enum BytesType {
    Text,
    Binary,
}

/// The texts of rows at the end of a path, or the binary values; or the status with which they are
/// refused.
pub fn source_texts(
    alloc: Global,
    source: Source<'_>,
    bytes_type: BytesType,
) -> Result<TakenTexts, u32>
    ensures { OverRows (λ status. result ≡ Err status)
        (λ rows path. AreTextsMade (IsBytesRow source.entry.reading bytes_type path) rows result)
        source.entry.bytes.now source.entry.offsets.now
        (meaning_within source.entry.depth source.entry.path.now) }
{
    let Ok(rows) = Rows::new(source.bytes, source.offsets) else {
        return Err(code(Error::InvalidEOF));
    };
    match steps_of(alloc, source.path, source.depth) {
        Ok(steps) => row_texts(alloc, rows, &steps, source.reading, bytes_type),
        Err(status) => Err(status),
    }
}

// The texts of the rows, or the binary values; or the status of a failed allocation.
fn row_texts(
    alloc: Global,
    rows: Rows<'_>,
    path: &[Step<'_>],
    reading: Reading,
    bytes_type: BytesType,
) -> Result<TakenTexts, u32>
    ensures { AreTextsMade (IsBytesRow reading bytes_type path.now) rows.entry result }
{
    match texts_of(alloc, rows, path, reading, bytes_type) {
        Ok(taken) => Ok(taken),
        Err(error) => Err(code(error)),
    }
}

/// The texts at the places, or the binary values.
#[tactic(auto, using(crate::proofs::TakenTextLaws::all_texts))]
pub fn texts_at(
    alloc: Global,
    bytes: &[u8],
    places: Places<'_>,
    bytes_type: BytesType,
) -> Result<TakenTexts, Error>
    ensures ok { IfOk result (λ texts. (taken : List (List ℕ × ℕ))
        × (AllZip (IsBytesAt bytes_type bytes.now) places.entry taken
        × IsTextsOf taken texts)) }
    ensures memory { IfErr result (λ e. e ≡ Error.OutOfMemory) }
{
    let mut left = places;
    let mut texts = TakenTexts::new(alloc)?;
    while let Some(place) = left.next() {
        let (text, state) = text_at(bytes, place, bytes_type);
        texts.push(text, state)?;
    }
    Ok(texts)
}

/// The texts of rows, one after another, with their offsets and the states of the rows.
#[derive(Drop)]
pub struct TakenTexts {
    pub texts: Vec<u8>,
    pub offsets: Vec<usize>,
    pub states: Vec<u8>,
}

impl TakenTexts {
    /// Those of no rows.
    pub fn new(alloc: Global) -> Result<Self, Error>
        ensures ok { IfOk result (IsTextsOf []) }
        ensures memory { IfErr result (λ e. e ≡ Error.OutOfMemory) }
    {
        let texts = Vec::new(alloc);
        let mut offsets = Vec::with_capacity(alloc, 1)?;
        offsets.push_reserved(0);
        let states = Vec::new(alloc);
        Ok(TakenTexts {
            texts,
            offsets,
            states,
        })
    }

    /// Appends the text of a row and the state of the row. After an error nothing is to be read of
    /// these.
    pub fn push(&mut self, text: &[u8], state: u8) -> Result<(), Error>
        ensures pushed { OnOk result ((taken : List (List ℕ × ℕ)) → IsTextsOf taken self.old
            → IsTextsOf (taken ++ (text.now, state) ∷ []) self.new) }
        ensures memory { IfErr result (λ e. e ≡ Error.OutOfMemory) }
    {
        self.texts.extend_from_slice(text)?;
        self.offsets.push(self.texts.len())?;
        self.states.push(state)?;
        Ok(())
    }
}

// The texts of the rows.
#[tactic(auto, using(crate::proofs::TakenTextLaws::all_texts))]
fn texts_of(
    alloc: Global,
    rows: Rows<'_>,
    path: &[Step<'_>],
    reading: Reading,
    bytes_type: BytesType,
) -> Result<TakenTexts, Error>
    ensures ok { IfOk result (λ texts. (taken : List (List ℕ × ℕ))
        × (AllZip (IsBytesRow reading bytes_type path.now) rows.entry taken
        × IsTextsOf taken texts)) }
    ensures memory { IfErr result (λ e. e ≡ Error.OutOfMemory) }
{
    let mut left = rows;
    let mut texts = TakenTexts::new(alloc)?;
    while let Some(row) = left.next() {
        let (text, state) = read_text(row, path, reading, bytes_type);
        texts.push(text, state)?;
    }
    Ok(texts)
}

// The bytes of a row, or none, and the state of the row.
fn read_text<'a>(
    row: &'a [u8],
    path: &[Step<'_>],
    reading: Reading,
    bytes_type: BytesType,
) -> (&'a [u8], u8)
    ensures { IsBytesRow reading bytes_type path.now row.entry.now (result.0.now, result.1) }
{
    match reading {
        Reading::Checked(depth) => take_text(row, path, depth, bytes_type),
        Reading::Unchecked => take_unchecked_text(row, path, bytes_type),
    }
}

// The same for a row that is checked.
fn take_text<'a>(
    row: &'a [u8],
    path: &[Step<'_>],
    depth: usize,
    bytes_type: BytesType,
) -> (&'a [u8], u8)
    ensures { IsTakenBy (IsBytes bytes_type) [] (Reading.Checked depth) path.now row.entry.now
        (result.0.now, result.1) }
{
    match SortKey::within(row, depth) {
        SortKey::Document(document) => take_member_text(opened_member(document, path), bytes_type),
        SortKey::Other(bytes) => (&[], state_of_bytes(bytes)),
    }
}

// The same for a row that is not checked.
#[tactic(auto, using(crate::proofs::UncheckedLaws::taken_member, crate::proofs::UncheckedLaws::taken_state, crate::proofs::UncheckedLaws::scalar_bytes, crate::proofs::TakenTextLaws::bytes_unchecked, crate::proofs::TakenTextLaws::no_bytes))]
fn take_unchecked_text<'a>(
    row: &'a [u8],
    path: &[Step<'_>],
    bytes_type: BytesType,
) -> (&'a [u8], u8)
    ensures { IsBytesUnchecked bytes_type path.now row.entry.now (result.0.now, result.1) }
{
    match unchecked_member(row, path) {
        Ok(member) => take_member_text(member, bytes_type),
        Err(state) => (&[], state),
    }
}

// The bytes of the member at a place, or none, and the state of its row.
#[tactic(auto, using(crate::proofs::LocatedLaws::taken_member, crate::proofs::LocatedLaws::taken_state, crate::proofs::UncheckedLaws::scalar_bytes, crate::proofs::TakenTextLaws::bytes_at, crate::proofs::TakenTextLaws::no_bytes))]
fn text_at<'a>(bytes: &'a [u8], place: KohibladPlace, bytes_type: BytesType) -> (&'a [u8], u8)
    ensures { IsBytesAt bytes_type bytes.entry.now place (result.0.now, result.1) }
{
    match member_at(bytes, place) {
        Ok(member) => take_member_text(member, bytes_type),
        Err(state) => (&[], state),
    }
}

// The bytes of a row with this member, and the state of the row.
#[tactic(auto, using(crate::proofs::TakenTextLaws::no_bytes))]
fn take_member_text<'a>(member: Option<Node<'a>>, bytes_type: BytesType) -> (&'a [u8], u8)
    requires { IfSome member HoldsNoScalar }
    ensures cell { IsTakenCell (IsBytes bytes_type) []
        (member_cell (option_map node_tree member.entry)) (result.0.now, result.1) }
    ensures utf8 { bytes_type ≡ BytesType.Text → IsUtf8 result.0.now }
{
    let Some(member) = member else {
        return (&[], ABSENT);
    };
    match bytes_of(member, bytes_type) {
        Some(bytes) => (bytes, VALUE),
        None => (&[], state_of(member)),
    }
}

// The bytes of a member of this type. `None` if it is of another.
fn bytes_of(member: Node<'_>, bytes_type: BytesType) -> Option<&[u8]>
    requires { HoldsNoScalar member }
    ensures bytes { MatchOption result
        ((bytes : List ℕ) → IsBytes bytes_type bytes (node_tree member.entry) → ⊥)
        (λ bytes. IsBytes bytes_type bytes.now (node_tree member.entry)) }
    ensures utf8 { bytes_type ≡ BytesType.Text → IfSome result (λ bytes. IsUtf8 bytes.now) }
{
    match bytes_type {
        BytesType::Text => text_of(member),
        BytesType::Binary => binary_of(member),
    }
}

// The UTF-8 of a text. `None` if the member is not a text.
fn text_of(member: Node<'_>) -> Option<&[u8]>
    requires { HoldsNoScalar member }
    ensures text { MatchOption result
        ((bytes : List ℕ) → IsText bytes (node_tree member.entry) → ⊥)
        (λ bytes. IsText bytes.now (node_tree member.entry)) }
    ensures utf8 { IfSome result (λ bytes. IsUtf8 bytes.now) }
{
    match member {
        Node::String(text) => Some(text.as_bytes()),
        _ => None,
    }
}
