//! The members of rows as values of one type, written to the caller's buffers.

ghost use Rattle.std.specs.Prelude.{◌≡◌, ◌≤◌, ℕ, IfSome, List, Some, length, map, nat_le};
ghost use Rattle.std.specs.Prelude.{option_map};
ghost use Rattle.jsonb_codec.specs.declared.constants.TheConstants.{NUMBER_TAG};
ghost use Rattle.jsonb_functions.specs.Found.{found_at};
ghost use Rattle.jsonb_typed.specs.Words.{HoldsNoScalar, HoldsScalars, member_cell};
ghost use Rattle.kohiblad.specs.Located.{entry_state};
ghost use Rattle.kohiblad.specs.Taking.{AreRowsPut, AreRowsTaken, AreTaken, IsSomeTaken, IsTakenBy};
ghost use Rattle.kohiblad.specs.Taking.{IsTakenCell, bytes_state, first_unfit, fit_of, not_taken};
ghost use Rattle.kohiblad.specs.Taking.{outputs, taken_answer, tree_state, unfit_count};
ghost use Rattle.kohiblad.specs.Words.{IsPayloadOf, Tree, document_tree, meaning_within, node_tree};

use crate::answer::{NO_ROOM, OK, code};
use crate::row_paths::steps_of;
use crate::rows::Rows;
use crate::unchecked_rows::{member_place, scalar_at};
use jsonb::{Document, Error, Node, NumberItem, SortKey};
use jsonb_codec::constants::NUMBER_TAG;
use jsonb_functions::{Step, bytes_at};
use jsonb_typed::{ColumnType, Fit, member_of, opened};
use std::alloc::Global;

/// The state of a row without the member.
pub const ABSENT: u8 = 0;

/// The state of a row with a value.
pub const VALUE: u8 = 1;

/// The state of a row whose member is null.
const NULL: u8 = 2;

/// The state of a row whose member is no value of the type, and not null.
pub const UNFIT: u8 = 3;

/// The state of a row that is not a document.
pub const NO_DOCUMENT: u8 = 4;

/// How many rows have a member that is neither null nor a value of the type, or are not a document;
/// and the number of the first of them, or that of all rows if there is none. Both are 0 if the
/// status is not `OK`.
#[repr(C)]
#[derive(Clone, Copy)]
pub struct KohibladTaken {
    pub status: u32,
    pub unfit: u64,
    pub first_unfit: u64,
}

/// How rows are read.
#[derive(Clone, Copy)]
pub enum Reading {
    /// Each is checked, as a document of at most this depth.
    Checked(usize),
    /// None is checked.
    Unchecked,
}

/// Rows, how they are read, and the document of a path, of at most a depth.
#[derive(Clone, Copy)]
pub struct Source<'a> {
    pub bytes: &'a [u8],
    pub offsets: &'a [usize],
    pub path: &'a [u8],
    pub depth: usize,
    pub reading: Reading,
}

impl<'a> Source<'a> {
    /// Rows that are checked.
    pub fn checked(bytes: &'a [u8], offsets: &'a [usize], path: &'a [u8], depth: usize) -> Self
        ensures { result ≡ record {
          bytes = bytes.entry;
          offsets = offsets.entry;
          path = path.entry;
          depth = depth;
          reading = Reading.Checked depth;
        } }
    {
        Source {
            bytes,
            offsets,
            path,
            depth,
            reading: Reading::Checked(depth),
        }
    }

    /// Rows that are not checked.
    pub fn unchecked(bytes: &'a [u8], offsets: &'a [usize], path: &'a [u8], depth: usize) -> Self
        ensures { result ≡ record {
          bytes = bytes.entry;
          offsets = offsets.entry;
          path = path.entry;
          depth = depth;
          reading = Reading.Unchecked;
        } }
    {
        Source {
            bytes,
            offsets,
            path,
            depth,
            reading: Reading::Unchecked,
        }
    }
}

/// Takes the members of rows at the end of a path as values of a type, and writes them and the
/// states of the rows to the buffers.
pub fn take<T: ColumnType>(
    alloc: Global,
    source: Source<'_>,
    column_type: &T,
    values: &mut [T::Value],
    states: &mut [u8],
) -> KohibladTaken
    ensures { AreTaken (IsTakenBy (T.stands column_type.now) (T.blank column_type.now)
        source.entry.reading)
        source.entry.bytes.now source.entry.offsets.now
        (meaning_within source.entry.depth source.entry.path.now)
        (outputs values.old values.new states.old states.new) result }
{
    let Ok(rows) = Rows::new(source.bytes, source.offsets) else {
        return not_taken(code(Error::InvalidEOF));
    };
    match steps_of(alloc, source.path, source.depth) {
        Ok(steps) => take_rows(
            rows,
            &steps,
            source.reading,
            column_type,
            column_type.blank(),
            values,
            states,
        ),
        Err(status) => not_taken(status),
    }
}

// Takes the members of the rows, if the buffers have room for them.
fn take_rows<T: ColumnType>(
    rows: Rows<'_>,
    path: &[Step<'_>],
    reading: Reading,
    column_type: &T,
    blank: T::Value,
    values: &mut [T::Value],
    states: &mut [u8],
) -> KohibladTaken
    requires { HoldsScalars (T.stands column_type.now) }
    ensures { AreRowsTaken (IsTakenBy (T.stands column_type.now) blank reading path.now) rows.entry
        (outputs values.old values.new states.old states.new) result }
{
    if values.len() < rows.len() || states.len() < rows.len() {
        return not_taken(NO_ROOM);
    }
    put_rows(rows, path, reading, column_type, blank, values, states)
}

// Takes the members of the rows.
fn put_rows<T: ColumnType>(
    rows: Rows<'_>,
    path: &[Step<'_>],
    reading: Reading,
    column_type: &T,
    blank: T::Value,
    values: &mut [T::Value],
    states: &mut [u8],
) -> KohibladTaken
    requires values { length rows ≤ length values.old }
    requires states { length rows ≤ length states.old }
    requires scalars { HoldsScalars (T.stands column_type.now) }
    ensures { (taken : List (T.Value × ℕ))
        × (AreRowsPut (IsTakenBy (T.stands column_type.now) blank reading path.now) rows.entry
        (outputs values.old values.new states.old states.new) taken
        × (result ≡ taken_answer (map (λ row. row.1) taken))) }
{
    let mut left = rows;
    let mut number = 0;
    while let Some(row) = left.next() {
        let (value, state) = read_row(row, path, reading, column_type, blank);
        values[number] = value;
        states[number] = state;
        number += 1;
    }
    taken_answer(&states[..number])
}

// What is written for a row: its value, or the blank one, and its state.
#[inline(always)]
fn read_row<T: ColumnType>(
    row: &[u8],
    path: &[Step<'_>],
    reading: Reading,
    column_type: &T,
    blank: T::Value,
) -> (T::Value, u8)
    requires { HoldsScalars (T.stands column_type.now) }
    ensures { IsTakenBy (T.stands column_type.now) blank reading path.now row.now result }
{
    match reading {
        Reading::Checked(depth) => take_row(row, path, depth, column_type, blank),
        Reading::Unchecked => take_unchecked(row, path, column_type, blank),
    }
}

// The same for a row that is checked.
fn take_row<T: ColumnType>(
    row: &[u8],
    path: &[Step<'_>],
    depth: usize,
    column_type: &T,
    blank: T::Value,
) -> (T::Value, u8)
    ensures { IsTakenBy (T.stands column_type.now) blank (Reading.Checked depth) path.now row.now
        result }
{
    match SortKey::within(row, depth) {
        SortKey::Document(document) => {
            take_member(opened_member(document, path), column_type, blank)
        }
        SortKey::Other(bytes) => (blank, state_of_bytes(bytes)),
    }
}

/// The member of a document at the end of a path, as it is opened.
pub fn opened_member<'a>(document: Document<'a>, path: &[Step<'_>]) -> Option<Node<'a>>
    ensures member { option_map node_tree result
        ≡ found_at path.now (document_tree document.entry) }
    ensures opened { IfSome result HoldsNoScalar }
{
    match member_of(document, path) {
        Some(member) => Some(opened(member)),
        None => None,
    }
}

// The same for a row that is not checked.
#[inline(always)]
fn take_unchecked<T: ColumnType>(
    row: &[u8],
    path: &[Step<'_>],
    column_type: &T,
    blank: T::Value,
) -> (T::Value, u8)
    requires { HoldsScalars (T.stands column_type.now) }
    ensures { IsTakenBy (T.stands column_type.now) blank Reading.Unchecked path.now row.now result }
{
    // In code of its own the place that a look-up of one key finds is not copied.
    if let [Step::Key(_)] = path {
        take_by_place(row, path, column_type, blank)
    } else {
        take_at_path_end(row, path, column_type, blank)
    }
}

// The same for a path of any steps. It is not in line, for the sake of paths of one key.
#[inline(never)]
fn take_at_path_end<T: ColumnType>(
    row: &[u8],
    path: &[Step<'_>],
    column_type: &T,
    blank: T::Value,
) -> (T::Value, u8)
    requires { HoldsScalars (T.stands column_type.now) }
    ensures { IsTakenBy (T.stands column_type.now) blank Reading.Unchecked path.now row.now result }
{
    take_by_place(row, path, column_type, blank)
}

// The same, at the place of the member.
#[inline(always)]
#[tactic(auto, using(crate::proofs::UncheckedLaws::empty_taken, crate::proofs::UncheckedLaws::place_taken, crate::proofs::UncheckedLaws::none_taken, crate::proofs::UncheckedLaws::error_taken))]
fn take_by_place<T: ColumnType>(
    row: &[u8],
    path: &[Step<'_>],
    column_type: &T,
    blank: T::Value,
) -> (T::Value, u8)
    requires { HoldsScalars (T.stands column_type.now) }
    ensures { IsTakenBy (T.stands column_type.now) blank Reading.Unchecked path.now row.now result }
{
    if row.is_empty() {
        return (blank, ABSENT);
    }
    match member_place(row, path) {
        Ok(Some(place)) => take_entry(place.type_code, bytes_at(row, place), column_type, blank),
        Ok(None) => (blank, ABSENT),
        Err(_) => (blank, NO_DOCUMENT),
    }
}

/// What is written for a row whose member has an entry of this type and this payload.
#[inline(always)]
#[tactic(auto, using(crate::proofs::UncheckedLaws::read_taken, crate::proofs::UncheckedLaws::state_found, crate::proofs::UncheckedLaws::some_taken, crate::proofs::UncheckedLaws::known_state, crate::proofs::UncheckedLaws::held_read))]
pub fn take_entry<T: ColumnType>(
    type_code: u32,
    payload: &[u8],
    column_type: &T,
    blank: T::Value,
) -> (T::Value, u8)
    requires { HoldsScalars (T.stands column_type.now) }
    ensures entry { (t : Tree) → IsPayloadOf type_code payload.now t
        → IsTakenCell (T.stands column_type.now) blank (member_cell (Some t)) result }
    ensures other { ((t : Tree) → IsPayloadOf type_code payload.now t → ⊥)
        → result ≡ (blank, entry_state type_code) }
    ensures some { IsSomeTaken blank result }
{
    // A number is not handed on as one of many kinds of scalars: to copy such a value takes longer
    // than to read the number.
    if type_code == NUMBER_TAG {
        return take_number(payload, column_type, blank);
    }
    match scalar_at(type_code, payload) {
        Ok(member) => take_member(member, column_type, blank),
        Err(state) => (blank, state),
    }
}

// What is written for a row whose member has an entry of a number and this payload.
#[inline(always)]
#[tactic(auto, using(crate::proofs::ScalarReads::some_number, crate::proofs::UncheckedLaws::number_taken, crate::proofs::UncheckedLaws::some_taken))]
fn take_number<T: ColumnType>(payload: &[u8], column_type: &T, blank: T::Value) -> (T::Value, u8)
    ensures number { (t : Tree) → IsPayloadOf NUMBER_TAG payload.now t
        → IsTakenCell (T.stands column_type.now) blank (member_cell (Some t)) result }
    ensures other { ((t : Tree) → IsPayloadOf NUMBER_TAG payload.now t → ⊥)
        → result ≡ (blank, 4) }
    ensures some { IsSomeTaken blank result }
{
    match NumberItem::from_bytes(payload) {
        Ok(number) => take_value(Node::Number(number), column_type, blank),
        Err(_) => (blank, NO_DOCUMENT),
    }
}

/// What is written for a row with this member.
#[inline(always)]
pub fn take_member<T: ColumnType>(
    member: Option<Node<'_>>,
    column_type: &T,
    blank: T::Value,
) -> (T::Value, u8)
    requires { IfSome member HoldsNoScalar }
    ensures { IsTakenCell (T.stands column_type.now) blank
        (member_cell (option_map node_tree member.entry)) result }
{
    match member {
        Some(member) => take_value(member, column_type, blank),
        None => (blank, ABSENT),
    }
}

// What is written for a row that has this member.
#[inline(always)]
fn take_value<T: ColumnType>(member: Node<'_>, column_type: &T, blank: T::Value) -> (T::Value, u8)
    requires { HoldsNoScalar member }
    ensures { IsTakenCell (T.stands column_type.now) blank
        (member_cell (Some (node_tree member.entry))) result }
{
    match column_type.value_of(member) {
        Some(value) => (value, VALUE),
        None => (blank, state_of(member)),
    }
}

/// The state of a row whose member has no value.
#[inline(always)]
pub fn state_of(member: Node<'_>) -> u8
    requires { HoldsNoScalar member }
    ensures { result ≡ tree_state (node_tree member.entry) }
{
    match member {
        Node::Null => NULL,
        _ => UNFIT,
    }
}

/// The state of a row that is not a document.
pub fn state_of_bytes(row: &[u8]) -> u8
    ensures { result ≡ bytes_state row.now }
{
    if row.is_empty() { ABSENT } else { NO_DOCUMENT }
}

/// The rows that have these states, counted.
pub fn taken_answer(states: &[u8]) -> KohibladTaken
    ensures { result ≡ taken_answer states.now }
{
    KohibladTaken {
        status: OK,
        unfit: unfit_count(states) as u64,
        first_unfit: first_unfit(states) as u64,
    }
}

// Whether a row of this state has a member other than null and no value, or is not a document.
fn is_unfit(state: u8) -> bool
    ensures { result ≡ nat_le 3 state }
{
    UNFIT <= state
}

// How many rows are unfit.
fn unfit_count(states: &[u8]) -> usize
    ensures { result ≡ unfit_count states.now }
{
    let mut count = 0;
    for state in states {
        if is_unfit(*state) {
            count += 1;
        }
    }
    count
}

// The first row that is unfit; the number of rows if there is none.
fn first_unfit(states: &[u8]) -> usize
    ensures { result ≡ first_unfit states.now }
{
    let mut number = 0;
    for state in states {
        if is_unfit(*state) {
            return number;
        }
        number += 1;
    }
    number
}

/// A result with this status, and with 0 in all fields.
pub fn not_taken(status: u32) -> KohibladTaken
    ensures { result ≡ not_taken status }
{
    KohibladTaken {
        status,
        unfit: 0,
        first_unfit: 0,
    }
}

/// When a number fits, by the number that a caller gives.
pub fn fit_of(fit: u32) -> Fit
    ensures { result ≡ fit_of fit }
{
    if fit == 0 { Fit::ByValue } else { Fit::Exact }
}
