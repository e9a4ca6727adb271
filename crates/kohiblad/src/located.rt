//! The places of members in rows, and what is read and taken there.

ghost use Rattle.std.specs.Prelude.{◌+◌, ◌∷◌, ◌≡◌, ◌≤◌, ◌⊎◌, [], IfErr, IfNone, IfOk, IfSome, List};
ghost use Rattle.std.specs.Prelude.{MatchOption, drop, length, map, nat_le, take, ℕ};
ghost use Rattle.typed_vector.specs.Cells.{Cell};
ghost use Rattle.jsonb_typed.specs.Words.{HoldsNoScalar, HoldsScalars, node_tree};
ghost use Rattle.kohiblad.specs.Located.{IsCellPlace, IsCellRead, IsNowhere, IsPayloadRead};
ghost use Rattle.kohiblad.specs.Located.{IsTakenAt, IsThere, each_of, place_state};
ghost use Rattle.kohiblad.specs.Status.{none};
ghost use Rattle.kohiblad.specs.Taking.{AreRowsPut, AreRowsTaken, outputs, taken_answer};
ghost use Rattle.kohiblad.specs.Words.{Tree};
ghost use Rattle.kohiblad.specs.declared.places.KohibladPlace.{KohibladPlace};

use crate::answer::{NO_ROOM, NONE, OK};
use crate::places::KohibladPlace;
use crate::taking::{ABSENT, KohibladTaken, NO_DOCUMENT, not_taken, take_entry, taken_answer};
use crate::unchecked_rows::scalar_at;
use jsonb::Node;
use jsonb_typed::ColumnType;
use std::marker::Model;

/// The places that are left: the first, and then each that is so many steps after the one before
/// it. 0 steps count as 1.
#[derive(Drop)]
pub struct Places<'a> {
    left: &'a [KohibladPlace],
    step: usize,
}

impl<'a> Model for Places<'a> {
    ghost Value = { List KohibladPlace };

    ghost view = { λ s. each_of s.step s.left.now };
}

impl<'a> Places<'a> {
    /// The first of these places, and then each that is so many steps after the one before it.
    pub fn new(places: &'a [KohibladPlace], step: usize) -> Self
        ensures { result ≡ each_of step places.entry.now }
    {
        Places { left: places, step }
    }

    /// The same places once more, for a second walk.
    pub fn again(&self) -> Self
        ensures { result ≡ self.now }
    {
        Places {
            left: self.left,
            step: self.step,
        }
    }

    /// The next place. `None` if there is none left.
    #[inline(always)]
    #[tactic(auto, using(crate::proofs::LocatedLaws::next_place))]
    pub fn next(&mut self) -> Option<KohibladPlace>
        ensures { MatchOption result ((self.old ≡ []) × (self.new ≡ []))
            (λ place. self.old ≡ place ∷ self.new) }
    {
        let Some((&place, later)) = self.left.split_first() else {
            return None;
        };
        *self = Places {
            left: places_after(later, self.step.saturating_sub(1)),
            step: self.step,
        };
        Some(place)
    }

    /// Whether no more places are left than `room`.
    pub fn fit_in(&self, room: usize) -> bool
        ensures { result ≡ nat_le (length self.now) room }
    {
        let mut left = self.again();
        let mut room = room;
        while left.next().is_some() {
            if room == 0 {
                return false;
            }
            room -= 1;
        }
        true
    }
}

// The places after so many.
#[inline(always)]
fn places_after(places: &[KohibladPlace], passed: usize) -> &[KohibladPlace]
    ensures { result.now ≡ drop passed places.entry.now }
{
    &places[passed.min(places.len())..]
}

/// The member of a row at its place, if it is a scalar; or the state of the row. At any other place
/// it is the scalar that is there, none, or the state of the place.
pub fn member_at<'a>(bytes: &'a [u8], place: KohibladPlace) -> Result<Option<Node<'a>>, u8>
    ensures cell { (cell : Cell Tree) → IsCellPlace bytes.entry.now cell place
        → IsCellRead cell result }
    ensures scalar { IfOk result (λ member. IfSome member HoldsNoScalar) }
    ensures held { IfOk result (λ member. IfSome member (λ node.
        IsCellPlace bytes.entry.now (Cell.value (node_tree node)) place)) }
    ensures none { IfOk result (λ member. IfNone member
        (place_state bytes.entry.now place ≡ 0)) }
    ensures other { IfErr result (λ state. state ≡ place_state bytes.entry.now place) }
    ensures state { IfErr result (λ state. (state ≡ 3) ⊎ (state ≡ 4)) }
{
    match payload_at(bytes, place) {
        Ok(Some(payload)) => scalar_at(place.type_code, payload),
        Ok(None) => Ok(None),
        Err(state) => Err(state),
    }
}

/// The payload of a row's member at its place, or the state of the row. At any other place it is
/// what is there, or the state of the place.
#[inline(always)]
pub fn payload_at<'a>(bytes: &'a [u8], place: KohibladPlace) -> Result<Option<&'a [u8]>, u8>
    ensures cell { (cell : Cell Tree) → IsCellPlace bytes.entry.now cell place
        → IsPayloadRead place.type_code cell result }
    ensures there { IfOk result (λ found. IfSome found (λ payload.
        IsThere bytes.entry.now place payload.now)) }
    ensures none { IfOk result (λ found. IfNone found (place.status ≡ none)) }
    ensures nowhere { IfErr result (λ state. IsNowhere bytes.entry.now place) }
    ensures state { IfErr result (λ state. state ≡ 4) }
{
    match place.status {
        NONE => Ok(None),
        OK => match bytes_within(bytes, place) {
            Some(payload) => Ok(Some(payload)),
            None => Err(NO_DOCUMENT),
        },
        _ => Err(NO_DOCUMENT),
    }
}

// The bytes at a place. `None` if they are not all there.
#[inline(always)]
fn bytes_within<'a>(bytes: &'a [u8], place: KohibladPlace) -> Option<&'a [u8]>
    ensures { MatchOption result (place.offset + place.length ≤ length bytes.entry.now → ⊥)
        (λ payload. (place.offset + place.length ≤ length bytes.entry.now)
        × (payload.now ≡ take place.length (drop place.offset bytes.entry.now))) }
{
    let offset = place.offset as usize;
    let length = place.length as usize;
    if bytes.len() < length || bytes.len() - length < offset {
        None
    } else {
        Some(&bytes[offset..offset + length])
    }
}

/// Takes the members at places as values of a type, and writes them and the states of their rows to
/// the buffers.
pub fn take_at<T: ColumnType>(
    bytes: &[u8],
    places: Places<'_>,
    column_type: &T,
    values: &mut [T::Value],
    states: &mut [u8],
) -> KohibladTaken
    ensures { AreRowsTaken (IsTakenAt (T.stands column_type.now) (T.blank column_type.now)
        bytes.now) places.entry
        (outputs values.old values.new states.old states.new) result }
{
    take_places(
        bytes,
        places,
        column_type,
        column_type.blank(),
        values,
        states,
    )
}

// Takes the members at the places, if the buffers have room for them.
fn take_places<T: ColumnType>(
    bytes: &[u8],
    places: Places<'_>,
    column_type: &T,
    blank: T::Value,
    values: &mut [T::Value],
    states: &mut [u8],
) -> KohibladTaken
    requires { HoldsScalars (T.stands column_type.now) }
    ensures { AreRowsTaken (IsTakenAt (T.stands column_type.now) blank bytes.now) places.entry
        (outputs values.old values.new states.old states.new) result }
{
    if !places.fit_in(values.len().min(states.len())) {
        return not_taken(NO_ROOM);
    }
    put_places(bytes, places, column_type, blank, values, states)
}

// Takes the members at the places.
fn put_places<T: ColumnType>(
    bytes: &[u8],
    places: Places<'_>,
    column_type: &T,
    blank: T::Value,
    values: &mut [T::Value],
    states: &mut [u8],
) -> KohibladTaken
    requires values { length places ≤ length values.old }
    requires states { length places ≤ length states.old }
    requires scalars { HoldsScalars (T.stands column_type.now) }
    ensures { (taken : List (T.Value × ℕ))
        × (AreRowsPut (IsTakenAt (T.stands column_type.now) blank bytes.now) places.entry
        (outputs values.old values.new states.old states.new) taken
        × (result ≡ taken_answer (map (λ row. row.1) taken))) }
{
    let mut left = places;
    let mut number = 0;
    while let Some(place) = left.next() {
        let (value, state) = take_place(bytes, place, column_type, blank);
        values[number] = value;
        states[number] = state;
        number += 1;
    }
    taken_answer(&states[..number])
}

// What is written for the member at a place: its value, or the blank one, and the state of its row.
#[inline(always)]
#[tactic(auto, using(crate::proofs::LocatedLaws::taken_payload, crate::proofs::LocatedLaws::taken_none, crate::proofs::LocatedLaws::taken_fault))]
fn take_place<T: ColumnType>(
    bytes: &[u8],
    place: KohibladPlace,
    column_type: &T,
    blank: T::Value,
) -> (T::Value, u8)
    requires { HoldsScalars (T.stands column_type.now) }
    ensures { IsTakenAt (T.stands column_type.now) blank bytes.now place result }
{
    match payload_at(bytes, place) {
        Ok(Some(payload)) => take_entry(place.type_code, payload, column_type, blank),
        Ok(None) => (blank, ABSENT),
        Err(state) => (blank, state),
    }
}
