//! The members of an object in its bytes, in which names are looked up in one walk.

ghost use Rattle.std.specs.Prelude.{◌≡◌, ◌<◌, ◌≤◌, ◌+◌, ◌^◌, [], ℕ, List, None, Ok};
ghost use Rattle.std.specs.Prelude.{Some, IfSome, drop, length, map};
ghost use Rattle.std.specs.Ordering.{nat_cmp};
ghost use Rattle.std.specs.Cmp.Lexicographic.{slice_cmp};
ghost use Rattle.std.specs.Iterator.{YieldsFirstBy};
ghost use Rattle.jsonb_codec.specs.WordBytes.{header_at};
ghost use Rattle.jsonb_codec.specs.declared.constants.TheConstants.{OBJECT_CONTAINER_TAG};
ghost use Rattle.jsonb.specs.Entries.{others_left};
ghost use Rattle.jsonb.specs.Entry.{IsEntryIn};
ghost use Rattle.jsonb_functions.specs.PathPlaces.{first_entry, read_entries};
ghost use Rattle.kohiblad.specs.PlacedMembers.{AreAllRead, AreMembersIn, ArePassed, AreWhole};
ghost use Rattle.kohiblad.specs.PlacedMembers.{keys_left, name_place, place_after, place_among};
ghost use Rattle.kohiblad.specs.PlacedMembers.{values_left};
ghost use Rattle.kohiblad.specs.Words.{Doc, Tree};

use jsonb::layer::{Cursor, Entry};
use jsonb::read_header;
use jsonb_codec::constants::OBJECT_CONTAINER_TAG;
use std::cmp::Ordering;

/// The members of an object that are left in a walk: the entry of the key of the first, the keys
/// after it, and the values. Values are read only where they are asked for, so those of members
/// that were passed may be left.
#[derive(Drop)]
pub struct PlacedMembers<'a> {
    bytes: &'a [u8],
    first: Option<Entry>,
    keys: Cursor<'a>,
    values: Cursor<'a>,
}

impl<'a> PlacedMembers<'a> {
    /// The members of an object; none of any other bytes.
    pub fn new(bytes: &'a [u8]) -> Self
        ensures there { AreMembersIn bytes.entry.now result }
        ensures found { (t : Tree) → Doc bytes.entry.now t → (name : List ℕ)
            → place_among name bytes.entry.now result ≡ name_place name bytes.entry.now }
        ensures whole { (t : Tree) → Doc bytes.entry.now t → AreWhole bytes.entry.now result }
    {
        match read_header(bytes, 0) {
            Ok((OBJECT_CONTAINER_TAG, count)) => PlacedMembers::of_count(bytes, count),
            _ => PlacedMembers::none(bytes),
        }
    }

    // No members.
    fn none(bytes: &'a [u8]) -> Self
        ensures there { AreMembersIn bytes.entry.now result }
        ensures none { (keys_left result ≡ []) × (values_left result ≡ []) }
        ensures whole { AreWhole bytes.entry.now result }
    {
        PlacedMembers {
            bytes,
            first: None,
            keys: Cursor::over_items(bytes, 0),
            values: Cursor::over_items(bytes, 0),
        }
    }

    // The members of an object with this count in its header.
    fn of_count(bytes: &'a [u8], count: usize) -> Self
        requires few { count < 2 ^ 29 }
        requires header { 4 ≤ length bytes.now }
        ensures there { AreMembersIn bytes.entry.now result }
        ensures found { (t : Tree) → Doc bytes.entry.now t
            → header_at bytes.entry.now 0 ≡ Ok (OBJECT_CONTAINER_TAG, count) → (name : List ℕ)
            → place_among name bytes.entry.now result ≡ name_place name bytes.entry.now }
        ensures whole { (t : Tree) → Doc bytes.entry.now t
            → header_at bytes.entry.now 0 ≡ Ok (OBJECT_CONTAINER_TAG, count)
            → AreWhole bytes.entry.now result }
    {
        let mut keys = Cursor::over_keys(bytes, count);
        let Ok(values) = Cursor::over_values(bytes, count) else {
            return PlacedMembers::none(bytes);
        };
        let first = next_entry(&mut keys);
        PlacedMembers {
            bytes,
            first,
            keys,
            values,
        }
    }

    /// The number of members after the last one whose value was taken.
    pub fn len_after_taken(&self) -> usize
        ensures { result ≡ length self.now.values.entries }
    {
        self.values.len()
    }

    /// The place of the value of a name. Takes the members whose keys are below it, and that of the
    /// name, so what is left has the same places for the greater names.
    pub fn place_of(&mut self, bytes: &[u8], name: &[u8]) -> Option<Entry>
        requires { AreMembersIn bytes.now self.old }
        ensures there { AreMembersIn bytes.now self.new }
        ensures found { AreWhole bytes.now self.old
            → result ≡ place_among name.now bytes.now self.old }
        ensures later { AreWhole bytes.now self.old → (k : List ℕ)
            → slice_cmp nat_cmp name.now k ≡ Ordering.Less
            → place_among k bytes.now self.old ≡ place_among k bytes.now self.new }
        ensures whole { AreWhole bytes.now self.old → AreWhole bytes.now self.new }
        ensures inside { IfSome result (IsEntryIn bytes.now) }
    {
        while let Some(key) = self.first {
            match key.payload(bytes).cmp(name) {
                Ordering::Less => self.first = next_entry(&mut self.keys),
                Ordering::Equal => return self.take_value(),
                Ordering::Greater => return None,
            }
        }
        None
    }

    /// The place of the value of a name, if its member is the one after so many others, which are
    /// passed. What is left then has the same places for the greater names.
    pub fn place_after(&mut self, bytes: &[u8], name: &[u8], passed: usize) -> Option<Entry>
        requires { AreMembersIn bytes.now self.old }
        ensures there { AreMembersIn bytes.now self.new }
        ensures exact { AreWhole bytes.now self.old
            → result ≡ place_after name.now bytes.now passed self.old }
        ensures found { AreWhole bytes.now self.old
            → IfSome result (λ entry. place_among name.now bytes.now self.old ≡ Some entry) }
        ensures later { AreWhole bytes.now self.old → IfSome result (λ entry. (k : List ℕ)
            → slice_cmp nat_cmp name.now k ≡ Ordering.Less
            → place_among k bytes.now self.old ≡ place_among k bytes.now self.new) }
        ensures whole { AreWhole bytes.now self.old → AreWhole bytes.now self.new }
        ensures inside { IfSome result (IsEntryIn bytes.now) }
    {
        self.pass(passed);
        let Some(key) = self.first else {
            return None;
        };
        if key.payload(bytes) == name {
            self.take_value()
        } else {
            None
        }
    }

    // Passes so many members.
    #[inline(always)]
    fn pass(&mut self, count: usize)
        ensures passed { (bytes : List ℕ) → AreWhole bytes self.old
            → ArePassed bytes count self.old self.new }
        ensures values { self.new.values ≡ self.old.values }
        ensures there { (bytes : List ℕ) → AreMembersIn bytes self.old
            → AreMembersIn bytes self.new }
    {
        if count > 0 {
            self.first = entry_after(&mut self.keys, count - 1);
        }
    }

    // The place of the value of the first member, which is passed.
    #[inline(always)]
    fn take_value(&mut self) -> Option<Entry>
        ensures taken { (bytes : List ℕ) (key : Entry) → self.old.first ≡ Some key
            → AreWhole bytes self.old
            → (result ≡ first_entry (values_left self.old)) × ArePassed bytes 1 self.old self.new }
        ensures there { (bytes : List ℕ) → AreMembersIn bytes self.old
            → AreMembersIn bytes self.new × IfSome result (IsEntryIn bytes) }
    {
        let behind = self
            .values
            .len()
            .saturating_sub(self.keys.len())
            .saturating_sub(1);
        self.pass(1);
        entry_after(&mut self.values, behind)
    }
}

// The entry after so many others, which are passed. `None` if there is none, or it cannot be read.
#[inline(always)]
fn entry_after(entries: &mut Cursor<'_>, passed: usize) -> Option<Entry>
    ensures read { AreAllRead entries.old.entries
        → (result ≡ first_entry (drop passed (read_entries entries.old.entries)))
        × (entries.new.entries ≡ map Ok (drop (passed + 1) (read_entries entries.old.entries))) }
    ensures inside { IfSome result (IsEntryIn entries.old.bytes) }
    ensures bytes { entries.new.bytes ≡ entries.old.bytes }
{
    match entries.skip(passed) {
        Ok(()) => next_entry(entries),
        Err(_) => None,
    }
}

// The next entry. `None` after the last one, and if it cannot be read.
#[inline(always)]
fn next_entry(entries: &mut Cursor<'_>) -> Option<Entry>
    ensures steps { YieldsFirstBy (λ entry. entry) (λ run. read_entries run.entries)
        entries.old result entries.new }
    ensures rest { entries.new.entries ≡ others_left entries.old.entries }
    ensures inside { IfSome result (IsEntryIn entries.old.bytes) }
    ensures bytes { entries.new.bytes ≡ entries.old.bytes }
{
    match entries.next() {
        Some(Ok(entry)) => Some(entry),
        _ => None,
    }
}
