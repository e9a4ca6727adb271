//! Walks over the members of rows, many of which have theirs where the row before has them.

ghost use Rattle.std.specs.Prelude.{◌≡◌, ℕ, List, IfSome, MatchOption};
ghost use Rattle.std.specs.Ordering.{nat_cmp};
ghost use Rattle.std.specs.Cmp.Lexicographic.{slice_cmp};
ghost use Rattle.jsonb.specs.Entry.{IsEntryIn};
ghost use Rattle.kohiblad.specs.RowWalks.{IsFoundAs, IsSoughtIn, IsWalk, place_alike};
ghost use Rattle.kohiblad.specs.Words.{Doc, Tree};

use crate::placed_members::PlacedMembers;
use jsonb::layer::Entry;
use std::cmp::Ordering;

/// A walk over the members of a row, in which a name is looked for first where the row before has
/// it. From the first name on that is not there, the members are walked one by one.
#[derive(Drop)]
pub struct RowWalk<'a> {
    row: &'a [u8],
    members: PlacedMembers<'a>,
    is_alike: bool,
    left: usize,
}

impl<'a> RowWalk<'a> {
    /// A walk over all members of a row.
    pub fn new(row: &'a [u8]) -> Self
        ensures walk { IsWalk result }
        ensures row { result.row ≡ row.entry }
        ensures found { (name : List ℕ) → IsSoughtIn name result }
    {
        let members = PlacedMembers::new(row);
        let left = members.len_after_taken();
        RowWalk {
            row,
            members,
            is_alike: true,
            left,
        }
    }

    /// The place of the value of a name, which is greater than those that were looked for before.
    /// `passed` is the number of members between it and the last one that was found, as it was in
    /// the row before, and is then that of this row.
    pub fn place_of(&mut self, name: &[u8], passed: &mut usize) -> Option<Entry>
        requires { IsWalk self.old }
        ensures walk { IsWalk self.new }
        ensures row { self.new.row ≡ self.old.row }
        ensures inside { IfSome result (IsEntryIn self.old.row.now) }
        ensures found { IsSoughtIn name.now self.old → IsFoundAs self.old.row.now name.now result }
        ensures later { (k : List ℕ) → slice_cmp nat_cmp name.now k ≡ Ordering.Less
            → IsSoughtIn k self.old → IsSoughtIn k self.new }
    {
        if let Some(found) = self.place_alike(name, *passed) {
            return Some(found);
        }
        let found = self.members.place_of(self.row, name)?;
        let left = self.members.len_after_taken();
        *passed = self.left.saturating_sub(left).saturating_sub(1);
        self.left = left;
        Some(found)
    }

    // The place of the value of a name, if it is where the row before has it. Else the walk begins
    // anew.
    #[inline(always)]
    fn place_alike(&mut self, name: &[u8], passed: usize) -> Option<Entry>
        requires { IsWalk self.old }
        ensures walk { IsWalk self.new }
        ensures row { self.new.row ≡ self.old.row }
        ensures inside { IfSome result (IsEntryIn self.old.row.now) }
        ensures exact { (t : Tree) → Doc self.old.row.now t
            → result ≡ place_alike name.now passed self.old }
        ensures found { IfSome result (λ entry. IsSoughtIn name.now self.old
            → IsFoundAs self.old.row.now name.now result) }
        ensures later { MatchOption result ((k : List ℕ) → IsSoughtIn k self.old
            → IsSoughtIn k self.new)
            (λ entry. (k : List ℕ) → slice_cmp nat_cmp name.now k ≡ Ordering.Less
            → IsSoughtIn k self.old → IsSoughtIn k self.new) }
    {
        if !self.is_alike {
            return None;
        }
        match self.members.place_after(self.row, name, passed) {
            Some(found) => {
                self.left = self.members.len_after_taken();
                Some(found)
            }
            None => {
                self.is_alike = false;
                self.members = PlacedMembers::new(self.row);
                None
            }
        }
    }
}
