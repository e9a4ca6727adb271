//! Lists and maps of values that are stored unchanged.

ghost use Rattle.std.specs.Prelude.{◌≡◌, ◌↔◌, ℕ, List, IsTrue, IsSome, ⊤};
ghost use Rattle.jsonb_codec.specs.Words.{code_of, stored_meaning, stored_laws, part_code};
ghost use Rattle.jsonb_codec.specs.Words.{code_of_some};

use super::code::{Payload, StoredEntry};
use super::source::{Level, Source};
use crate::parts::Part;
use std::collections::{BTreeMap, btree_map};

/// A value that is stored unchanged if it has an entry, and whose entry then satisfies the
/// invariants of its type.
pub trait Stored {
    ghost stored: { Self → Type 0 };

    ghost code: { Self → ℕ × List ℕ };

    ghost held: { Self → Type 0 };

    /// Whether the value has an entry.
    fn is_stored(&self) -> bool
        ensures { IsTrue result ↔ stored self.now };

    /// The entry of the value: type and payload.
    fn code<'s>(&'s self) -> StoredEntry<'s>
        requires { stored self.now }
        ensures code { code_of result ≡ code self.now }
        ensures held { held self.now };
}

type Kind<'s, 'k, T> = Level<StoredEntry<'s>, &'s [T], &'s BTreeMap<&'k str, T>>;

type Members<'s, 'k, T> = btree_map::Iter<'s, &'k str, T>;

type Member<'s, 'k, T> = (StoredEntry<'s>, (&'s T, Members<'s, 'k, T>));

/// Slices of stored values are written as arrays, and maps of them as objects.
impl<'s, 'k, T: Stored> Source for &'s BTreeMap<&'k str, T> {
    type Leaf = StoredEntry<'s>;

    type Child = &'s T;

    type Items = &'s [T];

    type Object = &'s BTreeMap<&'k str, T>;

    type Members = Members<'s, 'k, T>;

    ghost meaning = { stored_meaning T.stored T.code T.held };

    ghost laws = { stored_laws T.stored T.code T.held };

    #[inline(always)]
    fn level(child: &'s T) -> Kind<'s, 'k, T> {
        Level::Leaf(child.code())
    }

    #[inline(always)]
    fn count(items: &'s [T]) -> usize {
        items.len()
    }

    #[inline(always)]
    fn split_item(items: &'s [T]) -> Option<(&'s T, &'s [T])> {
        match items {
            [first, rest @ ..] => Some((first, rest)),
            [] => None,
        }
    }

    #[inline(always)]
    fn object_count(object: &'s BTreeMap<&'k str, T>) -> usize {
        object.len()
    }

    #[inline(always)]
    fn members(object: &'s BTreeMap<&'k str, T>) -> Members<'s, 'k, T> {
        object.iter()
    }

    #[inline(always)]
    fn members_left(members: &Members<'s, 'k, T>) -> usize {
        members.len()
    }

    #[inline(always)]
    fn fork(members: &Members<'s, 'k, T>) -> Members<'s, 'k, T> {
        let Ok(members) = members.clone() else {
            unreachable!();
        };
        members
    }

    #[inline(always)]
    fn split_member(mut members: Members<'s, 'k, T>) -> Option<Member<'s, 'k, T>> {
        let (key, first) = members.next()?;
        Some((StoredEntry::of_text(*key), (first, members)))
    }
}

/// A part of a document is stored unchanged.
#[inline(always)]
pub fn part_code<'a>(part: Part<'a>) -> StoredEntry<'a>
    ensures { code_of result ≡ part_code part.entry }
{
    StoredEntry {
        type_code: part.type_code,
        payload: Payload::Bytes(part.payload),
    }
}

impl<'a> Stored for Option<Part<'a>> {
    ghost stored = { IsSome };

    ghost code = { code_of_some };

    ghost held = { λ part. ⊤ };

    #[inline(always)]
    fn is_stored(&self) -> bool {
        self.is_some()
    }

    #[inline(always)]
    fn code<'s>(&'s self) -> StoredEntry<'s> {
        let Some(part) = self else {
            unreachable!();
        };
        part_code(*part)
    }
}
