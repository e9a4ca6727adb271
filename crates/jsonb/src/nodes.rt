//! The children of a document's arrays and objects, one by one.

ghost use Rattle.std.specs.Prelude.{◌≡◌, ℕ, List, length, nat_eq, Result, IfSome, slice_get};
ghost use Rattle.std.specs.Prelude.{Ok, map, option_map};
ghost use Rattle.std.specs.Cmp.Lexicographic.{pointwise};
ghost use Rattle.std.specs.Iterator.{YieldsFirstBy, MakesProgress, item_count};
ghost use Rattle.jsonb_value.specs.declared.error.Error.{Error};
ghost use Rattle.jsonb.specs.Entries.{entries_of};
ghost use Rattle.jsonb.specs.Entry.{Code};
ghost use Rattle.jsonb.specs.EntryTrees.{AreParts, AreMemberEntries, rest_trees, rest_pairs};
ghost use Rattle.jsonb.specs.EntryTrees.{part_tree};
ghost use Rattle.jsonb.specs.EntryTrees.{member_part_tree, entry_of_part};
ghost use Rattle.jsonb.specs.StoredEntries.{AreEntriesOf, entry_item, find_entry};
ghost use Rattle.jsonb.specs.Node.{node_tree, node_view, member_tree, HoldsNoScalar};

use crate::entries::Cursor;
use crate::node::Node;
use jsonb_codec::parts::Part;
use std::marker::Model;

/// The items of an array, in order, as values. The bytes were checked, so there is no error.
#[derive(Drop)]
pub struct Items<'a> {
    entries: Cursor<'a>,
}

impl<'a> Model for Items<'a> {
    ghost Value = { List (Result Code Error) };

    ghost view = { λ s. entries_of s.entries };

    ghost invariant = { λ s. AreParts (entries_of s.entries) };
}

impl<'a> Items<'a> {
    /// The items of these entries.
    pub(crate) fn new(entries: Cursor<'a>) -> Self
        requires { AreParts (entries_of entries) }
        ensures { result ≡ entries_of entries.entry }
    {
        Items { entries }
    }

    /// The number of items left.
    pub fn len(&self) -> usize
        ensures { result ≡ length (rest_trees self.now) }
    {
        self.entries.len()
    }

    // The next item as a part, to be read as a value where it is used.
    #[inline(always)]
    pub(crate) fn next_part(&mut self) -> Option<Part<'a>>
        ensures { YieldsFirstBy part_tree rest_trees self.old result self.new }
    {
        self.entries.next_part()
    }

    // The item at an index among those left, counted from 0. `None` if the index is not below their
    // number.
    pub(crate) fn item_at(self, index: usize) -> Option<Node<'a>>
        ensures tree { option_map node_tree result ≡ slice_get (rest_trees self.entry) index }
        ensures entry { (entries : List Code) → self.entry ≡ map Ok entries
            → option_map entry_item (slice_get entries index)
            ≡ option_map Ok (option_map node_view result) }
    {
        let Items { mut entries } = self;
        for _ in 0..index {
            entries.next_part()?;
        }
        let part = entries.next_part()?;
        Some(Node::of_part(part))
    }
}

impl<'a> Iterator for Items<'a> {
    type Item = Node<'a>;

    ghost next_gives = { YieldsFirstBy node_tree rest_trees };

    ghost remaining = { item_count rest_trees };

    #[inline(always)]
    fn next(&mut self) -> Option<Node<'a>>
        ensures steps { YieldsFirstBy node_tree rest_trees self.old result self.new }
        ensures goes { MakesProgress
            (λ _. Unit {0}) (item_count rest_trees) self.old result self.new }
        ensures container { IfSome result (HoldsNoScalar) }
    {
        let part = self.next_part()?;
        Some(Node::of_part(part))
    }
}

/// The members of an object, in the order of their keys: each key with its value. The bytes were
/// checked, so there is no error.
#[derive(Drop)]
pub struct Members<'a> {
    keys: Cursor<'a>,
    values: Cursor<'a>,
}

impl<'a> Model for Members<'a> {
    ghost Value = { List (Result Code Error) × List (Result Code Error) };

    ghost view = { λ s. (entries_of s.keys, entries_of s.values) };

    ghost invariant = { λ s. AreMemberEntries (entries_of s.keys, entries_of s.values) };
}

impl<'a> Members<'a> {
    /// The members with these entries of keys and values.
    pub(crate) fn new(keys: Cursor<'a>, values: Cursor<'a>) -> Self
        requires { AreMemberEntries (entries_of keys, entries_of values) }
        ensures { result ≡ (entries_of keys.entry, entries_of values.entry) }
    {
        Members { keys, values }
    }

    // The next key, and its value as a part, to be read where it is used.
    #[inline(always)]
    pub(crate) fn next_parts(&mut self) -> Option<(&'a str, Part<'a>)>
        ensures { YieldsFirstBy member_part_tree rest_pairs self.old result self.new }
    {
        let key = self.keys.next_part()?;
        let Some(value) = self.values.next_part() else {
            unreachable!();
        };
        Some((key.text(), value))
    }

    // The value of the first key that is this name, as a part.
    #[inline(always)]
    pub(crate) fn find(self, name: &str) -> Option<Part<'a>>
        ensures { (members : List (List ℕ × Code)) → AreEntriesOf members self.entry
            → option_map entry_of_part result
            ≡ find_entry (pointwise nat_eq name.now) (length name.now) members }
    {
        let Members {
            mut keys,
            mut values,
        } = self;
        while let Some(key) = keys.next_part() {
            let Some(value) = values.next_part() else {
                unreachable!();
            };
            if name == key.text() {
                return Some(value);
            }
        }
        None
    }

    /// The number of members left.
    pub fn len(&self) -> usize
        ensures { result ≡ length (rest_pairs self.now) }
    {
        self.keys.len()
    }
}

impl<'a> Iterator for Members<'a> {
    type Item = (&'a str, Node<'a>);

    ghost next_gives = { YieldsFirstBy member_tree rest_pairs };

    ghost remaining = { item_count rest_pairs };

    #[inline(always)]
    fn next(&mut self) -> Option<(&'a str, Node<'a>)>
        ensures steps { YieldsFirstBy member_tree rest_pairs self.old result self.new }
        ensures goes { MakesProgress
            (λ _. Unit {0}) (item_count rest_pairs) self.old result self.new }
        ensures container { IfSome result (λ member. HoldsNoScalar member.1) }
    {
        let (key, value) = self.next_parts()?;
        Some((key, Node::of_part(value)))
    }
}
