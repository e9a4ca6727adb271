//! The members of an object in a table, to be looked up by many names.

ghost use Rattle.std.specs.Prelude.{◌≡◌, IfErr, IfOk, option_map};
ghost use Rattle.std.specs.Iterator.{YieldsFirstBy};
ghost use Rattle.jsonb.specs.EntryTrees.{rest_pairs};
ghost use Rattle.jsonb.specs.Node.{member_tree, node_tree, value_of_key};
ghost use Rattle.kohiblad.specs.MemberTable.{AreMembersOf, IsTableOf};
ghost use Rattle.kohiblad.specs.Words.{Tree, document_tree};

use jsonb::{Document, Error, Members, Node};
use std::alloc::Global;

/// The members of an object, in the order of their keys, which is that of the document.
#[derive(Drop)]
pub struct MemberTable<'a> {
    keys: Vec<&'a str>,
    values: Vec<Node<'a>>,
}

impl<'a> MemberTable<'a> {
    /// The members of a document; none if it is not an object. `OutOfMemory` is the only error.
    pub fn new(alloc: Global, document: Document<'a>) -> Result<Self, Error>
        ensures ok { IfOk result (IsTableOf (document_tree document.entry)) }
        ensures memory { IfErr result (λ e. e ≡ Error.OutOfMemory) }
    {
        match document.members() {
            Some(members) => MemberTable::of_members(alloc, members),
            None => Ok(MemberTable {
                keys: Vec::new(alloc),
                values: Vec::new(alloc),
            }),
        }
    }

    // All of these members.
    fn of_members(alloc: Global, mut members: Members<'a>) -> Result<Self, Error>
        ensures ok { IfOk result (AreMembersOf (rest_pairs members.entry)) }
        ensures memory { IfErr result (λ e. e ≡ Error.OutOfMemory) }
    {
        let mut keys = Vec::with_capacity(alloc, members.len())?;
        let mut values = Vec::with_capacity(alloc, members.len())?;
        while let Some((key, value)) = next_member(&mut members) {
            keys.push(key)?;
            values.push(value)?;
        }
        Ok(MemberTable { keys, values })
    }

    /// The value of a key. `None` if no member has it.
    pub fn get(&self, name: &'a str) -> Option<Node<'a>>
        ensures { (t : Tree) → IsTableOf t self.now
            → option_map node_tree result ≡ value_of_key name.now t }
    {
        match self.keys.binary_search(&name) {
            Ok(place) => self.values.get(place).copied(),
            Err(_) => None,
        }
    }
}

// The next member.
#[inline(always)]
fn next_member<'a>(members: &mut Members<'a>) -> Option<(&'a str, Node<'a>)>
    ensures { YieldsFirstBy member_tree rest_pairs members.old result members.new }
{
    members.next()
}
