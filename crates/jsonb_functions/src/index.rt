//! The keys under which an inverted index finds documents by what they contain.

ghost use Rattle.std.specs.Prelude.{◌≡◌, ◌++◌, ℕ, List, [], ⊤, OnOk, OnErr, IfErr};
ghost use Rattle.jsonb_functions.specs.HashSink.{hash_laws};
ghost use Rattle.jsonb_functions.specs.IndexHash.{Hashes};
ghost use Rattle.jsonb_functions.specs.Words.{AppendsSome, HoldsNoScalar, IsContainer};
ghost use Rattle.jsonb_functions.specs.Words.{document_tree, hash_64, items_hashes, members_hashes};
ghost use Rattle.jsonb_functions.specs.Words.{node_tree, pairs_of, rest_pairs, rest_trees};
ghost use Rattle.jsonb_functions.specs.Words.{tree_hashes, trees_of};

use crate::walk::{next_item, next_member};
use jsonb::{Document, Error, Items, Members, Node};
use jsonb_comparable::{Sink, append_escaped, append_node};
use std::alloc::AllocError;

/// The hash of no byte: FNV-1a of 64 bits.
pub const START: u64 = 14695981039346656037;

const PRIME: u64 = 1099511628211;

/// The hash of the bytes that were appended.
#[derive(Clone, Copy)]
pub struct Hashed {
    pub hash: u64,
}

impl Sink for Hashed {
    ghost room = { λ hash bytes. ⊤ };

    ghost appends = { Hashes };

    ghost laws = { hash_laws };

    fn append(&mut self, bytes: &[u8]) {
        let mut left = bytes;
        while let [first, rest @ ..] = left {
            self.hash = (self.hash ^ *first as u64).wrapping_mul(PRIME);
            left = rest;
        }
    }
}

/// Appends the index keys of a document: for each scalar in it a hash of the keys on the way to it
/// and of its comparable key. What a document contains has no key that the document has not.
/// `OutOfMemory` is the only error, and after it the list is as before.
pub fn append_index_keys(document: Document<'_>, out: &mut Vec<u64>) -> Result<(), Error>
    ensures appended { OnOk result
        (out.new.items ≡ out.old.items ++ tree_hashes [] (document_tree document.entry)) }
    ensures err { OnErr result (out.new.items ≡ out.old.items) }
    ensures memory { IfErr result (λ e. e ≡ Error.OutOfMemory) }
{
    let before = out.len();
    match append_keys(document.value(), Hashed { hash: START }, out) {
        Ok(()) => Ok(()),
        Err(AllocError) => {
            out.truncate(before);
            Err(Error::OutOfMemory)
        }
    }
}

// Appends the keys of a value, on the way to which the path was hashed.
#[cycle(index)]
fn append_keys(node: Node<'_>, path: Hashed, out: &mut Vec<u64>) -> Result<(), AllocError>
    requires { HoldsNoScalar node }
    ensures appended { OnOk result ((p : List ℕ) → path.hash ≡ hash_64 p
        → out.new.items ≡ out.old.items ++ tree_hashes p (node_tree node.entry)) }
    ensures some { AppendsSome out.old.items out.new.items }
{
    match node {
        Node::Container(document) => append_container_keys(document, path, out),
        scalar => {
            let mut hashed = path;
            hashed.append(&[0]);
            append_node(scalar, &mut hashed);
            out.push(hashed.hash)?;
            Ok(())
        }
    }
}

#[cycle(index)]
fn append_container_keys(
    document: Document<'_>,
    path: Hashed,
    out: &mut Vec<u64>,
) -> Result<(), AllocError>
    requires { IsContainer (document_tree document) }
    ensures appended { OnOk result ((p : List ℕ) → path.hash ≡ hash_64 p
        → out.new.items ≡ out.old.items ++ tree_hashes p (document_tree document.entry)) }
    ensures some { AppendsSome out.old.items out.new.items }
{
    if let Some(items) = document.items() {
        return append_items_keys(items, path, out);
    }
    match document.members() {
        Some(members) => append_members_keys(members, path, out),
        None => unreachable!(),
    }
}

#[cycle(index)]
fn append_items_keys(
    mut items: Items<'_>,
    path: Hashed,
    out: &mut Vec<u64>,
) -> Result<(), AllocError>
    ensures appended { OnOk result ((p : List ℕ) → path.hash ≡ hash_64 p
        → out.new.items ≡ out.old.items ++ items_hashes p (trees_of (rest_trees items.entry))) }
    ensures some { AppendsSome out.old.items out.new.items }
{
    while let Some(item) = next_item(&mut items) {
        append_keys(item, path, out)?;
    }
    Ok(())
}

#[cycle(index)]
fn append_members_keys(
    mut members: Members<'_>,
    path: Hashed,
    out: &mut Vec<u64>,
) -> Result<(), AllocError>
    ensures appended { OnOk result ((p : List ℕ) → path.hash ≡ hash_64 p
        → out.new.items ≡ out.old.items ++ members_hashes p (pairs_of (rest_pairs members.entry))) }
    ensures some { AppendsSome out.old.items out.new.items }
{
    while let Some((key, value)) = next_member(&mut members) {
        let mut hashed = path;
        append_escaped(key.as_bytes(), &mut hashed);
        append_keys(value, hashed, out)?;
    }
    Ok(())
}
