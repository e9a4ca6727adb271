//! The keys under which an inverted index finds documents by the keys at their top.

ghost use Rattle.std.specs.Prelude.{◌≡◌, ◌++◌, OnOk, OnErr, IfErr};
ghost use Rattle.jsonb_functions.specs.Words.{AppendsSome, HoldsNoScalar, document_tree};
ghost use Rattle.jsonb_functions.specs.Words.{hash_of_key, item_hashes, member_hashes, node_tree};
ghost use Rattle.jsonb_functions.specs.Words.{pairs_of, rest_pairs, rest_trees, text_hashes};
ghost use Rattle.jsonb_functions.specs.Words.{top_hashes, trees_of};

use crate::index::{Hashed, START};
use crate::walk::{next_item, next_member};
use jsonb::{Document, Error, Items, Members, Node};
use jsonb_comparable::Sink;
use std::alloc::AllocError;

/// The hash that an index has for a key: `append_top_keys` appends it for each document in which
/// the key exists. It is that of two zero bytes, with which no other index key begins, and the
/// key's bytes.
pub fn top_key(key: &str) -> u64
    ensures { result ≡ hash_of_key key.now }
{
    let mut hashed = Hashed { hash: START };
    hashed.append(&[0, 0]);
    hashed.append(key.as_bytes());
    hashed.hash
}

/// Appends a hash for each key that exists in a document: for each key of an object, each string
/// among an array's items, or a string itself, as `top_key` makes it. `OutOfMemory` is the only
/// error, and after it the list is as before.
pub fn append_top_keys(document: Document<'_>, out: &mut Vec<u64>) -> Result<(), Error>
    ensures appended { OnOk result
        (out.new.items ≡ out.old.items ++ top_hashes (document_tree document.entry)) }
    ensures err { OnErr result (out.new.items ≡ out.old.items) }
    ensures memory { IfErr result (λ e. e ≡ Error.OutOfMemory) }
{
    let before = out.len();
    match append_keys(document, out) {
        Ok(()) => Ok(()),
        Err(AllocError) => {
            out.truncate(before);
            Err(Error::OutOfMemory)
        }
    }
}

fn append_keys(document: Document<'_>, out: &mut Vec<u64>) -> Result<(), AllocError>
    ensures appended { OnOk result
        (out.new.items ≡ out.old.items ++ top_hashes (document_tree document.entry)) }
    ensures some { AppendsSome out.old.items out.new.items }
{
    if let Some(items) = document.items() {
        return append_texts(items, out);
    }
    match document.members() {
        Some(members) => append_names(members, out),
        None => append_text(document.value(), out),
    }
}

// The hash of a string; nothing for any other value.
#[tactic(auto, using(crate::proofs::TopKeyLaws::no_text))]
fn append_text(node: Node<'_>, out: &mut Vec<u64>) -> Result<(), AllocError>
    requires { HoldsNoScalar node }
    ensures appended { OnOk result
        (out.new.items ≡ out.old.items ++ text_hashes (node_tree node.entry)) }
    ensures some { AppendsSome out.old.items out.new.items }
{
    match node {
        Node::String(text) => {
            out.push(top_key(text))?;
            Ok(())
        }
        _ => Ok(()),
    }
}

// The hashes of the strings among items.
fn append_texts(mut items: Items<'_>, out: &mut Vec<u64>) -> Result<(), AllocError>
    ensures appended { OnOk result
        (out.new.items ≡ out.old.items ++ item_hashes (trees_of (rest_trees items.entry))) }
    ensures some { AppendsSome out.old.items out.new.items }
{
    while let Some(item) = next_item(&mut items) {
        append_text(item, out)?;
    }
    Ok(())
}

// The hashes of the keys of members.
fn append_names(mut members: Members<'_>, out: &mut Vec<u64>) -> Result<(), AllocError>
    ensures appended { OnOk result
        (out.new.items ≡ out.old.items ++ member_hashes (pairs_of (rest_pairs members.entry))) }
    ensures some { AppendsSome out.old.items out.new.items }
{
    while let Some((name, _)) = next_member(&mut members) {
        out.push(top_key(name))?;
    }
    Ok(())
}
