//! Whether some or all of several keys are at the top of a document.

ghost use Rattle.std.specs.Prelude.{◌≡◌, ◌&&◌, not, ℕ, List, IfErr, IfOk};
ghost use Rattle.std.specs.Borrow.{Bor};
ghost use Rattle.std.specs.BTreeSet.{IsFromIterResult};
ghost use Rattle.std.specs.List.{list_all, list_any};
ghost use Rattle.jsonb_functions.specs.KeyTests.{has_name, names_cmp};
ghost use Rattle.jsonb_functions.specs.Words.{AreSorted, HoldsNoScalar, contained, document_tree};
ghost use Rattle.jsonb_functions.specs.Words.{has_top_key, is_there, node_tree, object_of};
ghost use Rattle.jsonb_functions.specs.Words.{rest_pairs, rest_trees, some_tree, text, trees_of};
ghost use Rattle.jsonb_functions.specs.Words.{value_of_key};

use crate::choice::{is_named, sorted};
use crate::walk::{next_item, next_member};
use jsonb::{Document, Error, Items, Members, Node};
use std::alloc::{AllocError, Global};
use std::collections::BTreeSet;

/// Whether some of these keys is there, as `exists` says of one; of no keys none is. It does not
/// matter how often or in which order they are listed. The document is walked once, and each key or
/// text at its top is searched in a sorted list of the keys. `OutOfMemory`, the only error, if that
/// list cannot be allocated.
pub fn exists_any(alloc: Global, document: Document<'_>, keys: &[&str]) -> Result<bool, Error>
    ensures ok { IfOk result (λ there. there
        ≡ list_any (λ key. has_top_key key.now (document_tree document.entry)) keys.now) }
    ensures memory { IfErr result (λ e. e ≡ Error.OutOfMemory) }
{
    let keys = sorted(alloc, keys)?;
    Ok(has_named(document, &keys))
}

// Whether some of the names is there.
fn has_named(document: Document<'_>, names: &[&str]) -> bool
    requires { AreSorted names.now }
    ensures { result
        ≡ list_any (λ name. has_top_key name.now (document_tree document.entry)) names.now }
{
    if let Some(items) = document.items() {
        return has_named_text(items, names);
    }
    match document.members() {
        Some(members) => has_named_member(members, names),
        None => is_named_text(document.value(), names),
    }
}

// Whether some item is a text that is one of the names.
fn has_named_text(mut items: Items<'_>, names: &[&str]) -> bool
    requires { AreSorted names.now }
    ensures { result ≡ list_any (λ name. some_tree (λ t. contained (text name.now) t)
        (trees_of (rest_trees items.entry))) names.now }
{
    while let Some(item) = next_item(&mut items) {
        if is_named_text(item, names) {
            return true;
        }
    }
    false
}

// Whether some member has one of the names as its key.
fn has_named_member(mut members: Members<'_>, names: &[&str]) -> bool
    requires { AreSorted names.now }
    ensures { result ≡ list_any (λ name. is_there (value_of_key name.now
        (object_of (rest_pairs members.entry)))) names.now }
{
    while let Some((key, _)) = next_member(&mut members) {
        if is_named(names, key) {
            return true;
        }
    }
    false
}

// Whether a value is a text that is one of the names.
fn is_named_text(node: Node<'_>, names: &[&str]) -> bool
    requires sorted { AreSorted names.now }
    requires container { HoldsNoScalar node }
    ensures { result ≡ list_any (λ name. contained (text name.now) (node_tree node.entry))
        names.now }
{
    match node {
        Node::String(text) => is_named(names, text),
        _ => false,
    }
}

/// Whether all of these keys are there, as `exists` says of one; of no keys all are. It does not
/// matter how often or in which order they are listed. The document is walked once, and each key or
/// text at its top is taken out of a set of the keys. `OutOfMemory`, the only error, if that set
/// cannot be allocated.
pub fn exists_all(alloc: Global, document: Document<'_>, keys: &[&str]) -> Result<bool, Error>
    ensures ok { IfOk result (λ there. there
        ≡ list_all (λ key. has_top_key key.now (document_tree document.entry)) keys.now) }
    ensures memory { IfErr result (λ e. e ≡ Error.OutOfMemory) }
{
    let mut missing = set_of(alloc, keys)?;
    remove_keys(document, &mut missing);
    Ok(missing.is_empty())
}

// The names, each once.
fn set_of<'a>(alloc: Global, names: &[&'a str]) -> Result<BTreeSet<&'a str>, AllocError>
    ensures { IfOk result (IsFromIterResult names_cmp names.now) }
{
    let set = names.iter().copied().collect(alloc)?;
    Ok(set)
}

// Removes the keys that are there.
fn remove_keys(document: Document<'_>, missing: &mut BTreeSet<&str>)
    ensures { (name : Bor (List ℕ)) → has_name missing.new name ≡ (has_name missing.old name
        && not (has_top_key name.now (document_tree document.entry))) }
{
    if let Some(items) = document.items() {
        return remove_texts(items, missing);
    }
    match document.members() {
        Some(members) => remove_names(members, missing),
        None => remove_text(document.value(), missing),
    }
}

// Removes the texts among items.
fn remove_texts(mut items: Items<'_>, missing: &mut BTreeSet<&str>)
    ensures { (name : Bor (List ℕ)) → has_name missing.new name ≡ (has_name missing.old name
        && not (some_tree (λ t. contained (text name.now) t)
        (trees_of (rest_trees items.entry)))) }
{
    while let Some(item) = next_item(&mut items) {
        remove_text(item, missing);
    }
}

// Removes the keys of members.
fn remove_names(mut members: Members<'_>, missing: &mut BTreeSet<&str>)
    ensures { (name : Bor (List ℕ)) → has_name missing.new name ≡ (has_name missing.old name
        && not (is_there (value_of_key name.now (object_of (rest_pairs members.entry))))) }
{
    while let Some((key, _)) = next_member(&mut members) {
        missing.remove(key);
    }
}

// Removes a value if it is a text.
fn remove_text(node: Node<'_>, missing: &mut BTreeSet<&str>)
    requires { HoldsNoScalar node }
    ensures { (name : Bor (List ℕ)) → has_name missing.new name ≡ (has_name missing.old name
        && not (contained (text name.now) (node_tree node.entry))) }
{
    if let Node::String(text) = node {
        missing.remove(text);
    }
}
