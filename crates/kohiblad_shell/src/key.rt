//! Comparable keys of rows.

ghost use Rattle.std.specs.Prelude.{◌≡◌, IfErr, IfOk, OnOk, option_map, ⊤};
ghost use Rattle.kohiblad_shell.specs.Words.{AppendsKey, KeysDecide, complemented, document_tree};
ghost use Rattle.kohiblad_shell.specs.Words.{directed, key_laws, node_tree, path_key, path_keys};
ghost use Rattle.kohiblad_shell.specs.Words.{row_key, tree_key};

use crate::first::first_value;
use crate::sort_path::{Direction, SortPath};
use jsonb::{Document, Error, Node, SortKey};
use jsonb_comparable::{Sink, append_key, append_key_to, append_node};
use std::alloc::{AllocError, Global};

// A key that grows, as long as there is memory.
#[derive(Drop)]
struct GrowingKey {
    bytes: Vec<u8>,
    is_whole: bool,
}

impl Sink for GrowingKey {
    ghost room = { λ key bytes. ⊤ };

    ghost appends = { AppendsKey };

    ghost laws = { key_laws };

    fn append(&mut self, bytes: &[u8]) {
        if self.is_whole && self.bytes.extend_from_slice(bytes).is_err() {
            self.is_whole = false;
        }
    }
}

/// The key of a row: the comparable keys of the first values to which the paths lead, one after
/// another, or that of the row itself if there are no paths. For a path that leads nowhere the byte
/// 0 stands, which is below the first byte of each comparable key. Each byte of the key of a path
/// that falls is subtracted from 255. `OutOfMemory` is the only error.
///
/// So keys compare as the values to which the first path leads, the other way round if it falls,
/// then as those of the next one, and so on.
#[tactic(auto, using(crate::proofs::KeyOrderLaws::keys_decide))]
pub fn row_key(alloc: Global, document: Document<'_>, paths: &[SortPath]) -> Result<Vec<u8>, Error>
    ensures ok { IfOk result (λ key. key.items ≡ row_key paths.now (document_tree document.entry)) }
    ensures memory { IfErr result (λ e. e ≡ Error.OutOfMemory) }
    ensures order { KeysDecide paths.now }
{
    if paths.is_empty() {
        let mut key = Vec::new(alloc);
        append_key(SortKey::Document(document), &mut key)?;
        Ok(key)
    } else {
        path_keys(alloc, document, paths)
    }
}

/// The keys of what the paths lead to, one after another. `OutOfMemory` is the only error.
pub fn path_keys(
    alloc: Global,
    document: Document<'_>,
    paths: &[SortPath],
) -> Result<Vec<u8>, Error>
    ensures ok { IfOk result
        (λ key. key.items ≡ path_keys paths.now (document_tree document.entry)) }
    ensures memory { IfErr result (λ e. e ≡ Error.OutOfMemory) }
{
    let mut key = GrowingKey {
        bytes: Vec::new(alloc),
        is_whole: true,
    };
    for path in paths {
        let value = first_value(alloc, document, &path.path)?;
        append_directed_key(alloc, value, path.direction, &mut key)?;
    }
    if key.is_whole {
        Ok(key.bytes)
    } else {
        Err(Error::OutOfMemory)
    }
}

// Appends the key of what a path leads to, as its direction asks.
fn append_directed_key(
    alloc: Global,
    node: Option<Node<'_>>,
    direction: Direction,
    key: &mut GrowingKey,
) -> Result<(), AllocError>
    ensures { OnOk result (AppendsKey key.old key.new
        (directed direction (path_key (option_map node_tree node.entry)))) }
{
    match direction {
        Direction::Rising => {
            append_path_key(node, key);
            Ok(())
        }
        Direction::Falling => {
            let falling = falling_key(alloc, node)?;
            key.append(falling.as_slice());
            Ok(())
        }
    }
}

// Appends the key of what a path leads to.
fn append_path_key(node: Option<Node<'_>>, key: &mut GrowingKey)
    ensures { AppendsKey key.old key.new (path_key (option_map node_tree node.entry)) }
{
    match node {
        Some(node) => append_node_key(node, key),
        None => key.append(&[0]),
    }
}

// The key of what a path leads to, each byte subtracted from 255.
fn falling_key(alloc: Global, node: Option<Node<'_>>) -> Result<Vec<u8>, AllocError>
    ensures { IfOk result (λ key. key.items
        ≡ complemented (path_key (option_map node_tree node.entry))) }
{
    let rising = rising_key(alloc, node)?;
    complemented(alloc, rising.as_slice())
}

// The key of what a path leads to.
fn rising_key(alloc: Global, node: Option<Node<'_>>) -> Result<Vec<u8>, AllocError>
    ensures { IfOk result (λ key. key.items ≡ path_key (option_map node_tree node.entry)) }
{
    let mut key = GrowingKey {
        bytes: Vec::new(alloc),
        is_whole: true,
    };
    append_path_key(node, &mut key);
    if key.is_whole {
        Ok(key.bytes)
    } else {
        Err(AllocError)
    }
}

// The bytes, each subtracted from 255.
fn complemented(alloc: Global, bytes: &[u8]) -> Result<Vec<u8>, AllocError>
    ensures { IfOk result (λ made. made.items ≡ complemented bytes.now) }
{
    bytes.iter().map(|byte| 255 - *byte).collect(alloc)
}

// Appends the key of a value, which may be that of a whole document.
fn append_node_key(node: Node<'_>, key: &mut GrowingKey)
    ensures { AppendsKey key.old key.new (tree_key (node_tree node.entry)) }
{
    match node {
        Node::Container(document) => append_key_to(SortKey::Document(document), key),
        scalar => append_node(scalar, key),
    }
}
