//! Rows whose values lie in a range.

ghost use Rattle.std.specs.Prelude.{◌≡◌, IfOk};
ghost use Rattle.kohiblad_shell.specs.Words.{document_tree, is_in_range, is_tree_in, node_tree};

use crate::first::first_value;
use jsonb::{Document, Node};
use jsonb_path::Path;
use std::alloc::{AllocError, Global};

/// The values from one up to before another, in the order of documents, of what a path leads to.
#[derive(Clone, Copy)]
pub struct ValueRange<'a> {
    pub path: &'a Path,
    pub from: Document<'a>,
    pub to: Document<'a>,
}

/// Whether the path leads to some value, and the first of them lies in the range.
pub fn is_in_range(
    alloc: Global,
    document: Document<'_>,
    range: ValueRange<'_>,
) -> Result<bool, AllocError>
    ensures { IfOk result (λ is. is ≡ is_in_range range.entry (document_tree document.entry)) }
{
    match first_value(alloc, document, range.path)? {
        Some(node) => Ok(is_node_in(node, range.from, range.to)),
        None => Ok(false),
    }
}

// Whether a value is at least one and less than another.
fn is_node_in(node: Node<'_>, from: Document<'_>, to: Document<'_>) -> bool
    ensures { result
        ≡ is_tree_in (document_tree from.entry) (document_tree to.entry) (node_tree node.entry) }
{
    node.cmp(&Node::Container(from)).is_ge() && node.cmp(&Node::Container(to)).is_lt()
}
