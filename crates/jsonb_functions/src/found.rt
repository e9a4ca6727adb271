//! What is at the end of a path.

ghost use Rattle.std.specs.Prelude.{◌≡◌, Ok, option_map};
ghost use Rattle.jsonb.specs.Document.{document_bytes};
ghost use Rattle.jsonb.specs.Item.{item_in};
ghost use Rattle.jsonb.specs.Node.{node_view};
ghost use Rattle.jsonb_functions.specs.FoundEntries.{IsChildOf, IsFoundAt, IsFoundFrom};
ghost use Rattle.jsonb_functions.specs.Words.{child_at, document_tree, found_at, node_tree};

use crate::path::{Step, item_position};
use crate::places::node_at_place;
use crate::selection::whole_of;
use jsonb::{Document, Node};

/// The value at the end of a path. `None` if the path leads nowhere.
pub fn get_path<'a>(document: Document<'a>, path: &[Step<'_>]) -> Option<Node<'a>>
    ensures value { option_map node_tree result ≡ found_at path.now (document_tree document.entry) }

    // It has the type and payload of the entry at the end of the path.
    ensures entry { IsFoundAt path.now (document_bytes document.entry)
        (option_map node_view result) }
{
    node_at(whole_node(document), path)
}

// The value that a document is, with the payload of its entry.
fn whole_node<'a>(document: Document<'a>) -> Node<'a>
    ensures tree { node_tree result ≡ document_tree document.entry }
    ensures item { item_in (document_bytes document.entry) ≡ Ok (node_view result) }
{
    node_at_place(document.as_bytes(), whole_of(document))
}

/// The value at the end of a path from another value. `None` if the path leads nowhere.
pub fn node_at<'a>(start: Node<'a>, path: &[Step<'_>]) -> Option<Node<'a>>
    ensures value { option_map node_tree result ≡ found_at path.now (node_tree start.entry) }
    ensures entry { IsFoundFrom path.now (node_view start.entry) (option_map node_view result) }
{
    let mut node = start;
    let mut left = path;
    while let [step, rest @ ..] = left {
        node = child_of(node, *step)?;
        left = rest;
    }
    Some(node)
}

/// The child that a step leads to. `None` if it leads nowhere.
pub fn child_of<'a>(node: Node<'a>, step: Step<'_>) -> Option<Node<'a>>
    ensures value { option_map node_tree result ≡ child_at step.entry (node_tree node.entry) }
    ensures entry { IsChildOf step.entry (node_view node.entry) (option_map node_view result) }
{
    let Node::Container(document) = node else {
        return None;
    };
    match document.items() {
        Some(items) => {
            let position = item_position(step, items.len())?;
            if position.is_there {
                document.index(position.before)
            } else {
                None
            }
        }
        None => match step {
            Step::Key(name) => document.get(name),
            _ => None,
        },
    }
}
