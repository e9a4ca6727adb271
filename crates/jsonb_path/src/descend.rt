//! The values below a value.

ghost use Rattle.std.specs.Prelude.{◌≡◌, ◌++◌, ◌∷◌, [], IfErr, OnOk, map, option_map};
ghost use Rattle.std.specs.Prelude.{option_to_list};
ghost use Rattle.std.specs.Iterator.{YieldsFirstBy};
ghost use Rattle.jsonb.specs.Node.{node_tree};
ghost use Rattle.jsonb_path.specs.Found.{Finds};
ghost use Rattle.jsonb_path.specs.Meaning.{below, gives, is_container, is_meant, itself, meant};
ghost use Rattle.jsonb_path.specs.Visits.{children_left, children_of};

use crate::outcome::{WalkError, append};
use crate::path::Level;
use jsonb::{Items, JsonbItemType, Members, Node};
use std::alloc::Global;

// The children of an array or object that are still to be visited.
#[derive(Drop)]
enum Children<'a> {
    Items(Items<'a>),
    Members(Members<'a>),
}

impl<'a> Children<'a> {
    // The children of an array or object. `None` of a scalar.
    #[tactic(auto, using(crate::proofs::VisitLaws::children))]
    fn of(node: Node<'a>) -> Option<Children<'a>>
        ensures { option_map children_left result ≡ children_of (node_tree node.entry) }
    {
        let Node::Container(document) = node else {
            return None;
        };
        match document.items() {
            Some(items) => Some(Children::Items(items)),
            None => match document.members() {
                Some(members) => Some(Children::Members(members)),
                None => None,
            },
        }
    }

    fn next_child(&mut self) -> Option<Node<'a>>
        ensures { YieldsFirstBy node_tree children_left self.old result self.new }
    {
        match self {
            Children::Items(items) => items.next(),
            Children::Members(members) => match members.next() {
                Some((_, value)) => Some(value),
                None => None,
            },
        }
    }
}

// Appends the value itself if its level is meant, and then those below it whose levels are, each
// before those below it.
pub(crate) fn append_descendants<'a>(
    alloc: Global,
    first: Level,
    last: Level,
    node: Node<'a>,
    found: &mut Vec<Node<'a>>,
) -> Result<(), WalkError>
    ensures { Finds found.old.items found.new.items result
        (gives (itself first (node_tree node.entry)
        ++ below first last 0 (node_tree node.entry))) }
{
    if matches!(first, Level::Number(0)) {
        append(node, found)?;
    }
    append_below(alloc, first, last, node, found)
}

// Appends the values below a value whose levels are meant.
fn append_below<'a>(
    alloc: Global,
    first: Level,
    last: Level,
    node: Node<'a>,
    found: &mut Vec<Node<'a>>,
) -> Result<(), WalkError>
    ensures { Finds found.old.items found.new.items result
        (gives (below first last 0 (node_tree node.entry))) }
{
    let mut stack = Vec::new(alloc);
    push_children(node, &mut stack)?;
    while let Some(mut children) = stack.pop() {
        let level = stack.len() + 1;
        if let Some(child) = children.next_child() {
            push(children, &mut stack)?;
            append_if_meant(first, last, level, child, found)?;
            push_children(child, &mut stack)?;
        }
    }
    Ok(())
}

// Puts children onto the stack.
fn push<'a>(children: Children<'a>, stack: &mut Vec<Children<'a>>) -> Result<(), WalkError>
    ensures pushed { OnOk result (stack.new.items ≡ stack.old.items ++ children.entry ∷ []) }
    ensures memory { IfErr result (λ e. e ≡ WalkError.OutOfMemory) }
{
    match stack.push(children) {
        Ok(()) => Ok(()),
        Err(_) => Err(WalkError::OutOfMemory),
    }
}

// Puts the children of an array or object onto the stack.
fn push_children<'a>(node: Node<'a>, stack: &mut Vec<Children<'a>>) -> Result<(), WalkError>
    ensures pushed { OnOk result (map children_left stack.new.items
        ≡ map children_left stack.old.items
        ++ option_to_list (children_of (node_tree node.entry))) }
    ensures memory { IfErr result (λ e. e ≡ WalkError.OutOfMemory) }
{
    match Children::of(node) {
        Some(children) => push(children, stack),
        None => Ok(()),
    }
}

// Appends a value if its level is meant.
fn append_if_meant<'a>(
    first: Level,
    last: Level,
    level: usize,
    node: Node<'a>,
    found: &mut Vec<Node<'a>>,
) -> Result<(), WalkError>
    ensures { Finds found.old.items found.new.items result
        (gives (meant first last level (node_tree node.entry))) }
{
    if is_meant(first, last, level, is_container(node)) {
        append(node, found)?;
    }
    Ok(())
}

// Whether a value is an array or object.
fn is_container(node: Node<'_>) -> bool
    ensures { result ≡ is_container (node_tree node.entry) }
{
    match node {
        Node::Container(document) => match document.kind() {
            JsonbItemType::Array(_) | JsonbItemType::Object(_) => true,
            _ => false,
        },
        _ => false,
    }
}

// Whether a value so far below is meant: `last` means those that hold none.
fn is_meant(first: Level, last: Level, level: usize, holds: bool) -> bool
    ensures { result ≡ is_meant first last level holds }
{
    match (first, last) {
        (Level::Number(first), Level::Number(last)) => {
            first as usize <= level && level <= last as usize
        }
        (Level::Number(first), Level::Last) => first as usize <= level,
        (Level::Last, Level::Number(_)) => false,
        (Level::Last, Level::Last) => !holds,
    }
}
