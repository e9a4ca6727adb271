//! Where an expression is asked, and how it sees arrays.

ghost use Rattle.std.specs.Prelude.{◌≡◌, List, length, option_map};
ghost use Rattle.std.specs.Iterator.{YieldsFirstBy};
ghost use Rattle.jsonb.specs.EntryTrees.{rest_trees};
ghost use Rattle.jsonb.specs.Node.{node_tree};
ghost use Rattle.jsonb.specs.Node as nodes;
ghost use Rattle.jsonb_path.specs.Found.{Finds, left_of, place_of};
ghost use Rattle.jsonb_path.specs.Meaning.{items_of, past, unless_forgiven, unwrapped};
ghost use Rattle.jsonb_path.specs.PathTree.{PathNode, accessor_of};

use crate::outcome::WalkError;
use crate::path::{Accessor, Mode, PathError};
use jsonb::{Items, Node};

/// Where an expression is asked: of a document, in a filter of `current`, and in a subscript of an
/// array of so many items. What is not there is passed over, or refused.
#[derive(Clone, Copy)]
pub(crate) struct Place<'a> {
    pub mode: Mode,
    pub forgives: bool,
    pub root: Node<'a>,
    pub current: Node<'a>,
    pub count: usize,
    pub variables: &'a [(&'a str, Node<'a>)],
}

impl<'a> Place<'a> {
    // Nothing, or the error where nothing is forgiven.
    pub(crate) fn unless_forgiven(&self, error: PathError) -> Result<(), WalkError>
        ensures { (found : List Node) → Finds found found result
            (unless_forgiven (place_of self.now) error) }
    {
        if self.forgives {
            Ok(())
        } else {
            Err(WalkError::Failed(error))
        }
    }

    // The place after an accessor: all errors of what is not there are forgiven after `.**`.
    pub(crate) fn past(self, accessor: &Accessor) -> Place<'a>
        ensures { (made : List PathNode) → place_of result
            ≡ past (place_of self.entry) (accessor_of made accessor.now) }
    {
        match accessor {
            Accessor::Descendants(_, _) => Place {
                forgives: true,
                ..self
            },
            _ => self,
        }
    }
}

/// A value, or the items of an array, which are asked in its place.
#[derive(Drop)]
pub(crate) enum Units<'a> {
    Itself(Option<Node<'a>>),
    Items(Items<'a>),
}

impl<'a> Units<'a> {
    // In lax the items of an array; otherwise the value itself.
    pub(crate) fn unwrapped(mode: Mode, node: Node<'a>) -> Units<'a>
        ensures { left_of result ≡ unwrapped mode (node_tree node.entry) }
    {
        match (mode, items_in(node)) {
            (Mode::Lax, Some(items)) => Units::Items(items),
            _ => Units::Itself(Some(node)),
        }
    }

    // The items of an array; in lax any other value is the one item of an array.
    pub(crate) fn items_of(mode: Mode, node: Node<'a>) -> Option<Units<'a>>
        ensures { option_map left_of result ≡ items_of mode (node_tree node.entry) }
    {
        match (mode, items_in(node)) {
            (_, Some(items)) => Some(Units::Items(items)),
            (Mode::Lax, None) => Some(Units::Itself(Some(node))),
            (Mode::Strict, None) => None,
        }
    }

    // The next one.
    pub(crate) fn next_unit(&mut self) -> Option<Node<'a>>
        ensures { YieldsFirstBy node_tree left_of self.old result self.new }
    {
        match self {
            Units::Itself(node) => node.take(),
            Units::Items(items) => items.next(),
        }
    }

    // How many are left.
    pub(crate) fn len(&self) -> usize
        ensures { result ≡ length (left_of self.now) }
    {
        match self {
            Units::Itself(Some(_)) => 1,
            Units::Itself(None) => 0,
            Units::Items(items) => items.len(),
        }
    }
}

// The items of an array. `None` of any other value.
pub(crate) fn items_in<'a>(node: Node<'a>) -> Option<Items<'a>>
    ensures { option_map rest_trees result ≡ nodes.items_of (node_tree node.entry) }
{
    match node {
        Node::Container(document) => document.items(),
        _ => None,
    }
}
