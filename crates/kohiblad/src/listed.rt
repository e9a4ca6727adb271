//! Writing the array of values that are listed.

ghost use Rattle.std.specs.Prelude.{◌≡◌, ◌≤◌, ◌<◌, ◌+◌, ◌^◌, [], IfOk, IfSome, MatchOption};
ghost use Rattle.std.specs.Prelude.{length};
ghost use Rattle.jsonb_value.specs.Tree.{Tree, array};
ghost use Rattle.jsonb_codec.specs.Canon.{Fits, canon, shape_of};
ghost use Rattle.jsonb_codec.specs.Code.{code_of};
ghost use Rattle.jsonb_codec.specs.Contents.{PartMeans};
ghost use Rattle.jsonb_codec.specs.Made.{MadeIfFit};
ghost use Rattle.jsonb_codec.specs.PartSource.{PartItemsAre, items_size};
ghost use Rattle.jsonb_codec.specs.Shape.{Shapes, no_shapes};
ghost use Rattle.jsonb_codec.specs.Source.{AreSplit, LevelIs, level_size};
ghost use Rattle.jsonb.specs.Node.{node_tree};
ghost use Rattle.jsonb.specs.Owned.{owned_bytes};
ghost use Rattle.kohiblad.specs.ListedSource.{ListedIs, ListedItemsAre, listed_items_size};
ghost use Rattle.kohiblad.specs.ListedSource.{listed_laws, listed_meaning, listed_size};
ghost use Rattle.kohiblad.specs.ListedSource.{listed_trees};

use jsonb::layer::parts::{Children, Members, Object, Part};
use jsonb::layer::writer::{Level, Payload, Side, Source, StoredEntry, append_document};
use jsonb::{Error, Node, OwnedJsonb};
use jsonb_codec::constants::{EXTENSION_TAG, FALSE_TAG, NULL_TAG, NUMBER_TAG, TRUE_TAG};
use std::alloc::Global;

/// The canonical document of the array of these values. `InvalidJsonb` if it does not fit the
/// format; `OutOfMemory` if an allocation fails.
pub fn array_document(alloc: Global, values: &[Node<'_>]) -> Result<OwnedJsonb, Error>
    ensures ok { IfOk result (λ owned. owned_bytes owned
        ≡ canon (array (listed_trees values.now))) }
    ensures limits { MadeIfFit (Fits (array (listed_trees values.now))) result }
{
    let mut bytes = Vec::new(alloc);
    append_document::<Listed>(&mut bytes, listed_level(values))?;
    Ok(OwnedJsonb::new(bytes))
}

// The level of the array of these values.
#[inline(always)]
fn listed_level<'a>(values: &'a [Node<'a>]) -> ListedLevel<'a>
    ensures { LevelIs code_of listed_meaning result
        (shape_of (array (listed_trees values.entry.now))) }
{
    Level::Array(ListedItems::Values(values))
}

/// A value of a list, or one below such a value.
#[derive(Clone, Copy)]
pub enum Listed<'a> {
    Value(Node<'a>),
    Below(Part<'a>),
}

/// The values of a list, or the items of an array below one.
#[derive(Clone, Copy)]
pub enum ListedItems<'a> {
    Values(&'a [Node<'a>]),
    Children(Children<'a>),
}

type ListedLevel<'a> = Level<StoredEntry<'a>, ListedItems<'a>, Object<'a>>;

// The level of a value: a scalar in its shortest form, or an array or object.
fn value_level<'a>(node: Node<'a>) -> ListedLevel<'a>
    ensures is { LevelIs code_of listed_meaning result (shape_of (node_tree node.entry)) }
    ensures size { level_size listed_meaning result ≤ 2 ^ 64 }
{
    let (type_code, payload) = match node {
        Node::Null => return Level::Leaf(StoredEntry::of_type(NULL_TAG)),
        Node::Boolean(false) => return Level::Leaf(StoredEntry::of_type(FALSE_TAG)),
        Node::Boolean(true) => return Level::Leaf(StoredEntry::of_type(TRUE_TAG)),
        Node::Number(item) => (NUMBER_TAG, Payload::Number(item.as_number())),
        Node::String(text) => return Level::Leaf(StoredEntry::of_text(text)),
        Node::Extension(item) => (EXTENSION_TAG, Payload::Extension(item.as_extension_value())),
        Node::Container(document) => return part_level(document.part()),
    };
    Level::Leaf(StoredEntry { type_code, payload })
}

// The level of a part.
fn part_level<'a>(part: Part<'a>) -> ListedLevel<'a>
    ensures is { (t : Tree) → PartMeans part.entry t
        → LevelIs code_of listed_meaning result (shape_of t) }
    ensures size { level_size listed_meaning result ≤ length part.entry.payload.now }
{
    match Part::level(part) {
        Level::Leaf(leaf) => Level::Leaf(leaf),
        Level::Array(items) => Level::Array(ListedItems::Children(items)),
        Level::Object(object) => Level::Object(object),
    }
}

// The first value of a list, and the values after it.
#[inline(always)]
#[tactic(auto, using(crate::proofs::ListedLaws::first_values))]
fn split_values<'a>(values: &'a [Node<'a>]) -> Option<(Listed<'a>, ListedItems<'a>)>
    ensures split { (ss : Shapes) → ListedItemsAre (ListedItems.Values values.entry) ss
        → MatchOption result (ss ≡ no_shapes)
        (λ x. AreSplit (λ key. key ≡ []) ListedIs ListedItemsAre x ss) }
    ensures size { IfSome result (λ x. listed_size x.0 + listed_items_size x.1
        < listed_items_size (ListedItems.Values values.entry)) }
{
    match values {
        [first, later @ ..] => Some((Listed::Value(*first), ListedItems::Values(later))),
        [] => None,
    }
}

// The first item below a value, and the items after it.
#[inline(always)]
#[tactic(auto, using(crate::proofs::ListedLaws::first_below))]
fn split_children<'a>(children: Children<'a>) -> Option<(Listed<'a>, ListedItems<'a>)>
    requires { (ss : Shapes) × PartItemsAre children ss }
    ensures split { (ss : Shapes) → PartItemsAre children.entry ss
        → MatchOption result (ss ≡ no_shapes)
        (λ x. AreSplit (λ key. key ≡ []) ListedIs ListedItemsAre x ss) }
    ensures size { IfSome result (λ x. listed_size x.0 + listed_items_size x.1
        < items_size children.entry) }
{
    match Part::split_item(children) {
        Some((first, later)) => Some((Listed::Below(first), ListedItems::Children(later))),
        None => None,
    }
}

impl<'a> Source for Listed<'a> {
    type Leaf = StoredEntry<'a>;

    type Child = Listed<'a>;

    type Items = ListedItems<'a>;

    type Object = Object<'a>;

    type Members = Members<'a>;

    ghost meaning = { listed_meaning };

    ghost laws = { listed_laws };

    #[inline(always)]
    fn level(child: Listed<'a>) -> ListedLevel<'a> {
        match child {
            Listed::Value(node) => value_level(node),
            Listed::Below(part) => part_level(part),
        }
    }

    #[inline(always)]
    fn item_side(item: Listed<'a>, later: ListedItems<'a>) -> Option<Side> {
        match (item, later) {
            (Listed::Below(part), ListedItems::Children(children)) => Part::item_side(
                part, children,
            ),
            _ => None,
        }
    }

    #[inline(always)]
    fn value_side(value: Listed<'a>, later: &Members<'a>) -> Option<Side> {
        match value {
            Listed::Below(part) => Part::value_side(part, later),
            Listed::Value(_) => None,
        }
    }

    #[inline(always)]
    #[tactic(auto, using(crate::proofs::ListedLaws::listed_count))]
    fn count(items: ListedItems<'a>) -> usize {
        match items {
            ListedItems::Values(values) => values.len(),
            ListedItems::Children(children) => Part::count(children),
        }
    }

    #[inline(always)]
    fn split_item(items: ListedItems<'a>) -> Option<(Listed<'a>, ListedItems<'a>)> {
        match items {
            ListedItems::Values(values) => split_values(values),
            ListedItems::Children(children) => split_children(children),
        }
    }

    #[inline(always)]
    fn object_count(object: Object<'a>) -> usize {
        Part::object_count(object)
    }

    #[inline(always)]
    fn members(object: Object<'a>) -> Members<'a> {
        Part::members(object)
    }

    #[inline(always)]
    fn members_left(members: &Members<'a>) -> usize {
        Part::members_left(members)
    }

    #[inline(always)]
    fn fork(members: &Members<'a>) -> Members<'a> {
        *members
    }

    #[inline(always)]
    #[tactic(auto, using(crate::proofs::ListedLaws::below_member))]
    fn split_member(members: Members<'a>) -> Option<(StoredEntry<'a>, (Listed<'a>, Members<'a>))> {
        match Part::split_member(members) {
            Some((key, (value, later))) => Some((key, (Listed::Below(value), later))),
            None => None,
        }
    }
}
