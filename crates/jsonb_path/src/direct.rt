//! Values that are at hand, followed along members without a list.

ghost use Rattle.std.specs.Prelude.{◌≡◌, ◌∷◌, [], IfSome, IsTrue, List, false, option_map};
ghost use Rattle.std.specs.Prelude.{option_to_list, true};
ghost use Rattle.std.specs.List.{list_all};
ghost use Rattle.jsonb.specs.Node.{node_tree};
ghost use Rattle.jsonb_path.specs.Found.{place_of};
ghost use Rattle.jsonb_path.specs.Meaning as meaning;
ghost use Rattle.jsonb_path.specs.Meaning.{access, along, begin, follow, gives};
ghost use Rattle.jsonb_path.specs.Meaning.{in_lax_unwrapped, past, unwrapped};
ghost use Rattle.jsonb_path.specs.PathParts.{is_accessor};
ghost use Rattle.jsonb_path.specs.PathTree.{PathNode, accessor_of, accessors_of};
ghost use Rattle.jsonb_path.specs.PathTree.{as_expression, node_of, primary_of};

use crate::ask::value_named;
use crate::path::{Accessor, Mode, Part, Source};
use crate::place::{Place, items_in};
use crate::value::{last_node, literal_node};
use jsonb::Node;

// The value that a chain begins with, if it is at hand.
pub(crate) fn value_of<'a>(place: &Place<'a>, source: &'a Source) -> Option<Node<'a>>
    ensures { (nodes : List PathNode) → IfSome result (λ node.
        begin (place_of place.now) (primary_of nodes source.now) ≡ gives (node_tree node ∷ [])) }
{
    match source {
        Source::Root => Some(place.root),
        Source::Current => Some(place.current),
        Source::Last => Some(last_node(place.count)),
        Source::Literal(literal) => Some(literal_node(literal)),
        Source::Variable(_) | Source::Part(_) => None,
    }
}

// A value, and the accessors that are still to be followed from it.
#[derive(Clone, Copy)]
pub(crate) struct Ahead<'a> {
    pub node: Node<'a>,
    pub left: &'a [Accessor],
}

// Follows members from a value as far as they are there.
pub(crate) fn along_members<'a>(start: Node<'a>, accessors: &'a [Accessor]) -> Ahead<'a>
    ensures same { (place : meaning.Place) (nodes : List PathNode)
        → along place (accessors_of nodes result.left.now) (gives (node_tree result.node ∷ []))
        ≡ along place (accessors_of nodes accessors.now) (gives (node_tree start.entry ∷ [])) }
    ensures left { (ps : List Part) → IsTrue (list_all (is_accessor ps) accessors.now)
        → IsTrue (list_all (is_accessor ps) result.left.now) }
{
    let mut node = start;
    let mut left = accessors;
    while let [accessor, rest @ ..] = left {
        match member_at(accessor, node) {
            Some(value) => {
                node = value;
                left = rest;
            }
            None => return Ahead { node, left },
        }
    }
    Ahead { node, left }
}

// The value to which an accessor leads from a value, if it is a member that is there.
#[tactic(auto, using(crate::proofs::DirectLaws::member_gives))]
fn member_at<'a>(accessor: &Accessor, node: Node<'a>) -> Option<Node<'a>>
    ensures { (place : meaning.Place) (nodes : List PathNode) → IfSome result (λ value.
        (past place (accessor_of nodes accessor.now) ≡ place)
        × (access place (accessor_of nodes accessor.now) (node_tree node.entry)
        ≡ gives (node_tree value ∷ []))) }
{
    match accessor {
        Accessor::Member(name) => value_named(name, node),
        _ => None,
    }
}

// The one value that a part gives, or none, if members lead there from a value at hand. In lax it
// is no array, which would be unwrapped.
pub(crate) fn direct<'a>(place: &Place<'a>, part: &'a Part) -> Option<Option<Node<'a>>>
    ensures { (nodes : List PathNode) → IfSome result (λ found. in_lax_unwrapped place.now.mode
        (follow (place_of place.now) (as_expression (node_of nodes part.now)))
        ≡ gives (option_to_list (option_map node_tree found))) }
{
    let Part::Chain(source, accessors) = part else {
        return None;
    };
    let start = value_of(place, source)?;
    let ahead = along_members(start, accessors);
    if is_unwrapped(place.mode, ahead.node) {
        return None;
    }
    end_of(place, ahead.node, ahead.left)
}

// The value if no accessor is left, or none if the next one is a member that it has not.
fn end_of<'a>(place: &Place<'a>, node: Node<'a>, left: &[Accessor]) -> Option<Option<Node<'a>>>
    requires { unwrapped place.now.mode (node_tree node) ≡ node_tree node ∷ [] }
    ensures { (nodes : List PathNode) → IfSome result (λ found. in_lax_unwrapped place.now.mode
        (along (place_of place.now) (accessors_of nodes left.now)
        (gives (node_tree node.entry ∷ [])))
        ≡ gives (option_to_list (option_map node_tree found))) }
{
    match left {
        [] => Some(Some(node)),
        [accessor, ..] => {
            if is_missing(place, accessor, node) {
                Some(None)
            } else {
                None
            }
        }
    }
}

// Whether an accessor is a member that a value has not, and that is passed over.
#[tactic(auto, using(crate::proofs::DirectLaws::missing_led))]
fn is_missing(place: &Place<'_>, accessor: &Accessor, node: Node<'_>) -> bool
    requires { unwrapped place.now.mode (node_tree node) ≡ node_tree node ∷ [] }
    ensures { (nodes : List PathNode) → result ≡ true
        → access (place_of place.now) (accessor_of nodes accessor.now) (node_tree node.entry)
        ≡ gives [] }
{
    match accessor {
        Accessor::Member(name) => match value_named(name, node) {
            Some(_) => false,
            None => place.forgives,
        },
        _ => false,
    }
}

// Whether a value is unwrapped to its items: an array is, in lax.
#[tactic(auto, using(crate::proofs::DirectLaws::itself_asked))]
pub(crate) fn is_unwrapped(mode: Mode, node: Node<'_>) -> bool
    ensures { result ≡ false
        → unwrapped mode (node_tree node.entry) ≡ node_tree node.entry ∷ [] }
{
    match mode {
        Mode::Lax => items_in(node).is_some(),
        Mode::Strict => false,
    }
}
