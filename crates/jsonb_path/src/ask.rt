//! Members and items of a value.

ghost use Rattle.std.specs.Prelude.{◌≡◌, IfOk, map, option_map};
ghost use Rattle.std.specs.Iterator.{YieldsFirstBy};
ghost use Rattle.jsonb.specs.EntryTrees.{rest_pairs};
ghost use Rattle.jsonb.specs.Node.{member_tree, node_tree, value_of_key};
ghost use Rattle.jsonb.specs.Node as nodes;
ghost use Rattle.jsonb_path.specs.Found.{Finds, left_of, name_tree, place_of, value_tree};
ghost use Rattle.jsonb_path.specs.Meaning.{gives, member_of, members_of, of_each, of_items};

use crate::outcome::{WalkError, append};
use crate::path::PathError;
use crate::place::{Place, Units};
use jsonb::{Members, Node};
use std::alloc::{AllocError, Global};

// Appends the value of the member of this name: in lax of each item of an array.
#[tactic(auto, using(crate::proofs::FoundLaws::walks))]
pub(crate) fn append_named<'a>(
    place: &Place<'a>,
    name: &str,
    node: Node<'a>,
    found: &mut Vec<Node<'a>>,
) -> Result<(), WalkError>
    ensures { Finds found.old.items found.new.items result (of_each (place_of place.now)
        (member_of (place_of place.now) name.now) (node_tree node.entry)) }
{
    let mut units = Units::unwrapped(place.mode, node);
    while let Some(unit) = units.next_unit() {
        append_member(place, name, unit, found)?;
    }
    Ok(())
}

// Appends the values of all members: in lax of each item of an array.
#[tactic(auto, using(crate::proofs::FoundLaws::walks))]
pub(crate) fn append_all_members<'a>(
    place: &Place<'a>,
    node: Node<'a>,
    found: &mut Vec<Node<'a>>,
) -> Result<(), WalkError>
    ensures { Finds found.old.items found.new.items result (of_each (place_of place.now)
        (members_of (place_of place.now)) (node_tree node.entry)) }
{
    let mut units = Units::unwrapped(place.mode, node);
    while let Some(unit) = units.next_unit() {
        append_members(place, unit, found)?;
    }
    Ok(())
}

// Appends the items of an array; in lax any other value is the one item of an array.
pub(crate) fn append_items<'a>(
    place: &Place<'a>,
    node: Node<'a>,
    found: &mut Vec<Node<'a>>,
) -> Result<(), WalkError>
    ensures { Finds found.old.items found.new.items result
        (of_items (place_of place.now) gives (node_tree node.entry)) }
{
    match Units::items_of(place.mode, node) {
        Some(units) => append_units(units, found),
        None => place.unless_forgiven(PathError::ArrayNotFound),
    }
}

// Appends values that are still to be asked.
#[tactic(auto, using(crate::proofs::FoundLaws::walks))]
pub(crate) fn append_units<'a>(units: Units<'a>, found: &mut Vec<Node<'a>>) -> Result<(), WalkError>
    ensures { Finds found.old.items found.new.items result (gives (left_of units.entry)) }
{
    let mut left = units;
    while let Some(unit) = left.next_unit() {
        append(unit, found)?;
    }
    Ok(())
}

// Values that are still to be asked, as a list.
#[tactic(auto, using(crate::proofs::FoundLaws::listed_are))]
pub(crate) fn listed<'a>(alloc: Global, units: Units<'a>) -> Result<Vec<Node<'a>>, AllocError>
    ensures { IfOk result (λ items. map node_tree items.items ≡ left_of units.entry) }
{
    let mut items = Vec::new(alloc);
    match append_units(units, &mut items) {
        Ok(()) => Ok(items),
        Err(_) => Err(AllocError),
    }
}

// Appends the value of the member of this name.
#[tactic(auto, using(crate::proofs::FoundLaws::named_values))]
fn append_member<'a>(
    place: &Place<'a>,
    name: &str,
    node: Node<'a>,
    found: &mut Vec<Node<'a>>,
) -> Result<(), WalkError>
    ensures { Finds found.old.items found.new.items result
        (member_of (place_of place.now) name.now (node_tree node.entry)) }
{
    match value_named(name, node) {
        Some(value) => append(value, found),
        None => place.unless_forgiven(PathError::MemberNotFound),
    }
}

// The value of the member of this name. `None` if there is none, or the value is no object.
pub(crate) fn value_named<'a>(name: &str, node: Node<'a>) -> Option<Node<'a>>
    ensures { option_map node_tree result ≡ value_of_key name.now (node_tree node.entry) }
{
    match node {
        Node::Container(document) => document.get(name),
        _ => None,
    }
}

// Appends the values of all members.
#[tactic(auto, using(crate::proofs::FoundLaws::all_pairs))]
fn append_members<'a>(
    place: &Place<'a>,
    node: Node<'a>,
    found: &mut Vec<Node<'a>>,
) -> Result<(), WalkError>
    ensures { Finds found.old.items found.new.items result
        (members_of (place_of place.now) (node_tree node.entry)) }
{
    match members_in(node) {
        Some(members) => append_values(members, found),
        None => place.unless_forgiven(PathError::ObjectNotFound),
    }
}

// The members of an object. `None` of any other value.
pub(crate) fn members_in<'a>(node: Node<'a>) -> Option<Members<'a>>
    ensures { option_map rest_pairs result ≡ nodes.members_of (node_tree node.entry) }
{
    match node {
        Node::Container(document) => document.members(),
        _ => None,
    }
}

// The next member.
fn next_member<'a>(members: &mut Members<'a>) -> Option<(&'a str, Node<'a>)>
    ensures { YieldsFirstBy member_tree rest_pairs members.old result members.new }
{
    members.next()
}

// Appends the values of members.
#[tactic(auto, using(crate::proofs::FoundLaws::walks))]
pub(crate) fn append_values<'a>(
    members: Members<'a>,
    found: &mut Vec<Node<'a>>,
) -> Result<(), WalkError>
    ensures { Finds found.old.items found.new.items result
        (gives (map value_tree (rest_pairs members.entry))) }
{
    let mut left = members;
    while let Some((_, value)) = next_member(&mut left) {
        append(value, found)?;
    }
    Ok(())
}

// Appends the names of members.
#[tactic(auto, using(crate::proofs::FoundLaws::walks))]
pub(crate) fn append_names<'a>(
    members: Members<'a>,
    found: &mut Vec<Node<'a>>,
) -> Result<(), WalkError>
    ensures { Finds found.old.items found.new.items result
        (gives (map name_tree (rest_pairs members.entry))) }
{
    let mut left = members;
    while let Some((name, _)) = next_member(&mut left) {
        append(Node::String(name), found)?;
    }
    Ok(())
}
