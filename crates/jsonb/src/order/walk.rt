//! Comparing documents: one walk over both at the same time, value by value, directly on their
//! bytes.

ghost use Rattle.std.specs.Prelude.{◌≡◌, unwrap_or};
ghost use Rattle.jsonb.specs.Words.{tree_cmp, document_tree, kind_of_tree, rank_order, rest_trees};
ghost use Rattle.jsonb.specs.Words.{rest_pairs, node_tree, HoldsNoScalar, IsContainer, array_of};
ghost use Rattle.jsonb.specs.Words.{object_of, part_tree};

use crate::document::{Contents, Document};
use crate::node::Node;
use crate::nodes::{Items, Members};
use jsonb_codec::constants::{CONTAINER_TAG, NUMBER_TAG, STRING_TAG};
use jsonb_codec::parts::Part;
use std::cmp::Ordering;

// Up to this length the lengths of all keys are added up about as fast as two keys are compared.
const KEYS_SOON_ADDED: usize = 1024;

/// Compares two documents by their values.
pub fn cmp_documents(left: Document<'_>, right: Document<'_>) -> Ordering
    ensures { result ≡ tree_cmp (document_tree left.entry) (document_tree right.entry) }
{
    let (left_part, right_part) = (left.part(), right.part());
    // The most common kinds are recognized by their tags, before the parts are decoded.
    match (left_part.type_code, right_part.type_code) {
        (NUMBER_TAG, NUMBER_TAG) => left_part.number().cmp_value(&right_part.number()),
        (STRING_TAG, STRING_TAG) => left_part.text().cmp(right_part.text()),
        (CONTAINER_TAG, CONTAINER_TAG) => cmp_containers(left, right),
        _ => cmp_nodes(Node::of_part(left_part), Node::of_part(right_part)),
    }
}

/// Compares two values.
#[inline(always)]
#[cycle(documents)]
pub fn cmp_nodes(left: Node<'_>, right: Node<'_>) -> Ordering
    requires left { HoldsNoScalar left }
    requires right { HoldsNoScalar right }
    ensures { result ≡ tree_cmp (node_tree left.entry) (node_tree right.entry) }
{
    match (left, right) {
        (Node::Boolean(left), Node::Boolean(right)) => left.cmp(&right),
        (Node::Number(left), Node::Number(right)) => left.as_number().cmp_value(&right.as_number()),
        (Node::String(left), Node::String(right)) => left.cmp(right),
        (Node::Extension(left), Node::Extension(right)) => {
            left.as_extension_value()
                .cmp_value(&right.as_extension_value())
        }
        (Node::Container(left), Node::Container(right)) => cmp_containers(left, right),
        (left, right) => cmp_kinds(left, right),
    }
}

// Compares two parts. All but two arrays or objects are read in a function of its own, whose stack
// is released before the walk goes deeper.
#[inline(always)]
#[cycle(documents)]
fn cmp_parts(left: Part<'_>, right: Part<'_>) -> Ordering
    ensures { result ≡ tree_cmp (part_tree left.entry) (part_tree right.entry) }
{
    if left.type_code != CONTAINER_TAG || right.type_code != CONTAINER_TAG {
        return cmp_read_parts(left, right);
    }
    match (Node::of_part(left), Node::of_part(right)) {
        (Node::Container(left), Node::Container(right)) => cmp_containers(left, right),
        _ => cmp_read_parts(left, right),
    }
}

// Compares the values of two parts.
#[inline(never)]
#[cycle(documents)]
fn cmp_read_parts(left: Part<'_>, right: Part<'_>) -> Ordering
    ensures { result ≡ tree_cmp (part_tree left.entry) (part_tree right.entry) }
{
    cmp_nodes(Node::of_part(left), Node::of_part(right))
}

// Compares two values of different kinds, or null with null.
fn cmp_kinds(left: Node<'_>, right: Node<'_>) -> Ordering
    ensures { result ≡ unwrap_or (rank_order (kind_of_tree (node_tree left.entry))
        (kind_of_tree (node_tree right.entry))) Ordering.Equal }
{
    left.kind()
        .rank_cmp(&right.kind())
        .unwrap_or(Ordering::Equal)
}

// The order of two objects if their first keys decide it, which takes no step for each key; `Equal`
// if they do not.
#[inline(always)]
fn cmp_first_keys(left: Document<'_>, right: Document<'_>) -> Ordering
    ensures { (result ≡ Ordering.Equal → ⊥)
        → tree_cmp (document_tree left.entry) (document_tree right.entry) ≡ result }
{
    match (left.first_key(), right.first_key()) {
        (Some(Some(left)), Some(Some(right))) => left.cmp(right),
        (Some(Some(_)), Some(None)) => Ordering::Greater,
        (Some(None), Some(Some(_))) => Ordering::Less,
        _ => Ordering::Equal,
    }
}

// Compares two arrays or objects: an array is greater than an object.
#[cycle(documents)]
fn cmp_containers(left: Document<'_>, right: Document<'_>) -> Ordering
    requires left { IsContainer (document_tree left) }
    requires right { IsContainer (document_tree right) }
    ensures { result ≡ tree_cmp (document_tree left.entry) (document_tree right.entry) }
{
    if left.as_bytes().len().max(right.as_bytes().len()) > KEYS_SOON_ADDED {
        let first_keys = cmp_first_keys(left, right);
        if first_keys.is_ne() {
            return first_keys;
        }
    }
    match (left.container_contents(), right.container_contents()) {
        (Contents::Array(left), Contents::Array(right)) => cmp_items(left, right),
        (Contents::Array(_), Contents::Object(_)) => Ordering::Greater,
        (Contents::Object(_), Contents::Array(_)) => Ordering::Less,
        (Contents::Object(left), Contents::Object(right)) => cmp_members(left, right),
    }
}

// Compares the items of two arrays one by one; if all are equal, the shorter array is less.
#[inline(always)]
#[cycle(documents)]
fn cmp_items(mut left: Items<'_>, mut right: Items<'_>) -> Ordering
    ensures { result
        ≡ tree_cmp (array_of (rest_trees left.entry)) (array_of (rest_trees right.entry)) }
{
    while let Some(left_item) = left.next_part() {
        let Some(right_item) = right.next_part() else {
            return Ordering::Greater;
        };
        let order = cmp_parts(left_item, right_item);
        if order.is_ne() {
            return order;
        }
    }
    match right.next_part() {
        Some(_) => Ordering::Less,
        None => Ordering::Equal,
    }
}

// Compares the members of two objects one by one, the key before the value; if all are equal, the
// object with fewer members is less.
#[inline(always)]
#[cycle(documents)]
fn cmp_members(mut left: Members<'_>, mut right: Members<'_>) -> Ordering
    ensures { result
        ≡ tree_cmp (object_of (rest_pairs left.entry)) (object_of (rest_pairs right.entry)) }
{
    while let Some((left_key, left_value)) = left.next_parts() {
        let Some((right_key, right_value)) = right.next_parts() else {
            return Ordering::Greater;
        };
        let keys = left_key.cmp(right_key);
        if keys.is_ne() {
            return keys;
        }
        let values = cmp_parts(left_value, right_value);
        if values.is_ne() {
            return values;
        }
    }
    match right.next_parts() {
        Some(_) => Ordering::Less,
        None => Ordering::Equal,
    }
}
