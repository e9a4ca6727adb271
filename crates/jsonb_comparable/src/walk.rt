//! The walk over a document that writes or measures its key.

ghost use Rattle.std.specs.Prelude.{IfSome};
ghost use Rattle.jsonb_comparable.specs.Words.{YieldsFirstBy, trees_of, document_tree, rest_trees};
ghost use Rattle.jsonb_comparable.specs.Words.{rest_pairs, node_tree, member_tree, pairs_of};
ghost use Rattle.jsonb_comparable.specs.Words.{HoldsNoScalar, IsContainer, key_meaning};
ghost use Rattle.jsonb_comparable.specs.Words.{tree_key, trees_key, pairs_key, meaning_key};

use crate::escape::{append_escaped, append_marked};
use crate::extension::append_extension;
use crate::number::append_number;
use crate::sink::Sink;
use jsonb::{Document, Items, Members, Node, SortKey};

// The first bytes of keys, which rise with the kind. Those of extension values are below them, and
// those of numbers between `TRUE` and `TEXT`.
const FALSE: u8 = 32;

const TRUE: u8 = 33;

const TEXT: u8 = 160;

const OBJECT: u8 = 176;

const ARRAY: u8 = 192;

const NULL: u8 = 208;

const OTHER_BYTES: u8 = 255;

// The end bytes, which are below all that can be in their place.
const ARRAY_END: u8 = 0;

const OBJECT_END: u8 = 0;

/// Appends the comparable key of a document or of any bytes to any `Sink`.
#[tactic(auto, unfolding(crate::specs::TreeKey::meaning_key))]
pub fn append_key_to<S: Sink>(key: SortKey<'_>, sink: &mut S)
    requires { S.room sink.old (meaning_key (key_meaning key)) }
    ensures { S.appends sink.old sink.new (meaning_key (key_meaning key.entry)) }
{
    match key {
        SortKey::Document(document) => append_node(document.value(), sink),
        SortKey::Other(bytes) => append_marked(OTHER_BYTES, bytes, sink),
    }
}

// The next item.
#[inline(always)]
fn next_item<'a>(items: &mut Items<'a>) -> Option<Node<'a>>
    ensures steps { YieldsFirstBy node_tree rest_trees items.old result items.new }
    ensures container { IfSome result HoldsNoScalar }
{
    items.next()
}

// The next member.
#[inline(always)]
fn next_member<'a>(members: &mut Members<'a>) -> Option<(&'a str, Node<'a>)>
    ensures steps { YieldsFirstBy member_tree rest_pairs members.old result members.new }
    ensures container { IfSome result (λ member. HoldsNoScalar member.1) }
{
    members.next()
}

/// Appends the comparable key of a value inside a document.
#[cycle(keys)]
pub fn append_node<S: Sink>(node: Node<'_>, sink: &mut S)
    requires value { HoldsNoScalar node }
    requires room { S.room sink.old (tree_key (node_tree node)) }
    ensures { S.appends sink.old sink.new (tree_key (node_tree node.entry)) }
{
    match node {
        Node::Null => sink.append(&[NULL]),
        Node::Boolean(true) => sink.append(&[TRUE]),
        Node::Boolean(false) => sink.append(&[FALSE]),
        Node::Number(number) => append_number(number.as_number(), sink),
        Node::String(text) => append_marked(TEXT, text.as_bytes(), sink),
        Node::Extension(value) => append_extension(value.as_extension_value(), sink),
        Node::Container(document) => append_container(document, sink),
    }
}

// An array or object.
#[cycle(keys)]
fn append_container<S: Sink>(document: Document<'_>, sink: &mut S)
    requires container { IsContainer (document_tree document) }
    requires room { S.room sink.old (tree_key (document_tree document)) }
    ensures { S.appends sink.old sink.new (tree_key (document_tree document.entry)) }
{
    if let Some(items) = document.items() {
        sink.append(&[ARRAY]);
        return append_items(items, sink);
    }
    match document.members() {
        Some(members) => {
            sink.append(&[OBJECT]);
            append_members(members, sink);
        }
        None => unreachable!(),
    }
}

// The items of an array, and the end byte.
#[cycle(keys)]
fn append_items<S: Sink>(mut items: Items<'_>, sink: &mut S)
    requires { S.room sink.old (trees_key (trees_of (rest_trees items))) }
    ensures { S.appends sink.old sink.new (trees_key (trees_of (rest_trees items.entry))) }
{
    while let Some(item) = next_item(&mut items) {
        append_node(item, sink);
    }
    sink.append(&[ARRAY_END]);
}

// The members of an object, and the end byte.
#[cycle(keys)]
fn append_members<S: Sink>(mut members: Members<'_>, sink: &mut S)
    requires { S.room sink.old (pairs_key (pairs_of (rest_pairs members))) }
    ensures { S.appends sink.old sink.new (pairs_key (pairs_of (rest_pairs members.entry))) }
{
    while let Some((key, value)) = next_member(&mut members) {
        append_escaped(key.as_bytes(), sink);
        append_node(value, sink);
    }
    sink.append(&[OBJECT_END]);
}
