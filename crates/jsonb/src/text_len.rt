//! Counting the texts of documents without writing them. An indent is counted in one step, so a
//! count takes time in proportion to the document, and not to its text.

ghost use Rattle.std.specs.Prelude.{◌≡◌, ◌++◌, ◌<◌, ◌^◌, ℕ};
ghost use Rattle.jsonb.specs.Words.{length_64, laid_out, layout_of, document_tree, node_tree};
ghost use Rattle.jsonb.specs.Words.{part_tree, rest_trees, rest_pairs, array_of, object_of, depth};
ghost use Rattle.jsonb.specs.Words.{line_start, pair_text, HasIndentRoom, IsContainer};
ghost use Rattle.jsonb.specs.Words.{HoldsNoScalar};

use crate::document::{Contents, Document};
use crate::node::Node;
use crate::nodes::{Items, Members};
use crate::text::Layout;
use jsonb_codec::parts::Part;
use jsonb_value::layer::{extension_len, number_len, string_len};

/// The length of a document's text in this layout, or `usize::MAX` if it is longer.
pub fn document_text_len(document: Document, layout: Layout) -> usize
    requires room { (n : ℕ) → n < 2 ^ 64 → HasIndentRoom (layout_of layout) n }
    ensures { result
        ≡ length_64 (laid_out (layout_of layout) (document_tree document.entry)) }
{
    node_len(document.node(), layout)
}

#[cycle(text_len)]
#[inline(always)]
fn node_len(node: Node<'_>, layout: Layout) -> usize
    requires container { HoldsNoScalar node }
    requires room { HasIndentRoom (layout_of layout) (depth (node_tree node)) }
    ensures { result ≡ length_64 (laid_out (layout_of layout) (node_tree node.entry)) }
{
    match node {
        Node::Null | Node::Boolean(true) => 4,
        Node::Boolean(false) => 5,
        Node::Number(number) => number_len(&number.as_number()),
        Node::String(text) => string_len(text),
        Node::Extension(value) => extension_len(&value.as_extension_value()).saturating_add(2),
        Node::Container(document) => container_len(document, layout),
    }
}

#[cycle(text_len)]
fn container_len(document: Document<'_>, layout: Layout) -> usize
    requires container { IsContainer (document_tree document) }
    requires room { HasIndentRoom (layout_of layout) (depth (document_tree document)) }
    ensures { result
        ≡ length_64 (laid_out (layout_of layout) (document_tree document.entry)) }
{
    match document.container_contents() {
        Contents::Array(items) => items_len(items, layout),
        Contents::Object(members) => members_len(members, layout),
    }
}

#[cycle(text_len)]
#[inline(always)]
fn items_len(mut items: Items<'_>, layout: Layout) -> usize
    requires room { HasIndentRoom (layout_of layout) (depth (array_of (rest_trees items))) }
    ensures { result
        ≡ length_64 (laid_out (layout_of layout) (array_of (rest_trees items.entry))) }
{
    let Some(first) = items.next_part() else {
        return 2;
    };
    let mut len = line_len(first, layout.inside()).saturating_add(1);
    'items: while let Some(next) = items.next_part() {
        len = len.saturating_add(line_len(next, layout.inside()).saturating_add(1));
    }
    len.saturating_add(layout.start_len().saturating_add(1))
}

// The length of an item of an array with what precedes it on its line.
#[cycle(text_len)]
#[inline(always)]
fn line_len(item: Part<'_>, layout: Layout) -> usize
    requires room { HasIndentRoom (layout_of layout) (depth (part_tree item)) }
    ensures { result ≡ length_64 (line_start (layout_of layout)
        ++ laid_out (layout_of layout) (part_tree item.entry)) }
{
    layout
        .start_len()
        .saturating_add(node_len(Node::of_part(item), layout))
}

#[cycle(text_len)]
#[inline(always)]
fn members_len(mut members: Members<'_>, layout: Layout) -> usize
    requires room { HasIndentRoom (layout_of layout) (depth (object_of (rest_pairs members))) }
    ensures { result
        ≡ length_64 (laid_out (layout_of layout) (object_of (rest_pairs members.entry))) }
{
    let Some((key, value)) = members.next_parts() else {
        return 2;
    };
    let mut len = member_len(key, value, layout.inside()).saturating_add(1);
    'members: while let Some((key, value)) = members.next_parts() {
        len = len.saturating_add(member_len(key, value, layout.inside()).saturating_add(1));
    }
    len.saturating_add(layout.start_len().saturating_add(1))
}

// The length of a pair of an object with what precedes it on its line.
#[cycle(text_len)]
#[inline(always)]
fn member_len(key: &str, value: Part<'_>, layout: Layout) -> usize
    requires room { HasIndentRoom (layout_of layout) (depth (part_tree value)) }
    ensures { result ≡ length_64 (line_start (layout_of layout)
        ++ pair_text (layout_of layout) key.now (part_tree value.entry)) }
{
    let before = layout.start_len().saturating_add(string_len(key));
    let value = layout
        .colon_len()
        .saturating_add(node_len(Node::of_part(value), layout));
    before.saturating_add(value)
}
