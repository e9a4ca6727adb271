//! The order of byte strings and of items by their meaning. No comparison allocates.

ghost use Rattle.std.specs.Prelude.{◌≡◌, ℕ, List, Some, Ok, IfSome, MatchOption};
ghost use Rattle.jsonb.specs.Code.{ItemMeans};
ghost use Rattle.jsonb.specs.Words.{IsTotalOrder, on, document, other_bytes, meaning_cmp, norm};
ghost use Rattle.jsonb.specs.Words.{Tree, tree_cmp, Doc, IsDocument, kind, rank_order, meaning_of};
ghost use Rattle.jsonb.specs.Words.{view_meaning, item_meaning, ItemView, item_view};
ghost use Rattle.jsonb.specs.Words.{node_tree, HoldsNoScalar, bytes_in, key_meaning};
ghost use Rattle.jsonb.specs.Words.{as_partial_cmp, eq_by_cmp, meaning_within};
ghost use Rattle.jsonb.specs.KeyOrder.{key_cmp, key_partial_cmp, key_eq};

mod document;
mod item;
mod node;
mod owned;
mod raw;
mod walk;

use crate::document::Document;
use crate::item::{JsonbItem, text_of};
use crate::item_type::JsonbItemType;
use crate::node::Node;
use crate::sort_key::SortKey;
use jsonb_codec::layer::document_text;
use std::cmp::Ordering;
use walk::cmp_nodes;

// Bytes of at most this length are compared by their meaning at once: checking takes few steps.
const QUICK_TO_CHECK: usize = 128;

/// The meaning of bytes and of items: a document means its tree, other bytes mean themselves, and
/// an item means the tree of its value or, if it holds bytes, their meaning.
pub fn meaning_laws()
    ensures document { (b : List ℕ) (t : Tree) → Doc b t → meaning_of b ≡ document t }
    ensures other { (b : List ℕ) → (IsDocument b → ⊥) → meaning_of b ≡ other_bytes b }
    ensures item { (x : ItemView) (t : Tree) → ItemMeans x t → view_meaning x ≡ document t }
{}

/// The order of byte strings by meaning is total. Two documents compare as their trees, so
/// documents and items that mean one tree are `Equal` whatever their bytes. If `rank_cmp` orders
/// the kinds of two documents, the documents have that order. A tree and its normal form, in which
/// signed zeros are made unsigned, compare alike.
pub fn byte_order_laws()
    ensures total { IsTotalOrder (on meaning_of meaning_cmp) }
    ensures trees { (l r : List ℕ) (t u : Tree) → Doc l t → Doc r u
        → meaning_cmp (meaning_of l) (meaning_of r) ≡ tree_cmp t u }
    ensures one_tree { (l r : List ℕ) (t : Tree) → Doc l t → Doc r t
        → meaning_cmp (meaning_of l) (meaning_of r) ≡ Ordering.Equal }
    ensures items { (x y : ItemView) (t : Tree) → ItemMeans x t → ItemMeans y t
        → meaning_cmp (view_meaning x) (view_meaning y) ≡ Ordering.Equal }
    ensures kinds { (l r : List ℕ) (k m : JsonbItemType) (o : Ordering) → IsDocument l
        → IsDocument r → kind l ≡ Ok k → kind r ≡ Ok m → rank_order k m ≡ Some o
        → meaning_cmp (meaning_of l) (meaning_of r) ≡ o }
    ensures norm_left { (l m r : List ℕ) (t : Tree) → Doc l t → Doc m (norm t)
        → meaning_cmp (meaning_of m) (meaning_of r) ≡ meaning_cmp (meaning_of l) (meaning_of r) }
    ensures norm_right { (l r m : List ℕ) (u : Tree) → Doc r u → Doc m (norm u)
        → meaning_cmp (meaning_of l) (meaning_of m) ≡ meaning_cmp (meaning_of l) (meaning_of r) }
{}

/// The order that `SortKey` derives is that of the meanings of its keys (`cmp`, `partial_cmp`), and
/// keys are equal if their meanings are `Equal` in it (`eq`).
pub fn key_order_laws()
    ensures cmp { (x y : SortKey) → key_cmp x y ≡ on key_meaning meaning_cmp x y }
    ensures partial_cmp { (x y : SortKey)
        → key_partial_cmp x y ≡ as_partial_cmp (on key_meaning meaning_cmp) x y }
    ensures eq { (x y : SortKey) → key_eq x y ≡ eq_by_cmp (on key_meaning meaning_cmp) x y }
{}

/// Compares two byte strings by their meaning.
pub fn cmp_bytes(left: &[u8], right: &[u8]) -> Ordering
    ensures { result ≡ meaning_cmp (meaning_of left.now) (meaning_of right.now) }
{
    // Bytes do not nest deeper than they are many.
    let depth = left.len().max(right.len());
    cmp_within(left, right, depth)
}

/// Compares two byte strings by their meaning to a caller that accepts only documents of at most
/// this depth: these compare by their values and are less than all other bytes, which compare as
/// bytes. So a document that nests deeper compares by its bytes. A scalar has depth 0, an empty
/// array or object 1, any other array or object one more than its deepest child.
pub fn cmp_within(left: &[u8], right: &[u8], depth: usize) -> Ordering
    ensures { result ≡ meaning_cmp (meaning_within depth left.now)
        (meaning_within depth right.now) }
{
    // Strings are compared most often, and two words suffice to recognize them.
    if let (Some(left), Some(right)) = (document_text(left), document_text(right)) {
        return left.cmp(right);
    }
    // Equal bytes mean the same, whatever they are, and a check of both sides costs more than this.
    if left.len() > QUICK_TO_CHECK && left == right {
        return Ordering::Equal;
    }
    SortKey::within(left, depth).cmp(&SortKey::within(right, depth))
}

/// Compares two items by their meaning.
pub fn cmp_meanings(left: &JsonbItem<'_>, right: &JsonbItem<'_>) -> Ordering
    ensures { result ≡ meaning_cmp (item_meaning left.now) (item_meaning right.now) }
{
    if let (Some(left), Some(right)) = (bytes_of(left), bytes_of(right)) {
        return cmp_bytes(left, right);
    }
    match (node_of(left), node_of(right)) {
        (Some(left), Some(right)) => cmp_nodes(left, right),
        (Some(_), None) => Ordering::Less,
        (None, _) => Ordering::Greater,
    }
}

// The bytes of an item that holds bytes.
#[tactic(auto, using(crate::proofs::ItemMeaningLaws::value_meaning))]
fn bytes_of<'i>(item: &'i JsonbItem<'_>) -> Option<&'i [u8]>
    ensures { MatchOption result ((t : Tree) × (item_meaning item.now ≡ document t))
        (λ bytes. item_meaning item.now ≡ meaning_of bytes.now) }
{
    match item {
        JsonbItem::Raw(raw) => Some(raw.as_bytes()),
        JsonbItem::Owned(owned) => Some(owned.as_bytes()),
        _ => None,
    }
}

// The value of an item: its own, or that of its bytes. `None` if these are not a document.
fn node_of<'i>(item: &'i JsonbItem<'_>) -> Option<Node<'i>>
    ensures means { MatchOption result
        (item_meaning item.now ≡ other_bytes (bytes_in (item_view item.now)))
        (λ node. item_meaning item.now ≡ document (node_tree node)) }
    ensures container { IfSome result HoldsNoScalar }
{
    match item {
        JsonbItem::Null => Some(Node::Null),
        JsonbItem::Boolean(value) => Some(Node::Boolean(*value)),
        JsonbItem::Number(number) => Some(Node::Number(*number)),
        JsonbItem::String(text) => Some(Node::String(text_of(text))),
        JsonbItem::Extension(extension) => Some(Node::Extension(*extension)),
        JsonbItem::Raw(raw) => node_in(raw.as_bytes()),
        JsonbItem::Owned(owned) => node_in(owned.as_bytes()),
    }
}

// The value of a document. `None` if the bytes are not a document.
fn node_in(bytes: &[u8]) -> Option<Node<'_>>
    ensures means { MatchOption result (meaning_of bytes.now ≡ other_bytes bytes.now)
        (λ node. meaning_of bytes.now ≡ document (node_tree node)) }
    ensures container { IfSome result HoldsNoScalar }
{
    match Document::new(bytes) {
        Some(document) => Some(document.node()),
        None => None,
    }
}
