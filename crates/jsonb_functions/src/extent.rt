//! How much there is in a value that a walk over it may read at once.

ghost use Rattle.std.specs.Prelude.{◌≡◌};
ghost use Rattle.jsonb_functions.specs.SelectSteps.{extent};
ghost use Rattle.jsonb_functions.specs.Words.{HoldsNoScalar, IsContainer, document_tree};
ghost use Rattle.jsonb_functions.specs.Words.{node_tree};

use crate::scalars::data_of;
use jsonb::{Contents, Document, Node};

/// The number of an array's items, of an object's members, or of the bytes of a text or of binary
/// or opaque data; 0 of every other value.
pub fn extent_of(node: Node<'_>) -> usize
    ensures { result ≡ extent (node_tree node.entry) }
{
    match node {
        Node::String(text) => text.len(),
        Node::Extension(item) => data_of(item).len(),
        Node::Container(document) => extent_of_document(document),
        _ => 0,
    }
}

// The same of a document's value.
fn extent_of_document(document: Document<'_>) -> usize
    ensures { result ≡ extent (document_tree document.entry) }
{
    match document.contents() {
        Some(Contents::Array(items)) => items.len(),
        Some(Contents::Object(members)) => members.len(),
        None => extent_of_scalar(document.value()),
    }
}

// The same of a scalar.
fn extent_of_scalar(scalar: Node<'_>) -> usize
    ensures { HoldsNoScalar scalar.entry → (IsContainer (node_tree scalar.entry) → ⊥)
        → result ≡ extent (node_tree scalar.entry) }
{
    match scalar {
        Node::String(text) => text.len(),
        Node::Extension(item) => data_of(item).len(),
        _ => 0,
    }
}
