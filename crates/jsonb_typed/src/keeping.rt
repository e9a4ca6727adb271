//! Documents of the members that are no values.

ghost use Rattle.std.specs.Prelude.{◌≡◌, ◌↔◌, IfOk, IsTrue};
ghost use Rattle.jsonb_typed.specs.Words.{Doc, HasDocument, HoldsNoScalar, IsSignedZero};
ghost use Rattle.jsonb_typed.specs.Words.{MadeIfFit, node_tree, node_view, owned_bytes};

use jsonb::{Error, Node, Number, OwnedJsonb};
use std::alloc::Global;

/// The member as it is opened: a container holds an array or object, and no scalar.
pub fn opened(member: Node<'_>) -> Node<'_>
    ensures tree { node_tree result ≡ node_tree member.entry }
    ensures container { HoldsNoScalar result }
{
    match member {
        Node::Container(document) => document.value(),
        scalar => scalar,
    }
}

/// A document of the member. `InvalidJsonb`, before any allocation, exactly if its own document
/// does not mean it: a text or another payload exceeds 268,435,455 bytes, or it is a signed zero
/// that was made from a number. No member of a document is refused so. `OutOfMemory` if an
/// allocation fails.
pub fn document_of(alloc: Global, member: Node<'_>) -> Result<OwnedJsonb, Error>
    ensures means { IfOk result (λ owned. Doc (owned_bytes owned) (node_tree member.entry)) }
    ensures limits { MadeIfFit (HasDocument (node_view member.entry) (node_tree member.entry))
        result }
{
    if is_signed_zero(member) {
        return Err(Error::InvalidJsonb);
    }
    member.to_owned(alloc)
}

// Whether the member is a signed zero that was made from a number, which is stored as the unsigned
// one.
fn is_signed_zero(member: Node<'_>) -> bool
    ensures { IsTrue result ↔ IsSignedZero (node_view member.entry) }
{
    match member {
        Node::Number(item) => { item.as_bytes().is_none() && item.as_number() == Number::Int64(0) }
        _ => false,
    }
}
