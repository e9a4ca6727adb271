//! Which members are kept in a column.

ghost use Rattle.std.specs.Prelude.{◌≡◌, IsTrue, Some, option_map};
ghost use Rattle.jsonb_typed_file.specs.Words.{HoldsNoScalar, document_tree, node_tree};
ghost use Rattle.jsonb_typed_file.specs.Words.{stored_view, value_of_key};
ghost use Rattle.jsonb_typed_file.specs.Written.{IsCell, stored_scalar};

use crate::column::StoredValue;
use jsonb::{Document, Node};
use jsonb_typed::{Fit, ScalarType, is_scalar, opened};

// The value of a row in a column: the member with its name, if that is a value of the type.
pub(crate) fn cell_of<'a>(
    row: Document<'a>,
    name: &str,
    column_type: ScalarType,
) -> Option<StoredValue<'a>>
    ensures { IsCell column_type (value_of_key name.now (document_tree row.entry))
        (option_map stored_view result) }
{
    match row.get(name) {
        Some(member) => value_in(opened(member), column_type),
        None => None,
    }
}

// A member, if it is a value of the type.
fn value_in(member: Node<'_>, column_type: ScalarType) -> Option<StoredValue<'_>>
    requires { HoldsNoScalar member }
    ensures { IsCell column_type (Some (node_tree member.entry)) (option_map stored_view result) }
{
    if is_scalar(member, column_type, Fit::Exact) {
        scalar_of(member)
    } else {
        None
    }
}

// A truth value, a number, a text or an extension value.
fn scalar_of(member: Node<'_>) -> Option<StoredValue<'_>>
    requires { HoldsNoScalar member }
    ensures { option_map stored_view result ≡ stored_scalar (node_tree member.entry) }
{
    match member {
        Node::Boolean(truth) => Some(StoredValue::Boolean(truth)),
        Node::Number(item) => Some(StoredValue::Number(item.as_number())),
        Node::String(text) => Some(StoredValue::Text(text)),
        Node::Extension(item) => Some(StoredValue::Extension(item.as_extension_value())),
        _ => None,
    }
}

// Whether two cells have the same value, numbers with their kinds and digits.
pub(crate) fn is_same_cell(left: Option<StoredValue<'_>>, right: Option<StoredValue<'_>>) -> bool
    ensures { IsTrue result
        → option_map stored_view left.entry ≡ option_map stored_view right.entry }
{
    match (left, right) {
        (Some(left), Some(right)) => is_same(left, right),
        (None, None) => true,
        _ => false,
    }
}

// Whether two values are the same.
fn is_same(left: StoredValue<'_>, right: StoredValue<'_>) -> bool
    ensures { IsTrue result → stored_view left.entry ≡ stored_view right.entry }
{
    match (left, right) {
        (StoredValue::Boolean(left), StoredValue::Boolean(right)) => left == right,
        (StoredValue::Number(left), StoredValue::Number(right)) => left == right,
        (StoredValue::Text(left), StoredValue::Text(right)) => left == right,
        (StoredValue::Extension(left), StoredValue::Extension(right)) => left == right,
        _ => false,
    }
}
