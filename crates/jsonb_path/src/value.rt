//! Values as scalars, and scalars as values.

ghost use Rattle.std.specs.Prelude.{◌≡◌, ◌-ℤ◌, pos};
ghost use Rattle.jsonb.specs.Node.{HoldsNoScalar, node_tree};
ghost use Rattle.jsonb_value.specs.ExtCode.{extension_of};
ghost use Rattle.jsonb_value.specs.Tree as trees;
ghost use Rattle.jsonb_path.specs.Found.{number_in};
ghost use Rattle.jsonb_path.specs.Meaning.{extension_name, index_number, truth_in, truth_value};
ghost use Rattle.jsonb_path.specs.Meaning.{type_name};
ghost use Rattle.jsonb_path.specs.PathTree.{literal_tree};

use crate::compare::Truth;
use crate::path::Literal;
use jsonb::{ExtensionValue, JsonbItemType, Node, NumberItem};
use jsonb_value::Number;

// The same value, whose container is known to hold an array or object and not a scalar.
fn opened<'a>(node: Node<'a>) -> Node<'a>
    ensures tree { node_tree result ≡ node_tree node.entry }
    ensures container { HoldsNoScalar result }
{
    match node {
        Node::Container(document) => document.value(),
        scalar => scalar,
    }
}

// The number that a value is.
pub(crate) fn number_in(node: Node<'_>) -> Option<Number>
    ensures { result ≡ number_in (node_tree node.entry) }
{
    match node {
        Node::Container(document) => number_in_opened(document.value()),
        node => number_in_opened(node),
    }
}

fn number_in_opened(node: Node<'_>) -> Option<Number>
    requires { HoldsNoScalar node }
    ensures { result ≡ number_in (node_tree node.entry) }
{
    match node {
        Node::Number(item) => Some(item.as_number()),
        _ => None,
    }
}

// The truth that a value is: null is unknown.
pub(crate) fn truth_in(node: Node<'_>) -> Option<Truth>
    ensures { result ≡ truth_in (node_tree node.entry) }
{
    match opened(node) {
        Node::Boolean(value) => Some(Truth::of(value)),
        Node::Null => Some(Truth::Unknown),
        _ => None,
    }
}

// The name that `.type()` gives of a value.
pub(crate) fn type_name(node: Node<'_>) -> &'static str
    ensures { result.now ≡ type_name (node_tree node.entry) }
{
    match opened(node) {
        Node::Null => "null",
        Node::Boolean(_) => "boolean",
        Node::Number(_) => "number",
        Node::String(_) => "string",
        Node::Extension(item) => extension_name(&item.as_extension_value()),
        Node::Container(document) => match document.kind() {
            JsonbItemType::Array(_) => "array",
            _ => "object",
        },
    }
}

fn extension_name(value: &ExtensionValue<'_>) -> &'static str
    ensures { result.now ≡ extension_name (extension_of value.now) }
{
    match value {
        ExtensionValue::Binary(_) => "binary",
        ExtensionValue::Date(_) => "date",
        ExtensionValue::Timestamp(_) => "timestamp",
        ExtensionValue::TimestampTz(_) => "timestamp_tz",
        ExtensionValue::Interval(_) => "interval",
        ExtensionValue::Opaque(_) => "opaque",
    }
}

// A number as a value.
pub(crate) fn number_node<'a>(number: Number) -> Node<'a>
    ensures { node_tree result ≡ trees.number number }
{
    Node::Number(NumberItem::from_number(number))
}

// A truth as a value: null is unknown.
pub(crate) fn truth_node<'a>(truth: Truth) -> Node<'a>
    ensures { node_tree result ≡ truth_value truth }
{
    match truth {
        Truth::True => Node::Boolean(true),
        Truth::False => Node::Boolean(false),
        Truth::Unknown => Node::Null,
    }
}

// The last index of an array of so many items.
pub(crate) fn last_node<'a>(count: usize) -> Node<'a>
    ensures { node_tree result ≡ trees.number (index_number (pos count -ℤ pos 1)) }
{
    if count == 0 {
        number_node(Number::Int64(-1))
    } else {
        number_node(Number::UInt64((count - 1) as u64))
    }
}

// A literal as a value.
pub(crate) fn literal_node<'a>(literal: &'a Literal) -> Node<'a>
    ensures { node_tree result ≡ literal_tree literal.now }
{
    match literal {
        Literal::Null => Node::Null,
        Literal::Bool(value) => Node::Boolean(*value),
        Literal::Number(number) => number_node(*number),
        Literal::Text(text) => Node::String(text),
    }
}
