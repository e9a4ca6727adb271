//! Values in memory, from documents and back.

ghost use Rattle.std.specs.Prelude.{◌≡◌, IfOk, IfErr};
ghost use Rattle.jsonb_value.specs.ExtCode.{extension_of};
ghost use Rattle.jsonb_value.specs.Tree.{extension};
ghost use Rattle.jsonb_value.specs.Value.{tree_of};
ghost use Rattle.jsonb_codec.specs.Canon.{Fits, canon};
ghost use Rattle.jsonb_codec.specs.Doc.{IsDocument};
ghost use Rattle.jsonb.specs.Node.{node_tree};
ghost use Rattle.jsonb.specs.Owned.{owned_bytes};
ghost use Rattle.jsonb_functions.specs.MadeWithMemory.{MadeWithMemory};

use jsonb::{Encoder, Error, ExtensionValue, Node, OwnedJsonb, Value};
use std::alloc::Global;
use std::borrow::CowStr;

/// The canonical document of a value. `InvalidJsonb` if it does not fit the format; `OutOfMemory`
/// if an allocation fails.
pub fn encoded(alloc: Global, value: &Value<'_>) -> Result<OwnedJsonb, Error>
    ensures ok { IfOk result (λ owned. owned_bytes owned ≡ canon (tree_of value.now)) }
    ensures document { IfOk result (λ owned. IsDocument (owned_bytes owned)) }
    ensures limits { MadeWithMemory (Fits (tree_of value.now)) result }
{
    let mut bytes = Vec::new(alloc);
    Encoder::new(&mut bytes).encode(value)?;
    Ok(OwnedJsonb::new(bytes))
}

/// A value of a document in memory. `OutOfMemory` is the only error.
pub fn value_of<'a>(alloc: Global, node: Node<'a>) -> Result<Value<'a>, Error>
    ensures ok { IfOk result (λ value. tree_of value ≡ node_tree node.entry) }
    ensures memory { IfErr result (λ e. e ≡ Error.OutOfMemory) }
{
    match node {
        Node::Null => Ok(Value::Null),
        Node::Boolean(value) => Ok(Value::Bool(value)),
        Node::Number(number) => Ok(Value::Number(number.as_number())),
        Node::String(text) => Ok(Value::String(CowStr::Borrowed(text))),
        Node::Extension(item) => Ok(value_of_extension(item.as_extension_value())),
        Node::Container(document) => document.to_value(alloc),
    }
}

// An extension value in memory.
fn value_of_extension<'a>(given: ExtensionValue<'a>) -> Value<'a>
    ensures { tree_of result ≡ extension (extension_of given.entry) }
{
    match given {
        ExtensionValue::Binary(bytes) => Value::Binary(bytes),
        ExtensionValue::Date(date) => Value::Date(date),
        ExtensionValue::Timestamp(timestamp) => Value::Timestamp(timestamp),
        ExtensionValue::TimestampTz(zoned) => Value::TimestampTz(zoned),
        ExtensionValue::Interval(interval) => Value::Interval(interval),
        ExtensionValue::Opaque(opaque) => Value::Opaque(opaque),
    }
}
