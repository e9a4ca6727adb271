//! The value at the key that a path names alone, found as its line is checked.

ghost use Rattle.std.specs.Prelude.{◌≡◌, IfOk, option_map};
ghost use Rattle.std.specs.Option.{ForSome};
ghost use Rattle.jsonb_value.specs.Value.{tree_of};
ghost use Rattle.kohiblad_shell.specs.Members.{IsMemberLine, lone_key};
ghost use Rattle.kohiblad_shell.specs.Words.{node_tree, value_line};

use crate::input::Reading;
use crate::operation::{Style, value_line};
use crate::row::MAX_ROW_DEPTH;
use jsonb::{Error, Node, NumberItem};
use jsonb_path::{Accessor, Mode, Part, Path, Source};
use jsonb_value::Value;
use simdutf8::compat;
use std::alloc::{AllocError, Global};
use text_lookup::{TextMember, member_of_text};

/// The line of the value at the key that a path names alone, of the object that a line is: no bytes
/// if there is none. `None` if that takes the document of the line, which may be wrong.
pub fn member_line(
    alloc: Global,
    line: &[u8],
    reading: Reading,
    path: &Path,
    style: Style,
) -> Result<Option<Vec<u8>>, AllocError>
    ensures { IfOk result (λ found. ForSome found
        (λ lines. IsMemberLine reading path.now style line.now lines.items)) }
{
    let Some(key) = lone_key(path) else {
        return Ok(None);
    };
    let Ok(text) = compat::from_utf8(line) else {
        return Ok(None);
    };
    match member_of_text(alloc, text, key, reading.exponents, MAX_ROW_DEPTH) {
        Ok(TextMember::Scalar(value)) => scalar_line(alloc, &value, style),
        Ok(TextMember::Missing) => Ok(Some(Vec::new(alloc))),
        Err(Error::OutOfMemory) => Err(AllocError),
        Ok(TextMember::Unread) | Err(_) => Ok(None),
    }
}

// The key of a path that asks, of the whole row, for the value at this key alone.
fn lone_key(path: &Path) -> Option<&str>
    ensures { option_map (λ key. key.now) result ≡ lone_key path.now }
{
    let (Mode::Lax, [Part::Chain(Source::Root, accessors)]) = (path.mode(), path.parts()) else {
        return None;
    };
    match accessors.as_slice() {
        [Accessor::Member(key)] => Some(key.as_str()),
        _ => None,
    }
}

// The line of a scalar of JSON; `None` of every other value.
fn scalar_line(
    alloc: Global,
    value: &Value<'_>,
    style: Style,
) -> Result<Option<Vec<u8>>, AllocError>
    ensures { IfOk result (λ found. ForSome found
        (λ line. line.items ≡ value_line style (tree_of value.now))) }
{
    let Some(node) = node_of(value) else {
        return Ok(None);
    };
    match value_line(alloc, node, style) {
        Ok(line) => Ok(Some(line)),
        Err(_) => Err(AllocError),
    }
}

// A scalar of JSON as a value of a document; `None` of every other value.
fn node_of<'a>(value: &'a Value<'_>) -> Option<Node<'a>>
    ensures { ForSome result (λ node. node_tree node ≡ tree_of value.now) }
{
    match value {
        Value::Null => Some(Node::Null),
        Value::Bool(truth) => Some(Node::Boolean(*truth)),
        Value::Number(number) => Some(Node::Number(NumberItem::from_number(*number))),
        Value::String(text) => Some(Node::String(text.as_str())),
        _ => None,
    }
}
