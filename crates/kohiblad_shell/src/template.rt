//! Templates, and the values that they make of rows.

ghost use Rattle.std.specs.Prelude.{◌≡◌, [], IfOk, IfErr, OnOk, map, string_bytes};
ghost use Rattle.jsonb_value.specs.Tree.{extension, no_pairs};
ghost use Rattle.jsonb_value.specs.Value.{pairs_view, tree_of};
ghost use Rattle.jsonb_functions.specs.Joined.{with_key};
ghost use Rattle.kohiblad_shell.specs.Templates.{GivesAs, IsBuilt, all_after, built, lone};
ghost use Rattle.kohiblad_shell.specs.Templates.{member_views, members_after, one_of, path_values};
ghost use Rattle.kohiblad_shell.specs.Templates.{template_values};
ghost use Rattle.kohiblad_shell.specs.Words.{Fits, IsOutcome, MadeWithMemory, OutOfMemory, canon};
ghost use Rattle.kohiblad_shell.specs.Words.{document_tree, extension_of, node_tree, owned_bytes};

use crate::first::{asked, given_up};
use crate::input::Form;
use crate::operation::made_row;
use crate::outcome::Unanswered;
use jsonb::{Document, Encoder, Error, ExtensionValue, Node, OwnedJsonb};
use jsonb_path::{Path, PathError};
use jsonb_typed::opened;
use jsonb_value::{Object, Value};
use std::alloc::{AllocFailed, Global};
use std::borrow::CowStr;
use std::collections::BTreeMap;

/// What a new row is made of: a path, which a JSON scalar is too, or an array or object of
/// templates.
#[derive(Drop)]
pub enum Template {
    /// What a path gives.
    Path(Path),
    /// An array, whose items are all values of these templates.
    Array(Vec<Template>),
    /// An object with a member for each template; of several with one name the last one counts.
    Object(Vec<(String, Template)>),
}

impl<T: Drop> From<AllocFailed<T>> for Unanswered {
    ghost from_gives = { λ _ unanswered. unanswered ≡ OutOfMemory };

    fn from(_failed: AllocFailed<T>) -> Unanswered {
        Unanswered::OutOfMemory
    }
}

/// The row of the value that a template makes of a document. `GivenUp` if a path of it is given up,
/// with `SingletonRequired` too if several values come where one is wanted, `TooLarge` if the value
/// is too large for a document.
pub fn built_row(
    alloc: Global,
    form: Form,
    document: Document<'_>,
    template: &Template,
) -> Result<Vec<u8>, Unanswered>
    ensures { IsOutcome (IsBuilt form (built template.now (document_tree document.entry))) result }
{
    let value = built(alloc, document, template)?;
    let made = encoded(alloc, &value)?;
    Ok(made_row(alloc, form, made.as_bytes())?)
}

/// The value that a template makes of a document: null if it gives none.
#[cycle(template)]
pub fn built<'a>(
    alloc: Global,
    document: Document<'a>,
    template: &'a Template,
) -> Result<Value<'a>, Unanswered>
    ensures { GivesAs tree_of (built template.now (document_tree document.entry)) result }
{
    one_of(template_values(alloc, document, template)?)
}

/// The canonical document of a value.
pub fn encoded(alloc: Global, value: &Value<'_>) -> Result<OwnedJsonb, Error>
    ensures ok { IfOk result (λ owned. owned_bytes owned ≡ canon (tree_of value.now)) }
    ensures limits { MadeWithMemory (Fits (tree_of value.now)) result }
{
    let mut bytes = Vec::new(alloc);
    Encoder::new(&mut bytes).encode(value)?;
    Ok(OwnedJsonb::new(bytes))
}

// The values that a template gives of a document: those of a path, or the one array or object.
#[cycle(template)]
fn template_values<'a>(
    alloc: Global,
    document: Document<'a>,
    template: &'a Template,
) -> Result<Vec<Value<'a>>, Unanswered>
    ensures { GivesAs (λ values. map tree_of values.items)
        (template_values (document_tree document.entry) template.now) result }
{
    match template {
        Template::Path(path) => path_values(alloc, document, path),
        Template::Array(items) => lone(alloc, Value::Array(items_of(alloc, document, items)?)),
        Template::Object(members) => {
            lone(alloc, Value::Object(members_of(alloc, document, members)?))
        }
    }
}

// A list of one value.
fn lone<'a>(alloc: Global, value: Value<'a>) -> Result<Vec<Value<'a>>, Unanswered>
    ensures { GivesAs (λ values. map tree_of values.items) (lone (tree_of value.entry)) result }
{
    let mut values = Vec::new(alloc);
    values.push(value)?;
    Ok(values)
}

// All values of templates, in order.
#[cycle(template)]
fn items_of<'a>(
    alloc: Global,
    document: Document<'a>,
    items: &'a Vec<Template>,
) -> Result<Vec<Value<'a>>, Unanswered>
    ensures { GivesAs (λ values. map tree_of values.items) (all_after []
        (map (template_values (document_tree document.entry)) items.now.items)) result }
{
    let mut values = Vec::new(alloc);
    for item in items {
        let mut more = template_values(alloc, document, item)?;
        values.append(&mut more)?;
    }
    Ok(values)
}

// The members of templates, each with the one value of its own.
#[cycle(template)]
fn members_of<'a>(
    alloc: Global,
    document: Document<'a>,
    members: &'a Vec<(String, Template)>,
) -> Result<Object<'a>, Unanswered>
    ensures { GivesAs (λ made. pairs_view made.entries) (members_after no_pairs
        (member_views (template_values (document_tree document.entry)) members.now.items))
        result }
{
    let mut made = BTreeMap::new(alloc);
    for (name, member) in members {
        let value = built(alloc, document, member)?;
        let key = String::from_str(alloc, name)?;
        insert_member(&mut made, key, value)?;
    }
    Ok(made)
}

/// Puts a value among members, in place of that with its name, if there is one.
#[tactic(auto, using(crate::proofs::TemplateLaws::pairs_inserted))]
pub fn insert_member<'a>(
    members: &mut Object<'a>,
    key: String,
    value: Value<'a>,
) -> Result<(), Error>
    ensures ok { OnOk result (pairs_view members.new.entries
        ≡ with_key (string_bytes key) (tree_of value.entry) (pairs_view members.old.entries)) }
    ensures memory { IfErr result (λ e. e ≡ Error.OutOfMemory) }
{
    drop(members.insert(key, value)?);
    Ok(())
}

// The one of these values, or null if there is none.
fn one_of<'a>(values: Vec<Value<'a>>) -> Result<Value<'a>, Unanswered>
    ensures { GivesAs tree_of (one_of (map tree_of values.entry.items)) result }
{
    let mut left = values.into_iter();
    let Some(first) = left.next() else {
        return Ok(Value::Null);
    };
    match left.next() {
        None => Ok(first),
        Some(_) => Err(given_up(PathError::SingletonRequired)),
    }
}

// The values that a path gives of a document.
fn path_values<'a>(
    alloc: Global,
    document: Document<'a>,
    path: &'a Path,
) -> Result<Vec<Value<'a>>, Unanswered>
    ensures { GivesAs (λ values. map tree_of values.items)
        (path_values path.now (document_tree document.entry)) result }
{
    let outcome = asked(alloc, document, path)?;
    match outcome.error {
        Some(error) => Err(given_up(error)),
        None => Ok(values_of(alloc, &outcome.values)?),
    }
}

// These values in memory.
fn values_of<'a>(alloc: Global, nodes: &[Node<'a>]) -> Result<Vec<Value<'a>>, Error>
    ensures ok { IfOk result (λ values. map tree_of values.items ≡ map node_tree nodes.now) }
    ensures memory { IfErr result (λ e. e ≡ Error.OutOfMemory) }
{
    let mut values = Vec::with_capacity(alloc, nodes.len())?;
    for node in nodes {
        values.push(value_of(alloc, *node)?)?;
    }
    Ok(values)
}

/// A value in memory.
pub fn value_of<'a>(alloc: Global, node: Node<'a>) -> Result<Value<'a>, Error>
    ensures ok { IfOk result (λ value. tree_of value ≡ node_tree node.entry) }
    ensures memory { IfErr result (λ e. e ≡ Error.OutOfMemory) }
{
    match opened(node) {
        Node::Null => Ok(Value::Null),
        Node::Boolean(value) => Ok(Value::Bool(value)),
        Node::Number(number) => Ok(Value::Number(number.as_number())),
        Node::String(text) => Ok(Value::String(CowStr::Borrowed(text))),
        Node::Extension(item) => Ok(value_of_extension(item.as_extension_value())),
        Node::Container(document) => document.to_value(alloc),
    }
}

// An extension value in memory.
fn value_of_extension<'a>(given: ExtensionValue<'a>) -> Value<'a>
    ensures { tree_of result ≡ extension (extension_of given.entry) }
{
    match given {
        ExtensionValue::Binary(bytes) => Value::Binary(bytes),
        ExtensionValue::Date(date) => Value::Date(date),
        ExtensionValue::Timestamp(timestamp) => Value::Timestamp(timestamp),
        ExtensionValue::TimestampTz(zoned) => Value::TimestampTz(zoned),
        ExtensionValue::Interval(interval) => Value::Interval(interval),
        ExtensionValue::Opaque(opaque) => Value::Opaque(opaque),
    }
}
