//! Methods of a value.

ghost use Rattle.std.specs.Prelude.{◌≡◌};
ghost use Rattle.jsonb.specs.Node.{node_tree};
ghost use Rattle.jsonb_path.specs.Found.{Finds, answered, place_of, rounded};
ghost use Rattle.jsonb_path.specs.Meaning.{calculated, called, keys_of, of_each, of_number};
ghost use Rattle.jsonb_path.specs.Meaning.{pairs_in, values_of};

use crate::ask::{append_names, append_values, members_in};
use crate::number::{NumberError, absolute, ceiling, floor};
use crate::outcome::{WalkError, append};
use crate::path::{Method, PathError};
use crate::place::{Place, Units};
use crate::value::{number_in, number_node, type_name};
use jsonb::Node;
use jsonb_value::Number;

// Appends what a method gives of a value.
pub(crate) fn append_called<'a>(
    place: &Place<'a>,
    method: Method,
    node: Node<'a>,
    found: &mut Vec<Node<'a>>,
) -> Result<(), WalkError>
    ensures { Finds found.old.items found.new.items result
        (called (place_of place.now) method (node_tree node.entry)) }
{
    match method {
        Method::Type => append(Node::String(type_name(node)), found),
        Method::Size => append_size(place, node, found),
        Method::Abs
        | Method::Floor
        | Method::Ceiling
        | Method::MemberNames
        | Method::MemberValues => append_answers(place, method, node, found),
    }
}

// Appends how many items an array has; in lax any other value is the one item of an array.
fn append_size<'a>(
    place: &Place<'a>,
    node: Node<'a>,
    found: &mut Vec<Node<'a>>,
) -> Result<(), WalkError>
    ensures { Finds found.old.items found.new.items result
        (called (place_of place.now) Method.Size (node_tree node.entry)) }
{
    match Units::items_of(place.mode, node) {
        Some(units) => append(number_node(Number::UInt64(units.len() as u64)), found),
        None => place.unless_forgiven(PathError::ArrayNotFound),
    }
}

// Appends what a method gives of a value: in lax of each item of an array.
#[tactic(auto, using(crate::proofs::FoundLaws::walks))]
fn append_answers<'a>(
    place: &Place<'a>,
    method: Method,
    node: Node<'a>,
    found: &mut Vec<Node<'a>>,
) -> Result<(), WalkError>
    ensures { Finds found.old.items found.new.items result
        (of_each (place_of place.now) (answered method) (node_tree node.entry)) }
{
    let mut units = Units::unwrapped(place.mode, node);
    while let Some(unit) = units.next_unit() {
        append_answer(method, unit, found)?;
    }
    Ok(())
}

fn append_answer<'a>(
    method: Method,
    node: Node<'a>,
    found: &mut Vec<Node<'a>>,
) -> Result<(), WalkError>
    ensures { Finds found.old.items found.new.items result
        (answered method (node_tree node.entry)) }
{
    match method {
        Method::MemberNames => append_own_names(node, found),
        Method::MemberValues => append_own_values(node, found),
        Method::Type | Method::Size | Method::Abs | Method::Floor | Method::Ceiling => {
            append_rounded(method, node, found)
        }
    }
}

// Appends the names of all members.
#[tactic(auto, using(crate::proofs::FoundLaws::own_pairs))]
fn append_own_names<'a>(node: Node<'a>, found: &mut Vec<Node<'a>>) -> Result<(), WalkError>
    ensures { Finds found.old.items found.new.items result
        (pairs_in keys_of (node_tree node.entry)) }
{
    match members_in(node) {
        Some(members) => append_names(members, found),
        None => Err(WalkError::Failed(PathError::ObjectNotFound)),
    }
}

// Appends the values of all members.
#[tactic(auto, using(crate::proofs::FoundLaws::own_pairs))]
fn append_own_values<'a>(node: Node<'a>, found: &mut Vec<Node<'a>>) -> Result<(), WalkError>
    ensures { Finds found.old.items found.new.items result
        (pairs_in values_of (node_tree node.entry)) }
{
    match members_in(node) {
        Some(members) => append_values(members, found),
        None => Err(WalkError::Failed(PathError::ObjectNotFound)),
    }
}

// Appends what a method gives of a number.
#[tactic(auto, using(crate::proofs::FoundLaws::lone_numbers))]
fn append_rounded<'a>(
    method: Method,
    node: Node<'a>,
    found: &mut Vec<Node<'a>>,
) -> Result<(), WalkError>
    ensures { Finds found.old.items found.new.items result
        (of_number PathError.NonNumericItem (λ x. calculated (rounded method x))
        (node_tree node.entry)) }
{
    match number_in(node) {
        Some(number) => append_calculated(rounded(method, &number), found),
        None => Err(WalkError::Failed(PathError::NonNumericItem)),
    }
}

fn rounded(method: Method, number: &Number) -> Result<Number, NumberError>
    ensures { result ≡ rounded method number.now }
{
    match method {
        Method::Floor => Ok(floor(number)),
        Method::Ceiling => Ok(ceiling(number)),
        _ => absolute(number),
    }
}

// Appends a number that was computed, or fails with its error.
pub(crate) fn append_calculated<'a>(
    computed: Result<Number, NumberError>,
    found: &mut Vec<Node<'a>>,
) -> Result<(), WalkError>
    ensures { Finds found.old.items found.new.items result (calculated computed) }
{
    match computed {
        Ok(number) => append(number_node(number), found),
        Err(NumberError::DivisionByZero) => Err(WalkError::Failed(PathError::DivisionByZero)),
        Err(NumberError::OutOfRange) => Err(WalkError::Failed(PathError::OutOfRange)),
    }
}
