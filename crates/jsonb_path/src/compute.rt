//! Operators and signs over what expressions give.

ghost use Rattle.std.specs.Prelude.{◌≡◌, IfOk, None, map};
ghost use Rattle.jsonb.specs.Node.{node_tree};
ghost use Rattle.jsonb_path.specs.Found.{Finds, lone_number, outcome_of};
ghost use Rattle.jsonb_path.specs.Meaning.{all_unwrapped, calculated, computed, each, gives};
ghost use Rattle.jsonb_path.specs.Meaning.{in_lax_unwrapped, of_number, signed_as, with_sign};

use crate::ask::append_units;
use crate::method::append_calculated;
use crate::number::NumberError;
use crate::outcome::{Outcome, WalkError};
use crate::path::{Mode, Operator, PathError, Sign};
use crate::place::Units;
use crate::value::{number_in, number_node};
use jsonb::Node;
use jsonb_value::Number;
use std::alloc::{AllocError, Global};

// The same, and in lax the items of arrays in their place.
#[tactic(auto, using(crate::proofs::FoundLaws::unwrapping))]
pub(crate) fn unwrapped<'a>(
    alloc: Global,
    mode: Mode,
    outcome: Outcome<'a>,
) -> Result<Outcome<'a>, AllocError>
    ensures { IfOk result (λ o. outcome_of o ≡ in_lax_unwrapped mode (outcome_of outcome.entry)) }
{
    match mode {
        Mode::Lax => {
            let mut values = Vec::new(alloc);
            let walked = append_unwrapped(&outcome.values, &mut values);
            Outcome::of_walk(values, walked, outcome.error)
        }
        Mode::Strict => Ok(outcome),
    }
}

// Appends values, and the items of arrays in their place.
#[tactic(auto, using(crate::proofs::FoundLaws::unwrapping))]
fn append_unwrapped<'a>(values: &[Node<'a>], found: &mut Vec<Node<'a>>) -> Result<(), WalkError>
    ensures { Finds found.old.items found.new.items result
        (gives (all_unwrapped Mode.Lax (map node_tree values.now))) }
{
    let mut left = values;
    while let [value, rest @ ..] = left {
        append_units(Units::unwrapped(Mode::Lax, *value), found)?;
        left = rest;
    }
    Ok(())
}

// An operator over what both sides give: an error of either is that of the whole.
#[tactic(auto, using(crate::proofs::FoundLaws::operations))]
pub(crate) fn compute<'a>(
    alloc: Global,
    mode: Mode,
    operator: Operator,
    left: Outcome<'a>,
    right: Outcome<'a>,
) -> Result<Outcome<'a>, AllocError>
    ensures { IfOk result (λ o. outcome_of o
        ≡ computed mode operator (outcome_of left.entry) (outcome_of right.entry)) }
{
    if let Some(error) = left.error {
        return Ok(Outcome::failed(alloc, error));
    }
    if let Some(error) = right.error {
        return Ok(Outcome::failed(alloc, error));
    }
    let left = unwrapped(alloc, mode, left)?;
    let right = unwrapped(alloc, mode, right)?;
    match (only_number(&left.values), only_number(&right.values)) {
        (Some(left), Some(right)) => calculated(alloc, operator.apply(&left, &right)),
        _ => Ok(Outcome::failed(alloc, PathError::SingletonRequired)),
    }
}

// The number of a list of this alone.
pub(crate) fn only_number(values: &[Node<'_>]) -> Option<Number>
    ensures { result ≡ lone_number (map node_tree values.now) }
{
    match values {
        [value] => number_in(*value),
        _ => None,
    }
}

// A number that was computed, or its error.
fn calculated<'a>(
    alloc: Global,
    computed: Result<Number, NumberError>,
) -> Result<Outcome<'a>, AllocError>
    ensures { IfOk result (λ o. outcome_of o ≡ calculated computed) }
{
    match computed {
        Ok(number) => Outcome::one(alloc, number_node(number)),
        Err(NumberError::DivisionByZero) => {
            Ok(Outcome::failed(alloc, PathError::DivisionByZero))
        }
        Err(NumberError::OutOfRange) => Ok(Outcome::failed(alloc, PathError::OutOfRange)),
    }
}

// A sign before each value, once all are there.
#[tactic(auto, using(crate::proofs::FoundLaws::operations))]
pub(crate) fn with_sign<'a>(
    alloc: Global,
    mode: Mode,
    sign: Sign,
    outcome: Outcome<'a>,
) -> Result<Outcome<'a>, AllocError>
    ensures { IfOk result (λ o. outcome_of o ≡ with_sign mode sign (outcome_of outcome.entry)) }
{
    if let Some(error) = outcome.error {
        return Ok(Outcome::failed(alloc, error));
    }
    let outcome = unwrapped(alloc, mode, outcome)?;
    let mut values = Vec::new(alloc);
    let walked = append_signed(sign, &outcome.values, &mut values);
    Outcome::of_walk(values, walked, None)
}

// Appends each number with a sign before it.
#[tactic(auto, using(crate::proofs::FoundLaws::slices))]
fn append_signed<'a>(
    sign: Sign,
    values: &[Node<'a>],
    found: &mut Vec<Node<'a>>,
) -> Result<(), WalkError>
    ensures { Finds found.old.items found.new.items result
        (each (of_number PathError.NumberNotFound (λ x. calculated (signed_as sign x)))
        (map node_tree values.now) None) }
{
    let mut left = values;
    while let [value, rest @ ..] = left {
        append_one_signed(sign, *value, found)?;
        left = rest;
    }
    Ok(())
}

#[tactic(auto, using(crate::proofs::FoundLaws::lone_numbers))]
fn append_one_signed<'a>(
    sign: Sign,
    value: Node<'a>,
    found: &mut Vec<Node<'a>>,
) -> Result<(), WalkError>
    ensures { Finds found.old.items found.new.items result
        (of_number PathError.NumberNotFound (λ x. calculated (signed_as sign x))
        (node_tree value.entry)) }
{
    match number_in(value) {
        Some(number) => append_calculated(sign.apply(&number), found),
        None => Err(WalkError::Failed(PathError::NumberNotFound)),
    }
}
