//! The items that subscripts name.

ghost use Rattle.std.specs.Prelude.{◌≡◌, ◌<◌, ◌≤◌, ◌^◌, ◌∷◌, [], List, drop, false, int_lt, map};
ghost use Rattle.std.specs.Prelude.{ℤ, pos};
ghost use Rattle.jsonb_value.specs.Tree.{Tree};
ghost use Rattle.jsonb.specs.Node.{node_tree};
ghost use Rattle.jsonb_path.specs.Found.{Finds, left_of, outcome_of};
ghost use Rattle.jsonb_path.specs.Meaning.{gives, in_bounds, index_in, items_between, taken};

use crate::compute::only_number;
use crate::number::index_of;
use crate::outcome::{Outcome, WalkError, append};
use crate::path::PathError;
use crate::place::Units;
use jsonb::Node;

// The index that an expression gives: one number, cut towards zero, of 32 bits.
#[tactic(auto, using(crate::proofs::FoundLaws::indexes))]
pub(crate) fn index_in(outcome: &Outcome<'_>) -> Result<i32, PathError>
    ensures { result ≡ index_in (outcome_of outcome.now) }
{
    match outcome.error {
        Some(error) => Err(error),
        None => match only_number(&outcome.values) {
            Some(number) => match index_of(&number) {
                Some(index) => Ok(index),
                None => Err(PathError::InvalidSubscript),
            },
            None => Err(PathError::InvalidSubscript),
        },
    }
}

// Appends the items from the first index to the last one. Where they are out of bounds, those that
// there are, or fails where nothing is forgiven.
pub(crate) fn append_between<'a>(
    forgives: bool,
    first: Result<i32, PathError>,
    last: Result<i32, PathError>,
    items: Units<'a>,
    found: &mut Vec<Node<'a>>,
) -> Result<(), WalkError>
    ensures { Finds found.old.items found.new.items result
        (items_between forgives first last (left_of items.entry)) }
{
    match (first, last) {
        (Err(error), _) => Err(WalkError::Failed(error)),
        (Ok(_), Err(error)) => Err(WalkError::Failed(error)),
        (Ok(first), Ok(last)) => {
            if forgives || in_bounds(first, last, items.len()) {
                append_taken(first, last, items, found)
            } else {
                Err(WalkError::Failed(PathError::InvalidSubscript))
            }
        }
    }
}

fn in_bounds(first: i32, last: i32, count: usize) -> bool
    ensures { result ≡ in_bounds first last count }
{
    0 <= first && first <= last && i128::from(last) < count as i128
}

// Appends the items from the first index to the last one, as far as they are there.
#[tactic(auto, using(crate::proofs::TakenLaws::takings))]
fn append_taken<'a>(
    first: i32,
    last: i32,
    items: Units<'a>,
    found: &mut Vec<Node<'a>>,
) -> Result<(), WalkError>
    ensures { Finds found.old.items found.new.items result
        (gives (taken 0 first last (left_of items.entry))) }
{
    let mut left = items;
    let mut at: u32 = 0;
    while let Some(item) = left.next_unit() {
        if is_past(last, at) {
            return Ok(());
        }
        append_if_between(first, last, at, item, found)?;
        at += 1;
    }
    Ok(())
}

// The same of the items of a list, which are not walked to the first index.
pub(crate) fn append_range<'a>(
    forgives: bool,
    first: Result<i32, PathError>,
    last: Result<i32, PathError>,
    items: &[Node<'a>],
    found: &mut Vec<Node<'a>>,
) -> Result<(), WalkError>
    ensures { Finds found.old.items found.new.items result
        (items_between forgives first last (map node_tree items.now)) }
{
    match (first, last) {
        (Err(error), _) => Err(WalkError::Failed(error)),
        (Ok(_), Err(error)) => Err(WalkError::Failed(error)),
        (Ok(first), Ok(last)) => {
            if forgives || in_bounds(first, last, items.len()) {
                append_listed(first, last, items, found)
            } else {
                Err(WalkError::Failed(PathError::InvalidSubscript))
            }
        }
    }
}

// Appends the items of a list from the first index to the last one, as far as they are there.
#[tactic(auto, using(crate::proofs::TakenLaws::takings))]
fn append_listed<'a>(
    first: i32,
    last: i32,
    items: &[Node<'a>],
    found: &mut Vec<Node<'a>>,
) -> Result<(), WalkError>
    ensures { Finds found.old.items found.new.items result
        (gives (taken 0 first last (map node_tree items.now))) }
{
    let start = start_of(first, items.len());
    let mut left = &items[start as usize..];
    let mut at = start;
    while let [item, rest @ ..] = left {
        if is_past(last, at) {
            return Ok(());
        }
        append_if_between(first, last, at, *item, found)?;
        at += 1;
        left = rest;
    }
    Ok(())
}

// Where the items from an index on begin: an index of so many items, or right after them.
#[tactic(auto, using(crate::proofs::TakenLaws::taken_from_start))]
fn start_of(first: i32, count: usize) -> u32
    ensures within { result ≤ count }
    ensures least { result ≤ 2 ^ 31 }
    ensures same { (last : ℤ) (ts : List Tree)
        → taken result first last (drop result ts) ≡ taken 0 first last ts }
{
    if first <= 0 {
        0
    } else if first as usize <= count {
        first as u32
    } else {
        count as u32
    }
}

// Whether an index is past the last one.
fn is_past(last: i32, at: u32) -> bool
    ensures test { result ≡ int_lt last (pos at) }
    ensures before { result ≡ false → at < 2 ^ 31 }
{
    i64::from(last) < i64::from(at)
}

// Appends an item if its index is from the first one to the last one.
fn append_if_between<'a>(
    first: i32,
    last: i32,
    at: u32,
    item: Node<'a>,
    found: &mut Vec<Node<'a>>,
) -> Result<(), WalkError>
    ensures { Finds found.old.items found.new.items result
        (gives (taken at first last (node_tree item.entry ∷ []))) }
{
    if i64::from(first) <= i64::from(at) && i64::from(at) <= i64::from(last) {
        append(item, found)
    } else {
        Ok(())
    }
}
