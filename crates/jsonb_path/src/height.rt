//! How high a path is: in how many levels its parts name each other.

ghost use Rattle.std.specs.Prelude.{◌≡◌, ◌<◌, [], IsTrue, length, nat_le};
ghost use Rattle.std.specs.List.{list_all};
ghost use Rattle.jsonb_path.specs.Height.{height, is_low, primary_height, step_height};
ghost use Rattle.jsonb_path.specs.Height.{steps_height, subscripts_height, test_height};
ghost use Rattle.jsonb_path.specs.PathParts.{are_parts, are_parts_after, is_accessor, is_part};
ghost use Rattle.jsonb_path.specs.PathParts.{is_source, is_subscript, is_test_part};
ghost use Rattle.jsonb_path.specs.PathTree.{accessor_of, accessors_of, as_expression};
ghost use Rattle.jsonb_path.specs.PathTree.{expression_at, node_of, nodes_of, predicate_of};
ghost use Rattle.jsonb_path.specs.PathTree.{primary_of, subscript_onto, subscripts_of};
ghost use Rattle.jsonb_path.specs.PathTree.{tree_of_parts};
ghost use Rattle.jsonb_path.specs.Syntax.{no_subscripts};

use crate::path::{Accessor, Part, Source, Subscript, Test};

/// In how many levels the parts of a path name each other at most.
pub const MOST_LEVELS: usize = 400;

/// Whether the parts of a path name each other in so few levels.
#[tactic(auto, using(crate::proofs::PathTextLaws::path_parts))]
pub fn is_low(parts: &[Part]) -> bool
    requires { IsTrue (are_parts parts.now) }
    ensures { result ≡ is_low (tree_of_parts parts.now) }
{
    low_at(parts, parts.len() - 1, MOST_LEVELS)
}

/// The index of the first part that is too high, or how many parts there are.
pub fn first_high(parts: &[Part]) -> usize
    requires { IsTrue (are_parts_after [] parts.now) }
{
    for at in 0..parts.len() {
        if !low_at(parts, at, MOST_LEVELS) {
            return at;
        }
    }
    parts.len()
}

// Whether the part of this index has so many levels at most.
#[cycle(height)]
#[tactic(auto, using(crate::proofs::HeightLaws::heights))]
fn low_at(parts: &[Part], at: usize, levels: usize) -> bool
    requires parts { IsTrue (are_parts_after [] parts.now) }
    requires place { at < length parts.now }
    ensures { result ≡ nat_le (height (expression_at (nodes_of parts.now) at)) levels }
{
    low_in(&parts[..at], &parts[at], levels)
}

#[cycle(height)]
#[tactic(auto, using(crate::proofs::HeightLaws::heights))]
fn low_in(parts: &[Part], part: &Part, levels: usize) -> bool
    requires parts { IsTrue (are_parts_after [] parts.now) }
    requires part { IsTrue (is_part parts.now part.now) }
    ensures { result ≡ nat_le (height (as_expression (node_of (nodes_of parts.now) part.now)))
        levels }
{
    if levels == 0 {
        return false;
    }
    match part {
        Part::Chain(source, accessors) => {
            low_source(parts, source, levels - 1) && low_along(parts, accessors, levels - 1)
        }
        Part::Sign(_, operand) => low_at(parts, *operand, levels - 1),
        Part::Arithmetic(_, left, right) => {
            low_at(parts, *left, levels - 1) && low_at(parts, *right, levels - 1)
        }
        Part::Test(test) => low_test(parts, test, levels),
    }
}

#[cycle(height)]
#[tactic(auto, using(crate::proofs::HeightLaws::heights))]
fn low_source(parts: &[Part], source: &Source, levels: usize) -> bool
    requires parts { IsTrue (are_parts_after [] parts.now) }
    requires source { IsTrue (is_source parts.now source.now) }
    ensures { result ≡ nat_le (primary_height (primary_of (nodes_of parts.now) source.now)) levels }
{
    match source {
        Source::Part(at) => low_at(parts, *at, levels),
        _ => true,
    }
}

#[cycle(height)]
#[tactic(auto, using(crate::proofs::HeightLaws::heights))]
fn low_along(parts: &[Part], accessors: &[Accessor], levels: usize) -> bool
    requires parts { IsTrue (are_parts_after [] parts.now) }
    requires accessors { IsTrue (list_all (is_accessor parts.now) accessors.now) }
    ensures { result ≡ nat_le (steps_height (accessors_of (nodes_of parts.now) accessors.now))
        levels }
{
    let mut left = accessors;
    while let [accessor, rest @ ..] = left {
        if !low_access(parts, accessor, levels) {
            return false;
        }
        left = rest;
    }
    true
}

#[cycle(height)]
#[tactic(auto, using(crate::proofs::HeightLaws::heights))]
fn low_access(parts: &[Part], accessor: &Accessor, levels: usize) -> bool
    requires parts { IsTrue (are_parts_after [] parts.now) }
    requires accessor { IsTrue (is_accessor parts.now accessor.now) }
    ensures { result ≡ nat_le (step_height (accessor_of (nodes_of parts.now) accessor.now)) levels }
{
    match accessor {
        Accessor::Items(subscripts) => low_select(parts, subscripts, levels),
        Accessor::Filter(test) => low_at(parts, *test, levels),
        _ => true,
    }
}

#[cycle(height)]
#[tactic(auto, using(crate::proofs::HeightLaws::heights))]
fn low_select(parts: &[Part], subscripts: &[Subscript], levels: usize) -> bool
    requires parts { IsTrue (are_parts_after [] parts.now) }
    requires subscripts { IsTrue (list_all (is_subscript parts.now) subscripts.now) }
    ensures { result ≡ nat_le (subscripts_height (subscripts_of (nodes_of parts.now)
        subscripts.now)) levels }
{
    let mut left = subscripts;
    while let [subscript, rest @ ..] = left {
        if !low_subscript(parts, *subscript, levels) {
            return false;
        }
        left = rest;
    }
    true
}

#[cycle(height)]
#[tactic(auto, using(crate::proofs::HeightLaws::heights))]
fn low_subscript(parts: &[Part], subscript: Subscript, levels: usize) -> bool
    requires parts { IsTrue (are_parts_after [] parts.now) }
    requires subscript { IsTrue (is_subscript parts.now subscript) }
    ensures { result ≡ nat_le (subscripts_height (subscript_onto (nodes_of parts.now)
        subscript.first subscript.last no_subscripts)) levels }
{
    low_at(parts, subscript.first, levels)
        && match subscript.last {
            Some(last) => low_at(parts, last, levels),
            None => true,
        }
}

#[cycle(height)]
#[tactic(auto, using(crate::proofs::HeightLaws::heights))]
fn low_test(parts: &[Part], test: &Test, levels: usize) -> bool
    requires parts { IsTrue (are_parts_after [] parts.now) }
    requires test { IsTrue (is_test_part parts.now test.now) }
    requires some { 0 < levels }
    ensures { result ≡ nat_le (test_height (predicate_of (nodes_of parts.now) test.now)) levels }
{
    match test {
        Test::And(left, right) | Test::Or(left, right) | Test::Compare(_, left, right) => {
            low_at(parts, *left, levels - 1) && low_at(parts, *right, levels - 1)
        }
        Test::Not(operand)
        | Test::IsUnknown(operand)
        | Test::Exists(operand)
        | Test::StartsWith(operand, _) => low_at(parts, *operand, levels - 1),
    }
}
