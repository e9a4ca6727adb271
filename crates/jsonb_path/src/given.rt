//! Whether all variables that a path names are given.

ghost use Rattle.std.specs.Prelude.{◌≡◌, ◌<◌, [], IfOk, IsTrue, length, map};
ghost use Rattle.std.specs.List.{list_all};
ghost use Rattle.jsonb.specs.Node.{member_tree};
ghost use Rattle.jsonb_path.specs.Found.{outcome_of};
ghost use Rattle.jsonb_path.specs.Meaning.{all_given, given_as, is_given, names_access};
ghost use Rattle.jsonb_path.specs.Meaning.{names_along, names_begin, names_in, names_judged};
ghost use Rattle.jsonb_path.specs.Meaning.{names_select};
ghost use Rattle.jsonb_path.specs.PathParts.{are_parts_after, is_accessor, is_part, is_source};
ghost use Rattle.jsonb_path.specs.PathParts.{is_subscript, is_test_part};
ghost use Rattle.jsonb_path.specs.PathTree.{accessor_of, accessors_of, as_expression};
ghost use Rattle.jsonb_path.specs.PathTree.{expression_at, node_of, nodes_of, predicate_of};
ghost use Rattle.jsonb_path.specs.PathTree.{primary_of, subscript_onto, subscripts_of};
ghost use Rattle.jsonb_path.specs.Syntax.{no_subscripts};

use crate::outcome::Outcome;
use crate::path::{Accessor, Part, PathError, Source, Subscript, Test};
use jsonb::Node;
use std::alloc::{AllocError, Global};

// Whether all variables are given that the part of this index names.
#[cycle(given)]
#[tactic(auto, using(crate::proofs::GivenLaws::given_parts))]
pub(crate) fn given_at(parts: &[Part], at: usize, variables: &[(&str, Node<'_>)]) -> bool
    requires parts { IsTrue (are_parts_after [] parts.now) }
    requires place { at < length parts.now }
    ensures { result ≡ all_given (map member_tree variables.now)
        (names_in (expression_at (nodes_of parts.now) at)) }
{
    given_in(&parts[..at], &parts[at], variables)
}

#[cycle(given)]
#[tactic(auto, using(crate::proofs::GivenLaws::given_parts))]
fn given_in(parts: &[Part], part: &Part, variables: &[(&str, Node<'_>)]) -> bool
    requires parts { IsTrue (are_parts_after [] parts.now) }
    requires part { IsTrue (is_part parts.now part.now) }
    ensures { result ≡ all_given (map member_tree variables.now)
        (names_in (as_expression (node_of (nodes_of parts.now) part.now))) }
{
    match part {
        Part::Chain(source, accessors) => {
            given_source(parts, source, variables) && given_along(parts, accessors, variables)
        }
        Part::Sign(_, operand) => given_at(parts, *operand, variables),
        Part::Arithmetic(_, left, right) => {
            given_at(parts, *left, variables) && given_at(parts, *right, variables)
        }
        Part::Test(test) => given_test(parts, test, variables),
    }
}

#[cycle(given)]
#[tactic(auto, using(crate::proofs::GivenLaws::given_parts))]
fn given_source(parts: &[Part], source: &Source, variables: &[(&str, Node<'_>)]) -> bool
    requires parts { IsTrue (are_parts_after [] parts.now) }
    requires source { IsTrue (is_source parts.now source.now) }
    ensures { result ≡ all_given (map member_tree variables.now)
        (names_begin (primary_of (nodes_of parts.now) source.now)) }
{
    match source {
        Source::Variable(name) => is_given(name, variables),
        Source::Part(at) => given_at(parts, *at, variables),
        _ => true,
    }
}

// Whether a variable of this name is given.
fn is_given(name: &str, variables: &[(&str, Node<'_>)]) -> bool
    ensures { result ≡ is_given (map member_tree variables.now) name.now }
{
    let mut left = variables;
    while let [(given, _), rest @ ..] = left {
        if name == *given {
            return true;
        }
        left = rest;
    }
    false
}

#[cycle(given)]
#[tactic(auto, using(crate::proofs::GivenLaws::given_parts))]
fn given_along(parts: &[Part], accessors: &[Accessor], variables: &[(&str, Node<'_>)]) -> bool
    requires parts { IsTrue (are_parts_after [] parts.now) }
    requires accessors { IsTrue (list_all (is_accessor parts.now) accessors.now) }
    ensures { result ≡ all_given (map member_tree variables.now)
        (names_along (accessors_of (nodes_of parts.now) accessors.now)) }
{
    let mut left = accessors;
    while let [accessor, rest @ ..] = left {
        if !given_access(parts, accessor, variables) {
            return false;
        }
        left = rest;
    }
    true
}

#[cycle(given)]
#[tactic(auto, using(crate::proofs::GivenLaws::given_parts))]
fn given_access(parts: &[Part], accessor: &Accessor, variables: &[(&str, Node<'_>)]) -> bool
    requires parts { IsTrue (are_parts_after [] parts.now) }
    requires accessor { IsTrue (is_accessor parts.now accessor.now) }
    ensures { result ≡ all_given (map member_tree variables.now)
        (names_access (accessor_of (nodes_of parts.now) accessor.now)) }
{
    match accessor {
        Accessor::Items(subscripts) => given_select(parts, subscripts, variables),
        Accessor::Filter(test) => given_at(parts, *test, variables),
        _ => true,
    }
}

#[cycle(given)]
#[tactic(auto, using(crate::proofs::GivenLaws::given_parts))]
fn given_select(parts: &[Part], subscripts: &[Subscript], variables: &[(&str, Node<'_>)]) -> bool
    requires parts { IsTrue (are_parts_after [] parts.now) }
    requires subscripts { IsTrue (list_all (is_subscript parts.now) subscripts.now) }
    ensures { result ≡ all_given (map member_tree variables.now)
        (names_select (subscripts_of (nodes_of parts.now) subscripts.now)) }
{
    let mut left = subscripts;
    while let [subscript, rest @ ..] = left {
        if !given_subscript(parts, *subscript, variables) {
            return false;
        }
        left = rest;
    }
    true
}

#[cycle(given)]
#[tactic(auto, using(crate::proofs::GivenLaws::given_parts))]
fn given_subscript(parts: &[Part], subscript: Subscript, variables: &[(&str, Node<'_>)]) -> bool
    requires parts { IsTrue (are_parts_after [] parts.now) }
    requires subscript { IsTrue (is_subscript parts.now subscript) }
    ensures { result ≡ all_given (map member_tree variables.now) (names_select
        (subscript_onto (nodes_of parts.now) subscript.first subscript.last no_subscripts)) }
{
    given_at(parts, subscript.first, variables)
        && match subscript.last {
            Some(last) => given_at(parts, last, variables),
            None => true,
        }
}

#[cycle(given)]
#[tactic(auto, using(crate::proofs::GivenLaws::given_parts))]
fn given_test(parts: &[Part], test: &Test, variables: &[(&str, Node<'_>)]) -> bool
    requires parts { IsTrue (are_parts_after [] parts.now) }
    requires test { IsTrue (is_test_part parts.now test.now) }
    ensures { result ≡ all_given (map member_tree variables.now)
        (names_judged (predicate_of (nodes_of parts.now) test.now)) }
{
    match test {
        Test::And(left, right) | Test::Or(left, right) | Test::Compare(_, left, right) => {
            given_at(parts, *left, variables) && given_at(parts, *right, variables)
        }
        Test::Not(operand) | Test::IsUnknown(operand) | Test::Exists(operand) => {
            given_at(parts, *operand, variables)
        }
        Test::StartsWith(left, prefix) => {
            given_at(parts, *left, variables) && given_source(parts, prefix, variables)
        }
    }
}

// The variable of this name.
pub(crate) fn given_as<'a>(
    alloc: Global,
    name: &str,
    variables: &[(&'a str, Node<'a>)],
) -> Result<Outcome<'a>, AllocError>
    ensures { IfOk result (λ o. outcome_of o
        ≡ given_as name.now (map member_tree variables.now)) }
{
    let mut left = variables;
    while let [(given, value), rest @ ..] = left {
        if name == *given {
            return Outcome::one(alloc, *value);
        }
        left = rest;
    }
    Ok(Outcome::failed(alloc, PathError::UndefinedVariable))
}
