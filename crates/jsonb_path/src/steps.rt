//! Paths of keys and indexes alone, as the steps to one child after another.
#![tactic(auto, using(crate::proofs::StepLaws::part_here))]

ghost use Rattle.std.specs.Prelude.{◌≡◌, List, [], IfOk, IsTrue, map, option_map, take};
ghost use Rattle.std.specs.List.{list_all};
ghost use Rattle.jsonb_value.specs.Tree as trees;
ghost use Rattle.jsonb_value.specs.declared.number.Number.TheVariants.{UInt64};
ghost use Rattle.jsonb_functions.specs.StoredPath.{step_view};
ghost use Rattle.jsonb_path.specs.PathParts.{are_parts_after, is_accessor, is_expression, is_part};
ghost use Rattle.jsonb_path.specs.PathParts.{is_subscript};
ghost use Rattle.jsonb_path.specs.PathTree.{PathNode, accessor_of, accessors_of, as_expression};
ghost use Rattle.jsonb_path.specs.PathTree.{expression_at, literal_tree, node_of, nodes_of};
ghost use Rattle.jsonb_path.specs.PathTree.{primary_of, subscript_onto, subscripts_of};
ghost use Rattle.jsonb_path.specs.PathTree.{tree_of_parts};
ghost use Rattle.jsonb_path.specs.Steps.{primary_alone, step_by, step_of, step_of_both};
ghost use Rattle.jsonb_path.specs.Steps.{step_of_index, step_of_literal, step_of_pair};
ghost use Rattle.jsonb_path.specs.Steps.{step_of_primary, step_of_subscripts, steps_along, steps_of};
ghost use Rattle.jsonb_path.specs.Syntax.{chain, last, no_subscripts};

use crate::path::{Accessor, Literal, Operator, Part, Path, Source, Subscript};
use jsonb_functions::Step;
use jsonb_value::Number;
use std::alloc::{AllocError, Global};

/// The steps of a path from `$` of which each leads to one child: `.key`, or `[..]` with a whole
/// number, `last`, or `last` less a whole number; `[last + 1]` is the place past the last item.
/// `None` of any other path. Whether the path is lax does not count.
pub fn steps_of<'a>(alloc: Global, path: &'a Path) -> Result<Option<Vec<Step<'a>>>, AllocError>
    ensures { IfOk result (λ steps. option_map (λ steps. map step_view steps.items) steps
        ≡ steps_of (tree_of_parts path.now.parts)) }
{
    let parts = path.parts();
    let last = parts.len() - 1;
    steps_of_part(alloc, &parts[..last], &parts[last])
}

// The steps of the last part of a path, after the parts that it names.
fn steps_of_part<'a>(
    alloc: Global,
    parts: &[Part],
    part: &'a Part,
) -> Result<Option<Vec<Step<'a>>>, AllocError>
    requires parts { IsTrue (are_parts_after [] parts.now) }
    requires part { IsTrue (is_part parts.now part.now) }
    ensures { IfOk result (λ steps. option_map (λ steps. map step_view steps.items) steps
        ≡ steps_of (as_expression (node_of (nodes_of parts.now) part.now))) }
{
    match part {
        Part::Chain(Source::Root, accessors) => steps_along(alloc, parts, accessors),
        Part::Chain(_, _) | Part::Sign(_, _) | Part::Arithmetic(_, _, _) | Part::Test(_) => Ok(
            None,
        ),
    }
}

// The steps of accessors, if each leads to one child.
fn steps_along<'a>(
    alloc: Global,
    parts: &[Part],
    accessors: &'a [Accessor],
) -> Result<Option<Vec<Step<'a>>>, AllocError>
    requires parts { IsTrue (are_parts_after [] parts.now) }
    requires accessors { IsTrue (list_all (is_accessor parts.now) accessors.now) }
    ensures { IfOk result (λ steps. option_map (λ steps. map step_view steps.items) steps
        ≡ steps_along (accessors_of (nodes_of parts.now) accessors.now)) }
{
    let mut steps = Vec::with_capacity(alloc, accessors.len())?;
    let mut left = accessors;
    while let [accessor, rest @ ..] = left {
        let Some(step) = step_of(parts, accessor) else {
            return Ok(None);
        };
        steps.push(step)?;
        left = rest;
    }
    Ok(Some(steps))
}

// The step of an accessor that leads to one child.
fn step_of<'a>(parts: &[Part], accessor: &'a Accessor) -> Option<Step<'a>>
    requires parts { IsTrue (are_parts_after [] parts.now) }
    requires accessor { IsTrue (is_accessor parts.now accessor.now) }
    ensures { option_map step_view result
        ≡ step_of (accessor_of (nodes_of parts.now) accessor.now) }
{
    match accessor {
        Accessor::Member(name) => Some(Step::Key(name)),
        Accessor::Items(subscripts) => step_of_subscripts(parts, subscripts),
        _ => None,
    }
}

// The step of a list of one index.
fn step_of_subscripts<'a>(parts: &[Part], subscripts: &[Subscript]) -> Option<Step<'a>>
    requires parts { IsTrue (are_parts_after [] parts.now) }
    requires subscripts { IsTrue (list_all (is_subscript parts.now) subscripts.now) }
    ensures { option_map step_view result
        ≡ step_of_subscripts (subscripts_of (nodes_of parts.now) subscripts.now) }
{
    match subscripts {
        [] => None,
        [subscript] => step_of_subscript(parts, *subscript),
        [_, _, ..] => None,
    }
}

// The step of one index.
fn step_of_subscript<'a>(parts: &[Part], subscript: Subscript) -> Option<Step<'a>>
    requires parts { IsTrue (are_parts_after [] parts.now) }
    requires subscript { IsTrue (is_subscript parts.now subscript) }
    ensures { option_map step_view result ≡ step_of_subscripts (subscript_onto
        (nodes_of parts.now) subscript.first subscript.last no_subscripts) }
{
    match subscript.last {
        None => step_of_index(parts, subscript.first),
        Some(_) => None,
    }
}

// The step of the index that the part at this index gives.
fn step_of_index<'a>(parts: &[Part], at: usize) -> Option<Step<'a>>
    requires parts { IsTrue (are_parts_after [] parts.now) }
    requires place { IsTrue (is_expression parts.now at) }
    ensures { option_map step_view result ≡ step_of_index (expression_at (nodes_of parts.now) at) }
{
    step_of_part(&parts[..at], &parts[at])
}

// The step of the index that a part gives, after the parts that it names.
fn step_of_part<'a>(parts: &[Part], part: &Part) -> Option<Step<'a>>
    requires parts { IsTrue (are_parts_after [] parts.now) }
    requires part { IsTrue (is_part parts.now part.now) }
    ensures { option_map step_view result
        ≡ step_of_index (as_expression (node_of (nodes_of parts.now) part.now)) }
{
    match part {
        Part::Chain(source, accessors) => step_of_chain(source, accessors),
        Part::Arithmetic(operator, left, right) => {
            let left = source_at(parts, *left);
            let right = source_at(parts, *right);
            step_of_both(*operator, left, right)
        }
        Part::Sign(_, _) | Part::Test(_) => None,
    }
}

// The step of a chain, which has no accessors then.
fn step_of_chain<'a>(source: &Source, accessors: &[Accessor]) -> Option<Step<'a>>
    ensures { (nodes : List PathNode) → option_map step_view result
        ≡ step_of_index (chain (primary_of nodes source.now) (accessors_of nodes accessors.now)) }
{
    match accessors {
        [] => step_of_source(source),
        [_, ..] => None,
    }
}

// What the part at this index begins with, if it is a chain without accessors.
fn source_at(parts: &[Part], at: usize) -> Option<&Source>
    requires { IsTrue (is_expression parts.now at) }
    ensures { option_map (λ source. primary_of (nodes_of (take at parts.now)) source.now) result
        ≡ primary_alone (expression_at (nodes_of parts.now) at) }
{
    source_alone(&parts[at])
}

// What a part begins with, if it is a chain without accessors.
fn source_alone(part: &Part) -> Option<&Source>
    ensures { (nodes : List PathNode) → option_map (λ source. primary_of nodes source.now) result
        ≡ primary_alone (as_expression (node_of nodes part.now)) }
{
    match part {
        Part::Chain(source, accessors) => match accessors.as_slice() {
            [] => Some(source),
            [_, ..] => None,
        },
        Part::Sign(_, _) | Part::Arithmetic(_, _, _) | Part::Test(_) => None,
    }
}

// The step of a whole number, or of `last`.
fn step_of_source<'a>(source: &Source) -> Option<Step<'a>>
    ensures { (nodes : List PathNode) → option_map step_view result
        ≡ step_of_primary (primary_of nodes source.now) }
{
    match source {
        Source::Last => Some(Step::FromEnd(0)),
        Source::Literal(literal) => step_of_literal(literal),
        _ => None,
    }
}

// The step of a literal that is a whole number.
fn step_of_literal<'a>(literal: &Literal) -> Option<Step<'a>>
    ensures { option_map step_view result ≡ step_of_literal (literal_tree literal.now) }
{
    match literal {
        Literal::Number(number) => step_of_number(*number),
        _ => None,
    }
}

// The step of a number that is whole and has no sign.
fn step_of_number<'a>(number: Number) -> Option<Step<'a>>
    ensures { option_map step_view result ≡ step_of_literal (trees.number number) }
{
    match number {
        Number::UInt64(index) => Some(Step::Index(index as usize)),
        _ => None,
    }
}

// The step of an operator between `last` and a whole number, where both are there.
fn step_of_both<'a>(
    operator: Operator,
    left: Option<&Source>,
    right: Option<&Source>,
) -> Option<Step<'a>>
    ensures { (nodes others : List PathNode) → option_map step_view result
        ≡ step_of_both operator (option_map (λ source. primary_of nodes source.now) left.entry)
        (option_map (λ source. primary_of others source.now) right.entry) }
{
    match left {
        Some(left) => match right {
            Some(right) => step_between(operator, left, right),
            None => None,
        },
        None => None,
    }
}

// The step of an operator between `last` and a whole number.
fn step_between<'a>(operator: Operator, left: &Source, right: &Source) -> Option<Step<'a>>
    ensures { (nodes others : List PathNode) → option_map step_view result
        ≡ step_of_pair operator (primary_of nodes left.now) (primary_of others right.now) }
{
    match left {
        Source::Last => step_from_last(operator, right),
        _ => None,
    }
}

// The step of an operator from `last` by a whole number.
fn step_from_last<'a>(operator: Operator, right: &Source) -> Option<Step<'a>>
    ensures { (others : List PathNode) → option_map step_view result
        ≡ step_of_pair operator last (primary_of others right.now) }
{
    match right {
        Source::Literal(literal) => step_by_literal(operator, literal),
        _ => None,
    }
}

// The step of an operator from `last` by a literal.
fn step_by_literal<'a>(operator: Operator, literal: &Literal) -> Option<Step<'a>>
    ensures { option_map step_view result ≡ step_by operator (literal_tree literal.now) }
{
    match literal {
        Literal::Number(number) => step_by_number(operator, *number),
        _ => None,
    }
}

// The step of an operator from `last` by a number.
fn step_by_number<'a>(operator: Operator, number: Number) -> Option<Step<'a>>
    ensures { option_map step_view result ≡ step_by operator (trees.number number) }
{
    match number {
        Number::UInt64(number) => step_by(operator, number),
        _ => None,
    }
}

// The step of an operator from `last` by this number.
fn step_by<'a>(operator: Operator, number: u64) -> Option<Step<'a>>
    ensures { option_map step_view result ≡ step_by operator (trees.number (UInt64 number)) }
{
    match operator {
        Operator::Subtract => Some(Step::FromEnd(number as usize)),
        Operator::Add => { if number == 1 { Some(Step::End) } else { None } }
        Operator::Multiply | Operator::Remainder => None,
    }
}
