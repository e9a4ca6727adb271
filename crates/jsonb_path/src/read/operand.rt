//! Parts, each put after those that it names.

ghost use Rattle.std.specs.Prelude.{◌≡◌, ◌++◌, ◌∷◌, [], IfErr, IfOk, IsTrue, List};
ghost use Rattle.std.specs.Prelude.{OnOk, Some, length};
ghost use Rattle.std.specs.List.{list_all};
ghost use Rattle.jsonb_path.specs.declared.path.Part.{Part};
ghost use Rattle.jsonb_path.specs.declared.read.scan.Unread.TheVariants as ends;
ghost use Rattle.jsonb_path.specs.Grammar.{accessors_and, alone, as_operand, literal_number};
ghost use Rattle.jsonb_path.specs.Grammar.{number_alone, one_accessor, wants_test};
ghost use Rattle.jsonb_path.specs.Grammar.{with_accessor, with_operands, with_sign_before};
ghost use Rattle.jsonb_path.specs.Growth.{PartsGrow, is_operand};
ghost use Rattle.jsonb_path.specs.PathParts.{are_parts_after, is_accessor, is_part, is_some_test};
ghost use Rattle.jsonb_path.specs.PathParts.{is_source};
ghost use Rattle.jsonb_path.specs.PathTree.{PathNode, accessor_of, accessors_of, as_expression};
ghost use Rattle.jsonb_path.specs.PathTree.{expression, node_at, node_of, nodes_of, primary_of};
ghost use Rattle.jsonb_path.specs.Syntax.{chain, inner};
ghost use Rattle.jsonb_path.specs.Unread.{Parses};

use super::infix::Operation;
use super::scan::{Expected, LeftOut, Unread, left_out, unexpected};
use crate::path::{Accessor, Literal, Part, Sign, Source, Test};
use crate::token::PlacedToken;
use jsonb_value::Number;
use std::alloc::Global;

/// Appends a part, which has to be a test or an expression, as is wanted; its index. The tokens
/// after it are the place of a refusal.
#[tactic(auto, using(crate::proofs::GrowthLaws::growth))]
pub fn push_operand(
    parts: &mut Vec<Part>,
    wants_test: bool,
    part: Part,
    tokens: &[PlacedToken],
) -> Result<usize, Unread>
    requires parts { IsTrue (are_parts_after [] parts.old.items) }
    requires part { IsTrue (is_part parts.old.items part) }
    ensures meaning { Parses (λ at. node_at (nodes_of parts.new.items) at) result
        (as_operand wants_test (node_of (nodes_of parts.old.items) part)) }
    ensures operand { IfOk result (λ at. IsTrue (is_operand wants_test parts.new.items at)) }
    ensures grown { OnOk result (PartsGrow parts.old.items parts.new.items) }
{
    if is_test(&part) == wants_test {
        push(parts, part)
    } else if wants_test {
        Err(unexpected(tokens, Expected::TestBefore))
    } else {
        Err(unexpected(tokens, Expected::ExpressionBefore))
    }
}

// Appends a part; its index.
#[tactic(auto, using(crate::proofs::GrowthLaws::growth))]
fn push(parts: &mut Vec<Part>, part: Part) -> Result<usize, Unread>
    requires parts { IsTrue (are_parts_after [] parts.old.items) }
    requires part { IsTrue (is_part parts.old.items part) }
    ensures place { IfOk result (λ at. at ≡ length parts.old.items) }
    ensures pushed { OnOk result (parts.new.items ≡ parts.old.items ++ (part ∷ [])) }
    ensures memory { IfErr result (λ e. e ≡ ends.OutOfMemory) }
{
    let at = parts.len();
    parts.push(part)?;
    Ok(at)
}

// Whether a part is a test.
fn is_test(part: &Part) -> bool
    ensures { result ≡ is_some_test (Some part.now) }
{
    matches!(part, Part::Test(_))
}

/// The part of an operator and its operands.
pub fn with_operands(operation: Operation, left: usize, right: usize) -> Part
    ensures node { (nodes : List PathNode) → node_of nodes result
        ≡ with_operands operation (node_at nodes left) (node_at nodes right) }
    ensures part { (parts : List Part) → IsTrue (is_operand (wants_test operation) parts left)
        → IsTrue (is_operand (wants_test operation) parts right) → IsTrue (is_part parts result) }
{
    match operation {
        Operation::Or => Part::Test(Test::Or(left, right)),
        Operation::And => Part::Test(Test::And(left, right)),
        Operation::Compare(comparison) => Part::Test(Test::Compare(comparison, left, right)),
        Operation::Arithmetic(operator) => Part::Arithmetic(operator, left, right),
    }
}

/// An expression with one more accessor: a chain goes on, all else stands in parentheses.
#[tactic(auto, using(crate::proofs::GrammarLaws::grammar))]
pub fn with_accessor(
    alloc: Global,
    parts: &mut Vec<Part>,
    part: Part,
    accessor: Accessor,
) -> Result<Part, Unread>
    requires parts { IsTrue (are_parts_after [] parts.old.items) }
    requires part { IsTrue (is_part parts.old.items part) }
    requires accessor { IsTrue (is_accessor parts.old.items accessor) }
    ensures node { IfOk result (λ p. node_of (nodes_of parts.new.items) p ≡ expression (with_accessor
        (as_expression (node_of (nodes_of parts.old.items) part))
        (accessor_of (nodes_of parts.old.items) accessor))) }
    ensures part { IfOk result (λ p. IsTrue (is_part parts.new.items p)) }
    ensures grown { OnOk result (PartsGrow parts.old.items parts.new.items) }
    ensures memory { IfErr result (λ e. e ≡ ends.OutOfMemory) }
{
    match part {
        Part::Chain(source, accessors) => chain_with(source, accessors, accessor),
        Part::Sign(sign, operand) => {
            in_parentheses(alloc, parts, Part::Sign(sign, operand), accessor)
        }
        Part::Arithmetic(operator, left, right) => {
            in_parentheses(
                alloc,
                parts,
                Part::Arithmetic(operator, left, right),
                accessor,
            )
        }
        Part::Test(test) => in_parentheses(alloc, parts, Part::Test(test), accessor),
    }
}

// A part in parentheses, and an accessor.
#[tactic(auto, using(crate::proofs::GrammarLaws::grammar))]
fn in_parentheses(
    alloc: Global,
    parts: &mut Vec<Part>,
    part: Part,
    accessor: Accessor,
) -> Result<Part, Unread>
    requires parts { IsTrue (are_parts_after [] parts.old.items) }
    requires part { IsTrue (is_part parts.old.items part) }
    requires accessor { IsTrue (is_accessor parts.old.items accessor) }
    ensures node { IfOk result (λ p. node_of (nodes_of parts.new.items) p ≡ expression (chain
        (inner (as_expression (node_of (nodes_of parts.old.items) part)))
        (one_accessor (accessor_of (nodes_of parts.old.items) accessor)))) }
    ensures part { IfOk result (λ p. IsTrue (is_part parts.new.items p)) }
    ensures grown { OnOk result (PartsGrow parts.old.items parts.new.items) }
    ensures memory { IfErr result (λ e. e ≡ ends.OutOfMemory) }
{
    let at = push(parts, part)?;
    let part = chain_with(Source::Part(at), Vec::new(alloc), accessor)?;
    Ok(part)
}

// A chain with one more accessor.
#[tactic(auto, using(crate::proofs::GrammarLaws::grammar))]
fn chain_with(source: Source, accessors: Vec<Accessor>, accessor: Accessor) -> Result<Part, Unread>
    ensures node { IfOk result (λ p. (nodes : List PathNode) → node_of nodes p
        ≡ expression (chain (primary_of nodes source)
        (accessors_and (accessors_of nodes accessors.items) (accessor_of nodes accessor)))) }
    ensures part { IfOk result (λ p. (parts : List Part) → IsTrue (is_source parts source)
        → IsTrue (list_all (is_accessor parts) accessors.items)
        → IsTrue (is_accessor parts accessor) → IsTrue (is_part parts p)) }
    ensures memory { IfErr result (λ e. e ≡ ends.OutOfMemory) }
{
    let mut accessors = accessors;
    accessors.push(accessor)?;
    Ok(Part::Chain(source, accessors))
}

/// An expression after a sign, which is part of a number alone.
#[tactic(auto, using(crate::proofs::GrowthLaws::growth), unfolding(crate::specs::Grammar::with_sign_before))]
pub fn with_sign(
    alloc: Global,
    parts: &mut Vec<Part>,
    sign: Sign,
    part: Part,
    tokens: &[PlacedToken],
) -> Result<Part, Unread>
    requires parts { IsTrue (are_parts_after [] parts.old.items) }
    requires part { IsTrue (is_part parts.old.items part) }
    ensures meaning { Parses (λ p. node_of (nodes_of parts.new.items) p) result
        (with_sign_before sign (node_of (nodes_of parts.old.items) part)) }
    ensures part { IfOk result (λ p. IsTrue (is_part parts.new.items p)) }
    ensures grown { OnOk result (PartsGrow parts.old.items parts.new.items) }
{
    match number_alone(&part) {
        Some(number) => match sign.apply(&number) {
            Ok(number) => Ok(alone(alloc, Source::Literal(Literal::Number(number)))),
            Err(_) => Err(left_out(tokens, LeftOut::WideNumber)),
        },
        None => {
            let operand = push_operand(parts, false, part, tokens)?;
            Ok(Part::Sign(sign, operand))
        }
    }
}

/// A chain without accessors.
pub fn alone(alloc: Global, source: Source) -> Part
    ensures node { (nodes : List PathNode) → node_of nodes result ≡ alone (primary_of nodes source) }
    ensures part { (parts : List Part) → IsTrue (is_source parts source)
        → IsTrue (is_part parts result) }
{
    Part::Chain(source, Vec::new(alloc))
}

// A number without accessors.
#[tactic(auto, using(crate::proofs::GrammarLaws::grammar))]
fn number_alone(part: &Part) -> Option<Number>
    ensures { (nodes : List PathNode) → result ≡ number_alone (node_of nodes part.now) }
{
    match part {
        Part::Chain(source, accessors) => match accessors.as_slice() {
            [] => literal_number(source),
            [_, ..] => None,
        },
        Part::Sign(_, _) | Part::Arithmetic(_, _, _) | Part::Test(_) => None,
    }
}

// The number that a source is.
fn literal_number(source: &Source) -> Option<Number>
    ensures { (nodes : List PathNode) → result ≡ literal_number (primary_of nodes source.now) }
{
    match source {
        Source::Literal(Literal::Number(number)) => Some(*number),
        _ => None,
    }
}
