//! Expressions and tests, and what they are made of.

ghost use Rattle.std.specs.Prelude.{◌≡◌, ◌<◌, ◌≤◌, ◌∷◌, [], IfOk, IfSome, IsTrue, OnOk, length};
ghost use Rattle.std.specs.Prelude.{option_map};
ghost use Rattle.jsonb_path.specs.Dotted.{dotted, lexemes};
ghost use Rattle.jsonb_path.specs.Grammar.{accessor_at, after_parentheses, all_accessors};
ghost use Rattle.jsonb_path.specs.Grammar.{begins_accessor, bracketed, chain_at, closed_test, deeper};
ghost use Rattle.jsonb_path.specs.Grammar.{exists_at, filtered, in_parentheses, index_at, infixed};
ghost use Rattle.jsonb_path.specs.Grammar.{items_within, operand, ranked, signed_at};
ghost use Rattle.jsonb_path.specs.Grammar.{subscript_at, unknown_after};
ghost use Rattle.jsonb_path.specs.Growth.{PartsGrow};
ghost use Rattle.jsonb_path.specs.PathParts.{are_parts_after, is_accessor, is_expression, is_part};
ghost use Rattle.jsonb_path.specs.PathParts.{is_subscript};
ghost use Rattle.jsonb_path.specs.PathTree.{accessor_of, expression_at, node_of, nodes_of};
ghost use Rattle.jsonb_path.specs.PathTree.{subscripts_of};
ghost use Rattle.jsonb_path.specs.Unread.{Parses};

use super::dotted::read_dotted;
use super::infix::{Infix, infix_at};
use super::literal::{Scope, read_prefix, read_primary};
use super::operand::{alone, push_operand, with_accessor, with_operands, with_sign};
use super::scan::{
    Expected, Unread, after_mark, after_word, expect_mark, is_word, too_deep, unexpected,
};
use crate::path::{Accessor, Part, Sign, Subscript, Test};
use crate::token::{PlacedToken, Token};
use std::alloc::Global;

/// Operators that bind so loosely, or tighter, are all.
pub const LOOSEST: u8 = 5;

/// An expression or a test whose operators bind so loosely at most, and what is after it. The parts
/// that it names are appended.
#[cycle(grammar)]
#[tactic(auto, using(crate::proofs::GrammarLaws::grammar, crate::proofs::ReadLaws::reading))]
pub fn read_ranked<'a>(
    alloc: Global,
    parts: &mut Vec<Part>,
    depth: usize,
    scope: Scope,
    looseness: u8,
    tokens: &'a [PlacedToken],
) -> Result<(Part, &'a [PlacedToken]), Unread>
    requires { IsTrue (are_parts_after [] parts.old.items) }
    ensures meaning { Parses
        (λ x. (node_of (nodes_of parts.new.items) x.0, lexemes x.1.now)) result
        (ranked (deeper depth) looseness scope (lexemes tokens.now)) }
    ensures part { IfOk result (λ x. IsTrue (is_part parts.new.items x.0)) }
    ensures grown { OnOk result (PartsGrow parts.old.items parts.new.items) }
    ensures shorter { IfOk result (λ x. length x.1.now < length tokens.now) }
{
    if looseness == 0 {
        let (part, rest) = read_operand(alloc, parts, depth, scope, tokens)?;
        return Ok((part, rest));
    }
    let (first, rest) = read_ranked(alloc, parts, depth, scope, looseness - 1, tokens)?;
    let mut part = first;
    let mut left = rest;
    'infixes: while let Some((link, rest)) = infix_at(looseness, left) {
        let (next, rest) = read_infix(alloc, parts, depth, scope, looseness - 1, part, link, rest)?;
        part = next;
        left = rest;
    }
    Ok((part, left))
}

// The right operand of an operator, whose operators bind so loosely at most.
#[cycle(grammar)]
#[tactic(auto, using(crate::proofs::GrammarLaws::grammar, crate::proofs::ReadLaws::reading))]
fn read_infix<'a>(
    alloc: Global,
    parts: &mut Vec<Part>,
    depth: usize,
    scope: Scope,
    looseness: u8,
    left: Part,
    link: Infix,
    tokens: &'a [PlacedToken],
) -> Result<(Part, &'a [PlacedToken]), Unread>
    requires parts { IsTrue (are_parts_after [] parts.old.items) }
    requires part { IsTrue (is_part parts.old.items left) }
    ensures meaning { Parses
        (λ x. (node_of (nodes_of parts.new.items) x.0, lexemes x.1.now)) result
        (infixed (ranked (deeper depth) looseness scope)
        (node_of (nodes_of parts.old.items) left) link (lexemes tokens.now)) }
    ensures part { IfOk result (λ x. IsTrue (is_part parts.new.items x.0)) }
    ensures grown { OnOk result (PartsGrow parts.old.items parts.new.items) }
    ensures shorter { IfOk result (λ x. length x.1.now < length tokens.now) }
{
    match link {
        Infix::StartsWith => {
            let left = push_operand(parts, false, left, tokens)?;
            let (prefix, rest) = read_prefix(tokens)?;
            Ok((Part::Test(Test::StartsWith(left, prefix)), rest))
        }
        Infix::Operation(operation) => {
            let wants_test = operation.wants_test();
            let left = push_operand(parts, wants_test, left, tokens)?;
            let (right, rest) = read_ranked(alloc, parts, depth, scope, looseness, tokens)?;
            let right = push_operand(parts, wants_test, right, rest)?;
            Ok((with_operands(operation, left, right), rest))
        }
    }
}

// A sign, `!`, parentheses, `exists`, or a chain.
#[cycle(grammar)]
#[tactic(auto, using(crate::proofs::GrammarLaws::grammar, crate::proofs::ReadLaws::reading), unfolding(crate::specs::Grammar::operand))]
fn read_operand<'a>(
    alloc: Global,
    parts: &mut Vec<Part>,
    depth: usize,
    scope: Scope,
    tokens: &'a [PlacedToken],
) -> Result<(Part, &'a [PlacedToken]), Unread>
    requires { IsTrue (are_parts_after [] parts.old.items) }
    ensures meaning { Parses
        (λ x. (node_of (nodes_of parts.new.items) x.0, lexemes x.1.now)) result
        (operand (deeper depth) scope (lexemes tokens.now)) }
    ensures part { IfOk result (λ x. IsTrue (is_part parts.new.items x.0)) }
    ensures grown { OnOk result (PartsGrow parts.old.items parts.new.items) }
    ensures shorter { IfOk result (λ x. length x.1.now < length tokens.now) }
{
    let [first, rest @ ..] = tokens else {
        return read_chain(alloc, parts, depth, scope, tokens);
    };
    match &first.token {
        Token::Mark('(') => {
            let (part, rest) = read_parentheses(alloc, parts, depth, scope, tokens)?;
            read_after_parentheses(alloc, parts, depth, scope, part, rest)
        }
        Token::Mark('!') => {
            let (test, rest) = read_closed(alloc, parts, depth, scope, rest)?;
            let test = push_operand(parts, true, test, rest)?;
            Ok((Part::Test(Test::Not(test)), rest))
        }
        Token::Mark('+') => read_signed(alloc, parts, depth, scope, Sign::Plus, rest),
        Token::Mark('-') => read_signed(alloc, parts, depth, scope, Sign::Minus, rest),
        Token::Word(word) if is_word("exists", word.as_str()) => {
            read_exists(alloc, parts, depth, scope, rest)
        }
        _ => read_chain(alloc, parts, depth, scope, tokens),
    }
}

// What a further level holds.
#[cycle(grammar)]
#[tactic(auto, using(crate::proofs::GrammarLaws::grammar, crate::proofs::ReadLaws::reading))]
fn read_deeper<'a>(
    alloc: Global,
    parts: &mut Vec<Part>,
    depth: usize,
    scope: Scope,
    looseness: u8,
    tokens: &'a [PlacedToken],
) -> Result<(Part, &'a [PlacedToken]), Unread>
    requires { IsTrue (are_parts_after [] parts.old.items) }
    ensures meaning { Parses
        (λ x. (node_of (nodes_of parts.new.items) x.0, lexemes x.1.now)) result
        (deeper depth looseness scope (lexemes tokens.now)) }
    ensures part { IfOk result (λ x. IsTrue (is_part parts.new.items x.0)) }
    ensures grown { OnOk result (PartsGrow parts.old.items parts.new.items) }
    ensures shorter { IfOk result (λ x. length x.1.now < length tokens.now) }
{
    if depth == 0 {
        return Err(too_deep(tokens));
    }
    let (part, rest) = read_ranked(alloc, parts, depth - 1, scope, looseness, tokens)?;
    Ok((part, rest))
}

// What parentheses hold.
#[cycle(grammar)]
#[tactic(auto, using(crate::proofs::GrammarLaws::grammar, crate::proofs::ReadLaws::reading), unfolding(crate::specs::Grammar::in_parentheses))]
fn read_parentheses<'a>(
    alloc: Global,
    parts: &mut Vec<Part>,
    depth: usize,
    scope: Scope,
    tokens: &'a [PlacedToken],
) -> Result<(Part, &'a [PlacedToken]), Unread>
    requires { IsTrue (are_parts_after [] parts.old.items) }
    ensures meaning { Parses
        (λ x. (node_of (nodes_of parts.new.items) x.0, lexemes x.1.now)) result
        (in_parentheses (deeper depth) scope (lexemes tokens.now)) }
    ensures part { IfOk result (λ x. IsTrue (is_part parts.new.items x.0)) }
    ensures grown { OnOk result (PartsGrow parts.old.items parts.new.items) }
    ensures shorter { IfOk result (λ x. length x.1.now < length tokens.now) }
{
    let begun = expect_mark('(', tokens)?;
    let (part, rest) = read_deeper(alloc, parts, depth, scope, LOOSEST, begun)?;
    let rest = expect_mark(')', rest)?;
    Ok((part, rest))
}

// What is after parentheses: `is unknown` after a test, or accessors.
#[cycle(grammar)]
#[tactic(auto, using(crate::proofs::GrammarLaws::grammar, crate::proofs::ReadLaws::reading))]
fn read_after_parentheses<'a>(
    alloc: Global,
    parts: &mut Vec<Part>,
    depth: usize,
    scope: Scope,
    part: Part,
    tokens: &'a [PlacedToken],
) -> Result<(Part, &'a [PlacedToken]), Unread>
    requires parts { IsTrue (are_parts_after [] parts.old.items) }
    requires part { IsTrue (is_part parts.old.items part) }
    ensures meaning { Parses
        (λ x. (node_of (nodes_of parts.new.items) x.0, lexemes x.1.now)) result
        (after_parentheses (deeper depth) scope
        (node_of (nodes_of parts.old.items) part, lexemes tokens.now)) }
    ensures part { IfOk result (λ x. IsTrue (is_part parts.new.items x.0)) }
    ensures grown { OnOk result (PartsGrow parts.old.items parts.new.items) }
    ensures shorter { IfOk result (λ x. length x.1.now ≤ length tokens.now) }
{
    match (unknown_after(tokens), &part) {
        (Some(rest), Part::Test(_)) => {
            let test = push_operand(parts, true, part, tokens)?;
            Ok((Part::Test(Test::IsUnknown(test)), rest))
        }
        _ => read_accessors(alloc, parts, depth, scope, part, tokens),
    }
}

// What may stand after `!`: a test in parentheses, or `exists`.
#[cycle(grammar)]
#[tactic(auto, using(crate::proofs::GrammarLaws::grammar, crate::proofs::ReadLaws::reading), unfolding(crate::specs::Grammar::closed_test))]
fn read_closed<'a>(
    alloc: Global,
    parts: &mut Vec<Part>,
    depth: usize,
    scope: Scope,
    tokens: &'a [PlacedToken],
) -> Result<(Part, &'a [PlacedToken]), Unread>
    requires { IsTrue (are_parts_after [] parts.old.items) }
    ensures meaning { Parses
        (λ x. (node_of (nodes_of parts.new.items) x.0, lexemes x.1.now)) result
        (closed_test (deeper depth) scope (lexemes tokens.now)) }
    ensures part { IfOk result (λ x. IsTrue (is_part parts.new.items x.0)) }
    ensures grown { OnOk result (PartsGrow parts.old.items parts.new.items) }
    ensures shorter { IfOk result (λ x. length x.1.now < length tokens.now) }
{
    match after_word("exists", tokens) {
        Some(rest) => read_exists(alloc, parts, depth, scope, rest),
        None => read_parentheses(alloc, parts, depth, scope, tokens),
    }
}

// What is after `exists`.
#[cycle(grammar)]
#[tactic(auto, using(crate::proofs::GrammarLaws::grammar, crate::proofs::ReadLaws::reading), unfolding(crate::specs::Grammar::exists_at))]
fn read_exists<'a>(
    alloc: Global,
    parts: &mut Vec<Part>,
    depth: usize,
    scope: Scope,
    tokens: &'a [PlacedToken],
) -> Result<(Part, &'a [PlacedToken]), Unread>
    requires { IsTrue (are_parts_after [] parts.old.items) }
    ensures meaning { Parses
        (λ x. (node_of (nodes_of parts.new.items) x.0, lexemes x.1.now)) result
        (exists_at (deeper depth) scope (lexemes tokens.now)) }
    ensures part { IfOk result (λ x. IsTrue (is_part parts.new.items x.0)) }
    ensures grown { OnOk result (PartsGrow parts.old.items parts.new.items) }
    ensures shorter { IfOk result (λ x. length x.1.now < length tokens.now) }
{
    let (operand, rest) = read_parentheses(alloc, parts, depth, scope, tokens)?;
    let operand = push_operand(parts, false, operand, rest)?;
    Ok((Part::Test(Test::Exists(operand)), rest))
}

// What is after a sign.
#[cycle(grammar)]
#[tactic(auto, using(crate::proofs::GrammarLaws::grammar, crate::proofs::ReadLaws::reading), unfolding(crate::specs::Grammar::signed_at))]
fn read_signed<'a>(
    alloc: Global,
    parts: &mut Vec<Part>,
    depth: usize,
    scope: Scope,
    sign: Sign,
    tokens: &'a [PlacedToken],
) -> Result<(Part, &'a [PlacedToken]), Unread>
    requires { IsTrue (are_parts_after [] parts.old.items) }
    ensures meaning { Parses
        (λ x. (node_of (nodes_of parts.new.items) x.0, lexemes x.1.now)) result
        (signed_at (deeper depth) scope sign (lexemes tokens.now)) }
    ensures part { IfOk result (λ x. IsTrue (is_part parts.new.items x.0)) }
    ensures grown { OnOk result (PartsGrow parts.old.items parts.new.items) }
    ensures shorter { IfOk result (λ x. length x.1.now < length tokens.now) }
{
    let (operand, rest) = read_deeper(alloc, parts, depth, scope, 0, tokens)?;
    Ok((with_sign(alloc, parts, sign, operand, rest)?, rest))
}

// A value and its accessors.
#[cycle(grammar)]
#[tactic(auto, using(crate::proofs::GrammarLaws::grammar, crate::proofs::ReadLaws::reading), unfolding(crate::specs::Grammar::chain_at))]
fn read_chain<'a>(
    alloc: Global,
    parts: &mut Vec<Part>,
    depth: usize,
    scope: Scope,
    tokens: &'a [PlacedToken],
) -> Result<(Part, &'a [PlacedToken]), Unread>
    requires { IsTrue (are_parts_after [] parts.old.items) }
    ensures meaning { Parses
        (λ x. (node_of (nodes_of parts.new.items) x.0, lexemes x.1.now)) result
        (chain_at (deeper depth) scope (lexemes tokens.now)) }
    ensures part { IfOk result (λ x. IsTrue (is_part parts.new.items x.0)) }
    ensures grown { OnOk result (PartsGrow parts.old.items parts.new.items) }
    ensures shorter { IfOk result (λ x. length x.1.now < length tokens.now) }
{
    let (source, rest) = read_primary(alloc, scope, tokens)?;
    read_accessors(alloc, parts, depth, scope, alone(alloc, source), rest)
}

// All accessors after what was read.
#[cycle(grammar)]
#[tactic(auto, using(crate::proofs::GrammarLaws::grammar, crate::proofs::ReadLaws::reading))]
fn read_accessors<'a>(
    alloc: Global,
    parts: &mut Vec<Part>,
    depth: usize,
    scope: Scope,
    part: Part,
    tokens: &'a [PlacedToken],
) -> Result<(Part, &'a [PlacedToken]), Unread>
    requires parts { IsTrue (are_parts_after [] parts.old.items) }
    requires part { IsTrue (is_part parts.old.items part) }
    ensures meaning { Parses
        (λ x. (node_of (nodes_of parts.new.items) x.0, lexemes x.1.now)) result
        (all_accessors (deeper depth) scope
        (node_of (nodes_of parts.old.items) part, lexemes tokens.now)) }
    ensures part { IfOk result (λ x. IsTrue (is_part parts.new.items x.0)) }
    ensures grown { OnOk result (PartsGrow parts.old.items parts.new.items) }
    ensures shorter { IfOk result (λ x. length x.1.now ≤ length tokens.now) }
{
    let mut part = part;
    let mut left = tokens;
    'accessors: while begins_accessor(left) {
        let (accessor, rest) = read_accessor(alloc, parts, depth, scope, left)?;
        part = with_accessor(alloc, parts, part, accessor)?;
        left = rest;
    }
    Ok((part, left))
}

// An accessor: after `.`, `[` or `?`.
#[cycle(grammar)]
#[tactic(auto, using(crate::proofs::GrammarLaws::grammar, crate::proofs::ReadLaws::reading), unfolding(crate::specs::Grammar::accessor_at))]
fn read_accessor<'a>(
    alloc: Global,
    parts: &mut Vec<Part>,
    depth: usize,
    scope: Scope,
    tokens: &'a [PlacedToken],
) -> Result<(Accessor, &'a [PlacedToken]), Unread>
    requires { IsTrue (are_parts_after [] parts.old.items) }
    ensures meaning { Parses
        (λ x. (accessor_of (nodes_of parts.new.items) x.0, lexemes x.1.now)) result
        (accessor_at (deeper depth) scope (lexemes tokens.now)) }
    ensures accessor { IfOk result (λ x. IsTrue (is_accessor parts.new.items x.0)) }
    ensures grown { OnOk result (PartsGrow parts.old.items parts.new.items) }
    ensures shorter { IfOk result (λ x. length x.1.now < length tokens.now) }
{
    let [first, rest @ ..] = tokens else {
        return Err(unexpected(tokens, Expected::End));
    };
    match &first.token {
        Token::Mark('.') => read_step(parts, rest),
        Token::Mark('[') => read_bracketed(alloc, parts, depth, scope, rest),
        Token::Mark('?') => read_filter(alloc, parts, depth, scope, rest),
        _ => Err(unexpected(tokens, Expected::End)),
    }
}

// What is after `?`.
#[cycle(grammar)]
#[tactic(auto, using(crate::proofs::GrammarLaws::grammar, crate::proofs::ReadLaws::reading), unfolding(crate::specs::Grammar::filtered))]
fn read_filter<'a>(
    alloc: Global,
    parts: &mut Vec<Part>,
    depth: usize,
    scope: Scope,
    tokens: &'a [PlacedToken],
) -> Result<(Accessor, &'a [PlacedToken]), Unread>
    requires { IsTrue (are_parts_after [] parts.old.items) }
    ensures meaning { Parses
        (λ x. (accessor_of (nodes_of parts.new.items) x.0, lexemes x.1.now)) result
        (filtered (deeper depth) scope (lexemes tokens.now)) }
    ensures accessor { IfOk result (λ x. IsTrue (is_accessor parts.new.items x.0)) }
    ensures grown { OnOk result (PartsGrow parts.old.items parts.new.items) }
    ensures shorter { IfOk result (λ x. length x.1.now < length tokens.now) }
{
    let (test, rest) = read_parentheses(alloc, parts, depth, scope.within_filter(), tokens)?;
    let test = push_operand(parts, true, test, rest)?;
    Ok((Accessor::Filter(test), rest))
}

// What is after `[`: `*`, or subscripts.
#[cycle(grammar)]
#[tactic(auto, using(crate::proofs::GrammarLaws::grammar, crate::proofs::ReadLaws::reading))]
fn read_bracketed<'a>(
    alloc: Global,
    parts: &mut Vec<Part>,
    depth: usize,
    scope: Scope,
    tokens: &'a [PlacedToken],
) -> Result<(Accessor, &'a [PlacedToken]), Unread>
    requires { IsTrue (are_parts_after [] parts.old.items) }
    ensures meaning { Parses
        (λ x. (accessor_of (nodes_of parts.new.items) x.0, lexemes x.1.now)) result
        (bracketed (deeper depth) scope (lexemes tokens.now)) }
    ensures accessor { IfOk result (λ x. IsTrue (is_accessor parts.new.items x.0)) }
    ensures grown { OnOk result (PartsGrow parts.old.items parts.new.items) }
    ensures shorter { IfOk result (λ x. length x.1.now < length tokens.now) }
{
    match after_mark('*', tokens) {
        Some(rest) => Ok((Accessor::AllItems, expect_mark(']', rest)?)),
        None => read_items(alloc, parts, depth, scope, tokens),
    }
}

// Subscripts, at least one.
#[cycle(grammar)]
#[tactic(auto, using(crate::proofs::GrammarLaws::grammar, crate::proofs::ReadLaws::reading), unfolding(crate::specs::Grammar::items_within))]
fn read_items<'a>(
    alloc: Global,
    parts: &mut Vec<Part>,
    depth: usize,
    scope: Scope,
    tokens: &'a [PlacedToken],
) -> Result<(Accessor, &'a [PlacedToken]), Unread>
    requires { IsTrue (are_parts_after [] parts.old.items) }
    ensures meaning { Parses
        (λ x. (accessor_of (nodes_of parts.new.items) x.0, lexemes x.1.now)) result
        (items_within (deeper depth) scope (lexemes tokens.now)) }
    ensures accessor { IfOk result (λ x. IsTrue (is_accessor parts.new.items x.0)) }
    ensures grown { OnOk result (PartsGrow parts.old.items parts.new.items) }
    ensures shorter { IfOk result (λ x. length x.1.now < length tokens.now) }
{
    let (first, rest) = read_subscript(alloc, parts, depth, scope, tokens)?;
    let mut subscripts = Vec::new(alloc);
    subscripts.push(first)?;
    let mut left = rest;
    'subscripts: while let Some(begun) = after_mark(',', left) {
        let (subscript, rest) = read_subscript(alloc, parts, depth, scope, begun)?;
        subscripts.push(subscript)?;
        left = rest;
    }
    let rest = expect_mark(']', left)?;
    Ok((Accessor::Items(subscripts), rest))
}

// A subscript: an index, or a first and a last one.
#[cycle(grammar)]
#[tactic(auto, using(crate::proofs::GrammarLaws::grammar, crate::proofs::ReadLaws::reading), unfolding(crate::specs::Grammar::subscript_at))]
fn read_subscript<'a>(
    alloc: Global,
    parts: &mut Vec<Part>,
    depth: usize,
    scope: Scope,
    tokens: &'a [PlacedToken],
) -> Result<(Subscript, &'a [PlacedToken]), Unread>
    requires { IsTrue (are_parts_after [] parts.old.items) }
    ensures meaning { Parses
        (λ x. (subscripts_of (nodes_of parts.new.items) (x.0 ∷ []), lexemes x.1.now)) result
        (subscript_at (deeper depth) scope (lexemes tokens.now)) }
    ensures subscript { IfOk result (λ x. IsTrue (is_subscript parts.new.items x.0)) }
    ensures grown { OnOk result (PartsGrow parts.old.items parts.new.items) }
    ensures shorter { IfOk result (λ x. length x.1.now < length tokens.now) }
{
    let (first, rest) = read_index(alloc, parts, depth, scope, tokens)?;
    match after_word("to", rest) {
        Some(begun) => {
            let (last, rest) = read_index(alloc, parts, depth, scope, begun)?;
            let subscript = Subscript {
                first,
                last: Some(last),
            };
            Ok((subscript, rest))
        }
        None => Ok((Subscript { first, last: None }, rest)),
    }
}

// An index of a subscript.
#[cycle(grammar)]
#[tactic(auto, using(crate::proofs::GrammarLaws::grammar, crate::proofs::ReadLaws::reading), unfolding(crate::specs::Grammar::index_at))]
fn read_index<'a>(
    alloc: Global,
    parts: &mut Vec<Part>,
    depth: usize,
    scope: Scope,
    tokens: &'a [PlacedToken],
) -> Result<(usize, &'a [PlacedToken]), Unread>
    requires { IsTrue (are_parts_after [] parts.old.items) }
    ensures meaning { Parses
        (λ x. (expression_at (nodes_of parts.new.items) x.0, lexemes x.1.now)) result
        (index_at (deeper depth) scope (lexemes tokens.now)) }
    ensures index { IfOk result (λ x. IsTrue (is_expression parts.new.items x.0)) }
    ensures grown { OnOk result (PartsGrow parts.old.items parts.new.items) }
    ensures shorter { IfOk result (λ x. length x.1.now < length tokens.now) }
{
    let inner = scope.within_subscript();
    let (index, rest) = read_deeper(alloc, parts, depth, inner, LOOSEST, tokens)?;
    let index = push_operand(parts, false, index, rest)?;
    Ok((index, rest))
}

// What is after `.`, which names no part.
#[tactic(auto, using(crate::proofs::GrammarLaws::grammar))]
fn read_step<'a>(
    parts: &Vec<Part>,
    tokens: &'a [PlacedToken],
) -> Result<(Accessor, &'a [PlacedToken]), Unread>
    requires { IsTrue (are_parts_after [] parts.now.items) }
    ensures meaning { Parses
        (λ x. (accessor_of (nodes_of parts.now.items) x.0, lexemes x.1.now)) result
        (dotted (lexemes tokens.now)) }
    ensures accessor { IfOk result (λ x. IsTrue (is_accessor parts.now.items x.0)) }
    ensures shorter { IfOk result (λ x. length x.1.now < length tokens.now) }
{
    let (accessor, rest) = read_dotted(tokens)?;
    Ok((accessor, rest))
}

// Whether an accessor begins: `.`, `[` or `?`.
fn begins_accessor(tokens: &[PlacedToken]) -> bool
    ensures { result ≡ begins_accessor (lexemes tokens.now) }
{
    match tokens {
        [first, ..] => matches!(first.token, Token::Mark('.' | '[' | '?')),
        [] => false,
    }
}

// What is after `is unknown`.
fn unknown_after(tokens: &[PlacedToken]) -> Option<&[PlacedToken]>
    ensures meaning { option_map (λ rest. lexemes rest.now) result
        ≡ unknown_after (lexemes tokens.now) }
    ensures shorter { IfSome result (λ rest. length rest.now < length tokens.now) }
{
    after_word("unknown", after_word("is", tokens)?)
}
