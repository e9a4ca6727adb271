//! Conditions on values, by which paths leave out values.

ghost use Rattle.std.specs.Prelude.{◌≡◌, ◌<◌, ◌-◌, ◌^◌};
ghost use Rattle.jsonb_functions.specs.Filter.{before_and, before_close, before_or, leads, verdict};
ghost use Rattle.jsonb_functions.specs.Words.{after_open, after_term, compares, holds, node_tree};
ghost use Rattle.jsonb_functions.specs.Words.{passes, verdict_of};

use crate::found::node_at;
use crate::path::Step;
use jsonb::Node;
use std::cmp::Ordering;

/// How a value is to compare with another one.
#[derive(Clone, Copy, Debug)]
pub enum Comparison {
    Equal,
    NotEqual,
    Less,
    LessOrEqual,
    Greater,
    GreaterOrEqual,
}

/// A test of a value: the value at the end of the path from it compares so with this one, by the
/// order of documents. It fails if the path leads nowhere. The value to compare with is that of a
/// document, by `Document::value`, or any other `Node`.
#[derive(Debug, Drop)]
pub struct Test<'a> {
    pub path: Vec<Step<'a>>,
    pub comparison: Comparison,
    pub value: Node<'a>,
}

/// A part of a condition as it is written: a test, `exists(..)` or `!exists(..)` with the path from
/// the value, `&&`, `||`, `(`, `!(` or `)`.
#[derive(Debug, Drop)]
pub enum Term<'a> {
    Test(Test<'a>),
    Exists(Vec<Step<'a>>),
    NotExists(Vec<Step<'a>>),
    And,
    Or,
    Open,
    OpenNot,
    Close,
}

/// A condition on a value, by its terms from left to right, as in `[Test, And, OpenNot, Test, Or,
/// Test, Close]`. `&&` binds more than `||`, and `!(` turns what is up to its `)`. A test passes or
/// fails, and a path leads to a value or nowhere, so exactly one of a condition and its turned one
/// holds.
#[derive(Debug, Drop)]
pub struct Condition<'a> {
    pub terms: Vec<Term<'a>>,
}

/// What a condition comes to, read from its end: whether the terms so far hold, and whether those
/// before them are passed over: not (0), or those of this group (1), or of so many groups within
/// one another (2 and more).
#[derive(Clone, Copy)]
pub struct Verdict {
    pub holds: bool,
    pub passing: usize,
}

/// Whether a condition on a value holds.
pub fn holds(node: Node<'_>, condition: &Condition<'_>) -> bool
    ensures { result ≡ holds condition.now (node_tree node.entry) }
{
    verdict_of(node, &condition.terms).holds
}

// What terms come to.
fn verdict_of(node: Node<'_>, terms: &[Term<'_>]) -> Verdict
    ensures { result ≡ verdict_of (node_tree node.entry) terms.now }
{
    let mut verdict = Verdict {
        holds: false,
        passing: 0,
    };
    let mut left = terms;
    while let [rest @ .., term] = left {
        verdict = after_term(node, term, verdict);
        left = rest;
    }
    verdict
}

// What a condition comes to with one more term before those that were read.
fn after_term(node: Node<'_>, term: &Term<'_>, verdict: Verdict) -> Verdict
    requires { verdict.passing < 2 ^ 64 - 1 }
    ensures { result ≡ after_term (node_tree node.entry) term.now verdict }
{
    match term {
        Term::Test(test) => match verdict.passing {
            0 => verdict_by(passes(node, test)),
            _ => verdict,
        },
        Term::Exists(path) => match verdict.passing {
            0 => verdict_by(leads(node, path)),
            _ => verdict,
        },
        Term::NotExists(path) => match verdict.passing {
            0 => verdict_by(!leads(node, path)),
            _ => verdict,
        },
        Term::And => after_and(verdict),
        Term::Or => after_or(verdict),
        Term::Open => after_open(verdict, verdict.holds),
        Term::OpenNot => after_open(verdict, !verdict.holds),
        Term::Close => after_close(verdict),
    }
}

// What a condition comes to by a value of its own.
fn verdict_by(value: bool) -> Verdict
    ensures { result ≡ verdict value 0 }
{
    Verdict {
        holds: value,
        passing: 0,
    }
}

// What a condition comes to before an `&&`.
fn after_and(verdict: Verdict) -> Verdict
    ensures { result ≡ before_and verdict.holds verdict.passing }
{
    match (verdict.passing, verdict.holds) {
        (0, false) => Verdict {
            holds: false,
            passing: 1,
        },
        _ => verdict,
    }
}

// What a condition comes to before an `||`.
fn after_or(verdict: Verdict) -> Verdict
    ensures { result ≡ before_or verdict.holds verdict.passing }
{
    match (verdict.passing, verdict.holds) {
        (0, true) => Verdict {
            holds: true,
            passing: 1,
        },
        (1, false) => Verdict {
            holds: false,
            passing: 0,
        },
        _ => verdict,
    }
}

// What a condition comes to before the end of a group.
fn after_close(verdict: Verdict) -> Verdict
    requires { verdict.passing < 2 ^ 64 - 1 }
    ensures { result ≡ before_close verdict.holds verdict.passing }
{
    match verdict.passing {
        0 => verdict,
        deep => Verdict {
            holds: verdict.holds,
            passing: deep + 1,
        },
    }
}

// What a condition comes to before an open group, which comes to a value by itself.
fn after_open(verdict: Verdict, value: bool) -> Verdict
    ensures { result ≡ after_open verdict value }
{
    match verdict.passing {
        0 | 1 => Verdict {
            holds: value,
            passing: 0,
        },
        deep => Verdict {
            holds: verdict.holds,
            passing: deep - 1,
        },
    }
}

// Whether a value passes a test.
fn passes(node: Node<'_>, test: &Test<'_>) -> bool
    ensures { result ≡ passes test.now (node_tree node.entry) }
{
    match node_at(node, &test.path) {
        Some(found) => compares(test.comparison, found.cmp(&test.value)),
        None => false,
    }
}

// Whether a path leads from a value to one.
fn leads(node: Node<'_>, path: &[Step<'_>]) -> bool
    ensures { result ≡ leads path.now (node_tree node.entry) }
{
    node_at(node, path).is_some()
}

// Whether values in this order compare so.
fn compares(comparison: Comparison, order: Ordering) -> bool
    ensures { result ≡ compares comparison order }
{
    match comparison {
        Comparison::Equal => order.is_eq(),
        Comparison::NotEqual => order.is_ne(),
        Comparison::Less => order.is_lt(),
        Comparison::LessOrEqual => order.is_le(),
        Comparison::Greater => order.is_gt(),
        Comparison::GreaterOrEqual => order.is_ge(),
    }
}
