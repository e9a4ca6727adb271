//! The least type of columns that holds the members of all rows.

ghost use Rattle.std.specs.Prelude.{◌≡◌, ◌↔◌, All, IsTrue, option_map};
ghost use Rattle.jsonb_typed.specs.Words.{HoldsNoScalar, IsFirstHeld, IsHeldAt, IsHeldIn};
ghost use Rattle.jsonb_typed.specs.Words.{IsValueOf, member_scale, node_tree, rows_scale};
ghost use Rattle.jsonb_typed.specs.Words.{types_in_order};

use crate::keeping::opened;
use crate::member::member_of;
use crate::numbers::{Fit, scale_of};
use crate::scalar::{ScalarType, is_scalar};
use jsonb::{Document, Node};
use jsonb_functions::Step;

/// A type of columns, or that none holds all members.
#[derive(Clone, Copy, Debug, PartialEq, Eq)]
pub enum LeastType {
    /// Each member is null.
    Nothing,
    /// Each member that is not null is a value of this type.
    Of(ScalarType),
    /// No type above holds all members.
    Mixed,
}

/// The first of these types that holds the member of each row at the end of a path, where it has
/// one that is not null: nothing, booleans, 64 bits with a sign and without, decimals of the
/// greatest scale, texts, dates, timestamps, those with a zone, intervals, binary values. A column
/// of it keeps no document but `null`. `Mixed` if none does. It takes a pass for the scale, and one
/// for each type up to the first member that does not fit.
pub fn least_type(rows: &[Document<'_>], path: &[Step<'_>], fit: Fit) -> LeastType
    ensures { IsFirstHeld fit path.now rows.now
        (types_in_order (rows_scale path.now rows.now)) result }
{
    let candidates = [
        LeastType::Nothing,
        LeastType::Of(ScalarType::Boolean),
        LeastType::Of(ScalarType::Int64),
        LeastType::Of(ScalarType::UInt64),
        LeastType::Of(ScalarType::Decimal(greatest_scale(rows, path))),
        LeastType::Of(ScalarType::Text),
        LeastType::Of(ScalarType::Date),
        LeastType::Of(ScalarType::Timestamp),
        LeastType::Of(ScalarType::ZonedTimestamp),
        LeastType::Of(ScalarType::Interval),
        LeastType::Of(ScalarType::Binary),
    ];
    first_held(rows, path, fit, &candidates)
}

// The first of the candidates that holds all members.
#[tactic(auto, using(crate::proofs::LeastLaws::first_later))]
fn first_held(
    rows: &[Document<'_>],
    path: &[Step<'_>],
    fit: Fit,
    candidates: &[LeastType],
) -> LeastType
    ensures { IsFirstHeld fit path.now rows.now candidates.now result }
{
    let mut left = candidates;
    while let [candidate, later @ ..] = left {
        if holds_all(rows, path, fit, *candidate) {
            return *candidate;
        }
        left = later;
    }
    LeastType::Mixed
}

/// Whether a type holds the member of each row at the end of a path, where it has one that is not
/// null.
pub fn holds_all(rows: &[Document<'_>], path: &[Step<'_>], fit: Fit, candidate: LeastType) -> bool
    ensures { IsTrue result ↔ All (IsHeldAt fit candidate path.now) rows.now }
{
    for row in rows {
        if !is_held(member_of(*row, path), fit, candidate) {
            return false;
        }
    }
    true
}

// The most digits that a number among the members has after its point.
fn greatest_scale(rows: &[Document<'_>], path: &[Step<'_>]) -> u8
    ensures { result ≡ rows_scale path.now rows.now }
{
    let mut greatest = 0;
    for row in rows {
        greatest = greatest.max(member_scale(member_of(*row, path)));
    }
    greatest
}

// How many digits a member has after its point; 0 if it is no number.
fn member_scale(member: Option<Node<'_>>) -> u8
    ensures { result ≡ member_scale (option_map node_tree member.entry) }
{
    let Some(member) = member else {
        return 0;
    };
    match opened(member) {
        Node::Number(item) => scale_of(item.as_number()),
        _ => 0,
    }
}

// Whether a type holds a member, or there is none, or it is null.
fn is_held(member: Option<Node<'_>>, fit: Fit, candidate: LeastType) -> bool
    ensures { IsTrue result ↔ IsHeldIn fit candidate (option_map node_tree member.entry) }
{
    let Some(member) = member else {
        return true;
    };
    match opened(member) {
        Node::Null => true,
        value => is_value_of(value, fit, candidate),
    }
}

// Whether a member is a value of a type.
fn is_value_of(member: Node<'_>, fit: Fit, candidate: LeastType) -> bool
    requires { HoldsNoScalar member }
    ensures { IsTrue result ↔ IsValueOf fit candidate (node_tree member.entry) }
{
    match candidate {
        LeastType::Nothing => false,
        LeastType::Of(of) => is_scalar(member, of, fit),
        LeastType::Mixed => true,
    }
}
