//! Tests over what expressions give.

ghost use Rattle.std.specs.Prelude.{◌≡◌, map, option_map, option_to_list};
ghost use Rattle.jsonb.specs.Node.{node_tree};
ghost use Rattle.jsonb_path.specs.Comparison.{comparand};
ghost use Rattle.jsonb_path.specs.Found.{checked, checked_as, either_in, outcome_of, settles};
ghost use Rattle.jsonb_path.specs.Meaning.{gives, row, some_pair, some_passes, table};

use crate::compare::{Comparison, Scalar, Truth, compare, starts_with};
use crate::outcome::Outcome;
use crate::path::Mode;
use jsonb::Node;

// What two values are asked.
#[derive(Clone, Copy)]
pub(crate) enum Check {
    Compare(Comparison),
    StartsWith,
}

impl Check {
    fn ask(self, left: Scalar<'_>, right: Scalar<'_>) -> Truth
        ensures { result ≡ checked_as self (comparand left.entry) (comparand right.entry) }
    {
        match self {
            Check::Compare(comparison) => compare(comparison, left, right),
            Check::StartsWith => starts_with(left, right),
        }
    }
}

// Whether two values compare so, of which each may be missing.
#[tactic(auto, using(crate::proofs::DirectLaws::lone_pairs))]
pub(crate) fn compare_direct(
    comparison: Comparison,
    left: Option<Node<'_>>,
    right: Option<Node<'_>>,
) -> Truth
    ensures { (mode : Mode) → result ≡ some_pair mode (checked (Check.Compare comparison))
        (gives (option_to_list (option_map node_tree left.entry)))
        (gives (option_to_list (option_map node_tree right.entry))) }
{
    match (left, right) {
        (Some(left), Some(right)) => compare(comparison, Scalar::of(left), Scalar::of(right)),
        _ => Truth::False,
    }
}

// Whether some value of the left side passes with one of the right side.
pub(crate) fn some_pair(mode: Mode, check: Check, left: &Outcome<'_>, right: &Outcome<'_>) -> Truth
    ensures { result ≡ some_pair mode (checked check) (outcome_of left.now) (outcome_of right.now) }
{
    match (left.error, right.error) {
        (None, None) => some_passes(mode, check, &left.values, &right.values),
        (None, Some(_)) => Truth::Unknown,
        (Some(_), _) => Truth::Unknown,
    }
}

#[tactic(auto, using(crate::proofs::PairLaws::rows))]
fn some_passes(mode: Mode, check: Check, left: &[Node<'_>], right: &[Node<'_>]) -> Truth
    ensures { result ≡ some_passes mode
        (table (checked check) (map node_tree left.now) (map node_tree right.now)) }
{
    let mut truth = Truth::False;
    let mut rows = left;
    while let [value, rest @ ..] = rows {
        truth = either_in(mode, truth, passes_with(mode, check, *value, right));
        if settles(mode, truth) {
            return truth;
        }
        rows = rest;
    }
    truth
}

// Whether a value passes with one of the right side.
#[tactic(auto, using(crate::proofs::PairLaws::rows))]
fn passes_with(mode: Mode, check: Check, value: Node<'_>, right: &[Node<'_>]) -> Truth
    ensures { result ≡ some_passes mode
        (row (checked check (node_tree value.entry)) (map node_tree right.now)) }
{
    let scalar = Scalar::of(value);
    let mut truth = Truth::False;
    let mut left = right;
    while let [other, rest @ ..] = left {
        truth = either_in(mode, truth, check.ask(scalar, Scalar::of(*other)));
        if settles(mode, truth) {
            return truth;
        }
        left = rest;
    }
    truth
}

// Whether a pair of two lists passes, by what each says.
fn either_in(mode: Mode, first: Truth, second: Truth) -> Truth
    ensures { result ≡ either_in mode first second }
{
    match (mode, first, second) {
        (Mode::Lax, _, _) => first.or(second),
        (Mode::Strict, Truth::Unknown, _) => Truth::Unknown,
        (Mode::Strict, _, Truth::Unknown) => Truth::Unknown,
        (Mode::Strict, _, _) => first.or(second),
    }
}

// Whether this truth stays whatever pairs come after it.
fn settles(mode: Mode, truth: Truth) -> bool
    ensures { result ≡ settles mode truth }
{
    match mode {
        Mode::Lax => matches!(truth, Truth::True),
        Mode::Strict => matches!(truth, Truth::Unknown),
    }
}
