//! How two values compare in a path, and the three truths.

ghost use Rattle.std.specs.Prelude.{◌≡◌};
ghost use Rattle.jsonb.specs.Node.{HoldsNoScalar, node_tree};
ghost use Rattle.jsonb_path.specs.Comparison.{both, comparand, comparand_of, compares, either};
ghost use Rattle.jsonb_path.specs.Comparison.{holds, negation, starts_with, truth_of, unknown};

use jsonb::Node;
use jsonb_value::Number;
use std::cmp::Ordering;

/// The truth of a test.
#[derive(Clone, Copy, Debug, PartialEq, Eq)]
pub enum Truth {
    True,
    False,
    Unknown,
}

impl Truth {
    /// `True` or `False`.
    pub fn of(holds: bool) -> Truth
        ensures { result ≡ truth_of holds }
    {
        if holds { Truth::True } else { Truth::False }
    }

    /// `False` if either is, and otherwise `Unknown` if either is.
    pub fn and(self, other: Truth) -> Truth
        ensures { result ≡ both self other }
    {
        match (self, other) {
            (Truth::False, _) | (_, Truth::False) => Truth::False,
            (Truth::True, Truth::True) => Truth::True,
            _ => Truth::Unknown,
        }
    }

    /// `True` if either is, and otherwise `Unknown` if either is.
    pub fn or(self, other: Truth) -> Truth
        ensures { result ≡ either self other }
    {
        match (self, other) {
            (Truth::True, _) | (_, Truth::True) => Truth::True,
            (Truth::False, Truth::False) => Truth::False,
            _ => Truth::Unknown,
        }
    }

    /// `True` for `False` and `False` for `True`; `Unknown` stays.
    pub fn not(self) -> Truth
        ensures { result ≡ negation self }
    {
        match self {
            Truth::True => Truth::False,
            Truth::False => Truth::True,
            Truth::Unknown => Truth::Unknown,
        }
    }

    /// Whether it is `Unknown`: `True` or `False`.
    pub fn is_unknown(self) -> Truth
        ensures { result ≡ unknown self }
    {
        Truth::of(matches!(self, Truth::Unknown))
    }
}

/// How two values are to compare.
#[derive(Clone, Copy, Debug, PartialEq, Eq)]
pub enum Comparison {
    Equal,
    NotEqual,
    Less,
    LessOrEqual,
    Greater,
    GreaterOrEqual,
}

impl Comparison {
    /// Whether values in this order compare so.
    pub fn holds(self, order: Ordering) -> bool
        ensures { result ≡ holds self order }
    {
        match self {
            Comparison::Equal => order.is_eq(),
            Comparison::NotEqual => order.is_ne(),
            Comparison::Less => order.is_lt(),
            Comparison::LessOrEqual => order.is_le(),
            Comparison::Greater => order.is_gt(),
            Comparison::GreaterOrEqual => order.is_ge(),
        }
    }
}

/// A value as comparisons see it.
#[derive(Clone, Copy, Debug)]
pub enum Scalar<'a> {
    Null,
    Bool(bool),
    Number(Number),
    Text(&'a str),
    /// An array, an object or an extension value.
    Other,
}

impl<'a> Scalar<'a> {
    /// The value as comparisons see it.
    pub fn of(node: Node<'a>) -> Scalar<'a>
        ensures { comparand result ≡ comparand_of (node_tree node.entry) }
    {
        match node {
            Node::Container(document) => Scalar::of_opened(document.value()),
            node => Scalar::of_opened(node),
        }
    }

    // The same, where a container is known to hold an array or object and not a scalar.
    fn of_opened(node: Node<'a>) -> Scalar<'a>
        requires { HoldsNoScalar node }
        ensures { comparand result ≡ comparand_of (node_tree node.entry) }
    {
        match node {
            Node::Null => Scalar::Null,
            Node::Boolean(value) => Scalar::Bool(value),
            Node::Number(item) => Scalar::Number(item.as_number()),
            Node::String(text) => Scalar::Text(text),
            Node::Extension(_) | Node::Container(_) => Scalar::Other,
        }
    }
}

/// Compares two values: booleans with booleans, where false is less, numbers with numbers by value,
/// and texts with texts by code points. Null equals null and nothing else. Other kinds do not
/// compare: `Unknown`, also of an array with itself.
pub fn compare(comparison: Comparison, left: Scalar<'_>, right: Scalar<'_>) -> Truth
    ensures { result ≡ compares comparison (comparand left.entry) (comparand right.entry) }
{
    match (left, right) {
        (Scalar::Null, Scalar::Null) => Truth::of(comparison.holds(Ordering::Equal)),
        (Scalar::Null, _) | (_, Scalar::Null) => {
            Truth::of(matches!(comparison, Comparison::NotEqual))
        }
        (Scalar::Bool(left), Scalar::Bool(right)) => Truth::of(comparison.holds(left.cmp(&right))),
        (Scalar::Number(left), Scalar::Number(right)) => {
            Truth::of(comparison.holds(left.cmp_value(&right)))
        }
        (Scalar::Text(left), Scalar::Text(right)) => Truth::of(comparison.holds(left.cmp(right))),
        _ => Truth::Unknown,
    }
}

/// Whether one text starts with the other. `Unknown` if either value is no text.
pub fn starts_with(left: Scalar<'_>, right: Scalar<'_>) -> Truth
    ensures { result ≡ starts_with (comparand left.entry) (comparand right.entry) }
{
    match (left, right) {
        (Scalar::Text(left), Scalar::Text(right)) => {
            Truth::of(left.as_bytes().starts_with(right.as_bytes()))
        }
        _ => Truth::Unknown,
    }
}
