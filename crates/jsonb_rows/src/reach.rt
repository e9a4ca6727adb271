//! The steps of paths with wildcards, without filters.

ghost use Rattle.std.specs.Prelude.{◌≡◌};
ghost use Rattle.std.specs.List.{list_any};
ghost use Rattle.jsonb_rows.specs.Reach.{is_in_range, leads_to_item, leads_to_member};

use jsonb_functions::{Bound, count_before, count_through};

/// A step of a path with wildcards.
#[derive(Debug, Drop)]
pub enum Reach<'a> {
    /// To the member of a name.
    Key(&'a str),
    /// To each member of an object.
    AllMembers,
    /// To each item of an array.
    AllItems,
    /// To each item of an array that is in one of these ranges.
    Items(Vec<Range>),
}

/// The items from one to another, both included; one index is a range from it to itself.
#[derive(Clone, Copy, Debug)]
pub struct Range {
    pub first: Bound,
    pub last: Bound,
}

impl Reach<'_> {
    /// Whether the step leads to the item at an index of an array of so many.
    pub(crate) fn leads_to_item(&self, count: usize, index: usize) -> bool
        ensures { result ≡ leads_to_item self.now count index }
    {
        match self {
            Reach::Key(_) | Reach::AllMembers => false,
            Reach::AllItems => true,
            Reach::Items(ranges) => is_in_some(ranges, count, index),
        }
    }

    /// Whether the step leads to the member of a name.
    pub(crate) fn leads_to_member(&self, name: &str) -> bool
        ensures { result ≡ leads_to_member self.now name.now }
    {
        match self {
            Reach::Key(key) => *key == name,
            Reach::AllMembers => true,
            Reach::AllItems | Reach::Items(_) => false,
        }
    }
}

// Whether one of the ranges has the item at an index of so many.
fn is_in_some(ranges: &[Range], count: usize, index: usize) -> bool
    ensures { result ≡ list_any (λ range. is_in_range range count index) ranges.now }
{
    let mut left = ranges;
    while let [range, rest @ ..] = left {
        if is_in_range(*range, count, index) {
            return true;
        }
        left = rest;
    }
    false
}

// Whether a range has the item at an index of so many.
fn is_in_range(range: Range, count: usize, index: usize) -> bool
    ensures { result ≡ is_in_range range count index }
{
    count_before(range.first, count) <= index && index < count_through(range.last, count)
}
