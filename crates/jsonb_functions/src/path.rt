//! Paths into documents.

ghost use Rattle.std.specs.Prelude.{◌≡◌, option_map};
ghost use Rattle.jsonb_functions.specs.Words.{is_next, item_place, position_view};

/// A step of a path: the value of a key, or an item of an array, counted from 0, from the start or
/// from the end: `FromEnd(0)` is the last item, and `End` is the place right after that.
#[derive(Clone, Copy, Debug)]
pub enum Step<'a> {
    Key(&'a str),
    Index(usize),
    FromEnd(usize),
    End,
}

/// Where a child is or would be: before which of those that are there, and whether it is one of
/// them.
#[derive(Clone, Copy, Debug)]
pub struct Position {
    pub before: usize,
    pub is_there: bool,
}

/// Whether a step leads to right after the last of so many items: `End` does, and so does their
/// number as an index.
#[inline(always)]
pub fn is_next(step: Step<'_>, count: usize) -> bool
    ensures { result ≡ is_next step.entry count }
{
    match step {
        Step::Index(index) => index == count,
        Step::End => true,
        _ => false,
    }
}

/// The position of an item among so many. An index past the last is there after all items, and one
/// before the first before them. `None` for a key.
pub fn item_position(step: Step<'_>, count: usize) -> Option<Position>
    ensures { option_map position_view result ≡ item_place step.entry count }
{
    match step {
        Step::Key(_) => None,
        Step::Index(index) => Some(Position {
            before: index.min(count),
            is_there: index < count,
        }),
        Step::FromEnd(index) => Some(Position {
            before: count.saturating_sub(index.saturating_add(1)),
            is_there: index < count,
        }),
        Step::End => Some(Position {
            before: count,
            is_there: false,
        }),
    }
}
