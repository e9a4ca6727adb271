//! Where a change is made in a row.

use jsonb_functions::{Bound, Step};
use jsonb_path::{Accessor, Literal, Operator, Part, Path, Source, Subscript, steps_of};
use jsonb_rows::{Range, Reach};
use jsonb_value::Number;
use std::alloc::{AllocError, Global};

/// Where a change is made in a row: at the end of a path of keys and indexes alone, or at each
/// place to which a path with wildcards leads.
#[derive(Drop)]
pub enum Target<'a> {
    One(Vec<Step<'a>>),
    Each(Vec<Reach<'a>>),
}

/// The target of a path. `None` if the path has more than keys, indexes and wildcards.
pub fn target_of<'a>(alloc: Global, path: &'a Path) -> Result<Option<Target<'a>>, AllocError> {
    if let Some(steps) = steps_of(alloc, path)? {
        return Ok(Some(Target::One(steps)));
    }
    match reaches_of(alloc, path)? {
        Some(steps) => Ok(Some(Target::Each(steps))),
        None => Ok(None),
    }
}

/// The steps of a path of keys, indexes and wildcards alone. `None` of any other path.
pub fn reaches_of<'a>(alloc: Global, path: &'a Path) -> Result<Option<Vec<Reach<'a>>>, AllocError> {
    let parts = path.parts();
    let Some(Part::Chain(Source::Root, accessors)) = parts.last() else {
        return Ok(None);
    };
    let mut steps = Vec::with_capacity(alloc, accessors.len())?;
    for accessor in accessors {
        match reach_of(alloc, parts, accessor)? {
            Some(step) => steps.push(step)?,
            None => return Ok(None),
        }
    }
    Ok(Some(steps))
}

// The step of an accessor.
fn reach_of<'a>(
    alloc: Global,
    parts: &[Part],
    accessor: &'a Accessor,
) -> Result<Option<Reach<'a>>, AllocError> {
    match accessor {
        Accessor::Member(name) => Ok(Some(Reach::Key(name))),
        Accessor::AllMembers => Ok(Some(Reach::AllMembers)),
        Accessor::AllItems => Ok(Some(Reach::AllItems)),
        Accessor::Items(subscripts) => match ranges_of(alloc, parts, subscripts)? {
            Some(ranges) => Ok(Some(Reach::Items(ranges))),
            None => Ok(None),
        },
        _ => Ok(None),
    }
}

// The ranges of subscripts.
fn ranges_of(
    alloc: Global,
    parts: &[Part],
    subscripts: &[Subscript],
) -> Result<Option<Vec<Range>>, AllocError> {
    let mut ranges = Vec::with_capacity(alloc, subscripts.len())?;
    for subscript in subscripts {
        match range_of(parts, *subscript) {
            Some(range) => ranges.push(range)?,
            None => return Ok(None),
        }
    }
    Ok(Some(ranges))
}

// The range of a subscript.
fn range_of(parts: &[Part], subscript: Subscript) -> Option<Range> {
    let first = bound_at(parts, subscript.first)?;
    let last = match subscript.last {
        Some(last) => bound_at(parts, last)?,
        None => first,
    };
    Some(Range { first, last })
}

// The bound that the part at this index is.
fn bound_at(parts: &[Part], at: usize) -> Option<Bound> {
    match parts.get(at)? {
        Part::Arithmetic(operator, left, right) if is_last(parts, *left) => {
            let number = index_at(parts, *right)?;
            match operator {
                Operator::Subtract => Some(Bound::FromEnd(number)),
                Operator::Add if number == 1 => Some(Bound::End),
                _ => None,
            }
        }
        _ if is_last(parts, at) => Some(Bound::FromEnd(0)),
        _ => Some(Bound::FromStart(index_at(parts, at)?)),
    }
}

// Whether the part at this index is `last`.
fn is_last(parts: &[Part], at: usize) -> bool {
    match parts.get(at) {
        Some(Part::Chain(Source::Last, accessors)) => accessors.is_empty(),
        _ => false,
    }
}

// The whole number that the part at this index is.
fn index_at(parts: &[Part], at: usize) -> Option<usize> {
    match parts.get(at)? {
        Part::Chain(Source::Literal(Literal::Number(Number::UInt64(number))), accessors)
            if accessors.is_empty() => { Some(*number as usize) }
        _ => None,
    }
}
