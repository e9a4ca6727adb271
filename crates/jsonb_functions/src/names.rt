//! Paths that are given as names.

ghost use Rattle.std.specs.Prelude.{◌≡◌, IfErr, IfOk, Some, map, option_map, string_bytes};
ghost use Rattle.jsonb_functions.specs.Found.{child_at, if_there};
ghost use Rattle.jsonb_functions.specs.NamedSteps.{end_or_key, index_in, index_or_key, item_step};
ghost use Rattle.jsonb_functions.specs.NamedSteps.{step_by, steps_by};
ghost use Rattle.jsonb_functions.specs.Words.{document_tree, node_tree, step_view};

use crate::digits::read_number;
use crate::found::child_of;
use crate::path::Step;
use jsonb::{Document, Error, Node};
use std::alloc::Global;

/// The steps that names are in a document, from its whole value on. A name is a key, but in an
/// array `0`, and other digits that do not begin with `0`, are an index, `-1` is the last item, and
/// `-` is past it. An index past 64 bits is the greatest of 64 bits. Any other name is a key there
/// too, and so is each name after one that leads nowhere. `OutOfMemory`, the only error, if an
/// allocation fails.
pub fn steps_of_names<'a>(
    alloc: Global,
    document: Document<'_>,
    names: &'a [String],
) -> Result<Vec<Step<'a>>, Error>
    ensures ok { IfOk result (λ steps. map step_view steps.items
        ≡ steps_by (map string_bytes names.now) (Some (document_tree document.entry))) }
    ensures memory { IfErr result (λ e. e ≡ Error.OutOfMemory) }
{
    let mut steps = Vec::with_capacity(alloc, names.len())?;
    let mut place = Some(document.value());
    for name in names {
        let step = step_at(place, name);
        steps.push(step)?;
        place = next_place(place, step);
    }
    Ok(steps)
}

// What a step leads to from a place.
fn next_place<'a>(place: Option<Node<'a>>, step: Step<'_>) -> Option<Node<'a>>
    ensures { option_map node_tree result
        ≡ if_there (option_map node_tree place.entry) (child_at step.entry) }
{
    match place {
        Some(node) => child_of(node, step),
        None => None,
    }
}

// The step that a name is at a place.
fn step_at<'a>(place: Option<Node<'_>>, name: &'a str) -> Step<'a>
    ensures { step_view result ≡ step_by name.now (option_map node_tree place.entry) }
{
    match place {
        Some(node) => step_in(node, name),
        None => Step::Key(name),
    }
}

// The step that a name is in a value.
fn step_in<'a>(node: Node<'_>, name: &'a str) -> Step<'a>
    ensures { step_view result ≡ step_by name.now (Some (node_tree node.entry)) }
{
    let Node::Container(document) = node else {
        return Step::Key(name);
    };
    match document.items() {
        Some(_) => item_step(name),
        None => Step::Key(name),
    }
}

// The step that a name is in an array.
fn item_step<'a>(name: &'a str) -> Step<'a>
    ensures { step_view result ≡ item_step name.now }
{
    match name.as_bytes() {
        [b'-'] => Step::End,
        [b'-', digits @ ..] => end_or_key(name, read_index(digits)),
        digits => index_or_key(name, read_index(digits)),
    }
}

// The step to the item of an index, if there is one, and otherwise to a key.
fn index_or_key<'a>(name: &'a str, index: Option<usize>) -> Step<'a>
    ensures { step_view result ≡ index_or_key name.now index }
{
    match index {
        Some(index) => Step::Index(index),
        None => Step::Key(name),
    }
}

// The same, counted from the end, where 1 is the last item.
fn end_or_key<'a>(name: &'a str, index: Option<usize>) -> Step<'a>
    ensures { step_view result ≡ end_or_key name.now index }
{
    match index {
        None | Some(0) => Step::Key(name),
        Some(index) => Step::FromEnd(index - 1),
    }
}

// The number of decimal digits without a leading zero, or the greatest of 64 bits if it exceeds
// that.
fn read_index(digits: &[u8]) -> Option<usize>
    ensures { result ≡ index_in digits.now }
{
    if digits.len() > 1 && digits[0] == b'0' {
        None
    } else {
        read_number(digits)
    }
}
