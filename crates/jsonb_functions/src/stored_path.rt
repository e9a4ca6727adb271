//! Paths that are given as documents.

ghost use Rattle.std.specs.Prelude.{◌≡◌, IfOk, IfErr, map, option_map};
ghost use Rattle.jsonb_value.specs.Tree as trees;
ghost use Rattle.jsonb_functions.specs.Words.{HoldsNoScalar, document_tree, node_tree, path_in};
ghost use Rattle.jsonb_functions.specs.Words.{step_in, step_to, step_view};

use crate::path::Step;
use crate::walk::next_item;
use jsonb::{Document, Error, Node, Number};
use std::alloc::Global;

/// The path that a document gives: an array of strings, which are keys, and whole numbers of 64
/// bits, which are indexes; of those less than 0, -1 is the last item, and the greatest of all is
/// `End`. A number that is stored as a decimal is no index, also one without digits after its
/// point. The keys are the document's bytes.
/// `None` if the document is anything else; `OutOfMemory`, the only error, if an allocation fails.
pub fn read_path<'a>(alloc: Global, document: Document<'a>) -> Result<Option<Vec<Step<'a>>>, Error>
    ensures ok { IfOk result (λ path. option_map (λ steps. map step_view steps.items) path
        ≡ path_in (document_tree document.entry)) }
    ensures memory { IfErr result (λ e. e ≡ Error.OutOfMemory) }
{
    let Some(mut items) = document.items() else {
        return Ok(None);
    };
    let mut steps = Vec::with_capacity(alloc, items.len())?;
    while let Some(item) = next_item(&mut items) {
        let Some(step) = step_of(item) else {
            return Ok(None);
        };
        steps.push(step)?;
    }
    Ok(Some(steps))
}

// The step that a value gives.
fn step_of<'a>(node: Node<'a>) -> Option<Step<'a>>
    requires { HoldsNoScalar node }
    ensures { option_map step_view result ≡ step_in (node_tree node.entry) }
{
    match node {
        Node::String(key) => Some(Step::Key(key)),
        Node::Number(index) => step_of_number(index.as_number()),
        _ => None,
    }
}

// The step that a number gives.
fn step_of_number<'a>(number: Number) -> Option<Step<'a>>
    ensures { option_map step_view result ≡ step_in (trees.number number) }
{
    match number {
        Number::UInt64(u64::MAX) => Some(Step::End),
        Number::UInt64(index) => Some(Step::Index(index as usize)),
        Number::Int64(index) => Some(step_at(index)),
        _ => None,
    }
}

// The step to an item, from the end if the index is less than 0.
fn step_at<'a>(index: i64) -> Step<'a>
    ensures { step_view result ≡ step_to index }
{
    let distance = index.unsigned_abs() as usize;
    if index < 0 {
        Step::FromEnd(distance - 1)
    } else {
        Step::Index(distance)
    }
}
