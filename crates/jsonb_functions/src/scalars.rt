//! The scalars among the items of an array, in order, to be searched for many.

ghost use Rattle.std.specs.Prelude.{◌≡◌, IfOk, OnOk, true};
ghost use Rattle.jsonb_value.specs.Tree.{tree};
ghost use Rattle.jsonb_functions.specs.Scalars.{AreCollected, AreScalarsOf, HasScalars};
ghost use Rattle.jsonb_functions.specs.Scalars.{IsScalarValue};
ghost use Rattle.jsonb_functions.specs.ContainSteps.{Work};
ghost use Rattle.jsonb_functions.specs.Steps.{Takes};
ghost use Rattle.jsonb_functions.specs.Words.{FoundBy, HoldsNoScalar, Tree, Trees, contained};
ghost use Rattle.jsonb_functions.specs.Words.{extension_data, extension_of_item, find_work};
ghost use Rattle.jsonb_functions.specs.Words.{node_tree, rest_trees, scalar_weight};
ghost use Rattle.jsonb_functions.specs.Words.{scalar_weights, some_tree, trees_of, weight};

use crate::steps::{Unanswered, take};
use crate::walk::next_item;
use jsonb::{ExtensionItem, ExtensionValue, Items, Node};
use std::alloc::Global;

/// The scalars among the items of an array, in order.
#[derive(Drop)]
pub struct Scalars<'a> {
    sorted: Vec<Node<'a>>,
}

impl<'a> Scalars<'a> {
    /// The scalars among these items. Takes a step for each, and one for each of its bytes.
    // Not inlined, so that a level of the walk over containers needs no stack for it.
    #[inline(never)]
    pub fn of_items(alloc: Global, items: Items<'a>, steps: &mut u128) -> Result<Self, Unanswered>
        ensures scalars { IfOk result (AreScalarsOf (trees_of (rest_trees items.entry))) }
        ensures cost { Takes result (scalar_weights (trees_of (rest_trees items.entry)))
            steps.old steps.new }
    {
        let mut sorted = scalars_of(alloc, items, steps)?;
        sorted.sort_unstable();
        Ok(Scalars { sorted })
    }

    /// Whether one is equal to a scalar. Takes a step, and one for each of its bytes.
    #[inline(never)]
    pub fn has(&self, wanted: Node<'a>, steps: &mut u128) -> Result<bool, Unanswered>
        requires { IsScalarValue wanted }
        ensures { (ts : Trees) (work : Tree → Work) → AreScalarsOf ts self.now → FoundBy result
            (some_tree (λ t. contained (node_tree wanted.entry) t) ts)
            (find_work true (node_tree wanted.entry) work ts) steps.old steps.new }
    {
        take(steps, cost_of(wanted))?;
        Ok(self.sorted.binary_search(&wanted).is_ok())
    }
}

// The scalars among these items.
fn scalars_of<'a>(
    alloc: Global,
    mut items: Items<'a>,
    steps: &mut u128,
) -> Result<Vec<Node<'a>>, Unanswered>
    ensures same { IfOk result (λ list. HasScalars (trees_of (rest_trees items.entry)) list.items) }
    ensures cost { Takes result (scalar_weights (trees_of (rest_trees items.entry)))
        steps.old steps.new }
{
    let mut list = Vec::new(alloc);
    while let Some(item) = next_item(&mut items) {
        keep_scalar(&mut list, item, steps)?;
    }
    Ok(list)
}

// Appends an item if it is a scalar.
fn keep_scalar<'a>(
    list: &mut Vec<Node<'a>>,
    item: Node<'a>,
    steps: &mut u128,
) -> Result<(), Unanswered>
    requires { HoldsNoScalar item }
    ensures kept { OnOk result ((ts rest : Trees)
        → AreCollected ts list.old.items (tree (node_tree item.entry) rest)
        → AreCollected ts list.new.items rest) }
    ensures cost { Takes result (scalar_weight (node_tree item.entry)) steps.old steps.new }
{
    if let Node::Container(_) = item {
        return Ok(());
    }
    take(steps, cost_of(item))?;
    match list.push(item) {
        Ok(()) => Ok(()),
        Err(_) => Err(Unanswered::OutOfMemory),
    }
}

// A step for a scalar, and one for each of its bytes.
fn cost_of(scalar: Node<'_>) -> usize
    requires { IsScalarValue scalar }
    ensures { result ≡ weight (node_tree scalar.entry) }
{
    match scalar {
        Node::String(text) => 1 + text.len(),
        Node::Extension(item) => 1 + data_of(item).len(),
        _ => 1,
    }
}

/// The bytes of a binary or opaque value; none of any other extension value.
pub fn data_of<'a>(item: ExtensionItem<'a>) -> &'a [u8]
    ensures { result.now ≡ extension_data (extension_of_item item.entry) }
{
    match item.as_extension_value() {
        ExtensionValue::Binary(bytes) => bytes,
        ExtensionValue::Opaque(opaque) => opaque.bytes(),
        _ => &[],
    }
}
