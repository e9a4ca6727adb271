//! Arrays as sets of values, in which equal values are counted.

ghost use Rattle.std.specs.Prelude.{◌≡◌, ◌-◌, ◌<◌, ◌++◌, ◌∷◌, [], IfErr, IfOk, OnOk, nat_lt, suc};
ghost use Rattle.std.specs.Prelude.{if◌then◌else◌};
ghost use Rattle.jsonb_functions.specs.ChosenSource.{chosen_meaning};
ghost use Rattle.jsonb_functions.specs.Overlay.{written};
ghost use Rattle.jsonb_functions.specs.Words.{AreChildren, CountsEquals, Fits, LevelIs, MadeIfFit};
ghost use Rattle.jsonb_functions.specs.Words.{MadeWithMemory, SetsEqualsCount, Trees, array, canon};
ghost use Rattle.jsonb_functions.specs.Words.{difference, distinct, distinct_items, equals_count};
ghost use Rattle.jsonb_functions.specs.Words.{document_tree, intersection, items_or_one};
ghost use Rattle.jsonb_functions.specs.Words.{listed_trees, matched_array, matched_items};
ghost use Rattle.jsonb_functions.specs.Words.{code_of, node_tree, overlaps, owned_bytes, part_tree};
ghost use Rattle.jsonb_functions.specs.Words.{shape_of, some_shared};

use crate::chosen::{Chosen, ChosenLevel};
use crate::overlay::{Laid, item_count};
use jsonb::constants::CONTAINER_TAG;
use jsonb::layer::parts::{Children, Contents, Part};
use jsonb::layer::writer::{Level, append_document};
use jsonb::{Document, Error, Node, OwnedJsonb};
use std::alloc::{AllocError, Global};
use std::collections::BTreeMap;

/// The canonical document of the array's items without those that are equal to one before them. A
/// value that is not an array is the one item. `InvalidJsonb` if it does not fit the format;
/// `OutOfMemory` if an allocation fails.
#[tactic(auto, using(crate::proofs::MemoryLaws::with_memory))]
pub fn array_distinct(alloc: Global, document: Document<'_>) -> Result<OwnedJsonb, Error>
    ensures ok { IfOk result (λ owned. owned_bytes owned
        ≡ canon (distinct (document_tree document.entry))) }
    ensures limits { MadeWithMemory (Fits (distinct (document_tree document.entry))) result }
{
    let items = items_of(alloc, document)?;
    let firsts = distinct_of(alloc, &items)?;
    array_document(alloc, &firsts)
}

/// Whether some item of the one array is equal to one of the other. A value that is not an array is
/// one item. `OutOfMemory` is the only error.
pub fn array_overlap(alloc: Global, left: Document<'_>, right: Document<'_>) -> Result<bool, Error>
    ensures ok { IfOk result (λ overlap. overlap
        ≡ overlaps (document_tree left.entry) (document_tree right.entry)) }
    ensures memory { IfErr result (λ e. e ≡ Error.OutOfMemory) }
{
    let items = items_of(alloc, left)?;
    let others = items_of(alloc, right)?;
    let counts = count_items(alloc, &others)?;
    Ok(has_shared(&items, &counts))
}

/// The canonical document of the items that both arrays have, in the order of the first. Of equal
/// items there are as many as both have: the first ones of the first. A value that is not an array
/// is one item. `InvalidJsonb` if it does not fit the format; `OutOfMemory` if an allocation fails.
pub fn array_intersection(
    alloc: Global,
    left: Document<'_>,
    right: Document<'_>,
) -> Result<OwnedJsonb, Error>
    ensures ok { IfOk result (λ owned. owned_bytes owned
        ≡ canon (intersection (document_tree left.entry) (document_tree right.entry))) }
    ensures limits { MadeWithMemory
        (Fits (intersection (document_tree left.entry) (document_tree right.entry))) result }
{
    matched_document(alloc, left, right, true)
}

/// The canonical document of the first array's items without one for each equal item of the second:
/// of equal items the first ones go. A value that is not an array is one item. `InvalidJsonb` if it
/// does not fit the format; `OutOfMemory` if an allocation fails.
pub fn array_except(
    alloc: Global,
    left: Document<'_>,
    right: Document<'_>,
) -> Result<OwnedJsonb, Error>
    ensures ok { IfOk result (λ owned. owned_bytes owned
        ≡ canon (difference (document_tree left.entry) (document_tree right.entry))) }
    ensures limits { MadeWithMemory
        (Fits (difference (document_tree left.entry) (document_tree right.entry))) result }
{
    matched_document(alloc, left, right, false)
}

// The canonical document of the first array's items for which the second has an equal that no item
// before them took, or of those for which it has not.
fn matched_document(
    alloc: Global,
    left: Document<'_>,
    right: Document<'_>,
    matched: bool,
) -> Result<OwnedJsonb, Error>
    ensures ok { IfOk result (λ owned. owned_bytes owned ≡ canon
        (matched_array matched (document_tree left.entry) (document_tree right.entry))) }
    ensures limits { MadeWithMemory (Fits
        (matched_array matched (document_tree left.entry) (document_tree right.entry))) result }
{
    let items = items_of(alloc, left)?;
    let others = items_of(alloc, right)?;
    let found = matched_of(alloc, &items, &others, matched)?;
    array_document(alloc, &found)
}

// The items of an array, or the one value that is not an array.
fn items_of<'a>(alloc: Global, document: Document<'a>) -> Result<Vec<Part<'a>>, AllocError>
    ensures { IfOk result (λ list. listed_trees list.items
        ≡ items_or_one (document_tree document.entry)) }
{
    let part = document.part();
    if part.type_code != CONTAINER_TAG {
        return one_item(alloc, part);
    }
    match part.contents() {
        Contents::Array(items) => all_items(alloc, items),
        Contents::Object(_) => one_item(alloc, part),
    }
}

fn one_item<'a>(alloc: Global, part: Part<'a>) -> Result<Vec<Part<'a>>, AllocError>
    ensures { IfOk result (λ list. list.items ≡ part.entry ∷ []) }
{
    let mut list = Vec::with_capacity(alloc, 1)?;
    list.push(part)?;
    Ok(list)
}

fn all_items<'a>(alloc: Global, items: Children<'a>) -> Result<Vec<Part<'a>>, AllocError>
    ensures { IfOk result (λ list. (ts : Trees) → AreChildren ts items.entry
        → listed_trees list.items ≡ ts) }
{
    let mut list = Vec::with_capacity(alloc, item_count(items))?;
    let mut left = items;
    while let Some(first) = left.split_first() {
        list.push(first.part)?;
        left = first.later;
    }
    Ok(list)
}

// The array of these parts.
fn array_document(alloc: Global, parts: &[Part<'_>]) -> Result<OwnedJsonb, Error>
    ensures ok { IfOk result (λ owned. owned_bytes owned
        ≡ canon (array (listed_trees parts.now))) }
    ensures limits { MadeIfFit (Fits (array (listed_trees parts.now))) result }
{
    let mut bytes = Vec::new(alloc);
    append_document::<Laid<Part, Chosen>>(&mut bytes, listed_level(parts))?;
    Ok(OwnedJsonb::new(bytes))
}

// The level of an array of these parts.
#[inline(always)]
fn listed_level<'a>(parts: &'a [Part<'a>]) -> ChosenLevel<'a>
    ensures { LevelIs code_of (written chosen_meaning) result
        (shape_of (array (listed_trees parts.now))) }
{
    Level::Array(Laid::Changed(parts))
}

// The items that have no equal before them.
fn distinct_of<'a>(alloc: Global, items: &[Part<'a>]) -> Result<Vec<Part<'a>>, AllocError>
    ensures { IfOk result (λ list. listed_trees list.items
        ≡ distinct_items (listed_trees items.now)) }
{
    let mut counts = BTreeMap::new(alloc);
    let mut list = Vec::new(alloc);
    for part in items {
        let before = raise_count(&mut counts, node_of(*part))?;
        push_if(before == 0, &mut list, *part)?;
    }
    Ok(list)
}

// The items for which the others have an equal that no item before them took, or those for which
// they do not.
fn matched_of<'a>(
    alloc: Global,
    items: &[Part<'a>],
    others: &[Part<'a>],
    matched: bool,
) -> Result<Vec<Part<'a>>, AllocError>
    ensures { IfOk result (λ list. listed_trees list.items
        ≡ matched_items matched (listed_trees items.now) (listed_trees others.now)) }
{
    let mut counts = count_items(alloc, others)?;
    let mut list = Vec::new(alloc);
    for part in items {
        let is_left = lower_count(&mut counts, node_of(*part));
        push_if(is_left == matched, &mut list, *part)?;
    }
    Ok(list)
}

// Appends a part if it is kept.
#[inline(always)]
fn push_if<'a>(is_kept: bool, list: &mut Vec<Part<'a>>, part: Part<'a>) -> Result<(), AllocError>
    ensures { OnOk result (list.new.items
        ≡ (if is_kept then list.old.items ++ part.entry ∷ [] else list.old.items)) }
{
    if is_kept {
        list.push(part)?;
    }
    Ok(())
}

// Whether some item has a count.
fn has_shared<'a>(items: &[Part<'a>], counts: &BTreeMap<Node<'a>, usize>) -> bool
    ensures { (us : Trees) → CountsEquals counts.now.entries us
        → result ≡ some_shared (listed_trees items.now) us }
{
    for part in items {
        if count_of(counts, &node_of(*part)) > 0 {
            return true;
        }
    }
    false
}

// How many of the items are equal to each value.
fn count_items<'a>(
    alloc: Global,
    items: &[Part<'a>],
) -> Result<BTreeMap<Node<'a>, usize>, AllocError>
    ensures { IfOk result (λ counts. CountsEquals counts.entries (listed_trees items.now)) }
{
    let mut counts = BTreeMap::new(alloc);
    for part in items {
        raise_count(&mut counts, node_of(*part))?;
    }
    Ok(counts)
}

// The value that a part holds.
#[inline(always)]
fn node_of<'a>(part: Part<'a>) -> Node<'a>
    ensures { node_tree result ≡ part_tree part.entry }
{
    Node::of_part(part)
}

// The count of a value's equals.
#[inline(always)]
fn count_of<'a>(counts: &BTreeMap<Node<'a>, usize>, node: &Node<'a>) -> usize
    ensures { result ≡ equals_count counts.now.entries node.now }
{
    counts.get(node).copied().unwrap_or(0)
}

// Raises the count of a value's equals by one; returns what it was.
fn raise_count<'a>(
    counts: &mut BTreeMap<Node<'a>, usize>,
    node: Node<'a>,
) -> Result<usize, AllocError>
    requires { equals_count counts.old.entries node < usize.MAX }
    ensures before { IfOk result (λ count. count ≡ equals_count counts.old.entries node.entry) }
    ensures raised { OnOk result (SetsEqualsCount counts.old.entries counts.new.entries node.entry
        (suc (equals_count counts.old.entries node.entry))) }
{
    let count = count_of(counts, &node);
    counts.insert(node, count + 1)?;
    Ok(count)
}

// Lowers the count of a value's equals by one. `false` if it is 0.
fn lower_count<'a>(counts: &mut BTreeMap<Node<'a>, usize>, node: Node<'a>) -> bool
    ensures was { result ≡ nat_lt 0 (equals_count counts.old.entries node.entry) }
    ensures lowered { SetsEqualsCount counts.old.entries counts.new.entries node.entry
        (equals_count counts.old.entries node.entry - 1) }
{
    let Some(count) = count_of(counts, &node).checked_sub(1) else {
        return false;
    };
    match counts.insert(node, count) {
        Ok(_) => true,
        // The map has an equal key already, so `insert` allocates nothing.
        Err(_) => unreachable!(),
    }
}
