//! Containment: whether all of one document is in another.

ghost use Rattle.std.specs.Prelude.{◌≡◌, ◌≢◌, ◌<◌, ◌≤◌, ◌+◌, ◌*◌, ℕ, List, false, length};
ghost use Rattle.std.specs.Prelude.{IfErr, IfNone, IfOk, IfSome, MatchOption, is_some};
ghost use Rattle.std.specs.Prelude.{Bool, option_copied, option_map, suc, true};
ghost use Rattle.jsonb_functions.specs.ContainSteps.{Work};
ghost use Rattle.jsonb_functions.specs.Scalars.{AreScalarsOf};
ghost use Rattle.jsonb_functions.specs.Words.{Ascend, DoneBy, FoundBy, HoldsNoScalar};
ghost use Rattle.jsonb_functions.specs.Words.{IsContainer, Pairs, Tree, are_equal, are_many};
ghost use Rattle.jsonb_functions.specs.Words.{array_work, compare_steps, contained};
ghost use Rattle.jsonb_functions.specs.Words.{contained_work, contains_whole, contains_work};
ghost use Rattle.jsonb_functions.specs.Words.{count, document_tree, extension_data};
ghost use Rattle.jsonb_functions.specs.Words.{extension_of_item, find_work, first_work};
ghost use Rattle.jsonb_functions.specs.Words.{found_work, from_key, has_top_key};
ghost use Rattle.jsonb_functions.specs.Words.{items_contained, items_or_none, length_or_none};
ghost use Rattle.jsonb_functions.specs.Words.{members_contained, members_work, nat_cmp};
ghost use Rattle.jsonb_functions.specs.Words.{node_tree, object_of, pair_weights, pairs_of};
ghost use Rattle.jsonb_functions.specs.Words.{passing_steps, rest_pairs, rest_trees, slice_cmp};
ghost use Rattle.jsonb_functions.specs.Words.{some_tree, sort_work, steps_alone, text};
ghost use Rattle.jsonb_functions.specs.Words.{trees_of, value_of_key, weight, work_until};

use crate::scalars::{Scalars, data_of};
use crate::steps::{Unanswered, take};
use crate::walk::{next_item, next_member};
use jsonb::{Document, Error, Items, Members, Node};
use std::alloc::Global;
use std::cmp::Ordering;

// Up to this many items a search one by one is faster than a sort.
const FEW: usize = 16;

/// Whether the left document contains the right one. An object contains another if it has each of
/// its keys, with a value that contains the other's; an array contains another if for each item of
/// the other some item of it contains that; every other value contains what is equal to it. A whole
/// document that is an array also contains each scalar that is equal to one of its items.
///
/// Scalars take n log n: those of an array of more than 16 items are sorted if more than 16 are
/// looked for in it. `OutOfMemory`, the only error, if the list of them cannot be allocated, so
/// only where there is such a search; nothing else requests memory. Arrays and objects in arrays
/// take a product of the sizes at worst: for documents that others chose there is
/// `contains_within`.
pub fn contains(alloc: Global, left: Document<'_>, right: Document<'_>) -> Result<bool, Error>
    ensures ok { IfOk result (λ is_contained. is_contained
        ≡ contains_whole (document_tree left.entry) (document_tree right.entry)) }
    ensures memory { IfErr result (λ e. (e ≡ Error.OutOfMemory)
        × ((contains_work (document_tree left.entry) (document_tree right.entry)).sorts
        ≡ true)) }
{
    let mut steps = most_steps(left, right);
    match contains_counted(alloc, left, right, &mut steps) {
        Ok(is_contained) => Ok(is_contained),
        Err(Unanswered::OutOfMemory) => Err(Error::OutOfMemory),
        Err(Unanswered::TooManySteps) => unreachable!(),
    }
}

/// Whether the left document contains the right one, as `contains` says, unless that takes more
/// than so many steps. There is a step for each pair of values that are compared, and for each
/// member that is passed in search of a key, up to the first whose key is not below it; and one for
/// each byte of the keys of these members, and of two texts, or two binary or opaque values, that
/// are compared and equally long. So `{"a":1}` in `{"a":1}` takes 4: for the objects, the member,
/// its key and the numbers. If more than 16 items are looked for in an array of more than 16, there
/// is a step in place of these for each scalar of the array, which are sorted, and for each that is
/// looked for, and one for each of its bytes. `None` exactly if these are more than `steps`. So
/// many as the product of both documents' weights always suffice; the weight is the number of
/// values and keys, and of the bytes of texts, keys, and binary and opaque values. `OutOfMemory` is
/// the only error, and comes only where scalars are sorted.
#[tactic(auto, using(crate::proofs::ContainLaws::work_below))]
pub fn contains_within(
    alloc: Global,
    left: Document<'_>,
    right: Document<'_>,
    steps: usize,
) -> Result<Option<bool>, Error>
    ensures some { IfOk result (λ answer. IfSome answer (λ is_contained. is_contained
        ≡ contains_whole (document_tree left.entry) (document_tree right.entry))) }
    ensures enough { IfOk result (λ answer. IfSome answer (λ is_contained.
        (contains_work (document_tree left.entry) (document_tree right.entry)).steps ≤ steps)) }
    ensures none { IfOk result (λ answer. IfNone answer
        (steps < (contains_work (document_tree left.entry) (document_tree right.entry)).steps)) }

    // So many steps always suffice.
    ensures most { (contains_work (document_tree left.entry) (document_tree right.entry)).steps
        ≤ weight (document_tree left.entry) * weight (document_tree right.entry) }
    ensures memory { IfErr result (λ e. (e ≡ Error.OutOfMemory)
        × ((contains_work (document_tree left.entry) (document_tree right.entry)).sorts
        ≡ true)) }
{
    let mut steps = steps as u128;
    match contains_counted(alloc, left, right, &mut steps) {
        Ok(is_contained) => Ok(Some(is_contained)),
        Err(Unanswered::TooManySteps) => Ok(None),
        Err(Unanswered::OutOfMemory) => Err(Error::OutOfMemory),
    }
}

// More steps than it takes: a document has at least as many bytes as it has weight.
#[tactic(auto, using(crate::proofs::WeightLaws::weights_below, crate::proofs::ContainLaws::work_below))]
fn most_steps(left: Document<'_>, right: Document<'_>) -> u128
    ensures { (contains_work (document_tree left.entry) (document_tree right.entry)).steps
        ≤ result }
{
    left.as_bytes().len() as u128 * right.as_bytes().len() as u128
}

// Whether a whole document contains another, unless it takes too many steps.
fn contains_counted(
    alloc: Global,
    left: Document<'_>,
    right: Document<'_>,
    steps: &mut u128,
) -> Result<bool, Unanswered>
    ensures { FoundBy result
        (contains_whole (document_tree left.entry) (document_tree right.entry))
        (contains_work (document_tree left.entry) (document_tree right.entry))
        steps.old steps.new }
{
    let wanted = right.value();
    if let Some(items) = left.items() {
        return match wanted {
            Node::Container(_) => contains_documents(alloc, left, right, steps),
            _ => has_item(alloc, items, wanted, steps),
        };
    }
    contains_node(alloc, left.value(), wanted, steps)
}

/// Whether a key is there: a key of an object, a text that is an item of an array, or the text
/// itself.
pub fn exists(document: Document<'_>, key: &str) -> bool
    ensures { result ≡ has_top_key key.now (document_tree document.entry) }
{
    if let Some(items) = document.items() {
        return has_text(items, key);
    }
    match document.members() {
        Some(_) => document.get(key).is_some(),
        None => document.value() == Node::String(key),
    }
}

// Whether some item is this text.
fn has_text(mut items: Items<'_>, wanted: &str) -> bool
    ensures { result ≡ some_tree (λ t. contained (text wanted.now) t)
        (trees_of (rest_trees items.entry)) }
{
    while let Some(item) = next_item(&mut items) {
        if item == Node::String(wanted) {
            return true;
        }
    }
    false
}

// Whether a value contains another. A level of the walk is one frame on the stack, that of
// `contains_items` or of `contains_members`; what goes no deeper stands in functions of its own.
#[cycle(contains)]
#[inline(always)]
fn contains_node(
    alloc: Global,
    left: Node<'_>,
    right: Node<'_>,
    steps: &mut u128,
) -> Result<bool, Unanswered>
    requires left { HoldsNoScalar left }
    requires right { HoldsNoScalar right }
    ensures { FoundBy result (contained (node_tree right.entry) (node_tree left.entry))
        (contained_work (node_tree right.entry) (node_tree left.entry)) steps.old steps.new }
{
    match (left, right) {
        (Node::Container(left), Node::Container(right)) => {
            contains_documents(alloc, left, right, steps)
        }
        _ => are_equal(left, right, steps),
    }
}

// Whether two values are equal.
#[inline(never)]
fn are_equal(left: Node<'_>, right: Node<'_>, steps: &mut u128) -> Result<bool, Unanswered>
    requires left { HoldsNoScalar left }
    requires right { HoldsNoScalar right }
    ensures { FoundBy result (are_equal (node_tree left.entry) (node_tree right.entry))
        (steps_alone (compare_steps (node_tree left.entry) (node_tree right.entry)))
        steps.old steps.new }
{
    take(steps, 1)?;
    let Some(length) = compared_len(left, right) else {
        return Ok(false);
    };
    take(steps, length)?;
    Ok(left == right)
}

// How many bytes are compared of two texts, or of two binary or opaque values. `None` if one of
// them is longer, so that they differ.
fn compared_len(left: Node<'_>, right: Node<'_>) -> Option<usize>
    requires left { HoldsNoScalar left }
    requires right { HoldsNoScalar right }
    ensures differ { IfNone result
        (are_equal (node_tree left.entry) (node_tree right.entry) ≡ false) }
    ensures steps { compare_steps (node_tree left.entry) (node_tree right.entry)
        ≡ suc (length_or_none result) }
{
    match (left, right) {
        (Node::String(left), Node::String(right)) => common_len(left.as_bytes(), right.as_bytes()),
        (Node::Extension(left), Node::Extension(right)) => {
            common_len(data_of(left), data_of(right))
        }
        _ => Some(0),
    }
}

// The length of both slices, if it is the same.
#[inline(always)]
fn common_len(left: &[u8], right: &[u8]) -> Option<usize>
    ensures { MatchOption result (length left.now ≢ length right.now)
        (λ n. (n ≡ length left.now) × (length left.now ≡ length right.now)) }
{
    if left.len() == right.len() {
        Some(left.len())
    } else {
        None
    }
}

#[cycle(contains)]
#[inline(always)]
fn contains_documents(
    alloc: Global,
    left: Document<'_>,
    right: Document<'_>,
    steps: &mut u128,
) -> Result<bool, Unanswered>
    requires left { IsContainer (document_tree left) }
    requires right { IsContainer (document_tree right) }
    ensures { FoundBy result (contained (document_tree right.entry) (document_tree left.entry))
        (contained_work (document_tree right.entry) (document_tree left.entry))
        steps.old steps.new }
{
    take(steps, 1)?;
    if let (Some(_), Some(wanted)) = (left.items(), right.items()) {
        return contains_items(alloc, left, wanted, steps);
    }
    match (left.members(), right.members()) {
        (Some(members), Some(wanted)) => contains_members(alloc, members, wanted, steps),
        _ => Ok(left == right),
    }
}

// Whether for each wanted item some item of the array contains it.
#[cycle(contains)]
#[inline(never)]
fn contains_items(
    alloc: Global,
    array: Document<'_>,
    mut wanted: Items<'_>,
    steps: &mut u128,
) -> Result<bool, Unanswered>
    ensures { FoundBy result
        (items_contained (trees_of (rest_trees wanted.entry))
        (items_or_none (document_tree array.entry)))
        (array_work (trees_of (rest_trees wanted.entry))
        (items_or_none (document_tree array.entry)))
        steps.old steps.new }
{
    let scalars = scalars_if_many(alloc, array, wanted.len(), steps)?;
    while let Some(item) = next_item(&mut wanted) {
        let Some(items) = array.items() else {
            return Ok(false);
        };
        let is_there = has_value(alloc, items, scalars.as_ref(), item, steps)?;
        if !is_there {
            return Ok(false);
        }
    }
    Ok(true)
}

// The scalars among the array's items in order, if it has many and is searched for many.
#[inline(never)]
#[tactic(auto, using(crate::proofs::ContainLaws::sorted_done, crate::proofs::ContainLaws::sorted_lacks, crate::proofs::ContainLaws::unsorted_done, crate::proofs::ContainLaws::none_are_many))]
fn scalars_if_many<'a>(
    alloc: Global,
    array: Document<'a>,
    wanted: usize,
    steps: &mut u128,
) -> Result<Option<Scalars<'a>>, Unanswered>
    ensures scalars { IfOk result (λ scalars. IfSome scalars
        (AreScalarsOf (items_or_none (document_tree array.entry)))) }
    ensures many { IfOk result (λ scalars. is_some scalars
        ≡ are_many wanted (count (items_or_none (document_tree array.entry)))) }
    ensures cost { DoneBy result
        (sort_work (are_many wanted (count (items_or_none (document_tree array.entry))))
        (items_or_none (document_tree array.entry))) steps.old steps.new }
{
    if !are_many(array, wanted) {
        return Ok(None);
    }
    let Some(items) = array.items() else {
        return Ok(None);
    };
    let scalars = Scalars::of_items(alloc, items, steps)?;
    Ok(Some(scalars))
}

// Whether an array has many items and is searched for many.
#[tactic(auto, using(crate::proofs::ContainLaws::items_counted, crate::proofs::ContainLaws::none_are_many))]
fn are_many(array: Document<'_>, wanted: usize) -> bool
    ensures { result ≡ are_many wanted (count (items_or_none (document_tree array.entry))) }
{
    match array.items() {
        Some(items) => FEW < wanted && FEW < items.len(),
        None => false,
    }
}

// Whether some item contains the wanted value; a scalar is looked for among the scalars in order,
// if they are there.
#[cycle(contains)]
#[inline(always)]
fn has_value<'a>(
    alloc: Global,
    items: Items<'a>,
    scalars: Option<&Scalars<'a>>,
    wanted: Node<'a>,
    steps: &mut u128,
) -> Result<bool, Unanswered>
    requires scalars { IfSome (option_copied scalars)
        (AreScalarsOf (trees_of (rest_trees items))) }
    requires container { HoldsNoScalar wanted }
    ensures { FoundBy result
        (some_tree (λ t. contained (node_tree wanted.entry) t) (trees_of (rest_trees items.entry)))
        (find_work (is_some (option_copied scalars.entry)) (node_tree wanted.entry)
        (λ t. contained_work (node_tree wanted.entry) t) (trees_of (rest_trees items.entry)))
        steps.old steps.new }
{
    match (scalars, wanted) {
        (None, _) | (_, Node::Container(_)) => has_item(alloc, items, wanted, steps),
        (Some(scalars), scalar) => scalars.has(scalar, steps),
    }
}

// Whether some item contains the wanted value.
#[cycle(contains)]
#[inline(always)]
fn has_item(
    alloc: Global,
    mut items: Items<'_>,
    wanted: Node<'_>,
    steps: &mut u128,
) -> Result<bool, Unanswered>
    requires { HoldsNoScalar wanted }
    ensures { FoundBy result
        (some_tree (λ t. contained (node_tree wanted.entry) t) (trees_of (rest_trees items.entry)))
        (work_until (λ t. contained (node_tree wanted.entry) t)
        (λ t. contained_work (node_tree wanted.entry) t) (trees_of (rest_trees items.entry)))
        steps.old steps.new }
{
    while let Some(item) = next_item(&mut items) {
        let is_contained = contains_node(alloc, item, wanted, steps)?;
        if is_contained {
            return Ok(true);
        }
    }
    Ok(false)
}

// Whether each wanted key is there, with a value that contains the wanted one. Both are in the
// order of their keys, and each is walked once.
#[cycle(contains)]
#[inline(never)]
fn contains_members(
    alloc: Global,
    mut members: Members<'_>,
    mut wanted: Members<'_>,
    steps: &mut u128,
) -> Result<bool, Unanswered>
    requires members { Ascend (pairs_of (rest_pairs members)) }
    requires wanted { Ascend (pairs_of (rest_pairs wanted)) }
    ensures { FoundBy result
        (members_contained (pairs_of (rest_pairs wanted.entry))
        (object_of (rest_pairs members.entry)))
        (members_work (pairs_of (rest_pairs wanted.entry)) (pairs_of (rest_pairs members.entry)))
        steps.old steps.new }
{
    while let Some((name, value)) = next_member(&mut wanted) {
        let Some(found) = value_at(&mut members, name, steps)? else {
            return Ok(false);
        };
        let is_contained = contains_node(alloc, found, value, steps)?;
        if !is_contained {
            return Ok(false);
        }
    }
    Ok(true)
}

// The value of a key among members in the order of their keys. Takes the members up to it; for all
// later keys what is left has the same values. Takes a step for each member that is passed, and one
// for each byte of its key.
fn value_at<'a>(
    members: &mut Members<'a>,
    name: &str,
    steps: &mut u128,
) -> Result<Option<Node<'a>>, Unanswered>
    requires { Ascend (pairs_of (rest_pairs members.old)) }
    ensures value { IfOk result (λ found. option_map node_tree found
        ≡ value_of_key name.now (object_of (rest_pairs members.old))) }
    ensures later { IfOk result (λ found. IfSome found (λ node. (k : List ℕ)
        → slice_cmp nat_cmp name.now k ≡ Ordering.Less
        → value_of_key k (object_of (rest_pairs members.old))
        ≡ value_of_key k (object_of (rest_pairs members.new)))) }
    ensures ascend { IfOk result (λ found. IfSome found (λ node.
        Ascend (pairs_of (rest_pairs members.new)))) }
    ensures weight { IfOk result (λ found. IfSome found (λ node. weight (node_tree node)
        + pair_weights (pairs_of (rest_pairs members.new))
        < pair_weights (pairs_of (rest_pairs members.old)))) }
    ensures container { IfOk result (λ found. IfSome found HoldsNoScalar) }
    ensures first { IfOk result (λ found. (passes : Tree → Bool) (work : Tree → Work)
        (later : Pairs → Work)
        → first_work name.now passes work later
        (from_key name.now (pairs_of (rest_pairs members.old)))
        ≡ found_work passes work later (pairs_of (rest_pairs members.new))
        (option_map node_tree found)) }
    ensures cost { IfOk result (λ found. steps.old
        ≡ steps.new + passing_steps name.now (pairs_of (rest_pairs members.old))) }
    ensures err { IfErr result (λ e. (e ≡ Unanswered.TooManySteps)
        × (steps.old < passing_steps name.now (pairs_of (rest_pairs members.old)))) }
{
    while let Some((key, value)) = next_member(members) {
        take(steps, 1 + key.len())?;
        match key.cmp(name) {
            Ordering::Less => (),
            Ordering::Equal => return Ok(Some(value)),
            Ordering::Greater => return Ok(None),
        }
    }
    Ok(None)
}
