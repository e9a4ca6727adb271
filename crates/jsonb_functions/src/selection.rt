//! The values that paths with wildcards select.

ghost use Rattle.std.specs.Prelude.{◌≡◌, ◌+◌, ◌++◌, ◌∷◌, [], ◌*◌, ◌<◌, ◌≤◌, IfErr, IfNone, IfOk};
ghost use Rattle.std.specs.Prelude.{IfSome, MatchOption, MatchResult, Ok, OnOk, is_some, map};
ghost use Rattle.std.specs.Prelude.{option_map, suc};
ghost use Rattle.std.specs.List.{sum_by};
ghost use Rattle.jsonb.specs.Document.{document_bytes};
ghost use Rattle.jsonb_functions.specs.PathPlaces.{AreItemsAt, first_entry, selected_from};
ghost use Rattle.jsonb_functions.specs.PathPlaces.{selected_places, tree_there, whole_place};
ghost use Rattle.jsonb_functions.specs.PlaceWalks.{AreAllParts, IsPart, LeadsOn, steps_left};
ghost use Rattle.jsonb_functions.specs.SelectSteps.{asked, extent, extents, path_size};
ghost use Rattle.jsonb_functions.specs.SelectSteps.{select_steps, term_steps};
ghost use Rattle.jsonb_functions.specs.Steps.{FallsShort, Takes};
ghost use Rattle.jsonb_functions.specs.Words.{document_tree, first_tree, items_before};
ghost use Rattle.jsonb_functions.specs.Words.{items_through, node_tree, selected, step_at, weight};

use crate::extent::extent_of;
use crate::filter::{Condition, Term, holds};
use crate::found::child_of;
use crate::path::Step;
use crate::places::{next_place, node_at_place, places_from, whole_place};
use crate::steps::{Unanswered, take};
use jsonb::layer::Entry;
use jsonb::{Document, Error, Node};
use std::alloc::{AllocError, Global};

/// An end of a range of items: an index, counted from 0, from the start or from the end:
/// `FromEnd(0)` is the last item, and `End` is the place right after that.
#[derive(Clone, Copy, Debug)]
pub enum Bound {
    FromStart(usize),
    FromEnd(usize),
    End,
}

/// A step of a path with wildcards: one that leads to one value, or each item of an array, each
/// member's value of an object, the items of an array from one to another, both included, the items
/// of an array at some indexes, in their order and as often as they are there, or the value itself
/// if a condition on it holds.
#[derive(Debug, Drop)]
pub enum Selector<'a> {
    Step(Step<'a>),
    AllItems,
    AllMembers,
    Range { first: Bound, last: Bound },
    Indexes(Vec<Bound>),
    Filter(Condition<'a>),
}

/// The values at the ends of all ways that a path allows, in the order in which they are stored,
/// but at indexes in the order of these. `OutOfMemory` is the only error.
pub fn select<'a>(
    alloc: Global,
    document: Document<'a>,
    path: &[Selector<'_>],
) -> Result<Vec<Node<'a>>, Error>
    ensures ok { IfOk result (λ nodes. map node_tree nodes.items
        ≡ selected path.now (document_tree document.entry)) }

    // They have the types and payloads of the entries at the selected places.
    ensures entries { IfOk result (λ nodes. AreItemsAt (document_bytes document.entry)
        (selected_places path.now (document_bytes document.entry)) nodes.items) }
    ensures memory { IfErr result (λ e. e ≡ Error.OutOfMemory) }
{
    let places = select_places(alloc, document, path)?;
    Ok(nodes_at(alloc, document.as_bytes(), &places)?)
}

/// Where the values are that `select` returns: the types of their entries, and the positions of
/// their payloads in the bytes of the document. A whole array or object is all bytes.
/// `OutOfMemory` is the only error.
pub fn select_places(
    alloc: Global,
    document: Document<'_>,
    path: &[Selector<'_>],
) -> Result<Vec<Entry>, Error>
    ensures ok { IfOk result (λ places. places.items
        ≡ selected_places path.now (document_bytes document.entry)) }
    ensures parts { IfOk result (λ places.
        AreAllParts (document_bytes document.entry) places.items) }
    ensures values { IfOk result (λ places.
        map (tree_there (document_bytes document.entry)) places.items
        ≡ selected path.now (document_tree document.entry)) }
    ensures memory { IfErr result (λ e. e ≡ Error.OutOfMemory) }
{
    let mut found = Vec::new(alloc);
    append_places(document.as_bytes(), whole_of(document), path, &mut found)?;
    Ok(found)
}

// The values at positions.
fn nodes_at<'a>(
    alloc: Global,
    bytes: &'a [u8],
    places: &[Entry],
) -> Result<Vec<Node<'a>>, AllocError>
    requires { AreAllParts bytes.now places.now }
    ensures ok { IfOk result (λ nodes. map node_tree nodes.items
        ≡ map (tree_there bytes.entry.now) places.now) }
    ensures items { IfOk result (λ nodes. AreItemsAt bytes.entry.now places.now nodes.items) }
{
    let mut nodes = Vec::with_capacity(alloc, places.len())?;
    let mut left = places;
    while let [place, rest @ ..] = left {
        nodes.push(node_at_place(bytes, *place))?;
        left = rest;
    }
    Ok(nodes)
}

/// The position of a document's value.
pub fn whole_of(document: Document<'_>) -> Entry
    ensures is { whole_place (document_bytes document.entry) ≡ Ok result }
    ensures part { IsPart (document_bytes document.entry) result }
    ensures tree { tree_there (document_bytes document.entry) result
        ≡ document_tree document.entry }
{
    let Ok(whole) = whole_place(document.as_bytes()) else {
        unreachable!();
    };
    whole
}

/// The values that `select` returns, unless that takes more than so many steps. There is a step for
/// each value that a selector is asked of, and one for each of its items or members, or of the
/// bytes of a text, or of binary or opaque data; a list of indexes takes as many for each of them.
/// A filter takes one for each term of its condition, and for a test, `exists(..)` and
/// `!exists(..)` also one for each item, member or byte of each value on the way of its path. So
/// `$.*?(@ > 1)` takes 3 of `{"a":2}`: for the object, its member, and the test of the number.
/// `None` if the steps do not suffice, which is so only if they are fewer than the selectors times
/// the document's weight. Of the selectors a filter counts for each of its terms, and a list of
/// indexes for each of them, as often as there are ways to it, which it multiplies by their number.
/// The weight is the number of values and keys, and of the bytes of texts, keys, and binary and
/// opaque values. `OutOfMemory` is the only error.
#[tactic(auto, using(crate::proofs::SelectStepLaws::steps_within))]
pub fn select_within<'a>(
    alloc: Global,
    document: Document<'a>,
    path: &[Selector<'_>],
    steps: usize,
) -> Result<Option<Vec<Node<'a>>>, Error>
    ensures some { IfOk result (λ answer. IfSome answer (λ nodes. map node_tree nodes.items
        ≡ selected path.now (document_tree document.entry))) }

    // They have the types and payloads of the entries at the selected places.
    ensures entries { IfOk result (λ answer. IfSome answer (λ nodes.
        AreItemsAt (document_bytes document.entry)
        (selected_places path.now (document_bytes document.entry)) nodes.items)) }
    ensures enough { IfOk result (λ answer. IfSome answer (λ nodes.
        select_steps path.now (document_tree document.entry) ≤ steps)) }
    ensures none { IfOk result (λ answer. IfNone answer
        (steps < select_steps path.now (document_tree document.entry))) }

    // So many steps always suffice.
    ensures most { select_steps path.now (document_tree document.entry)
        ≤ path_size path.now * weight (document_tree document.entry) }
    ensures memory { IfErr result (λ e. e ≡ Error.OutOfMemory) }
{
    match select_places_within(alloc, document, path, steps)? {
        Some(places) => Ok(Some(nodes_at(alloc, document.as_bytes(), &places)?)),
        None => Ok(None),
    }
}

/// Where the values are that `select_within` returns, as `select_places` says. `None` if the steps
/// do not suffice; `OutOfMemory` is the only error.
pub fn select_places_within(
    alloc: Global,
    document: Document<'_>,
    path: &[Selector<'_>],
    steps: usize,
) -> Result<Option<Vec<Entry>>, Error>
    ensures some { IfOk result (λ answer. IfSome answer (λ places. places.items
        ≡ selected_places path.now (document_bytes document.entry))) }
    ensures parts { IfOk result (λ answer. IfSome answer (λ places.
        AreAllParts (document_bytes document.entry) places.items)) }
    ensures values { IfOk result (λ answer. IfSome answer (λ places.
        map (tree_there (document_bytes document.entry)) places.items
        ≡ selected path.now (document_tree document.entry))) }
    ensures enough { IfOk result (λ answer. IfSome answer (λ places.
        select_steps path.now (document_tree document.entry) ≤ steps)) }
    ensures none { IfOk result (λ answer. IfNone answer
        (steps < select_steps path.now (document_tree document.entry))) }
    ensures memory { IfErr result (λ e. e ≡ Error.OutOfMemory) }
{
    let mut found = Vec::new(alloc);
    let mut left = steps as u128;
    let whole = whole_of(document);
    match append_within(document.as_bytes(), whole, path, &mut found, &mut left) {
        Ok(()) => Ok(Some(found)),
        Err(Unanswered::TooManySteps) => Ok(None),
        Err(Unanswered::OutOfMemory) => Err(Error::OutOfMemory),
    }
}

/// The first of the values that `select` returns. `None` if the path leads nowhere.
pub fn select_first<'a>(document: Document<'a>, path: &[Selector<'_>]) -> Option<Node<'a>>
    ensures { option_map node_tree result
        ≡ first_tree (selected path.now (document_tree document.entry)) }
{
    let bytes = document.as_bytes();
    match first_place(bytes, whole_of(document), path) {
        Some(place) => Some(node_at_place(bytes, place)),
        None => None,
    }
}

/// Whether a path leads to some value.
pub fn exists_path(document: Document<'_>, path: &[Selector<'_>]) -> bool
    ensures { result ≡ is_some (first_tree (selected path.now (document_tree document.entry))) }
{
    select_first(document, path).is_some()
}

// Appends the positions of the values to which a path leads from a position.
fn append_places(
    bytes: &[u8],
    place: Entry,
    path: &[Selector<'_>],
    found: &mut Vec<Entry>,
) -> Result<(), AllocError>
    requires { IsPart bytes.now place }
    ensures { OnOk result (found.new.items
        ≡ found.old.items ++ selected_from path.now bytes.now place) }
{
    let Some(left) = after_filters(bytes, place, path) else {
        return Ok(());
    };
    let [selector, rest @ ..] = left else {
        found.push(place)?;
        return Ok(());
    };
    let mut walk = places_from(bytes, place, selector);
    while let Some(next) = next_place(bytes, place, selector, &mut walk) {
        append_places(bytes, next, rest, found)?;
    }
    Ok(())
}

// The steps after the filters with which a path begins: so many filters take no stack. `None` if
// one of them does not keep the value at a position.
fn after_filters<'p, 'a>(
    bytes: &[u8],
    place: Entry,
    path: &'p [Selector<'a>],
) -> Option<&'p [Selector<'a>]>
    requires { IsPart bytes.now place }
    ensures { MatchOption result (selected_from path.now bytes.now place ≡ [])
        (λ left. LeadsOn path.now left.now bytes.now place) }
{
    let node = node_at_place(bytes, place);
    let mut left = path;
    while let [selector, rest @ ..] = left {
        let Selector::Filter(condition) = selector else {
            return Some(left);
        };
        if !holds(node, condition) {
            return None;
        }
        left = rest;
    }
    Some(left)
}

// Appends the positions of the values to which a path leads, and takes the steps for them.
fn append_within(
    bytes: &[u8],
    place: Entry,
    path: &[Selector<'_>],
    found: &mut Vec<Entry>,
    steps: &mut u128,
) -> Result<(), Unanswered>
    requires { IsPart bytes.now place }
    ensures appended { OnOk result (found.new.items
        ≡ found.old.items ++ selected_from path.now bytes.now place) }
    ensures cost { Takes result (select_steps path.now (tree_there bytes.now place))
        steps.old steps.new }
{
    let Some(left) = after_filters_within(bytes, place, path, steps)? else {
        return Ok(());
    };
    let [selector, rest @ ..] = left else {
        return append_found(place, found);
    };
    ask(node_at_place(bytes, place), selector, steps)?;
    let mut walk = places_from(bytes, place, selector);
    while let Some(next) = next_place(bytes, place, selector, &mut walk) {
        append_within(bytes, next, rest, found, steps)?;
    }
    Ok(())
}

// The same as `after_filters`, and takes the steps for these filters.
fn after_filters_within<'p, 'a>(
    bytes: &[u8],
    place: Entry,
    path: &'p [Selector<'a>],
    steps: &mut u128,
) -> Result<Option<&'p [Selector<'a>]>, Unanswered>
    requires { IsPart bytes.now place }
    ensures kept { IfOk result (λ kept. MatchOption kept
        (selected_from path.now bytes.now place ≡ [])
        (λ left. LeadsOn path.now left.now bytes.now place)) }
    ensures cost { MatchResult result
        (λ kept. steps.old + steps_left kept (tree_there bytes.now place)
        ≡ steps.new + select_steps path.now (tree_there bytes.now place))
        (FallsShort steps.old (select_steps path.now (tree_there bytes.now place))) }
{
    let node = node_at_place(bytes, place);
    let mut left = path;
    while let [selector, rest @ ..] = left {
        let Selector::Filter(condition) = selector else {
            return Ok(Some(left));
        };
        ask_terms(node, &condition.terms, steps)?;
        if !holds(node, condition) {
            return Ok(None);
        }
        left = rest;
    }
    Ok(Some(left))
}

// Appends a position that was found.
fn append_found(place: Entry, found: &mut Vec<Entry>) -> Result<(), Unanswered>
    ensures appended { OnOk result (found.new.items ≡ found.old.items ++ place ∷ []) }
    ensures memory { IfErr result (λ e. e ≡ Unanswered.OutOfMemory) }
{
    match found.push(place) {
        Ok(()) => Ok(()),
        Err(_) => Err(Unanswered::OutOfMemory),
    }
}

// Takes the steps for a value that a selector is asked of.
fn ask(node: Node<'_>, selector: &Selector<'_>, steps: &mut u128) -> Result<(), Unanswered>
    ensures { Takes result (asked selector.now (node_tree node.entry)) steps.old steps.new }
{
    match selector {
        Selector::Filter(condition) => ask_terms(node, &condition.terms, steps),
        Selector::Indexes(indexes) => ask_items(node, indexes, steps),
        _ => ask_children(node, steps),
    }
}

// Takes the steps for a value and its children.
fn ask_children(node: Node<'_>, steps: &mut u128) -> Result<(), Unanswered>
    ensures { Takes result (suc (extent (node_tree node.entry))) steps.old steps.new }
{
    take(steps, 1)?;
    take(steps, extent_of(node))
}

// Takes the steps for a value and its children, for each of some indexes.
fn ask_items(node: Node<'_>, indexes: &[Bound], steps: &mut u128) -> Result<(), Unanswered>
    ensures { Takes result (sum_by (λ index. suc (extent (node_tree node.entry))) indexes.now)
        steps.old steps.new }
{
    let mut left = indexes;
    while let [_, rest @ ..] = left {
        ask_children(node, steps)?;
        left = rest;
    }
    Ok(())
}

// Takes the steps for the terms of a condition.
fn ask_terms(node: Node<'_>, terms: &[Term<'_>], steps: &mut u128) -> Result<(), Unanswered>
    ensures { Takes result (sum_by (λ term. term_steps term (node_tree node.entry)) terms.now)
        steps.old steps.new }
{
    let mut left = terms;
    while let [term, rest @ ..] = left {
        ask_term(node, term, steps)?;
        left = rest;
    }
    Ok(())
}

// Takes the steps for a term of a condition.
fn ask_term(node: Node<'_>, term: &Term<'_>, steps: &mut u128) -> Result<(), Unanswered>
    ensures { Takes result (term_steps term.now (node_tree node.entry)) steps.old steps.new }
{
    take(steps, 1)?;
    match term {
        Term::Test(test) => follow(node, &test.path, steps),
        Term::Exists(path) | Term::NotExists(path) => follow(node, path, steps),
        _ => Ok(()),
    }
}

// Takes the steps for the values on the way of a path.
fn follow(start: Node<'_>, path: &[Step<'_>], steps: &mut u128) -> Result<(), Unanswered>
    ensures { Takes result (extents path.now (node_tree start.entry)) steps.old steps.new }
{
    let mut node = start;
    let mut left = path;
    loop {
        take(steps, extent_of(node))?;
        let [step, rest @ ..] = left else {
            return Ok(());
        };
        let Some(child) = child_of(node, *step) else {
            return Ok(());
        };
        node = child;
        left = rest;
    }
}

// The position of the first value to which a path leads from a position.
fn first_place(bytes: &[u8], place: Entry, path: &[Selector<'_>]) -> Option<Entry>
    requires { IsPart bytes.now place }
    ensures is { result ≡ first_entry (selected_from path.now bytes.now place) }
    ensures part { IfSome result (IsPart bytes.now) }
{
    let left = after_filters(bytes, place, path)?;
    let [selector, rest @ ..] = left else {
        return Some(place);
    };
    let mut walk = places_from(bytes, place, selector);
    while let Some(next) = next_place(bytes, place, selector, &mut walk) {
        if let Some(found) = first_place(bytes, next, rest) {
            return Some(found);
        }
    }
    None
}

/// How many of so many items are before a bound.
pub fn count_before(bound: Bound, count: usize) -> usize
    ensures { result ≡ items_before bound count }
{
    match bound {
        Bound::FromStart(index) => index.min(count),
        Bound::FromEnd(index) => count.saturating_sub(index.saturating_add(1)),
        Bound::End => count,
    }
}

/// How many of so many items are up to a bound, with the item there.
pub fn count_through(bound: Bound, count: usize) -> usize
    ensures { result ≡ items_through bound count }
{
    match bound {
        Bound::FromStart(index) => index.saturating_add(1).min(count),
        Bound::FromEnd(index) => count.saturating_sub(index),
        Bound::End => count,
    }
}

/// The step to an item at an index.
pub fn step_at<'a>(index: Bound) -> Step<'a>
    ensures { result ≡ step_at index }
{
    match index {
        Bound::FromStart(index) => Step::Index(index),
        Bound::FromEnd(index) => Step::FromEnd(index),
        Bound::End => Step::End,
    }
}
