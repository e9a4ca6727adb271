//! A path, followed part by part.
#![tactic(auto, using(crate::proofs::FollowLaws::parts_before_it))]

ghost use Rattle.std.specs.Prelude.{◌≡◌, ◌<◌, [], IfOk, IfSome, IsTrue, None, length, map};
ghost use Rattle.std.specs.Prelude.{Some, option_map, option_to_list};
ghost use Rattle.std.specs.List.{list_all};
ghost use Rattle.jsonb.specs.Node.{node_tree};
ghost use Rattle.jsonb_path.specs.Found.{Finds, filtered_by, left_of, outcome_of, place_of};
ghost use Rattle.jsonb_path.specs.Found.{selected_in};
ghost use Rattle.jsonb_path.specs.Meaning.{access, along, begin, each, follow};
ghost use Rattle.jsonb_path.specs.Meaning.{gives, in_lax_unwrapped, judge, through};
ghost use Rattle.jsonb_path.specs.PathParts.{are_parts_after, is_accessor, is_expression};
ghost use Rattle.jsonb_path.specs.PathParts.{is_part};
ghost use Rattle.jsonb_path.specs.PathParts.{is_source, is_subscript, is_test, is_test_part};
ghost use Rattle.jsonb_path.specs.PathTree.{accessor_of, accessors_of, as_expression};
ghost use Rattle.jsonb_path.specs.PathTree.{expression_at, node_of, nodes_of, predicate_of};
ghost use Rattle.jsonb_path.specs.PathTree.{primary_of, subscript_onto, subscripts_of, test_at};
ghost use Rattle.jsonb_path.specs.Syntax as syntax;

use crate::ask::{append_all_members, append_items, append_named, listed};
use crate::choose::{append_between, append_range, index_in};
use crate::compare::{Comparison, Truth};
use crate::compute::{compute, unwrapped, with_sign};
use crate::descend::append_descendants;
use crate::direct::{along_members, direct, is_unwrapped, value_of};
use crate::given::given_as;
use crate::method::append_called;
use crate::outcome::{Outcome, WalkError, append};
use crate::pairs::{Check, compare_direct, some_pair};
use crate::path::{Accessor, Part, PathError, Source, Subscript, Test};
use crate::place::{Place, Units};
use crate::value::{last_node, literal_node, truth_node};
use jsonb::Node;
use std::alloc::{AllocError, Global};

// What the part of this index gives.
#[cycle(follow)]
pub(crate) fn follow_at<'a>(
    alloc: Global,
    place: &Place<'a>,
    parts: &'a [Part],
    at: usize,
) -> Result<Outcome<'a>, AllocError>
    requires parts { IsTrue (are_parts_after [] parts.now) }
    requires place { at < length parts.now }
    ensures { IfOk result (λ o. outcome_of o
        ≡ follow (place_of place.now) (expression_at (nodes_of parts.now) at)) }
{
    follow(alloc, place, &parts[..at], &parts[at])
}

// What a part gives, after the parts that it names.
#[cycle(follow)]
fn follow<'a>(
    alloc: Global,
    place: &Place<'a>,
    parts: &'a [Part],
    part: &'a Part,
) -> Result<Outcome<'a>, AllocError>
    requires parts { IsTrue (are_parts_after [] parts.now) }
    requires part { IsTrue (is_part parts.now part.now) }
    ensures { IfOk result (λ o. outcome_of o
        ≡ follow (place_of place.now) (as_expression (node_of (nodes_of parts.now) part.now))) }
{
    match part {
        Part::Chain(source, accessors) => match value_of(place, source) {
            Some(value) => {
                let ahead = along_members(value, accessors);
                let start = Outcome::one(alloc, ahead.node)?;
                along(alloc, place, parts, ahead.left, start)
            }
            None => {
                let start = begin(alloc, place, parts, source)?;
                along(alloc, place, parts, accessors, start)
            }
        },
        Part::Sign(sign, operand) => {
            let outcome = follow_at(alloc, place, parts, *operand)?;
            with_sign(alloc, place.mode, *sign, outcome)
        }
        Part::Arithmetic(operator, left, right) => {
            let left = follow_at(alloc, place, parts, *left)?;
            let right = follow_at(alloc, place, parts, *right)?;
            compute(alloc, place.mode, *operator, left, right)
        }
        Part::Test(test) => {
            let truth = judge(alloc, place, parts, test)?;
            Outcome::one(alloc, truth_node(truth))
        }
    }
}

// What the part of this index gives, as `direct` says it.
fn direct_at<'a>(place: &Place<'a>, parts: &'a [Part], at: usize) -> Option<Option<Node<'a>>>
    requires place { at < length parts.now }
    ensures { IfSome result (λ found. in_lax_unwrapped place.now.mode
        (follow (place_of place.now) (expression_at (nodes_of parts.now) at))
        ≡ gives (option_to_list (option_map node_tree found))) }
{
    direct(place, &parts[at])
}

// What a chain begins with.
#[cycle(follow)]
fn begin<'a>(
    alloc: Global,
    place: &Place<'a>,
    parts: &'a [Part],
    source: &'a Source,
) -> Result<Outcome<'a>, AllocError>
    requires parts { IsTrue (are_parts_after [] parts.now) }
    requires source { IsTrue (is_source parts.now source.now) }
    ensures { IfOk result (λ o. outcome_of o
        ≡ begin (place_of place.now) (primary_of (nodes_of parts.now) source.now)) }
{
    match source {
        Source::Root => Outcome::one(alloc, place.root),
        Source::Current => Outcome::one(alloc, place.current),
        Source::Last => Outcome::one(alloc, last_node(place.count)),
        Source::Literal(literal) => Outcome::one(alloc, literal_node(literal)),
        Source::Variable(name) => given_as(alloc, name, place.variables),
        Source::Part(at) => follow_at(alloc, place, parts, *at),
    }
}

// One accessor after the other.
#[cycle(follow)]
fn along<'a>(
    alloc: Global,
    place: &Place<'a>,
    parts: &'a [Part],
    accessors: &'a [Accessor],
    start: Outcome<'a>,
) -> Result<Outcome<'a>, AllocError>
    requires parts { IsTrue (are_parts_after [] parts.now) }
    requires accessors { IsTrue (list_all (is_accessor parts.now) accessors.now) }
    ensures { IfOk result (λ o. outcome_of o ≡ along (place_of place.now)
        (accessors_of (nodes_of parts.now) accessors.now) (outcome_of start.entry)) }
{
    let mut place = *place;
    let mut outcome = start;
    let mut left = accessors;
    while let [accessor, rest @ ..] = left {
        outcome = through(alloc, &place, parts, accessor, outcome)?;
        place = place.past(accessor);
        left = rest;
    }
    Ok(outcome)
}

// What an accessor gives of each value: the first error ends it, and what came before stays.
#[cycle(follow)]
fn through<'a>(
    alloc: Global,
    place: &Place<'a>,
    parts: &'a [Part],
    accessor: &'a Accessor,
    outcome: Outcome<'a>,
) -> Result<Outcome<'a>, AllocError>
    requires parts { IsTrue (are_parts_after [] parts.now) }
    requires accessor { IsTrue (is_accessor parts.now accessor.now) }
    ensures { IfOk result (λ o. outcome_of o
        ≡ through (access (place_of place.now) (accessor_of (nodes_of parts.now) accessor.now))
        (outcome_of outcome.entry)) }
{
    let mut values = Vec::new(alloc);
    let walked = append_each(alloc, place, parts, accessor, &outcome.values, &mut values);
    Outcome::of_walk(values, walked, outcome.error)
}

#[cycle(follow)]
fn append_each<'a>(
    alloc: Global,
    place: &Place<'a>,
    parts: &'a [Part],
    accessor: &'a Accessor,
    values: &[Node<'a>],
    found: &mut Vec<Node<'a>>,
) -> Result<(), WalkError>
    requires parts { IsTrue (are_parts_after [] parts.now) }
    requires accessor { IsTrue (is_accessor parts.now accessor.now) }
    ensures { Finds found.old.items found.new.items result
        (each (access (place_of place.now) (accessor_of (nodes_of parts.now) accessor.now))
        (map node_tree values.now) None) }
{
    let mut left = values;
    while let [value, rest @ ..] = left {
        access(alloc, place, parts, accessor, *value, found)?;
        left = rest;
    }
    Ok(())
}

// Appends what an accessor gives of one value.
#[cycle(follow)]
fn access<'a>(
    alloc: Global,
    place: &Place<'a>,
    parts: &'a [Part],
    accessor: &'a Accessor,
    node: Node<'a>,
    found: &mut Vec<Node<'a>>,
) -> Result<(), WalkError>
    requires parts { IsTrue (are_parts_after [] parts.now) }
    requires accessor { IsTrue (is_accessor parts.now accessor.now) }
    ensures { Finds found.old.items found.new.items result
        (access (place_of place.now) (accessor_of (nodes_of parts.now) accessor.now)
        (node_tree node.entry)) }
{
    match accessor {
        Accessor::Member(name) => append_named(place, name, node, found),
        Accessor::AllMembers => append_all_members(place, node, found),
        Accessor::AllItems => append_items(place, node, found),
        Accessor::Items(subscripts) => select(alloc, place, parts, subscripts, node, found),
        Accessor::Descendants(first, last) => {
            append_descendants(alloc, *first, *last, node, found)
        }
        Accessor::Filter(test) => filter(alloc, place, parts, *test, node, found),
        Accessor::Method(method) => append_called(place, *method, node, found),
    }
}

// Appends the values for which a test holds: in lax of the items of an array.
#[cycle(follow)]
#[tactic(auto, using(crate::proofs::FollowLaws::parts_before_it, crate::proofs::DirectLaws::filter_finds))]
fn filter<'a>(
    alloc: Global,
    place: &Place<'a>,
    parts: &'a [Part],
    test: usize,
    node: Node<'a>,
    found: &mut Vec<Node<'a>>,
) -> Result<(), WalkError>
    requires parts { IsTrue (are_parts_after [] parts.now) }
    requires test { IsTrue (is_test parts.now test) }
    ensures { Finds found.old.items found.new.items result (access (place_of place.now)
        (syntax.filter (test_at (nodes_of parts.now) test)) (node_tree node.entry)) }
{
    if !is_unwrapped(place.mode, node) {
        return append_if(alloc, place, parts, test, node, found);
    }
    let mut units = Units::unwrapped(place.mode, node);
    while let Some(unit) = units.next_unit() {
        append_if(alloc, place, parts, test, unit, found)?;
    }
    Ok(())
}

// Appends a value if a test holds of it.
#[cycle(follow)]
fn append_if<'a>(
    alloc: Global,
    place: &Place<'a>,
    parts: &'a [Part],
    test: usize,
    unit: Node<'a>,
    found: &mut Vec<Node<'a>>,
) -> Result<(), WalkError>
    requires parts { IsTrue (are_parts_after [] parts.now) }
    requires test { IsTrue (is_test parts.now test) }
    ensures { Finds found.old.items found.new.items result (filtered_by
        (place_of place.now) (test_at (nodes_of parts.now) test) (node_tree unit.entry)) }
{
    let place = Place {
        current: unit,
        ..*place
    };
    if matches!(judge_at(alloc, &place, parts, test)?, Truth::True) {
        append(unit, found)?;
    }
    Ok(())
}

// Appends the items of an array that subscripts name, in their order.
#[cycle(follow)]
fn select<'a>(
    alloc: Global,
    place: &Place<'a>,
    parts: &'a [Part],
    subscripts: &'a [Subscript],
    node: Node<'a>,
    found: &mut Vec<Node<'a>>,
) -> Result<(), WalkError>
    requires parts { IsTrue (are_parts_after [] parts.now) }
    requires subscripts { IsTrue (list_all (is_subscript parts.now) subscripts.now) }
    ensures { Finds found.old.items found.new.items result (access (place_of place.now)
        (syntax.items_at (subscripts_of (nodes_of parts.now) subscripts.now))
        (node_tree node.entry)) }
{
    let Some(items) = Units::items_of(place.mode, node) else {
        return place.unless_forgiven(PathError::ArrayNotFound);
    };
    let place = Place {
        count: items.len(),
        ..*place
    };
    match subscripts {
        [subscript] => append_chosen(alloc, &place, parts, *subscript, items, found),
        _ => {
            let items = listed(alloc, items)?;
            append_selected(alloc, &place, parts, subscripts, &items, found)
        }
    }
}

// Appends the items of a list that subscripts name.
#[cycle(follow)]
fn append_selected<'a>(
    alloc: Global,
    place: &Place<'a>,
    parts: &'a [Part],
    subscripts: &'a [Subscript],
    items: &[Node<'a>],
    found: &mut Vec<Node<'a>>,
) -> Result<(), WalkError>
    requires parts { IsTrue (are_parts_after [] parts.now) }
    requires subscripts { IsTrue (list_all (is_subscript parts.now) subscripts.now) }
    ensures { Finds found.old.items found.new.items result
        (selected_in (place_of place.now) (subscripts_of (nodes_of parts.now) subscripts.now)
        (Some (map node_tree items.now))) }
{
    let mut left = subscripts;
    while let [subscript, rest @ ..] = left {
        append_named_in(alloc, place, parts, *subscript, items, found)?;
        left = rest;
    }
    Ok(())
}

// Appends the items of a list that one subscript names.
#[cycle(follow)]
fn append_named_in<'a>(
    alloc: Global,
    place: &Place<'a>,
    parts: &'a [Part],
    subscript: Subscript,
    items: &[Node<'a>],
    found: &mut Vec<Node<'a>>,
) -> Result<(), WalkError>
    requires parts { IsTrue (are_parts_after [] parts.now) }
    requires subscript { IsTrue (is_subscript parts.now subscript) }
    ensures { Finds found.old.items found.new.items result
        (selected_in (place_of place.now) (subscript_onto (nodes_of parts.now) subscript.first
        subscript.last syntax.no_subscripts) (Some (map node_tree items.now))) }
{
    let outcome = follow_at(alloc, place, parts, subscript.first)?;
    let first = index_in(&outcome);
    match subscript.last {
        Some(last) => {
            let outcome = follow_at(alloc, place, parts, last)?;
            append_range(place.forgives, first, index_in(&outcome), items, found)
        }
        None => append_range(place.forgives, first, first, items, found),
    }
}

// Appends the items that one subscript names.
#[cycle(follow)]
fn append_chosen<'a>(
    alloc: Global,
    place: &Place<'a>,
    parts: &'a [Part],
    subscript: Subscript,
    items: Units<'a>,
    found: &mut Vec<Node<'a>>,
) -> Result<(), WalkError>
    requires parts { IsTrue (are_parts_after [] parts.now) }
    requires subscript { IsTrue (is_subscript parts.now subscript) }
    ensures { Finds found.old.items found.new.items result
        (selected_in (place_of place.now) (subscript_onto (nodes_of parts.now) subscript.first
        subscript.last syntax.no_subscripts) (Some (left_of items.entry))) }
{
    let outcome = follow_at(alloc, place, parts, subscript.first)?;
    let first = index_in(&outcome);
    match subscript.last {
        Some(last) => {
            let outcome = follow_at(alloc, place, parts, last)?;
            append_between(place.forgives, first, index_in(&outcome), items, found)
        }
        None => append_between(place.forgives, first, first, items, found),
    }
}

// Whether the test of this index holds.
#[cycle(follow)]
fn judge_at<'a>(
    alloc: Global,
    place: &Place<'a>,
    parts: &'a [Part],
    at: usize,
) -> Result<Truth, AllocError>
    requires parts { IsTrue (are_parts_after [] parts.now) }
    requires test { IsTrue (is_test parts.now at) }
    ensures { IfOk result (λ t. t
        ≡ judge (place_of place.now) (test_at (nodes_of parts.now) at)) }
{
    let Part::Test(test) = &parts[at] else {
        unreachable!();
    };
    judge(alloc, place, &parts[..at], test)
}

// Whether a test holds.
#[cycle(follow)]
fn judge<'a>(
    alloc: Global,
    place: &Place<'a>,
    parts: &'a [Part],
    test: &'a Test,
) -> Result<Truth, AllocError>
    requires parts { IsTrue (are_parts_after [] parts.now) }
    requires test { IsTrue (is_test_part parts.now test.now) }
    ensures { IfOk result (λ t. t
        ≡ judge (place_of place.now) (predicate_of (nodes_of parts.now) test.now)) }
{
    match test {
        Test::And(left, right) => {
            let left = judge_at(alloc, place, parts, *left)?;
            let right = judge_at(alloc, place, parts, *right)?;
            Ok(left.and(right))
        }
        Test::Or(left, right) => {
            let left = judge_at(alloc, place, parts, *left)?;
            let right = judge_at(alloc, place, parts, *right)?;
            Ok(left.or(right))
        }
        Test::Not(test) => {
            let truth = judge_at(alloc, place, parts, *test)?;
            Ok(truth.not())
        }
        Test::IsUnknown(test) => {
            let truth = judge_at(alloc, place, parts, *test)?;
            Ok(truth.is_unknown())
        }
        Test::Compare(comparison, left, right) => {
            compare_at(alloc, place, parts, *comparison, *left, *right)
        }
        Test::StartsWith(left, prefix) => {
            let left = follow_at(alloc, place, parts, *left)?;
            let right = begin(alloc, place, parts, prefix)?;
            let left = unwrapped(alloc, place.mode, left)?;
            Ok(some_pair(place.mode, Check::StartsWith, &left, &right))
        }
        Test::Exists(operand) => {
            let outcome = follow_at(alloc, place, parts, *operand)?;
            Ok(outcome.exists(place.mode))
        }
    }
}

// Whether what two parts give compares so.
#[cycle(follow)]
fn compare_at<'a>(
    alloc: Global,
    place: &Place<'a>,
    parts: &'a [Part],
    comparison: Comparison,
    left: usize,
    right: usize,
) -> Result<Truth, AllocError>
    requires parts { IsTrue (are_parts_after [] parts.now) }
    requires left { IsTrue (is_expression parts.now left) }
    requires right { IsTrue (is_expression parts.now right) }
    ensures { IfOk result (λ t. t ≡ judge (place_of place.now) (syntax.comparison comparison
        (expression_at (nodes_of parts.now) left) (expression_at (nodes_of parts.now) right))) }
{
    match (
        direct_at(place, parts, left),
        direct_at(place, parts, right),
    ) {
        (Some(left), Some(right)) => Ok(compare_direct(comparison, left, right)),
        _ => {
            let left = follow_at(alloc, place, parts, left)?;
            let right = follow_at(alloc, place, parts, right)?;
            let left = unwrapped(alloc, place.mode, left)?;
            let right = unwrapped(alloc, place.mode, right)?;
            let check = Check::Compare(comparison);
            Ok(some_pair(place.mode, check, &left, &right))
        }
    }
}
