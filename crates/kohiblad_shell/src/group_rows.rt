//! The rows of groups.

ghost use Rattle.std.specs.Prelude.{◌≡◌, map};
ghost use Rattle.jsonb_value.specs.Value.{pairs_view, tree_of};
ghost use Rattle.jsonb_value.specs.Tree.{no_pairs};
ghost use Rattle.kohiblad_shell.specs.GroupRows.{AreBuilt, group_object, total_members};
ghost use Rattle.kohiblad_shell.specs.GroupRows.{value_members};
ghost use Rattle.kohiblad_shell.specs.Grouping.{AreOfAll};
ghost use Rattle.kohiblad_shell.specs.Groups.{seen_group};
ghost use Rattle.kohiblad_shell.specs.Templates.{GivesAs, IsBuilt, members_after};
ghost use Rattle.kohiblad_shell.specs.Words.{IsOutcome, document_tree};

use crate::first::{first_value, given_up};
use crate::group::{Grouper, NamedAggregate};
use crate::groups::SeenGroup;
use crate::operation::made_row;
use crate::outcome::Unanswered;
use crate::sort_path::SortPath;
use crate::template::{encoded, insert_member, value_of};
use crate::total::Total;
use jsonb::Document;
use jsonb_path::PathError;
use jsonb_value::{Object, Value};
use std::alloc::Global;
use std::collections::BTreeMap;

/// A path by which rows are grouped, and the name of its member.
#[derive(Clone, Copy)]
pub struct NamedPath<'a> {
    pub name: &'a str,
    pub path: &'a SortPath,
}

/// A row for each group: an object with the first values to which paths lead in its first row, and
/// with its aggregates. `OutOfRange` if a sum has more than 128 bits without its point, `TooLarge`
/// if an object is too large for a document.
///
/// The groups are those of all rows that were answered since there were none: each has the rows
/// with one key, and its sums are those of these rows.
#[tactic(auto, using(crate::proofs::GroupingLaws::groups_of_all))]
pub fn group_rows(
    alloc: Global,
    grouper: &Grouper<'_>,
    paths: &[NamedPath<'_>],
) -> Result<Vec<u8>, Unanswered>
    ensures rows { IsOutcome (AreBuilt grouper.now.form
        (map (group_object paths.now grouper.now.aggregates.now) grouper.now.groups)) result }
    ensures all { AreOfAll grouper.now }
{
    let mut rows = Vec::new(alloc);
    for index in 0..grouper.groups.len() {
        let Some(group) = grouper.groups.get(index) else {
            return Ok(rows);
        };
        match group_row(alloc, grouper, paths, group) {
            Ok(row) => rows.extend_from_slice(&row)?,
            Err(unanswered) => return Err(unanswered),
        }
    }
    Ok(rows)
}

// The row of a group.
fn group_row(
    alloc: Global,
    grouper: &Grouper<'_>,
    paths: &[NamedPath<'_>],
    group: SeenGroup<'_>,
) -> Result<Vec<u8>, Unanswered>
    ensures { IsOutcome (IsBuilt grouper.now.form
        (group_object paths.now grouper.now.aggregates.now (seen_group group.entry))) result }
{
    let value = group_value(alloc, paths, grouper.aggregates, group)?;
    let made = encoded(alloc, &value)?;
    Ok(made_row(alloc, grouper.form, made.as_bytes())?)
}

// The object of a group.
#[tactic(auto, using(crate::proofs::GroupRowLaws::value_stops, crate::proofs::GroupRowLaws::total_stops, crate::proofs::GroupRowLaws::object_made))]
fn group_value<'a>(
    alloc: Global,
    paths: &[NamedPath<'a>],
    aggregates: &[NamedAggregate],
    group: SeenGroup<'a>,
) -> Result<Value<'a>, Unanswered>
    ensures { GivesAs tree_of
        (group_object paths.now aggregates.now (seen_group group.entry)) result }
{
    match values_of(alloc, group.first, paths) {
        Ok(values) => match with_totals(alloc, values, aggregates, group.totals) {
            Ok(members) => Ok(Value::Object(members)),
            Err(unanswered) => Err(unanswered),
        },
        Err(unanswered) => Err(unanswered),
    }
}

// The members of the first values to which paths lead. `OutOfMemory` is the only error.
fn values_of<'a>(
    alloc: Global,
    document: Document<'a>,
    paths: &[NamedPath<'a>],
) -> Result<Object<'a>, Unanswered>
    ensures { GivesAs (λ made. pairs_view made.entries)
        (members_after no_pairs (value_members paths.now (document_tree document.entry)))
        result }
{
    let mut members = BTreeMap::new(alloc);
    let mut left = paths;
    while let [named, rest @ ..] = left {
        if let Some(node) = first_value(alloc, document, &named.path.path)? {
            let value = value_of(alloc, node)?;
            let name = String::from_str(alloc, named.name)?;
            insert_member(&mut members, name, value)?;
        }
        left = rest;
    }
    Ok(members)
}

// These members, and among them those of sums, under the names of their aggregates. `OutOfRange` if
// a sum is out of range.
fn with_totals<'a>(
    alloc: Global,
    values: Object<'a>,
    aggregates: &[NamedAggregate],
    totals: &[Total],
) -> Result<Object<'a>, Unanswered>
    ensures { GivesAs (λ made. pairs_view made.entries)
        (members_after (pairs_view values.entry.entries)
        (total_members aggregates.now totals.now)) result }
{
    let mut members = values;
    let mut left = aggregates;
    let mut totals_left = totals;
    while let [named, rest @ ..] = left {
        let [total, totals_rest @ ..] = totals_left else {
            return Ok(members);
        };
        let Total::Exact(number) = *total else {
            return Err(given_up(PathError::OutOfRange));
        };
        let name = String::from_str(alloc, &named.name)?;
        insert_member(&mut members, name, Value::Number(number))?;
        left = rest;
        totals_left = totals_rest;
    }
    Ok(members)
}
