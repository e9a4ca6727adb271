//! Grouping rows by the values at paths.

ghost use Rattle.std.specs.Prelude.{option_map};
ghost use Rattle.kohiblad_shell.specs.Aggregates.{Reckons, amount_of, amounts_of, are_fit, is_fit};
ghost use Rattle.kohiblad_shell.specs.Aggregates.{is_summed, number_in};
ghost use Rattle.kohiblad_shell.specs.Words.{document_tree, node_tree};

use crate::first::first_value;
use crate::groups::Groups;
use crate::input::Form;
use crate::key::path_keys;
use crate::outcome::{LineFault, LineWorker, Reason, Unanswered};
use crate::sort_path::SortPath;
use crate::survey::row_document;
use jsonb::{Document, Node};
use jsonb_path::Path;
use jsonb_typed::opened;
use jsonb_value::Number;
use std::alloc::Global;

/// What is reckoned of the rows of a group.
#[derive(Drop)]
pub enum Aggregate {
    /// How many there are.
    Count,
    /// The sum of the first values to which a path leads. A row of which it leads nowhere, or to
    /// null, is passed over.
    Sum(Path),
}

/// An aggregate, and the name of its member.
#[derive(Drop)]
pub struct NamedAggregate {
    pub name: String,
    pub aggregate: Aggregate,
}

/// Groups rows by the first values to which paths lead, and reckons their aggregates.
#[derive(Drop)]
pub struct Grouper<'a> {
    pub by: &'a [SortPath],
    pub aggregates: &'a [NamedAggregate],
    pub form: Form,
    pub groups: Groups,
}

impl LineWorker for Grouper<'_> {
    ghost use Rattle.kohiblad_shell.specs.Grouping.{group_rule, with_row};

    ghost rule = { λ grouper. group_rule grouper.aggregates.now grouper.form };

    ghost after = { with_row };

    ghost keeps = { λ grouper rows line outcome is. is };

    #[tactic(auto, using(crate::proofs::PassedLaws::passed_gives, crate::proofs::GroupingLaws::fit_gives, crate::proofs::GroupingLaws::refused_row_gives, crate::proofs::GroupingLaws::unfit_gives, crate::proofs::GroupingLaws::passed_joins_none, crate::proofs::GroupingLaws::row_joins_group))]
    fn answer(&mut self, alloc: Global, row: &[u8]) -> Result<Vec<u8>, Unanswered> {
        if self.form.passes_over(row) {
            return Ok(Vec::new(alloc));
        }
        let bytes = row_document(alloc, self.form, row)?;
        let document = Document::new_unchecked(&bytes);
        let amounts = amounts_of(alloc, document, self.aggregates)?;
        let key = path_keys(alloc, document, self.by)?;
        self.groups.add(alloc, key, document, &amounts)?;
        Ok(bytes)
    }
}

// What a row adds to each aggregate. `NotOfType` if a value of it is neither a number nor null.
#[tactic(auto, using(crate::proofs::GroupingLaws::unfit_more))]
fn amounts_of(
    alloc: Global,
    document: Document<'_>,
    aggregates: &[NamedAggregate],
) -> Result<Vec<Option<Number>>, Unanswered>
    ensures { Reckons (λ amounts. amounts.items)
        (are_fit aggregates.now (document_tree document.entry))
        (amounts_of aggregates.now (document_tree document.entry)) result }
{
    let mut amounts = Vec::with_capacity(alloc, aggregates.len())?;
    let mut left = aggregates;
    while let [named, rest @ ..] = left {
        amounts.push(amount_of(alloc, document, &named.aggregate)?)?;
        left = rest;
    }
    Ok(amounts)
}

// What a row adds to the sum of an aggregate: 1 to the number of rows.
fn amount_of(
    alloc: Global,
    document: Document<'_>,
    aggregate: &Aggregate,
) -> Result<Option<Number>, Unanswered>
    ensures { Reckons (λ amount. amount)
        (is_fit (document_tree document.entry) aggregate.now)
        (amount_of (document_tree document.entry) aggregate.now) result }
{
    match aggregate {
        Aggregate::Count => Ok(Some(Number::UInt64(1))),
        Aggregate::Sum(path) => number_of(first_value(alloc, document, path)?),
    }
}

// The number that is a value; none if there is no value or it is null. `NotOfType` if it is another
// value.
fn number_of(value: Option<Node<'_>>) -> Result<Option<Number>, Unanswered>
    ensures { Reckons (λ amount. amount) (is_summed (option_map node_tree value.entry))
        (number_in (option_map node_tree value.entry)) result }
{
    let Some(value) = value else {
        return Ok(None);
    };
    match opened(value) {
        Node::Null => Ok(None),
        Node::Number(number) => Ok(Some(number.as_number())),
        _ => Err(Unanswered::Wrong(LineFault::plain(0, Reason::NotOfType))),
    }
}
