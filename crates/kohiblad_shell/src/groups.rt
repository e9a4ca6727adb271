//! Groups of rows, in memory.

ghost use Rattle.std.specs.Prelude.{◌≡◌, [], IfErr, IfOk, List, OnErr, OnOk, length, map};
ghost use Rattle.std.specs.Prelude.{option_map, slice_get};
ghost use Rattle.kohiblad_shell.specs.Groups.{Group, HoldDocuments, first_totals, kept_group};
ghost use Rattle.kohiblad_shell.specs.Groups.{seen_group, with_entry};
ghost use Rattle.kohiblad_shell.specs.Totals.{with_amounts};
ghost use Rattle.kohiblad_shell.specs.Words.{document_bytes};

use crate::total::{NO_TOTAL, Total};
use indexmap::IndexMap;
use jsonb::Document;
use jsonb_value::Number;
use std::alloc::{AllocError, Global};
use std::marker::Model;

// What is kept of a group: its first row, and its sums.
#[derive(Drop)]
struct Kept {
    first: Vec<u8>,
    totals: Vec<Total>,
}

/// What is known of a group: the key that its rows have in common, the document of its first row,
/// and its sums.
#[derive(Clone, Copy)]
pub struct SeenGroup<'a> {
    pub key: &'a [u8],
    pub first: Document<'a>,
    pub totals: &'a [Total],
}

/// Groups of rows, in the order of their first rows.
#[derive(Drop)]
pub struct Groups {
    kept: IndexMap<Vec<u8>, Kept>,
}

impl Model for Groups {
    ghost Value = { List Group };

    ghost view = { λ groups. map kept_group groups.kept.entries };

    ghost invariant = { λ groups. HoldDocuments (map kept_group groups.kept.entries) };
}

impl Groups {
    /// No groups.
    pub fn new(alloc: Global) -> Self
        ensures { result ≡ [] }
    {
        Groups {
            kept: IndexMap::new(alloc),
        }
    }

    /// How many groups there are.
    pub fn len(&self) -> usize
        ensures { result ≡ length self.now }
    {
        self.kept.len()
    }

    /// The group that is the first but so many.
    pub fn get(&self, index: usize) -> Option<SeenGroup<'_>>
        ensures { option_map seen_group result ≡ slice_get self.now index }
    {
        match self.kept.get_index(index) {
            Some((key, kept)) => Some(SeenGroup {
                key: key.as_slice(),
                first: Document::new_unchecked(kept.first.as_slice()),
                totals: kept.totals.as_slice(),
            }),
            None => None,
        }
    }

    /// Adds the row of a document to the group of its key, which is a new one if no row before had
    /// that key.
    #[tactic(auto, using(crate::proofs::GroupLaws::row_joins, crate::proofs::GroupLaws::row_begins))]
    pub fn add(
        &mut self,
        alloc: Global,
        key: Vec<u8>,
        document: Document<'_>,
        amounts: &[Option<Number>],
    ) -> Result<(), AllocError>
        ensures ok { OnOk result
            (self.new ≡ with_entry key.items (document_bytes document.entry) amounts.now self.old) }
        ensures err { OnErr result (self.new ≡ self.old) }
    {
        match self.kept.get_index_of(&key) {
            Some(index) => add_amounts(&mut self.kept[index].totals, amounts),
            None => {
                let group = new_group(alloc, document.as_bytes(), amounts)?;
                drop(self.kept.insert(key, group)?);
            }
        }
        Ok(())
    }
}

// A group of one row.
fn new_group(alloc: Global, document: &[u8], amounts: &[Option<Number>]) -> Result<Kept, AllocError>
    ensures first { IfOk result (λ kept. kept.first.items ≡ document.now) }
    ensures totals { IfOk result (λ kept. kept.totals.items ≡ first_totals amounts.now) }
{
    Ok(Kept {
        first: document.to_vec(alloc)?,
        totals: first_totals(alloc, amounts)?,
    })
}

// The sums of one row.
fn first_totals(alloc: Global, amounts: &[Option<Number>]) -> Result<Vec<Total>, AllocError>
    ensures { IfOk result (λ totals. totals.items ≡ first_totals amounts.now) }
{
    amounts
        .iter()
        .map(|amount| NO_TOTAL.with(*amount))
        .collect(alloc)
}

// Adds to each sum the number of one more row, if there is one.
fn add_amounts(totals: &mut [Total], amounts: &[Option<Number>])
    ensures { totals.new ≡ with_amounts totals.old amounts.now }
{
    for (index, amount) in amounts.iter().enumerate() {
        if index < totals.len() {
            totals[index] = totals[index].with(*amount);
        }
    }
}
