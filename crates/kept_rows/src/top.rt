//! The first rows in the order of their keys.

ghost use Rattle.std.specs.Prelude.{◌≡◌, ◌≤◌, [], IfOk, OnErr, OnOk, flat_map, length};
ghost use Rattle.std.specs.Prelude.{map};
ghost use Rattle.kept_rows.specs.FirstRows.{row_line};
ghost use Rattle.kept_rows.specs.TopRows.{AreFirstSorted, AreNumberedBelow, Top, kept_row};
ghost use Rattle.kept_rows.specs.TopRows.{with_added};

use std::alloc::{AllocError, Global};
use std::collections::BTreeMap;
use std::marker::Model;

/// At most so many rows, each with its key: those that come first in the order of the keys. Of rows
/// with one key the earlier ones come first.
#[derive(Drop)]
pub struct TopRows {
    limit: usize,
    kept: BTreeMap<(Vec<u8>, u64), Vec<u8>>,
    next: u64,
}

impl Model for TopRows {
    ghost Value = { Top };

    ghost view = { λ top. record { limit = top.limit; rows = map kept_row top.kept.entries } };

    ghost invariant = { λ top. AreNumberedBelow top.next top.kept.entries
        × (length top.kept.entries ≤ top.limit) };
}

impl TopRows {
    /// No rows, of which at most so many will be kept.
    pub fn new(alloc: Global, limit: usize) -> TopRows
        ensures { result ≡ record { limit = limit; rows = [] } }
    {
        TopRows {
            limit,
            kept: BTreeMap::new(alloc),
            next: 0,
        }
    }

    /// Adds a row with its key, and drops the last row if there are too many. So of all rows that
    /// are added, from none on, the first so many in the order of their keys are kept. The error is
    /// that of an allocation, or comes after 2^64 rows.
    #[tactic(auto, using(crate::proofs::TopLaws::first_sorted))]
    pub fn add(&mut self, alloc: Global, key: &[u8], line: &[u8]) -> Result<(), AllocError>
        ensures ok { OnOk result
            (self.new ≡ with_added self.old (record { key = key.now; line = line.now })) }
        ensures err { OnErr result (self.new ≡ self.old) }
        ensures all { AreFirstSorted }
    {
        let Some(next) = self.next.checked_add(1) else {
            return Err(AllocError);
        };
        let place = (key.to_vec(alloc)?, self.next);
        drop(self.kept.insert(place, line.to_vec(alloc)?)?);
        self.next = next;
        if self.kept.len() > self.limit {
            drop(self.kept.pop_last());
        }
        Ok(())
    }

    /// The rows that are kept, without their keys, one after another in the order of these.
    pub fn into_bytes(self, alloc: Global) -> Result<Vec<u8>, AllocError>
        ensures { IfOk result (λ bytes. bytes.items ≡ flat_map row_line self.rows) }
    {
        self.into_lines(alloc)?.concat(alloc)
    }

    // The rows that are kept, without their keys, in the order of these.
    fn into_lines(self, alloc: Global) -> Result<Vec<Vec<u8>>, AllocError>
        ensures { IfOk result (λ lines. map (λ line. line.items) lines.items
            ≡ map row_line self.rows) }
    {
        self.kept.into_values().collect(alloc)
    }
}
