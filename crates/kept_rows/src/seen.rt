//! Which rows are the first of their key.

ghost use Rattle.std.specs.Prelude.{◌≡◌, ℕ, List, [], IfOk, OnErr, OnOk, map, not};
ghost use Rattle.kept_rows.specs.FirstRows.{AreFirstByKeys, has_key, with_key};

use indexmap::IndexSet;
use std::alloc::{AllocError, Global};
use std::marker::Model;

/// The keys of the rows so far, each once, in the order in which they first came.
#[derive(Drop)]
pub struct SeenKeys {
    stored: IndexSet<Vec<u8>>,
}

impl Model for SeenKeys {
    ghost Value = { List (List ℕ) };

    ghost view = { λ seen. map (λ key. key.items) seen.stored.keys };
}

impl SeenKeys {
    /// No keys.
    pub fn new(alloc: Global) -> SeenKeys
        ensures { result ≡ [] }
    {
        SeenKeys {
            stored: IndexSet::new(alloc),
        }
    }

    /// Adds the key of one more row, and returns whether the row is the first of that key. So the
    /// rows of which that is returned, from no keys on, are those whose key no earlier row has.
    #[tactic(auto, using(crate::proofs::FirstLaws::first_by_keys))]
    pub fn add(&mut self, key: Vec<u8>) -> Result<bool, AllocError>
        ensures first { IfOk result (λ is_first. is_first ≡ not (has_key self.old key.items)) }
        ensures ok { OnOk result (self.new ≡ with_key self.old key.items) }
        ensures err { OnErr result (self.new ≡ self.old) }
        ensures all { AreFirstByKeys }
    {
        Ok(self.stored.insert(key)?)
    }
}
