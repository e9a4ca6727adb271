//! Keys that own their bytes.

ghost use Rattle.std.specs.Prelude.{Some, nat_eq, refl};
ghost use Rattle.std.specs.Hash as fed;
ghost use Rattle.std.proofs.Common.{rules};
ghost use Rattle.jsonb_comparable.specs.Words.{on_equiv, on_per, on_po, on_total, pointwise};
ghost use Rattle.jsonb_comparable.specs.Words.{partial_equiv_from_equiv, nat_list_cmp_total};
ghost use Rattle.jsonb_comparable.specs.Words.{nat_list_eq_equiv, slice_cmp, texts_po, texts_ties};
ghost use Rattle.jsonb_comparable.specs.Words.{hashing, nat_cmp, comparable_bytes};

use crate::key::append_key;
use jsonb::{Error, SortKey};
use std::alloc::Global;
use std::cmp::Ordering;
use std::hash::{Hash, Hasher};

/// The key of a document, or of any bytes, which owns its bytes. Keys are equal, and ordered, as
/// what they were made of.
#[derive(Debug, Drop)]
pub struct ComparableKey {
    bytes: Vec<u8>,
}

impl ComparableKey {
    ghost use Rattle.std.specs.Prelude.{◌≡◌, IfErr, IfOk};
    ghost use Rattle.jsonb_comparable.specs.Words.{IsKeyOf, key_meaning, meaning_key};

    /// The key of a document or of any bytes, as `append_key` appends it. `OutOfMemory` is the only
    /// error.
    pub fn new(alloc: Global, key: SortKey<'_>) -> Result<Self, Error>
        ensures ok { IfOk result
            (λ made. comparable_bytes made ≡ meaning_key (key_meaning key.entry)) }
        ensures memory { IfErr result (λ e. e ≡ Error.OutOfMemory) }

        // The key compares with the keys of all bytes, and followed by them, as what they mean.
        ensures laws { IsKeyOf (key_meaning key.entry) (meaning_key (key_meaning key.entry)) }
    {
        let mut bytes = Vec::new(alloc);
        append_key(key, &mut bytes)?;
        Ok(ComparableKey { bytes })
    }

    /// The bytes.
    pub fn as_bytes(&self) -> &[u8]
        ensures { result.now ≡ comparable_bytes self.now }
    {
        self.bytes.as_slice()
    }

    /// The bytes, by themselves.
    pub fn into_bytes(self) -> Vec<u8>
        ensures { result.items ≡ comparable_bytes self }
    {
        let ComparableKey { bytes } = self;
        bytes
    }
}

impl PartialEq for ComparableKey {
    ghost eq = { λ x y. pointwise nat_eq (comparable_bytes x) (comparable_bytes y) };

    ghost laws = { on_per comparable_bytes (partial_equiv_from_equiv nat_list_eq_equiv) };

    fn eq(&self, other: &Self) -> bool {
        self.as_bytes() == other.as_bytes()
    }
}

impl Eq for ComparableKey {
    ghost laws = { on_equiv comparable_bytes nat_list_eq_equiv };
}

impl PartialOrd for ComparableKey {
    ghost partial_cmp = { λ x y. Some
        (slice_cmp nat_cmp (comparable_bytes x) (comparable_bytes y)) };

    ghost laws = { on_po comparable_bytes texts_po };

    fn partial_cmp(&self, other: &Self) -> Option<Ordering> {
        Some(self.cmp(other))
    }
}

impl Ord for ComparableKey {
    ghost cmp = { λ x y. slice_cmp nat_cmp (comparable_bytes x) (comparable_bytes y) };

    ghost total = { on_total comparable_bytes nat_list_cmp_total };

    ghost matches_partial_cmp = { λ x y. refl };

    ghost matches_eq = { λ x y. texts_ties (comparable_bytes x) (comparable_bytes y) };

    /// The order of the bytes.
    fn cmp(&self, other: &Self) -> Ordering {
        self.as_bytes().cmp(other.as_bytes())
    }
}

impl Hash for ComparableKey {
    ghost hash_input = { λ key. fed.slice fed.u8 (comparable_bytes key) };

    ghost respects_eq = { Prim.search (hashing, rules) };

    fn hash<H: Hasher>(&self, state: &mut H) {
        self.as_bytes().hash(state);
    }
}
