//! The order of borrowed bytes, documents or not.

ghost use Rattle.std.proofs.Common.{rules};
ghost use Rattle.jsonb_value.proofs.MeaningLaws.{meaning_cmp_total};
ghost use Rattle.jsonb.specs.Words.{on_total, eq_by_cmp_equiv, partial_equiv_from_equiv, comparing};
ghost use Rattle.jsonb.specs.Words.{partial_order_from_total, on, eq_by_cmp, as_partial_cmp};
ghost use Rattle.jsonb.specs.Words.{meaning_cmp, raw_meaning};

use super::cmp_bytes;
use crate::raw::RawJsonb;
use std::cmp::Ordering;

impl PartialEq for RawJsonb<'_> {
    ghost eq = { eq_by_cmp (on raw_meaning meaning_cmp) };

    ghost laws = { partial_equiv_from_equiv
        (eq_by_cmp_equiv (on_total raw_meaning meaning_cmp_total)) };

    fn eq(&self, other: &Self) -> bool {
        self.cmp(other).is_eq()
    }
}

impl Eq for RawJsonb<'_> {
    ghost laws = { eq_by_cmp_equiv (on_total raw_meaning meaning_cmp_total) };
}

impl PartialOrd for RawJsonb<'_> {
    ghost partial_cmp = { as_partial_cmp (on raw_meaning meaning_cmp) };

    ghost laws = { partial_order_from_total (on_total raw_meaning meaning_cmp_total) };

    fn partial_cmp(&self, other: &Self) -> Option<Ordering> {
        Some(self.cmp(other))
    }
}

impl Ord for RawJsonb<'_> {
    ghost cmp = { on raw_meaning meaning_cmp };

    ghost total = { on_total raw_meaning meaning_cmp_total };

    ghost matches_partial_cmp = { Prim.search (comparing, rules) };

    ghost matches_eq = { Prim.search (comparing, rules) };

    /// Compares the bytes by their meaning: documents compare by their values and are less than all
    /// other bytes, which compare as bytes.
    fn cmp(&self, other: &Self) -> Ordering {
        cmp_bytes(self.as_bytes(), other.as_bytes())
    }
}
