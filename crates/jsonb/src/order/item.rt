//! The order of items.

ghost use Rattle.std.proofs.Common.{rules};
ghost use Rattle.jsonb_value.proofs.MeaningLaws.{meaning_cmp_total};
ghost use Rattle.jsonb.specs.Words.{on_total, eq_by_cmp_equiv, partial_equiv_from_equiv, comparing};
ghost use Rattle.jsonb.specs.Words.{partial_order_from_total, on, eq_by_cmp, as_partial_cmp};
ghost use Rattle.jsonb.specs.Words.{meaning_cmp, item_meaning};

use super::cmp_meanings;
use crate::item::JsonbItem;
use std::cmp::Ordering;

impl PartialEq for JsonbItem<'_> {
    ghost eq = { eq_by_cmp (on item_meaning meaning_cmp) };

    ghost laws = { partial_equiv_from_equiv
        (eq_by_cmp_equiv (on_total item_meaning meaning_cmp_total)) };

    fn eq(&self, other: &Self) -> bool {
        self.cmp(other).is_eq()
    }
}

impl Eq for JsonbItem<'_> {
    ghost laws = { eq_by_cmp_equiv (on_total item_meaning meaning_cmp_total) };
}

impl PartialOrd for JsonbItem<'_> {
    ghost partial_cmp = { as_partial_cmp (on item_meaning meaning_cmp) };

    ghost laws = { partial_order_from_total (on_total item_meaning meaning_cmp_total) };

    fn partial_cmp(&self, other: &Self) -> Option<Ordering> {
        Some(self.cmp(other))
    }
}

impl Ord for JsonbItem<'_> {
    ghost cmp = { on item_meaning meaning_cmp };

    ghost total = { on_total item_meaning meaning_cmp_total };

    ghost matches_partial_cmp = { Prim.search (comparing, rules) };

    ghost matches_eq = { Prim.search (comparing, rules) };

    /// Compares two items by their meaning: a document counts as its value, in whatever form it is
    /// held.
    fn cmp(&self, other: &Self) -> Ordering {
        cmp_meanings(self, other)
    }
}
