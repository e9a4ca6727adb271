//! The order of checked documents is that of their trees.

ghost use Rattle.std.proofs.Common.{rules};
ghost use Rattle.jsonb_value.proofs.TreeLaws.{tree_cmp_total};
ghost use Rattle.jsonb.specs.Words.{on_total, eq_by_cmp_equiv, partial_equiv_from_equiv, comparing};
ghost use Rattle.jsonb.specs.Words.{partial_order_from_total, on, eq_by_cmp, as_partial_cmp};
ghost use Rattle.jsonb.specs.Words.{tree_cmp, document_tree};

use super::walk::cmp_documents;
use crate::document::Document;
use std::cmp::Ordering;

impl PartialEq for Document<'_> {
    ghost eq = { eq_by_cmp (on document_tree tree_cmp) };

    ghost laws = { partial_equiv_from_equiv
        (eq_by_cmp_equiv (on_total document_tree tree_cmp_total)) };

    fn eq(&self, other: &Self) -> bool {
        self.cmp(other).is_eq()
    }
}

impl Eq for Document<'_> {
    ghost laws = { eq_by_cmp_equiv (on_total document_tree tree_cmp_total) };
}

impl PartialOrd for Document<'_> {
    ghost partial_cmp = { as_partial_cmp (on document_tree tree_cmp) };

    ghost laws = { partial_order_from_total (on_total document_tree tree_cmp_total) };

    fn partial_cmp(&self, other: &Self) -> Option<Ordering> {
        Some(self.cmp(other))
    }
}

impl Ord for Document<'_> {
    ghost cmp = { on document_tree tree_cmp };

    ghost total = { on_total document_tree tree_cmp_total };

    ghost matches_partial_cmp = { Prim.search (comparing, rules) };

    ghost matches_eq = { Prim.search (comparing, rules) };

    /// Compares the values of the two documents.
    fn cmp(&self, other: &Self) -> Ordering {
        cmp_documents(*self, *other)
    }
}
