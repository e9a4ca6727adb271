//! The order of values in documents is that of their trees.

ghost use Rattle.std.proofs.Common.{rules};
ghost use Rattle.jsonb_value.proofs.TreeLaws.{tree_cmp_total};
ghost use Rattle.jsonb.specs.Words.{on_total, eq_by_cmp_equiv, partial_equiv_from_equiv, comparing};
ghost use Rattle.jsonb.specs.Words.{partial_order_from_total, on, eq_by_cmp, as_partial_cmp};
ghost use Rattle.jsonb.specs.Words.{tree_cmp, node_tree};

use super::walk::cmp_nodes;
use crate::node::Node;
use std::cmp::Ordering;

impl PartialEq for Node<'_> {
    ghost eq = { eq_by_cmp (on node_tree tree_cmp) };

    ghost laws = { partial_equiv_from_equiv
        (eq_by_cmp_equiv (on_total node_tree tree_cmp_total)) };

    fn eq(&self, other: &Self) -> bool {
        self.cmp(other).is_eq()
    }
}

impl Eq for Node<'_> {
    ghost laws = { eq_by_cmp_equiv (on_total node_tree tree_cmp_total) };
}

impl PartialOrd for Node<'_> {
    ghost partial_cmp = { as_partial_cmp (on node_tree tree_cmp) };

    ghost laws = { partial_order_from_total (on_total node_tree tree_cmp_total) };

    fn partial_cmp(&self, other: &Self) -> Option<Ordering> {
        Some(self.cmp(other))
    }
}

impl Ord for Node<'_> {
    ghost cmp = { on node_tree tree_cmp };

    ghost total = { on_total node_tree tree_cmp_total };

    ghost matches_partial_cmp = { Prim.search (comparing, rules) };

    ghost matches_eq = { Prim.search (comparing, rules) };

    /// The order of the trees.
    fn cmp(&self, other: &Self) -> Ordering {
        cmp_nodes(self.opened(), other.opened())
    }
}
