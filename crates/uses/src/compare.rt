//! Compares two documents by value.

ghost use Rattle.std.specs.Prelude.{◌≡◌, ◌↔◌, IsTrue};
ghost use Rattle.jsonb.specs.Words.{Tree, tree_cmp, Doc};

use jsonb::RawJsonb;
use std::cmp::Ordering;

/// Whether two documents have equal values: 5 and 5.0 are equal, however they are stored.
pub fn is_same_value(left: &[u8], right: &[u8]) -> bool
    ensures { (t u : Tree) → Doc left.now t → Doc right.now u
        → IsTrue result ↔ (tree_cmp t u ≡ Ordering.Equal) }
{
    RawJsonb::new(left) == RawJsonb::new(right)
}
