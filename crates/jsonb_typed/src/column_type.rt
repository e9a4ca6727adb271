//! What makes a type of columns.

ghost use Rattle.std.specs.Prelude.{◌≡◌, MatchOption};
ghost use Rattle.jsonb_typed.specs.Words.{HoldsNoScalar, HoldsScalars, Tree, node_tree};

use jsonb::Node;

/// A type of columns: which members are values of it.
pub trait ColumnType {
    type Value: Copy;

    ghost stands: { Self → Self.Value → Tree → Type 0 };

    ghost scalars: { (s : Self) → HoldsScalars (stands s) };

    ghost blank: { Self → Self.Value };

    /// What fills the vector where a row has no value.
    fn blank(&self) -> Self::Value
        ensures { result ≡ blank self.now };

    /// The value that stands for a member. `None` if no value does.
    fn value_of(&self, member: Node<'_>) -> Option<Self::Value>
        requires { HoldsNoScalar member }
        ensures { MatchOption result
            ((v : Self.Value) → stands self.now v (node_tree member.entry) → ⊥)
            (λ v. stands self.now v (node_tree member.entry)) };
}
