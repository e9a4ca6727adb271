//! The laws of the least type.

ghost use Rattle.std.specs.Prelude.{◌≡◌, All, List};
ghost use Rattle.std.specs.List.{AllZip};
ghost use Rattle.jsonb_typed.specs.Words.{Cell, Document, Fit, IsCellAt, IsFirstHeld, IsHeldAt};
ghost use Rattle.jsonb_typed.specs.Words.{LeastType, LeavesNull, Mixed, StandsIn, Step, Tree};
ghost use Rattle.jsonb_typed.specs.Words.{ValueOf};

/// Unless the least type is `Mixed`, it holds the member of each row, and a column of it keeps no
/// document but `null`. In each type one value at most stands for a member.
pub fn least_laws()
    ensures held { (fit : Fit) (path : List Step) (rows : List Document)
        (candidates : List LeastType) (found : LeastType)
        → IsFirstHeld fit path rows candidates found → (found ≡ Mixed → ⊥)
        → All (IsHeldAt fit found path) rows }
    ensures rest { (fit : Fit) (path : List Step) (found : LeastType) (rows : List Document)
        (column : List (Cell (ValueOf found))) → (found ≡ Mixed → ⊥)
        → All (IsHeldAt fit found path) rows
        → AllZip (IsCellAt (StandsIn fit found) path) rows column → All LeavesNull column }
    ensures one { (fit : Fit) (found : LeastType) (v w : ValueOf found) (t : Tree)
        → StandsIn fit found v t → StandsIn fit found w t → v ≡ w }
{}
