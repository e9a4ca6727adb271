//! The laws of keys.

ghost use Rattle.std.specs.Prelude.{◌≡◌, ◌↔◌, ◌++◌, ◌∷◌, [], ◌+◌, ℕ, List, length, take, flat_map};
ghost use Rattle.jsonb_value.proofs.BigEndian.{AreBytes};
ghost use Rattle.jsonb_comparable.specs.Words.{slice_cmp, nat_cmp, ordering_then, KeyLaws, Doc};
ghost use Rattle.jsonb_comparable.specs.Words.{Tree, tree_cmp, IsTree, AreTrees, trees_of};
ghost use Rattle.jsonb_comparable.specs.Words.{meaning_of, array_of, object_of, tree_key};
ghost use Rattle.jsonb_comparable.specs.Words.{member_key, meaning_key, meaning_within, document};

use std::cmp::Ordering;

/// The laws of the keys of documents. `documents` says that they are laws of the trees of all
/// documents.
///
/// - `order`: keys compare as the documents do, and `equal`: they are the same exactly if the
///   documents are equal.
/// - `followed`: what follows a key counts only if the documents are equal. So `no_beginning`: no
///   key properly begins another; and `lists`: the keys of a list of documents, one after the
///   other, compare as the lists.
/// - `cut`: a beginning of a key is a lower bound: if it is above another key, its document is
///   above the other. `cut_both`: if beginnings of one length differ, they decide.
/// - `array`, `object`: the keys of items and members are parts of the key of the whole.
/// - `meaning`: the key of a `SortKey` that is a document is that of the document's tree.
pub fn key_laws()
    ensures order { (t u : Tree) → IsTree t → IsTree u
        → slice_cmp nat_cmp (tree_key t) (tree_key u) ≡ tree_cmp t u }
    ensures equal { (t u : Tree) → IsTree t → IsTree u
        → (tree_key t ≡ tree_key u) ↔ (tree_cmp t u ≡ Ordering.Equal) }
    ensures followed { (t u : Tree) → IsTree t → IsTree u → (x y : List ℕ)
        → slice_cmp nat_cmp (tree_key t ++ x) (tree_key u ++ y)
        ≡ ordering_then (tree_cmp t u) (slice_cmp nat_cmp x y) }
    ensures no_beginning { (t u : Tree) → IsTree t → IsTree u → (x y : List ℕ)
        → tree_key t ++ x ≡ tree_key u ++ y → (tree_cmp t u ≡ Ordering.Equal) × (x ≡ y) }
    ensures lists { (ts us : List Tree) → AreTrees (trees_of ts) → AreTrees (trees_of us)
        → slice_cmp nat_cmp (flat_map tree_key ts) (flat_map tree_key us)
        ≡ slice_cmp tree_cmp ts us }
    ensures cut { (t u : Tree) → IsTree t → IsTree u → (n : ℕ)
        → slice_cmp nat_cmp (take n (tree_key t)) (tree_key u) ≡ Ordering.Greater
        → tree_cmp t u ≡ Ordering.Greater }
    ensures cut_both { (t u : Tree) → IsTree t → IsTree u → (n : ℕ)
        → slice_cmp nat_cmp (take n (tree_key t)) (take n (tree_key u)) ≡ Ordering.Less
        → tree_cmp t u ≡ Ordering.Less }
    ensures array { (ts : List Tree) → tree_key (array_of ts)
        ≡ 192 ∷ (flat_map tree_key ts ++ (0 ∷ [])) }
    ensures object { (ps : List (List ℕ × Tree)) → tree_key (object_of ps)
        ≡ 176 ∷ (flat_map member_key ps ++ (0 ∷ [])) }
    ensures meaning { (t : Tree) → meaning_key (document t) ≡ tree_key t }
    ensures documents { (b : List ℕ) (t : Tree) → AreBytes b → Doc b t → IsTree t }
{}

/// The same laws of the keys of any bytes, but for those of parts: documents are below all other
/// bytes, and those compare as bytes.
#[tactic(auto, using(crate::proofs::KeyLaws::is_meaning, crate::proofs::KeyLaws::meanings_laws))]
pub fn key_laws_of_bytes()
    ensures { KeyLaws meaning_of }
{}

/// The same laws of the keys within a depth: documents that nest at most that deep are below all
/// other bytes, and those compare as bytes.
pub fn key_laws_within()
    ensures { (depth : ℕ) → KeyLaws (meaning_within depth) }
{}

/// The tree of a document has a key with these laws.
pub fn has_key(bytes: &[u8])
    ensures { (t : Tree) → Doc bytes.now t → IsTree t }
{}
