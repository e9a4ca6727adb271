//! Laws of documents, of canonical documents and of printed texts.

ghost use Rattle.std.specs.Prelude.{◌≡◌, ◌↔◌, ◌++◌, ℕ, List, [], chars};
ghost use Rattle.jsonb_codec.specs.Canon.{Fits};
ghost use Rattle.jsonb_codec.specs.Words.{Doc, DocumentLaws, IsDocument, IsPlain, IsTree};
ghost use Rattle.jsonb_codec.specs.Words.{MeansAgain, Tree, canon, compact, norm, pretty};

/// Laws of documents: each means exactly one tree, and none is a proper prefix of another.
/// `documents` says more of each: its length bounds the size and the depth of its tree, and without
/// a zero byte it has at least 65,793 payloads of at least 65,793 bytes each.
pub fn document_laws()
    ensures one_tree { (b : List ℕ) (t u : Tree) → Doc b t → Doc b u → t ≡ u }
    ensures prefix_free { (a c : List ℕ) → IsDocument a → IsDocument (a ++ c) → c ≡ [] }
    ensures documents { (b : List ℕ) → IsDocument b → DocumentLaws b }
{}

/// The canonical document of a tree that fits means the tree with signed zeros made unsigned; trees
/// that differ in more than that have different canonical documents.
pub fn canonical_laws()
    ensures means { (t : Tree) → IsTree t → Fits t → Doc (canon t) (norm t) }
    ensures distinct { (t u : Tree) → IsTree t → IsTree u → Fits t → Fits u
        → (canon t ≡ canon u) ↔ (norm t ≡ norm u) }
{}

/// Printed texts can be parsed: if a tree fits the format and has no extension value, its compact
/// text is a JSON text whose tree fits the format and compares `Equal` to it; the same holds for
/// its pretty text.
#[tactic(auto, using(crate::proofs::RereadLaws::reread_text))]
pub fn printed_text_laws()
    ensures compact { (t : Tree) → IsTree t → IsPlain t → Fits t
        → MeansAgain (chars (compact t)) t }
    ensures pretty { (t : Tree) → IsTree t → IsPlain t → Fits t → MeansAgain (chars (pretty t)) t }
{}
