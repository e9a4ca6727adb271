//! Laws that callers' proofs can cite.

ghost use Rattle.std.specs.Prelude.{◌≡◌, ℕ, List, [], Some, map, true};
ghost use Rattle.jsonb_value.proofs.BigEndian.{AreBytes};
ghost use Rattle.jsonb_functions.specs.declared.filter.Condition.{Condition};
ghost use Rattle.jsonb_functions.specs.declared.filter.Term.{Term};
ghost use Rattle.jsonb_functions.specs.Words.{AreTerms, term_view};
ghost use Rattle.jsonb_functions.specs.Words.{AnyOf, any_terms, holds, meets_any};
ghost use Rattle.jsonb_functions.specs.Words.{AreAmong, Doc, Fits, IsAmong, IsTree, StepView, Tree};
ghost use Rattle.jsonb_functions.specs.Words.{canon, contains_whole, has_top_key, hash_of_key};
ghost use Rattle.jsonb_functions.specs.Words.{path_in, path_tree, stored_step, top_hashes};
ghost use Rattle.jsonb_functions.specs.Words.{tree_hashes};

/// The index keys of what a document contains are among those of the document, so an index that
/// looks for documents by the keys of another document misses none that contains it. `exists` says
/// the same of the keys that `append_top_keys` appends: if a key exists in a document, its hash is
/// among them. `documents` says that these are laws of the trees of all documents.
pub fn index_key_laws()
    ensures contained { (t u : Tree) → IsTree t → IsTree u → contains_whole t u ≡ true
        → AreAmong (tree_hashes [] u) (tree_hashes [] t) }
    ensures exists { (t : Tree) (k : List ℕ) → has_top_key k t ≡ true
        → IsAmong (hash_of_key k) (top_hashes t) }
    ensures documents { (b : List ℕ) (t : Tree) → AreBytes b → Doc b t → IsTree t }
{}

/// The document of a path means its steps, and the path that `read_path` reads in it is that path,
/// with each index from the end as it is stored.
pub fn path_document_laws()
    ensures means { (path : List StepView) → IsTree (path_tree path) → Fits (path_tree path)
        → Doc (canon (path_tree path)) (path_tree path) }
    ensures read { (path : List StepView) → path_in (path_tree path) ≡ Some (map stored_step path) }
{}

/// What the terms of a condition mean. A condition holds if one of the parts that `||` joins does,
/// such a part if all that `&&` joins in it hold; these are tests and groups in parentheses, and a
/// group after `!` holds if what is in it does not. `written` says that the terms of each text are
/// those of such a condition.
pub fn condition_law()
    ensures holds { (a : AnyOf) (condition : Condition) (t : Tree)
        → condition.terms.items ≡ any_terms a → holds condition t ≡ meets_any a t }
    ensures written { (text : List ℕ) (terms : List Term) (rest : List ℕ)
        → AreTerms true 0 text (map term_view terms) rest
        → (a : AnyOf) × (terms ≡ any_terms a) }
{}
