//! The laws of what bytes are and mean within a depth.

ghost use Rattle.std.specs.Prelude.{◌≡◌, ◌↔◌, ◌≤◌, ℕ, List, length};
ghost use Rattle.kohiblad.specs.Words.{Doc, IsDocument, IsDocumentWithin, Tree, compact, depth};
ghost use Rattle.kohiblad.specs.Words.{display_text, document, lined_text, meaning_of};
ghost use Rattle.kohiblad.specs.Words.{meaning_within, plain_text, pretty, pretty_display_text};

/// A depth that is no less than the number of bytes is no limit, since bytes do not nest deeper
/// than they are many. For `SIZE_MAX` that holds of all bytes. So what the calls with a depth say
/// is what a call without one would say:
///
/// - `document`: the bytes are a document of at most that depth exactly if they are a document.
/// - `meaning`: they mean what they mean without a depth, so they compare and sort as `RawJsonb`
///   does.
/// - `text`, `pretty`: their texts are those that `RawJsonb` prints.
pub fn any_depth_laws()
    ensures document { (b : List ℕ) (d : ℕ) → length b ≤ d → IsDocumentWithin d b ↔ IsDocument b }
    ensures meaning { (b : List ℕ) (d : ℕ) → length b ≤ d → meaning_within d b ≡ meaning_of b }
    ensures text { (b : List ℕ) (d : ℕ) → length b ≤ d
        → plain_text (meaning_within d b) ≡ display_text b }
    ensures pretty { (b : List ℕ) (d : ℕ) → length b ≤ d
        → lined_text (meaning_within d b) ≡ pretty_display_text b }
{}

/// A document that does not nest deeper than the depth means its tree (`meaning`). Its text is the
/// compact text of the tree (`text`), and its pretty text is that of the tree (`pretty`).
#[tactic(auto, using(jsonb::proofs::WithinLaws::document_within))]
pub fn within_laws()
    ensures meaning { (b : List ℕ) (t : Tree) (d : ℕ) → Doc b t → depth t ≤ d
        → meaning_within d b ≡ document t }
    ensures text { (b : List ℕ) (t : Tree) (d : ℕ) → Doc b t → depth t ≤ d
        → plain_text (meaning_within d b) ≡ compact t }
    ensures pretty { (b : List ℕ) (t : Tree) (d : ℕ) → Doc b t → depth t ≤ d
        → lined_text (meaning_within d b) ≡ pretty t }
{}
