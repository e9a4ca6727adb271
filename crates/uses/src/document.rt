//! Checks bytes once, and then reads from them without errors.

ghost use Rattle.std.specs.Prelude.{◌≡◌, codes, Some, IfSome};
ghost use Rattle.jsonb.specs.Words.{Tree, text, Doc, value_of_key};

use jsonb::{Document, Node};

/// The string at the key `title` of a document of depth at most 64. `None` if there is none, or the
/// bytes are not such a document.
pub fn title_of(bytes: &[u8]) -> Option<&str>
    ensures { (t : Tree) → Doc bytes.entry.now t
        → IfSome result (λ title. value_of_key (codes "title") t ≡ Some (text title.now)) }
{
    match Document::within(bytes, 64)?.get("title")? {
        Node::String(title) => Some(title),
        _ => None,
    }
}
