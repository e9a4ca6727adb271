//! Prints a document from its bytes.

ghost use Rattle.std.specs.Prelude.{◌≡◌, string_bytes, IfOk};
ghost use Rattle.jsonb.specs.Words.{pretty, Tree, Doc};

use jsonb::{Error, RawJsonb};
use std::alloc::Global;

/// The text of a document, with an item or a pair on each line. `InvalidJsonb` if the bytes are not
/// a document, `OutOfMemory` if an allocation fails.
pub fn pretty_text(alloc: Global, bytes: &[u8]) -> Result<String, Error>
    ensures { (t : Tree) → Doc bytes.now t
        → IfOk result (λ text. string_bytes text ≡ pretty t) }
{
    let Some(document) = RawJsonb::new(bytes).as_document() else {
        return Err(Error::InvalidJsonb);
    };
    document.to_pretty_string(alloc)
}
