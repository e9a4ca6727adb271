//! Stores a JSON text.

ghost use Rattle.std.specs.Prelude.{◌≡◌, chars, IfOk};
ghost use Rattle.jsonb.specs.Words.{Json, Tree, canon};

use jsonb::{Error, OwnedJsonb};
use std::alloc::Global;

/// The canonical document of a JSON text. `InvalidJson` if the text is not accepted JSON,
/// `InvalidJsonb` if its value exceeds a limit, `OutOfMemory` if an allocation fails.
pub fn document_of(alloc: Global, text: &str) -> Result<Vec<u8>, Error>
    ensures { IfOk result (λ bytes. (t : Tree) × (Json (chars text.now) t
        × (bytes.items ≡ canon t))) }
{
    Ok(OwnedJsonb::parse(alloc, text)?.to_vec())
}
