//! Brings documents of older writers to canonical form.

ghost use Rattle.std.specs.Prelude.{◌≡◌, IfOk};
ghost use Rattle.jsonb.specs.Words.{Tree, canon, Doc};

use jsonb::{Error, RawJsonb};
use std::alloc::Global;

/// The canonical document of the value that the bytes mean. `InvalidJsonb` if they are not a
/// document, or a payload in an older form exceeds its limit in its newer form; `OutOfMemory` if an
/// allocation fails.
pub fn canonical_bytes(alloc: Global, bytes: &[u8]) -> Result<Vec<u8>, Error>
    ensures { IfOk result (λ canonical. (t : Tree) × (Doc bytes.now t
        × (canonical.items ≡ canon t))) }
{
    Ok(RawJsonb::new(bytes).to_canonical(alloc)?.to_vec())
}
