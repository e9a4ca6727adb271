//! Bytes that a caller says are a document.

ghost use Rattle.std.specs.Prelude.{◌≡◌, IfErr, IfOk};
ghost use Rattle.kohiblad.specs.Words.{Error, document, document_tree, meaning_within, other_bytes};

use jsonb::{Document, Error, SortKey};

/// The document that the bytes are. `InvalidJsonb`, the only error, if they are not a document of
/// at most this depth.
pub fn checked(bytes: &[u8], depth: usize) -> Result<Document<'_>, Error>
    ensures ok { IfOk result
        (λ it. meaning_within depth bytes.now ≡ document (document_tree it)) }
    ensures err { IfErr result (λ e. (e ≡ Error.InvalidJsonb)
        × (meaning_within depth bytes.now ≡ other_bytes bytes.now)) }
{
    match SortKey::within(bytes, depth) {
        SortKey::Document(document) => Ok(document),
        SortKey::Other(_) => Err(Error::InvalidJsonb),
    }
}
