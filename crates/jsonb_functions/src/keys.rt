//! The keys of objects.

ghost use Rattle.std.specs.Prelude.{◌≡◌, IfErr, IfOk, option_map};
ghost use Rattle.jsonb_functions.specs.Words.{IsObject, Pairs, array, canon, document_tree};
ghost use Rattle.jsonb_functions.specs.Words.{key_array, key_texts, owned_bytes};

use jsonb::constants::CONTAINER_TAG;
use jsonb::layer::parts::{Contents, Object, Part};
use jsonb::layer::writer::{Level, append_document};
use jsonb::{Document, Error, OwnedJsonb};
use std::alloc::Global;

/// The canonical document of an array of an object's keys: texts in the order in which the keys are
/// stored, which is that of their bytes. `None` if the document is not an object. `OutOfMemory` is
/// the only error.
pub fn object_keys(alloc: Global, document: Document<'_>) -> Result<Option<OwnedJsonb>, Error>
    ensures ok { IfOk result (λ keys. option_map owned_bytes keys
        ≡ option_map canon (key_array (document_tree document.entry))) }
    ensures memory { IfErr result (λ e. e ≡ Error.OutOfMemory) }
{
    let part = document.part();
    if part.type_code != CONTAINER_TAG {
        return Ok(None);
    }
    match part.contents() {
        Contents::Array(_) => Ok(None),
        Contents::Object(object) => {
            let keys = key_document(alloc, object)?;
            Ok(Some(keys))
        }
    }
}

// The array of an object's keys.
fn key_document(alloc: Global, object: Object<'_>) -> Result<OwnedJsonb, Error>
    ensures ok { IfOk result (λ owned. (ps : Pairs)
        → IsObject object.entry.count object.entry.body.now ps
        → owned_bytes owned ≡ canon (array (key_texts ps))) }
    ensures memory { IfErr result (λ e. e ≡ Error.OutOfMemory) }
{
    let mut bytes = Vec::new(alloc);
    append_document::<Part>(&mut bytes, Level::Array(object.members().keys))?;
    Ok(OwnedJsonb::new(bytes))
}
