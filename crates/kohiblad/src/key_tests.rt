//! Whether some or all of several keys are in documents.

ghost use Rattle.std.specs.Prelude.{◌≡◌, IfErr, IfOk};
ghost use Rattle.kohiblad.specs.KeyTests.{AreKeysAnswered, has_all_keys, has_some_key};
ghost use Rattle.kohiblad.specs.Words.{Meaning, code, document_tree, meaning_within, no_truth};
ghost use Rattle.kohiblad.specs.Words.{truth_answer};

use crate::answer::{OTHER_KIND, code};
use crate::checked::checked;
use crate::names::read_names;
use crate::scalar::{KohibladTruth, no_truth, truth_of};
use jsonb::{Document, Error};
use jsonb_functions::{exists_all, exists_any};
use std::alloc::Global;

/// Whether some of these keys is in a document, in the sense of `kohiblad_exists`, as 0 or 1; of no
/// keys none is. `names` is the document of an array of texts; it does not matter how often or in
/// which order they are listed. `InvalidJsonb` if the bytes or the names are not a document of at
/// most this depth; `OTHER_KIND` if the names are not an array of texts; `OutOfMemory` if an
/// allocation fails.
#[unsafe(no_mangle)]
pub extern "C" fn kohiblad_exists_any(
    alloc: Global,
    bytes: &[u8],
    names: &[u8],
    depth: usize,
) -> KohibladTruth
    ensures { AreKeysAnswered has_some_key (meaning_within depth bytes.now)
        (meaning_within depth names.now) result }
{
    let (Ok(document), Ok(names)) = (checked(bytes, depth), checked(names, depth)) else {
        return no_truth(code(Error::InvalidJsonb));
    };
    some_key(alloc, document, names)
}

// Whether some of the keys that a document gives is there.
fn some_key(alloc: Global, document: Document<'_>, names: Document<'_>) -> KohibladTruth
    ensures { AreKeysAnswered has_some_key (Meaning.document (document_tree document.entry))
        (Meaning.document (document_tree names.entry)) result }
{
    match read_names(alloc, names) {
        Ok(Some(names)) => tested(exists_any(alloc, document, &names)),
        Ok(None) => no_truth(OTHER_KIND),
        Err(error) => no_truth(code(error)),
    }
}

/// Whether all of these keys are in a document, in the sense of `kohiblad_exists`, as 0 or 1; of no
/// keys all are. `names` is the document of an array of texts; it does not matter how often or in
/// which order they are listed. `InvalidJsonb` if the bytes or the names are not a document of at
/// most this depth; `OTHER_KIND` if the names are not an array of texts; `OutOfMemory` if an
/// allocation fails.
#[unsafe(no_mangle)]
pub extern "C" fn kohiblad_exists_all(
    alloc: Global,
    bytes: &[u8],
    names: &[u8],
    depth: usize,
) -> KohibladTruth
    ensures { AreKeysAnswered has_all_keys (meaning_within depth bytes.now)
        (meaning_within depth names.now) result }
{
    let (Ok(document), Ok(names)) = (checked(bytes, depth), checked(names, depth)) else {
        return no_truth(code(Error::InvalidJsonb));
    };
    all_keys(alloc, document, names)
}

// Whether all of the keys that a document gives are there.
fn all_keys(alloc: Global, document: Document<'_>, names: Document<'_>) -> KohibladTruth
    ensures { AreKeysAnswered has_all_keys (Meaning.document (document_tree document.entry))
        (Meaning.document (document_tree names.entry)) result }
{
    match read_names(alloc, names) {
        Ok(Some(names)) => tested(exists_all(alloc, document, &names)),
        Ok(None) => no_truth(OTHER_KIND),
        Err(error) => no_truth(code(error)),
    }
}

// The truth value of a test, or the status of its error.
fn tested(test: Result<bool, Error>) -> KohibladTruth
    ensures ok { IfOk test (λ b. result ≡ truth_answer b) }
    ensures err { IfErr test (λ e. result ≡ no_truth (code e)) }
{
    match test {
        Ok(value) => truth_of(value),
        Err(error) => no_truth(code(error)),
    }
}
