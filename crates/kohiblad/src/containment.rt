//! Whether documents contain others, and keys.

ghost use Rattle.std.specs.Prelude.{◌≡◌, IsUtf8};
ghost use Rattle.kohiblad.specs.Words.{Error, IsContainedAnswer, code, exists_answer};
ghost use Rattle.kohiblad.specs.Words.{meaning_within, no_truth};

use crate::answer::{TOO_MANY_STEPS, code};
use crate::checked::checked;
use crate::scalar::{KohibladTruth, no_truth, truth_of};
use jsonb::Error;
use jsonb_functions::{contains_within, exists};
use simdutf8::basic;
use std::alloc::Global;

/// Whether the document `left` contains `right`, as 0 or 1. An object contains the objects whose
/// keys it has, with values that contain those; an array contains the arrays for each of whose
/// items it has one that contains it; a scalar contains what equals it; and at the top an array
/// also contains a scalar that is one of its items. `TOO_MANY_STEPS` exactly if that takes more
/// than `steps` steps. There is one for each pair of values that are compared, and for each member
/// that is passed in search of a key, up to the first whose key is not below it; and one for each
/// byte of the keys of these members, and of two texts, or two binary or opaque values, that are
/// compared and equally long: 4 for {"a":1} in {"a":1}. If more than 16 items are looked for in an
/// array of more than 16, there is a step in place of these for each scalar of the array, which are
/// sorted, and for each that is looked for, and one for each of its bytes. `steps` always suffice
/// that are at least the product of the weights of both, the numbers of their values and keys and
/// of the bytes of texts, keys, and binary and opaque values. `InvalidJsonb` if `left` or `right`
/// is not a document of at most this depth; `OutOfMemory` if an allocation fails, which only such a
/// sort makes.
#[unsafe(no_mangle)]
pub extern "C" fn kohiblad_contains(
    alloc: Global,
    left: &[u8],
    right: &[u8],
    depth: usize,
    steps: usize,
) -> KohibladTruth
    ensures { IsContainedAnswer steps (meaning_within depth left.now)
        (meaning_within depth right.now) result }
{
    let (Ok(left), Ok(right)) = (checked(left, depth), checked(right, depth)) else {
        return no_truth(code(Error::InvalidJsonb));
    };
    match contains_within(alloc, left, right, steps) {
        Ok(Some(is_contained)) => truth_of(is_contained),
        Ok(None) => no_truth(TOO_MANY_STEPS),
        Err(error) => no_truth(code(error)),
    }
}

/// Whether the document is an object with this key, an array with this text among its items, or the
/// text itself, as 0 or 1. `InvalidUtf8` if the key is not UTF-8; `InvalidJsonb` if the bytes are
/// not a document of at most this depth.
#[unsafe(no_mangle)]
pub extern "C" fn kohiblad_exists(bytes: &[u8], key: &[u8], depth: usize) -> KohibladTruth
    ensures utf8 { (IsUtf8 key.now → ⊥) → result ≡ no_truth (code Error.InvalidUtf8) }
    ensures answer { IsUtf8 key.now
        → result ≡ exists_answer (meaning_within depth bytes.now) key.now }
{
    let Ok(key) = basic::from_utf8(key) else {
        return no_truth(code(Error::InvalidUtf8));
    };
    match checked(bytes, depth) {
        Ok(document) => truth_of(exists(document, key)),
        Err(error) => no_truth(code(error)),
    }
}
