//! Copies of objects with some of their members, and the keys of objects.

ghost use Rattle.std.specs.Prelude.{◌≡◌};
ghost use Rattle.kohiblad.specs.Picked.{AreKeysCopied, IsPickedDocument, kept_by};
ghost use Rattle.kohiblad.specs.Words.{meaning_within};

use crate::answer::{NONE, OTHER_KIND, code, hand_over_made, refuse};
use crate::checked::checked;
use crate::names::read_names;
use jsonb::Error;
use jsonb_functions::{Kept, object_keys, pick};
use std::alloc::Global;

/// Copies the canonical document of an object with some of its members to `out`. `names` is the
/// document of an array of texts. With `others` 0 the members whose keys are among them are kept,
/// and otherwise the others; it does not matter how often or in which order they are listed. What
/// is not an object is kept whole. `InvalidJsonb` if the bytes or the names are not a document of
/// at most this depth, or the result exceeds a limit of the format; `OTHER_KIND` if the names are
/// not an array of texts; `OutOfMemory` if an allocation fails.
#[unsafe(no_mangle)]
pub extern "C" fn kohiblad_pick(
    alloc: Global,
    bytes: &[u8],
    names: &[u8],
    others: u32,
    depth: usize,
    out: &mut [u8],
    length: &mut usize,
) -> u32
    ensures { IsPickedDocument (kept_by others) (meaning_within depth bytes.now)
        (meaning_within depth names.now) out.old out.new length.new result }
{
    let (Ok(document), Ok(names)) = (checked(bytes, depth), checked(names, depth)) else {
        return refuse(code(Error::InvalidJsonb), out, length);
    };
    let kept = kept_by(others);
    match read_names(alloc, names) {
        Ok(Some(names)) => hand_over_made(pick(alloc, document, &names, kept), out, length),
        Ok(None) => refuse(OTHER_KIND, out, length),
        Err(error) => refuse(code(error), out, length),
    }
}

// Which members are kept, by a caller's number.
fn kept_by(others: u32) -> Kept
    ensures { result ≡ kept_by others }
{
    match others {
        0 => Kept::Named,
        _ => Kept::Others,
    }
}

/// Copies the canonical document of the array of an object's keys to `out`: texts in the order in
/// which the keys are stored, which is that of their bytes. `InvalidJsonb` if the bytes are not a
/// document of at most this depth; `NONE` if the document is not an object; `OutOfMemory` if an
/// allocation fails.
#[unsafe(no_mangle)]
pub extern "C" fn kohiblad_object_keys(
    alloc: Global,
    bytes: &[u8],
    depth: usize,
    out: &mut [u8],
    length: &mut usize,
) -> u32
    ensures { AreKeysCopied (meaning_within depth bytes.now) out.old out.new length.new result }
{
    let Ok(document) = checked(bytes, depth) else {
        return refuse(code(Error::InvalidJsonb), out, length);
    };
    match object_keys(alloc, document) {
        Ok(Some(keys)) => hand_over_made(Ok(keys), out, length),
        Ok(None) => refuse(NONE, out, length),
        Err(error) => refuse(code(error), out, length),
    }
}
