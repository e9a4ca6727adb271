//! Documents that are changed by a JSON Merge Patch.

ghost use Rattle.kohiblad.specs.Words.{IsOneAnswered, MakesOfTwo, WritesTo, meaning_within};
ghost use Rattle.kohiblad.specs.Words.{patched, result_bytes};

use crate::answer::hand_over_made;
use crate::checked::checked;
use jsonb::{Error, OwnedJsonb};
use jsonb_functions::merge_patch;
use std::alloc::Global;

/// Copies the canonical document of a document that is changed by a JSON Merge Patch (RFC 7396) to
/// `out`. A `patch` that is not an object takes the place of `target`. Each member of one that is
/// an object removes the member with its key if it is null, and else patches the value of that
/// member, or an empty object if there is no such member; a `target` that is not an object counts
/// as an empty one. `InvalidJsonb` if `target` or `patch` is not a document of at most this depth,
/// or the result exceeds a limit of the format; `OutOfMemory` if an allocation fails.
#[unsafe(no_mangle)]
pub extern "C" fn kohiblad_merge_patch(
    alloc: Global,
    target: &[u8],
    patch: &[u8],
    depth: usize,
    out: &mut [u8],
    length: &mut usize,
) -> u32
    ensures { IsOneAnswered (MakesOfTwo WritesTo patched (meaning_within depth target.now)
        (meaning_within depth patch.now)) out.old out.new length.new result }
{
    hand_over_made(target_patched(alloc, target, patch, depth), out, length)
}

// A document that a patch is merged into.
fn target_patched(
    alloc: Global,
    target: &[u8],
    patch: &[u8],
    depth: usize,
) -> Result<OwnedJsonb, Error>
    ensures { MakesOfTwo WritesTo patched (meaning_within depth target.now)
        (meaning_within depth patch.now) (result_bytes result) }
{
    merge_patch(alloc, checked(target, depth)?, checked(patch, depth)?)
}
