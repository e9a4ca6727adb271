//! Two documents put together.

ghost use Rattle.kohiblad.specs.Words.{IsConcatLength, IsOneAnswered, MakesOfTwo, WritesTo};
ghost use Rattle.kohiblad.specs.Words.{joined, meaning_within, result_bytes};

use crate::answer::hand_over_made;
use crate::checked::checked;
use jsonb::{Error, OwnedJsonb};
use jsonb_functions::concat;
use std::alloc::Global;

/// Copies the canonical document of two documents put together to `out`: of two objects the object
/// of all members, with the value of `right` for a key of both; of all others the array of the
/// items of both, to which a value that is not an array adds itself. `InvalidJsonb` if `left` or
/// `right` is not a document of at most this depth, or the result exceeds a limit of the format;
/// `OutOfMemory` if an allocation fails. The document is at most 14 bytes and a quarter longer than
/// both.
#[unsafe(no_mangle)]
pub extern "C" fn kohiblad_concat(
    alloc: Global,
    left: &[u8],
    right: &[u8],
    depth: usize,
    out: &mut [u8],
    length: &mut usize,
) -> u32
    ensures joined { IsOneAnswered (MakesOfTwo WritesTo joined (meaning_within depth left.now)
        (meaning_within depth right.now)) out.old out.new length.new result }
    ensures len { IsConcatLength left.now right.now length.new }
{
    hand_over_made(both_joined(alloc, left, right, depth), out, length)
}

// Two documents put together.
fn both_joined(alloc: Global, left: &[u8], right: &[u8], depth: usize) -> Result<OwnedJsonb, Error>
    ensures { MakesOfTwo WritesTo joined (meaning_within depth left.now)
        (meaning_within depth right.now) (result_bytes result) }
{
    concat(alloc, checked(left, depth)?, checked(right, depth)?)
}
