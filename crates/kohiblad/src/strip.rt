//! Documents without the members that are null.

ghost use Rattle.kohiblad.specs.Words.{IsOneAnswered, MakesOfOne, WritesTo, meaning_within};
ghost use Rattle.kohiblad.specs.Words.{result_bytes, stripped};

use crate::answer::hand_over_made;
use crate::checked::checked;
use jsonb::{Error, OwnedJsonb};
use jsonb_functions::strip_nulls;
use std::alloc::Global;

/// Copies the canonical document of a document without the members that are null, in each object in
/// it, to `out`. Items that are null stay, and so does a document that is null itself.
/// `InvalidJsonb` if the bytes are not a document of at most this depth, or the result exceeds a
/// limit of the format; `OutOfMemory` if an allocation fails.
#[unsafe(no_mangle)]
pub extern "C" fn kohiblad_strip_nulls(
    alloc: Global,
    bytes: &[u8],
    depth: usize,
    out: &mut [u8],
    length: &mut usize,
) -> u32
    ensures { IsOneAnswered (MakesOfOne WritesTo stripped (meaning_within depth bytes.now))
        out.old out.new length.new result }
{
    hand_over_made(without_nulls(alloc, bytes, depth), out, length)
}

// A document without the members that are null.
fn without_nulls(alloc: Global, bytes: &[u8], depth: usize) -> Result<OwnedJsonb, Error>
    ensures { MakesOfOne WritesTo stripped (meaning_within depth bytes.now) (result_bytes result) }
{
    strip_nulls(alloc, checked(bytes, depth)?)
}
