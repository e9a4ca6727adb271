//! Arrays as sets of values, in which equal values are counted.

ghost use Rattle.jsonb_functions.specs.ArraySets.{difference, distinct, intersection};
ghost use Rattle.kohiblad.specs.WithMemory.{IsOverlapAnswer, WritesWithMemory};
ghost use Rattle.kohiblad.specs.Words.{IsOneAnswered, MakesOfOne, MakesOfTwo, meaning_within};
ghost use Rattle.kohiblad.specs.Words.{result_bytes};

use crate::answer::{code, hand_over_made};
use crate::checked::checked;
use crate::scalar::{KohibladTruth, no_truth, truth_of};
use jsonb::{Error, OwnedJsonb};
use jsonb_functions::{array_distinct, array_except, array_intersection, array_overlap};
use std::alloc::Global;

/// Copies the canonical document of an array's items without those that are equal to one before
/// them to `out`. A value that is not an array is the one item. `InvalidJsonb` if the bytes are not
/// a document of at most this depth, or the result exceeds a limit of the format; `OutOfMemory` if
/// an allocation fails.
#[unsafe(no_mangle)]
pub extern "C" fn kohiblad_array_distinct(
    alloc: Global,
    bytes: &[u8],
    depth: usize,
    out: &mut [u8],
    length: &mut usize,
) -> u32
    ensures { IsOneAnswered (MakesOfOne WritesWithMemory distinct (meaning_within depth bytes.now))
        out.old out.new length.new result }
{
    hand_over_made(distinct_items(alloc, bytes, depth), out, length)
}

// The items of an array without those that are equal to one before them.
fn distinct_items(alloc: Global, bytes: &[u8], depth: usize) -> Result<OwnedJsonb, Error>
    ensures { MakesOfOne WritesWithMemory distinct (meaning_within depth bytes.now)
        (result_bytes result) }
{
    array_distinct(alloc, checked(bytes, depth)?)
}

/// Copies the canonical document of the items that both arrays have to `out`, in the order of
/// `left`. Of equal items there are as many as both have: the first ones of `left`. A value that is
/// not an array is one item. `InvalidJsonb` if `left` or `right` is not a document of at most this
/// depth, or the result exceeds a limit of the format; `OutOfMemory` if an allocation fails.
#[unsafe(no_mangle)]
pub extern "C" fn kohiblad_array_intersection(
    alloc: Global,
    left: &[u8],
    right: &[u8],
    depth: usize,
    out: &mut [u8],
    length: &mut usize,
) -> u32
    ensures { IsOneAnswered (MakesOfTwo WritesWithMemory intersection
        (meaning_within depth left.now) (meaning_within depth right.now))
        out.old out.new length.new result }
{
    hand_over_made(common_items(alloc, left, right, depth), out, length)
}

// The items that both arrays have.
fn common_items(alloc: Global, left: &[u8], right: &[u8], depth: usize) -> Result<OwnedJsonb, Error>
    ensures { MakesOfTwo WritesWithMemory intersection (meaning_within depth left.now)
        (meaning_within depth right.now) (result_bytes result) }
{
    array_intersection(alloc, checked(left, depth)?, checked(right, depth)?)
}

/// Copies the canonical document of the items of `left` without one for each equal item of `right`
/// to `out`. Of equal items the first ones go. A value that is not an array is one item.
/// `InvalidJsonb` if `left` or `right` is not a document of at most this depth, or the result
/// exceeds a limit of the format; `OutOfMemory` if an allocation fails.
#[unsafe(no_mangle)]
pub extern "C" fn kohiblad_array_except(
    alloc: Global,
    left: &[u8],
    right: &[u8],
    depth: usize,
    out: &mut [u8],
    length: &mut usize,
) -> u32
    ensures { IsOneAnswered (MakesOfTwo WritesWithMemory difference (meaning_within depth left.now)
        (meaning_within depth right.now)) out.old out.new length.new result }
{
    hand_over_made(items_left(alloc, left, right, depth), out, length)
}

// The items of the one array without one for each equal item of the other.
fn items_left(alloc: Global, left: &[u8], right: &[u8], depth: usize) -> Result<OwnedJsonb, Error>
    ensures { MakesOfTwo WritesWithMemory difference (meaning_within depth left.now)
        (meaning_within depth right.now) (result_bytes result) }
{
    array_except(alloc, checked(left, depth)?, checked(right, depth)?)
}

/// Whether some item of the array `left` is equal to one of `right`, as 0 or 1. A value that is not
/// an array is one item. `InvalidJsonb` if `left` or `right` is not a document of at most this
/// depth; `OutOfMemory` if an allocation fails.
#[unsafe(no_mangle)]
pub extern "C" fn kohiblad_array_overlap(
    alloc: Global,
    left: &[u8],
    right: &[u8],
    depth: usize,
) -> KohibladTruth
    ensures { IsOverlapAnswer (meaning_within depth left.now) (meaning_within depth right.now)
        result }
{
    let (Ok(left), Ok(right)) = (checked(left, depth), checked(right, depth)) else {
        return no_truth(code(Error::InvalidJsonb));
    };
    match array_overlap(alloc, left, right) {
        Ok(overlap) => truth_of(overlap),
        Err(error) => no_truth(code(error)),
    }
}
