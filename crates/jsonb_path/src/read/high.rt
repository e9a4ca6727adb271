//! Where a path gets too high.

ghost use Rattle.std.specs.Prelude.{[], IsTrue};
ghost use Rattle.jsonb_path.specs.PathParts.{are_parts_after};

use super::grammar::{LOOSEST, read_ranked};
use super::scan::{Refusal, Unread};
use super::{DEPTH, TOP};
use crate::height::first_high;
use crate::token::PlacedToken;
use std::alloc::{AllocError, Global};

/// The refusal of a path that is too high: at the operator after the first part that is.
#[inline(never)]
pub fn too_high(alloc: Global, tokens: &[PlacedToken]) -> Unread {
    match place_of_high(alloc, tokens) {
        Ok(at) => Unread::Refused(tokens.len().saturating_sub(at), Refusal::TooDeep),
        Err(unread) => unread,
    }
}

// How many tokens are before the operator after the first part that is too high. The path is read
// again, and then as few of its tokens as are needed for that part.
fn place_of_high(alloc: Global, tokens: &[PlacedToken]) -> Result<usize, Unread> {
    let mut parts = Vec::new(alloc);
    read_ranked(alloc, &mut parts, DEPTH, TOP, LOOSEST, tokens)?;
    let high = first_high(&parts);
    let mut fewest = 0;
    let mut enough = tokens.len();
    'halves: while fewest < enough {
        let middle = fewest + (enough - fewest) / 2;
        if parts_in(alloc, &tokens[..middle])? > high {
            enough = middle;
        } else {
            fewest = middle + 1;
        }
    }
    Ok(fewest.saturating_sub(1))
}

// How many parts are read of tokens, which may end early.
fn parts_in(alloc: Global, tokens: &[PlacedToken]) -> Result<usize, AllocError> {
    let mut parts = Vec::new(alloc);
    match read_ranked(alloc, &mut parts, DEPTH, TOP, LOOSEST, tokens) {
        Err(Unread::OutOfMemory) => Err(AllocError),
        Ok(_) | Err(Unread::Refused(_, _)) => Ok(parts.len()),
    }
}
