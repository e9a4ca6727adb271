//! Which kind of a chunk takes fewer bytes.

ghost use Rattle.std.specs.Prelude.{◌≡◌, ◌<◌, ◌^◌, ◌+◌, length};
ghost use Rattle.std.specs.Int.{w64};
ghost use Rattle.typed_chunk.specs.Frame.{frame, signed_word};
ghost use Rattle.typed_chunk.specs.NumberChunk.{rises_shorter};
ghost use Rattle.typed_chunk.specs.Rising.{rising};

use crate::frame::{least_value, write_heights};
use crate::headed::width_of;
use crate::naturals::{least_number, lower};
use crate::packed::packed_len;
use crate::rising::{rises, write_steps};

// Whether values take fewer bytes as rising ones, which they may be only if all rows have one, than
// as a frame. Afterwards the codes, one for each value, may be any.
#[tactic(auto, using(crate::proofs::SizeLaws::shorter_steps))]
pub(crate) fn rises_shorter(all: bool, values: &[i64], codes: &mut [u64]) -> bool
    requires few { length values.now < 2 ^ 57 }
    requires room { length codes.old ≡ length values.now }
    ensures { result ≡ rises_shorter all values.now }
{
    if !all {
        return false;
    }
    if values.len() < 2 {
        return false;
    }
    if !rises(values) {
        return false;
    }
    let size = frame_size(values, codes);
    rising_size(values, &mut codes[1..]) < size
}

// How many bytes a frame of the values takes.
fn frame_size(values: &[i64], codes: &mut [u64]) -> usize
    requires few { length values.now < 2 ^ 57 }
    requires room { length codes.old ≡ length values.now }
    ensures { result ≡ length (frame (signed_word w64) values.now) }
{
    write_heights(least_value(values), values, codes);
    9 + packed_len(width_of(codes), codes.len())
}

// How many bytes rising values take.
fn rising_size(values: &[i64], steps: &mut [u64]) -> usize
    requires two { 1 < length values.now }
    requires few { length values.now < 2 ^ 57 }
    requires room { length steps.old + 1 ≡ length values.now }
    ensures { result ≡ length (rising w64 values.now) }
{
    write_steps(values, steps);
    let least = least_number(steps);
    lower(least, steps);
    17 + packed_len(width_of(steps), steps.len())
}
