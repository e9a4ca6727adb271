//! Codes of the least width that holds them, behind a head.

ghost use Rattle.std.specs.Prelude.{◌≡◌, ◌≤◌, ◌<◌, ◌^◌, ◌+◌, ◌++◌, ℕ, IsOk, List, OnOk};
ghost use Rattle.std.specs.Prelude.{drop, if◌then◌else◌, is_ok, length, take};
ghost use Rattle.std.specs.Result.{result_err};
ghost use Rattle.typed_chunk.specs.Headed.{IsHeaded, codes_behind, greatest, headed};
ghost use Rattle.typed_chunk.specs.Headed.{headed_fault, least_fault, width_of};
ghost use Rattle.typed_chunk.specs.Packed.{FitWidth, bits};

use crate::fault::ChunkFault;
use crate::packed::{append_codes, packed_len};
use crate::unpacked::read_codes;
use crate::width::Width;
use std::alloc::AllocError;

/// Appends the least width of the codes, the head, and the codes. If memory is refused, nothing is
/// appended.
pub(crate) fn append_headed(out: &mut Vec<u8>, head: &[u8], codes: &[u64]) -> Result<(), AllocError>
    requires short { length head.now ≤ 16 }
    requires few { length codes.now < 2 ^ 57 }
    ensures { out.new.items ≡ (if is_ok result
        then out.old.items ++ headed head.now codes.now else out.old.items) }
{
    let width = width_of(codes);
    out.reserve(1 + head.len() + packed_len(width, codes.len()))?;
    out.push_reserved(width.bits());
    out.extend_from_slice(head)?;
    append_codes(out, width, codes)
}

/// Reads as many codes as there is room for, behind a width and a head of so many bytes. On an
/// error the codes may be any. The first of these is reported:
///
/// - `WrongLength`: there are not more bytes than those of the head;
/// - `NoSuchWidth`: codes never have so many bits as the first byte says;
/// - `WrongLength`: the bytes behind the head are not as many as those of so many codes;
/// - `BitsPastEnd`: a bit past the last code is set;
/// - `NotLeastWidth`: all codes fit a lower width;
/// - `NotLeastValue`: no code is 0.
pub(crate) fn read_headed(bytes: &[u8], head: usize, codes: &mut [u64]) -> Result<(), ChunkFault>
    requires short { head ≤ 16 }
    requires few { length codes.old < 2 ^ 57 }
    ensures fault { result_err result ≡ headed_fault head (length codes.old) bytes.now }
    ensures long { OnOk result (head < length bytes.now) }
    ensures ok { OnOk result (IsHeaded (take head (drop 1 bytes.now)) codes.new bytes.now) }
    ensures behind { OnOk result
        (codes.new ≡ codes_behind head (length codes.old) bytes.now) }
    ensures back { (first items : List ℕ) → length first ≡ head
        → length items ≡ length codes.old → greatest items < 2 ^ 64
        → IsHeaded first items bytes.now → IsOk result × (codes.new ≡ items) }
{
    if bytes.len() <= head {
        return Err(ChunkFault::WrongLength);
    }
    let width = match Width::from_bits(bytes[0]) {
        Some(width) => width,
        None => return Err(ChunkFault::NoSuchWidth),
    };
    read_codes(width, &bytes[head + 1..], codes)?;
    check_least(width, codes)
}

// Whether the width is the least that holds all codes, of which one is 0.
#[tactic(auto, using(crate::proofs::HeadedLaws::least_tests))]
fn check_least(width: Width, codes: &[u64]) -> Result<(), ChunkFault>
    ensures { result_err result ≡ least_fault (bits width) codes.now }
{
    if width.bits() != width_of(codes).bits() {
        return Err(ChunkFault::NotLeastWidth);
    }
    if !codes.contains(&0) {
        return Err(ChunkFault::NotLeastValue);
    }
    Ok(())
}

// The least width that holds all codes.
pub(crate) fn width_of(codes: &[u64]) -> Width
    ensures is { bits result ≡ width_of codes.now }
    ensures fit { FitWidth (bits result) codes.now }
{
    Width::of(greatest(codes))
}

// The greatest of the codes, or 0.
pub(crate) fn greatest(codes: &[u64]) -> u64
    ensures { result ≡ greatest codes.now }
{
    let mut most = 0;
    for code in codes {
        most = most.max(*code);
    }
    most
}
