//! Numbers without a sign of at most 8 bytes, by the least of them and how far each is above it.

ghost use Rattle.std.specs.Prelude.{◌≡◌, ◌≤◌, ◌<◌, ◌^◌, ◌*◌, ◌+◌, ◌-◌, ◌++◌, ℕ, All, IsOk, List};
ghost use Rattle.std.specs.Prelude.{OnOk, drop, fold, if◌then◌else◌, is_ok, length, map, min, pos};
ghost use Rattle.std.specs.Result.{result_err};
ghost use Rattle.byteorder.specs.Endian.{big_number};
ghost use Rattle.typed_chunk.specs.Frame.{IsFrame, frame, least_number, naturals_fault};
ghost use Rattle.typed_chunk.specs.Frame.{numbers_in, range_fault, unsigned_word};
ghost use Rattle.typed_chunk.specs.Headed.{headed};

use crate::fault::ChunkFault;
use crate::headed::{append_headed, greatest, read_headed};
use byteorder::{BigEndian, ByteOrder};
use std::alloc::AllocError;

/// Appends the bytes of numbers that fit so many bytes. Afterwards the numbers may be any. If
/// memory is refused, nothing is appended.
pub(crate) fn append_naturals(
    out: &mut Vec<u8>,
    size: usize,
    numbers: &mut [u64],
) -> Result<(), AllocError>
    requires long { 1 ≤ size }
    requires short { size ≤ 8 }
    requires some { 0 < length numbers.old }
    requires few { length numbers.old < 2 ^ 57 }
    requires fit { All (λ number. number < 256 ^ size) numbers.old }
    ensures { out.new.items ≡ (if is_ok result
        then out.old.items ++ frame (unsigned_word size) (map pos numbers.old)
        else out.old.items) }
{
    let least = least_number(numbers);
    lower(least, numbers);
    append_behind(out, size, least, numbers)
}

/// Reads as many numbers of so many bytes as there is room for, which are all that the bytes have.
/// On an error they may be any. The first of these is reported:
///
/// - `WrongLength`: there are no more bytes than those of a number;
/// - `NoSuchWidth`: codes never have so many bits as the first byte says;
/// - `WrongLength`: the bytes behind the least number are not as many as those of so many codes;
/// - `BitsPastEnd`: a bit past the last code is set;
/// - `NotLeastWidth`: all codes fit a lower width;
/// - `NotLeastValue`: no code is 0;
/// - `ValueOutOfRange`: the greatest number does not fit so many bytes.
pub(crate) fn read_naturals(
    bytes: &[u8],
    size: usize,
    numbers: &mut [u64],
) -> Result<(), ChunkFault>
    requires long { 1 ≤ size }
    requires short { size ≤ 8 }
    requires few { length numbers.old < 2 ^ 57 }
    ensures fault { result_err result ≡ naturals_fault size (length numbers.old) bytes.now }
    ensures ok { OnOk result (IsFrame (unsigned_word size) (map pos numbers.new) bytes.now) }
    ensures behind { OnOk result (numbers.new ≡ numbers_in size (length numbers.old) bytes.now) }
    ensures back { (items : List ℕ) → length items ≡ length numbers.old
        → All (λ number. number < 256 ^ size) items
        → IsFrame (unsigned_word size) (map pos items) bytes.now
        → IsOk result × (numbers.new ≡ items) }
{
    read_headed(bytes, size, numbers)?;
    let least = least_in(bytes, size);
    check_sum(least, size, numbers)?;
    raise(least, numbers);
    Ok(())
}

// Appends codes behind the least number.
fn append_behind(
    out: &mut Vec<u8>,
    size: usize,
    least: u64,
    codes: &[u64],
) -> Result<(), AllocError>
    requires long { 1 ≤ size }
    requires short { size ≤ 8 }
    requires fits { least < 256 ^ size }
    requires few { length codes.now < 2 ^ 57 }
    ensures { out.new.items ≡ (if is_ok result
        then out.old.items ++ headed (unsigned_word size (pos least)) codes.now
        else out.old.items) }
{
    let mut head = [0; 8];
    BigEndian::write_uint(&mut head[..size], least, size);
    append_headed(out, &head[..size], codes)
}

// The least of the numbers, or 0 of none.
pub(crate) fn least_number(numbers: &[u64]) -> u64
    ensures { result ≡ least_number numbers.now }
{
    match numbers {
        [first, rest @ ..] => least_of(*first, rest),
        [] => 0,
    }
}

// The least of one number and others.
#[tactic(auto, using(std::proofs::lemmas::List::Sums::fold_more))]
fn least_of(first: u64, rest: &[u64]) -> u64
    ensures { result ≡ fold min first rest.now }
{
    let mut least = first;
    for number in rest {
        least = least.min(*number);
    }
    least
}

// Takes the least from each number.
pub(crate) fn lower(least: u64, numbers: &mut [u64])
    requires { All (λ number. least ≤ number) numbers.old }
    ensures { numbers.new ≡ map (λ number. number - least) numbers.old }
{
    for number in numbers.iter_mut() {
        *number -= least;
    }
}

// Adds the least to each number.
fn raise(least: u64, numbers: &mut [u64])
    requires { All (λ number. least + number < 2 ^ 64) numbers.old }
    ensures { numbers.new ≡ map (λ number. least + number) numbers.old }
{
    for number in numbers.iter_mut() {
        *number += least;
    }
}

// The least number that bytes tell.
fn least_in(bytes: &[u8], size: usize) -> u64
    requires long { 1 ≤ size }
    requires short { size ≤ 8 }
    requires room { size < length bytes.now }
    ensures { result ≡ big_number size (drop 1 bytes.now) }
{
    BigEndian::read_uint(&bytes[1..], size)
}

// Whether the number of the greatest code fits so many bytes.
#[tactic(auto, using(crate::proofs::NaturalLaws::size_tests))]
fn check_sum(least: u64, size: usize, codes: &[u64]) -> Result<(), ChunkFault>
    requires { size ≤ 8 }
    ensures { result_err result ≡ range_fault (8 * size) (pos least) codes.now }
{
    let most = u128::from(least) + u128::from(greatest(codes));
    if most < 1 << (8 * size) {
        return Ok(());
    }
    Err(ChunkFault::ValueOutOfRange)
}
