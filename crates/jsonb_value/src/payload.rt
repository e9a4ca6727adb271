//! Appending payloads, whole or not at all.

ghost use Rattle.std.specs.Prelude.{◌≡◌, ◌≤◌, ◌∷◌, ◌<◌, ◌^◌, [], length, take};
ghost use Rattle.jsonb_value.specs.Words.{Appends, to_be_bytes, w64};

use crate::error::Error;

/// Appends a payload and returns its length in bytes. `OutOfMemory` is the only error; the bytes of
/// `buf` are then unchanged.
#[inline(always)]
pub fn append(buf: &mut Vec<u8>, payload: &[u8]) -> Result<usize, Error>
    ensures { Appends payload.now buf.old buf.new result }
{
    buf.extend_from_slice(payload)?;
    Ok(payload.len())
}

/// A payload of up to eight bytes: the first `size` bytes of a word, most significant first.
#[derive(Clone, Copy)]
pub struct Short {
    pub word: u64,
    pub size: usize,
    ghost most: { size ≤ 8 },
}

/// A word of these bytes and three zeros, the first most significant.
#[inline(always)]
pub fn word_of(first: u8, second: u8, third: u8, fourth: u8, fifth: u8) -> u64
    ensures { to_be_bytes w64 result
        ≡ first ∷ second ∷ third ∷ fourth ∷ fifth ∷ 0 ∷ 0 ∷ 0 ∷ [] }
{
    u64::from_be_bytes([first, second, third, fourth, fifth, 0, 0, 0])
}

/// Appends a short payload and returns its length in bytes. Where there is room for a whole word,
/// that is stored and cut off, which takes no call for few bytes. `OutOfMemory` is the only error;
/// the bytes of `buf` are then unchanged.
#[inline(always)]
pub fn append_short(buf: &mut Vec<u8>, payload: Short) -> Result<usize, Error>
    ensures { Appends (take payload.size (to_be_bytes w64 payload.word)) buf.old buf.new result }
{
    let bytes = payload.word.to_be_bytes();
    if buf.capacity() - buf.len() < bytes.len() {
        return append(buf, &bytes[..payload.size]);
    }
    let end = buf.len() + payload.size;
    buf.extend_from_slice(&bytes)?;
    buf.truncate(end);
    Ok(payload.size)
}

/// Appends a tag and the bytes after it with a single growth of the buffer, and returns their
/// length in bytes. `OutOfMemory` is the only error; the bytes of `buf` are then unchanged.
pub fn append_opaque(buf: &mut Vec<u8>, tag: u8, bytes: &[u8]) -> Result<usize, Error>
    requires { length bytes.now < 2 ^ 63 }
    ensures { Appends (tag ∷ bytes.now) buf.old buf.new result }
{
    let size = 1 + bytes.len();
    buf.try_reserve(size)?;
    buf.push(tag)?;
    buf.extend_from_slice(bytes)?;
    Ok(size)
}
