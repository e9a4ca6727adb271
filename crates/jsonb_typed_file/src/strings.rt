//! Byte strings that follow one another, found by their offsets.

ghost use Rattle.std.specs.Prelude.{◌≡◌, ◌<◌, ◌≤◌, ◌+◌, ◌*◌, length, MatchOption};
ghost use Rattle.jsonb_typed_file.specs.Words.{IsSpanAt, number_at, string_at};

use byteorder::{BigEndian, ByteOrder};

/// Byte strings that follow one another, and their offsets: each of eight bytes, the highest first,
/// and one more than there are strings.
#[derive(Clone, Copy, Debug)]
pub(crate) struct Strings<'a> {
    pub offsets: &'a [u8],
    pub bytes: &'a [u8],
}

impl<'a> Strings<'a> {
    // The string at an index. `None` if its offsets are not in order, or not within the bytes.
    pub fn at(self, index: usize) -> Option<&'a [u8]>
        requires { 8 * (index + 2) ≤ length self.offsets.now }
        ensures { MatchOption result
            (IsSpanAt self.entry.offsets.now self.entry.bytes.now index → ⊥)
            (λ string. IsSpanAt self.entry.offsets.now self.entry.bytes.now index
            × (string.now ≡ string_at self.entry.offsets.now self.entry.bytes.now index)) }
    {
        let start = offset_at(self.offsets, index);
        let end = offset_at(self.offsets, index + 1);
        if start <= end && end <= self.bytes.len() {
            Some(&self.bytes[start..end])
        } else {
            None
        }
    }
}

// The offset at an index.
fn offset_at(offsets: &[u8], index: usize) -> usize
    requires { 8 * (index + 1) ≤ length offsets.now }
    ensures { result ≡ number_at 8 index offsets.now }
{
    BigEndian::read_u64(&offsets[8 * index..]) as usize
}
