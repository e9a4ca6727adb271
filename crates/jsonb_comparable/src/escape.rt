//! Bytes that are escaped, so that none begins another.

ghost use Rattle.std.specs.Prelude.{◌≤◌, ◌<◌, ◌^◌, ◌∷◌, ℕ, length, slice_index};
ghost use Rattle.jsonb_comparable.specs.Words.{escaped};

use crate::sink::Sink;

// How many bytes are before the first that is escaped.
fn plain_len(bytes: &[u8]) -> usize
    ensures within { result ≤ length bytes.now }
    ensures before { (k : ℕ) → k < result → 3 ≤ slice_index bytes.now k }
    ensures at { result < length bytes.now → slice_index bytes.now result < 3 }
    ensures len { length bytes.now < 2 ^ 64 }
{
    for (index, byte) in bytes.iter().enumerate() {
        if *byte < 3 {
            return index;
        }
    }
    bytes.len()
}

/// Appends the bytes, escaped, and their terminator.
pub fn append_escaped<S: Sink>(bytes: &[u8], sink: &mut S)
    requires { S.room sink.old (escaped bytes.now) }
    ensures { S.appends sink.old sink.new (escaped bytes.now) }
{
    let mut rest = bytes;
    let mut plain = plain_len(rest);
    'runs: while plain < rest.len() {
        sink.append(&rest[..plain]);
        sink.append(&[2, rest[plain] + 1]);
        rest = &rest[plain + 1..];
        plain = plain_len(rest);
    }
    sink.append(rest);
    sink.append(&[1]);
}

/// Appends a byte, and then the bytes, escaped.
pub fn append_marked<S: Sink>(mark: u8, bytes: &[u8], sink: &mut S)
    requires { S.room sink.old (mark ∷ escaped bytes.now) }
    ensures { S.appends sink.old sink.new (mark ∷ escaped bytes.now) }
{
    sink.append(&[mark]);
    append_escaped(bytes, sink);
}
