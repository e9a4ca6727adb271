//! The keys of documents and of any bytes, appended to a buffer, and their lengths.

ghost use Rattle.std.specs.Prelude.{◌≡◌, ◌≤◌, ◌+◌, ◌++◌, OnOk, OnErr, IfErr, IsOk, length};
ghost use Rattle.std.specs.Prelude.{vec_capacity};
ghost use Rattle.jsonb_comparable.specs.Words.{IsKeyOf, key_meaning, length_64, meaning_key};

use crate::laws::has_key;
use crate::sink::KeyLength;
use crate::walk::append_key_to;
use jsonb::{Error, SortKey};

/// The number of the layout of keys. It changes only if the key of some bytes does, and then with
/// the major version of the library: stores and partitions whose keys are to be compared must have
/// the same number.
pub const KEY_LAYOUT: u32 = 1;

/// The length of a key in bytes, as `append_key` appends it, without memory. It is `usize::MAX` if
/// the key is longer, which no memory holds.
pub fn key_len(key: SortKey<'_>) -> usize
    ensures { result ≡ length_64 (meaning_key (key_meaning key.entry)) }
{
    let mut length = KeyLength { len: 0 };
    append_key_to(key, &mut length);
    length.len
}

/// Appends the comparable key of a document or of any bytes: a byte string that compares with other
/// keys as the `SortKey` does with theirs. Bytes that are not a document have a key above those of
/// all documents, and are ordered among themselves as bytes. Memory is requested once, for the
/// exact length, and not at all if the buffer has room. `OutOfMemory` is the only error, and after
/// it the buffer's bytes are as before. The walk takes stack for each level of a document: give
/// bytes from outside as `SortKey::within`, so that deeper documents have the key of other bytes.
pub fn append_key(key: SortKey<'_>, buffer: &mut Vec<u8>) -> Result<(), Error>
    ensures appended { OnOk result
        (buffer.new.items ≡ buffer.old.items ++ meaning_key (key_meaning key.entry)) }
    ensures err { OnErr result (buffer.new.items ≡ buffer.old.items) }
    ensures memory { IfErr result (λ e. e ≡ Error.OutOfMemory) }
    ensures room { length buffer.old.items + length (meaning_key (key_meaning key.entry))
        ≤ vec_capacity buffer.old → IsOk result }

    // The key compares with the keys of all bytes, and followed by them, as what they mean.
    ensures laws { IsKeyOf (key_meaning key.entry) (meaning_key (key_meaning key.entry)) }
{
    has_key(key.as_bytes());
    buffer.try_reserve(key_len(key))?;
    append_key_to(key, buffer);
    Ok(())
}
