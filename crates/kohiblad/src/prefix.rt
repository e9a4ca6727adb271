//! Look-ups in a prefix of the bytes, for callers that fetch a long value piece by piece.

ghost use Rattle.std.specs.Prelude.{◌≡◌, Err, IsUtf8};
ghost use Rattle.kohiblad.specs.Words.{Error, IsIndexSought, IsKeySought, place_answer};
ghost use Rattle.kohiblad.specs.Words.{prefix_answer};

use crate::answer::code;
use crate::places::{KohibladPlace, place_answer};
use jsonb::Error;
use jsonb::layer::{Progress, find_index_in_prefix, find_key_in_prefix};
use simdutf8::basic;

/// The position of the value of a key in `size` bytes that begin with `prefix`, for a caller that
/// fetches a long value piece by piece. It is that in all bytes, and the payload may be past the
/// prefix. If more bytes have to be at hand, `InvalidEOF` with their end as `length`: the header,
/// then all entry words, then all keys. So a caller that fetches what is needed asks three times at
/// most. `InvalidUtf8` if the name is not UTF-8; `NONE` if the object has no such key, or the bytes
/// are not an object. Of bytes that are not a document, `InvalidEOF` with the `length` 0 if the
/// header or an entry word that is read is cut off by their end; `InvalidJsonb` if the header is of
/// no kind, or a key of the name's length or the value runs past it. The payload is not read. A
/// `size` below the length of the prefix counts as that length.
#[unsafe(no_mangle)]
pub extern "C" fn kohiblad_find_key_in_prefix(
    prefix: &[u8],
    size: usize,
    name: &[u8],
) -> KohibladPlace
    ensures utf8 { (IsUtf8 name.now → ⊥) → result ≡ place_answer (Err Error.InvalidUtf8) }
    ensures sought { IsUtf8 name.now → IsKeySought name.now prefix.now size result }
{
    match basic::from_utf8(name) {
        Ok(name) => find_name_in_prefix(prefix, size, name),
        Err(_) => place_answer(Err(Error::InvalidUtf8)),
    }
}

/// The position of the item at an index, counted from 0, of an array in `size` bytes that begin
/// with `prefix`, for a caller that fetches a long value piece by piece. It is that in all bytes,
/// and the payload may be past the prefix. If more bytes have to be at hand, `InvalidEOF` with their
/// end as `length`: the header, then the entry words up to the item's own. So a caller that fetches
/// what is needed asks twice at most. `NONE` if the index is not below the number of items,
/// or the bytes are not an array. Of bytes that are not a document, `InvalidEOF` with the `length`
/// 0 if the header or an entry word that is read is cut off by their end; `InvalidJsonb` if the
/// header is of no kind, or the item runs past it. The payload is not read. A `size` below the
/// length of the prefix counts as that length.
#[unsafe(no_mangle)]
pub extern "C" fn kohiblad_find_index_in_prefix(
    prefix: &[u8],
    size: usize,
    index: usize,
) -> KohibladPlace
    ensures { IsIndexSought index prefix.now size result }
{
    let len = size.max(prefix.len());
    prefix_answer(find_index_in_prefix(prefix, len, index))
}

// The same for a name that is a text.
fn find_name_in_prefix(prefix: &[u8], size: usize, name: &str) -> KohibladPlace
    ensures { IsKeySought name.now prefix.now size result }
{
    let len = size.max(prefix.len());
    prefix_answer(find_key_in_prefix(prefix, len, name))
}

// How far a look-up came, as C receives it.
fn prefix_answer(progress: Result<Progress, Error>) -> KohibladPlace
    ensures { result ≡ prefix_answer progress }
{
    match progress {
        Ok(Progress::Needs(end)) => KohibladPlace {
            status: code(Error::InvalidEOF),
            type_code: 0,
            offset: 0,
            length: end as u64,
        },
        Ok(Progress::Found(entry)) => place_answer(Ok(Some(entry))),
        Ok(Progress::Absent) => place_answer(Ok(None)),
        Err(error) => place_answer(Err(error)),
    }
}
