//! The paths of calls over rows.

ghost use Rattle.std.specs.Prelude.{◌≡◌, Err, IsOkAnd};
ghost use Rattle.kohiblad.specs.OverRows.{WithPath};
ghost use Rattle.kohiblad.specs.Words.{meaning_within};

use crate::answer::{OTHER_KIND, code};
use jsonb::{Error, SortKey};
use jsonb_functions::{Step, read_path};
use std::alloc::Global;

/// The steps of the path that a document of at most this depth gives; or the status with which a
/// call is refused that has none.
pub fn steps_of<'a>(alloc: Global, path: &'a [u8], depth: usize) -> Result<Vec<Step<'a>>, u32>
    ensures { WithPath (λ status. result ≡ Err status)
        (λ steps. IsOkAnd result (λ path. path.items ≡ steps)) (meaning_within depth path.now) }
{
    match SortKey::within(path, depth) {
        SortKey::Document(path) => match read_path(alloc, path) {
            Ok(Some(steps)) => Ok(steps),
            Ok(None) => Err(OTHER_KIND),
            Err(error) => Err(code(error)),
        },
        SortKey::Other(_) => Err(code(Error::InvalidJsonb)),
    }
}
