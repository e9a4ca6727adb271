//! The header of a file.

ghost use Rattle.std.specs.Prelude.{◌≡◌, ◌<◌, ◌^◌, ◌++◌, List, ℕ, Err, MatchOption, IfOk};
ghost use Rattle.std.specs.Prelude.{IfErr, IfSome, IsOk, length, ◌↔◌, ◌⊎◌};
ghost use Rattle.std.specs.Int.{w32, to_be_bytes};
ghost use Rattle.jsonb_typed_file.specs.Words.{HasNoMagic, HasOtherVersion, header, magic};

use crate::error::FileError;
use std::alloc::AllocError;

/// The version of the format.
const VERSION: u32 = 1;

// The number of columns that a header says, and the bytes after the header.
pub(crate) fn split_header(bytes: &[u8]) -> Result<(u32, &[u8]), FileError>
    ensures ok { IfOk result (λ x. bytes.now ≡ header x.0 ++ x.1.now) }
    ensures few { IfOk result (λ x. x.0 < 2 ^ 32) }
    ensures begun { (n : ℕ) (later : List ℕ) → n < 2 ^ 32 → bytes.now ≡ header n ++ later
        → IsOk result }
    ensures magic { result ≡ Err FileError.BadMagic ↔ HasNoMagic bytes.now }
    ensures version { result ≡ Err FileError.UnknownVersion ↔ HasOtherVersion bytes.now }
    ensures only { IfErr result (λ e. (e ≡ FileError.BadMagic)
        ⊎ ((e ≡ FileError.UnknownVersion) ⊎ (e ≡ FileError.Cut))) }
{
    let Some(later) = after_magic(bytes) else {
        return Err(FileError::BadMagic);
    };
    let Some((version, later)) = split_u32(later) else {
        return Err(FileError::Cut);
    };
    if version != VERSION {
        return Err(FileError::UnknownVersion);
    }
    split_u32(later).ok_or(FileError::Cut)
}

// The bytes after the first ones of each file. `None` if the bytes do not begin with these.
fn after_magic(bytes: &[u8]) -> Option<&[u8]>
    ensures { MatchOption result ((later : List ℕ) → bytes.now ≡ magic ++ later → ⊥)
        (λ later. bytes.now ≡ magic ++ later.now) }
{
    match bytes {
        [b'K', b'O', b'H', b'I', b'T', b'Y', b'P', b'E', later @ ..] => Some(later),
        _ => None,
    }
}

// A number of four bytes, the highest first, and the bytes after it. `None` if there are fewer.
fn split_u32(bytes: &[u8]) -> Option<(u32, &[u8])>
    ensures parts { MatchOption result (length bytes.now < 4)
        (λ x. bytes.now ≡ to_be_bytes w32 x.0 ++ x.1.now) }
    ensures few { IfSome result (λ x. x.0 < 2 ^ 32) }
{
    match bytes {
        [a, b, c, d, later @ ..] => Some((u32::from_be_bytes([*a, *b, *c, *d]), later)),
        _ => None,
    }
}

// Appends the header of a file of so many columns.
pub(crate) fn append_header(buf: &mut Vec<u8>, columns: u32) -> Result<(), AllocError> {
    buf.extend_from_slice(b"KOHITYPE")?;
    buf.extend_from_slice(&VERSION.to_be_bytes())?;
    buf.extend_from_slice(&columns.to_be_bytes())?;
    Ok(())
}
