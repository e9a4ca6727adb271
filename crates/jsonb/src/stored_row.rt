//! The stored form of a row.

ghost use Rattle.std.specs.Prelude.{◌≡◌, ◌<◌, ◌^◌, ◌++◌, ℕ, List, length, IfOk, IfErr, OnErr};
ghost use Rattle.std.specs.Prelude.{OnOk};
ghost use Rattle.jsonb.specs.Words.{BeginsWith, row_bytes};

use byteorder::{BigEndian, ByteOrder};
use jsonb_value::Error;

/// Appends a row in stored form: its length as a big-endian integer of eight bytes, then its bytes.
/// `OutOfMemory` is the only error; a beginning of these bytes may then be appended, and nothing
/// else.
pub fn append_row(buf: &mut Vec<u8>, row: &[u8]) -> Result<(), Error>
    ensures ok { OnOk result (buf.new.items ≡ buf.old.items ++ row_bytes row.now) }
    ensures beginning { OnErr result ((part : List ℕ) × (BeginsWith (row_bytes row.now) part
        × (buf.new.items ≡ buf.old.items ++ part))) }
    ensures memory { IfErr result (λ e. e ≡ Error.OutOfMemory) }
{
    buf.extend_from_slice(&(row.len() as u64).to_be_bytes())?;
    buf.extend_from_slice(row)?;
    Ok(())
}

/// The first row of bytes in stored form, and the bytes after it. `InvalidEOF` if the bytes do not
/// begin with a whole row.
pub fn split_row(bytes: &[u8]) -> Result<(&[u8], &[u8]), Error>
    ensures ok { IfOk result (λ parts. bytes.now ≡ row_bytes parts.0.now ++ parts.1.now) }
    ensures short { IfOk result (λ parts. length parts.0.now < 2 ^ 64) }
    ensures cut { OnErr result ((row later : List ℕ) → length row < 2 ^ 64
        → bytes.now ≡ row_bytes row ++ later → ⊥) }
    ensures only { IfErr result (λ e. e ≡ Error.InvalidEOF) }
{
    if bytes.len() < 8 {
        return Err(Error::InvalidEOF);
    }
    let (length, later) = bytes.split_at(8);
    let length = BigEndian::read_u64(length) as usize;
    if later.len() < length {
        return Err(Error::InvalidEOF);
    }
    Ok(later.split_at(length))
}
