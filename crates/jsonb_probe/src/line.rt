//! The words of a line, and the replies that commands share.

use crate::refusal::Refusal;
use jsonb::Error;
use std::alloc::Global;
use std::str;

/// The words of a line, between single spaces. A word may be empty.
pub fn words_of(alloc: Global, line: &[u8]) -> Result<Vec<&[u8]>, Refusal> {
    Ok(line.split(|byte| *byte == b' ').collect(alloc)?)
}

/// The bytes of a hexadecimal word.
pub fn decode_hex(alloc: Global, word: &[u8]) -> Result<Vec<u8>, Refusal> {
    Ok(hex::decode(alloc, word)?)
}

/// The bytes of a key, as a text.
pub fn key_of(bytes: &[u8]) -> Result<&str, Refusal> {
    match str::from_utf8(bytes) {
        Ok(key) => Ok(key),
        Err(_) => Err(Refusal::Call(Error::InvalidUtf8)),
    }
}

/// The number of a word of at most 19 decimal digits.
pub fn number_in(word: &[u8]) -> Result<usize, Refusal> {
    if word.len() > 19 || !word.iter().all(|byte| byte.is_ascii_digit()) {
        return Err(Refusal::BadCommand);
    }
    let digits = str::from_utf8(word).unwrap_or("");
    digits.parse().ok().ok_or(Refusal::BadCommand)
}

/// `ok` and these bytes.
pub fn ok_hex(alloc: Global, bytes: &[u8]) -> Result<String, Refusal> {
    let word = hex::encode(alloc, bytes)?;
    Ok(format!(in alloc; "ok {word}")?)
}

/// A fixed word.
pub fn plain_word(alloc: Global, word: &str) -> Result<String, Refusal> {
    Ok(String::from_str(alloc, word)?)
}

/// `true` or `false`.
pub fn truth(alloc: Global, holds: bool) -> Result<String, Refusal> {
    plain_word(alloc, if holds { "true" } else { "false" })
}
