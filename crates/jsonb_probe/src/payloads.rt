//! Payloads of numbers and extension values.

use crate::line::decode_hex;
use crate::refusal::Refusal;
use jsonb::{ExtensionValue, Number};
use std::alloc::Global;

/// Replies with the number that the payload means, and the payload that is written for it.
pub fn number(alloc: Global, word: &[u8]) -> Result<String, Refusal> {
    let number = Number::decode(&decode_hex(alloc, word)?)?;
    let mut payload = Vec::new(alloc);
    number.compact_encode(&mut payload)?;
    let written = hex::encode(alloc, payload)?;
    Ok(match number {
        Number::Int64(value) => format!(in alloc; "ok int64 {value} {written}"),
        Number::UInt64(value) => format!(in alloc; "ok uint64 {value} {written}"),
        Number::Decimal64(decimal) => {
            format!(in alloc;
                "ok decimal64 {} {} {written}",
                decimal.value, decimal.scale
            )
        }
        Number::Decimal128(decimal) => {
            format!(in alloc;
                "ok decimal128 {} {} {written}",
                decimal.value, decimal.scale
            )
        }
    }?)
}

/// Replies with the text of the extension value that the payload means, and the payload that is
/// written for it.
pub fn extension(alloc: Global, word: &[u8]) -> Result<String, Refusal> {
    let bytes = decode_hex(alloc, word)?;
    let value = ExtensionValue::decode(&bytes)?;
    let mut payload = Vec::new(alloc);
    value.compact_encode(&mut payload)?;
    let written = hex::encode(alloc, payload)?;
    Ok(format!(in alloc; "ok {value} {written}")?)
}
