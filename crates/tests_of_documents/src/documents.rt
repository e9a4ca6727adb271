// Known documents, and functions that the tests share.
ghost use Rattle.std.specs.Prelude.{◌≡◌, Err, IfOk};
ghost use Rattle.uses.specs.Words.{tree_of, canon, Fits};

use jsonb_codec::{Decoder, Encoder, value_of};
use jsonb_value::{Error, Value};
use std::alloc::Global;
use std::fmt;
use std::test::Fail;

/// Documents that both readers accept.
pub const DOCUMENTS: &[&str] = &[
    "800000023000000040000000",
    "8000000330000000200000025000000e500a400000011000000110000001 6b76",
    "20000000 20000001 00",
    "20000000 20000002 4000",
    "20000000 2000000a 70 00000000000004d2 02",
    "20000000 20000013 70 000000000000000000000000000004d2 26 02",
    "20000000 20000012 70 000000000000000000000000000004d2 02",
    "20000000 6000000a 30 000640d6b7238000 08",
    "20000000 6000000d 30 000640d6b7238000 00007080",
    "40000002 10000001 10000001 20000002 10000003 61 62 5001 313233",
    "20000000 20000002 5005",
    "20000000 20000002 4005",
    "20000000 2000000a 70 0000000000000032 01",
    "20000000 20000002 40ff",
    "20000000 20000012 70 80000000000000000000000000000000 ff",
    "20000000 20000012 70 7fffffffffffffffffffffffffffffff 00",
    "20000000 2000000a 70 0000000000000001 ff",
    "20000000 00000000",
    "80000000",
    "40000000",
    "20000000 10000000",
    "20000000 40000000",
    "20000000 30000000",
    "20000000 60000001 00",
    "80000001 20000002 5001",
    "80000002 20000002 20000001 5001 00",
    "40000001 10000001 20000002 61 5001",
    "40000001 10000001 20000001 62 00",
    "40000002 10000002 10000002 20000002 5000000a 6161 6162 5001 80000001 20000002 5002",
    "80000002 20000002 10000001 5005 78",
    "40000002 10000001 10000001 20000002 20000002 61 62 5002 5001",
    "20000000 10000003 617364",
    "20000000 20000002 409c",
    "20000000 20000003 408000",
    "20000000 20000003 50ffff",
    "40000001 10000003 50000008 617272 80000001 30000000",
    "40000001 10000003 50000011 6f626a 40000001 10000005 40000000 6669656c64",
    "80000003 20000002 10000005 50000016 5001 68656c6c6f 80000003 20000002 20000002 20000002 5001 \
     5002 5003",
    "20000000 60000004 00 010203",
    "20000000 60000005 10 ffffffff",
    "20000000 60000009 20 0000000000000001",
    "20000000 60000011 40 0000000a 00000014 000000000000012c",
    "20000000 60000003 50ab01",
    "20000000 20000009 50ffffffffffffffff",
    "40000001 10000000 00000000",
];

/// The bytes of a hexadecimal text, in which spaces are ignored.
pub fn bytes_of(alloc: Global, text: &str) -> Result<Vec<u8>, Fail> {
    let mut digits = String::new(alloc);
    for digit in text.chars() {
        if digit != ' ' {
            digits.push(digit)?;
        }
    }
    Ok(hex::decode(alloc, digits.as_str())?)
}

/// The canonical document of a value, with what a caller knows of its buffer once the encoder is
/// dropped.
pub fn encoded(alloc: Global, value: &Value) -> Result<Vec<u8>, Error>
    ensures ok { IfOk result (λ bytes. bytes.items ≡ canon (tree_of value.now)) }
    ensures past { (Fits (tree_of value.now) → ⊥) → result ≡ Err Error.InvalidJsonb }
{
    let mut bytes = Vec::new(alloc);
    Encoder::new(&mut bytes).encode(value)?;
    Ok(bytes)
}

/// The value of the tree reader, encoded again.
pub fn read_as_tree(alloc: Global, bytes: &[u8]) -> Result<Vec<u8>, Error> {
    encoded(alloc, &value_of(alloc, bytes)?)
}

/// The value of the decoder, encoded again.
pub fn decode_again(alloc: Global, bytes: &[u8]) -> Result<Vec<u8>, Error> {
    encoded(alloc, &Decoder::new(bytes).decode(alloc)?)
}

/// `levels` nested arrays, the innermost empty.
pub fn nested(alloc: Global, levels: u32) -> Result<Vec<u8>, Fail> {
    let mut bytes = Vec::new(alloc);
    for level in 1..levels {
        let inside = (levels - level).saturating_mul(8).saturating_sub(4);
        bytes.extend_from_slice(&0x80000001_u32.to_be_bytes())?;
        bytes.extend_from_slice(&0x50000000_u32.saturating_add(inside).to_be_bytes())?;
    }
    bytes.extend_from_slice(&0x80000000_u32.to_be_bytes())?;
    Ok(bytes)
}

/// A writer that accepts `room` bytes, and refuses a piece that is longer than what is left.
#[derive(Drop)]
pub struct Narrow {
    pub text: String,
    pub room: usize,
}

impl fmt::Write for Narrow {
    fn write_str(&mut self, piece: &str) -> fmt::Result {
        if piece.len() > self.room {
            return Err(fmt::Error);
        }
        self.room -= piece.len();
        self.text.push_str(piece).map_err(|_| fmt::Error)
    }
}
