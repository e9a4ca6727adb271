//! Encodes a value that the program built.

ghost use Rattle.std.specs.Prelude.{◌≡◌, IfOk};
ghost use Rattle.jsonb_value.specs.Tree.{number};
ghost use Rattle.jsonb.specs.Words.{Int64, array, tree, no_trees, canon};

use jsonb::{Encoder, Error, Number, Value};
use std::alloc::Global;

/// The document of the point `[x,y]`. `OutOfMemory` if an allocation fails.
pub fn point(alloc: Global, x: i64, y: i64) -> Result<Vec<u8>, Error>
    ensures { IfOk result (λ bytes. bytes.items
        ≡ canon (array (tree (number (Int64 x)) (tree (number (Int64 y)) no_trees)))) }
{
    let mut coordinates = Vec::new(alloc);
    coordinates.push(Value::Number(Number::Int64(x)))?;
    coordinates.push(Value::Number(Number::Int64(y)))?;
    let mut bytes = Vec::new(alloc);
    Encoder::new(&mut bytes).encode(&Value::Array(coordinates))?;
    Ok(bytes)
}
