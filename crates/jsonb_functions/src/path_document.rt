//! Documents that give paths.

ghost use Rattle.std.specs.Prelude.{◌≡◌, ◌⊎◌, ◌-◌, ◌^◌, Err, IfErr, IfOk, OnOk, map, min, negsuc};
ghost use Rattle.jsonb_functions.specs.Words.{Fits, canon, owned_bytes, path_tree, step_tree};
ghost use Rattle.jsonb_functions.specs.Words.{step_view, tree_of};

use crate::path::Step;
use jsonb::{Encoder, Error, Number, OwnedJsonb, Value};
use std::alloc::Global;
use std::borrow::CowStr;

/// The canonical document of a path, which `read_path` reads: an array with a string for each key
/// and a whole number for each index, where -1 is the last item, and the greatest of 64 bits is
/// `End`, also for an index that is so great. An index from the end above 2^63 - 1 is stored as
/// 2^63 - 1, which is also before the first item of every array.
/// `InvalidJsonb` if a key exceeds 268,435,455 bytes, or there are more than 536,870,911 steps;
/// `OutOfMemory` if an allocation fails.
pub fn document_of_path(alloc: Global, path: &[Step<'_>]) -> Result<OwnedJsonb, Error>
    ensures ok { IfOk result (λ owned. owned_bytes owned
        ≡ canon (path_tree (map step_view path.now))) }
    ensures fits { OnOk result (Fits (path_tree (map step_view path.now))) }
    ensures past { result ≡ Err Error.InvalidJsonb → Fits (path_tree (map step_view path.now)) → ⊥ }
    ensures only { IfErr result (λ e. (e ≡ Error.InvalidJsonb) ⊎ (e ≡ Error.OutOfMemory)) }
{
    let mut items = Vec::with_capacity(alloc, path.len())?;
    for step in path {
        items.push(value_of_step(*step))?;
    }
    let mut bytes = Vec::new(alloc);
    Encoder::new(&mut bytes).encode(&Value::Array(items))?;
    Ok(OwnedJsonb::new(bytes))
}

// The value that gives a step.
fn value_of_step<'a>(step: Step<'a>) -> Value<'a>
    ensures { tree_of result ≡ step_tree (step_view step.entry) }
{
    match step {
        Step::Key(name) => Value::String(CowStr::Borrowed(name)),
        Step::Index(index) => Value::Number(Number::UInt64(index as u64)),
        Step::FromEnd(index) => Value::Number(Number::Int64(stored_from_end(index))),
        Step::End => Value::Number(Number::UInt64(u64::MAX)),
    }
}

// The number that gives an item from the end: -1 for the last one.
fn stored_from_end(index: usize) -> i64
    ensures { result ≡ negsuc (min index (2 ^ 63 - 1)) }
{
    let stored = index.min(i64::MAX as usize);
    -1 - stored as i64
}
