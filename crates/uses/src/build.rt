//! Builds documents from documents, without decoding them.

ghost use Rattle.std.specs.Prelude.{◌≡◌, ◌⊎◌, codes, IfOk, IfErr};
ghost use Rattle.jsonb.specs.Words.{Tree, tree, no_trees, pair, no_pairs, Doc, IsArrayUpToZeros};
ghost use Rattle.jsonb.specs.Words.{IsObjectUpToZeros, owned_bytes};

use jsonb::{ArrayBuilder, Error, ObjectBuilder, OwnedJsonb, RawJsonb};
use std::alloc::Global;

/// The array of two documents. `InvalidJsonb` if one of them is not a document, or exceeds a limit;
/// `OutOfMemory` if an allocation fails.
pub fn array_of_two(alloc: Global, first: &[u8], second: &[u8]) -> Result<OwnedJsonb, Error>
    ensures { (t u : Tree) → Doc first.entry.now t → Doc second.entry.now u
        → IfOk result (λ array. IsArrayUpToZeros (tree t (tree u no_trees)) (owned_bytes array)) }
{
    let mut builder = ArrayBuilder::new(alloc);
    builder.push_raw_jsonb(RawJsonb::new(first))?;
    builder.push_raw_jsonb(RawJsonb::new(second))?;
    builder.build()
}

/// The object of two documents, at the keys `id` and `body`. `InvalidJsonb` if one of them is not a
/// document, or exceeds a limit; `OutOfMemory` if an allocation fails.
pub fn row_of(alloc: Global, id: &[u8], body: &[u8]) -> Result<OwnedJsonb, Error>
    ensures ok { (t u : Tree) → Doc id.entry.now t → Doc body.entry.now u
        → IfOk result (λ row. IsObjectUpToZeros
        (pair (codes "body") u (pair (codes "id") t no_pairs)) (owned_bytes row)) }
    ensures errors { IfErr result (λ e. (e ≡ Error.InvalidJsonb) ⊎ (e ≡ Error.OutOfMemory)) }
{
    let mut builder = ObjectBuilder::new(alloc);
    builder.push_raw_jsonb("id", RawJsonb::new(id))?;
    builder.push_raw_jsonb("body", RawJsonb::new(body))?;
    builder.build()
}
