//! The members of rows as a column of binary values.

ghost use Rattle.std.specs.Prelude.{◌≡◌, ◌∷◌, ◌++◌, [], ℕ, List, OnOk, OnErr, IfOk, IfErr};
ghost use Rattle.std.specs.Prelude.{MatchOption, option_map};
ghost use Rattle.std.specs.List.{AllZip};
ghost use Rattle.jsonb_typed.specs.Words.{Cell, HasCell, HoldsNoScalar, IsBinary, IsCellAt};
ghost use Rattle.jsonb_typed.specs.Words.{IsCellOf, MadeIfFit, node_tree};

use crate::keeping::{document_of, opened};
use crate::member::member_of;
use crate::types::extension_of;
use jsonb::{Document, Error, ExtensionValue, Node};
use jsonb_functions::Step;
use std::alloc::Global;
use typed_vector::Binaries;

/// The members of all rows at the end of a path, as a column of binary values. Each member that is
/// none is kept as a document. `OutOfMemory` is the only error.
pub fn extract_binary(
    alloc: Global,
    rows: &[Document<'_>],
    path: &[Step<'_>],
) -> Result<Binaries, Error>
    ensures cells { IfOk result (λ column. AllZip (IsCellAt IsBinary path.now) rows.now column) }
    ensures memory { IfErr result (λ e. e ≡ Error.OutOfMemory) }
{
    let mut column = Binaries::new(alloc)?;
    column.reserve(rows.len())?;
    for row in rows {
        push_binary(alloc, &mut column, member_of(*row, path))?;
    }
    Ok(column)
}

/// Appends the member of one more row; `None` if the row has no such member. After an error the
/// column is as before. `InvalidJsonb`, before any allocation, exactly if the member is to be kept
/// and has no document of its own, as every member of a document has: a payload exceeds 268,435,455
/// bytes, or it is a signed zero that was made from a number. `OutOfMemory` if an allocation fails.
#[tactic(auto, using(crate::proofs::DocumentLaws::some_bytes))]
pub fn push_binary(
    alloc: Global,
    column: &mut Binaries,
    member: Option<Node<'_>>,
) -> Result<(), Error>
    ensures pushed { OnOk result ((c : Cell (List ℕ)) × ((column.new ≡ column.old ++ c ∷ [])
        × IsCellOf IsBinary (option_map node_tree member.entry) c)) }
    ensures kept { OnErr result (column.new ≡ column.old) }
    ensures limits { MadeIfFit (HasCell IsBinary member.entry) result }
{
    let Some(member) = member else {
        column.push_absent()?;
        return Ok(());
    };
    match binary_of(opened(member)) {
        Some(bytes) => column.push_binary(bytes)?,
        None => {
            let document = document_of(alloc, member)?;
            column.push_other(document.as_bytes())?;
        }
    }
    Ok(())
}

/// The bytes of a member that is a binary value. `None` if it is none.
pub fn binary_of(member: Node<'_>) -> Option<&[u8]>
    requires { HoldsNoScalar member }
    ensures { MatchOption result
        ((bytes : List ℕ) → IsBinary bytes (node_tree member.entry) → ⊥)
        (λ bytes. IsBinary bytes.now (node_tree member.entry)) }
{
    match extension_of(member)? {
        ExtensionValue::Binary(bytes) => Some(bytes),
        _ => None,
    }
}
