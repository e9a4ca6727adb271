//! The members of rows as a column of texts.

ghost use Rattle.std.specs.Prelude.{◌≡◌, ◌∷◌, ◌++◌, [], ℕ, List, OnOk, OnErr, IfOk, IfErr};
ghost use Rattle.std.specs.Prelude.{option_map};
ghost use Rattle.std.specs.List.{AllZip};
ghost use Rattle.jsonb_typed.specs.Words.{Cell, HasCell, IsCellAt, IsCellOf, IsText, MadeIfFit};
ghost use Rattle.jsonb_typed.specs.Words.{node_tree};

use crate::keeping::{document_of, opened};
use crate::member::member_of;
use jsonb::{Document, Error, Node};
use jsonb_functions::Step;
use std::alloc::Global;
use typed_vector::Texts;

/// The members of all rows at the end of a path, as a column of texts. Each member that is no text
/// is kept as a document. `OutOfMemory` is the only error.
pub fn extract_texts(
    alloc: Global,
    rows: &[Document<'_>],
    path: &[Step<'_>],
) -> Result<Texts, Error>
    ensures cells { IfOk result (λ column. AllZip (IsCellAt IsText path.now) rows.now column) }
    ensures memory { IfErr result (λ e. e ≡ Error.OutOfMemory) }
{
    let mut column = Texts::new(alloc)?;
    column.reserve(rows.len())?;
    for row in rows {
        push_text(alloc, &mut column, member_of(*row, path))?;
    }
    Ok(column)
}

/// Appends the member of one more row; `None` if the row has no such member. After an error the
/// column is as before. `InvalidJsonb`, before any allocation, exactly if the member is to be kept
/// and has no document of its own, as every member of a document has: a payload exceeds 268,435,455
/// bytes, or it is a signed zero that was made from a number. `OutOfMemory` if an allocation fails.
#[tactic(auto, using(crate::proofs::DocumentLaws::some_bytes))]
pub fn push_text(alloc: Global, column: &mut Texts, member: Option<Node<'_>>) -> Result<(), Error>
    ensures pushed { OnOk result ((c : Cell (List ℕ)) × ((column.new ≡ column.old ++ c ∷ [])
        × IsCellOf IsText (option_map node_tree member.entry) c)) }
    ensures kept { OnErr result (column.new ≡ column.old) }
    ensures limits { MadeIfFit (HasCell IsText member.entry) result }
{
    let Some(member) = member else {
        column.push_absent()?;
        return Ok(());
    };
    match opened(member) {
        Node::String(text) => column.push_text(text)?,
        _ => {
            let document = document_of(alloc, member)?;
            column.push_other(document.as_bytes())?;
        }
    }
    Ok(())
}
