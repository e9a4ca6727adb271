//! The members of rows as a column of one type.

ghost use Rattle.std.specs.Prelude.{◌≡◌, ◌∷◌, ◌++◌, [], OnOk, OnErr, IfOk, IfErr, option_map};
ghost use Rattle.std.specs.Prelude.{◌↔◌, IsTrue};
ghost use Rattle.std.specs.List.{AllZip};
ghost use Rattle.jsonb_typed.specs.Words.{Cell, HasCell, IsCellAt, IsCellOf, IsCellOfRow};
ghost use Rattle.jsonb_typed.specs.Words.{IsDocument, MadeIfFit, node_tree, rest_cell};

use crate::column_type::ColumnType;
use crate::keeping::{document_of, opened};
use crate::member::member_of;
use jsonb::{Document, Error, Node};
use jsonb_functions::Step;
use std::alloc::Global;
use typed_vector::Typed;

/// The members of all rows at the end of a path, as a column of one type. Each member that is no
/// value of it is kept as a document. `OutOfMemory` is the only error.
pub fn extract<T: ColumnType>(
    alloc: Global,
    rows: &[Document<'_>],
    path: &[Step<'_>],
    column_type: &T,
) -> Result<Typed<T::Value>, Error>
    ensures cells { IfOk result
        (λ column. AllZip (IsCellAt (T.stands column_type.now) path.now) rows.now column) }
    ensures memory { IfErr result (λ e. e ≡ Error.OutOfMemory) }
{
    let mut column = Typed::new(alloc, column_type.blank())?;
    column.reserve(rows.len())?;
    for row in rows {
        push_member(alloc, &mut column, member_of(*row, path), column_type)?;
    }
    Ok(column)
}

/// Appends the member of one more row; `None` if the row has no such member. After an error the
/// column is as before. `InvalidJsonb`, before any allocation, exactly if the member is to be kept
/// and has no document of its own, as every member of a document has: a payload exceeds 268,435,455
/// bytes, or it is a signed zero that was made from a number. `OutOfMemory` if an allocation fails.
#[tactic(auto, using(crate::proofs::DocumentLaws::some_bytes))]
pub fn push_member<T: ColumnType>(
    alloc: Global,
    column: &mut Typed<T::Value>,
    member: Option<Node<'_>>,
    column_type: &T,
) -> Result<(), Error>
    ensures pushed { OnOk result ((c : Cell T.Value) × ((column.new ≡ column.old ++ c ∷ [])
        × IsCellOf (T.stands column_type.now) (option_map node_tree member.entry) c)) }
    ensures kept { OnErr result (column.new ≡ column.old) }
    ensures limits { MadeIfFit (HasCell (T.stands column_type.now) member.entry) result }
{
    let Some(member) = member else {
        column.push_absent()?;
        return Ok(());
    };
    match column_type.value_of(opened(member)) {
        Some(value) => column.push_value(value)?,
        None => {
            let document = document_of(alloc, member)?;
            column.push_other(document.as_bytes())?;
        }
    }
    Ok(())
}

/// Appends the member of one more row of any bytes at the end of a path, and returns whether the
/// bytes are a document. Bytes that are not are kept as they are; no bytes are a row without the
/// member, as a null row of Arrow is. `OutOfMemory` is the only error, after which the column is as
/// before.
#[tactic(auto, using(crate::proofs::RowLaws::cell_of_bytes))]
pub fn push_row<T: ColumnType>(
    alloc: Global,
    column: &mut Typed<T::Value>,
    row: &[u8],
    path: &[Step<'_>],
    column_type: &T,
) -> Result<bool, Error>
    ensures pushed { OnOk result ((c : Cell T.Value) × ((column.new ≡ column.old ++ c ∷ [])
        × IsCellOfRow (T.stands column_type.now) path.now row.now c)) }
    ensures document { IfOk result (λ is_document. IsTrue is_document ↔ IsDocument row.now) }
    ensures kept { OnErr result (column.new ≡ column.old) }
    ensures memory { IfErr result (λ e. e ≡ Error.OutOfMemory) }
{
    match Document::new(row) {
        Some(document) => {
            push_member(alloc, column, member_of(document, path), column_type)?;
            Ok(true)
        }
        None => {
            push_bytes(column, row)?;
            Ok(false)
        }
    }
}

// Appends a row of bytes that are not a document.
fn push_bytes<V: Copy>(column: &mut Typed<V>, row: &[u8]) -> Result<(), Error>
    ensures pushed { OnOk result (column.new ≡ column.old ++ rest_cell row.now ∷ []) }
    ensures kept { OnErr result (column.new ≡ column.old) }
    ensures memory { IfErr result (λ e. e ≡ Error.OutOfMemory) }
{
    if row.is_empty() {
        column.push_absent()?;
    } else {
        column.push_other(row)?;
    }
    Ok(())
}
