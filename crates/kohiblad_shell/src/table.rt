//! Tables: their columns, how their lines are laid out, and the line of headings.

ghost use Rattle.std.specs.Prelude.{◌≡◌, IfOk, OnErr, OnOk};
ghost use Rattle.kohiblad_shell.specs.Words.{Appends, AppendsPrefix, heading, heading_line};

use crate::extract::{TypedPath, push_field};
use crate::halt::Halt;
use crate::table_text::{TableLayout, text_field};
use crate::write::write_bytes;
use std::alloc::{AllocError, Global};
use std::io::Write;

/// The columns of a table, how its lines are laid out, and whether the first one is the names of
/// the columns.
#[derive(Clone, Copy)]
pub struct Table<'a> {
    pub columns: &'a [TypedPath<'a>],
    pub layout: TableLayout,
    pub has_heading: bool,
}

/// Writes the names of the columns as the first line of a table, if it has such a line. After an
/// error a prefix of it is written.
pub fn write_heading<W: Write>(alloc: Global, table: Table<'_>, writer: &mut W) -> Result<(), Halt>
    ensures ok { OnOk result (Appends (W.contents writer.old) (W.contents writer.new)
        (heading table.entry)) }
    ensures err { OnErr result (AppendsPrefix
        (W.contents writer.old) (W.contents writer.new) (heading table.entry)) }
{
    let line = heading(alloc, table)?;
    write_bytes(writer, &line)
}

// The names of the columns as the first line of a table, if it has such a line.
fn heading(alloc: Global, table: Table<'_>) -> Result<Vec<u8>, AllocError>
    ensures { IfOk result (λ line. line.items ≡ heading table.entry) }
{
    if table.has_heading {
        heading_line(alloc, table.layout, table.columns)
    } else {
        Ok(Vec::new(alloc))
    }
}

// The line of the names of the columns.
fn heading_line(
    alloc: Global,
    layout: TableLayout,
    columns: &[TypedPath<'_>],
) -> Result<Vec<u8>, AllocError>
    ensures { IfOk result (λ line. line.items ≡ heading_line layout columns.now) }
{
    let mut line = Vec::new(alloc);
    for (index, column) in columns.iter().enumerate() {
        let field = text_field(alloc, layout, column.name)?;
        push_field(&mut line, index == 0, layout.separator(), &field)?;
    }
    line.push(b'\n')?;
    Ok(line)
}
