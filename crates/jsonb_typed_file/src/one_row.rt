//! The sections of a file that has one row of another.

ghost use Rattle.std.specs.Prelude.{◌≡◌, ◌<◌, ◌-◌, ◌^◌, IfOk, map};
ghost use Rattle.jsonb_typed_file.specs.OneRow.{column_of_row, file_of_row};
ghost use Rattle.jsonb_typed_file.specs.Words.{HaveRows, LengthsFit, buffers_view, layout_view};
ghost use Rattle.jsonb_typed_file.specs.Words.{row_count};

use crate::buffers::Buffers;
use crate::layout::Layout;
use crate::strings::Strings;
use std::alloc::{AllocError, Global};

// The sections of the file whose only row is the one at this index.
pub(crate) fn layout_of_row<'a>(
    alloc: Global,
    layout: &Layout<'a>,
    index: usize,
) -> Result<Layout<'a>, AllocError>
    requires lengths { LengthsFit (layout_view layout.now) }
    requires within { index < row_count (layout_view layout.now) }
    ensures { IfOk result (λ one. layout_view one ≡ file_of_row (layout_view layout.now) index) }
{
    let columns = columns_of_row(alloc, &layout.columns, layout.rows(), index)?;
    let rests = Strings {
        offsets: &layout.rests.offsets[8 * index..8 * index + 16],
        bytes: layout.rests.bytes,
    };
    Ok(Layout { rests, columns })
}

// The columns of the row at this index, of so many rows.
fn columns_of_row<'a>(
    alloc: Global,
    columns: &[Buffers<'a>],
    rows: usize,
    index: usize,
) -> Result<Vec<Buffers<'a>>, AllocError>
    requires size { HaveRows rows (map buffers_view columns.now) }
    requires few { rows < 2 ^ 60 - 1 }
    requires within { index < rows }
    ensures { IfOk result (λ one. map buffers_view one.items
        ≡ map (λ p. column_of_row p index) (map buffers_view columns.now)) }
{
    let mut alone = Vec::with_capacity(alloc, columns.len())?;
    let mut left = columns;
    while let [column, later @ ..] = left {
        alone.push(column.row_alone(rows, index))?;
        left = later;
    }
    Ok(alone)
}
