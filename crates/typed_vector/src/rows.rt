//! Rows of bytes, one after another.

ghost use Rattle.std.specs.Prelude.{◌≡◌, ◌<◌, ◌+◌, [], get_or, length};
ghost use Rattle.typed_vector.specs.Cells.{AreOffsets, rows};

// The row at an index.
pub(crate) fn row_at<'a>(bytes: &'a [u8], offsets: &[usize], index: usize) -> &'a [u8]
    requires ascending { AreOffsets (length bytes.now) offsets.now }
    requires within { index + 1 < length offsets.now }
    ensures { result.now ≡ get_or (rows bytes.entry.now offsets.now) index [] }
{
    let start = offsets[index];
    let end = offsets[index + 1];
    &bytes[start..end]
}
