//! Documents that are edited at the end of a path.

ghost use Rattle.std.specs.Prelude.{◌≡◌};
ghost use Rattle.kohiblad.specs.Words.{IsEditLength, IsEdited, meaning_within, operation_asked};
ghost use Rattle.kohiblad.specs.Words.{operation_in};

use crate::answer::{OTHER_KIND, code, hand_over_made, refuse};
use crate::checked::checked;
use jsonb::Error;
use jsonb_functions::{Edit, edit_document, read_path};
use std::alloc::Global;

/// Copies the canonical document of a document that is edited at the end of a path to `out`. `path`
/// is the document of an array: a text is the key of a member, and a whole number the index of an
/// item, counted from 0, or from -1 at the end; one that is stored as a decimal is none. With
/// `edit` 0 the value is put there, in place of what is there; with 1 it is inserted before an
/// item, or as a member whose key is not there; with 2 what is there is removed, and no value is
/// read. Past the last item a value comes after it, and before the first one in front of it. If a
/// step before the last leads nowhere nothing is edited, and neither is the whole document but by
/// putting a value. With 3 the value is put there, and what the path lacks is made: an object for
/// each missing key, an array for the index 0 or 2^64 - 1; an item is added right after the last
/// one only, at its index or at 2^64 - 1. Any other number is refused without reading the value.
/// `InvalidJsonb` if the bytes, the path or the value are not a document of at most this depth, or
/// the result exceeds a limit of the format; `OTHER_KIND` if there is no such edit, or the path is
/// not an array of texts and whole numbers of 64 bits; `OutOfMemory` if an allocation fails. The
/// document has at most 5/4 of the bytes of the document and the value together, 3 times those of
/// the path, and 2 more.
#[unsafe(no_mangle)]
pub extern "C" fn kohiblad_edit(
    alloc: Global,
    bytes: &[u8],
    path: &[u8],
    edit: u32,
    value: &[u8],
    depth: usize,
    out: &mut [u8],
    length: &mut usize,
) -> u32
    ensures edited { IsEdited (meaning_within depth bytes.now) (meaning_within depth path.now)
        (operation_asked edit (meaning_within depth value.now))
        out.old out.new length.new result }
    ensures len { IsEditLength bytes.now path.now value.now length.new }
{
    let edit = edit_of(edit, value, depth);
    write_edit(alloc, bytes, path, edit, depth, out, length)
}

// The edit of this number with this value, or the status that refuses it.
fn edit_of<'a>(number: u32, value: &'a [u8], depth: usize) -> Result<Edit<'a>, u32>
    ensures { operation_in result ≡ operation_asked number (meaning_within depth value.entry.now) }
{
    match (number, checked(value, depth)) {
        (0, Ok(value)) => Ok(Edit::Put(value)),
        (1, Ok(value)) => Ok(Edit::Insert(value)),
        (2, _) => Ok(Edit::Remove),
        (3, Ok(value)) => Ok(Edit::Create(value)),
        (0 | 1 | 3, Err(error)) => Err(code(error)),
        _ => Err(OTHER_KIND),
    }
}

// Copies out an edited document, if the bytes and the path are documents.
fn write_edit(
    alloc: Global,
    bytes: &[u8],
    path: &[u8],
    edit: Result<Edit<'_>, u32>,
    depth: usize,
    out: &mut [u8],
    length: &mut usize,
) -> u32
    ensures { IsEdited (meaning_within depth bytes.now) (meaning_within depth path.now)
        (operation_in edit.entry) out.old out.new length.new result }
{
    let (Ok(document), Ok(path)) = (checked(bytes, depth), checked(path, depth)) else {
        return refuse(code(Error::InvalidJsonb), out, length);
    };
    let edit = match edit {
        Ok(edit) => edit,
        Err(status) => return refuse(status, out, length),
    };
    match read_path(alloc, path) {
        Ok(Some(steps)) => {
            hand_over_made(edit_document(alloc, document, &steps, edit), out, length)
        }
        Ok(None) => refuse(OTHER_KIND, out, length),
        Err(error) => refuse(code(error), out, length),
    }
}
