//! The children of an array or object, one after another in one pass.

ghost use Rattle.std.specs.Prelude.{◌≡◌, ◌<◌, ◌≤◌, ◌^◌, ℕ, suc, length, IfOk, IfSome, Ok, Some};
ghost use Rattle.kohiblad.specs.Words.{CanMove, IsBegun, IsChildWithin, child_at_cursor};
ghost use Rattle.kohiblad.specs.Words.{cursor_after, cursor_at, first_value, key_answer, layout_in};
ghost use Rattle.kohiblad.specs.Words.{numbered_child, value_answer};

use crate::answer::{NONE, OK, code};
use crate::places::{KohibladPlace, place_answer};
use jsonb::layer::{Entry, payloads_end};
use jsonb::{Error, read_header};
use jsonb_codec::constants::{ARRAY_CONTAINER_TAG, OBJECT_CONTAINER_TAG};

/// The state of a walk over the children of an array or object: the index of the next child, and
/// the offset at which its payload begins. For an object's member, `key` is the offset of its key;
/// for an array it is 0.
#[repr(C)]
#[derive(Clone, Copy)]
pub struct KohibladCursor {
    pub index: u64,
    pub key: u64,
    pub value: u64,
}

// The entry of a child, and for an object's member that of its key.
#[derive(Clone, Copy)]
struct Child {
    key: Option<Entry>,
    value: Entry,
}

/// How the children of an array or object are laid out: whether they have keys, whose entries come
/// before those of the values, and how many there are.
#[derive(Clone, Copy)]
struct ChildLayout {
    keyed: bool,
    count: usize,
}

/// Puts the cursor before the first child of an array or object. `NONE` if the bytes are neither;
/// `InvalidEOF` if the header is cut off, or of an object the entry word of a key; `InvalidJsonb`
/// if the header is of no kind. If the status is not `OK`, the cursor is unchanged. No other word
/// is read: the header of five items alone gives `OK` and an offset past the bytes, at which
/// `kohiblad_next` returns `InvalidEOF`.
#[unsafe(no_mangle)]
pub extern "C" fn kohiblad_begin(bytes: &[u8], cursor: &mut KohibladCursor) -> u32
    ensures { IsBegun (cursor_at bytes.now 0) cursor.old cursor.new result }
{
    match first_cursor(bytes) {
        Ok(Some(first)) => {
            *cursor = first;
            OK
        }
        Ok(None) => NONE,
        Err(error) => code(error),
    }
}

/// Stores the position of the child at the cursor in `value`, and that of an object's key in `key`,
/// and moves the cursor after the child. In a walk from `kohiblad_begin` on, these are the
/// positions that `kohiblad_find_index` returns. `NONE` if there are no more children, or the bytes
/// are neither an array nor an object; `InvalidEOF` if the header or an entry word that is read is
/// cut off; `InvalidJsonb` if the header is of no kind, or the key or value runs past the end. Both
/// positions have the status that is returned, but with `OK` the key of an array's item has `NONE`;
/// a position whose status is not `OK` has zeros. If the status that is returned is not `OK`, the
/// cursor is unchanged. Any cursor may be given: a position with `OK` is inside the bytes.
#[unsafe(no_mangle)]
pub extern "C" fn kohiblad_next(
    bytes: &[u8],
    cursor: &mut KohibladCursor,
    key: &mut KohibladPlace,
    value: &mut KohibladPlace,
) -> u32
    ensures key { key.new ≡ key_answer (child_at_cursor bytes.now cursor.old) }
    ensures value { value.new ≡ value_answer (child_at_cursor bytes.now cursor.old) }
    ensures status { result ≡ value.new.status }
    ensures moved { cursor.new ≡ cursor_after (child_at_cursor bytes.now cursor.old) cursor.old }

    // At a cursor before the child of an index, that child is returned, and the cursor is then
    // before the next one.
    ensures child { (index : ℕ) → cursor_at bytes.now index ≡ Ok (Some cursor.old)
        → child_at_cursor bytes.now cursor.old ≡ numbered_child bytes.now index }
    ensures walk { (index : ℕ) → cursor_at bytes.now index ≡ Ok (Some cursor.old) → result ≡ 0
        → cursor_at bytes.now (suc index) ≡ Ok (Some cursor.new) }
{
    let found = child_at_cursor(bytes, *cursor);
    *cursor = cursor_after(found, *cursor);
    *key = key_answer(found);
    *value = value_answer(found);
    value.status
}

// The layout of the children. `None` if the bytes are neither an array nor an object.
fn layout_in(bytes: &[u8]) -> Result<Option<ChildLayout>, Error>
    ensures value { result ≡ layout_in bytes.now }
    ensures few { IfOk result (λ o. IfSome o (λ layout. layout.count < 2 ^ 29)) }
    ensures header { IfOk result (λ _. 4 ≤ length bytes.now) }
{
    match read_header(bytes, 0)? {
        (ARRAY_CONTAINER_TAG, count) => Ok(Some(ChildLayout {
            keyed: false,
            count,
        })),
        (OBJECT_CONTAINER_TAG, count) => Ok(Some(ChildLayout { keyed: true, count })),
        _ => Ok(None),
    }
}

// The number of the first value's entry.
fn first_value(layout: ChildLayout) -> usize
    ensures { result ≡ first_value layout }
{
    if layout.keyed { layout.count } else { 0 }
}

// The cursor before the first child. `None` if the bytes are neither an array nor an object.
fn first_cursor(bytes: &[u8]) -> Result<Option<KohibladCursor>, Error>
    ensures { result ≡ cursor_at bytes.now 0 }
{
    let Some(layout) = layout_in(bytes)? else {
        return Ok(None);
    };
    let first = first_value(layout);
    let start = 4 + 4 * (first + layout.count);
    let value = payloads_end(bytes, 4, start, first)?;
    Ok(Some(KohibladCursor {
        index: 0,
        key: if layout.keyed { start as u64 } else { 0 },
        value: value as u64,
    }))
}

// The child at the cursor. `None` after the last one.
fn child_at_cursor(bytes: &[u8], cursor: KohibladCursor) -> Result<Option<Child>, Error>
    ensures value { result ≡ child_at_cursor bytes.now cursor }
    ensures moves { CanMove result cursor }
    ensures inside { IsChildWithin bytes.now result }
{
    let Some(layout) = layout_in(bytes)? else {
        return Ok(None);
    };
    let index = cursor.index as usize;
    if layout.count <= index {
        return Ok(None);
    }
    let key = if layout.keyed {
        Some(Entry::read(bytes, 4 + 4 * index, cursor.key as usize)?)
    } else {
        None
    };
    let number = first_value(layout) + index;
    let value = Entry::read(bytes, 4 + 4 * number, cursor.value as usize)?;
    Ok(Some(Child { key, value }))
}

// The cursor after a child that was found, or the unchanged cursor if none was.
fn cursor_after(found: Result<Option<Child>, Error>, cursor: KohibladCursor) -> KohibladCursor
    requires { CanMove found cursor }
    ensures { result ≡ cursor_after found cursor }
{
    match found {
        Ok(Some(child)) => KohibladCursor {
            index: cursor.index + 1,
            key: match child.key {
                Some(key) => (key.start + key.length) as u64,
                None => cursor.key,
            },
            value: (child.value.start + child.value.length) as u64,
        },
        _ => cursor,
    }
}

// The position of a child's key as C receives it: `NONE` for an array's item.
fn key_answer(found: Result<Option<Child>, Error>) -> KohibladPlace
    ensures { result ≡ key_answer found }
{
    match found {
        Ok(Some(child)) => place_answer(Ok(child.key)),
        Ok(None) => place_answer(Ok(None)),
        Err(error) => place_answer(Err(error)),
    }
}

// The position of a child's value as C receives it.
fn value_answer(found: Result<Option<Child>, Error>) -> KohibladPlace
    ensures { result ≡ value_answer found }
{
    match found {
        Ok(Some(child)) => place_answer(Ok(Some(child.value))),
        Ok(None) => place_answer(Ok(None)),
        Err(error) => place_answer(Err(error)),
    }
}
