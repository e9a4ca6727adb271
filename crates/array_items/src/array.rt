//! Reading the items of one array, one after another.

ghost use Rattle.std.specs.Prelude.{◌≡◌, [], IfOk};
ghost use Rattle.array_items.specs.Words.{BeginsArray, ReadsItem, item_at_end, item_at_first};
ghost use Rattle.array_items.specs.Words.{item_at_next, item_in};

use crate::held::{ReadFault, next_byte};
use crate::value::take_value;
use std::io::BufRead;

/// Why a text is no array.
#[derive(Clone, Copy, Debug, PartialEq, Eq)]
pub enum ArrayFault {
    /// It does not begin with `[`.
    NoArray,
    /// A comma has no item before it, or none after it.
    NoItem,
    /// Neither a comma nor `]` comes after an item.
    NoComma,
    /// It ends before its `]`.
    NoEnd,
    /// Something comes after its `]`.
    AfterEnd,
}

/// What a read found.
#[derive(Clone, Copy, Debug, PartialEq, Eq)]
pub enum FoundItem {
    /// An item.
    Item,
    /// No item: all of the array is read.
    End,
    /// The text is no array. What was read of the item at which it is not stays.
    Fault(ArrayFault),
}

/// Passes over white space. Whether an array begins after it.
pub fn begins_array<R: BufRead>(reader: &mut R) -> Result<bool, ReadFault>
    ensures { IfOk result (λ is. BeginsArray (R.remaining reader.old) (R.remaining reader.new) is) }
{
    let byte = next_byte(reader, false)?;
    Ok(byte == Some(b'['))
}

/// Reads the next item of an array in place of what `item` held: at the `[` of an array the first
/// one, and where the read before it ended the one after it. An item is read without the white
/// space around it, and the next read begins at the comma after it, or at the `]`.
///
/// An item is told by its brackets and quotes alone: whether it is JSON is not.
pub fn read_item<R: BufRead>(reader: &mut R, item: &mut Vec<u8>) -> Result<FoundItem, ReadFault>
    ensures { IfOk result (λ found. ReadsItem item_in
        (R.remaining reader.old) (R.remaining reader.new) item.new.items found) }
{
    item.clear();
    match next_byte(reader, true)? {
        Some(b'[') => read_first(reader, item),
        Some(b',') => read_next(reader, item),
        Some(b']') => read_end(reader, item),
        _ => Ok(FoundItem::Fault(ArrayFault::NoArray)),
    }
}

// Reads the first item, where its `[` was taken.
fn read_first<R: BufRead>(reader: &mut R, item: &mut Vec<u8>) -> Result<FoundItem, ReadFault>
    requires { item.old.items ≡ [] }
    ensures { IfOk result (λ found. ReadsItem item_at_first
        (R.remaining reader.old) (R.remaining reader.new) item.new.items found) }
{
    match next_byte(reader, false)? {
        None => Ok(FoundItem::Fault(ArrayFault::NoEnd)),
        Some(b']') => {
            let _ = next_byte(reader, true)?;
            read_end(reader, item)
        }
        Some(_) => read_next(reader, item),
    }
}

// Reads an item, where the `[` or the comma before it was taken.
fn read_next<R: BufRead>(reader: &mut R, item: &mut Vec<u8>) -> Result<FoundItem, ReadFault>
    requires { item.old.items ≡ [] }
    ensures { IfOk result (λ found. ReadsItem item_at_next
        (R.remaining reader.old) (R.remaining reader.new) item.new.items found) }
{
    match next_byte(reader, false)? {
        None => Ok(FoundItem::Fault(ArrayFault::NoEnd)),
        Some(b',' | b']') => Ok(FoundItem::Fault(ArrayFault::NoItem)),
        Some(_) => {
            let _ = take_value(reader, item)?;
            match next_byte(reader, false)? {
                None => Ok(FoundItem::Fault(ArrayFault::NoEnd)),
                Some(b',' | b']') => Ok(FoundItem::Item),
                Some(_) => Ok(FoundItem::Fault(ArrayFault::NoComma)),
            }
        }
    }
}

// Reads what is left after the `]` of an array.
fn read_end<R: BufRead>(reader: &mut R, item: &mut Vec<u8>) -> Result<FoundItem, ReadFault>
    requires { item.old.items ≡ [] }
    ensures { IfOk result (λ found. ReadsItem item_at_end
        (R.remaining reader.old) (R.remaining reader.new) item.new.items found) }
{
    match next_byte(reader, false)? {
        None => Ok(FoundItem::End),
        Some(_) => Ok(FoundItem::Fault(ArrayFault::AfterEnd)),
    }
}
