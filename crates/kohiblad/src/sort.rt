//! Sorting consecutive rows.

ghost use Rattle.std.specs.Prelude.{◌≡◌, ◌≤◌, ◌++◌, length, drop, map, IfOk, IfErr};
ghost use Rattle.kohiblad.specs.Words.{meaning_within, IsOrderOf, AreRowsOrdered};

use crate::answer::{NO_ROOM, OK, code};
use crate::rows::Rows;
use jsonb::{Error, SortKey};
use std::alloc::Global;

/// Writes the numbers of the rows, counted from 0, to the start of `order`, sorted as
/// `kohiblad_compare` compares the rows at this depth; equal rows keep their order. A document that
/// nests deeper than `depth` levels counts as bytes that are not a document, and sorts by its bytes
/// after all documents. Each row is checked once, and deeper levels are not examined. `InvalidEOF`
/// if an offset is below the previous one or beyond the bytes; then, before memory is requested,
/// `NO_ROOM` if `order` has fewer numbers than there are rows; `OutOfMemory` if an allocation
/// fails. If the status is not `OK`, `order` is unchanged.
#[unsafe(no_mangle)]
pub extern "C" fn kohiblad_sort(
    alloc: Global,
    bytes: &[u8],
    offsets: &[usize],
    depth: usize,
    order: &mut [usize],
) -> u32
    ensures { AreRowsOrdered (meaning_within depth)
        bytes.now offsets.now order.old order.new result }
{
    let Ok(rows) = Rows::new(bytes, offsets) else {
        return code(Error::InvalidEOF);
    };
    if order.len() < rows.len() {
        return NO_ROOM;
    }
    match keys_in_order(alloc, rows, depth) {
        Ok(keys) => {
            put_numbers(&keys, order);
            OK
        }
        Err(error) => code(error),
    }
}

// The keys of the rows with their numbers, sorted.
fn keys_in_order<'a>(
    alloc: Global,
    rows: Rows<'a>,
    depth: usize,
) -> Result<Vec<(SortKey<'a>, usize)>, Error>
    ensures ok { IfOk result (λ keys. IsOrderOf (meaning_within depth)
        rows.entry (map (λ key. key.1) keys.items)) }
    ensures len { IfOk result (λ keys. length keys.items ≡ length rows.entry) }
    ensures memory { IfErr result (λ e. e ≡ Error.OutOfMemory) }
{
    let mut left = rows;
    let mut keys = Vec::new(alloc);
    while let Some(row) = left.next() {
        keys.push((SortKey::within(row, depth), keys.len()))?;
    }
    keys.sort()?;
    Ok(keys)
}

// Writes the numbers of the keys to the start of `order`.
fn put_numbers(keys: &[(SortKey, usize)], order: &mut [usize])
    requires { length keys.now ≤ length order.old }
    ensures { order.new ≡ map (λ key. key.1) keys.now ++ drop (length keys.now) order.old }
{
    for number in 0..keys.len() {
        order[number] = keys[number].1;
    }
}
