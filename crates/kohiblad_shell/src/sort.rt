//! Sorting the rows that a run kept, by their keys.

ghost use Rattle.std.specs.Prelude.{◌≡◌, ◌++◌, Some, IfOk, IfSome, OnOk, OnErr};
ghost use Rattle.std.specs.Prelude.{flat_map, nat_eq, refl};
ghost use Rattle.kohiblad_shell.specs.Words.{Appends, AppendsPrefix, AreSorted, arranged};
ghost use Rattle.kohiblad_shell.specs.Words.{distinct, has_key, keyed_bytes, keyed_key, keyed_line};
ghost use Rattle.kohiblad_shell.specs.Words.{nat_cmp, nat_list_cmp_total, nat_list_eq_equiv};
ghost use Rattle.kohiblad_shell.specs.Words.{on_equiv, on_per, on_po, on_total, pointwise};
ghost use Rattle.kohiblad_shell.specs.Words.{partial_equiv_from_equiv, slice_cmp, texts_po};
ghost use Rattle.kohiblad_shell.specs.Words.{texts_ties, turned};

use crate::halt::Halt;
use crate::write::{flush, write_bytes};
use jsonb::split_row;
use std::alloc::Global;
use std::cmp::Ordering;
use std::io::Write;

/// A row and its key. Rows are equal, and ordered, as their keys.
#[derive(Clone, Copy, Debug)]
pub struct Keyed<'a> {
    pub key: &'a [u8],
    pub line: &'a [u8],
}

impl PartialEq for Keyed<'_> {
    ghost eq = { λ x y. pointwise nat_eq (keyed_key x) (keyed_key y) };

    ghost laws = { on_per keyed_key (partial_equiv_from_equiv nat_list_eq_equiv) };

    fn eq(&self, other: &Self) -> bool {
        self.key == other.key
    }
}

impl Eq for Keyed<'_> {
    ghost laws = { on_equiv keyed_key nat_list_eq_equiv };
}

impl PartialOrd for Keyed<'_> {
    ghost partial_cmp = { λ x y. Some (slice_cmp nat_cmp (keyed_key x) (keyed_key y)) };

    ghost laws = { on_po keyed_key texts_po };

    fn partial_cmp(&self, other: &Self) -> Option<Ordering> {
        Some(self.cmp(other))
    }
}

impl Ord for Keyed<'_> {
    ghost cmp = { λ x y. slice_cmp nat_cmp (keyed_key x) (keyed_key y) };

    ghost total = { on_total keyed_key nat_list_cmp_total };

    ghost matches_partial_cmp = { λ x y. refl };

    ghost matches_eq = { λ x y. texts_ties (keyed_key x) (keyed_key y) };

    fn cmp(&self, other: &Self) -> Ordering {
        self.key.cmp(other.key)
    }
}

/// How sorted rows are arranged.
#[derive(Clone, Copy, Debug, PartialEq, Eq)]
pub struct Arrangement {
    /// The greatest key comes first.
    pub is_reversed: bool,
    /// Of rows with one key only the first is kept.
    pub is_unique: bool,
}

/// Sorts rows, each of which stands with its key in these bytes, by their keys; rows with one key
/// keep their order. `Read` if the bytes are no such rows, `Memory` if an allocation fails.
pub fn sort_rows<'a>(
    alloc: Global,
    bytes: &'a [u8],
    arrangement: Arrangement,
) -> Result<Vec<Keyed<'a>>, Halt>
    ensures { IfOk result (λ rows. AreSorted arrangement bytes.entry.now rows.items) }
{
    let mut rows = read_rows(alloc, bytes)?;
    rows.sort()?;
    arranged(alloc, rows, arrangement)
}

// The rows that stand in these bytes, each with its key.
fn read_rows<'a>(alloc: Global, bytes: &'a [u8]) -> Result<Vec<Keyed<'a>>, Halt>
    ensures { IfOk result (λ rows. bytes.entry.now ≡ flat_map keyed_bytes rows.items) }
{
    let mut rows = Vec::new(alloc);
    let mut rest = bytes;
    while !rest.is_empty() {
        let Some((row, later)) = split_keyed(rest) else {
            return Err(Halt::Read);
        };
        if rows.push(row).is_err() {
            return Err(Halt::Memory);
        }
        rest = later;
    }
    Ok(rows)
}

/// The first row of these bytes with its key, and the bytes after it. `None` if they do not begin
/// with a row and its key.
pub fn split_keyed(bytes: &[u8]) -> Option<(Keyed<'_>, &[u8])>
    ensures { IfSome result (λ parts. bytes.entry.now ≡ keyed_bytes parts.0 ++ parts.1.now) }
{
    let Ok((key, rest)) = split_row(bytes) else {
        return None;
    };
    let Ok((line, later)) = split_row(rest) else {
        return None;
    };
    Some((Keyed { key, line }, later))
}

// Sorted rows as they are arranged.
fn arranged<'a>(
    alloc: Global,
    rows: Vec<Keyed<'a>>,
    arrangement: Arrangement,
) -> Result<Vec<Keyed<'a>>, Halt>
    ensures { IfOk result (λ made. made.items ≡ arranged arrangement rows.entry.items) }
{
    if arrangement.is_unique {
        Ok(turned(distinct(alloc, &rows)?, arrangement.is_reversed))
    } else {
        Ok(turned(rows, arrangement.is_reversed))
    }
}

// The rows from the last one on, or as they are.
fn turned<'a>(rows: Vec<Keyed<'a>>, is_reversed: bool) -> Vec<Keyed<'a>>
    ensures { result.items ≡ turned is_reversed rows.entry.items }
{
    let mut rows = rows;
    if is_reversed {
        rows.reverse();
    }
    rows
}

// The rows without those that have the key of the row before.
fn distinct<'a>(alloc: Global, rows: &[Keyed<'a>]) -> Result<Vec<Keyed<'a>>, Halt>
    ensures { IfOk result (λ kept. kept.items ≡ distinct None rows.now) }
{
    let mut kept = Vec::new(alloc);
    let mut last = None;
    let mut left = rows;
    while let [row, rest @ ..] = left {
        if !has_key(last, *row) && kept.push(*row).is_err() {
            return Err(Halt::Memory);
        }
        last = Some(*row);
        left = rest;
    }
    Ok(kept)
}

// Whether there is a last row and it has the key of this one.
fn has_key(last: Option<Keyed<'_>>, row: Keyed<'_>) -> bool
    ensures { result ≡ has_key last.entry row.entry }
{
    match last {
        Some(last) => last.key == row.key,
        None => false,
    }
}

/// Writes the rows, in order. After an error a prefix of them is written.
pub fn write_rows<W: Write>(writer: &mut W, rows: &[Keyed<'_>]) -> Result<(), Halt>
    ensures ok { OnOk result (Appends (W.contents writer.old) (W.contents writer.new)
        (flat_map keyed_line rows.now)) }
    ensures err { OnErr result (AppendsPrefix (W.contents writer.old) (W.contents writer.new)
        (flat_map keyed_line rows.now)) }
{
    for row in rows {
        write_bytes(writer, row.line)?;
    }
    flush(writer)
}
