//! Sorting more rows than memory holds: the rows of each part are sorted and written as a run, and
//! runs are merged.

ghost use Rattle.std.specs.Prelude.{◌≡◌, ◌+◌, ◌<◌, ◌^◌, ℕ, List, [], IfOk, OnOk, OnErr};
ghost use Rattle.std.specs.Prelude.{if◌then◌else◌, length};
ghost use Rattle.jsonb.specs.StoredRow.{row_bytes};
ghost use Rattle.kohiblad_shell.specs.Sorts.{key_and_line};
ghost use Rattle.kohiblad_shell.specs.SortedRuns.{BeginsRuns, HaveRuns, IsFirstInput, KeepsKey};
ghost use Rattle.kohiblad_shell.specs.SortedRuns.{MergesRuns, ReadHeads, ReadsHead, WritesIf};
ghost use Rattle.kohiblad_shell.specs.SortedRuns.{WritesRun, has_last_key, head_parts};
ghost use Rattle.kohiblad_shell.specs.SortedRuns.{is_before};
ghost use Rattle.kohiblad_shell.specs.SortedRuns.{is_turned, passes_over, turned_if};
ghost use Rattle.kohiblad_shell.specs.Words.{Appends, AppendsPrefix};

use crate::halt::Halt;
use crate::input::{Form, Found, read_row};
use crate::sort::{Arrangement, sort_rows};
use crate::write::{flush, write_bytes};
use std::alloc::Global;
use std::io::{BufRead, Write};

/// What is written of rows that are merged.
#[derive(Clone, Copy, Debug, PartialEq, Eq)]
pub enum RowParts {
    /// The line alone.
    Line,
    /// The key and the line, each after its length, as in a run.
    KeyAndLine,
}

/// The next row of a run, if it has one.
#[derive(Debug, Drop)]
pub struct RunHead {
    /// Its key.
    pub key: Vec<u8>,
    /// The row as it stands among others.
    pub line: Vec<u8>,
    /// Whether there is one.
    pub is_there: bool,
}

/// The key of the last row that was written, if there is one.
#[derive(Debug, Drop)]
pub struct LastKey {
    pub key: Vec<u8>,
    pub is_there: bool,
}

/// Writes the rows of a part, each of which stands with its key in these bytes, as a run: sorted
/// and arranged as `sort_rows` does it, each with its key. After an error a prefix of the run is
/// written.
pub fn write_run<W: Write>(
    alloc: Global,
    part: &[u8],
    arrangement: Arrangement,
    writer: &mut W,
) -> Result<(), Halt>
    ensures { OnOk result (WritesRun arrangement part.now
        (W.contents writer.old) (W.contents writer.new)) }
{
    let rows = sort_rows(alloc, part, arrangement)?;
    for row in &rows {
        write_keyed(writer, row.key, row.line)?;
    }
    flush(writer)
}

// Writes a key and a line, each after its length.
fn write_keyed<W: Write>(writer: &mut W, key: &[u8], line: &[u8]) -> Result<(), Halt>
    ensures ok { OnOk result (Appends (W.contents writer.old) (W.contents writer.new)
        (key_and_line key.now line.now)) }
    ensures err { OnErr result (AppendsPrefix (W.contents writer.old) (W.contents writer.new)
        (key_and_line key.now line.now)) }
    ensures key { length key.now < 2 ^ 64 }
    ensures line { length line.now < 2 ^ 64 }
{
    write_part(writer, key)?;
    write_part(writer, line)
}

/// Merges runs that were written with this arrangement, and writes these parts of their rows: of
/// those that `sort_rows` gives of all parts together, one after the other. Memory is taken for one
/// row of each run.
///
/// After an error a prefix of them is written. `Read`: a reader failed, or what it gave is no run.
/// `Write`, `Closed`: the writer failed. `Memory`: an allocation failed.
pub fn merge_runs<R: BufRead, W: Write>(
    alloc: Global,
    runs: &mut [R],
    arrangement: Arrangement,
    what: RowParts,
    writer: &mut W,
) -> Result<(), Halt>
    ensures done { OnOk result ((parts : List (List ℕ))
        → HaveRuns R.remaining arrangement runs.old parts
        → MergesRuns arrangement parts what (W.contents writer.old) (W.contents writer.new)) }
    ensures beginning { OnErr result ((parts : List (List ℕ))
        → HaveRuns R.remaining arrangement runs.old parts
        → BeginsRuns arrangement parts what (W.contents writer.old) (W.contents writer.new)) }
{
    put_in_turn(runs, arrangement);
    let mut heads = first_heads(alloc, runs)?;
    let mut last = LastKey {
        key: Vec::new(alloc),
        is_there: false,
    };
    'merging: for _ in 0..u64::MAX {
        let Some(input) = first_input(&heads, arrangement.is_reversed) else {
            return flush(writer);
        };
        let is_there = input < heads.len() && input < runs.len();
        prove!(is_there);
        write_new(
            writer,
            what,
            arrangement.is_unique,
            &heads[input],
            &mut last,
        )?;
        read_head(&mut runs[input], &mut heads[input])?;
    }
    Err(Halt::Read)
}

// The runs in the order in which they are merged: from the last one on, if the last one of rows of
// one key comes first.
fn put_in_turn<R: BufRead>(runs: &mut [R], arrangement: Arrangement)
    ensures { runs.new ≡ turned_if (is_turned arrangement) runs.old }
{
    if arrangement.is_reversed && !arrangement.is_unique {
        runs.reverse();
    }
}

// The first row of each run, where it has one.
fn first_heads<R: BufRead>(alloc: Global, runs: &mut [R]) -> Result<Vec<RunHead>, Halt>
    ensures { IfOk result (λ heads. ReadHeads R.remaining runs.old runs.new heads.items) }
{
    let mut heads = Vec::new(alloc);
    for input in 0..runs.len() {
        let mut head = RunHead {
            key: Vec::new(alloc),
            line: Vec::new(alloc),
            is_there: false,
        };
        read_head(&mut runs[input], &mut head)?;
        if heads.push(head).is_err() {
            return Err(Halt::Memory);
        }
    }
    Ok(heads)
}

// Reads the next row of a run, if it has one, in place of the last one.
fn read_head<R: BufRead>(run: &mut R, head: &mut RunHead) -> Result<(), Halt>
    ensures { OnOk result (ReadsHead (R.remaining run.old) (R.remaining run.new) head.new) }
{
    match read_row(Form::Documents, run, &mut head.key)? {
        Found::End => {
            head.is_there = false;
            return Ok(());
        }
        Found::Cut | Found::NoArray(_) => return Err(Halt::Read),
        Found::Row => {}
    }
    match read_row(Form::Documents, run, &mut head.line)? {
        Found::Row => {
            head.is_there = true;
            Ok(())
        }
        _ => Err(Halt::Read),
    }
}

// The run whose row comes first; of rows of one key it is that of the earliest run.
fn first_input(heads: &[RunHead], is_reversed: bool) -> Option<usize>
    ensures { IsFirstInput heads.now is_reversed (length heads.now) result }
{
    let mut first = None;
    for input in 0..heads.len() {
        first = first_with(heads, input, first, is_reversed);
    }
    first
}

// The same of one run more than those whose first row is known.
fn first_with(
    heads: &[RunHead],
    input: usize,
    first: Option<usize>,
    is_reversed: bool,
) -> Option<usize>
    requires input { input < length heads.now }
    requires so_far { IsFirstInput heads.now is_reversed input first }
    ensures { IsFirstInput heads.now is_reversed (input + 1) result }
{
    let head = &heads[input];
    if !head.is_there {
        return first;
    }
    match first {
        Some(best) if !comes_before(head, &heads[best], is_reversed) => first,
        _ => Some(input),
    }
}

// Whether the key of a row comes before that of another.
fn comes_before(head: &RunHead, other: &RunHead, is_reversed: bool) -> bool
    ensures { result ≡ is_before is_reversed head.now.key.items other.now.key.items }
{
    let order = head.key.as_slice().cmp(other.key.as_slice());
    if is_reversed {
        order.is_gt()
    } else {
        order.is_lt()
    }
}

// Writes these parts of a row, unless one is kept of each key and the last row had this one.
fn write_new<W: Write>(
    writer: &mut W,
    what: RowParts,
    is_unique: bool,
    head: &RunHead,
    last: &mut LastKey,
) -> Result<(), Halt>
    ensures ok { OnOk result (WritesIf (passes_over is_unique last.old head.now) is_unique what
        head.now last.old last.new (W.contents writer.old) (W.contents writer.new)) }
    ensures err { OnErr result (AppendsPrefix (W.contents writer.old) (W.contents writer.new)
        (if passes_over is_unique last.old head.now then [] else head_parts what head.now)) }
{
    if !is_unique {
        return write_head(writer, what, head);
    }
    if has_last_key(last, head) {
        return Ok(());
    }
    keep_key(last, head)?;
    write_head(writer, what, head)
}

// Writes these parts of a row.
fn write_head<W: Write>(writer: &mut W, what: RowParts, head: &RunHead) -> Result<(), Halt>
    ensures ok { OnOk result (Appends (W.contents writer.old) (W.contents writer.new)
        (head_parts what head.now)) }
    ensures err { OnErr result (AppendsPrefix (W.contents writer.old) (W.contents writer.new)
        (head_parts what head.now)) }
{
    match what {
        RowParts::Line => write_bytes(writer, &head.line),
        RowParts::KeyAndLine => write_keyed(writer, &head.key, &head.line),
    }
}

// Whether there is a last row and it has the key of this one.
fn has_last_key(last: &LastKey, head: &RunHead) -> bool
    ensures { result ≡ has_last_key last.now head.now }
{
    last.is_there && last.key.as_slice() == head.key.as_slice()
}

// Keeps the key of a row as that of the last one.
fn keep_key(last: &mut LastKey, head: &RunHead) -> Result<(), Halt>
    ensures { OnOk result (KeepsKey last.new head.now) }
{
    last.key.clear();
    if last.key.extend_from_slice(&head.key).is_err() {
        return Err(Halt::Memory);
    }
    last.is_there = true;
    Ok(())
}

// Writes a part of a row after its length.
fn write_part<W: Write>(writer: &mut W, part: &[u8]) -> Result<(), Halt>
    ensures ok { OnOk result (Appends (W.contents writer.old) (W.contents writer.new)
        (row_bytes part.now)) }
    ensures err { OnErr result (AppendsPrefix (W.contents writer.old) (W.contents writer.new)
        (row_bytes part.now)) }
    ensures length { length part.now < 2 ^ 64 }
{
    write_bytes(writer, &(part.len() as u64).to_be_bytes())?;
    write_bytes(writer, part)
}
