//! Merging inputs whose rows are sorted, with one row of each in memory.

ghost use Rattle.std.specs.Prelude.{◌≡◌, ◌<◌, IfErr, IfOk, option_map};
ghost use Rattle.kohiblad_shell.specs.Merges.{BeginsMerge, FindsAnswer, IsFaultIn, IsFaultOf};
ghost use Rattle.kohiblad_shell.specs.Merges.{IsWholeMerge, NextHead, StandsAt, StartsMerge};
ghost use Rattle.kohiblad_shell.specs.Merges.{earlier, first_of, head_cmp, last_number, no_rows};
ghost use Rattle.kohiblad_shell.specs.Merges.{stays_sorted};
ghost use Rattle.kohiblad_shell.specs.Sorts.{key_and_line};
ghost use Rattle.kohiblad_shell.specs.declared.merge.MergeEnd.TheVariants.{Halted};

use crate::halt::Halt;
use crate::input::Form;
use crate::outcome::{LineFault, LineWorker, Reason};
use crate::run::{Answer, answer_next};
use crate::sort::split_keyed;
use crate::write::{flush, write_bytes};
use std::alloc::Global;
use std::cmp::Ordering;
use std::io::{BufRead, Write};

/// The next row of one of several inputs.
#[derive(Debug, Drop)]
pub struct Head {
    /// Its key.
    pub key: Vec<u8>,
    /// Which input, counted from 0.
    pub input: usize,
    /// The number of the row in its input, counted from 1.
    pub number: u64,
    /// The row as it stands among others.
    pub line: Vec<u8>,
}

impl Head {
    // Rows are in the order of their keys; those of one key in the order of their inputs, and those
    // of one input as they are.
    fn order(&self, other: &Head) -> Ordering
        ensures { result ≡ head_cmp self.now other.now }
    {
        let by_key = self.key.as_slice().cmp(other.key.as_slice());
        let by_input = self.input.cmp(&other.input);
        by_key.then(by_input.then(self.number.cmp(&other.number)))
    }
}

/// Which row of which input is wrong, and why.
#[derive(Clone, Copy, Debug, PartialEq, Eq)]
pub struct InputFault {
    /// Which input, counted from 0.
    pub input: usize,
    /// The number of the row in its input, counted from 1.
    pub number: u64,
    pub fault: LineFault,
}

/// Why a merge ended early.
#[derive(Clone, Copy, Debug, PartialEq, Eq)]
pub enum MergeEnd {
    /// A device or memory failed.
    Halted(Halt),
    /// A row is wrong, or its key is below that of the row before it.
    Faulty(InputFault),
}

impl From<Halt> for MergeEnd {
    ghost from_gives = { λ halt end. end ≡ Halted halt };

    fn from(halt: Halt) -> MergeEnd {
        MergeEnd::Halted(halt)
    }
}

/// Writes the rows of all readers in the order of their keys, and returns how many there are. Each
/// answer of `worker` is a row with its key, or nothing, and then the row is passed over. The rows
/// of each reader are sorted. Rows of one key are written in the order of the readers, and those of
/// one reader as they are.
///
/// After an error a beginning of these rows was written. `Faulty`: a row is wrong or cut off, or it
/// is not sorted, since its key is below that of the row before it. `Halted`: a reader, the writer
/// or an allocation failed.
pub fn merge<L: LineWorker + Copy, R: BufRead, W: Write>(
    alloc: Global,
    worker: &L,
    form: Form,
    readers: &mut [R],
    writer: &mut W,
) -> Result<u64, MergeEnd>
    ensures done { IfOk result (λ count. IsWholeMerge R.remaining (L.rule worker.now) form
        readers.old (W.contents writer.old) (W.contents writer.new) count) }
    ensures beginning { IfErr result (λ end. BeginsMerge R.remaining (L.rule worker.now) form
        readers.old (W.contents writer.old) (W.contents writer.new) end) }
{
    let merged = merge_rows(alloc, worker, form, readers, writer);
    match flush(writer) {
        Ok(()) => merged,
        Err(halt) => Err(MergeEnd::Halted(halt)),
    }
}

// Merges the rows, as `merge` does, without the last flush.
fn merge_rows<L: LineWorker + Copy, R: BufRead, W: Write>(
    alloc: Global,
    worker: &L,
    form: Form,
    readers: &mut [R],
    writer: &mut W,
) -> Result<u64, MergeEnd>
    ensures done { IfOk result (λ count. IsWholeMerge R.remaining (L.rule worker.now) form
        readers.old (W.contents writer.old) (W.contents writer.new) count) }
    ensures beginning { IfErr result (λ end. BeginsMerge R.remaining (L.rule worker.now) form
        readers.old (W.contents writer.old) (W.contents writer.new) end) }
{
    let mut row = Vec::new(alloc);
    let mut heads = first_heads(alloc, worker, form, readers, &mut row)?;
    'merging: for count in 0..u64::MAX {
        let Some(head) = first_head(&heads) else {
            return Ok(count);
        };
        let input = head.input;
        write_bytes(writer, &head.line)?;
        let is_there = input < readers.len();
        prove!(is_there);
        let reader = &mut readers[input];
        let next = next_head(alloc, worker, form, reader, input, Some(head), &mut row)?;
        heads[input] = next;
    }
    Err(MergeEnd::Halted(Halt::Read))
}

// The first row of each reader, where it has one.
fn first_heads<L: LineWorker + Copy, R: BufRead>(
    alloc: Global,
    worker: &L,
    form: Form,
    readers: &mut [R],
    row: &mut Vec<u8>,
) -> Result<Vec<Option<Head>>, MergeEnd>
    ensures ok { IfOk result (λ heads. StartsMerge R.remaining (L.rule worker.now) form
        readers.old readers.new heads.items) }
    ensures fault { IfErr result (λ end. IsFaultOf R.remaining (L.rule worker.now) form
        readers.old (no_rows readers.old) end) }
{
    let mut heads = Vec::new(alloc);
    for input in 0..readers.len() {
        let head = next_head(alloc, worker, form, &mut readers[input], input, None, row)?;
        if heads.push(head).is_err() {
            return Err(MergeEnd::Halted(Halt::Memory));
        }
    }
    Ok(heads)
}

// Reads the next row of an input that gives something, after the last one, if there is one. `row`
// is a buffer.
fn next_head<L: LineWorker + Copy, R: BufRead>(
    alloc: Global,
    worker: &L,
    form: Form,
    reader: &mut R,
    input: usize,
    last: Option<&Head>,
    row: &mut Vec<u8>,
) -> Result<Option<Head>, MergeEnd>
    ensures row { IfOk result (λ next. NextHead (L.rule worker.now) form
        (option_map (λ h. h.now) last.entry)
        (R.remaining reader.old) (R.remaining reader.new) next) }
    ensures place { IfOk result (λ next. StandsAt input (option_map (λ h. h.now) last.entry) next) }
    ensures fault { IfErr result (λ end. IsFaultIn (L.rule worker.now) form
        (R.remaining reader.old) input (option_map (λ h. h.now) last.entry) end) }
{
    let before = last_number(last);
    let NumberedAnswer { number, answer } = next_answer(alloc, worker, form, reader, before, row)?;
    match answer {
        Answer::Rows(lines) => {
            let head = head_of(alloc, &lines, input, number)?;
            if !stays_sorted(last, &head) {
                return Err(fault_at(input, number, NOT_SORTED));
            }
            Ok(Some(head))
        }
        Answer::Wrong(fault) => Err(fault_at(input, number, fault)),
        Answer::End => Ok(None),
    }
}

// What a row gives, and its number.
#[derive(Drop)]
struct NumberedAnswer {
    number: u64,
    answer: Answer,
}

// Reads the rows after one of this number, up to the first one that gives something. `row` is a
// buffer.
fn next_answer<L: LineWorker + Copy, R: BufRead>(
    alloc: Global,
    worker: &L,
    form: Form,
    reader: &mut R,
    before: u64,
    row: &mut Vec<u8>,
) -> Result<NumberedAnswer, Halt>
    ensures answer { IfOk result (λ found. FindsAnswer (L.rule worker.now) form before
        (R.remaining reader.old) (R.remaining reader.new) found.number found.answer) }
    ensures later { IfOk result (λ found. before < found.number) }
{
    'passing: for passed in before..u64::MAX {
        // A copy, since what a worker is after a row is not asked for here.
        let mut worker = *worker;
        let answer = answer_next(alloc, &mut worker, form, reader, row)?;
        if !answer.gives_nothing() {
            let number = passed + 1;
            return Ok(NumberedAnswer { number, answer });
        }
    }
    Err(Halt::Read)
}

// The fault of a row whose key is below that of the row before it.
const NOT_SORTED: LineFault = LineFault {
    offset: 0,
    reason: Reason::NotSorted,
    expected: 0,
    found: None,
};

// A fault of a row as the end of a merge.
fn fault_at(input: usize, number: u64, fault: LineFault) -> MergeEnd
    ensures { result ≡ MergeEnd.Faulty
        (record { input = input; number = number; fault = fault }) }
{
    MergeEnd::Faulty(InputFault {
        input,
        number,
        fault,
    })
}

// The number of the last row; 0 if there is none.
fn last_number(last: Option<&Head>) -> u64
    ensures { result ≡ last_number (option_map (λ h. h.now) last.entry) }
{
    match last {
        Some(last) => last.number,
        None => 0,
    }
}

// Whether the key of a row is not below that of the last one.
fn stays_sorted(last: Option<&Head>, head: &Head) -> bool
    ensures { result ≡ stays_sorted (option_map (λ h. h.now) last.entry) head.now }
{
    match last {
        Some(last) => head.key.as_slice().cmp(last.key.as_slice()).is_ge(),
        None => true,
    }
}

// The row that stands in these bytes after its key.
fn head_of(alloc: Global, bytes: &[u8], input: usize, number: u64) -> Result<Head, Halt>
    ensures row { IfOk result
        (λ head. bytes.now ≡ key_and_line head.key.items head.line.items) }
    ensures input { IfOk result (λ head. head.input ≡ input) }
    ensures number { IfOk result (λ head. head.number ≡ number) }
{
    match split_keyed(bytes) {
        Some((keyed, rest)) if rest.is_empty() => Ok(Head {
            key: keyed.key.to_vec(alloc)?,
            input,
            number,
            line: keyed.line.to_vec(alloc)?,
        }),
        _ => Err(Halt::Read),
    }
}

// The first one of the next rows of all inputs.
fn first_head(heads: &[Option<Head>]) -> Option<&Head>
    ensures { option_map (λ h. h.now) result ≡ first_of heads.now }
{
    let mut first = None;
    for head in heads {
        first = earlier(first, head);
    }
    first
}

// The earlier one of two rows, of those that are there.
fn earlier<'a>(first: Option<&'a Head>, other: &'a Option<Head>) -> Option<&'a Head>
    ensures { option_map (λ h. h.now) result
        ≡ earlier (option_map (λ h. h.now) first.entry) other.now }
{
    let Some(other) = other else {
        return first;
    };
    match first {
        Some(first) if first.order(other).is_le() => Some(first),
        _ => Some(other),
    }
}
