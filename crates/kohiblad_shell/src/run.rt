//! The loop over an input: the rows that each of its rows gives go to a writer, and the reports of
//! faults to another.

ghost use Rattle.std.specs.Prelude.{◌≡◌, ◌≤◌, ◌∷◌, [], Ok, IfOk, OnOk, OnErr, IfSome};
ghost use Rattle.kohiblad_shell.specs.Words.{AnswersNext, Appends, AppendsPrefix, BeginsRun};
ghost use Rattle.kohiblad_shell.specs.Words.{IsRun, Keeps, both, fault_line, of_reports, stopped_at_start};
ghost use Rattle.kohiblad_shell.specs.Words.{after_answer, gives_nothing, row_count, stops_at};

use crate::halt::Halt;
use crate::input::{Form, Found, read_row};
use crate::outcome::{LineFault, LineWorker, Reason, Unanswered, fault_text};
use crate::write::{flush, write_bytes};
use std::alloc::Global;
use std::io::{BufRead, Write};

/// How a run names its input in reports, in which form its rows stand, and whether it ends at the
/// first one that is wrong.
#[derive(Clone, Copy)]
pub struct Plan<'a> {
    pub name: &'a str,
    pub form: Form,
    pub stops_at_faults: bool,
}

impl Plan<'_> {
    /// Whether a run ends at a fault: at the first one, or at a row that is cut off or at which the
    /// input is no array, after which no row can be found.
    pub fn stops_at(&self, fault: LineFault) -> bool
        ensures { result ≡ stops_at self.now (Err fault) }
    {
        self.stops_at_faults || fault.reason.is_cut()
    }
}

/// How many rows of the input gave a row, how many were wrong, whether the run ended at one of
/// these, and whether it passed over an input that could not be read.
#[derive(Clone, Copy, Debug, PartialEq, Eq)]
pub struct Summary {
    pub rows: u64,
    pub faults: u64,
    pub is_stopped: bool,
    pub lacks_input: bool,
}

impl Summary {
    /// The counts of both, up to the greatest.
    pub fn with(self, other: Summary) -> Summary
        ensures { result ≡ both self other }
    {
        Summary {
            rows: self.rows.saturating_add(other.rows),
            faults: self.faults.saturating_add(other.faults),
            is_stopped: self.is_stopped || other.is_stopped,
            lacks_input: self.lacks_input || other.lacks_input,
        }
    }

    /// The counts of a run that ended at its first row, which was wrong.
    pub fn stopped_at_start() -> Summary
        ensures { result ≡ stopped_at_start }
    {
        Summary {
            rows: 0,
            faults: 1,
            is_stopped: true,
            lacks_input: false,
        }
    }

    /// The counts of a run whose rows are the reports of faults.
    pub fn of_reports(self) -> Summary
        ensures { result ≡ of_reports self }
    {
        Summary {
            rows: self.faults,
            faults: 0,
            is_stopped: false,
            lacks_input: self.lacks_input,
        }
    }
}

/// Answers the rows of the reader, in order: what they give goes to `writer`, and a report of each
/// that is wrong to `errors`. A run whose plan stops at faults ends at the first row that is wrong;
/// every other run reads to the end. A document that is cut off is wrong, and ends each run.
///
/// After an error a prefix of the rows was written, and one of the reports. `Read`: the reader
/// failed, or never reached its end. `Write`: a writer failed, or accepted no byte.
/// `Closed`: nobody reads what a writer writes. `Memory`: an allocation failed.
pub fn run<L: LineWorker, R: BufRead, W: Write, E: Write>(
    alloc: Global,
    worker: &mut L,
    plan: &Plan<'_>,
    reader: &mut R,
    writer: &mut W,
    errors: &mut E,
) -> Result<Summary, Halt>
    ensures done { IfOk result (λ summary. IfSome (R.remaining reader.old) (λ input.
        IsRun (L.rule worker.old) L.after worker.old worker.new plan.now input
        (W.contents writer.old) (W.contents writer.new)
        (E.contents errors.old) (E.contents errors.new) summary)) }
    ensures beginning { OnErr result (IfSome (R.remaining reader.old) (λ input.
        BeginsRun (L.rule worker.old) L.after worker.old worker.new plan.now input
        (W.contents writer.old) (W.contents writer.new)
        (E.contents errors.old) (E.contents errors.new))) }
{
    let outcome = take_lines(alloc, worker, plan, reader, writer, errors);
    match flush(writer) {
        Ok(()) => outcome,
        Err(halt) => Err(halt),
    }
}

// Answers the lines, as `run` does, without the last flush.
fn take_lines<L: LineWorker, R: BufRead, W: Write, E: Write>(
    alloc: Global,
    worker: &mut L,
    plan: &Plan<'_>,
    reader: &mut R,
    writer: &mut W,
    errors: &mut E,
) -> Result<Summary, Halt>
    ensures done { IfOk result (λ summary. IfSome (R.remaining reader.old) (λ input.
        IsRun (L.rule worker.old) L.after worker.old worker.new plan.now input
        (W.contents writer.old) (W.contents writer.new)
        (E.contents errors.old) (E.contents errors.new) summary)) }
    ensures beginning { OnErr result (IfSome (R.remaining reader.old) (λ input.
        BeginsRun (L.rule worker.old) L.after worker.old worker.new plan.now input
        (W.contents writer.old) (W.contents writer.new)
        (E.contents errors.old) (E.contents errors.new))) }
{
    let mut row = Vec::new(alloc);
    let mut rows = 0;
    let mut faults = 0;
    'taking: for before in 0..u64::MAX {
        match answer_next(alloc, worker, plan.form, reader, &mut row)? {
            Answer::Rows(lines) => {
                write_bytes(writer, &lines)?;
                rows += count_row(&lines);
            }
            Answer::Wrong(fault) => {
                report_fault(alloc, plan.name, before + 1, fault, writer, errors)?;
                faults += 1;
                if plan.stops_at(fault) {
                    return Ok(Summary {
                        rows,
                        faults,
                        is_stopped: true,
                        lacks_input: false,
                    });
                }
            }
            Answer::End => {
                return Ok(Summary {
                    rows,
                    faults,
                    is_stopped: false,
                    lacks_input: false,
                });
            }
        }
    }
    Err(Halt::Read)
}

/// What the next row of an input gives.
#[derive(Drop)]
pub enum Answer {
    /// Rows.
    Rows(Vec<u8>),
    /// It is wrong.
    Wrong(LineFault),
    /// No row is left.
    End,
}

impl Answer {
    /// Whether there is a row that gives no rows and is not wrong.
    pub fn gives_nothing(&self) -> bool
        ensures { result ≡ gives_nothing self.now }
    {
        match self {
            Answer::Rows(rows) => rows.is_empty(),
            _ => false,
        }
    }
}

/// Reads the next row, in place of what `row` held, and answers it. `Read`: the reader failed.
/// `Memory`: an allocation failed.
pub fn answer_next<L: LineWorker, R: BufRead>(
    alloc: Global,
    worker: &mut L,
    form: Form,
    reader: &mut R,
    row: &mut Vec<u8>,
) -> Result<Answer, Halt>
    ensures answer { IfOk result (λ answer. AnswersNext (L.rule worker.old) form
        (R.remaining reader.old) (R.remaining reader.new) answer) }
    ensures after { IfOk result (λ answer.
        worker.new ≡ after_answer L.after worker.old answer) }
    ensures kept { OnErr result (worker.new ≡ worker.old) }
{
    match read_row(form, reader, row)? {
        Found::End => Ok(Answer::End),
        Found::Row => match worker.answer(alloc, row) {
            Ok(lines) => Ok(Answer::Rows(lines)),
            Err(Unanswered::Wrong(fault)) => Ok(Answer::Wrong(fault)),
            Err(Unanswered::OutOfMemory) => Err(Halt::Memory),
        },
        Found::Cut => Ok(Answer::Wrong(LineFault::plain(row.len(), Reason::Cut))),
        Found::NoArray(fault) => {
            let reason = Reason::NoArray(fault);
            Ok(Answer::Wrong(LineFault::plain(row.len(), reason)))
        }
    }
}

/// Reports a fault, after the rows that the writer still holds: both may go to one place.
pub fn report_fault<W: Write, E: Write>(
    alloc: Global,
    name: &str,
    number: u64,
    fault: LineFault,
    writer: &mut W,
    errors: &mut E,
) -> Result<(), Halt>
    ensures rows { Keeps (W.contents writer.old) (W.contents writer.new) }
    ensures ok { OnOk result (Appends (E.contents errors.old) (E.contents errors.new)
        (fault_line name.now number fault)) }
    ensures err { OnErr result (AppendsPrefix (E.contents errors.old) (E.contents errors.new)
        (fault_line name.now number fault)) }
{
    flush(writer)?;
    let report = fault_text(alloc, name, number, fault)?;
    write_bytes(errors, report.as_bytes())
}

// One if there are rows, or else none.
fn count_row(lines: &[u8]) -> u64
    ensures count { result ≡ row_count (Ok lines.now ∷ []) }
    ensures one { result ≤ 1 }
{
    if lines.is_empty() { 0 } else { 1 }
}
