//! A line on standard error that says how far a run is.

ghost use Rattle.std.specs.Prelude.{◌≡◌, ◌≤◌, ◌<◌, ◌+◌, ◌-◌, ◌*◌, ◌/◌};

use crate::messages::tell_failed;
use std::cell::Cell;
use std::io::{self, ErrorKind, Read, Write};
use std::time::Instant;

// How many milliseconds a run takes before the line is shown, and how many lie between two of them.
const FIRST_AFTER: u64 = 1000;

const NEXT_AFTER: u64 = 200;

/// How far a run is, and since when, if that is shown.
#[derive(Drop)]
pub struct Progress<'a> {
    rt: &'a HostRuntime,
    start: Option<Instant>,
    size: Option<u64>,
    bytes: Cell<u64>,
    rows: Cell<u64>,
    next_at: Cell<u64>,
    is_shown: Cell<bool>,
}

impl<'a> Progress<'a> {
    /// A run that starts now, over so many bytes where that is known.
    pub fn new(rt: &'a HostRuntime, is_wanted: bool, size: Option<u64>) -> Progress<'a> {
        let start = if is_wanted {
            Instant::now(rt).ok()
        } else {
            None
        };
        Progress {
            rt,
            start,
            size,
            bytes: Cell::new(0),
            rows: Cell::new(0),
            next_at: Cell::new(FIRST_AFTER),
            is_shown: Cell::new(false),
        }
    }

    /// Counts a row that has a document.
    pub fn count_row(&self) {
        self.rows.set(self.rows.get().saturating_add(1));
    }

    /// How many rows that have a document were counted.
    pub fn rows(&self) -> u64 {
        self.rows.get()
    }

    /// Removes the line, if it is shown.
    pub fn clear(&self) {
        if self.is_shown.get() {
            self.is_shown.set(false);
            let _ = eprint!(self.rt; "\r\x1b[K");
        }
    }

    // Says that an input of this name could not be read, unless the read is only to be tried again.
    fn tell_unread(&self, name: &str, error: &io::Error) {
        if error.kind() == ErrorKind::Interrupted {
            return;
        }
        self.clear();
        let shown = if name == "-" { "standard input" } else { name };
        tell_failed(self.rt, "cannot read", shown, error);
    }

    // Counts bytes that were read, and shows the line if it is time.
    fn count_bytes(&self, count: usize) {
        self.bytes
            .set(self.bytes.get().saturating_add(count as u64));
        if let Some(start) = self.start {
            if let Ok(elapsed) = start.elapsed(self.rt) {
                self.show_at(u64::try_from(elapsed.as_millis()).unwrap_or(u64::MAX));
            }
        }
    }

    // Shows the line so many milliseconds after the start, if it is time.
    fn show_at(&self, elapsed: u64) {
        if elapsed < self.next_at.get() {
            return;
        }
        self.next_at.set(elapsed.saturating_add(NEXT_AFTER));
        self.is_shown.set(true);
        let bytes = self.bytes.get();
        let _ = match self.size {
            Some(size) if bytes <= size && bytes > 0 => {
                let percent = percent_of(bytes, size);
                let left = seconds_left(elapsed, bytes, size);
                eprint!(self.rt; "\r{percent} %, {left} s left\x1b[K")
            }
            _ => {
                let rows = self.rows.get();
                eprint!(self.rt; "\r{rows} rows, {bytes} bytes\x1b[K")
            }
        };
    }
}

// How much of a size is done, in hundredths.
fn percent_of(done: u64, size: u64) -> u128
    requires { 0 < size }
    ensures { result ≡ done * 100 / size }
{
    done as u128 * 100 / size as u128
}

// How many seconds are left after so many milliseconds, if the bytes that are left take as long as
// those that are done.
fn seconds_left(elapsed: u64, done: u64, size: u64) -> u128
    requires sizes { done ≤ size }
    requires some { 0 < done }
    ensures { result ≡ elapsed * (size - done) / done / 1000 }
{
    elapsed as u128 * (size - done) as u128 / done as u128 / 1000
}

/// A reader whose bytes are counted, and whose faults are reported with its name.
#[derive(Drop)]
pub struct Metered<'a, R> {
    pub reader: R,
    pub name: &'a str,
    pub progress: &'a Progress<'a>,
}

impl<R: Read> Read for Metered<'_, R> {
    ghost remaining = { λ metered. R.remaining metered.reader };

    fn read(&mut self, buf: &mut [u8]) -> io::Result<usize> {
        match self.reader.read(buf) {
            Ok(count) => {
                self.progress.count_bytes(count);
                Ok(count)
            }
            Err(error) => {
                self.progress.tell_unread(self.name, &error);
                Err(error)
            }
        }
    }
}

/// A writer of reports, before which the line is removed.
#[derive(Drop)]
pub struct Reports<'a, W> {
    pub writer: W,
    pub progress: &'a Progress<'a>,
}

impl<W: Write> Write for Reports<'_, W> {
    ghost contents = { λ reports. W.contents reports.writer };

    fn write(&mut self, buf: &[u8]) -> io::Result<usize> {
        self.progress.clear();
        self.writer.write(buf)
    }

    fn flush(&mut self) -> io::Result<()> {
        self.writer.flush()
    }
}
