//! Rows that are kept for sorting: in memory, up to a limit, and beyond it as runs in temporary
//! files.

use crate::halt::Halt;
use crate::messages::tell_failed;
use crate::sort::{self, Arrangement, sort_rows};
use crate::sorted_run::{RowParts, merge_runs, write_run};
use crate::temporary::{TemporaryFile, unnamed_file};
use std::fs::File;
use std::io::{self, BufReader, BufWriter, ErrorKind, Seek, SeekFrom, Write};

// How many bytes are read from and written to a temporary file at a time.
const BUFFER_LEN: usize = 1 << 16;

// How many runs are merged at most: each row is compared with the next one of every run.
const MAX_MERGED: usize = 64;

// What a row takes in memory while it is sorted, beside its bytes.
const BYTES_OF_A_ROW: u64 = 64;

// A run, and how often its rows were merged.
#[derive(Drop)]
struct Run {
    file: File,
    level: u32,
}

/// Rows with their keys that are kept for sorting. What is written to it is kept; each write is one
/// row after its key, each after its length.
#[derive(Drop)]
pub struct Spill<'a> {
    rt: &'a HostRuntime,
    folder: &'a str,
    memory: u64,
    arrangement: Arrangement,
    kept: Vec<u8>,
    taken: u64,
    runs: Vec<Run>,
    halt: Option<Halt>,
}

impl Write for Spill<'_> {
    fn write(&mut self, row: &[u8]) -> io::Result<usize> {
        match self.keep(row) {
            Ok(()) => Ok(row.len()),
            Err(halt) => {
                self.halt = Some(halt);
                Err(io::Error::from(ErrorKind::Other))
            }
        }
    }

    fn flush(&mut self) -> io::Result<()> {
        Ok(())
    }
}

impl<'a> Spill<'a> {
    /// No rows, which are to be arranged so, and of which about so many bytes are kept in memory:
    /// all others go to temporary files in this folder.
    pub fn new(
        rt: &'a HostRuntime,
        folder: &'a str,
        memory: u64,
        arrangement: Arrangement,
    ) -> Spill<'a> {
        Spill {
            rt,
            folder,
            memory,
            arrangement,
            kept: Vec::new(rt.alloc()),
            taken: 0,
            runs: Vec::new(rt.alloc()),
            halt: None,
        }
    }

    /// Why a row could not be kept, if one could not, or else this.
    pub fn halt_or(&self, halt: Halt) -> Halt {
        self.halt.unwrap_or(halt)
    }

    // Keeps a row with its key.
    fn keep(&mut self, row: &[u8]) -> Result<(), Halt> {
        let cost = (row.len() as u64).saturating_add(BYTES_OF_A_ROW);
        if !self.kept.is_empty() && self.taken.saturating_add(cost) > self.memory {
            self.end_part()?;
        }
        self.taken = self.taken.saturating_add(cost);
        match self.kept.extend_from_slice(row) {
            Ok(()) => Ok(()),
            Err(_) => Err(Halt::Memory),
        }
    }

    // Writes the rows that are in memory as a run. Runs that were merged equally often are merged
    // once there are many, so that no row is merged more often than there are levels.
    fn end_part(&mut self) -> Result<(), Halt> {
        let file = self.new_run()?;
        let mut writer = self.buffered_writer(&file)?;
        write_run(self.rt.alloc(), &self.kept, self.arrangement, &mut writer)?;
        drop(writer);
        self.kept.clear();
        self.taken = 0;
        self.push_run(Run { file, level: 0 })?;
        for _ in 0..self.runs.len() {
            match self.full_level() {
                Some(level) => self.merge_last(MAX_MERGED, level.saturating_add(1))?,
                None => return Ok(()),
            }
        }
        Ok(())
    }

    // A new temporary file. One that cannot be made is reported.
    fn new_run(&self) -> Result<File, Halt> {
        match unnamed_file(self.rt, self.folder) {
            Ok(file) => Ok(file),
            Err(error) => {
                let what = "cannot make a temporary file in";
                tell_failed(self.rt, what, self.folder, &error);
                Err(Halt::Write)
            }
        }
    }

    // What writes to this temporary file.
    fn buffered_writer<'f>(&self, file: &'f File) -> Result<BufWriter<TemporaryFile<'f>>, Halt>
    where
        'a: 'f,
    {
        let target = TemporaryFile::new(self.rt, self.folder, file);
        match BufWriter::with_capacity(self.rt.alloc(), BUFFER_LEN, target) {
            Ok(writer) => Ok(writer),
            Err(_) => Err(Halt::Memory),
        }
    }

    // Adds a run.
    fn push_run(&mut self, run: Run) -> Result<(), Halt> {
        match self.runs.push(run) {
            Ok(()) => Ok(()),
            Err(_) => Err(Halt::Memory),
        }
    }

    // The level of the last runs, if it is that of as many as are merged at a time.
    fn full_level(&self) -> Option<u32> {
        let before = self.runs.len().checked_sub(MAX_MERGED)?;
        let level = self.runs.last()?.level;
        if self.runs.get(before)?.level == level {
            Some(level)
        } else {
            None
        }
    }

    // Merges so many runs, the last ones, to one.
    fn merge_last(&mut self, count: usize, level: u32) -> Result<(), Halt> {
        let first = self.runs.len().saturating_sub(count);
        let file = self.new_run()?;
        let mut writer = self.buffered_writer(&file)?;
        self.write_merged(first, RowParts::KeyAndLine, &mut writer)?;
        drop(writer);
        self.runs.truncate(first);
        self.push_run(Run { file, level })
    }

    // Writes these parts of the rows of all runs from this one on.
    fn write_merged<W: Write>(
        &self,
        first: usize,
        parts: RowParts,
        writer: &mut W,
    ) -> Result<(), Halt> {
        let alloc = self.rt.alloc();
        let mut readers = Vec::new(alloc);
        for run in self.runs.iter().skip(first) {
            let mut file = &run.file;
            if file.seek(SeekFrom::Start(0)).is_err() {
                return Err(Halt::Read);
            }
            let source = TemporaryFile::new(self.rt, self.folder, file);
            let Ok(reader) = BufReader::with_capacity(alloc, BUFFER_LEN, source) else {
                return Err(Halt::Memory);
            };
            if readers.push(reader).is_err() {
                return Err(Halt::Memory);
            }
        }
        merge_runs(alloc, &mut readers, self.arrangement, parts, writer)
    }

    /// Writes the lines of all rows, sorted and arranged.
    pub fn write_sorted<W: Write>(&mut self, writer: &mut W) -> Result<(), Halt> {
        if self.runs.is_empty() {
            let rows = sort_rows(self.rt.alloc(), &self.kept, self.arrangement)?;
            return sort::write_rows(writer, &rows);
        }
        if !self.kept.is_empty() {
            self.end_part()?;
        }
        for _ in 0..self.runs.len() {
            if self.runs.len() <= MAX_MERGED {
                break;
            }
            self.merge_last(MAX_MERGED, u32::MAX)?;
        }
        self.write_merged(0, RowParts::Line, writer)
    }
}
