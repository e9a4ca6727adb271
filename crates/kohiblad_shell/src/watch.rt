//! Which paths lead to a value in some row, for a notice at the end of a run.

ghost use Rattle.kohiblad_shell.specs.Words.{IsDocument};

use crate::first::{first_value, passes_path};
use crate::operation::{Change, Operation};
use crate::progress::Progress;
use crate::target::Target;
use jsonb::Document;
use jsonb_functions::{Step, get_path};
use jsonb_path::Path;
use jsonb_rows::{EachEdit, Reach, leads_somewhere};
use std::alloc::{AllocError, Global};
use std::cell::Cell;

/// Whether the first paths of an operation led to a value in some row so far, how far the run is,
/// whether it came to the end of its input, and whether the value at a key was not to be had
/// without the document of some row.
#[derive(Drop)]
pub struct Watch<'a> {
    pub have_led: Vec<Cell<bool>>,
    pub progress: &'a Progress<'a>,
    pub is_whole: Cell<bool>,
    reads_documents: Cell<bool>,
}

impl<'a> Watch<'a> {
    /// A watch of so many paths over a run that has this progress.
    pub fn new(
        alloc: Global,
        count: usize,
        progress: &'a Progress<'a>,
    ) -> Result<Watch<'a>, AllocError> {
        let mut have_led = Vec::new(alloc);
        for _ in 0..count {
            have_led.push(Cell::new(false))?;
        }
        Ok(Watch {
            have_led,
            progress,
            is_whole: Cell::new(false),
            reads_documents: Cell::new(false),
        })
    }

    /// Whether rows are read into documents even where the value at a key is asked for.
    pub fn reads_documents(&self) -> bool {
        self.reads_documents.get()
    }

    /// Notes that the value at a key was not to be had without the document of a row.
    pub fn read_documents(&self) {
        self.reads_documents.set(true);
    }

    /// Notes a row in which the value at a key was looked up, and whether there is one.
    pub fn see_member(&self, is_there: bool) {
        self.progress.count_row();
        for has_led in &self.have_led {
            if is_there {
                has_led.set(true);
            }
        }
    }

    /// Notes the document of a row, and to which paths it has a value of those that led to none in
    /// the rows before.
    pub fn see(
        &self,
        alloc: Global,
        operation: Operation<'_>,
        document: Document<'_>,
    ) -> Result<(), AllocError> {
        self.progress.count_row();
        for (index, has_led) in self.have_led.iter().enumerate() {
            if !has_led.get() && leads(alloc, operation, index, document)? {
                has_led.set(true);
            }
        }
        Ok(())
    }

    /// Notes whether a removal finds something in these bytes of a document, by its path; so many
    /// removals come after it.
    pub fn see_removal(&self, bytes: &[u8], target: &Target<'_>, later: usize)
        requires { IsDocument bytes.now }
    {
        let Some(has_led) = self.have_led.iter().rev().nth(later) else {
            return;
        };
        if !has_led.get() && has_end(bytes, target) {
            has_led.set(true);
        }
    }

    /// Notes whether a change finds something in a document, or makes these bytes another one.
    pub fn see_change(&self, change: Change<'_>, document: Document<'_>, made: &[u8]) {
        for has_led in &self.have_led {
            if !has_led.get() && makes_change(change, document, made) {
                has_led.set(true);
            }
        }
    }
}

// Whether a change at the ends of a path finds something in a document, or makes these bytes
// another one.
fn makes_change(change: Change<'_>, document: Document<'_>, made: &[u8]) -> bool {
    match change {
        Change::Set(path, _) => document.as_bytes() != made || get_path(document, path).is_some(),
        Change::Each(path, edit) => document.as_bytes() != made || stays(document, path, edit),
        _ => false,
    }
}

// Whether a path leads to a place where a change may leave what is there.
fn stays(document: Document<'_>, path: &[Reach<'_>], edit: EachEdit<'_>) -> bool {
    match edit {
        EachEdit::Set(_) | EachEdit::Remove => leads_somewhere(document, path),
        EachEdit::Rename(from, to) => from == to && leads_somewhere(document, path),
    }
}

// Whether a path leads to a value in these bytes of a document.
fn has_end(bytes: &[u8], target: &Target<'_>) -> bool
    requires { IsDocument bytes.now }
{
    let document = Document::new_unchecked(bytes);
    match target {
        Target::One(path) => get_path(document, path).is_some(),
        Target::Each(path) => leads_somewhere(document, path),
    }
}

// Whether the path of an operation after so many others, or the name, leads to a value.
fn leads(
    alloc: Global,
    operation: Operation<'_>,
    index: usize,
    document: Document<'_>,
) -> Result<bool, AllocError> {
    match operation {
        Operation::Change(Change::Pick(names)) => Ok(match names.get(index) {
            Some(name) => get_path(document, &[Step::Key(*name)]).is_some(),
            None => false,
        }),
        Operation::Filter(path) => passes_path(alloc, document, path),
        other => match path_at(other, index) {
            Some(path) => Ok(first_value(alloc, document, path)?.is_some()),
            None => Ok(false),
        },
    }
}

// The path of an operation after so many others, of those that may be watched.
fn path_at<'a>(operation: Operation<'a>, index: usize) -> Option<&'a Path> {
    match operation {
        Operation::Get(path, _) | Operation::Select(path, _) => Some(path),
        Operation::Range(range) => Some(range.path),
        Operation::Grep(search) => Some(search.path),
        Operation::Sort(paths) => paths.get(index).map(|path| &path.path),
        Operation::Extract(table) => table.columns.get(index).map(|column| &column.path),
        _ => None,
    }
}
