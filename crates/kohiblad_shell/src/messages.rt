//! What people are told on standard error, with escapes for what a terminal might obey.

ghost use Rattle.std.specs.Prelude.{◌≡◌};
ghost use Rattle.kohiblad_shell.specs.Words.{halt_status, run_status};

use crate::escape::escaped_text;
use crate::halt::Halt;
use crate::kind::InputKind;
use crate::progress::{Progress, Reports};
use crate::run::Summary;
use crate::status::{Aim, MISUSE, halt_status, run_status};
use crate::watch::Watch;
use std::alloc::AllocError;
use std::io::{self, Stderr};

/// Writes these words, with escapes, or that there is no memory for them.
pub fn tell(rt: &HostRuntime, words: Result<String, AllocError>) {
    let shown = match words {
        Ok(words) => escaped_text(rt.alloc(), words.as_str()),
        Err(error) => Err(error),
    };
    let _ = match shown {
        Ok(shown) => eprintln!(rt; "kohiblad: {shown}"),
        Err(_) => eprintln!(rt; "kohiblad: {}", Halt::Memory.reason()),
    };
}

/// Says what could not be done with a file, and why by the system's words.
pub fn tell_failed(rt: &HostRuntime, what: &str, name: &str, error: &io::Error) {
    let alloc = rt.alloc();
    let words = match format!(in alloc; "{error}") {
        Ok(reason) => format!(in alloc; "{what} {name}: {}", without_code(reason.as_str())),
        Err(error) => Err(error),
    };
    tell(rt, words);
}

// The words of an error without the system's number for it.
fn without_code(reason: &str) -> &str {
    match reason.rsplit_once(" (os error ") {
        Some((words, _)) => words,
        None => reason,
    }
}

/// Reports wrong use.
pub fn misuse(rt: &HostRuntime, what: &str) -> u8
    ensures { result ≡ MISUSE }
{
    tell(rt, String::from_str(rt.alloc(), what));
    MISUSE
}

/// Reports a command line that is wrong, in the words of its parser.
pub fn refused_line(rt: &HostRuntime, error: &clap::Error) -> u8 {
    let alloc = rt.alloc();
    match format!(in alloc; "{error}") {
        Ok(text) => tell_lines(rt, text.as_str()),
        Err(_) => failure(rt, Halt::Memory),
    }
}

/// Reports a text that is no path, by lines that show its place.
pub fn refused_path(rt: &HostRuntime, report: &str) -> u8 {
    let _ = misuse(rt, "this is not a path:");
    tell_lines(rt, report)
}

/// Reports a text that is no template, by lines that show its place.
pub fn refused_template(rt: &HostRuntime, report: &str) -> u8 {
    let _ = misuse(rt, "this is not a template:");
    tell_lines(rt, report)
}

// Writes the lines of a text, with escapes.
fn tell_lines(rt: &HostRuntime, text: &str) -> u8 {
    for line in text.lines() {
        let Ok(shown) = escaped_text(rt.alloc(), line) else {
            return failure(rt, Halt::Memory);
        };
        let _ = eprintln!(rt; "{shown}");
    }
    MISUSE
}

/// Reports why a run ended early, unless nobody reads its output.
pub fn failure(rt: &HostRuntime, halt: Halt) -> u8
    ensures { result ≡ halt_status halt }
{
    if halt != Halt::Closed {
        let _ = eprintln!(rt; "kohiblad: {}", halt.reason());
    }
    halt_status(halt)
}

/// The status after a run, whose early end is reported.
pub fn ended(rt: &HostRuntime, aim: Aim, outcome: Result<Summary, Halt>) -> u8
    ensures { result ≡ run_status aim outcome }
{
    if let Err(halt) = outcome {
        let _ = failure(rt, halt);
    }
    run_status(aim, outcome)
}

/// Says that none of so many rows has a value at a path.
pub fn notice(rt: &HostRuntime, rows: u64, path: &str) {
    tell(
        rt,
        format!(in rt.alloc(); "no row of {rows} has a value at {path}"),
    );
}

// Says the same of a name, and which one may be meant by it.
fn notice_name(rt: &HostRuntime, rows: u64, name: &str) {
    let alloc = rt.alloc();
    let meant = name_meant(name);
    let words = if meant == name || meant.is_empty() {
        format!(in alloc; "no row of {rows} has a value at '{name}'")
    } else {
        format!(in alloc; "no row of {rows} has a value at '{name}': is '{meant}' meant?")
    };
    tell(rt, words);
}

// A name without the spaces around it, and without what a path has in front of one.
fn name_meant(name: &str) -> &str {
    let trimmed = name.trim();
    match trimmed.strip_prefix("$.") {
        Some(rest) => rest,
        None => trimmed,
    }
}

/// Says of which of these paths, or names, no row has a value, if there are rows and the run saw
/// all of them.
pub fn notice_missed(rt: &HostRuntime, watch: &Watch<'_>, texts: &[&str], are_names: bool) {
    let rows = watch.progress.rows();
    if !watch.is_whole.get() || rows == 0 {
        return;
    }
    for (text, has_led) in texts.iter().zip(&watch.have_led) {
        if has_led.get() {
            continue;
        }
        if are_names {
            notice_name(rt, rows, *text);
        } else {
            notice(rt, rows, *text);
        }
    }
}

/// Says that the byte order mark of an input is passed over.
pub fn notice_mark(rt: &HostRuntime, name: &str) {
    let what = "the byte order mark at the start is passed over";
    tell(rt, format!(in rt.alloc(); "{name}: {what}"));
}

/// Says what an input is that has no rows.
pub fn name_kind(rt: &HostRuntime, name: &str, kind: Option<InputKind>) {
    if let Some(kind) = kind {
        tell(rt, format!(in rt.alloc(); "{name}: {}", kind.words()));
    }
}

/// What writes reports to standard error.
pub fn reports<'a>(rt: &HostRuntime, progress: &'a Progress<'a>) -> Reports<'a, Stderr> {
    Reports {
        writer: rt.stderr(),
        progress,
    }
}
