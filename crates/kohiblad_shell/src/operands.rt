//! The operands of a command, read from its words. A fault of one is reported.

ghost use Rattle.std.specs.Prelude.{IfOk};
ghost use Rattle.kohiblad_shell.specs.Words.{IsDocument, owned_bytes};

use crate::columns::split_name;
use crate::extract::TypedPath;
use crate::halt::Halt;
use crate::input::{Reading, TextForm};
use crate::messages::{failure, misuse, refused_path, refused_template};
use crate::operand_kind::ValueKind;
use crate::outcome::{LineFault, Unanswered, reason_text};
use crate::row::parse_line;
use crate::sort_path::{Direction, SortPath, split_direction};
use crate::target::{Target, reaches_of, target_of};
use crate::template::Template;
use crate::template_text::template_of_text;
use clap::ArgMatches;
use jsonb::{Exponents, Node, OwnedJsonb};
use jsonb_path::Path;
use jsonb_path::token::{PathFault, ReadError};
use jsonb_pattern::{Flags, Pattern, PatternError, PatternFault};
use jsonb_rows::Reach;
use jsonb_typed::{LeastType, parse_type};

// How operands are read.
const OPERAND: Reading = Reading {
    exponents: Exponents::Allowed,
    texts: TextForm::Lines,
    passes_over_empty: false,
};

/// The document of an operand, which is a JSON text or a text, or the status after its fault is
/// reported.
pub fn document_of(rt: &HostRuntime, text: &str, kind: ValueKind) -> Result<OwnedJsonb, u8>
    ensures { IfOk result (λ owned. IsDocument (owned_bytes owned)) }
{
    match kind {
        ValueKind::Json => document_of_json(rt, text),
        ValueKind::Text => match Node::String(text).to_string(rt.alloc()) {
            Ok(quoted) => document_of_json(rt, quoted.as_str()),
            Err(_) => Err(failure(rt, Halt::Memory)),
        },
    }
}

// The document of a JSON text, or the status after its fault is reported.
fn document_of_json(rt: &HostRuntime, text: &str) -> Result<OwnedJsonb, u8>
    ensures { IfOk result (λ owned. IsDocument (owned_bytes owned)) }
{
    match parse_line(rt.alloc(), text.as_bytes(), OPERAND) {
        Ok(owned) => Ok(owned),
        Err(Unanswered::Wrong(fault)) => Err(refused_value(rt, text, fault)),
        Err(Unanswered::OutOfMemory) => Err(failure(rt, Halt::Memory)),
    }
}

// Reports the fault of an operand that is no JSON text, and what to write if a text is meant.
fn refused_value(rt: &HostRuntime, text: &str, fault: LineFault) -> u8 {
    let alloc = rt.alloc();
    let byte = fault.offset as u128 + 1;
    let Ok(reason) = reason_text(alloc, fault) else {
        return failure(rt, Halt::Memory);
    };
    let Ok(wrong) = format!(in alloc; "the operand is wrong at byte {byte}: {reason}") else {
        return failure(rt, Halt::Memory);
    };
    if begins_json(text) {
        return misuse(rt, wrong.as_str());
    }
    let Ok(quoted) = Node::String(text).to_string(alloc) else {
        return failure(rt, Halt::Memory);
    };
    let advice = "for this text write --text, or the JSON text";
    let Ok(words) = format!(in alloc; "{wrong}; {advice}: '{quoted}'") else {
        return failure(rt, Halt::Memory);
    };
    misuse(rt, words.as_str())
}

// Whether a text begins as an array, an object or a string of JSON does.
fn begins_json(text: &str) -> bool {
    matches!(text.as_bytes(), [b'[' | b'{' | b'"', ..])
}

/// An operand as a path, or the status after its fault is reported.
pub fn path_in(rt: &HostRuntime, text: &str) -> Result<Path, u8> {
    match Path::of_text(rt.alloc(), text) {
        Ok(path) => Ok(path),
        Err(ReadError::Refused(fault)) => Err(refused_text(rt, fault, text)),
        Err(ReadError::OutOfMemory) => Err(failure(rt, Halt::Memory)),
    }
}

// Reports where and why a text is no path.
fn refused_text(rt: &HostRuntime, fault: PathFault, text: &str) -> u8 {
    let report = fault.report(text);
    match format!(in rt.alloc(); "{report}") {
        Ok(report) => refused_path(rt, report.as_str()),
        Err(_) => failure(rt, Halt::Memory),
    }
}

/// An operand as a template, or the status after its fault is reported.
pub fn template_in(rt: &HostRuntime, text: &str) -> Result<Template, u8> {
    match template_of_text(rt.alloc(), text) {
        Ok(template) => Ok(template),
        Err(ReadError::Refused(fault)) => {
            let report = fault.report(text);
            match format!(in rt.alloc(); "{report}") {
                Ok(report) => Err(refused_template(rt, report.as_str())),
                Err(_) => Err(failure(rt, Halt::Memory)),
            }
        }
        Err(ReadError::OutOfMemory) => Err(failure(rt, Halt::Memory)),
    }
}

/// A pattern with its flags, or the status after its fault is reported.
pub fn pattern_in(rt: &HostRuntime, text: &str, flags: Flags) -> Result<Pattern, u8> {
    match Pattern::new(rt.alloc(), text, flags) {
        Ok(pattern) => Ok(pattern),
        Err(PatternError::Refused(fault)) => Err(refused_pattern(rt, text, fault)),
        Err(PatternError::TooLarge) => Err(misuse(rt, "the pattern is too large")),
        Err(PatternError::OutOfMemory) => Err(failure(rt, Halt::Memory)),
    }
}

// Reports where and why a text is no pattern. The first byte is the first one.
fn refused_pattern(rt: &HostRuntime, text: &str, fault: PatternFault) -> u8 {
    match format!(in rt.alloc(); "the pattern '{text}' is wrong: {fault}") {
        Ok(words) => misuse(rt, words.as_str()),
        Err(_) => failure(rt, Halt::Memory),
    }
}

/// The target of a path of keys, indexes and wildcards alone, or the status after its fault is
/// reported.
pub fn target_in<'a>(rt: &HostRuntime, path: &'a Path) -> Result<Target<'a>, u8> {
    match target_of(rt.alloc(), path) {
        Ok(Some(target)) => Ok(target),
        Ok(None) => Err(misuse(rt, NOT_PLAIN)),
        Err(_) => Err(failure(rt, Halt::Memory)),
    }
}

// What is said of a path that has more than keys, indexes and wildcards.
const NOT_PLAIN: &str = "the path may have keys, indexes and wildcards alone";

/// The steps to the objects of a path that ends in a key, and the key, or the status after its
/// fault is reported.
pub fn renamed_in<'a>(rt: &HostRuntime, path: &'a Path) -> Result<(Vec<Reach<'a>>, &'a str), u8> {
    let mut steps = match reaches_of(rt.alloc(), path) {
        Ok(Some(steps)) => steps,
        Ok(None) => return Err(misuse(rt, NOT_PLAIN)),
        Err(_) => return Err(failure(rt, Halt::Memory)),
    };
    match steps.pop() {
        Some(Reach::Key(key)) => Ok((steps, key)),
        _ => Err(misuse(rt, "the path does not end in a key")),
    }
}

/// Adds a path, or returns the status after its fault is reported.
pub fn push_path(rt: &HostRuntime, paths: &mut Vec<Path>, text: &str) -> Result<(), u8> {
    let path = path_in(rt, text)?;
    match paths.push(path) {
        Ok(()) => Ok(()),
        Err(_) => Err(failure(rt, Halt::Memory)),
    }
}

/// Adds a path, after which the word for its direction may stand, or returns the status after its
/// fault is reported.
pub fn push_sort_path(rt: &HostRuntime, paths: &mut Vec<SortPath>, text: &str) -> Result<(), u8> {
    let (text, direction) = split_direction(text);
    let path = path_in(rt, text)?;
    match paths.push(SortPath { path, direction }) {
        Ok(()) => Ok(()),
        Err(_) => Err(failure(rt, Halt::Memory)),
    }
}

/// The paths of these texts, all rising, or the status after the fault of one is reported.
pub fn rising_paths_in(rt: &HostRuntime, texts: &[&str]) -> Result<Vec<SortPath>, u8> {
    let mut paths = Vec::new(rt.alloc());
    for text in texts {
        let path = path_in(rt, *text)?;
        let rising = SortPath {
            path,
            direction: Direction::Rising,
        };
        if paths.push(rising).is_err() {
            return Err(failure(rt, Halt::Memory));
        }
    }
    Ok(paths)
}

/// Adds the target of a path, or returns the status after its fault is reported.
pub fn push_target<'a>(
    rt: &HostRuntime,
    targets: &mut Vec<Target<'a>>,
    path: &'a Path,
) -> Result<(), u8> {
    let target = target_in(rt, path)?;
    match targets.push(target) {
        Ok(()) => Ok(()),
        Err(_) => Err(failure(rt, Halt::Memory)),
    }
}

/// The path to the value that decides, which is the row itself if none is named.
pub fn deciding_path_in(rt: &HostRuntime, arguments: &ArgMatches<'_>) -> Result<Path, u8> {
    path_in(rt, arguments.get_str("by").unwrap_or("$"))
}

// The type of this name, or the status after its fault is reported.
fn type_in(rt: &HostRuntime, type_name: &str) -> Result<LeastType, u8> {
    match parse_type(type_name) {
        Some(value_type) => Ok(value_type),
        None => Err(misuse(rt, NO_TYPE)),
    }
}

// What is said of a name that no type has.
const NO_TYPE: &str = "there is no such type; the types are boolean, int64, uint64, 'decimal 2', \
    text, date, timestamp, timestamp_tz, interval, binary, nothing and mixed";

/// Adds a column by its word and the name of its type, or returns the status after the fault of
/// either is reported.
pub fn push_column<'a>(
    rt: &HostRuntime,
    columns: &mut Vec<TypedPath<'a>>,
    word: &'a str,
    type_name: &str,
    has_iso_dates: bool,
) -> Result<(), u8> {
    let (name, path) = split_name(word);
    let path = path_in(rt, path)?;
    let value_type = type_in(rt, type_name)?;
    let column = TypedPath {
        name,
        path,
        value_type,
        has_iso_dates,
    };
    match columns.push(column) {
        Ok(()) => Ok(()),
        Err(_) => Err(failure(rt, Halt::Memory)),
    }
}
