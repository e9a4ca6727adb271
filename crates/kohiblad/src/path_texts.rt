//! Paths of SQL/JSON as texts: where and why a text is none, and how a path is printed.

ghost use Rattle.std.specs.Prelude.{◌≡◌, ◌⊎◌};
ghost use Rattle.jsonb_path.specs.PathText.{path_text};
ghost use Rattle.kohiblad.specs.PathTexts.{AreWordsHandedOver, IsPathFault, IsPathPrinted};
ghost use Rattle.kohiblad.specs.PathTexts.{IsPathReported, expected_number, fault_at, found_number};
ghost use Rattle.kohiblad.specs.PathTexts.{left_out_number, mark_of, no_path_fault, reason_number};
ghost use Rattle.kohiblad.specs.Words.{Error, IsHandedOver, IsRefused, code};

use crate::answer::{NONE, OK, OTHER_KIND, code, hand_over, refuse};
use jsonb::Error;
use jsonb_path::token::{Found, PathFault, ReadError, Reason};
use jsonb_path::{Expected, LeftOut, Path, Report};
use simdutf8::basic;
use std::alloc::Global;

/// Whether a text is a path, and where and why it is not, as C receives it. The fields after the
/// offset are 0 if they do not say why.
#[repr(C)]
#[derive(Clone, Copy)]
pub struct KohibladPathFault {
    pub status: u32,
    pub reason: u32,
    pub offset: u64,
    pub expected: u32,
    pub mark: u32,
    pub found: u32,
    pub left_out: u32,
}

/// Whether a text is a path of SQL/JSON, and where and why it is not. `OK`, with the length of the
/// text, if it is one; `InvalidUtf8` if the text is not UTF-8; `OTHER_KIND` if it is not a path, at
/// the byte of the offset and by the reason; `OutOfMemory` if an allocation fails. If the reason is
/// that something else is expected there, `expected` says what, with `mark` the character of a mark
/// that is expected, and `found` what is there. If it is left out here, `left_out` says what. Other
/// fields are 0, and with every other status but `OK` and `OTHER_KIND` all of them.
#[unsafe(no_mangle)]
pub extern "C" fn kohiblad_path_fault(alloc: Global, path: &[u8]) -> KohibladPathFault
    ensures { IsPathFault path.now result }
{
    let Ok(path) = basic::from_utf8(path) else {
        return no_path_fault(code(Error::InvalidUtf8), 0);
    };
    match Path::of_text(alloc, path) {
        Ok(_) => no_path_fault(OK, path.len()),
        Err(ReadError::OutOfMemory) => no_path_fault(code(Error::OutOfMemory), 0),
        Err(ReadError::Refused(fault)) => fault_answer(fault),
    }
}

// This status and offset, without a reason.
fn no_path_fault(status: u32, offset: usize) -> KohibladPathFault
    ensures { result ≡ no_path_fault status offset }
{
    KohibladPathFault {
        status,
        reason: 0,
        offset: offset as u64,
        expected: 0,
        mark: 0,
        found: 0,
        left_out: 0,
    }
}

// A fault, as C receives it.
fn fault_answer(fault: PathFault) -> KohibladPathFault
    ensures { result ≡ fault_at fault.at fault.reason }
{
    let answer = KohibladPathFault {
        reason: reason_number(fault.reason),
        ..no_path_fault(OTHER_KIND, fault.at)
    };
    match fault.reason {
        Reason::Expected(expected, found) => KohibladPathFault {
            expected: expected_number(expected),
            mark: mark_of(expected),
            found: found_number(found),
            ..answer
        },
        Reason::LeftOut(what) => KohibladPathFault {
            left_out: left_out_number(what),
            ..answer
        },
        _ => answer,
    }
}

fn reason_number(reason: Reason) -> u32
    ensures { result ≡ reason_number reason }
{
    match reason {
        Reason::UnclosedComment => 1,
        Reason::UnclosedText => 2,
        Reason::InvalidEscape => 3,
        Reason::InvalidNumber => 4,
        Reason::Expected(_, _) => 5,
        Reason::LeftOut(_) => 6,
        Reason::TooDeep => 7,
    }
}

fn expected_number(expected: Expected) -> u32
    ensures { result ≡ expected_number expected }
{
    match expected {
        Expected::Key => 1,
        Expected::Level => 2,
        Expected::KeyOrValue => 3,
        Expected::Value => 4,
        Expected::TextOrVariable => 5,
        Expected::Mark(_) => 6,
        Expected::ExpressionBefore => 7,
        Expected::TestBefore => 8,
        Expected::End => 9,
    }
}

// The character of a mark that is expected, or 0.
fn mark_of(expected: Expected) -> u32
    ensures { result ≡ mark_of expected }
{
    match expected {
        Expected::Mark(mark) => mark as u32,
        _ => 0,
    }
}

fn found_number(found: Found) -> u32
    ensures { result ≡ found_number found }
{
    match found {
        Found::End => 1,
        Found::Word => 2,
        Found::Text => 3,
        Found::Variable => 4,
        Found::Number => 5,
        Found::Mark(_) | Found::Pair(_, _) => 6,
    }
}

fn left_out_number(what: LeftOut) -> u32
    ensures { result ≡ left_out_number what }
{
    match what {
        LeftOut::Double => 1,
        LeftOut::Datetime => 2,
        LeftOut::WideNumber => 3,
        LeftOut::Division => 4,
        LeftOut::LikeRegex => 5,
    }
}

/// Copies why a text is not a path of SQL/JSON to `out`, and its length in bytes to `length`: the
/// text about the place as a line, and on the next one a caret under the place, what may come
/// there, what was found, and of some texts how they are written here. `InvalidUtf8` if the text is
/// not UTF-8; `NONE` if it is a path; `OutOfMemory` if an allocation fails.
#[unsafe(no_mangle)]
pub extern "C" fn kohiblad_path_report(
    alloc: Global,
    path: &[u8],
    out: &mut [u8],
    length: &mut usize,
) -> u32
    ensures { IsPathReported path.now out.old out.new length.new result }
{
    let Ok(path) = basic::from_utf8(path) else {
        return refuse(code(Error::InvalidUtf8), out, length);
    };
    match Path::of_text(alloc, path) {
        Ok(_) => refuse(NONE, out, length),
        Err(ReadError::OutOfMemory) => refuse(code(Error::OutOfMemory), out, length),
        Err(ReadError::Refused(fault)) => write_report(alloc, fault.report(path), out, length),
    }
}

// Copies out a refusal in words.
fn write_report(alloc: Global, report: Report<'_>, out: &mut [u8], length: &mut usize) -> u32
    ensures { AreWordsHandedOver out.old out.new length.new result
        ⊎ IsRefused (code Error.OutOfMemory) out.old out.new length.new result }
{
    match format!(in alloc; "{report}") {
        Ok(words) => hand_over(words.as_bytes(), out, length),
        Err(_) => refuse(code(Error::OutOfMemory), out, length),
    }
}

/// Copies the text of a path of SQL/JSON as PostgreSQL prints a `jsonpath` to `out`, and its length
/// in bytes to `length`: `lax` is left out, keys are quoted, and an operator stands in parentheses
/// unless it binds tighter than the one around it. `InvalidUtf8` if the path is not UTF-8;
/// `OTHER_KIND` if the text is not a path; `OutOfMemory` if an allocation fails.
#[unsafe(no_mangle)]
pub extern "C" fn kohiblad_path_print(
    alloc: Global,
    path: &[u8],
    out: &mut [u8],
    length: &mut usize,
) -> u32
    ensures { IsPathPrinted path.now out.old out.new length.new result }
{
    let Ok(path) = basic::from_utf8(path) else {
        return refuse(code(Error::InvalidUtf8), out, length);
    };
    match Path::of_text(alloc, path) {
        Ok(path) => write_path(alloc, &path, out, length),
        Err(ReadError::OutOfMemory) => refuse(code(Error::OutOfMemory), out, length),
        Err(ReadError::Refused(_)) => refuse(OTHER_KIND, out, length),
    }
}

// Copies out the text of a path.
fn write_path(alloc: Global, path: &Path, out: &mut [u8], length: &mut usize) -> u32
    ensures { IsHandedOver (path_text path.now) out.old out.new length.new result
        ⊎ IsRefused (code Error.OutOfMemory) out.old out.new length.new result }
{
    match format!(in alloc; "{path}") {
        Ok(text) => hand_over(text.as_bytes(), out, length),
        Err(_) => refuse(code(Error::OutOfMemory), out, length),
    }
}
