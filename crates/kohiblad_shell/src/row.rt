//! The document of a row, or why the row is wrong.

ghost use Rattle.std.specs.Prelude.{◌≡◌, ◌↔◌, IfOk, IfErr, IsOk, chars};
ghost use Rattle.kohiblad_shell.specs.Words.{IsCharacterAt, IsDocument, IsDocumentWithin};
ghost use Rattle.kohiblad_shell.specs.Words.{IsJsonUnder, IsNotJson};
ghost use Rattle.kohiblad_shell.specs.Words.{IsParsed, IsRefusedLine, ParsesUnderWithin, Wrong};
ghost use Rattle.kohiblad_shell.specs.Words.{bad_document, document_bytes, line_reason};
ghost use Rattle.kohiblad_shell.specs.Words.{owned_bytes, plain_fault, result_bytes};
ghost use Rattle.kohiblad_shell.specs.Words.{unanswered_of};

use crate::input::Reading;
use crate::outcome::{LineFault, Reason, Unanswered};
use json_fault::{FaultReason, fault_of, text_expected};
use jsonb::{Document, Error, Exponents, OwnedJsonb, ParseError};
use simdutf8::compat;
use std::alloc::Global;

/// How deep a line may nest. Walking its document takes less than 1 KB of stack for each level.
pub const MAX_ROW_DEPTH: usize = 1024;

impl From<Error> for Unanswered {
    ghost from_gives = { λ error unanswered. unanswered ≡ unanswered_of error };

    fn from(error: Error) -> Unanswered {
        match error {
            Error::OutOfMemory => Unanswered::OutOfMemory,
            _ => wrong(0, Reason::TooLarge),
        }
    }
}

// The row is wrong after so many bytes.
fn wrong(offset: usize, reason: Reason) -> Unanswered
    ensures { result ≡ Unanswered.Wrong (plain_fault offset reason) }
{
    Unanswered::Wrong(LineFault::plain(offset, reason))
}

/// The canonical document of the JSON text of a line, which is read so.
pub fn parse_line(alloc: Global, line: &[u8], reading: Reading) -> Result<OwnedJsonb, Unanswered>
    ensures row { IfOk result (λ row. IsParsed reading.exponents line.now (owned_bytes row)) }
    ensures document { IfOk result (λ row. IsDocument (owned_bytes row)) }
    ensures refused { IfErr result (IsRefusedLine reading line.now) }
{
    match compat::from_utf8(line) {
        Ok(text) => parse_text(alloc, text, reading),
        Err(error) => Err(wrong(error.valid_up_to(), Reason::InvalidUtf8)),
    }
}

// The canonical document of a text.
fn parse_text(alloc: Global, text: &str, reading: Reading) -> Result<OwnedJsonb, Unanswered>
    ensures row { IfOk result (λ row. IsParsed reading.exponents text.now (owned_bytes row)) }
    ensures document { IfOk result (λ row. IsDocument (owned_bytes row)) }
    ensures refused { IfErr result (IsRefusedLine reading text.now) }
{
    match parse_under(alloc, text, reading.exponents) {
        Ok(row) => Ok(row),
        Err(ParseError::TooDeep) => Err(wrong(0, Reason::TooDeep)),
        Err(ParseError::Refused(Error::InvalidJson)) => Err(fault_in(alloc, text, reading)),
        Err(ParseError::Refused(error)) => Err(Unanswered::from(error)),
    }
}

// The canonical document of a text under a rule for exponents.
fn parse_under(alloc: Global, text: &str, exponents: Exponents) -> Result<OwnedJsonb, ParseError>
    ensures value { ParsesUnderWithin exponents MAX_ROW_DEPTH text.now (result_bytes result) }
    ensures document { IfOk result (λ row. IsDocument (owned_bytes row)) }
{
    match exponents {
        Exponents::Allowed => OwnedJsonb::parse_with_exponents_within(alloc, text, MAX_ROW_DEPTH),
        Exponents::Forbidden => OwnedJsonb::parse_within(alloc, text, MAX_ROW_DEPTH),
    }
}

// Where a text is not JSON, why, what could have come there, and what came.
fn fault_in(alloc: Global, text: &str, reading: Reading) -> Unanswered
    requires { IsJsonUnder reading.exponents (chars text.now) → ⊥ }
    ensures { IsNotJson reading text.now result }
{
    match fault_of(alloc, text, reading.exponents) {
        Ok(Some(fault)) => match text_expected(alloc, text, reading.exponents) {
            Ok(expected) => Unanswered::Wrong(LineFault {
                offset: fault.offset,
                reason: reason_of(fault.reason),
                expected,
                found: character_at(text, fault.offset),
            }),
            Err(_) => Unanswered::OutOfMemory,
        },
        Ok(None) => unreachable!(),
        Err(_) => Unanswered::OutOfMemory,
    }
}

// The character that begins after so many bytes of a text; `None` at its end.
fn character_at(text: &str, offset: usize) -> Option<char>
    ensures { IsCharacterAt text.now offset result }
{
    match text.get(offset..) {
        Some(rest) => rest.chars().next(),
        None => None,
    }
}

/// The document that a row of documents is, if it nests at most so deep.
pub fn check_document(row: &[u8]) -> Result<Document<'_>, Unanswered>
    ensures ok { IfOk result (λ document. document_bytes document ≡ row.entry.now) }
    ensures exact { IsOk result ↔ IsDocumentWithin MAX_ROW_DEPTH row.entry.now }
    ensures refused { IfErr result (λ e. e ≡ Wrong bad_document) }
{
    match Document::within(row, MAX_ROW_DEPTH) {
        Some(document) => Ok(document),
        None => Err(wrong(0, Reason::BadDocument)),
    }
}

// The reason in this crate's words.
fn reason_of(reason: FaultReason) -> Reason
    ensures { result ≡ line_reason reason }
{
    match reason {
        FaultReason::Syntax => Reason::InvalidJson,
        FaultReason::Number => Reason::BadNumber,
    }
}
