//! Where a text is not JSON.

ghost use Rattle.std.specs.Prelude.{◌≡◌, ◌↔◌, chars, reverse, OnOk, IfOk, IfErr, IfSome};
ghost use Rattle.json_fault.specs.Words.{IsJson, IsFaultAt, IsJsonWithExponents, IsJsonUnder};
ghost use Rattle.json_fault.specs.Words.{IsFaultAtWithExponents, IsFaultUnder, innermost_bracket};
ghost use Rattle.json_fault.specs.Words.{changed, IsExpected, IsStop, reason_at};

use crate::classes::Next;
use crate::expected::{Bracket, Change, Expected, followed, stops_in_number};
use jsonb_value::{Error, Exponents, is_json};
use std::alloc::{AllocError, Global};

/// Why a text is not JSON.
#[derive(Clone, Copy, Debug, PartialEq, Eq)]
pub enum FaultReason {
    /// Something other than a number is at fault.
    Syntax,
    /// The longest beginning of the text that begins some JSON text ends in an unfinished or too
    /// large number: white space may not follow it, as after `1.`, or the next character goes on
    /// with it, as `e` where there may be no exponents.
    Number,
}

/// Where a text is not JSON, and why.
#[derive(Clone, Copy, Debug, PartialEq, Eq)]
pub struct Fault {
    /// The length in bytes of the longest beginning of the text that begins some JSON text.
    pub offset: usize,
    /// Why the text is not JSON.
    pub reason: FaultReason,
}

// The innermost open bracket.
#[tactic(auto, using(crate::proofs::OpenBrackets::last_is))]
fn innermost(brackets: &Vec<Bracket>) -> Option<Bracket>
    ensures { result ≡ innermost_bracket (reverse brackets.now.items) }
{
    brackets.as_slice().last().copied()
}

// Opens or closes a bracket.
fn change(brackets: &mut Vec<Bracket>, change: Change) -> Result<(), AllocError>
    ensures { OnOk result (reverse brackets.new.items
        ≡ changed change (reverse brackets.old.items)) }
{
    match change {
        Change::Keep => {}
        Change::Open(bracket) => brackets.push(bracket)?,
        Change::Close => {
            let _ = brackets.pop();
        }
    }
    Ok(())
}

// Why the scan stopped where this was expected, at this character or at the end of the text.
fn reason_at(expected: Expected, next: Option<char>) -> FaultReason
    ensures { result ≡ reason_at expected next }
{
    if stops_in_number(expected, next) {
        FaultReason::Number
    } else {
        FaultReason::Syntax
    }
}

// Where the scan of a text stops: after its longest beginning that begins a JSON text.
#[derive(Clone, Copy)]
struct Stop {
    // The length of that beginning.
    offset: usize,
    // What is expected there.
    next: Next,
    // What is there: a character, or the end of the text.
    character: Option<char>,
}

// Where a text is not JSON under this rule for exponents; of JSON, the end of the text.
fn scanned(alloc: Global, text: &str, exponents: Exponents) -> Result<Stop, AllocError>
    ensures { IfOk result (IsStop exponents text.now) }
{
    let mut brackets = Vec::new(alloc);
    let mut expected = Expected::Value;
    'scan: for (offset, character) in text.char_indices() {
        let top = innermost(&brackets);
        let next = Next {
            exponents,
            expected,
            top,
        };
        let Some((follows, bracket)) = followed(exponents, expected, top, character) else {
            let character = Some(character);
            return Ok(Stop {
                offset,
                next,
                character,
            });
        };
        change(&mut brackets, bracket)?;
        expected = follows;
    }
    Ok(Stop {
        offset: text.len(),
        next: Next {
            exponents,
            expected,
            top: innermost(&brackets),
        },
        character: None,
    })
}

/// Where a text is not JSON under a rule for exponents, and why; `None` if it is JSON.
///
/// The offset is the length of the longest beginning of the text that begins some JSON text under
/// that rule: that of the whole text if it only ends too early, and otherwise the position of the
/// first character that no JSON text has there. The reason is `Number` exactly if that beginning
/// ends in an unfinished or too large number, as of `[1.]`, `-` and an integer of 40 digits,
/// whatever follows; `1e5` is one where exponents are forbidden, and `1e39` where they are allowed.
/// `OutOfMemory` if an allocation fails. No value is made, and no stack is taken for the depth of
/// the text.
pub fn fault_of(alloc: Global, text: &str, exponents: Exponents) -> Result<Option<Fault>, Error>
    // Nothing is found exactly in JSON texts.
    ensures none { IfOk result
        (λ found. (found ≡ None) ↔ IsJsonUnder exponents (chars text.now)) }
    // The fault is after the longest beginning of the text that begins a JSON text, and the reason
    // is the numbers exactly if that ends in an unfinished or too large number.
    ensures fault { IfOk result
        (λ found. IfSome found (IsFaultUnder exponents (chars text.now))) }
    ensures memory { IfErr result (λ e. e ≡ Error.OutOfMemory) }
{
    if is_json(alloc, text, exponents)? {
        return Ok(None);
    }
    let stop = scanned(alloc, text, exponents)?;
    Ok(Some(Fault {
        offset: stop.offset,
        reason: reason_at(stop.next.expected, stop.character),
    }))
}

/// Where a text is not JSON, and why; `None` if it is JSON, as `parse_value` reads it: `fault_of`
/// where no number has an exponent.
///
/// The offset is the length of the longest beginning of the text that begins some JSON text, and
/// the reason is `Number` exactly if that ends in an unfinished or too large number. `OutOfMemory`
/// if an allocation fails.
pub fn text_fault(alloc: Global, text: &str) -> Result<Option<Fault>, Error>
    // Nothing is found exactly in JSON texts.
    ensures none { IfOk result (λ found. (found ≡ None) ↔ IsJson (chars text.now)) }
    // The fault is after the longest beginning of the text that begins a JSON text, and the reason
    // is the numbers exactly if that ends in an unfinished or too large number.
    ensures fault { IfOk result (λ found. IfSome found (IsFaultAt (chars text.now))) }
    ensures memory { IfErr result (λ e. e ≡ Error.OutOfMemory) }
{
    fault_of(alloc, text, Exponents::Forbidden)
}

/// Where a text is not JSON with exponents, and why; `None` if it is, as
/// `parse_value_with_exponents` reads it: `fault_of` where numbers may have exponents.
///
/// The offset is the length of the longest beginning of the text that begins some JSON text with or
/// without exponents. An exponent counts with its number: `1e3` begins a number that the format
/// holds, and `1e39` does not; `1e` is unfinished. `OutOfMemory` if an allocation fails.
pub fn text_fault_with_exponents(alloc: Global, text: &str) -> Result<Option<Fault>, Error>
    // Nothing is found exactly in JSON texts, with or without exponents.
    ensures none { IfOk result
        (λ found. (found ≡ None) ↔ IsJsonWithExponents (chars text.now)) }
    // The fault is after the longest beginning of the text that begins such a JSON text, and the
    // reason is the numbers exactly if that ends in an unfinished or too large number.
    ensures fault { IfOk result (λ found. IfSome found (IsFaultAtWithExponents (chars text.now))) }
    ensures memory { IfErr result (λ e. e ≡ Error.OutOfMemory) }
{
    fault_of(alloc, text, Exponents::Allowed)
}

/// What may come after the longest beginning of a text that begins a JSON text, with exponents if
/// they are allowed: of JSON the whole text, and of other texts what is before their fault.
///
/// The result is the sum of those of the classes `EXPECTED_VALUE`, `EXPECTED_COMMA` and so on that
/// may come. A class may come exactly if that beginning with one of its characters after it begins
/// a JSON text, where a quote is a key only if no value may begin, and a digit one of a number only
/// if neither a value nor a hexadecimal digit may come; in a string the one class is the rest of
/// the string. `EXPECTED_END` exactly if that beginning is JSON. White space has no class.
/// `OutOfMemory` if an allocation fails. The text is read once, and its beginning a second time.
pub fn text_expected(alloc: Global, text: &str, exponents: Exponents) -> Result<u32, Error>
    ensures ok { IfOk result (IsExpected exponents (chars text.now)) }
    ensures memory { IfErr result (λ e. e ≡ Error.OutOfMemory) }
{
    let stop = scanned(alloc, text, exponents)?;
    let ends = is_json(alloc, &text[..stop.offset], exponents)?;
    Ok(stop.next.classes(ends))
}
