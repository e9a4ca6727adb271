//! What could have come where a text is not JSON.

ghost use Rattle.std.specs.Prelude.{◌≡◌, ◌<◌, ◌≤◌, IsUtf8};
ghost use Rattle.kohiblad.specs.Words.{IsTextExpected, code, no_classes, rule_of, text_depth};
ghost use Rattle.kohiblad.specs.Words.{too_deep};

use crate::answer::{OK, TOO_DEEP, code};
use json_fault::text_expected;
use jsonb::layer::is_text_within;
use jsonb::{Error, Exponents};
use simdutf8::basic;
use std::alloc::Global;

/// What may come in a text, as C receives it: the sum of its classes, which is 0 if the status is
/// not `OK`.
#[repr(C)]
#[derive(Clone, Copy)]
pub struct KohibladExpected {
    pub status: u32,
    pub classes: u32,
}

/// What may come after the longest beginning of a text that begins some JSON text, which is of JSON
/// the whole text, and otherwise what is before its fault: the sum of the classes that may come.
/// With `exponents` 0 no number has an exponent. `OK` with the classes: each comes exactly if that
/// beginning with one of its characters after it begins some JSON text, and the class of the end if
/// that beginning is JSON. A quote is a key only if no value may begin, and a digit one of a number
/// only if neither a value nor a hexadecimal digit may come; in a string the one class is the rest
/// of the string. White space has no class. `TOO_DEEP` if more than `depth` brackets outside
/// strings are open at once, tested before anything else; `InvalidUtf8` if the text is not UTF-8;
/// `OutOfMemory` if an allocation fails.
#[unsafe(no_mangle)]
pub extern "C" fn kohiblad_text_expected(
    alloc: Global,
    text: &[u8],
    depth: usize,
    exponents: u32,
) -> KohibladExpected
    ensures deep { depth < text_depth text.now → result ≡ no_classes too_deep }
    ensures utf8 { text_depth text.now ≤ depth → (IsUtf8 text.now → ⊥)
        → result ≡ no_classes (code Error.InvalidUtf8) }
    ensures text { text_depth text.now ≤ depth → IsUtf8 text.now
        → IsTextExpected (rule_of exponents) text.now result }
{
    if !is_text_within(text, depth) {
        return no_classes(TOO_DEEP);
    }
    match basic::from_utf8(text) {
        Ok(text) => classes_of(alloc, text, rule_of(exponents)),
        Err(_) => no_classes(code(Error::InvalidUtf8)),
    }
}

// This status, without classes.
fn no_classes(status: u32) -> KohibladExpected
    ensures { result ≡ no_classes status }
{
    KohibladExpected { status, classes: 0 }
}

/// The rule for exponents that a caller gives as a number: 0 forbids them.
pub fn rule_of(exponents: u32) -> Exponents
    ensures { result ≡ rule_of exponents }
{
    match exponents {
        0 => Exponents::Forbidden,
        _ => Exponents::Allowed,
    }
}

// What may come where a text stops being JSON.
fn classes_of(alloc: Global, text: &str, exponents: Exponents) -> KohibladExpected
    ensures { IsTextExpected exponents text.now result }
{
    match text_expected(alloc, text, exponents) {
        Ok(classes) => KohibladExpected {
            status: OK,
            classes,
        },
        Err(error) => no_classes(code(error)),
    }
}
