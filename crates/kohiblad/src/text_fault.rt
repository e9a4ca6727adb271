//! Where a text is not JSON.

ghost use Rattle.std.specs.Prelude.{◌≡◌, ◌<◌, ◌≤◌, IsUtf8};
ghost use Rattle.kohiblad.specs.Words.{text_depth, code, too_deep, reason_status, no_fault};
ghost use Rattle.kohiblad.specs.Words.{IsTextFault, rule_of};

use crate::answer::{BAD_NUMBER, OK, TOO_DEEP, code};
use crate::text_expected::rule_of;
use json_fault::{FaultReason, fault_of};
use jsonb::layer::is_text_within;
use jsonb::{Error, Exponents};
use simdutf8::basic;
use std::alloc::Global;

/// Whether a text is JSON, and where it is not, as C receives it. The offset is 0 if the status is
/// neither `OK`, `InvalidJson` nor `BAD_NUMBER`.
#[repr(C)]
#[derive(Clone, Copy)]
pub struct KohibladFault {
    pub status: u32,
    pub offset: u64,
}

/// Whether a text is JSON, and where it is not. With `exponents` 0 no number has an exponent. `OK`,
/// with the length of the text, if it is JSON; `TOO_DEEP` if more than `depth` brackets outside
/// strings are open at once, tested before anything else; `InvalidUtf8` if the text is not UTF-8;
/// `BAD_NUMBER` if its longest beginning that begins some JSON text ends in an unfinished or too
/// large number, as `1.`; `InvalidJson` if it is not JSON for another reason, as `01` and `1.5.`,
/// in which by the grammar of RFC 8259 the number ends before the last character; `OutOfMemory` if
/// an allocation fails. Of `BAD_NUMBER` and `InvalidJson` the offset is the length in bytes of that
/// beginning.
#[unsafe(no_mangle)]
pub extern "C" fn kohiblad_text_fault(
    alloc: Global,
    text: &[u8],
    depth: usize,
    exponents: u32,
) -> KohibladFault
    ensures deep { depth < text_depth text.now → result ≡ no_fault too_deep }
    ensures utf8 { text_depth text.now ≤ depth → (IsUtf8 text.now → ⊥)
        → result ≡ no_fault (code Error.InvalidUtf8) }
    ensures text { text_depth text.now ≤ depth → IsUtf8 text.now
        → IsTextFault (rule_of exponents) text.now result }
{
    if !is_text_within(text, depth) {
        return no_fault(TOO_DEEP);
    }
    match basic::from_utf8(text) {
        Ok(text) => found_fault(alloc, text, rule_of(exponents)),
        Err(_) => no_fault(code(Error::InvalidUtf8)),
    }
}

// This status, without an offset.
fn no_fault(status: u32) -> KohibladFault
    ensures { result ≡ no_fault status }
{
    KohibladFault { status, offset: 0 }
}

// The status of a reason.
fn reason_status(reason: FaultReason) -> u32
    ensures { result ≡ reason_status reason }
{
    match reason {
        FaultReason::Syntax => code(Error::InvalidJson),
        FaultReason::Number => BAD_NUMBER,
    }
}

// Whether a text is JSON, and where it is not.
fn found_fault(alloc: Global, text: &str, exponents: Exponents) -> KohibladFault
    ensures { IsTextFault exponents text.now result }
{
    match fault_of(alloc, text, exponents) {
        Ok(None) => KohibladFault {
            status: OK,
            offset: text.len() as u64,
        },
        Ok(Some(fault)) => KohibladFault {
            status: reason_status(fault.reason),
            offset: fault.offset as u64,
        },
        Err(error) => no_fault(code(error)),
    }
}
