//! Scalars: documents made of them, and the values read from their documents.

ghost use Rattle.std.specs.Prelude.{Bool, IfNone, IfSome, IsUtf8, List, length, ℕ, ◌≡◌};
ghost use Rattle.kohiblad.specs.Words.{Doc, Error, IsHandedOver, IsRefused, IsShortPayload};
ghost use Rattle.kohiblad.specs.Words.{PartMeans, Tree, boolean, canon, code, depth, is_nonzero};
ghost use Rattle.kohiblad.specs.Words.{kind, kind_answer, no_place, no_truth, null, text};
ghost use Rattle.kohiblad.specs.Words.{text_place, truth_answer, why_none};

mod extensions;
mod numbers;

use crate::answer::{OK, OTHER_KIND, PAYLOAD_LIMIT, code, hand_over_scalar, refuse};
use crate::documents::kohiblad_kind;
use crate::places::{KohibladPlace, no_place};
use jsonb::Error;
use jsonb::layer::{DocumentBytes, document_text};
use jsonb_codec::constants::{FALSE_TAG, NULL_TAG, STRING_TAG, TRUE_TAG};
use jsonb_codec::parts::Part;
pub use numbers::whole_of;
use simdutf8::basic;

// The kinds of truth values and of texts, as `kohiblad_kind` returns them.
const BOOLEAN: u32 = 1;

const STRING: u32 = 3;

/// A truth value, 0 or 1, or 0 if the status is not `OK`.
#[repr(C)]
#[derive(Clone, Copy)]
pub struct KohibladTruth {
    pub status: u32,
    pub value: u32,
}

/// Copies the canonical document of null to `out`.
#[unsafe(no_mangle)]
pub extern "C" fn kohiblad_of_null(out: &mut [u8], length: &mut usize) -> u32
    ensures { IsHandedOver (canon null) out.old out.new length.new result }
{
    hand_over_scalar(NULL_TAG, &[], out, length)
}

/// Copies the canonical document of a truth value to `out`. The value is false if `value` is 0, and
/// true for every other number.
#[unsafe(no_mangle)]
pub extern "C" fn kohiblad_of_boolean(value: u32, out: &mut [u8], length: &mut usize) -> u32
    ensures { IsHandedOver (canon (boolean (is_nonzero value))) out.old out.new length.new result }
{
    if value == 0 {
        hand_over_scalar(FALSE_TAG, &[], out, length)
    } else {
        hand_over_scalar(TRUE_TAG, &[], out, length)
    }
}

/// The truth value in the document of a truth value, as 0 or 1. `InvalidEOF` if one of the first
/// two words is cut off; `InvalidJsonb` if these are of no kind, or the bytes begin like a truth
/// value but are not a document; `OTHER_KIND` if they begin like a value of another kind.
#[unsafe(no_mangle)]
pub extern "C" fn kohiblad_as_boolean(bytes: &[u8]) -> KohibladTruth
    ensures boolean { (b : Bool) → Doc bytes.now (boolean b) → result ≡ truth_answer b }
    ensures other { ((b : Bool) → Doc bytes.now (boolean b) → ⊥)
        → result ≡ no_truth (why_none 1 (kind_answer (kind bytes.now))) }
{
    match boolean_in(bytes) {
        Some(value) => truth_of(value),
        None => KohibladTruth {
            status: why_none(bytes, BOOLEAN),
            value: 0,
        },
    }
}

// The truth value in the document of one. `None` for all other bytes.
fn boolean_in(bytes: &[u8]) -> Option<bool>
    ensures found { IfSome result (λ b. Doc bytes.now (boolean b)) }
    ensures none { IfNone result ((b : Bool) → Doc bytes.now (boolean b) → ⊥) }
{
    let Some(part) = scalar_part(bytes) else {
        return None;
    };
    if part.type_code == TRUE_TAG {
        Some(true)
    } else if part.type_code == FALSE_TAG {
        Some(false)
    } else {
        None
    }
}

/// A truth value as C receives it: 0 or 1.
pub fn truth_of(value: bool) -> KohibladTruth
    ensures { result ≡ truth_answer value }
{
    if value {
        KohibladTruth {
            status: OK,
            value: 1,
        }
    } else {
        KohibladTruth {
            status: OK,
            value: 0,
        }
    }
}

/// A result with this status, and with the value 0.
pub fn no_truth(status: u32) -> KohibladTruth
    ensures { result ≡ no_truth status }
{
    KohibladTruth { status, value: 0 }
}

/// Copies the canonical document of a text, given as its bytes, to `out`. `InvalidUtf8` if the
/// bytes are not UTF-8; `InvalidJsonb` if there are 2^28 or more.
#[unsafe(no_mangle)]
pub extern "C" fn kohiblad_of_string(bytes: &[u8], out: &mut [u8], length: &mut usize) -> u32
    ensures utf8 { (IsUtf8 bytes.now → ⊥)
        → IsRefused (code Error.InvalidUtf8) out.old out.new length.new result }
    ensures text { IsUtf8 bytes.now → IsShortPayload bytes.now
        → IsHandedOver (canon (text bytes.now)) out.old out.new length.new result }
    ensures past { IsUtf8 bytes.now → (IsShortPayload bytes.now → ⊥)
        → IsRefused (code Error.InvalidJsonb) out.old out.new length.new result }
{
    if basic::from_utf8(bytes).is_err() {
        return refuse(code(Error::InvalidUtf8), out, length);
    }
    if PAYLOAD_LIMIT <= bytes.len() {
        return refuse(code(Error::InvalidJsonb), out, length);
    }
    hand_over_scalar(STRING_TAG, bytes, out, length)
}

/// The position of the text in the document of a text: its bytes in UTF-8, without quotes and
/// escapes. `InvalidEOF` if one of the first two words is cut off; `InvalidJsonb` if these are of
/// no kind, or the bytes begin like a text but are not a document; `OTHER_KIND` if they begin like
/// a value of another kind.
#[unsafe(no_mangle)]
pub extern "C" fn kohiblad_as_string(bytes: &[u8]) -> KohibladPlace
    ensures text { (s : List ℕ) → Doc bytes.now (text s) → result ≡ text_place (length s) }
    ensures other { ((s : List ℕ) → Doc bytes.now (text s) → ⊥)
        → result ≡ no_place (why_none 3 (kind_answer (kind bytes.now))) }
{
    match document_text(bytes) {
        Some(text) => KohibladPlace {
            status: OK,
            type_code: STRING_TAG,
            offset: 8,
            length: text.len() as u64,
        },
        None => no_place(why_none(bytes, STRING)),
    }
}

/// The entry of a scalar's document. `None` for all other bytes, without examining the children of
/// arrays and objects.
pub fn scalar_part(bytes: &[u8]) -> Option<Part<'_>>
    ensures document { IfSome result (λ part. (t : Tree) × Doc bytes.now t) }
    ensures means { IfSome result (λ part. (t : Tree) → Doc bytes.now t → PartMeans part t) }
    ensures none { IfNone result ((t : Tree) → depth t ≡ 0 → Doc bytes.now t → ⊥) }
{
    match DocumentBytes::within(bytes, 0) {
        Some(document) => Some(document.part()),
        None => None,
    }
}

/// The status for bytes that are not the document of a scalar of the wanted kind.
pub fn why_none(bytes: &[u8], wanted: u32) -> u32
    ensures { result ≡ why_none wanted (kind_answer (kind bytes.now)) }
{
    let shown = kohiblad_kind(bytes);
    if shown.status != OK {
        shown.status
    } else if shown.kind == wanted {
        code(Error::InvalidJsonb)
    } else {
        OTHER_KIND
    }
}
