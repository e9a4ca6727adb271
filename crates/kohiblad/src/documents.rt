//! Checking bytes, their kind, and comparing them.

ghost use Rattle.std.specs.Prelude.{◌≡◌, ◌↔◌, Ok, IsTrue};
ghost use Rattle.kohiblad.specs.Words.{meaning_cmp, Tree, IsDocumentWithin, Doc, kind};
ghost use Rattle.kohiblad.specs.Words.{kind_of_tree, meaning_within, sign, kind_answer};

use crate::answer::{OK, code};
use jsonb::layer::cmp_within;
use jsonb::{JsonbItemType, RawJsonb, is_document_within};
use std::cmp::Ordering;

/// Whether the bytes are a document of at most this depth.
#[unsafe(no_mangle)]
pub extern "C" fn kohiblad_check(bytes: &[u8], depth: usize) -> bool
    ensures { IsTrue result ↔ IsDocumentWithin depth bytes.now }
{
    is_document_within(bytes, depth)
}

/// Compares byte strings by their meaning, with the result -1, 0 or 1: documents of at most this
/// depth compare by their values and are less than all other bytes, which compare as bytes. So a
/// document that nests deeper than `depth` levels compares by its bytes.
#[unsafe(no_mangle)]
pub extern "C" fn kohiblad_compare(left: &[u8], right: &[u8], depth: usize) -> i32
    ensures { result ≡ sign (meaning_cmp (meaning_within depth left.now)
        (meaning_within depth right.now)) }
{
    sign(cmp_within(left, right, depth))
}

// An order as C has it.
fn sign(order: Ordering) -> i32
    ensures { result ≡ sign order }
{
    match order {
        Ordering::Less => -1,
        Ordering::Equal => 0,
        Ordering::Greater => 1,
    }
}

/// The kind of a value, from 0 for null to 6 for an object, with the number of an array's items or
/// an object's pairs. The count is 0 for all other kinds.
#[repr(C)]
#[derive(Clone, Copy)]
pub struct KohibladKind {
    pub status: u32,
    pub kind: u32,
    pub count: u64,
}

/// The kind of a value, read from the first two words, with the number of an array's items or an
/// object's pairs; nothing else is checked. `InvalidEOF` if one of these words is cut off,
/// `InvalidJsonb` if they are of no kind.
#[unsafe(no_mangle)]
pub extern "C" fn kohiblad_kind(bytes: &[u8]) -> KohibladKind
    ensures kind { result ≡ kind_answer (kind bytes.now) }
    ensures document { (t : Tree) → Doc bytes.now t → result ≡ kind_answer (Ok (kind_of_tree t)) }
{
    let (kind, count) = match RawJsonb::new(bytes).jsonb_item_type() {
        Ok(JsonbItemType::Null) => (0, 0),
        Ok(JsonbItemType::Boolean) => (1, 0),
        Ok(JsonbItemType::Number) => (2, 0),
        Ok(JsonbItemType::String) => (3, 0),
        Ok(JsonbItemType::Extension) => (4, 0),
        Ok(JsonbItemType::Array(count)) => (5, count as u64),
        Ok(JsonbItemType::Object(count)) => (6, count as u64),
        Err(error) => {
            return KohibladKind {
                status: code(error),
                kind: 0,
                count: 0,
            };
        }
    };
    KohibladKind {
        status: OK,
        kind,
        count,
    }
}
