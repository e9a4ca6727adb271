//! The members of rows that are not checked.

ghost use Rattle.std.specs.Prelude.{◌≡◌, ◌≢◌, ◌⊎◌, [], IfErr, IfOk, IfSome, IsOkAnd, IsSome};
ghost use Rattle.std.specs.Prelude.{MatchOption, None, Ok, Some, option_map};
ghost use Rattle.jsonb_codec.specs.declared.constants.TheConstants.{CONTAINER_TAG};
ghost use Rattle.jsonb_functions.specs.Found.{found_at};
ghost use Rattle.jsonb_functions.specs.PathPlaces.{HoldsFound, IsPlaceWithin};
ghost use Rattle.jsonb_typed.specs.Words.{HoldsNoScalar};
ghost use Rattle.kohiblad.specs.Located.{entry_state};
ghost use Rattle.kohiblad.specs.UncheckedRows.{IsReadAs};
ghost use Rattle.kohiblad.specs.Words.{Doc, IsPayloadOf, Tree, node_tree};

use crate::taking::{NO_DOCUMENT, UNFIT};
use jsonb::layer::{Entry, find_entry};
use jsonb::{Error, ExtensionItem, Node, NumberItem};
use jsonb_codec::constants::{
    CONTAINER_TAG, EXTENSION_TAG, FALSE_TAG, NULL_TAG, NUMBER_TAG, STRING_TAG, TRUE_TAG,
};
use jsonb_functions::{Step, bytes_at, place_at_end, whole_place};
use simdutf8::basic;

/// The member of a row at the end of a path, if it is a scalar; or the state of the row. `Ok(None)`
/// if the row has no such member, or no bytes. Of any other bytes than a document it is some
/// scalar, none, or a state.
pub fn unchecked_member<'a>(row: &'a [u8], path: &[Step<'_>]) -> Result<Option<Node<'a>>, u8>
    ensures document { (t : Tree) → Doc row.entry.now t → IsReadAs (found_at path.now t) result }
    ensures scalar { IfOk result (λ member. IfSome member HoldsNoScalar) }
    ensures empty { row.entry.now ≡ [] → result ≡ Ok None }
    ensures state { IfErr result (λ state. (state ≡ 3) ⊎ (state ≡ 4)) }
{
    if row.is_empty() {
        return Ok(None);
    }
    match member_place(row, path) {
        Ok(Some(place)) => scalar_at(place.type_code, bytes_at(row, place)),
        Ok(None) => Ok(None),
        Err(_) => Err(NO_DOCUMENT),
    }
}

/// The position of the member at the end of a path. `None` if a document has no such member; of any
/// other bytes it is some position in them, none, or an error.
#[inline(always)]
pub fn member_place(row: &[u8], path: &[Step<'_>]) -> Result<Option<Entry>, Error>
    ensures document { (t : Tree) → Doc row.now t
        → IsOkAnd result (λ found. HoldsFound row.now found (found_at path.now t)) }
    ensures inside { IfOk result (λ found. IfSome found (IsPlaceWithin row.now)) }
{
    let [step] = path else {
        return path_end(row, path);
    };
    match step {
        // A look-up of one key takes less time than a walk over all of them.
        Step::Key(name) => find_entry(row, name),
        _ => path_end(row, path),
    }
}

// The position at the end of a path of any steps.
#[tactic(auto, using(jsonb_functions::proofs::PathPlaceLaws::place_holds))]
fn path_end(row: &[u8], path: &[Step<'_>]) -> Result<Option<Entry>, Error>
    ensures document { (t : Tree) → Doc row.now t
        → IsOkAnd result (λ found. HoldsFound row.now found (found_at path.now t)) }
    ensures inside { IfOk result (λ found. IfSome found (IsPlaceWithin row.now)) }
{
    match whole_place(row) {
        Ok(whole) => Ok(place_at_end(row, whole, path)),
        Err(error) => Err(error),
    }
}

/// The scalar of an entry with this type and payload, or the state of its row.
pub fn scalar_at<'a>(type_code: u32, payload: &'a [u8]) -> Result<Option<Node<'a>>, u8>
    ensures entry { (t : Tree) → IsPayloadOf type_code payload.entry.now t
        → IsReadAs (Some t) result }
    ensures scalar { IfOk result (λ member. IfSome member HoldsNoScalar) }
    ensures held { IfOk result (λ member. IfSome member (λ node.
        IsPayloadOf type_code payload.entry.now (node_tree node))) }
    ensures some { IfOk result IsSome }
    ensures other { IfErr result (λ state. state ≡ entry_state type_code) }
    ensures state { IfErr result (λ state. (state ≡ 3) ⊎ (state ≡ 4)) }
{
    if type_code == CONTAINER_TAG {
        return Err(UNFIT);
    }
    match scalar_of(type_code, payload) {
        Some(scalar) => Ok(Some(scalar)),
        None => Err(NO_DOCUMENT),
    }
}

// The scalar with this type and payload. `None` if there is none.
#[tactic(auto, using(crate::proofs::ScalarReads::null_read, crate::proofs::ScalarReads::null_held, crate::proofs::ScalarReads::null_full, crate::proofs::ScalarReads::true_read, crate::proofs::ScalarReads::true_held, crate::proofs::ScalarReads::true_full, crate::proofs::ScalarReads::false_read, crate::proofs::ScalarReads::false_held, crate::proofs::ScalarReads::false_full, crate::proofs::ScalarReads::number_held, crate::proofs::ScalarReads::text_held, crate::proofs::ScalarReads::extension_held, crate::proofs::ScalarReads::number_read, crate::proofs::ScalarReads::some_number, crate::proofs::ScalarReads::text_read, crate::proofs::ScalarReads::some_text, crate::proofs::ScalarReads::extension_read, crate::proofs::ScalarReads::some_extension, crate::proofs::ScalarReads::tagged))]
fn scalar_of<'a>(type_code: u32, payload: &'a [u8]) -> Option<Node<'a>>
    ensures means { (t : Tree) → type_code ≢ CONTAINER_TAG
        → IsPayloadOf type_code payload.entry.now t → option_map node_tree result ≡ Some t }
    ensures scalar { IfSome result HoldsNoScalar }
    ensures held { IfSome result (λ node.
        IsPayloadOf type_code payload.entry.now (node_tree node)) }
{
    match type_code {
        NULL_TAG => if_empty(payload, Node::Null),
        FALSE_TAG => if_empty(payload, Node::Boolean(false)),
        TRUE_TAG => if_empty(payload, Node::Boolean(true)),
        NUMBER_TAG => match NumberItem::from_bytes(payload) {
            Ok(number) => Some(Node::Number(number)),
            Err(_) => None,
        },
        STRING_TAG => match basic::from_utf8(payload) {
            Ok(text) => Some(Node::String(text)),
            Err(_) => None,
        },
        EXTENSION_TAG => match ExtensionItem::from_bytes(payload) {
            Ok(value) => Some(Node::Extension(value)),
            Err(_) => None,
        },
        _ => None,
    }
}

// A value that has no bytes. `None` if there are some.
#[inline(always)]
fn if_empty<'a>(payload: &[u8], value: Node<'a>) -> Option<Node<'a>>
    requires { HoldsNoScalar value }
    ensures empty { MatchOption result (payload.now ≢ [])
        (λ node. (node_tree node ≡ node_tree value.entry) × (payload.now ≡ [])) }
    ensures scalar { IfSome result HoldsNoScalar }
{
    if payload.is_empty() {
        Some(value)
    } else {
        None
    }
}
