//! The positions of the parts of an array or object, and copying parts out as documents.

ghost use Rattle.std.specs.Prelude.{◌≡◌, ◌≢◌, ◌+◌, ◌<◌, ◌^◌, ℕ, List, length, false, Option};
ghost use Rattle.std.specs.Prelude.{Some, Result, Ok, Err, IfOk, IsUtf8};
ghost use Rattle.kohiblad.specs.Words.{Error, Entry, code, IsAnswered, IsHandedOver};
ghost use Rattle.kohiblad.specs.Words.{IsRefused, Tree, Doc, IsPayloadOf, IsItemPlace};
ghost use Rattle.kohiblad.specs.Words.{AreMemberPlaces, IsEntryIn, IsPlaceFound, part_in};
ghost use Rattle.kohiblad.specs.Words.{place_of_item};
ghost use Rattle.kohiblad.specs.Words.{IsInside, AreBothInside, member_places, IsMemberHandedOver};
ghost use Rattle.kohiblad.specs.Words.{place_answer, entry_there, IsPartPlace, entry_document};
ghost use Rattle.kohiblad.specs.Words.{IsPlaceHandedOver, IsValuePlace, is_entry_type, is_too_long};
ghost use Rattle.kohiblad.specs.Words.{part_document, IsPartDocument};

use crate::answer::{NO_ROOM, NONE, OK, PAYLOAD_LIMIT, code, hand_over, hand_over_scalar, refuse};
use jsonb::layer::{Cursor, Entry};
use jsonb::{Error, RawJsonb, Reads, read_header};
use jsonb_codec::constants::{
    ARRAY_CONTAINER_TAG, CONTAINER_TAG, EXTENSION_TAG, FALSE_TAG, NULL_TAG, NUMBER_TAG,
    OBJECT_CONTAINER_TAG, STRING_TAG, TRUE_TAG,
};
use simdutf8::basic;

/// The type of an entry, and the offset and length of its payload in bytes, as C receives them.
/// They are 0 if the status is not `OK`.
#[repr(C)]
#[derive(Clone, Copy)]
pub struct KohibladPlace {
    pub status: u32,
    pub type_code: u32,
    pub offset: u64,
    pub length: u64,
}

/// The position of a part of an array or object, by number: the items of an array from 0; for an
/// object of n pairs the keys from 0 and the values from n. `NONE` if there is no such part;
/// `InvalidEOF` if the header or an entry word that is read is cut off; `InvalidJsonb` if the
/// header is of no kind, or the payload runs past the end.
#[tactic(auto, using(crate::proofs::PlaceLaws::part_in_stored))]
#[unsafe(no_mangle)]
pub extern "C" fn kohiblad_find_index(bytes: &[u8], number: usize) -> KohibladPlace
    ensures value { result ≡ place_answer (part_in bytes.now number) }
    ensures document { (t : Tree) → Doc bytes.now t
        → IsPartPlace bytes.now t number (part_in bytes.now number) }
{
    place_answer(part_in(bytes, number))
}

/// The position of the value of a key. `InvalidUtf8` if the name is not UTF-8; `NONE` if the object
/// has no such key, or the bytes are not an object; for bytes that are not a document, the error of
/// looking up the key in them.
#[unsafe(no_mangle)]
pub extern "C" fn kohiblad_find_key(bytes: &[u8], name: &[u8]) -> KohibladPlace
    ensures utf8 { (IsUtf8 name.now → ⊥) → result ≡ place_answer (Err Error.InvalidUtf8) }
    ensures place { IsUtf8 name.now → (found : Result (Option Entry) Error)
        × (IsPlaceFound name.now bytes.now found × (result ≡ place_answer found)) }
    ensures document { IsUtf8 name.now → (t : Tree) → Doc bytes.now t
        → (found : Result (Option Entry) Error)
        × (IsValuePlace bytes.now t name.now found × (result ≡ place_answer found)) }
{
    place_answer(place_of_key(bytes, name))
}

/// Copies the value of a key to `out`, as a document of its own. `InvalidUtf8` if the name is not
/// UTF-8; `NONE` if the object has no such key, or the bytes are not an object; for bytes that are
/// not a document, the error of looking up the key in them.
#[unsafe(no_mangle)]
pub extern "C" fn kohiblad_get_key(
    bytes: &[u8],
    name: &[u8],
    out: &mut [u8],
    length: &mut usize,
) -> u32
    ensures utf8 { (IsUtf8 name.now → ⊥)
        → IsRefused (code Error.InvalidUtf8) out.old out.new length.new result }
    ensures place { IsUtf8 name.now → (found : Result (Option Entry) Error)
        × (IsPlaceFound name.now bytes.now found
        × IsPlaceHandedOver bytes.now found out.old out.new length.new result) }
    ensures document { IsUtf8 name.now → (t : Tree) → Doc bytes.now t
        → (found : Result (Option Entry) Error)
        × (IsValuePlace bytes.now t name.now found
        × IsPlaceHandedOver bytes.now found out.old out.new length.new result) }
{
    hand_over_item(bytes, place_of_key(bytes, name), out, length)
}

/// Copies the document of a part to `out`. The part is given by the type of its entry and its
/// payload: an array or object is copied as it is, and a scalar is written as a document of its
/// own. At a position in a document, as `kohiblad_find_index`, `kohiblad_find_key` and
/// `kohiblad_next` return it, this is what `kohiblad_get_index` and `kohiblad_get_key` copy. The
/// payload is not checked: null, true and false are also written with the one that is given, which
/// in a document has no bytes. `InvalidJsonbJEntry` if entries have no such type; `InvalidJsonb` if
/// the payload of a scalar has 2^28 bytes or more.
#[unsafe(no_mangle)]
pub extern "C" fn kohiblad_copy(
    type_code: u32,
    payload: &[u8],
    out: &mut [u8],
    length: &mut usize,
) -> u32
    ensures part { IsAnswered (part_document type_code payload.now) out.old out.new length.new
        result }

    // A payload that means a tree, in an entry of this type, becomes a document of that tree.
    ensures document { (t : Tree) → IsPayloadOf type_code payload.now t
        → is_too_long type_code payload.now ≡ false
        → (answer : List ℕ)
        × ((part_document type_code payload.now ≡ Ok answer) × Doc answer t) }

    // At the position of a part of a document, it is what the calls that copy parts hand over, and
    // a document of the part's tree.
    ensures place { (bytes : List ℕ) (t : Tree) (number : ℕ) (place : Entry) → Doc bytes t
        → part_in bytes number ≡ Ok (Some place)
        → entry_there bytes place ≡ record { type = type_code; payload = payload.now }
        → (part_document type_code payload.now ≡ Ok (entry_document (entry_there bytes place)))
        × IsPartDocument t number (entry_document (entry_there bytes place)) }
{
    if !is_entry_type(type_code) {
        return refuse(code(Error::InvalidJsonbJEntry), out, length);
    }
    if type_code != CONTAINER_TAG && PAYLOAD_LIMIT <= payload.len() {
        return refuse(code(Error::InvalidJsonb), out, length);
    }
    hand_over_entry(type_code, payload, out, length)
}

/// Copies the item of an array at an index, counted from 0, to `out`, as a document of its own.
/// `NONE` if the index is not below the number of items, or the bytes are not an array;
/// `InvalidEOF` if the header or an entry word that is read is cut off; `InvalidJsonb` if the
/// header is of no kind, or the item runs past the end.
#[unsafe(no_mangle)]
pub extern "C" fn kohiblad_get_index(
    bytes: &[u8],
    index: usize,
    out: &mut [u8],
    length: &mut usize,
) -> u32
    ensures handed { IsPlaceHandedOver bytes.now (place_of_item bytes.now index)
        out.old out.new length.new result }
    ensures document { (t : Tree) → Doc bytes.now t
        → IsItemPlace bytes.now t index (place_of_item bytes.now index) }
{
    hand_over_item(bytes, place_of_item(bytes, index), out, length)
}

/// Copies the key of an object's pair at an index, counted from 0, to `key`, and its value to
/// `out`, as a document of its own, and their lengths in bytes to `key_length` and `length`. `NONE`
/// if the index is not below the number of pairs, or the bytes are not an object; `InvalidEOF` if
/// the header or an entry word that is read is cut off; `InvalidJsonb` if the header is of no kind,
/// or the key or value runs past the end; `NO_ROOM` if `key` or `out` is too short. If the status
/// is not `OK`, `key` and `out` are unchanged, and both lengths are 0, or for `NO_ROOM` the lengths
/// of the key and the document.
#[unsafe(no_mangle)]
pub extern "C" fn kohiblad_get_member(
    bytes: &[u8],
    index: usize,
    key: &mut [u8],
    key_length: &mut usize,
    out: &mut [u8],
    length: &mut usize,
) -> u32
    ensures handed { IsMemberHandedOver bytes.now (member_places bytes.now index)
        key.old key.new key_length.new out.old out.new length.new result }
    ensures document { (t : Tree) → Doc bytes.now t
        → AreMemberPlaces bytes.now t index (member_places bytes.now index) }
{
    match member_places(bytes, index) {
        Ok(Some((name, value))) => {
            let text = name.payload(bytes);
            if key.len() < text.len() {
                let _ = hand_over_place(bytes, value, &mut out[..0], length);
                *key_length = text.len();
                return NO_ROOM;
            }
            let status = hand_over_place(bytes, value, out, length);
            if status == OK {
                hand_over(text, key, key_length)
            } else {
                *key_length = text.len();
                status
            }
        }
        Ok(None) => {
            let status = refuse(NONE, key, key_length);
            refuse(status, out, length)
        }
        Err(error) => {
            let status = refuse(code(error), key, key_length);
            refuse(status, out, length)
        }
    }
}

// The positions of an object's key and its value. `None` if there are none.
#[tactic(auto, using(crate::proofs::PlaceLaws::member_places_stored))]
fn member_places(bytes: &[u8], index: usize) -> Result<Option<(Entry, Entry)>, Error>
    ensures value { result ≡ member_places bytes.now index }
    ensures document { (t : Tree) → Doc bytes.now t
        → AreMemberPlaces bytes.now t index (member_places bytes.now index) }
    ensures inside { AreBothInside bytes.now result }
{
    match read_header(bytes, 0)? {
        (OBJECT_CONTAINER_TAG, count) if index < count => {
            let key = part_in(bytes, index)?;
            let value = part_in(bytes, count + index)?;
            Ok(key.zip(value))
        }
        _ => Ok(None),
    }
}

// The position of an item of an array. `None` if there is none.
#[tactic(auto, using(crate::proofs::PlaceLaws::place_of_item_stored))]
fn place_of_item(bytes: &[u8], index: usize) -> Result<Option<Entry>, Error>
    ensures value { result ≡ place_of_item bytes.now index }
    ensures document { (t : Tree) → Doc bytes.now t
        → IsItemPlace bytes.now t index (place_of_item bytes.now index) }
    ensures inside { IsInside bytes.now result }
{
    match read_header(bytes, 0)? {
        (ARRAY_CONTAINER_TAG, _) => part_in(bytes, index),
        _ => Ok(None),
    }
}

/// The position of the value of a key. `None` if there is none.
pub fn place_of_key(bytes: &[u8], name: &[u8]) -> Result<Option<Entry>, Error>
    ensures utf8 { (IsUtf8 name.now → ⊥) → result ≡ Err Error.InvalidUtf8 }
    ensures place { IsUtf8 name.now → IsPlaceFound name.now bytes.now result }
    ensures document { IsUtf8 name.now → (t : Tree) → Doc bytes.now t
        → IsValuePlace bytes.now t name.now result }
    ensures inside { IsInside bytes.now result }
{
    match basic::from_utf8(name) {
        Ok(name) => place_of_name(bytes, name),
        Err(_) => Err(Error::InvalidUtf8),
    }
}

/// The position of the value of a key, whose name is a text. `None` if there is none.
pub fn place_of_name(bytes: &[u8], name: &str) -> Result<Option<Entry>, Error>
    ensures place { IsPlaceFound name.now bytes.now result }
    ensures document { (t : Tree) → Doc bytes.now t → IsValuePlace bytes.now t name.now result }
    ensures inside { IsInside bytes.now result }
{
    let mut reads = Reads::new();
    let object = RawJsonb::new(bytes);
    match object.find_object_value_counted(name, |wanted, key| wanted == key, &mut reads)? {
        Some(found) => Ok(Some(found.entry)),
        None => Ok(None),
    }
}

// Copies out the document at this position, if one was found.
fn hand_over_item(
    bytes: &[u8],
    found: Result<Option<Entry>, Error>,
    out: &mut [u8],
    size: &mut usize,
) -> u32
    requires { IsInside bytes.now found }
    ensures { IsPlaceHandedOver bytes.now found out.old out.new size.new result }
{
    match found {
        Ok(Some(place)) => hand_over_place(bytes, place, out, size),
        Ok(None) => refuse(NONE, out, size),
        Err(error) => refuse(code(error), out, size),
    }
}

// Copies out the document at this position.
fn hand_over_place(bytes: &[u8], place: Entry, out: &mut [u8], size: &mut usize) -> u32
    requires { IsEntryIn bytes.now place }
    ensures { IsHandedOver (entry_document (entry_there bytes.now place))
        out.old out.new size.new result }
{
    hand_over_entry(place.type_code, place.payload(bytes), out, size)
}

/// Whether entries may have this type.
pub fn is_entry_type(type_code: u32) -> bool
    ensures { result ≡ is_entry_type type_code }
{
    matches!(
        type_code,
        NULL_TAG | STRING_TAG | NUMBER_TAG | FALSE_TAG | TRUE_TAG | CONTAINER_TAG | EXTENSION_TAG
    )
}

// Copies out the document of an entry with this type and payload.
fn hand_over_entry(type_code: u32, payload: &[u8], out: &mut [u8], size: &mut usize) -> u32
    requires { type_code ≢ CONTAINER_TAG → type_code + length payload.now < 2 ^ 31 }
    ensures { IsHandedOver (entry_document (record { type = type_code; payload = payload.now }))
        out.old out.new size.new result }
{
    if type_code == CONTAINER_TAG {
        hand_over(payload, out, size)
    } else {
        hand_over_scalar(type_code, payload, out, size)
    }
}

/// The result of a search for a position, as C receives it: `OK` with the type, offset and length;
/// `NONE` or the status of the error with zeros.
pub fn place_answer(found: Result<Option<Entry>, Error>) -> KohibladPlace
    ensures { result ≡ place_answer found }
{
    match found {
        Ok(Some(place)) => KohibladPlace {
            status: OK,
            type_code: place.type_code,
            offset: place.start as u64,
            length: place.length as u64,
        },
        Ok(None) => no_place(NONE),
        Err(error) => no_place(code(error)),
    }
}

/// A result with this status, and with type, offset and length 0.
pub fn no_place(status: u32) -> KohibladPlace
    ensures { result ≡ record { status = status; type_code = 0; offset = 0; length = 0 } }
{
    KohibladPlace {
        status,
        type_code: 0,
        offset: 0,
        length: 0,
    }
}

// The part with this number. `None` if there is none.
fn part_in(bytes: &[u8], number: usize) -> Result<Option<Entry>, Error>
    ensures value { result ≡ part_in bytes.now number }
    ensures inside { IsInside bytes.now result }
{
    let mut parts = Cursor::over_entries(bytes)?;
    if parts.len() <= number {
        return Ok(None);
    }
    parts.skip(number)?;
    parts.next().transpose()
}
