//! The plain look-up compared with the counted one, a closure that accepts all keys, and look-ups in
//! a prefix.

ghost use Rattle.std.specs.Prelude.{length, option_map, IsOkAnd, nat_eq};
ghost use Rattle.jsonb.specs.Words.{pointwise, Tree, Doc, raw_bytes, item_view, find, IsItemFound};

use jsonb::constants::{CONTAINER_TAG, STRING_TAG};
use jsonb::layer::{Entry, Progress, find_index_in_prefix, find_key_in_prefix};
use jsonb::{Error, JsonbItem, Number, NumberItem, RawJsonb, Reads};
use std::test::Fail;

// The object {"aa":1,"ab":[2]}.
const OBJECT: &[u8] = b"\x40\0\0\x02\x10\0\0\x02\x10\0\0\x02\x20\0\0\x02\x50\0\0\x0a\
    aaab\x50\x01\x80\0\0\x01\x20\0\0\x02\x50\x02";

// The keys of `OBJECT`, and names that it does not have.
const NAMES: &[&str] = &["aa", "ab", "zz", "a", ""];

// A plain find, with what its caller knows.
fn find_by_name<'a>(raw: RawJsonb<'a>, name: &str) -> Result<Option<JsonbItem<'a>>, Error>
    ensures { (t : Tree) → Doc (raw_bytes raw.entry) t
        → IsOkAnd result
        (λ found. IsItemFound (find (pointwise nat_eq name.now) (length name.now) t)
        (option_map item_view found)) }
{
    raw.get_object_value_by_key_name(name, |wanted, key| wanted == key)
}

// Whether it has the result of the counted look-up.
fn is_found_alike(raw: RawJsonb, name: &str) -> bool {
    let mut reads = Reads::new();
    let counted = raw.get_object_value_by_key_name_counted(
        name,
        |wanted, key| wanted == key,
        &mut reads,
    );
    find_by_name(raw, name) == counted
}

#[test]
fn cut_bytes(rt: HostRuntime) {
    for &name in NAMES {
        for length in 0..=OBJECT.len() {
            let raw = RawJsonb::new(&OBJECT[..length]);
            assert!(rt; is_found_alike(raw, name), "{name} in {length} bytes");
        }
    }
}

#[test]
fn changed_bytes(rt: HostRuntime) -> Result<(), Fail> {
    let mut bytes = Vec::from_slice(rt.alloc(), OBJECT)?;
    for place in 0..bytes.len() {
        let before = bytes[place];
        for value in 0..=255 {
            bytes[place] = value;
            for &name in NAMES {
                let raw = RawJsonb::new(&bytes);
                assert!(rt; is_found_alike(raw, name), "{name}, {value} at {place}");
            }
        }
        bytes[place] = before;
    }
    Ok(())
}

// The first value whose key has the length of the name: the closure accepts every key.
fn first_of_length<'a>(raw: RawJsonb<'a>, name: &str) -> Result<Option<JsonbItem<'a>>, Error> {
    raw.get_object_value_by_key_name(name, |_, _| true)
}

#[test]
fn keys_of_other_lengths_are_passed_over(rt: HostRuntime) {
    let raw = RawJsonb::new(OBJECT);
    let one = JsonbItem::Number(NumberItem::from_number(Number::UInt64(1)));
    assert!(rt; first_of_length(raw, "zz") == Ok(Some(one)));
    assert!(rt; first_of_length(raw, "a") == Ok(None));
}

// The end that a look-up needs next in so many bytes of `OBJECT`.
fn end_needed(at_hand: usize, name: &str) -> Option<usize> {
    let prefix = OBJECT.get(..at_hand)?;
    match find_key_in_prefix(prefix, OBJECT.len(), name) {
        Ok(Progress::Needs(end)) => Some(end),
        _ => None,
    }
}

#[test]
fn key_in_a_prefix(rt: HostRuntime) {
    for at_hand in 0..=OBJECT.len() {
        let end = match at_hand {
            0..=3 => Some(4),
            4..=19 => Some(20),
            20..=23 => Some(24),
            _ => None,
        };
        assert!(rt; end_needed(at_hand, "ab") == end, "{at_hand} bytes");
        assert!(rt; end_needed(at_hand, "zz") == end, "{at_hand} bytes");
    }
    let found = find_key_in_prefix(&OBJECT[..24], OBJECT.len(), "ab");
    let Ok(Progress::Found(entry)) = found else {
        assert!(rt; false, "not found");
        return;
    };
    assert!(rt; entry.type_code == CONTAINER_TAG && entry.start == 26 && entry.length == 10);
    let none = find_key_in_prefix(&OBJECT[..24], OBJECT.len(), "zz");
    assert!(rt; matches!(none, Ok(Progress::Absent)));
    // Of other bytes, the value runs past the end.
    let cut = find_key_in_prefix(&OBJECT[..24], OBJECT.len() - 1, "ab");
    assert!(rt; matches!(cut, Err(Error::InvalidJsonb)));
}

#[test]
fn index_in_a_prefix(rt: HostRuntime) {
    // The array [null,"ab"].
    let array = b"\x80\0\0\x02\0\0\0\0\x10\0\0\x02ab";
    let first = find_index_in_prefix(&array[..8], array.len(), 0);
    assert!(rt;
        matches!(
            first,
            Ok(Progress::Found(Entry {
                type_code: 0,
                start: 12,
                length: 0
            }))
        )
    );
    let second = find_index_in_prefix(&array[..8], array.len(), 1);
    assert!(rt; matches!(second, Ok(Progress::Needs(12))));
    let second = find_index_in_prefix(&array[..12], array.len(), 1);
    let Ok(Progress::Found(entry)) = second else {
        assert!(rt; false, "not found");
        return;
    };
    assert!(rt; entry.type_code == STRING_TAG && entry.start == 12 && entry.length == 2);
    let third = find_index_in_prefix(&array[..4], array.len(), 2);
    assert!(rt; matches!(third, Ok(Progress::Absent)));
}
