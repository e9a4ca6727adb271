// Calls that allocate nothing: tools/refuse_each checks that these tests make no allocation.
use crate::comparable::{BYTES_KEY, KEY, NESTED};
use jsonb::{
    ArrayIterator, Document, Encoder, Error, ExtensionItem, JsonbItem, JsonbItemType, Node, Number,
    NumberItem, ObjectIterator, ObjectKeyIterator, ObjectValueIterator, RawJsonb, Reads, SortKey,
    Value, is_canonical, is_document, is_document_within, nests_deeper, read_header, read_jentry,
};
use jsonb_comparable::key_len;
use jsonb_functions::{Step, contains, contains_within, exists, get_path};
use std::borrow::CowStr;
use std::cmp::Ordering;

// The object {"a":1,"b":"123"}.
const OBJECT: &[u8] = b"\x40\0\0\x02\x10\0\0\x01\x10\0\0\x01\x20\0\0\x02\x10\0\0\x03ab\x50\x01123";

// The array [5].
const ARRAY: &[u8] = b"\x80\0\0\x01\x20\0\0\x02\x50\x05";

// The string "a".
const STRING: &[u8] = b"\x20\0\0\0\x10\0\0\x01a";

fn is_number(item: &JsonbItem, value: u64) -> bool {
    matches!(item, JsonbItem::Number(number) if number.as_number() == Number::UInt64(value))
}

// Whether an item borrows this text.
fn is_string(item: &JsonbItem, content: &str) -> bool {
    matches!(item, JsonbItem::String(CowStr::Borrowed(text)) if *text == content)
}

#[test]
fn pairs_are_walked(rt: HostRuntime) {
    let Ok(Some(mut pairs)) = ObjectIterator::new(RawJsonb::new(OBJECT)) else {
        return assert!(rt; false);
    };
    assert!(rt; matches!(pairs.next(), Some(Ok(("a", value))) if is_number(&value, 1)));
    assert!(rt; matches!(pairs.next(), Some(Ok(("b", value))) if is_string(&value, "123")));
    assert!(rt; pairs.next().is_none());
}

#[test]
fn items_are_walked(rt: HostRuntime) {
    let Ok(Some(mut items)) = ArrayIterator::new(RawJsonb::new(ARRAY)) else {
        return assert!(rt; false);
    };
    assert!(rt; matches!(items.next(), Some(Ok(item)) if is_number(&item, 5)));
    assert_eq!(rt; items.len(), 1);
}

#[test]
fn keys_are_walked(rt: HostRuntime) {
    let Ok(Some(mut keys)) = ObjectKeyIterator::new(RawJsonb::new(OBJECT)) else {
        return assert!(rt; false);
    };
    assert!(rt; matches!(keys.next(), Some(Ok(key)) if is_string(&key, "a")));
}

#[test]
fn values_are_walked(rt: HostRuntime) {
    let Ok(Some(mut values)) = ObjectValueIterator::new(RawJsonb::new(OBJECT)) else {
        return assert!(rt; false);
    };
    assert!(rt; matches!(values.next(), Some(Ok(value)) if is_number(&value, 1)));
}

#[test]
fn an_object_is_equal_to_itself(rt: HostRuntime) {
    let raw = RawJsonb::new(OBJECT);
    assert!(rt; raw.cmp(&raw) == Ordering::Equal);
    assert!(rt; raw.try_cmp(&raw) == Some(Ordering::Equal));
    assert!(rt; raw.try_cmp(&RawJsonb::new(b"")) == None);
    assert!(rt; JsonbItem::Raw(raw).cmp(&JsonbItem::Raw(raw)) == Ordering::Equal);
}

#[test]
fn documents_are_checked(rt: HostRuntime) {
    let raw = RawJsonb::new(OBJECT);
    assert!(rt; is_document(OBJECT) && is_canonical(OBJECT));
    assert!(rt; is_document_within(OBJECT, 1) && !is_document_within(OBJECT, 0));
    assert!(rt; nests_deeper(OBJECT, 0) && !nests_deeper(OBJECT, 1));
    let kind = Ok(JsonbItemType::Object(2));
    assert!(rt; raw.jsonb_item_type() == kind && JsonbItem::Raw(raw).jsonb_item_type() == kind);
}

#[test]
fn items_are_read(rt: HostRuntime) {
    let object = JsonbItem::from_raw_jsonb(RawJsonb::new(OBJECT));
    assert!(rt; matches!(&object, Ok(JsonbItem::Raw(raw)) if raw.as_bytes() == OBJECT));
    let string = JsonbItem::from_raw_jsonb(RawJsonb::new(STRING));
    assert!(rt; matches!(&string, Ok(item) if is_string(item, "a")));
}

#[test]
fn parts_are_read(rt: HostRuntime) {
    assert!(rt; matches!(read_header(OBJECT, 0), Ok((_, 2))));
    assert!(rt; matches!(read_jentry(OBJECT, 4), Ok(entry) if entry.encoded() == 0x1000_0001));
    let five = NumberItem::from_bytes(&[0x50, 5]);
    assert!(rt; matches!(five, Ok(item) if item.as_number() == Number::UInt64(5)));
    assert!(rt;
        NumberItem::from_bytes(&[]).is_err() && ExtensionItem::from_bytes(&[0x10, 1]).is_err()
    );
}

#[test]
fn a_key_is_looked_up(rt: HostRuntime) {
    let mut reads = Reads::new();
    let found = RawJsonb::new(OBJECT).get_object_value_by_key_name_counted(
        "b",
        |wanted, key| wanted == key,
        &mut reads,
    );
    assert!(rt; matches!(&found, Ok(Some(value)) if is_string(value, "123")));
    assert_eq!(rt; reads.count(), 5);
}

#[test]
fn words_past_the_end_are_not_counted(rt: HostRuntime) {
    let mut reads = Reads::new();
    assert!(rt; reads.word(OBJECT, 0) == Ok(0x4000_0002));
    assert!(rt; reads.word(OBJECT, 24) == Err(Error::InvalidEOF));
    assert!(rt; reads.word(OBJECT, usize::MAX) == Err(Error::InvalidEOF));
    assert_eq!(rt; reads.count(), 1);
}

#[test]
fn values_are_measured(rt: HostRuntime) {
    assert!(rt; Encoder::measure(&Value::Null) == Ok(8));
    assert!(rt; Encoder::measure(&Value::Number(Number::UInt64(5))) == Ok(10));
    assert_eq!(rt; Number::UInt64(5).compact_len(), 2);
}

#[test]
fn keys_are_measured(rt: HostRuntime) {
    assert!(rt; key_len(SortKey::new(NESTED)) == KEY.len());
    assert!(rt; key_len(SortKey::within(NESTED, 1)) == BYTES_KEY.len());
    assert!(rt; key_len(SortKey::within(NESTED, 2)) == KEY.len());
}

#[test]
fn keys_are_compared(rt: HostRuntime) {
    let document = SortKey::new(NESTED);
    let deep = SortKey::within(NESTED, 1);
    assert!(rt; document == SortKey::within(NESTED, 2) && document < deep);
    assert!(rt; deep.partial_cmp(&SortKey::Other(NESTED)) == Some(Ordering::Equal));
    assert!(rt; deep > SortKey::new(&NESTED[1..]) && deep.as_bytes() == NESTED);
}

#[test]
fn documents_are_asked(rt: HostRuntime) {
    let Some(document) = Document::new(OBJECT) else {
        return assert!(rt; false);
    };
    assert!(rt; contains(rt.alloc(), document, document) == Ok(true) && exists(document, "b"));
    assert!(rt; contains_within(rt.alloc(), document, document, 25) == Ok(Some(true)));
    assert!(rt; contains_within(rt.alloc(), document, document, 0) == Ok(None));
    let path = [Step::Key("a")];
    let one = NumberItem::from_number(Number::UInt64(1));
    assert!(rt; get_path(document, &path) == Some(Node::Number(one)));
}
