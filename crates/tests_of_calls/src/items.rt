// Items given by value, their copies, and the views of an item.
use jsonb::{
    Error, ExtensionItem, ExtensionValue, JsonbItem, JsonbItemType, Number, NumberItem, OwnedJsonb,
    RawJsonb,
};
use std::alloc::Global;
use std::borrow::CowStr;
use std::process::Abort;
use std::test::Fail;

// The object {"a":1}.
const OBJECT: &[u8] = b"\x40\0\0\x01\x10\0\0\x01\x20\0\0\x02a\x50\x01";

// Asserts that an item, a copy of it and its document are stored as these bytes.
fn assert_stored(
    rt: &impl Abort,
    alloc: Global,
    item: JsonbItem,
    bytes: &[u8],
) -> Result<(), Fail> {
    let copy = OwnedJsonb::from_item(alloc, item.clone(alloc)?)?;
    assert!(rt; copy.as_bytes() == bytes);
    let document = OwnedJsonb::from_item(alloc, item)?;
    assert!(rt; document.as_bytes() == bytes);
    let again = OwnedJsonb::from_item(alloc, JsonbItem::Owned(document))?;
    assert!(rt; again.to_vec().as_slice() == bytes);
    Ok(())
}

#[test]
fn a_number_by_value(rt: HostRuntime) -> Result<(), Fail> {
    let minus = NumberItem::from_number(Number::Int64(-100));
    assert!(rt; minus.as_number() == Number::Int64(-100) && minus.as_bytes().is_none());
    let given = NumberItem::from_bytes(&[0x40, 0x9c])?;
    assert!(rt; given.as_bytes() == Some(&[0x40, 0x9c][..]));
    let document = b"\x20\0\0\0\x20\0\0\x02\x40\x9c";
    assert_stored(&rt, rt.alloc(), JsonbItem::Number(minus), document)
}

#[test]
fn an_extension_value_by_value(rt: HostRuntime) -> Result<(), Fail> {
    let binary = ExtensionItem::from_value(ExtensionValue::Binary(&[1, 2, 3]));
    assert!(rt; binary.as_extension_value() == ExtensionValue::Binary(&[1, 2, 3]));
    let document = b"\x20\0\0\0\x60\0\0\x04\0\x01\x02\x03";
    assert_stored(&rt, rt.alloc(), JsonbItem::Extension(binary), document)
}

#[test]
fn bytes_that_are_no_document(rt: HostRuntime) -> Result<(), Fail> {
    let raw = RawJsonb::new(&[1, 2]);
    assert_stored(&rt, rt.alloc(), JsonbItem::Raw(raw), &[1, 2])
}

fn has_text(alloc: Global, item: &JsonbItem) -> Result<bool, Error> {
    Ok(item.as_str(alloc)?.is_some())
}

#[test]
fn views_of_items(rt: HostRuntime) -> Result<(), Fail> {
    let item = JsonbItem::Raw(RawJsonb::from(OBJECT));
    assert!(rt; item.as_raw_jsonb().is_some() && item.as_null().is_none());
    assert!(rt; JsonbItem::Null.as_null().is_some());
    let string = JsonbItem::String(CowStr::Borrowed("a"));
    assert!(rt; has_text(rt.alloc(), &string)? && !has_text(rt.alloc(), &item)?);
    Ok(())
}

#[test]
fn copies_of_documents(rt: HostRuntime) -> Result<(), Fail> {
    let owned = RawJsonb::new(OBJECT).to_owned(rt.alloc())?;
    assert_eq!(rt; (owned.len(), owned.is_empty()), (15, false));
    let kept = JsonbItem::Owned(OwnedJsonb::from(owned.to_vec()));
    assert_eq!(rt; kept.jsonb_item_type()?, JsonbItemType::Object(1));
    Ok(())
}
