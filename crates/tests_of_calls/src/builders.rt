// The results of building from items given by value, and from documents too long for an entry.
use jsonb::{
    ArrayBuilder, ArrayDistinctBuilder, Decimal64, Error, JsonbItem, Number, NumberItem,
    OwnedJsonb, RawJsonb,
};
use std::alloc::Global;
use std::borrow::CowStr;
use std::str;
use std::test::Fail;

// The length of the text in the largest rows.
const MEBIBYTES_16: usize = 16_777_216;

// The document of the number 5.
const FIVE: &[u8] = &[0x20, 0, 0, 0, 0x20, 0, 0, 2, 0x50, 5];

// The document of the array [5].
const ARRAY_OF_FIVE: &[u8] = &[0x80, 0, 0, 1, 0x20, 0, 0, 2, 0x50, 5];

fn by_value<'a>(number: Number) -> JsonbItem<'a> {
    JsonbItem::Number(NumberItem::from_number(number))
}

// The array of one item.
fn array_of(alloc: Global, item: JsonbItem) -> Result<OwnedJsonb, Error> {
    let mut builder = ArrayBuilder::new(alloc);
    builder.push_jsonb_item(item)?;
    builder.build()
}

#[test]
fn a_number_by_value(rt: HostRuntime) -> Result<(), Fail> {
    let zero = array_of(rt.alloc(), by_value(Number::Int64(0)))?;
    assert!(rt; zero.as_bytes() == b"\x80\0\0\x01\x20\0\0\x01\0".as_slice());
    Ok(())
}

#[test]
fn a_number_as_given(rt: HostRuntime) -> Result<(), Fail> {
    let number = NumberItem::from_bytes(&[0x40, 0])?;
    let zero = array_of(rt.alloc(), JsonbItem::Number(number))?;
    assert!(rt; zero.as_bytes() == b"\x80\0\0\x01\x20\0\0\x02\x40\0".as_slice());
    Ok(())
}

const TENTHS: Number = Number::Decimal64(Decimal64 {
    scale: 1,
    value: 50,
});

// A builder that was given the number 5 in two forms.
fn five_twice(alloc: Global) -> Result<ArrayDistinctBuilder<'static>, Error> {
    let mut builder = ArrayDistinctBuilder::new(alloc, 0)?;
    builder.push_raw_jsonb(RawJsonb::new(FIVE))?;
    builder.push_jsonb_item(by_value(TENTHS))?;
    Ok(builder)
}

// Whether the number is popped twice, in two forms, and not a third time.
fn is_popped_twice(builder: &mut ArrayDistinctBuilder) -> bool {
    let first = builder.pop_jsonb_item(by_value(Number::Int64(5)));
    let second = builder.pop_raw_jsonb(RawJsonb::new(FIVE));
    let third = builder.pop_jsonb_item(by_value(TENTHS));
    (first, second, third) == (Some(()), Some(()), None)
}

#[test]
fn the_first_of_equal_items(rt: HostRuntime) -> Result<(), Fail> {
    let mut builder = five_twice(rt.alloc())?;
    assert!(rt; is_popped_twice(&mut builder));
    assert!(rt; builder.build()?.as_bytes() == ARRAY_OF_FIVE);
    Ok(())
}

// The array that borrows one text `count` times.
fn borrowings(alloc: Global, text: &str, count: usize) -> Result<OwnedJsonb, Error> {
    let mut builder = ArrayBuilder::new(alloc);
    for _ in 0..count {
        builder.push_jsonb_item(JsonbItem::String(CowStr::Borrowed(text)))?;
    }
    builder.build()
}

// The length of the array that holds this array.
fn outer_length(alloc: Global, array: OwnedJsonb) -> Result<usize, Error> {
    let outer = OwnedJsonb::build_array(alloc, [array.as_raw()])?;
    Ok(outer.len())
}

#[test]
fn arrays_too_long_for_an_entry(rt: HostRuntime) -> Result<(), Fail> {
    let letters = vec![in rt.alloc(); b'a'; MEBIBYTES_16]?;
    let text = str::from_utf8(&letters)?;
    let array = borrowings(rt.alloc(), text, 16)?;
    assert!(rt; array.len() == 268_435_524);
    assert!(rt; outer_length(rt.alloc(), array) == Err(Error::InvalidJsonb));
    let array = borrowings(rt.alloc(), text, 15)?;
    assert!(rt; outer_length(rt.alloc(), array) == Ok(251_658_312));
    Ok(())
}
