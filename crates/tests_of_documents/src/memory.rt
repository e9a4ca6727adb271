// What each allocating call leaves after a failed allocation. A test ends with the right result, or
// passes on the error once it has examined what the failure left; tools/refuse_each runs it with
// each of its allocations failing in turn.
use crate::documents::{decode_again, encoded, read_as_tree};
use jsonb::layer::append_canonical;
use jsonb::{
    ArrayBuilder, ArrayDistinctBuilder, Date, Decimal64, Decoder, Document, Encoder, Error,
    ExtensionValue, JsonAst, JsonAstEncoder, JsonbItem, Number, NumberItem, ObjectBuilder,
    OwnedJsonb, RawJsonb, Value, parse_value, sort_views, value_of,
};
use std::alloc::Global;
use std::borrow::CowStr;
use std::cmp::Ordering;
use std::fmt;
use std::process::Abort;
use std::test::Fail;
use uses::{ask, encode_and_ask};

// An array of a truth value, a number and an object.
const TEXT: &str = r#"[false,10,{"k":"v"}]"#;

const PRETTY: &str = "[\n  false,\n  10,\n  {\n    \"k\": \"v\"\n  }\n]";

const DOCUMENT: &[u8] = b"\x80\0\0\x03\x30\0\0\0\x20\0\0\x02\x50\0\0\x0e\x50\x0a\
    \x40\0\0\x01\x10\0\0\x01\x10\0\0\x01kv";

// The object {"k":"v"}.
const PAIR: &[u8] = b"\x40\0\0\x01\x10\0\0\x01\x10\0\0\x01kv";

// The document of the number 5.
const FIVE: &[u8] = b"\x20\0\0\0\x20\0\0\x02\x50\x05";

// The document of the decimal 5.0.
const FIVE_AND_TENTHS: &[u8] = b"\x20\0\0\0\x20\0\0\x0a\x70\0\0\0\0\0\0\0\x32\x01";

// The document of the string "x".
const X: &[u8] = b"\x20\0\0\0\x10\0\0\x01x";

// The array [5,"x"].
const FIVE_AND_X: &[u8] = b"\x80\0\0\x02\x20\0\0\x02\x10\0\0\x01\x50\x05x";

// Zero in its older form.
const OLD_ZERO: &[u8] = b"\x20\0\0\0\x20\0\0\x02\x40\0";

const ZERO: &[u8] = b"\x20\0\0\0\x20\0\0\x01\0";

// Ends a test with the error of a call that was repeated since.
fn hand_on(refusal: Option<Error>) -> Result<(), Error> {
    match refusal {
        Some(error) => Err(error),
        None => Ok(()),
    }
}

#[test]
fn documents_are_read(rt: HostRuntime) -> Result<(), Fail> {
    assert!(rt; read_as_tree(rt.alloc(), DOCUMENT)?.as_slice() == DOCUMENT);
    Ok(())
}

#[test]
fn documents_are_decoded(rt: HostRuntime) -> Result<(), Fail> {
    assert!(rt; decode_again(rt.alloc(), DOCUMENT)?.as_slice() == DOCUMENT);
    Ok(())
}

// The result of a decoder that is called again after an error.
fn decoded_again(alloc: Global, decoder: Decoder) -> Result<Vec<u8>, Error> {
    let mut decoder = decoder;
    encoded(alloc, &decoder.decode(alloc)?)
}

#[test]
fn a_view_is_read(rt: HostRuntime) -> Result<(), Fail> {
    let value = RawJsonb::new(DOCUMENT).to_value(rt.alloc())?;
    assert_eq!(rt; encoded(rt.alloc(), &value)?.as_slice(), DOCUMENT);
    Ok(())
}

#[test]
fn a_decoder_is_as_before(rt: HostRuntime) -> Result<(), Fail> {
    let mut decoder = Decoder::new(DOCUMENT);
    let refusal = decoder.decode(rt.alloc()).err();
    if refusal.is_some() {
        assert!(rt; decoded_again(rt.alloc(), decoder)?.as_slice() == DOCUMENT);
    }
    Ok(hand_on(refusal)?)
}

#[test]
fn texts_are_read(rt: HostRuntime) -> Result<(), Fail> {
    let owned = OwnedJsonb::parse(
        rt.alloc(),
        r#" [ false, 10, {"k":"0","\u006b":"\u0076"} ] "#,
    )?;
    assert!(rt; owned.as_bytes() == DOCUMENT);
    Ok(())
}

#[test]
fn texts_are_written(rt: HostRuntime) -> Result<(), Fail> {
    let raw = RawJsonb::new(DOCUMENT);
    assert!(rt; raw.to_string(rt.alloc())?.as_str() == TEXT);
    assert!(rt; raw.to_pretty_string(rt.alloc())?.as_str() == PRETTY);
    Ok(())
}

// A failed growth of the string is a write that fails in the middle of the text.
#[test]
fn display_hands_on_a_refused_write(rt: HostRuntime) -> Result<(), Fail> {
    let owned = OwnedJsonb::from_bytes(rt.alloc(), DOCUMENT)?;
    let mut f = fmt::Formatter::new(String::new(rt.alloc()));
    let answer = fmt::Display::fmt(&owned, &mut f);
    let text = f.into_inner();
    assert!(rt; TEXT.starts_with(text.as_str()));
    assert!(rt; answer.is_ok() == (text.len() == TEXT.len()));
    Ok(answer.map_err(|_| Error::OutOfMemory)?)
}

#[test]
fn bytes_are_copied(rt: HostRuntime) -> Result<(), Fail> {
    let owned = RawJsonb::new(DOCUMENT).to_owned(rt.alloc())?;
    assert!(rt; owned.as_bytes() == DOCUMENT);
    let copy = owned.clone(rt.alloc())?;
    assert!(rt; copy.as_bytes() == DOCUMENT);
    Ok(())
}

// The string "x" as an item that owns its text.
fn owned_x(alloc: Global) -> Result<JsonbItem<'static>, Error> {
    let text = String::from_str(alloc, "x")?;
    Ok(JsonbItem::String(CowStr::Owned(text)))
}

// The array as an item that owns its bytes.
fn owned_document(alloc: Global) -> Result<JsonbItem<'static>, Error> {
    Ok(JsonbItem::Owned(OwnedJsonb::from_bytes(alloc, DOCUMENT)?))
}

// Asserts that an item's copy equals it, and that its document has these bytes.
fn assert_item(rt: &impl Abort, alloc: Global, item: JsonbItem, bytes: &[u8]) -> Result<(), Error> {
    assert!(rt; item.clone(alloc)? == item);
    assert!(rt; OwnedJsonb::from_item(alloc, item)?.as_bytes() == bytes);
    Ok(())
}

#[test]
fn items_are_copied_and_stored(rt: HostRuntime) -> Result<(), Fail> {
    assert_item(&rt, rt.alloc(), owned_x(rt.alloc())?, X)?;
    assert_item(&rt, rt.alloc(), owned_document(rt.alloc())?, DOCUMENT)?;
    assert_item(
        &rt,
        rt.alloc(),
        JsonbItem::Raw(RawJsonb::new(DOCUMENT)),
        DOCUMENT,
    )?;
    let five = NumberItem::from_number(Number::UInt64(5));
    Ok(assert_item(&rt, rt.alloc(), JsonbItem::Number(five), FIVE)?)
}

#[test]
fn a_text_is_copied(rt: HostRuntime) -> Result<(), Fail> {
    let text = owned_x(rt.alloc())?.as_str(rt.alloc())?;
    assert!(rt; matches!(&text, Some(text) if text.as_str() == "x"));
    Ok(())
}

#[test]
fn arrays_are_put_together(rt: HostRuntime) -> Result<(), Fail> {
    let inputs = [RawJsonb::new(FIVE), RawJsonb::new(X)];
    assert!(rt; OwnedJsonb::build_array(rt.alloc(), inputs)?.as_bytes() == FIVE_AND_X);
    Ok(())
}

// Refused memory for an input does not hide a later one that is not a document.
#[test]
fn a_faulty_input_is_refused(rt: HostRuntime) -> Result<(), Fail> {
    let inputs = [
        RawJsonb::new(FIVE),
        RawJsonb::new(b"\x01\x02\x03\x04"),
        RawJsonb::new(X),
    ];
    let array = OwnedJsonb::build_array(rt.alloc(), inputs);
    assert!(rt; matches!(array, Err(Error::InvalidJsonb)));
    Ok(())
}

// The object {"a":5,"b":"x"}.
const OBJECT: &[u8] = b"\x40\0\0\x02\x10\0\0\x01\x10\0\0\x01\x20\0\0\x02\x10\0\0\x01ab\x50\x05x";

#[test]
fn objects_are_put_together(rt: HostRuntime) -> Result<(), Fail> {
    let inputs = [("b", RawJsonb::new(X)), ("a", RawJsonb::new(FIVE))];
    assert!(rt; OwnedJsonb::build_object(rt.alloc(), inputs)?.as_bytes() == OBJECT);
    Ok(())
}

#[test]
fn arrays_of_checked_documents(rt: HostRuntime) -> Result<(), Fail> {
    let (Some(five), Some(x)) = (Document::new(FIVE), Document::new(X)) else {
        return Err(Fail::from(Error::InvalidJsonb));
    };
    let array = OwnedJsonb::build_array_of_documents(rt.alloc(), [five, x])?;
    assert!(rt; array.as_bytes() == FIVE_AND_X);
    Ok(())
}

#[test]
fn objects_of_checked_documents(rt: HostRuntime) -> Result<(), Fail> {
    let (Some(five), Some(x)) = (Document::new(FIVE), Document::new(X)) else {
        return Err(Fail::from(Error::InvalidJsonb));
    };
    let object = OwnedJsonb::build_object_of_documents(rt.alloc(), [("b", x), ("a", five)])?;
    assert!(rt; object.as_bytes() == OBJECT);
    let twice = OwnedJsonb::build_object_of_documents(rt.alloc(), [("a", x), ("a", five)]);
    if twice == Err(Error::OutOfMemory) {
        return Ok(hand_on(twice.err())?);
    }
    assert!(rt; twice == Err(Error::ObjectDuplicateKey));
    Ok(())
}

// Numbers come before strings, strings before objects, and other bytes after all documents; 5.0 and
// 5 are equal and keep their order. Refused memory leaves the views as they were.
#[test]
fn views_are_sorted(rt: HostRuntime) -> Result<(), Fail> {
    let given = [b"?".as_slice(), X, FIVE_AND_TENTHS, FIVE, b"!", PAIR, X];
    let sorted = [FIVE_AND_TENTHS, FIVE, X, X, PAIR, b"!", b"?"];
    let mut views = given.map(RawJsonb::new);
    let refusal = sort_views(rt.alloc(), &mut views).err();
    let wanted = if refusal.is_some() { given } else { sorted };
    for (view, bytes) in views.iter().zip(wanted) {
        assert!(rt; view.as_bytes() == bytes);
    }
    Ok(hand_on(refusal)?)
}

#[test]
fn old_data_is_rewritten(rt: HostRuntime) -> Result<(), Fail> {
    assert!(rt; RawJsonb::new(OLD_ZERO).to_canonical(rt.alloc())?.as_bytes() == ZERO);
    Ok(())
}

#[test]
fn a_document_is_asked(rt: HostRuntime) -> Result<(), Fail> {
    let value = parse_value(rt.alloc(), TEXT)?;
    let mut bytes = Vec::new(rt.alloc());
    let answers = encode_and_ask(rt.alloc(), &value, "k", RawJsonb::new(FIVE), &mut bytes)?;
    assert!(rt; answers.text.as_str() == TEXT && answers.pretty.as_str() == PRETTY);
    assert!(rt;
        answers.document_order == Some(Ordering::Greater) && answers.order == Ordering::Greater
    );
    assert!(rt; answers.items.map(|items| items.len()) == Some(3));
    assert!(rt; answers.keys.is_none() && answers.values.is_none());
    assert!(rt; answers.pairs.is_none() && answers.found.is_none());
    Ok(())
}

#[test]
fn an_object_is_asked(rt: HostRuntime) -> Result<(), Fail> {
    let answers = ask(rt.alloc(), RawJsonb::new(PAIR), "k", RawJsonb::new(X))?;
    assert!(rt; answers.items.is_none());
    assert!(rt; answers.keys.map(|keys| keys.len()) == Some(1));
    assert!(rt; answers.values.map(|values| values.len()) == Some(1));
    assert!(rt; answers.pairs.map(|pairs| pairs.len()) == Some(1));
    assert!(rt; answers.found == Some(JsonbItem::String(CowStr::Borrowed("v"))));
    Ok(())
}

// What is appended to a buffer.
#[derive(Drop)]
enum Piece {
    Number(Number),
    Extension(ExtensionValue<'static>),
    Value(Value<'static>),
    Lists(JsonAst<'static>),
    OldDocument(&'static [u8]),
}

impl Piece {
    fn append_to(&self, buffer: &mut Vec<u8>) -> Result<(), Error> {
        match self {
            Piece::Number(number) => number.compact_encode(buffer).map(|_| ()),
            Piece::Extension(value) => value.compact_encode(buffer).map(|_| ()),
            Piece::Value(value) => Encoder::new(buffer).encode(value),
            Piece::Lists(value) if value.has_ascending_keys() => {
                JsonAstEncoder::new(buffer).encode(value)
            }
            Piece::Lists(_) => Err(Error::InvalidJsonb),
            Piece::OldDocument(bytes) => append_canonical(buffer, bytes),
        }
    }
}

// Asserts that a failure leaves the buffer unchanged, and that otherwise these bytes are appended.
fn assert_appended(
    rt: &impl Abort,
    alloc: Global,
    piece: Piece,
    bytes: &[u8],
) -> Result<(), Error> {
    let mut buffer = vec![in alloc; 0xaa]?;
    let refusal = piece.append_to(&mut buffer).err();
    if refusal.is_some() {
        assert!(rt; buffer.as_slice() == b"\xaa".as_slice());
        piece.append_to(&mut buffer)?;
    }
    assert!(rt; matches!(buffer.split_first(), Some((0xaa, later)) if later == bytes));
    hand_on(refusal)
}

#[test]
fn a_payload_leaves_its_buffer(rt: HostRuntime) -> Result<(), Fail> {
    let number = Number::Decimal64(Decimal64 {
        scale: 2,
        value: 1234,
    });
    let payload = b"\x70\0\0\0\0\0\0\x04\xd2\x02";
    Ok(assert_appended(&rt, rt.alloc(), Piece::Number(number), payload)?)
}

#[test]
fn an_extension_payload_leaves_its_buffer(rt: HostRuntime) -> Result<(), Fail> {
    let date = ExtensionValue::Date(Date { value: -1 });
    Ok(assert_appended(
        &rt,
        rt.alloc(),
        Piece::Extension(date),
        b"\x10\xff\xff\xff\xff",
    )?)
}

#[test]
fn an_encoder_leaves_its_buffer(rt: HostRuntime) -> Result<(), Fail> {
    let value = parse_value(rt.alloc(), TEXT)?;
    Ok(assert_appended(&rt, rt.alloc(), Piece::Value(value), DOCUMENT)?)
}

// The array of the text as a parsed list of pairs.
fn ast(alloc: Global) -> Result<JsonAst<'static>, Error> {
    let text = JsonAst::String(CowStr::Borrowed("v"));
    let pairs = vec![in alloc; (CowStr::Borrowed("k"), text, 0)]?;
    let number = JsonAst::Number(Number::UInt64(10));
    let items = vec![in alloc; JsonAst::Bool(false), number, JsonAst::Object(pairs)]?;
    Ok(JsonAst::Array(items))
}

#[test]
fn an_encoder_of_lists_leaves_its_buffer(rt: HostRuntime) -> Result<(), Fail> {
    let value = ast(rt.alloc())?;
    Ok(assert_appended(&rt, rt.alloc(), Piece::Lists(value), DOCUMENT)?)
}

#[test]
fn a_canonical_form_leaves_its_buffer(rt: HostRuntime) -> Result<(), Fail> {
    Ok(assert_appended(&rt, rt.alloc(), Piece::OldDocument(OLD_ZERO), ZERO)?)
}

// The form in which the string "x" is given to a builder.
#[derive(Clone, Copy)]
enum As {
    Item,
    Raw,
    Owned,
}

fn push_to_array(alloc: Global, builder: &mut ArrayBuilder, x: As) -> Result<(), Error> {
    match x {
        As::Item => builder.push_jsonb_item(owned_x(alloc)?),
        As::Raw => builder.push_raw_jsonb(RawJsonb::new(X)),
        As::Owned => builder.push_owned_jsonb(OwnedJsonb::from_bytes(alloc, X)?),
    }
}

// Asserts that a failed push leaves a builder unchanged whose list was full.
fn assert_array(rt: &impl Abort, alloc: Global, x: As) -> Result<(), Error> {
    let mut builder = ArrayBuilder::with_capacity(alloc, 1)?;
    builder.push_raw_jsonb(RawJsonb::new(FIVE))?;
    let refusal = push_to_array(alloc, &mut builder, x).err();
    if refusal.is_some() {
        push_to_array(alloc, &mut builder, x)?;
    }
    assert!(rt; builder.build()?.as_bytes() == FIVE_AND_X);
    hand_on(refusal)
}

#[test]
fn an_array_builder_is_as_before(rt: HostRuntime) -> Result<(), Fail> {
    Ok(assert_array(&rt, rt.alloc(), As::Item)?)
}

#[test]
fn an_array_builder_is_as_before_bytes(rt: HostRuntime) -> Result<(), Fail> {
    Ok(assert_array(&rt, rt.alloc(), As::Raw)?)
}

#[test]
fn an_array_builder_is_as_before_a_document(rt: HostRuntime) -> Result<(), Fail> {
    Ok(assert_array(&rt, rt.alloc(), As::Owned)?)
}

// More pairs than fit one leaf of a map.
const KEYS: &[&str] = &[
    "a", "b", "c", "d", "e", "f", "g", "h", "i", "j", "k", "l", "m", "n", "o", "p",
];

const PAIRS: &str = "{\"a\":\"x\",\"b\":\"x\",\"c\":\"x\",\"d\":\"x\",\"e\":\"x\",\"f\":\"x\",\
    \"g\":\"x\",\"h\":\"x\",\"i\":\"x\",\"j\":\"x\",\"k\":\"x\",\"l\":\"x\",\
    \"m\":\"x\",\"n\":\"x\",\"o\":\"x\",\"p\":\"x\"}";

fn push_to_object<'a>(
    alloc: Global,
    builder: &mut ObjectBuilder<'a>,
    key: &'a str,
    x: As,
) -> Result<(), Error> {
    match x {
        As::Item => builder.push_jsonb_item(key, owned_x(alloc)?),
        As::Raw => builder.push_raw_jsonb(key, RawJsonb::new(X)),
        As::Owned => builder.push_owned_jsonb(key, OwnedJsonb::from_bytes(alloc, X)?),
    }
}

// Asserts that a failed push leaves a builder unchanged.
fn assert_object(rt: &impl Abort, alloc: Global, x: As) -> Result<(), Error> {
    let mut builder = ObjectBuilder::new(alloc);
    let mut refusal = None;
    for &key in KEYS {
        if let Err(error) = push_to_object(alloc, &mut builder, key, x) {
            assert!(rt; !builder.contains_key(key));
            push_to_object(alloc, &mut builder, key, x)?;
            refusal = Some(error);
        }
        assert!(rt; builder.contains_key(key));
    }
    assert!(rt; builder.build()?.as_raw().to_string(alloc)?.as_str() == PAIRS);
    hand_on(refusal)
}

#[test]
fn an_object_builder_is_as_before_items(rt: HostRuntime) -> Result<(), Fail> {
    Ok(assert_object(&rt, rt.alloc(), As::Item)?)
}

#[test]
fn an_object_builder_is_as_before(rt: HostRuntime) -> Result<(), Fail> {
    Ok(assert_object(&rt, rt.alloc(), As::Raw)?)
}

#[test]
fn an_object_builder_is_as_before_a_document(rt: HostRuntime) -> Result<(), Fail> {
    Ok(assert_object(&rt, rt.alloc(), As::Owned)?)
}

fn push_to_set(alloc: Global, builder: &mut ArrayDistinctBuilder, x: As) -> Result<(), Error> {
    match x {
        As::Item => builder.push_jsonb_item(owned_x(alloc)?),
        As::Raw | As::Owned => builder.push_raw_jsonb(RawJsonb::new(X)),
    }
}

// Asserts that a failed push leaves a builder unchanged, and that the next one succeeds.
fn assert_set(rt: &impl Abort, alloc: Global, x: As) -> Result<(), Error> {
    let mut builder = ArrayDistinctBuilder::new(alloc, 1)?;
    builder.push_raw_jsonb(RawJsonb::new(FIVE))?;
    let refusal = push_to_set(alloc, &mut builder, x).err();
    if refusal.is_some() {
        assert!(rt; builder.pop_raw_jsonb(RawJsonb::new(X)) == None);
        push_to_set(alloc, &mut builder, x)?;
    }
    assert!(rt; builder.pop_raw_jsonb(RawJsonb::new(X)) == Some(()));
    assert!(rt; builder.pop_raw_jsonb(RawJsonb::new(X)) == None);
    assert!(rt; builder.pop_raw_jsonb(RawJsonb::new(FIVE)) == Some(()));
    assert!(rt; builder.build()?.as_bytes() == FIVE_AND_X);
    hand_on(refusal)
}

#[test]
fn a_distinct_builder_takes_a_second_push(rt: HostRuntime) -> Result<(), Fail> {
    Ok(assert_set(&rt, rt.alloc(), As::Item)?)
}

#[test]
fn a_distinct_builder_takes_a_second_push_of_bytes(rt: HostRuntime) -> Result<(), Fail> {
    Ok(assert_set(&rt, rt.alloc(), As::Raw)?)
}

// Bytes that are not a document.
const OTHER: &[u8] = &[1, 2, 3, 4];

// A document followed by another byte.
const TOO_LONG: &[u8] = b"\x20\0\0\0\x20\0\0\x01\0\xff";

// The error of building an array of these bytes.
fn array_refusal(alloc: Global, bytes: &[u8]) -> Result<Option<Error>, Error> {
    let mut builder = ArrayBuilder::with_capacity(alloc, 1)?;
    builder.push_raw_jsonb(RawJsonb::new(bytes))?;
    Ok(builder.build().err())
}

// The error of building an object of these bytes.
fn object_refusal(alloc: Global, bytes: &[u8]) -> Result<Option<Error>, Error> {
    let mut builder = ObjectBuilder::new(alloc);
    builder.push_owned_jsonb("k", OwnedJsonb::from_bytes(alloc, bytes)?)?;
    Ok(builder.build().err())
}

// A value beyond a limit of the format is refused before any allocation: otherwise a run with that
// allocation failing would end in another error.
#[test]
fn limits_come_before_memory(rt: HostRuntime) -> Result<(), Fail> {
    let refusal = Some(Error::InvalidJsonb);
    assert!(rt; value_of(rt.alloc(), OTHER).err() == refusal);
    assert!(rt; value_of(rt.alloc(), b"\x9f\xff\xff\xff").err() == Some(Error::InvalidEOF));
    assert!(rt; RawJsonb::new(OTHER).to_canonical(rt.alloc()).err() == refusal);
    assert!(rt; array_refusal(rt.alloc(), OTHER)? == refusal);
    assert!(rt; object_refusal(rt.alloc(), TOO_LONG)? == refusal);
    Ok(())
}

// These two tests differ by one encoding, so that its allocations are counted: there is at most
// one.
#[test]
fn counted_without_an_encoding(rt: HostRuntime) -> Result<(), Fail> {
    parse_value(rt.alloc(), TEXT)?;
    Ok(())
}

#[test]
fn counted_with_an_encoding(rt: HostRuntime) -> Result<(), Fail> {
    let value = parse_value(rt.alloc(), TEXT)?;
    assert!(rt; encoded(rt.alloc(), &value)?.as_slice() == DOCUMENT);
    Ok(())
}
