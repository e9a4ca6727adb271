//! Decoding documents into values: the bytes are checked first, then built without any error but
//! `OutOfMemory`.

ghost use Rattle.std.specs.Prelude.{◌≡◌, ◌≢◌, ◌⊎◌, ◌++◌, ◌∷◌, [], string_cmp, IfOk, IfErr, OnOk};
ghost use Rattle.std.specs.Prelude.{OnErr};
ghost use Rattle.jsonb_codec.specs.Words.{insert_entry, Value, extension_of, Tree, Trees, Pairs};
ghost use Rattle.jsonb_codec.specs.Words.{extension, tree_of, items_view, pairs_view, Doc};
ghost use Rattle.jsonb_codec.specs.Words.{IsFaultOf};
ghost use Rattle.jsonb_codec.specs.Words.{IsDocument, IsTreeFault, IsDecoderFault, PartMeans};
ghost use Rattle.jsonb_codec.specs.Words.{bytes_of};
ghost use Rattle.jsonb_codec.specs.Words.{AreChildren, AreMembers};

use crate::constants::{CONTAINER_TAG, FALSE_TAG, NULL_TAG, NUMBER_TAG, STRING_TAG, TRUE_TAG};
use crate::document::{DocumentBytes, FaultTable, check};
use crate::parts::{Children, Contents, Members, Part};
use jsonb_value::layer::LEAF_PAIRS;
use jsonb_value::{Error, ExtensionValue, Number, Object, Value};
use std::alloc::Global;
use std::borrow::CowStr;
use std::collections::BTreeMap;

/// Decodes a document. Strings and extension data in the value are borrowed from the bytes.
///
/// If the bytes are not a document, the error names their first fault and nothing was allocated:
/// `InvalidEOF`, `InvalidJsonb`, `InvalidJsonbNumber`, `InvalidJsonbExtension` or `InvalidUtf8`.
/// `OutOfMemory` occurs only for a document.
pub fn value_of<'a>(alloc: Global, bytes: &'a [u8]) -> Result<Value<'a>, Error>
    ensures ok { IfOk result (λ v. Doc bytes.now (tree_of v)) }
    ensures one_tree { IfOk result (λ v. (t : Tree) → Doc bytes.now t → tree_of v ≡ t) }
    ensures fault { IfErr result
        (λ e. (e ≡ Error.OutOfMemory) ⊎ (IsTreeFault e × (IsDocument bytes.now → ⊥))) }
    ensures memory { IfErr result (λ e. e ≡ Error.OutOfMemory → IsDocument bytes.now) }
{
    read(alloc, FaultTable::Tree, bytes)
}

/// Decodes the document that its bytes are, once; after that it has no bytes left.
#[derive(Drop)]
pub struct Decoder<'a> {
    bytes: &'a [u8],
}

impl<'a> Decoder<'a> {
    ghost use Rattle.jsonb_codec.specs.Words.{input_of};

    /// A decoder over these bytes.
    pub fn new(buf: &'a [u8]) -> Decoder<'a>
        ensures { input_of result ≡ buf.now }
    {
        Decoder { bytes: buf }
    }

    /// Decodes the bytes, after which the decoder has none left. After an error the decoder is
    /// unchanged. Strings and extension data in the value are borrowed from the bytes.
    ///
    /// If the bytes are not a document, the error names their first fault and nothing was
    /// allocated: `InvalidEOF`, `InvalidJsonb`, `InvalidJsonbHeader`, `InvalidJsonbJEntry`,
    /// `InvalidJsonbNumber`, `InvalidJsonbExtension` or `InvalidUtf8`. `OutOfMemory` occurs only
    /// for a document.
    pub fn decode(&mut self, alloc: Global) -> Result<Value<'a>, Error>
        ensures ok { IfOk result (λ v. Doc (input_of self.old) (tree_of v)) }
        ensures one_tree { IfOk result
            (λ v. (t : Tree) → Doc (input_of self.old) t → tree_of v ≡ t) }
        ensures spent { OnOk result (input_of self.new ≡ []) }
        ensures fault { IfErr result
            (λ e. (e ≡ Error.OutOfMemory)
            ⊎ (IsDecoderFault e × (IsDocument (input_of self.old) → ⊥))) }
        ensures memory { IfErr result
            (λ e. e ≡ Error.OutOfMemory → IsDocument (input_of self.old)) }
        ensures kept { OnErr result (self.new ≡ self.old) }
    {
        let value = read(alloc, FaultTable::Decoder, self.bytes)?;
        self.bytes = &[];
        Ok(value)
    }
}

// Decodes a document, or returns the first fault as this table names it.
fn read<'a>(alloc: Global, faults: FaultTable, bytes: &'a [u8]) -> Result<Value<'a>, Error>
    ensures ok { IfOk result (λ v. Doc bytes.now (tree_of v)) }
    ensures one_tree { IfOk result (λ v. (t : Tree) → Doc bytes.now t → tree_of v ≡ t) }
    ensures fault { IfErr result
        (λ e. (e ≡ Error.OutOfMemory) ⊎ (IsFaultOf faults e × (IsDocument bytes.now → ⊥))) }
    ensures memory { IfErr result (λ e. e ≡ Error.OutOfMemory → IsDocument bytes.now) }
{
    match check(bytes.len(), bytes) {
        Ok(document) => value_of_document(alloc, document),
        Err(fault) => Err(faults.error_of(fault)),
    }
}

/// Decodes a checked document. Strings and extension data in the value are borrowed from the bytes.
/// `OutOfMemory` is the only error.
pub fn value_of_document<'a>(alloc: Global, document: DocumentBytes<'a>) -> Result<Value<'a>, Error>
    ensures ok { IfOk result (λ v. (t : Tree) → Doc (bytes_of document.entry) t → tree_of v ≡ t) }
    ensures memory { IfErr result (λ e. e ≡ Error.OutOfMemory) }
{
    let whole = document.part();
    if whole.type_code == CONTAINER_TAG {
        build_container(alloc, whole)
    } else {
        Ok(build_scalar(whole))
    }
}

// Appends the value of a part. Containers, strings and numbers are pushed separately, since moving
// a value is costly.
#[cycle(value)]
#[inline(always)]
fn push_part<'a>(alloc: Global, items: &mut Vec<Value<'a>>, part: Part<'a>) -> Result<(), Error>
    ensures ok { OnOk result ((v : Value) × ((items.new.items ≡ items.old.items ++ v ∷ [])
        × ((t : Tree) → PartMeans part.entry t → tree_of v ≡ t))) }
    ensures memory { IfErr result (λ e. e ≡ Error.OutOfMemory) }
{
    match part.type_code {
        CONTAINER_TAG => items.push(build_container(alloc, part)?)?,
        STRING_TAG => items.push(Value::String(CowStr::Borrowed(part.text())))?,
        NUMBER_TAG => push_number(items, part.number())?,
        _ => items.push(build_scalar(part))?,
    }
    Ok(())
}

// Appends a number. Each kind of integer is pushed separately, so that only its own bytes are read.
#[inline(always)]
fn push_number<'a>(items: &mut Vec<Value<'a>>, number: Number) -> Result<(), Error>
    ensures ok { OnOk result (items.new.items ≡ items.old.items ++ Value.Number number ∷ []) }
    ensures memory { IfErr result (λ e. e ≡ Error.OutOfMemory) }
{
    match number {
        Number::UInt64(value) => items.push(Value::Number(Number::UInt64(value)))?,
        Number::Int64(value) => items.push(Value::Number(Number::Int64(value)))?,
        decimal => items.push(Value::Number(decimal))?,
    }
    Ok(())
}

// Inserts the value of a part under the key.
#[cycle(value)]
#[inline(always)]
fn insert_part<'a>(
    alloc: Global,
    members: &mut Object<'a>,
    key: String,
    part: Part<'a>,
) -> Result<(), Error>
    ensures ok { OnOk result ((v : Value)
        × ((members.new.entries ≡ insert_entry string_cmp members.old.entries key v)
        × ((t : Tree) → PartMeans part.entry t → tree_of v ≡ t))) }
    ensures memory { IfErr result (λ e. e ≡ Error.OutOfMemory) }
{
    let value = if part.type_code == CONTAINER_TAG {
        build_container(alloc, part)?
    } else {
        build_scalar(part)
    };
    insert_member(members, key, value)
}

// Appends the key with the value of a part.
#[cycle(value)]
#[inline(always)]
fn push_pair<'a>(
    alloc: Global,
    pairs: &mut Vec<(String, Value<'a>)>,
    key: String,
    part: Part<'a>,
) -> Result<(), Error>
    ensures ok { OnOk result ((v : Value)
        × ((pairs.new.items ≡ pairs.old.items ++ (key, v) ∷ [])
        × ((t : Tree) → PartMeans part.entry t → tree_of v ≡ t))) }
    ensures memory { IfErr result (λ e. e ≡ Error.OutOfMemory) }
{
    let value = if part.type_code == CONTAINER_TAG {
        build_container(alloc, part)?
    } else {
        build_scalar(part)
    };
    pairs.push((key, value))?;
    Ok(())
}

// Inserts the value under the key. A function of its own, so that its stack frame is released
// before nested values are built.
#[inline(never)]
fn insert_member<'a>(members: &mut Object<'a>, key: String, value: Value<'a>) -> Result<(), Error>
    ensures ok { OnOk result
        (members.new.entries ≡ insert_entry string_cmp members.old.entries key value.entry) }
    ensures memory { IfErr result (λ e. e ≡ Error.OutOfMemory) }
{
    drop(members.insert(key, value)?);
    Ok(())
}

// Builds an array or object.
#[cycle(value)]
fn build_container<'a>(alloc: Global, part: Part<'a>) -> Result<Value<'a>, Error>
    requires { part.type_code ≡ CONTAINER_TAG }
    ensures ok { IfOk result (λ v. (t : Tree) → PartMeans part.entry t → tree_of v ≡ t) }
    ensures memory { IfErr result (λ e. e ≡ Error.OutOfMemory) }
{
    match part.contents() {
        Contents::Array(items) => Ok(Value::Array(build_items(alloc, items)?)),
        Contents::Object(object) => Ok(Value::Object(build_members(alloc, object.members())?)),
    }
}

// Builds the items of an array.
#[cycle(value)]
fn build_items<'a>(alloc: Global, items: Children<'a>) -> Result<Vec<Value<'a>>, Error>
    ensures ok { IfOk result (λ v. (ts : Trees) → AreChildren ts items.entry
        → items_view v.items ≡ ts) }
    ensures memory { IfErr result (λ e. e ≡ Error.OutOfMemory) }
{
    let mut left = items;
    let mut built = Vec::with_capacity(alloc, items.len())?;
    while let Some(child) = left.split_first() {
        push_part(alloc, &mut built, child.part)?;
        left = child.later;
    }
    Ok(built)
}

// Builds the members of an object. A single leaf is filled by insertions, each at its end because
// the keys ascend.
#[cycle(value)]
fn build_members<'a>(alloc: Global, members: Members<'a>) -> Result<Object<'a>, Error>
    ensures ok { IfOk result (λ m. (ps : Pairs) → AreMembers ps members.entry
        → pairs_view m.entries ≡ ps) }
    ensures memory { IfErr result (λ e. e ≡ Error.OutOfMemory) }
{
    if members.keys.len() > LEAF_PAIRS {
        return build_many(alloc, members);
    }
    let mut left = members;
    let mut built = BTreeMap::new(alloc);
    while let Some(member) = left.split_first() {
        let key = String::from_str(alloc, member.key)?;
        insert_part(alloc, &mut built, key, member.value)?;
        left = member.later;
    }
    Ok(built)
}

// Builds more members than one leaf of a map holds: from a list, which costs less than single
// insertions.
#[cycle(value)]
#[inline(never)]
fn build_many<'a>(alloc: Global, members: Members<'a>) -> Result<Object<'a>, Error>
    ensures ok { IfOk result (λ m. (ps : Pairs) → AreMembers ps members.entry
        → pairs_view m.entries ≡ ps) }
    ensures memory { IfErr result (λ e. e ≡ Error.OutOfMemory) }
{
    let mut left = members;
    let mut built = Vec::with_capacity(alloc, members.keys.len())?;
    while let Some(member) = left.split_first() {
        let key = String::from_str(alloc, member.key)?;
        push_pair(alloc, &mut built, key, member.value)?;
        left = member.later;
    }
    Ok(built.into_iter().collect(alloc)?)
}

// Builds the value of a scalar.
#[inline(always)]
fn build_scalar<'a>(part: Part<'a>) -> Value<'a>
    requires { part.type_code ≢ CONTAINER_TAG }
    ensures { (t : Tree) → PartMeans part.entry t → tree_of result ≡ t }
{
    match part.type_code {
        NULL_TAG => Value::Null,
        FALSE_TAG => Value::Bool(false),
        TRUE_TAG => Value::Bool(true),
        STRING_TAG => Value::String(CowStr::Borrowed(part.text())),
        NUMBER_TAG => Value::Number(part.number()),
        _ => value_of_extension(part.extension()),
    }
}

fn value_of_extension<'a>(given: ExtensionValue<'a>) -> Value<'a>
    ensures { tree_of result ≡ extension (extension_of given.entry) }
{
    match given {
        ExtensionValue::Binary(bytes) => Value::Binary(bytes),
        ExtensionValue::Date(date) => Value::Date(date),
        ExtensionValue::Timestamp(timestamp) => Value::Timestamp(timestamp),
        ExtensionValue::TimestampTz(zoned) => Value::TimestampTz(zoned),
        ExtensionValue::Interval(interval) => Value::Interval(interval),
        ExtensionValue::Opaque(opaque) => Value::Opaque(opaque),
    }
}
