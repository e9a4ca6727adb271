//! Encoding a value and querying the document, using only the contracts of the public calls.

mod walks;

ghost use Rattle.std.specs.Prelude.{◌≡◌, ◌⊎◌, nat_eq, length, option_map, Err, IfOk, IfErr};
ghost use Rattle.std.specs.Prelude.{IsOkAnd, string_bytes};
ghost use Rattle.uses.specs.Words.{pointwise, norm, compact, Tree, tree_of, canon};
ghost use Rattle.uses.specs.Words.{Fits, Doc, raw_bytes, AnswersOf, find, IsItemFound};
ghost use Rattle.uses.specs.Words.{value_of_key, words_for_key, IsFoundIn, item_view};

use crate::composition::walks::{array_items, object_keys, object_pairs, object_values};
use jsonb::laws::meaning_laws;
use jsonb::{Encoder, Error, JsonbItem, JsonbItemType, RawJsonb, Reads, Value};
use std::alloc::Global;
use std::cmp::Ordering;

/// The results of the calls on a document.
#[derive(Drop)]
pub struct Answers<'a> {
    /// The kind; a container's with its count.
    pub kind: JsonbItemType,
    /// The compact text.
    pub text: String,
    /// The pretty text.
    pub pretty: String,
    /// What `Display` prints.
    pub display: String,
    /// The item that the bytes hold.
    pub item: JsonbItem<'a>,
    /// Its order beside the other bytes.
    pub order: Ordering,
    /// The order relative to the other document, if that is one.
    pub document_order: Option<Ordering>,
    /// The items of an array, in order.
    pub items: Option<Vec<JsonbItem<'a>>>,
    /// The keys of an object, in order.
    pub keys: Option<Vec<JsonbItem<'a>>>,
    /// The values of an object, in the order of their keys.
    pub values: Option<Vec<JsonbItem<'a>>>,
    /// The keys of an object with their values, in order.
    pub pairs: Option<Vec<(&'a str, JsonbItem<'a>)>>,
    /// The value whose key equals the name.
    pub found: Option<JsonbItem<'a>>,
    /// The same by the counted look-up.
    pub counted: Option<JsonbItem<'a>>,
    /// How many words that look-up read.
    pub reads: u64,
}

/// Encodes a value into the buffer, replacing its content, and queries the document: every result
/// is that of the value's tree with signed zeros made unsigned. `InvalidJsonb` if the value does
/// not fit the format, `OutOfMemory` if an allocation fails.
pub fn encode_and_ask<'a>(
    alloc: Global,
    value: &Value,
    name: &str,
    other: RawJsonb,
    bytes: &'a mut Vec<u8>,
) -> Result<Answers<'a>, Error>
    ensures answers { IfOk result
        (AnswersOf (canon (tree_of value.now)) (norm (tree_of value.now)) name.now
        (raw_bytes other.entry)) }
    ensures past { result ≡ Err Error.InvalidJsonb → Fits (tree_of value.now) → ⊥ }
    ensures only { IfErr result (λ e. (e ≡ Error.InvalidJsonb) ⊎ (e ≡ Error.OutOfMemory)) }
{
    bytes.clear();
    Encoder::new(bytes).encode(value)?;
    ask(alloc, RawJsonb::new(bytes.as_slice()), name, other)
}

/// Queries a document with one call of each kind, a name and another document: every result is that
/// of its tree, and `OutOfMemory` is the only error.
pub fn ask<'a>(
    alloc: Global,
    raw: RawJsonb<'a>,
    name: &str,
    other: RawJsonb,
) -> Result<Answers<'a>, Error>
    ensures answers { (t : Tree) → Doc (raw_bytes raw.entry) t
        → IfOk result (AnswersOf (raw_bytes raw.entry) t name.now (raw_bytes other.entry)) }
    ensures memory { (t : Tree) → Doc (raw_bytes raw.entry) t
        → IfErr result (λ e. e ≡ Error.OutOfMemory) }
{
    meaning_laws();
    let (counted, reads) = find_counted(raw, name)?;
    Ok(Answers {
        kind: raw.jsonb_item_type()?,
        text: raw.to_string(alloc)?,
        pretty: raw.to_pretty_string(alloc)?,
        display: display(alloc, raw)?,
        item: JsonbItem::from_raw_jsonb(raw)?,
        order: raw.cmp(&other),
        document_order: raw.try_cmp(&other),
        items: array_items(alloc, raw)?,
        keys: object_keys(alloc, raw)?,
        values: object_values(alloc, raw)?,
        pairs: object_pairs(alloc, raw)?,
        found: find_by_name(raw, name)?,
        counted,
        reads,
    })
}

// What `Display` prints.
fn display(alloc: Global, raw: RawJsonb) -> Result<String, Error>
    ensures text { (t : Tree) → Doc (raw_bytes raw.entry) t
        → IfOk result (λ text. string_bytes text ≡ compact t) }
    ensures memory { IfErr result (λ e. e ≡ Error.OutOfMemory) }
{
    meaning_laws();
    let owned = raw.to_owned(alloc)?;
    Ok(format!(in alloc; "{owned}")?)
}

// The value of the key that is the name, by the counted look-up, and how many words it read.
fn find_counted<'a>(raw: RawJsonb<'a>, name: &str) -> Result<(Option<JsonbItem<'a>>, u64), Error>
    ensures value { (t : Tree) → Doc (raw_bytes raw.entry) t
        → IsOkAnd result (λ found. IsItemFound (value_of_key name.now t)
        (option_map item_view found.0)) }
    ensures entry { (t : Tree) → Doc (raw_bytes raw.entry) t
        → IsOkAnd result (λ found. IsFoundIn (pointwise nat_eq name.now) (length name.now)
        (raw_bytes raw.entry) t (option_map item_view found.0)) }
    ensures words { (t : Tree) → Doc (raw_bytes raw.entry) t
        → IsOkAnd result (λ found. found.1 ≡ words_for_key name.now t) }
{
    let mut reads = Reads::new();
    let found = raw.get_object_value_by_key_name_counted(
        name,
        |name, key| name == key,
        &mut reads,
    )?;
    Ok((found, reads.count()))
}

// The value whose key equals the name.
fn find_by_name<'a>(raw: RawJsonb<'a>, name: &str) -> Result<Option<JsonbItem<'a>>, Error>
    ensures value { (t : Tree) → Doc (raw_bytes raw.entry) t
        → IsOkAnd result
        (λ found. IsItemFound (find (pointwise nat_eq name.now) (length name.now) t)
        (option_map item_view found)) }
    ensures entry { (t : Tree) → Doc (raw_bytes raw.entry) t
        → IsOkAnd result (λ found. IsFoundIn (pointwise nat_eq name.now) (length name.now)
        (raw_bytes raw.entry) t (option_map item_view found)) }
{
    raw.get_object_value_by_key_name(name, |wanted, key| wanted == key)
}
