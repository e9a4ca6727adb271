//! The calls of the library that the commands make.

ghost use Rattle.std.specs.Prelude.{◌≡◌, ◌⊎◌, ◌++◌, ◌∷◌, [], ℕ, List};
ghost use Rattle.std.specs.Prelude.{IfOk, IfErr, OnOk, IsErrOf, string_bytes};
ghost use Rattle.jsonb_cli.specs.Names.{encode_lower, OutOfMemory, compact, pretty, Doc, Tree};
ghost use Rattle.jsonb_cli.specs.Names.{IsDocument, item_document, CanBeStored, owned};
ghost use Rattle.jsonb_cli.specs.Names.{document_bytes, node_view, ok_line, answer_words};
ghost use Rattle.jsonb_cli.specs.Names.{outcome_line, IsEncAnswer, IsDecAnswer, IsPrettyAnswer};
ghost use Rattle.jsonb_cli.specs.Names.{IsTypeAnswer, IsGetAnswer, IsCmpAnswer, IsArrAnswer};
ghost use Rattle.jsonb_cli.specs.Names.{IsCanonAnswer, IsAnswerOrRefusal, IsHexOf, kind_words};
ghost use Rattle.jsonb_cli.specs.Names.{order_words};

use crate::answer::{Answer, Refusal};
use crate::command::{decode_shallow, decode_word};
use crate::words::Words;
use jsonb::layer::parse_string;
use jsonb::{ArrayBuilder, Document, Error, JsonbItemType, Node, OwnedJsonb, RawJsonb};
use simdutf8::basic;
use std::alloc::Global;
use std::cmp::Ordering;

/// Executes `enc`: the canonical document of a JSON text.
pub fn answer_enc(alloc: Global, text: &[u8]) -> Result<Answer, Refusal>
    ensures { IsAnswerOrRefusal IsEncAnswer text.now (outcome_line result) }
{
    let Ok(json) = basic::from_utf8(text) else {
        return Err(Refusal::Call(Error::InvalidUtf8));
    };
    match OwnedJsonb::parse(alloc, json) {
        Ok(document) => Ok(Answer::Hex(document.to_vec())),
        Err(error) => Err(Refusal::Call(error)),
    }
}

/// Executes `dec`: the compact text of a document.
pub fn answer_dec(alloc: Global, word: &[u8]) -> Result<Answer, Refusal>
    ensures { IsAnswerOrRefusal IsDecAnswer word.now (outcome_line result) }
{
    let bytes = decode_shallow(alloc, word)?;
    match document_text(alloc, &bytes) {
        Ok(text) => Ok(Answer::Text(text)),
        Err(error) => Err(Refusal::Call(error)),
    }
}

/// Executes `pretty`: the pretty text of a document, in hexadecimal since it has several lines.
pub fn answer_pretty(alloc: Global, word: &[u8]) -> Result<Answer, Refusal>
    ensures { IsAnswerOrRefusal IsPrettyAnswer word.now (outcome_line result) }
{
    let bytes = decode_shallow(alloc, word)?;
    match pretty_document_text(alloc, &bytes) {
        Ok(text) => Ok(Answer::Hex(text.into_bytes())),
        Err(error) => Err(Refusal::Call(error)),
    }
}

// The document that the bytes are. `InvalidJsonb` if they are not one.
fn document_in(bytes: &[u8]) -> Result<Document<'_>, Error>
    ensures ok { IfOk result (λ document. document_bytes document ≡ bytes.now) }
    ensures document { OnOk result (IsDocument bytes.now) }
    ensures none { IfErr result (λ e. (e ≡ Error.InvalidJsonb) × (IsDocument bytes.now → ⊥)) }
{
    Document::new(bytes).ok_or(Error::InvalidJsonb)
}

// The compact text of the document that the bytes are.
fn document_text(alloc: Global, bytes: &[u8]) -> Result<String, Error>
    ensures ok { IfOk result
        (λ text. (t : Tree) × (Doc bytes.now t × (string_bytes text ≡ compact t))) }
    ensures none { IfErr result (λ e. e ≡ Error.InvalidJsonb → IsDocument bytes.now → ⊥) }
    ensures only { IfErr result (λ e. (e ≡ Error.InvalidJsonb) ⊎ (e ≡ Error.OutOfMemory)) }
{
    document_in(bytes)?.to_string(alloc)
}

// The pretty text of the document that the bytes are.
fn pretty_document_text(alloc: Global, bytes: &[u8]) -> Result<String, Error>
    ensures ok { IfOk result
        (λ text. (t : Tree) × (Doc bytes.now t × (string_bytes text ≡ pretty t))) }
    ensures none { IfErr result (λ e. e ≡ Error.InvalidJsonb → IsDocument bytes.now → ⊥) }
    ensures only { IfErr result (λ e. (e ≡ Error.InvalidJsonb) ⊎ (e ≡ Error.OutOfMemory)) }
{
    document_in(bytes)?.to_pretty_string(alloc)
}

/// Executes `cmp`: the order of two byte strings by their meaning.
pub fn answer_cmp(alloc: Global, left: &[u8], right: &[u8]) -> Result<Answer, Refusal>
    ensures { IsAnswerOrRefusal (IsCmpAnswer left.now) right.now (outcome_line result) }
{
    let left = decode_shallow(alloc, left)?;
    let right = decode_shallow(alloc, right)?;
    let order = RawJsonb::new(&left).cmp(&RawJsonb::new(&right));
    Ok(Answer::Word(order_word(order)))
}

// The word for an order.
fn order_word(order: Ordering) -> &'static str
    ensures { result.now ≡ order_words order }
{
    match order {
        Ordering::Less => "less",
        Ordering::Equal => "equal",
        Ordering::Greater => "greater",
    }
}

/// Executes `arr`: the array of these documents.
pub fn answer_arr(alloc: Global, words: Words) -> Result<Answer, Refusal>
    ensures { IsAnswerOrRefusal IsArrAnswer words.entry (outcome_line result) }
{
    let mut builder = ArrayBuilder::new(alloc);
    for word in words {
        if let Err(refusal) = push_document(alloc, &mut builder, word) {
            return Err(refusal);
        }
    }
    match builder.build() {
        Ok(array) => Ok(Answer::Hex(array.to_vec())),
        Err(error) => Err(Refusal::Call(error)),
    }
}

// Appends the bytes of a hexadecimal word to the array.
fn push_document(alloc: Global, builder: &mut ArrayBuilder, word: &[u8]) -> Result<(), Refusal>
    ensures ok { OnOk result ((bytes : List ℕ) × (IsHexOf bytes word.now
        × (builder.new ≡ builder.old ++ owned bytes ∷ []))) }
    ensures bad { IsErrOf result Refusal.BadHex → (bytes : List ℕ) → IsHexOf bytes word.now → ⊥ }
    ensures refused { IfErr result (λ refusal. (refusal ≡ Refusal.BadHex)
        ⊎ ((refusal ≡ Refusal.TooDeep) ⊎ (refusal ≡ Refusal.Call OutOfMemory))) }
{
    let document = OwnedJsonb::new(decode_shallow(alloc, word)?);
    if builder.push_owned_jsonb(document).is_err() {
        return Err(Refusal::Call(Error::OutOfMemory));
    }
    Ok(())
}

/// Executes `canon`: the canonical document of a document's value.
pub fn answer_canon(alloc: Global, word: &[u8]) -> Result<Answer, Refusal>
    ensures { IsAnswerOrRefusal IsCanonAnswer word.now (outcome_line result) }
{
    let bytes = decode_shallow(alloc, word)?;
    match RawJsonb::new(&bytes).to_canonical(alloc) {
        Ok(document) => Ok(Answer::Hex(document.to_vec())),
        Err(error) => Err(Refusal::Call(error)),
    }
}

/// Executes `type`: the kind read from the first two words of the bytes.
pub fn answer_type(alloc: Global, word: &[u8]) -> Result<Answer, Refusal>
    ensures { IsAnswerOrRefusal IsTypeAnswer word.now (outcome_line result) }
{
    let bytes = decode_word(alloc, word)?;
    match RawJsonb::new(&bytes).jsonb_item_type() {
        Ok(kind) => Ok(kind_answer(kind)),
        Err(error) => Err(Refusal::Call(error)),
    }
}

// The words for a kind.
fn kind_answer(kind: JsonbItemType) -> Answer
    ensures { answer_words result ≡ kind_words kind }
{
    match kind {
        JsonbItemType::Null => Answer::Word("null"),
        JsonbItemType::Boolean => Answer::Word("boolean"),
        JsonbItemType::Number => Answer::Word("number"),
        JsonbItemType::String => Answer::Word("string"),
        JsonbItemType::Extension => Answer::Word("extension"),
        JsonbItemType::Array(count) => Answer::Counted("array", count),
        JsonbItemType::Object(count) => Answer::Counted("object", count),
    }
}

/// Executes `get`: the value of a key, as a document of its own.
pub fn answer_get(alloc: Global, word: &[u8], key: &[u8]) -> Result<Answer, Refusal>
    ensures { IsAnswerOrRefusal (IsGetAnswer word.now) key.now (outcome_line result) }
{
    let bytes = decode_shallow(alloc, word)?;
    let Ok(json) = basic::from_utf8(key) else {
        return Err(Refusal::Call(Error::InvalidUtf8));
    };
    let name = match parse_string(alloc, json) {
        Ok(name) => name,
        Err(error) => return Err(Refusal::Call(error)),
    };
    let document = match document_in(&bytes) {
        Ok(document) => document,
        Err(error) => return Err(Refusal::Call(error)),
    };
    match document.get(&name) {
        Some(value) => value_answer(alloc, value),
        None => Ok(Answer::Word("none")),
    }
}

// The outcome with the document of a value.
fn value_answer(alloc: Global, value: Node) -> Result<Answer, Refusal>
    ensures ok { OnOk result
        (outcome_line result ≡ ok_line (encode_lower (item_document (node_view value.entry)))) }
    ensures memory { CanBeStored (node_view value.entry)
        → IfErr result (λ refusal. refusal ≡ Refusal.Call OutOfMemory) }
{
    match value.to_owned(alloc) {
        Ok(document) => Ok(Answer::Hex(document.to_vec())),
        Err(error) => Err(Refusal::Call(error)),
    }
}
