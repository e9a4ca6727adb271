//! Building arrays and objects from bytes.

use crate::line::{decode_hex, key_of, ok_hex};
use crate::refusal::Refusal;
use jsonb::{ArrayDistinctBuilder, OwnedJsonb, RawJsonb};
use std::alloc::Global;

/// Replies with the array of these documents.
pub fn array_of(alloc: Global, words: &[&[u8]]) -> Result<String, Refusal> {
    let mut inputs = Vec::new(alloc);
    for word in words {
        inputs.push(decode_hex(alloc, word)?)?;
    }
    let array = OwnedJsonb::build_array(alloc, inputs.iter().map(|bytes| RawJsonb::new(bytes)))?;
    ok_hex(alloc, array.as_bytes())
}

// The bytes of a key and of its value.
#[derive(Drop)]
struct Pair {
    key: Vec<u8>,
    value: Vec<u8>,
}

/// Replies with the object of these keys and documents.
pub fn object_of(alloc: Global, words: &[&[u8]]) -> Result<String, Refusal> {
    let pairs = pairs_in(alloc, words)?;
    let mut inputs = Vec::new(alloc);
    for pair in &pairs {
        inputs.push((key_of(&pair.key)?, RawJsonb::new(&pair.value)))?;
    }
    let object = OwnedJsonb::build_object(alloc, inputs)?;
    ok_hex(alloc, object.as_bytes())
}

// The pairs of words with a `=` between key and value.
fn pairs_in(alloc: Global, words: &[&[u8]]) -> Result<Vec<Pair>, Refusal> {
    if !words.iter().all(|word| word.contains(&b'=')) {
        return Err(Refusal::BadCommand);
    }
    let mut pairs = Vec::new(alloc);
    for word in words {
        let (key, value) = split_pair(word)?;
        pairs.push(Pair {
            key: decode_hex(alloc, key)?,
            value: decode_hex(alloc, value)?,
        })?;
    }
    Ok(pairs)
}

// The bytes before the first `=`, and those after it.
fn split_pair(word: &[u8]) -> Result<(&[u8], &[u8]), Refusal> {
    let Some(place) = word.iter().position(|byte| *byte == b'=') else {
        return Err(Refusal::BadCommand);
    };
    Ok((&word[..place], &word[place + 1..]))
}

// Pushing or popping bytes.
#[derive(Drop)]
enum Step {
    Push(Vec<u8>),
    Pop(Vec<u8>),
}

/// Replies with the results of the pops, and then the array of distinct items after all pushes and
/// pops.
pub fn distinct(alloc: Global, words: &[&[u8]]) -> Result<String, Refusal> {
    let steps = steps_in(alloc, words)?;
    let mut builder = ArrayDistinctBuilder::new(alloc, 0)?;
    let mut text = String::new(alloc);
    for step in &steps {
        match step {
            Step::Push(bytes) => builder.push_raw_jsonb(RawJsonb::new(bytes))?,
            Step::Pop(bytes) => {
                let pop = builder.pop_raw_jsonb(RawJsonb::new(bytes));
                text.push_str(if pop.is_some() { "some " } else { "none " })?;
            }
        }
    }
    match builder.build() {
        Ok(array) => text.push_str(&ok_hex(alloc, array.as_bytes())?)?,
        Err(error) => {
            text.push_str("error ")?;
            text.push_str(error.name())?;
        }
    }
    Ok(text)
}

// The steps of words that begin with `+` or `-`.
fn steps_in(alloc: Global, words: &[&[u8]]) -> Result<Vec<Step>, Refusal> {
    if !words.iter().all(|word| matches!(word, [b'+' | b'-', ..])) {
        return Err(Refusal::BadCommand);
    }
    let mut steps = Vec::new(alloc);
    for word in words {
        match word {
            [b'+', rest @ ..] => steps.push(Step::Push(decode_hex(alloc, rest)?))?,
            [b'-', rest @ ..] => steps.push(Step::Pop(decode_hex(alloc, rest)?))?,
            _ => return Err(Refusal::BadCommand),
        }
    }
    Ok(steps)
}
