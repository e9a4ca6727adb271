//! Reading JSON values that stand one after another.

ghost use Rattle.std.specs.Prelude.{◌≡◌, ◌≤◌, ◌++◌, ◌||◌, ◌==◌, [], IfOk, drop, length};
ghost use Rattle.array_items.specs.Words.{ReadsValue, TakesHeld, TakesValue, begins_value, closes};
ghost use Rattle.array_items.specs.Words.{container_step, ended, ends_word, first_step, has_ended};
ghost use Rattle.array_items.specs.Words.{left_from, opens, place_after, step_at, text_step};
ghost use Rattle.array_items.specs.Words.{value_from};

use crate::held::{ReadFault, fault_of, is_blank, next_byte};
use std::io::{self, BufRead};

// Where a byte stands among values. The counts are of the brackets that are open there.
#[derive(Clone, Copy)]
pub(crate) enum Place {
    // Before a value.
    Before,
    // In a number or a word, as `true`.
    Word,
    // In an array or an object, and in no text.
    Container(u64),
    // In a text.
    Text(u64),
    // In a text, after a backslash.
    Escape(u64),
    // After a value.
    After,
}

// What becomes of a byte.
#[derive(Clone, Copy)]
pub(crate) enum Step {
    // It is white space before the value.
    Skip,
    // It is one of the value's, and the next byte stands here.
    Take(Place),
    // It stands after the value.
    Leave,
}

impl Place {
    // Whether a value has ended.
    fn has_ended(self) -> bool
        ensures { result ≡ has_ended self }
    {
        matches!(self, Place::After)
    }

    // What becomes of a byte at this place. `Memory`: more brackets are open than can be counted.
    pub(crate) fn step(self, byte: u8) -> Result<Step, ReadFault>
        ensures { IfOk result (λ step. step ≡ step_at self byte) }
    {
        match self {
            Place::Before => Ok(first_step(byte)),
            Place::Word if ends_word(byte) => Ok(Step::Leave),
            Place::Word => Ok(Step::Take(Place::Word)),
            Place::Container(depth) => container_step(depth, byte),
            Place::Text(depth) => Ok(text_step(depth, byte)),
            Place::Escape(depth) => Ok(Step::Take(Place::Text(depth))),
            Place::After => Ok(Step::Leave),
        }
    }
}

// What becomes of a byte before a value.
fn first_step(byte: u8) -> Step
    ensures { result ≡ first_step byte }
{
    if is_blank(byte) {
        Step::Skip
    } else if byte == b'"' {
        Step::Take(Place::Text(0))
    } else if opens(byte) {
        Step::Take(Place::Container(1))
    } else {
        Step::Take(Place::Word)
    }
}

// What becomes of a byte between the texts of an array or an object.
fn container_step(depth: u64, byte: u8) -> Result<Step, ReadFault>
    ensures { IfOk result (λ step. step ≡ container_step depth byte) }
{
    if byte == b'"' {
        Ok(Step::Take(Place::Text(depth)))
    } else if opens(byte) {
        let deeper = depth.checked_add(1).ok_or(ReadFault::Memory)?;
        Ok(Step::Take(Place::Container(deeper)))
    } else if closes(byte) {
        Ok(Step::Take(ended(depth.saturating_sub(1))))
    } else {
        Ok(Step::Take(Place::Container(depth)))
    }
}

// What becomes of a byte of a text.
fn text_step(depth: u64, byte: u8) -> Step
    ensures { result ≡ text_step depth byte }
{
    if byte == b'\\' {
        Step::Take(Place::Escape(depth))
    } else if byte == b'"' {
        Step::Take(ended(depth))
    } else {
        Step::Take(Place::Text(depth))
    }
}

// The place after a text or a bracket that closes, where so many brackets are open.
fn ended(depth: u64) -> Place
    ensures { result ≡ ended depth }
{
    if depth == 0 {
        Place::After
    } else {
        Place::Container(depth)
    }
}

// Whether a byte is not one of a number or a word: white space, a comma, a closing bracket, or one
// that begins a text, an array or an object.
fn ends_word(byte: u8) -> bool
    ensures { result ≡ ends_word byte }
{
    is_blank(byte) || byte == b',' || closes(byte) || begins_value(byte)
}

// Whether a byte begins a text, an array or an object.
fn begins_value(byte: u8) -> bool
    ensures { result ≡ begins_value byte }
{
    byte == b'"' || opens(byte)
}

// Whether a byte opens an array or an object.
fn opens(byte: u8) -> bool
    ensures { result ≡ opens byte }
{
    byte == b'[' || byte == b'{'
}

// Whether a byte closes an array or an object.
fn closes(byte: u8) -> bool
    ensures { result ≡ closes byte }
{
    byte == b']' || byte == b'}'
}

/// Reads the next value in place of what `value` held, without the white space before it. `false`
/// if nothing but white space is left, which is taken.
///
/// A value is told by its brackets and quotes alone: whether it is JSON is not.
pub fn read_value<R: BufRead>(reader: &mut R, value: &mut Vec<u8>) -> Result<bool, ReadFault>
    ensures { IfOk result (λ is_value.
        ReadsValue (R.remaining reader.old) (R.remaining reader.new) value.new.items is_value) }
{
    value.clear();
    match next_byte(reader, false)? {
        None => Ok(false),
        Some(_) => take_value(reader, value),
    }
}

// Takes the next value. `false` if no byte is left.
pub(crate) fn take_value<R: BufRead>(reader: &mut R, row: &mut Vec<u8>) -> Result<bool, ReadFault>
    requires { row.old.items ≡ [] }
    ensures { IfOk result (λ is_row.
        TakesValue (R.remaining reader.old) (R.remaining reader.new) row.new.items is_row) }
{
    let mut place = Place::Before;
    let mut has_begun = false;
    'reading: for _ in 0..u64::MAX {
        match take_from(reader, &mut place, row)? {
            Held::Bytes if place.has_ended() => return Ok(true),
            Held::Bytes => has_begun = true,
            Held::End => return Ok(has_begun),
            Held::Interrupted => {}
        }
    }
    Err(ReadFault::Reader)
}

// What a reader held.
#[derive(Clone, Copy)]
enum Held {
    // Bytes.
    Bytes,
    // Nothing, as no byte is left.
    End,
    // Nothing yet: it was interrupted.
    Interrupted,
}

// Takes those bytes that the reader holds which are the value's, or white space before it.
fn take_from<R: BufRead>(
    reader: &mut R,
    place: &mut Place,
    row: &mut Vec<u8>,
) -> Result<Held, ReadFault>
    ensures { IfOk result (λ held. TakesHeld (R.remaining reader.old) (R.remaining reader.new)
        place.old place.new row.old.items row.new.items held) }
{
    let held = match reader.fill_buf() {
        Ok(held) => held,
        Err(error) if error.kind() == io::ErrorKind::Interrupted => return Ok(Held::Interrupted),
        Err(error) => return Err(fault_of(&error)),
    };
    if held.is_empty() {
        return Ok(Held::End);
    }
    let count = take_bytes(held, place, row)?;
    reader.consume(count);
    Ok(Held::Bytes)
}

// Appends those of the bytes which are the value's. How many these are, with white space before it.
fn take_bytes(held: &[u8], place: &mut Place, row: &mut Vec<u8>) -> Result<usize, ReadFault>
    ensures within { IfOk result (λ count. count ≤ length held.now) }
    ensures left { IfOk result (λ count. drop count held.now ≡ left_from place.old held.now) }
    ensures taken { IfOk result (λ _.
        row.new.items ≡ row.old.items ++ value_from place.old held.now) }
    ensures place { IfOk result (λ _. place.new ≡ place_after place.old held.now) }
{
    for (index, byte) in held.iter().enumerate() {
        match place.step(*byte)? {
            Step::Skip => *place = Place::Before,
            Step::Take(next) => {
                if row.push(*byte).is_err() {
                    return Err(ReadFault::Memory);
                }
                *place = next;
            }
            Step::Leave => {
                *place = Place::After;
                return Ok(index);
            }
        }
    }
    Ok(held.len())
}
