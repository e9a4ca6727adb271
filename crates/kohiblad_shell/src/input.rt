//! Reading rows in the form in which they stand.

ghost use Rattle.std.specs.Prelude.{◌≡◌, IfOk, length, min};
ghost use Rattle.std.specs.Int.{to_be_bytes, w64};
ghost use Rattle.std.specs.List.{list_all};
ghost use Rattle.kohiblad_shell.specs.Words.{AppendsHeld, AppendsHeldLine, Documents, ReadsLine};
ghost use Rattle.kohiblad_shell.specs.Words.{ReadsPart, ReadsRow, is_blank};
ghost use Rattle.kohiblad_shell.specs.Inputs.{found_if, found_item};
ghost use Rattle.kohiblad_shell.specs.Words.{is_passed_over, strip_last};

use crate::halt::{Halt, halt_of_read};
use array_items::{ArrayFault, FoundItem, read_item, read_value};
use byteorder::{BigEndian, ByteOrder};
use jsonb::Exponents;
use memchr::memchr;
use std::io::{self, BufRead};

/// How rows stand one after another.
#[derive(Clone, Copy)]
pub enum Form {
    /// JSON texts: one on each line, one after another, or as the items of an array.
    Lines(Reading),
    /// Documents as a column stores them, each after its length.
    Documents,
}

impl Form {
    /// Whether a row gives nothing and is not wrong: a line that is empty, or has white space
    /// alone, where such lines are passed over.
    pub fn passes_over(self, row: &[u8]) -> bool
        ensures { result ≡ is_passed_over self row.now }
    {
        match self {
            Form::Lines(reading) => reading.passes_over_empty && is_empty_line(row),
            Form::Documents => false,
        }
    }
}

// Whether a line has no byte but white space.
fn is_empty_line(line: &[u8]) -> bool
    ensures { result ≡ list_all is_blank line.now }
{
    line.iter().all(|byte| is_blank(*byte))
}

// Whether a byte is white space between the tokens of a JSON text.
fn is_blank(byte: u8) -> bool
    ensures { result ≡ is_blank byte }
{
    matches!(byte, b' ' | b'\t' | b'\n' | b'\r')
}

/// How the texts of lines are read.
#[derive(Clone, Copy)]
pub struct Reading {
    /// Whether numbers may have exponents.
    pub exponents: Exponents,
    /// Whether lines that are empty, or have white space alone, are passed over.
    pub passes_over_empty: bool,
    /// How they stand one after another.
    pub texts: TextForm,
}

/// How texts stand one after another.
#[derive(Clone, Copy, Debug, PartialEq, Eq)]
pub enum TextForm {
    /// One on each line.
    Lines,
    /// With white space between them, or without.
    Values,
    /// As the items of one array.
    Items,
}

/// What a read found.
#[derive(Clone, Copy, Debug, PartialEq, Eq)]
pub enum Found {
    /// A row.
    Row,
    /// A row that is cut off: the input ends within it.
    Cut,
    /// The beginning of an item: the input is no array.
    NoArray(ArrayFault),
    /// Nothing: no row is left.
    End,
}

// How many bytes the length before a document has.
const LENGTH_BYTES: u64 = 8;

/// Reads the next row in place of what `row` held: a line without its line feed, a value, or the bytes
/// of a document, or those of its bytes that are there. A line ends at a line feed; what follows the
/// last line feed is a line unless it is empty. A length takes no memory before its bytes are read.
pub fn read_row<R: BufRead>(form: Form, reader: &mut R, row: &mut Vec<u8>) -> Result<Found, Halt>
    ensures ok { IfOk result (λ found. ReadsRow form
        (R.remaining reader.old) (R.remaining reader.new) row.new.items found) }
{
    match form {
        Form::Lines(reading) => match reading.texts {
            TextForm::Lines => Ok(found_if(read_line(reader, row)?)),
            TextForm::Values => Ok(found_if(read_value(reader, row)?)),
            TextForm::Items => Ok(found_item(read_item(reader, row)?)),
        },
        Form::Documents => read_stored(reader, row),
    }
}

// What was found where there is a row, or none is left.
fn found_if(is_row: bool) -> Found
    ensures { result ≡ found_if is_row }
{
    if is_row { Found::Row } else { Found::End }
}

// What was found in an array.
fn found_item(found: FoundItem) -> Found
    ensures { result ≡ found_item found }
{
    match found {
        FoundItem::Item => Found::Row,
        FoundItem::End => Found::End,
        FoundItem::Fault(fault) => Found::NoArray(fault),
    }
}

// Reads the next line, without its line feed, in place of what `line` held. `false` if nothing is
// left.
fn read_line<R: BufRead>(reader: &mut R, line: &mut Vec<u8>) -> Result<bool, Halt>
    ensures ok { IfOk result (λ is_line.
        ReadsLine (R.remaining reader.old) (R.remaining reader.new) line.new.items is_line) }
{
    line.clear();
    if append_held_line(reader, line)? {
        return Ok(true);
    }
    match reader.read_until(b'\n', line) {
        Ok(0) => Ok(false),
        Ok(_) => {
            drop_line_feed(line);
            Ok(true)
        }
        Err(error) => Err(halt_of_read(&error)),
    }
}

// Appends the next line, without its line feed, if the reader holds all of it. `false` if not, and
// then nothing is taken.
fn append_held_line<R: BufRead>(reader: &mut R, line: &mut Vec<u8>) -> Result<bool, Halt>
    ensures ok { IfOk result (λ is_held. AppendsHeldLine (R.remaining reader.old)
        (R.remaining reader.new) line.old.items line.new.items is_held) }
{
    let held = match reader.fill_buf() {
        Ok(held) => held,
        Err(error) if error.kind() == io::ErrorKind::Interrupted => return Ok(false),
        Err(error) => return Err(halt_of_read(&error)),
    };
    let Some(len) = memchr(b'\n', held) else {
        return Ok(false);
    };
    if line.extend_from_slice(&held[..len]).is_err() {
        return Err(Halt::Memory);
    }
    reader.consume(len + 1);
    Ok(true)
}

// Drops the line feed at the end, if there is one.
fn drop_line_feed(line: &mut Vec<u8>)
    ensures { line.new.items ≡ strip_last 10 line.old.items }
{
    if line.as_slice().last() == Some(&b'\n') {
        let _ = line.pop();
    }
}

// Reads the next document, without its length, in place of what `row` held.
fn read_stored<R: BufRead>(reader: &mut R, row: &mut Vec<u8>) -> Result<Found, Halt>
    ensures ok { IfOk result (λ found. ReadsRow Documents
        (R.remaining reader.old) (R.remaining reader.new) row.new.items found) }
{
    read_part(reader, LENGTH_BYTES, row)?;
    if row.is_empty() {
        return Ok(Found::End);
    }
    if row.len() < 8 {
        row.clear();
        return Ok(Found::Cut);
    }
    let length = length_in(row);
    read_part(reader, length, row)?;
    if (row.len() as u64) < length {
        Ok(Found::Cut)
    } else {
        Ok(Found::Row)
    }
}

// The length that these bytes spell.
fn length_in(bytes: &[u8]) -> u64
    requires { length bytes.now ≡ 8 }
    ensures { bytes.now ≡ to_be_bytes w64 result }
{
    BigEndian::read_u64(bytes)
}

// Reads so many bytes, or all that are left, in place of what `part` held.
fn read_part<R: BufRead>(reader: &mut R, count: u64, part: &mut Vec<u8>) -> Result<(), Halt>
    ensures ok { IfOk result (λ _. ReadsPart count
        (R.remaining reader.old) (R.remaining reader.new) part.new.items) }
{
    part.clear();
    'reading: for _ in 0..u64::MAX {
        let missing = count - part.len() as u64;
        if missing == 0 {
            return Ok(());
        }
        if append_held(reader, missing, part)? {
            return Ok(());
        }
    }
    Err(Halt::Read)
}

// Appends bytes that the reader holds, at most so many. `true` if no byte is left.
fn append_held<R: BufRead>(reader: &mut R, limit: u64, part: &mut Vec<u8>) -> Result<bool, Halt>
    ensures ok { IfOk result (λ is_end. AppendsHeld limit (R.remaining reader.old)
        (R.remaining reader.new) part.old.items part.new.items is_end) }
{
    let held = match reader.fill_buf() {
        Ok(held) => held,
        Err(error) if error.kind() == io::ErrorKind::Interrupted => return Ok(false),
        Err(error) => return Err(halt_of_read(&error)),
    };
    let count = first_len(held.len(), limit);
    if part.extend_from_slice(&held[..count]).is_err() {
        return Err(Halt::Memory);
    }
    reader.consume(count);
    Ok(count == 0)
}

// The lesser one of a length and a limit.
fn first_len(length: usize, limit: u64) -> usize
    ensures { result ≡ min length limit }
{
    if (length as u64) < limit {
        length
    } else {
        limit as usize
    }
}
