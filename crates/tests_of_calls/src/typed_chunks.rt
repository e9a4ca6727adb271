//! Tests of bytes that a model of the form in another language wrote.

ghost use Rattle.std.specs.Prelude.{◌≡◌, ◌≤◌, ◌<◌, ◌^◌, length};

use std::alloc::{AllocError, Global};
use std::test::Fail;
use typed_chunk::{
    ChunkFault, ChunkTexts, ReadError, append_boolean_chunk, append_dictionary,
    append_number_chunk, append_text_chunk, append_texts, append_whole_texts, find_dictionary,
    read_boolean_chunk, read_dictionary, read_number_chunk, read_text_chunk, read_texts,
};

// Four rows, of which the second has no text.
const TEXTS: &[u8] = b"town-atown-bcdtown-";

const OFFSETS: [usize; 5] = [0, 6, 6, 14, 19];

const HAS: [bool; 4] = [true, false, true, true];

const BYTES: &[u8] = b"\x05town-\x02\x00\x00\x00\x00\x31abcd";

fn bytes_of_texts(alloc: Global) -> Result<Vec<u8>, AllocError> {
    let mut out = Vec::new(alloc);
    append_texts(&mut out, TEXTS, &OFFSETS, &HAS, &mut [0; 4])?;
    Ok(out)
}

#[test]
fn texts_with_a_common_beginning(rt: HostRuntime) -> Result<(), Fail> {
    let bytes = bytes_of_texts(rt.alloc())?;
    assert_eq!(rt; bytes.as_slice(), BYTES);
    Ok(())
}

#[test]
fn texts_are_read(rt: HostRuntime) -> Result<(), Fail> {
    let mut offsets = [0; 5];
    match read_texts(BYTES, &HAS, &mut [0; 4], &mut offsets) {
        Ok(read) => {
            assert_eq!(rt; read.start, b"town-".as_slice());
            assert_eq!(rt; read.tails, b"abcd".as_slice());
            assert_eq!(rt; offsets, [0, 1, 1, 4, 4]);
            let mut texts = Vec::new(rt.alloc());
            let mut whole = [0; 5];
            append_whole_texts(&mut texts, &read, &offsets, &HAS, &mut whole)?;
            assert_eq!(rt; texts.as_slice(), TEXTS);
            assert_eq!(rt; whole, OFFSETS);
        }
        Err(_) => assert!(rt; false),
    }
    Ok(())
}

// Five rows, of which the third has no text.
const ENTRIES: &[u8] = b"lommalundystad";

const CODES: [u64; 5] = [1, 2, 0, 1, 0];

const DICTIONARY: &[u8] = b"\x02\x00\x01\x00\x00\x00\x04\x05lommalundystad\x49\x00";

fn bytes_of_dictionary(alloc: Global) -> Result<Vec<u8>, AllocError> {
    let mut out = Vec::new(alloc);
    let (all, lengths) = (&mut [false; 3], &mut [0; 3]);
    append_dictionary(&mut out, ENTRIES, &[0, 5, 9, 14], &CODES, all, lengths)?;
    Ok(out)
}

#[test]
fn a_dictionary_of_three(rt: HostRuntime) -> Result<(), Fail> {
    let bytes = bytes_of_dictionary(rt.alloc())?;
    assert_eq!(rt; bytes.as_slice(), DICTIONARY);
    Ok(())
}

#[test]
fn a_dictionary_is_read(rt: HostRuntime) {
    let has = [true, true, false, true, true];
    let (all, lengths) = (&mut [false; 3], &mut [0; 3]);
    let mut offsets = [0; 4];
    let mut places = [9; 5];
    match read_dictionary(DICTIONARY, &has, all, lengths, &mut offsets, &mut places) {
        Ok(read) => {
            assert_eq!(rt; read.tails, ENTRIES);
            assert_eq!(rt; offsets, [0, 5, 9, 14]);
            assert_eq!(rt; places, CODES);
        }
        Err(_) => assert!(rt; false),
    }
}

// Seven rows, of which the third has no text.
const ROWS: &[u8] = b"malmolundystadlundmalmolund";

const ROW_OFFSETS: [usize; 8] = [0, 5, 9, 9, 14, 18, 23, 27];

const ROWS_HAVE: [bool; 7] = [true, true, false, true, true, true, true];

#[test]
fn a_dictionary_is_found(rt: HostRuntime) -> Result<(), Fail> {
    let mut places = [9; 7];
    let found = find_dictionary(rt.alloc(), ROWS, &ROW_OFFSETS, &ROWS_HAVE, &mut places)?;
    match found {
        Some(entries) => {
            assert_eq!(rt; entries.texts.as_slice(), b"lundmalmoystad".as_slice());
            assert_eq!(rt; entries.offsets.as_slice(), [0, 4, 9, 14].as_slice());
            assert_eq!(rt; places, [1, 0, 0, 2, 0, 1, 0]);
        }
        None => assert!(rt; false),
    }
    Ok(())
}

#[test]
fn chunks_of_numbers(rt: HostRuntime) -> Result<(), Fail> {
    let mut packed = Vec::new(rt.alloc());
    let has = [true, true, false, true, true];
    append_number_chunk(&mut packed, &mut [5, 7, 0, 200, 6], &has, &mut [0; 5])?;
    let bytes = b"\x02\x1b\x00\x08\0\0\0\0\0\0\0\x05\x00\x02\x00\xc3\x01".as_slice();
    assert_eq!(rt; packed.as_slice(), bytes);
    let mut first = Vec::new(rt.alloc());
    append_number_chunk(&mut first, &mut [5, 7, 7, 9, 12], &[true; 5], &mut [0; 5])?;
    let bytes = b"\x01\x00\x04\0\0\0\0\0\0\0\x05\x20\x42\x07".as_slice();
    assert_eq!(rt; first.as_slice(), bytes);
    let mut none = Vec::new(rt.alloc());
    append_number_chunk(&mut none, &mut [5, 7], &[false; 2], &mut [0; 2])?;
    assert_eq!(rt; none.as_slice(), b"\0".as_slice());
    Ok(())
}

// Numbers that rise by as much each.
const TEN: [i64; 10] = [1000, 2000, 3000, 4000, 5000, 6000, 7000, 8000, 9000, 10000];

// They as a frame.
const PACKED: &[u8] =
    b"\x01\0\x10\0\0\0\0\0\0\x03\xe8\0\0\xe8\x03\xd0\x07\xb8\x0b\xa0\x0f\x88\x13p\x17X\x1b@\x1f(#";

#[test]
fn chunks_of_numbers_are_read(rt: HostRuntime) {
    let mut values = [9; 5];
    let mut has = [false; 5];
    let bytes = b"\x02\x1b\x00\x08\0\0\0\0\0\0\0\x05\x00\x02\x00\xc3\x01".as_slice();
    assert!(rt; read_number_chunk(bytes, &mut [0; 5], &mut has, &mut values).is_ok());
    assert_eq!(rt; values, [5, 7, 5, 200, 6]);
    assert_eq!(rt; has, [true, true, false, true, true]);
    let bytes = b"\x01\x00\x04\0\0\0\0\0\0\0\x05\x20\x42\x07".as_slice();
    assert!(rt; read_number_chunk(bytes, &mut [0; 5], &mut has, &mut values).is_ok());
    assert_eq!(rt; values, [5, 7, 7, 9, 12]);
    let mut values = [0; 10];
    let mut has = [false; 10];
    let bytes = b"\x01\x01\0\0\0\0\0\0\x03\xe8\0\0\0\0\0\0\0\x03\xe8".as_slice();
    assert!(rt; read_number_chunk(bytes, &mut [0; 10], &mut has, &mut values).is_ok());
    assert_eq!(rt; values, TEN);
    assert_eq!(rt;
        read_number_chunk(PACKED, &mut [0; 10], &mut has, &mut values),
        Err(ChunkFault::NotShortestKind)
    );
}

// The chunk of texts of which a dictionary takes fewer bytes.
const CODED: &[u8] = b"\x02\x7b\x02\x02\x00\x01\x00\x00\x00\x04\x06lundmalmoystad\x81\x04";

#[test]
fn chunks_of_texts(rt: HostRuntime) -> Result<(), Fail> {
    let alloc = rt.alloc();
    let mut plain = Vec::new(alloc);
    append_text_chunk(alloc, &mut plain, TEXTS, &OFFSETS, &HAS, &mut [0; 4])?;
    let bytes = b"\x02\x0d\x00\x05town-\x02\x00\x00\x00\x00\x31abcd".as_slice();
    assert_eq!(rt; plain.as_slice(), bytes);
    let mut coded = Vec::new(alloc);
    append_text_chunk(
        alloc,
        &mut coded,
        ROWS,
        &ROW_OFFSETS,
        &ROWS_HAVE,
        &mut [0; 7],
    )?;
    assert_eq!(rt; coded.as_slice(), CODED);
    let mut first = Vec::new(alloc);
    append_text_chunk(
        alloc,
        &mut first,
        b"aabbaa",
        &[0, 2, 4, 6],
        &[true; 3],
        &mut [0; 3],
    )?;
    assert_eq!(rt;
        first.as_slice(),
        b"\x01\x00\x00\x00\x00\x00\x00\x02aabbaa".as_slice()
    );
    let mut none = Vec::new(alloc);
    append_text_chunk(alloc, &mut none, &[], &[0, 0, 0], &[false; 2], &mut [0; 2])?;
    assert_eq!(rt; none.as_slice(), b"\0".as_slice());
    Ok(())
}

// What was read, or why not; memory that is refused is handed on.
fn read<'a>(
    alloc: Global,
    bytes: &'a [u8],
    has: &mut [bool],
    codes: &mut [u64],
    offsets: &mut [usize],
) -> Result<Result<ChunkTexts<'a>, ChunkFault>, AllocError>
    requires some { 0 < length has.old }
    requires few { length has.old ≤ 7 }
    requires short { length bytes.now < 2 ^ 32 }
    requires codes { length codes.old ≡ length has.old }
    requires offsets { length offsets.old ≡ 257 }
{
    let mut lengths = [0; 7];
    let lengths = &mut lengths[..has.len()];
    match read_text_chunk(alloc, bytes, has, codes, lengths, offsets) {
        Ok(texts) => Ok(Ok(texts)),
        Err(ReadError::Refused(fault)) => Ok(Err(fault)),
        Err(ReadError::OutOfMemory) => Err(AllocError),
    }
}

#[test]
fn chunks_of_texts_are_read(rt: HostRuntime) -> Result<(), Fail> {
    let (mut has, mut codes, mut offsets) = ([false; 4], [9; 4], [9; 257]);
    let bytes = b"\x02\x0d\x00\x05town-\x02\x00\x00\x00\x00\x31abcd".as_slice();
    match read(rt.alloc(), bytes, &mut has, &mut codes, &mut offsets)? {
        Ok(ChunkTexts::Plain(texts)) => {
            assert_eq!(rt; texts.start, b"town-".as_slice());
            assert_eq!(rt; texts.tails, b"abcd".as_slice());
        }
        _ => assert!(rt; false),
    }
    assert_eq!(rt; has, HAS);
    assert_eq!(rt; &offsets[..5], [0, 1, 1, 4, 4].as_slice());
    Ok(())
}

#[test]
fn chunks_of_dictionaries_are_read(rt: HostRuntime) -> Result<(), Fail> {
    let (mut has, mut codes, mut offsets) = ([false; 7], [9; 7], [9; 257]);
    match read(rt.alloc(), CODED, &mut has, &mut codes, &mut offsets)? {
        Ok(ChunkTexts::Coded { entries, count }) => {
            assert_eq!(rt; entries.tails, b"lundmalmoystad".as_slice());
            assert_eq!(rt; count, 3);
        }
        _ => assert!(rt; false),
    }
    assert_eq!(rt; has, ROWS_HAVE);
    assert_eq!(rt; codes, [1, 0, 0, 2, 0, 1, 0]);
    assert_eq!(rt; &offsets[..4], [0, 4, 9, 14].as_slice());
    Ok(())
}

// The rows of `CODED` as they are, and three rows as a dictionary that takes as many bytes.
const UNCODED: &[u8] = b"\x02\x7b\x00\x00\x04\x00\x00\x00\x00EPT\x04malmolundystadlundmalmolund";

const AS_SHORT: &[u8] = b"\x01\x02\x01\x00\x00\x00\x00\x00\x02aabb\x02";

#[test]
fn longer_kinds_of_texts_are_refused(rt: HostRuntime) -> Result<(), Fail> {
    let alloc = rt.alloc();
    let mut offsets = [9; 257];
    let found = read(alloc, UNCODED, &mut [false; 7], &mut [9; 7], &mut offsets)?;
    assert!(rt; matches!(found, Err(ChunkFault::NotShortestKind)));
    let found = read(alloc, AS_SHORT, &mut [false; 3], &mut [9; 3], &mut offsets)?;
    assert!(rt; matches!(found, Err(ChunkFault::NotShortestKind)));
    Ok(())
}

// Booleans beside a row that has none, and the chunk of three that are all true.
const BOOLEANS: &[u8] = b"\x02\x1b\x00\x01\x00\x19";

const ALL_TRUE: &[u8] = b"\x01\x00\x00\x01";

#[test]
fn chunks_of_booleans(rt: HostRuntime) -> Result<(), Fail> {
    let mut some = Vec::new(rt.alloc());
    let has = [true, true, false, true, true];
    append_boolean_chunk(
        &mut some,
        &[true, false, false, true, true],
        &has,
        &mut [0; 5],
    )?;
    assert_eq!(rt; some.as_slice(), BOOLEANS);
    let mut all = Vec::new(rt.alloc());
    append_boolean_chunk(&mut all, &[true; 3], &[true; 3], &mut [0; 3])?;
    assert_eq!(rt; all.as_slice(), ALL_TRUE);
    let mut none = Vec::new(rt.alloc());
    append_boolean_chunk(&mut none, &[true; 2], &[false; 2], &mut [0; 2])?;
    assert_eq!(rt; none.as_slice(), b"\0".as_slice());
    Ok(())
}

#[test]
fn chunks_of_booleans_are_read(rt: HostRuntime) {
    let (mut has, mut values) = ([false; 5], [true; 5]);
    assert!(rt; read_boolean_chunk(BOOLEANS, &mut [9; 5], &mut has, &mut values).is_ok());
    assert_eq!(rt; has, [true, true, false, true, true]);
    assert_eq!(rt; values, [true, false, false, true, true]);
    let (mut has, mut values) = ([false; 3], [false; 3]);
    assert!(rt; read_boolean_chunk(ALL_TRUE, &mut [9; 3], &mut has, &mut values).is_ok());
    assert_eq!(rt; has, [true; 3]);
    assert_eq!(rt; values, [true; 3]);
    let two = b"\x01\x00\x00\x02".as_slice();
    assert_eq!(rt;
        read_boolean_chunk(two, &mut [9; 3], &mut has, &mut values),
        Err(ChunkFault::ValueOutOfRange)
    );
}
