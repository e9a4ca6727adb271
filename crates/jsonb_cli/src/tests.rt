//! Known lines with their answers, and runs over streams that fail.

use crate::run::{RunError, run};
use std::alloc::{AllocError, Global};
use std::cell::Cell;
use std::io::{ErrorKind, Read, Write};
use std::test::Fail;
use std::{io, str};

// Lines, and their answers.
const ROWS: &[(&str, &str)] = &[
    ("enc [false,true]", "ok 800000023000000040000000"),
    (
        "enc {\"b\":1.50,\"a\":-7}",
        "ok 400000021000000110000001200000022000000a616240f970000000000000009602",
    ),
    (
        "dec 400000021000000110000001200000022000000a616240f970000000000000009602",
        "ok {\"a\":-7,\"b\":1.50}",
    ),
    (
        "pretty 40000002100000011000000120000002100000056162500168656c6c6f",
        "ok 7b0a20202261223a20312c0a20202262223a202268656c6c6f220a7d",
    ),
    ("type 9fffffff", "ok array 536870911"),
    ("type ", "error InvalidEOF"),
    ("type", "error BadCommand"),
    ("", "error BadCommand"),
    (
        "arr 20000000200000025001 2000000000000000",
        "ok 8000000220000002000000005001",
    ),
    ("arr", "ok 80000000"),
    ("arr 01020304", "error InvalidJsonb"),
    ("enc 1e5", "error InvalidJson"),
    ("dec 80000000\r", "error BadHex"),
    ("dec 200000002000000250FF", "ok 255"),
    ("dec 3132333435363738", "error InvalidJsonb"),
    ("get 40000000 \"a\"", "ok none"),
    (
        "enc [0,-128, 65535]",
        "ok 8000000320000001200000022000000300408050ffff",
    ),
    ("enc null", "ok 2000000000000000"),
    ("enc -0", "ok 200000002000000100"),
    ("enc [ ]", "ok 80000000"),
    (
        "enc 18446744073709551615",
        "ok 200000002000000950ffffffffffffffff",
    ),
    ("dec 20000000200000024000", "ok 0"),
    ("dec 800000013000000100", "error InvalidJsonb"),
    ("dec 9fffffff", "error InvalidJsonb"),
    ("dec 8", "error BadHex"),
    (
        "get 400000021000000210000002200000025000000a61616162500180000001200000025002 \"ab\"",
        "ok 80000001200000025002",
    ),
    (
        "get 400000021000000210000002200000025000000a61616162500180000001200000025002 \"aa\"",
        "ok 20000000200000025001",
    ),
    (
        "get 400000021000000210000002200000025000000a61616162500180000001200000025002 \"zz\"",
        "ok none",
    ),
    ("get 8 \"a\"", "error BadHex"),
    ("get 40000000 a", "error InvalidJson"),
    ("get 01020304 \"a\"", "error InvalidJsonb"),
    ("get 40000000", "error BadCommand"),
    (
        "cmp 20000000200000025005 200000002000000a70000000000000003201",
        "ok equal",
    ),
    ("cmp  ", "ok equal"),
    ("cmp 80000000 ", "ok less"),
    ("cmp ", "error BadCommand"),
    ("arr 20000000200000024000", "ok 80000001200000024000"),
    ("arr ", "error InvalidJsonb"),
    ("arr 80000000 zz", "error BadHex"),
    ("enc \"\\u00e9\"", "ok 2000000010000002c3a9"),
    ("enc \"\\ud83d\\ude00\"", "ok 2000000010000004f09f9880"),
    ("enc \"\\ud83d\"", "error InvalidJson"),
    ("enc 01", "error InvalidJson"),
    ("enc 1.", "error InvalidJson"),
    ("enc ", "error InvalidJson"),
    ("get 40000000 1", "error InvalidJson"),
    ("enc {\"a\":1,\"a\":2}", "ok 400000011000000120000002615002"),
    ("enc -0.0", "ok 200000002000000a70000000000000000001"),
    ("dec 200000002000000a70000000000000000001", "ok 0.0"),
    (
        "enc 18446744073709551616",
        "ok 2000000020000012700000000000000001000000000000000000",
    ),
    (
        "enc 170141183460469231731687303715884105728",
        "error InvalidJson",
    ),
    ("pretty 2000000000000000", "ok 6e756c6c"),
    ("pretty 80000000", "ok 5b5d"),
    ("canon 20000000200000024000", "ok 200000002000000100"),
    (
        "canon 2000000020000009500000000000000005",
        "ok 20000000200000025005",
    ),
    ("canon 80000000", "ok 80000000"),
    ("canon 8", "error BadHex"),
    ("canon 01020304", "error InvalidJsonb"),
    ("canon", "error BadCommand"),
    (
        "canon 8000000150000012800000016000000a30000640d6b723800008",
        "ok 8000000150000015800000016000000d30000640d6b723800000007080",
    ),
    ("dec 200000006000000350ab01", "ok \"50ab01\""),
    ("type 200000006000000150", "ok extension"),
    ("arr 200000006000000150", "ok 800000016000000150"),
    ("canon 200000006000000350ab01", "ok 200000006000000350ab01"),
    ("cmp 200000006000000150 2000000030000000", "ok less"),
    ("dec 20000000600000024101", "error InvalidJsonb"),
];

#[test]
fn answers_each_line(rt: HostRuntime) -> Result<(), Fail> {
    for (line, answer) in ROWS {
        let mut room = [0; 256];
        let said = run_line(rt.alloc(), line, &mut room)?;
        assert_eq!(rt; said.strip_suffix('\n'), Some(*answer), "{line}");
    }
    Ok(())
}

// What a run over memory writes for a line. Lack of memory is handed on, since a test may be run
// with failing allocations.
fn run_line<'a>(alloc: Global, line: &str, room: &'a mut [u8]) -> Result<&'a str, Fail> {
    let input = format!(in alloc; "{line}\n")?;
    let mut rest = &mut *room;
    run(alloc, &mut input.as_bytes(), &mut rest)?;
    let left = rest.len();
    let count = room.len().saturating_sub(left);
    let said = str::from_utf8(room.get(..count).ok_or("more than there is room")?)?;
    if said == "error OutOfMemory\n" {
        return Err(AllocError.into());
    }
    Ok(said)
}

#[test]
fn writes_nothing_for_no_input(rt: HostRuntime) -> Result<(), Fail> {
    let mut room: &mut [u8] = &mut [];
    run(rt.alloc(), &mut b"".as_slice(), &mut room)?;
    Ok(())
}

/// Takes as many bytes as it has room for, and then fails at each call.
#[derive(Drop)]
struct FullWriter<'a> {
    room: &'a mut [u8],
    calls: usize,
}

impl Write for FullWriter<'_> {
    fn write(&mut self, buf: &[u8]) -> io::Result<usize> {
        self.calls = self.calls.saturating_add(1);
        if self.room.is_empty() {
            return Err(io::Error::from(ErrorKind::Other));
        }
        self.room.write(buf)
    }

    fn flush(&mut self) -> io::Result<()> {
        Ok(())
    }
}

#[test]
fn ends_where_its_writer_fails(rt: HostRuntime) -> Result<(), Fail> {
    let mut room = [0; 5];
    let mut writer = FullWriter {
        room: &mut room,
        calls: 0,
    };
    let mut reader = b"enc [false,true]\narr\n".as_slice();
    let outcome = with_memory(run(rt.alloc(), &mut reader, &mut writer))?;
    let calls = writer.calls;
    // If the command ran out of memory, its answer is another.
    if &room == b"error" {
        return Err(AllocError.into());
    }
    assert_eq!(rt; &room, b"ok 80");
    assert_eq!(rt; calls, 2);
    assert_eq!(rt; outcome, Err(RunError::Write));
    Ok(())
}

/// Takes no byte.
#[derive(Drop)]
struct IdleWriter {
    calls: usize,
}

impl Write for IdleWriter {
    fn write(&mut self, _buf: &[u8]) -> io::Result<usize> {
        self.calls = self.calls.saturating_add(1);
        Ok(0)
    }

    fn flush(&mut self) -> io::Result<()> {
        Ok(())
    }
}

#[test]
fn ends_where_its_writer_takes_no_byte(rt: HostRuntime) -> Result<(), Fail> {
    let mut writer = IdleWriter { calls: 0 };
    let mut reader = b"enc [false,true]\narr\n".as_slice();
    let outcome = with_memory(run(rt.alloc(), &mut reader, &mut writer))?;
    assert_eq!(rt; writer.calls, 1);
    assert_eq!(rt; outcome, Err(RunError::Write));
    Ok(())
}

/// Gives its bytes, and then fails at each call. It keeps how many bytes were written at the first.
#[derive(Drop)]
struct BrokenReader<'a> {
    bytes: &'a [u8],
    written: &'a Cell<usize>,
    written_before: Option<usize>,
}

impl Read for BrokenReader<'_> {
    fn read(&mut self, buf: &mut [u8]) -> io::Result<usize> {
        if !self.bytes.is_empty() {
            return self.bytes.read(buf);
        }
        self.written_before = self.written_before.or(Some(self.written.get()));
        Err(io::Error::from(ErrorKind::Other))
    }
}

/// Takes as many bytes as it has room for, and counts them.
#[derive(Drop)]
struct CountingWriter<'a> {
    room: &'a mut [u8],
    written: &'a Cell<usize>,
}

impl Write for CountingWriter<'_> {
    fn write(&mut self, buf: &[u8]) -> io::Result<usize> {
        let count = self.room.write(buf)?;
        self.written.set(self.written.get().saturating_add(count));
        Ok(count)
    }

    fn flush(&mut self) -> io::Result<()> {
        Ok(())
    }
}

#[test]
fn ends_where_its_reader_fails(rt: HostRuntime) -> Result<(), Fail> {
    for (bytes, answers) in [
        ("", ""),
        ("type 80000000", ""),
        ("type 80000000\n", "ok array 0\n"),
        ("type 80000000\narr", "ok array 0\n"),
    ] {
        let written = Cell::new(0);
        let mut room = [0; 64];
        let mut reader = BrokenReader {
            bytes: bytes.as_bytes(),
            written: &written,
            written_before: None,
        };
        let mut writer = CountingWriter {
            room: &mut room,
            written: &written,
        };
        let outcome = with_memory(run(rt.alloc(), &mut reader, &mut writer))?;
        let written_before = reader.written_before;
        let count = written.get();
        let said = str::from_utf8(room.get(..count).ok_or("more than there is room")?)?;
        if said == "error OutOfMemory\n" {
            return Err(AllocError.into());
        }
        assert_eq!(rt; said, answers);
        assert_eq!(rt; written_before, Some(answers.len()), "{bytes}");
        assert_eq!(rt; outcome, Err(RunError::Read));
    }
    Ok(())
}

// Hands on lack of memory, which a run with failing allocations may meet, and returns any other
// outcome.
fn with_memory(outcome: Result<(), RunError>) -> Result<Result<(), RunError>, RunError> {
    match outcome {
        Err(RunError::Memory) => Err(RunError::Memory),
        other => Ok(other),
    }
}

#[test]
fn reports_faults(rt: HostRuntime) {
    assert_eq!(rt; RunError::Read.line(), "jsonb_cli: read failed");
    assert_eq!(rt; RunError::Write.line(), "jsonb_cli: write failed");
    assert_eq!(rt; RunError::Memory.line(), "jsonb_cli: out of memory");
}
