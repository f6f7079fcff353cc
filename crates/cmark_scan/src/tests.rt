//! Runs of the program over arrays, and over readers and writers that fail.
mod cuts;
mod faults;
mod html;
mod label;
mod line;
mod memory;
mod unescaping;

use crate::program::run_program;
use std::alloc::{AllocError, Global};
use std::fmt::Debug;
use std::io::{self, Error, Read, Write};
use std::process::Abort;

// Gives one byte a call, and fails where it has none left.
#[derive(Drop)]
struct FailingReader<'a> {
    rest: &'a [u8],
}

impl Read for FailingReader<'_> {
    fn read(&mut self, buf: &mut [u8]) -> io::Result<usize> {
        let Some((first, rest)) = self.rest.split_first() else {
            return Err(Error::other("read"));
        };
        let Some(room) = buf.first_mut() else {
            return Ok(0);
        };
        *room = *first;
        self.rest = rest;
        Ok(1)
    }
}

// Gives one `x` a call, counts the calls, and sees that each asks for 4,096 bytes.
#[derive(Drop)]
struct EndlessReader {
    reads: u64,
    asked_for_less_or_more: bool,
}

impl EndlessReader {
    fn new() -> EndlessReader {
        EndlessReader {
            reads: 0,
            asked_for_less_or_more: false,
        }
    }
}

impl Read for EndlessReader {
    fn read(&mut self, buf: &mut [u8]) -> io::Result<usize> {
        self.reads = self.reads.saturating_add(1);
        self.asked_for_less_or_more |= buf.len() != 4096;
        let Some(room) = buf.first_mut() else {
            return Ok(0);
        };
        *room = b'x';
        Ok(1)
    }
}

// Fails at each write, and counts them.
#[derive(Drop)]
struct FailingWriter {
    writes: u64,
}

impl Write for FailingWriter {
    fn write(&mut self, _buf: &[u8]) -> io::Result<usize> {
        self.writes = self.writes.saturating_add(1);
        Err(Error::other("write"))
    }

    fn flush(&mut self) -> io::Result<()> {
        Ok(())
    }
}

const ROOM: usize = 128;

// Takes one byte a call into an array, so without memory, and none where the array is full.
#[derive(Drop)]
struct ArrayWriter {
    bytes: [u8; ROOM],
    len: usize,
}

impl ArrayWriter {
    fn new() -> ArrayWriter {
        ArrayWriter {
            bytes: [0; ROOM],
            len: 0,
        }
    }

    fn taken(&self) -> &[u8] {
        &self.bytes[..self.len.min(ROOM)]
    }
}

impl Write for ArrayWriter {
    fn write(&mut self, buf: &[u8]) -> io::Result<usize> {
        let Some(first) = buf.first() else {
            return Ok(0);
        };
        let Some(room) = self.bytes.get_mut(self.len) else {
            return Ok(0);
        };
        *room = *first;
        self.len = self.len.saturating_add(1);
        Ok(1)
    }

    fn flush(&mut self) -> io::Result<()> {
        Ok(())
    }
}

// How a run ends: its status, and what it writes to standard error.
type End<'a> = (u8, &'a [u8]);

const DONE: End<'static> = (0, b"");

fn assert_same<T: Debug + Drop + PartialEq>(rt: &impl Abort, found: T, expected: T) {
    assert_eq!(rt; found, expected);
}

// What a call makes. The test stops where memory is refused.
fn made<T>(rt: &impl Abort, value: Result<T, AllocError>) -> T {
    value.expect(rt, "memory")
}

// A run over this reader and this writer ends so.
fn assert_end<R: Read, W: Write>(
    rt: &impl Abort,
    alloc: Global,
    words: &[&str],
    input: &mut R,
    output: &mut W,
    end: End<'_>,
) {
    let mut faults = ArrayWriter::new();
    let status = run_program(alloc, words, input, output, &mut faults);
    assert_same(rt, (words, (status, faults.taken())), (words, end));
}

// A run over these bytes prints this, and ends so.
fn assert_run(
    rt: &impl Abort,
    alloc: Global,
    (words, mut input): (&[&str], &[u8]),
    printed: &str,
    end: End<'_>,
) {
    let mut output = ArrayWriter::new();
    assert_end(rt, alloc, words, &mut input, &mut output, end);
    assert_same(
        rt,
        (words, input, output.taken()),
        (words, b"", printed.as_bytes()),
    );
}

// The words and the input of a run of the program; its status, and what it prints.
type Row = ((&'static [&'static str], &'static [u8]), (u8, &'static str));

// The runs read their input to its end, print this, end so, and write nothing to standard error.
fn assert_rows(rt: &impl Abort, alloc: Global, rows: &[Row]) {
    for ((words, input), (status, printed)) in rows {
        assert_run(rt, alloc, (*words, *input), printed, (*status, b""));
    }
}

// Input that isn't UTF-8 prints nothing, and ends so.
fn assert_not_text(rt: &impl Abort, alloc: Global, words: &[&str], input: &[u8]) {
    assert_run(rt, alloc, (words, input), "", (1, b"not UTF-8\n"));
}

// An input, and what a run that is done prints.
type Done = (&'static [u8], &'static str);

// Runs of these words are done, and print these.
fn assert_done(rt: &impl Abort, alloc: Global, words: &[&str], rows: &[Done]) {
    for (input, printed) in rows {
        assert_run(rt, alloc, (words, *input), printed, DONE);
    }
}
