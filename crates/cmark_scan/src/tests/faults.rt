//! Other words, and readers and writers that fail.
use super::{ArrayWriter, EndlessReader, FailingReader, FailingWriter, assert_end, assert_same};
use crate::program::run_program;
use std::alloc::Global;
use std::io::Read;
use std::process::Abort;

const USAGE: &[u8] = b"usage: cmark_scan line CALL.. | html | label | unescape\n";

const REFUSED: &[&[&str]] = &[
    &[],
    &[""],
    &["lines"],
    &["LINE"],
    &["htm"],
    &["html", "html"],
    &["html", ""],
    &["line", "html"],
    &["label", "label"],
    &["unescape", ""],
    &["line", "line"],
    &["line", ""],
    &["line", "space"],
    &["line", "space:"],
    &["line", "space:+3"],
    &["line", "space:-3"],
    &["line", "space: 3"],
    &["line", "space:3:3"],
    &["line", "upto:18446744073709551616"],
    &["line", "eol:1"],
    &["line", ":3"],
    &["line", "list:"],
    &["line", "definition:0"],
    &["line", "eol", "eols"],
];

// A run of these words, which are refused, reads nothing and writes nothing.
fn assert_refused(rt: &impl Abort, alloc: Global, words: &[&str]) {
    let mut input = EndlessReader::new();
    let mut output = FailingWriter { writes: 0 };
    assert_end(rt, alloc, words, &mut input, &mut output, (2, USAGE));
    assert_same(rt, (input.reads, output.writes), (0, 0));
}

#[test]
fn refuses_other_words(rt: HostRuntime) {
    for words in REFUSED {
        assert_refused(&rt, rt.alloc(), words);
    }
}

const COMMANDS: &[&[&str]] = &[&["line"], &["html"], &["label"], &["unescape"]];

// A run over this reader ends with this fault, after so many writes, each of which fails.
fn assert_fault<R: Read>(
    rt: &impl Abort,
    alloc: Global,
    (words, input): (&[&str], &mut R),
    writes: u64,
    fault: &[u8],
) {
    let mut output = FailingWriter { writes: 0 };
    assert_end(rt, alloc, words, input, &mut output, (3, fault));
    assert_same(rt, output.writes, writes);
}

// A run over a reader that fails after these bytes reports it, and writes nothing.
fn assert_read_fault(rt: &impl Abort, alloc: Global, words: &[&str], rest: &[u8]) {
    let mut input = FailingReader { rest };
    assert_fault(rt, alloc, (words, &mut input), 0, b"read fault\n");
}

#[test]
fn reports_a_read_fault(rt: HostRuntime) {
    for words in COMMANDS {
        assert_read_fault(&rt, rt.alloc(), words, b"");
        assert_read_fault(&rt, rt.alloc(), words, b"x");
    }
}

#[test]
fn reports_an_endless_reader(rt: HostRuntime) {
    let mut input = EndlessReader::new();
    let run = (["line"].as_slice(), &mut input);
    assert_fault(&rt, rt.alloc(), run, 0, b"read fault\n");
    let expected = (1_048_576, false);
    assert_same(&rt, (input.reads, input.asked_for_less_or_more), expected);
}

// A run over a text and a writer that fails reports it, after one write.
fn assert_write_fault(rt: &impl Abort, alloc: Global, words: &[&str]) {
    let mut input = b"x]".as_slice();
    assert_fault(rt, alloc, (words, &mut input), 1, b"write fault\n");
}

#[test]
fn reports_a_write_fault(rt: HostRuntime) {
    for words in COMMANDS {
        assert_write_fault(&rt, rt.alloc(), words);
    }
}

// A run over a reader that fails, and a writer of faults that fails too, has this status.
fn assert_status(rt: &impl Abort, alloc: Global, words: &[&str], status: u8) {
    let mut input = FailingReader { rest: b"" };
    let mut output = ArrayWriter::new();
    let mut faults = FailingWriter { writes: 0 };
    let found = run_program(alloc, words, &mut input, &mut output, &mut faults);
    assert_same(rt, (found, faults.writes, output.len), (status, 1, 0));
}

#[test]
fn keeps_its_status_where_a_fault_cannot_be_reported(rt: HostRuntime) {
    assert_status(&rt, rt.alloc(), &["other"], 2);
    assert_status(&rt, rt.alloc(), &["line"], 3);
}
