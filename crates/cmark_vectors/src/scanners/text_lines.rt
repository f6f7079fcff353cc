//! The lines of a text, one after the other.
use crate::asserts::assert_answer;
use markdown_scanners_tree::scanners::{scan_line, scan_lines};
use std::process::Abort;

// The lines of the text are these, and none follows, whenever it is asked.
fn assert_lines(rt: &impl Abort, text: &[u8], expected: &[&[u8]]) {
    let mut lines = scan_lines(text);
    for line in expected {
        assert_answer(rt, line, lines.next(), Some(*line));
    }
    for _ in 0..2 {
        assert_answer(rt, &text, lines.next(), None);
    }
}

#[test]
fn takes_each_line_with_its_ending(rt: HostRuntime) {
    assert_lines(
        &rt,
        b"a\n\r\r\n\nb\rc\r",
        &[b"a\n", b"\r", b"\r\n", b"\n", b"b\r", b"c\r"],
    );
    assert_lines(&rt, b"", &[]);
}

#[test]
fn ends_with_what_has_no_ending(rt: HostRuntime) {
    assert_lines(&rt, b"a\x0b\x0c\x85\nb", &[b"a\x0b\x0c\x85\n", b"b"]);
}

#[test]
fn goes_line_by_line(rt: HostRuntime) {
    let mut count: usize = 0;
    for line in scan_lines(b"# a\r\n\r\n> b\n> c\r- d\n") {
        assert_answer(&rt, &line, scan_line(line), line.len());
        count = count.saturating_add(1);
    }
    assert_answer(&rt, &"all lines", count, 5);
}
