//! Calls on the start of a line: clones, and hostile lines.
mod cuts;
mod resumed;
mod run;

use crate::asserts::{assert_answer, made};
use crate::texts::long_text;
use markdown_scanners_tree::line::LineStart;
use std::process::Abort;

#[test]
fn clones_a_place_inside_a_tab(rt: HostRuntime) {
    let mut start = LineStart::new(b"\tx");
    assert_answer(&rt, &"taken", start.scan_space_upto(3), 3);
    let mut copy = made(&rt, start.clone());
    assert!(rt; copy.scan_space(1) && copy.remaining_space() == 0);
    assert!(rt; start.remaining_space() == 1 && start.bytes_scanned() == 1);
}

fn takes_marker(start: &mut LineStart<'_>) -> bool {
    start.scan_list_marker_with_indent(0).is_some()
}

// Calls for a list item's marker, each on a clone of the line start that the call before it left.
// Answers how many found one, and how many bytes are scanned.
fn pass_markers_by_clones(rt: &impl Abort, line: &[u8], calls: usize) -> (usize, usize) {
    let mut start = LineStart::new(line);
    let mut found: usize = 0;
    for _ in 0..calls {
        start = made(rt, start.clone());
        found = found.saturating_add(usize::from(takes_marker(&mut start)));
    }
    (found, start.bytes_scanned())
}

// Were a clone to forget that no thematic break begins up to the end of the line, this run would
// read some 10^11 bytes and not end within a test's time.
#[test]
fn clones_know_where_no_thematic_break_begins(rt: HostRuntime) {
    let line = made(&rt, long_text(rt.alloc(), b"", b"- ", 400_000, b"x"));
    let passed = pass_markers_by_clones(&rt, &line, 400_000);
    assert_answer(&rt, &"bullets", passed, (400_000, 800_000));
}

// The line is a thematic break. Were a clone to forget that, each call would read the whole line.
#[test]
fn clones_know_where_a_thematic_break_begins(rt: HostRuntime) {
    let line = made(&rt, long_text(rt.alloc(), b"", b"- ", 400_000, b"\n"));
    let passed = pass_markers_by_clones(&rt, &line, 400_000);
    assert_answer(&rt, &"bullets", passed, (0, 0));
}

// The marker that a clone of the line start takes.
fn marker_of_clone(rt: &impl Abort, start: &LineStart<'_>) -> Option<(u8, u64, usize)> {
    made(rt, start.clone()).scan_list_marker_with_indent(0)
}

fn assert_markers_of_clones(rt: &impl Abort, line: &[u8]) {
    let mut start = LineStart::new(line);
    for _ in 0..200_000 {
        takes_marker(&mut start);
    }
    assert_answer(rt, &"scanned", start.bytes_scanned(), 400_000);
    for call in 0..200_000 {
        assert_answer(rt, &call, marker_of_clone(rt, &start), Some((b'-', 0, 2)));
    }
}

// Clones of one line start in the middle of a line, none of which looks at the rest of it again.
#[test]
fn clones_in_the_middle_of_a_line_read_no_more(rt: HostRuntime) {
    let line = made(&rt, long_text(rt.alloc(), b"", b"- ", 400_000, b"x"));
    assert_markers_of_clones(&rt, &line);
}
