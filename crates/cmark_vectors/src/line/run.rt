//! Runs of calls on a line: where they stop, what is left, and hostile lines.
use crate::asserts::made;
use crate::texts::long_text;
use markdown_scanners_tree::line::LineAnswer::{Count, Flag};
use markdown_scanners_tree::line::LineCall::{Eol, Quote, Space, Upto};
use markdown_scanners_tree::line::{LineAnswer, LineCall, LineRun, LineStop, run_line};
use std::alloc::{AllocError, Global};
use std::process::Abort;

// A line, the calls on it, and their answers; the bytes scanned, the rest, and where the run
// stopped.
#[derive(Drop)]
struct Row<'a> {
    line: &'a [u8],
    calls: &'a [LineCall],
    answers: &'a [LineAnswer],
    scanned: usize,
    rest: &'a [u8],
    stop: Option<(usize, LineStop)>,
}

fn is_run(run: &LineRun, row: &Row<'_>) -> bool {
    run.answers.as_slice() == row.answers
        && run.scanned == row.scanned
        && run.rest.as_slice() == row.rest
        && run.stop == row.stop
}

fn assert_run(rt: &impl Abort, alloc: Global, row: &Row<'_>) {
    let run = made(rt, run_line(alloc, row.line, row.calls));
    assert!(rt; is_run(&run, row), "on {:?}", row.line);
}

fn assert_runs(rt: &impl Abort, alloc: Global, rows: &[Row<'_>]) {
    for row in rows {
        assert_run(rt, alloc, row);
    }
}

const OVER_SPACES: [Row<'static>; 7] = [
    Row {
        line: b"   x",
        calls: &[Upto(2), Space(1), Eol],
        answers: &[Count(2), Flag(true), Flag(false)],
        scanned: 3,
        rest: b"x",
        stop: None,
    },
    Row {
        line: b"x",
        calls: &[Space(1)],
        answers: &[Flag(false)],
        scanned: 0,
        rest: b"x",
        stop: None,
    },
    Row {
        line: b"  \nx",
        calls: &[Upto(9), Eol],
        answers: &[Count(2), Flag(true)],
        scanned: 2,
        rest: b"\nx",
        stop: None,
    },
    Row {
        line: b"   ",
        calls: &[Space(4), Eol],
        answers: &[Flag(false), Flag(true)],
        scanned: 3,
        rest: b"",
        stop: None,
    },
    Row {
        line: b"a",
        calls: &[],
        answers: &[],
        scanned: 0,
        rest: b"a",
        stop: None,
    },
    Row {
        line: b" x",
        calls: &[Upto(usize::MAX)],
        answers: &[Count(1)],
        scanned: 1,
        rest: b"x",
        stop: None,
    },
    Row {
        line: b"",
        calls: &[],
        answers: &[],
        scanned: 0,
        rest: b"",
        stop: None,
    },
];

const OVER_TABS: [Row<'static>; 4] = [
    Row {
        line: b"a\tb",
        calls: &[],
        answers: &[],
        scanned: 0,
        rest: b"a   b",
        stop: None,
    },
    Row {
        line: b"\tx",
        calls: &[Upto(3), Upto(5)],
        answers: &[Count(3), Count(1)],
        scanned: 1,
        rest: b"x",
        stop: None,
    },
    Row {
        line: b">\t\tx",
        calls: &[Quote, Upto(9)],
        answers: &[Flag(true), Count(6)],
        scanned: 3,
        rest: b"x",
        stop: None,
    },
    Row {
        line: b">\t- x",
        calls: &[Quote, Upto(3), LineCall::List(2)],
        answers: &[Flag(true), Count(2), LineAnswer::List(Some((b'-', 0, 4)))],
        scanned: 4,
        rest: b"x",
        stop: None,
    },
];

const MARKERS: [Row<'static>; 9] = [
    Row {
        line: b"-\tx",
        calls: &[LineCall::List(0)],
        answers: &[LineAnswer::List(Some((b'-', 0, 4)))],
        scanned: 2,
        rest: b"x",
        stop: None,
    },
    Row {
        line: b"- * * *",
        calls: &[LineCall::List(0), LineCall::List(0)],
        answers: &[LineAnswer::List(Some((b'-', 0, 2))), LineAnswer::List(None)],
        scanned: 2,
        rest: b"* * *",
        stop: None,
    },
    Row {
        line: b"123456789. x",
        calls: &[LineCall::List(0)],
        answers: &[LineAnswer::List(Some((b'.', 123_456_789, 11)))],
        scanned: 11,
        rest: b"x",
        stop: None,
    },
    Row {
        line: b"1234567890. x",
        calls: &[LineCall::List(0)],
        answers: &[LineAnswer::List(None)],
        scanned: 0,
        rest: b"1234567890. x",
        stop: None,
    },
    Row {
        line: b"-",
        calls: &[LineCall::List(0)],
        answers: &[LineAnswer::List(Some((b'-', 0, 2)))],
        scanned: 1,
        rest: b"",
        stop: None,
    },
    Row {
        line: b"-\t\tx",
        calls: &[LineCall::List(0)],
        answers: &[LineAnswer::List(Some((b'-', 0, 2)))],
        scanned: 2,
        rest: b"      x",
        stop: None,
    },
    Row {
        line: b"- x",
        calls: &[LineCall::List(18_446_744_073_709_551_599)],
        answers: &[LineAnswer::List(Some((b'-', 0, 18_446_744_073_709_551_601)))],
        scanned: 2,
        rest: b"x",
        stop: None,
    },
    Row {
        line: b":    x",
        calls: &[LineCall::Definition(0)],
        answers: &[LineAnswer::Definition(Some(5))],
        scanned: 5,
        rest: b"x",
        stop: None,
    },
    Row {
        line: b":     x",
        calls: &[LineCall::Definition(0)],
        answers: &[LineAnswer::Definition(Some(2))],
        scanned: 2,
        rest: b"    x",
        stop: None,
    },
];

#[test]
fn runs_end_with_the_rest_of_the_line(rt: HostRuntime) {
    assert_runs(&rt, rt.alloc(), &OVER_SPACES);
    assert_runs(&rt, rt.alloc(), &OVER_TABS);
    assert_runs(&rt, rt.alloc(), &MARKERS);
}

const INSIDE_A_TAB: [Row<'static>; 5] = [
    Row {
        line: b"\tx",
        calls: &[Upto(3), Eol],
        answers: &[Count(3)],
        scanned: 1,
        rest: b" x",
        stop: Some((1, LineStop::SpacePending)),
    },
    Row {
        line: b"-\t",
        calls: &[LineCall::List(0), Eol],
        answers: &[LineAnswer::List(Some((b'-', 0, 2)))],
        scanned: 2,
        rest: b"  ",
        stop: Some((1, LineStop::SpacePending)),
    },
    Row {
        line: b">\t- x",
        calls: &[Quote, Eol],
        answers: &[Flag(true)],
        scanned: 2,
        rest: b"  - x",
        stop: Some((1, LineStop::SpacePending)),
    },
    Row {
        line: b">\t- x",
        calls: &[Quote, LineCall::List(0)],
        answers: &[Flag(true)],
        scanned: 2,
        rest: b"  - x",
        stop: Some((1, LineStop::SpacePending)),
    },
    Row {
        line: b"\tx",
        calls: &[Upto(1), LineCall::List(usize::MAX)],
        answers: &[Count(1)],
        scanned: 1,
        rest: b"   x",
        stop: Some((1, LineStop::SpacePending)),
    },
];

#[test]
fn runs_stop_inside_a_tab(rt: HostRuntime) {
    assert_runs(&rt, rt.alloc(), &INSIDE_A_TAB);
}

const AT_A_LARGE_INDENT: [Row<'static>; 2] = [
    Row {
        line: b"- x",
        calls: &[LineCall::List(usize::MAX)],
        answers: &[],
        scanned: 0,
        rest: b"- x",
        stop: Some((0, LineStop::IndentTooLarge)),
    },
    Row {
        line: b": x",
        calls: &[LineCall::Definition(18_446_744_073_709_551_600)],
        answers: &[],
        scanned: 0,
        rest: b": x",
        stop: Some((0, LineStop::IndentTooLarge)),
    },
];

#[test]
fn runs_stop_at_a_large_indent(rt: HostRuntime) {
    assert_runs(&rt, rt.alloc(), &AT_A_LARGE_INDENT);
}

fn write_calls(calls: &mut Vec<LineCall>, count: usize) -> Result<(), AllocError> {
    for _ in 0..count {
        calls.push(LineCall::List(0))?;
    }
    Ok(())
}

/// So many calls for a list item's marker.
pub(super) fn list_calls(alloc: Global, count: usize) -> Result<Vec<LineCall>, AllocError> {
    let mut calls = Vec::new(alloc);
    write_calls(&mut calls, count)?;
    Ok(calls)
}

// A run on so many equal parts and what ends their line, with a call for a list item's marker for
// each part.
fn run_markers(rt: &impl Abort, alloc: Global, part: &[u8], count: usize, last: &[u8]) -> LineRun {
    let line = made(rt, long_text(alloc, b"", part, count, last));
    let calls = made(rt, list_calls(alloc, count));
    made(rt, run_line(alloc, &line, &calls))
}

// So many calls are answered so, and none is refused.
fn are_all_answered(run: &LineRun, calls: usize, scanned: usize, expected: &LineAnswer) -> bool {
    run.answers.len() == calls
        && run.scanned == scanned
        && run.stop.is_none()
        && run.answers.iter().all(|answer| *answer == *expected)
}

const MARKER: LineAnswer = LineAnswer::List(Some((b'-', 0, 2)));

const NO_MARKER: LineAnswer = LineAnswer::List(None);

#[test]
fn passes_ten_thousand_bullets(rt: HostRuntime) {
    let run = run_markers(&rt, rt.alloc(), b"- ", 10_000, b"x");
    assert!(rt; are_all_answered(&run, 10_000, 20_000, &MARKER));
    assert!(rt; run.rest.as_slice() == b"x".as_slice());
}

// Each bullet looks as if a thematic break began there, up to the end of the line. Were each looked
// at to the end, this run would read some 10^11 bytes and not end within a test's time.
#[test]
fn looks_for_a_thematic_break_once(rt: HostRuntime) {
    let run = run_markers(&rt, rt.alloc(), b"- ", 400_000, b"x");
    assert!(rt; are_all_answered(&run, 400_000, 800_000, &MARKER));
}

// The line is a thematic break, so no call passes a bullet. Were the line read to its end by each,
// this run would read some 10^11 bytes.
#[test]
fn finds_a_thematic_break_once(rt: HostRuntime) {
    let run = run_markers(&rt, rt.alloc(), b"- ", 400_000, b"\n");
    assert!(rt; are_all_answered(&run, 400_000, 0, &NO_MARKER));
}

// Ten digits are no marker, however many follow. Were all read by each call, this run would read
// some 10^11 bytes.
#[test]
fn looks_at_ten_digits(rt: HostRuntime) {
    let run = run_markers(&rt, rt.alloc(), b"1", 400_000, b". x");
    assert!(rt; are_all_answered(&run, 400_000, 0, &NO_MARKER));
}

#[test]
fn takes_a_hundred_thousand_tabs(rt: HostRuntime) {
    let line = made(&rt, long_text(rt.alloc(), b"", b"\t", 100_000, b"x"));
    let row = Row {
        line: &line,
        calls: &[Upto(usize::MAX)],
        answers: &[Count(400_000)],
        scanned: 100_000,
        rest: b"x",
        stop: None,
    };
    assert_run(&rt, rt.alloc(), &row);
}
