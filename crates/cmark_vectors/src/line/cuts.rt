//! Hostile lines, cut near their ends.
use super::run::list_calls;
use crate::asserts::{assert_answer, made};
use crate::texts::long_text;
use markdown_scanners_tree::line::{LineAnswer, LineCall, run_line};
use std::alloc::Global;
use std::process::Abort;

// A line of tabs has four columns for each, and nothing is left of it. (2.2)
fn assert_tabs(rt: &impl Abort, alloc: Global, line: &[u8]) {
    let run = made(rt, run_line(alloc, line, &[LineCall::Upto(usize::MAX)]));
    let columns = LineAnswer::Count(line.len().saturating_mul(4));
    assert_answer(rt, &line.len(), run.answers.first(), Some(&columns));
    assert_answer(
        rt,
        &line.len(),
        (run.scanned, run.rest.len()),
        (line.len(), 0),
    );
}

#[test]
fn takes_all_tabs_of_cut_lines(rt: HostRuntime) {
    let line = made(&rt, long_text(rt.alloc(), b"", b"\t", 100_000, b""));
    for cut in 0..200 {
        assert_tabs(&rt, rt.alloc(), &line[..line.len().min(cut)]);
        assert_tabs(&rt, rt.alloc(), &line[..line.len().saturating_sub(cut)]);
    }
}

// How many bytes of a line of bullets their calls scan.
fn scanned(rt: &impl Abort, alloc: Global, line: &[u8], calls: &[LineCall]) -> usize {
    let run = made(rt, run_line(alloc, line, calls));
    assert_answer(
        rt,
        &line.len(),
        (run.answers.len(), run.stop),
        (calls.len(), None),
    );
    run.scanned
}

// Three bullets with nothing after them are a thematic break (4.1), so no item. Up to two are items
// (5.2).
#[test]
fn takes_no_bullet_of_cut_lines(rt: HostRuntime) {
    let line = made(&rt, long_text(rt.alloc(), b"", b"- ", 10_000, b""));
    let calls = made(&rt, list_calls(rt.alloc(), 10_000));
    for cut in 0..200 {
        let front = scanned(&rt, rt.alloc(), &line[..line.len().min(cut)], &calls);
        assert_answer(&rt, &cut, front, if cut < 5 { cut } else { 0 });
        let part = &line[..line.len().saturating_sub(cut)];
        assert_answer(&rt, &cut, scanned(&rt, rt.alloc(), part, &calls), 0);
    }
}
