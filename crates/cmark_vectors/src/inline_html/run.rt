//! Runs of steps at offsets of a text: what they find, and the bytes passed over.
use crate::asserts::{assert_answer, made};
use markdown_scanners_tree::inline_html::{HtmlRun, HtmlStop, InlineHtmlRun, run_inline_html};
use std::alloc::Global;
use std::process::Abort;

/// Four bytes for each byte of the text, and eight for each step.
pub(super) fn budget(size: usize, steps: usize) -> u128 {
    4 * size as u128 + 8 * steps as u128
}

// A text and places of it, what a run there finds, and the bytes passed over.
type Row = (
    &'static [u8],
    &'static [usize],
    &'static [Option<usize>],
    u128,
);

fn is_run(run: &HtmlRun, row: &Row, stop: &Option<(usize, HtmlStop)>) -> bool {
    run.answers.as_slice() == row.2 && run.passed == row.3 && run.stop == *stop
}

fn assert_run(rt: &impl Abort, alloc: Global, row: &Row, stop: &Option<(usize, HtmlStop)>) {
    let run = made(rt, run_inline_html(alloc, row.0, row.1));
    assert_answer(rt, &row.0, is_run(&run, row, stop), true);
}

// Runs that no offset stops, and the most that the budget of each allows.
const FOUND: [(Row, u128); 9] = [
    (
        (
            b"<!-- <!x> <!-- <![CDATA[ ]]>",
            &[2, 7, 12, 17],
            &[None, Some(9), None, Some(28)],
            42,
        ),
        144,
    ),
    ((b"<!DOCTYPE html>", &[2], &[Some(15)], 13), 68),
    ((b"<!-->", &[2], &[Some(5)], 5), 28),
    ((b"<!->", &[2], &[None], 2), 24),
    ((b"<!", &[2], &[None], 1), 16),
    ((b"<![CDATA[", &[2], &[None], 7), 44),
    ((b"<?a?>", &[2], &[Some(5)], 3), 28),
    ((b"<!a><!b>", &[2, 6], &[Some(4), Some(8)], 4), 48),
    ((b"<!-x<!-->", &[2, 6], &[None, Some(9)], 7), 52),
];

#[test]
fn runs_answer_and_count(rt: HostRuntime) {
    let alloc = rt.alloc();
    for (row, most) in &FOUND {
        assert_run(&rt, alloc, row, &None);
        assert_answer(&rt, &row.0, budget(row.0.len(), row.1.len()), *most);
    }
}

#[test]
fn a_run_ends_before_a_refused_place(rt: HostRuntime) {
    let row: Row = (b"<!-- a <!-- b --> <!-- c", &[2, 9, 20], &[Some(17)], 17);
    let stop = Some((1, HtmlStop::InsideFind));
    assert_run(&rt, rt.alloc(), &row, &stop);
}

// An offset, what a step there answers, the bytes passed over by then, and the steps.
type Step = (usize, Result<Option<usize>, HtmlStop>, u128, usize);

fn is_step(run: &mut InlineHtmlRun<'_>, step: &Step) -> bool {
    run.step(step.0) == step.1 && run.passed() == step.2 && run.steps() == step.3
}

fn assert_steps(rt: &impl Abort, run: &mut InlineHtmlRun<'_>, steps: &[Step]) {
    for step in steps {
        assert!(rt; is_step(run, step), "at {}", step.0);
    }
}

const COUNTED: [Step; 4] = [
    (2, Ok(None), 28, 1),
    (7, Ok(Some(9)), 30, 2),
    (12, Ok(None), 31, 3),
    (17, Ok(Some(28)), 42, 4),
];

#[test]
fn each_scan_of_a_run_is_counted(rt: HostRuntime) {
    let mut run = InlineHtmlRun::new(b"<!-- <!x> <!-- <![CDATA[ ]]>");
    assert_steps(&rt, &mut run, &COUNTED);
}

const BEHIND_A_REFUSED_PLACE: [Step; 3] = [
    (2, Ok(Some(17)), 17, 1),
    (9, Err(HtmlStop::InsideFind), 17, 1),
    (20, Ok(None), 23, 2),
];

#[test]
fn a_step_follows_a_refused_place(rt: HostRuntime) {
    let mut run = InlineHtmlRun::new(b"<!-- a <!-- b --> <!-- c");
    assert_steps(&rt, &mut run, &BEHIND_A_REFUSED_PLACE);
    assert_answer(&rt, &"budget", budget(24, run.steps()), 112);
}

const REFUSED: [Step; 6] = [
    (0, Err(HtmlStop::NoOpener), 0, 0),
    (1, Err(HtmlStop::NoOpener), 0, 0),
    (8, Err(HtmlStop::NoOpener), 0, 0),
    (2, Ok(Some(6)), 4, 1),
    (2, Err(HtmlStop::NotRising), 4, 1),
    (5, Err(HtmlStop::InsideFind), 4, 1),
];

#[test]
fn refused_places_change_nothing(rt: HostRuntime) {
    assert_steps(&rt, &mut InlineHtmlRun::new(b"<!a<!>x"), &REFUSED);
}
