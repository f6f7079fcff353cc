//! The worked rows of the scanners, each made as a call by `tests_cases`, which compares its answer.
mod blocks;
mod inline;
mod labels;
mod line_starts;
mod lines;
mod tags;

use crate::asserts::{assert_same, made};
use std::alloc::{AllocError, Global};
use std::process::Abort;
use std::str::from_utf8;
use tests_cases::replay::replay_cases;

// Writes digits so many times, where `repeated` is the two with an asterisk between them.
fn push_repeated(cases: &mut Vec<u8>, repeated: &str) -> Result<(), AllocError> {
    if let Some((digits, count)) = repeated.split_once('*') {
        for _ in 0..count.parse::<usize>().unwrap_or(0) {
            cases.extend_from_slice(digits.as_bytes())?;
        }
    }
    Ok(())
}

// Writes what comes before the next brace; where braces come first, what these repeat.
fn push_part(cases: &mut Vec<u8>, part: &str) -> Result<(), AllocError> {
    let Some((repeated, rest)) = part.split_once('}') else {
        return cases.extend_from_slice(part.as_bytes());
    };
    push_repeated(cases, repeated)?;
    cases.extend_from_slice(rest.as_bytes())
}

// The rows, with `{61*999}` written out.
fn written_out(alloc: Global, rows: &str) -> Result<Vec<u8>, AllocError> {
    let mut cases = Vec::new(alloc);
    for part in rows.split('{') {
        push_part(&mut cases, part)?;
    }
    Ok(cases)
}

// All rows agree: they are so many.
fn assert_agree(rt: &impl Abort, alloc: Global, rows: &str, expected: &str) {
    let cases = made(rt, written_out(alloc, rows));
    let mut output = Vec::new(alloc);
    let mut faults = Vec::new(alloc);
    let status = replay_cases(alloc, &mut cases.as_slice(), &mut output, &mut faults);
    assert_same(rt, from_utf8(&output), Ok(expected));
    assert_same(rt, (status, faults.len()), (0, 0));
}

#[test]
fn lines_runs_and_indents(rt: HostRuntime) {
    assert_agree(&rt, rt.alloc(), lines::ROWS, "41 agree, 0 differ\n");
}

#[test]
fn starts_of_blocks(rt: HostRuntime) {
    assert_agree(&rt, rt.alloc(), blocks::ROWS, "103 agree, 0 differ\n");
}

#[test]
fn references_escapes_and_links(rt: HostRuntime) {
    assert_agree(&rt, rt.alloc(), inline::ROWS, "85 agree, 0 differ\n");
}

#[test]
fn tags_and_html_blocks(rt: HostRuntime) {
    assert_agree(&rt, rt.alloc(), tags::ROWS, "195 agree, 0 differ\n");
}

#[test]
fn link_labels(rt: HostRuntime) {
    assert_agree(&rt, rt.alloc(), labels::ROWS, "32 agree, 0 differ\n");
}

#[test]
fn calls_on_line_starts(rt: HostRuntime) {
    assert_agree(&rt, rt.alloc(), line_starts::ROWS, "92 agree, 0 differ\n");
}
