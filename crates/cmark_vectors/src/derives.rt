//! The derives of the runs, of the references and of the values, called through their bounds.
mod values;

use crate::asserts::made;
use crate::bounds::debug_printed;
use markdown_scanners_tree::inline_html::{HtmlStop, run_inline_html};
use markdown_scanners_tree::line::{LineAnswer, LineCall, LineStop, run_line};
use markdown_scanners_tree::linklabel::ReferenceLabel;
use markdown_values::strings::CowStr;
use std::alloc::Global;
use std::fmt::Debug;
use std::process::Abort;

// Two values of one type are printed, and differ.
fn assert_different<T: Debug + Drop + PartialEq>(rt: &impl Abort, alloc: Global, one: T, other: T) {
    let text = made(rt, debug_printed(alloc, &one));
    assert!(rt; one == one && one != other && !text.is_empty());
}

#[test]
fn answers_are_compared(rt: HostRuntime) {
    let alloc = rt.alloc();
    assert_different(&rt, alloc, LineCall::Eol, LineCall::Quote);
    assert_different(&rt, alloc, LineAnswer::Count(0), LineAnswer::Count(1));
    assert_different(&rt, alloc, LineStop::SpacePending, LineStop::IndentTooLarge);
    assert_different(&rt, alloc, HtmlStop::NoOpener, HtmlStop::NotRising);
}

#[test]
fn runs_of_lines_are_compared(rt: HostRuntime) {
    let alloc = rt.alloc();
    let empty = made(&rt, run_line(alloc, b"", &[]));
    let other = made(&rt, run_line(alloc, b"", &[LineCall::Eol]));
    assert_different(&rt, alloc, empty, other);
}

#[test]
fn runs_of_html_are_compared(rt: HostRuntime) {
    let alloc = rt.alloc();
    let empty = made(&rt, run_inline_html(alloc, b"<!", &[]));
    let other = made(&rt, run_inline_html(alloc, b"<!", &[2]));
    assert_different(&rt, alloc, empty, other);
}

fn are_printed_alike(
    rt: &impl Abort,
    alloc: Global,
    one: &ReferenceLabel<'_>,
    other: &ReferenceLabel<'_>,
) -> bool {
    made(rt, debug_printed(alloc, one)) == made(rt, debug_printed(alloc, other))
}

#[test]
fn references_are_printed_by_debug(rt: HostRuntime) {
    let link = ReferenceLabel::Link(CowStr::from("a"));
    let note = ReferenceLabel::Footnote(CowStr::from("a"));
    assert!(rt; !are_printed_alike(&rt, rt.alloc(), &link, &note));
}
