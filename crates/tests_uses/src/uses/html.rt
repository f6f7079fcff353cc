//! Tests of `parser_uses::html`.
use crate::asserts::{assert_elements, assert_same, found, made};
use markdown_scanners_tree::inline_html::HtmlRun;
use parser_uses::html::{html_ends, inline_html, tag_in_quote};
use std::alloc::AllocError;
use std::process::Abort;

#[test]
fn comments_and_instructions_are_found(rt: HostRuntime) {
    let pieces = inline_html(rt.alloc(), b"a <!-- <!b> --> <?php?> <!--");
    assert_elements(&rt, pieces, &[(2, 15), (16, 23)]);
}

// A run that goes to its end has these answers.
fn assert_answers(rt: &impl Abort, run: Result<HtmlRun, AllocError>, expected: &[Option<usize>]) {
    let run = made(rt, run);
    assert_same(rt, run.answers.as_slice(), expected);
    assert!(rt; run.stop.is_none());
}

#[test]
fn chosen_openers_have_their_ends(rt: HostRuntime) {
    let run = html_ends(rt.alloc(), b"<!a> <!-- b", &[2, 7]);
    assert_answers(&rt, run, &[Some(4), None]);
}

// The tag that a call finds, and its length.
fn assert_tag(
    rt: &impl Abort,
    tag: Result<Option<(Vec<u8>, usize)>, AllocError>,
    expected: (&[u8], usize),
) {
    let (tag, length) = found(rt, made(rt, tag));
    assert_same(rt, (tag.as_slice(), length), expected);
}

#[test]
fn a_tag_loses_the_markers_of_its_quote(rt: HostRuntime) {
    let tag = tag_in_quote(rt.alloc(), b"<img\n> alt='x'>\n");
    assert_tag(&rt, tag, (b"<img\nalt='x'>", 15));
}
