//! Runs of the command for inline HTML.
use super::{DONE, Done, assert_done, assert_end, assert_same, made};
use std::alloc::Global;
use std::process::Abort;

pub(super) const HTML: &[&str] = &["html"];

const SCANS: &[Done] = &[
    (
        b"<!-- <!x> <!-- <![CDATA[ ]]>",
        "2 none\n7 9\n12 none\n17 28\npassed 42 of 144\n",
    ),
    (b"", "passed 0 of 0\n"),
    (b"no opener", "passed 0 of 36\n"),
    (b"<!DOCTYPE html>", "2 15\npassed 13 of 68\n"),
    (b"<!-->", "2 5\npassed 5 of 28\n"),
    (b"<!->", "2 none\npassed 2 of 24\n"),
    (b"<!", "2 none\npassed 1 of 16\n"),
    (b"<![CDATA[", "2 none\npassed 7 of 44\n"),
    (b"<?a?>", "2 5\npassed 3 of 28\n"),
    (b"<!a><!b>", "2 4\n6 8\npassed 4 of 48\n"),
    (b"<!-x<!-->", "2 none\n6 9\npassed 7 of 52\n"),
    (b"<!a<!>x", "2 6\npassed 4 of 36\n"),
    (
        b"<!-- a <!-- b --> <!-- c",
        "2 17\n20 none\npassed 23 of 112\n",
    ),
];

#[test]
fn prints_scans_of_inline_html(rt: HostRuntime) {
    assert_done(&rt, rt.alloc(), HTML, SCANS);
}

// A part that is repeated, how often, and the last line that is printed.
type Hostile = (&'static [u8], usize, &'static str);

const HOSTILE_TEXTS: &[Hostile] = &[
    (b"<!--", 5000, "\npassed 24999 of 120000\n"),
    (b"<![CDATA[", 5000, "\npassed 79991 of 220000\n"),
    (b"<!a", 5000, "\npassed 19997 of 100000\n"),
    (b"<?", 5000, "\npassed 9998 of 80000\n"),
    (b"<!--<![CDATA[<!a<?", 1000, "\npassed 80952 of 104000\n"),
    (b"<!-->", 5000, "\npassed 25000 of 140000\n"),
];

// The last line that a run over this text prints.
fn assert_last_line(rt: &impl Abort, alloc: Global, mut text: &[u8], last_line: &str) {
    let mut output = Vec::new(alloc);
    assert_end(rt, alloc, HTML, &mut text, &mut output, DONE);
    let is_last = output.ends_with(last_line.as_bytes());
    assert_same(rt, (last_line, is_last), (last_line, true));
}

// The same of a part that is repeated.
fn assert_hostile(rt: &impl Abort, alloc: Global, (part, count, last_line): Hostile) {
    let text = made(rt, part.repeat(alloc, count));
    assert_last_line(rt, alloc, &text, last_line);
}

#[test]
fn passes_over_hostile_texts_once(rt: HostRuntime) {
    for hostile in HOSTILE_TEXTS {
        assert_hostile(&rt, rt.alloc(), *hostile);
    }
}
