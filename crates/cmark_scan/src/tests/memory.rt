//! Runs over arrays. `rt try --test --fail-alloc N -- memory` refuses each test its N-th request for
//! memory.
use super::{ArrayWriter, DONE, End, assert_same};
use crate::program::run_program;
use std::alloc::Global;
use std::process::Abort;

// The words, the input, and what is printed.
type Run = (&'static [&'static str], &'static [u8], &'static str);

// Whether a run over arrays is done, and prints this. Else it is refused memory: it reports that,
// and prints nothing.
fn is_done(rt: &impl Abort, alloc: Global, (words, mut input, printed): Run) -> bool {
    let mut output = ArrayWriter::new();
    let mut faults = ArrayWriter::new();
    let status = run_program(alloc, words, &mut input, &mut output, &mut faults);
    let is_done = status == 0;
    let expected: (&[u8], End<'_>) = if is_done {
        (printed.as_bytes(), DONE)
    } else {
        (b"", (3, b"out of memory\n"))
    };
    let found = (output.taken(), (status, faults.taken()));
    assert_same(rt, (words, found), (words, expected));
    is_done
}

// Of two runs, of which no more than one is refused memory, one is done at least.
fn assert_done_or_refused(rt: &impl Abort, alloc: Global, run: Run) {
    let first = is_done(rt, alloc, run);
    let second = is_done(rt, alloc, run);
    assert_same(rt, (run.0, first || second), (run.0, true));
}

#[test]
fn a_line_is_done_or_refused_memory(rt: HostRuntime) {
    let words = &["line", "quote", "upto:3", "list:2"];
    let printed = "quote true\nupto 2\nlist - 0 4\nscanned 4\nrest 78\n";
    assert_done_or_refused(&rt, rt.alloc(), (words, b">\t- x", printed));
}

#[test]
fn scans_of_html_are_done_or_refused_memory(rt: HostRuntime) {
    let text = b"<!-- <!x> <!-- <![CDATA[ ]]>";
    let printed = "2 none\n7 9\n12 none\n17 28\npassed 42 of 144\n";
    assert_done_or_refused(&rt, rt.alloc(), (&["html"], text, printed));
}

#[test]
fn a_label_is_done_or_refused_memory(rt: HostRuntime) {
    let printed = "bytes 9\nborrowed false\nlabel Foo Bar\n";
    assert_done_or_refused(&rt, rt.alloc(), (&["label"], b"Foo  Bar]", printed));
}

#[test]
fn a_text_is_done_or_refused_memory(rt: HostRuntime) {
    let run: Run = (&["unescape"], b"&lt;a&gt; \\*b", "<a> *b");
    assert_done_or_refused(&rt, rt.alloc(), run);
}
