//! Inline HTML under a guard: worked rows, and texts whose bytes are counted.
mod hostile;
mod run;

use crate::asserts::assert_answer;
use markdown_scanners_tree::inline_html::{
    CountedText, HtmlScanGuard, HtmlStop, scan_inline_html_comment,
    scan_inline_html_comment_counted, scan_inline_html_counted, scan_inline_html_processing,
    scan_inline_html_processing_counted,
};
use std::process::Abort;

// The scan that the mark before the offset asks for.
fn find_at(text: &[u8], offset: usize, guard: &mut HtmlScanGuard) -> Option<usize> {
    match text.get(offset.wrapping_sub(1)) {
        Some(b'!') => scan_inline_html_comment(text, offset, guard),
        Some(b'?') if offset <= text.len() => scan_inline_html_processing(text, offset, guard),
        _ => None,
    }
}

const ENDS: [(&[u8], Option<usize>); 5] = [
    (b"<![CDATA[a]>b]]>", Some(16)),
    (b"<!-->", Some(5)),
    (b"<!--->", Some(6)),
    (b"<?>", None),
    (b"<?>?>", Some(5)),
];

#[test]
fn scans_find_where_a_construct_ends(rt: HostRuntime) {
    for (text, end) in ENDS {
        let found = find_at(text, 2, &mut HtmlScanGuard::new());
        assert_answer(&rt, &text, found, end);
    }
    let found = scan_inline_html_processing(b"?>", 0, &mut HtmlScanGuard::new());
    assert_answer(&rt, &"?>", found, None);
}

// Texts in which scans by one guard find nothing, and up to where its kinds are shut then:
// comments, processing instructions, CDATA sections and declarations.
const SHUT: [(&[u8], (usize, usize, usize, usize)); 4] = [
    (b"<!--a", (5, 0, 0, 0)),
    (b"<!-->", (5, 0, 0, 0)),
    (b"<?a", (5, 3, 0, 0)),
    (b"<??>", (5, 3, 0, 0)),
];

#[test]
fn a_scan_that_finds_no_end_shuts_its_kind(rt: HostRuntime) {
    let mut guard = HtmlScanGuard::new();
    for (text, shut) in SHUT {
        assert_answer(&rt, &text, find_at(text, 2, &mut guard), None);
        let offsets = (
            guard.comment,
            guard.processing,
            guard.cdata,
            guard.declaration,
        );
        assert_answer(&rt, &text, offsets, shut);
    }
}

const COUNTED: &[u8] = b"<!--<?a?><!--";

// A counted scan at the offset: where its construct ends, and the bytes passed over by then.
fn counted_at(
    rt: &impl Abort,
    text: &mut CountedText<'_>,
    guard: &mut HtmlScanGuard,
    offset: usize,
) -> (Option<usize>, u128) {
    assert!(rt; text.passed() < 1_000_000 && offset <= text.len());
    let end = match text.opener_before(offset) {
        Some(b'!') => scan_inline_html_comment_counted(text, offset, guard),
        _ => scan_inline_html_processing_counted(text, offset, guard),
    };
    (end, text.passed())
}

#[test]
fn counted_scans_count_what_they_pass_over(rt: HostRuntime) {
    let mut guard = HtmlScanGuard::new();
    let mut text = CountedText::new(COUNTED);
    for (offset, end, passed) in [(2, None, 13), (6, Some(9), 16), (11, None, 17)] {
        let counted = counted_at(&rt, &mut text, &mut guard, offset);
        assert_answer(&rt, &offset, counted, (end, passed));
    }
    assert_answer(&rt, &"comments", guard.comment, 13);
}

// What the scan after either opener answers, and the bytes passed over by then.
fn scanned_at(
    rt: &impl Abort,
    text: &mut CountedText<'_>,
    guard: &mut HtmlScanGuard,
    offset: usize,
) -> (Result<Option<usize>, HtmlStop>, u128) {
    assert!(rt; text.passed() < 1_000_000);
    let answer = scan_inline_html_counted(text, offset, guard);
    (answer, text.passed())
}

#[test]
fn scans_after_either_opener_count_and_refuse_other_places(rt: HostRuntime) {
    let mut guard = HtmlScanGuard::new();
    let mut text = CountedText::new(COUNTED);
    for (offset, end, passed) in [(2, None, 13), (6, Some(9), 16), (11, None, 17)] {
        let scanned = scanned_at(&rt, &mut text, &mut guard, offset);
        assert_answer(&rt, &offset, scanned, (Ok(end), passed));
    }
    for offset in [0, 1, 3, 12, 14] {
        let scanned = scanned_at(&rt, &mut text, &mut guard, offset);
        assert_answer(&rt, &offset, scanned, (Err(HtmlStop::NoOpener), 17));
    }
    assert_answer(&rt, &"comments", guard.comment, 13);
}

#[test]
fn openers_are_looked_at_uncounted(rt: HostRuntime) {
    let text = CountedText::new(COUNTED);
    assert_answer(&rt, &"length", text.len(), 13);
    for (offset, opener) in [(2, Some(b'!')), (6, Some(b'?')), (3, None)] {
        assert_answer(&rt, &offset, text.opener_before(offset), opener);
    }
    assert_answer(&rt, &"passed", text.passed(), 0);
}

// The byte at an offset, and the bytes passed over by then.
fn looked(rt: &impl Abort, text: &mut CountedText<'_>, offset: usize) -> (Option<u8>, u128) {
    assert!(rt; text.passed() < 1_000_000);
    (text.look(offset), text.passed())
}

// Whether the part stands there.
fn started(rt: &impl Abort, text: &mut CountedText<'_>, offset: usize) -> (bool, u128) {
    assert!(rt; text.passed() < 1_000_000);
    (text.starts(offset, b"-->"), text.passed())
}

// Where it is found from there on.
fn found(rt: &impl Abort, text: &mut CountedText<'_>, offset: usize) -> (Option<usize>, u128) {
    assert!(rt; text.passed() < 1_000_000);
    (text.find(b"-->", offset), text.passed())
}

#[test]
fn each_call_of_a_counted_text_counts(rt: HostRuntime) {
    let mut text = CountedText::new(b"a-->b");
    for (offset, byte, passed) in [(4, Some(b'b'), 1), (5, None, 2)] {
        assert_answer(&rt, &offset, looked(&rt, &mut text, offset), (byte, passed));
    }
    for (offset, stands, passed) in [(1, true, 5), (2, false, 8)] {
        assert_answer(
            &rt,
            &offset,
            started(&rt, &mut text, offset),
            (stands, passed),
        );
    }
    for (offset, end, passed) in [(0, Some(1), 12), (2, None, 15), (6, None, 15)] {
        assert_answer(&rt, &offset, found(&rt, &mut text, offset), (end, passed));
    }
}
