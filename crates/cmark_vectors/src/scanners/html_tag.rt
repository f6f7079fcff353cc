//! HTML tags over lines: hostile handlers and long tags.
ghost use Rattle.std.specs.Prelude.{◌≡◌};

use crate::asserts::{assert_answer, made};
use crate::texts::long_text;
use markdown_scanners_tree::scanners::scan_html_block_inner;
use std::alloc::{AllocError, Global};
use std::process::Abort;

// What a handler skips at the front of the bytes after a line ending.
#[derive(Clone, Copy)]
enum Skips {
    // A leading `> `.
    Quote,
    All,
    AtMost(usize),
    Nothing,
}

// A function by its name as a handler: its contract says that it has one answer for one rest.
fn skip_none(_: &[u8]) -> usize
    ensures { result ≡ 0 }
{
    0
}

fn scan_tag(
    alloc: Global,
    data: &[u8],
    skips: Skips,
) -> Result<Option<(Vec<u8>, usize)>, AllocError> {
    let quote = |rest: &[u8]| -> usize { if rest.starts_with(b"> ") { 2 } else { 0 } };
    let all = |rest: &[u8]| -> usize { rest.len() };
    match skips {
        Skips::Quote => scan_html_block_inner(alloc, data, Some(&quote)),
        Skips::All => scan_html_block_inner(alloc, data, Some(&all)),
        Skips::AtMost(most) => {
            let at_most = |rest: &[u8]| -> usize {
                if rest.len() < most { rest.len() } else { most }
            };
            scan_html_block_inner(alloc, data, Some(&at_most))
        }
        Skips::Nothing => scan_html_block_inner(alloc, data, Some(&skip_none)),
    }
}

// The text of a tag, and how many bytes it takes.
type Tag<'a> = Option<(&'a [u8], usize)>;

fn lent(tag: &Option<(Vec<u8>, usize)>) -> Tag<'_> {
    match tag {
        Some((text, length)) => Some((text.as_slice(), *length)),
        None => None,
    }
}

fn assert_tag(rt: &impl Abort, alloc: Global, data: &[u8], skips: Skips, expected: Tag<'_>) {
    let tag = made(rt, scan_tag(alloc, data, skips));
    assert_answer(rt, &data, lent(&tag), expected);
}

const ALL_SKIPPED: [(&[u8], Tag<'static>); 5] = [
    (b"<a\n>", None),
    (b"</a\n>", None),
    (b"<a\r\n>", None),
    (b"<a\n", None),
    (b"<a>\n>", Some((b"", 3))),
];

#[test]
fn ends_where_a_handler_skips_all_that_follows(rt: HostRuntime) {
    let alloc = rt.alloc();
    for (data, tag) in ALL_SKIPPED {
        assert_tag(&rt, alloc, data, Skips::All, tag);
    }
}

const OF_OTHER_FORMS: [(&[u8], Skips, Tag<'static>); 2] = [
    (b"<a\n> b>", Skips::AtMost(2), Some((b"<a\nb>", 7))),
    (b"<a\n b>", Skips::Nothing, Some((b"", 6))),
];

#[test]
fn takes_handlers_of_other_forms(rt: HostRuntime) {
    let alloc = rt.alloc();
    for (data, skips, tag) in OF_OTHER_FORMS {
        assert_tag(&rt, alloc, data, skips, tag);
    }
}

// How many lines stand between `<a` and `>`, each of them with the ending before it, and what is
// kept of each. The first is a text of 900 bytes.
const OVER_LINES: [(usize, &[u8], &[u8]); 2] = [(299, b"\n> ab", b"\nab"), (5000, b"\n> ", b"\n")];

#[test]
fn reads_tags_over_many_lines(rt: HostRuntime) {
    let alloc = rt.alloc();
    for (lines, line, kept) in OVER_LINES {
        let data = made(&rt, long_text(alloc, b"<a", line, lines, b">"));
        let kept = made(&rt, long_text(alloc, b"<a", kept, lines, b">"));
        let tag = Some((kept.as_slice(), data.len()));
        assert_tag(&rt, alloc, &data, Skips::Quote, tag);
    }
}

#[test]
fn ends_at_the_end_of_unclosed_tags(rt: HostRuntime) {
    let alloc = rt.alloc();
    let data = made(&rt, long_text(alloc, b"<a", b"\n> b", 5000, b""));
    for skips in [Skips::Quote, Skips::All] {
        assert_tag(&rt, alloc, &data, skips, None);
    }
}
