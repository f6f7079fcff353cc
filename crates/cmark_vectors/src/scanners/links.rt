//! Autolinks of many letters, and link destinations, autolinks and pipes of wikilinks in bytes.
use crate::asserts::{assert_answer, made};
use markdown_scanners_tree::scanners::{
    scan_autolink, scan_autolink_bytes, scan_link_dest, scan_link_dest_ahead, scan_link_dest_bytes,
    scan_wikilink_pipe_bytes,
};
use std::alloc::{AllocError, Global};
use std::ops::Range;
use std::process::Abort;

fn letters_and_colon(alloc: Global) -> Result<String, AllocError> {
    let mut text = "a".repeat(alloc, 1_000_000)?;
    text.push_str(":>")?;
    Ok(text)
}

// Were all letters read by each call, this test would read some 10^11 bytes.
fn assert_no_link(rt: &impl Abort, text: &str) {
    for call in 0..100_000 {
        assert!(rt; scan_autolink(text, 0).is_none(), "at call {call}");
    }
}

#[test]
fn looks_at_thirty_three_letters(rt: HostRuntime) {
    assert_no_link(&rt, made(&rt, letters_and_colon(rt.alloc())).as_str());
}

fn parentheses(alloc: Global) -> Result<String, AllocError> {
    let mut text = "(".repeat(alloc, 1000)?;
    for _ in 0..1000 {
        text.push(')')?;
    }
    Ok(text)
}

fn assert_no_destination(rt: &impl Abort, cut: usize, part: Option<&str>) {
    let part = part.expect(rt, "a part");
    assert!(rt; scan_link_dest(part, 0, 999).is_none(), "cut by {cut}");
}

fn assert_unbalanced(rt: &impl Abort, text: &str) {
    for cut in 1..=200 {
        assert_no_destination(rt, cut, text.get(..cut));
        assert_no_destination(rt, cut, text.get(..text.len().saturating_sub(cut)));
    }
}

// Parentheses that are cut don't balance.
#[test]
fn finds_no_destination_in_cut_parentheses(rt: HostRuntime) {
    assert_unbalanced(&rt, made(&rt, parentheses(rt.alloc())).as_str());
}

// Bytes, the most parentheses in one another, and the destination at the front.
type Destination = (&'static [u8], usize, Option<(usize, Range<usize>)>);

fn assert_destinations(rt: &impl Abort, rows: &[Destination]) {
    for (bytes, max_next, found) in rows {
        assert_answer(rt, bytes, &scan_link_dest_bytes(bytes, *max_next), found);
        assert_answer(rt, bytes, &scan_link_dest_ahead(bytes, *max_next), found);
    }
}

// Bytes, and where the autolink at the front ends.
type Uri = (&'static [u8], Option<usize>);

fn assert_uris(rt: &impl Abort, rows: &[Uri]) {
    for (bytes, found) in rows {
        assert_answer(rt, bytes, scan_autolink_bytes(bytes), *found);
    }
}

// Bytes, how many are looked at, and where a pipe stands.
type Pipe = (&'static [u8], usize, Option<usize>);

fn assert_pipes(rt: &impl Abort, rows: &[Pipe]) {
    for (bytes, len, found) in rows {
        assert_answer(rt, bytes, scan_wikilink_pipe_bytes(bytes, *len), *found);
    }
}

const DESTINATIONS: [Destination; 7] = [
    (b"<foo(and(bar)>)", 31, Some((14, 1..13))),
    (b"foo\\)\\:)", 31, Some((7, 0..7))),
    (b"<>)", 31, Some((2, 1..1))),
    (b"((a))", 0, None),
    (b"https://example.org/a/b c", 31, Some((23, 0..23))),
    (b"https://example.org/a(b)c/d)", 31, Some((27, 0..27))),
    (b"https://example.org/a/b\\)", 31, Some((25, 0..25))),
];

#[test]
fn reads_bytes(rt: HostRuntime) {
    assert_destinations(&rt, &DESTINATIONS);
    assert_uris(&rt, &[(b"ab:>", Some(3)), (b"m:abc>", None)]);
    assert_pipes(&rt, &[(b"a|b|", 3, Some(1)), (b"a|b|", 1, None)]);
}

const DESTINATIONS_OF_NO_TEXT: [Destination; 2] = [
    (b"\x80(\xff) \xff", 0, Some((4, 0..4))),
    (b"<\xc3>", 0, Some((3, 1..2))),
];

#[test]
fn takes_bytes_that_are_no_text(rt: HostRuntime) {
    assert_destinations(&rt, &DESTINATIONS_OF_NO_TEXT);
    assert_uris(&rt, &[(b"ab:\xff>\xff", Some(4))]);
    assert_pipes(&rt, &[(b"\xe2|", 2, Some(1))]);
}
