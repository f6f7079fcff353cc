//! Tests of `parser_uses::definitions`. (CommonMark 0.31.2, section 4.7)
use crate::asserts::{assert_elements, assert_same, made};
use parser_uses::definitions::{definition_lines, destinations};
use std::alloc::AllocError;
use std::process::Abort;

// A page, and which of its lines are definitions.
type Row = (&'static [u8], &'static [(usize, usize)]);

const ROWS: &[Row] = &[
    (b"[a]: /b\n", &[(0, 1)]),
    (b"[a]: /b", &[(0, 1)]),
    (b"[a]: /b\n[c]: /d\ne\n[f]: /g\n", &[(0, 1), (1, 1)]),
    (
        b"e\n[f]: /g\n\n   [a]:\n      /b\n           'c'\n",
        &[(3, 3)],
    ),
    (b"[a]: /b '\nc\nd\n'\n\n[e]\n", &[(0, 4)]),
    (b"[a]: /b 'c\n\nd'\n", &[]),
    (b"[a]: /b\n\"c\" d\n", &[(0, 1)]),
    (b"[a]: /b \"c\" d\n", &[]),
    (b"    [a]: /b\n\n```\n[a]: /b\n```\n", &[]),
    (b"# [a]\n[a]: /b\n> c\n", &[(1, 1)]),
    (b"[a]: /b\nc\n===\n[d]: /e\n", &[(0, 1), (3, 1)]),
    (b"[a]: /b\n===\n[d]: /e\n", &[(0, 1)]),
    (b"[a]: /b\n[c]:\n===\n", &[(0, 1)]),
    (
        b"> [a]: /b\n[c]: /d\n- [e]:\n  /f\n",
        &[(0, 1), (1, 1), (2, 2)],
    ),
    (
        b"1. [a]: /b\r\n   [c]: /d\r\n\r\n[e]: /f\r",
        &[(0, 1), (1, 1), (3, 1)],
    ),
];

#[test]
fn definitions_have_their_lines(rt: HostRuntime) {
    for (page, lines) in ROWS {
        assert_elements(&rt, definition_lines(rt.alloc(), page), lines);
    }
}

#[test]
fn definitions_have_their_destinations(rt: HostRuntime) {
    let found = destinations(rt.alloc(), b"[a]: /b\n> [c]:\n> <d e> 'f'\n> [g]: h\n");
    assert_words(&rt, found, &[b"/b", b"d e", b"h"]);
}

// The destinations are these.
fn assert_words(rt: &impl Abort, found: Result<Vec<Vec<u8>>, AllocError>, expected: &[&[u8]]) {
    let words = made(rt, found);
    assert_same(rt, words.len(), expected.len());
    for (word, other) in words.iter().zip(expected) {
        assert_same(rt, word.as_slice(), *other);
    }
}
