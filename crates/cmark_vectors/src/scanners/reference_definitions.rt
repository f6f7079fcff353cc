//! Link reference definitions: the examples 192 to 218 of CommonMark 0.31.2, as the content of their paragraphs, and what the
//! text of its section 4.7 says of gaps, ends and labels.
use crate::asserts::{assert_answer, assert_same, made};
use markdown_scanners_tree::scanners::{
    ReferenceDefinition, scan_reference_definition, scan_reference_definition_ahead,
    scan_separated_title,
};
use std::alloc::{AllocError, Global};
use std::ops::Range;
use std::process::Abort;

// Where the label, the destination and the title stand, and how many bytes the definition takes.
type Places = (Range<usize>, Range<usize>, Option<Range<usize>>, usize);

// Bytes, and the definition at the front.
type Row = (&'static [u8], Option<Places>);

fn parts_of(found: Option<ReferenceDefinition>) -> Option<Places> {
    let definition = found?;
    let parts = (
        definition.label,
        definition.destination,
        definition.title,
        definition.len,
    );
    Some(parts)
}

fn assert_rows(rt: &impl Abort, rows: &[Row]) {
    for (bytes, expected) in rows {
        let found = scan_reference_definition(bytes, 31);
        assert_answer(rt, bytes, &parts_of(found), expected);
        let ahead = scan_reference_definition_ahead(bytes, 31);
        assert_answer(rt, bytes, &parts_of(ahead), expected);
    }
}

const EXAMPLES: [Row; 22] = [
    (
        b"[foo]: /url \"title\"",
        Some((1..4, 7..11, Some(13..18), 19)),
    ),
    (
        b"[foo]: \n/url  \n'the title'  ",
        Some((1..4, 8..12, Some(16..25), 28)),
    ),
    (
        b"[Foo*bar\\]]:my_(url) 'title (with parens)'",
        Some((1..10, 12..20, Some(22..41), 42)),
    ),
    (
        b"[Foo bar]:\n<my url>\n'title'",
        Some((1..8, 12..18, Some(21..26), 27)),
    ),
    (
        b"[foo]: /url '\ntitle\nline1\nline2\n'",
        Some((1..4, 7..11, Some(13..32), 33)),
    ),
    (b"[foo]: /url 'title", None),
    (b"[foo]:\n/url", Some((1..4, 7..11, None, 11))),
    (b"[foo]:", None),
    (b"[foo]: <>", Some((1..4, 8..8, None, 9))),
    (b"[foo]: <bar>(baz)", None),
    (
        b"[foo]: /url\\bar\\*baz \"foo\\\"bar\\baz\"",
        Some((1..4, 7..20, Some(22..34), 35)),
    ),
    (b"[foo]: url", Some((1..4, 7..10, None, 10))),
    (
        b"[foo]: first\n[foo]: second",
        Some((1..4, 7..12, None, 13)),
    ),
    (
        b"[\xce\x91\xce\x93\xce\xa9]: /\xcf\x86\xce\xbf\xcf\x85",
        Some((1..7, 10..17, None, 17)),
    ),
    (b"[\nfoo\n]: /url\nbar", Some((1..6, 9..13, None, 14))),
    (b"[foo]: /url \"title\" ok", None),
    (b"[foo]: /url\n\"title\" ok", Some((1..4, 7..11, None, 12))),
    (b"Foo\n[bar]: /baz", None),
    (b"[foo]: /url\nbar\n===", Some((1..4, 7..11, None, 12))),
    (b"[foo]: /url\n===\n[foo]", Some((1..4, 7..11, None, 12))),
    (
        b"[foo]: /foo-url \"foo\"\n[bar]: /bar-url\n\"bar\"\n[baz]: /baz-url",
        Some((1..4, 7..15, Some(17..20), 22)),
    ),
    (
        b"[bar]: /bar-url\n\"bar\"\n[baz]: /baz-url",
        Some((1..4, 7..15, Some(17..20), 22)),
    ),
];

const GAPS: [Row; 13] = [
    (
        b"[a]:\r\nb\r\n'c'\r\nd",
        Some((1..2, 6..7, Some(10..11), 14)),
    ),
    (b"[a]:\rb\r(c)\rd", Some((1..2, 5..6, Some(8..9), 11))),
    (
        b"[a]: \t\n\t b \t\n\t 'c' \t\nd",
        Some((1..2, 9..10, Some(16..17), 21)),
    ),
    (b"[a]:\n\nb", None),
    (b"[a]:\r\rb", None),
    (b"[a]:\n\rb", None),
    (b"[a]: b\n\n'c'", Some((1..2, 5..6, None, 7))),
    (b"[a]:b", Some((1..2, 4..5, None, 5))),
    (b"[a] :b", None),
    (b"[a]: ", None),
    (b"[a]:\x0cb", None),
    (b"[a]: b\x0c", None),
    (b"[a]: b\x0b'c'", None),
];

const ENDS: [Row; 14] = [
    (b"[a]: b\"c\"", Some((1..2, 5..9, None, 9))),
    (b"[a]: <b>c", None),
    (b"[a]: <b>'c'", None),
    (b"[a]: <b> 'c'", Some((1..2, 6..7, Some(10..11), 12))),
    (b"[a]: <b", None),
    (b"[a]: b)", None),
    (b"[a]: b(c)", Some((1..2, 5..9, None, 9))),
    (b"[a]: b\n(c\nd) e", Some((1..2, 5..6, None, 7))),
    (b"[a]: b (c\nd) e", None),
    (b"[a]: b\n'c\nd", Some((1..2, 5..6, None, 7))),
    (b"[a]: b\n'c'\\", Some((1..2, 5..6, None, 7))),
    (b"[a]: b ''", Some((1..2, 5..6, Some(8..8), 9))),
    (b"[a]: b c", None),
    (b"[a]: b \n c", Some((1..2, 5..6, None, 8))),
];

const LABELS: [Row; 9] = [
    (b"[]: b", None),
    (b"[ \n]: b", None),
    (b"[a[b]: c", None),
    (b"[a\\[b]: c", Some((1..5, 8..9, None, 9))),
    (b"[a", None),
    (b"[a]", None),
    (b"", None),
    (b"a]: b", None),
    (b"\\[a]: b", None),
];

#[test]
fn reads_the_examples(rt: HostRuntime) {
    assert_rows(&rt, &EXAMPLES);
}

#[test]
fn takes_one_line_ending_in_a_gap(rt: HostRuntime) {
    assert_rows(&rt, &GAPS);
}

#[test]
fn leaves_a_title_that_something_follows(rt: HostRuntime) {
    assert_rows(&rt, &ENDS);
}

// Bytes whose first is no part of the gap, and where the raw text of the title after it stands.
type Title = (&'static [u8], Option<Range<usize>>);

const TITLES: [Title; 9] = [
    (b"a 'b' c", Some(3..4)),
    (b"a\t\n (b\nc)", Some(5..8)),
    (b"a\r\n\"\"", Some(4..4)),
    (b"a'b'", None),
    (b"a\n\n'b'", None),
    (b"a 'b", None),
    (b"a b", None),
    (b"a ", None),
    (b"a", None),
];

fn title_after_one(bytes: &[u8]) -> Option<Range<usize>> {
    if bytes.is_empty() {
        None
    } else {
        scan_separated_title(bytes, 1)
    }
}

#[test]
fn separates_a_title_by_a_gap(rt: HostRuntime) {
    for (bytes, found) in &TITLES {
        assert_answer(&rt, bytes, &title_after_one(bytes), found);
    }
}

#[test]
fn needs_a_label_and_a_colon(rt: HostRuntime) {
    assert_rows(&rt, &LABELS);
}

fn with_label_of(alloc: Global, count: usize) -> Result<String, AllocError> {
    let mut text = "[".repeat(alloc, 1)?;
    text.push_str("a".repeat(alloc, count)?.as_str())?;
    text.push_str("]: b")?;
    Ok(text)
}

fn length_of(text: &str) -> Option<usize> {
    let definition = scan_reference_definition(text.as_bytes(), 31)?;
    Some(definition.len)
}

#[test]
fn takes_a_label_of_999_characters(rt: HostRuntime) {
    let longest = made(&rt, with_label_of(rt.alloc(), 999));
    assert_same(&rt, length_of(longest.as_str()), Some(1004));
    let longer = made(&rt, with_label_of(rt.alloc(), 1000));
    assert_same(&rt, length_of(longer.as_str()), None);
}

fn nested(max_next: usize) -> Option<usize> {
    let definition = scan_reference_definition(b"[a]: ((b))", max_next)?;
    Some(definition.len)
}

#[test]
fn counts_open_parentheses(rt: HostRuntime) {
    assert_same(&rt, nested(1), Some(10));
    assert_same(&rt, nested(0), None);
}
