//! Link labels: hostile texts and handlers, which labels are boxed, and which match.
ghost use Rattle.std.specs.Prelude.{◌≡◌, ◌↔◌, ◌≤◌, ◌<◌, ◌-◌, length, slice_index, IsTrue};
ghost use Rattle.markdown_scanners_tree.specs.linklabel.Key.{label_key};
ghost use Rattle.markdown_scanners_tree.specs.Handler.{IsAsciiFront};
ghost use Rattle.cmark_vectors.specs.Markers.{skipped, quote_len};

use crate::asserts::{assert_answer, made};
use crate::bounds::{are_equal, hash_of};
use markdown_scanners_tree::linklabel::{
    FootnoteLabel, LinkLabel, scan_link_label_bytes, scan_link_label_rest,
};
use markdown_values::strings::CowStr;
use std::alloc::{AllocError, Global};
use std::process::Abort;

// Labels are equal exactly where their keys are.
fn have_equal_keys(a: &LinkLabel, b: &LinkLabel) -> bool
    ensures { IsTrue result ↔ (label_key a.now ≡ label_key b.now) }
{
    *a == *b
}

fn link_label(rt: &impl Abort, alloc: Global, text: &'static str) -> LinkLabel<'static> {
    made(rt, LinkLabel::new(alloc, CowStr::from(text)))
}

// Two labels match, whatever is asked, and the first lends its text.
fn assert_match(rt: &impl Abort, alloc: Global, one: &'static str, other: &'static str) {
    let a = link_label(rt, alloc, one);
    let b = link_label(rt, alloc, other);
    let are_matched = are_equal(&a, &b) && have_equal_keys(&a, &b) && hash_of(&a) == hash_of(&b);
    assert_answer(rt, &one, are_matched && a.as_str() == one, true);
}

fn are_different(rt: &impl Abort, alloc: Global, one: &'static str, other: &'static str) -> bool {
    !are_equal(&link_label(rt, alloc, one), &link_label(rt, alloc, other))
}

#[test]
fn labels_match_without_regard_to_case(rt: HostRuntime) {
    assert_match(&rt, rt.alloc(), "Straße", "STRASSE");
    assert_match(&rt, rt.alloc(), "a", "A");
    assert!(rt; are_different(&rt, rt.alloc(), "a", "b"));
}

// Of sixteen bytes, of one more, of two blocks, and of more than two.
#[test]
fn long_labels_have_one_hash(rt: HostRuntime) {
    let alloc = rt.alloc();
    assert_match(&rt, alloc, "ſixteen letters!", "SIXTEEN LETTERS!");
    assert_match(&rt, alloc, "ſeventeen letters", "Seventeen Letters");
    assert_match(
        &rt,
        alloc,
        "thirty-two bytes make two blockſ",
        "Thirty-Two Bytes Make Two Blocks",
    );
    assert_match(
        &rt,
        alloc,
        "ſtraight into the third block of it",
        "STRAIGHT into the third BLOCK of it",
    );
}

fn matches_link(note: &FootnoteLabel<'_>, label: &LinkLabel<'_>) -> bool {
    *note == *label
}

#[test]
fn footnotes_match_as_links_do(rt: HostRuntime) {
    let note = link_label(&rt, rt.alloc(), "Note");
    let label = link_label(&rt, rt.alloc(), "nOTE");
    assert!(rt; matches_link(&note, &label));
}

// A label that a scan answers: the bytes taken, and the text.
type Answer<'t> = Option<(usize, CowStr<'t>)>;

// How many bytes of a marker stand at the front.
fn skipped_of(marker: &[u8], rest: &[u8]) -> usize
    ensures value { result ≡ skipped marker.now rest.now }
    ensures within { result ≤ length rest.now }
    ensures ascii { 0 < result → slice_index rest.now (result - 1) < 128 }
{
    let len = marker.len();
    if len > 0 && len <= rest.len() && rest.starts_with(marker) && rest[len - 1] < 128 {
        len
    } else {
        0
    }
}

// Reads a label in a container whose lines begin with the marker or with nothing.
#[tactic(auto, using(markdown_scanners_tree::proofs::ForCallers::ascii_fronts))]
fn scan_after_markers<'t>(
    alloc: Global,
    text: &'t str,
    marker: &[u8],
    is_in_table: bool,
) -> Result<Answer<'t>, AllocError> {
    let handler = |rest: &[u8]| -> Option<usize> { Some(skipped_of(marker, rest)) };
    scan_link_label_rest(alloc, text, &handler, is_in_table)
}

// Reads a label in a container that ends with its first line.
fn scan_in_one_line(alloc: Global, text: &str) -> Result<Answer<'_>, AllocError> {
    let handler = |_rest: &[u8]| -> Option<usize> { None };
    scan_link_label_rest(alloc, text, &handler, false)
}

// Reads a label whose handler skips all that follows a line ending.
fn scan_skipping_all(alloc: Global, text: &str) -> Result<Answer<'_>, AllocError> {
    let handler = |rest: &[u8]| -> Option<usize> { Some(rest.len()) };
    scan_link_label_rest(alloc, text, &handler, false)
}

// How many bytes the marker of a block quote takes at the front, with a space after it.
fn quote_len(rest: &[u8]) -> usize
    ensures value { result ≡ quote_len rest.now }
    ensures ascii { IsAsciiFront rest.now result }
{
    match rest {
        [b'>', b' ', ..] => 2,
        _ => 0,
    }
}

// Reads a label in the bytes of a block quote.
fn scan_quoted_bytes(
    alloc: Global,
    bytes: &[u8],
    is_in_table: bool,
) -> Result<Answer<'_>, AllocError> {
    let handler = |rest: &[u8]| -> Option<usize> { Some(quote_len(rest)) };
    scan_link_label_bytes(alloc, bytes, &handler, is_in_table)
}

// Bytes, whether they are in a table, and the label at their front: how many of them it takes, and
// its text.
const IN_BYTES: [(&[u8], bool, Option<(usize, &str)>); 14] = [
    (b"a b]\xff", false, Some((4, "a b"))),
    (b"a  b]\xff\xfe", false, Some((5, "a b"))),
    (b"a\n> b]\xff", false, Some((6, "a b"))),
    (b"a\r\nb]\x80", false, Some((5, "a b"))),
    (b"a\\]b]\xff", false, Some((5, "a\\]b"))),
    (b"\xc3\xa9 ]\xff", false, Some((4, "\u{e9}"))),
    (b"a\\|b]\xff", true, Some((5, "a|b"))),
    (b"a\\|b]\xff", false, Some((5, "a\\|b"))),
    (b"a\xff]", false, None),
    (b"a\xc3]\xa9", false, None),
    (b"a  \xff]", false, None),
    (b"a\n\nb]", false, None),
    (b"a[\xff]", false, None),
    (b"a\xff", false, None),
];

// Only the bytes that a label takes are UTF-8.
#[test]
fn labels_end_before_other_bytes(rt: HostRuntime) {
    for (bytes, is_in_table, label) in IN_BYTES {
        let found = made(&rt, scan_quoted_bytes(rt.alloc(), bytes, is_in_table));
        let is_found = match label {
            Some((taken, text)) => is_label(&found, taken, text),
            None => found.is_none(),
        };
        assert_answer(&rt, &bytes, is_found, true);
    }
}

#[test]
fn no_label_ends_where_all_that_follows_is_skipped(rt: HostRuntime) {
    let found = made(&rt, scan_skipping_all(rt.alloc(), "a\n]"));
    assert!(rt; found.is_none());
}

fn is_label(found: &Answer<'_>, taken: usize, text: &str) -> bool {
    match found {
        Some((length, label)) => *length == taken && label.as_str() == text,
        None => false,
    }
}

fn is_borrowed(found: &Answer<'_>) -> bool {
    matches!(found, Some((_, CowStr::Borrowed(_))))
}

// A backslash that a handler skips escapes nothing.
#[test]
fn skipped_backslashes_escape_nothing(rt: HostRuntime) {
    let found = made(&rt, scan_after_markers(rt.alloc(), "a\n\\|b]", b"\\", true));
    assert!(rt; is_label(&found, 6, "a |b"));
}

// The bytes that a handler skips end no run of white space.
#[test]
fn line_endings_around_skipped_bytes_are_in_one_run(rt: HostRuntime) {
    let found = made(&rt, scan_after_markers(rt.alloc(), "a\rX\nb]", b"X", false));
    assert!(rt; found.is_none());
}

fn is_boxed(found: &Answer<'_>) -> bool {
    matches!(found, Some((_, CowStr::Boxed(_))))
}

// The label of a text has memory of its own.
fn assert_boxed(rt: &impl Abort, alloc: Global, text: &str, marker: &[u8], is_in_table: bool) {
    let found = made(rt, scan_after_markers(alloc, text, marker, is_in_table));
    assert_answer(rt, &text, is_boxed(&found), true);
}

// A text, what a handler skips at the front of each line, and whether it is in a table.
const BOXED: [(&str, &[u8], bool); 7] = [
    ("«\t\tBlurry Eyes\t\t»]", b"", false),
    ("hello\r\nworld\r\n]", b"", false),
    ("a\nb]", b"", false),
    ("a\n> b]", b"> ", false),
    ("Foo  Bar]", b"", false),
    ("a\\|b]", b"", true),
    ("a\\\\|b]", b"", true),
];

// Where a run of white space is not one space, or a pipe loses its backslash, however short the
// label is.
#[test]
fn labels_of_other_bytes_are_boxed(rt: HostRuntime) {
    for (text, marker, is_in_table) in BOXED {
        assert_boxed(&rt, rt.alloc(), text, marker, is_in_table);
    }
}

fn escaped_brackets(alloc: Global) -> Result<String, AllocError> {
    let mut text = "\\[\n".repeat(alloc, 1_000_000)?;
    text.push_str("]")?;
    Ok(text)
}

// No label stands after the bracket of this line.
fn assert_no_label(rt: &impl Abort, alloc: Global, rest: Option<&str>, line: usize) {
    let rest = rest.expect(rt, "a line");
    let label = made(rt, scan_after_markers(alloc, rest, b"", false));
    assert!(rt; label.is_none(), "of line {line}");
}

// A label is looked for after brackets of a long text, which a backslash escapes. Were the text
// read to its end from each, this test would read some 10^10 bytes, and ask its handler 5 * 10^9
// times.
#[test]
fn reads_labels_up_to_their_thousandth_character(rt: HostRuntime) {
    let alloc = rt.alloc();
    let text = made(&rt, escaped_brackets(alloc));
    for line in 0..5_000 {
        let rest = text.as_str().get(3 * line + 2..);
        assert_no_label(&rt, alloc, rest, line);
    }
}

// The text with a bracket after it.
fn with_bracket(alloc: Global, label: &str) -> Result<String, AllocError> {
    let mut text = String::from_str(alloc, label)?;
    text.push_str("]")?;
    Ok(text)
}

// What is answered, with a bracket after it, is the label of itself.
fn assert_read_back(rt: &impl Abort, alloc: Global, text: &str, marker: &[u8]) {
    let found = made(rt, scan_after_markers(alloc, text, marker, false));
    let (_, label) = found.expect(rt, "a label");
    let closed = made(rt, with_bracket(alloc, label.as_str()));
    let again = made(rt, scan_in_one_line(alloc, closed.as_str()));
    assert_answer(rt, &text, is_borrowed(&again), true);
    let is_same = is_label(&again, closed.len(), label.as_str());
    assert_answer(rt, &text, is_same, true);
}

const READ_BACK: [(&str, &[u8]); 4] = [
    ("«\t\tBlurry Eyes\t\t»]", b""),
    ("hello\r\nworld\r\n]", b""),
    ("a\n> b]", b"> "),
    ("a\\[b]", b""),
];

#[test]
fn labels_read_back(rt: HostRuntime) {
    let alloc = rt.alloc();
    for (text, marker) in READ_BACK {
        assert_read_back(&rt, alloc, text, marker);
    }
}
