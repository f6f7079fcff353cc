//! Tests of `parser_uses::link_definitions`. (CommonMark 0.31.2, sections 4.7 and 6.3)
use crate::asserts::{assert_same, made};
use parser_uses::link_definitions::{destination_of, title_of};
use std::alloc::{AllocError, Global};
use std::process::Abort;

// A page, a label, and the destination and the title of its first definition there.
type Row = (
    &'static [u8],
    &'static str,
    Option<&'static [u8]>,
    Option<&'static [u8]>,
);

// The examples of section 4.7, with their numbers.
const EXAMPLES: &[Row] = &[
    // 192
    (
        b"[foo]: /url \"title\"\n\n[foo]\n",
        "foo",
        Some(b"/url"),
        Some(b"title"),
    ),
    // 193
    (
        b"   [foo]: \n      /url  \n           'the title'  \n\n[foo]\n",
        "foo",
        Some(b"/url"),
        Some(b"the title"),
    ),
    // 194
    (
        b"[Foo*bar\\]]:my_(url) 'title (with parens)'\n\n[Foo*bar\\]]\n",
        "Foo*bar\\]",
        Some(b"my_(url)"),
        Some(b"title (with parens)"),
    ),
    // 195
    (
        b"[Foo bar]:\n<my url>\n'title'\n\n[Foo bar]\n",
        "Foo bar",
        Some(b"my url"),
        Some(b"title"),
    ),
    // 196
    (
        b"[foo]: /url '\ntitle\nline1\nline2\n'\n\n[foo]\n",
        "foo",
        Some(b"/url"),
        Some(b"\ntitle\nline1\nline2\n"),
    ),
    // 197
    (
        b"[foo]: /url 'title\n\nwith blank line'\n\n[foo]\n",
        "foo",
        None,
        None,
    ),
    // 198
    (b"[foo]:\n/url\n\n[foo]\n", "foo", Some(b"/url"), None),
    // 199
    (b"[foo]:\n\n[foo]\n", "foo", None, None),
    // 200
    (b"[foo]: <>\n\n[foo]\n", "foo", Some(b""), None),
    // 201
    (b"[foo]: <bar>(baz)\n\n[foo]\n", "foo", None, None),
    // 202
    (
        b"[foo]: /url\\bar\\*baz \"foo\\\"bar\\baz\"\n\n[foo]\n",
        "foo",
        Some(b"/url\\bar\\*baz"),
        Some(b"foo\\\"bar\\baz"),
    ),
    // 203
    (b"[foo]\n\n[foo]: url\n", "foo", Some(b"url"), None),
    // 204
    (
        b"[foo]\n\n[foo]: first\n[foo]: second\n",
        "foo",
        Some(b"first"),
        None,
    ),
    // 205
    (b"[FOO]: /url\n\n[Foo]\n", "Foo", Some(b"/url"), None),
    // 206
    (
        b"[\xce\x91\xce\x93\xce\xa9]: /\xcf\x86\xce\xbf\xcf\x85\n\n[\xce\xb1\xce\xb3\xcf\x89]\n",
        "αγω",
        Some(b"/\xcf\x86\xce\xbf\xcf\x85"),
        None,
    ),
    // 208
    (b"[\nfoo\n]: /url\nbar\n", "foo", Some(b"/url"), None),
    // 209
    (b"[foo]: /url \"title\" ok\n", "foo", None, None),
    // 210
    (b"[foo]: /url\n\"title\" ok\n", "foo", Some(b"/url"), None),
    // 211
    (b"    [foo]: /url \"title\"\n\n[foo]\n", "foo", None, None),
    // 212
    (b"```\n[foo]: /url\n```\n\n[foo]\n", "foo", None, None),
    // 213
    (b"Foo\n[bar]: /baz\n\n[bar]\n", "bar", None, None),
    // 214
    (b"# [Foo]\n[foo]: /url\n> bar\n", "Foo", Some(b"/url"), None),
    // 215
    (
        b"[foo]: /url\nbar\n===\n[foo]\n",
        "foo",
        Some(b"/url"),
        None,
    ),
    // 216
    (b"[foo]: /url\n===\n[foo]\n", "foo", Some(b"/url"), None),
    // 217
    (SEVERAL, "foo", Some(b"/foo-url"), Some(b"foo")),
    (SEVERAL, "bar", Some(b"/bar-url"), Some(b"bar")),
    (SEVERAL, "baz", Some(b"/baz-url"), None),
    // 218
    (b"[foo]\n\n> [foo]: /url\n", "foo", Some(b"/url"), None),
];

const SEVERAL: &[u8] =
    b"[foo]: /foo-url \"foo\"\n[bar]: /bar-url\n  \"bar\"\n[baz]: /baz-url\n\n[foo],\n[bar],\n[baz]\n";

// Examples of section 6.3, on labels that match and labels that do not.
const LABELS: &[Row] = &[
    (b"[\xe1\xba\x9e]\n\n[SS]: /url\n", "ẞ", Some(b"/url"), None),
    (
        b"[Foo\n  url]: /url\n\n[Baz][Foo url]\n",
        "Foo url",
        Some(b"/url"),
        None,
    ),
    (
        b"[foo]: /url1\n\n[foo]: /url2\n\n[bar][foo]\n",
        "foo",
        Some(b"/url1"),
        None,
    ),
    (b"[bar][foo\\!]\n\n[foo!]: /url\n", "foo\\!", None, None),
    (
        b"[foo][ref\\[]\n\n[ref\\[]: /uri\n",
        "ref\\[",
        Some(b"/uri"),
        None,
    ),
    (
        b"[bar\\\\]: /uri\n\n[bar\\\\]\n",
        "bar\\\\",
        Some(b"/uri"),
        None,
    ),
    (b"[]\n\n[]: /uri\n", "", None, None),
];

// Titles over the lines of containers, and bytes that are no UTF-8.
const CONTAINED: &[Row] = &[
    (b"> [a]: /b 'c\n> d'\n", "a", Some(b"/b"), Some(b"c\nd")),
    (
        b"- [a]:\n  /b\n  'c\n    d'\n- [A]: /e\n",
        "a",
        Some(b"/b"),
        Some(b"c\nd"),
    ),
    (b"> [a]: /b\n\n[a]: /c\n", "a", Some(b"/b"), None),
    (b"[a]: /b\n\n> [a]: /c\n", "a", Some(b"/b"), None),
    (
        b"[\xff]: /b\n[a]: /\xff \"\xff\"\n",
        "a",
        Some(b"/\xff"),
        Some(b"\xff"),
    ),
    (b"[\xff]: /b\n", "\u{fffd}", None, None),
];

// The label leads there.
fn assert_leads(rt: &impl Abort, alloc: Global, rows: &[Row]) {
    for (page, label, destination, title) in rows {
        let found = made(rt, destination_of(alloc, page, label));
        assert_same(
            rt,
            found.as_ref().map(|bytes| bytes.as_slice()),
            *destination,
        );
        let found = made(rt, title_of(alloc, page, label));
        assert_same(rt, found.as_ref().map(|bytes| bytes.as_slice()), *title);
    }
}

#[test]
fn the_first_definition_of_a_label_is_found(rt: HostRuntime) {
    assert_leads(&rt, rt.alloc(), EXAMPLES);
}

#[test]
fn labels_match_by_their_case_foldings(rt: HostRuntime) {
    assert_leads(&rt, rt.alloc(), LABELS);
}

#[test]
fn definitions_in_containers_are_found(rt: HostRuntime) {
    assert_leads(&rt, rt.alloc(), CONTAINED);
}

// Definitions, of labels that differ or of one label.
fn many_definitions(alloc: Global, do_differ: bool) -> Result<String, AllocError> {
    let mut page = String::new(alloc);
    for number in 0..2000 {
        if do_differ {
            write!(page, "[a{number}]: /{number}\n")?;
        } else {
            write!(page, "[a]: /{number}\n")?;
        }
    }
    Ok(page)
}

#[test]
fn many_labels_are_found(rt: HostRuntime) {
    let page = made(&rt, many_definitions(rt.alloc(), true));
    let found = made(&rt, destination_of(rt.alloc(), page.as_bytes(), "A1999"));
    assert_same(
        &rt,
        found.as_ref().map(|bytes| bytes.as_slice()),
        Some(b"/1999"),
    );
    let page = made(&rt, many_definitions(rt.alloc(), false));
    let found = made(&rt, destination_of(rt.alloc(), page.as_bytes(), "A"));
    assert_same(
        &rt,
        found.as_ref().map(|bytes| bytes.as_slice()),
        Some(b"/0"),
    );
}
