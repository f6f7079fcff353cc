//! Tests of `parser_uses::contents`: the text of blocks, by examples of CommonMark 0.31.2.
use crate::asserts::{assert_elements, made};
use parser_uses::contents::{code_text, placed_text};
use std::alloc::Global;
use std::process::Abort;

// A page, and the text of its blocks, joined.
type Row = (&'static [u8], &'static [u8]);

fn assert_texts(rt: &impl Abort, alloc: Global, rows: &[Row]) {
    for (page, expected) in rows {
        let placed = made(rt, placed_text(alloc, page));
        let mut text = Vec::new(alloc);
        for (byte, _) in &placed {
            made(rt, text.push(*byte).map_err(|fault| fault.into()));
        }
        assert_elements(rt, Ok(text), expected);
    }
}

// Sections 4.8 and 5.1.
const PARAGRAPHS: &[Row] = &[
    (b"aaa\n\nbbb\n", b"aaabbb"),
    (b"aaa\nbbb\n\nccc\nddd\n", b"aaa\nbbbccc\nddd"),
    (b"  aaa\n bbb\n", b"aaa\nbbb"),
    (
        b"aaa\n             bbb\n                    ccc\n",
        b"aaa\nbbb\nccc",
    ),
    (b"aaa     \nbbb     \n", b"aaa     \nbbb"),
    (b"aaa\r\n\tbbb\t \r\n", b"aaa\r\nbbb"),
    (b"> # Foo\n> bar\n> baz\n", b"Foobar\nbaz"),
    (b"   > bar\nbaz\n> foo\n", b"bar\nbaz\nfoo"),
    (
        b"1.  A paragraph\n    with two lines.\n",
        b"A paragraph\nwith two lines.",
    ),
];

#[test]
fn paragraphs_have_their_text(rt: HostRuntime) {
    assert_texts(&rt, rt.alloc(), PARAGRAPHS);
}

// Sections 4.2 and 4.3.
const HEADINGS: &[Row] = &[
    (b"#                  foo                     \n", b"foo"),
    (b"## foo ##\n  ###   bar    ###\n", b"foobar"),
    (b"# foo ##################################\n", b"foo"),
    (b"### foo ###     \n", b"foo"),
    (b"### foo ### b\n", b"foo ### b"),
    (b"# foo#\n", b"foo#"),
    (b"### foo \\###\n", b"foo \\###"),
    (b"## foo #\\##\n", b"foo #\\##"),
    (b"# foo \\#\n", b"foo \\#"),
    (b"## \n#\n### ###\n", b""),
    (b"#\tFoo\n", b"Foo"),
    (b"# foo\t#\t\r\n", b"foo"),
    (b"  Foo *bar\nbaz*\t\n====\n", b"Foo *bar\nbaz*"),
    (b"Foo\n---\n", b"Foo"),
];

#[test]
fn headings_have_their_text(rt: HostRuntime) {
    assert_texts(&rt, rt.alloc(), HEADINGS);
}

// Sections 2.2 and 4.4.
const INDENTED: &[Row] = &[
    (
        b"    a simple\n      indented code block\n",
        b"a simple\n  indented code block\n",
    ),
    (
        b"    chunk1\n\n    chunk2\n  \n \n \n    chunk3\n",
        b"chunk1\n\nchunk2\n\n\n\nchunk3\n",
    ),
    (
        b"    chunk1\n      \n      chunk2\n",
        b"chunk1\n  \n  chunk2\n",
    ),
    (b"        foo\n    bar\n", b"    foo\nbar\n"),
    (b"    foo  \n", b"foo  \n"),
    (b"\tfoo\tbaz\t\tbim\n", b"foo\tbaz\t\tbim\n"),
    (b"  \tfoo\tbaz\t\tbim\n", b"foo\tbaz\t\tbim\n"),
    (b"- foo\n\n\t\tbar\n", b"foo  bar\n"),
    (b">\t\tfoo\n", b"  foo\n"),
    (b"-\t\tfoo\n", b"  foo\n"),
    (b"    foo\n\tbar\n", b"foo\nbar\n"),
    (b"1.  A\n\n        indented code\n", b"Aindented code\n"),
];

#[test]
fn indented_code_has_its_text(rt: HostRuntime) {
    assert_texts(&rt, rt.alloc(), INDENTED);
}

// Section 4.5; in an item a blank line's indent is the item's as far as it is there (5.2).
const FENCED: &[Row] = &[
    (b"```\n<\n >\n```\n", b"<\n >\n"),
    (b"```\naaa\n~~~\n```", b"aaa\n~~~\n"),
    (b"````\naaa\n```\n``````\n", b"aaa\n```\n"),
    (b"```\n", b""),
    (b"`````\n\n```\naaa\n", b"\n```\naaa\n"),
    (b"> ```\n> aaa\n\nbbb\n", b"aaa\nbbb"),
    (b"```\n\n  \n```\n", b"\n  \n"),
    (b" ```\n aaa\naaa\n```\n", b"aaa\naaa\n"),
    (b"  ```\naaa\n  aaa\naaa\n  ```\n", b"aaa\naaa\naaa\n"),
    (
        b"   ```\n   aaa\n    aaa\n  aaa\n   ```\n",
        b"aaa\n aaa\naaa\n",
    ),
    (b"```\naaa\n    ```\n", b"aaa\n    ```\n"),
    (b"- ```\n      \n   \n \n  x\n  ```\n", b"    \n \n\nx\n"),
    (b"- ~~~\n\tx\n", b"  x\n"),
];

#[test]
fn fenced_code_has_its_text(rt: HostRuntime) {
    assert_texts(&rt, rt.alloc(), FENCED);
}

// Section 4.6.
const HTML: &[Row] = &[
    (
        b" <div>\n  *hello*\n         <foo><a>\n",
        b" <div>\n  *hello*\n         <foo><a>\n",
    ),
    (
        b"  <!-- foo -->\n\n    <!-- foo -->\n",
        b"  <!-- foo -->\n<!-- foo -->\n",
    ),
    (b"> <div>\n> foo\n\nbar\n", b"<div>\nfoo\nbar"),
    (b">\t<!-- a\n>  \n>b -->\n", b"  <!-- a\n \nb -->\n"),
];

#[test]
fn html_has_its_text(rt: HostRuntime) {
    assert_texts(&rt, rt.alloc(), HTML);
}

// Section 4.7: a definition has its lines, and so has what stands after it.
const DEFINITIONS: &[Row] = &[
    (
        b"[foo]: /url \"title\"\n\n[foo]\n",
        b"[foo]: /url \"title\"[foo]",
    ),
    (b"[foo]: /url\nbar\n===\n", b"[foo]: /urlbar"),
    (
        b"> [foo]: \n>   /url  \n> bar\nbaz\n",
        b"[foo]: \n/urlbar\nbaz",
    ),
];

#[test]
fn definitions_have_their_text(rt: HostRuntime) {
    assert_texts(&rt, rt.alloc(), DEFINITIONS);
}

#[test]
fn other_blocks_have_no_text(rt: HostRuntime) {
    assert_texts(
        &rt,
        rt.alloc(),
        &[(b"", b""), (b"\n\n", b""), (b"***\n", b"")],
    );
}

// A page, and each byte of its text with its offset.
const PLACES: &[(&[u8], &[(u8, usize)])] = &[
    (b"\nab \n", &[(b'a', 1), (b'b', 2)]),
    (b"  a\n b\n", &[(b'a', 2), (b'\n', 3), (b'b', 5)]),
    (
        b"> a\nb\n> c\n",
        &[(b'a', 2), (b'\n', 3), (b'b', 4), (b'\n', 5), (b'c', 8)],
    ),
    (b"## a ##\n# b\n", &[(b'a', 3), (b'b', 10)]),
    (b">\t\ta\n", &[(b' ', 2), (b' ', 2), (b'a', 3), (b'\n', 4)]),
    (
        b"- a\n\n\t\tb\n      c\n",
        &[
            (b'a', 2),
            (b' ', 6),
            (b' ', 6),
            (b'b', 7),
            (b'\n', 8),
            (b'c', 15),
            (b'\n', 16),
        ],
    ),
    (b"~~~\na\n~~~\n", &[(b'a', 4), (b'\n', 5)]),
    (
        b" ~~~\n a\nb\n ~~~\n",
        &[(b'a', 6), (b'\n', 7), (b'b', 8), (b'\n', 9)],
    ),
];

#[test]
fn bytes_stand_at_their_places(rt: HostRuntime) {
    for (page, expected) in PLACES {
        assert_elements(&rt, placed_text(rt.alloc(), page), expected);
    }
}

#[test]
fn code_of_a_language_is_found(rt: HostRuntime) {
    let page = b"``` c\na\n```\n~~~ d\nb\n~~~\n> ```  c  \n> e\n    c\n";
    assert_elements(&rt, code_text(rt.alloc(), page, b"c"), b"a\ne\n");
    assert_elements(&rt, code_text(rt.alloc(), page, b"d"), b"b\n");
    assert_elements(&rt, code_text(rt.alloc(), page, b"x"), b"");
}
