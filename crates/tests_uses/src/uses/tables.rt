//! Tests of `parser_uses::tables`: the cells of tables, by GitHub Flavored Markdown 0.29, section 4.10.
use crate::asserts::{assert_elements, assert_same, made};
use markdown_values::values::Alignment;
use parser_uses::tables::{count_cells, first_alignments, placed_cells};
use std::alloc::Global;
use std::process::Abort;

// A page, and the cells of its tables: each with a tab after it, and each row with a line feed.
type Row = (&'static [u8], &'static [u8]);

fn assert_cells(rt: &impl Abort, alloc: Global, rows: &[Row]) {
    for (page, expected) in rows {
        let placed = made(rt, placed_cells(alloc, page));
        let mut text = Vec::new(alloc);
        for (byte, _) in &placed {
            made(rt, text.push(*byte).map_err(|fault| fault.into()));
        }
        assert_elements(rt, Ok(text), expected);
    }
}

// The examples of the section. Of a row with more cells than columns the others count for nothing,
// and are cells of the row all the same.
const EXAMPLES: &[Row] = &[
    (
        b"| foo | bar |\n| --- | --- |\n| baz | bim |\n",
        b"foo\tbar\t\nbaz\tbim\t\n",
    ),
    (
        b"| abc | defghi |\n:-: | -----------:\nbar | baz\n",
        b"abc\tdefghi\t\nbar\tbaz\t\n",
    ),
    (
        b"| f\\|oo  |\n| ------ |\n| b `\\|` az |\n| b **\\|** im |\n",
        b"f|oo\t\nb `|` az\t\nb **|** im\t\n",
    ),
    (
        b"| abc | def |\n| --- | --- |\n| bar | baz |\n> bar\n",
        b"abc\tdef\t\nbar\tbaz\t\n",
    ),
    (
        b"| abc | def |\n| --- | --- |\n| bar | baz |\nbar\n\nbar\n",
        b"abc\tdef\t\nbar\tbaz\t\nbar\t\n",
    ),
    (b"| abc | def |\n| --- |\n| bar |\n", b""),
    (
        b"| abc | def |\n| --- | --- |\n| bar |\n| bar | baz | boo |\n",
        b"abc\tdef\t\nbar\t\nbar\tbaz\tboo\t\n",
    ),
    (b"| abc | def |\n| --- | --- |\n", b"abc\tdef\t\n"),
];

#[test]
fn rows_have_their_cells(rt: HostRuntime) {
    assert_cells(&rt, rt.alloc(), EXAMPLES);
}

// As cmark-gfm 0.29.0.gfm.6 has them, before it reads the inlines of each.
const OTHERS: &[Row] = &[
    (b"|a|\n|-|\n||\n|  |\n", b"a\t\n\t\n\t\n"),
    (b"|a|b|\n|-|-|\n|||\n| |\tc", b"a\tb\t\n\t\t\n\tc\t\n"),
    (b"a|b|e\n-|-|-\nc||d\n", b"a\tb\te\t\nc\t\td\t\n"),
    (
        b"a|b\n-|-\n`\\\\|`|c\\\\\\|d\n",
        b"a\tb\t\n`\\|`\tc\\\\|d\t\n",
    ),
    (b"|a|\n|-|\n|b\\|\n\\|c|\n", b"a\t\nb|\t\n|c\t\n"),
    (
        b"  a\t|\tb \r\n-|-\r\n\\||c \\|\\|\t\r",
        b"a\tb\t\n|\tc ||\t\n",
    ),
    (b"> |a|b|\n> |-|-|\n>   x\t|\ty \n", b"a\tb\t\nx\ty\t\n"),
    (
        b"- 1. a|b\n     -|-\n     c|d\n\n  e|f\n  -|-\n",
        b"a\tb\t\nc\td\t\ne\tf\t\n",
    ),
];

#[test]
fn other_rows_have_their_cells(rt: HostRuntime) {
    assert_cells(&rt, rt.alloc(), OTHERS);
}

// A page, and each byte of its cells with its offset.
const PLACES: &[(&[u8], &[(u8, usize)])] = &[
    (b"\n| a |\n|---|\n", &[(b'a', 3), (b'\t', 1), (b'\n', 1)]),
    (
        b"> a|b\n> -|-\n>  \\|c\\|| \\\n",
        &[
            (b'a', 2),
            (b'\t', 2),
            (b'b', 4),
            (b'\t', 2),
            (b'\n', 2),
            (b'|', 16),
            (b'c', 17),
            (b'|', 19),
            (b'\t', 15),
            (b'\\', 22),
            (b'\t', 15),
            (b'\n', 15),
        ],
    ),
];

#[test]
fn bytes_of_cells_stand_at_their_places(rt: HostRuntime) {
    for (page, expected) in PLACES {
        assert_elements(&rt, placed_cells(rt.alloc(), page), expected);
    }
}

#[test]
fn cells_are_counted(rt: HostRuntime) {
    let rows: &[(&[u8], usize)] = &[
        (b"| a | b |", 2),
        (b"a | b\n", 2),
        (b"|", 0),
        (b"||", 1),
        (b"\\|", 1),
        (b"", 1),
    ];
    for (row, expected) in rows {
        assert_same(&rt, count_cells(row), *expected);
    }
}

#[test]
fn columns_have_their_alignments(rt: HostRuntime) {
    let pages: &[(&[u8], &[Alignment])] = &[
        (b"a|b\n-|-\n", &[Alignment::None, Alignment::None]),
        (
            b"x\n\n> | abc | defghi |\n> :-: | -----------:\n> bar | baz\n",
            &[Alignment::Center, Alignment::Right],
        ),
        (
            b"a|b|c\n:-|-|-:\n",
            &[Alignment::Left, Alignment::None, Alignment::Right],
        ),
        (b"a\n", &[]),
    ];
    for (page, expected) in pages {
        assert_elements(&rt, first_alignments(rt.alloc(), page), expected);
    }
}
