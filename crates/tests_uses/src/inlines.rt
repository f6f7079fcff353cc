//! Calls of `markdown_inlines` and `markdown_html` that no program makes, by CommonMark 0.31.2, chapter 6: what programs print of
//! inlines is in `tests/rows`.
ghost use Rattle.std.specs.Prelude.{◌≡◌};
ghost use Rattle.std.specs.List.{list_any};
ghost use Rattle.std.specs.Str.{bytes_eq};
ghost use Rattle.markdown_scanners_tree.specs.Ascii.{asterisk};

use crate::asserts::{assert_elements, assert_same, assert_text, found, made};
use markdown_html::addresses::is_allowed_address;
use markdown_html::schemes::DEFAULT_SCHEMES;
use markdown_inlines::code_content::code_text;
use markdown_inlines::code_spans::CodeSpan;
use markdown_inlines::cut::cut_inlines;
use markdown_inlines::delimiter_runs::DelimiterRun;
use markdown_inlines::emphasis::{Delimiters, Emphasis, find_emphasis};
use markdown_inlines::guarded_code_spans::CodeSpans;
use markdown_inlines::links::{Labels, Link, LinkTarget, Links};
use markdown_inlines::pieces::{Piece, PieceKind};
use markdown_values::values::Extensions;
use std::alloc::AllocError;
use std::process::Abort;
use std::test::Fail;

// Labels that are defined.
#[derive(Drop)]
struct Defined {
    labels: &'static [&'static str],
}

impl Labels for Defined {
    ghost known = { λ it name. list_any (λ label. bytes_eq label.now name) it.labels.now };

    fn is_defined(&self, label: &str) -> Result<bool, AllocError> {
        Ok(self.labels.iter().any(|defined| *defined == label))
    }
}

const LABELS: Defined = Defined {
    labels: &["c", "g h"],
};

const WIKILINKS: Extensions = Extensions {
    tables: false,
    footnotes: false,
    strikethrough: false,
    tasks: false,
    definition_lists: false,
    wikilinks: true,
};

// A text with several strings of backticks, and what stands at its offsets: the content of the code
// span there, and how many bytes it has.
const STRINGS: &str = "a `b` ``c` ```d``` `e``f`";

const SPANS_AT: &[(usize, Option<(&str, usize)>)] = &[
    (0, None),
    (2, Some(("b", 3))),
    (6, Some(("c` ```d``` `e", 17))),
    (9, Some((" ```d``` ", 11))),
    (11, Some(("d", 7))),
    (15, None),
    (19, Some(("e``f", 6))),
    (21, None),
    (24, None),
    (25, None),
];

// The code span that begins at an offset of the strings has this content and so many bytes.
fn assert_span(
    rt: &impl Abort,
    offset: usize,
    span: Option<CodeSpan>,
    expected: Option<(&str, usize)>,
) {
    match span {
        Some(span) => {
            let content = found(rt, STRINGS.get(offset..)).get(span.content);
            assert_same(rt, Some((found(rt, content), span.len)), expected);
        }
        None => assert_same(rt, None, expected),
    }
}

#[test]
fn code_stands_at_many_places_of_a_text(rt: HostRuntime) -> Result<(), Fail> {
    let spans = CodeSpans::new(rt.alloc(), STRINGS.as_bytes())?;
    for (offset, expected) in SPANS_AT {
        if *offset <= STRINGS.len() {
            assert_span(&rt, *offset, spans.scan(*offset), *expected);
        }
    }
    Ok(())
}

// No code span of a page has a blank line in it.
#[test]
fn code_has_spaces_for_line_endings(rt: HostRuntime) {
    assert_text(&rt, code_text(rt.alloc(), "a\r\r\n\nb"), "a   b");
    assert_text(&rt, code_text(rt.alloc(), "\n\r\n"), "  ");
}

// A piece from one offset up to another.
const fn piece(kind: PieceKind, start: usize, end: usize) -> Piece {
    Piece { kind, start, end }
}

// A run of one delimiter, which opens emphasis or closes it.
const fn one_delimiter(can_open: bool) -> DelimiterRun
    ensures byte { result.byte ≡ asterisk }
{
    DelimiterRun {
        byte: b'*',
        count: 1,
        can_open,
        can_close: !can_open,
    }
}

// The same as a piece.
const fn run(can_open: bool, start: usize) -> Piece {
    let run = one_delimiter(can_open);
    piece(PieceKind::Delimiters(run), start, start.saturating_add(1))
}

#[test]
fn pieces_are_joined_to_their_text(rt: HostRuntime) {
    let text = "a *b* \\*&amp;`` c ``<d:e>\\\nf<g@h><i>";
    let cut = made(
        &rt,
        cut_inlines(rt.alloc(), text, &LABELS, Extensions::none()),
    );
    let expected = [
        piece(PieceKind::Text, 0, 2),
        run(true, 2),
        piece(PieceKind::Text, 3, 4),
        run(false, 4),
        piece(PieceKind::Text, 5, 6),
        piece(PieceKind::Escape, 6, 8),
        piece(PieceKind::Reference, 8, 13),
        piece(PieceKind::Code(2), 13, 20),
        piece(PieceKind::Text, 20, 25),
        piece(PieceKind::HardBreak, 25, 27),
        piece(PieceKind::Text, 27, 28),
        piece(PieceKind::Email, 28, 33),
        piece(PieceKind::Html, 33, 36),
    ];
    assert_same(&rt, cut.pieces.as_slice(), &expected);
    let emphasis = [Emphasis {
        opening: 2,
        closing: 4,
        count: 1,
        byte: b'*',
    }];
    assert_same(&rt, cut.emphasis.as_slice(), &emphasis);
    assert_same(&rt, cut.links.len(), 0);
}

// Of the brackets each begins this link, or none.
fn assert_links(rt: &impl Abort, links: &Links, expected: &[Option<Link>]) {
    assert_same(rt, links.len(), expected.len());
    for (number, link) in expected.iter().enumerate() {
        assert_same(rt, links.get(number), link.as_ref());
    }
}

#[test]
fn openers_have_their_links(rt: HostRuntime) {
    let text = "[ [a](b 'c')![d][g\n h][c][][c] [e]";
    let cut = made(
        &rt,
        cut_inlines(rt.alloc(), text, &LABELS, Extensions::none()),
    );
    let link = |is_image, source, text, target| {
        Some(Link {
            is_image,
            source,
            text,
            target,
        })
    };
    let expected = [
        None,
        link(false, 2..12, 3..4, LinkTarget::Inline(6..7, Some(9..10))),
        link(true, 12..22, 14..15, LinkTarget::Full(16..22)),
        link(false, 22..27, 23..24, LinkTarget::Collapsed),
        link(false, 27..30, 28..29, LinkTarget::Shortcut),
        None,
    ];
    assert_links(&rt, &cut.links, &expected);
    let closer = Some(piece(PieceKind::Closer, 4, 12));
    assert_same(&rt, cut.pieces.get(4).copied(), closer);
}

// How many bytes are passed over in search of ends: code spans once; where backticks are text, what stands
// from the first of them to the end of the text, and each of them once more; raw HTML up to its end; where
// it has none, up to the end of the text, once for each kind.
const PASSED: &[(&str, u128)] = &[
    ("", 0),
    ("a<b", 0),
    ("a `b` c", 3),
    ("`a``b```c", 15),
    ("`a` ``b", 8),
    ("<?a<?a<?a", 7),
    ("<!a<!a<!a", 9),
    ("<!--a--><!--b", 13),
];

#[test]
fn ends_are_searched_for_once(rt: HostRuntime) {
    for (text, passed) in PASSED {
        let cut = made(
            &rt,
            cut_inlines(rt.alloc(), text, &LABELS, Extensions::none()),
        );
        assert_same(&rt, (*text, cut.passed), (*text, *passed));
    }
}

#[test]
fn heads_of_wikilinks_are_openers(rt: HostRuntime) {
    let cut = made(
        &rt,
        cut_inlines(rt.alloc(), "[[a|b]]![[c]]", &LABELS, WIKILINKS),
    );
    let piece = |kind, start, end| Piece { kind, start, end };
    let expected = [
        piece(PieceKind::LinkOpener, 0, 4),
        piece(PieceKind::Text, 4, 5),
        piece(PieceKind::Closer, 5, 7),
        piece(PieceKind::ImageOpener, 7, 11),
        piece(PieceKind::Closer, 11, 13),
    ];
    assert_same(&rt, cut.pieces.as_slice(), &expected);
    let link = |is_image, source, text, target| {
        Some(Link {
            is_image,
            source,
            text,
            target,
        })
    };
    let links = [
        link(false, 0..7, 4..5, LinkTarget::Wiki(2..3)),
        link(true, 7..13, 11..11, LinkTarget::Wiki(10..11)),
    ];
    assert_links(&rt, &cut.links, &links);
}

// `*a*`, by its delimiters.
#[test]
fn emphasis_is_found_by_its_delimiters(rt: HostRuntime) {
    let runs = [
        Delimiters {
            start: 0,
            end: 1,
            run: one_delimiter(true),
        },
        Delimiters {
            start: 2,
            end: 3,
            run: one_delimiter(false),
        },
    ];
    let emphasis = Emphasis {
        opening: 0,
        closing: 2,
        count: 1,
        byte: b'*',
    };
    assert_elements(&rt, find_emphasis(rt.alloc(), &runs), &[emphasis]);
}

// A page has no U+0000 in its addresses, and a program has schemes.
#[test]
fn addresses_have_all_bytes_and_schemes(rt: HostRuntime) {
    let address = b"\0 \x1f\tjavascript:alert(1)";
    assert!(rt; !is_allowed_address(address, DEFAULT_SCHEMES));
    assert!(rt; is_allowed_address(b"ftp://host", &["FTP"]));
    assert!(rt; !is_allowed_address(b"http://host", &["FTP"]));
    assert!(rt; is_allowed_address(b"a?b:c", &[]));
    assert!(rt; !is_allowed_address(b"a:b", &[]));
}
