//! Tests of `parser_uses::events`: the first page is example 214 of CommonMark 0.31.2, and the second 317. The rows of
//! `tests/rows/containers.txt` and `extensions.txt` are of the same words.
use crate::asserts::assert_text;
use markdown_values::values::Extensions;
use parser_uses::events::{shown_events, shown_events_ext};

const PAGES: &[(&[u8], &str)] = &[
    (
        b"# [Foo]\n[foo]: /url\n> bar\n",
        "other 1 1; definition 2 2; quote 20; paragraph 3 3; end",
    ),
    (
        b"- a\n- b\n\n  [ref]: /url\n- d\n",
        "item 0; paragraph 1 1; end; item 4; paragraph 2 2; blank 3 3; definition 4 4; end; item 23; paragraph 5 5; end",
    ),
    (b"", ""),
];

#[test]
fn events_are_shown_in_words(rt: HostRuntime) {
    for (page, events) in PAGES {
        assert_text(&rt, shown_events(rt.alloc(), page), events);
    }
}

#[test]
fn extensions_are_asked_for(rt: HostRuntime) {
    assert_text(
        &rt,
        shown_events_ext(
            rt.alloc(),
            b"apple\n: red\n\n[^a]: x\n: y\n\n    : z\n",
            Extensions {
                footnotes: true,
                definition_lists: true,
                ..Extensions::none()
            },
        ),
        "paragraph 1 1; term_definition 6; paragraph 2 2; blank 3 3; end; footnote 13; paragraph 4 5; blank 6 6; \
        term_definition 30; paragraph 7 7; end; end",
    );
    let tables = Extensions {
        tables: true,
        ..Extensions::none()
    };
    let page = b"|a|b|\n|-|-|\n|c|d|\n";
    assert_text(&rt, shown_events_ext(rt.alloc(), page, tables), "other 1 3");
    assert_text(&rt, shown_events(rt.alloc(), page), "paragraph 1 3");
}
