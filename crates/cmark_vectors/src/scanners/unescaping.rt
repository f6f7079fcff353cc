//! Texts that are unescaped: boxed, or the input itself.
use crate::asserts::{assert_answer, made};
use markdown_scanners_tree::scanners::{EntityTable, unescape};
use markdown_values::strings::CowStr;
use std::alloc::Global;
use std::process::Abort;

const KNOWN: EntityTable = EntityTable {
    rows: &[(b"amp", "&"), (b"lt", "<")],
};

// The text has memory of its own, and reads as this one.
fn assert_boxed(rt: &impl Abort, alloc: Global, text: &str, is_in_table: bool, expected: &str) {
    let found = made(rt, unescape(alloc, CowStr::from(text), is_in_table, &KNOWN));
    assert_answer(rt, &text, matches!(&found, CowStr::Boxed(_)), true);
    assert_answer(rt, &text, found.as_str(), expected);
}

// A text, whether it is in a table, and what it means.
const BOXED: [(&str, bool, &str); 5] = [
    ("&amp;lt;", false, "&lt;"),
    ("\\\\|", true, "|"),
    ("\\\\|", false, "\\|"),
    ("\\|", true, "|"),
    ("a\r\nb", false, "a\nb"),
];

// However short it is.
#[test]
fn texts_that_change_are_boxed(rt: HostRuntime) {
    for (text, is_in_table, expected) in BOXED {
        assert_boxed(&rt, rt.alloc(), text, is_in_table, expected);
    }
}

fn assert_lent(rt: &impl Abort, alloc: Global, text: &str) {
    let found = made(rt, unescape(alloc, CowStr::from(text), false, &KNOWN));
    assert_answer(rt, &text, matches!(&found, CowStr::Borrowed(_)), true);
    assert_answer(rt, &text, found.as_str(), text);
}

#[test]
fn texts_that_mean_themselves_are_handed_back(rt: HostRuntime) {
    assert_lent(&rt, rt.alloc(), "plain");
}
