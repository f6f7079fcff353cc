//! Tests of `parser_uses::pages`, on examples of CommonMark 0.31.2.
use crate::asserts::{assert_made, assert_same, made};
use markdown_values::values::{Event, HeadingLevel};
use parser_uses::pages::{code_blocks, deepest, headings, link_lines, poem_events, words};
use std::alloc::Global;
use std::convert::AsStr;
use std::process::Abort;

// The link at an index is in this line, and leads there.
fn assert_link<T: AsStr + Drop>(
    rt: &impl Abort,
    link: Option<&(usize, T)>,
    expected: (usize, &str),
) {
    let (line, destination) = link.expect(rt, "a link");
    assert_same(rt, (*line, destination.as_str()), expected);
}

// Example 217
#[test]
fn links_have_lines(rt: HostRuntime) {
    let page =
        "[foo]: /foo-url \"foo\"\n[bar]: /bar-url\n  \"bar\"\n[baz]: /baz-url\n\n[foo],\n[bar],\n[baz]\n";
    let links = made(&rt, link_lines(rt.alloc(), page));
    assert_same(&rt, links.len(), 3);
    assert_link(&rt, links.get(0), (5, "/foo-url"));
    assert_link(&rt, links.get(1), (6, "/bar-url"));
    assert_link(&rt, links.get(2), (7, "/baz-url"));
}

// The heading has this level and this text.
fn assert_heading(
    rt: &impl Abort,
    heading: Option<&(HeadingLevel, String)>,
    expected: (HeadingLevel, &str),
) {
    let (level, text) = heading.expect(rt, "a heading");
    assert_same(rt, (*level, text.as_str()), expected);
}

// Examples 80 and 81
#[test]
fn headings_have_levels_and_texts(rt: HostRuntime) {
    let page = "Foo *bar*\n=========\n\nFoo *bar*\n---------\n\nFoo *bar\nbaz*\n====\n";
    let found = made(&rt, headings(rt.alloc(), page));
    assert_same(&rt, found.len(), 3);
    assert_heading(&rt, found.get(0), (HeadingLevel::H1, "Foo bar"));
    assert_heading(&rt, found.get(1), (HeadingLevel::H2, "Foo bar"));
    assert_heading(&rt, found.get(2), (HeadingLevel::H1, "Foo bar baz"));
}

// Examples 12, 14 and 80: each has so many words, of which this is the last.
#[test]
fn words_are_parted_by_space_and_blocks(rt: HostRuntime) {
    assert_words(&rt, rt.alloc(), "- `one\n- two`\n", (2, "two`"));
    assert_words(&rt, rt.alloc(), "\\*not emphasized*", (2, "emphasized*"));
    assert_words(
        &rt,
        rt.alloc(),
        "Foo *bar*\n=========\n\nFoo *bar*s\n",
        (4, "bars"),
    );
}

fn assert_words(rt: &impl Abort, alloc: Global, page: &str, expected: (usize, &str)) {
    let found = made(rt, words(alloc, page));
    let last = found.last().expect(rt, "a word");
    assert_same(rt, (found.len(), last.as_str()), expected);
}

// Examples 143 and 107
#[test]
fn code_has_a_language(rt: HostRuntime) {
    let fenced = "~~~~    ruby startline=3 $%@#$\ndef foo(x)\n  return 3\nend\n~~~~~~~\n";
    assert_code(
        &rt,
        rt.alloc(),
        fenced,
        ("ruby", "def foo(x)\n  return 3\nend\n"),
    );
    let indented = "    a simple\n      indented code block\n";
    assert_code(
        &rt,
        rt.alloc(),
        indented,
        ("", "a simple\n  indented code block\n"),
    );
}

fn assert_code(rt: &impl Abort, alloc: Global, page: &str, expected: (&str, &str)) {
    let found = made(rt, code_blocks(alloc, page));
    let block = found.first().expect(rt, "a code block");
    assert_same(rt, (block.language.as_str(), block.text.as_str()), expected);
}

// Example 648
#[test]
fn a_poem_keeps_its_line_endings(rt: HostRuntime) {
    let events = made(&rt, poem_events(rt.alloc(), "foo\nbaz\n"));
    assert_same(&rt, events.len(), 5);
    assert!(rt; matches!(events.get(2), Some(Event::HardBreak)));
}

// Examples 250 and 292: quotes in each other, and a quote in an item of a list in a quote
#[test]
fn elements_stand_in_each_other(rt: HostRuntime) {
    assert_made(&rt, deepest(rt.alloc(), "> > > foo\nbar\n"), 4);
    assert_made(
        &rt,
        deepest(rt.alloc(), "> 1. > Blockquote\ncontinued here.\n"),
        5,
    );
}
