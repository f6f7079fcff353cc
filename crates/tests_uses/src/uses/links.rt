//! Tests of `parser_uses::links`.
use crate::asserts::{assert_same, assert_text, found, is_none, made};
use html_entities::HtmlEntities;
use parser_uses::links::{
    FEW_ENTITIES, autolink, leading_destination, link_target, link_title, raw_destination,
    referenced,
};
use std::alloc::AllocError;
use std::convert::AsStr;
use std::process::Abort;

// A text that a call finds is this.
fn assert_found<T: AsStr + Drop>(rt: &impl Abort, text: Option<T>, expected: &str) {
    assert_same(rt, found(rt, text).as_str(), expected);
}

// The same of a text that is made first.
fn assert_made_found<T: AsStr + Drop>(
    rt: &impl Abort,
    text: Result<Option<T>, AllocError>,
    expected: &str,
) {
    assert_found(rt, made(rt, text), expected);
}

#[test]
fn a_destination_is_resolved(rt: HostRuntime) {
    let target = link_target(rt.alloc(), "[a](/b?c&amp;d\\*&auml;)", 4, &HtmlEntities);
    assert_made_found(&rt, target, "/b?c&d*\u{e4}");
    assert_same(&rt, raw_destination("[a](<b c>)", 4), Some((5, "b c")));
    assert_same(&rt, raw_destination("[a](<b", 4), None);
    assert_same(&rt, leading_destination("/b (title)"), Some((2, "/b")));
    assert_text(&rt, link_title(rt.alloc(), "Q&amp;A", &FEW_ENTITIES), "Q&A");
}

// The address that a call finds, and the text after it.
fn assert_autolink<T: AsStr + Drop>(
    rt: &impl Abort,
    link: Option<(T, &str)>,
    expected: (&str, &str),
) {
    let (uri, after) = found(rt, link);
    assert_same(rt, (uri.as_str(), after), expected);
}

#[test]
fn an_autolink_ends_at_its_bracket(rt: HostRuntime) {
    let link = autolink("<https://commonmark.org> says", 1);
    assert_autolink(&rt, link, ("https://commonmark.org", " says"));
}

#[test]
fn a_reference_means_a_character(rt: HostRuntime) {
    assert_found(&rt, referenced(b"&#35; one", &FEW_ENTITIES), "#");
    assert!(rt; is_none(referenced(b"&nosuch;", &FEW_ENTITIES)));
}
