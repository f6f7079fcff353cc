//! Tests of `parser_uses::headings`.
use crate::asserts::assert_same;
use markdown_values::values::HeadingLevel;
use parser_uses::headings::{heading_level, heading_text, level_above};

#[test]
fn an_atx_heading_has_a_level_and_a_text(rt: HostRuntime) {
    assert_same(&rt, heading_level(b"## Usage"), Some(HeadingLevel::H2));
    assert_same(&rt, heading_text(b"## Usage"), Some(b" Usage".as_slice()));
    assert_same(&rt, heading_level(b"#hashtag"), None);
    assert_same(&rt, heading_text(b"####### seven"), None);
}

#[test]
fn an_underline_makes_a_heading(rt: HostRuntime) {
    assert_same(&rt, level_above(b"=====\n"), Some(HeadingLevel::H1));
    assert_same(&rt, level_above(b"---  \n"), Some(HeadingLevel::H2));
    assert_same(&rt, level_above(b"= =\n"), None);
}
