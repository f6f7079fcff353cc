//! Tests of `parser_uses::blocks`.
use crate::asserts::{assert_made, assert_same};
use markdown_values::values::MetadataBlockKind;
use parser_uses::blocks::{
    begin_alike, break_free, column_count, column_width, fenced_code, is_blank, is_break,
    marker_length, metadata_kind,
};

#[test]
fn breaks_are_printed_from_items(rt: HostRuntime) {
    assert_same(&rt, is_break(b"* * *\n"), true);
    assert_same(&rt, is_break(b"* * a\n"), false);
    assert_same(&rt, break_free(b"* * a * * *\n"), Some(4));
    assert_same(&rt, break_free(b"* * *\n"), None);
}

#[test]
fn blank_lines_hold_white_space_alone(rt: HostRuntime) {
    assert_same(&rt, is_blank(b" \t\n"), true);
    assert_same(&rt, is_blank(b" a\n"), false);
}

const ALIKE: &[(&str, &str, bool)] = &[
    ("- milk\n", "- bread\n", true),
    ("milk\n", "bread\n", true),
    ("- milk\n", "+ milk\n", false),
    ("- milk\n", "-  milk\n", false),
];

#[test]
fn items_begin_alike_or_not(rt: HostRuntime) {
    for (one, other, are_alike) in ALIKE {
        let found = begin_alike(one.as_bytes(), other.as_bytes());
        assert_same(&rt, (*one, *other, found), (*one, *other, *are_alike));
    }
}

#[test]
fn markers_have_the_space_that_belongs_to_them(rt: HostRuntime) {
    assert_same(&rt, marker_length(b"-   milk\n"), Some(4));
    assert_same(&rt, marker_length(b"10) milk\n"), Some(4));
    assert_same(&rt, marker_length(b"-milk\n"), None);
}

#[test]
fn columns_are_aligned(rt: HostRuntime) {
    let alloc = rt.alloc();
    assert_made(&rt, column_count(alloc, b"| --- | :-: |\n"), Some(2));
    assert_made(&rt, column_count(alloc, b"| --- | abc |\n"), None);
    assert_made(&rt, column_width(alloc, b"| --- | :-: |\n", 80), Some(40));
}

#[test]
fn code_stands_between_its_fences(rt: HostRuntime) {
    let found = fenced_code(b"```rust\nlet a = 1;\n``\n```\nText\n");
    let parts: (&[u8], &[u8], &[u8]) = (b"```rust\n", b"let a = 1;\n``\n", b"```\nText\n");
    assert_same(&rt, found, Some(parts));
}

#[test]
fn metadata_stands_between_lines(rt: HostRuntime) {
    let kind = metadata_kind(b"---\ntitle: Uses\n---\n# Uses\n");
    assert_same(&rt, kind, Some(MetadataBlockKind::YamlStyle));
    assert_same(&rt, metadata_kind(b"---\n\nText\n"), None);
}
