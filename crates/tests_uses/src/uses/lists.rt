//! Tests of `parser_uses::lists`.
use crate::asserts::{assert_made, assert_same, is_none, made};
use parser_uses::lists::{count_loose, first_list};
use std::process::Abort;

#[test]
fn the_first_list_is_found_where_it_ends(rt: HostRuntime) {
    let found = made(&rt, first_list(rt.alloc(), b"a\n\n3) b\n\n4) c\n- d\n"));
    let list = found.expect(&rt, "a list");
    assert_same(&rt, (list.delimiter, list.start), (b')', 3));
    assert_same(&rt, (list.is_loose, list.depth), (true, 0));
    assert_same(&rt, (list.line, list.end), (2, 5));
    assert!(rt; is_none(made(&rt, first_list(rt.alloc(), b"a\n"))));
}

#[test]
fn loose_lists_are_counted(rt: HostRuntime) {
    assert_made(
        &rt,
        count_loose(rt.alloc(), b"- a\n\n  b\n+ c\n\n> - d\n>\n> - e\n"),
        2,
    );
}
