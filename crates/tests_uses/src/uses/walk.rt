//! Tests of `parser_uses::walk`.
use crate::asserts::{assert_elements, assert_made};
use parser_uses::walk::{has_code, paragraph_heads};

const PAGE: &[u8] = b"# a\n\nb\nc\n> d\ne\n- f\n\n  g\n\n      h\n\n```` rust\ni\n````\n1. ~~~ c\n";

const HEADS: &[&[u8]] = &[b"b\n", b"d\n", b"f\n", b"g\n"];

#[test]
fn paragraphs_are_found_in_their_containers(rt: HostRuntime) {
    assert_elements(&rt, paragraph_heads(rt.alloc(), PAGE), HEADS);
}

#[test]
fn code_is_found_by_its_info_string(rt: HostRuntime) {
    assert_made(&rt, has_code(rt.alloc(), PAGE, b"rust"), true);
    assert_made(&rt, has_code(rt.alloc(), PAGE, b"c"), true);
    assert_made(&rt, has_code(rt.alloc(), PAGE, b"i"), false);
    assert_made(&rt, has_code(rt.alloc(), PAGE, b""), false);
}

#[test]
fn what_is_left_has_its_own_first_line(rt: HostRuntime) {
    let heads: &[&[u8]] = &[b"text\n", b"lazy\n", b"e"];
    assert_elements(
        &rt,
        paragraph_heads(
            rt.alloc(),
            b"> [a]: /b\n>   text\n\n- [c]: /d\n  \"f\"\nlazy\n\n[g]: /h\ne",
        ),
        heads,
    );
}
