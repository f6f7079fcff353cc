//! Tests of `parser_uses::lines`.
use crate::asserts::{assert_elements, assert_same};
use parser_uses::lines::{
    begun_item, ends_paragraph, is_ticked, item_count, items_of, list_items, shown_line,
    split_markers,
};

#[test]
fn lines_are_split_from_their_markers(rt: HostRuntime) {
    let parts: (&[u8], &[u8]) = (b"  > 1. ", b"milk");
    assert_same(&rt, split_markers(b"  > 1. milk"), parts);
}

#[test]
fn lines_are_shown_without_tabs(rt: HostRuntime) {
    assert_elements(
        &rt,
        shown_line(rt.alloc(), b"-\tab\tc\n\t"),
        b"-   ab  c\n\t",
    );
    assert_elements(&rt, shown_line(rt.alloc(), b""), b"");
}

#[test]
fn items_are_read_from_their_lines(rt: HostRuntime) {
    let lines: [&[u8]; 4] = [b"7. Boil", b"   the water", b"8. Brew", b" 9) Drink"];
    let items = [(b'.', 7, 3), (b'.', 8, 3), (b')', 9, 3)];
    assert_elements(&rt, items_of(rt.alloc(), &lines), &items);
    assert_same(&rt, item_count(&lines), 3);
}

#[test]
fn items_are_parts_of_their_list(rt: HostRuntime) {
    let parts: [&[u8]; 3] = [b"- a\n  b\n\n", b"- c\r", b"- d"];
    assert_elements(&rt, list_items(rt.alloc(), b"- a\n  b\n\n- c\r- d"), &parts);
}

#[test]
fn items_end_paragraphs(rt: HostRuntime) {
    assert_same(&rt, ends_paragraph(b"3) Milk"), true);
    assert_same(&rt, begun_item(b"3) Milk"), Some((b')', 3, 3)));
    assert_same(&rt, ends_paragraph(b"3)Milk"), false);
    assert_same(&rt, begun_item(b"3)Milk"), None);
}

#[test]
fn boxes_are_ticked_or_not(rt: HostRuntime) {
    assert_same(&rt, is_ticked(b"[x] Milk"), Some(true));
    assert_same(&rt, is_ticked(b"[ ] Bread"), Some(false));
    assert_same(&rt, is_ticked(b"Eggs"), None);
}
