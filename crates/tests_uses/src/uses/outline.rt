//! Tests of `parser_uses::outline`.
use crate::asserts::{assert_elements, assert_same, assert_text, made};
use markdown_values::tree::{Tree, TreeIndex};
use parser_uses::outline::{Item, add_inner, add_item, empty_outline, end_inner, levels, written};
use std::process::Abort;

// Adds an item on the level of the last one.
fn add(rt: &impl Abort, outline: &mut Tree<Item>, first: char) -> TreeIndex {
    made(rt, add_item(outline, Item { first }))
}

// - a
//   - b
//   - c
// - d
fn fill(rt: &impl Abort, outline: &mut Tree<Item>) {
    let a = add(rt, outline, 'a');
    if outline.cur().is_some() {
        made(rt, add_inner(outline, Item { first: 'b' }));
    }
    add(rt, outline, 'c');
    end_inner(outline);
    assert_same(rt, outline.cur(), Some(a));
    add(rt, outline, 'd');
}

#[test]
fn a_nested_list_is_a_tree(rt: HostRuntime) {
    let mut outline = made(&rt, empty_outline(rt.alloc()));
    fill(&rt, &mut outline);
    assert_elements(&rt, levels(rt.alloc(), &outline), &[0, 1, 1, 0]);
    assert_text(&rt, written(rt.alloc(), &outline), "a\n  b\n  c\nd\n");
}
