//! Tests of `parser_uses::pass`.
use crate::asserts::assert_elements;
use parser_uses::pass::blocks_of;

const PAGE: &[u8] = b"# a\nb\n* * *\n```\n\n# c\n```\n\nd\n    e\r\n~~~\nf";

const BLOCKS: &[&[u8]] = &[
    b"# a\nb\n",
    b"* * *\n",
    b"```\n\n# c\n```\n",
    b"\nd\n    e\r\n",
    b"~~~\nf",
];

#[test]
fn blocks_are_parts_of_their_page(rt: HostRuntime) {
    assert_elements(&rt, blocks_of(rt.alloc(), PAGE), BLOCKS);
}
