//! Byte classes.
use markdown_scanners_tree::scanners::{
    is_ascii_punctuation, is_ascii_whitespace, is_ascii_whitespace_no_nl,
};

// The definitions of the classes, written out: white space is 0x09 to 0x0D and space, white space
// in a line is tab, 0x0B, 0x0C and space, and punctuation is in four ranges.
fn are_as_written(byte: u8) -> bool {
    is_ascii_whitespace(byte) == matches!(byte, 0x09..=0x0d | 0x20)
        && is_ascii_whitespace_no_nl(byte) == matches!(byte, 0x09 | 0x0b | 0x0c | 0x20)
        && is_ascii_punctuation(byte)
            == matches!(byte, 0x21..=0x2f | 0x3a..=0x40 | 0x5b..=0x60 | 0x7b..=0x7e)
}

#[test]
fn classes_hold_exactly_their_bytes(rt: HostRuntime) {
    for byte in 0..=255_u8 {
        assert!(rt; are_as_written(byte), "at {byte}");
    }
}
