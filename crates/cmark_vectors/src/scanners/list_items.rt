//! List items of many digits.
use crate::asserts::{assert_answer, made};
use crate::texts::long_text;
use markdown_scanners_tree::scanners::scan_listitem;

// Were all digits read by each call, this test would read some 10^11 bytes.
#[test]
fn looks_at_ten_digits(rt: HostRuntime) {
    let text = made(&rt, long_text(rt.alloc(), b"", b"1", 4_000_000, b". x"));
    for call in 0..50_000 {
        assert_answer(&rt, &call, scan_listitem(&text), None);
    }
}
