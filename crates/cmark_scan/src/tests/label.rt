//! Runs of the command for labels.
use super::{Row, assert_not_text, assert_rows};

const LABEL: &[&str] = &["label"];

const LABELS: &[Row] = &[
    (
        (LABEL, b"Foo  Bar]"),
        (0, "bytes 9\nborrowed false\nlabel Foo Bar\n"),
    ),
    (
        (LABEL, b"a\\ ]"),
        (0, "bytes 4\nborrowed true\nlabel a\\\n"),
    ),
    (
        (LABEL, b"a\\|b]"),
        (0, "bytes 5\nborrowed true\nlabel a\\|b\n"),
    ),
    (
        (LABEL, b"hello\r\nworld\r\n]"),
        (0, "bytes 15\nborrowed false\nlabel hello world\n"),
    ),
    (
        (LABEL, b"\xc2\xab\t\tBlurry Eyes\t\t\xc2\xbb]"),
        (0, "bytes 20\nborrowed false\nlabel « Blurry Eyes »\n"),
    ),
    ((LABEL, b" ]"), (1, "none\n")),
    ((LABEL, b"a\n\nb]"), (1, "none\n")),
    ((LABEL, b""), (1, "none\n")),
];

#[test]
fn prints_labels(rt: HostRuntime) {
    assert_rows(&rt, rt.alloc(), LABELS);
}

#[test]
fn reports_bytes_that_are_not_utf_8(rt: HostRuntime) {
    assert_not_text(&rt, rt.alloc(), LABEL, b"a]\xff");
}
