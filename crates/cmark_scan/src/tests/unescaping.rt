//! Runs of the command that resolves escapes and references.
use super::{Done, assert_done, assert_not_text};

const UNESCAPE: &[&str] = &["unescape"];

const UNESCAPED: &[Done] = &[
    (b"&lt;a&gt; \\*b", "<a> *b"),
    (b"", ""),
    (b"plain", "plain"),
    (b"&amp;lt;", "&lt;"),
    (b"&quot;&copy;&#65;\r\n", "\"&copy;A\n"),
    (b"\\\\|", "\\|"),
    (b"a\r\nb", "a\nb"),
    (b"&#0;&#x1F354;&#12345678;", "\u{fffd}🍔&#12345678;"),
];

#[test]
fn prints_unescaped_texts(rt: HostRuntime) {
    assert_done(&rt, rt.alloc(), UNESCAPE, UNESCAPED);
}

#[test]
fn reports_a_byte_that_is_not_utf_8(rt: HostRuntime) {
    assert_not_text(&rt, rt.alloc(), UNESCAPE, b"\xff");
}
