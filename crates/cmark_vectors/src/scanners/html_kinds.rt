//! The numbers of the kinds of HTML blocks, and where blocks begin and end in long lines.
use crate::asserts::{assert_answer, made};
use crate::texts::long_text;
use markdown_scanners_tree::scanners::{HtmlBlockKind, ends_html_block, scan_html_block_start};
use std::process::Abort;

// The start conditions in their order, each by what the specification has of it.
const NUMBERS: [(u8, &[u8], HtmlBlockKind); 7] = [
    (1, b"<pre", HtmlBlockKind::RawText),
    (2, b"<!--", HtmlBlockKind::Comment),
    (3, b"<?", HtmlBlockKind::Processing),
    (4, b"<!X", HtmlBlockKind::Declaration),
    (5, b"<![CDATA[", HtmlBlockKind::Cdata),
    (6, b"<address", HtmlBlockKind::BlockName),
    (7, b"<a>", HtmlBlockKind::TagAlone),
];

#[test]
fn kinds_have_the_numbers_of_their_conditions(rt: HostRuntime) {
    for (number, line, kind) in NUMBERS {
        assert_answer(&rt, &number, (kind.number(), kind as u8), (number, number));
        assert_answer(&rt, &number, HtmlBlockKind::from_number(number), Some(kind));
        assert_answer(&rt, &number, scan_html_block_start(line), Some(kind));
    }
    for number in [0, 8, 255] {
        assert_answer(&rt, &number, HtmlBlockKind::from_number(number), None);
    }
}

// Blocks of the kinds 6 and 7 end before a blank line (4.6).
#[test]
fn kinds_6_and_7_end_before_a_blank_line(rt: HostRuntime) {
    for (number, _, kind) in NUMBERS {
        assert_answer(&rt, &number, kind.ends_before_blank(), number >= 6);
    }
}

// The kind of a block that begins with this name, and whether the name ends a declaration.
fn assert_name(rt: &impl Abort, name: &[u8], kind: Option<HtmlBlockKind>, ends: bool) {
    assert_answer(rt, &name.len(), scan_html_block_start(name), kind);
    assert_end(rt, name, HtmlBlockKind::Declaration, ends);
}

fn assert_end(rt: &impl Abort, line: &[u8], kind: HtmlBlockKind, ends: bool) {
    assert_answer(rt, &line.len(), ends_html_block(line, kind), ends);
}

const NAMES: [(&[u8], Option<HtmlBlockKind>, bool); 2] = [
    (b"", None, false),
    (b">", Some(HtmlBlockKind::TagAlone), true),
];

#[test]
fn reads_long_names(rt: HostRuntime) {
    let alloc = rt.alloc();
    for (last, kind, ends) in NAMES {
        let name = long_text(alloc, b"<", b"a", 99_999, last);
        assert_name(&rt, &made(&rt, name), kind, ends);
    }
}

#[test]
fn reads_long_runs_of_hyphens(rt: HostRuntime) {
    let alloc = rt.alloc();
    for (last, ends) in [(b"".as_slice(), false), (b">", true)] {
        let line = long_text(alloc, b"", b"-", 100_000, last);
        assert_end(&rt, &made(&rt, line), HtmlBlockKind::Comment, ends);
    }
}
