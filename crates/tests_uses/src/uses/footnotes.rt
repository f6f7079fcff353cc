//! Tests of `parser_uses::footnotes`.
use crate::asserts::assert_elements;
use parser_uses::footnotes::footnote_labels;

#[test]
fn footnote_definitions_have_labels(rt: HostRuntime) {
    let labels: &[&[u8]] = &[b"a", b"\xc3\xa9:[", b"c"];
    assert_elements(
        &rt,
        footnote_labels(
            rt.alloc(),
            b"[^a]: x\n> [^\xc3\xa9:[]: y\n\n[^b b]: z\n\n- [^c]:[^ ]:\n",
        ),
        labels,
    );
}
