//! Character references of many digits, and tables of entities.
use crate::asserts::{assert_answer, made};
use crate::texts::long_text;
use markdown_scanners_tree::scanners::{Entities, EntityTable, scan_entity};
use std::process::Abort;

const KNOWN: EntityTable = EntityTable {
    rows: &[(b"amp", "&"), (b"lt", "<")],
};

// How long the reference at the front is.
fn reference_length(text: &[u8]) -> usize {
    if text.is_empty() {
        0
    } else {
        scan_entity(text, &KNOWN).0
    }
}

// Were all digits read by each call, this test would read some 10^11 bytes.
fn assert_no_reference(rt: &impl Abort, text: &[u8]) {
    for call in 0..100_000 {
        assert_answer(rt, &call, reference_length(text), 0);
    }
}

#[test]
fn looks_at_eight_digits(rt: HostRuntime) {
    let alloc = rt.alloc();
    for mark in [b"&#".as_slice(), b"&#x"] {
        let text = long_text(alloc, mark, b"1", 1_000_000, b";");
        assert_no_reference(&rt, &made(&rt, text));
    }
}

const TABLE: EntityTable = EntityTable {
    rows: &[(b"lt", "<"), (b"gt", ">"), (b"lt", "less")],
};

const TEXTS: [(&[u8], Option<&str>); 5] = [
    (b"lt", Some("<")),
    (b"gt", Some(">")),
    (b"Lt", None),
    (b"l", None),
    (b"", None),
];

#[test]
fn a_table_has_the_text_of_the_first_row(rt: HostRuntime) {
    for (name, text) in TEXTS {
        assert_answer(&rt, &name, TABLE.get(name), text);
    }
}
