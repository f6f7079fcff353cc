//! Tests of `parser_uses::labels`.
use crate::asserts::{assert_same, found, is_none, made};
use markdown_scanners_tree::linklabel::LinkLabel;
use markdown_values::strings::CowStr;
use parser_uses::labels::{Definition, definition_of, label_in_line, label_in_quote};
use std::alloc::{AllocError, Global};
use std::process::Abort;

// The definition of this label.
fn definition(
    rt: &impl Abort,
    alloc: Global,
    text: &'static str,
    destination: &'static str,
) -> Definition<'static> {
    Definition {
        label: made(rt, LinkLabel::new(alloc, CowStr::from(text))),
        destination: CowStr::from(destination),
    }
}

// The label that a text begins with is defined by this destination.
fn assert_defined<'d>(
    rt: &impl Abort,
    alloc: Global,
    definitions: &'d [Definition<'d>],
    text: &str,
    destination: &str,
) {
    let (_, label) = found(rt, made(rt, label_in_line(alloc, text)));
    let definition = found(rt, definition_of(definitions, &label));
    assert_same(rt, definition.destination.as_str(), destination);
}

#[test]
fn the_first_definition_counts(rt: HostRuntime) {
    let alloc = rt.alloc();
    let definitions = [
        definition(&rt, alloc, "Rattle", "/one"),
        definition(&rt, alloc, "RATTLE", "/two"),
    ];
    assert_defined(&rt, alloc, &definitions, "rattle] for more", "/one");
}

// The label that a call finds in a quote, and what stands after it.
type InQuote<'t> = Result<Option<(LinkLabel<'t>, &'t str)>, AllocError>;

// They are these.
fn assert_label(rt: &impl Abort, label: InQuote<'_>, text: &str, after: &str) {
    let (label, rest) = found(rt, made(rt, label));
    assert_same(rt, (label.as_str(), rest), (text, after));
}

#[test]
fn a_label_loses_the_markers_of_its_quote(rt: HostRuntime) {
    let alloc = rt.alloc();
    let label = label_in_quote(alloc, "Link\n> label]: /url");
    assert_label(&rt, label, "Link label", ": /url");
    let label = label_in_quote(alloc, "Link\nlabel]: /url");
    assert!(rt; is_none(made(&rt, label)));
}
