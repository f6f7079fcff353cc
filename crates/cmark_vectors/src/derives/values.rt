//! The derives of each type, called through their bounds.
use crate::asserts::made;
use crate::bounds::{are_equal, debug_printed, hash_of};
use markdown_values::strings::{CowStr, InlineStr, StringTooLongError};
use markdown_values::tree::{Tree, TreeIndex};
use markdown_values::values::{
    Alignment, BlockQuoteKind, CodeBlockKind, Event, HeadingLevel, InvalidHeadingLevel, LinkType,
    MetadataBlockKind, Options, Tag, TagEnd,
};
use std::alloc::{AllocError, Global};
use std::cmp::Ordering;
use std::fmt::Debug;
use std::hash::Hash;
use std::process::Abort;

fn is_printed<T: Debug>(rt: &impl Abort, alloc: Global, value: &T) -> bool {
    !made(rt, debug_printed(alloc, value)).is_empty()
}

// The lesser value and the greater one, by every derive of a value that is copied, ordered and
// hashed.
fn assert_ordered<T: Clone + Copy + Debug + Eq + Ord + Hash>(
    rt: &impl Abort,
    alloc: Global,
    less: T,
    more: T,
) {
    assert_copied(rt, alloc, less, more);
    assert!(rt; is_same(&made(rt, less.clone()), &less));
    assert!(rt; is_less(&less, &more));
}

fn is_same<T: Eq + Hash>(one: &T, other: &T) -> bool {
    are_equal(one, other) && hash_of(one) == hash_of(other)
}

fn is_less<T: Ord>(less: &T, more: &T) -> bool {
    less.cmp(more) == Ordering::Less && less.partial_cmp(more) == Some(Ordering::Less)
}

#[test]
fn plain_values_are_copied_ordered_and_hashed(rt: HostRuntime) {
    let alloc = rt.alloc();
    assert_ordered(&rt, alloc, BlockQuoteKind::Note, BlockQuoteKind::Tip);
    assert_ordered(
        &rt,
        alloc,
        MetadataBlockKind::YamlStyle,
        MetadataBlockKind::PlusesStyle,
    );
    assert_ordered(&rt, alloc, TagEnd::List(false), TagEnd::List(true));
    assert_ordered(&rt, alloc, HeadingLevel::H1, HeadingLevel::H6);
    assert_ordered(&rt, alloc, InvalidHeadingLevel(0), InvalidHeadingLevel(7));
    assert_ordered(
        &rt,
        alloc,
        Options::ENABLE_TABLES,
        Options::ENABLE_FOOTNOTES,
    );
}

// Two values that differ, by every derive of a value that is copied and compared.
fn assert_copied<T: Clone + Copy + Debug + PartialEq>(
    rt: &impl Abort,
    alloc: Global,
    one: T,
    other: T,
) {
    let copy = one;
    assert!(rt; copy == one && one != other);
    assert!(rt; made(rt, one.clone()) == one);
    assert!(rt; is_printed(rt, alloc, &one));
}

#[test]
fn links_and_alignments_are_copied_and_compared(rt: HostRuntime) {
    assert_copied(&rt, rt.alloc(), LinkType::Inline, LinkType::Email);
    assert_copied(&rt, rt.alloc(), Alignment::None, Alignment::Left);
}

fn assert_compared<T: Debug + Drop + PartialEq>(rt: &impl Abort, alloc: Global, one: T, other: T) {
    assert!(rt; one == one && one != other);
    assert!(rt; is_printed(rt, alloc, &one));
}

#[test]
fn tags_and_events_are_compared(rt: HostRuntime) {
    let alloc = rt.alloc();
    let fenced = CodeBlockKind::Fenced(CowStr::from("a"));
    assert_compared(&rt, alloc, fenced, CodeBlockKind::Indented);
    assert_compared(&rt, alloc, Tag::Paragraph, Tag::Item);
    assert_compared(&rt, alloc, Event::Rule, Event::HardBreak);
}

fn assert_printed<T: Debug + Drop>(rt: &impl Abort, alloc: Global, value: T) {
    assert!(rt; is_printed(rt, alloc, &value));
}

fn print_boxed(rt: &impl Abort, alloc: Global, text: &CowStr<'_>) {
    if let CowStr::Boxed(text) = text {
        assert!(rt; is_printed(rt, alloc, text));
    }
    assert!(rt; is_printed(rt, alloc, text));
}

fn owned(alloc: Global) -> Result<CowStr<'static>, AllocError> {
    CowStr::from_string(alloc, String::from_str(alloc, "a")?)
}

#[test]
fn texts_are_printed_by_debug(rt: HostRuntime) {
    let alloc = rt.alloc();
    assert_printed(&rt, alloc, InlineStr::from('a'));
    assert_printed(&rt, alloc, StringTooLongError);
    print_boxed(&rt, alloc, &made(&rt, owned(alloc)));
}

fn is_between<T: Clone + Copy + Debug + Eq + PartialOrd>(
    rt: &impl Abort,
    alloc: Global,
    less: T,
    more: T,
) -> bool {
    let copy = less;
    are_equal(&copy, &less)
        && are_equal(&made(rt, less.clone()), &less)
        && less < more
        && !(more <= less)
        && is_printed(rt, alloc, &less)
}

fn compare_indices(rt: &impl Abort, alloc: Global, tree: &mut Tree<u8>) {
    let first: TreeIndex = made(rt, tree.append(b'a'));
    let second = made(rt, tree.append(b'b'));
    assert!(rt; is_between(rt, alloc, first, second));
}

#[test]
fn indices_of_a_tree_are_copied_and_ordered(rt: HostRuntime) {
    compare_indices(
        &rt,
        rt.alloc(),
        &mut made(&rt, Tree::with_capacity(rt.alloc(), 3)),
    );
}
