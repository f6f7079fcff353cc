//! Texts: what each call answers, in which variant, and that equality and hash see the text alone.
use crate::asserts::{assert_same, assert_text, made};
use crate::bounds::{are_equal, hash_of, printed};
use crate::kept::{Kept, Made};
use markdown_values::strings::{BoxedStr, CowStr, InlineStr, MAX_INLINE_STR_LEN};
use std::alloc::{AllocError, Global};
use std::convert::AsStr;
use std::fmt::{Debug, Display};
use std::hash::Hash;
use std::process::Abort;

const OF_15: &str = "0123456789abcde";

const OF_22: &str = "0123456789abcdefghijkl";

const OF_23: &str = "0123456789abcdefghijklm";

const OF_30: &str = "0123456789abcdefghijklmnopqrst";

// A text, whose variant can be asked.
trait Held {
    fn variant(&self) -> &'static str;

    fn text(&self) -> &str;
}

impl<'a> Held for CowStr<'a> {
    fn variant(&self) -> &'static str {
        match self {
            CowStr::Boxed(_) => "boxed",
            CowStr::Borrowed(_) => "borrowed",
            CowStr::Inlined(_) => "inlined",
        }
    }

    fn text(&self) -> &str {
        self.as_str()
    }
}

fn boxed(alloc: Global, text: &str) -> Result<CowStr<'static>, AllocError> {
    CowStr::from_string(alloc, String::from_str(alloc, text)?)
}

// What a text is made from: a string of its own, a text that it borrows, or a character.
#[derive(Clone, Copy)]
pub(crate) enum Source {
    Owned(&'static str),
    Lent(&'static str),
    Character(char),
}

impl Made for CowStr<'static> {
    type Parts = Source;

    fn made(alloc: Global, source: Source) -> Result<CowStr<'static>, AllocError> {
        match source {
            Source::Owned(text) => boxed(alloc, text),
            Source::Lent(text) => Ok(CowStr::from(text)),
            Source::Character(character) => Ok(CowStr::from(character)),
        }
    }
}

fn inlined(text: &str) -> Option<CowStr<'static>> {
    match InlineStr::try_from(text) {
        Ok(text) => Some(CowStr::Inlined(text)),
        Err(_) => None,
    }
}

fn borrowed<T: AsStr>(text: &T) -> &str {
    text.as_str()
}

fn printed_wide<T: Display>(alloc: Global, text: &T) -> Result<String, AllocError> {
    format!(in alloc; "<{:>8}>", text)
}

// The inlined text is this, and its copy is the same text.
fn assert_inline(rt: &impl Abort, inline: &InlineStr, text: &str) {
    assert_same(rt, inline.as_str(), text);
    assert_same(rt, inline.copy().as_str(), text);
    assert!(rt; are_equal(inline, &inline.copy()));
}

// A text that fits is inlined, and its copy is the same text.
fn assert_fits(rt: &impl Abort, text: &str, fits: bool) {
    let inline = InlineStr::try_from(text);
    assert!(rt; inline.is_ok() == fits, "at {text}");
    if let Ok(inline) = inline {
        assert_inline(rt, &inline, text);
    }
}

const FITS: &[(&str, bool)] = &[
    ("", true),
    (OF_15, true),
    (OF_22, true),
    (OF_23, false),
    (OF_30, false),
];

#[test]
fn texts_of_at_most_22_bytes_are_inlined(rt: HostRuntime) {
    assert!(rt; MAX_INLINE_STR_LEN >= 4);
    assert_same(&rt, MAX_INLINE_STR_LEN, OF_22.len());
    assert_same(&rt, InlineStr::from('a').as_str(), "a");
    assert_same(&rt, InlineStr::from('🍔').as_str().len(), 4);
    assert_same(&rt, InlineStr::from('🍔').as_str(), "🍔");
    assert_same(&rt, borrowed(&InlineStr::from('é')), "é");
    for (text, fits) in FITS {
        assert_fits(&rt, text, *fits);
    }
    assert!(rt; !are_equal(&InlineStr::from('a'), &InlineStr::from('b')));
}

// A text is held so, and reads as this one.
fn assert_held<T: AsStr + Drop + Held>(rt: &impl Abort, text: T, variant: &str, expected: &str) {
    assert_same(rt, text.variant(), variant);
    assert_same(rt, text.text(), expected);
    assert_same(rt, borrowed(&text), expected);
}

// The same of the text made from these parts.
fn assert_made_held<T: AsStr + Drop + Held + Made>(
    rt: &impl Abort,
    alloc: Global,
    parts: T::Parts,
    variant: &str,
    expected: &str,
) {
    assert_held(rt, made(rt, T::made(alloc, parts)), variant, expected);
}

const HELD: &[(Source, &str, &str)] = &[
    (Source::Character('c'), "inlined", "c"),
    (Source::Character('藏'), "inlined", "藏"),
    (Source::Lent(""), "borrowed", ""),
    (Source::Lent("a"), "borrowed", "a"),
    (Source::Lent(OF_22), "borrowed", OF_22),
    (Source::Lent(OF_30), "borrowed", OF_30),
];

#[test]
fn a_character_is_inlined_and_a_text_is_borrowed(rt: HostRuntime) {
    for (source, variant, expected) in HELD {
        assert_made_held::<CowStr<'static>>(&rt, rt.alloc(), *source, variant, expected);
    }
}

// The string of the text made from this source is this.
fn assert_string(rt: &impl Abort, alloc: Global, source: Source, expected: &str) {
    let text = made(rt, CowStr::made(alloc, source));
    assert_text(rt, text.into_string(alloc), expected);
}

const STRINGS: &[(Source, &str)] = &[
    (Source::Lent("some text"), "some text"),
    (Source::Character('s'), "s"),
    (Source::Owned("s"), "s"),
    (Source::Character('藏'), "藏"),
];

#[test]
fn each_variant_gives_its_string(rt: HostRuntime) {
    for (source, expected) in STRINGS {
        assert_string(&rt, rt.alloc(), *source, expected);
    }
}

// A text is boxed, and its string reads as this one.
fn assert_boxed(rt: &impl Abort, text: &CowStr<'_>, expected: &str) {
    assert_same(rt, text.variant(), "boxed");
    if let CowStr::Boxed(owned) = text {
        let owned: &BoxedStr = owned;
        assert_same(rt, owned.as_str(), expected);
        assert_same(rt, borrowed(owned), expected);
    }
}

#[test]
fn a_string_is_owned(rt: HostRuntime) {
    assert_boxed(&rt, &made(&rt, boxed(rt.alloc(), "a")), "a");
}

// A copy is held so, and equals the text.
fn assert_copy<T: AsStr + Debug + Drop + Held + Kept + Made + PartialEq>(
    rt: &impl Abort,
    alloc: Global,
    parts: T::Parts,
    variant: &str,
) {
    let text = made(rt, T::made(alloc, parts));
    let copy = made(rt, text.copied(alloc));
    assert_same(rt, &copy, &text);
    assert_held(rt, copy, variant, borrowed(&text));
}

const COPIES: &[(Source, &str)] = &[
    (Source::Owned(OF_15), "inlined"),
    (Source::Owned(OF_22), "inlined"),
    (Source::Owned(OF_23), "boxed"),
    (Source::Lent(OF_30), "borrowed"),
    (Source::Lent("a"), "borrowed"),
    (Source::Character('a'), "inlined"),
];

#[test]
fn copies_stay_lent_or_short(rt: HostRuntime) {
    for (source, variant) in COPIES {
        assert_copy::<CowStr<'static>>(&rt, rt.alloc(), *source, variant);
    }
}

// What is borrowed nowhere is held so, and reads as this text.
fn assert_static<T: AsStr + Drop + Held + Kept + Made>(
    rt: &impl Abort,
    alloc: Global,
    parts: T::Parts,
    variant: &str,
    expected: &str,
) {
    let text = made(rt, T::made(alloc, parts));
    assert_held(rt, made(rt, text.made_static(alloc)), variant, expected);
}

const STATIC: &[(Source, &str, &str)] = &[
    (Source::Lent(OF_22), "inlined", OF_22),
    (Source::Lent(OF_23), "boxed", OF_23),
    (Source::Owned("a"), "boxed", "a"),
    (Source::Owned(OF_30), "boxed", OF_30),
    (Source::Character('a'), "inlined", "a"),
];

#[test]
fn static_texts_are_lent_nowhere(rt: HostRuntime) {
    for (source, variant, expected) in STATIC {
        assert_static::<CowStr<'static>>(&rt, rt.alloc(), *source, variant, expected);
    }
}

// Two values are equal, and so are their hashes.
fn assert_equal<T: Drop + Eq + Hash>(rt: &impl Abort, one: T, other: T) {
    assert!(rt; are_equal(&one, &other));
    assert_same(rt, hash_of(&one), hash_of(&other));
}

fn hash_of_owned<T: Drop + Hash>(value: T) -> u64 {
    hash_of(&value)
}

// Texts that are boxed, borrowed and inlined equal one another.
const EQUAL: &[(Source, Source)] = &[
    (Source::Owned("a"), Source::Lent("a")),
    (Source::Lent("a"), Source::Character('a')),
    (Source::Character('a'), Source::Owned("a")),
];

fn assert_made_equal<T: Drop + Eq + Hash + Made>(
    rt: &impl Abort,
    alloc: Global,
    one: T::Parts,
    other: T::Parts,
) {
    let one = made(rt, T::made(alloc, one));
    assert_equal(rt, one, made(rt, T::made(alloc, other)));
}

#[test]
fn texts_are_equal_whatever_holds_them(rt: HostRuntime) {
    for (one, other) in EQUAL {
        assert_made_equal::<CowStr<'static>>(&rt, rt.alloc(), *one, *other);
    }
    assert_same(
        &rt,
        hash_of_owned(InlineStr::from('a')),
        hash_of_owned(CowStr::from('a')),
    );
}

fn are_equal_values<T: Drop + Eq>(one: T, other: T) -> bool {
    are_equal(&one, &other)
}

#[test]
fn texts_of_other_bytes_are_not_equal(rt: HostRuntime) {
    assert!(rt; !are_equal_values(CowStr::from("a"), CowStr::from('b')));
    assert!(rt; !are_equal_values(CowStr::from("a"), CowStr::from("")));
    assert_same(&rt, inlined(OF_22), Some(CowStr::from(OF_22)));
    assert_same(&rt, inlined(OF_23), None);
}

fn assert_printed<T: Display + Drop>(rt: &impl Abort, alloc: Global, value: T, expected: &str) {
    assert_text(rt, printed(alloc, &value), expected);
}

fn assert_printed_wide<T: Display + Drop>(
    rt: &impl Abort,
    alloc: Global,
    value: T,
    expected: &str,
) {
    assert_text(rt, printed_wide(alloc, &value), expected);
}

#[test]
fn texts_are_printed_alone(rt: HostRuntime) {
    let alloc = rt.alloc();
    assert_printed(&rt, alloc, InlineStr::from('é'), "é");
    assert_printed(&rt, alloc, made(&rt, boxed(alloc, "é a")), "é a");
    assert_printed(&rt, alloc, CowStr::from("é a"), "é a");
    assert_printed(&rt, alloc, CowStr::from('é'), "é");
    assert_printed_wide(&rt, alloc, CowStr::from("a"), "<a>");
    assert_printed_wide(&rt, alloc, InlineStr::from('a'), "<a>");
}
