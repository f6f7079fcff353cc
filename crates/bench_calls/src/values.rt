//! Tags and events. What owns memory is dropped at a type parameter, in functions that are proved
//! once for values of all types.

use crate::loops::{bit, each_stretch};
use markdown_values::strings::CowStr;
use markdown_values::values::{Event, LinkType, Tag, TagEnd};
use std::alloc::{AllocError, Global};

// What is seen of a value, which is then dropped.
fn seen<T: Drop, F: Fn(&T) -> u64>(value: T, look: &F) -> u64
    requires { F.IsAlwaysCallable look.now }
{
    look(&value)
}

// The same where there is one.
fn seen_of<T: Drop, F: Fn(&T) -> u64>(made: Result<T, AllocError>, look: &F) -> u64
    requires { F.IsAlwaysCallable look.now }
{
    match made {
        Ok(value) => look(&value),
        Err(_) => 0,
    }
}

// A link to the text.
fn link(text: &str) -> Tag<'_> {
    Tag::Link {
        link_type: LinkType::Inline,
        dest_url: CowStr::from(text),
        title: CowStr::from(""),
        id: CowStr::from(""),
    }
}

fn is_link(tag: &Tag) -> u64 {
    bit(matches!(tag, Tag::Link { .. }))
}

fn is_text(event: &Event) -> u64 {
    bit(matches!(event, Event::Text(_)))
}

#[unsafe(no_mangle)]
pub extern "C" fn ours_tag_made(text: &[u8], at: &[usize], rounds: usize) -> u64 {
    let call = |text: &str| -> u64 { seen(link(text), &is_link) };
    each_stretch(text, at, rounds, &call)
}

#[unsafe(no_mangle)]
pub extern "C" fn ours_tag_end(text: &[u8], at: &[usize], rounds: usize) -> u64 {
    let end = |tag: &Tag| -> u64 { bit(matches!(tag.to_end(), TagEnd::Link)) };
    let call = |text: &str| -> u64 { seen(link(text), &end) };
    each_stretch(text, at, rounds, &call)
}

#[unsafe(no_mangle)]
pub extern "C" fn ours_tag_clone(alloc: Global, text: &[u8], at: &[usize], rounds: usize) -> u64 {
    let copy = |tag: &Tag| -> u64 { seen_of(tag.clone(alloc), &is_link) };
    let call = |text: &str| -> u64 { seen(link(text), &copy) };
    each_stretch(text, at, rounds, &call)
}

fn same_tags(one: &Tag, text: &str) -> u64 {
    let same = |other: &Tag| -> u64 { bit(*one == *other) };
    seen(link(text), &same)
}

#[unsafe(no_mangle)]
pub extern "C" fn ours_tag_eq(text: &[u8], at: &[usize], rounds: usize) -> u64 {
    let call = |text: &str| -> u64 {
        let same = |one: &Tag| -> u64 { same_tags(one, text) };
        seen(link(text), &same)
    };
    each_stretch(text, at, rounds, &call)
}

#[unsafe(no_mangle)]
pub extern "C" fn ours_event_clone(alloc: Global, text: &[u8], at: &[usize], rounds: usize) -> u64 {
    let copy = |event: &Event| -> u64 { seen_of(event.clone(alloc), &is_text) };
    let call = |text: &str| -> u64 { seen(Event::Text(CowStr::from(text)), &copy) };
    each_stretch(text, at, rounds, &call)
}

fn same_events(one: &Event, text: &str) -> u64 {
    let same = |other: &Event| -> u64 { bit(*one == *other) };
    seen(Event::Text(CowStr::from(text)), &same)
}

#[unsafe(no_mangle)]
pub extern "C" fn ours_event_eq(text: &[u8], at: &[usize], rounds: usize) -> u64 {
    let call = |text: &str| -> u64 {
        let same = |one: &Event| -> u64 { same_events(one, text) };
        seen(Event::Text(CowStr::from(text)), &same)
    };
    each_stretch(text, at, rounds, &call)
}
