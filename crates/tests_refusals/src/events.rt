//! Events, each of which owns or lends a text or holds a tag.
use crate::printing::{Copied, MadeOf, print_consuming, print_copy};
use crate::stop::Stop;
use crate::tags::{TagKind, tag};
use crate::texts::{Held, Holding, OF_30};
use markdown_values::strings::CowStr;
use markdown_values::values::Event;
use std::alloc::{AllocError, Global};
use std::io::Stdout;

#[derive(Clone, Copy)]
pub(crate) enum EventCase {
    Clone,
    IntoStatic,
    StartClone,
    StartIntoStatic,
}

pub(crate) fn run(alloc: Global, output: Stdout, case: EventCase) -> Result<(), Stop> {
    match case {
        EventCase::Clone => clone_all(alloc, output),
        EventCase::IntoStatic => all_into_static(alloc, output),
        EventCase::StartClone => print_copy(alloc, output, start(alloc, Holding::Owned)),
        EventCase::StartIntoStatic => {
            into_static(
                alloc,
                output,
                start(alloc, Holding::Lent),
                start(alloc, Holding::Lent),
            )
        }
    }
}

fn into_static(
    alloc: Global,
    output: Stdout,
    first: Result<Event<'static>, AllocError>,
    second: Result<Event<'static>, AllocError>,
) -> Result<(), Stop> {
    print_consuming::<Event<'static>, Event<'static>>(alloc, output, OF_30, first, second)
}

impl Copied for Event<'static> {
    fn copied(&self, alloc: Global) -> Result<Event<'static>, AllocError> {
        self.clone(alloc)
    }
}

impl MadeOf<Event<'static>> for Event<'static> {
    fn made_of(alloc: Global, value: Event<'static>) -> Result<Event<'static>, AllocError> {
        value.into_static(alloc)
    }
}

// The events of one text.
#[derive(Clone, Copy)]
enum Kind {
    Text,
    Code,
    InlineMath,
    DisplayMath,
    Html,
    InlineHtml,
    FootnoteReference,
}

const KINDS: [Kind; 7] = [
    Kind::Text,
    Kind::Code,
    Kind::InlineMath,
    Kind::DisplayMath,
    Kind::Html,
    Kind::InlineHtml,
    Kind::FootnoteReference,
];

fn event_of(kind: Kind, text: CowStr<'static>) -> Event<'static> {
    match kind {
        Kind::Text => Event::Text(text),
        Kind::Code => Event::Code(text),
        Kind::InlineMath => Event::InlineMath(text),
        Kind::DisplayMath => Event::DisplayMath(text),
        Kind::Html => Event::Html(text),
        Kind::InlineHtml => Event::InlineHtml(text),
        Kind::FootnoteReference => Event::FootnoteReference(text),
    }
}

fn event(alloc: Global, kind: Kind, holding: Holding) -> Result<Event<'static>, AllocError> {
    Ok(event_of(kind, CowStr::held(alloc, holding)?))
}

// Each event of one owned text is copied.
fn clone_all(alloc: Global, output: Stdout) -> Result<(), Stop> {
    for kind in KINDS {
        print_copy(alloc, output, event(alloc, kind, Holding::Owned))?;
    }
    Ok(())
}

// Each event of one borrowed text comes to own it.
fn all_into_static(alloc: Global, output: Stdout) -> Result<(), Stop> {
    for kind in KINDS {
        into_static(
            alloc,
            output,
            event(alloc, kind, Holding::Lent),
            event(alloc, kind, Holding::Lent),
        )?;
    }
    Ok(())
}

fn start(alloc: Global, holding: Holding) -> Result<Event<'static>, AllocError> {
    Ok(Event::Start(tag(alloc, TagKind::Heading, holding)?))
}
