//! Kinds, levels, links, tags and events.
use crate::printing::{
    Seen, copy_of, print, print_made, print_ready, print_ready_consuming, print_seen,
};
use crate::stop::Stop;
use crate::tags::{TagKind, fenced, tag};
use crate::texts::{Holding, lent};
use markdown_values::strings::CowStr;
use markdown_values::values::{
    Alignment, BlockQuoteKind, CodeBlockKind, Event, HeadingLevel, LinkType, Tag, TagEnd,
};
use std::alloc::{AllocError, Global};
use std::io::{Stdout, Write};

/// The calls that look, and copies of what owns nothing.
pub(crate) fn run(alloc: Global, output: Stdout) -> Result<(), Stop> {
    print_ready(output)?;
    kinds(alloc, output)?;
    levels(output)?;
    numbers(output)?;
    print(output, LinkType::Collapsed.to_unknown())?;
    tags(alloc, output)?;
    events(alloc, output)
}

/// The tag of a table, which borrows nothing.
pub(crate) fn static_table(alloc: Global, output: Stdout) -> Result<(), Stop> {
    let table = tag(alloc, TagKind::Table, Holding::Owned);
    print_ready_consuming::<Tag<'static>, Tag<'static>>(alloc, output, table)
}

impl Seen<(bool, bool)> for CodeBlockKind<'static> {
    fn seen(&self) -> (bool, bool) {
        (self.is_indented(), self.is_fenced())
    }
}

impl Seen<TagEnd> for Tag<'static> {
    fn seen(&self) -> TagEnd {
        self.to_end()
    }
}

fn print_kind(
    output: Stdout,
    made: Result<CodeBlockKind<'static>, AllocError>,
) -> Result<(), Stop> {
    print_seen::<CodeBlockKind<'static>, (bool, bool)>(output, made)
}

fn kinds(alloc: Global, output: Stdout) -> Result<(), Stop> {
    let indented = Ok(CodeBlockKind::Indented);
    print_kind(output, copy_of(alloc, indented))?;
    print_kind(output, copy_of(alloc, fenced(alloc, Holding::Lent)))?;
    let letter = CodeBlockKind::Fenced(CowStr::from('r'));
    print_kind(output, letter.into_static(alloc))
}

fn levels(mut output: Stdout) -> Result<(), Stop> {
    for number in [3, 7] {
        match HeadingLevel::try_from(number) {
            Ok(level) => writeln!(output, "{level} {}", level.number())?,
            Err(error) => writeln!(output, "not {}", error.0)?,
        }
    }
    Ok(())
}

fn numbers(output: Stdout) -> Result<(), Stop> {
    let kinds = (
        BlockQuoteKind::Note.number(),
        BlockQuoteKind::from_number(6),
    );
    print(output, kinds)?;
    let alignments = (Alignment::Right.number(), Alignment::from_number(0));
    print(output, alignments)
}

fn list_end(alloc: Global) -> Result<TagEnd, AllocError> {
    Ok(TagEnd::from(Tag::List(Some(3)).into_static(alloc)?))
}

fn tags(alloc: Global, output: Stdout) -> Result<(), Stop> {
    print_seen::<Tag<'static>, TagEnd>(output, lent_link(alloc))?;
    print_made(output, list_end(alloc))?;
    print_made(output, copy_of(alloc, lent_link(alloc)))
}

fn lent_link(alloc: Global) -> Result<Tag<'static>, AllocError> {
    tag(alloc, TagKind::Link, Holding::Lent)
}

fn print_event(output: Stdout, made: Result<Event<'static>, AllocError>) -> Result<(), Stop> {
    print_made(output, made)
}

fn events(alloc: Global, output: Stdout) -> Result<(), Stop> {
    print_event(output, copy_of(alloc, Ok(Event::Text(lent()))))?;
    print_event(output, Event::TaskListMarker(true).into_static(alloc))?;
    print_event(output, copy_of(alloc, Ok(Event::End(TagEnd::Table))))
}
