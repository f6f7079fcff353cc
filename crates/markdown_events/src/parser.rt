//! The events of a page as iterators.
ghost use Rattle.std.specs.Prelude.{◌≡◌, ◌<◌, false, IfErr, IfOk, IfSome};
ghost use Rattle.std.specs.Iterator.{at_most};
ghost use Rattle.markdown_events.specs.EventLaws.{AreAtBoundaries, AreBalanced, AreWithin};
ghost use Rattle.markdown_events.specs.Nesting.{AreNested, without_ranges};
ghost use Rattle.markdown_events.specs.Targets.{Targets};
ghost use Rattle.markdown_events.specs.page.Given.{AlwaysGivesOnly, GivesOnly, GivesOnlyWith};
ghost use Rattle.markdown_events.specs.page.Iterated.{GivesNext, GivesNextEvent, GivesNextEventWith, GivesNextWith, Iterated, items_left, without_range};
ghost use Rattle.markdown_events.specs.page.PageEvents.{AreDefinitionsOf, ArePageEvents, ArePageEventsWith};
ghost use Rattle.markdown_values.specs.values.Extensions.{asked_by, commonmark};
ghost use Rattle.markdown_events.specs.page.References.{CellsFit, ReferencesFit};
ghost use Rattle.markdown_events.specs.page.Sizes.{EventsFit};
ghost use Rattle.markdown_events.specs.page.Settings.{Explains, not_built};

use crate::definitions::{Definitions, NoBrokenLinks, PageDefinitions};
use crate::event_reader::{EventReader, NewError};
use markdown_values::values::{Event, Options};
use std::alloc::{AllocError, Global};
use std::marker::Model;
use std::ops::Range;

/// The events of a page, from the first to the last. Memory that is refused is the last item: who
/// would ask for the same event again takes an `EventReader`. After None each further call gives None.
#[derive(Drop)]
pub struct Parser<'a> {
    events: OffsetIter<'a>,
}

/// The same events, each with the range of its source.
#[derive(Drop)]
pub struct OffsetIter<'a> {
    reader: EventReader<'a>,
    is_stopped: bool,
}

impl<'a> Model for Parser<'a> {
    ghost Value = { Iterated };

    ghost view = { λ p. p.events };
}

impl<'a> Model for OffsetIter<'a> {
    ghost Value = { Iterated };

    ghost view = { λ p. record { left = p.reader; is_stopped = p.is_stopped } };
}

impl<'a> Parser<'a> {
    /// The events of a page of CommonMark, without extensions.
    ///
    /// # Errors
    ///
    /// `AllocError` where the memory is refused that `EventReader::new` asks for.
    pub fn new(alloc: Global, text: &'a str) -> Result<Parser<'a>, AllocError>
        ensures page { IfOk result (λ parser.
            GivesOnly (ArePageEvents text.now commonmark) parser.left) }
        ensures balanced { IfOk result (λ parser. GivesOnly AreBalanced parser.left) }
        ensures nested { IfOk result (λ parser.
            GivesOnly (λ events. AreNested (without_ranges events)) parser.left) }
        ensures within { IfOk result (λ parser. GivesOnly (AreWithin text.now) parser.left) }
        ensures boundaries { IfOk result (λ parser.
            GivesOnly (AreAtBoundaries text.now) parser.left) }
        ensures references { IfOk result (λ parser.
            GivesOnly (ReferencesFit text.now) parser.left) }
        ensures cells { IfOk result (λ parser.
            GivesOnly (CellsFit text.now) parser.left) }
        ensures few { IfOk result (λ parser.
            GivesOnly (EventsFit text.now) parser.left) }
        ensures definitions { IfOk result (λ parser.
            AreDefinitionsOf text.now commonmark parser.left.known) }
        ensures broken { IfOk result (λ parser. (more : Targets)
            → GivesOnlyWith more (ArePageEventsWith text.now commonmark more) parser.left) }
        ensures broken_balanced { IfOk result (λ parser. AlwaysGivesOnly AreBalanced parser.left) }
        ensures broken_nested { IfOk result (λ parser.
            AlwaysGivesOnly (λ events. AreNested (without_ranges events)) parser.left) }
        ensures broken_within { IfOk result (λ parser.
            AlwaysGivesOnly (AreWithin text.now) parser.left) }
        ensures broken_boundaries { IfOk result (λ parser.
            AlwaysGivesOnly (AreAtBoundaries text.now) parser.left) }
        ensures broken_references { IfOk result (λ parser.
            AlwaysGivesOnly (ReferencesFit text.now) parser.left) }
        ensures broken_cells { IfOk result (λ parser.
            AlwaysGivesOnly (CellsFit text.now) parser.left) }
        ensures broken_few { IfOk result (λ parser.
            AlwaysGivesOnly (EventsFit text.now) parser.left) }
        ensures goes { IfOk result (λ parser. parser.is_stopped ≡ false) }
    {
        Ok(Parser::of_reader(EventReader::new(alloc, text)?))
    }

    /// The events of a page with these options.
    ///
    /// # Errors
    ///
    /// `Unsupported` with those of the options that are not built, where one is, and `Refused` where the
    /// memory is refused that `EventReader::new` asks for.
    pub fn new_ext(alloc: Global, text: &'a str, options: Options) -> Result<Parser<'a>, NewError>
        ensures page { IfOk result (λ parser.
            GivesOnly (ArePageEvents text.now (asked_by options)) parser.left) }
        ensures balanced { IfOk result (λ parser. GivesOnly AreBalanced parser.left) }
        ensures nested { IfOk result (λ parser.
            GivesOnly (λ events. AreNested (without_ranges events)) parser.left) }
        ensures within { IfOk result (λ parser. GivesOnly (AreWithin text.now) parser.left) }
        ensures boundaries { IfOk result (λ parser.
            GivesOnly (AreAtBoundaries text.now) parser.left) }
        ensures references { IfOk result (λ parser.
            GivesOnly (ReferencesFit text.now) parser.left) }
        ensures cells { IfOk result (λ parser.
            GivesOnly (CellsFit text.now) parser.left) }
        ensures few { IfOk result (λ parser.
            GivesOnly (EventsFit text.now) parser.left) }
        ensures definitions { IfOk result (λ parser.
            AreDefinitionsOf text.now (asked_by options) parser.left.known) }
        ensures broken { IfOk result (λ parser. (more : Targets)
            → GivesOnlyWith more (ArePageEventsWith text.now (asked_by options) more) parser.left) }
        ensures broken_balanced { IfOk result (λ parser. AlwaysGivesOnly AreBalanced parser.left) }
        ensures broken_nested { IfOk result (λ parser.
            AlwaysGivesOnly (λ events. AreNested (without_ranges events)) parser.left) }
        ensures broken_within { IfOk result (λ parser.
            AlwaysGivesOnly (AreWithin text.now) parser.left) }
        ensures broken_boundaries { IfOk result (λ parser.
            AlwaysGivesOnly (AreAtBoundaries text.now) parser.left) }
        ensures broken_references { IfOk result (λ parser.
            AlwaysGivesOnly (ReferencesFit text.now) parser.left) }
        ensures broken_cells { IfOk result (λ parser.
            AlwaysGivesOnly (CellsFit text.now) parser.left) }
        ensures broken_few { IfOk result (λ parser.
            AlwaysGivesOnly (EventsFit text.now) parser.left) }
        ensures goes { IfOk result (λ parser. parser.is_stopped ≡ false) }
        ensures built { IfOk result (λ _. not_built options ≡ 0) }
        ensures refused { IfErr result (Explains options) }
    {
        Ok(Parser::of_reader(EventReader::new_ext(alloc, text, options)?))
    }

    // The events that a reader has left.
    pub(crate) fn of_reader(reader: EventReader<'a>) -> Parser<'a>
        ensures left { result.left ≡ reader.entry }
        ensures goes { result.is_stopped ≡ false }
    {
        Parser {
            events: OffsetIter {
                reader,
                is_stopped: false,
            },
        }
    }

    /// The link reference definitions of the page.
    pub fn reference_definitions(&self) -> &PageDefinitions<'a>
        ensures { result.now ≡ self.now.left.known }
    {
        self.events.reference_definitions()
    }

    /// The events that are left, each with the range of its source.
    pub fn into_offset_iter(self) -> OffsetIter<'a>
        ensures { result ≡ self.entry }
    {
        self.events
    }

    /// The next event, as `next` gives it, but a label that the page doesn't define leads where
    /// `broken` says, as `EventReader::next_with` has it.
    pub fn next_with<B: Definitions<'a>>(
        &mut self,
        broken: &B,
    ) -> Option<Result<Event<'a>, AllocError>>
        ensures next { GivesNextEventWith (B.targets broken.now) self.old result self.new }
        ensures fewer { IfSome result (λ _. items_left self.new < items_left self.old) }
    {
        let item = self.events.next_with(broken);
        without_range(item)
    }
}

impl<'a> OffsetIter<'a> {
    /// The link reference definitions of the page.
    pub fn reference_definitions(&self) -> &PageDefinitions<'a>
        ensures { result.now ≡ self.now.left.known }
    {
        self.reader.reference_definitions()
    }

    // Whether no item comes any more: after an error, and after None.
    pub(crate) fn is_stopped(&self) -> bool
        ensures { result ≡ self.now.is_stopped }
    {
        self.is_stopped
    }

    // The events that are left.
    pub(crate) fn into_reader(self) -> EventReader<'a>
        ensures { result ≡ self.entry.left }
    {
        self.reader
    }

    /// The next event with its range, as `next` gives it, but a label that the page doesn't define
    /// leads where `broken` says, as `EventReader::next_with` has it.
    pub fn next_with<B: Definitions<'a>>(
        &mut self,
        broken: &B,
    ) -> Option<Result<(Event<'a>, Range<usize>), AllocError>>
        ensures next { GivesNextWith (B.targets broken.now) self.old result self.new }
        ensures fewer { IfSome result (λ _. items_left self.new < items_left self.old) }
    {
        if self.is_stopped {
            return None;
        }
        if let Err(refused) = self.reader.read_until_ready(broken) {
            self.is_stopped = true;
            return Some(Err(refused));
        }
        match self.reader.take_ready() {
            Some(ready) => Some(Ok(ready)),
            None => {
                self.is_stopped = true;
                None
            }
        }
    }
}

// An item without its range.
fn without_range<'a>(
    item: Option<Result<(Event<'a>, Range<usize>), AllocError>>,
) -> Option<Result<Event<'a>, AllocError>>
    ensures { result ≡ without_range item.entry }
{
    match item {
        Some(Ok((event, _))) => Some(Ok(event)),
        Some(Err(refused)) => Some(Err(refused)),
        None => None,
    }
}

impl<'a> Iterator for Parser<'a> {
    type Item = Result<Event<'a>, AllocError>;

    ghost next_gives = { GivesNextEvent };

    ghost remaining = { λ p. at_most (items_left p) };

    fn next(&mut self) -> Option<Result<Event<'a>, AllocError>> {
        self.next_with(&NoBrokenLinks)
    }
}

impl<'a> Iterator for OffsetIter<'a> {
    type Item = Result<(Event<'a>, Range<usize>), AllocError>;

    ghost next_gives = { GivesNext };

    ghost remaining = { λ p. at_most (items_left p) };

    fn next(&mut self) -> Option<Result<(Event<'a>, Range<usize>), AllocError>> {
        self.next_with(&NoBrokenLinks)
    }
}
