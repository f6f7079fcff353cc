//! The events of a page whose labels lead where its caller says, where the page doesn't define them.
ghost use Rattle.std.specs.Prelude.{◌≡◌, false, IfErr, IfOk};
ghost use Rattle.std.specs.Iterator.{at_most};
ghost use Rattle.markdown_events.specs.EventLaws.{AreAtBoundaries, AreBalanced, AreWithin};
ghost use Rattle.markdown_events.specs.Nesting.{AreNested, without_ranges};
ghost use Rattle.markdown_events.specs.page.Given.{GivesOnlyWith};
ghost use Rattle.markdown_events.specs.page.Iterated.{GivesNextEventWith, GivesNextWith, items_left};
ghost use Rattle.markdown_events.specs.page.PageEvents.{AreDefinitionsOf, ArePageEventsWith};
ghost use Rattle.markdown_values.specs.values.Extensions.{asked_by};
ghost use Rattle.markdown_events.specs.page.References.{CellsFit, ReferencesFit};
ghost use Rattle.markdown_events.specs.page.Sizes.{EventsFit};
ghost use Rattle.markdown_events.specs.page.Settings.{Explains, not_built};

use crate::definitions::Definitions;
use crate::event_reader::{EventReader, NewError};
use crate::parser::{OffsetIter, Parser};
use crate::settings::setting_of;
use markdown_values::values::{Event, Options};
use std::alloc::{AllocError, Global};
use std::ops::Range;

/// The events of a page, where a label that the page doesn't define leads where `broken` says. Memory
/// that is refused is the last item.
#[derive(Drop)]
pub struct BrokenLinkParser<'a, B> {
    /// The events that are left.
    pub events: Parser<'a>,
    /// Where labels lead that the page doesn't define.
    pub broken: B,
}

/// The same events, each with the range of its source.
#[derive(Drop)]
pub struct BrokenLinkOffsetIter<'a, B> {
    /// The events that are left.
    pub events: OffsetIter<'a>,
    /// Where labels lead that the page doesn't define.
    pub broken: B,
}

impl<'a, B: Definitions<'a> + Drop> BrokenLinkParser<'a, B> {
    /// The events of a page with these options, where a label that the page doesn't define leads where
    /// `broken` says. It is asked about each label of the page that might be one of a link, as a broken
    /// link callback is.
    ///
    /// # Errors
    ///
    /// `Unsupported` with those of the options that are not built, where one is, and `Refused` where the
    /// memory is refused that `EventReader::new` asks for.
    pub fn new(
        alloc: Global,
        text: &'a str,
        options: Options,
        broken: B,
    ) -> Result<BrokenLinkParser<'a, B>, NewError>
        ensures page { IfOk result (λ parser. GivesOnlyWith (B.targets broken)
            (ArePageEventsWith text.now (asked_by options) (B.targets broken)) parser.events.left) }
        ensures balanced { IfOk result (λ parser.
            GivesOnlyWith (B.targets broken) AreBalanced parser.events.left) }
        ensures nested { IfOk result (λ parser. GivesOnlyWith (B.targets broken)
            (λ events. AreNested (without_ranges events)) parser.events.left) }
        ensures within { IfOk result (λ parser.
            GivesOnlyWith (B.targets broken) (AreWithin text.now) parser.events.left) }
        ensures boundaries { IfOk result (λ parser.
            GivesOnlyWith (B.targets broken) (AreAtBoundaries text.now) parser.events.left) }
        ensures references { IfOk result (λ parser.
            GivesOnlyWith (B.targets broken) (ReferencesFit text.now) parser.events.left) }
        ensures cells { IfOk result (λ parser.
            GivesOnlyWith (B.targets broken) (CellsFit text.now) parser.events.left) }
        ensures few { IfOk result (λ parser.
            GivesOnlyWith (B.targets broken) (EventsFit text.now) parser.events.left) }
        ensures definitions { IfOk result (λ parser.
            AreDefinitionsOf text.now (asked_by options) parser.events.left.known) }
        ensures broken { IfOk result (λ parser. parser.broken ≡ broken) }
        ensures goes { IfOk result (λ parser. parser.events.is_stopped ≡ false) }
        ensures built { IfOk result (λ _. not_built options ≡ 0) }
        ensures refused { IfErr result (Explains options) }
    {
        let setting = setting_of(options)?;
        match EventReader::with_setting(alloc, text, setting) {
            Ok(reader) => Ok(BrokenLinkParser {
                events: Parser::of_reader(reader),
                broken,
            }),
            Err(refused) => Err(NewError::Refused(refused)),
        }
    }

    /// The events that are left, each with the range of its source.
    pub fn into_offset_iter(self) -> BrokenLinkOffsetIter<'a, B>
        ensures events { result.events ≡ self.entry.events }
        ensures broken { result.broken ≡ self.entry.broken }
    {
        BrokenLinkOffsetIter {
            events: self.events.into_offset_iter(),
            broken: self.broken,
        }
    }
}

impl<'a, B: Definitions<'a> + Drop> Iterator for BrokenLinkParser<'a, B> {
    type Item = Result<Event<'a>, AllocError>;

    ghost next_gives = { λ old item new. (new.broken ≡ old.broken)
        × GivesNextEventWith (B.targets old.broken) old.events item new.events };

    ghost remaining = { λ p. at_most (items_left p.events) };

    fn next(&mut self) -> Option<Result<Event<'a>, AllocError>> {
        self.events.next_with(&self.broken)
    }
}

impl<'a, B: Definitions<'a> + Drop> Iterator for BrokenLinkOffsetIter<'a, B> {
    type Item = Result<(Event<'a>, Range<usize>), AllocError>;

    ghost next_gives = { λ old item new. (new.broken ≡ old.broken)
        × GivesNextWith (B.targets old.broken) old.events item new.events };

    ghost remaining = { λ p. at_most (items_left p.events) };

    fn next(&mut self) -> Option<Result<(Event<'a>, Range<usize>), AllocError>> {
        self.events.next_with(&self.broken)
    }
}
