//! The events of a page with each run of texts as one text, as iterators.
ghost use Rattle.std.specs.Prelude.{◌≡◌, List, ℕ};
ghost use Rattle.std.specs.Iterator.{at_most};
ghost use Rattle.markdown_events.specs.EventLaws.{AreAtBoundaries, AreBalanced, AreWithin};
ghost use Rattle.markdown_events.specs.InlineEvents.{RangedEvent};
ghost use Rattle.markdown_events.specs.Nesting.{AreNested, without_ranges};
ghost use Rattle.markdown_events.specs.TextMerge.{AreParted, GivesMerged, GivesOnlyMerged, items, merged};
ghost use Rattle.markdown_events.specs.TextMerge.{GivesNextMerged, GivesNextMergedEvent, MergeIterated, merged_items_left};
ghost use Rattle.markdown_events.specs.page.Given.{Gives, GivesOnly};

use crate::definitions::PageDefinitions;
use crate::parser::{OffsetIter, Parser};
use crate::text_merge::TextMergeReader;
use markdown_values::values::Event;
use std::alloc::{AllocError, Global};
use std::marker::Model;
use std::ops::Range;

/// The events of a page, of which no text follows another: texts that follow each other are one text.
/// Memory that is refused is the last item: who would ask for the same event again takes a
/// `TextMergeReader`. After None each further call gives None.
#[derive(Drop)]
pub struct TextMergeStream<'a> {
    events: TextMergeWithOffset<'a>,
}

/// The same events, each with the range of its source: of a text from where the first that is merged
/// begins to where the last ends.
#[derive(Drop)]
pub struct TextMergeWithOffset<'a> {
    reader: TextMergeReader<'a>,
    is_stopped: bool,
}

impl<'a> Model for TextMergeStream<'a> {
    ghost Value = { MergeIterated };

    ghost view = { λ s. s.events };
}

impl<'a> Model for TextMergeWithOffset<'a> {
    ghost Value = { MergeIterated };

    ghost view = { λ s. record { left = s.reader; is_stopped = s.is_stopped } };
}

impl<'a> TextMergeStream<'a> {
    /// The events that a parser has left, with its texts merged. No memory is asked for.
    pub fn new(alloc: Global, parser: Parser<'a>) -> TextMergeStream<'a>
        ensures events { (events : List RangedEvent) → GivesMerged result.left events
            → (all : List RangedEvent) × Gives parser.entry.left all × (events ≡ merged all) }
        ensures parted { (events : List RangedEvent) → GivesMerged result.left events
            → AreParted events }
        ensures same { (events : List RangedEvent) → GivesMerged result.left events
            → (all : List RangedEvent) × Gives parser.entry.left all × (items events ≡ items all) }

        // What holds of the events that the parser has left, holds of them merged.
        ensures balanced { GivesOnly AreBalanced parser.entry.left
            → GivesOnlyMerged AreBalanced result.left }
        ensures nested { GivesOnly (λ all. AreNested (without_ranges all)) parser.entry.left
            → GivesOnlyMerged (λ all. AreNested (without_ranges all)) result.left }
        ensures within { (page : List ℕ) → GivesOnly (AreWithin page) parser.entry.left
            → GivesOnlyMerged (AreWithin page) result.left }
        ensures boundaries { (page : List ℕ) → GivesOnly (AreAtBoundaries page) parser.entry.left
            → GivesOnlyMerged (AreAtBoundaries page) result.left }
        ensures definitions { result.left.left.known ≡ parser.entry.left.known }
        ensures stopped { result.is_stopped ≡ parser.entry.is_stopped }
    {
        TextMergeStream {
            events: TextMergeWithOffset::new(alloc, parser.into_offset_iter()),
        }
    }

    /// The link reference definitions of the page.
    pub fn reference_definitions(&self) -> &PageDefinitions<'a>
        ensures { result.now ≡ self.now.left.left.known }
    {
        self.events.reference_definitions()
    }

    /// The events that are left, each with the range of its source.
    pub fn into_offset_iter(self) -> TextMergeWithOffset<'a>
        ensures { result ≡ self.entry }
    {
        self.events
    }
}

impl<'a> TextMergeWithOffset<'a> {
    /// The events that an iterator has left, with its texts merged. No memory is asked for.
    pub fn new(alloc: Global, events: OffsetIter<'a>) -> TextMergeWithOffset<'a>
        ensures events { (given : List RangedEvent) → GivesMerged result.left given
            → (all : List RangedEvent) × Gives events.entry.left all × (given ≡ merged all) }
        ensures parted { (given : List RangedEvent) → GivesMerged result.left given
            → AreParted given }
        ensures same { (given : List RangedEvent) → GivesMerged result.left given
            → (all : List RangedEvent) × Gives events.entry.left all × (items given ≡ items all) }

        // What holds of the events that the iterator has left, holds of them merged.
        ensures balanced { GivesOnly AreBalanced events.entry.left
            → GivesOnlyMerged AreBalanced result.left }
        ensures nested { GivesOnly (λ all. AreNested (without_ranges all)) events.entry.left
            → GivesOnlyMerged (λ all. AreNested (without_ranges all)) result.left }
        ensures within { (page : List ℕ) → GivesOnly (AreWithin page) events.entry.left
            → GivesOnlyMerged (AreWithin page) result.left }
        ensures boundaries { (page : List ℕ) → GivesOnly (AreAtBoundaries page) events.entry.left
            → GivesOnlyMerged (AreAtBoundaries page) result.left }
        ensures definitions { result.left.left.known ≡ events.entry.left.known }
        ensures stopped { result.is_stopped ≡ events.entry.is_stopped }
    {
        let is_stopped = events.is_stopped();
        TextMergeWithOffset {
            reader: TextMergeReader::new(alloc, events.into_reader()),
            is_stopped,
        }
    }

    /// The link reference definitions of the page.
    pub fn reference_definitions(&self) -> &PageDefinitions<'a>
        ensures { result.now ≡ self.now.left.left.known }
    {
        self.reader.reference_definitions()
    }
}

impl<'a> Iterator for TextMergeStream<'a> {
    type Item = Result<Event<'a>, AllocError>;

    ghost next_gives = { GivesNextMergedEvent };

    ghost remaining = { λ s. at_most (merged_items_left s) };

    fn next(&mut self) -> Option<Result<Event<'a>, AllocError>> {
        match self.events.next() {
            Some(Ok((event, _))) => Some(Ok(event)),
            Some(Err(refused)) => Some(Err(refused)),
            None => None,
        }
    }
}

impl<'a> Iterator for TextMergeWithOffset<'a> {
    type Item = Result<(Event<'a>, Range<usize>), AllocError>;

    ghost next_gives = { GivesNextMerged };

    ghost remaining = { λ s. at_most (merged_items_left s) };

    fn next(&mut self) -> Option<Result<(Event<'a>, Range<usize>), AllocError>> {
        if self.is_stopped {
            return None;
        }
        match self.reader.next() {
            Ok(Some(event)) => Some(Ok(event)),
            Ok(None) => {
                self.is_stopped = true;
                None
            }
            Err(refused) => {
                self.is_stopped = true;
                Some(Err(refused))
            }
        }
    }
}
