//! The events of a page with each run of texts as one text.
ghost use Rattle.std.specs.Prelude.{◌≡◌, ◌≤◌, ◌<◌, ◌∷◌, [], List, ℕ, None, Some, OnOk, option_map, IfErr, IfOk, IfSome, IfNone, IsOk, true, false};
ghost use Rattle.markdown_events.specs.EventLaws.{AreAtBoundaries, AreBalanced, AreWithin};
ghost use Rattle.markdown_events.specs.InlineEvents.{RangedEvent, seen_event};
ghost use Rattle.markdown_events.specs.Nesting.{AreNested, without_ranges};
ghost use Rattle.markdown_events.specs.Targets.{Targets};
ghost use Rattle.markdown_events.specs.TextMerge.{AreParted, GivesMerged, GivesMergedWith, GivesOnlyMergedWith, IsMergeDone, RangedText, Takes};
ghost use Rattle.markdown_events.specs.TextMerge.{items, merged, merged_left, reads_text, text_event, unread, with_text};
ghost use Rattle.markdown_events.specs.page.Given.{GivesOnlyWith, GivesWith, IsDone};

use crate::definitions::{Definitions, NoBrokenLinks, PageDefinitions};
use crate::event_reader::EventReader;
use crate::joined_text::JoinedText;
use markdown_values::values::Event;
use std::alloc::{AllocError, Global};
use std::marker::Model;
use std::ops::Range;

/// The events of a page, of which no text follows another: texts that follow each other are one text,
/// with the range from where the first begins to where the last ends.
#[derive(Drop)]
pub struct TextMergeReader<'a> {
    alloc: Global,
    reader: EventReader<'a>,
    // The text that is joined so far.
    joining: Option<JoinedText<'a>>,
    // The event after it, if that is read.
    after: Option<(Event<'a>, Range<usize>)>,
}

impl<'a> Model for TextMergeReader<'a> {
    ghost use Rattle.std.specs.Option.{option_map};
    ghost use Rattle.markdown_events.specs.InlineEvents.{seen_event};
    ghost use Rattle.markdown_events.specs.TextMerge.{MergeLeft};

    ghost Value = { MergeLeft };

    ghost view = { λ m. record {
      left = m.reader;
      joining = m.joining;
      after = option_map seen_event m.after;
    } };
}

impl<'a> TextMergeReader<'a> {
    /// The events that the reader has left, with its texts merged. No memory is asked for.
    pub fn new(alloc: Global, reader: EventReader<'a>) -> TextMergeReader<'a>
        ensures events { (more : Targets) → (events : List RangedEvent)
            → GivesMergedWith more result events → (all : List RangedEvent)
            × GivesWith more reader.entry all × (events ≡ merged all) }
        ensures parted { (more : Targets) → (events : List RangedEvent)
            → GivesMergedWith more result events → AreParted events }
        ensures same { (more : Targets) → (events : List RangedEvent)
            → GivesMergedWith more result events → (all : List RangedEvent)
            × GivesWith more reader.entry all × (items events ≡ items all) }

        // What holds of the events that the reader has left, holds of them merged.
        ensures balanced { (more : Targets) → GivesOnlyWith more AreBalanced reader.entry
            → GivesOnlyMergedWith more AreBalanced result }
        ensures nested { (more : Targets)
            → GivesOnlyWith more (λ events. AreNested (without_ranges events)) reader.entry
            → GivesOnlyMergedWith more (λ events. AreNested (without_ranges events)) result }
        ensures within { (more : Targets) → (page : List ℕ)
            → GivesOnlyWith more (AreWithin page) reader.entry
            → GivesOnlyMergedWith more (AreWithin page) result }
        ensures boundaries { (more : Targets) → (page : List ℕ)
            → GivesOnlyWith more (AreAtBoundaries page) reader.entry
            → GivesOnlyMergedWith more (AreAtBoundaries page) result }
        ensures definitions { result.left.known ≡ reader.entry.known }
    {
        TextMergeReader {
            alloc,
            reader,
            joining: None,
            after: None,
        }
    }

    /// The link reference definitions of the page.
    pub fn reference_definitions(&self) -> &PageDefinitions<'a>
        ensures { result.now ≡ self.now.left.known }
    {
        self.reader.reference_definitions()
    }

    /// The next event of the page, with the range of its source, or None after the last.
    ///
    /// Memory is asked for as by `EventReader::next`, and for the words of texts that are joined. After
    /// a refusal the same event may be asked for again.
    ///
    /// # Errors
    ///
    /// `AllocError` where memory is refused.
    pub fn next(&mut self) -> Result<Option<(Event<'a>, Range<usize>)>, AllocError>
        ensures event { IfOk result (λ found. IfSome found (λ event. (events : List RangedEvent)
            → GivesMerged self.new events → GivesMerged self.old (seen_event event ∷ events))) }
        ensures fewer { IfOk result (λ found. IfSome found (λ _.
            merged_left self.new < merged_left self.old)) }
        ensures none { IfOk result (λ found. IfNone found (GivesMerged self.old [])) }
        ensures done { IfOk result (λ found. IfNone found (IsMergeDone self.new)) }
        ensures refused { IfErr result (λ _. (events : List RangedEvent)
            → GivesMerged self.new events → GivesMerged self.old events) }
        ensures definitions { self.new.left.known ≡ self.old.left.known }
    {
        self.next_with(&NoBrokenLinks)
    }

    /// The next event of the page, as `next` gives it, but a label that the page doesn't define leads
    /// where `broken` says, as `EventReader::next_with` has it.
    ///
    /// # Errors
    ///
    /// `AllocError` where memory is refused.
    pub fn next_with<B: Definitions<'a>>(
        &mut self,
        broken: &B,
    ) -> Result<Option<(Event<'a>, Range<usize>)>, AllocError>
        ensures event { IfOk result (λ found. IfSome found (λ event. (events : List RangedEvent)
            → GivesMergedWith (B.targets broken.now) self.new events
            → GivesMergedWith (B.targets broken.now) self.old (seen_event event ∷ events))) }
        ensures fewer { IfOk result (λ found. IfSome found (λ _.
            merged_left self.new < merged_left self.old)) }
        ensures none { IfOk result (λ found. IfNone found (
            GivesMergedWith (B.targets broken.now) self.old [])) }
        ensures done { IfOk result (λ found. IfNone found (IsMergeDone self.new)) }
        ensures refused { IfErr result (λ _. (events : List RangedEvent)
            → GivesMergedWith (B.targets broken.now) self.new events
            → GivesMergedWith (B.targets broken.now) self.old events) }
        ensures definitions { self.new.left.known ≡ self.old.left.known }
    {
        while self.reads_text(broken)? {
            self.join()?;
        }
        self.take()
    }

    // Reads the next event, if none is read, and says whether the one that is read is a text.
    fn reads_text<B: Definitions<'a>>(&mut self, broken: &B) -> Result<bool, AllocError>
        ensures same { (events : List RangedEvent)
            → GivesMergedWith (B.targets broken.now) self.new events
            → GivesMergedWith (B.targets broken.now) self.old events }
        ensures text { IfOk result (λ reads. reads ≡ reads_text self.new.after) }
        ensures end { IfOk result (λ _. IfNone self.new.after (IsDone self.new.left)) }
        ensures fewer { IfOk result (λ _.
            unread self.new.left self.new.after ≤ unread self.old.left self.old.after) }
        ensures joining { self.new.joining ≡ self.old.joining }
        ensures definitions { self.new.left.known ≡ self.old.left.known }
    {
        self.fill(broken)?;
        Ok(self.has_text())
    }

    // Reads the next event, if none is read.
    fn fill<B: Definitions<'a>>(&mut self, broken: &B) -> Result<(), AllocError>
        ensures same { (events : List RangedEvent)
            → GivesMergedWith (B.targets broken.now) self.new events
            → GivesMergedWith (B.targets broken.now) self.old events }
        ensures end { OnOk result (IfNone self.new.after (IsDone self.new.left)) }
        ensures fewer { OnOk result (
            unread self.new.left self.new.after ≤ unread self.old.left self.old.after) }
        ensures joining { self.new.joining ≡ self.old.joining }
        ensures definitions { self.new.left.known ≡ self.old.left.known }
    {
        if self.after.is_some() {
            return Ok(());
        }
        let event = self.reader.next_with(broken)?;
        self.put_after(event);
        Ok(())
    }

    // Puts the event that is read after the text that is joined so far.
    fn put_after(&mut self, event: Option<(Event<'a>, Range<usize>)>)
        ensures { self.new ≡ record self.old { after = option_map seen_event event.entry } }
    {
        self.after = event;
    }

    // Whether the event that is read is a text.
    fn has_text(&self) -> bool
        ensures { result ≡ reads_text self.now.after }
    {
        matches!(self.after, Some((Event::Text(_), _)))
    }

    // Joins the text that is read.
    fn join(&mut self) -> Result<(), AllocError>
        requires reads { reads_text self.old.after ≡ true }
        ensures same { OnOk result ((more : Targets) → (events : List RangedEvent)
            → GivesMergedWith more self.new events → GivesMergedWith more self.old events) }
        ensures fewer { OnOk result (
            unread self.new.left self.new.after < unread self.old.left self.old.after) }
        ensures no_more { OnOk result (merged_left self.new ≤ merged_left self.old) }
        ensures definitions { self.new.left.known ≡ self.old.left.known }
        ensures refused { IfErr result (λ _. self.new ≡ self.old) }
    {
        join_to(self.alloc, &mut self.joining, &mut self.after)
    }

    // Takes the first of the events that are read.
    fn take(&mut self) -> Result<Option<(Event<'a>, Range<usize>)>, AllocError>
        requires ends { reads_text self.old.after ≡ false }
        requires none_left { IfNone self.old.after (IsDone self.old.left) }
        ensures event { IfOk result (λ found. IfSome found (λ event.
            Takes self.old (seen_event event) self.new)) }
        ensures none { IfOk result (λ found. IfNone found (IsMergeDone self.old)) }
        ensures done { IfOk result (λ found. IfNone found (self.new ≡ self.old)) }
        ensures definitions { self.new.left.known ≡ self.old.left.known }
        ensures given { IsOk result }
    {
        match self.joining.take() {
            Some(joining) => Ok(Some(joining.into_event(self.alloc)?)),
            None => Ok(self.after.take()),
        }
    }
}

// Joins an event, if it is a text, to the text that is joined so far. No event is read then.
fn join_to<'a>(
    alloc: Global,
    joining: &mut Option<JoinedText<'a>>,
    after: &mut Option<(Event<'a>, Range<usize>)>,
) -> Result<(), AllocError>
    ensures joined { OnOk result (((more : RangedText)
        → option_map seen_event after.old ≡ Some (text_event more)
        → joining.new ≡ Some (with_text joining.old more))
        × (option_map seen_event after.new ≡ None)) }
    ensures refused { IfErr result (λ _. (joining.new ≡ joining.old) × (after.new ≡ after.old)) }
{
    match joining {
        Some(text) => {
            push_text(alloc, text, after)?;
            *after = None;
        }
        None => *joining = text_of(after.take()),
    }
    Ok(())
}

// Joins an event, if it is a text.
fn push_text(
    alloc: Global,
    joining: &mut JoinedText,
    event: &Option<(Event, Range<usize>)>,
) -> Result<(), AllocError>
    ensures joined { OnOk result ((more : RangedText)
        → option_map seen_event event.now ≡ Some (text_event more)
        → joining.new ≡ with_text (Some joining.old) more) }
    ensures refused { IfErr result (λ _. joining.new ≡ joining.old) }
{
    match event {
        Some((Event::Text(words), range)) => joining.push(alloc, words.as_str(), range),
        _ => Ok(()),
    }
}

// The text of an event, if it is one.
fn text_of<'a>(event: Option<(Event<'a>, Range<usize>)>) -> Option<JoinedText<'a>>
    ensures { (more : RangedText) → option_map seen_event event.entry ≡ Some (text_event more)
        → result ≡ Some more }
{
    match event {
        Some((event, range)) => text_in(event, range),
        None => None,
    }
}

// The text of an event with this range, if it is one.
fn text_in<'a>(event: Event<'a>, range: Range<usize>) -> Option<JoinedText<'a>>
    ensures { (more : RangedText) → seen_event (event.entry, range) ≡ text_event more
        → result ≡ Some more }
{
    match event {
        Event::Text(words) => Some(JoinedText::new(words, range)),
        _ => None,
    }
}
