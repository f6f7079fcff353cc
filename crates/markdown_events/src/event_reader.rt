//! The events of a page, one after another.
ghost use Rattle.std.specs.Prelude.{◌≡◌, ◌-◌, ◌∷◌, ◌<◌, ◌≤◌, ◌^◌, [], List, drop, false, length, map, IsTrue, IfErr, IfOk, IfSome, IfNone, OnOk};
ghost use Rattle.markdown_events.specs.EventLaws.{AreAtBoundaries, AreBalanced, AreWithin};
ghost use Rattle.markdown_events.specs.InlineEvents.{RangedEvent, seen_event};
ghost use Rattle.markdown_events.specs.Nesting.{AreNestedEvents};
ghost use Rattle.markdown_blocks.specs.events.Events.{ends, leaf, seen_event as seen_block, seen_leaf, starts};
ghost use Rattle.markdown_events.specs.page.Given.{AlwaysGivesOnly, AlwaysGivesPage, Gives};
ghost use Rattle.markdown_events.specs.page.Given.{GivesOnly, GivesWith, IsDone, IsPassed};
ghost use Rattle.markdown_events.specs.page.Given.{KnowsDefinitions, events_left, leaf_left_with};
ghost use Rattle.markdown_events.specs.page.Given.{left_with, setting_with};
ghost use Rattle.markdown_events.specs.page.OpenElements.{begun, end_events, ended, next_span, passed, place_in, start_events};
ghost use Rattle.markdown_values.specs.values.Extensions.{asked_by, commonmark};
ghost use Rattle.markdown_events.specs.page.PageEvents.{ArePageEvents};
ghost use Rattle.markdown_events.specs.page.Sizes.{EventsFit};
ghost use Rattle.markdown_events.specs.page.Settings.{Explains, not_built};
ghost use Rattle.markdown_events.specs.page.References.{AreEventsInRoom, CellsFit, ReferencesFit, room_after};
ghost use Rattle.markdown_events.specs.page.TaskEvents.{task_here};

use crate::definitions::{Definitions, NoBrokenLinks, PageDefinitions};
use crate::elements::InlineMemory;
use crate::page::blocks_left::BlocksLeft;
use crate::page::blocks_of::read_page;
use crate::page::definitions::WithBrokenLinks;
use crate::page::open_elements::OpenElements;
use crate::page::reading::{Reading, Room};
use crate::page::ready::ReadyEvents;
use crate::page::references::{events_in_room, page_room};
use crate::page::spans::spans_of;
pub use crate::settings::NewError;
use crate::settings::{built, setting_of};
use markdown_blocks::containers::Container;
use markdown_blocks::events::{BlockEvent, Leaf};
use markdown_blocks::first_blocks::{FirstBlock, Task};
use markdown_values::values::{Event, Extensions, Options};
use std::alloc::{AllocError, Global};
use std::collections::VecDeque;
use std::marker::Model;
use std::ops::Range;

/// The events of a page, from the first to the last, each with the range of its source.
#[derive(Drop)]
pub struct EventReader<'a> {
    alloc: Global,
    page: &'a str,
    extensions: Extensions,
    definitions: PageDefinitions<'a>,
    room: Room,
    blocks: BlocksLeft<'a>,
    elements: OpenElements,
    ready: ReadyEvents<'a>,
    memory: InlineMemory<'a>, // in which one leaf block after another is read
}

impl<'a> Model for EventReader<'a> {
    ghost use Rattle.markdown_events.specs.page.Given.{PageLeft};
    ghost use Rattle.markdown_events.specs.page.InPage.{AreInPage};

    ghost Value = { PageLeft };

    ghost view = { λ p. record {
      page = p.page.now;
      extensions = p.extensions;
      known = p.definitions;
      room = p.room;
      ready = p.ready.events;
      elements = p.elements;
      blocks = p.blocks;
    } };

    ghost invariant = { λ p. AreInPage p.page.now p.elements.containers p.elements.kept
        p.elements.waiting p.blocks };
}

impl<'a> EventReader<'a> {
    /// The events of a page of CommonMark, without extensions.
    ///
    /// Memory is asked for by the block events of the page, and by its link reference definitions.
    ///
    /// # Errors
    ///
    /// `AllocError` where that memory is refused.
    pub fn new(alloc: Global, text: &'a str) -> Result<EventReader<'a>, AllocError>
        ensures page { IfOk result (GivesOnly (ArePageEvents text.now commonmark)) }
        ensures balanced { IfOk result (GivesOnly AreBalanced) }
        ensures nested { IfOk result (GivesOnly AreNestedEvents) }
        ensures within { IfOk result (GivesOnly (AreWithin text.now)) }
        ensures boundaries { IfOk result (GivesOnly (AreAtBoundaries text.now)) }
        ensures references { IfOk result (GivesOnly (ReferencesFit text.now)) }
        ensures cells { IfOk result (GivesOnly (CellsFit text.now)) }
        ensures few { IfOk result (GivesOnly (EventsFit text.now)) }
        ensures definitions { IfOk result (KnowsDefinitions text.now commonmark) }
        ensures broken { IfOk result (AlwaysGivesPage text.now commonmark) }
        ensures broken_balanced { IfOk result (AlwaysGivesOnly AreBalanced) }
        ensures broken_nested { IfOk result (AlwaysGivesOnly AreNestedEvents) }
        ensures broken_within { IfOk result (AlwaysGivesOnly (AreWithin text.now)) }
        ensures broken_boundaries { IfOk result (AlwaysGivesOnly (AreAtBoundaries text.now)) }
        ensures broken_references { IfOk result (AlwaysGivesOnly (ReferencesFit text.now)) }
        ensures broken_cells { IfOk result (AlwaysGivesOnly (CellsFit text.now)) }
        ensures broken_few { IfOk result (AlwaysGivesOnly (EventsFit text.now)) }
    {
        EventReader::with_setting(alloc, text, Extensions::none())
    }

    /// The events of a page with these options. Memory is asked for as by `EventReader::new`.
    ///
    /// # Errors
    ///
    /// `Unsupported` with those of the options that are not built, where one is, and `Refused` where
    /// memory is refused.
    pub fn new_ext(
        alloc: Global,
        text: &'a str,
        options: Options,
    ) -> Result<EventReader<'a>, NewError>
        ensures page { IfOk result (GivesOnly (ArePageEvents text.now (asked_by options))) }
        ensures balanced { IfOk result (GivesOnly AreBalanced) }
        ensures nested { IfOk result (GivesOnly AreNestedEvents) }
        ensures within { IfOk result (GivesOnly (AreWithin text.now)) }
        ensures boundaries { IfOk result (GivesOnly (AreAtBoundaries text.now)) }
        ensures references { IfOk result (GivesOnly (ReferencesFit text.now)) }
        ensures cells { IfOk result (GivesOnly (CellsFit text.now)) }
        ensures few { IfOk result (GivesOnly (EventsFit text.now)) }
        ensures definitions { IfOk result (KnowsDefinitions text.now (asked_by options)) }
        ensures broken { IfOk result (AlwaysGivesPage text.now (asked_by options)) }
        ensures broken_balanced { IfOk result (AlwaysGivesOnly AreBalanced) }
        ensures broken_nested { IfOk result (AlwaysGivesOnly AreNestedEvents) }
        ensures broken_within { IfOk result (AlwaysGivesOnly (AreWithin text.now)) }
        ensures broken_boundaries { IfOk result (AlwaysGivesOnly (AreAtBoundaries text.now)) }
        ensures broken_references { IfOk result (AlwaysGivesOnly (ReferencesFit text.now)) }
        ensures broken_cells { IfOk result (AlwaysGivesOnly (CellsFit text.now)) }
        ensures broken_few { IfOk result (AlwaysGivesOnly (EventsFit text.now)) }
        ensures built { IfOk result (λ _. not_built options ≡ 0) }
        ensures refused { IfErr result (Explains options) }
    {
        let setting = setting_of(options)?;
        match EventReader::with_setting(alloc, text, setting) {
            Ok(reader) => Ok(reader),
            Err(refused) => Err(NewError::Refused(refused)),
        }
    }

    /// The events of a page with this setting. Memory is asked for as by `EventReader::new`.
    ///
    /// # Errors
    ///
    /// `AllocError` where that memory is refused.
    pub fn with_setting(
        alloc: Global,
        page: &'a str,
        setting: Extensions,
    ) -> Result<EventReader<'a>, AllocError>
        ensures page { IfOk result (GivesOnly (ArePageEvents page.now setting)) }
        ensures balanced { IfOk result (GivesOnly AreBalanced) }
        ensures nested { IfOk result (GivesOnly AreNestedEvents) }
        ensures within { IfOk result (GivesOnly (AreWithin page.now)) }
        ensures boundaries { IfOk result (GivesOnly (AreAtBoundaries page.now)) }
        ensures references { IfOk result (GivesOnly (ReferencesFit page.now)) }
        ensures cells { IfOk result (GivesOnly (CellsFit page.now)) }
        ensures few { IfOk result (GivesOnly (EventsFit page.now)) }
        ensures definitions { IfOk result (KnowsDefinitions page.now setting) }
        ensures broken { IfOk result (AlwaysGivesPage page.now setting) }
        ensures broken_balanced { IfOk result (AlwaysGivesOnly AreBalanced) }
        ensures broken_nested { IfOk result (AlwaysGivesOnly AreNestedEvents) }
        ensures broken_within { IfOk result (AlwaysGivesOnly (AreWithin page.now)) }
        ensures broken_boundaries { IfOk result (AlwaysGivesOnly (AreAtBoundaries page.now)) }
        ensures broken_references { IfOk result (AlwaysGivesOnly (ReferencesFit page.now)) }
        ensures broken_cells { IfOk result (AlwaysGivesOnly (CellsFit page.now)) }
        ensures broken_few { IfOk result (AlwaysGivesOnly (EventsFit page.now)) }
    {
        let (blocks, definitions) = read_page(alloc, page, built(setting))?;
        let spans = spans_of(alloc, &blocks)?;
        Ok(EventReader {
            alloc,
            page,
            extensions: setting,
            definitions,
            room: page_room(page),
            blocks: BlocksLeft::all(blocks),
            elements: OpenElements::new(alloc, spans),
            ready: ReadyEvents::new(alloc),
            memory: InlineMemory::new(alloc),
        })
    }

    /// The link reference definitions of the page.
    pub fn reference_definitions(&self) -> &PageDefinitions<'a>
        ensures { result.now ≡ self.now.known }
    {
        &self.definitions
    }

    /// The next event of the page, with the range of its source, or None after the last.
    ///
    /// Memory is asked for as by `content_of` and `inline_events`, and by containers. After a refusal
    /// the same event may be asked for again.
    ///
    /// # Errors
    ///
    /// `AllocError` where memory is refused.
    pub fn next(&mut self) -> Result<Option<(Event<'a>, Range<usize>)>, AllocError>
        ensures event { IfOk result (λ found. IfSome found (λ event. (events : List RangedEvent)
            → Gives self.new events → Gives self.old (seen_event event ∷ events))) }
        ensures fewer { IfOk result (λ found. IfSome found (λ _.
            events_left self.new < events_left self.old)) }
        ensures none { IfOk result (λ found. IfNone found (Gives self.old [])) }
        ensures done { IfOk result (λ found. IfNone found (IsDone self.new)) }
        ensures refused { IfErr result (λ _. (events : List RangedEvent)
            → Gives self.new events → Gives self.old events) }
        ensures definitions { self.new.known ≡ self.old.known }
    {
        self.next_with(&NoBrokenLinks)
    }

    /// The next event of the page, as `next` gives it, but a label that the page doesn't define leads
    /// where `broken` says, if it says so of that label. `broken` is asked about each label of the
    /// page that might be one of a link.
    ///
    /// Memory is asked for as by `next`, and by `broken`. After a refusal the same event may be asked
    /// for again.
    ///
    /// # Errors
    ///
    /// `AllocError` where memory is refused.
    pub fn next_with<B: Definitions<'a>>(
        &mut self,
        broken: &B,
    ) -> Result<Option<(Event<'a>, Range<usize>)>, AllocError>
        ensures event { IfOk result (λ found. IfSome found (λ event. (events : List RangedEvent)
            → GivesWith (B.targets broken.now) self.new events
            → GivesWith (B.targets broken.now) self.old (seen_event event ∷ events))) }
        ensures fewer { IfOk result (λ found. IfSome found (λ _.
            events_left self.new < events_left self.old)) }
        ensures none { IfOk result (λ found. IfNone found (
            GivesWith (B.targets broken.now) self.old [])) }
        ensures done { IfOk result (λ found. IfNone found (IsDone self.new)) }
        ensures refused { IfErr result (λ _. (events : List RangedEvent)
            → GivesWith (B.targets broken.now) self.new events
            → GivesWith (B.targets broken.now) self.old events) }
        ensures definitions { self.new.known ≡ self.old.known }
    {
        self.read_until_ready(broken)?;
        Ok(self.take_ready())
    }

    /// Reads block events until `take_ready` has the next event of the page, or none is left. Memory is
    /// asked for as by `next_with`.
    #[inline(always)]
    pub(crate) fn read_until_ready<B: Definitions<'a>>(
        &mut self,
        broken: &B,
    ) -> Result<(), AllocError>
        ensures same { (events : List RangedEvent)
            → GivesWith (B.targets broken.now) self.new events
            → GivesWith (B.targets broken.now) self.old events }
        ensures no_more { events_left self.new ≤ events_left self.old }
        ensures done { OnOk result (self.new.ready ≡ [] → IsDone self.new) }
        ensures definitions { self.new.known ≡ self.old.known }
    {
        if self.ready.is_empty() {
            return self.read_blocks(broken);
        }
        Ok(())
    }

    #[inline(never)] // Events that are ready are taken faster so.
    fn read_blocks<B: Definitions<'a>>(&mut self, broken: &B) -> Result<(), AllocError>
        ensures same { (events : List RangedEvent)
            → GivesWith (B.targets broken.now) self.new events
            → GivesWith (B.targets broken.now) self.old events }
        ensures no_more { events_left self.new ≤ events_left self.old }
        ensures done { OnOk result (self.new.ready ≡ [] → IsDone self.new) }
        ensures definitions { self.new.known ≡ self.old.known }
    {
        while self.is_waiting() {
            if !self.pass_without_events() {
                self.read_block(broken)?;
            }
        }
        Ok(())
    }

    // Whether no event is ready, and block events are left.
    fn is_waiting(&self) -> bool
        ensures waiting { IsTrue result
            → (self.now.ready ≡ []) × (0 < length self.now.blocks) }
        ensures done { result ≡ false → self.now.ready ≡ [] → self.now.blocks ≡ [] }
    {
        self.ready.is_empty() && self.blocks.has_next()
    }

    // Passes the next block event, if it is a leaf block without events.
    fn pass_without_events(&mut self) -> bool
        ensures passed { IsTrue result → IsPassed self.old self.new }
        ensures left { result ≡ false → self.new ≡ self.old }
    {
        let Some(block) = self.blocks.next_without_events() else {
            return false;
        };
        self.pass(block);
        true
    }

    // Reads the next block event.
    fn read_block<B: Definitions<'a>>(&mut self, broken: &B) -> Result<(), AllocError>
        requires waiting { self.old.ready ≡ [] }
        ensures same { OnOk result ((events : List RangedEvent)
            → GivesWith (B.targets broken.now) self.new events
            → GivesWith (B.targets broken.now) self.old events) }
        ensures fewer { OnOk result (self.new.blocks ≡ drop 1 self.old.blocks) }
        ensures few { OnOk result (length self.new.ready < 2 ^ 64) }
        ensures definitions { self.new.known ≡ self.old.known }
        ensures refused { IfErr result (λ _. self.new ≡ self.old) }
    {
        match self.next_block() {
            Some(&BlockEvent::Start(container, offset)) => self.read_start(container, offset),
            Some(&BlockEvent::Block(leaf)) => self.read_leaf(leaf, broken),
            Some(BlockEvent::End) => self.read_end(),
            None => Ok(()),
        }
    }

    // The next block event, if one is left.
    fn next_block(&self) -> Option<&BlockEvent<'a>>
        ensures next { IfSome result (λ block.
            self.now.blocks ≡ seen_block block.now ∷ drop 1 self.now.blocks) }
        ensures none { IfNone result (self.now.blocks ≡ []) }
    {
        self.blocks.next()
    }

    // Reads the start of a container, which is the next block event.
    fn read_start(&mut self, container: Container, offset: usize) -> Result<(), AllocError>
        requires waiting { self.old.ready ≡ [] }
        requires next { self.old.blocks ≡ starts container offset ∷ drop 1 self.old.blocks }
        ensures read { OnOk result (self.new ≡ left_with self.old
            (start_events container offset (next_span self.old.elements.spans)
            self.old.elements.elements)
            (begun container offset self.old.elements) (drop 1 self.old.blocks)) }
        ensures refused { IfErr result (λ _. self.new ≡ self.old) }
    {
        self.ready.make_room()?;
        let (list, start) = self.elements.begin(container, offset)?;
        self.ready.put_edges(list, Some(start));
        self.blocks.pass();
        Ok(())
    }

    // Reads a leaf block, which is the next block event.
    #[inline(always)]
    fn read_leaf<B: Definitions<'a>>(
        &mut self,
        block: Leaf<'a>,
        broken: &B,
    ) -> Result<(), AllocError>
        requires waiting { self.old.ready ≡ [] }
        requires next { self.old.blocks ≡ leaf (seen_leaf block) ∷ drop 1 self.old.blocks }
        ensures read { OnOk result ((here : List RangedEvent)
            × AreEventsInRoom self.old.page (setting_with (B.targets broken.now) self.old)
            self.old.room (place_in self.old.elements) self.old.elements.waiting
            (seen_leaf block.entry) here
            × (self.new ≡ leaf_left_with self.old here
            (passed (seen_leaf block.entry) self.old.elements) (drop 1 self.old.blocks))) }
        ensures few { OnOk result (length self.new.ready < 2 ^ 64) }
        ensures refused { IfErr result (λ _. self.new ≡ self.old) }
    {
        let (events, room) = self.leaf_events(block, broken)?;
        self.make_ready(block, events);
        self.room = room;
        Ok(())
    }

    // The events of a leaf block that comes next, and what room is left after them.
    #[inline(always)]
    fn leaf_events<B: Definitions<'a>>(
        &mut self,
        block: Leaf<'a>,
        broken: &B,
    ) -> Result<(VecDeque<(Event<'a>, Range<usize>)>, Room), AllocError>
        requires next { self.old.blocks ≡ leaf (seen_leaf block) ∷ drop 1 self.old.blocks }
        ensures events { IfOk result (λ r. AreEventsInRoom self.old.page
            (setting_with (B.targets broken.now) self.old) self.old.room (place_in self.old.elements)
            self.old.elements.waiting (seen_leaf block.entry) (map seen_event r.0.items)) }
        ensures room { IfOk result (λ r.
            r.1 ≡ room_after self.old.room (map seen_event r.0.items)) }
        ensures unchanged { self.new ≡ self.old }
    {
        let task = self.task(block);
        let (alloc, page, asked, room) = (self.alloc, self.page, self.extensions, self.room);
        let definitions = WithBrokenLinks::new(&self.definitions, broken);
        let reading = Reading {
            alloc,
            page,
            asked,
            definitions: &definitions,
            room,
        };
        let here = self.elements.place();
        events_in_room(&reading, &mut self.memory, here, block, task)
    }

    // The task list marker that a leaf block begins with that comes next, if they are asked for.
    fn task(&self, block: Leaf) -> Option<Task>
        ensures { result
            ≡ task_here self.now.extensions.tasks self.now.elements.waiting (seen_leaf block.entry) }
    {
        if !self.extensions.tasks {
            return None;
        }
        let container = self.elements.waiting()?;
        let first = FirstBlock {
            container,
            leaf: block,
        };
        first.task()
    }

    // Passes a leaf block without events, which comes next.
    fn pass(&mut self, block: Leaf)
        requires next { self.old.blocks ≡ leaf (seen_leaf block) ∷ drop 1 self.old.blocks }
        ensures { self.new ≡ left_with self.old self.old.ready
            (passed (seen_leaf block.entry) self.old.elements) (drop 1 self.old.blocks) }
    {
        self.elements.pass(block);
        self.blocks.pass();
    }

    // Makes the events of the leaf block that comes next ready, and passes it.
    fn make_ready(&mut self, block: Leaf, events: VecDeque<(Event<'a>, Range<usize>)>)
        requires waiting { self.old.ready ≡ [] }
        requires next { self.old.blocks ≡ leaf (seen_leaf block) ∷ drop 1 self.old.blocks }
        ensures ready { self.new ≡ left_with self.old (map seen_event events.entry.items)
            (passed (seen_leaf block.entry) self.old.elements) (drop 1 self.old.blocks) }
        ensures few { length self.new.ready < 2 ^ 64 }
    {
        self.memory.events = self.ready.put_events(events);
        self.pass(block);
    }

    // Reads the end of a container, which is the next block event.
    fn read_end(&mut self) -> Result<(), AllocError>
        requires waiting { self.old.ready ≡ [] }
        requires next { self.old.blocks ≡ ends ∷ drop 1 self.old.blocks }
        ensures read { OnOk result (self.new
            ≡ left_with self.old (end_events self.old.elements.elements)
            (ended self.old.elements) (drop 1 self.old.blocks)) }
        ensures refused { IfErr result (λ _. self.new ≡ self.old) }
    {
        self.ready.make_room()?;
        let (end, list) = self.elements.end();
        self.ready.put_edges(end, list);
        self.blocks.pass();
        Ok(())
    }

    /// Makes the next event ready, if one is left: `first` lends it, and `pass_first` passes it, so that
    /// it need not be moved. Memory is asked for as by `next`; a refused call may be made again.
    ///
    /// # Errors
    ///
    /// `AllocError` where memory is refused.
    #[inline(always)]
    pub fn fill(&mut self) -> Result<(), AllocError>
        ensures same { (events : List RangedEvent) → Gives self.new events → Gives self.old events }
        ensures no_more { events_left self.new ≤ events_left self.old }
        ensures done { OnOk result (self.new.ready ≡ [] → IsDone self.new) }
        ensures definitions { self.new.known ≡ self.old.known }
    {
        self.read_until_ready(&NoBrokenLinks)
    }

    /// The first of the events that are ready.
    #[inline(always)]
    pub fn first(&self) -> Option<&(Event<'a>, Range<usize>)>
        ensures event { IfSome result (λ event.
            self.now.ready ≡ seen_event event.now ∷ drop 1 self.now.ready) }
        ensures none { IfNone result (self.now.ready ≡ []) }
    {
        self.ready.first()
    }

    /// Passes the first of the events that are ready.
    #[inline(always)]
    pub fn pass_first(&mut self)
        ensures { self.new ≡ record self.old { ready = drop 1 self.old.ready } }
    {
        self.ready.pass();
    }

    /// The first of the events that are ready.
    #[inline(always)]
    pub(crate) fn take_ready(&mut self) -> Option<(Event<'a>, Range<usize>)>
        ensures event { IfSome result (λ event.
            self.old ≡ record self.new { ready = seen_event event ∷ self.new.ready }) }
        ensures none { IfNone result (self.old.ready ≡ []) }
        ensures unchanged { IfNone result (self.new ≡ self.old) }
    {
        self.ready.take()
    }
}
