//! How much link references add to a page, and how many cells rows are filled in with.
//! (CommonMark 0.31.2, section 6.3; GitHub Flavored Markdown 0.29, section 4.10)
ghost use Rattle.std.specs.Prelude.{◌≡◌, ◌+◌, ◌-◌, ◌<◌, Option, map, IfOk, IfSome, IfNone};
ghost use Rattle.markdown_values.specs.strings.Text.{cow_text};
ghost use Rattle.markdown_values.specs.values.Events.{event_view};
ghost use Rattle.markdown_blocks.specs.declared.containers.Container.{Container};
ghost use Rattle.markdown_blocks.specs.events.Events.{seen_leaf};
ghost use Rattle.markdown_blocks.specs.laws.Characters.{IsCutOut};
ghost use Rattle.markdown_blocks.specs.laws.Order.{HoldsText};
ghost use Rattle.markdown_events.specs.InlineEvents.{seen_event};
ghost use Rattle.markdown_events.specs.page.InPage.{HasAsciiFence, HasMarker};
ghost use Rattle.markdown_events.specs.page.Readings.{seen_place, seen_reading};
ghost use Rattle.markdown_events.specs.page.References.{AreEventsInRoom, IsLeft, added, added_by, empty_in, given_to, is_reference, page_room, room_after};
ghost use Rattle.markdown_events.specs.page.TaskEvents.{AreEventsWith, task_here};

use crate::definitions::{Definitions, NoBrokenLinks};
use crate::elements::InlineMemory;
use crate::page::leaf_events::leaf_events;
use crate::page::reading::{Place, Reading, Room};
use crate::page::task_events::task_events;
use markdown_blocks::events::Leaf;
use markdown_blocks::first_blocks::Task;
use markdown_values::values::{Event, LinkType, Tag};
use std::alloc::AllocError;
use std::collections::VecDeque;
use std::ops::Range;

/// How many bytes references may add to a page that is shorter than so many.
pub(crate) const SHORT_PAGE_ROOM: usize = 100_000;

/// How many bytes references may add to a page, and how many cells its rows may be filled in with.
pub(crate) fn page_room(page: &str) -> Room
    ensures { result ≡ page_room page.now }
{
    let room = page.len().max(SHORT_PAGE_ROOM);
    Room {
        references: room,
        cells: room,
    }
}

/// The events of a leaf block, which has this task list marker or none, where there is the room of the
/// reading; and what room is left after it.
///
/// A block whose references would add more than they may is read twice: then they are text.
pub(crate) fn events_in_room<'a, D: Definitions<'a>>(
    reading: &Reading<'a, '_, D>,
    memory: &mut InlineMemory<'a>,
    here: Place<'_>,
    leaf: Leaf<'a>,
    task: Option<Task>,
) -> Result<(VecDeque<(Event<'a>, Range<usize>)>, Room), AllocError>
    requires cut_out { IsCutOut reading.now.page.now (seen_leaf leaf) }
    requires fence { HasAsciiFence leaf.kind }
    requires text { HoldsText reading.now.page.now here.containers.now here.kept (seen_leaf leaf) }
    requires marker { IfSome task (λ task.
        HasMarker reading.now.page.now here.containers.now here.kept (seen_leaf leaf) task) }
    ensures events { IfOk result (λ r. (waiting : Option Container)
        → task ≡ task_here reading.now.asked.tasks waiting (seen_leaf leaf.entry)
        → AreEventsInRoom reading.now.page.now (seen_reading D.targets reading.now)
        reading.now.room (seen_place here.entry) waiting (seen_leaf leaf.entry) (map seen_event r.0.items)) }
    ensures room { IfOk result (λ r. r.1 ≡ room_after reading.now.room (map seen_event r.0.items)) }
{
    let room = reading.room;
    let events = block_events(reading, memory, here, leaf, task)?;
    if let Some(left) = room_after(&events, room) {
        return Ok((events, left));
    }
    let without = Reading {
        alloc: reading.alloc,
        page: reading.page,
        asked: reading.asked,
        definitions: &NoBrokenLinks,
        room,
    };
    let events = block_events(&without, memory, here, leaf, task)?;
    // Text adds nothing, so that the room is enough.
    let left = room_after(&events, room).unwrap_or(room);
    Ok((events, left))
}

// The events of a leaf block, which has this task list marker or none.
#[inline(always)]
fn block_events<'a, D: Definitions<'a>>(
    reading: &Reading<'a, '_, D>,
    memory: &mut InlineMemory<'a>,
    here: Place<'_>,
    leaf: Leaf<'a>,
    task: Option<Task>,
) -> Result<VecDeque<(Event<'a>, Range<usize>)>, AllocError>
    requires cut_out { IsCutOut reading.now.page.now (seen_leaf leaf) }
    requires fence { HasAsciiFence leaf.kind }
    requires text { HoldsText reading.now.page.now here.containers.now here.kept (seen_leaf leaf) }
    requires marker { IfSome task (λ task.
        HasMarker reading.now.page.now here.containers.now here.kept (seen_leaf leaf) task) }
    ensures { IfOk result (λ events. AreEventsWith task reading.now.page.now
        (seen_reading D.targets reading.now) (seen_place here.entry)
        (seen_leaf leaf.entry) (map seen_event events.items)) }
{
    match task {
        Some(task) => task_events(reading, memory, here, leaf, task),
        None => leaf_events(reading, memory, here, leaf),
    }
}

// What these events leave of the room; none where references add more bytes than they may.
fn room_after(events: &VecDeque<(Event<'_>, Range<usize>)>, room: Room) -> Option<Room>
    ensures left { IfSome result (IsLeft room (map seen_event events.now.items)) }
    ensures none { IfNone result (room.references < added (map seen_event events.now.items)) }
{
    let (front, back) = events.as_slices();
    match room_after_slice(front, room) {
        Some(left) => room_after_slice(back, left),
        None => None,
    }
}

// The same of events that stand in one piece of memory.
fn room_after_slice(events: &[(Event<'_>, Range<usize>)], room: Room) -> Option<Room>
    ensures left { IfSome result (IsLeft room (map seen_event events.now)) }
    ensures none { IfNone result (room.references < added (map seen_event events.now)) }
{
    let mut left = room;
    for pair in events {
        left = Room {
            references: references_after(&pair.0, left.references)?,
            cells: left.cells.saturating_sub(empty_in(pair)),
        };
    }
    Some(left)
}

// How many empty cells the event begins.
fn empty_in(pair: &(Event<'_>, Range<usize>)) -> usize
    ensures { result ≡ empty_in (seen_event pair.now) }
{
    match pair.0 {
        Event::Start(Tag::TableCell) => usize::from(pair.1.start == pair.1.end),
        _ => 0,
    }
}

// How many of so many bytes references may add after this event; none where it adds more.
fn references_after(event: &Event<'_>, room: usize) -> Option<usize>
    ensures left { IfSome result (λ left. added_by (event_view cow_text event.now) + left ≡ room) }
    ensures none { IfNone result (room < added_by (event_view cow_text event.now)) }
{
    match event {
        Event::Start(
            Tag::Link {
                link_type,
                dest_url,
                title,
                ..
            },
        ) => references_after_link(*link_type, dest_url.as_str(), title.as_str(), room),
        Event::Start(
            Tag::Image {
                link_type,
                dest_url,
                title,
                ..
            },
        ) => references_after_link(*link_type, dest_url.as_str(), title.as_str(), room),
        _ => Some(room),
    }
}

// The same of a link with this destination and this title.
fn references_after_link(
    kind: LinkType,
    destination: &str,
    title: &str,
    room: usize,
) -> Option<usize>
    ensures left { IfSome result (λ left. given_to kind destination.now title.now + left ≡ room) }
    ensures none { IfNone result (room < given_to kind destination.now title.now) }
{
    if !is_reference(kind) {
        return Some(room);
    }
    room.checked_sub(destination.len())?
        .checked_sub(title.len())
}

// Whether a link leads where a definition says, and not where it says itself.
fn is_reference(kind: LinkType) -> bool
    ensures { result ≡ is_reference kind }
{
    match kind {
        LinkType::Inline | LinkType::Autolink | LinkType::Email | LinkType::WikiLink { .. } =>
            false,
        _ => true,
    }
}
