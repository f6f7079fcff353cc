//! The events of a paragraph that begins with a task list marker.
//! (GitHub Flavored Markdown 0.29, section 5.3)
ghost use Rattle.std.specs.Prelude.{◌≡◌, ◌+◌, ◌-◌, ◌^◌, ◌<◌, ◌≤◌, ◌∷◌, drop, length, map, slice_index, IfOk};
ghost use Rattle.std.specs.List.{prefix_len};
ghost use Rattle.markdown_scanners_tree.specs.Bytes.{is_white_space};
ghost use Rattle.markdown_blocks.specs.events.Events.{seen_leaf};
ghost use Rattle.markdown_events.specs.EventLaws.{LiesIn};
ghost use Rattle.markdown_events.specs.InlineEvents.{seen_event};
ghost use Rattle.markdown_events.specs.page.InPage.{HasMarker};
ghost use Rattle.markdown_events.specs.page.LeafContent.{CanPlace, EndWithin, HasPlace, LieInBlock};
ghost use Rattle.markdown_events.specs.page.LeafEvents.{page_range, placed};
ghost use Rattle.markdown_events.specs.page.Spans.{block_end};
ghost use Rattle.markdown_events.specs.page.TaskEvents.{AreTaskEvents, after, marker_end, marker_event};
ghost use Rattle.markdown_events.specs.page.Readings.{seen_place, seen_reading};

use crate::definitions::Definitions;
use crate::elements::InlineMemory;
use crate::inline_events::source_events;
use crate::page::leaf_content::content_in;
use crate::page::leaf_events::in_paragraph;
use crate::page::reading::{Place, Reading};
use crate::page::source::Source;
use markdown_blocks::content::Content;
use markdown_blocks::events::Leaf;
use markdown_blocks::first_blocks::Task;
use markdown_scanners_tree::scanners::is_ascii_whitespace;
use markdown_values::values::Event;
use std::alloc::{AllocError, Global};
use std::collections::VecDeque;
use std::ops::Range;

/// The events of a paragraph of a page with this task list marker: the marker, and the inlines of
/// what stands after it, each with its range in the page.
#[inline(never)]
pub(crate) fn task_events<'a, D: Definitions<'a>>(
    reading: &Reading<'a, '_, D>,
    memory: &mut InlineMemory<'a>,
    here: Place<'_>,
    leaf: Leaf<'a>,
    task: Task,
) -> Result<VecDeque<(Event<'a>, Range<usize>)>, AllocError>
    requires marker { HasMarker reading.now.page.now here.containers.now here.kept (seen_leaf leaf) task }
    ensures events { IfOk result (λ events. AreTaskEvents reading.now.page.now
        (seen_reading D.targets reading.now) (seen_place here.entry)
        (seen_leaf leaf.entry) task (map seen_event events.items)) }

    // Where the marker stands within the lines of the block, each range does.
    ensures within { IfOk result (λ events. HasPlace (seen_leaf leaf.entry)
        → LiesIn leaf.entry.start (block_end (seen_leaf leaf.entry)) (marker_event task).1
        → LieInBlock (seen_leaf leaf.entry) (map seen_event events.items)) }
{
    let Reading { alloc, page, .. } = *reading;
    let content = content_in(alloc, page, here, leaf)?;
    let front = marker_end(content.text(), task.len);
    let source = Source::of_content(page, leaf.start, &content, front);
    let events = source_events(alloc, memory, &source, reading.definitions, reading.asked)?;
    let moved = rest_in_page(events, leaf.start, &content, front);
    let inner = with_marker(moved, task)?;
    in_paragraph(here.is_tight, leaf, inner)
}

// How many bytes of a text are the marker at its front, which has so many, and the white space after
// it.
fn marker_end(text: &[u8], len: usize) -> usize
    ensures rest { drop result text.now ≡ drop (marker_end len text.now) text.now }
    ensures within { result ≤ length text.now }
{
    if len >= text.len() {
        return text.len();
    }
    len + white_space_len(&text[len..])
}

// The length of the longest prefix of white space.
fn white_space_len(bytes: &[u8]) -> usize
    ensures run { result ≡ prefix_len is_white_space bytes.now }
    ensures within { result ≤ length bytes.now }
{
    bytes
        .iter()
        .take_while(|b| is_ascii_whitespace(**b))
        .count()
}

// The marker before these events.
fn with_marker<'a>(
    events: Vec<(Event<'a>, Range<usize>)>,
    task: Task,
) -> Result<Vec<(Event<'a>, Range<usize>)>, AllocError>
    requires fits { task.offset + task.len < 2 ^ 64 }
    ensures { IfOk result (λ all. map seen_event all.items
        ≡ marker_event task ∷ map seen_event events.entry.items) }
{
    let end = task.offset + task.len;
    let mut events = events;
    events.insert(
        0,
        (Event::TaskListMarker(task.is_checked), task.offset..end),
    )?;
    Ok(events)
}

// Events of what the content has after `front` bytes with their ranges in the page, in which so many
// bytes stand before its block.
fn rest_in_page<'a>(
    events: Vec<(Event<'a>, Range<usize>)>,
    before: usize,
    content: &Content,
    front: usize,
) -> Vec<(Event<'a>, Range<usize>)>
    requires offsets { CanPlace before content.now }
    requires within { EndWithin (length (drop front content.now.text))
        (map seen_event events.items) }
    ensures { map seen_event result.items
        ≡ map (placed before (after front content.now).offsets) (map seen_event events.entry.items) }
{
    let mut events = events;
    move_rest(&mut events, before, content, front);
    events
}

// Moves the ranges of such events to the page.
fn move_rest(events: &mut [(Event, Range<usize>)], before: usize, content: &Content, front: usize)
    requires offsets { CanPlace before content.now }
    requires within { EndWithin (length (drop front content.now.text)) (map seen_event events.old) }
    ensures { map seen_event events.new
        ≡ map (placed before (after front content.now).offsets) (map seen_event events.old) }
{
    for event in events.iter_mut() {
        event.1 = rest_range(before, content, front, event.1.start, event.1.end);
    }
}

// The range in the page of a range of what the content has after `front` bytes.
fn rest_range(
    before: usize,
    content: &Content,
    front: usize,
    start: usize,
    end: usize,
) -> Range<usize>
    requires offsets { CanPlace before content.now }
    requires within { end ≤ length (drop front content.now.text) }
    ensures { result ≡ page_range before (after front content.now).offsets
        (record { start = start; end = end }) }
{
    let from = before + offset_after(content, front, start);
    if start < end {
        from..before + offset_after(content, front, end - 1) + 1
    } else {
        from..from
    }
}

// The offset of a byte in the lines of its block, by its offset in what the content has after `front`
// bytes.
fn offset_after(content: &Content, front: usize, offset: usize) -> usize
    requires { length content.now.offsets ≡ length content.now.text }
    ensures { result ≡ slice_index (after front content.now).offsets offset }
{
    if offset < content.text().len().saturating_sub(front) {
        content.source_offset(front + offset)
    } else {
        0
    }
}
