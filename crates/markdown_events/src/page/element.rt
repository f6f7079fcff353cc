//! An element of a page.
ghost use Rattle.std.specs.Prelude.{◌≡◌, ◌∷◌, ◌++◌, [], map, IfOk, OnOk};
ghost use Rattle.markdown_values.specs.strings.Text.{cow_text};
ghost use Rattle.markdown_values.specs.values.Events.{event_view};
ghost use Rattle.markdown_values.specs.values.Tags.{tag_view};
ghost use Rattle.markdown_events.specs.InlineEvents.{ranged, seen_event};
ghost use Rattle.markdown_events.specs.page.Places.{element};

use markdown_values::values::{Event, Tag};
use std::alloc::AllocError;
use std::collections::VecDeque;
use std::ops::Range;

/// What a leaf block holds, between its start and its end, which both have the range from one offset of
/// the page up to another. What it holds is not moved where its start is put before it.
#[inline(always)]
pub(crate) fn block_element<'a>(
    tag: Tag<'a>,
    from: usize,
    to: usize,
    inner: Vec<(Event<'a>, Range<usize>)>,
) -> Result<VecDeque<(Event<'a>, Range<usize>)>, AllocError>
    ensures { IfOk result (λ events. map seen_event events.items
        ≡ element (tag_view cow_text tag.entry) from to (map seen_event inner.entry.items)) }
{
    let mut events = VecDeque::from(inner);
    events.reserve(2)?;
    let end = tag.to_end();
    events.push_front_reserved((Event::Start(tag), from..to));
    events.push_back_reserved((Event::End(end), from..to));
    Ok(events)
}

/// Adds an event with the range from one offset of the page up to another.
#[inline(always)]
pub(crate) fn push_event<'a>(
    events: &mut Vec<(Event<'a>, Range<usize>)>,
    event: Event<'a>,
    from: usize,
    to: usize,
) -> Result<(), AllocError>
    ensures { OnOk result (map seen_event events.new.items ≡ map seen_event events.old.items
        ++ ranged (event_view cow_text event.entry) from to ∷ []) }
{
    // With room at hand the event is written where it stands, and not moved there.
    events.reserve(1)?;
    events.push_reserved((event, from..to));
    Ok(())
}
