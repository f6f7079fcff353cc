//! Events as JSON, an object a line.
ghost use Rattle.std.specs.Prelude.{◌≡◌, ◌++◌, OnOk, codes, string_bytes};
ghost use Rattle.markdown_values.specs.strings.Text.{cow_text};
ghost use Rattle.markdown_values.specs.values.Events.{event_view};
ghost use Rattle.markdown_events.specs.InlineEvents.{seen_event};
ghost use Rattle.page_blocks.specs.Json.{truth};
ghost use Rattle.page_events.specs.Json.{event_json, event_kind, event_members, member};

pub mod elements;
pub mod values;

use crate::json::elements::{push_element, push_start};
use crate::json::values::{push_plain, push_text};
use markdown_values::values::Event;
use std::alloc::{AllocError, Global};
use std::ops::Range;

/// Adds the object of an event and its range, and a line ending.
pub(crate) fn push_event_json(
    alloc: Global,
    text: &mut String,
    event: &(Event, Range<usize>),
) -> Result<(), AllocError>
    ensures { OnOk result (string_bytes text.new
        ≡ string_bytes text.old ++ event_json (seen_event event.now)) }
{
    write!(
        text,
        "{{\"kind\":\"{}\",\"start\":{},\"end\":{}",
        event_kind(&event.0),
        event.1.start,
        event.1.end
    )?;
    push_members(alloc, text, &event.0)?;
    text.push_str("}\n")
}

// What an event is.
fn event_kind(event: &Event) -> &'static str
    ensures { result.now ≡ event_kind (event_view cow_text event.now) }
{
    match event {
        Event::Start(_) => "start",
        Event::End(_) => "end",
        Event::Text(_) => "text",
        Event::Code(_) => "code",
        Event::InlineMath(_) => "inline math",
        Event::DisplayMath(_) => "display math",
        Event::Html(_) => "html",
        Event::InlineHtml(_) => "inline html",
        Event::FootnoteReference(_) => "footnote reference",
        Event::SoftBreak => "soft break",
        Event::HardBreak => "hard break",
        Event::Rule => "rule",
        Event::TaskListMarker(_) => "task",
    }
}

// Adds what an event says besides.
fn push_members(alloc: Global, text: &mut String, event: &Event) -> Result<(), AllocError>
    ensures { OnOk result (string_bytes text.new
        ≡ string_bytes text.old ++ event_members (event_view cow_text event.now)) }
{
    match event {
        Event::Start(tag) => push_start(alloc, text, tag),
        Event::End(tag) => push_element(text, *tag),
        Event::Text(words)
        | Event::Code(words)
        | Event::InlineMath(words)
        | Event::DisplayMath(words)
        | Event::Html(words)
        | Event::InlineHtml(words) => push_text(alloc, text, "text", words),
        Event::FootnoteReference(label) => push_text(alloc, text, "label", label),
        Event::TaskListMarker(is_checked) => push_checked(text, *is_checked),
        Event::SoftBreak | Event::HardBreak | Event::Rule => Ok(()),
    }
}

// Adds whether the box of a task is checked.
fn push_checked(text: &mut String, is_checked: bool) -> Result<(), AllocError>
    ensures { OnOk result (string_bytes text.new
        ≡ string_bytes text.old ++ member (codes "checked") (truth is_checked)) }
{
    push_plain(text, "checked", truth(is_checked))
}

// How JSON writes what holds or does not.
fn truth(holds: bool) -> &'static str
    ensures { result.now ≡ truth holds }
{
    if holds { "true" } else { "false" }
}
