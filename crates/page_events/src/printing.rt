//! The lines of events.
ghost use Rattle.std.specs.Prelude.{◌≡◌, ◌++◌, OnOk, string_bytes};
ghost use Rattle.markdown_values.specs.strings.Text.{cow_text};
ghost use Rattle.markdown_values.specs.values.Events.{event_view};
ghost use Rattle.markdown_events.specs.InlineEvents.{seen_event};
ghost use Rattle.page_events.specs.Lines.{event_line, event_text, quoted, task_word};

use crate::elements::{push_end, push_start};
use markdown_values::strings::CowStr;
use markdown_values::values::Event;
use page_blocks::info::push_bytes;
use std::alloc::AllocError;
use std::ops::Range;

/// Adds the line of an event and its range.
pub(crate) fn push_event(text: &mut String, event: &(Event, Range<usize>)) -> Result<(), AllocError>
    ensures { OnOk result (string_bytes text.new
        ≡ string_bytes text.old ++ event_line (seen_event event.now)) }
{
    write!(text, "{} {} ", event.1.start, event.1.end)?;
    push_words(text, &event.0)?;
    text.push_str("\n")
}

// Adds what an event is.
fn push_words(text: &mut String, event: &Event) -> Result<(), AllocError>
    ensures { OnOk result (string_bytes text.new
        ≡ string_bytes text.old ++ event_text (event_view cow_text event.now)) }
{
    match event {
        Event::Start(tag) => push_start(text, tag),
        Event::End(tag) => push_end(text, *tag),
        Event::Text(words) => push_named(text, "text", words),
        Event::Code(words) => push_named(text, "code", words),
        Event::InlineMath(words) => push_named(text, "inline math", words),
        Event::DisplayMath(words) => push_named(text, "display math", words),
        Event::Html(words) => push_named(text, "html", words),
        Event::InlineHtml(words) => push_named(text, "inline html", words),
        Event::FootnoteReference(label) => push_named(text, "footnote reference", label),
        Event::SoftBreak => text.push_str("soft break"),
        Event::HardBreak => text.push_str("hard break"),
        Event::Rule => text.push_str("rule"),
        Event::TaskListMarker(is_checked) => text.push_str(task_word(*is_checked)),
    }
}

// The words for the box of a task.
fn task_word(is_checked: bool) -> &'static str
    ensures { result.now ≡ task_word is_checked }
{
    if is_checked {
        "checked task"
    } else {
        "unchecked task"
    }
}

/// Adds a text in quotation marks, and its name before it.
pub(crate) fn push_named(text: &mut String, name: &str, words: &CowStr) -> Result<(), AllocError>
    ensures { OnOk result (string_bytes text.new
        ≡ string_bytes text.old ++ (name.now ++ quoted (cow_text words.now))) }
{
    text.push_str(name)?;
    push_quoted(text, words)
}

/// Adds a text in quotation marks.
pub(crate) fn push_quoted(text: &mut String, words: &CowStr) -> Result<(), AllocError>
    ensures { OnOk result (string_bytes text.new
        ≡ string_bytes text.old ++ quoted (cow_text words.now)) }
{
    text.push_str(" \"")?;
    push_bytes(text, words.as_str().as_bytes())?;
    text.push_str("\"")
}
