//! What is printed of a page.
ghost use Rattle.std.specs.Prelude.{◌≡◌, ◌++◌, IfOk, OnOk, string_bytes};
ghost use Rattle.markdown_events.specs.InlineEvents.{seen_event};
ghost use Rattle.page_events.specs.Printed.{AreEventLines, line_in};

use crate::json::push_event_json;
use crate::printing::push_event;
use markdown_events::event_reader::EventReader;
use markdown_values::values::{Event, Extensions};
use std::alloc::{AllocError, Global};
use std::ops::Range;

/// How events are printed, one a line.
#[derive(Clone, Copy)]
pub enum EventForm {
    /// In words, as `HELP` has them.
    Words,
    /// As JSON objects.
    Json,
}

/// The lines that are printed of a page with these extensions: one for each of its events.
///
/// Memory is asked for by these lines, and as by `EventReader`.
///
/// # Errors
///
/// `AllocError` where memory is refused.
pub fn lines_of_page(
    alloc: Global,
    page: &str,
    setting: Extensions,
    form: EventForm,
) -> Result<String, AllocError>
    ensures { IfOk result (λ text. AreEventLines form setting page.now (string_bytes text)) }
{
    let mut reader = EventReader::with_setting(alloc, page, setting)?;
    let mut text = String::new(alloc);
    while let Some(event) = reader.next()? {
        push_given(alloc, &mut text, event, form)?;
    }
    Ok(text)
}

// Adds the line of an event that the page has given.
fn push_given(
    alloc: Global,
    text: &mut String,
    event: (Event, Range<usize>),
    form: EventForm,
) -> Result<(), AllocError>
    ensures { OnOk result (string_bytes text.new
        ≡ string_bytes text.old ++ line_in form (seen_event event.entry)) }
{
    match form {
        EventForm::Words => push_event(text, &event),
        EventForm::Json => push_event_json(alloc, text, &event),
    }
}
