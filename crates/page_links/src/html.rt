//! The raw HTML of a page. (CommonMark 0.31.2, sections 4.6 and 6.6)
ghost use Rattle.std.specs.Prelude.{◌≡◌, ◌++◌, [], IfOk, OnOk, map, replicate};
ghost use Rattle.markdown_scanners_tree.specs.Ascii.{space};
ghost use Rattle.std.specs.Option.{option_map, option_to_list};
ghost use Rattle.markdown_events.specs.InlineEvents.{seen_event};
ghost use Rattle.page_links.specs.html.Html.{AreHtmlParts, IsHtmlOf, in_place, part_of, seen_part, with_part};

use markdown_events::event_reader::EventReader;
use markdown_values::strings::CowStr;
use markdown_values::values::{Event, Extensions};
use std::alloc::{AllocError, Global};
use std::ops::Range;

/// A part of the raw HTML of a page.
#[derive(Drop)]
pub(crate) struct HtmlPart<'a> {
    /// How many bytes of the page stand before it.
    pub(crate) start: usize,
    /// A line of an HTML block, or a tag or its like in a text.
    pub(crate) text: CowStr<'a>,
}

/// The raw HTML of a page that is read with this setting, with spaces for all else, so that
/// each byte of it stands where it does in the page.
///
/// # Errors
///
/// `AllocError` where memory is refused.
pub(crate) fn html_of_page(
    alloc: Global,
    page: &str,
    setting: Extensions,
) -> Result<Vec<u8>, AllocError>
    ensures { IfOk result (λ html. IsHtmlOf page.now setting html.items) }
{
    let parts = parts_of_page(alloc, page, setting)?;
    in_place(alloc, &parts)
}

// The parts of the raw HTML of a page.
fn parts_of_page<'a>(
    alloc: Global,
    page: &'a str,
    setting: Extensions,
) -> Result<Vec<HtmlPart<'a>>, AllocError>
    ensures { IfOk result (λ parts. AreHtmlParts page.now setting (map seen_part parts.items)) }
{
    let mut reader = EventReader::with_setting(alloc, page, setting)?;
    let mut parts = Vec::new(alloc);
    while let Some(event) = reader.next()? {
        push_part(&mut parts, event)?;
    }
    Ok(parts)
}

// Adds the part that an event is, if it is one.
fn push_part<'a>(
    parts: &mut Vec<HtmlPart<'a>>,
    event: (Event<'a>, Range<usize>),
) -> Result<(), AllocError>
    ensures { OnOk result (map seen_part parts.new.items ≡ map seen_part parts.old.items
        ++ option_to_list (part_of (seen_event event.entry))) }
{
    if let Some(part) = part_of(event.0, event.1) {
        parts.push(part)?;
    }
    Ok(())
}

// The part that an event with this range is.
fn part_of(event: Event<'_>, range: Range<usize>) -> Option<HtmlPart<'_>>
    ensures { option_map seen_part result ≡ part_of (seen_event (event.entry, range)) }
{
    match event {
        Event::Html(text) | Event::InlineHtml(text) => Some(HtmlPart {
            start: range.start,
            text,
        }),
        _ => None,
    }
}

// The parts where they stand in the page, with spaces for all else.
fn in_place(alloc: Global, parts: &[HtmlPart]) -> Result<Vec<u8>, AllocError>
    ensures { IfOk result (λ html. html.items ≡ in_place [] (map seen_part parts.now)) }
{
    let mut html = Vec::new(alloc);
    for part in parts {
        add_part(&mut html, part)?;
    }
    Ok(html)
}

// Adds a part where it stands in the page.
fn add_part(html: &mut Vec<u8>, part: &HtmlPart) -> Result<(), AllocError>
    ensures { OnOk result (html.new.items ≡ with_part html.old.items (seen_part part.now)) }
{
    let spaces = part.start.saturating_sub(html.len());
    push_spaces(html, spaces)?;
    html.extend_from_slice(part.text.as_str().as_bytes())
}

// Adds so many spaces.
fn push_spaces(html: &mut Vec<u8>, count: usize) -> Result<(), AllocError>
    ensures { OnOk result (html.new.items ≡ html.old.items ++ replicate count space) }
{
    html.resize(html.len().saturating_add(count), b' ')
}
