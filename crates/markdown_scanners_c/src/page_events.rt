//! The events of a page, written into two buffers of the caller's.
ghost use Rattle.std.specs.Prelude.{◌≡◌, IfOk, List, string_bytes, take};
ghost use Rattle.std.specs.Str.{IsUtf8};
ghost use Rattle.markdown_events.specs.InlineEvents.{RangedEvent};
ghost use Rattle.markdown_events.specs.page.Given.{Gives};
ghost use Rattle.markdown_events.specs.page.PageEvents.{ArePageEvents};
ghost use Rattle.markdown_events.specs.page.Sizes.{EventsFit};
ghost use Rattle.markdown_scanners_c.specs.EventRecords.{records_from, texts_of};
ghost use Rattle.markdown_scanners_c.specs.PageEvents.{AreBothWritten, AreEventsReturned, HasFewEvents};
ghost use Rattle.markdown_scanners_c.specs.Extensions.{extensions_of};
ghost use Rattle.markdown_scanners_c.specs.Status.{not_utf8, ok, too_short};

use crate::event_records::{PageEvent, add_event};
use crate::extensions::{are_built, extensions_of};
use crate::status::{BAD_KIND, NO_MEMORY, NOT_UTF8, OK, TOO_SHORT};
use markdown_events::event_reader::EventReader;
use std::alloc::{AllocError, Global};

/// `struct mds_events` of C: how many events a page has, and how many bytes their texts.
#[repr(C)]
pub struct EventCount {
    pub status: u32,
    pub count: usize,
    pub length: usize,
}

/// Writes the events of a page, in order, and their texts.
#[tactic(auto, unfolding(crate::specs::PageEvents::AreEventsReturned))]
#[unsafe(no_mangle)]
pub extern "C" fn mds_events(
    alloc: Global,
    text: &[u8],
    extensions: u32,
    events: &mut [PageEvent],
    texts: &mut [u8],
) -> EventCount
    ensures events { AreEventsReturned text.now extensions
        events.old events.new texts.old texts.new result }
    ensures few { HasFewEvents text.now result }
    ensures utf8 { result.status ≡ ok → IsUtf8 (take result.length texts.new) }
{
    if !are_built(extensions) {
        return no_events(BAD_KIND);
    }
    let page = match str::from_utf8(text) {
        Ok(page) => page,
        Err(error) => return not_utf8(error.valid_up_to()),
    };
    match made_events(alloc, page, extensions) {
        Ok((made, words)) => write_events(&made, words.as_str(), events, texts),
        Err(_) => no_events(NO_MEMORY),
    }
}

// No events, but a status.
fn no_events(status: u32) -> EventCount
    ensures { result ≡ record { status = status; count = 0; length = 0 } }
{
    EventCount {
        status,
        count: 0,
        length: 0,
    }
}

// No events, as the page is not UTF-8, of which so many bytes are.
fn not_utf8(length: usize) -> EventCount
    ensures { result ≡ record { status = not_utf8; count = 0; length = length } }
{
    EventCount {
        status: NOT_UTF8,
        count: 0,
        length,
    }
}

// The events of a page as C has them, and their texts.
fn made_events(
    alloc: Global,
    page: &str,
    extensions: u32,
) -> Result<(Vec<PageEvent>, String), AllocError>
    ensures { IfOk result (λ made. (all : List RangedEvent)
        × ArePageEvents page.now (extensions_of extensions) all × EventsFit page.now all
        × (made.0.items ≡ records_from 0 all) × (string_bytes made.1 ≡ texts_of all)) }
{
    events_left(
        alloc,
        EventReader::with_setting(alloc, page, extensions_of(extensions))?,
    )
}

// The events that a reader has left.
fn events_left(
    alloc: Global,
    mut reader: EventReader<'_>,
) -> Result<(Vec<PageEvent>, String), AllocError>
    ensures { IfOk result (λ made. (all : List RangedEvent) × Gives reader.entry all
        × (made.0.items ≡ records_from 0 all) × (string_bytes made.1 ≡ texts_of all)) }
{
    let mut events = Vec::new(alloc);
    let mut texts = String::new(alloc);
    while let Some(event) = reader.next()? {
        add_event(&mut events, &mut texts, event)?;
    }
    Ok((events, texts))
}

// Writes these, where there is room for both.
fn write_events(
    made: &[PageEvent],
    words: &str,
    events: &mut [PageEvent],
    texts: &mut [u8],
) -> EventCount
    ensures written { AreBothWritten made.now words.now
        events.old events.new texts.old texts.new result }
    ensures utf8 { result.status ≡ ok → IsUtf8 (take result.length texts.new) }
{
    let count = made.len();
    let length = words.len();
    if count > events.len() {
        return too_short(count, length);
    }
    if length > texts.len() {
        return too_short(count, length);
    }
    events[..count].copy_from_slice(made);
    texts[..length].copy_from_slice(words.as_bytes());
    EventCount {
        status: OK,
        count,
        length,
    }
}

// How much room is needed, which is not there.
fn too_short(count: usize, length: usize) -> EventCount
    ensures { result ≡ record { status = too_short; count = count; length = length } }
{
    EventCount {
        status: TOO_SHORT,
        count,
        length,
    }
}
