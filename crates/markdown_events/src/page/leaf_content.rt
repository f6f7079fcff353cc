//! The content of a leaf block of a page, and what it holds: lines, or inlines.
ghost use Rattle.std.specs.Prelude.{◌≡◌, ◌≤◌, ◌<◌, [], List, ℕ, length, take, drop, map, slice_index, IfOk, IfSome, IsTrue};
ghost use Rattle.std.specs.List.{prefix_len};
ghost use Rattle.markdown_values.specs.strings.Text.{cow_text};
ghost use Rattle.markdown_values.specs.values.Events.{event_view};
ghost use Rattle.markdown_scanners_tree.specs.Bytes.{is_space_or_tab};
ghost use Rattle.markdown_scanners_tree.specs.scanners.TextLines.{lines_of};
ghost use Rattle.markdown_blocks.specs.content.Content.{IsContent, IsRunOf, StandsFrom};
ghost use Rattle.markdown_blocks.specs.events.Events.{seen_leaf};
ghost use Rattle.markdown_blocks.specs.declared.blocks.BlockKind.TheVariants.{Paragraph};
ghost use Rattle.markdown_blocks.specs.laws.Characters.{IsCutOut};
ghost use Rattle.markdown_blocks.specs.laws.Order.{HoldsText};
ghost use Rattle.markdown_events.specs.InlineEvents.{seen_event};
ghost use Rattle.markdown_events.specs.page.LeafEvents.{AreLineEvents, AreTextEvents, line_events, lines_in_page, page_range, placed};
ghost use Rattle.markdown_events.specs.page.LeafContent.{CanPlace, EndWithin, LieInBlock, line_event};
ghost use Rattle.markdown_events.specs.page.Readings.{seen_place, seen_reading};

use crate::definitions::Definitions;
use crate::elements::{InlineMemory, take_room};
use crate::inline_events::source_events;
use crate::page::reading::{Place, Reading};
use crate::page::source::Source;
use markdown_blocks::blocks::BlockKind;
use markdown_blocks::content::{Content, Run, content_of, line_content};
use markdown_blocks::events::Leaf;
use markdown_scanners_tree::scanners::scan_line;
use markdown_values::strings::CowStr;
use markdown_values::values::Event;
use std::alloc::{AllocError, Global};
use std::ops::Range;

/// The events of the inlines of a leaf block, with their ranges in the page.
#[inline(always)]
pub(crate) fn text_events<'a, D: Definitions<'a>>(
    reading: &Reading<'a, '_, D>,
    memory: &mut InlineMemory<'a>,
    here: Place<'_>,
    leaf: Leaf<'a>,
) -> Result<Vec<(Event<'a>, Range<usize>)>, AllocError>
    requires cut_out { IsCutOut reading.now.page.now (seen_leaf leaf) }
    requires text { HoldsText reading.now.page.now here.containers.now here.kept (seen_leaf leaf) }
    ensures events { IfOk result (λ events. AreTextEvents reading.now.page.now
        (seen_reading D.targets reading.now) (seen_place here.entry)
        (seen_leaf leaf.entry) (map seen_event events.items)) }
    ensures within { IfOk result (λ events.
        LieInBlock (seen_leaf leaf.entry) (map seen_event events.items)) }
{
    let Reading { alloc, page, .. } = *reading;
    let content = content_in(alloc, page, here, leaf)?;
    let source = Source::of_content(page, leaf.start, &content, 0);
    let events = source_events(alloc, memory, &source, reading.definitions, reading.asked)?;
    Ok(in_page(events, leaf.start, &content))
}

/// An event for each line of a leaf block, HTML or text, with its range in the page.
pub(crate) fn code_events<'a>(
    alloc: Global,
    memory: &mut InlineMemory<'a>,
    page: &'a str,
    here: Place<'_>,
    leaf: Leaf<'a>,
    is_html: bool,
) -> Result<Vec<(Event<'a>, Range<usize>)>, AllocError>
    requires cut_out { IsCutOut page.now (seen_leaf leaf) }
    requires text { HoldsText page.now here.containers.now here.kept (seen_leaf leaf) }
    ensures events { IfOk result (λ events. AreLineEvents page.now
        (seen_place here.entry)
        (seen_leaf leaf.entry) (line_event is_html) (map seen_event events.items)) }
    ensures within { IfOk result (λ events.
        LieInBlock (seen_leaf leaf.entry) (map seen_event events.items)) }
{
    let content = content_in(alloc, page, here, leaf)?;
    let source = Source::of_content(page, leaf.start, &content, 0);
    // The lines have an event each, and the block has two more.
    let room = leaf.lines.saturating_add(2);
    let memory = take_room(alloc, &mut memory.events, room)?;
    let events = line_events(alloc, memory, &source, is_html)?;
    Ok(in_page(events, leaf.start, &content))
}

/// The content of a leaf block of the page.
#[inline(always)]
pub(crate) fn content_in<'a>(
    alloc: Global,
    page: &'a str,
    here: Place<'_>,
    leaf: Leaf<'a>,
) -> Result<Content<'a>, AllocError>
    requires text { HoldsText page.now here.containers.now here.kept (seen_leaf leaf) }
    ensures content { IfOk result (λ content. IsContent leaf.entry.kind
        here.entry.containers.now here.entry.kept
        (lines_in_page page.now (seen_leaf leaf.entry)) content) }
    ensures offsets { IfOk result (λ content. CanPlace leaf.entry.start content) }
{
    if is_plain_line(leaf) {
        let offset = leaf.offset.saturating_sub(leaf.start);
        return Ok(line_content(alloc, leaf.text, offset));
    }
    let lines = lines_in(page.as_bytes(), leaf);
    let content = content_of(alloc, lines, leaf.kind, here.containers, here.kept)?;
    Ok(content)
}

// Whether it is a paragraph of one line, whose text begins with neither a space nor a tab.
#[inline(always)]
fn is_plain_line(leaf: Leaf) -> bool
    ensures paragraph { IsTrue result → leaf.entry.kind ≡ Paragraph }
    ensures line { IsTrue result → leaf.entry.lines ≡ 1 }
    ensures plain { IsTrue result → prefix_len is_space_or_tab leaf.entry.text.now ≡ 0 }
{
    if leaf.lines != 1 || matches!(leaf.text, [b' ' | b'\t', ..]) {
        return false;
    }
    matches!(leaf.kind, BlockKind::Paragraph)
}

/// The lines of the page that a leaf block has.
pub(crate) fn lines_in<'a>(page: &'a [u8], leaf: Leaf) -> &'a [u8]
    ensures { result.now ≡ take leaf.entry.bytes (drop leaf.entry.start page.now) }
{
    let start = leaf.start.min(page.len());
    let end = (leaf.start + leaf.bytes).min(page.len());
    &page[start..end]
}

// An event for each line of a source, in this memory.
fn line_events<'a>(
    alloc: Global,
    memory: Vec<(Event<'a>, Range<usize>)>,
    source: &Source<'a, '_>,
    is_html: bool,
) -> Result<Vec<(Event<'a>, Range<usize>)>, AllocError>
    requires { memory.items ≡ [] }
    ensures lines { IfOk result (λ events. map seen_event events.items
        ≡ line_events (line_event is_html) 0 (lines_of source.now)) }
    ensures within { IfOk result (λ events.
        EndWithin (length source.now) (map seen_event events.items)) }
{
    let text = source.text().as_bytes();
    let mut events = memory;
    let mut from = 0;
    while from < text.len() {
        let to = from + scan_line(&text[from..]);
        // With room at hand the event is written where it stands, and not moved there.
        events.reserve(1)?;
        let line = source.part(alloc, from, to)?;
        events.push_reserved((line_event(line, is_html), from..to));
        from = to;
    }
    Ok(events)
}

fn line_event(line: CowStr<'_>, is_html: bool) -> Event<'_>
    ensures { event_view cow_text result ≡ line_event is_html (cow_text line.entry) }
{
    if is_html {
        Event::Html(line)
    } else {
        Event::Text(line)
    }
}

/// Events of the content with their ranges in the page, in which so many bytes stand before its
/// block.
#[inline(always)]
pub(crate) fn in_page<'a>(
    events: Vec<(Event<'a>, Range<usize>)>,
    before: usize,
    content: &Content,
) -> Vec<(Event<'a>, Range<usize>)>
    requires offsets { CanPlace before content.now }
    requires within { EndWithin (length content.now.text) (map seen_event events.items) }
    ensures { map seen_event result.items
        ≡ map (placed before content.now.offsets) (map seen_event events.entry.items) }
{
    let mut events = events;
    move_to_page(&mut events, before, content);
    events
}

// Moves the ranges of events from the content to the page, in which so many bytes stand before its
// block.
#[inline(always)]
fn move_to_page(events: &mut [(Event, Range<usize>)], before: usize, content: &Content)
    requires offsets { CanPlace before content.now }
    requires within { EndWithin (length content.now.text) (map seen_event events.old) }
    ensures { map seen_event events.new
        ≡ map (placed before content.now.offsets) (map seen_event events.old) }
{
    // Most contents are one run of the page.
    match content.source_start() {
        Some(origin) => move_run(events, before, content, origin),
        None => move_runs(events, before, content),
    }
}

// The same of a content whose bytes stand in the lines of its block one directly after another, from
// this origin on.
fn move_run(events: &mut [(Event, Range<usize>)], before: usize, content: &Content, origin: usize)
    requires fit { CanPlace before content.now }
    requires within { EndWithin (length content.now.text) (map seen_event events.old) }
    requires run { StandsFrom origin content.now }
    ensures { map seen_event events.new
        ≡ map (placed before content.now.offsets) (map seen_event events.old) }
{
    for event in events.iter_mut() {
        event.1 = run_range(before, content, origin, event.1.start, event.1.end);
    }
}

// The range in the page of a range of such a content.
fn run_range(
    before: usize,
    content: &Content,
    origin: usize,
    start: usize,
    end: usize,
) -> Range<usize>
    requires fit { CanPlace before content.now }
    requires within { end ≤ length content.now.text }
    requires run { StandsFrom origin content.now }
    ensures { result ≡ page_range before content.now.offsets
        (record { start = start; end = end }) }
{
    if start < end {
        return before + origin + start..before + origin + end;
    }
    placed_range(before, content, start, end)
}

// The same of any content. Ranges rise, and most are within a line, as the ranges before them are.
#[inline(never)]
fn move_runs(events: &mut [(Event, Range<usize>)], before: usize, content: &Content)
    requires fit { CanPlace before content.now }
    requires within { EndWithin (length content.now.text) (map seen_event events.old) }
    ensures { map seen_event events.new
        ≡ map (placed before content.now.offsets) (map seen_event events.old) }
{
    let mut run = Run {
        start: 0,
        end: 0,
        source: 0,
    };
    for event in events.iter_mut() {
        event.1 = page_range(before, content, &mut run, event.1.start, event.1.end);
    }
}

// The range in the page of a range of the content. If it isn't within the run, that becomes the one in
// which it begins.
#[tactic(auto, using(crate::proofs::page::leaf_content::RangeLemmas::in_run, crate::proofs::page::leaf_content::RangeLemmas::run_fits))]
fn page_range(
    before: usize,
    content: &Content,
    run: &mut Run,
    start: usize,
    end: usize,
) -> Range<usize>
    requires fit { CanPlace before content.now }
    requires within { end ≤ length content.now.text }
    requires run { IsRunOf content.now run.old }
    ensures range { result ≡ page_range before content.now.offsets
        (record { start = start; end = end }) }
    ensures run { IsRunOf content.now run.new }
{
    if start < end && !is_within(*run, start, end) {
        *run = content.run_at(start);
    }
    if is_within(*run, start, end) {
        let from = before + run.source + (start - run.start);
        return from..from + (end - start);
    }
    placed_range(before, content, start, end)
}

// Whether the range has bytes, all of them of the run.
fn is_within(run: Run, start: usize, end: usize) -> bool
    ensures { IsTrue result → (run.start ≤ start) × (start < end) × (end ≤ run.end) }
{
    run.start <= start && start < end && end <= run.end
}

// The range in the page of a range of the content, by the offsets of its first and its last byte.
//
// It is not inlined: most contents are one run, whose ranges are moved in fewer instructions without it.
#[inline(never)]
fn placed_range(before: usize, content: &Content, start: usize, end: usize) -> Range<usize>
    requires offsets { CanPlace before content.now }
    requires within { end ≤ length content.now.text }
    ensures { result ≡ page_range before content.now.offsets
        (record { start = start; end = end }) }
{
    let from = before + place_in(content, start);
    if start < end {
        from..before + place_in(content, end - 1) + 1
    } else {
        from..from
    }
}

// The offset of a byte of the content in the lines of its block.
fn place_in(content: &Content, offset: usize) -> usize
    requires { length content.now.offsets ≡ length content.now.text }
    ensures { result ≡ slice_index content.now.offsets offset }
{
    if offset < content.text().len() {
        content.source_offset(offset)
    } else {
        0
    }
}
