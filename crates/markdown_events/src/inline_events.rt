//! The events of a text's inlines. (CommonMark 0.31.2, chapter 6)
ghost use Rattle.std.specs.Prelude.{◌≡◌, ◌<◌, ◌≤◌, ◌+◌, ◌-◌, ◌==◌, ◌^◌, ℕ, List, [], length, drop, map, IfOk, IfSome, OnOk, slice_range, if◌then◌else◌};
ghost use Rattle.std.specs.List.{All};
ghost use Rattle.std.specs.Str.{IsCharBoundary};
ghost use Rattle.html_entities.specs.Entities.{html_entity};
ghost use Rattle.markdown_values.specs.strings.Text.{cow_text};
ghost use Rattle.markdown_values.specs.values.Tags.{TagView, emphasis, strikethrough, strong};
ghost use Rattle.markdown_values.specs.values.Events.{code, inline_html, text};
ghost use Rattle.markdown_scanners_tree.specs.scanners.entities.CharacterReference.{StartsWithReference};
ghost use Rattle.markdown_events.specs.Found.{HasParts};
ghost use Rattle.markdown_scanners_tree.specs.scanners.reference_definitions.ReferenceDefinition.{IsCutAt};
ghost use Rattle.markdown_inlines.specs.CodeContent.{code_text};
ghost use Rattle.markdown_inlines.specs.declared.links.LinkTarget.TheVariants.{Wiki};
ghost use Rattle.markdown_inlines.specs.declared.pieces.PieceKind.TheVariants.{Code};
ghost use Rattle.markdown_inlines.specs.Sources.{IsLinkSource, IsSource};
ghost use Rattle.markdown_events.specs.EventLaws.{AreAtBoundaries, AreBalanced, AreWithin};
ghost use Rattle.markdown_events.specs.InlineEvents.{AreEvents, AreInlineEvents, ArePieceEvents, RangedEvent, autolink, event_setting};
ghost use Rattle.markdown_events.specs.InlineEvents.{ranged, seen_event, shown_target, with_cells};
ghost use Rattle.markdown_events.specs.LineFeeds.{with_line_feeds};
ghost use Rattle.markdown_events.specs.Meanings.{IsLinkTag};
ghost use Rattle.markdown_events.specs.Passes.{EndsBelow, IsFound, IsWritten, Leads, begun, with_event, with_events};

use crate::definitions::{Defined, Definitions};
use crate::elements::{InlineMemory, take_room};
use crate::line_feeds::with_line_feeds;
use crate::link_tags::{has_pipe, tag_of};
use crate::page::source::Source;
use crate::parts::part;
use crate::writer::Writer;
use html_entities::HtmlEntities;
use markdown_inlines::code_content::{code_text, lent_code_text};
use markdown_inlines::inlines::Inline;
use markdown_inlines::links::{Link, LinkTarget, Links};
use markdown_inlines::pieces::{Piece, PieceKind};
use markdown_scanners_tree::scanners::scan_entity;
use markdown_values::strings::CowStr;
use markdown_values::values::{Event, Extensions, LinkType, Tag};
use std::alloc::{AllocError, Global};
use std::marker::PhantomData;
use std::mem;
use std::ops::Range;

/// The events of the content of a block, with the extensions that are asked for, each with the
/// range of its source in the text. Both events of an element have the range of the whole. The
/// definitions say where references lead. A wikilink leads to its target as it is written, and
/// shows it unless a pipe stands after it.
///
/// Texts are lent from the text, or from the definitions, wherever they are a run of it.
///
/// The time is linear in the length of the text and, for each link that leads to a definition, of
/// that. Memory is asked for as by `find_inlines`, by the events, and by each text that is no run
/// of the text.
///
/// # Errors
///
/// `AllocError` where that memory is refused.
pub fn inline_events<'a, D: Definitions<'a>>(
    alloc: Global,
    text: &'a str,
    definitions: &D,
    extensions: Extensions,
) -> Result<Vec<(Event<'a>, Range<usize>)>, AllocError>
    ensures events { IfOk result (λ events. AreInlineEvents text.now
        (event_setting extensions (D.targets definitions.now))
        (map seen_event events.items)) }

    // Starts and ends balance, and both events of an element have one range.
    ensures balanced { IfOk result (λ events. AreBalanced (map seen_event events.items)) }

    // Ranges rise, and what an element holds lies within its own.
    ensures within { IfOk result (λ events. AreWithin text.now (map seen_event events.items)) }

    // Each range begins and ends at a character boundary.
    ensures boundaries { IfOk result (λ events.
        AreAtBoundaries text.now (map seen_event events.items)) }
{
    let mut memory: InlineMemory<'a> = InlineMemory::new(alloc);
    let source = Source::of_text(text);
    source_events(alloc, &mut memory, &source, definitions, extensions)
}

/// The same of the text of a source, with ranges in that text. Its inlines are found and
/// written in this memory, whatever is in it.
pub(crate) fn source_events<'a, D: Definitions<'a>>(
    alloc: Global,
    memory: &mut InlineMemory<'a>,
    source: &Source<'a, '_>,
    definitions: &D,
    extensions: Extensions,
) -> Result<Vec<(Event<'a>, Range<usize>)>, AllocError>
    ensures events { IfOk result (λ events. (cells : ℕ) → AreInlineEvents source.now
        (with_cells cells (event_setting extensions (D.targets definitions.now)))
        (map seen_event events.items)) }
    ensures balanced { IfOk result (λ events. AreBalanced (map seen_event events.items)) }
    ensures within { IfOk result (λ events. AreWithin source.now (map seen_event events.items)) }
{
    let defined = Defined {
        definitions,
        lent: PhantomData,
    };
    memory
        .finder
        .find(alloc, source.text(), &defined, extensions)?;
    // Most inlines have one event, and a block has two more.
    let room = memory.finder.inlines().len().saturating_add(2);
    let events = take_room(alloc, &mut memory.events, room)?;
    let opened = mem::replace(&mut memory.opened, Vec::new(alloc));
    let mut writer = Writer::within(events, opened);
    push_inlines(
        alloc,
        source,
        definitions,
        memory.finder.links(),
        &mut writer,
        memory.finder.inlines(),
    )?;
    let (events, opened) = writer.into_parts();
    memory.opened = opened;
    Ok(events)
}

// Adds the events of the inlines of a text with these links, of which none is written.
fn push_inlines<'a, D: Definitions<'a>>(
    alloc: Global,
    source: &Source<'a, '_>,
    definitions: &D,
    links: &Links,
    writer: &mut Writer<'a>,
    inlines: &[Inline],
) -> Result<(), AllocError>
    requires found { All (IsFound source.now (D.targets definitions.now) links.now) inlines.now }
    requires ends { All (EndsBelow (2 ^ 64)) inlines.now }
    requires at_start { writer.old ≡ record { events = []; opened = [] } }
    ensures { OnOk result (AreEvents source.now (D.targets definitions.now) links.now []
        inlines.now writer.new.events) }
{
    for inline in inlines {
        push_inline(alloc, source, definitions, links, writer, *inline)?;
    }
    Ok(())
}

// Adds the events of an inline of a text with these links.
//
// What makes a value of many bytes is a function of its own, and is not inlined: a function clears the
// memory of all its values where it begins, and most inlines are texts.
#[tactic(auto, using(crate::proofs::inline_events::PassLemmas::no_link))]
#[inline(always)]
fn push_inline<'a, D: Definitions<'a>>(
    alloc: Global,
    source: &Source<'a, '_>,
    definitions: &D,
    links: &Links,
    writer: &mut Writer<'a>,
    inline: Inline,
) -> Result<(), AllocError>
    requires found { IsFound source.now (D.targets definitions.now) links.now inline }
    requires ends { EndsBelow (2 ^ 64) inline }
    ensures { OnOk result (IsWritten source.now (D.targets definitions.now) links.now inline
        writer.old writer.new) }
{
    match inline {
        Inline::Leaf(piece) => push_piece(alloc, source, writer, piece),
        Inline::StartEmphasis(offset, count) => begin_emphasis(writer, offset, count),
        Inline::StartStrikethrough(offset, _) => begin_strikethrough(writer, offset),
        Inline::StartLink(number) => match links.get(number) {
            Some(link) => begin_link(alloc, source, definitions, writer, link),
            None => Ok(()),
        },
        Inline::EndEmphasis(offset, count) | Inline::EndStrikethrough(offset, count) => {
            writer.end(offset + count)
        }
        Inline::EndLink(piece) => writer.end(piece.end),
    }
}

// Begins emphasis with so many delimiters on each side.
#[inline(never)]
fn begin_emphasis(writer: &mut Writer, from: usize, count: usize) -> Result<(), AllocError>
    ensures { OnOk result (writer.new
        ≡ begun (if count == 2 then strong else emphasis) from writer.old) }
{
    if count == 2 {
        return writer.begin(Tag::Strong, from);
    }
    writer.begin(Tag::Emphasis, from)
}

// Begins strikethrough.
#[inline(never)]
fn begin_strikethrough(writer: &mut Writer, from: usize) -> Result<(), AllocError>
    ensures { OnOk result (writer.new ≡ begun strikethrough from writer.old) }
{
    writer.begin(Tag::Strikethrough, from)
}

// Begins a link or an image; a wikilink without a pipe shows its target.
#[inline(never)]
fn begin_link<'a, D: Definitions<'a>>(
    alloc: Global,
    source: &Source<'a, '_>,
    definitions: &D,
    writer: &mut Writer<'a>,
    link: &Link,
) -> Result<(), AllocError>
    requires source { IsLinkSource source.now link.now }
    requires leads { Leads source.now (D.targets definitions.now) link.now }
    ensures { OnOk result ((tag : TagView (List ℕ))
        × IsLinkTag source.now (D.targets definitions.now) link.now tag
        × (writer.new ≡ with_events (shown_target source.now link.now.text link.now.target)
        (begun tag link.now.source.start writer.old))) }
{
    let tag = tag_of(alloc, source, definitions, link)?;
    writer.begin(tag, link.source.start)?;
    match &link.target {
        LinkTarget::Wiki(target) => show_target(alloc, source, writer, &link.text, target),
        _ => Ok(()),
    }
}

// Adds the target of a wikilink as a text, unless a pipe stands after it.
fn show_target<'a>(
    alloc: Global,
    source: &Source<'a, '_>,
    writer: &mut Writer<'a>,
    words: &Range<usize>,
    target: &Range<usize>,
) -> Result<(), AllocError>
    requires { IsCutAt source.now target.now }
    ensures { OnOk result (writer.new ≡ with_events
        (shown_target source.now words.now (Wiki target.now)) writer.old) }
{
    if has_pipe(words, target) {
        return Ok(());
    }
    let shown = source.part(alloc, target.start, target.end)?;
    writer.push(Event::Text(shown), target.start, target.end)
}

// Adds the events of a piece that holds no others.
#[inline(always)]
fn push_piece<'a>(
    alloc: Global,
    source: &Source<'a, '_>,
    writer: &mut Writer<'a>,
    piece: Piece,
) -> Result<(), AllocError>
    requires source { IsSource source.now piece }
    requires parts { HasParts piece.kind source.now piece }
    ensures { OnOk result ((here : List RangedEvent)
        × ArePieceEvents piece.kind source.now piece here
        × (writer.new ≡ with_events here writer.old)) }
{
    let (start, end) = (piece.start, piece.end);
    match piece.kind {
        PieceKind::Uri => push_autolink(alloc, source, writer, LinkType::Autolink, piece),
        PieceKind::Email => push_autolink(alloc, source, writer, LinkType::Email, piece),
        PieceKind::HardBreak => writer.push_break(true, start, end),
        PieceKind::SoftBreak => writer.push_break(false, start, end),
        PieceKind::Escape => push_part(alloc, source, writer, start + 1, start, end),
        PieceKind::Reference => push_meaning(source, writer, start, end),
        PieceKind::Code(backticks) => push_code(alloc, source, writer, backticks, piece),
        PieceKind::Html => push_html(alloc, source, writer, start, end),
        _ => push_words(alloc, source, writer, start, end),
    }
}

// Adds what stands from one offset up to another as a text. Most texts are lent from a run.
#[inline(always)]
fn push_words<'a>(
    alloc: Global,
    source: &Source<'a, '_>,
    writer: &mut Writer<'a>,
    start: usize,
    end: usize,
) -> Result<(), AllocError>
    requires begins { IsCharBoundary source.now start }
    requires ends { IsCharBoundary source.now end }
    ensures { OnOk result (writer.new
        ≡ with_event (ranged (text (slice_range source.now start end)) start end) writer.old) }
{
    match source.run() {
        Some(run) => writer.push_text(part(run, start, end), start, end),
        None => push_part(alloc, source, writer, start, start, end),
    }
}

// Adds what stands from `from` up to `end` as a text, whose source begins at `start`.
#[inline(never)]
fn push_part<'a>(
    alloc: Global,
    source: &Source<'a, '_>,
    writer: &mut Writer<'a>,
    from: usize,
    start: usize,
    end: usize,
) -> Result<(), AllocError>
    requires begins { IsCharBoundary source.now from }
    requires ends { IsCharBoundary source.now end }
    ensures { OnOk result (writer.new
        ≡ with_event (ranged (text (slice_range source.now from end)) start end) writer.old) }
{
    match source.lent_part(from, end) {
        Some(words) => writer.push_text(words, start, end),
        None => push_copy(alloc, source, writer, from, start, end),
    }
}

// The same of a text that is copied.
#[inline(never)]
fn push_copy<'a>(
    alloc: Global,
    source: &Source<'a, '_>,
    writer: &mut Writer<'a>,
    from: usize,
    start: usize,
    end: usize,
) -> Result<(), AllocError>
    requires begins { IsCharBoundary source.now from }
    requires ends { IsCharBoundary source.now end }
    ensures { OnOk result (writer.new
        ≡ with_event (ranged (text (slice_range source.now from end)) start end) writer.old) }
{
    let words = source.copied(alloc, from, end)?;
    writer.push(Event::Text(words), start, end)
}

// Adds the text of the character reference that stands from `start` up to `end`.
#[inline(never)]
fn push_meaning<'a>(
    source: &Source<'a, '_>,
    writer: &mut Writer<'a>,
    start: usize,
    end: usize,
) -> Result<(), AllocError>
    requires within { start < length source.now }
    ensures { OnOk result ((len : ℕ) (meaning : List ℕ)
        → StartsWithReference html_entity (drop start source.now) len meaning
        → writer.new ≡ with_event (ranged (text meaning) start end) writer.old) }
{
    let meaning = meaning_at(source.text(), start);
    writer.push(Event::Text(meaning), start, end)
}

// Adds a code span, which is this piece and has so many backticks on each side of its content.
#[inline(never)]
fn push_code<'a>(
    alloc: Global,
    source: &Source<'a, '_>,
    writer: &mut Writer<'a>,
    backticks: usize,
    piece: Piece,
) -> Result<(), AllocError>
    requires parts { HasParts (Code backticks) source.now piece }
    requires within { piece.end ≤ length source.now }
    ensures { OnOk result (writer.new ≡ with_event (ranged (code (code_text
        (slice_range source.now (piece.start + backticks) (piece.end - backticks))))
        piece.start piece.end) writer.old) }
{
    let (from, to) = (piece.start + backticks, piece.end - backticks);
    match lent_code(source, from, to) {
        Some(code) => writer.push_code(code, piece.start, piece.end),
        None => push_built_code(alloc, source, writer, backticks, piece),
    }
}

// The same of a code span whose text is built.
#[inline(never)]
fn push_built_code<'a>(
    alloc: Global,
    source: &Source<'a, '_>,
    writer: &mut Writer<'a>,
    backticks: usize,
    piece: Piece,
) -> Result<(), AllocError>
    requires parts { HasParts (Code backticks) source.now piece }
    requires within { piece.end ≤ length source.now }
    ensures { OnOk result (writer.new ≡ with_event (ranged (code (code_text
        (slice_range source.now (piece.start + backticks) (piece.end - backticks))))
        piece.start piece.end) writer.old) }
{
    let code = code_of(
        alloc,
        source,
        piece.start + backticks,
        piece.end - backticks,
    )?;
    writer.push(Event::Code(code), piece.start, piece.end)
}

// Adds the raw HTML that stands from `start` up to `end`, its line endings as line feeds.
#[inline(never)]
fn push_html<'a>(
    alloc: Global,
    source: &Source<'a, '_>,
    writer: &mut Writer<'a>,
    start: usize,
    end: usize,
) -> Result<(), AllocError>
    requires begins { IsCharBoundary source.now start }
    requires ends { IsCharBoundary source.now end }
    ensures { OnOk result (writer.new
        ≡ with_event (ranged (inline_html (with_line_feeds (slice_range source.now start end)))
        start end) writer.old) }
{
    let html = with_line_feeds(alloc, source.part(alloc, start, end)?)?;
    writer.push(Event::InlineHtml(html), start, end)
}

// The text of the character reference that stands at an offset.
fn meaning_at(text: &str, offset: usize) -> CowStr<'static>
    requires within { offset < length text.now }
    ensures { (len : ℕ) (meaning : List ℕ)
        → StartsWithReference html_entity (drop offset text.now) len meaning
        → cow_text result ≡ meaning }
{
    let meaning = scan_entity(&text.as_bytes()[offset..], &HtmlEntities).1;
    match meaning {
        Some(meaning) => meaning,
        None => CowStr::from(""),
    }
}

// The text of the code span whose content stands from one offset up to another, where it is lent.
#[inline(always)]
fn lent_code<'a>(source: &Source<'a, '_>, start: usize, end: usize) -> Option<&'a str>
    requires begins { IsCharBoundary source.now start }
    requires ends { IsCharBoundary source.now end }
    ensures { IfSome result (λ code. code.now ≡ code_text (slice_range source.now start end)) }
{
    if let Some(run) = source.run() {
        return lent_code_text(part(run, start, end));
    }
    let content = part(source.text(), start, end);
    let code = lent_code_text(content)?;
    // What is lent is the content, or the content without a byte at each end.
    let padding = content.len().saturating_sub(code.len()) / 2;
    source.find(code, start.saturating_add(padding))
}

// The same text, in memory of its own.
fn code_of<'a>(
    alloc: Global,
    source: &Source<'a, '_>,
    start: usize,
    end: usize,
) -> Result<CowStr<'a>, AllocError>
    requires begins { IsCharBoundary source.now start }
    requires ends { IsCharBoundary source.now end }
    ensures { IfOk result (λ code. cow_text code ≡ code_text (slice_range source.now start end)) }
{
    let code = code_text(alloc, part(source.text(), start, end))?;
    code.into_static(alloc)
}

// Adds the events of an autolink.
#[inline(never)]
fn push_autolink<'a>(
    alloc: Global,
    source: &Source<'a, '_>,
    writer: &mut Writer<'a>,
    kind: LinkType,
    piece: Piece,
) -> Result<(), AllocError>
    requires begins { IsCharBoundary source.now (piece.start + 1) }
    requires ends { IsCharBoundary source.now (piece.end - 1) }
    requires some { piece.start < piece.end }
    requires within { piece.end ≤ length source.now }
    ensures { OnOk result (writer.new ≡ with_events (autolink kind source.now piece) writer.old) }
{
    let (from, to) = (piece.start + 1, piece.end - 1);
    let tag = Tag::Link {
        link_type: kind,
        dest_url: source.part(alloc, from, to)?,
        title: CowStr::from(""),
        id: CowStr::from(""),
    };
    let end = tag.to_end();
    writer.push(Event::Start(tag), piece.start, piece.end)?;
    writer.push(Event::Text(source.part(alloc, from, to)?), from, to)?;
    writer.push(Event::End(end), piece.start, piece.end)
}
