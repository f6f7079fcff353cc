//! The events of a leaf block. (CommonMark 0.31.2, chapter 4)
ghost use Rattle.std.specs.Prelude.{◌≡◌, ◌<◌, [], ◌∷◌, ℕ, map, IfOk, IsTrue};
ghost use Rattle.std.specs.Str.{IsUtf8};
ghost use Rattle.markdown_values.specs.strings.Text.{cow_text};
ghost use Rattle.markdown_values.specs.values.Events.{rule};
ghost use Rattle.markdown_values.specs.values.Tags.{tag_view};
ghost use Rattle.markdown_blocks.specs.events.Events.{seen_leaf};
ghost use Rattle.markdown_blocks.specs.info.Info.{info_of};
ghost use Rattle.markdown_blocks.specs.laws.Characters.{IsCutOut};
ghost use Rattle.markdown_blocks.specs.laws.Order.{HoldsText};
ghost use Rattle.markdown_scanners_tree.specs.declared.scanners.html_kinds.HtmlBlockKind.{HtmlBlockKind};
ghost use Rattle.markdown_blocks.specs.declared.blocks.BlockKind.TheVariants.{Fenced, Heading, Html, Indented};
ghost use Rattle.markdown_events.specs.InlineEvents.{EventSetting, ranged, seen_event};
ghost use Rattle.markdown_events.specs.Meanings.{IsMeaning};
ghost use Rattle.markdown_events.specs.page.InPage.{HasAsciiFence};
ghost use Rattle.markdown_events.specs.page.LeafContent.{HasPlace, LieInBlock};
ghost use Rattle.markdown_events.specs.page.LeafEvents.{AreLeafEvents, AreLeafEventsOf, HasNoEvents, enclosed, enclosed_lines, in_paragraph, lines_offset, plain_heading};
ghost use Rattle.markdown_events.specs.page.Spans.{block_end};
ghost use Rattle.markdown_events.specs.page.Readings.{seen_place, seen_reading};

use crate::definitions::Definitions;
use crate::elements::InlineMemory;
use crate::page::element::block_element;
use crate::page::leaf_content::{code_events, text_events};
use crate::page::reading::{Place, Reading};
use crate::page::table_events::table_events;
use crate::parts::{meaning_of, text_of};
use markdown_blocks::blocks::BlockKind;
use markdown_blocks::events::Leaf;
use markdown_blocks::info::info_of;
use markdown_values::strings::CowStr;
use markdown_values::values::{CodeBlockKind, Event, HeadingLevel, Tag};
use std::alloc::{AllocError, Global};
use std::collections::VecDeque;
use std::ops::Range;

/// The events of a leaf block of a page, each with its range in the page.
//
// What isn't a paragraph has a function of its own that is not inlined: a function clears the memory of all its
// values where it begins, and most blocks are paragraphs.
pub(crate) fn leaf_events<'a, D: Definitions<'a>>(
    reading: &Reading<'a, '_, D>,
    memory: &mut InlineMemory<'a>,
    here: Place<'_>,
    leaf: Leaf<'a>,
) -> Result<VecDeque<(Event<'a>, Range<usize>)>, AllocError>
    requires cut_out { IsCutOut reading.now.page.now (seen_leaf leaf) }
    requires fence { HasAsciiFence leaf.kind }
    requires text { HoldsText reading.now.page.now here.containers.now here.kept (seen_leaf leaf) }
    ensures events { IfOk result (λ events. AreLeafEvents reading.now.page.now
        (seen_reading D.targets reading.now) (seen_place here.entry)
        (seen_leaf leaf.entry) (map seen_event events.items)) }

    // Each range stands within the lines of the block.
    ensures within { IfOk result (λ events. HasPlace (seen_leaf leaf.entry)
        → LieInBlock (seen_leaf leaf.entry) (map seen_event events.items)) }
{
    let Reading { alloc, page, .. } = *reading;
    match leaf.kind {
        BlockKind::Blank | BlockKind::Definition => Ok(VecDeque::new(alloc)),
        BlockKind::Break => rule(alloc, leaf),
        BlockKind::Heading(level) | BlockKind::Setext(level) => {
            heading_events(reading, memory, here, leaf, level)
        }
        BlockKind::Paragraph => {
            let inner = text_events(reading, memory, here, leaf)?;
            in_paragraph(here.is_tight, leaf, inner)
        }
        BlockKind::Indented => indented_events(alloc, memory, page, here, leaf),
        BlockKind::Fenced(_, byte) => fenced_events(alloc, memory, page, here, leaf, byte),
        BlockKind::Html(_) => html_events(alloc, memory, page, here, leaf),
        BlockKind::Table(columns) => table_events(reading, memory, here, leaf, columns),
    }
}

/// Whether a leaf block of this kind has no events: a blank line, and a link reference definition.
pub(crate) fn has_no_events(kind: BlockKind) -> bool
    ensures { IsTrue result → HasNoEvents kind }
{
    matches!(kind, BlockKind::Blank | BlockKind::Definition)
}

// A heading of this level. (4.2, 4.3)
#[inline(never)]
fn heading_events<'a, D: Definitions<'a>>(
    reading: &Reading<'a, '_, D>,
    memory: &mut InlineMemory<'a>,
    here: Place<'_>,
    leaf: Leaf<'a>,
    level: HeadingLevel,
) -> Result<VecDeque<(Event<'a>, Range<usize>)>, AllocError>
    requires cut_out { IsCutOut reading.now.page.now (seen_leaf leaf) }
    requires text { HoldsText reading.now.page.now here.containers.now here.kept (seen_leaf leaf) }
    ensures events { IfOk result (λ events. AreLeafEventsOf (Heading level) reading.now.page.now
        (seen_reading D.targets reading.now) (seen_place here.entry)
        (seen_leaf leaf.entry) (map seen_event events.items)) }
    ensures within { IfOk result (λ events. HasPlace (seen_leaf leaf.entry)
        → LieInBlock (seen_leaf leaf.entry) (map seen_event events.items)) }
{
    let inner = text_events(reading, memory, here, leaf)?;
    enclosed(heading(reading.alloc, level), leaf, inner)
}

// An indented code block. (4.4)
#[inline(never)]
fn indented_events<'a>(
    alloc: Global,
    memory: &mut InlineMemory<'a>,
    page: &'a str,
    here: Place<'_>,
    leaf: Leaf<'a>,
) -> Result<VecDeque<(Event<'a>, Range<usize>)>, AllocError>
    requires cut_out { IsCutOut page.now (seen_leaf leaf) }
    requires text { HoldsText page.now here.containers.now here.kept (seen_leaf leaf) }
    ensures events { IfOk result (λ events. (setting : EventSetting)
        → AreLeafEventsOf Indented page.now setting
        (seen_place here.entry)
        (seen_leaf leaf.entry) (map seen_event events.items)) }
    ensures within { IfOk result (λ events. HasPlace (seen_leaf leaf.entry)
        → LieInBlock (seen_leaf leaf.entry) (map seen_event events.items)) }
{
    let inner = code_events(alloc, memory, page, here, leaf, false)?;
    enclosed_lines(Tag::CodeBlock(CodeBlockKind::Indented), leaf, inner)
}

// A fenced code block, whose fence is of this byte. (4.5)
#[inline(never)]
fn fenced_events<'a>(
    alloc: Global,
    memory: &mut InlineMemory<'a>,
    page: &'a str,
    here: Place<'_>,
    leaf: Leaf<'a>,
    byte: u8,
) -> Result<VecDeque<(Event<'a>, Range<usize>)>, AllocError>
    requires cut_out { IsCutOut page.now (seen_leaf leaf) }
    requires ascii { byte < 128 }
    requires text { HoldsText page.now here.containers.now here.kept (seen_leaf leaf) }
    ensures events { IfOk result (λ events. (count : ℕ) (setting : EventSetting)
        → AreLeafEventsOf (Fenced count byte) page.now setting
        (seen_place here.entry)
        (seen_leaf leaf.entry) (map seen_event events.items)) }
    ensures within { IfOk result (λ events. HasPlace (seen_leaf leaf.entry)
        → LieInBlock (seen_leaf leaf.entry) (map seen_event events.items)) }
{
    let inner = code_events(alloc, memory, page, here, leaf, false)?;
    let info = info_meaning(alloc, leaf.text, byte)?;
    enclosed_lines(Tag::CodeBlock(CodeBlockKind::Fenced(info)), leaf, inner)
}

// An HTML block. (4.6)
#[inline(never)]
fn html_events<'a>(
    alloc: Global,
    memory: &mut InlineMemory<'a>,
    page: &'a str,
    here: Place<'_>,
    leaf: Leaf<'a>,
) -> Result<VecDeque<(Event<'a>, Range<usize>)>, AllocError>
    requires cut_out { IsCutOut page.now (seen_leaf leaf) }
    requires text { HoldsText page.now here.containers.now here.kept (seen_leaf leaf) }
    ensures events { IfOk result (λ events. (kind : HtmlBlockKind) (setting : EventSetting)
        → AreLeafEventsOf (Html kind) page.now setting
        (seen_place here.entry)
        (seen_leaf leaf.entry) (map seen_event events.items)) }
    ensures within { IfOk result (λ events. HasPlace (seen_leaf leaf.entry)
        → LieInBlock (seen_leaf leaf.entry) (map seen_event events.items)) }
{
    let inner = code_events(alloc, memory, page, here, leaf, true)?;
    enclosed_lines(Tag::HtmlBlock, leaf, inner)
}

// A thematic break. (4.1)
#[inline(never)]
fn rule<'a>(alloc: Global, leaf: Leaf) -> Result<VecDeque<(Event<'a>, Range<usize>)>, AllocError>
    ensures rule { IfOk result (λ events. map seen_event events.items
        ≡ ranged rule leaf.entry.offset (block_end (seen_leaf leaf.entry)) ∷ []) }
    ensures within { IfOk result (λ events. HasPlace (seen_leaf leaf.entry)
        → LieInBlock (seen_leaf leaf.entry) (map seen_event events.items)) }
{
    let mut events = VecDeque::new(alloc);
    events.push_back((Event::Rule, leaf.offset..leaf.start + leaf.bytes))?;
    Ok(events)
}

// What a block holds, between its start and its end.
#[inline(always)]
fn enclosed<'a>(
    tag: Tag<'a>,
    leaf: Leaf,
    inner: Vec<(Event<'a>, Range<usize>)>,
) -> Result<VecDeque<(Event<'a>, Range<usize>)>, AllocError>
    ensures enclosed { IfOk result (λ events. map seen_event events.items
        ≡ enclosed (tag_view cow_text tag.entry) (seen_leaf leaf.entry)
        (map seen_event inner.entry.items)) }
    ensures within { IfOk result (λ events. HasPlace (seen_leaf leaf.entry)
        → LieInBlock (seen_leaf leaf.entry) (map seen_event inner.entry.items)
        → LieInBlock (seen_leaf leaf.entry) (map seen_event events.items)) }
{
    block_element(tag, leaf.offset, leaf.start + leaf.bytes, inner)
}

// Lines of code or HTML, between the start and the end of their block.
fn enclosed_lines<'a>(
    tag: Tag<'a>,
    leaf: Leaf,
    lines: Vec<(Event<'a>, Range<usize>)>,
) -> Result<VecDeque<(Event<'a>, Range<usize>)>, AllocError>
    ensures enclosed { IfOk result (λ events. map seen_event events.items
        ≡ enclosed_lines (tag_view cow_text tag.entry) (seen_leaf leaf.entry)
        (map seen_event lines.entry.items)) }
    ensures within { IfOk result (λ events. HasPlace (seen_leaf leaf.entry)
        → LieInBlock (seen_leaf leaf.entry) (map seen_event lines.entry.items)
        → LieInBlock (seen_leaf leaf.entry) (map seen_event events.items)) }
{
    let from = lines_offset(leaf, &lines);
    block_element(tag, from, leaf.start + leaf.bytes, lines)
}

// Where a block of lines begins: with its text, or where its first line does. (2.2, 4.6)
fn lines_offset(leaf: Leaf, lines: &[(Event, Range<usize>)]) -> usize
    ensures { result ≡ lines_offset (seen_leaf leaf.entry) (map seen_event lines.now) }
{
    match lines {
        [first, ..] => leaf.offset.min(first.1.start),
        [] => leaf.offset,
    }
}

/// The inlines of a paragraph, enclosed unless it stands in a tight list. (5.3)
pub(crate) fn in_paragraph<'a>(
    is_tight: bool,
    leaf: Leaf,
    inner: Vec<(Event<'a>, Range<usize>)>,
) -> Result<VecDeque<(Event<'a>, Range<usize>)>, AllocError>
    ensures enclosed { IfOk result (λ events. map seen_event events.items
        ≡ in_paragraph is_tight (seen_leaf leaf.entry) (map seen_event inner.entry.items)) }
    ensures within { IfOk result (λ events. HasPlace (seen_leaf leaf.entry)
        → LieInBlock (seen_leaf leaf.entry) (map seen_event inner.entry.items)
        → LieInBlock (seen_leaf leaf.entry) (map seen_event events.items)) }
{
    if is_tight {
        Ok(VecDeque::from(inner))
    } else {
        enclosed(Tag::Paragraph, leaf, inner)
    }
}

// The tag of a heading without attributes. (4.2, 4.3)
fn heading<'a>(alloc: Global, level: HeadingLevel) -> Tag<'a>
    ensures { tag_view cow_text result ≡ plain_heading level }
{
    Tag::Heading {
        level,
        id: None,
        classes: Vec::new(alloc),
        attrs: Vec::new(alloc),
    }
}

// What is meant by the info string after a fence of this byte. (4.5)
fn info_meaning<'a>(alloc: Global, fence: &'a [u8], byte: u8) -> Result<CowStr<'a>, AllocError>
    requires utf8 { IsUtf8 fence.now }
    requires ascii { byte < 128 }
    ensures { IfOk result (λ info. IsMeaning (info_of byte fence.now) (cow_text info)) }
{
    meaning_of(alloc, CowStr::from(text_of(info_of(fence, byte))))
}
