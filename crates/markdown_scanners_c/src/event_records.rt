//! The events of a page as structs of C, and the texts that they hold.
ghost use Rattle.std.specs.Prelude.{◌≡◌, ◌∷◌, ◌++◌, [], IfOk, OnOk, length, map, string_bytes};
ghost use Rattle.markdown_values.specs.strings.Text.{cow_text};
ghost use Rattle.markdown_values.specs.values.Alignments.{alignment_number};
ghost use Rattle.markdown_values.specs.values.Events.{event_view};
ghost use Rattle.markdown_values.specs.values.Tags.{tag_view};
ghost use Rattle.markdown_events.specs.InlineEvents.{seen_event};
ghost use Rattle.markdown_scanners_c.specs.EventRecords.{alert_detail, bit, element_number, end_detail};
ghost use Rattle.markdown_scanners_c.specs.EventRecords.{event_detail, event_element, event_label, event_number};
ghost use Rattle.markdown_scanners_c.specs.EventRecords.{event_record, event_text, event_title, event_words};
ghost use Rattle.markdown_scanners_c.specs.EventRecords.{kind_number, link_number, metadata_number};
ghost use Rattle.markdown_scanners_c.specs.EventRecords.{start_detail, start_text};

use markdown_values::values::{
    Alignment, BlockQuoteKind, CodeBlockKind, Event, LinkType, MetadataBlockKind, Tag, TagEnd,
};
use std::alloc::AllocError;
use std::ops::Range;

/// `struct mds_event` of C: an event of a page. Its texts stand in the texts of all events.
#[repr(C)]
#[derive(Clone, Copy)]
pub struct PageEvent {
    pub kind: u32,
    pub element: u32,
    pub detail: u32,
    pub number: u64,
    pub start: usize,
    pub end: usize,
    pub text_start: usize,
    pub text_length: usize,
    pub title_start: usize,
    pub title_length: usize,
    pub label_start: usize,
    pub label_length: usize,
}

/// Adds an event that a page has given, and its texts.
pub(crate) fn add_event(
    events: &mut Vec<PageEvent>,
    texts: &mut String,
    event: (Event, Range<usize>),
) -> Result<(), AllocError>
    ensures returned { OnOk result (events.new.items ≡ events.old.items
        ++ event_record (length (string_bytes texts.old)) (seen_event event.entry) ∷ []) }
    ensures words { OnOk result (string_bytes texts.new ≡ string_bytes texts.old
        ++ event_words (event_view cow_text event.entry.0)) }
{
    events.push(record_of(texts, &event)?)?;
    Ok(())
}

// An event, whose texts are added.
fn record_of(texts: &mut String, event: &(Event, Range<usize>)) -> Result<PageEvent, AllocError>
    ensures returned { IfOk result (λ returned. returned
        ≡ event_record (length (string_bytes texts.old)) (seen_event event.now)) }
    ensures words { OnOk result (string_bytes texts.new ≡ string_bytes texts.old
        ++ event_words (event_view cow_text event.now.0)) }
{
    let text_start = texts.len();
    push_text(texts, &event.0)?;
    let title_start = texts.len();
    texts.push_str(title_of(&event.0))?;
    let label_start = texts.len();
    texts.push_str(label_of(&event.0))?;
    Ok(PageEvent {
        kind: kind_number(&event.0),
        element: element_of(&event.0),
        detail: detail_of(&event.0),
        number: number_of(&event.0),
        start: event.1.start,
        end: event.1.end,
        text_start,
        text_length: title_start - text_start,
        title_start,
        title_length: label_start - title_start,
        label_start,
        label_length: texts.len() - label_start,
    })
}

// ---- numbers

// The number of an event's kind.
fn kind_number(event: &Event) -> u32
    ensures { result ≡ kind_number (event_view cow_text event.now) }
{
    match event {
        Event::Start(_) => 0,
        Event::End(_) => 1,
        Event::Text(_) => 2,
        Event::Code(_) => 3,
        Event::InlineMath(_) => 4,
        Event::DisplayMath(_) => 5,
        Event::Html(_) => 6,
        Event::InlineHtml(_) => 7,
        Event::FootnoteReference(_) => 8,
        Event::SoftBreak => 9,
        Event::HardBreak => 10,
        Event::Rule => 11,
        Event::TaskListMarker(_) => 12,
    }
}

// The number of the element that begins or ends, 0 of another event.
fn element_of(event: &Event) -> u32
    ensures { result ≡ event_element (event_view cow_text event.now) }
{
    match event {
        Event::Start(tag) => element_number(tag.to_end()),
        Event::End(tag) => element_number(*tag),
        _ => 0,
    }
}

// The number of an element.
fn element_number(tag: TagEnd) -> u32
    ensures { result ≡ element_number tag }
{
    match tag {
        TagEnd::Paragraph => 1,
        TagEnd::Heading(_) => 2,
        TagEnd::BlockQuote(_) => 3,
        TagEnd::CodeBlock => 4,
        TagEnd::HtmlBlock => 5,
        TagEnd::List(_) => 6,
        TagEnd::Item => 7,
        TagEnd::FootnoteDefinition => 8,
        TagEnd::DefinitionList => 9,
        TagEnd::DefinitionListTitle => 10,
        TagEnd::DefinitionListDefinition => 11,
        TagEnd::Table => 12,
        TagEnd::TableHead => 13,
        TagEnd::TableRow => 14,
        TagEnd::TableCell => 15,
        TagEnd::Emphasis => 16,
        TagEnd::Strong => 17,
        TagEnd::Strikethrough => 18,
        TagEnd::Superscript => 19,
        TagEnd::Subscript => 20,
        TagEnd::Link => 21,
        TagEnd::Image => 22,
        TagEnd::MetadataBlock(_) => 23,
    }
}

// What an event says besides, as a number.
fn detail_of(event: &Event) -> u32
    ensures { result ≡ event_detail (event_view cow_text event.now) }
{
    match event {
        Event::Start(tag) => start_detail(tag),
        Event::End(tag) => end_detail(*tag),
        Event::TaskListMarker(is_checked) => bit(*is_checked),
        _ => 0,
    }
}

// What the start of an element says of it.
fn start_detail(tag: &Tag) -> u32
    ensures { result ≡ start_detail (tag_view cow_text tag.now) }
{
    match tag {
        Tag::CodeBlock(kind) => bit(kind.is_fenced()),
        Tag::Link { link_type, .. } | Tag::Image { link_type, .. } => link_number(*link_type),
        _ => end_detail(tag.to_end()),
    }
}

// What its end says too.
fn end_detail(tag: TagEnd) -> u32
    ensures { result ≡ end_detail tag }
{
    match tag {
        TagEnd::Heading(level) => level.number() as u32,
        TagEnd::BlockQuote(kind) => alert_detail(kind),
        TagEnd::List(is_ordered) => bit(is_ordered),
        TagEnd::MetadataBlock(kind) => metadata_number(kind),
        _ => 0,
    }
}

// 1 of what is so, else 0.
fn bit(is_so: bool) -> u32
    ensures { result ≡ bit is_so }
{
    if is_so { 1 } else { 0 }
}

// The number of an alert's kind, 0 of a block quote that is none.
fn alert_detail(kind: Option<BlockQuoteKind>) -> u32
    ensures { result ≡ alert_detail kind }
{
    match kind {
        Some(kind) => u32::from(kind.number()),
        None => 0,
    }
}

// The number of a kind of metadata.
fn metadata_number(kind: MetadataBlockKind) -> u32
    ensures { result ≡ metadata_number kind }
{
    match kind {
        MetadataBlockKind::YamlStyle => 1,
        MetadataBlockKind::PlusesStyle => 2,
    }
}

// How a link or an image is written.
fn link_number(kind: LinkType) -> u32
    ensures { result ≡ link_number kind }
{
    match kind {
        LinkType::Inline => 1,
        LinkType::Reference => 2,
        LinkType::ReferenceUnknown => 3,
        LinkType::Collapsed => 4,
        LinkType::CollapsedUnknown => 5,
        LinkType::Shortcut => 6,
        LinkType::ShortcutUnknown => 7,
        LinkType::Autolink => 8,
        LinkType::Email => 9,
        LinkType::WikiLink { has_pothole: false } => 10,
        LinkType::WikiLink { has_pothole: true } => 11,
    }
}

// The number of the first item of an ordered list that begins.
fn number_of(event: &Event) -> u64
    ensures { result ≡ event_number (event_view cow_text event.now) }
{
    match event {
        Event::Start(Tag::List(Some(number))) => *number,
        _ => 0,
    }
}

// ---- texts

// Adds the text of an event.
fn push_text(texts: &mut String, event: &Event) -> Result<(), AllocError>
    ensures { OnOk result (string_bytes texts.new
        ≡ string_bytes texts.old ++ event_text (event_view cow_text event.now)) }
{
    match event {
        Event::Start(tag) => push_start(texts, tag),
        Event::Text(words)
        | Event::Code(words)
        | Event::InlineMath(words)
        | Event::DisplayMath(words)
        | Event::Html(words)
        | Event::InlineHtml(words)
        | Event::FootnoteReference(words) => texts.push_str(words.as_str()),
        _ => Ok(()),
    }
}

// Adds the text that the start of an element has.
fn push_start(texts: &mut String, tag: &Tag) -> Result<(), AllocError>
    ensures { OnOk result (string_bytes texts.new
        ≡ string_bytes texts.old ++ start_text (tag_view cow_text tag.now)) }
{
    match tag {
        Tag::CodeBlock(CodeBlockKind::Fenced(info)) => texts.push_str(info.as_str()),
        Tag::FootnoteDefinition(label) => texts.push_str(label.as_str()),
        Tag::Table(alignments) => push_alignments(texts, alignments),
        Tag::Link { dest_url, .. } | Tag::Image { dest_url, .. } => {
            texts.push_str(dest_url.as_str())
        }
        _ => Ok(()),
    }
}

// Adds the numbers of alignments, as bytes.
fn push_alignments(texts: &mut String, alignments: &[Alignment]) -> Result<(), AllocError>
    ensures { OnOk result (string_bytes texts.new
        ≡ string_bytes texts.old ++ map alignment_number alignments.now) }
{
    for alignment in alignments {
        texts.push_str(alignment_byte(*alignment))?;
    }
    Ok(())
}

// The number of an alignment, as a byte.
fn alignment_byte(alignment: Alignment) -> &'static str
    ensures { result.now ≡ alignment_number alignment ∷ [] }
{
    match alignment {
        Alignment::None => "\x00",
        Alignment::Left => "\x01",
        Alignment::Center => "\x02",
        Alignment::Right => "\x03",
    }
}

// The title of a link or an image that begins.
fn title_of<'e>(event: &'e Event) -> &'e str
    ensures { result.now ≡ event_title (event_view cow_text event.now) }
{
    match event {
        Event::Start(Tag::Link { title, .. } | Tag::Image { title, .. }) => title.as_str(),
        _ => "",
    }
}

// Its label, where it is a reference.
fn label_of<'e>(event: &'e Event) -> &'e str
    ensures { result.now ≡ event_label (event_view cow_text event.now) }
{
    match event {
        Event::Start(Tag::Link { id, .. } | Tag::Image { id, .. }) => id.as_str(),
        _ => "",
    }
}
