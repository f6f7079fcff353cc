//! Tags, events and links: rows of their calls.
use crate::asserts::{are_different, assert_same, made};
use crate::kept::{Kept, Made, are_equal_made, assert_kept, assert_made_kept};
use markdown_values::strings::CowStr;
use markdown_values::values::{
    Alignment, BlockQuoteKind, CodeBlockKind, Event, HeadingLevel, LinkType, MetadataBlockKind,
    Tag, TagEnd,
};
use std::alloc::{AllocError, Global};
use std::process::Abort;

mod levels;
mod numbers;
mod options;

const OF_15: &str = "0123456789abcde";

const OF_30: &str = "0123456789abcdefghijklmnopqrst";

const UNKNOWN: &[(LinkType, LinkType)] = &[
    (LinkType::Reference, LinkType::ReferenceUnknown),
    (LinkType::Collapsed, LinkType::CollapsedUnknown),
    (LinkType::Shortcut, LinkType::ShortcutUnknown),
];

#[test]
fn references_become_unknown(rt: HostRuntime) {
    for (link_type, unknown) in UNKNOWN {
        assert_same(&rt, link_type.to_unknown(), *unknown);
    }
}

fn fenced(info: &'static str) -> CodeBlockKind<'static> {
    CodeBlockKind::Fenced(CowStr::from(info))
}

fn assert_indented_or_fenced(rt: &impl Abort, kind: &CodeBlockKind<'_>, is_fenced: bool) {
    assert!(rt; kind.is_indented() != is_fenced);
    assert!(rt; kind.is_fenced() == is_fenced);
}

// Of what kind the code block is, and what it is once kept.
fn assert_code_block(
    rt: &impl Abort,
    alloc: Global,
    kind: CodeBlockKind<'static>,
    is_fenced: bool,
) {
    assert_indented_or_fenced(rt, &kind, is_fenced);
    assert_kept(rt, alloc, kind);
}

#[test]
fn code_blocks_are_indented_or_fenced(rt: HostRuntime) {
    assert_code_block(&rt, rt.alloc(), CodeBlockKind::Indented, false);
    assert_code_block(&rt, rt.alloc(), fenced("rust"), true);
    assert!(rt; are_different(fenced("rust"), CodeBlockKind::Indented));
    assert!(rt; are_different(fenced("rust"), fenced("rus")));
}

fn list_of_one<T: Drop>(alloc: Global, item: T) -> Result<Vec<T>, AllocError> {
    let mut items = Vec::new(alloc);
    items.push(item)?;
    Ok(items)
}

// An identifier, a class, and an attribute's name and value.
pub(crate) type HeadingParts = (
    &'static str,
    &'static str,
    &'static str,
    Option<&'static str>,
);

fn attribute(
    name: &'static str,
    value: Option<&'static str>,
) -> (CowStr<'static>, Option<CowStr<'static>>) {
    match value {
        Some(value) => (CowStr::from(name), Some(CowStr::from(value))),
        None => (CowStr::from(name), None),
    }
}

fn heading(alloc: Global, parts: HeadingParts) -> Result<Tag<'static>, AllocError> {
    let (id, class, name, value) = parts;
    let attrs = list_of_one(alloc, attribute(name, value))?;
    let classes = list_of_one(alloc, CowStr::from(class))?;
    Ok(Tag::Heading {
        level: HeadingLevel::H2,
        id: Some(CowStr::from(id)),
        classes,
        attrs,
    })
}

fn link(dest_url: &'static str, title: &'static str, id: &'static str) -> Tag<'static> {
    Tag::Link {
        link_type: LinkType::Inline,
        dest_url: CowStr::from(dest_url),
        title: CowStr::from(title),
        id: CowStr::from(id),
    }
}

fn image(link_type: LinkType) -> Tag<'static> {
    Tag::Image {
        link_type,
        dest_url: CowStr::from("d"),
        title: CowStr::from("t"),
        id: CowStr::from("i"),
    }
}

fn table(alloc: Global, last: Alignment) -> Result<Tag<'static>, AllocError> {
    let mut alignments = Vec::new(alloc);
    alignments.push(Alignment::None)?;
    alignments.push(last)?;
    Ok(Tag::Table(alignments))
}

// A destination, a title and an identifier.
pub(crate) type LinkParts = (&'static str, &'static str, &'static str);

// The parts of a tag. Those of a table are its last alignment, and none of an empty one.
#[derive(Clone, Copy)]
pub(crate) enum TagParts {
    Heading(HeadingParts),
    Link(LinkParts),
    Image(LinkType),
    Table(Option<Alignment>),
}

impl Made for Tag<'static> {
    type Parts = TagParts;

    fn made(alloc: Global, parts: TagParts) -> Result<Tag<'static>, AllocError> {
        match parts {
            TagParts::Heading(parts) => heading(alloc, parts),
            TagParts::Link(parts) => Ok(link(parts.0, parts.1, parts.2)),
            TagParts::Image(link_type) => Ok(image(link_type)),
            TagParts::Table(Some(last)) => table(alloc, last),
            TagParts::Table(None) => Ok(Tag::Table(Vec::new(alloc))),
        }
    }
}

// A tag is ended by `end`, however it is asked.
fn assert_end(rt: &impl Abort, tag: Tag<'_>, end: TagEnd) {
    assert_same(rt, tag.to_end(), end);
    assert_same(rt, TagEnd::from(tag), end);
}

// The same of the tag made from these parts.
fn assert_made_end(rt: &impl Abort, alloc: Global, parts: TagParts, end: TagEnd) {
    assert_end(rt, made(rt, Tag::made(alloc, parts)), end);
}

#[test]
fn headings_and_tables_end_as_the_table_says(rt: HostRuntime) {
    let heading = TagParts::Heading(("i", "c", "a", None));
    assert_made_end(&rt, rt.alloc(), heading, TagEnd::Heading(HeadingLevel::H2));
    let table = TagParts::Table(Some(Alignment::Left));
    assert_made_end(&rt, rt.alloc(), table, TagEnd::Table);
}

const ENDS_WITH_CONTENTS: &[TagEnd] = &[
    TagEnd::BlockQuote(None),
    TagEnd::BlockQuote(Some(BlockQuoteKind::Tip)),
    TagEnd::BlockQuote(Some(BlockQuoteKind::Caution)),
    TagEnd::CodeBlock,
    TagEnd::List(true),
    TagEnd::List(true),
    TagEnd::List(false),
    TagEnd::FootnoteDefinition,
    TagEnd::Link,
    TagEnd::Image,
    TagEnd::MetadataBlock(MetadataBlockKind::YamlStyle),
    TagEnd::MetadataBlock(MetadataBlockKind::PlusesStyle),
];

// The tag that the end of this row of the table closes.
fn tag_with_contents(row: usize) -> Tag<'static> {
    match row {
        0 => Tag::BlockQuote(None),
        1 => Tag::BlockQuote(Some(BlockQuoteKind::Tip)),
        2 => Tag::BlockQuote(Some(BlockQuoteKind::Caution)),
        3 => Tag::CodeBlock(CodeBlockKind::Indented),
        4 => Tag::List(Some(3)),
        5 => Tag::List(Some(0)),
        6 => Tag::List(None),
        7 => Tag::FootnoteDefinition(CowStr::from("1")),
        8 => link("d", "t", "i"),
        9 => image(LinkType::Email),
        10 => Tag::MetadataBlock(MetadataBlockKind::YamlStyle),
        _ => Tag::MetadataBlock(MetadataBlockKind::PlusesStyle),
    }
}

#[test]
fn tags_with_contents_end_as_the_table_says(rt: HostRuntime) {
    for (row, end) in ENDS_WITH_CONTENTS.iter().enumerate() {
        assert_end(&rt, tag_with_contents(row), *end);
    }
}

const PLAIN_ENDS: &[TagEnd] = &[
    TagEnd::Paragraph,
    TagEnd::HtmlBlock,
    TagEnd::Item,
    TagEnd::DefinitionList,
    TagEnd::DefinitionListTitle,
    TagEnd::DefinitionListDefinition,
    TagEnd::TableHead,
    TagEnd::TableRow,
    TagEnd::TableCell,
    TagEnd::Emphasis,
    TagEnd::Strong,
    TagEnd::Strikethrough,
    TagEnd::Superscript,
    TagEnd::Subscript,
];

// The tag without contents that the end of this row of the table closes.
fn plain_tag(row: usize) -> Tag<'static> {
    match row {
        0 => Tag::Paragraph,
        1 => Tag::HtmlBlock,
        2 => Tag::Item,
        3 => Tag::DefinitionList,
        4 => Tag::DefinitionListTitle,
        5 => Tag::DefinitionListDefinition,
        6 => Tag::TableHead,
        7 => Tag::TableRow,
        8 => Tag::TableCell,
        9 => Tag::Emphasis,
        10 => Tag::Strong,
        11 => Tag::Strikethrough,
        12 => Tag::Superscript,
        _ => Tag::Subscript,
    }
}

#[test]
fn plain_tags_end_as_the_table_says(rt: HostRuntime) {
    for (row, end) in PLAIN_ENDS.iter().enumerate() {
        assert_end(&rt, plain_tag(row), *end);
    }
}

const HEADING: TagParts = TagParts::Heading(("i", "c", "a", Some("v")));

fn is_equal_heading(rt: &impl Abort, alloc: Global, other: TagParts) -> bool {
    are_equal_made::<Tag<'static>>(rt, alloc, HEADING, other)
}

// Equality looks at each part of a tag: each of these differs in one.
const OTHER_HEADINGS: &[TagParts] = &[
    TagParts::Heading(("j", "c", "a", Some("v"))),
    TagParts::Heading(("i", "d", "a", Some("v"))),
    TagParts::Heading(("i", "c", "b", Some("v"))),
    TagParts::Heading(("i", "c", "a", Some("w"))),
    TagParts::Heading(("i", "c", "a", None)),
];

#[test]
fn headings_differ_in_each_part(rt: HostRuntime) {
    assert!(rt; is_equal_heading(&rt, rt.alloc(), HEADING));
    for other in OTHER_HEADINGS {
        assert!(rt; !is_equal_heading(&rt, rt.alloc(), *other));
    }
}

const LINK: TagParts = TagParts::Link(("d", "t", "i"));

const IMAGE: TagParts = TagParts::Image(LinkType::Inline);

fn is_equal_link(rt: &impl Abort, alloc: Global, other: TagParts) -> bool {
    are_equal_made::<Tag<'static>>(rt, alloc, LINK, other)
}

fn is_equal_image(rt: &impl Abort, alloc: Global, other: TagParts) -> bool {
    are_equal_made::<Tag<'static>>(rt, alloc, IMAGE, other)
}

const OTHERS_THAN_LINK: &[TagParts] = &[
    TagParts::Link(("e", "t", "i")),
    TagParts::Link(("d", "u", "i")),
    TagParts::Link(("d", "t", "j")),
    IMAGE,
];

#[test]
fn links_differ_in_each_part(rt: HostRuntime) {
    assert!(rt; is_equal_link(&rt, rt.alloc(), LINK));
    for other in OTHERS_THAN_LINK {
        assert!(rt; !is_equal_link(&rt, rt.alloc(), *other));
    }
    assert!(rt; is_equal_image(&rt, rt.alloc(), IMAGE));
    assert!(rt; !is_equal_image(&rt, rt.alloc(), TagParts::Image(LinkType::Email)));
}

fn is_equal_table(rt: &impl Abort, alloc: Global, last: Option<Alignment>) -> bool {
    let table = TagParts::Table(Some(Alignment::Left));
    are_equal_made::<Tag<'static>>(rt, alloc, table, TagParts::Table(last))
}

#[test]
fn tables_differ_in_their_alignments(rt: HostRuntime) {
    assert!(rt; is_equal_table(&rt, rt.alloc(), Some(Alignment::Left)));
    assert!(rt; !is_equal_table(&rt, rt.alloc(), Some(Alignment::Right)));
    assert!(rt; !is_equal_table(&rt, rt.alloc(), None));
}

const KEPT: &[TagParts] = &[
    TagParts::Heading(("i", OF_30, "a", Some(OF_30))),
    TagParts::Table(Some(Alignment::Center)),
    TagParts::Link((OF_30, OF_15, "")),
    TagParts::Image(LinkType::WikiLink { has_pothole: true }),
];

// The other tags that are copied and made static, by their rows.
fn kept_tag(row: usize) -> Tag<'static> {
    match row {
        0 => Tag::Paragraph,
        1 => Tag::BlockQuote(Some(BlockQuoteKind::Note)),
        2 => Tag::CodeBlock(fenced(OF_30)),
        3 => Tag::List(Some(3)),
        4 => Tag::Item,
        5 => Tag::FootnoteDefinition(CowStr::from(OF_15)),
        _ => Tag::MetadataBlock(MetadataBlockKind::PlusesStyle),
    }
}

#[test]
fn copies_and_static_tags_equal_the_tag(rt: HostRuntime) {
    for row in 0..7 {
        assert_kept(&rt, rt.alloc(), kept_tag(row));
    }
    for parts in KEPT {
        assert_made_kept::<Tag<'static>>(&rt, rt.alloc(), *parts);
    }
}

// The events of texts that are copied and made static, by their rows.
fn event_of_text(row: usize) -> Event<'static> {
    match row {
        0 => Event::Text(CowStr::from(OF_30)),
        1 => Event::Code(CowStr::from(OF_15)),
        2 => Event::InlineMath(CowStr::from("x")),
        3 => Event::DisplayMath(CowStr::from("x")),
        4 => Event::Html(CowStr::from("<a>")),
        5 => Event::InlineHtml(CowStr::from("<a>")),
        _ => Event::FootnoteReference(CowStr::from("1")),
    }
}

#[test]
fn copies_and_static_events_of_texts_equal_the_event(rt: HostRuntime) {
    for row in 0..7 {
        assert_kept(&rt, rt.alloc(), event_of_text(row));
    }
}

// The other events, by their rows.
fn event_of_no_text(row: usize) -> Event<'static> {
    match row {
        0 => Event::End(TagEnd::List(true)),
        1 => Event::SoftBreak,
        2 => Event::HardBreak,
        3 => Event::Rule,
        _ => Event::TaskListMarker(true),
    }
}

// A start of the tag of these parts.
impl Made for Event<'static> {
    type Parts = TagParts;

    fn made(alloc: Global, parts: TagParts) -> Result<Event<'static>, AllocError> {
        Tag::made(alloc, parts).map(Event::Start)
    }
}

#[test]
fn copies_and_static_events_equal_the_event(rt: HostRuntime) {
    let table = TagParts::Table(Some(Alignment::Right));
    assert_made_kept::<Event<'static>>(&rt, rt.alloc(), table);
    for row in 0..5 {
        assert_kept(&rt, rt.alloc(), event_of_no_text(row));
    }
}

fn is_boxed(text: &CowStr<'_>) -> bool {
    matches!(text, CowStr::Boxed(_))
}

trait OwnsTexts {
    fn owns_its_texts(&self) -> bool;
}

impl OwnsTexts for Event<'static> {
    fn owns_its_texts(&self) -> bool {
        match self {
            Event::Start(
                Tag::Link {
                    dest_url,
                    title,
                    id,
                    ..
                },
            ) => is_boxed(dest_url) && is_boxed(title) && is_boxed(id),
            Event::Text(text) => is_boxed(text),
            Event::FootnoteReference(label) => is_boxed(label),
            _ => false,
        }
    }
}

// Whether the value, with nothing borrowed, equals this one and owns its texts.
fn becomes_owned<T: Drop + Kept + OwnsTexts + PartialEq>(
    rt: &impl Abort,
    alloc: Global,
    value: T,
    expected: T,
) -> bool {
    let value = made(rt, value.made_static(alloc));
    value.owns_its_texts() && value == expected
}

fn long_link() -> Event<'static> {
    Event::Start(link(OF_30, OF_30, OF_30))
}

fn long_text() -> Event<'static> {
    Event::Text(CowStr::from(OF_30))
}

#[test]
fn long_texts_of_static_events_are_owned(rt: HostRuntime) {
    assert!(rt; becomes_owned(&rt, rt.alloc(), long_link(), long_link()));
    assert!(rt; becomes_owned(&rt, rt.alloc(), long_text(), long_text()));
}

fn copy_owns_its_texts<T: Drop + Kept + OwnsTexts>(
    rt: &impl Abort,
    alloc: Global,
    value: T,
) -> bool {
    made(rt, value.copied(alloc)).owns_its_texts()
}

#[test]
fn lent_texts_of_copied_events_stay_lent(rt: HostRuntime) {
    let footnote = Event::FootnoteReference(CowStr::from("1"));
    assert!(rt; !copy_owns_its_texts(&rt, rt.alloc(), footnote));
    assert!(rt; !copy_owns_its_texts(&rt, rt.alloc(), long_link()));
    assert!(rt; !copy_owns_its_texts(&rt, rt.alloc(), long_text()));
}
