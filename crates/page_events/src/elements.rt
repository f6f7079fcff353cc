//! What is printed of the start and the end of an element.
ghost use Rattle.std.specs.Prelude.{◌≡◌, ◌++◌, OnOk, codes, map, option_map, string_bytes};
ghost use Rattle.std.specs.List.{flat_map};
ghost use Rattle.markdown_values.specs.strings.Text.{cow_text};
ghost use Rattle.markdown_values.specs.values.Events.{end, start};
ghost use Rattle.markdown_values.specs.values.Tags.{attribute_view, info_view, tag_view};
ghost use Rattle.page_events.specs.Lines.{alert_name, alert_text, alignment_name, alignment_text, attribute_text, class_text, element_kind};
ghost use Rattle.page_events.specs.Lines.{element_name, element_text, event_text, held_text, id_text, label_text, link_text, link_word};
ghost use Rattle.page_events.specs.Lines.{metadata_name, number_text, quoted_if};

use crate::printing::{push_named, push_quoted};
use markdown_values::strings::CowStr;
use markdown_values::values::{
    Alignment, BlockQuoteKind, CodeBlockKind, LinkType, MetadataBlockKind, Tag, TagEnd,
};
use std::alloc::AllocError;

/// Adds the start of an element.
pub(crate) fn push_start(text: &mut String, tag: &Tag) -> Result<(), AllocError>
    ensures { OnOk result (string_bytes text.new
        ≡ string_bytes text.old ++ event_text (start (tag_view cow_text tag.now))) }
{
    text.push_str("start ")?;
    push_element(text, tag.to_end())?;
    push_held(text, tag)
}

/// Adds its end.
pub(crate) fn push_end(text: &mut String, tag: TagEnd) -> Result<(), AllocError>
    ensures { OnOk result (string_bytes text.new ≡ string_bytes text.old ++ event_text (end tag)) }
{
    text.push_str("end ")?;
    push_element(text, tag)
}

// Adds what both say.
fn push_element(text: &mut String, tag: TagEnd) -> Result<(), AllocError>
    ensures { OnOk result (string_bytes text.new ≡ string_bytes text.old ++ element_text tag) }
{
    text.push_str(element_name(tag))?;
    push_kind(text, tag)
}

/// The name of an element.
pub(crate) fn element_name(tag: TagEnd) -> &'static str
    ensures { result.now ≡ element_name tag }
{
    match tag {
        TagEnd::Paragraph => "paragraph",
        TagEnd::Heading(_) => "heading",
        TagEnd::BlockQuote(_) => "block quote",
        TagEnd::CodeBlock => "code block",
        TagEnd::HtmlBlock => "html block",
        TagEnd::List(_) => "list",
        TagEnd::Item => "item",
        TagEnd::FootnoteDefinition => "footnote definition",
        TagEnd::DefinitionList => "definition list",
        TagEnd::DefinitionListTitle => "term",
        TagEnd::DefinitionListDefinition => "definition",
        TagEnd::Table => "table",
        TagEnd::TableHead => "table head",
        TagEnd::TableRow => "table row",
        TagEnd::TableCell => "table cell",
        TagEnd::Emphasis => "emphasis",
        TagEnd::Strong => "strong",
        TagEnd::Strikethrough => "strikethrough",
        TagEnd::Superscript => "superscript",
        TagEnd::Subscript => "subscript",
        TagEnd::Link => "link",
        TagEnd::Image => "image",
        TagEnd::MetadataBlock(_) => "metadata block",
    }
}

// Adds the level of a heading, or the kind of an alert or of metadata.
fn push_kind(text: &mut String, tag: TagEnd) -> Result<(), AllocError>
    ensures { OnOk result (string_bytes text.new ≡ string_bytes text.old ++ element_kind tag) }
{
    match tag {
        TagEnd::Heading(level) => write!(text, " {}", level.number()),
        TagEnd::BlockQuote(kind) => push_alert(text, kind),
        TagEnd::MetadataBlock(kind) => push_word(text, metadata_name(kind)),
        _ => Ok(()),
    }
}

// Adds the kind of an alert, if a block quote is one.
fn push_alert(text: &mut String, kind: Option<BlockQuoteKind>) -> Result<(), AllocError>
    ensures { OnOk result (string_bytes text.new ≡ string_bytes text.old ++ alert_text kind) }
{
    match kind {
        Some(kind) => push_word(text, alert_name(kind)),
        None => Ok(()),
    }
}

// Adds a word after a space.
fn push_word(text: &mut String, word: &str) -> Result<(), AllocError>
    ensures { OnOk result (string_bytes text.new
        ≡ string_bytes text.old ++ (codes " " ++ word.now)) }
{
    text.push_str(" ")?;
    text.push_str(word)
}

/// The kind of an alert.
pub(crate) fn alert_name(kind: BlockQuoteKind) -> &'static str
    ensures { result.now ≡ alert_name kind }
{
    match kind {
        BlockQuoteKind::Note => "note",
        BlockQuoteKind::Tip => "tip",
        BlockQuoteKind::Important => "important",
        BlockQuoteKind::Warning => "warning",
        BlockQuoteKind::Caution => "caution",
    }
}

/// The kind of metadata.
pub(crate) fn metadata_name(kind: MetadataBlockKind) -> &'static str
    ensures { result.now ≡ metadata_name kind }
{
    match kind {
        MetadataBlockKind::YamlStyle => "yaml",
        MetadataBlockKind::PlusesStyle => "pluses",
    }
}

// Adds what only the start says.
fn push_held(text: &mut String, tag: &Tag) -> Result<(), AllocError>
    ensures { OnOk result (string_bytes text.new
        ≡ string_bytes text.old ++ held_text (tag_view cow_text tag.now)) }
{
    match tag {
        Tag::Heading {
            id,
            classes,
            attrs,
            ..
        } => {
            push_id(text, id)?;
            push_classes(text, classes)?;
            push_attributes(text, attrs)
        }
        Tag::CodeBlock(kind) => push_info(text, kind),
        Tag::List(number) => push_number(text, *number),
        Tag::FootnoteDefinition(label) => push_quoted(text, label),
        Tag::Table(alignments) => push_alignments(text, alignments),
        Tag::Link {
            link_type,
            dest_url,
            title,
            id,
        }
        | Tag::Image {
            link_type,
            dest_url,
            title,
            id,
        } => push_link(text, *link_type, dest_url, title, id),
        _ => Ok(()),
    }
}

// Adds the identifier of a heading, if it has one.
fn push_id(text: &mut String, id: &Option<CowStr>) -> Result<(), AllocError>
    ensures { OnOk result (string_bytes text.new
        ≡ string_bytes text.old ++ id_text (option_map cow_text id.now)) }
{
    match id {
        Some(id) => push_named(text, " id", id),
        None => Ok(()),
    }
}

// Adds its classes.
fn push_classes(text: &mut String, classes: &[CowStr]) -> Result<(), AllocError>
    ensures { OnOk result (string_bytes text.new
        ≡ string_bytes text.old ++ flat_map class_text (map cow_text classes.now)) }
{
    for class in classes {
        push_named(text, " class", class)?;
    }
    Ok(())
}

// Adds its attributes.
fn push_attributes(
    text: &mut String,
    attributes: &[(CowStr, Option<CowStr>)],
) -> Result<(), AllocError>
    ensures { OnOk result (string_bytes text.new ≡ string_bytes text.old
        ++ flat_map attribute_text (map (attribute_view cow_text) attributes.now)) }
{
    for attribute in attributes {
        push_attribute(text, attribute)?;
    }
    Ok(())
}

// Adds an attribute.
fn push_attribute(text: &mut String, attribute: &(CowStr, Option<CowStr>)) -> Result<(), AllocError>
    ensures { OnOk result (string_bytes text.new
        ≡ string_bytes text.old ++ attribute_text (attribute_view cow_text attribute.now)) }
{
    push_named(text, " attribute", &attribute.0)?;
    push_optional(text, &attribute.1)
}

// Adds a text in quotation marks, if there is one.
fn push_optional(text: &mut String, words: &Option<CowStr>) -> Result<(), AllocError>
    ensures { OnOk result (string_bytes text.new
        ≡ string_bytes text.old ++ quoted_if (option_map cow_text words.now)) }
{
    match words {
        Some(words) => push_quoted(text, words),
        None => Ok(()),
    }
}

// Adds the info string of fenced code.
fn push_info(text: &mut String, kind: &CodeBlockKind) -> Result<(), AllocError>
    ensures { OnOk result (string_bytes text.new
        ≡ string_bytes text.old ++ quoted_if (info_view cow_text kind.now)) }
{
    match kind {
        CodeBlockKind::Fenced(info) => push_quoted(text, info),
        CodeBlockKind::Indented => Ok(()),
    }
}

// Adds the number of the first item of a list, if its items have numbers.
fn push_number(text: &mut String, number: Option<u64>) -> Result<(), AllocError>
    ensures { OnOk result (string_bytes text.new ≡ string_bytes text.old ++ number_text number) }
{
    match number {
        Some(number) => write!(text, " {number}"),
        None => Ok(()),
    }
}

// Adds the alignments of the columns of a table.
fn push_alignments(text: &mut String, alignments: &[Alignment]) -> Result<(), AllocError>
    ensures { OnOk result (string_bytes text.new
        ≡ string_bytes text.old ++ flat_map alignment_text alignments.now) }
{
    for alignment in alignments {
        push_word(text, alignment_name(*alignment))?;
    }
    Ok(())
}

/// An alignment.
pub(crate) fn alignment_name(alignment: Alignment) -> &'static str
    ensures { result.now ≡ alignment_name alignment }
{
    match alignment {
        Alignment::None => "none",
        Alignment::Left => "left",
        Alignment::Center => "center",
        Alignment::Right => "right",
    }
}

/// Adds how a link or an image is written, where it leads, its title, and its label unless it is
/// empty.
pub fn push_link(
    text: &mut String,
    kind: LinkType,
    destination: &CowStr,
    title: &CowStr,
    label: &CowStr,
) -> Result<(), AllocError>
    ensures { OnOk result (string_bytes text.new ≡ string_bytes text.old
        ++ link_text kind (cow_text destination.now) (cow_text title.now) (cow_text label.now)) }
{
    push_word(text, link_word(kind))?;
    push_quoted(text, destination)?;
    push_quoted(text, title)?;
    push_label(text, label)
}

/// How a link or an image is written.
pub(crate) fn link_word(kind: LinkType) -> &'static str
    ensures { result.now ≡ link_word kind }
{
    match kind {
        LinkType::Inline => "inline",
        LinkType::Reference => "reference",
        LinkType::ReferenceUnknown => "unknown reference",
        LinkType::Collapsed => "collapsed",
        LinkType::CollapsedUnknown => "unknown collapsed",
        LinkType::Shortcut => "shortcut",
        LinkType::ShortcutUnknown => "unknown shortcut",
        LinkType::Autolink => "autolink",
        LinkType::Email => "email",
        LinkType::WikiLink { has_pothole: true } => "piped wikilink",
        LinkType::WikiLink { has_pothole: false } => "wikilink",
    }
}

// Adds the label of a reference, unless it is empty.
fn push_label(text: &mut String, label: &CowStr) -> Result<(), AllocError>
    ensures { OnOk result (string_bytes text.new
        ≡ string_bytes text.old ++ label_text (cow_text label.now)) }
{
    if label.as_str().is_empty() {
        return Ok(());
    }
    push_quoted(text, label)
}
