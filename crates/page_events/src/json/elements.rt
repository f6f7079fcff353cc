//! What the objects of the start and the end of an element say.
ghost use Rattle.std.specs.Prelude.{◌≡◌, ◌++◌, OnOk, codes, map, string_bytes};
ghost use Rattle.markdown_values.specs.strings.Text.{cow_text};
ghost use Rattle.markdown_values.specs.values.Events.{end, start};
ghost use Rattle.markdown_values.specs.values.Tags.{attribute_view, info_view, tag_view};
ghost use Rattle.page_events.specs.Json.{alignment_json, array_member, attribute_json, element_members, event_members, kind_members};
ghost use Rattle.page_events.specs.Json.{label_member, link_members, number_member, start_members, text_json, text_member_if};

use crate::elements::{alert_name, element_name, link_word, metadata_name};
use crate::json::values::{push_array, push_text, push_text_if, push_word};
use markdown_values::strings::CowStr;
use markdown_values::values::{Alignment, CodeBlockKind, LinkType, Tag, TagEnd};
use std::alloc::{AllocError, Global};

/// Adds what the start of an element says.
pub(crate) fn push_start(alloc: Global, text: &mut String, tag: &Tag) -> Result<(), AllocError>
    ensures { OnOk result (string_bytes text.new
        ≡ string_bytes text.old ++ event_members (start (tag_view cow_text tag.now))) }
{
    push_element(text, tag.to_end())?;
    push_held(alloc, text, tag)
}

/// Adds what its end says, as its start does.
pub(crate) fn push_element(text: &mut String, tag: TagEnd) -> Result<(), AllocError>
    ensures { OnOk result (string_bytes text.new ≡ string_bytes text.old ++ element_members tag) }
{
    push_word(text, "element", element_name(tag))?;
    push_kind(text, tag)
}

// Adds the level of a heading, or the kind of an alert or of metadata.
fn push_kind(text: &mut String, tag: TagEnd) -> Result<(), AllocError>
    ensures { OnOk result (string_bytes text.new ≡ string_bytes text.old ++ kind_members tag) }
{
    match tag {
        TagEnd::Heading(level) => write!(text, ",\"level\":{}", level.number()),
        TagEnd::BlockQuote(Some(kind)) => push_word(text, "alert", alert_name(kind)),
        TagEnd::MetadataBlock(kind) => push_word(text, "style", metadata_name(kind)),
        _ => Ok(()),
    }
}

// Adds what only the start says.
fn push_held(alloc: Global, text: &mut String, tag: &Tag) -> Result<(), AllocError>
    ensures { OnOk result (string_bytes text.new
        ≡ string_bytes text.old ++ start_members (tag_view cow_text tag.now)) }
{
    match tag {
        Tag::Heading {
            id,
            classes,
            attrs,
            ..
        } => {
            push_text_if(alloc, text, "id", id)?;
            push_classes(alloc, text, classes)?;
            push_attributes(alloc, text, attrs)
        }
        Tag::CodeBlock(kind) => push_info(alloc, text, kind),
        Tag::List(number) => push_number(text, *number),
        Tag::FootnoteDefinition(label) => push_text(alloc, text, "label", label),
        Tag::Table(alignments) => push_columns(alloc, text, alignments),
        Tag::Link {
            link_type,
            dest_url,
            title,
            id,
        }
        | Tag::Image {
            link_type,
            dest_url,
            title,
            id,
        } => push_link_members(alloc, text, *link_type, dest_url, title, id),
        _ => Ok(()),
    }
}

// Adds the classes of a heading.
fn push_classes(alloc: Global, text: &mut String, classes: &[CowStr]) -> Result<(), AllocError>
    ensures { OnOk result (string_bytes text.new ≡ string_bytes text.old
        ++ array_member (codes "classes") text_json (map cow_text classes.now)) }
{
    push_array(alloc, text, "classes", classes)
}

// Adds its attributes.
fn push_attributes<'a>(
    alloc: Global,
    text: &mut String,
    attributes: &[(CowStr<'a>, Option<CowStr<'a>>)],
) -> Result<(), AllocError>
    ensures { OnOk result (string_bytes text.new ≡ string_bytes text.old
        ++ array_member (codes "attributes") attribute_json
        (map (attribute_view cow_text) attributes.now)) }
{
    push_array(alloc, text, "attributes", attributes)
}

// Adds the info string of fenced code.
fn push_info(alloc: Global, text: &mut String, kind: &CodeBlockKind) -> Result<(), AllocError>
    ensures { OnOk result (string_bytes text.new ≡ string_bytes text.old
        ++ text_member_if (codes "info") (info_view cow_text kind.now)) }
{
    match kind {
        CodeBlockKind::Fenced(info) => push_text(alloc, text, "info", info),
        CodeBlockKind::Indented => Ok(()),
    }
}

// Adds the number of the first item of a list, if its items have numbers.
fn push_number(text: &mut String, number: Option<u64>) -> Result<(), AllocError>
    ensures { OnOk result (string_bytes text.new ≡ string_bytes text.old ++ number_member number) }
{
    match number {
        Some(number) => write!(text, ",\"first\":{number}"),
        None => Ok(()),
    }
}

// Adds how the columns of a table are aligned.
fn push_columns(
    alloc: Global,
    text: &mut String,
    alignments: &[Alignment],
) -> Result<(), AllocError>
    ensures { OnOk result (string_bytes text.new ≡ string_bytes text.old
        ++ array_member (codes "columns") alignment_json alignments.now) }
{
    push_array(alloc, text, "columns", alignments)
}

/// Adds how a link or an image is written, where it leads, its title, and its label.
///
/// # Errors
///
/// `AllocError` where memory is refused.
pub fn push_link_members(
    alloc: Global,
    text: &mut String,
    kind: LinkType,
    destination: &CowStr,
    title: &CowStr,
    label: &CowStr,
) -> Result<(), AllocError>
    ensures { OnOk result (string_bytes text.new ≡ string_bytes text.old ++ link_members kind
        (cow_text destination.now) (cow_text title.now) (cow_text label.now)) }
{
    push_word(text, "type", link_word(kind))?;
    push_text(alloc, text, "destination", destination)?;
    push_text(alloc, text, "title", title)?;
    push_label(alloc, text, label)
}

// Adds the label of a reference, unless it is empty.
fn push_label(alloc: Global, text: &mut String, label: &CowStr) -> Result<(), AllocError>
    ensures { OnOk result (string_bytes text.new
        ≡ string_bytes text.old ++ label_member (cow_text label.now)) }
{
    if label.as_str().is_empty() {
        return Ok(());
    }
    push_text(alloc, text, "label", label)
}
