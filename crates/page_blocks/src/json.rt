//! Blocks and containers as JSON Lines.
ghost use Rattle.std.specs.Prelude.{◌≡◌, ◌++◌, [], None, OnOk, decimal, string_bytes};
ghost use Rattle.std.specs.Option.{option_map};
ghost use Rattle.page_blocks.specs.Json.{kind_json, container_json, front_json, marker_json, size_json};
ghost use Rattle.page_blocks.specs.Definition.{seen_definition};
ghost use Rattle.page_blocks.specs.Json.{definition_json, end_json, list_json, page_json, title_json, truth, written_json};
ghost use Rattle.markdown_blocks.specs.declared.blocks.BlockKind.TheVariants.{Definition as ADefinition, Fenced};

use crate::definition::Definition;
use crate::info::{push_byte, push_json_text, push_text_json};
use crate::printing::Front;
use markdown_blocks::blocks::BlockKind;
use markdown_blocks::containers::Container;
use markdown_blocks::info::info_of;
use markdown_blocks::lists::ListBlock;
use markdown_blocks::taken::Extent;
use std::alloc::{AllocError, Global};

/// Adds the front of an object: its lines, how many containers stand around, how many bytes of the
/// page before, where in its line it begins, the name of its kind.
pub(crate) fn push_front_json(text: &mut String, front: Front) -> Result<(), AllocError>
    ensures { OnOk result (string_bytes text.new ≡ string_bytes text.old ++ front_json front) }
{
    let (first, last, depth) = (front.first, front.last, front.depth);
    write!(
        text,
        "{{\"first\":{first},\"last\":{last},\"depth\":{depth}"
    )?;
    write!(
        text,
        ",\"offset\":{},\"column\":{},\"kind\":",
        front.offset, front.column
    )
}

/// Adds the object of the end of a container in so many others, after so much of the page.
pub(crate) fn push_end_json(text: &mut String, at: Extent, depth: usize) -> Result<(), AllocError>
    ensures { OnOk result (string_bytes text.new ≡ string_bytes text.old
        ++ end_json at.lines depth at.bytes) }
{
    write!(
        text,
        "{{\"last\":{},\"depth\":{depth},\"end\":{},\"kind\":\"end\"",
        at.lines, at.bytes
    )
}

/// Adds the object of a list.
pub(crate) fn push_list_json(text: &mut String, list: ListBlock) -> Result<(), AllocError>
    ensures { OnOk result (string_bytes text.new ≡ string_bytes text.old ++ list_json list) }
{
    let first = list.line as u128 + 1;
    write!(
        text,
        "{{\"first\":{first},\"last\":{},\"depth\":{}",
        list.end, list.depth
    )?;
    text.push_str(",\"kind\":\"list\"")?;
    push_marker_json(text, list.delimiter, list.start)?;
    text.push_str(",\"tight\":")?;
    text.push_str(truth(!list.is_loose))
}

// How JSON writes what holds or does not.
fn truth(holds: bool) -> &'static str
    ensures { result.now ≡ truth holds }
{
    if holds { "true" } else { "false" }
}

/// Adds the object of the name of a page.
pub(crate) fn push_page_json(alloc: Global, text: &mut String, name: &str) -> Result<(), AllocError>
    ensures { OnOk result (string_bytes text.new ≡ string_bytes text.old ++ page_json name.now) }
{
    text.push_str("{\"page\":\"")?;
    push_json_text(alloc, text, name.as_bytes())?;
    text.push_str("\"")
}

/// Adds how many bytes a block's lines have.
pub(crate) fn push_size_json(text: &mut String, bytes: usize) -> Result<(), AllocError>
    ensures { OnOk result (string_bytes text.new ≡ string_bytes text.old ++ size_json bytes) }
{
    write!(text, ",\"bytes\":{bytes}")
}

/// Adds the kind, and what is known of a block whose first line has this text, and in which this is
/// written.
pub(crate) fn push_kind_json(
    alloc: Global,
    text: &mut String,
    kind: BlockKind,
    words: &[u8],
    written: Option<Definition>,
) -> Result<(), AllocError>
    ensures { OnOk result (string_bytes text.new ≡ string_bytes text.old
        ++ kind_json kind words.now (option_map seen_definition written.entry)) }
{
    match kind {
        BlockKind::Blank => text.push_str("\"blank\""),
        BlockKind::Break => text.push_str("\"break\""),
        BlockKind::Heading(level) => push_number(text, "\"heading\",\"level\":", level.number()),
        BlockKind::Setext(level) => push_number(text, "\"setext\",\"level\":", level.number()),
        BlockKind::Indented => text.push_str("\"indented\""),
        BlockKind::Fenced(count, byte) => push_fenced(alloc, text, count, byte, words),
        BlockKind::Html(kind) => {
            push_number(text, "\"html\",\"condition\":", usize::from(kind.number()))
        }
        BlockKind::Table(columns) => write!(text, "\"table\",\"columns\":{columns}"),
        BlockKind::Definition => push_definition(alloc, text, written),
        BlockKind::Paragraph => text.push_str("\"paragraph\""),
    }
}

// Adds a number after a text.
fn push_number(text: &mut String, before: &str, number: usize) -> Result<(), AllocError>
    ensures { OnOk result (string_bytes text.new
        ≡ string_bytes text.old ++ (before.now ++ decimal number)) }
{
    text.push_str(before)?;
    write!(text, "{number}")
}

// Adds what is known of fenced code.
fn push_fenced(
    alloc: Global,
    text: &mut String,
    count: usize,
    byte: u8,
    words: &[u8],
) -> Result<(), AllocError>
    ensures { OnOk result (string_bytes text.new
        ≡ string_bytes text.old ++ kind_json (Fenced count byte) words.now None) }
{
    write!(text, "\"fenced\",\"count\":{count},\"fence\":\"")?;
    push_byte(text, byte)?;
    text.push_str("\"")?;
    push_text_json(alloc, text, "info", info_of(words, byte))
}

// Adds what is known of a definition.
fn push_definition(
    alloc: Global,
    text: &mut String,
    written: Option<Definition>,
) -> Result<(), AllocError>
    ensures { OnOk result (string_bytes text.new ≡ string_bytes text.old
        ++ kind_json ADefinition [] (option_map seen_definition written.entry)) }
{
    text.push_str("\"definition\"")?;
    push_written(alloc, text, written)
}

// Adds what is written in a definition, if it is known.
fn push_written(
    alloc: Global,
    text: &mut String,
    written: Option<Definition>,
) -> Result<(), AllocError>
    ensures { OnOk result (string_bytes text.new ≡ string_bytes text.old
        ++ definition_json (option_map seen_definition written.entry)) }
{
    match written {
        Some(written) => push_parts(alloc, text, written),
        None => Ok(()),
    }
}

// Adds the label of a definition, its destination, and its title, if it has one.
fn push_parts(alloc: Global, text: &mut String, written: Definition) -> Result<(), AllocError>
    ensures { OnOk result (string_bytes text.new
        ≡ string_bytes text.old ++ written_json (seen_definition written.entry)) }
{
    push_text_json(alloc, text, "label", written.label)?;
    push_text_json(alloc, text, "destination", written.destination)?;
    push_title(alloc, text, written.title)
}

// Adds the title of a definition, if it has one.
fn push_title(alloc: Global, text: &mut String, title: Option<&[u8]>) -> Result<(), AllocError>
    ensures { OnOk result (string_bytes text.new ≡ string_bytes text.old
        ++ title_json (option_map (λ title. title.now) title.entry)) }
{
    match title {
        Some(title) => push_text_json(alloc, text, "title", title),
        None => Ok(()),
    }
}

/// Adds the kind of a container, with what is known of its marker.
pub(crate) fn push_container_json(text: &mut String, container: Container) -> Result<(), AllocError>
    ensures { OnOk result (string_bytes text.new
        ≡ string_bytes text.old ++ container_json container) }
{
    match container {
        Container::Quote => text.push_str("\"quote\""),
        Container::Footnote => text.push_str("\"footnote\""),
        Container::TermDefinition(definition) => {
            write!(text, "\"term_definition\",\"indent\":{}", definition.width)
        }
        Container::Item(item) => {
            text.push_str("\"item\"")?;
            push_marker_json(text, item.delimiter, item.start)?;
            write!(text, ",\"indent\":{}", item.width)
        }
    }
}

// Adds a bullet or delimiter, and the number that it starts at.
fn push_marker_json(text: &mut String, delimiter: u8, start: u32) -> Result<(), AllocError>
    ensures { OnOk result (string_bytes text.new
        ≡ string_bytes text.old ++ marker_json delimiter start) }
{
    write!(
        text,
        ",\"delimiter\":\"{}\",\"start\":{start}",
        char::from(delimiter)
    )
}
