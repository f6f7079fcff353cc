//! The printed lines of blocks and containers.
ghost use Rattle.std.specs.Prelude.{◌≡◌, ◌++◌, IfOk, OnOk, string_bytes};
ghost use Rattle.std.specs.Option.{option_map};
ghost use Rattle.markdown_blocks.specs.events.Events.{seen_leaf};
ghost use Rattle.page_blocks.specs.Definition.{seen_definition};
ghost use Rattle.page_blocks.specs.Printed.{kind_printed, container_printed, front_printed, size_printed, line_end};
ghost use Rattle.page_blocks.specs.Printed.{column_of, position_of, container_line, end_line, leaf_line, list_line};
ghost use Rattle.page_blocks.specs.Printed.{kind_text, container_text, fence_text, info_text, list_text, tightness, title_of};

use crate::arguments::Form;
use crate::definition::Definition;
use crate::info::push_bytes;
use crate::json::{
    push_container_json, push_end_json, push_front_json, push_kind_json, push_list_json,
    push_page_json, push_size_json,
};
use markdown_blocks::blocks::BlockKind;
use markdown_blocks::containers::Container;
use markdown_blocks::events::Leaf;
use markdown_blocks::info::info_of;
use markdown_blocks::lists::ListBlock;
use markdown_blocks::taken::Extent;
use std::alloc::{AllocError, Global};

/// What stands at the front of a line: the first line and the last one of what it is about, how many
/// containers stand around that, how many bytes of the page before its first line, and with which
/// byte of that line it begins, counted from 1.
#[derive(Clone, Copy)]
pub(crate) struct Front {
    pub(crate) first: u128,
    pub(crate) last: u128,
    pub(crate) depth: usize,
    pub(crate) offset: usize,
    pub(crate) column: u128,
}

/// Adds the line, in this form, of a leaf block in so many containers, with what is written in the
/// definition that it is.
pub(crate) fn push_leaf(
    alloc: Global,
    text: &mut String,
    form: Form,
    depth: usize,
    leaf: Leaf,
    written: Option<Definition>,
) -> Result<(), AllocError>
    ensures { OnOk result (string_bytes text.new ≡ string_bytes text.old
        ++ leaf_line form depth (seen_leaf leaf.entry) (option_map seen_definition written.entry)) }
{
    let front = Front {
        first: leaf.line as u128 + 1,
        last: leaf.line as u128 + leaf.lines as u128,
        depth,
        offset: leaf.start,
        column: column_of(leaf.start, leaf.offset),
    };
    push_front(text, form, front)?;
    push_kind(alloc, text, form, leaf.kind, leaf.text, written)?;
    push_size(text, form, leaf.bytes)?;
    push_line_end(text, form)
}

/// Adds the line, in this form, of a container in so many others, whose marker stands after so many
/// bytes of the page, and its line after so much of it.
pub(crate) fn push_container(
    text: &mut String,
    form: Form,
    at: Extent,
    depth: usize,
    container: Container,
    marker: usize,
) -> Result<(), AllocError>
    ensures { OnOk result (string_bytes text.new ≡ string_bytes text.old
        ++ container_line form (position_of at) depth container marker) }
{
    let front = Front {
        first: at.lines as u128 + 1,
        last: at.lines as u128 + 1,
        depth,
        offset: at.bytes,
        column: column_of(at.bytes, marker),
    };
    push_front(text, form, front)?;
    push_marker(text, form, container)?;
    push_line_end(text, form)
}

/// Adds the line, in this form, of the end of a container in so many others, after so much of the
/// page: by words there is none.
pub(crate) fn push_end(
    text: &mut String,
    form: Form,
    at: Extent,
    depth: usize,
) -> Result<(), AllocError>
    ensures { OnOk result (string_bytes text.new
        ≡ string_bytes text.old ++ end_line form (position_of at) depth) }
{
    match form {
        Form::Words => Ok(()),
        Form::Json => {
            push_end_json(text, at, depth)?;
            push_line_end(text, form)
        }
    }
}

/// Adds the line, in this form, of a list.
pub(crate) fn push_list(text: &mut String, form: Form, list: ListBlock) -> Result<(), AllocError>
    ensures { OnOk result (string_bytes text.new ≡ string_bytes text.old ++ list_line form list) }
{
    match form {
        Form::Words => push_list_text(text, list)?,
        Form::Json => push_list_json(text, list)?,
    }
    push_line_end(text, form)
}

/// What is printed before the lines of the page of this name, of so many pages: as JSON its name, where
/// there are two or more.
pub(crate) fn make_title(
    alloc: Global,
    form: Form,
    pages: usize,
    name: &str,
) -> Result<String, AllocError>
    ensures { IfOk result (λ title. string_bytes title ≡ title_of form pages name.now) }
{
    let mut title = String::new(alloc);
    match form {
        Form::Json if pages > 1 => {
            push_page_json(alloc, &mut title, name)?;
            push_line_end(&mut title, form)?;
        }
        _ => {}
    }
    Ok(title)
}

// Adds the lines of a list, how many containers stand around it, its kind, and what is known of it.
fn push_list_text(text: &mut String, list: ListBlock) -> Result<(), AllocError>
    ensures { OnOk result (string_bytes text.new ≡ string_bytes text.old ++ list_text list) }
{
    let first = list.line as u128 + 1;
    write!(text, "{first} {} {} list ", list.end, list.depth)?;
    write!(text, "{} {} ", char::from(list.delimiter), list.start)?;
    text.push_str(tightness(list.is_loose))
}

// The word for a list that is loose, or is not.
fn tightness(is_loose: bool) -> &'static str
    ensures { result.now ≡ tightness is_loose }
{
    if is_loose { "loose" } else { "tight" }
}

// With which byte of a line the offset begins, counted from 1, where the line begins there.
fn column_of(start: usize, position: usize) -> u128
    ensures { result ≡ column_of start position }
{
    position.saturating_sub(start) as u128 + 1
}

// Adds what stands at the front of a line.
fn push_front(text: &mut String, form: Form, front: Front) -> Result<(), AllocError>
    ensures { OnOk result (string_bytes text.new ≡ string_bytes text.old
        ++ front_printed form front) }
{
    match form {
        Form::Words => write!(text, "{} {} {} ", front.first, front.last, front.depth),
        Form::Json => push_front_json(text, front),
    }
}

// Adds how many bytes a block's lines have.
fn push_size(text: &mut String, form: Form, bytes: usize) -> Result<(), AllocError>
    ensures { OnOk result (string_bytes text.new
        ≡ string_bytes text.old ++ size_printed form bytes) }
{
    match form {
        Form::Words => Ok(()),
        Form::Json => push_size_json(text, bytes),
    }
}

// Adds what a line ends with.
fn push_line_end(text: &mut String, form: Form) -> Result<(), AllocError>
    ensures { OnOk result (string_bytes text.new ≡ string_bytes text.old ++ line_end form) }
{
    match form {
        Form::Words => text.push_str("\n"),
        Form::Json => text.push_str("}\n"),
    }
}

// Adds a kind, with what is known of a block whose first line has this text, and in which this is
// written.
fn push_kind(
    alloc: Global,
    text: &mut String,
    form: Form,
    kind: BlockKind,
    words: &[u8],
    written: Option<Definition>,
) -> Result<(), AllocError>
    ensures { OnOk result (string_bytes text.new ≡ string_bytes text.old
        ++ kind_printed form kind words.now (option_map seen_definition written.entry)) }
{
    match form {
        Form::Words => push_kind_text(text, kind, words),
        Form::Json => push_kind_json(alloc, text, kind, words, written),
    }
}

// Adds a container, with what is known of its marker.
fn push_marker(text: &mut String, form: Form, container: Container) -> Result<(), AllocError>
    ensures { OnOk result (string_bytes text.new
        ≡ string_bytes text.old ++ container_printed form container) }
{
    match form {
        Form::Words => push_container_text(text, container),
        Form::Json => push_container_json(text, container),
    }
}

// Adds the word for a container, with what is known of its marker.
fn push_container_text(text: &mut String, container: Container) -> Result<(), AllocError>
    ensures { OnOk result (string_bytes text.new
        ≡ string_bytes text.old ++ container_text container) }
{
    match container {
        Container::Quote => text.push_str("quote"),
        Container::Footnote => text.push_str("footnote"),
        Container::TermDefinition(_) => text.push_str("term_definition"),
        Container::Item(item) => {
            write!(text, "item {} {}", char::from(item.delimiter), item.start)
        }
    }
}

// Adds the word for a kind, with what is known of the block.
fn push_kind_text(text: &mut String, kind: BlockKind, words: &[u8]) -> Result<(), AllocError>
    ensures { OnOk result (string_bytes text.new
        ≡ string_bytes text.old ++ kind_text kind words.now) }
{
    match kind {
        BlockKind::Blank => text.push_str("blank"),
        BlockKind::Break => text.push_str("break"),
        BlockKind::Heading(level) => write!(text, "heading {}", level.number()),
        BlockKind::Setext(level) => write!(text, "setext {}", level.number()),
        BlockKind::Indented => text.push_str("indented"),
        BlockKind::Fenced(count, byte) => push_fenced(text, count, byte, info_of(words, byte)),
        BlockKind::Html(kind) => write!(text, "html {}", kind.number()),
        BlockKind::Table(columns) => write!(text, "table {columns}"),
        BlockKind::Definition => text.push_str("definition"),
        BlockKind::Paragraph => text.push_str("paragraph"),
    }
}

// Adds what is known of fenced code.
fn push_fenced(text: &mut String, count: usize, byte: u8, info: &[u8]) -> Result<(), AllocError>
    ensures { OnOk result (string_bytes text.new
        ≡ string_bytes text.old ++ fence_text count byte info.now) }
{
    write!(text, "fenced {count} {}", char::from(byte))?;
    push_info(text, info)
}

// Adds an info string after a space, unless it is empty.
fn push_info(text: &mut String, info: &[u8]) -> Result<(), AllocError>
    ensures { OnOk result (string_bytes text.new ≡ string_bytes text.old ++ info_text info.now) }
{
    if info.is_empty() {
        return Ok(());
    }
    text.push_str(" ")?;
    push_bytes(text, info)
}
