//! The lines of blocks and of their inlines.
ghost use Rattle.std.specs.Prelude.{◌≡◌, ◌++◌, ◌+◌, ◌<◌, IsTrue, List, ℕ, length, slice_range, OnOk, string_bytes};
ghost use Rattle.markdown_blocks.specs.events.Events.{seen_leaf};
ghost use Rattle.page_blocks.specs.Printed.{kind_text};
ghost use Rattle.page_inlines.specs.Lines.{has_inlines, block_line, offset_of, front, span, quoted, piece_word};
ghost use Rattle.page_inlines.specs.Lines.{emphasis_word, title_text, target_text, link_word, link_text, opened_text};
ghost use Rattle.page_inlines.specs.Lines.{emphasis_text, piece_text, end_text, inline_line};

use markdown_blocks::blocks::BlockKind;
use markdown_blocks::content::Content;
use markdown_blocks::events::Leaf;
use markdown_inlines::inlines::Inline;
use markdown_inlines::links::{Link, LinkTarget, Links};
use markdown_inlines::pieces::{Piece, PieceKind};
use page_blocks::info::push_bytes;
use std::alloc::AllocError;
use std::ops::Range;

const STRIKETHROUGH: &str = "strikethrough";

/// Whether a block of this kind has inlines.
pub(crate) fn has_inlines(kind: BlockKind) -> bool
    ensures { result ≡ has_inlines kind }
{
    matches!(
        kind,
        BlockKind::Heading(_) | BlockKind::Setext(_) | BlockKind::Paragraph
    )
}

/// Adds the line of a block that has inlines, in so many containers.
pub(crate) fn push_block_line(text: &mut String, depth: usize, leaf: Leaf) -> Result<(), AllocError>
    ensures { OnOk result (IsTrue (has_inlines leaf.entry.kind) → string_bytes text.new
        ≡ string_bytes text.old ++ block_line depth (seen_leaf leaf.entry)) }
{
    let first = leaf.line as u128 + 1;
    let last = leaf.line as u128 + leaf.lines as u128;
    write!(text, "{first} {last} {depth} ")?;
    push_kind(text, leaf.kind)?;
    text.push_str("\n")
}

// Adds the word for a block that has inlines.
fn push_kind(text: &mut String, kind: BlockKind) -> Result<(), AllocError>
    ensures { OnOk result (IsTrue (has_inlines kind) → (first : List ℕ)
        → string_bytes text.new ≡ string_bytes text.old ++ kind_text kind first) }
{
    match kind {
        BlockKind::Heading(level) => write!(text, "heading {}", level.number()),
        BlockKind::Setext(level) => write!(text, "setext {}", level.number()),
        _ => text.push_str("paragraph"),
    }
}

/// Adds the line of an inline of a content with these links, before whose block so many bytes of the
/// page stand.
pub(crate) fn push_inline(
    text: &mut String,
    start: usize,
    content: &Content,
    links: &Links,
    inline: Inline,
) -> Result<(), AllocError>
    requires { length content.now.offsets ≡ length content.now.text }
    ensures { OnOk result (string_bytes text.new
        ≡ string_bytes text.old ++ inline_line start content.now links.now inline) }
{
    match inline {
        Inline::Leaf(piece) => push_piece(text, start, content, piece),
        Inline::StartEmphasis(offset, count) => {
            let kind = emphasis_word(count);
            push_emphasis(text, "start ", kind, start, content, offset, count)
        }
        Inline::EndEmphasis(offset, count) => {
            let kind = emphasis_word(count);
            push_emphasis(text, "end ", kind, start, content, offset, count)
        }
        Inline::StartStrikethrough(offset, count) => {
            push_emphasis(text, "start ", STRIKETHROUGH, start, content, offset, count)
        }
        Inline::EndStrikethrough(offset, count) => {
            push_emphasis(text, "end ", STRIKETHROUGH, start, content, offset, count)
        }
        Inline::StartLink(number) => match links.get(number) {
            Some(link) => push_link(text, start, content, link),
            None => Ok(()),
        },
        Inline::EndLink(piece) => push_end(text, start, content, piece),
    }
}

// Adds the line of a piece that holds no others.
fn push_piece(
    text: &mut String,
    start: usize,
    content: &Content,
    piece: Piece,
) -> Result<(), AllocError>
    requires { length content.now.offsets ≡ length content.now.text }
    ensures { OnOk result (string_bytes text.new
        ≡ string_bytes text.old ++ piece_text start content.now piece) }
{
    push_span(text, start, content, piece.start, piece.end)?;
    text.push_str(piece_word(piece.kind))?;
    push_quoted(text, content.text(), piece.start, piece.end)?;
    text.push_str("\n")
}

// The word for a piece that holds no others.
fn piece_word(kind: PieceKind) -> &'static str
    ensures { result.now ≡ piece_word kind }
{
    match kind {
        PieceKind::Escape => "escape",
        PieceKind::HardBreak => "hard break",
        PieceKind::SoftBreak => "soft break",
        PieceKind::Reference => "reference",
        PieceKind::Code(_) => "code",
        PieceKind::Uri => "uri",
        PieceKind::Email => "email",
        PieceKind::Html => "html",
        _ => "text",
    }
}

// Adds the line of the start or end of emphasis or strikethrough with so many delimiters.
fn push_emphasis(
    text: &mut String,
    word: &str,
    kind: &str,
    start: usize,
    content: &Content,
    offset: usize,
    count: usize,
) -> Result<(), AllocError>
    requires { length content.now.offsets ≡ length content.now.text }
    ensures { OnOk result (string_bytes text.new
        ≡ string_bytes text.old ++ emphasis_text word.now kind.now start content.now offset count) }
{
    let from = offset_of(start, content, offset);
    push_front(text, from, from + count as u128)?;
    text.push_str(word)?;
    text.push_str(kind)?;
    text.push_str("\n")
}

// The word for emphasis with so many delimiters on each side.
fn emphasis_word(count: usize) -> &'static str
    ensures { result.now ≡ emphasis_word count }
{
    if count == 2 { "strong" } else { "emphasis" }
}

// Adds the line of the start of a link or an image.
fn push_link(
    text: &mut String,
    start: usize,
    content: &Content,
    link: &Link,
) -> Result<(), AllocError>
    requires { length content.now.offsets ≡ length content.now.text }
    ensures { OnOk result (string_bytes text.new
        ≡ string_bytes text.old ++ link_text start content.now link.now) }
{
    push_span(text, start, content, link.source.start, link.text.start)?;
    text.push_str(link_word(link.is_image))?;
    push_target(text, content.text(), &link.text, &link.target)?;
    text.push_str("\n")
}

// The word for the start of a link or an image.
fn link_word(is_image: bool) -> &'static str
    ensures { result.now ≡ link_word is_image }
{
    if is_image {
        "start image"
    } else {
        "start link"
    }
}

// Adds where a link with this link text leads.
fn push_target(
    text: &mut String,
    content: &[u8],
    words: &Range<usize>,
    target: &LinkTarget,
) -> Result<(), AllocError>
    ensures { OnOk result (string_bytes text.new
        ≡ string_bytes text.old ++ target_text content.now words.now target.now) }
{
    match target {
        LinkTarget::Inline(destination, title) => {
            text.push_str(" inline")?;
            push_quoted(text, content, destination.start, destination.end)?;
            push_title(text, content, title)
        }
        LinkTarget::Full(label) => {
            text.push_str(" full")?;
            push_quoted(text, content, label.start, label.end)
        }
        LinkTarget::Collapsed => {
            text.push_str(" collapsed")?;
            push_quoted(text, content, words.start, words.end)
        }
        LinkTarget::Shortcut => {
            text.push_str(" shortcut")?;
            push_quoted(text, content, words.start, words.end)
        }
        LinkTarget::Wiki(target) => {
            text.push_str(" wikilink")?;
            push_quoted(text, content, target.start, target.end)
        }
    }
}

// Adds a title, if there is one.
fn push_title(
    text: &mut String,
    content: &[u8],
    title: &Option<Range<usize>>,
) -> Result<(), AllocError>
    ensures { OnOk result (string_bytes text.new
        ≡ string_bytes text.old ++ title_text content.now title.now) }
{
    match title {
        Some(title) => push_quoted(text, content, title.start, title.end),
        None => Ok(()),
    }
}

// Adds the line of the end of a link or an image.
fn push_end(
    text: &mut String,
    start: usize,
    content: &Content,
    piece: Piece,
) -> Result<(), AllocError>
    requires { length content.now.offsets ≡ length content.now.text }
    ensures { OnOk result (string_bytes text.new
        ≡ string_bytes text.old ++ end_text start content.now piece) }
{
    push_span(text, start, content, piece.start, piece.end)?;
    text.push_str("end link\n")
}

// Adds where what stands in a content from one offset up to another begins and ends in the page.
fn push_span(
    text: &mut String,
    start: usize,
    content: &Content,
    from: usize,
    to: usize,
) -> Result<(), AllocError>
    requires { length content.now.offsets ≡ length content.now.text }
    ensures { OnOk result (string_bytes text.new
        ≡ string_bytes text.old ++ span start content.now from to) }
{
    let last = offset_of(start, content, to.saturating_sub(1));
    push_front(text, offset_of(start, content, from), last + 1)
}

// Adds where it begins and ends.
fn push_front(text: &mut String, from: u128, to: u128) -> Result<(), AllocError>
    ensures { OnOk result (string_bytes text.new ≡ string_bytes text.old ++ front from to) }
{
    write!(text, "  {from} {to} ")
}

// How many bytes of the page stand before the byte at an offset of a content.
fn offset_of(start: usize, content: &Content, offset: usize) -> u128
    requires { length content.now.offsets ≡ length content.now.text }
    ensures offset { result ≡ offset_of start content.now offset }
    ensures within { result + 1 < 36893488147419103232 }
{
    if offset < content.text().len() {
        return start as u128 + content.source_offset(offset) as u128;
    }
    start as u128
}

// Adds the bytes from one offset up to another, in quotation marks.
fn push_quoted(text: &mut String, bytes: &[u8], from: usize, to: usize) -> Result<(), AllocError>
    ensures { OnOk result (string_bytes text.new
        ≡ string_bytes text.old ++ quoted bytes.now from to) }
{
    text.push_str(" \"")?;
    push_bytes(text, part_of(bytes, from, to))?;
    text.push_str("\"")
}

/// The bytes from one offset up to another, as far as there are some.
pub(crate) fn part_of(bytes: &[u8], from: usize, to: usize) -> &[u8]
    ensures { result.now ≡ slice_range bytes.now from to }
{
    if from >= bytes.len() {
        return &[];
    }
    let rest = &bytes[from..];
    &rest[..to.saturating_sub(from).min(rest.len())]
}
