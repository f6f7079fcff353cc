//! The inlines of a text. (CommonMark 0.31.2, chapter 6)
ghost use Rattle.std.specs.Prelude.{◌≡◌, ◌<◌, ◌+◌, ◌-◌, ◌^◌, List, Option, map, IfOk, IfSome};
ghost use Rattle.std.specs.List.{All};
ghost use Rattle.markdown_inlines.specs.Output.{AreInlines};
ghost use Rattle.markdown_inlines.specs.declared.inlines.Inline.{Inline as Found};
ghost use Rattle.markdown_inlines.specs.declared.links.Link.{Link};
ghost use Rattle.markdown_scanners_c.specs.Buffer.{IsWritten};
ghost use Rattle.markdown_scanners_c.specs.Inlines.{IsTextReturned, backticks_of, end_number, inline_at, inline_returned};
ghost use Rattle.markdown_scanners_c.specs.Inlines.{length_of, link_returned, piece_number, piece_returned, start_number};
ghost use Rattle.markdown_scanners_c.specs.Inlines.{title_length, title_start, with_label, with_target};
ghost use Rattle.markdown_scanners_c.specs.KnownLabels.{known_in};
ghost use Rattle.markdown_scanners_c.specs.private.LabelRoom.{AreRoomy, HasRoom};

use crate::extensions::{are_extensions, extensions_of};
use crate::known_labels::{KnownLabels, View, are_texts};
use crate::status::{BAD_KIND, NO_MEMORY, NONE, NOT_UTF8, OK, TOO_SHORT};
use markdown_inlines::inlines::{Inline as Found, find_inlines};
use markdown_inlines::links::{Link, LinkTarget, Links};
use markdown_inlines::pieces::{Piece, PieceKind};
use markdown_values::values::Extensions;
use std::alloc::{AllocError, Global};
use std::ops::Range;

const TEXT: u32 = 0;

const ESCAPE: u32 = 1;

const REFERENCE: u32 = 2;

const CODE: u32 = 3;

const URI: u32 = 4;

const EMAIL: u32 = 5;

const HTML: u32 = 6;

const SOFT_BREAK: u32 = 7;

const HARD_BREAK: u32 = 8;

const EMPHASIS: u32 = 9;

const EMPHASIS_END: u32 = 10;

const STRONG: u32 = 11;

const STRONG_END: u32 = 12;

const LINK: u32 = 13;

const IMAGE: u32 = 14;

const LINK_END: u32 = 15;

const STRIKETHROUGH: u32 = 16;

const STRIKETHROUGH_END: u32 = 17;

const INLINE: u32 = 1;

const FULL: u32 = 2;

const COLLAPSED: u32 = 3;

const SHORTCUT: u32 = 4;

const WIKI: u32 = 5;

/// `struct mds_inline` of C: an inline of a text, or where one that holds others begins or ends.
#[repr(C)]
#[derive(Clone, Copy)]
pub struct Inline {
    pub kind: u32,
    pub target: u32,
    pub start: usize,
    pub length: usize,
    pub count: usize,
    pub end: usize,
    pub destination_start: usize,
    pub destination_length: usize,
    pub title_start: usize,
    pub title_length: usize,
    pub label_start: usize,
    pub label_length: usize,
}

/// `struct mds_inlines` of C: how many inlines are written, or need room.
#[repr(C)]
pub struct InlineCount {
    pub status: u32,
    pub count: usize,
}

/// Writes the inlines of the content of a block, in order, where these labels are defined and these
/// extensions are asked for.
#[tactic(auto, unfolding(crate::specs::Inlines::IsTextReturned))]
#[unsafe(no_mangle)]
pub extern "C" fn mds_scan_inlines(
    alloc: Global,
    text: &[u8],
    labels: &[View<'_>],
    extensions: u32,
    inlines: &mut [Inline],
) -> InlineCount
    ensures inlines { IsTextReturned text.now labels.now extensions inlines.old inlines.new result }
{
    if !are_extensions(extensions) {
        return no_inlines(BAD_KIND);
    }
    let Ok(text) = str::from_utf8(text) else {
        return no_inlines(NOT_UTF8);
    };
    if !are_texts(labels) {
        return no_inlines(NOT_UTF8);
    }
    match returned_inlines(alloc, text, labels, extensions_of(extensions)) {
        Ok(returned) => write_inlines(&returned, inlines),
        Err(_) => no_inlines(NO_MEMORY),
    }
}

// No inlines, but a status.
fn no_inlines(status: u32) -> InlineCount
    ensures { result ≡ record { status = status; count = 0 } }
{
    InlineCount { status, count: 0 }
}

// The inlines of a text.
fn returned_inlines(
    alloc: Global,
    text: &str,
    labels: &[View<'_>],
    asked: Extensions,
) -> Result<Vec<Inline>, AllocError>
    ensures { IfOk result (λ returned. (inlines : List Found) × (links : List (Option Link))
        × AreInlines text.now (record { asked = asked; known = known_in labels.now }) inlines links
        × (returned.items ≡ map (inline_returned links) inlines)) }
{
    let known = KnownLabels::new(alloc, labels)?;
    let found = find_inlines(alloc, text, &known, asked)?;
    inlines_returned(alloc, &found.links, &found.inlines)
}

// The inlines with these links, as C has them.
fn inlines_returned(
    alloc: Global,
    links: &Links,
    inlines: &[Found],
) -> Result<Vec<Inline>, AllocError>
    requires { AreRoomy links.now }
    ensures { IfOk result (λ returned. returned.items
        ≡ map (inline_returned links.now) inlines.now) }
{
    let mut returned = Vec::new(alloc);
    for inline in inlines {
        returned.push(inline_returned(links, *inline))?;
    }
    Ok(returned)
}

// Writes the inlines at the front of the buffer, where there is room for them.
fn write_inlines(returned: &[Inline], inlines: &mut [Inline]) -> InlineCount
    ensures { IsWritten returned.now inlines.old inlines.new result.status result.count }
{
    let count = returned.len();
    if count > inlines.len() {
        return InlineCount {
            status: TOO_SHORT,
            count,
        };
    }
    inlines[..count].copy_from_slice(returned);
    InlineCount { status: OK, count }
}

// An inline as C has it, by the links of its text.
fn inline_returned(links: &Links, inline: Found) -> Inline
    requires { AreRoomy links.now }
    ensures { result ≡ inline_returned links.now inline }
{
    match inline {
        Found::Leaf(piece) => piece_returned(piece),
        Found::StartEmphasis(offset, count) => inline_at(start_number(count), offset, count),
        Found::EndEmphasis(offset, count) => inline_at(end_number(count), offset, count),
        Found::StartStrikethrough(offset, count) => inline_at(STRIKETHROUGH, offset, count),
        Found::EndStrikethrough(offset, count) => inline_at(STRIKETHROUGH_END, offset, count),
        Found::StartLink(number) => match links.get(number) {
            Some(link) => link_returned(link),
            None => inline_at(TEXT, 0, 0),
        },
        Found::EndLink(piece) => {
            inline_at(LINK_END, piece.start, piece.end.saturating_sub(piece.start))
        }
    }
}

// An inline of this kind, with so many bytes at the offset, which leads nowhere.
fn inline_at(kind: u32, start: usize, length: usize) -> Inline
    ensures { result ≡ inline_at kind start length }
{
    Inline {
        kind,
        target: 0,
        start,
        length,
        count: 0,
        end: 0,
        destination_start: 0,
        destination_length: 0,
        title_start: 0,
        title_length: 0,
        label_start: 0,
        label_length: 0,
    }
}

// A piece that holds no other inlines.
fn piece_returned(piece: Piece) -> Inline
    ensures { result ≡ piece_returned piece }
{
    let length = piece.end.saturating_sub(piece.start);
    Inline {
        count: backticks_of(piece.kind),
        ..inline_at(piece_number(piece.kind), piece.start, length)
    }
}

// The kind of a piece, as C has it.
fn piece_number(kind: PieceKind) -> u32
    ensures { result ≡ piece_number kind }
{
    match kind {
        PieceKind::Escape => ESCAPE,
        PieceKind::Reference => REFERENCE,
        PieceKind::Code(_) => CODE,
        PieceKind::Uri => URI,
        PieceKind::Email => EMAIL,
        PieceKind::Html => HTML,
        PieceKind::SoftBreak => SOFT_BREAK,
        PieceKind::HardBreak => HARD_BREAK,
        _ => TEXT,
    }
}

// How many backticks stand on each side of the content of a code span.
fn backticks_of(kind: PieceKind) -> usize
    ensures { result ≡ backticks_of kind }
{
    match kind {
        PieceKind::Code(backticks) => backticks,
        _ => 0,
    }
}

// What begins with so many delimiters.
fn start_number(count: usize) -> u32
    ensures { result ≡ start_number count }
{
    if count == 2 { STRONG } else { EMPHASIS }
}

// What ends with so many delimiters.
fn end_number(count: usize) -> u32
    ensures { result ≡ end_number count }
{
    if count == 2 { STRONG_END } else { EMPHASIS_END }
}

// The opener of a link or an image, with where all of it ends and where it leads.
fn link_returned(link: &Link) -> Inline
    requires { HasRoom link.now }
    ensures { result ≡ link_returned link.now }
{
    let kind = if link.is_image { IMAGE } else { LINK };
    let length = link.text.start.saturating_sub(link.source.start);
    let returned = Inline {
        end: link.source.end,
        ..inline_at(kind, link.source.start, length)
    };
    with_target(link, returned)
}

// With where the link leads.
fn with_target(link: &Link, returned: Inline) -> Inline
    requires { HasRoom link.now }
    ensures { result ≡ with_target link.now.text link.now.target returned }
{
    let text = &link.text;
    match &link.target {
        LinkTarget::Inline(destination, title) => Inline {
            target: INLINE,
            destination_start: destination.start,
            destination_length: length_of(destination),
            title_start: title_start(title),
            title_length: title_length(title),
            ..returned
        },
        LinkTarget::Full(label) => {
            let length = length_of(label).saturating_sub(2);
            with_label(FULL, label.start + 1, length, returned)
        }
        LinkTarget::Collapsed => with_label(COLLAPSED, text.start, length_of(text), returned),
        LinkTarget::Shortcut => with_label(SHORTCUT, text.start, length_of(text), returned),
        LinkTarget::Wiki(target) => Inline {
            target: WIKI,
            destination_start: target.start,
            destination_length: length_of(target),
            ..returned
        },
    }
}

// With what stands between the brackets of the link's label.
fn with_label(target: u32, start: usize, length: usize, returned: Inline) -> Inline
    ensures { result ≡ with_label target start length returned }
{
    Inline {
        target,
        label_start: start,
        label_length: length,
        ..returned
    }
}

// Where a title stands, if there is one.
fn title_start(title: &Option<Range<usize>>) -> usize
    ensures { result ≡ title_start title.now }
{
    match title {
        Some(title) => title.start,
        None => NONE,
    }
}

// How many bytes a title has.
fn title_length(title: &Option<Range<usize>>) -> usize
    ensures { result ≡ title_length title.now }
{
    match title {
        Some(title) => length_of(title),
        None => 0,
    }
}

fn length_of(range: &Range<usize>) -> usize
    ensures { result ≡ length_of range.now }
{
    range.end.saturating_sub(range.start)
}
