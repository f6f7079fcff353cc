//! The metadata block that a page may begin with. (No part of CommonMark.)
ghost use Rattle.std.specs.Prelude.{◌≡◌, ◌<◌, ◌≤◌, ℕ, length, IfSome, IfNone};
ghost use Rattle.markdown_scanners_tree.specs.SomeExactly.{SomeExactly};
ghost use Rattle.markdown_scanners_tree.specs.scanners.Metadata.{IsMetadataBlock};
ghost use Rattle.markdown_blocks.specs.byte_order_mark.ByteOrderMark.{text_of};
ghost use Rattle.markdown_blocks.specs.metadata.Metadata.{ClosesAt, IsMetadata, IsTextMetadata, style_of};

use crate::byte_order_mark::text_start;
use markdown_scanners_tree::scanners::{
    scan_closing_metadata_block, scan_line, scan_metadata_block, scan_nextline,
};
use markdown_values::values::MetadataBlockKind;

/// The metadata block that a page begins with, in bytes of the page.
#[derive(Clone, Copy)]
pub struct Metadata {
    /// Its style.
    pub kind: MetadataBlockKind,
    /// Where its content begins: after its first line.
    pub start: usize,
    /// Where its content ends: before the line that closes it.
    pub end: usize,
    /// How many bytes it has, both of those lines included.
    pub len: usize,
}

/// The metadata block that a page begins with, if one of a style that is enabled stands there, or
/// after the page's byte order mark.
///
/// What stands after its `len` bytes is the rest of the page. It is walked as a page of its own, whose
/// offsets and lines are counted from there. No call that walks a page looks for metadata.
pub fn metadata_of_page(
    page: &[u8],
    yaml_style_enabled: bool,
    pluses_style_enabled: bool,
) -> Option<Metadata>
    ensures found { SomeExactly
        (IsMetadata page.now yaml_style_enabled pluses_style_enabled) result }
    ensures none { IfNone result ((byte : ℕ)
        → ¬ IsMetadataBlock (text_of page.now) yaml_style_enabled pluses_style_enabled byte) }
    ensures within { IfSome result (λ m.
        (m.start ≤ m.end) × (m.end ≤ m.len) × (m.len ≤ length page.now)) }
{
    let before = text_start(page);
    let found = metadata_of_text(&page[before..], yaml_style_enabled, pluses_style_enabled)?;
    Some(Metadata {
        kind: found.kind,
        start: before + found.start,
        end: before + found.end,
        len: before + found.len,
    })
}

// The same of a page's text.
fn metadata_of_text(
    text: &[u8],
    yaml_style_enabled: bool,
    pluses_style_enabled: bool,
) -> Option<Metadata>
    ensures found { SomeExactly
        (IsTextMetadata text.now yaml_style_enabled pluses_style_enabled) result }
    ensures none { IfNone result ((byte : ℕ)
        → ¬ IsMetadataBlock text.now yaml_style_enabled pluses_style_enabled byte) }
    ensures within { IfSome result (λ m.
        (m.start ≤ m.end) × (m.end ≤ m.len) × (m.len ≤ length text.now)) }
{
    let (_, byte) = scan_metadata_block(text, yaml_style_enabled, pluses_style_enabled)?;
    let start = scan_nextline(text);
    let end = closing_offset(text, start, byte)?;
    Some(Metadata {
        kind: style_of(byte),
        start,
        end,
        len: end + scan_line(&text[end..]),
    })
}

// The style of a block that the byte opens.
fn style_of(byte: u8) -> MetadataBlockKind
    ensures { result ≡ style_of byte }
{
    if byte == b'-' {
        MetadataBlockKind::YamlStyle
    } else {
        MetadataBlockKind::PlusesStyle
    }
}

// The first offset after this one where a line begins that closes a block which the byte opened.
fn closing_offset(page: &[u8], start: usize, byte: u8) -> Option<usize>
    requires { start ≤ length page.now }
    ensures found { IfSome result (λ end. (start < end) × ClosesAt page.now byte end) }
    ensures first { IfSome result (λ end. (offset : ℕ) → start < offset → offset < end
        → ¬ ClosesAt page.now byte offset) }
    ensures none { IfNone result ((offset : ℕ) → start < offset → ¬ ClosesAt page.now byte offset) }
    ensures within { IfSome result (λ end. end ≤ length page.now) }
{
    let mut offset = start;
    while offset < page.len() {
        offset += scan_nextline(&page[offset..]);
        if scan_closing_metadata_block(&page[offset..], byte).is_some() {
            return Some(offset);
        }
    }
    None
}
