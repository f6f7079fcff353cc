//! Metadata blocks at the head of a document.
ghost use Rattle.std.specs.Prelude.{◌≡◌, ◌≤◌, ◌==◌, ◌+◌, ℕ, List, length, drop, true, IfSome, IfNone};
ghost use Rattle.std.specs.Bool.{Decides};
ghost use Rattle.std.specs.List.{prefix_len};
ghost use Rattle.std.specs.Option.{option_map};
ghost use Rattle.markdown_scanners_tree.specs.SomeExactly.{SomeExactly, IsOnly};
ghost use Rattle.markdown_scanners_tree.specs.scanners.Metadata.{is_after_opening, IsLineOfThree, IsClosingMetadataBlock, HasLaterClose, IsOpeningLine, IsBlockOf, IsMetadataBlock};

use crate::scanners::lines::{scan_blank_line, scan_eol};
use crate::scanners::runs::{scan_ch, scan_ch_repeat};
use memchr::memchr;

/// The number of opening bytes of a metadata block at the front, always 3, and that byte: `-`
/// where the YAML style is enabled, `+` where the style of pluses is.
///
/// A block that no later line closes, or whose first line of content is blank, is none.
pub fn scan_metadata_block(
    bytes: &[u8],
    yaml_style_enabled: bool,
    pluses_style_enabled: bool,
) -> Option<(usize, u8)>
    ensures found { SomeExactly
        (λ r. IsMetadataBlock bytes.now yaml_style_enabled pluses_style_enabled r.1) result }
    ensures only { IsOnly (IsMetadataBlock bytes.now yaml_style_enabled pluses_style_enabled)
        (option_map (λ r. r.1) result) }
    ensures none { IfNone result ((byte : ℕ)
        → ¬ IsMetadataBlock bytes.now yaml_style_enabled pluses_style_enabled byte) }
    ensures opening { IfSome result (λ r. r.0 ≡ 3) }
    ensures within { IfSome result (λ r. r.0 ≤ length bytes.now) }
{
    if is_enabled_block(bytes, b'-', yaml_style_enabled) {
        Some((3, b'-'))
    } else if is_enabled_block(bytes, b'+', pluses_style_enabled) {
        Some((3, b'+'))
    } else {
        None
    }
}

// Whether the style is enabled, and a metadata block that the byte opens stands at the front.
fn is_enabled_block(bytes: &[u8], byte: u8, enabled: bool) -> bool
    ensures found { Decides result ((enabled ≡ true) × IsBlockOf byte bytes.now) }
    ensures within { result ≡ true → 3 ≤ length bytes.now }
{
    enabled && is_block_of(bytes, byte)
}

// Whether a metadata block that the byte opens stands at the front.
fn is_block_of(bytes: &[u8], byte: u8) -> bool
    ensures found { Decides result (IsBlockOf byte bytes.now) }
    ensures within { result ≡ true → 3 ≤ length bytes.now }
{
    let Some(opening) = scan_opening_line(bytes, byte) else {
        return false;
    };
    let body = &bytes[opening..];
    if scan_blank_line(body).is_some() {
        return false;
    }
    if scan_closing_metadata_block(body, byte).is_some() {
        return false;
    }
    has_later_close(body, byte)
}

// The length of a block's first line, with the LF that ends it.
fn scan_opening_line(bytes: &[u8], byte: u8) -> Option<usize>
    ensures found { IfSome result (λ n. IsOpeningLine byte bytes.now (drop n bytes.now)) }
    ensures none { IfNone result ((body : List ℕ) → ¬ IsOpeningLine byte bytes.now body) }
    ensures within { IfSome result (λ n. (3 ≤ n) × (n ≤ length bytes.now)) }
{
    if scan_ch_repeat(bytes, byte) != 3 {
        return None;
    }
    let space = scan_after_opening(&bytes[3..]);
    let end = 3 + space;
    if scan_ch(&bytes[end..], b'\n') == 0 {
        return None;
    }
    Some(end + 1)
}

// The length of the longest prefix of what may follow the opening bytes in their line.
fn scan_after_opening(bytes: &[u8]) -> usize
    ensures run { result ≡ prefix_len is_after_opening bytes.now }
    ensures within { result ≤ length bytes.now }
{
    bytes
        .iter()
        .take_while(|b| **b == b' ' || **b == b'\t' || **b == b'\r' || **b == 0x0c)
        .count()
}

// Whether a line after the first one closes the block that the byte opened.
fn has_later_close(body: &[u8], byte: u8) -> bool
    ensures { Decides result (HasLaterClose body.now byte) }
{
    let mut i = 0;
    while let Some(line) = memchr(b'\n', &body[i..]) {
        i += line + 1;
        if scan_closing_metadata_block(&body[i..], byte).is_some() {
            return true;
        }
    }
    false
}

/// The length in bytes of the line at the front that closes a metadata block, without the line
/// ending, where `fence_char` opened the block.
pub fn scan_closing_metadata_block(bytes: &[u8], fence_char: u8) -> Option<usize>
    ensures found { SomeExactly (IsClosingMetadataBlock bytes.now fence_char) result }
    ensures only { IsOnly (IsClosingMetadataBlock bytes.now fence_char) result }
    ensures within { IfSome result (λ n. n ≤ length bytes.now) }
{
    match scan_line_of_three(bytes, fence_char) {
        Some(n) => Some(n),
        None if fence_char == b'-' => scan_line_of_three(bytes, b'.'),
        None => None,
    }
}

// The length of a line of exactly three of the byte and of spaces, without its line ending.
fn scan_line_of_three(bytes: &[u8], byte: u8) -> Option<usize>
    ensures found { SomeExactly (IsLineOfThree byte bytes.now) result }
    ensures within { IfSome result (λ n. n ≤ length bytes.now) }
{
    if scan_ch_repeat(bytes, byte) != 3 {
        return None;
    }
    let space = scan_ch_repeat(&bytes[3..], b' ');
    scan_eol(&bytes[3 + space..])?;
    Some(3 + space)
}
