//! Bytes, lines, line endings, blank lines, indents, and markers of block quotes and list items.
ghost use Rattle.std.specs.Prelude.{◌≡◌, ◌≤◌, ◌<◌, ◌/◌, ◌↔◌, ◌⊎◌, ◌==◌, ℕ, Some, length, reverse, IsTrue, if◌then◌else◌};
ghost use Rattle.std.specs.List.{prefix_len};
ghost use Rattle.std.specs.Str.{IsUtf8};
ghost use Rattle.markdown_scanners_tree.specs.Bytes.{IsBlankLine, begins_with, is_white_space, is_white_space_in_line, is_punctuation, line_ending, line_length};
ghost use Rattle.markdown_scanners_tree.specs.scanners.Indent.{IsIndent};
ghost use Rattle.markdown_scanners_tree.specs.scanners.Lines.{next_line, IsBlockQuoteStart};
ghost use Rattle.markdown_scanners_tree.specs.scanners.list_items.ListItem.{IsListItem};
ghost use Rattle.markdown_scanners_c.specs.Answers.{none, FoundExactly, IsWithin};
ghost use Rattle.markdown_scanners_c.specs.Among.{is_among};
ghost use Rattle.markdown_scanners_c.specs.Status.{ok, too_large};

use crate::status::{NONE, OK, TOO_LARGE};
use markdown_scanners_tree::scanners::{
    calc_indent, is_ascii_punctuation, is_ascii_whitespace, is_ascii_whitespace_no_nl,
    scan_blank_line, scan_blockquote_start, scan_ch, scan_ch_repeat, scan_eol, scan_line,
    scan_listitem, scan_nextline, scan_whitespace_no_nl,
};

/// Space, tab, LF, VT, FF or CR. (CommonMark 0.31.2, section 2.1)
#[unsafe(no_mangle)]
pub extern "C" fn mds_is_whitespace(byte: u8) -> bool
    ensures { result ≡ is_white_space byte }
{
    is_ascii_whitespace(byte)
}

/// White space that ends no line. (CommonMark 0.31.2, section 2.1)
#[unsafe(no_mangle)]
pub extern "C" fn mds_is_whitespace_in_line(byte: u8) -> bool
    ensures { result ≡ is_white_space_in_line byte }
{
    is_ascii_whitespace_no_nl(byte)
}

/// An ASCII punctuation character. (CommonMark 0.31.2, section 2.1)
#[unsafe(no_mangle)]
pub extern "C" fn mds_is_punctuation(byte: u8) -> bool
    ensures { result ≡ is_punctuation byte }
{
    is_ascii_punctuation(byte)
}

/// Whether the bytes are UTF-8.
#[unsafe(no_mangle)]
pub extern "C" fn mds_is_utf8(bytes: &[u8]) -> bool
    ensures { IsTrue result ↔ IsUtf8 bytes.now }
{
    str::from_utf8(bytes).is_ok()
}

/// 1 where the first byte is this one, else 0.
#[unsafe(no_mangle)]
pub extern "C" fn mds_scan_ch(bytes: &[u8], byte: u8) -> usize
    ensures first { result ≡ (if begins_with (λ b. b == byte) bytes.now then 1 else 0) }
    ensures within { result ≤ length bytes.now }
{
    scan_ch(bytes, byte)
}

/// How many of this byte stand at the front.
#[unsafe(no_mangle)]
pub extern "C" fn mds_scan_ch_repeat(bytes: &[u8], byte: u8) -> usize
    ensures run { result ≡ prefix_len (λ b. b == byte) bytes.now }
    ensures within { result ≤ length bytes.now }
{
    scan_ch_repeat(bytes, byte)
}

/// How many bytes from the front are among the accepted ones.
#[unsafe(no_mangle)]
pub extern "C" fn mds_scan_while(bytes: &[u8], accepted: &[u8]) -> usize
    ensures run { result ≡ prefix_len (λ b. is_among accepted.now b) bytes.now }
    ensures within { result ≤ length bytes.now }
{
    bytes.iter().take_while(|b| accepted.contains(*b)).count()
}

/// How many bytes from the back are among the accepted ones.
#[unsafe(no_mangle)]
pub extern "C" fn mds_scan_rev_while(bytes: &[u8], accepted: &[u8]) -> usize
    ensures run { result ≡ prefix_len (λ b. is_among accepted.now b) (reverse bytes.now) }
    ensures within { result ≤ length bytes.now }
{
    bytes
        .iter()
        .rev()
        .take_while(|b| accepted.contains(*b))
        .count()
}

/// How many bytes of white space that ends no line stand at the front.
#[unsafe(no_mangle)]
pub extern "C" fn mds_scan_whitespace_in_line(bytes: &[u8]) -> usize
    ensures run { result ≡ prefix_len is_white_space_in_line bytes.now }
    ensures within { result ≤ length bytes.now }
{
    scan_whitespace_no_nl(bytes)
}

/// The length of the line ending at the front, or `NONE`. (CommonMark 0.31.2, section 2.1)
#[unsafe(no_mangle)]
pub extern "C" fn mds_scan_eol(bytes: &[u8]) -> usize
    ensures found { FoundExactly (λ n. line_ending bytes.now ≡ Some n) result result }
    ensures within { IsWithin bytes.now result }
{
    scan_eol(bytes).unwrap_or(NONE)
}

/// The length of the line at the front, with its ending. (CommonMark 0.31.2, section 2.1)
#[unsafe(no_mangle)]
pub extern "C" fn mds_scan_line(bytes: &[u8]) -> usize
    ensures line { result ≡ line_length bytes.now }
    ensures within { result ≤ length bytes.now }
    ensures rises { 0 < length bytes.now → 0 < result }
{
    scan_line(bytes)
}

/// The offset after the first LF, or the length; a CR ends no line here.
#[unsafe(no_mangle)]
pub extern "C" fn mds_scan_nextline(bytes: &[u8]) -> usize
    ensures line { result ≡ next_line bytes.now }
    ensures within { result ≤ length bytes.now }
{
    scan_nextline(bytes)
}

/// The length of the blank line at the front, or `NONE`. (CommonMark 0.31.2, section 2.1)
#[unsafe(no_mangle)]
pub extern "C" fn mds_scan_blank_line(bytes: &[u8]) -> usize
    ensures found { FoundExactly (IsBlankLine bytes.now) result result }
    ensures within { IsWithin bytes.now result }
{
    scan_blank_line(bytes).unwrap_or(NONE)
}

/// The length of the block quote marker at the front, or `NONE`. (CommonMark 0.31.2, section 5.1)
#[unsafe(no_mangle)]
pub extern "C" fn mds_scan_blockquote_start(bytes: &[u8]) -> usize
    ensures found { FoundExactly (IsBlockQuoteStart bytes.now) result result }
    ensures within { IsWithin bytes.now result }
{
    scan_blockquote_start(bytes).unwrap_or(NONE)
}

/// `struct mds_list_item` of C: a list item's marker, whose length is `NONE` where there is none.
#[repr(C)]
pub struct ListItem {
    pub length: usize,
    pub start: usize,
    pub indent: usize,
    pub delimiter: u8,
}

/// The list item that begins at the front. (CommonMark 0.31.2, section 5.2)
#[unsafe(no_mangle)]
pub extern "C" fn mds_scan_listitem(bytes: &[u8]) -> ListItem
    ensures found { FoundExactly (λ (r : ℕ × ℕ × ℕ × ℕ). IsListItem bytes.now r.0 r.1 r.2 r.3)
        result.length (result.length, result.delimiter, result.start, result.indent) }
    ensures within { IsWithin bytes.now result.length }
    ensures zeros { result.length ≡ none
        → (result.delimiter ≡ 0) × (result.start ≡ 0) × (result.indent ≡ 0) }
{
    match scan_listitem(bytes) {
        Some((length, delimiter, start, indent)) => ListItem {
            length,
            start,
            indent,
            delimiter,
        },
        None => ListItem {
            length: NONE,
            start: 0,
            indent: 0,
            delimiter: 0,
        },
    }
}

/// `struct mds_indent` of C: columns, and the offset of the last byte that was looked at.
#[repr(C)]
pub struct Indent {
    pub status: u32,
    pub offset: usize,
    pub columns: usize,
}

/// The columns of spaces and tabs at the front, up to a limit. (CommonMark 0.31.2, section 2.2)
#[unsafe(no_mangle)]
pub extern "C" fn mds_calc_indent(bytes: &[u8], max: usize) -> Indent
    ensures indent { ((result.status ≡ ok) × (max ≤ usize.MAX / 4)
        × IsIndent bytes.now max result.offset result.columns)
        ⊎ ((result.status ≡ too_large) × (result.offset ≡ 0) × (result.columns ≡ 0)
        × (usize.MAX / 4 < max)) }
    ensures within { result.offset ≤ length bytes.now }
{
    if max > usize::MAX / 4 {
        return Indent {
            status: TOO_LARGE,
            offset: 0,
            columns: 0,
        };
    }
    let (offset, columns) = calc_indent(bytes, max);
    Indent {
        status: OK,
        offset,
        columns,
    }
}
