//! Blocks that their lines tell: thematic breaks, list items, tables, fenced code and metadata.
ghost use Rattle.std.specs.Prelude.{◌≡◌, ◌≤◌, ◌<◌, ◌↔◌, ◌/◌, ◌++◌, ℕ, List, length, drop, true, IsTrue, IfOk, IfSome, IfNone};
ghost use Rattle.markdown_scanners_tree.specs.Bytes.{IsBlankLine};
ghost use Rattle.markdown_scanners_tree.specs.scanners.Breaks.{IsThematicBreak, break_length};
ghost use Rattle.markdown_scanners_tree.specs.scanners.Fences.{IsCodeFence, IsClosingCodeFence};
ghost use Rattle.markdown_scanners_tree.specs.scanners.Metadata.{IsMetadataBlock};
ghost use Rattle.markdown_scanners_tree.specs.scanners.tables.DelimiterRow.{IsDelimiterRow};
ghost use Rattle.markdown_scanners_tree.specs.scanners.list_items.ListItem.{IsListItem};

use markdown_scanners_tree::scanners::{
    scan_blank_line, scan_closing_code_fence, scan_code_fence, scan_hrule, scan_listitem,
    scan_metadata_block, scan_nextline, scan_table_head,
};
use markdown_values::values::{Alignment, MetadataBlockKind};
use std::alloc::{AllocError, Global};

/// Whether the line is a thematic break: three or more of one marker, and nothing else but spaces and tabs.
pub fn is_break(line: &[u8]) -> bool
    ensures { IsTrue result ↔ IsThematicBreak line.now }
{
    scan_hrule(line).is_ok()
}

/// Where the text does not begin with a thematic break: an offset before which none begins, so that a parser need not
/// look there again.
#[tactic(auto, using(markdown_scanners_tree::proofs::ForCallers::thematic_breaks))]
pub fn break_free(text: &[u8]) -> Option<usize>
    ensures free { IfSome result (λ offset. (k : ℕ) → k < offset
        → ¬ IsThematicBreak (drop k text.now)) }
    ensures far { IfSome result (λ offset. offset ≡ break_length text.now) }
    ensures none { IfNone result (IsThematicBreak text.now) }
{
    scan_hrule(text).err()
}

/// Whether the line is blank.
#[tactic(auto, using(markdown_scanners_tree::proofs::ForCallers::blank_lines))]
pub fn is_blank(line: &[u8]) -> bool
    ensures { IsTrue result ↔ ((n : ℕ) × IsBlankLine line.now n) }
{
    scan_blank_line(line).is_some()
}

/// Whether two lines begin with the same list item, or neither with one. No line begins with two.
pub fn begin_alike(one: &[u8], other: &[u8]) -> bool
    ensures { IsTrue result ↔ ((item : ℕ × ℕ × ℕ × ℕ)
        → IsListItem one.now item.0 item.1 item.2 item.3
        ↔ IsListItem other.now item.0 item.1 item.2 item.3) }
{
    scan_listitem(one) == scan_listitem(other)
}

/// How many bytes the marker of the list item takes that a line begins with, with the space that belongs to it.
pub fn marker_length(line: &[u8]) -> Option<usize>
    ensures found { IfSome result (λ n. (delimiter start indent : ℕ)
        × IsListItem line.now n delimiter start indent) }
    ensures none { IfNone result ((n delimiter start indent : ℕ)
        → ¬ IsListItem line.now n delimiter start indent) }
{
    let (length, _, _, _) = scan_listitem(line)?;
    Some(length)
}

/// The alignments of a table's columns, in order, where the line is the delimiter row of a table.
pub fn table_columns(alloc: Global, line: &[u8]) -> Result<Option<Vec<Alignment>>, AllocError>
    ensures found { IfOk result (λ found. IfSome found (λ columns.
        (n : ℕ) × IsDelimiterRow line.now n columns.items)) }
    ensures some_column { IfOk result
        (λ found. IfSome found (λ columns. 0 < length columns.items)) }
    ensures none { IfOk result (λ found. IfNone found (
        (n : ℕ) (columns : _) → ¬ IsDelimiterRow line.now n columns)) }
{
    let (len, columns) = scan_table_head(alloc, line)?;
    if len == 0 {
        return Ok(None);
    }
    Ok(Some(columns))
}

/// How wide each column is, where the table whose delimiter row the line is has this width.
pub fn column_width(alloc: Global, line: &[u8], width: usize) -> Result<Option<usize>, AllocError>
    ensures found { IfOk result (λ found. IfSome found (λ each. (n : ℕ) × (columns : List Alignment)
        × IsDelimiterRow line.now n columns × (each ≡ width / length columns))) }
    ensures none { IfOk result (λ found. IfNone found (
        (n : ℕ) (columns : _) → ¬ IsDelimiterRow line.now n columns)) }
{
    match table_columns(alloc, line)? {
        Some(columns) => Ok(Some(width / columns.len())),
        None => Ok(None),
    }
}

/// How many columns the table has whose delimiter row the line is.
pub fn column_count(alloc: Global, line: &[u8]) -> Result<Option<usize>, AllocError>
    ensures found { IfOk result (λ found. IfSome found
        (λ count. (n : ℕ) × (columns : List Alignment)
        × IsDelimiterRow line.now n columns × (length columns ≡ count))) }
    ensures none { IfOk result (λ found. IfNone found (
        (n : ℕ) (columns : _) → ¬ IsDelimiterRow line.now n columns)) }
{
    match table_columns(alloc, line)? {
        Some(columns) => Ok(Some(columns.len())),
        None => Ok(None),
    }
}

// The offset of the first line from the front that closes a block of fenced code.
fn closing_offset(text: &[u8], fence: u8, count: usize) -> usize
    ensures within { result ≤ length text.now }
    ensures closed { (n : ℕ) × IsClosingCodeFence (drop result text.now) fence count n }
{
    for offset in 0..text.len() {
        let begins_line = offset == 0 || text[offset - 1] == b'\n';
        if begins_line && scan_closing_code_fence(&text[offset..], fence, count).is_some() {
            return offset;
        }
    }
    text.len()
}

/// A text that begins with fenced code, in three parts: the line of the opening fence, the content, and what begins with
/// the closing fence, or with the end of the text. The fences stand at the fronts of their lines.
pub fn fenced_code(text: &[u8]) -> Option<(&[u8], &[u8], &[u8])>
    ensures parts { IfSome result (λ r. text.now ≡ r.0.now ++ (r.1.now ++ r.2.now)) }
    ensures fences { IfSome result (λ r. (count fence n : ℕ)
        × IsCodeFence text.now count fence × IsClosingCodeFence r.2.now fence count n) }
    ensures none { IfNone result ((count fence : ℕ) → ¬ IsCodeFence text.now count fence) }
{
    let (count, fence) = scan_code_fence(text)?;
    let (opening, after) = text.split_at(scan_nextline(text));
    let (code, closing) = after.split_at(closing_offset(after, fence, count));
    Some((opening, code, closing))
}

/// The kind of the metadata block that a document begins with.
pub fn metadata_kind(document: &[u8]) -> Option<MetadataBlockKind>
    ensures found { IfSome result (λ _. (byte : ℕ) × IsMetadataBlock document.now true true byte) }
    ensures none { IfNone result ((byte : ℕ) → ¬ IsMetadataBlock document.now true true byte) }
{
    let (_, byte) = scan_metadata_block(document, true, true)?;
    if byte == b'-' {
        Some(MetadataBlockKind::YamlStyle)
    } else {
        Some(MetadataBlockKind::PlusesStyle)
    }
}
