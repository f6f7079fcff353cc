//! Delimiter rows of tables. (GitHub Flavored Markdown 0.29, section 4.10)
ghost use Rattle.std.specs.Prelude.{◌≡◌, ◌+◌, ◌∷◌, [], length, map, slice_range, true, false, IfOk, IfSome, IfNone};
ghost use Rattle.markdown_scanners_tree.specs.Bytes.{begins_with};
ghost use Rattle.markdown_scanners_tree.specs.scanners.tables.DelimiterRow.{alignment_by, is_colon};
ghost use Rattle.markdown_blocks.specs.cells.Cells.{cells_of};
ghost use Rattle.markdown_blocks.specs.delimiter_rows.DelimiterRows.{alignment_of, alignments_in, after_colon, after_hyphens, cell_text};
ghost use Rattle.markdown_blocks.specs.delimiter_rows.DelimiterRows.{is_delimiter, is_delimiter_byte, is_delimiter_row};

use crate::cells::{Cell, Cells, cells_of};
use markdown_scanners_tree::scanners::scan_ch_repeat;
use markdown_values::values::Alignment;
use std::alloc::{AllocError, Global};

/// How many columns a table has whose delimiter row has this text.
///
/// The first byte of most lines shows that they are not delimiter rows.
pub(crate) fn count_columns(text: &[u8]) -> Option<usize>
    ensures row { IfSome result (λ _. is_delimiter_row text.now ≡ true) }
    ensures counted { IfSome result (λ columns. columns ≡ length (cells_of text.now)) }
    ensures none { IfNone result (is_delimiter_row text.now ≡ false) }
{
    if !begins_with_delimiter_byte(text) {
        return None;
    }
    let mut cells = cells_of(text);
    let mut columns = 0;
    while let Some(cell) = next_cell(text, &mut cells) {
        if !is_delimiter(cell) {
            return None;
        }
        columns += 1;
    }
    if columns == 0 { None } else { Some(columns) }
}

/// How the columns are aligned whose delimiter row has this text; none where it is no such row.
///
/// # Errors
///
/// `AllocError` where memory for them is refused.
pub(crate) fn alignments_in(alloc: Global, text: &[u8]) -> Result<Vec<Alignment>, AllocError>
    ensures { IfOk result (λ found. found.items ≡ alignments_in text.now) }
{
    let Some(columns) = count_columns(text) else {
        return Ok(Vec::new(alloc));
    };
    let mut cells = cells_of(text);
    let mut alignments = Vec::with_capacity(alloc, columns)?;
    while let Some(cell) = next_cell(text, &mut cells) {
        alignments.push(alignment_of(cell))?;
    }
    Ok(alignments)
}

// Whether a pipe, a colon or a hyphen stands at the front.
fn begins_with_delimiter_byte(text: &[u8]) -> bool
    ensures { result ≡ begins_with is_delimiter_byte text.now }
{
    matches!(text, [b'|' | b':' | b'-', ..])
}

// What the next of the cells of a row with this text holds.
fn next_cell<'a>(text: &'a [u8], cells: &mut Cells) -> Option<&'a [u8]>
    ensures some { IfSome result (λ cell. map (cell_text text.now) cells.old
        ≡ cell.now ∷ map (cell_text text.now) cells.new) }
    ensures fewer { IfSome result (λ _. length cells.old ≡ length cells.new + 1) }
    ensures none { IfNone result (cells.old ≡ []) }
{
    let Cell { start, end } = cells.next()?;
    Some(part(text, start, end))
}

// What stands in a text from one offset up to another.
fn part(text: &[u8], start: usize, end: usize) -> &[u8]
    ensures { result.now ≡ slice_range text.now start end }
{
    let end = end.min(text.len());
    if start < end { &text[start..end] } else { &[] }
}

// Whether the bytes are hyphens, with a colon before them, after them, or both, or none.
fn is_delimiter(bytes: &[u8]) -> bool
    ensures { result ≡ is_delimiter bytes.now }
{
    let hyphens = after_colon(bytes);
    matches!(hyphens, [b'-', ..]) && matches!(after_hyphens(hyphens), [] | [b':'])
}

// How such a cell aligns its column.
fn alignment_of(bytes: &[u8]) -> Alignment
    ensures { result ≡ alignment_of bytes.now }
{
    let ends = begins_with_colon(after_hyphens(after_colon(bytes)));
    alignment_by(begins_with_colon(bytes), ends)
}

// The alignment by a colon at the front and one at the end.
fn alignment_by(begins: bool, ends: bool) -> Alignment
    ensures { result ≡ alignment_by begins ends }
{
    match (begins, ends) {
        (false, false) => Alignment::None,
        (true, false) => Alignment::Left,
        (false, true) => Alignment::Right,
        (true, true) => Alignment::Center,
    }
}

// Whether a colon stands at the front.
fn begins_with_colon(bytes: &[u8]) -> bool
    ensures { result ≡ begins_with is_colon bytes.now }
{
    matches!(bytes, [b':', ..])
}

// What stands after a colon at the front, or all where none does.
fn after_colon(bytes: &[u8]) -> &[u8]
    ensures { result.now ≡ after_colon bytes.now }
{
    match bytes {
        [b':', after @ ..] => after,
        _ => bytes,
    }
}

// What stands after the hyphens at the front.
fn after_hyphens(bytes: &[u8]) -> &[u8]
    ensures { result.now ≡ after_hyphens bytes.now }
{
    &bytes[scan_ch_repeat(bytes, b'-')..]
}
