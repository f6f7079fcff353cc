//! The texts of the cells of a row.
ghost use Rattle.std.specs.Prelude.{◌≡◌, ◌↔◌, ◌<◌, ◌≤◌, ◌-◌, ◌∷◌, [], length, map, slice_range, IfSome, IfNone, IsTrue};
ghost use Rattle.std.specs.Str.{bytes_eq};
ghost use Rattle.markdown_blocks.specs.blocks.Tables.{cells};
ghost use Rattle.page_tables.specs.Cells.{cell_text, cell_texts, row_text};

use markdown_blocks::cells::{Cell, Cells, cells_of};
use std::ops::Range;

/// The text of a row that stands in this range of the page.
pub(crate) fn row_text<'a>(page: &'a [u8], range: &Range<usize>) -> &'a [u8]
    ensures { result.now ≡ row_text page.now range.now }
{
    part(page, range.start, range.end)
}

/// What stands in a text from one offset up to another.
pub(crate) fn part(text: &[u8], start: usize, end: usize) -> &[u8]
    ensures part { result.now ≡ slice_range text.now start end }
    ensures within { length result.now ≤ length text.now - start }
{
    let end = end.min(text.len());
    if start < end { &text[start..end] } else { &[] }
}

/// How many cells a row with this text has.
pub(crate) fn count_cells(text: &[u8]) -> usize
    ensures { result ≡ cells text.now }
{
    cells_of(text).count()
}

/// The next of the cells of a row with this text.
pub(crate) fn next_cell<'a>(text: &'a [u8], cells: &mut Cells) -> Option<&'a [u8]>
    ensures some { IfSome result (λ cell. map (cell_text text.now) cells.old
        ≡ cell.now ∷ map (cell_text text.now) cells.new) }
    ensures fewer { IfSome result (λ _. length cells.new < length cells.old) }
    ensures none { IfNone result (cells.old ≡ []) }
    ensures done { IfNone result (cells.new ≡ []) }
{
    let Cell { start, end } = cells.next()?;
    Some(part(text, start, end))
}

/// Whether bytes are the same.
pub(crate) fn are_equal(bytes: &[u8], others: &[u8]) -> bool
    ensures equal { result ≡ bytes_eq bytes.now others.now }
    ensures same { IsTrue result ↔ (bytes.now ≡ others.now) }
{
    bytes == others
}
