//! Whether two pages have the same tables.
ghost use Rattle.std.specs.Prelude.{◌≡◌, ◌↔◌, [], IsTrue, map};
ghost use Rattle.page_tables.specs.Cells.{cell_text, cell_texts, filled};
ghost use Rattle.page_tables.specs.Formatted.{columns_after, seen_from, seen_mark, seen_tables};
ghost use Rattle.page_tables.specs.Marks.{mark_view};

use crate::cells::{next_cell, row_text};
use crate::marks::Mark;
use markdown_blocks::cells::{Cells, cells_of};
use markdown_values::values::Alignment;

/// Whether these tables of a page and those of another say the same.
pub(crate) fn are_same(page: &[u8], marks: &[Mark], other: &[u8], others: &[Mark]) -> bool
    ensures { IsTrue result ↔ (seen_tables page.now (map mark_view marks.now)
        ≡ seen_tables other.now (map mark_view others.now)) }
{
    let mut columns = 0;
    let mut left = marks;
    let mut right = others;
    while let [mark, later @ ..] = left {
        let [twin, later_twins @ ..] = right else {
            return false;
        };
        if !says_the_same(page, mark, other, twin, columns) {
            return false;
        }
        columns = columns_after(mark, columns);
        left = later;
        right = later_twins;
    }
    right.is_empty()
}

/// How many columns the table has whose rows come after a mark.
pub(crate) fn columns_after(mark: &Mark, columns: usize) -> usize
    ensures { result ≡ columns_after (mark_view mark.now) columns }
{
    match mark {
        Mark::Table(alignments) => alignments.len(),
        _ => columns,
    }
}

// Whether a mark of a page and one of another say the same, of rows of tables with so many columns.
fn says_the_same(page: &[u8], mark: &Mark, other: &[u8], twin: &Mark, columns: usize) -> bool
    ensures { IsTrue result ↔ (seen_mark page.now columns (mark_view mark.now)
        ≡ seen_mark other.now columns (mark_view twin.now)) }
{
    match (mark, twin) {
        (Mark::Table(alignments), Mark::Table(others)) => are_alike(alignments, others),
        (Mark::Head(range), Mark::Head(twin_range)) | (Mark::Row(range), Mark::Row(twin_range)) => {
            have_same_cells(row_text(page, range), row_text(other, twin_range), columns)
        }
        (Mark::End, Mark::End) => true,
        _ => false,
    }
}

// Whether columns are aligned alike.
fn are_alike(alignments: &[Alignment], others: &[Alignment]) -> bool
    ensures { IsTrue result ↔ (alignments.now ≡ others.now) }
{
    let mut left = alignments;
    let mut right = others;
    while let [alignment, later @ ..] = left {
        let [other, later_others @ ..] = right else {
            return false;
        };
        if !is_alike(*alignment, *other) {
            return false;
        }
        left = later;
        right = later_others;
    }
    right.is_empty()
}

// Whether two columns are aligned alike.
fn is_alike(alignment: Alignment, other: Alignment) -> bool
    ensures { IsTrue result ↔ (alignment ≡ other) }
{
    matches!(
        (alignment, other),
        (Alignment::None, Alignment::None)
            | (Alignment::Left, Alignment::Left)
            | (Alignment::Center, Alignment::Center)
            | (Alignment::Right, Alignment::Right)
    )
}

// Whether rows with these texts have the same cells, of tables with so many columns.
fn have_same_cells(row: &[u8], other: &[u8], columns: usize) -> bool
    ensures { IsTrue result
        ↔ (filled columns (cell_texts row.now) ≡ filled columns (cell_texts other.now)) }
{
    let mut cells = cells_of(row);
    let mut others = cells_of(other);
    let mut left = columns;
    while let Some(cell) = next_cell(row, &mut cells) {
        let Some(twin) = next_cell(other, &mut others) else {
            return left > 0 && cell.is_empty() && are_empty(row, cells, left - 1);
        };
        if cell != twin {
            return false;
        }
        left = left.saturating_sub(1);
    }
    are_empty(other, others, left)
}

// Whether the cells of a row with this text that are left say what none would, of so many columns.
fn are_empty(text: &[u8], cells: Cells, columns: usize) -> bool
    ensures { IsTrue result
        ↔ (filled columns (map (cell_text text.now) cells.entry) ≡ filled columns []) }
{
    let mut cells = cells;
    let mut left = columns;
    while let Some(cell) = next_cell(text, &mut cells) {
        if left == 0 {
            return false;
        }
        if !cell.is_empty() {
            return false;
        }
        left -= 1;
    }
    true
}
