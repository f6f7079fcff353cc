//! What is named of the tables that are left as they are.
ghost use Rattle.std.specs.Prelude.{◌≡◌, ◌++◌, [], IfOk, OnOk, map, if◌then◌else◌};
ghost use Rattle.page_tables.specs.Columns.{is_too_wide};
ghost use Rattle.page_tables.specs.Marks.{head_start, mark_view};
ghost use Rattle.page_tables.specs.Misfits.{AreMisfits, misfit_at, misfit_of, misfits, too_wide_at};

use crate::cells::{count_cells, row_text};
use crate::columns::{fits, is_too_wide};
use crate::marks::{Mark, marks_of_page};
use crate::same::columns_after;
use crate::widths::CellWidths;
use markdown_values::values::Alignment;
use std::alloc::{AllocError, Global};
use std::ops::Range;

/// Why a table is left as it is.
#[derive(Clone, Copy, Debug)]
pub enum Unfit {
    /// A row has more cells than the table has columns.
    TooManyCells,
    /// A row has no cell.
    NoCell,
    /// Its rows would be wider than `WIDEST`.
    TooWide,
}

/// A row for which its table is left as it is. Of a table that would be too wide it is the head.
#[derive(Clone, Copy, Debug)]
pub struct Misfit {
    /// The offset at which it begins.
    pub start: usize,
    /// Why its table is left.
    pub why: Unfit,
}

/// The rows of a page for which its tables are left as they are, and the heads of those that would be
/// too wide.
///
/// # Errors
///
/// `AllocError` where memory is refused.
pub fn misfits_of_page<W: CellWidths>(
    alloc: Global,
    page: &str,
    widths: &W,
) -> Result<Vec<Misfit>, AllocError>
    ensures { IfOk result (λ rows. AreMisfits (W.width widths.now) page.now rows.items) }
{
    let marks = marks_of_page(alloc, page)?;
    misfits(alloc, page.as_bytes(), widths, &marks)
}

/// What is named of these tables of a page.
pub(crate) fn misfits<W: CellWidths>(
    alloc: Global,
    page: &[u8],
    widths: &W,
    marks: &[Mark],
) -> Result<Vec<Misfit>, AllocError>
    ensures { IfOk result (λ rows. rows.items
        ≡ misfits (W.width widths.now) page.now (map mark_view marks.now)) }
{
    let mut rows = Vec::new(alloc);
    let mut columns = 0;
    let mut rest = marks;
    while let [mark, later @ ..] = rest {
        push_misfit(&mut rows, alloc, page, widths, columns, mark, later)?;
        columns = columns_after(mark, columns);
        rest = later;
    }
    Ok(rows)
}

// Adds what is named at a mark, before these, of a table with so many columns.
fn push_misfit<W: CellWidths>(
    rows: &mut Vec<Misfit>,
    alloc: Global,
    page: &[u8],
    widths: &W,
    columns: usize,
    mark: &Mark,
    later: &[Mark],
) -> Result<(), AllocError>
    ensures { OnOk result (rows.new.items ≡ rows.old.items
        ++ misfit_at (W.width widths.now) page.now columns (mark_view mark.now)
        (map mark_view later.now)) }
{
    match mark {
        Mark::Table(alignments) => push_too_wide(rows, alloc, page, widths, alignments, later),
        Mark::Head(range) | Mark::Row(range) => push_unfit(rows, page, columns, range),
        Mark::End => Ok(()),
    }
}

// Adds the head of a table that would be too wide.
fn push_too_wide<W: CellWidths>(
    rows: &mut Vec<Misfit>,
    alloc: Global,
    page: &[u8],
    widths: &W,
    alignments: &[Alignment],
    later: &[Mark],
) -> Result<(), AllocError>
    ensures { OnOk result (rows.new.items ≡ rows.old.items
        ++ (if is_too_wide (W.width widths.now) page.now alignments.now (map mark_view later.now)
        then map too_wide_at (head_start (map mark_view later.now)) else [])) }
{
    if !is_too_wide(alloc, page, widths, alignments, later)? {
        return Ok(());
    }
    let [Mark::Head(head), ..] = later else {
        return Ok(());
    };
    rows.push(Misfit {
        start: head.start,
        why: Unfit::TooWide,
    })?;
    Ok(())
}

// Adds the row of this range, if it doesn't fit a table with so many columns.
fn push_unfit(
    rows: &mut Vec<Misfit>,
    page: &[u8],
    columns: usize,
    range: &Range<usize>,
) -> Result<(), AllocError>
    ensures { OnOk result (rows.new.items
        ≡ rows.old.items ++ misfit_of page.now columns range.now) }
{
    let text = row_text(page, range);
    if fits(columns, text) {
        return Ok(());
    }
    let why = if 1 <= count_cells(text) {
        Unfit::TooManyCells
    } else {
        Unfit::NoCell
    };
    rows.push(Misfit {
        start: range.start,
        why,
    })?;
    Ok(())
}
