//! How wide the columns of a table are.
ghost use Rattle.std.specs.Prelude.{◌≡◌, ◌∷◌, ◌++◌, List, false, true, map, IfOk, IfSome, IfNone, OnOk};
ghost use Rattle.page_tables.specs.Cells.{cell_text, cell_texts};
ghost use Rattle.page_tables.specs.Columns.{all_fit, columns_of, fits, is_narrow, is_too_wide, narrowest, wide_columns};
ghost use Rattle.page_tables.specs.Columns.{widened, widened_by, widened_to};
ghost use Rattle.page_tables.specs.Marks.{mark_view};

use crate::cells::{count_cells, next_cell, row_text};
use crate::marks::Mark;
use crate::widths::CellWidths;
use markdown_blocks::cells::{Cells, cells_of};
use markdown_values::values::Alignment;
use std::alloc::{AllocError, Global};

/// How many columns of a line a row may take that is laid out, with its pipes and spaces. A table whose
/// rows would take more is left as it is: each row is as wide as the widest, so that one long cell would
/// add its length to all of them.
pub const WIDEST: usize = 2000;

/// A column of a table.
#[derive(Clone, Copy)]
pub struct Column {
    /// How its cells are aligned.
    pub alignment: Alignment,
    /// How wide it is.
    pub width: usize,
}

/// The columns in which a table of the page is laid out, whose columns are aligned so, and which has
/// what comes next of these. It has none where a row has too many cells, or none, and where its rows
/// would be too wide.
pub(crate) fn columns_of<W: CellWidths>(
    alloc: Global,
    page: &[u8],
    widths: &W,
    alignments: &[Alignment],
    later: &[Mark],
) -> Result<Vec<Column>, AllocError>
    ensures { IfOk result (λ columns. columns.items
        ≡ columns_of (W.width widths.now) page.now alignments.now (map mark_view later.now)) }
{
    if !all_fit(page, alignments.len(), later) {
        return Ok(Vec::new(alloc));
    }
    match narrow_columns(alloc, page, widths, alignments, later)? {
        Some(columns) => Ok(columns),
        None => Ok(Vec::new(alloc)),
    }
}

/// Whether each row of a table fits it, but laid out they would be wider than `WIDEST`.
pub(crate) fn is_too_wide<W: CellWidths>(
    alloc: Global,
    page: &[u8],
    widths: &W,
    alignments: &[Alignment],
    later: &[Mark],
) -> Result<bool, AllocError>
    ensures { IfOk result (λ wide. wide
        ≡ is_too_wide (W.width widths.now) page.now alignments.now (map mark_view later.now)) }
{
    if !all_fit(page, alignments.len(), later) {
        return Ok(false);
    }
    let found = narrow_columns(alloc, page, widths, alignments, later)?;
    Ok(found.is_none())
}

// The columns of a table, each as wide as its widest cell, unless they are too wide. Where they are
// before they have cells, no row is read.
fn narrow_columns<W: CellWidths>(
    alloc: Global,
    page: &[u8],
    widths: &W,
    alignments: &[Alignment],
    later: &[Mark],
) -> Result<Option<Vec<Column>>, AllocError>
    ensures columns { IfOk result (λ found. IfSome found (λ columns. columns.items
        ≡ wide_columns (W.width widths.now) page.now alignments.now (map mark_view later.now))) }
    ensures narrow { IfOk result (λ found. IfSome found (λ _. is_narrow
        (wide_columns (W.width widths.now) page.now alignments.now (map mark_view later.now))
        ≡ true)) }
    ensures wide { IfOk result (λ found. IfNone found (is_narrow
        (wide_columns (W.width widths.now) page.now alignments.now (map mark_view later.now))
        ≡ false)) }
{
    let columns = narrowest_columns(alloc, alignments)?;
    if !is_narrow(&columns) {
        return Ok(None);
    }
    let columns = widened_to(alloc, page, widths, columns, later)?;
    if is_narrow(&columns) {
        return Ok(Some(columns));
    }
    Ok(None)
}

// Whether the rows of these columns are no wider than `WIDEST`.
fn is_narrow(columns: &[Column]) -> bool
    ensures { result ≡ is_narrow columns.now }
{
    let mut room = WIDEST - 1;
    for column in columns {
        if room < column.width {
            return false;
        }
        room -= column.width;
        if room < 3 {
            return false;
        }
        room -= 3;
    }
    true
}

// Whether each row up to the end of the table has a cell, and no more than there are columns.
fn all_fit(page: &[u8], columns: usize, later: &[Mark]) -> bool
    ensures { result ≡ all_fit page.now columns (map mark_view later.now) }
{
    let mut rest = later;
    while let [Mark::Head(range) | Mark::Row(range), more @ ..] = rest {
        if !fits(columns, row_text(page, range)) {
            return false;
        }
        rest = more;
    }
    true
}

/// Whether a row with this text has a cell, and no more than so many.
pub(crate) fn fits(columns: usize, text: &[u8]) -> bool
    ensures { result ≡ fits columns text.now }
{
    let count = count_cells(text);
    1 <= count && count <= columns
}

// Columns before their cells.
fn narrowest_columns(alloc: Global, alignments: &[Alignment]) -> Result<Vec<Column>, AllocError>
    ensures { IfOk result (λ columns. columns.items ≡ map narrowest alignments.now) }
{
    let mut columns = Vec::with_capacity(alloc, alignments.len())?;
    for alignment in alignments {
        columns.push(narrowest(*alignment))?;
    }
    Ok(columns)
}

// A column before its cells.
fn narrowest(alignment: Alignment) -> Column
    ensures { result ≡ narrowest alignment }
{
    Column {
        alignment,
        width: 3,
    }
}

// The columns with the rows up to the end of the table.
fn widened_to<W: CellWidths>(
    alloc: Global,
    page: &[u8],
    widths: &W,
    columns: Vec<Column>,
    later: &[Mark],
) -> Result<Vec<Column>, AllocError>
    ensures { IfOk result (λ wide. wide.items
        ≡ widened_to (W.width widths.now) page.now columns.items (map mark_view later.now)) }
{
    let mut columns = columns;
    let mut rest = later;
    while let [Mark::Head(range) | Mark::Row(range), more @ ..] = rest {
        columns = widened(alloc, widths, &columns, row_text(page, range))?;
        rest = more;
    }
    Ok(columns)
}

// The columns with one more row, which has this text.
fn widened<W: CellWidths>(
    alloc: Global,
    widths: &W,
    columns: &[Column],
    text: &[u8],
) -> Result<Vec<Column>, AllocError>
    ensures { IfOk result (λ wide. wide.items
        ≡ widened (W.width widths.now) columns.now (cell_texts text.now)) }
{
    let mut cells = cells_of(text);
    let mut wide = Vec::with_capacity(alloc, columns.len())?;
    for column in columns {
        push_widened(&mut wide, widths, *column, text, &mut cells)?;
    }
    Ok(wide)
}

// Adds a column with the next cell of a row with this text, if there is one.
fn push_widened<W: CellWidths>(
    wide: &mut Vec<Column>,
    widths: &W,
    column: Column,
    text: &[u8],
    cells: &mut Cells,
) -> Result<(), AllocError>
    ensures { OnOk result ((later : List Column)
        → wide.new.items
        ++ widened (W.width widths.now) later (map (cell_text text.now) cells.new)
        ≡ wide.old.items
        ++ widened (W.width widths.now) (column ∷ later) (map (cell_text text.now) cells.old)) }
{
    let Some(cell) = next_cell(text, cells) else {
        wide.push(column)?;
        return Ok(());
    };
    wide.push(widened_by(widths, column, cell))?;
    Ok(())
}

// A column with one more cell.
fn widened_by<W: CellWidths>(widths: &W, column: Column, cell: &[u8]) -> Column
    ensures { result ≡ widened_by (W.width widths.now) column cell.now }
{
    Column {
        width: column.width.max(widths.width_of(cell)),
        ..column
    }
}
