//! A page with its tables laid out. (GitHub Flavored Markdown 0.29, section 4.10, tables)
ghost use Rattle.std.specs.Prelude.{◌≡◌, ◌≤◌, ◌++◌, ◌∷◌, [], List, drop, length, map, replicate, slice_range, IfOk, IfSome, IfNone, OnOk};
ghost use Rattle.std.specs.List.{prefix_len};
ghost use Rattle.markdown_scanners_tree.specs.Ascii.{space};
ghost use Rattle.markdown_blocks.specs.info.Info.{without_end};
ghost use Rattle.page_tables.specs.Cells.{cell_text, cell_texts, row_text};
ghost use Rattle.page_tables.specs.Layout.{aligned, before_cell, delimiter, delimiter_row, delimiters, delimiters_at, enclosed};
ghost use Rattle.page_tables.specs.Layout.{is_before_row, laid_out, laid_out_from, next_start, row_cells, row_in};
ghost use Rattle.page_tables.specs.Marks.{MarkView, head, mark_view, row};
ghost use Rattle.page_tables.specs.declared.columns.Column.{Column};

use crate::cells::{next_cell, part, row_text};
use crate::columns::{Column, columns_of};
use crate::marks::Mark;
use crate::widths::CellWidths;
use markdown_blocks::cells::{Cells, cells_of};
use markdown_scanners_tree::scanners::{line_head, scan_line};
use markdown_values::values::Alignment;
use std::alloc::{AllocError, Global};
use std::ops::Range;

/// A page with these tables laid out: what is not text of a row stays.
///
/// # Errors
///
/// `AllocError` where memory is refused.
pub(crate) fn laid_out<W: CellWidths>(
    alloc: Global,
    page: &[u8],
    widths: &W,
    marks: &[Mark],
) -> Result<Vec<u8>, AllocError>
    ensures { IfOk result (λ made. made.items
        ≡ laid_out (W.width widths.now) page.now (map mark_view marks.now)) }
{
    let mut layout = Layout {
        out: Vec::new(alloc),
        from: 0,
        columns: Vec::new(alloc),
    };
    let mut rest = marks;
    while let [mark, later @ ..] = rest {
        layout.add_mark(alloc, page, widths, mark, later)?;
        rest = later;
    }
    let Layout { mut out, from, .. } = layout;
    out.extend_from_slice(part(page, from, page.len()))?;
    Ok(out)
}

// How far a page is laid out: what is written, from which offset on the page is left, and the columns
// of the table whose rows come next.
#[derive(Drop)]
struct Layout {
    out: Vec<u8>,
    from: usize,
    columns: Vec<Column>,
}

impl Layout {
    // Adds the page up to the end of what the mark names, after which these come.
    fn add_mark<W: CellWidths>(
        &mut self,
        alloc: Global,
        page: &[u8],
        widths: &W,
        mark: &Mark,
        later: &[Mark],
    ) -> Result<(), AllocError>
        ensures { OnOk result (self.new.out.items
            ++ laid_out_from (W.width widths.now) page.now self.new.from self.new.columns.items
            (map mark_view later.now)
            ≡ self.old.out.items
            ++ laid_out_from (W.width widths.now) page.now self.old.from self.old.columns.items
            (mark_view mark.now ∷ map mark_view later.now)) }
    {
        match mark {
            Mark::Table(alignments) => {
                self.columns = columns_of(alloc, page, widths, alignments, later)?;
                Ok(())
            }
            Mark::Head(range) => self.add_head(page, widths, range, later),
            Mark::Row(range) => self.add_row(page, widths, range),
            Mark::End => {
                self.columns.clear();
                Ok(())
            }
        }
    }

    // Adds the page up to the end of the delimiter row after this head, before these, unless its table
    // is left as it is.
    fn add_head<W: CellWidths>(
        &mut self,
        page: &[u8],
        widths: &W,
        range: &Range<usize>,
        later: &[Mark],
    ) -> Result<(), AllocError>
        ensures { OnOk result (self.new.out.items
            ++ laid_out_from (W.width widths.now) page.now self.new.from self.new.columns.items
            (map mark_view later.now)
            ≡ self.old.out.items
            ++ laid_out_from (W.width widths.now) page.now self.old.from self.old.columns.items
            (head range.now ∷ map mark_view later.now)) }
    {
        if self.columns.is_empty() {
            return Ok(());
        }
        self.push_row(page, widths, range)?;
        let below = delimiters_at(page, range.end, later);
        self.out
            .extend_from_slice(part(page, range.end, below.start))?;
        push_delimiter_row(&mut self.out, &self.columns)?;
        self.from = below.end;
        Ok(())
    }

    // Adds the page up to the end of this row, unless its table is left as it is.
    fn add_row<W: CellWidths>(
        &mut self,
        page: &[u8],
        widths: &W,
        range: &Range<usize>,
    ) -> Result<(), AllocError>
        ensures { OnOk result ((later : List MarkView) → self.new.out.items
            ++ laid_out_from (W.width widths.now) page.now self.new.from self.new.columns.items later
            ≡ self.old.out.items
            ++ laid_out_from (W.width widths.now) page.now self.old.from self.old.columns.items
            (row range.now ∷ later)) }
    {
        if self.columns.is_empty() {
            return Ok(());
        }
        self.push_row(page, widths, range)
    }

    // Adds the page up to the end of this row, in these columns.
    fn push_row<W: CellWidths>(
        &mut self,
        page: &[u8],
        widths: &W,
        range: &Range<usize>,
    ) -> Result<(), AllocError>
        ensures out { OnOk result (self.new.out.items ≡ self.old.out.items
            ++ slice_range page.now self.old.from range.now.start
            ++ row_in (W.width widths.now) self.old.columns.items (row_text page.now range.now)) }
        ensures from { OnOk result (self.new.from ≡ range.now.end) }
        ensures columns { OnOk result (self.new.columns.items ≡ self.old.columns.items) }
    {
        self.out
            .extend_from_slice(part(page, self.from, range.start))?;
        push_row(&mut self.out, widths, &self.columns, row_text(page, range))?;
        self.from = range.end;
        Ok(())
    }
}

/// Where the delimiter row stands in the page: between the head, which ends here, and what comes next
/// of these, in the line after the head.
pub(crate) fn delimiters_at(page: &[u8], head_end: usize, later: &[Mark]) -> Range<usize>
    ensures { result ≡ delimiters_at page.now head_end (map mark_view later.now) }
{
    let between = part(page, head_end, next_start(page, later));
    let line = scan_line(between);
    let start = line + space_len(part(between, line, between.len()));
    let row = without_end(line_head(part(between, start, between.len())));
    head_end + start..head_end + start + row.len()
}

// Where the next of these heads and rows begins, or the page ends.
fn next_start(page: &[u8], later: &[Mark]) -> usize
    ensures { result ≡ next_start page.now (map mark_view later.now) }
{
    let mut rest = later;
    while let [mark, more @ ..] = rest {
        if let Mark::Head(range) | Mark::Row(range) = mark {
            return range.start;
        }
        rest = more;
    }
    page.len()
}

// How many bytes stand at the front that may stand before a row.
fn space_len(bytes: &[u8]) -> usize
    ensures length { result ≡ prefix_len is_before_row bytes.now }
    ensures within { result ≤ length bytes.now }
{
    let mut rest = bytes;
    while let [b' ' | b'\t' | b'>', more @ ..] = rest {
        rest = more;
    }
    bytes.len() - rest.len()
}

// Without the spaces and tabs at its end.
fn without_end(bytes: &[u8]) -> &[u8]
    ensures row { result.now ≡ without_end bytes.now }
    ensures within { length result.now ≤ length bytes.now }
{
    let mut end = bytes.len();
    while end > 0 && matches!(bytes[end - 1], b' ' | b'\t') {
        end -= 1;
    }
    &bytes[..end]
}

/// Adds the delimiter row of these columns.
pub(crate) fn push_delimiter_row(out: &mut Vec<u8>, columns: &[Column]) -> Result<(), AllocError>
    ensures { OnOk result (out.new.items ≡ out.old.items ++ delimiter_row columns.now) }
{
    out.push(b'|')?;
    for column in columns {
        out.push(b' ')?;
        push_delimiter(out, column.alignment, column.width)?;
        out.extend_from_slice(b" |")?;
    }
    Ok(())
}

// Adds the cell of a delimiter row.
fn push_delimiter(out: &mut Vec<u8>, alignment: Alignment, width: usize) -> Result<(), AllocError>
    ensures { OnOk result (out.new.items ≡ out.old.items ++ delimiter alignment width) }
{
    match alignment {
        Alignment::Left => {
            out.push(b':')?;
            push_times(out, b'-', width.saturating_sub(1))
        }
        Alignment::Right => {
            push_times(out, b'-', width.saturating_sub(1))?;
            out.push(b':')?;
            Ok(())
        }
        Alignment::Center => {
            out.push(b':')?;
            push_times(out, b'-', width.saturating_sub(2))?;
            out.push(b':')?;
            Ok(())
        }
        Alignment::None => push_times(out, b'-', width),
    }
}

// Adds a byte so many times.
fn push_times(out: &mut Vec<u8>, byte: u8, count: usize) -> Result<(), AllocError>
    ensures { OnOk result (out.new.items ≡ out.old.items ++ replicate count byte) }
{
    let mut left = count;
    while left > 0 {
        out.push(byte)?;
        left -= 1;
    }
    Ok(())
}

/// Adds a row with this text in these columns.
pub(crate) fn push_row<W: CellWidths>(
    out: &mut Vec<u8>,
    widths: &W,
    columns: &[Column],
    text: &[u8],
) -> Result<(), AllocError>
    ensures { OnOk result (out.new.items
        ≡ out.old.items ++ row_in (W.width widths.now) columns.now text.now) }
{
    let mut cells = cells_of(text);
    out.push(b'|')?;
    for column in columns {
        push_cell(out, widths, *column, text, &mut cells)?;
    }
    Ok(())
}

// Adds the next cell of a row with this text, or an empty one, and the pipe after it.
fn push_cell<W: CellWidths>(
    out: &mut Vec<u8>,
    widths: &W,
    column: Column,
    text: &[u8],
    cells: &mut Cells,
) -> Result<(), AllocError>
    ensures { OnOk result ((later : List Column)
        → out.new.items ++ row_cells (W.width widths.now) later (map (cell_text text.now) cells.new)
        ≡ out.old.items
        ++ row_cells (W.width widths.now) (column ∷ later) (map (cell_text text.now) cells.old)) }
{
    let Some(cell) = next_cell(text, cells) else {
        return push_enclosed(out, widths, column, &[]);
    };
    push_enclosed(out, widths, column, cell)
}

// Adds a cell as wide as its column, and the pipe after it.
fn push_enclosed<W: CellWidths>(
    out: &mut Vec<u8>,
    widths: &W,
    column: Column,
    cell: &[u8],
) -> Result<(), AllocError>
    ensures { OnOk result (out.new.items
        ≡ out.old.items ++ enclosed (aligned (W.width widths.now) column cell.now)) }
{
    out.push(b' ')?;
    push_aligned(out, widths, column, cell)?;
    out.extend_from_slice(b" |")?;
    Ok(())
}

// Adds a cell as wide as its column.
fn push_aligned<W: CellWidths>(
    out: &mut Vec<u8>,
    widths: &W,
    column: Column,
    cell: &[u8],
) -> Result<(), AllocError>
    ensures { OnOk result (out.new.items
        ≡ out.old.items ++ aligned (W.width widths.now) column cell.now) }
{
    let free = column.width.saturating_sub(widths.width_of(cell));
    let before = before_cell(column.alignment, free);
    push_times(out, b' ', before)?;
    out.extend_from_slice(cell)?;
    push_times(out, b' ', free - before)
}

// How many of the spaces that fill a column stand before its cell.
fn before_cell(alignment: Alignment, free: usize) -> usize
    ensures before { result ≡ before_cell alignment free }
    ensures within { result ≤ free }
{
    match alignment {
        Alignment::Right => free,
        Alignment::Center => free / 2,
        Alignment::Left | Alignment::None => 0,
    }
}
