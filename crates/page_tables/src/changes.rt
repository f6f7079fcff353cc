//! Which tables of a page change where they are laid out.
ghost use Rattle.std.specs.Prelude.{◌≡◌, ◌++◌, IfOk, OnOk, map, not};
ghost use Rattle.std.specs.Str.{bytes_eq};
ghost use Rattle.page_tables.specs.Changes.{AreChanges, changed_at, changed_heads, changes_of, delimiters_stay, row_stays, rows_stay, table_stays};
ghost use Rattle.page_tables.specs.Looks.{becomes_other, made_text};
ghost use Rattle.page_tables.specs.Marks.{head_start, mark_view};

use crate::cells::{are_equal, row_text};
use crate::columns::{Column, columns_of};
use crate::formatted::{Made, becomes_other, made_of};
use crate::layout::{delimiters_at, push_delimiter_row, push_row};
use crate::marks::{Mark, marks_of_page};
use crate::widths::CellWidths;
use std::alloc::{AllocError, Global};

/// Where a page changes when its tables are laid out: the offsets at which the heads begin of those
/// that are not, in their order. There are none exactly where `formatted` leaves the page as it is.
///
/// # Errors
///
/// `AllocError` where memory is refused.
pub fn changes_of_page<W: CellWidths>(
    alloc: Global,
    page: &str,
    widths: &W,
) -> Result<Vec<usize>, AllocError>
    ensures { IfOk result (λ heads. AreChanges (W.width widths.now) page.now heads.items) }
{
    let marks = marks_of_page(alloc, page)?;
    let made = made_of(alloc, page, widths, &marks)?;
    changes_of(alloc, page, widths, &marks, &made)
}

/// Where a page with these tables changes of which this is made.
pub(crate) fn changes_of<W: CellWidths>(
    alloc: Global,
    page: &str,
    widths: &W,
    marks: &[Mark],
    made: &Made,
) -> Result<Vec<usize>, AllocError>
    requires { becomes_other made.now ≡ not (bytes_eq (made_text page.now made.now) page.now) }
    ensures { IfOk result (λ heads. heads.items
        ≡ changes_of (W.width widths.now) page.now (map mark_view marks.now)
        (made_text page.now made.now)) }
{
    if !becomes_other(made) {
        return Ok(Vec::new(alloc));
    }
    let mut heads = changed_heads(alloc, page.as_bytes(), widths, marks)?;
    if heads.is_empty() {
        heads.push(0)?;
    }
    Ok(heads)
}

// Where the heads of the tables begin that change.
fn changed_heads<W: CellWidths>(
    alloc: Global,
    page: &[u8],
    widths: &W,
    marks: &[Mark],
) -> Result<Vec<usize>, AllocError>
    ensures { IfOk result (λ heads. heads.items
        ≡ changed_heads (W.width widths.now) page.now (map mark_view marks.now)) }
{
    let mut heads = Vec::new(alloc);
    let mut rest = marks;
    while let [mark, later @ ..] = rest {
        push_changed(&mut heads, alloc, page, widths, mark, later)?;
        rest = later;
    }
    Ok(heads)
}

// Adds where the head of the table begins that this mark begins, before these, if that changes.
fn push_changed<W: CellWidths>(
    heads: &mut Vec<usize>,
    alloc: Global,
    page: &[u8],
    widths: &W,
    mark: &Mark,
    later: &[Mark],
) -> Result<(), AllocError>
    ensures { OnOk result (heads.new.items ≡ heads.old.items
        ++ changed_at (W.width widths.now) page.now (mark_view mark.now)
        (map mark_view later.now)) }
{
    let Mark::Table(alignments) = mark else {
        return Ok(());
    };
    let columns = columns_of(alloc, page, widths, alignments, later)?;
    if table_stays(alloc, page, widths, &columns, later)? {
        return Ok(());
    }
    push_head(heads, later)
}

// Adds where the head begins that is the first of these.
fn push_head(heads: &mut Vec<usize>, later: &[Mark]) -> Result<(), AllocError>
    ensures { OnOk result (heads.new.items
        ≡ heads.old.items ++ head_start (map mark_view later.now)) }
{
    let [Mark::Head(range), ..] = later else {
        return Ok(());
    };
    heads.push(range.start)?;
    Ok(())
}

// Whether a table with these columns is laid out, or has none, and is left as it is.
fn table_stays<W: CellWidths>(
    alloc: Global,
    page: &[u8],
    widths: &W,
    columns: &[Column],
    later: &[Mark],
) -> Result<bool, AllocError>
    ensures { IfOk result (λ stays. stays
        ≡ table_stays (W.width widths.now) page.now columns.now (map mark_view later.now)) }
{
    if columns.is_empty() {
        return Ok(true);
    }
    if !delimiters_stay(alloc, page, columns, later)? {
        return Ok(false);
    }
    rows_stay(alloc, page, widths, columns, later)
}

// Whether the delimiter row after the head that is the first of these is laid out.
fn delimiters_stay(
    alloc: Global,
    page: &[u8],
    columns: &[Column],
    later: &[Mark],
) -> Result<bool, AllocError>
    ensures { IfOk result (λ stays. stays
        ≡ delimiters_stay page.now columns.now (map mark_view later.now)) }
{
    let [Mark::Head(range), rows @ ..] = later else {
        return Ok(true);
    };
    let mut row = Vec::new(alloc);
    push_delimiter_row(&mut row, columns)?;
    let below = delimiters_at(page, range.end, rows);
    Ok(are_equal(&row, row_text(page, &below)))
}

// Whether the rows up to the end of the table are laid out in these columns.
fn rows_stay<W: CellWidths>(
    alloc: Global,
    page: &[u8],
    widths: &W,
    columns: &[Column],
    later: &[Mark],
) -> Result<bool, AllocError>
    ensures { IfOk result (λ stays. stays
        ≡ rows_stay (W.width widths.now) page.now columns.now (map mark_view later.now)) }
{
    let mut rest = later;
    while let [Mark::Head(range) | Mark::Row(range), more @ ..] = rest {
        if !row_stays(alloc, widths, columns, row_text(page, range))? {
            return Ok(false);
        }
        rest = more;
    }
    Ok(true)
}

// Whether a row with this text is laid out in these columns.
fn row_stays<W: CellWidths>(
    alloc: Global,
    widths: &W,
    columns: &[Column],
    text: &[u8],
) -> Result<bool, AllocError>
    ensures { IfOk result (λ stays. stays
        ≡ row_stays (W.width widths.now) columns.now text.now) }
{
    let mut row = Vec::new(alloc);
    push_row(&mut row, widths, columns, text)?;
    Ok(are_equal(&row, text))
}
