//! The lines that are written of a page, as editors take them.
ghost use Rattle.std.specs.Prelude.{◌≡◌, ◌++◌, OnOk, string_bytes};
ghost use Rattle.markdown_blocks.specs.byte_order_mark.ByteOrderMark.{text_of};
ghost use Rattle.page_positions.specs.private.Lines.{IsLineOf};
ghost use Rattle.page_tables.specs.Reports.{change_line, change_lines, left_line, line_at, misfit_line, misfit_lines, misfit_words};

use crate::misfits::{Misfit, Unfit};
use page_positions::{Line, Position, text_position_at};
use std::alloc::AllocError;

/// Adds a line for each table that changes, whose heads begin at these offsets of the page.
pub(crate) fn push_changes(
    text: &mut String,
    name: &str,
    page: &[u8],
    heads: &[usize],
) -> Result<(), AllocError>
    ensures { OnOk result (string_bytes text.new
        ≡ string_bytes text.old ++ change_lines name.now page.now heads.now) }
{
    let mut line = Line::first_of_text(page);
    for head in heads {
        push_change(text, name, page, &mut line, *head)?;
    }
    Ok(())
}

// Adds the line of a table that changes.
fn push_change(
    text: &mut String,
    name: &str,
    page: &[u8],
    line: &mut Line,
    offset: usize,
) -> Result<(), AllocError>
    requires line { IsLineOf (text_of page.now) line.old }
    ensures line { IsLineOf (text_of page.now) line.new }
    ensures written { OnOk result (string_bytes text.new
        ≡ string_bytes text.old ++ change_line name.now page.now offset) }
{
    let position = text_position_at(page, line, offset);
    push_line(text, name, position, "table is not laid out")
}

/// Adds a line for each of these rows of the page, for which tables are left as they are.
pub(crate) fn push_misfits(
    text: &mut String,
    name: &str,
    page: &[u8],
    rows: &[Misfit],
) -> Result<(), AllocError>
    ensures { OnOk result (string_bytes text.new
        ≡ string_bytes text.old ++ misfit_lines name.now page.now rows.now) }
{
    let mut line = Line::first_of_text(page);
    for row in rows {
        push_misfit(text, name, page, &mut line, *row)?;
    }
    Ok(())
}

// Adds the line of a row for which its table is left as it is.
fn push_misfit(
    text: &mut String,
    name: &str,
    page: &[u8],
    line: &mut Line,
    row: Misfit,
) -> Result<(), AllocError>
    requires line { IsLineOf (text_of page.now) line.old }
    ensures line { IsLineOf (text_of page.now) line.new }
    ensures written { OnOk result (string_bytes text.new
        ≡ string_bytes text.old ++ misfit_line name.now page.now row) }
{
    let position = text_position_at(page, line, row.start);
    push_line(text, name, position, misfit_words(row.why))
}

// Why a table is left as it is.
fn misfit_words(why: Unfit) -> &'static str
    ensures { result.now ≡ misfit_words why }
{
    match why {
        Unfit::TooManyCells => {
            "row has more cells than its table has columns, and the table is left as it is"
        }
        Unfit::NoCell => "row has no cell, and its table is left as it is",
        Unfit::TooWide => "table would be wider than 2000 columns, and is left as it is",
    }
}

// Adds a line that says something of a position.
fn push_line(
    text: &mut String,
    name: &str,
    position: Position,
    words: &str,
) -> Result<(), AllocError>
    ensures { OnOk result (string_bytes text.new
        ≡ string_bytes text.old ++ line_at name.now position words.now) }
{
    write!(text, "{name}:{}:{}: ", position.line, position.column)?;
    text.push_str(words)?;
    text.push_str("\n")
}

/// Adds the line of a page that is left as it is.
pub(crate) fn push_left(text: &mut String, name: &str) -> Result<(), AllocError>
    ensures { OnOk result (string_bytes text.new ≡ string_bytes text.old ++ left_line name.now) }
{
    text.push_str(name)?;
    text.push_str(":1:1: tables would not stay the same, and the page is left as it is\n")
}
