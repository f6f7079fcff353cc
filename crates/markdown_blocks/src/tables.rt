//! Rows of tables: their cells, the delimiter row, and where they end.
//! (GitHub Flavored Markdown 0.29, section 4.10)
ghost use Rattle.std.specs.Prelude.{◌≡◌, ◌↔◌, ◌≤◌, ◌++◌, List, ℕ, drop, length, IsTrue};
ghost use Rattle.markdown_scanners_tree.specs.Ascii.{space};
ghost use Rattle.markdown_scanners_tree.specs.SomeExactly.{SomeExactly};
ghost use Rattle.markdown_scanners_tree.specs.scanners.TextLines.{lines_of};
ghost use Rattle.markdown_blocks.specs.blocks.Leaves.{Begins, In, IsRow, StopsBefore};
ghost use Rattle.markdown_blocks.specs.blocks.Tables.{cells, separates, separators, ends_separated};
ghost use Rattle.markdown_blocks.specs.delimiter_rows.DelimiterRows.{IsDelimiter};
ghost use Rattle.markdown_blocks.specs.declared.blocks.BlockKind.TheVariants.{Paragraph};
ghost use Rattle.markdown_blocks.specs.taken.Lines.{IsTaken};

use crate::blocks::BlockKind;
use crate::containers::OpenContainers;
use crate::delimiter_rows::count_columns;
use crate::info::{without_end, without_front};
use crate::kinds::kind_of;
use crate::line::Line;
use crate::rest::Rest;
use crate::taken::Extent;
use markdown_scanners_tree::scanners::line_head;

/// How many cells a line with this text has as a row.
pub(crate) fn count_cells(text: &[u8]) -> u128
    ensures { result ≡ cells text.now }
{
    let row = without_front(without_end(line_head(text)));
    let (count, is_last) = count_separators(row);
    let is_first = matches!(row, [b'|', ..]);
    (count as u128 + 1)
        .saturating_sub(u128::from(is_first))
        .saturating_sub(u128::from(is_last))
}

// How many pipes separate cells, and whether the last byte is one of them.
fn count_separators(row: &[u8]) -> (usize, bool)
    ensures count { result.0 ≡ separators space row.now }
    ensures last { result.1 ≡ ends_separated space row.now }
    ensures within { result.0 ≤ length row.now }
{
    let mut count = 0;
    let mut is_last = false;
    let mut before = b' ';
    for byte in row {
        is_last = separates(before, *byte);
        count += usize::from(is_last);
        before = *byte;
    }
    (count, is_last)
}

/// Whether the byte separates cells, after this one.
pub(crate) fn separates(before: u8, byte: u8) -> bool
    ensures { result ≡ separates before byte }
{
    byte == b'|' && before != b'\\'
}

/// How many columns a table has whose delimiter row the line is.
pub(crate) fn delimiter_columns(line: &Line) -> Option<usize>
    ensures { SomeExactly
        (λ columns. In line.now.outer.containers (IsDelimiter columns) line.now.bytes) result }
{
    let rest = line.rest_inside()?;
    columns_of(rest)
}

// The same of a line with this after its containers.
fn columns_of(rest: &Rest) -> Option<usize>
    ensures { SomeExactly (λ columns. IsDelimiter columns rest.now) result }
{
    if rest.indent == 4 {
        return None;
    }
    count_columns(rest.text)
}

/// The lines, and the rows of a table that stand directly after them.
pub(crate) fn take_rows<'a>(text: &'a [u8], first: Extent, outer: &'a OpenContainers<'a>) -> Extent
    ensures { (lines : List (List ℕ)) → IsTaken text.now first lines
        → (more : List (List ℕ)) × IsTaken text.now result (lines ++ more)
        × StopsBefore (λ line. ¬ IsRow outer.now line) more
        (lines_of (drop result.bytes text.now)) }
{
    let mut taken = first;
    while let Some((line, more)) = taken.next(text) {
        if !is_row(&Line::new(line, outer)) {
            return taken;
        }
        taken = more;
    }
    taken
}

// Whether the line is a row of a table in the containers.
fn is_row(line: &Line) -> bool
    ensures { IsTrue result ↔ IsRow line.now.outer line.now.bytes }
{
    let Some(rest) = line.rest_inside() else {
        return false;
    };
    if line.begins_container() {
        return false;
    }
    is_paragraph(rest)
}

// Whether a paragraph begins with this rest of a line, where no container does.
fn is_paragraph(rest: &Rest) -> bool
    ensures { IsTrue result ↔ Begins Paragraph rest.now }
{
    matches!(kind_of(rest), BlockKind::Paragraph)
}
