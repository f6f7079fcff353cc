//! The cells of a row of a table.
//! (GitHub Flavored Markdown 0.29, section 4.10)
ghost use Rattle.std.specs.Prelude.{◌≡◌, ◌+◌, ◌-◌, ◌^◌, ◌<◌, ◌≤◌, List, length, take, if◌then◌else◌};
ghost use Rattle.std.specs.Iterator.{YieldsFirst, item_count};
ghost use Rattle.markdown_scanners_tree.specs.Ascii.{space};
ghost use Rattle.markdown_scanners_tree.specs.Bytes.{begins_with};
ghost use Rattle.markdown_scanners_tree.specs.scanners.tables.DelimiterRow.{is_pipe};
ghost use Rattle.markdown_blocks.specs.blocks.Tables.{cells, ends_separated};
ghost use Rattle.markdown_blocks.specs.cells.Cells.{AreBetween, cell_at, cells_left, cells_of, first_len, pieces};
ghost use Rattle.markdown_blocks.specs.declared.cells.Cell.{Cell};

use crate::info::{without_end, without_front};
use crate::tables::separates;
use markdown_scanners_tree::scanners::{line_head, scan_spaces_and_tabs};
use std::marker::Model;

/// A cell of a row: how many bytes of the row stand before its first byte, and before its end.
#[derive(Clone, Copy)]
pub struct Cell {
    pub start: usize,
    pub end: usize,
}

/// The cells of a row that are left, from the first on.
#[derive(Drop)]
pub struct Cells<'a> {
    // What stands after the pipe before the next cell, and after how many bytes of the row.
    rest: &'a [u8],
    offset: usize,
    is_done: bool,
}

impl<'a> Model for Cells<'a> {
    ghost Value = { List Cell };

    ghost view = { λ c. cells_left c.is_done c.offset c.rest.now };

    ghost invariant = { λ c. c.offset + length c.rest.now < 2 ^ 64 };
}

impl<'a> Iterator for Cells<'a> {
    type Item = Cell;

    ghost next_gives = { YieldsFirst (λ left. left) };

    ghost remaining = { item_count (λ left. left) };

    fn next(&mut self) -> Option<Cell> {
        if self.is_done {
            return None;
        }
        let (piece, rest) = self.rest.split_at(piece_len(self.rest));
        let cell = cell_at(piece, self.offset);
        match rest {
            [_, after @ ..] => {
                self.offset += piece.len() + 1;
                self.rest = after;
            }
            [] => self.is_done = true,
        }
        Some(cell)
    }
}

/// The cells of the row with this text, which is what its line has after its containers and its
/// indent. They may be fewer than the table has columns, or more.
pub fn cells_of(text: &[u8]) -> Cells<'_>
    ensures cells { result ≡ cells_of text.now }
    ensures counted { length result ≡ cells text.now }
    ensures between { AreBetween 0 (length text.now) result }
    ensures fits { length result < 2 ^ 64 }
{
    let line = without_end(line_head(text));
    let front = scan_spaces_and_tabs(line);
    let row = without_front(line);
    let inner = without_pipe_at_end(row);
    let offset = usize::from(begins_with_pipe(row));
    if inner.len() < offset {
        return Cells {
            rest: inner,
            offset: 0,
            is_done: true,
        };
    }
    Cells {
        rest: &inner[offset..],
        offset: front + offset,
        is_done: false,
    }
}

// Whether the first byte is a pipe.
fn begins_with_pipe(row: &[u8]) -> bool
    ensures { result ≡ begins_with is_pipe row.now }
{
    matches!(row, [b'|', ..])
}

// Without a pipe that separates at its end.
fn without_pipe_at_end(row: &[u8]) -> &[u8]
    ensures { result.now ≡ take (length row.now - (if ends_separated space row.now then 1 else 0))
        row.now }
{
    if !ends_separated(row) {
        return row;
    }
    &row[..row.len().saturating_sub(1)]
}

// Whether the last byte is a pipe that separates.
fn ends_separated(row: &[u8]) -> bool
    ensures { result ≡ ends_separated space row.now }
{
    match row {
        [] => false,
        [byte] => separates(b' ', *byte),
        [.., before, byte] => separates(*before, *byte),
    }
}

// How many bytes stand before the first pipe that separates.
fn piece_len(row: &[u8]) -> usize
    ensures length { result ≡ first_len (pieces space row.now) }
    ensures within { result ≤ length row.now }
{
    let mut before = b' ';
    let mut len = 0;
    for byte in row {
        if separates(before, *byte) {
            return len;
        }
        before = *byte;
        len += 1;
    }
    len
}

// The cell that the piece is, after so many bytes of its row.
fn cell_at(piece: &[u8], offset: usize) -> Cell
    requires { offset + length piece.now < 2 ^ 64 }
    ensures { result ≡ cell_at offset piece.now }
{
    let start = offset + scan_spaces_and_tabs(piece);
    Cell {
        start,
        end: start + without_end(without_front(piece)).len(),
    }
}
