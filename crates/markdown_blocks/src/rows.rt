//! The rows of a table, and how its columns are aligned.
//! (GitHub Flavored Markdown 0.29, section 4.10)
ghost use Rattle.std.specs.Prelude.{◌≡◌, ◌+◌, ◌^◌, ◌<◌, ◌≤◌, ◌++◌, List, length, drop, IfOk};
ghost use Rattle.std.specs.Iterator.{YieldsFirstBy, item_count};
ghost use Rattle.markdown_scanners_tree.specs.scanners.TextLines.{lines_of};
ghost use Rattle.markdown_blocks.specs.declared.containers.Container.{Container};
ghost use Rattle.markdown_blocks.specs.rows.Rows.{AreAlignments, AreGiven, body_rows, first_row, later_rows, row_at, rows_of, seen_row};

use crate::containers::{Container, OpenContainers, go_on};
use crate::content::parts::first_offset;
use crate::delimiter_rows::alignments_in;
use crate::rest::{Rest, scan_rest};
use crate::taken::Extent;
use markdown_scanners_tree::line::LineStart;
use markdown_values::values::{Alignment, Extensions};
use std::alloc::{AllocError, Global};
use std::marker::Model;

/// A row of a table, whose cells `cells_of` gives.
#[derive(Clone, Copy)]
pub struct Row<'a> {
    /// How many bytes of the table's lines stand before its text.
    pub offset: usize,
    /// What its line has after its containers and its indent, with the line ending.
    pub text: &'a [u8],
}

/// The rows of a table that are left, from the first on.
#[derive(Drop)]
pub struct Rows<'a> {
    lines: &'a [u8],
    outer: OpenContainers<'a>,
    // The head, unless it is given, and the lines that are read.
    head: Option<Row<'a>>,
    read: Extent,
}

impl<'a> Model for Rows<'a> {
    ghost use Rattle.std.specs.Prelude.{◌++◌, List, drop};
    ghost use Rattle.markdown_scanners_tree.specs.scanners.TextLines.{lines_of};
    ghost use Rattle.markdown_blocks.specs.rows.Rows.{TextAt, first_row, later_rows};

    ghost Value = { List TextAt };

    ghost view = { λ r. first_row r.head
        ++ later_rows r.outer.containers r.read.bytes (lines_of (drop r.read.bytes r.lines.now)) };
}

impl<'a> Iterator for Rows<'a> {
    type Item = Row<'a>;

    ghost next_gives = { YieldsFirstBy seen_row (λ rows. rows) };

    ghost remaining = { item_count (λ rows. rows) };

    fn next(&mut self) -> Option<Row<'a>> {
        match self.head.take() {
            Some(head) => return Some(head),
            None => {}
        }
        let (line, more) = self.read.next(self.lines)?;
        let (_, start) = go_on(line, &self.outer);
        let row = row_at(line, start, self.read.bytes);
        self.read = more;
        Some(row)
    }
}

/// The rows of the lines, which are a table in these containers: its head, and those after the
/// delimiter row. The first line goes on with `kept` of the containers and begins the others.
pub fn rows_of<'a>(lines: &'a [u8], containers: &'a [Container], kept: usize) -> Rows<'a>
    ensures rows { result ≡ rows_of kept containers.now (lines_of lines.now) }
{
    let outer = OpenContainers::new(Extensions::none(), containers);
    let Some((line, read)) = Extent::nothing().next(lines) else {
        return Rows {
            lines,
            outer,
            head: None,
            read: Extent::nothing(),
        };
    };
    let head = row_at(line, first_offset(line, containers, kept), 0);
    Rows {
        lines,
        outer,
        head: Some(head),
        read: with_next(lines, read),
    }
}

// With the line after these, if there is one.
fn with_next(lines: &[u8], read: Extent) -> Extent
    ensures { (outer : List Container)
        → later_rows outer result.bytes (lines_of (drop result.bytes lines.now))
        ≡ body_rows outer read.bytes (lines_of (drop read.bytes lines.now)) }
{
    match read.next(lines) {
        Some((_, more)) => more,
        None => read,
    }
}

// The row that a line is, before which so many bytes stand, by the offset after its containers.
fn row_at<'a>(line: &'a [u8], mut start: LineStart, before: usize) -> Row<'a>
    requires line { start.bytes ≡ line.now }
    requires fits { before + length line.now < 2 ^ 64 }
    ensures { seen_row result ≡ row_at before start.entry }
{
    let rest = scan_rest(line, &mut start);
    Row {
        offset: before + start.bytes_scanned(),
        text: rest.text,
    }
}

/// How the columns of a table in these containers are aligned, by its delimiter row, the second of
/// these lines. None where that is no delimiter row.
///
/// # Errors
///
/// `AllocError` where memory for them is refused.
pub fn alignments_of(
    alloc: Global,
    lines: &[u8],
    containers: &[Container],
) -> Result<Vec<Alignment>, AllocError>
    ensures alignments { IfOk result (λ found.
        AreAlignments containers.now (lines_of lines.now) found.items) }
{
    let Some((_, read)) = Extent::nothing().next(lines) else {
        return Ok(Vec::new(alloc));
    };
    let Some((line, _)) = read.next(lines) else {
        return Ok(Vec::new(alloc));
    };
    let outer = OpenContainers::new(Extensions::none(), containers);
    let (_, mut start) = go_on(line, &outer);
    let rest = scan_rest(line, &mut start);
    columns_of(alloc, &rest)
}

// How the columns are aligned whose delimiter row this rest of a line is.
fn columns_of(alloc: Global, rest: &Rest) -> Result<Vec<Alignment>, AllocError>
    ensures { IfOk result (λ found. AreGiven rest.now found.items) }
{
    if rest.indent == 4 {
        return Ok(Vec::new(alloc));
    }
    alignments_in(alloc, rest.text)
}
