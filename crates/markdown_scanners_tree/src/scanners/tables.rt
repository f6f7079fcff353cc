//! The delimiter row of a table.
ghost use Rattle.std.specs.Prelude.{◌≡◌, ◌+◌, ◌<◌, ◌≤◌, ◌==◌, ℕ, List, [], length, drop, ◌++◌, map};
ghost use Rattle.std.specs.Prelude.{IsTrue, false, not, ◌||◌, ◌&&◌, OnOk, OnErr, IfSome, IfNone, IfOk};
ghost use Rattle.std.specs.List.{prefix_len, list_any};
ghost use Rattle.markdown_scanners_tree.specs.Bytes.{begins_with};
ghost use Rattle.markdown_scanners_tree.specs.scanners.tables.DelimiterRow.{is_cell_byte, alignment, alignment_by, counted_last_cell, is_space};
ghost use Rattle.markdown_scanners_tree.specs.scanners.tables.DelimiterRow.{is_hyphen, is_colon, is_pipe, IsDelimiterRow, NoDelimiterRow};
ghost use Rattle.markdown_scanners_tree.specs.scanners.tables.BegunRow.{begins_with_cell, begins_row};
ghost use Rattle.markdown_scanners_tree.specs.scanners.tables.private.RowPass.{hyphen_after, row_len, is_passed};
ghost use Rattle.markdown_scanners_tree.specs.scanners.tables.private.ScannedCells.{after_cell, NoCells, AreScannedCells};

use crate::scanners::lines::scan_eol;
use crate::scanners::runs::{first_bytes, has_byte, scan_ch, scan_ch_repeat};
use markdown_values::values::Alignment;
use std::alloc::{AllocError, Global};

// How many spaces may stand before a delimiter row.
const MOST_SPACES: usize = 3;

/// The length in bytes of a table's delimiter row at the front, with its line ending, and the
/// alignment of each of its columns; 0 and no alignments where no such row stands there.
///
/// (GitHub Flavored Markdown 0.29, section 4.10.)
///
/// # Errors
///
/// `AllocError` where memory for the alignments is refused. It is asked for once a first cell is
/// read.
pub fn scan_table_head(alloc: Global, bytes: &[u8]) -> Result<(usize, Vec<Alignment>), AllocError>
    // A row is there, or none.
    ensures found { IfOk result (λ r. 0 < r.0 → IsDelimiterRow bytes.now r.0 r.1.items) }
    ensures only { IfOk result (λ r. 0 < r.0 → (row : ℕ × List Alignment)
        → IsDelimiterRow bytes.now row.0 row.1 → row ≡ (r.0, r.1.items)) }
    ensures none { IfOk result (λ r. r.0 ≡ 0 → NoDelimiterRow bytes.now) }

    // How many alignments and bytes are answered.
    ensures empty { IfOk result (λ r. r.0 ≡ 0 → r.1.items ≡ []) }
    ensures some_alignment { IfOk result (λ r. 0 < r.0 → 0 < length r.1.items) }
    ensures within { IfOk result (λ r. r.0 ≤ length bytes.now) }

    // Memory is asked for where the first cell of a row is read.
    ensures asked { OnErr result (IsTrue (begins_row bytes.now)) }
{
    let indent = scan_ch_repeat(first_bytes(bytes, MOST_SPACES + 1), b' ');
    if indent > MOST_SPACES {
        return Ok((0, Vec::new(alloc)));
    }
    if !may_be_row(&bytes[indent..]) {
        return Ok((0, Vec::new(alloc)));
    }
    let piped = scan_ch(&bytes[indent..], b'|');
    let start = indent + piped;
    let Some(cells) = scan_cells(alloc, &bytes[start..])? else {
        return Ok((0, Vec::new(alloc)));
    };
    if has_hyphens(cells.ended, cells.hyphen) {
        Ok((start + cells.length, cells.alignments))
    } else {
        Ok((0, Vec::new(alloc)))
    }
}

// Whether a first pass over the bytes of a row goes to the line's end, and over a pipe. It ends where
// the row does not go on; so few lines that are no delimiter row get past this, none of a text
// without pipes, and from each of many pipes a line is read no farther than to the next.
fn may_be_row(bytes: &[u8]) -> bool
    ensures { result ≡ is_passed bytes.now }
{
    let n = scan_row_bytes(bytes);
    scan_eol(&bytes[n..]).is_some() && has_byte(&bytes[..n], b'|')
}

// The length of the longest prefix of pipes and bytes of cells in which each pipe, but one in front,
// ends a cell that has a hyphen.
fn scan_row_bytes(bytes: &[u8]) -> usize
    ensures run { result ≡ row_len bytes.now }
    ensures within { result ≤ length bytes.now }
{
    let mut hyphen = matches!(bytes, [b'|', ..]);
    let mut count = 0;
    while count < bytes.len() {
        let Some(next) = hyphen_after(hyphen, bytes[count]) else {
            return count;
        };
        hyphen = next;
        count += 1;
    }
    count
}

// Whether the cell has a hyphen after this byte; None where no row goes on with it.
fn hyphen_after(hyphen: bool, byte: u8) -> Option<bool>
    ensures { result ≡ hyphen_after hyphen byte }
{
    match byte {
        b'-' => Some(true),
        b' ' | b':' => Some(hyphen),
        b'|' if hyphen => Some(false),
        _ => None,
    }
}

// Whether a hyphen stands in the cells: each that a pipe ended has one.
fn has_hyphens(ended: bool, hyphen: bool) -> bool
    ensures { result ≡ (ended || hyphen) }
{
    ended || hyphen
}

// What a scan of a delimiter row's cells tells of them.
#[derive(Drop)]
struct Cells {
    // The bytes of the cells, with their pipes and the line ending.
    length: usize,
    alignments: Vec<Alignment>,
    // A pipe ended some cell.
    ended: bool,
    // The last cell has a hyphen.
    hyphen: bool,
}

// The cells of a delimiter row after its indent and the pipe in front; None where there are none.
fn scan_cells(alloc: Global, bytes: &[u8]) -> Result<Option<Cells>, AllocError>
    ensures found { IfOk result (λ r. IfSome r (λ cells.
        AreScannedCells bytes.now cells.length cells.alignments.items cells.ended cells.hyphen)) }
    ensures none { IfOk result (λ r. IfNone r (NoCells bytes.now)) }

    ensures within { IfOk result (λ r. IfSome r (λ cells. cells.length ≤ length bytes.now)) }
    ensures asked { OnErr result (IsTrue (begins_with_cell bytes.now)) }
{
    let mut alignments = Vec::new(alloc);
    let mut i = 0;
    while let Some(len) = scan_ended_cell(&bytes[i..]) {
        let cell = &bytes[i..i + len];
        if !has_hyphen(cell) {
            return Ok(None);
        }
        alignments.push(alignment_of(cell))?;
        i += len + 1;
    }
    let ended = !alignments.is_empty();
    let len = scan_cell_bytes(&bytes[i..]);
    let last = &bytes[i..i + len];
    let Some(ending) = scan_eol(&bytes[i + len..]) else {
        return Ok(None);
    };
    let hyphen = has_hyphen(last);
    push_last(&mut alignments, last)?;
    Ok(Some(Cells {
        length: i + len + ending,
        alignments,
        ended,
        hyphen,
    }))
}

// Whether the cell has a hyphen, which is most often its first byte.
fn has_hyphen(cell: &[u8]) -> bool
    ensures { result ≡ list_any is_hyphen cell.now }
{
    match cell {
        [b'-', ..] => true,
        _ => has_byte(cell, b'-'),
    }
}

// Adds the alignment of a last cell that counts.
fn push_last(alignments: &mut Vec<Alignment>, last: &[u8]) -> Result<(), AllocError>
    ensures pushed { OnOk result (alignments.new.items
        ≡ alignments.old.items ++ map alignment (counted_last_cell last.now)) }
    ensures asked { OnErr result (IsTrue (list_any (λ b. not (is_space b)) last.now)) }
{
    if counts(last) {
        alignments.push(alignment_of(last))?;
    }
    Ok(())
}

// Whether the last cell has a byte that is no space.
fn counts(last: &[u8]) -> bool
    ensures { result ≡ list_any (λ b. not (is_space b)) last.now }
{
    last.iter().any(|b| *b != b' ')
}

// The length of the longest prefix of bytes of a cell.
fn scan_cell_bytes(bytes: &[u8]) -> usize
    ensures run { result ≡ prefix_len is_cell_byte bytes.now }
    ensures within { result ≤ length bytes.now }
{
    let mut count = 0;
    while count < bytes.len() && matches!(bytes[count], b' ' | b':' | b'-') {
        count += 1;
    }
    count
}

// The length of that prefix, where a pipe ends it.
fn scan_ended_cell(bytes: &[u8]) -> Option<usize>
    // A pipe ends it.
    ensures run { IfSome result (λ n. n ≡ prefix_len is_cell_byte bytes.now) }
    ensures inside { IfSome result (λ n. n < length bytes.now) }
    ensures piped { IfSome result (λ n. IsTrue (begins_with is_pipe (drop n bytes.now))) }

    // None does.
    ensures none { IfNone result (begins_with is_pipe (after_cell bytes.now) ≡ false) }
{
    let n = scan_cell_bytes(bytes);
    if n < bytes.len() && bytes[n] == b'|' {
        Some(n)
    } else {
        None
    }
}

// The alignment that a cell stands for.
fn alignment_of(cell: &[u8]) -> Alignment
    ensures { result ≡ alignment cell.now }
{
    let i = scan_ch_repeat(cell, b' ');
    if i == cell.len() {
        return Alignment::None;
    }
    let begins = cell[i] == b':';
    let later = has_colon(&cell[i + 1..]);
    alignment_by(begins, later)
}

// Whether these bytes of a cell have a colon. There are none of them in a cell of one byte.
fn has_colon(bytes: &[u8]) -> bool
    ensures { result ≡ list_any is_colon bytes.now }
{
    !bytes.is_empty() && has_byte(bytes, b':')
}

// The alignment by a colon at the front and one later.
fn alignment_by(begins: bool, later: bool) -> Alignment
    ensures { result ≡ alignment_by begins later }
{
    match (begins, later) {
        (false, false) => Alignment::None,
        (true, false) => Alignment::Left,
        (false, true) => Alignment::Right,
        (true, true) => Alignment::Center,
    }
}
