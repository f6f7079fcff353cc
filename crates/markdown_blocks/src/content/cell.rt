//! The content of a table's cells. (GitHub Flavored Markdown 0.29, section 4.10)
ghost use Rattle.std.specs.Prelude.{◌≡◌, ◌^◌, ◌++◌, ◌+◌, ◌<◌, ◌≤◌, [], ◌∷◌, true, false, length, IfOk, IsOk, OnOk};
ghost use Rattle.markdown_blocks.specs.cells.Contents.{bytes_of_cell, content_of_cell, escape_at, escapes_pipe, unescaped, unescaped_offsets};
ghost use Rattle.markdown_blocks.specs.content.Bytes.{AreBytesOf};

use crate::cells::Cell;
use crate::content::{Content, Segment};
use std::alloc::{AllocError, Global};

/// The content of a cell, for the inline pass: its bytes, but without a backslash that stands
/// directly before a pipe, whatever inline the two are in. Places are those in the row. Of a cell
/// that ends after the row it is what the row has.
///
/// Memory is asked for where a backslash is left out.
pub fn cell_content<'a>(alloc: Global, row: &'a [u8], cell: Cell) -> Result<Content<'a>, AllocError>
    ensures content { IfOk result (λ content. content ≡ content_of_cell row.now cell) }
    ensures lent { unescaped (bytes_of_cell row.now cell) ≡ bytes_of_cell row.now cell
        → IsOk result }
    ensures bytes { IfOk result (λ content. AreBytesOf row.now content) }
{
    let text = bytes_of_cell(row, cell);
    let offset = cell.start.min(row.len());
    if escape_at(text) == text.len() {
        return Ok(lent(alloc, text, offset));
    }
    built(alloc, text, offset)
}

// The bytes of a cell.
fn bytes_of_cell(row: &[u8], cell: Cell) -> &[u8]
    ensures bytes { result.now ≡ bytes_of_cell row.now cell }
    ensures within { cell.start ≤ length row.now → cell.start + length result.now ≤ length row.now }
    ensures none { length row.now ≤ cell.start → result.now ≡ [] }
{
    let (_, after) = row.split_at(cell.start.min(row.len()));
    let length = cell.end.saturating_sub(cell.start);
    let (bytes, _) = after.split_at(length.min(after.len()));
    bytes
}

// How many bytes stand before the first backslash that escapes a pipe.
fn escape_at(bytes: &[u8]) -> usize
    ensures length { result ≡ escape_at bytes.now }
    ensures within { result ≤ length bytes.now }
{
    let mut len = 0;
    while len < bytes.len() {
        if escapes_pipe(&bytes[len..]) {
            return len;
        }
        len += 1;
    }
    len
}

// Whether a backslash stands at the front, and a pipe directly after it.
fn escapes_pipe(bytes: &[u8]) -> bool
    ensures { result ≡ escapes_pipe bytes.now }
{
    matches!(bytes, [b'\\', b'|', ..])
}

// The content of a cell in which no pipe is escaped.
fn lent<'a>(alloc: Global, text: &'a [u8], source: usize) -> Content<'a>
    requires fits { source + length text.now < 2 ^ 64 }
    requires none { escape_at text.now ≡ length text.now }
    ensures { result ≡ record {
      text = unescaped text.now;
      offsets = unescaped_offsets source text.now;
      is_lent = true;
    } }
{
    Content {
        lent: text,
        built: Vec::new(alloc),
        first: Segment {
            offset: 0,
            columns: 0,
            source,
        },
        later: Vec::new(alloc),
    }
}

// The content of a cell: what stands before the first backslash that escapes a pipe, and what
// stands after each.
fn built<'a>(alloc: Global, text: &[u8], source: usize) -> Result<Content<'a>, AllocError>
    requires fits { source + length text.now < 2 ^ 64 }
    requires some { escape_at text.now < length text.now }
    ensures { IfOk result (λ content. content ≡ record {
      text = unescaped text.now;
      offsets = unescaped_offsets source text.now;
      is_lent = false;
    }) }
{
    let mut bytes = Vec::new(alloc);
    let mut segments = Vec::new(alloc);
    let (run, mut rest) = text.split_at(escape_at(text));
    add_run(&mut bytes, &mut segments, run, source)?;
    let mut end = source + run.len();
    while let [_, after @ ..] = rest {
        let (run, more) = after.split_at(escape_at(after));
        add_run(&mut bytes, &mut segments, run, end + 1)?;
        end += run.len() + 1;
        rest = more;
    }
    Ok(Content {
        lent: &[],
        built: bytes,
        first: Segment {
            offset: 0,
            columns: 0,
            source: 0,
        },
        later: segments,
    })
}

// Adds bytes that stand one after the other from this offset on.
fn add_run(
    bytes: &mut Vec<u8>,
    segments: &mut Vec<Segment>,
    run: &[u8],
    source: usize,
) -> Result<(), AllocError>
    ensures bytes { OnOk result (bytes.new.items ≡ bytes.old.items ++ run.now) }
    ensures segments { OnOk result (segments.new.items ≡ segments.old.items
        ++ record { offset = length bytes.old.items; columns = 0; source = source } ∷ []) }
{
    segments.push(Segment {
        offset: bytes.len(),
        columns: 0,
        source,
    })?;
    bytes.extend_from_slice(run)
}
