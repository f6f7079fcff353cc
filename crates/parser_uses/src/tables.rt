//! The cells of a page's tables.
ghost use Rattle.std.specs.Prelude.{◌≡◌};
ghost use Rattle.markdown_blocks.specs.blocks.Tables.{cells};

use markdown_blocks::blocks::BlockKind;
use markdown_blocks::cells::cells_of;
use markdown_blocks::containers::Container;
use markdown_blocks::content::cell_content;
use markdown_blocks::events::{BlockEvent, Blocks, Leaf};
use markdown_blocks::rows::{Row, alignments_of, rows_of};
use markdown_values::values::{Alignment, Extensions};
use std::alloc::{AllocError, Global};

/// How many cells the row with this text has.
pub fn count_cells(row: &[u8]) -> usize
    ensures { result ≡ cells row.now }
{
    cells_of(row).count()
}

// CommonMark with tables.
fn with_tables() -> Extensions {
    Extensions {
        tables: true,
        ..Extensions::none()
    }
}

/// The bytes of the cells of a page's tables, each with its offset in the page. A row ends with a
/// line feed and a cell with a tab, both at the offset of the row.
pub fn placed_cells(alloc: Global, page: &[u8]) -> Result<Vec<(u8, usize)>, AllocError> {
    let mut placed = Vec::new(alloc);
    let mut blocks = Blocks::new_ext(alloc, page, with_tables());
    let mut begun: usize = 0;
    while let Some(event) = blocks.next(alloc)? {
        match event {
            BlockEvent::Start(..) => begun = begun.saturating_add(1),
            BlockEvent::Block(leaf) => {
                add_table(alloc, &mut placed, page, leaf, blocks.containers(), begun)?;
                begun = 0;
            }
            BlockEvent::End => {}
        }
    }
    Ok(placed)
}

// Adds the cells of a leaf block in these containers, of which its first line begins so many, if it
// is a table.
fn add_table(
    alloc: Global,
    placed: &mut Vec<(u8, usize)>,
    page: &[u8],
    leaf: Leaf,
    containers: &[Container],
    begun: usize,
) -> Result<(), AllocError> {
    if !matches!(leaf.kind, BlockKind::Table(_)) {
        return Ok(());
    }
    let kept = containers.len().saturating_sub(begun);
    for row in rows_of(lines_in(page, leaf), containers, kept) {
        add_row(alloc, placed, row, leaf.start)?;
    }
    Ok(())
}

// The lines of a leaf block of the page.
fn lines_in<'a>(page: &'a [u8], leaf: Leaf) -> &'a [u8] {
    let end = leaf.start.saturating_add(leaf.bytes);
    page.get(leaf.start..end).unwrap_or(&[])
}

// Adds the cells of a row, before whose table so many bytes of the page stand.
fn add_row(
    alloc: Global,
    placed: &mut Vec<(u8, usize)>,
    row: Row,
    before: usize,
) -> Result<(), AllocError> {
    let source = before.saturating_add(row.offset);
    for cell in cells_of(row.text) {
        let content = cell_content(alloc, row.text, cell)?;
        for (offset, byte) in content.text().iter().enumerate() {
            placed.push((*byte, source.saturating_add(content.source_offset(offset))))?;
        }
        placed.push((b'\t', source))?;
    }
    placed.push((b'\n', source))?;
    Ok(())
}

/// How the columns of a page's first table are aligned. It has none where the page has no table.
pub fn first_alignments(alloc: Global, page: &[u8]) -> Result<Vec<Alignment>, AllocError> {
    let mut blocks = Blocks::new_ext(alloc, page, with_tables());
    while let Some(event) = blocks.next(alloc)? {
        match event {
            BlockEvent::Block(leaf) => {
                if matches!(leaf.kind, BlockKind::Table(_)) {
                    return alignments_of(alloc, lines_in(page, leaf), blocks.containers());
                }
            }
            BlockEvent::Start(..) | BlockEvent::End => {}
        }
    }
    Ok(Vec::new(alloc))
}
