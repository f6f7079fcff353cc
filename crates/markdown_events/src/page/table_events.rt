//! The events of a table. (GitHub Flavored Markdown 0.29, section 4.10)
ghost use Rattle.std.specs.Prelude.{◌≡◌, ◌+◌, ◌-◌, ◌*◌, ◌^◌, ◌<◌, ◌≤◌, [], ◌∷◌, true, ℕ, suc, length, map, IfNone, IfOk, IfSome, IsTrue, OnOk};
ghost use Rattle.std.specs.Str.{IsCharBoundary, IsUtf8};
ghost use Rattle.markdown_values.specs.strings.Text.{cow_text};
ghost use Rattle.markdown_values.specs.values.Tags.{tag_view};
ghost use Rattle.markdown_blocks.specs.cells.Cells.{cells_of};
ghost use Rattle.markdown_blocks.specs.events.Events.{seen_leaf};
ghost use Rattle.markdown_blocks.specs.laws.Characters.{IsCutOut};
ghost use Rattle.markdown_blocks.specs.rows.Rows.{rows_of, seen_row};
ghost use Rattle.markdown_scanners_tree.specs.scanners.TextLines.{lines_of};
ghost use Rattle.markdown_events.specs.InlineEvents.{seen_event};
ghost use Rattle.markdown_events.specs.page.LeafContent.{HasPlace, LieInBlock};
ghost use Rattle.markdown_events.specs.TagEnds.{tag_end};
ghost use Rattle.markdown_events.specs.page.TableEvents.{Adds, AreCellEvents, AreRowEvents, AreTableEvents, AreUtf8, RowsEndBy};
ghost use Rattle.markdown_events.specs.page.TableEvents.{are_filled, row_len, row_tag, shown_cells};
ghost use Rattle.markdown_events.specs.page.Readings.{seen_place, seen_reading};

use crate::definitions::Definitions;
use crate::elements::{InlineMemory, take_room};
use crate::inline_events::source_events;
use crate::page::element::push_event;
use crate::page::leaf_content::{in_page, lines_in};
use crate::page::reading::{Place, Reading};
use crate::page::source::Source;
use markdown_blocks::cells::{Cell, Cells, cells_of};
use markdown_blocks::content::cell_content;
use markdown_blocks::events::Leaf;
use markdown_blocks::rows::{Row, Rows, alignments_of, rows_of};
use markdown_scanners_tree::scanners::{line_head, scan_lines};
use markdown_values::values::{Event, Tag, TagEnd};
use std::alloc::{AllocError, Global};
use std::collections::VecDeque;
use std::ops::Range;

/// The events of a table with so many columns, each with its range in the page.
///
/// The time is linear in the lines and in the events. Where rows are filled in, each has as many cells
/// as there are columns, however few its line has.
#[inline(never)]
pub(crate) fn table_events<'a, D: Definitions<'a>>(
    reading: &Reading<'a, '_, D>,
    memory: &mut InlineMemory<'a>,
    here: Place<'_>,
    leaf: Leaf,
    columns: usize,
) -> Result<VecDeque<(Event<'a>, Range<usize>)>, AllocError>
    requires cut_out { IsCutOut reading.now.page.now (seen_leaf leaf) }
    ensures events { IfOk result (λ events. AreTableEvents reading.now.page.now
        (seen_reading D.targets reading.now) (seen_place here.entry)
        (seen_leaf leaf.entry) columns (map seen_event events.items)) }
    ensures within { IfOk result (λ events. HasPlace (seen_leaf leaf.entry)
        → LieInBlock (seen_leaf leaf.entry) (map seen_event events.items)) }
{
    let lines = lines_in(reading.page.as_bytes(), leaf);
    let alignments = alignments_of(reading.alloc, lines, here.containers)?;
    let rows = rows_of(lines, here.containers, here.kept);
    let columns = Columns {
        count: columns,
        are_filled: are_filled(reading.room.cells, columns, lines, here),
    };
    let (from, to) = (leaf.offset, leaf.start + leaf.bytes);
    // A table has two events more than its rows.
    let mut events = take_room(reading.alloc, &mut memory.events, 2)?;
    push_event(&mut events, Event::Start(Tag::Table(alignments)), from, to)?;
    push_rows(reading, memory, &mut events, leaf.start, columns, rows)?;
    push_event(&mut events, Event::End(TagEnd::Table), from, to)?;
    Ok(VecDeque::from(events))
}

// How many columns a table has, and whether its rows are filled in, so that each has as many cells.
#[derive(Clone, Copy)]
struct Columns {
    count: usize,
    are_filled: bool,
}

// Whether in the rows of these lines, which are a table with so many columns that stands here, no
// more cells are missing than so many.
fn are_filled(cells: usize, columns: usize, lines: &[u8], here: Place<'_>) -> bool
    ensures { result ≡ are_filled cells columns
        (rows_of here.entry.kept here.entry.containers.now (lines_of lines.now)) }
{
    if has_few_lines(cells, columns, lines) {
        return true;
    }
    miss_few(cells, columns, rows_of(lines, here.containers, here.kept))
}

// Whether rows of so many columns have no more than so many cells, if there are as many as lines.
fn has_few_lines(cells: usize, columns: usize, lines: &[u8]) -> bool
    ensures { IsTrue result → length (lines_of lines.now) * columns ≤ cells }
{
    let mut left = cells;
    for _line in scan_lines(lines) {
        if columns > left {
            return false;
        }
        left -= columns;
    }
    true
}

// Whether no more cells are missing in rows of so many columns than so many.
fn miss_few(cells: usize, columns: usize, rows: Rows) -> bool
    ensures { result ≡ are_filled cells columns rows.entry }
{
    let mut rows = rows;
    let mut left = cells;
    while let Some(row) = rows.next() {
        let missing = columns.saturating_sub(cells_of(row.text).count());
        if missing > left {
            return false;
        }
        left -= missing;
    }
    true
}

// Adds the events of the rows of a table with these columns, before whose lines so many bytes of the
// page stand.
fn push_rows<'a, D: Definitions<'a>>(
    reading: &Reading<'a, '_, D>,
    memory: &mut InlineMemory<'a>,
    events: &mut Vec<(Event<'a>, Range<usize>)>,
    before: usize,
    columns: Columns,
    rows: Rows,
) -> Result<(), AllocError>
    requires within { RowsEndBy before (2 ^ 64 - 1) rows }
    requires utf8 { AreUtf8 rows }
    ensures { OnOk result (Adds (AreRowEvents (seen_reading D.targets reading.now)
        columns before true rows.entry)
        (map seen_event events.old.items) (map seen_event events.new.items)) }
{
    let mut rows = rows;
    let mut is_head = true;
    while let Some(row) = rows.next() {
        push_row(reading, memory, events, before, columns, row, is_head)?;
        is_head = false;
    }
    Ok(())
}

// Adds the events of a row, which is the head or not.
fn push_row<'a, D: Definitions<'a>>(
    reading: &Reading<'a, '_, D>,
    memory: &mut InlineMemory<'a>,
    events: &mut Vec<(Event<'a>, Range<usize>)>,
    before: usize,
    columns: Columns,
    row: Row,
    is_head: bool,
) -> Result<(), AllocError>
    requires fits { before + row.offset + length row.text.now < 2 ^ 64 }
    requires utf8 { IsUtf8 row.text.now }
    ensures { OnOk result (Adds (AreRowEvents (seen_reading D.targets reading.now)
        columns before is_head (seen_row row.entry ∷ []))
        (map seen_event events.old.items) (map seen_event events.new.items)) }
{
    let from = before + row.offset;
    let to = from + row_len(row.text);
    let (tag, end) = row_tags(is_head);
    push_event(events, Event::Start(tag), from, to)?;
    push_cells(reading, memory, events, from, columns, row.text)?;
    push_event(events, Event::End(end), from, to)
}

// The start and the end of a row. The first row is the head.
fn row_tags<'a>(is_head: bool) -> (Tag<'a>, TagEnd)
    ensures tag { tag_view cow_text result.0 ≡ row_tag is_head }
    ensures end { result.1 ≡ tag_end (row_tag is_head) }
{
    if is_head {
        (Tag::TableHead, TagEnd::TableHead)
    } else {
        (Tag::TableRow, TagEnd::TableRow)
    }
}

// How many bytes a row has, without the spaces and tabs at its end, and the line ending.
fn row_len(text: &[u8]) -> usize
    ensures length { result ≡ row_len text.now }
    ensures within { result ≤ length text.now }
{
    let line = line_head(text);
    let mut end = line.len();
    while end > 0 && matches!(line[end - 1], b' ' | b'\t') {
        end -= 1;
    }
    end
}

// Adds the events of the cells of a row with this text, before which so many bytes of the page stand.
fn push_cells<'a, D: Definitions<'a>>(
    reading: &Reading<'a, '_, D>,
    memory: &mut InlineMemory<'a>,
    events: &mut Vec<(Event<'a>, Range<usize>)>,
    before: usize,
    columns: Columns,
    text: &[u8],
) -> Result<(), AllocError>
    requires fits { before + length text.now < 2 ^ 64 }
    requires utf8 { IsUtf8 text.now }
    ensures { OnOk result (Adds (AreCellEvents (seen_reading D.targets reading.now)
        before text.now (shown_cells columns.are_filled columns.count (row_len text.now)
        (cells_of text.now)))
        (map seen_event events.old.items) (map seen_event events.new.items)) }
{
    let end = row_len(text);
    let mut cells = cells_of(text);
    let mut left = columns.count;
    while left > 0 {
        let Some(cell) = next_cell(&mut cells, end, columns.are_filled) else {
            return Ok(());
        };
        push_cell(reading, memory, events, before, text, cell)?;
        left -= 1;
    }
    Ok(())
}

// The next cell; after the last an empty one at the end of the row, if that is filled in.
fn next_cell(cells: &mut Cells, end: usize, is_filled: bool) -> Option<Cell>
    ensures next { IfSome result (λ cell. (columns : ℕ) → shown_cells is_filled (suc columns) end
        cells.old ≡ cell ∷ shown_cells is_filled columns end cells.new) }
    ensures none { IfNone result ((columns : ℕ) → shown_cells is_filled columns end cells.old ≡ []) }
{
    match cells.next() {
        Some(cell) => Some(cell),
        None if is_filled => Some(Cell { start: end, end }),
        None => None,
    }
}

// Adds the events of a cell of the row with this text, before which so many bytes of the page stand.
fn push_cell<'a, D: Definitions<'a>>(
    reading: &Reading<'a, '_, D>,
    memory: &mut InlineMemory<'a>,
    events: &mut Vec<(Event<'a>, Range<usize>)>,
    before: usize,
    text: &[u8],
    cell: Cell,
) -> Result<(), AllocError>
    requires fits { before + length text.now < 2 ^ 64 }
    requires in_order { cell.start ≤ cell.end }
    requires within { cell.end ≤ length text.now }
    requires utf8 { IsUtf8 text.now }
    requires begins { IsCharBoundary text.now cell.start }
    requires ends { IsCharBoundary text.now cell.end }
    ensures { OnOk result (Adds (AreCellEvents (seen_reading D.targets reading.now)
        before text.now (cell ∷ []))
        (map seen_event events.old.items) (map seen_event events.new.items)) }
{
    let content = cell_content(reading.alloc, text, cell)?;
    let source = Source::of_cell(reading.page, before, &content);
    let inlines = source_events(
        reading.alloc,
        memory,
        &source,
        reading.definitions,
        reading.asked,
    )?;
    let mut inner = in_page(inlines, before, &content);
    let (from, to) = (before + cell.start, before + cell.end);
    push_event(events, Event::Start(Tag::TableCell), from, to)?;
    events.append(&mut inner)?;
    // The inlines of the next cell are written into the same memory.
    memory.events = inner;
    push_event(events, Event::End(TagEnd::TableCell), from, to)
}
