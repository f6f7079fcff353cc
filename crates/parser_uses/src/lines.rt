//! Lines in containers, read column by column: their markers, and what stands after them.
ghost use Rattle.std.specs.Prelude.{◌≡◌, ◌++◌, ◌<◌, ◌≤◌, length, map, count_by, false, is_some, IfOk};
ghost use Rattle.std.specs.List.{concat, filter_map};
ghost use Rattle.markdown_scanners_tree.specs.Columns.{expanded};
ghost use Rattle.markdown_scanners_tree.specs.line.ItemRules.{is_item_alone, item_at_start};
ghost use Rattle.parser_uses.specs.Markers.{start_of, past_quote, after_item, item_after, box_after};

use markdown_scanners_tree::line::LineStart;
use markdown_scanners_tree::scanners::{scan_line, scan_listitem};
use std::alloc::{AllocError, Global};

// Goes past the marker of a block quote, after at most three spaces.
#[tactic(auto, unfolding(crate::specs::Markers::past_quote))]
fn pass_quote(start: &mut LineStart)
    ensures state { start.new ≡ past_quote start.old }
    ensures bytes { start.new.bytes ≡ start.old.bytes }
{
    start.scan_space_upto(3);
    start.scan_blockquote_marker();
}

// Goes past the marker of a list item, after at most three spaces.
#[tactic(auto, unfolding(crate::specs::Markers::after_item))]
fn pass_item(start: &mut LineStart)
    ensures state { start.new ≡ after_item start.old }
    ensures bytes { start.new.bytes ≡ start.old.bytes }
{
    start.scan_space_upto(3);
    start.scan_list_marker_with_indent(0);
}

/// The markers of its block quote and its list item, and what stands after them in a line.
pub fn split_markers(line: &[u8]) -> (&[u8], &[u8])
    ensures parts { line.now ≡ result.0.now ++ result.1.now }
    ensures markers { length result.0.now ≡ (after_item (past_quote (start_of line.now))).offset }
{
    let mut start = LineStart::new(line);
    pass_quote(&mut start);
    pass_item(&mut start);
    line.split_at(start.bytes_scanned())
}

// The list item that begins at the offset, after at most three spaces.
#[tactic(auto, unfolding(crate::specs::Markers::item_after))]
fn item_at(start: &mut LineStart) -> Option<(u8, u64, usize)>
    ensures { result ≡ item_after start.old }
{
    start.scan_space_upto(3);
    start.scan_list_marker_with_indent(0)
}

/// The list item that a line begins: its bullet or delimiter, the number that it starts at, and the indent of its text.
pub fn item_of(line: &[u8]) -> Option<(u8, u64, usize)>
    ensures { result ≡ item_after (start_of line.now) }
{
    item_at(&mut LineStart::new(line))
}

/// The items that lines begin, in order.
pub fn items_of(alloc: Global, lines: &[&[u8]]) -> Result<Vec<(u8, u64, usize)>, AllocError>
    ensures { IfOk result (λ items. items.items
        ≡ filter_map (λ line. item_after (start_of line.now)) lines.now) }
{
    lines.iter().filter_map(|line| item_of(line)).collect(alloc)
}

/// The line as a terminal with tab stops of four shows it, where a caret below it points at a column: its tabs are spaces.
pub fn shown_line(alloc: Global, line: &[u8]) -> Result<Vec<u8>, AllocError>
    ensures { IfOk result (λ text. text.items ≡ expanded line.now) }
{
    let start = LineStart::new(line);
    let Ok(length) = usize::try_from(start.rest_len()) else {
        return Err(AllocError);
    };
    let mut text = vec![in alloc; 0; length]?;
    match start.write_rest(&mut text) {
        Ok(_) => Ok(text),
        Err(_) => Err(AllocError),
    }
}

// The length of the item at the front: its first line, and those after it that begin no item.
fn item_length(text: &[u8]) -> usize
    ensures within { result ≤ length text.now }
    ensures rises { 0 < length text.now → 0 < result }
{
    let mut end = scan_line(text);
    while end < text.len() && begun_item(&text[end..]).is_none() {
        end += scan_line(&text[end..]);
    }
    end
}

/// The items of a list, each as a part of its text, which the parts together are.
pub fn list_items(alloc: Global, text: &[u8]) -> Result<Vec<&[u8]>, AllocError>
    ensures parts { IfOk result (λ items. concat (map (λ item. item.now) items.items) ≡ text.now) }
{
    let mut items = Vec::new(alloc);
    let mut rest = text;
    while !rest.is_empty() {
        let (item, later) = rest.split_at(item_length(rest));
        items.push(item)?;
        rest = later;
    }
    Ok(items)
}

/// How many items lines begin.
pub fn item_count(lines: &[&[u8]]) -> usize
    ensures { result ≡ count_by (λ line. is_some (item_after (start_of line.now))) lines.now }
{
    lines.iter().filter(|line| item_of(line).is_some()).count()
}

/// Whether the line ends a paragraph by a list item: where it begins one, unless it is an item to `scan_listitem` alone.
#[tactic(auto, using(markdown_scanners_tree::proofs::ForCallers::items_begun))]
pub fn ends_paragraph(line: &[u8]) -> bool
    ensures { is_item_alone line.now ≡ false → result ≡ is_some (item_at_start line.now) }
{
    scan_listitem(line).is_some()
}

/// The list item that the line begins: its bullet or delimiter, its start number and the indent of its text.
#[tactic(auto, unfolding(markdown_scanners_tree::specs::line::ItemRules::item_at_start))]
pub fn begun_item(line: &[u8]) -> Option<(u8, u64, usize)>
    ensures { result ≡ item_at_start line.now }
{
    LineStart::new(line).scan_list_marker_with_indent(0)
}

// The box that stands at the offset, and whether it is ticked.
#[tactic(auto, unfolding(crate::specs::Markers::box_after))]
fn box_at(start: &mut LineStart) -> Option<bool>
    ensures { result ≡ box_after start.old }
{
    start.scan_task_list_marker()
}

/// Whether the box before an item's text is ticked; None where there is no box.
pub fn is_ticked(item: &[u8]) -> Option<bool>
    ensures { result ≡ box_after (start_of item.now) }
{
    box_at(&mut LineStart::new(item))
}
