//! List markers, with the space after them that belongs to them. (CommonMark 0.31.2, section 5.2)
ghost use Rattle.std.specs.Prelude.{◌≡◌, ◌<◌, ◌≤◌, Some, None, IfSome, IfNone};
ghost use Rattle.markdown_scanners_tree.specs.line.State.{after_space};
ghost use Rattle.markdown_blocks.specs.containers.Containers.{item_of};
ghost use Rattle.markdown_blocks.specs.containers.ItemMarkers.{item_outcome};
ghost use Rattle.markdown_blocks.specs.containers.private.Markers.{columns_left};

use crate::blank_lines::is_blank;
use crate::bullets::plain_bullet;
use crate::containers::{Container, ListItem};
use markdown_scanners_tree::line::LineStart;
use markdown_scanners_tree::scanners::scan_blank_line;

/// Passes the marker of the list item that begins at the position, after so many columns of space,
/// if one does.
pub(crate) fn scan_item<'a>(
    line: &'a [u8],
    start: &mut LineStart<'a>,
    indent: usize,
) -> Option<Container>
    requires bytes { start.old.bytes ≡ line.now }
    requires near { indent ≤ 4 }
    ensures found { IfSome result (λ container.
        item_of (item_outcome indent start.old) ≡ Some (container, start.new)) }
    ensures none { IfNone result (item_of (item_outcome indent start.old) ≡ None) }
    ensures unchanged { IfNone result (start.new ≡ start.old) }
    ensures bytes { start.new.bytes ≡ line.now }
    ensures rises { IfSome result (λ _. start.old.offset < start.new.offset) }
{
    if let Some(item) = scan_plain_item(line, start, indent) {
        return Some(item);
    }
    let (delimiter, number, width) = start.scan_list_marker_with_indent(indent)?;
    let further = pass_columns_left(line, start);
    Some(Container::Item(ListItem {
        delimiter,
        starts_blank: is_blank(&line[start.bytes_scanned()..]),
        width: (width + further) as u8,
        start: number as u32,
    }))
}

// Passes the columns of space that belong to the marker before them, where the call that has passed the
// marker took a form feed or a vertical tab for space, and so the rest for blank. Answers how many.
fn pass_columns_left(line: &[u8], start: &mut LineStart) -> usize
    requires { start.old.bytes ≡ line.now }
    ensures columns { result ≡ columns_left start.old }
    ensures none { result ≡ 0 → start.new ≡ start.old }
    ensures some { 0 < result → start.new ≡ after_space result start.old }
    ensures few { result < 4 }
    ensures bytes { start.new.bytes ≡ line.now }
    ensures forward { start.old.offset ≤ start.new.offset }
{
    let rest = &line[start.bytes_scanned()..];
    if scan_blank_line(rest).is_none() || is_blank(rest) {
        return 0;
    }
    let Ok(before) = start.clone() else {
        return 0;
    };
    let columns = start.scan_space_upto(4);
    if columns == 0 || columns == 4 {
        *start = before;
        return 0;
    }
    columns
}

// The same of an item as most are: a bullet, one space and text. One that it does not pass may begin there
// too.
#[inline(always)]
fn scan_plain_item<'a>(
    line: &'a [u8],
    start: &mut LineStart<'a>,
    indent: usize,
) -> Option<Container>
    requires bytes { start.old.bytes ≡ line.now }
    requires near { indent ≤ 4 }
    ensures found { IfSome result (λ container.
        item_of (item_outcome indent start.old) ≡ Some (container, start.new)) }
    ensures unchanged { IfNone result (start.new ≡ start.old) }
    ensures bytes { start.new.bytes ≡ line.now }
    ensures rises { IfSome result (λ _. start.old.offset < start.new.offset) }
{
    let offset = start.bytes_scanned();
    let bullet = plain_bullet(&line[offset..])?;
    if start.remaining_space() > 0 {
        return None;
    }
    *start = LineStart::resumed(line, offset + 2, 0, (start.phase() + 2) % 4)?;
    Some(Container::Item(ListItem {
        delimiter: bullet,
        starts_blank: false,
        width: indent as u8 + 2,
        start: 0,
    }))
}
