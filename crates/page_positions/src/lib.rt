//! Lines and columns of a page.
#![tactic(auto)]

ghost use Rattle.std.specs.Prelude.{◌≡◌, ◌⊎◌, ◌<◌, ◌≤◌, length};
ghost use Rattle.markdown_blocks.specs.byte_order_mark.ByteOrderMark.{text_of, text_start};
ghost use Rattle.page_positions.specs.Positions.{offset_of, position_of, text_offset, text_position};
ghost use Rattle.page_positions.specs.private.Lines.{IsLineOf};

use markdown_blocks::byte_order_mark::text_start;
use markdown_scanners_tree::scanners::scan_line;

/// Where something begins in a page, as editors say it.
#[derive(Clone, Copy, Debug)]
pub struct Position {
    /// Its line, from 1. (CommonMark 0.31.2, section 2.1)
    pub line: usize,
    /// Its column, from 1: one more than the bytes of the line before it.
    pub column: usize,
}

/// A line of a page: its number, from 1, and the offsets at which it begins and ends.
#[derive(Clone, Copy)]
pub struct Line {
    pub number: usize,
    pub start: usize,
    pub end: usize,
}

impl Line {
    /// The first line of a page.
    pub fn first(page: &[u8]) -> Line
        ensures line { IsLineOf page.now result }
        ensures start { result.start ≡ 0 }
    {
        Line {
            number: 1,
            start: 0,
            end: scan_line(page),
        }
    }

    /// The first line of the text of a page, which may begin with a byte order mark.
    pub fn first_of_text(page: &[u8]) -> Line
        ensures line { IsLineOf (text_of page.now) result }
    {
        Line::first(&page[text_start(page)..])
    }

    // The next line, or the end of the page.
    fn next(self, page: &[u8]) -> Line
        requires line { IsLineOf page.now self }
        requires more { self.start < length page.now }
        ensures line { IsLineOf page.now result }
        ensures start { result.start ≡ self.end }
    {
        Line {
            number: self.number + 1,
            start: self.end,
            end: self.end + scan_line(&page[self.end..]),
        }
    }

    // This line, or the first where the offset is before it.
    fn no_later(self, page: &[u8], offset: usize) -> Line
        requires line { IsLineOf page.now self }
        ensures line { IsLineOf page.now result }
        ensures begun { result.start ≤ offset }
    {
        if offset < self.start {
            return Line::first(page);
        }
        self
    }

    // The line that an offset is in, or the end of the page.
    fn holding(self, page: &[u8], offset: usize) -> Line
        requires line { IsLineOf page.now self }
        ensures line { IsLineOf page.now result }
        ensures begun { result.start ≤ offset }
        ensures holds { (offset < result.end) ⊎ (result.start ≡ length page.now) }
    {
        let mut line = self.no_later(page, offset);
        while line.end <= offset && line.start < page.len() {
            line = line.next(page);
        }
        line
    }
}

/// Where an offset is, if this is a line of the page, which becomes the one that the offset is in: of
/// offsets that rise each line is found once.
pub fn position_at(page: &[u8], line: &mut Line, offset: usize) -> Position
    requires line { IsLineOf page.now line.old }
    ensures line { IsLineOf page.now line.new }
    ensures position { result ≡ position_of page.now offset }
{
    *line = line.holding(page, offset);
    Position {
        line: line.number,
        column: offset.min(page.len()) - line.start + 1,
    }
}

/// Where an offset is in a page. It reads the page up to there.
pub fn position_of(page: &[u8], offset: usize) -> Position
    ensures position { result ≡ position_of page.now offset }
    ensures back { offset < length page.now → offset_of page.now result ≡ offset }
{
    position_at(page, &mut Line::first(page), offset)
}

/// The same of the text of a page, of which this is a line, where the offset is one of the page. A byte
/// order mark that the page begins with is in no column.
pub fn text_position_at(page: &[u8], line: &mut Line, offset: usize) -> Position
    requires line { IsLineOf (text_of page.now) line.old }
    ensures line { IsLineOf (text_of page.now) line.new }
    ensures position { result ≡ text_position page.now offset }
    ensures back { text_start page.now ≤ offset → offset < length page.now
        → text_offset page.now result ≡ offset }
{
    let start = text_start(page);
    position_at(&page[start..], line, offset.saturating_sub(start))
}
