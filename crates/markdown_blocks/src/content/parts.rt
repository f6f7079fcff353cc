//! The parts of a leaf block's lines that are its content, one after the other.
ghost use Rattle.std.specs.Prelude.{◌≡◌, ◌↔◌, ◌++◌, ◌+◌, ◌-◌, ◌<◌, ◌≤◌, List, ℕ, true, drop, length, take, IsTrue, None, Some};
ghost use Rattle.markdown_scanners_tree.specs.scanners.TextLines.{lines_of};
ghost use Rattle.markdown_blocks.specs.blocks.Leaves.{ClosesFence, In};
ghost use Rattle.markdown_blocks.specs.containers.Containers.{all_containers, begun_at};
ghost use Rattle.markdown_blocks.specs.content.Parts.{AreInner, IsLeftOut, after_containers, after_indent, after_width, first_offset, heading_part};
ghost use Rattle.markdown_blocks.specs.content.Parts.{later_offset, part_at};
ghost use Rattle.markdown_blocks.specs.content.Parts.{offset_inside, text_offset, without_closing, without_signs};
ghost use Rattle.markdown_blocks.specs.content.Seen.{IsFirstIn, IsIn, seen_part};
ghost use Rattle.markdown_blocks.specs.declared.containers.Container.{Container};

use crate::blank_lines::is_blank;
use crate::blocks::BlockKind;
use crate::blocks::endings::closes_fence;
use crate::containers::{Container, OpenContainers, all_containers, go_on, pass, scan_container};
use crate::content::line_endings::written;
use crate::info::{without_end, without_front};
use crate::line::Line;
use crate::taken::Extent;
use markdown_scanners_tree::line::LineStart;
use markdown_scanners_tree::scanners::{line_head, scan_ch_repeat};
use markdown_values::values::Extensions;

/// A part of a line: so many columns of this filler, in place of the byte before this offset, and the
/// bytes from there on.
#[derive(Clone, Copy)]
pub(crate) struct LinePart<'a> {
    pub(crate) columns: usize,
    pub(crate) filler: u8,
    pub(crate) offset: usize,
    pub(crate) bytes: &'a [u8],
}

/// The parts that are not read yet: what is left of the line that is read, and those of later lines,
/// as many as belong to the content.
#[derive(Clone, Copy)]
pub(crate) struct Parts<'a> {
    pub(crate) lines: &'a [u8],
    first: Option<LinePart<'a>>,
    // The line ending after it, where that is written as a line feed.
    ending: Option<LinePart<'a>>,
    // What is read of the lines, and how many of them there are.
    read: Extent,
    count: usize,
    cut: Cut<'a>,
    ghost first_in: { IsFirstIn lines.now first },
    ghost ending_in: { IsFirstIn lines.now ending },
}

// How later lines are cut: by the kind of their block, the columns that its fence is indented, and
// the containers.
#[derive(Clone, Copy)]
struct Cut<'a> {
    kind: BlockKind,
    indent: usize,
    outer: &'a OpenContainers<'a>,
}

impl<'a> Parts<'a> {
    ghost use Rattle.std.specs.Prelude.{◌≡◌, [], ◌∷◌, IfSome, IfNone};
    ghost use Rattle.markdown_scanners_tree.specs.scanners.TextLines.{lines_of};
    ghost use Rattle.markdown_blocks.specs.content.Left.{parts_left};
    ghost use Rattle.markdown_blocks.specs.content.Parts.{AreParts};
    ghost use Rattle.markdown_blocks.specs.content.Seen.{IsIn, seen_part};

    /// The parts of the content of these lines, which are a block of this kind in these containers.
    pub(crate) fn of(
        lines: &'a [u8],
        kind: BlockKind,
        outer: &'a OpenContainers<'a>,
        kept: usize,
    ) -> Parts<'a>
        ensures parts { AreParts kind outer.now.containers kept (lines_of lines.now)
            (parts_left result) }
        ensures lines { result.lines.now ≡ lines.now }
    {
        let Some((line, read)) = Extent::nothing().next(lines) else {
            return Parts::none(lines, kind, outer);
        };
        let mut start = first_offset(line, outer.containers(), kept);
        match kind {
            BlockKind::Blank | BlockKind::Break | BlockKind::Table(_) => {
                return Parts::none(lines, kind, outer);
            }
            BlockKind::Heading(_) => {
                return Parts {
                    lines,
                    first: Some(heading_part(line, start)),
                    ending: None,
                    read,
                    count: 0,
                    cut: Cut {
                        kind,
                        indent: 0,
                        outer,
                    },
                };
            }
            BlockKind::Fenced(..) => {
                let indent = start.scan_space_upto(4);
                return Parts {
                    lines,
                    first: None,
                    ending: None,
                    read,
                    count: count_inner(lines, read, kind, outer),
                    cut: Cut {
                        kind,
                        indent,
                        outer,
                    },
                };
            }
            _ => {}
        }
        let (part, ending) = written(text_part(line, start, kind, 0), kind);
        Parts {
            lines,
            first: Some(part),
            ending,
            read,
            count: count_inner(lines, read, kind, outer),
            cut: Cut {
                kind,
                indent: 0,
                outer,
            },
        }
    }

    // No part.
    fn none(lines: &'a [u8], kind: BlockKind, outer: &'a OpenContainers<'a>) -> Parts<'a>
        ensures parts { parts_left result ≡ [] }
        ensures lines { result.lines.now ≡ lines.now }
    {
        Parts {
            lines,
            first: None,
            ending: None,
            read: Extent::nothing(),
            count: 0,
            cut: Cut {
                kind,
                indent: 0,
                outer,
            },
        }
    }

    /// The parts with the one before them that was read last.
    pub(crate) fn with(self, part: LinePart<'a>) -> Parts<'a>
        requires read { self.first ≡ None }
        requires inside { IsIn self.lines.now (seen_part part) }
        ensures parts { parts_left result ≡ seen_part part.entry ∷ parts_left self.entry }
        ensures lines { result.lines.now ≡ self.entry.lines.now }
    {
        Parts {
            lines: self.lines,
            first: Some(part),
            ending: self.ending,
            read: self.read,
            count: self.count,
            cut: self.cut,
        }
    }

    /// The next part. The others are left then.
    #[inline(always)]
    pub(crate) fn next(&mut self) -> Option<LinePart<'a>>
        ensures some { IfSome result (λ part.
            parts_left self.old ≡ seen_part part ∷ parts_left self.new) }
        ensures none { IfNone result (parts_left self.old ≡ []) }
        ensures inside { IfSome result (λ part. IsIn self.old.lines.now (seen_part part)) }
        ensures lines { self.new.lines.now ≡ self.old.lines.now }
        ensures read { self.new.first ≡ None }
    {
        if let Some(part) = self.first {
            self.first = None;
            return Some(part);
        }
        if let Some(part) = self.ending {
            self.ending = None;
            return Some(part);
        }
        if self.read.lines >= self.count {
            return None;
        }
        let before = self.read.bytes;
        let (line, more) = self.read.next(self.lines)?;
        self.read = more;
        let offset = later_offset(line, self.cut.kind, self.cut.outer);
        let part = text_part(line, offset, self.cut.kind, self.cut.indent);
        let here = LinePart {
            offset: before + part.offset,
            ..part
        };
        let (part, ending) = written(here, self.cut.kind);
        self.ending = ending;
        Some(part)
    }
}

// How many of the lines are read and content: of those after the first all, or all but the last. Where
// it is all, as of most kinds, the lines are not read, and more are answered than there are.
#[inline(always)]
fn count_inner(lines: &[u8], first: Extent, kind: BlockKind, outer: &OpenContainers) -> usize
    requires { first.bytes ≤ length lines.now }
    ensures { AreInner kind outer.now.containers (lines_of (drop first.bytes lines.now))
        (take (result - first.lines) (lines_of (drop first.bytes lines.now))) }
{
    if is_all_content(kind) {
        return usize::MAX;
    }
    read_inner(lines, first, kind, outer).lines
}

/// What is read of the lines with those after the first that are content: all, or all but the last.
#[inline(always)]
pub(crate) fn read_inner(
    lines: &[u8],
    first: Extent,
    kind: BlockKind,
    outer: &OpenContainers,
) -> Extent
    requires { first.bytes ≤ length lines.now }
    ensures inner { (inner : List (List ℕ))
        × AreInner kind outer.now.containers (lines_of (drop first.bytes lines.now)) inner
        × (inner ≡ take (result.lines - first.lines) (lines_of (drop first.bytes lines.now)))
        × (lines_of (drop first.bytes lines.now) ≡ inner ++ lines_of (drop result.bytes lines.now)) }
    ensures forward { first.bytes ≤ result.bytes }
    ensures within { result.bytes ≤ length lines.now }
{
    let mut read = first;
    while let Some((line, more)) = read.next(lines) {
        let is_last = more.bytes == lines.len();
        if is_left_out(line, is_last, kind, outer) {
            return read;
        }
        read = more;
    }
    read
}

// Whether all lines of a block of this kind are content, the last one too.
fn is_all_content(kind: BlockKind) -> bool
    ensures { IsTrue result → (outer : List Container) (last : List ℕ)
        → ¬ IsLeftOut kind outer last }
{
    !matches!(kind, BlockKind::Setext(_) | BlockKind::Fenced(..))
}

// Whether the line is the last of its block, and no content.
fn is_left_out(line: &[u8], is_last: bool, kind: BlockKind, outer: &OpenContainers) -> bool
    ensures { IsTrue result ↔ (IsTrue is_last × IsLeftOut kind outer.now.containers line.now) }
{
    if !is_last {
        return false;
    }
    match kind {
        BlockKind::Setext(_) => true,
        BlockKind::Fenced(count, byte) => is_closing_fence(line, count, byte, outer),
        _ => false,
    }
}

// Whether the line closes fenced code in the containers.
fn is_closing_fence(line: &[u8], count: usize, byte: u8, outer: &OpenContainers) -> bool
    ensures { IsTrue result ↔ In outer.now.containers (ClosesFence count byte) line.now }
{
    let line = Line::new(line, outer);
    match line.rest_inside() {
        Some(rest) => closes_fence(rest, count, byte),
        None => false,
    }
}

/// The position in a block's first line after its containers.
#[inline(always)]
pub(crate) fn first_offset<'a>(
    line: &'a [u8],
    containers: &[Container],
    kept: usize,
) -> LineStart<'a>
    ensures offset { result ≡ first_offset kept containers.now line.now }
    ensures bytes { result.bytes ≡ line.now }
{
    let (before, begun) = containers.split_at(kept.min(containers.len()));
    let (_, mut start) = go_on(line, &OpenContainers::new(Extensions::none(), before));
    let mut left = begun.len();
    while left > 0 {
        if !pass_marker(line, &mut start) {
            return start;
        }
        left -= 1;
    }
    start
}

// Passes the marker of a container that begins at the position, if one does.
fn pass_marker<'a>(line: &'a [u8], start: &mut LineStart<'a>) -> bool
    requires { start.old.bytes ≡ line.now }
    ensures passed { IsTrue result → (container : Container)
        × (begun_at all_containers start.old ≡ Some (container, start.new)) }
    ensures none { ¬ IsTrue result → (begun_at all_containers start.old ≡ None) }
    ensures unchanged { ¬ IsTrue result → (start.new ≡ start.old) }
    ensures bytes { start.new.bytes ≡ line.now }
{
    let Ok(before) = start.clone() else {
        return false;
    };
    let indent = start.scan_space_upto(4);
    let Some(_) = scan_container(line, start, indent, all_containers()) else {
        *start = before;
        return false;
    };
    true
}

// The position in a later line of a block after its containers.
#[inline(always)]
fn later_offset<'a>(line: &'a [u8], kind: BlockKind, outer: &OpenContainers) -> LineStart<'a>
    ensures offset { result ≡ later_offset kind outer.now.containers line.now }
    ensures bytes { result.bytes ≡ line.now }
{
    match kind {
        BlockKind::Indented | BlockKind::Fenced(..) | BlockKind::Html(_) => {
            offset_inside(line, outer.containers())
        }
        _ => {
            let (_, start) = go_on(line, outer);
            start
        }
    }
}

// The position in a line of code or HTML after the containers that it goes on with. Of a blank line
// no more containers are tried than it has space for.
fn offset_inside<'a>(line: &'a [u8], containers: &[Container]) -> LineStart<'a>
    ensures offset { result ≡ offset_inside containers.now line.now }
    ensures bytes { result.bytes ≡ line.now }
{
    let mut start = LineStart::new(line);
    let mut blank = is_blank(line);
    let mut rest = containers;
    while let [container, inner @ ..] = rest {
        let Some(more) = pass(line, &mut start, blank, *container) else {
            return start;
        };
        let spent = pass_indent_left(&mut start, *container, blank);
        if spent && more {
            return start;
        }
        blank = more;
        rest = inner;
    }
    start
}

// Passes as much of an item's indent as a blank line has. Answers whether nothing of it is left.
fn pass_indent_left(start: &mut LineStart, container: Container, blank: bool) -> bool
    ensures offset { start.new ≡ after_indent container blank start.old }
    ensures spent { IsTrue result → (inner : List Container)
        → after_containers true inner start.new ≡ start.new }
    ensures bytes { start.new.bytes ≡ start.old.bytes }
{
    match container {
        Container::Quote => false,
        Container::Item(item) => pass_width_left(start, item.width, blank),
        Container::Footnote => pass_width_left(start, 4, blank),
        Container::TermDefinition(d) => pass_width_left(start, d.width, blank),
    }
}

// Passes at most so many columns of space of a blank line. Answers whether nothing of it is left.
fn pass_width_left(start: &mut LineStart, width: u8, blank: bool) -> bool
    ensures offset { start.new ≡ after_width width blank start.old }
    ensures spent { IsTrue result → (inner : List Container)
        → after_containers true inner start.new ≡ start.new }
    ensures bytes { start.new.bytes ≡ start.old.bytes }
{
    if !blank {
        return false;
    }
    start.scan_space_upto(width as usize);
    start.remaining_space() == 0 && start.is_at_eol()
}

// What a line has for the content, from this offset after its containers on.
#[inline(always)]
fn text_part<'a>(
    line: &'a [u8],
    mut start: LineStart,
    kind: BlockKind,
    indent: usize,
) -> LinePart<'a>
    requires { start.bytes ≡ line.now }
    ensures part { seen_part result ≡ part_at (text_offset kind indent start.entry) }
    ensures inside { result.offset ≤ length line.now }
    ensures bytes { result.bytes.now ≡ drop result.offset line.now }
{
    pass_space(&mut start, kind, indent);
    let offset = start.bytes_scanned();
    LinePart {
        columns: start.remaining_space(),
        filler: b' ',
        offset,
        bytes: &line[offset..],
    }
}

// Passes the space before the content of a line.
#[inline(always)]
fn pass_space(start: &mut LineStart, kind: BlockKind, indent: usize)
    ensures offset { start.new ≡ text_offset kind indent start.old }
    ensures bytes { start.new.bytes ≡ start.old.bytes }
{
    match kind {
        BlockKind::Indented => {
            start.scan_space_upto(4);
        }
        BlockKind::Fenced(..) => {
            start.scan_space_upto(indent);
        }
        BlockKind::Html(_) => {}
        _ => {
            start.scan_space_upto(4);
            start.scan_all_space();
        }
    }
}

// The text of an ATX heading.
fn heading_part<'a>(line: &'a [u8], mut start: LineStart) -> LinePart<'a>
    requires { start.bytes ≡ line.now }
    ensures part { seen_part result ≡ heading_part start.entry }
    ensures inside { IsIn line.now (seen_part result) }
{
    start.scan_space_upto(4);
    start.scan_all_space();
    let text = &line[start.bytes_scanned()..];
    let (_, marked) = text.split_at(scan_ch_repeat(text, b'#'));
    let after = without_front(marked);
    LinePart {
        columns: 0,
        filler: b' ',
        offset: line.len() - after.len(),
        bytes: without_closing(without_end(line_head(after))),
    }
}

// Without a closing sequence of number signs.
fn without_closing(text: &[u8]) -> &[u8]
    ensures { result.now ≡ without_closing text.now }
{
    let front = without_signs(text);
    let inner = without_end(front);
    if front.is_empty() || inner.len() < front.len() {
        return inner;
    }
    text
}

// Without the number signs at its end.
fn without_signs(text: &[u8]) -> &[u8]
    ensures { result.now ≡ without_signs text.now }
{
    let mut end = text.len();
    while end > 0 && text[end - 1] == b'#' {
        end -= 1;
    }
    &text[..end]
}
