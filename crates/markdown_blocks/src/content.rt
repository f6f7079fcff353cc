//! The content of leaf blocks: what is handed to the inline pass, and the text of code and HTML, with the offset of each of its
//! bytes. (CommonMark 0.31.2, sections 2.1, 2.2, 4.2 to 4.6 and 4.8)
ghost use Rattle.std.specs.Prelude.{◌≡◌, ◌^◌, ◌++◌, ◌∷◌, [], ◌+◌, ◌-◌, ◌<◌, ◌≤◌, ℕ, List, false, is_some, length, replicate};
ghost use Rattle.std.specs.Prelude.{slice_index, IfOk, IfErr, IfSome, IfNone, IsOk, OnOk};
ghost use Rattle.std.specs.Str.{IsUtf8};
ghost use Rattle.markdown_scanners_tree.specs.scanners.TextLines.{lines_of};
ghost use Rattle.markdown_blocks.specs.content.Bytes.{AreBytesOf};
ghost use Rattle.markdown_blocks.specs.content.Content.{HasNoReturn, IsCodeOrHtml};
ghost use Rattle.markdown_blocks.specs.content.Content.{IsContent, IsOneRun, IsRunOf, StandsFrom, content_len, content_with, joined, text_of, words_len};
ghost use Rattle.markdown_blocks.specs.content.Left.{IsRun, IsRunAt, parts_left};
ghost use Rattle.markdown_blocks.specs.content.Parts.{AreOneRun, AreParts, Part, is_one_run, one_part};
ghost use Rattle.markdown_blocks.specs.content.Seen.{IsIn, seen_part};
ghost use Rattle.markdown_blocks.specs.content.Segments.{Rising, offset_at, offset_in, segments_from};
ghost use Rattle.markdown_blocks.specs.declared.blocks.BlockKind.TheVariants.{Paragraph};

mod cell;
pub(crate) mod line_endings;
pub(crate) mod parts;
mod whole_lines;

use crate::blocks::BlockKind;
use crate::containers::{Container, OpenContainers};
pub use crate::content::cell::cell_content;
use crate::content::parts::{LinePart, Parts};
use crate::content::whole_lines::whole_lines;
use markdown_values::values::Extensions;
use std::alloc::{AllocError, Global};
use std::marker::Model;

/// The content of a leaf block: its bytes, and of each its offset in the block's lines.
#[derive(Drop)]
pub struct Content<'a> {
    // It is lent from the lines, or built; the other of the two is empty.
    lent: &'a [u8],
    built: Vec<u8>,
    // What begins at its first byte, and what begins further on.
    first: Segment,
    later: Vec<Segment>,
}

// Bytes of a content that stand one after the other in the lines, from an offset in the content on:
// columns in place of the byte directly before an offset in these, and the bytes from that offset on.
#[derive(Clone, Copy)]
struct Segment {
    offset: usize,
    columns: usize,
    source: usize,
}

impl<'a> Model for Content<'a> {
    ghost use Rattle.std.specs.Prelude.{◌++◌, ◌==◌, length, map};
    ghost use Rattle.std.specs.List.{range_with_len};
    ghost use Rattle.markdown_blocks.specs.content.Content.{Placed};
    ghost use Rattle.markdown_blocks.specs.content.Segments.{Held, offset_at};

    ghost Value = { Placed };

    ghost view = { λ c. record {
      text = c.lent.now ++ c.built.items;
      offsets = map (offset_at c.first c.later.items)
          (range_with_len 0 (length (c.lent.now ++ c.built.items)));
      is_lent = length c.built.items == 0;
    } };

    ghost invariant = { λ c. Held c.lent.now c.built.items c.first c.later.items };
}

/// The content of the lines, which are a leaf block of this kind in these containers. Its first line
/// goes on with `kept` of them and begins the others.
///
/// Of a paragraph or a heading it is the text for the inline pass, without the space at its ends. Of
/// code and HTML each line ending is written as a line feed. A table has none here: its rows are cut
/// into cells. Memory is asked for where the content is not one run of the lines.
pub fn content_of<'a>(
    alloc: Global,
    lines: &'a [u8],
    kind: BlockKind,
    containers: &[Container],
    kept: usize,
) -> Result<Content<'a>, AllocError>
    ensures content { IfOk result (λ content.
        IsContent kind containers.now kept (lines_of lines.now) content) }
    ensures lent { (parts : List Part)
        → AreParts kind containers.now kept (lines_of lines.now) parts
        → AreOneRun parts → IsOk result }
    ensures bytes { IfOk result (λ content. AreBytesOf lines.now content) }

    ensures endings { IfOk result (λ content. IsCodeOrHtml kind → HasNoReturn content.text) }

    // It is cut next to bytes of ASCII alone.
    ensures utf8 { IfOk result (λ content. IsUtf8 lines.now → IsUtf8 content.text) }
{
    let outer = OpenContainers::new(Extensions::none(), containers);
    if let Some((begin, end)) = whole_lines(lines, kind, &outer) {
        return Ok(lent(alloc, &lines[begin..end], kind, begin));
    }
    let parts = Parts::of(lines, kind, &outer, kept);
    match run_of(parts) {
        Ok((begin, end)) => Ok(lent(alloc, &lines[begin..end], kind, begin)),
        Err((front, later)) => built(alloc, front, later, kind),
    }
}

/// The content of a paragraph of one line whose text this is, from this offset in the line on, and
/// begins with neither a space nor a tab. It is lent from the text: no line and no container is read.
pub fn line_content<'a>(alloc: Global, text: &'a [u8], offset: usize) -> Content<'a>
    requires { offset + length text.now < 2 ^ 64 }
    ensures { result ≡ content_with Paragraph (one_part offset text.now) }
{
    lent(alloc, text, BlockKind::Paragraph, offset)
}

impl<'a> Content<'a> {
    /// Its bytes.
    pub fn text(&self) -> &[u8]
        ensures { result.now ≡ self.now.text }
    {
        if self.built.is_empty() {
            return self.lent;
        }
        &self.built
    }

    /// The same bytes, lent from the lines; and None where they aren't, and have memory of their own.
    pub fn run(&self) -> Option<&'a [u8]>
        ensures some { IfSome result (λ run. run.now ≡ self.now.text) }
        ensures lent { is_some result ≡ self.now.is_lent }
    {
        if self.built.is_empty() {
            Some(self.lent)
        } else {
            None
        }
    }

    /// The offset in the block's lines of the byte at the offset. A column of a tab that is cut stands
    /// where the tab does, and a line feed where the line ending ends that it is written for.
    pub fn source_offset(&self, offset: usize) -> usize
        requires { offset < length self.now.text }
        ensures { result ≡ slice_index self.now.offsets offset }
    {
        let (segment, _) = segment_at(self.first, &self.later, offset, self.text().len());
        let further = offset.saturating_sub(segment.offset);
        if further < segment.columns {
            return segment.source.saturating_sub(1);
        }
        segment.source + (further - segment.columns)
    }

    /// Bytes of it around the offset that stand in the block's lines one directly after another.
    pub fn run_at(&self, offset: usize) -> Run
        requires { offset < length self.now.text }
        ensures run { IsRunOf self.now result }
        ensures begins { result.start ≤ offset }
        ensures ends { offset < result.end }
    {
        let (segment, end) = segment_at(self.first, &self.later, offset, self.text().len());
        let further = offset - segment.offset;
        if further < segment.columns {
            return Run {
                start: offset,
                end: offset + 1,
                source: segment.source.saturating_sub(1),
            };
        }
        Run {
            start: offset - (further - segment.columns),
            end,
            source: segment.source,
        }
    }

    /// The offset in the block's lines of its first byte, where each further byte stands there directly
    /// after the one before it, and None where one doesn't. Of no bytes any offset is such an offset.
    pub fn source_start(&self) -> Option<usize>
        ensures some { IfSome result (λ offset. StandsFrom offset self.now) }
        ensures none { IfNone result (¬ IsOneRun self.now) }
    {
        let len = self.text().len();
        if len == 0 {
            return Some(0);
        }
        let origin = self.source_offset(0);
        let mut end = 0;
        while end < len {
            let next = self.source_offset(end);
            if next < end || next - end != origin {
                return None;
            }
            end = self.run_at(end).end;
        }
        Some(origin)
    }
}

/// Bytes of a content, from one offset up to another, that stand in the block's lines one directly
/// after another, the first of them at this offset.
#[derive(Clone, Copy)]
pub struct Run {
    /// The offset of the first of them.
    pub start: usize,
    /// The offset after the last.
    pub end: usize,
    /// Where the first stands in the lines.
    pub source: usize,
}

// The last of the segments that begins at the offset or before it, and where the next begins, or the
// text ends, which is so long.
fn segment_at(first: Segment, later: &[Segment], offset: usize, len: usize) -> (Segment, usize)
    requires within { offset < len }
    requires begins { first.offset ≤ offset }
    requires rising { Rising first.offset later.now }
    ensures begins { result.0.offset ≤ offset }
    ensures ends { offset < result.1 }
    ensures within { result.1 ≤ len }
    ensures offsets { (at : ℕ) → result.0.offset ≤ at → at < result.1
        → offset_in result.0 at ≡ offset_at first later.now at }
{
    let mut found = first;
    let mut low = 0;
    let mut high = later.len();
    while low < high {
        let middle = low + (high - low) / 2;
        let segment = later[middle];
        if segment.offset <= offset {
            found = segment;
            low = middle + 1;
        } else {
            high = middle;
        }
    }
    if low < later.len() && later[low].offset < len {
        return (found, later[low].offset);
    }
    (found, len)
}

// Where the parts begin and end in the lines, if they are one run of them. Else the run that they begin
// with, as one part, and the parts after it.
fn run_of<'a>(parts: Parts<'a>) -> Result<(usize, usize), (LinePart<'a>, Parts<'a>)>
    ensures run { IfOk result (λ r. IsRun parts.entry.lines.now
        (parts_left parts.entry) r.0 r.1) }
    ensures none { IfErr result (λ _. ¬ AreOneRun (parts_left parts.entry)) }
    ensures joined { IfErr result (λ r.
        joined (seen_part r.0 ∷ parts_left r.1) ≡ joined (parts_left parts.entry)) }
    ensures lines { IfErr result (λ r. r.1.lines.now ≡ parts.entry.lines.now) }
    ensures inside { IfErr result (λ r. IsIn parts.entry.lines.now (seen_part r.0)) }
{
    let mut rest = parts;
    let Some(part) = rest.next() else {
        return Ok((0, 0));
    };
    if part.columns > 0 {
        return Err((part, rest));
    }
    let mut end = part.offset + part.bytes.len();
    while let Some(next) = rest.next() {
        if next.columns > 0 || next.offset != end {
            let run = LinePart {
                columns: 0,
                filler: b' ',
                offset: part.offset,
                bytes: &parts.lines[part.offset..end],
            };
            return Err((run, rest.with(next)));
        }
        end += next.bytes.len();
    }
    Ok((part.offset, end))
}

// The content that is one run of the lines, from this offset on.
fn lent<'a>(alloc: Global, run: &'a [u8], kind: BlockKind, source: usize) -> Content<'a>
    requires { source + length run.now < 2 ^ 64 }
    ensures { (parts : List Part) → IsRunAt run.now source parts → result ≡ content_with kind parts }
{
    Content {
        lent: &run[..content_len(run, kind)],
        built: Vec::new(alloc),
        first: Segment {
            offset: 0,
            columns: 0,
            source,
        },
        later: Vec::new(alloc),
    }
}

// The content that a part and those after it are, joined.
fn built<'a>(
    alloc: Global,
    first: LinePart,
    later: Parts,
    kind: BlockKind,
) -> Result<Content<'a>, AllocError>
    requires inside { IsIn later.lines.now (seen_part first) }
    requires broken { is_one_run (seen_part first ∷ parts_left later) ≡ false }
    ensures { IfOk result (λ content. content
        ≡ content_with kind (seen_part first.entry ∷ parts_left later.entry)) }
{
    // No longer than the lines, but where a tab is cut.
    let mut text = Vec::with_capacity(alloc, later.lines.len())?;
    let mut segments = Vec::new(alloc);
    add_part(&mut text, first)?;
    let mut rest = later;
    while let Some(part) = rest.next() {
        add_segment(&mut text, &mut segments, part)?;
    }
    let end = content_len(&text, kind);
    text.truncate(end);
    Ok(Content {
        lent: &[],
        built: text,
        first: Segment {
            offset: 0,
            columns: first.columns,
            source: first.offset,
        },
        later: segments,
    })
}

// Adds the part, and the segment that it is.
fn add_segment(
    text: &mut Vec<u8>,
    segments: &mut Vec<Segment>,
    part: LinePart,
) -> Result<(), AllocError>
    ensures text { OnOk result (text.new.items ≡ text.old.items ++ text_of (seen_part part.entry)) }
    ensures segments { OnOk result (segments.new.items
        ≡ segments.old.items ++ segments_from (length text.old.items) (seen_part part.entry ∷ [])) }
{
    segments.push(Segment {
        offset: text.len(),
        columns: part.columns,
        source: part.offset,
    })?;
    add_part(text, part)
}

// Adds the part.
fn add_part(text: &mut Vec<u8>, part: LinePart) -> Result<(), AllocError>
    ensures { OnOk result (text.new.items ≡ text.old.items ++ text_of (seen_part part.entry)) }
{
    add_columns(text, part.columns, part.filler)?;
    text.extend_from_slice(part.bytes)
}

// Adds so many columns of this filler.
fn add_columns(text: &mut Vec<u8>, count: usize, filler: u8) -> Result<(), AllocError>
    ensures { OnOk result (text.new.items ≡ text.old.items ++ replicate count filler) }
{
    let mut left = count;
    while left > 0 {
        text.push(filler)?;
        left -= 1;
    }
    Ok(())
}

// How much of what is joined is content of a block of this kind.
fn content_len(text: &[u8], kind: BlockKind) -> usize
    ensures length { result ≡ content_len kind text.now }
    ensures within { result ≤ length text.now }
{
    match kind {
        BlockKind::Indented | BlockKind::Fenced(..) | BlockKind::Html(_) => text.len(),
        _ => words_len(text),
    }
}

// How many bytes stand before the spaces, tabs and line endings at the end.
fn words_len(text: &[u8]) -> usize
    ensures length { result ≡ words_len text.now }
    ensures within { result ≤ length text.now }
{
    let mut end = text.len();
    while end > 0 && matches!(text[end - 1], b' ' | b'\t' | b'\n' | b'\r') {
        end -= 1;
    }
    end
}
