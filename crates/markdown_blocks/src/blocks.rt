//! Blocks of a page, each as a whole from the front of what is left, in their containers.
ghost use Rattle.std.specs.Prelude.{◌≡◌, ◌↔◌, ◌+◌, ◌++◌, ◌∷◌, [], List, ℕ, true, drop, IsTrue, IfOk, IfSome, IfNone};
ghost use Rattle.markdown_scanners_tree.specs.Bytes.{begins_with};
ghost use Rattle.markdown_scanners_tree.specs.SomeExactly.{SomeExactly};
ghost use Rattle.markdown_scanners_tree.specs.scanners.TextLines.{lines_of};
ghost use Rattle.markdown_blocks.specs.blocks.Leaves.{Begins, StopsBefore, StopsAfter, EndsAsHtml, GoesOnIndented};
ghost use Rattle.markdown_blocks.specs.blocks.Leaves.{IsHead, BeginsNoTable, BeginTable, EndsRead, Leaves, LeavesAfter};
ghost use Rattle.markdown_blocks.specs.blocks.Endings.{IsEnd, IsNextLine, is_text_byte};
ghost use Rattle.markdown_blocks.specs.declared.blocks.Ending.TheVariants.{Text};
ghost use Rattle.markdown_blocks.specs.blocks.Over.{IsOver};
ghost use Rattle.markdown_blocks.specs.blocks.Pages.{IsBlockOf, IsTableAfter};
ghost use Rattle.markdown_blocks.specs.declared.blocks.BlockKind.TheVariants.{Paragraph};
ghost use Rattle.markdown_blocks.specs.taken.Lines.{IsTaken, IsNext};

pub(crate) mod endings;

use crate::blocks::endings::{ends, ends_html, goes_on_with, is_indented, is_inside, text_end};
use crate::containers::OpenContainers;
use crate::definitions::has_text;
use crate::info::without_front;
use crate::kinds::kind_of;
use crate::line::Line;
use crate::rest::Rest;
use crate::tables::{count_cells, delimiter_columns, take_rows};
use crate::taken::Extent;
use markdown_scanners_tree::scanners::{HtmlBlockKind, is_ascii_whitespace};
use markdown_values::values::HeadingLevel;
use std::alloc::{AllocError, Global};

/// The kind of a block, with what its lines tell of it.
#[derive(Clone, Copy)]
pub enum BlockKind {
    /// Blank lines, which are no block, in a row.
    Blank,
    /// A thematic break.
    Break,
    /// An ATX heading of this level.
    Heading(HeadingLevel),
    /// A setext heading of this level.
    Setext(HeadingLevel),
    /// Indented code.
    Indented,
    /// Fenced code, with how many bytes of which its fence has.
    Fenced(usize, u8),
    /// An HTML block.
    Html(HtmlBlockKind),
    /// A table with so many columns.
    Table(usize),
    /// A link reference definition. By its lines alone a block is none: events part it from the
    /// paragraph that begins with it.
    Definition,
    /// A paragraph.
    Paragraph,
}

/// A block: its kind, and its lines.
#[derive(Clone, Copy)]
pub struct Block {
    pub kind: BlockKind,
    pub taken: Extent,
}

// What ends a paragraph that has text: the underline of a setext heading of this level, or without
// one the marker of a definition; and whether it interrupts any paragraph.
#[derive(Clone, Copy)]
struct TextEnd {
    level: Option<HeadingLevel>,
    interrupts: bool,
}

// What the lines of a block go on to.
#[derive(Clone, Copy)]
enum Ending {
    // A line that is not blank.
    Text,
    // A line that goes on with no paragraph.
    Paragraph,
    // The closing fence.
    Fence(usize, u8),
    // The end condition of an HTML block.
    Html(HtmlBlockKind),
}

// What a line is to the paragraph before it.
#[derive(Clone, Copy)]
enum NextLine {
    // It goes on with it.
    GoesOn,
    // It makes a heading of this level of it.
    Underlines(HeadingLevel),
    // It is no part of it.
    Ends,
}

/// The block at the front of a text, in these containers, where its first line is taken, and has this
/// after them.
pub(crate) fn scan_block(
    alloc: Global,
    text: &[u8],
    first: Extent,
    outer: &OpenContainers,
    rest: &Rest,
) -> Result<Block, AllocError>
    ensures { IfOk result (λ block. (line : List ℕ) → IsTaken text.now first (line ∷ [])
        → IsBlockOf text.now outer.now line rest.now block) }
{
    let kind = kind_of(rest);
    let taken = match kind {
        BlockKind::Blank => take_blank(text, first, outer),
        BlockKind::Indented => take_indented(text, first, outer),
        BlockKind::Fenced(count, byte) => {
            take_through(text, first, outer, Ending::Fence(count, byte))
        }
        BlockKind::Html(kind) => take_html(text, first, outer, kind, rest),
        BlockKind::Paragraph => return scan_paragraph(alloc, text, first, outer, rest),
        _ => first,
    };
    Ok(Block { kind, taken })
}

/// Whether the block ends there: the text has a line after it that shows it, whatever lines
/// follow, or none follow since the input has ended.
pub(crate) fn is_over(text: &[u8], block: Block, outer: &OpenContainers, has_ended: bool) -> bool
    ensures { (lines : List (List ℕ)) → IsTaken text.now block.taken lines
        → (IsTrue result ↔ IsOver outer.now.containers block.kind has_ended
        (lines_of (drop block.taken.bytes text.now))) }
{
    if has_ended {
        return true;
    }
    match block.kind {
        BlockKind::Indented => {
            let blanks = take_until(text, block.taken, outer, Ending::Text);
            blanks.next(text).is_some()
        }
        _ => block.taken.next(text).is_some(),
    }
}

// The lines, and those after them up to the first that is not blank.
fn take_blank(text: &[u8], first: Extent, outer: &OpenContainers) -> Extent
    ensures { (lines : List (List ℕ)) → IsTaken text.now first lines
        → (more : List (List ℕ)) × IsTaken text.now result (lines ++ more)
        × StopsBefore (IsEnd outer.now Text) more
        (lines_of (drop result.bytes text.now)) }
{
    // Most often the next line begins with text, whatever containers are open.
    if is_text_at(text, first.bytes) {
        return first;
    }
    take_until(text, first, outer, Ending::Text)
}

// Whether a byte of text stands at the offset.
fn is_text_at(text: &[u8], offset: usize) -> bool
    ensures { IsTrue result → begins_with is_text_byte (drop offset text.now) ≡ true }
{
    match byte_at(text, offset) {
        Some(byte) => is_text_byte(byte),
        None => false,
    }
}

// The byte at the offset, if there is one.
fn byte_at(text: &[u8], offset: usize) -> Option<u8>
    ensures byte { IfSome result (λ b.
        drop offset text.now ≡ b ∷ drop (offset + 1) text.now) }
{
    text.get(offset).copied()
}

// Whether the byte is neither white space nor the marker of a block quote.
fn is_text_byte(byte: u8) -> bool
    ensures { result ≡ is_text_byte byte }
{
    !(is_ascii_whitespace(byte) || byte == b'>')
}

// The lines, and those after them up to the first with this ending.
fn take_until<'a>(
    text: &'a [u8],
    first: Extent,
    outer: &'a OpenContainers<'a>,
    ending: Ending,
) -> Extent
    ensures { (lines : List (List ℕ)) → IsTaken text.now first lines
        → (more : List (List ℕ)) × IsTaken text.now result (lines ++ more)
        × StopsBefore (IsEnd outer.now ending) more (lines_of (drop result.bytes text.now)) }
{
    let mut taken = first;
    while let Some((line, more)) = taken.next(text) {
        if ends(&Line::new(line, outer), ending) {
            return taken;
        }
        taken = more;
    }
    taken
}

// The same, and that first line too, if it stands in the containers.
fn take_through(text: &[u8], first: Extent, outer: &OpenContainers, ending: Ending) -> Extent
    ensures { (lines : List (List ℕ)) → IsTaken text.now first lines
        → (more : List (List ℕ)) × IsTaken text.now result (lines ++ more)
        × StopsAfter outer.now.containers (IsEnd outer.now ending) more
        (lines_of (drop result.bytes text.now)) }
{
    let taken = take_until(text, first, outer, ending);
    if let Some((line, more)) = taken.next(text) {
        if is_inside(line, outer) {
            return more;
        }
    }
    taken
}

// The lines of an HTML block of this kind, whose first line has this after its containers.
fn take_html(
    text: &[u8],
    first: Extent,
    outer: &OpenContainers,
    kind: HtmlBlockKind,
    rest: &Rest,
) -> Extent
    ensures { (lines : List (List ℕ)) → IsTaken text.now first lines
        → (more : List (List ℕ)) × IsTaken text.now result (lines ++ more)
        × EndsAsHtml outer.now.containers kind rest.now more
        (lines_of (drop result.bytes text.now)) }
{
    if kind.ends_before_blank() {
        return take_until(text, first, outer, Ending::Html(kind));
    }
    if ends_html(rest.text, kind) {
        return first;
    }
    take_through(text, first, outer, Ending::Html(kind))
}

// The lines, and those of the indented code that they begin: up to its last line with text.
fn take_indented<'a>(text: &'a [u8], first: Extent, outer: &'a OpenContainers<'a>) -> Extent
    ensures { (lines : List (List ℕ)) → IsTaken text.now first lines
        → (more : List (List ℕ)) × IsTaken text.now result (lines ++ more)
        × GoesOnIndented outer.now.containers more (lines_of (drop result.bytes text.now)) }
{
    let mut taken = first;
    let mut seen = first;
    while let Some((line, more)) = seen.next(text) {
        let line = Line::new(line, outer);
        if ends(&line, Ending::Text) {
            if !is_indented(&line) {
                return taken;
            }
            taken = more;
        }
        seen = more;
    }
    taken
}

// The paragraph whose first line this is, with this after its containers, or the table or heading that
// it turns out to be.
fn scan_paragraph(
    alloc: Global,
    text: &[u8],
    first: Extent,
    outer: &OpenContainers,
    rest: &Rest,
) -> Result<Block, AllocError>
    ensures { IfOk result (λ block. (line : List ℕ) → IsTaken text.now first (line ∷ [])
        → Begins Paragraph rest.now → IsBlockOf text.now outer.now line rest.now block) }
{
    let Some((line, second)) = first.next(text) else {
        return Ok(Block {
            kind: BlockKind::Paragraph,
            taken: first,
        });
    };
    let line = Line::new(line, outer);
    if let Some(columns) = head_columns(&line, rest.text) {
        return Ok(Block {
            kind: BlockKind::Table(columns),
            taken: take_rows(text, second, outer),
        });
    }
    match next_line(alloc, text, first, first, &line, rest.text)? {
        NextLine::GoesOn => scan_lines(alloc, text, first, second, outer, rest),
        NextLine::Underlines(level) => Ok(Block {
            kind: BlockKind::Setext(level),
            taken: second,
        }),
        NextLine::Ends => Ok(Block {
            kind: BlockKind::Paragraph,
            taken: first,
        }),
    }
}

// The paragraph or heading whose first line this is, with this after its containers, where the second
// line goes on with it, and the first begins no table.
fn scan_lines<'a>(
    alloc: Global,
    text: &'a [u8],
    first: Extent,
    second: Extent,
    outer: &'a OpenContainers<'a>,
    rest: &Rest,
) -> Result<Block, AllocError>
    ensures { IfOk result (λ block. (line next : List ℕ) → IsTaken text.now first (line ∷ [])
        → IsNext text.now first next second → ¬ LeavesAfter outer.now rest.now.text [] next
        → Begins Paragraph rest.now
        → BeginsNoTable outer.now rest.now (lines_of (drop first.bytes text.now))
        → IsBlockOf text.now outer.now line rest.now block) }
{
    let mut before = first;
    let mut taken = second;
    while let Some((line, more)) = taken.next(text) {
        let line = Line::new(line, outer);
        if begins_table(text, before, &line) {
            return Ok(Block {
                kind: BlockKind::Paragraph,
                taken: before,
            });
        }
        match next_line(alloc, text, first, taken, &line, rest.text)? {
            NextLine::GoesOn => {
                before = taken;
                taken = more;
            }
            NextLine::Underlines(level) => {
                return Ok(Block {
                    kind: BlockKind::Setext(level),
                    taken: more,
                });
            }
            NextLine::Ends => break,
        }
    }
    Ok(Block {
        kind: BlockKind::Paragraph,
        taken,
    })
}

// Whether the line after those that are taken is the header row of a table, where this line comes after
// it.
fn begins_table(text: &[u8], before: Extent, next: &Line) -> bool
    ensures { (line : List ℕ) (lines : List (List ℕ))
        → lines_of (drop before.bytes text.now) ≡ line ∷ next.now.bytes ∷ lines
        → (IsTrue result ↔ BeginTable next.now.outer (line ∷ next.now.bytes ∷ lines)) }
{
    if delimiter_columns(next).is_none() {
        return false;
    }
    let Some((line, _)) = before.next(text) else {
        return false;
    };
    let line = Line::new(line, next.outer());
    head_columns(next, without_front(line.rest().text)).is_some()
}

/// The table at the front of the text whose header row, the first line, goes on with the paragraph
/// before it in these containers. That line is taken, and the paragraph is a term or not.
pub(crate) fn scan_table(
    text: &[u8],
    line: &[u8],
    first: Extent,
    outer: &OpenContainers,
    is_term: bool,
) -> Option<Block>
    ensures found { IfSome result (λ block. IsTaken text.now first (line.now ∷ [])
        → IsTableAfter is_term text.now outer.now line.now block) }
    ensures none { IfNone result (IsTaken text.now first (line.now ∷ [])
        → ¬ Leaves outer.now (EndsRead outer.now.extensions is_term) line.now
        → ¬ BeginTable outer.now (lines_of text.now)) }
{
    let (next, second) = first.next(text)?;
    let next = Line::new(next, outer);
    if !begins_table(text, Extent::nothing(), &next) {
        return None;
    }
    if !goes_on_with(&Line::new(line, outer), is_term) {
        return None;
    }
    let columns = delimiter_columns(&next)?;
    Some(Block {
        kind: BlockKind::Table(columns),
        taken: take_rows(text, second, outer),
    })
}

// What the line is to the paragraph that is taken. Of that the first line is taken by `first`, and has
// this text after its containers.
#[inline(always)]
fn next_line(
    alloc: Global,
    text: &[u8],
    first: Extent,
    taken: Extent,
    line: &Line,
    words: &[u8],
) -> Result<NextLine, AllocError>
    ensures { IfOk result (λ next. (begin : List ℕ) (later : List (List ℕ))
        → IsTaken text.now first (begin ∷ []) → IsTaken text.now taken (begin ∷ later)
        → IsNextLine line.now.outer words.now later line.now.bytes next) }
{
    let Some(end) = text_end(line) else {
        if ends(line, Ending::Paragraph) {
            return Ok(NextLine::Ends);
        }
        return Ok(NextLine::GoesOn);
    };
    if !has_text(alloc, text, first, taken, line.outer(), words)? {
        if end.interrupts {
            return Ok(NextLine::Ends);
        }
        return Ok(NextLine::GoesOn);
    }
    match end.level {
        Some(level) => Ok(NextLine::Underlines(level)),
        None => Ok(NextLine::Ends),
    }
}

// How many columns a table has, of which the line is the delimiter row, and the line before it has
// this text.
fn head_columns(line: &Line, words: &[u8]) -> Option<usize>
    ensures { SomeExactly (λ columns. IsHead line.now.outer words.now columns line.now.bytes)
        result }
{
    if !line.outer().extensions().tables {
        return None;
    }
    let columns = delimiter_columns(line)?;
    if columns as u128 != count_cells(words) {
        return None;
    }
    if ends(line, Ending::Paragraph) {
        return None;
    }
    Some(columns)
}
