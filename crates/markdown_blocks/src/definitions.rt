//! Link reference definitions at the front of a paragraph. (CommonMark 0.31.2, section 4.7)
ghost use Rattle.std.specs.Prelude.{◌≡◌, ◌↔◌, ◌<◌, ◌≤◌, ◌++◌, ◌-◌, ◌∷◌, [], List, ℕ, false, drop, length, take, IsTrue, IfOk, IfSome, IfNone, OnOk};
ghost use Rattle.markdown_scanners_tree.specs.SomeExactly.{SomeExactly};
ghost use Rattle.markdown_scanners_tree.specs.scanners.TextLines.{lines_of};
ghost use Rattle.markdown_scanners_tree.specs.declared.scanners.reference_definitions.ReferenceDefinition.{ReferenceDefinition};
ghost use Rattle.markdown_blocks.specs.definitions.Content.{content_in, content_of, words_in};
ghost use Rattle.markdown_blocks.specs.definitions.Definitions.{AreDefinitions, HasText, IsDefinition};
ghost use Rattle.markdown_blocks.specs.definitions.LabelEnds.{has_label_end, is_label_end};
ghost use Rattle.markdown_blocks.specs.info.Info.{without_front};
ghost use Rattle.markdown_blocks.specs.taken.Lines.{IsTaken};
ghost use Rattle.markdown_blocks.specs.walk.Walk.{IsGathered};

use crate::blocks::{Block, BlockKind};
use crate::containers::{Container, OpenContainers, go_on};
use crate::info::without_front;
use crate::rest::scan_rest;
use crate::taken::Extent;
use markdown_scanners_tree::scanners::{ReferenceDefinition, scan_reference_definition_ahead};
use markdown_values::values::Extensions;
use memchr::memchr;
use std::alloc::{AllocError, Global};

/// The definition at the front of a paragraph's content, if one stands there. Parentheses in its
/// destination nest at most 32 deep.
pub fn scan_definition(content: &[u8]) -> Option<ReferenceDefinition>
    ensures found { SomeExactly (IsDefinition content.now) result }
    ensures some { IfSome result (λ definition. 0 < definition.len) }
    ensures within { IfSome result (λ definition. definition.len ≤ length content.now) }
    ensures label { IfSome result (λ d. (0 < d.label.start) × (d.label.start ≤ d.label.end)
        × (d.label.end < d.destination.start)) }
    ensures destination { IfSome result (λ d. (d.destination.start ≤ d.destination.end)
        × (d.destination.end ≤ d.len)) }
    ensures title { IfSome result (λ d. IfSome d.title (λ title. (title.start ≤ title.end)
        × (title.end < d.len))) }
{
    scan_reference_definition_ahead(content, 31)
}

/// How many bytes and lines the definition at the front of a paragraph's content takes, if one
/// stands there. A block has a line for each line of its content, so these are as many lines of the
/// page: the first of the block, and after one definition those of the next.
pub fn take_definition(content: &[u8]) -> Option<Extent>
    ensures found { IfSome result (λ taken. (definition : ReferenceDefinition)
        × IsDefinition content.now definition × (taken.bytes ≡ definition.len)
        × IsTaken content.now taken (lines_of (take definition.len content.now))) }
    ensures none { IfNone result ((definition : ReferenceDefinition)
        → ¬ IsDefinition content.now definition) }
    ensures some { IfSome result (λ taken. 0 < taken.bytes) }
    ensures within { IfSome result (λ taken. taken.bytes ≤ length content.now) }
{
    if content.is_empty() {
        return None;
    }
    let definition = scan_definition(content)?;
    Some(count_lines(&content[..definition.len]))
}

/// How many bytes and lines the text has.
pub(crate) fn count_lines(text: &[u8]) -> Extent
    ensures lines { result.lines ≡ length (lines_of text.now) }
    ensures bytes { result.bytes ≡ length text.now }
{
    let mut taken = Extent::nothing();
    while let Some((_, more)) = taken.next(text) {
        taken = more;
    }
    taken
}

/// How many bytes the definitions take at the front of a paragraph's content, one after another.
pub fn definitions_len(content: &[u8]) -> usize
    ensures definitions { (definitions : List ReferenceDefinition)
        × AreDefinitions content.now definitions (drop result content.now) }
    ensures within { result ≤ length content.now }
{
    let mut taken = 0;
    while let Some(definition) = scan_definition(&content[taken..]) {
        taken += definition.len;
    }
    taken
}

/// Whether a paragraph in these containers has text after the definitions that it begins with. Of
/// its lines the first is taken, and has this text after its indent, and all are.
pub(crate) fn has_text(
    alloc: Global,
    text: &[u8],
    first: Extent,
    taken: Extent,
    outer: &OpenContainers,
    words: &[u8],
) -> Result<bool, AllocError>
    ensures { IfOk result (λ given. (line : List ℕ) (later : List (List ℕ))
        → IsTaken text.now first (line ∷ [])
        → IsTaken text.now taken (line ∷ later)
        → (IsTrue given ↔ HasText (content_of outer.now.containers words.now later))) }
{
    if begins_with_text(words) {
        return Ok(true);
    }
    let mut content = Vec::new(alloc);
    add_lines(&mut content, text, first, taken.lines, outer, words)?;
    Ok(definitions_len(&content) < content.len())
}

// Whether the text of a paragraph's first line shows that it begins with no definition.
fn begins_with_text(words: &[u8]) -> bool
    ensures text { IsTrue result → (more : List ℕ) → HasText (without_front words.now ++ more) }
    ensures none { IsTrue result → (more : List ℕ) (definition : ReferenceDefinition)
        → ¬ IsDefinition (without_front words.now ++ more) definition }
{
    match without_front(words) {
        [] | [b'[', ..] => false,
        _ => true,
    }
}

// Whether the block is one line, and no label of a definition ends in its text.
fn is_line_without_label(block: Block, text: &[u8]) -> bool
    ensures line { IsTrue result → block.taken.lines ≡ 1 }
    ensures none { IsTrue result → has_label_end (without_front text.now) ≡ false }
{
    if block.taken.lines != 1 {
        return false;
    }
    !has_label_end(without_front(text))
}

// Whether a bracket is closed somewhere in the text with a colon directly after it, as in each text that
// begins with a definition.
fn has_label_end(text: &[u8]) -> bool
    ensures { result ≡ has_label_end text.now }
{
    let mut from = 0;
    while from < text.len() {
        let Some(found) = memchr(b']', &text[from..]) else {
            return false;
        };
        let offset = from + found;
        if is_label_end(&text[offset..]) {
            return true;
        }
        from = offset + 1;
    }
    false
}

// Whether a bracket is closed at the front, with a colon directly after it.
fn is_label_end(rest: &[u8]) -> bool
    ensures { result ≡ is_label_end rest.now }
{
    matches!(rest, [b']', b':', ..])
}

/// Makes the content that of the block at the front of these lines, where it begins with a
/// definition, and else empty.
pub(crate) fn gather_content(
    content: &mut Vec<u8>,
    lines: &[u8],
    block: Block,
    containers: &[Container],
    text: &[u8],
) -> Result<(), AllocError>
    ensures { OnOk result ((line : List ℕ) (later : List (List ℕ))
        → IsTaken lines.now block.taken (line ∷ later)
        → IsGathered (content_in block.kind containers.now text.now later) content.new.items) }
{
    content.clear();
    if begins_with_text(text) {
        return Ok(());
    }
    // Most brackets at the front of a paragraph are those of a link.
    if is_line_without_label(block, text) {
        return Ok(());
    }
    add_content(content, lines, block, containers, text)?;
    if !begins_with_definition(content) {
        content.clear();
    }
    Ok(())
}

// Whether a definition stands at the front of a paragraph's content. Most that begin with a bracket
// have no label that ends as one of a definition does, and aren't read.
fn begins_with_definition(content: &[u8]) -> bool
    ensures { result ≡ false → (definition : ReferenceDefinition)
        → ¬ IsDefinition content.now definition }
{
    if !has_label_end(content) {
        return false;
    }
    scan_definition(content).is_some()
}

/// Adds the content of a block at the front of these lines: a paragraph's, a definition's or a setext
/// heading's, and nothing of other blocks. `text` is what its first line has, as `Step` has it, and
/// `containers` are those that it stands in.
pub fn add_content(
    content: &mut Vec<u8>,
    lines: &[u8],
    block: Block,
    containers: &[Container],
    text: &[u8],
) -> Result<(), AllocError>
    ensures { OnOk result ((line : List ℕ) (later : List (List ℕ))
        → IsTaken lines.now block.taken (line ∷ later)
        → content.new.items
        ≡ content.old.items ++ content_in block.kind containers.now text.now later) }
{
    let count = match block.kind {
        BlockKind::Paragraph | BlockKind::Definition => block.taken.lines,
        BlockKind::Setext(_) => block.taken.lines.saturating_sub(1),
        _ => return Ok(()),
    };
    let Some((_, first)) = Extent::nothing().next(lines) else {
        return Ok(());
    };
    let outer = OpenContainers::new(Extensions::none(), containers);
    add_lines(content, lines, first, count, &outer, text)
}

// Adds the content of a paragraph of so many lines, of which the first is taken, and has this text.
fn add_lines(
    content: &mut Vec<u8>,
    text: &[u8],
    first: Extent,
    count: usize,
    outer: &OpenContainers,
    words: &[u8],
) -> Result<(), AllocError>
    ensures { OnOk result ((line : List ℕ) → IsTaken text.now first (line ∷ [])
        → content.new.items ≡ content.old.items ++ content_of outer.now.containers words.now
        (take (count - 1) (lines_of (drop first.bytes text.now)))) }
{
    content.extend_from_slice(without_front(words))?;
    let mut read = first;
    while read.lines < count {
        let Some((line, more)) = read.next(text) else {
            return Ok(());
        };
        content.extend_from_slice(words_in(line, outer))?;
        read = more;
    }
    Ok(())
}

// What the line has in the containers.
fn words_in<'a>(line: &'a [u8], outer: &OpenContainers) -> &'a [u8]
    ensures { result.now ≡ words_in outer.now.containers line.now }
{
    let (_, mut start) = go_on(line, outer);
    without_front(scan_rest(line, &mut start).text)
}
