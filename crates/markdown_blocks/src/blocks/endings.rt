//! What ends a block: lines that go on with no paragraph, underlines, closing fences, ends of HTML blocks.
ghost use Rattle.std.specs.Prelude.{◌≡◌, ◌↔◌, ℕ, Option, IsTrue, IfSome, IfNone};
ghost use Rattle.markdown_values.specs.declared.values.HeadingLevel.{HeadingLevel};
ghost use Rattle.markdown_scanners_tree.specs.SomeExactly.{SomeExactly};
ghost use Rattle.markdown_scanners_tree.specs.scanners.Headings.{IsSetextUnderline};
ghost use Rattle.markdown_blocks.specs.blocks.Endings.{EndsText, IsEnd, IsUnderOrDefines};
ghost use Rattle.markdown_blocks.specs.blocks.Leaves.{ClosesFence, EndsParagraph, EndsRead, HasIndent, In, Interrupts, IsLazy, IsUnderline, Leaves};
ghost use Rattle.markdown_blocks.specs.blocks.Leaves.{begins_filled_item, ends_html, interrupts_by_marker};
ghost use Rattle.markdown_blocks.specs.containers.Containers.{asked_in, match_line, IsInside};

use crate::blank_lines::is_blank;
use crate::blocks::{Ending, TextEnd};
use crate::containers::item_markers::scan_item;
use crate::containers::{Container, OpenContainers, go_on};
use crate::footnotes::footnote_label;
use crate::kinds::has_fed_signs;
use crate::line::Line;
use crate::rest::Rest;
use crate::terms::defines_term;
use markdown_scanners_tree::line::LineStart;
use markdown_scanners_tree::scanners::{
    HtmlBlockKind, ends_html_block, interrupts_paragraph, scan_ch_repeat, scan_closing_code_fence,
    scan_setext_heading,
};
use markdown_values::values::{Extensions, HeadingLevel};

/// Whether the line ends a block with this ending.
#[inline(always)]
pub(super) fn ends(line: &Line, ending: Ending) -> bool
    ensures { IsTrue result ↔ IsEnd line.now.outer ending line.now.bytes }
{
    let Some(rest) = line.rest_inside() else {
        return match ending {
            Ending::Paragraph => !is_lazy(line),
            _ => true,
        };
    };
    match ending {
        Ending::Text => !is_blank(rest.text),
        Ending::Paragraph => ends_paragraph(rest, line.outer().extensions()),
        Ending::Fence(count, byte) => closes_fence(rest, count, byte),
        Ending::Html(kind) => ends_html(rest.text, kind),
    }
}

/// Whether the line stands in the containers.
pub(super) fn is_inside(line: &[u8], outer: &OpenContainers) -> bool
    ensures { IsTrue result ↔ IsInside outer.now.containers line.now }
{
    let (kept, _) = go_on(line, outer);
    kept == outer.count()
}

/// Whether the line stands in the containers, after an indent of four columns.
pub(super) fn is_indented(line: &Line) -> bool
    ensures { IsTrue result ↔ In line.now.outer.containers HasIndent line.now.bytes }
{
    match line.rest_inside() {
        Some(rest) => rest.indent == 4,
        None => false,
    }
}

// Whether the rest of a line, after fewer containers than those of the paragraph before it, goes on with
// that.
fn is_lazy(line: &Line) -> bool
    ensures { IsTrue result ↔ IsLazy (asked_in line.now.outer line.now.bytes)
        (match_line line.now.outer.containers line.now.bytes).state }
{
    if line.begins_container() {
        return false;
    }
    let rest = line.rest();
    if is_blank(rest.text) {
        return false;
    }
    if rest.indent == 4 {
        return true;
    }
    !interrupts(rest.text, line.asked())
}

// Whether a line with this after its containers goes on with no paragraph.
#[inline(always)]
fn ends_paragraph(rest: &Rest, extensions: Extensions) -> bool
    ensures { IsTrue result ↔ EndsParagraph extensions rest.now }
{
    if is_blank(rest.text) {
        return true;
    }
    if underline_level(rest).is_some() {
        return true;
    }
    rest.indent != 4 && interrupts(rest.text, extensions)
}

// Whether the text interrupts a paragraph, after fewer than four columns of space.
fn interrupts(text: &[u8], extensions: Extensions) -> bool
    ensures { IsTrue result ↔ Interrupts extensions text.now }
{
    if interrupts_paragraph(text) && !has_fed_signs(text) {
        return true;
    }
    interrupts_by_marker(text, extensions)
}

// Whether the marker of a footnote definition or of an item with text stands at the front.
fn interrupts_by_marker(text: &[u8], extensions: Extensions) -> bool
    ensures { result ≡ interrupts_by_marker extensions text.now }
{
    (extensions.footnotes && footnote_label(text).is_some()) || begins_filled_item(text)
}

// Whether an item begins there whose first line is not blank, with a bullet or the number 1.
#[tactic(auto, unfolding(crate::specs::blocks::Leaves::begins_filled_item))]
fn begins_filled_item(text: &[u8]) -> bool
    ensures { result ≡ begins_filled_item text.now }
{
    match scan_item(text, &mut LineStart::new(text), 0) {
        Some(Container::Item(item)) => {
            let is_first = matches!(item.delimiter, b'-' | b'+' | b'*') || item.start == 1;
            !item.starts_blank && is_first
        }
        _ => false,
    }
}

// The level of the setext heading whose underline it is.
#[inline(always)]
fn underline_level(rest: &Rest) -> Option<HeadingLevel>
    ensures { SomeExactly (λ level. IsUnderline level rest.now) result }
{
    if rest.indent == 4 {
        return None;
    }
    let (_, level) = scan_setext_heading(rest.text)?;
    if !is_blank(after_underline(rest.text, level)) {
        return None;
    }
    Some(level)
}

// What stands after the underline of a heading of this level.
fn after_underline(text: &[u8], level: HeadingLevel) -> &[u8]
    ensures { (n : ℕ) (underline : IsSetextUnderline text.now n level)
        → result.now ≡ underline.rest }
{
    let byte = match level {
        HeadingLevel::H1 => b'=',
        _ => b'-',
    };
    &text[scan_ch_repeat(text, byte)..]
}

/// Whether the line goes on with the paragraph before it that is read, and is a term or not.
pub(super) fn goes_on_with(line: &Line, is_term: bool) -> bool
    ensures { IsTrue result ↔ (¬ Leaves line.now.outer (EndsRead line.now.outer.extensions is_term)
        line.now.bytes) }
{
    match line.rest_inside() {
        Some(rest) => !ends_read(rest, line.outer().extensions(), is_term),
        None => is_lazy(line),
    }
}

// Whether a line with this after its containers goes on with no such paragraph.
fn ends_read(rest: &Rest, extensions: Extensions, is_term: bool) -> bool
    ensures { IsTrue result ↔ EndsRead extensions is_term rest.now }
{
    if is_blank(rest.text) {
        return true;
    }
    if is_term && defines_term(rest, extensions) {
        return true;
    }
    rest.indent != 4 && interrupts(rest.text, extensions)
}

/// What the line is in the containers that ends a paragraph with text.
#[inline(always)]
pub(super) fn text_end(line: &Line) -> Option<TextEnd>
    ensures found { IfSome result (λ r. EndsText line.now.outer r line.now.bytes) }
    ensures none { IfNone result ((level : Option HeadingLevel) → ¬ In line.now.outer.containers
        (IsUnderOrDefines line.now.outer.extensions level) line.now.bytes) }
{
    let rest = line.rest_inside()?;
    let extensions = line.outer().extensions();
    let level = underline_level(rest);
    if level.is_none() && !defines_term(rest, extensions) {
        return None;
    }
    Some(TextEnd {
        level,
        interrupts: interrupts(rest.text, extensions),
    })
}

/// Whether the text meets the end condition of an HTML block of this kind.
pub(super) fn ends_html(text: &[u8], kind: HtmlBlockKind) -> bool
    ensures { result ≡ ends_html kind text.now }
{
    if kind.ends_before_blank() {
        return is_blank(text);
    }
    ends_html_block(text, kind)
}

/// Whether it closes fenced code.
pub(crate) fn closes_fence(rest: &Rest, count: usize, byte: u8) -> bool
    ensures { IsTrue result ↔ ClosesFence count byte rest.now }
{
    if rest.text.is_empty() {
        return false;
    }
    rest.indent != 4 && scan_closing_code_fence(rest.text, byte, count).is_some()
}
