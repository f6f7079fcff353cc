//! What the first line of a block tells of it.
ghost use Rattle.std.specs.Prelude.{◌≡◌, ◌↔◌, ℕ, drop, IsTrue};
ghost use Rattle.markdown_scanners_tree.specs.SomeExactly.{SomeExactly};
ghost use Rattle.markdown_scanners_tree.specs.scanners.Breaks.{IsThematicBreak};
ghost use Rattle.markdown_scanners_tree.specs.scanners.html_tag.HtmlTag.{IsTagAloneInLine};
ghost use Rattle.markdown_blocks.specs.blank_lines.BlankLines.{is_blank};
ghost use Rattle.markdown_blocks.specs.blocks.Leaves.{Begins, BeginsAt, IsHeading, IsHtmlStart, has_fed_signs};
ghost use Rattle.markdown_blocks.specs.blocks.Pages.{is_paragraph_kind};

use crate::blank_lines::is_blank;
use crate::blocks::BlockKind;
use crate::rest::Rest;
use markdown_scanners_tree::scanners::{
    HtmlBlockKind, scan_atx_heading, scan_ch_repeat, scan_code_fence, scan_hrule,
    scan_html_block_start, scan_html_type_7,
};
use markdown_values::values::HeadingLevel;

/// The kind of the block that begins with this rest of a line, where it goes on with none and begins
/// no container.
#[inline(always)]
pub(crate) fn kind_of(rest: &Rest) -> BlockKind
    ensures { Begins result rest.now }
{
    if is_blank(rest.text) {
        return BlockKind::Blank;
    }
    if rest.indent == 4 {
        return BlockKind::Indented;
    }
    kind_at(rest.text)
}

/// Whether the kind is that of a paragraph.
pub(crate) fn is_paragraph(kind: BlockKind) -> bool
    ensures { result ≡ is_paragraph_kind kind }
{
    matches!(kind, BlockKind::Paragraph)
}

// The same of what stands after at most three columns of indent.
fn kind_at(text: &[u8]) -> BlockKind
    ensures { BeginsAt result text.now }
{
    if is_break(text) {
        return BlockKind::Break;
    }
    if let Some(level) = heading_level(text) {
        return BlockKind::Heading(level);
    }
    if let Some((count, byte)) = scan_code_fence(text) {
        return BlockKind::Fenced(count, byte);
    }
    if let Some(kind) = html_kind(text) {
        return BlockKind::Html(kind);
    }
    BlockKind::Paragraph
}

// Whether a thematic break begins with these bytes.
#[tactic(auto, using(markdown_scanners_tree::proofs::ForCallers::thematic_breaks))]
fn is_break(bytes: &[u8]) -> bool
    ensures { IsTrue result ↔ IsThematicBreak bytes.now }
{
    scan_hrule(bytes).is_ok()
}

// The level of the ATX heading that begins with these bytes.
fn heading_level(text: &[u8]) -> Option<HeadingLevel>
    ensures { SomeExactly (λ level. IsHeading level text.now) result }
{
    let level = scan_atx_heading(text)?;
    if has_fed_signs(text) {
        return None;
    }
    Some(level)
}

/// Whether number signs stand at the front, and a vertical tab or a form feed directly after them: to
/// scanners of headings that is white space, and to CommonMark text.
pub(crate) fn has_fed_signs(text: &[u8]) -> bool
    ensures { result ≡ has_fed_signs text.now }
{
    let signs = scan_ch_repeat(text, b'#');
    matches!(text, [b'#', ..]) && matches!(&text[signs..], [0x0b | 0x0c, ..])
}

// The kind of the HTML block that begins with these bytes.
fn html_kind(text: &[u8]) -> Option<HtmlBlockKind>
    ensures { SomeExactly (λ kind. IsHtmlStart kind text.now) result }
{
    let kind = scan_html_block_start(text)?;
    if matches!(kind, HtmlBlockKind::TagAlone) && !is_tag_alone(text) {
        return None;
    }
    Some(kind)
}

// Whether spaces and tabs alone stand after the tag at the front, after which white space alone does.
fn is_tag_alone(text: &[u8]) -> bool
    ensures { IsTrue result
        ↔ ((n : ℕ) → IsTagAloneInLine text.now n → IsTrue (is_blank (drop n text.now))) }
{
    match scan_html_type_7(text) {
        Some(length) => is_blank(&text[length..]),
        None => true,
    }
}
