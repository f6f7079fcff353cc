//! Lines that interrupt a paragraph.
ghost use Rattle.std.specs.Prelude.{◌≡◌, ◌↔◌, IsTrue};
ghost use Rattle.markdown_scanners_tree.specs.Bytes.{begins_with, is_space_or_tab};
ghost use Rattle.markdown_scanners_tree.specs.scanners.Breaks.{IsThematicBreak};
ghost use Rattle.markdown_scanners_tree.specs.scanners.Interrupts.{InterruptsParagraph, Interrupts, IsSomeHeading, IsSomeFence, IsSomeQuote};
ghost use Rattle.markdown_scanners_tree.specs.scanners.Interrupts.{IsInterruptingItem, IsInterruptingHtml, item_interrupts, after_indent};

use crate::scanners::breaks::scan_hrule;
use crate::scanners::fences::scan_code_fence;
use crate::scanners::headings::scan_atx_heading;
use crate::scanners::html_kinds::begins_interrupting_html;
use crate::scanners::lines::{line_head, scan_blank_line, scan_blockquote_start};
use crate::scanners::list_items::scan_marker;
use crate::scanners::runs::{first_bytes, scan_ch_repeat};

// More columns of space make an indented code block, which interrupts nothing.
const MOST_INDENT: usize = 3;

/// Whether the line at the front can interrupt a paragraph, after at most three columns of indent.
///
/// What can is a thematic break, an ATX heading, an opening code fence, a block quote marker, a
/// list item that is not blank and has a bullet or the number 1, and an HTML block but one whose
/// tag stands alone in its line. A blank line and the underline of a setext heading end a paragraph
/// too, and interrupt none. (CommonMark 0.31.2, section 4.8, and 4.1, 4.2, 4.5, 4.6, 5.1, 5.2)
pub fn interrupts_paragraph(line: &[u8]) -> bool
    ensures { IsTrue result ↔ InterruptsParagraph line.now }
{
    interrupts(without_indent(line))
}

// The line after at most three spaces; a tab makes more than three columns.
fn without_indent(line: &[u8]) -> &[u8]
    ensures { result.now ≡ after_indent line.now }
{
    &line[scan_ch_repeat(first_bytes(line, MOST_INDENT), b' ')..]
}

// Whether what interrupts a paragraph stands at the front.
fn interrupts(bytes: &[u8]) -> bool
    ensures { IsTrue result ↔ Interrupts bytes.now }
{
    is_break(bytes)
        || is_heading(bytes)
        || is_fence(bytes)
        || is_quote(bytes)
        || is_interrupting_item(bytes)
        || is_interrupting_html(bytes)
}

// Whether a thematic break begins there.
fn is_break(bytes: &[u8]) -> bool
    ensures { IsTrue result ↔ IsThematicBreak bytes.now }
{
    scan_hrule(bytes).is_ok()
}

// Whether an ATX heading begins there.
fn is_heading(bytes: &[u8]) -> bool
    ensures { IsTrue result ↔ IsSomeHeading bytes.now }
{
    scan_atx_heading(bytes).is_some()
}

// The line is read only where a fence byte stands at its front.
fn is_fence(bytes: &[u8]) -> bool
    ensures { IsTrue result ↔ IsSomeFence bytes.now }
{
    match bytes {
        [b'`' | b'~', ..] => scan_code_fence(line_head(bytes)).is_some(),
        _ => false,
    }
}

// Whether a block quote begins there.
fn is_quote(bytes: &[u8]) -> bool
    ensures { IsTrue result ↔ IsSomeQuote bytes.now }
{
    scan_blockquote_start(bytes).is_some()
}

// Whether a list item begins there that interrupts a paragraph.
fn is_interrupting_item(bytes: &[u8]) -> bool
    ensures { IsTrue result ↔ IsInterruptingItem bytes.now }
{
    match scan_marker(bytes) {
        Some((width, delimiter, start)) => item_interrupts(delimiter, start, &bytes[width..]),
        None => false,
    }
}

// Whether an item with this marker and rest interrupts a paragraph.
fn item_interrupts(delimiter: u8, start: usize, rest: &[u8]) -> bool
    ensures { result ≡ item_interrupts delimiter start rest.now }
{
    let is_first = start == 1 || matches!(delimiter, b'-' | b'+' | b'*');
    is_first && begins_with_space(rest) && scan_blank_line(rest).is_none()
}

// Whether a space or a tab stands at the front.
fn begins_with_space(rest: &[u8]) -> bool
    ensures { result ≡ begins_with is_space_or_tab rest.now }
{
    matches!(rest, [b' ' | b'\t', ..])
}

// Whether an HTML block begins there that interrupts a paragraph.
fn is_interrupting_html(bytes: &[u8]) -> bool
    ensures { IsTrue result ↔ IsInterruptingHtml bytes.now }
{
    let Some(rest) = bytes.strip_prefix(b"<") else {
        return false;
    };
    begins_interrupting_html(rest)
}
