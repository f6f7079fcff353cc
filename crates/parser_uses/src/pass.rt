//! A pass over a page, block by block.
ghost use Rattle.std.specs.Prelude.{◌≡◌, ◌<◌, ◌≤◌, length, map, IfOk};
ghost use Rattle.std.specs.List.{concat};

use markdown_scanners_tree::scanners::{
    interrupts_paragraph, scan_blank_line, scan_closing_code_fence, scan_code_fence, scan_line,
};
use std::alloc::{AllocError, Global};

// The length of the lines after a first one that go on with it.
fn text_length(text: &[u8]) -> usize
    ensures { result ≤ length text.now }
{
    let mut end = 0;
    while end < text.len() && !ends_text(&text[end..]) {
        end += scan_line(&text[end..]);
    }
    end
}

// Whether a blank line stands at the front, or one that interrupts a paragraph.
fn ends_text(text: &[u8]) -> bool {
    let (line, _) = text.split_at(scan_line(text));
    scan_blank_line(line).is_some() || interrupts_paragraph(line)
}

// The length of what an opening fence has after its line, with the line of the closing fence.
fn code_length(text: &[u8], fence: u8, count: usize) -> usize
    ensures { result ≤ length text.now }
{
    let mut end = 0;
    while end < text.len() {
        let closes = scan_closing_code_fence(&text[end..], fence, count).is_some();
        end += scan_line(&text[end..]);
        if closes {
            return end;
        }
    }
    end
}

// The length of the block at the front.
fn block_length(text: &[u8]) -> usize
    ensures within { result ≤ length text.now }
    ensures rises { 0 < length text.now → 0 < result }
{
    let (line, later) = text.split_at(scan_line(text));
    match scan_code_fence(line) {
        Some((count, fence)) => line.len() + code_length(later, fence, count),
        None => line.len() + text_length(later),
    }
}

/// The blocks of a page, which together are the page: fenced code up to its closing fence, and other lines up to one that
/// is blank or interrupts a paragraph.
pub fn blocks_of(alloc: Global, page: &[u8]) -> Result<Vec<&[u8]>, AllocError>
    ensures parts { IfOk result (λ blocks. concat (map (λ block. block.now) blocks.items)
        ≡ page.now) }
{
    let mut blocks = Vec::new(alloc);
    let mut rest = page;
    while !rest.is_empty() {
        let (block, later) = rest.split_at(block_length(rest));
        blocks.push(block)?;
        rest = later;
    }
    Ok(blocks)
}
