//! The text of a page's blocks, with the offset of each byte.
use markdown_blocks::blocks::BlockKind;
use markdown_blocks::containers::Container;
use markdown_blocks::content::{Content, content_of};
use markdown_blocks::events::{BlockEvent, Blocks, Leaf};
use markdown_blocks::info::info_of;
use std::alloc::{AllocError, Global};

/// The text of the fenced code of a page that has this info string, joined.
pub fn code_text(alloc: Global, page: &[u8], info: &[u8]) -> Result<Vec<u8>, AllocError> {
    let mut code = Vec::new(alloc);
    let mut blocks = Blocks::new(alloc, page);
    let mut begun: usize = 0;
    while let Some(event) = blocks.next(alloc)? {
        match event {
            BlockEvent::Start(..) => begun = begun.saturating_add(1),
            BlockEvent::Block(leaf) => {
                if is_code(leaf, info) {
                    let content = content_in(alloc, page, leaf, blocks.containers(), begun)?;
                    code.extend_from_slice(content.text())?;
                }
                begun = 0;
            }
            BlockEvent::End => {}
        }
    }
    Ok(code)
}

// Whether it is fenced code with this info string.
fn is_code(leaf: Leaf, info: &[u8]) -> bool {
    match leaf.kind {
        BlockKind::Fenced(_, byte) => info_of(leaf.text, byte) == info,
        _ => false,
    }
}

// The content of a leaf block in these containers, of which its first line begins so many.
fn content_in<'a>(
    alloc: Global,
    page: &'a [u8],
    leaf: Leaf,
    containers: &[Container],
    begun: usize,
) -> Result<Content<'a>, AllocError> {
    let end = leaf.start.saturating_add(leaf.bytes);
    let lines = page.get(leaf.start..end).unwrap_or(&[]);
    let kept = containers.len().saturating_sub(begun);
    content_of(alloc, lines, leaf.kind, containers, kept)
}

/// The bytes of the text of all blocks of a page, each with its offset in the page.
pub fn placed_text(alloc: Global, page: &[u8]) -> Result<Vec<(u8, usize)>, AllocError> {
    let mut placed = Vec::new(alloc);
    let mut blocks = Blocks::new(alloc, page);
    let mut begun: usize = 0;
    while let Some(event) = blocks.next(alloc)? {
        match event {
            BlockEvent::Start(..) => begun = begun.saturating_add(1),
            BlockEvent::Block(leaf) => {
                let content = content_in(alloc, page, leaf, blocks.containers(), begun)?;
                add_placed(&mut placed, &content, leaf.start)?;
                begun = 0;
            }
            BlockEvent::End => {}
        }
    }
    Ok(placed)
}

// Adds the bytes of a content, before whose lines so many bytes of the page stand.
fn add_placed(
    placed: &mut Vec<(u8, usize)>,
    content: &Content,
    before: usize,
) -> Result<(), AllocError> {
    for (offset, byte) in content.text().iter().enumerate() {
        placed.push((*byte, before.saturating_add(content.source_offset(offset))))?;
    }
    Ok(())
}
