//! A page walked block by block.
ghost use Rattle.std.specs.Prelude.{◌≡◌, ◌<◌, IfOk, IfSome};
ghost use Rattle.markdown_blocks.specs.events.Given.{events_left};
ghost use Rattle.markdown_blocks.specs.declared.blocks.BlockKind.TheVariants.{Paragraph};

use markdown_blocks::blocks::BlockKind;
use markdown_blocks::events::{BlockEvent, Blocks, Leaf};
use markdown_blocks::info::info_of;
use markdown_blocks::page_events::page_events;
use std::alloc::{AllocError, Global};

/// The next paragraph of a page that is walked, or None where it has no further one.
pub fn next_paragraph<'a>(
    alloc: Global,
    blocks: &mut Blocks<'a>,
) -> Result<Option<Leaf<'a>>, AllocError>
    ensures kind { IfOk result (λ found. IfSome found (λ leaf. leaf.kind ≡ Paragraph)) }
    ensures fewer { IfOk result (λ found. IfSome found (λ _.
        events_left blocks.new < events_left blocks.old)) }
{
    while let Some(event) = blocks.next(alloc)? {
        if let BlockEvent::Block(leaf) = event {
            if let BlockKind::Paragraph = leaf.kind {
                return Ok(Some(leaf));
            }
        }
    }
    Ok(None)
}

/// The first lines of the paragraphs of a page, after their containers.
pub fn paragraph_heads<'a>(alloc: Global, page: &'a [u8]) -> Result<Vec<&'a [u8]>, AllocError> {
    let mut heads = Vec::new(alloc);
    let mut blocks = Blocks::new(alloc, page);
    while let Some(leaf) = next_paragraph(alloc, &mut blocks)? {
        heads.push(leaf.text)?;
    }
    Ok(heads)
}

/// Whether a page has fenced code with this info string.
pub fn has_code(alloc: Global, page: &[u8], info: &[u8]) -> Result<bool, AllocError> {
    for event in page_events(alloc, page) {
        if is_code(event?, info) {
            return Ok(true);
        }
    }
    Ok(false)
}

// Whether it is fenced code with this info string.
fn is_code(event: BlockEvent, info: &[u8]) -> bool {
    let BlockEvent::Block(leaf) = event else {
        return false;
    };
    let BlockKind::Fenced(_, byte) = leaf.kind else {
        return false;
    };
    info_of(leaf.text, byte) == info
}
