//! The link reference definitions of a page, by its events.
use markdown_blocks::blocks::BlockKind;
use markdown_blocks::definitions::{add_content, scan_definition};
use markdown_blocks::events::{BlockEvent, Blocks, Leaf};
use markdown_blocks::page_events::page_events;
use std::alloc::{AllocError, Global};

/// Which lines of a page are link reference definitions: of each its first line, the page's first
/// being 0, and how many it has.
pub fn definition_lines(alloc: Global, page: &[u8]) -> Result<Vec<(usize, usize)>, AllocError> {
    let mut found = Vec::new(alloc);
    for event in page_events(alloc, page) {
        if let Some(leaf) = definition_of(event?) {
            found.push((leaf.line, leaf.lines))?;
        }
    }
    Ok(found)
}

/// The destinations of a page's definitions, in order, as they are written, without the containers
/// that their lines stand in.
pub fn destinations(alloc: Global, page: &[u8]) -> Result<Vec<Vec<u8>>, AllocError> {
    let mut found = Vec::new(alloc);
    let mut blocks = Blocks::new(alloc, page);
    while let Some(event) = blocks.next(alloc)? {
        let Some(leaf) = definition_of(event) else {
            continue;
        };
        let mut content = Vec::new(alloc);
        let lines = page.get(leaf.start..).unwrap_or(&[]);
        add_content(
            &mut content,
            lines,
            leaf.block(),
            blocks.containers(),
            leaf.text,
        )?;
        found.push(destination_in(alloc, &content)?)?;
    }
    Ok(found)
}

// The definition that the event is.
fn definition_of(event: BlockEvent) -> Option<Leaf> {
    match event {
        BlockEvent::Block(leaf) if matches!(leaf.kind, BlockKind::Definition) => Some(leaf),
        _ => None,
    }
}

// The destination of the definition at the front of a content, or nothing.
fn destination_in(alloc: Global, content: &[u8]) -> Result<Vec<u8>, AllocError> {
    let mut destination = Vec::new(alloc);
    if let Some(definition) = scan_definition(content) {
        if let Some(bytes) = content.get(definition.destination) {
            destination.extend_from_slice(bytes)?;
        }
    }
    Ok(destination)
}
