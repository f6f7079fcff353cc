//! Where the labels of a page lead.
ghost use Rattle.std.specs.Prelude.{◌≡◌, ℕ, List, option_map, IfOk};
ghost use Rattle.markdown_values.specs.values.Extensions.{commonmark};
ghost use Rattle.markdown_blocks.specs.link_definitions.LinkDefinitions.{Named, HasDefinitions, first_of};

use markdown_blocks::link_definitions::LinkDefinitions;
use std::alloc::{AllocError, Global};

/// The destination of a label's first definition on a page, as it is written.
pub fn destination_of(
    alloc: Global,
    page: &[u8],
    label: &str,
) -> Result<Option<Vec<u8>>, AllocError>
    ensures { IfOk result (λ found. (named : List Named)
        × HasDefinitions commonmark page.now named
        × (option_map (λ v. v.items) found
        ≡ option_map (λ target. target.destination) (first_of label.now named))) }
{
    let known = LinkDefinitions::of_page(alloc, page)?;
    match known.get(label)? {
        Some(definition) => Ok(Some(copied(alloc, definition.destination())?)),
        None => Ok(None),
    }
}

/// The title of a label's first definition on a page, as it is written, if it has one.
pub fn title_of(alloc: Global, page: &[u8], label: &str) -> Result<Option<Vec<u8>>, AllocError> {
    let known = LinkDefinitions::of_page(alloc, page)?;
    let Some(definition) = known.get(label)? else {
        return Ok(None);
    };
    match definition.title() {
        Some(title) => Ok(Some(copied(alloc, title)?)),
        None => Ok(None),
    }
}

// A list of these bytes.
fn copied(alloc: Global, bytes: &[u8]) -> Result<Vec<u8>, AllocError>
    ensures { IfOk result (λ copy. copy.items ≡ bytes.now) }
{
    let mut copy = Vec::new(alloc);
    copy.extend_from_slice(bytes)?;
    Ok(copy)
}
