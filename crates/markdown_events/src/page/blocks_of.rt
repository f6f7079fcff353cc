//! The blocks of a page and its link reference definitions, read in one pass.
ghost use Rattle.std.specs.Prelude.{◌≡◌, ◌++◌, ◌<◌, ◌≤◌, List, ℕ, drop, length, map, replicate, IfOk, OnOk};
ghost use Rattle.markdown_blocks.specs.events.Events.{Event, IsEventsOf, ends, seen_event};
ghost use Rattle.markdown_blocks.specs.events.Given.{GivesBlock};
ghost use Rattle.markdown_blocks.specs.link_definitions.LinkDefinitions.{Named, Names, HasDefinitions, first_of, known_as, known_before};

use crate::page::definitions::PageDefinitions;
use markdown_blocks::byte_order_mark::text_start;
use markdown_blocks::containers::Container;
use markdown_blocks::events::{BlockEvent, BlockEvents};
use markdown_blocks::link_definitions::LinkDefinitions;
use markdown_blocks::taken::Extent;
use markdown_blocks::walk::Walk;
use markdown_values::values::Extensions;
use std::alloc::{AllocError, Global};

/// The block events of a page with these extensions on, and its link reference definitions.
pub(crate) fn read_page<'a>(
    alloc: Global,
    page: &'a str,
    extensions: Extensions,
) -> Result<(Vec<BlockEvent<'a>>, PageDefinitions<'a>), AllocError>
    ensures blocks { IfOk result (λ read.
        IsEventsOf extensions page.now (map seen_event read.0.items)) }
    ensures first { IfOk result (λ read. (named : List Named)
        × HasDefinitions extensions page.now named
        × ((label : List ℕ) → known_as read.1 label ≡ first_of label named)) }
{
    read_bytes(alloc, page.as_bytes(), extensions)
}

// The same of the bytes of the page.
fn read_bytes<'a>(
    alloc: Global,
    page: &'a [u8],
    extensions: Extensions,
) -> Result<(Vec<BlockEvent<'a>>, PageDefinitions<'a>), AllocError>
    ensures blocks { IfOk result (λ read.
        IsEventsOf extensions page.now (map seen_event read.0.items)) }
    ensures first { IfOk result (λ read. (named : List Named)
        × HasDefinitions extensions page.now named
        × ((label : List ℕ) → known_as read.1 label ≡ first_of label named)) }
{
    let mut blocks = Vec::new(alloc);
    let mut known = LinkDefinitions::new(alloc);
    let mut walk = Walk::new_ext(alloc, extensions);
    let mut content = Vec::new(alloc);
    let mut lines = 0;
    let mut bytes = text_start(page);
    loop {
        let before = Extent { lines, bytes };
        let depth = walk.containers().len();
        let Some(step) = walk.next_block(alloc, &mut content, &page[bytes..], true)? else {
            push_ends(&mut blocks, depth)?;
            return Ok((blocks, PageDefinitions::new(alloc, known)));
        };
        let taken = step.block.taken;
        let events = BlockEvents::new(step, before, depth);
        push_events(&mut blocks, &mut known, walk.containers(), &content, events)?;
        lines += taken.lines;
        bytes += taken.bytes;
    }
}

// Adds the events of a block, in these containers and with this content, and its definitions.
fn push_events<'a>(
    blocks: &mut Vec<BlockEvent<'a>>,
    known: &mut LinkDefinitions<'a>,
    containers: &[Container],
    content: &[u8],
    mut events: BlockEvents<'a>,
) -> Result<(), AllocError>
    requires some { 0 < length events.part.lines }
    ensures events { OnOk result ((given : List Event)
        × GivesBlock containers.now content.now events.entry given
        × (map seen_event blocks.new.items ≡ map seen_event blocks.old.items ++ given)) }
    ensures named { OnOk result ((named : List Named)
        × Names (drop events.entry.used content.now) named
        × ((asked : List ℕ) → known_as known.new asked ≡ known_before known.old named asked)) }
{
    push_containers(blocks, containers, &mut events)?;
    // Most blocks are one leaf block.
    if content.is_empty() {
        blocks.push(BlockEvent::Block(events.whole()))?;
        return Ok(());
    }
    push_leaves(blocks, known, containers, content, events)?;
    Ok(())
}

// Adds the events of the containers that end and begin with a block.
fn push_containers<'a>(
    blocks: &mut Vec<BlockEvent<'a>>,
    containers: &[Container],
    events: &mut BlockEvents<'a>,
) -> Result<(), AllocError>
    ensures events { OnOk result ((content : List ℕ) (later : List Event)
        → GivesBlock containers.now content events.new later → (given : List Event)
        × GivesBlock containers.now content events.old given
        × (map seen_event blocks.new.items ++ later ≡ map seen_event blocks.old.items ++ given)) }
    ensures ended { OnOk result (events.new.ending ≡ 0) }
    ensures begun { OnOk result (length containers.now ≤ events.new.begun) }
    ensures used { OnOk result (events.new.used ≡ events.old.used) }
    ensures part { OnOk result (events.new.part ≡ events.old.part) }
{
    while let Some(event) = events.next_container(containers) {
        blocks.push(event)?;
    }
    Ok(())
}

// Adds the events of a block that are left, in these containers and with this content, and its
// definitions.
fn push_leaves<'a>(
    blocks: &mut Vec<BlockEvent<'a>>,
    known: &mut LinkDefinitions<'a>,
    containers: &[Container],
    content: &[u8],
    mut events: BlockEvents<'a>,
) -> Result<(), AllocError>
    ensures events { OnOk result ((given : List Event)
        × GivesBlock containers.now content.now events.entry given
        × (map seen_event blocks.new.items ≡ map seen_event blocks.old.items ++ given)) }
    ensures named { OnOk result ((named : List Named)
        × Names (drop events.entry.used content.now) named
        × ((asked : List ℕ) → known_as known.new asked ≡ known_before known.old named asked)) }
{
    while let Some(event) = events.next_adding(containers, content, known)? {
        blocks.push(event)?;
    }
    // No definition is left of the content, which has no more lines than the block. That it names no
    // more is shown by adding none.
    known.add_content(events.content_left(content), &[])?;
    Ok(())
}

// Adds the ends of so many containers.
fn push_ends(blocks: &mut Vec<BlockEvent>, count: usize) -> Result<(), AllocError>
    ensures { OnOk result (map seen_event blocks.new.items
        ≡ map seen_event blocks.old.items ++ replicate count ends) }
{
    let mut left = count;
    while left > 0 {
        blocks.push(BlockEvent::End)?;
        left -= 1;
    }
    Ok(())
}
