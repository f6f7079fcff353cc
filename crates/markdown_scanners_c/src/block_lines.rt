//! The block at the front of a text, where the caller's containers are open. (CommonMark 0.31.2,
//! chapters 3, 4 and 5)
ghost use Rattle.std.specs.Prelude.{◌≡◌, ◌≤◌, ◌<◌, ◌⊎◌, ◌↔◌, ◌++◌, [], length, map, IsTrue, MatchBool, IfOk, OnOk, if◌then◌else◌};
ghost use Rattle.markdown_blocks.specs.taken.Whole.{AreWhole};
ghost use Rattle.markdown_scanners_c.specs.BlockLines.{AreOpen, IsLineOf, IsLineReturned, if_returned, no_line};
ghost use Rattle.markdown_scanners_c.specs.BlockLines.{begun_returned, open_in, open_returned, opened_returned, outer_in, state_of, step_returned};
ghost use Rattle.markdown_scanners_c.specs.Buffer.{IsWritten};
ghost use Rattle.markdown_scanners_c.specs.Status.{ok, no_memory, nothing};

use crate::extensions::{are_extensions, extensions_of};
use crate::pages::{
    BLOCK_QUOTE, Block, BlockCount, FOOTNOTE, TERM_DEFINITION, are_containers, container_returned,
    kind_returned, of_kind, write_front,
};
use crate::status::{BAD_KIND, BAD_STATE, NO_MEMORY, NOTHING, OK};
use markdown_blocks::containers::{Container, DefinitionItem, ListItem};
use markdown_blocks::walk::{Step, Walk};
use markdown_blocks::whole::whole_lines;
use std::alloc::{AllocError, Global};

/// `struct mds_open_blocks` of C: how many of the caller's containers are open, which extensions are
/// on, and what stands there: 1 for a term, and 2 for a paragraph.
#[repr(C)]
#[derive(Clone, Copy)]
pub struct OpenBlocks {
    pub depth: usize,
    pub extensions: u32,
    pub state: u32,
}

/// `struct mds_line_block` of C: how many of the containers that were open a line goes on with, and
/// how many are open then.
#[repr(C)]
pub struct LineBlock {
    pub status: u32,
    pub kept: usize,
    pub depth: usize,
}

/// The block at the front of the text, if there is one that nothing after the text changes; its
/// containers are open then.
#[unsafe(no_mangle)]
#[tactic(auto, unfolding(crate::specs::BlockLines::IsLineReturned))]
pub extern "C" fn mds_block_line(
    alloc: Global,
    text: &[u8],
    has_ended: bool,
    containers: &mut [Block],
    page: &mut OpenBlocks,
    block: &mut Block,
) -> LineBlock
    ensures line { IsLineReturned text.now has_ended page.old page.new containers.old containers.new
        block.old block.new result }
    ensures depth { page.new.depth ≡ if_returned result result.depth page.old.depth }
    ensures extensions { page.new.extensions ≡ page.old.extensions }
    ensures some { result.status ≡ ok → 0 < block.new.bytes }
    ensures within { result.status ≡ ok → block.new.bytes ≤ length text.now }
    ensures all { result.status ≡ nothing → IsTrue has_ended → text.now ≡ [] }
{
    if !are_extensions(page.extensions) {
        return no_line(BAD_KIND);
    }
    if !are_open(containers, page) {
        return no_line(BAD_STATE);
    }
    let lines = &text[..front_of(text, has_ended)];
    let Ok(walk) = walk_in(alloc, containers, page) else {
        return no_line(NO_MEMORY);
    };
    write_line(alloc, walk, lines, has_ended, containers, page, block)
}

// No block, but a status.
fn no_line(status: u32) -> LineBlock
    ensures { result ≡ no_line status }
{
    LineBlock {
        status,
        kept: 0,
        depth: 0,
    }
}

// Whether so many of the caller's containers can be open.
fn are_open(containers: &[Block], page: &OpenBlocks) -> bool
    ensures { IsTrue result ↔ AreOpen containers.now page.now }
{
    if page.depth > containers.len() || page.state > 3 {
        return false;
    }
    are_containers(&containers[..page.depth])
}

// How many bytes at the front of the text are lines that no byte after it changes.
fn front_of(text: &[u8], has_ended: bool) -> usize
    ensures front { MatchBool has_ended (result ≡ length text.now) (AreWhole text.now result) }
    ensures within { result ≤ length text.now }
{
    if has_ended {
        return text.len();
    }
    whole_lines(text)
}

// Where these of the caller's containers are open.
fn walk_in(alloc: Global, containers: &[Block], page: &OpenBlocks) -> Result<Walk, AllocError>
    requires { page.now.depth ≤ length containers.now }
    ensures { IfOk result (λ walk. walk ≡ outer_in containers.now page.now) }
{
    let outer = all_open_in(alloc, &containers[..page.depth])?;
    let extensions = extensions_of(page.extensions);
    let is_after_term = page.state % 2 == 1;
    let is_after_paragraph = page.state >= 2;
    Ok(Walk::resume(alloc, extensions, outer, is_after_term, is_after_paragraph))
}

// The containers that are open.
fn all_open_in(alloc: Global, blocks: &[Block]) -> Result<Vec<Container>, AllocError>
    ensures { IfOk result (λ containers. containers.items ≡ map open_in blocks.now) }
{
    blocks.iter().map(|block| open_in(block)).collect(alloc)
}

// The container that is open.
fn open_in(block: &Block) -> Container
    ensures { result ≡ open_in block.now }
{
    match block.kind {
        BLOCK_QUOTE => Container::Quote,
        FOOTNOTE => Container::Footnote,
        TERM_DEFINITION => Container::TermDefinition(DefinitionItem {
            starts_blank: block.count == 1,
            width: block.width,
        }),
        _ => Container::Item(ListItem {
            delimiter: block.byte,
            starts_blank: block.count == 1,
            width: block.width,
            start: block.number,
        }),
    }
}

// A container that is open, whose marker stands at the offset, as C has it.
fn open_returned(container: Container, offset: usize) -> Block
    ensures { result ≡ open_returned container offset }
{
    let returned = container_returned(container, offset);
    match container {
        Container::Item(item) if item.starts_blank => Block {
            count: 1,
            ..returned
        },
        Container::TermDefinition(d) if d.starts_blank => Block {
            count: 1,
            ..returned
        },
        _ => returned,
    }
}

// The block at the front of the lines, and its containers.
fn write_line(
    alloc: Global,
    walk: Walk,
    lines: &[u8],
    has_ended: bool,
    containers: &mut [Block],
    page: &mut OpenBlocks,
    block: &mut Block,
) -> LineBlock
    ensures line { IsLineOf walk lines.now has_ended page.old page.new containers.old
        containers.new block.old block.new result }
    ensures depth { page.new.depth ≡ if_returned result result.depth page.old.depth }
    ensures extensions { page.new.extensions ≡ page.old.extensions }
    ensures some { result.status ≡ ok → 0 < block.new.bytes }
    ensures within { result.status ≡ ok → block.new.bytes ≤ length lines.now }
    ensures all { result.status ≡ nothing → IsTrue has_ended → lines.now ≡ [] }
{
    let mut walk = walk;
    let mut content = Vec::new(alloc);
    match walk.next_block(alloc, &mut content, lines, has_ended) {
        Ok(Some(step)) => {
            let returned = write_step(alloc, step, walk.containers(), containers, block);
            let state = state_of(walk.is_after_term(), walk.is_after_paragraph());
            keep_open(page, &returned, state);
            returned
        }
        Ok(None) => no_line(NOTHING),
        Err(_) => no_line(NO_MEMORY),
    }
}

// What stands after a block: a term or not, and a paragraph or not.
fn state_of(is_after_term: bool, is_after_paragraph: bool) -> u32
    ensures { result ≡ state_of is_after_term is_after_paragraph }
{
    match (is_after_term, is_after_paragraph) {
        (false, false) => 0,
        (true, false) => 1,
        (false, true) => 2,
        (true, true) => 3,
    }
}

// Keeps for the next call how many containers are open, and what stands there, if the block is returned.
fn keep_open(page: &mut OpenBlocks, returned: &LineBlock, state: u32)
    ensures { page.new ≡ if_returned returned.now (record page.old {
      depth = returned.now.depth;
      state = state;
    }) page.old }
{
    if returned.status == OK {
        page.depth = returned.depth;
        page.state = state;
    }
}

// The containers that are open after the step, and its block, where there is room for them.
fn write_step(
    alloc: Global,
    step: Step,
    outer: &[Container],
    containers: &mut [Block],
    block: &mut Block,
) -> LineBlock
    requires { step.kept ≤ length outer.now }
    ensures { ((result ≡ no_line no_memory) × (containers.new ≡ containers.old)
        × (block.new ≡ block.old))
        ⊎ ((result.kept ≡ step.entry.kept)
        × (block.new ≡ if_returned result (step_returned step.entry) block.old)
        × IsWritten (opened_returned step.entry outer.now) containers.old containers.new
        result.status result.depth) }
{
    let found = step_returned(&step);
    let kept = step.kept;
    let Ok(returned) = opened_returned(alloc, step, outer) else {
        return no_line(NO_MEMORY);
    };
    let BlockCount {
        status,
        count: depth,
    } = write_front(&returned, containers);
    if status == OK {
        *block = found;
    }
    LineBlock {
        status,
        kept,
        depth,
    }
}

// The containers that are open after the step, as C has them.
fn opened_returned(
    alloc: Global,
    step: Step,
    containers: &[Container],
) -> Result<Vec<Block>, AllocError>
    requires { step.kept ≤ length containers.now }
    ensures { IfOk result (λ returned. returned.items ≡ opened_returned step.entry containers.now) }
{
    let kept = step.kept;
    let mut returned = kept_returned(alloc, &containers[..kept])?;
    add_begun(&mut returned, step, &containers[kept..])?;
    Ok(returned)
}

// Those that its line goes on with.
fn kept_returned(alloc: Global, containers: &[Container]) -> Result<Vec<Block>, AllocError>
    ensures { IfOk result (λ returned. returned.items
        ≡ map (λ c. open_returned c 0) containers.now) }
{
    containers
        .iter()
        .map(|container| open_returned(*container, 0))
        .collect(alloc)
}

// Adds those that the step begins.
fn add_begun(
    returned: &mut Vec<Block>,
    step: Step,
    containers: &[Container],
) -> Result<(), AllocError>
    ensures { OnOk result (returned.new.items
        ≡ returned.old.items ++ begun_returned step.entry.start containers.now) }
{
    let mut step = step;
    let mut rest = containers;
    while let [container, inner @ ..] = rest {
        let offset = step.pass_marker();
        returned.push(open_returned(*container, offset))?;
        rest = inner;
    }
    Ok(())
}

// A block whose lines stand at the front of the text, as C has it.
fn step_returned(step: &Step) -> Block
    ensures { result ≡ step_returned step.now }
{
    Block {
        indent: step.indent,
        lines: step.block.taken.lines,
        bytes: step.block.taken.bytes,
        offset: step.line.len().saturating_sub(step.text.len()),
        ..of_kind(kind_returned(step.block.kind))
    }
}
