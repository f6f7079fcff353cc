//! The blocks of a page as events: containers that begin and end, and the leaf blocks in them.
ghost use Rattle.std.specs.Prelude.{◌≡◌, ◌⊎◌, ◌<◌, ◌≤◌, [], ◌∷◌, List, length, take, drop, None, IfOk, IfErr, IfSome, IfNone, OnOk};
ghost use Rattle.std.specs.Option.{option_map};
ghost use Rattle.markdown_values.specs.values.Extensions.{commonmark};
ghost use Rattle.markdown_blocks.specs.events.Events.{Event, IsEventsOf, seen_event};
ghost use Rattle.markdown_blocks.specs.events.Given.{Left, Gives, begun_of, block_events_left, events_left};

pub use crate::block_events::BlockEvents;
use crate::byte_order_mark::text_start;
use crate::containers::Container;
pub use crate::leaf::Leaf;
use crate::taken::Extent;
use crate::walk::Walk;
use markdown_values::values::Extensions;
use std::alloc::{AllocError, Global};
use std::marker::Model;

/// What a page has next.
#[derive(Clone, Copy)]
pub enum BlockEvent<'a> {
    /// A container begins, in the first line of the next leaf block. So many bytes of the page stand
    /// before its marker.
    Start(Container, usize),
    /// A leaf block, in the containers that have begun and not ended.
    Block(Leaf<'a>),
    /// The innermost of the containers that have begun ends.
    End,
}

/// The events of a page, from the first to the last.
#[derive(Drop)]
pub struct Blocks<'a> {
    page: &'a [u8],
    // What stands before the next block.
    before: Extent,
    walk: Walk,
    // How many containers have begun and not ended, where no block is read.
    begun: usize,
    // The block that is read, and its content, where that may begin with a definition.
    block: Option<BlockEvents<'a>>,
    content: Vec<u8>,
}

impl<'a> Model for Blocks<'a> {
    ghost Value = { Left };

    ghost view = { λ b. record {
      text = drop b.before.bytes b.page.now;
      extensions = b.walk.extensions;
      containers = b.walk.containers;
      term = b.walk.term;
      paragraph = b.walk.paragraph;
      begun = b.begun;
      line = b.before.lines;
      start = b.before.bytes;
      next = option_map (λ block. record { block = block; content = b.content.items }) b.block;
    } };

    ghost invariant = { λ b.
        (b.before.bytes ≤ length b.page.now)
        × (b.block ≡ None
        → (b.begun ≡ length b.walk.containers) ⊎ (drop b.before.bytes b.page.now ≡ []))
        × IfSome b.block (λ block. 0 < block_events_left b.walk.containers block) };
}

impl<'a> Blocks<'a> {
    /// The events of a page, with no extension on.
    pub fn new(alloc: Global, page: &'a [u8]) -> Blocks<'a>
        ensures page { (events : List Event) → Gives result events
            → IsEventsOf commonmark page.now events }
    {
        Blocks::new_ext(alloc, page, Extensions::none())
    }

    /// The events of a page, with these extensions on.
    pub fn new_ext(alloc: Global, page: &'a [u8], extensions: Extensions) -> Blocks<'a>
        ensures page { (events : List Event) → Gives result events
            → IsEventsOf extensions page.now events }
    {
        Blocks {
            page,
            before: Extent {
                bytes: text_start(page),
                lines: 0,
            },
            walk: Walk::new_ext(alloc, extensions),
            begun: 0,
            block: None,
            content: Vec::new(alloc),
        }
    }

    /// The containers that have begun and that the next leaf block stands in, outermost first; after
    /// the last leaf block, those that have not ended. At the event of a leaf block they are those
    /// that it stands in, as `add_content` needs them.
    pub fn containers(&self) -> &[Container]
        ensures { result.now ≡ take (begun_of self.now.begun self.now.next) self.now.containers }
    {
        let count = match &self.block {
            Some(block) => block.begun(),
            None => self.begun,
        };
        let containers = self.walk.containers();
        &containers[..count.min(containers.len())]
    }

    /// The next event of the page, or None after the last.
    ///
    /// Memory is asked for as by `Walk::next_block`. After a refusal the same event may be asked for
    /// again.
    pub fn next(&mut self, alloc: Global) -> Result<Option<BlockEvent<'a>>, AllocError>
        ensures event { IfOk result (λ found. IfSome found (λ event. (events : List Event)
            → Gives self.new events → Gives self.old (seen_event event ∷ events))) }
        ensures fewer { IfOk result (λ found. IfSome found (λ _.
            events_left self.new < events_left self.old)) }
        ensures none { IfOk result (λ found. IfNone found (Gives self.old [])) }
        ensures refused { IfErr result (λ _. self.new ≡ self.old) }
    {
        if self.block.is_none() {
            self.read_block(alloc)?;
        }
        Ok(self.take_event())
    }

    // Reads the next block of the page, if there is one.
    fn read_block(&mut self, alloc: Global) -> Result<(), AllocError>
        requires { self.old.next ≡ None }
        ensures same { OnOk result ((events : List Event)
            → Gives self.new events → Gives self.old events) }
        ensures no_more { OnOk result (events_left self.new ≤ events_left self.old) }
        ensures ended { OnOk result (self.new.next ≡ None → self.new.text ≡ []) }
        ensures refused { IfErr result (λ _. self.new ≡ self.old) }
    {
        let lines = &self.page[self.before.bytes..];
        let next = self.walk.next_block(alloc, &mut self.content, lines, true)?;
        let Some(step) = next else {
            return Ok(());
        };
        let before = self.before;
        self.before = Extent {
            bytes: before.bytes + step.block.taken.bytes,
            lines: before.lines + step.block.taken.lines,
        };
        self.block = Some(BlockEvents::new(step, before, self.begun));
        Ok(())
    }

    // The next event of the block that is read, or of what is open at the end of the page.
    fn take_event(&mut self) -> Option<BlockEvent<'a>>
        requires { self.old.next ≡ None → self.old.text ≡ [] }
        ensures event { IfSome result (λ event. (events : List Event)
            → Gives self.new events → Gives self.old (seen_event event ∷ events)) }
        ensures fewer { IfSome result (λ _. events_left self.new < events_left self.old) }
        ensures none { IfNone result (Gives self.old []) }
    {
        let containers = self.walk.containers();
        let Some(mut block) = self.block.take() else {
            if self.begun == 0 {
                return None;
            }
            self.begun -= 1;
            return Some(BlockEvent::End);
        };
        let event = block.next(containers, &self.content);
        if block.is_done(containers) {
            self.begun = containers.len();
        } else {
            self.block = Some(block);
        }
        event
    }
}
