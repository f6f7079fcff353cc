//! The block events of a page that are left.
ghost use Rattle.std.specs.Prelude.{◌≡◌, ◌∷◌, ◌<◌, [], drop, false, length, map, IfNone, IfSome, IsTrue};
ghost use Rattle.markdown_blocks.specs.events.Events.{leaf, seen_event, seen_leaf};
ghost use Rattle.markdown_events.specs.page.LeafEvents.{HasNoEvents};

use crate::page::leaf_events::has_no_events;
use markdown_blocks::events::{BlockEvent, Leaf};
use std::marker::Model;

/// The block events of a page, of which so many are read.
#[derive(Drop)]
pub(crate) struct BlocksLeft<'a> {
    blocks: Vec<BlockEvent<'a>>,
    read: usize,
}

impl<'a> Model for BlocksLeft<'a> {
    ghost use Rattle.std.specs.Prelude.{List, drop, map};
    ghost use Rattle.markdown_blocks.specs.events.Events.{Event, seen_event};

    ghost Value = { List Event };

    ghost view = { λ b. map seen_event (drop b.read b.blocks.items) };
}

impl<'a> BlocksLeft<'a> {
    /// None of them is read.
    pub(crate) fn all(blocks: Vec<BlockEvent<'a>>) -> BlocksLeft<'a>
        ensures { result ≡ map seen_event blocks.entry.items }
    {
        BlocksLeft { blocks, read: 0 }
    }

    /// Whether one is left.
    #[tactic(auto, using(crate::proofs::page::LeftLemmas::some_left, crate::proofs::page::LeftLemmas::none_left))]
    pub(crate) fn has_next(&self) -> bool
        ensures some { IsTrue result → 0 < length self.now }
        ensures none { result ≡ false → self.now ≡ [] }
    {
        self.read < self.blocks.len()
    }

    /// The next, if one is left.
    #[tactic(auto, using(crate::proofs::page::LeftLemmas::first_left, crate::proofs::page::LeftLemmas::none_left))]
    pub(crate) fn next(&self) -> Option<&BlockEvent<'a>>
        ensures next { IfSome result (λ block. self.now ≡ seen_event block.now ∷ drop 1 self.now) }
        ensures none { IfNone result (self.now ≡ []) }
    {
        if self.read < self.blocks.len() {
            return Some(&self.blocks[self.read]);
        }
        None
    }

    /// The next, if it is a leaf block without events.
    #[inline(always)]
    pub(crate) fn next_without_events(&self) -> Option<Leaf<'a>>
        ensures none { IfSome result (λ block. HasNoEvents block.kind) }
        ensures next { IfSome result (λ block.
            self.now ≡ leaf (seen_leaf block) ∷ drop 1 self.now) }
    {
        match self.next() {
            Some(BlockEvent::Block(leaf)) if has_no_events(leaf.kind) => Some(*leaf),
            _ => None,
        }
    }

    /// Passes the next.
    #[tactic(auto, using(crate::proofs::page::LeftLemmas::rest_left, crate::proofs::page::LeftLemmas::all_passed))]
    pub(crate) fn pass(&mut self)
        ensures { self.new ≡ drop 1 self.old }
    {
        if self.read < self.blocks.len() {
            self.read += 1;
        }
    }
}
