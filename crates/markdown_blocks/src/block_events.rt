//! The events of one block: containers that end and begin, link reference definitions, and what is
//! left of the block after them.
ghost use Rattle.std.specs.Prelude.{◌≡◌, ◌∷◌, ◌<◌, ◌≤◌, ◌+◌, ◌-◌, ◌^◌, ◌↔◌, [], List, ℕ, length, take, drop, IsTrue, IfOk, IfErr, IfSome, IfNone, OnOk};
ghost use Rattle.markdown_scanners_tree.specs.scanners.TextLines.{lines_of};
ghost use Rattle.markdown_scanners_tree.specs.line.State.{after_space};
ghost use Rattle.markdown_blocks.specs.containers.Containers.{marker_start, after_marker};
ghost use Rattle.markdown_blocks.specs.events.Events.{Event, LeafBlock, AreLeaves, leaf_of, first_lines, first_of, later_lines, first_rest};
ghost use Rattle.markdown_blocks.specs.events.Events.{seen_event, seen_leaf};
ghost use Rattle.markdown_blocks.specs.events.Given.{GivesBlock, block_left, block_events_left};
ghost use Rattle.markdown_blocks.specs.events.Used.{IsUsed, IsUsedBy};
ghost use Rattle.markdown_blocks.specs.link_definitions.LinkDefinitions.{AreAddedBetween};
ghost use Rattle.markdown_blocks.specs.taken.Lines.{IsTaken};

use crate::blocks::BlockKind;
use crate::containers::{Container, OpenContainers, all_containers, go_on, scan_container};
use crate::definitions::take_definition;
use crate::events::BlockEvent;
use crate::leaf::Leaf;
use crate::link_definitions::LinkDefinitions;
use crate::rest::{Rest, scan_rest};
use crate::step::Step;
use crate::taken::Extent;
use markdown_scanners_tree::line::LineStart;
use markdown_values::values::Extensions;
use std::alloc::AllocError;
use std::marker::Model;

/// The events of one block that are not given yet.
#[derive(Drop)]
pub struct BlockEvents<'a> {
    // How many containers end, and how many of the block's have begun.
    ending: usize,
    begun: usize,
    // The first line, how many bytes of the page stand before it, and the offset before the marker of
    // the next container.
    line: &'a [u8],
    front: usize,
    start: LineStart<'a>,
    // The leaf block that is left, its lines, and how much of the content stands before it.
    leaf: Leaf<'a>,
    lines: &'a [u8],
    used: usize,
}

impl<'a> Model for BlockEvents<'a> {
    ghost use Rattle.std.specs.Prelude.{◌≡◌, ◌≤◌, ◌<◌, ◌+◌, ◌-◌, ◌^◌, length};
    ghost use Rattle.markdown_blocks.specs.events.Events.{first_of};
    ghost use Rattle.markdown_scanners_tree.specs.scanners.TextLines.{lines_of};
    ghost use Rattle.markdown_blocks.specs.events.Given.{BlockLeft};

    ghost Value = { BlockLeft };

    ghost view = { λ b. record {
      ending = b.ending;
      begun = b.begun;
      front = b.front;
      position = b.start;
      kind = b.leaf.kind;
      part = record {
        line = b.leaf.line;
        start = b.leaf.start;
        words = record { indent = b.leaf.indent; text = b.leaf.text.now };
        lines = lines_of b.lines.now;
      };
      used = b.used;
    } };

    ghost invariant = { λ b.
        (b.start.bytes ≡ b.line.now) × (b.front + length b.line.now < 2 ^ 64)
        × (b.leaf.lines ≡ length (lines_of b.lines.now)) × (b.leaf.bytes ≡ length b.lines.now)
        × (b.leaf.line ≤ b.leaf.start) × (b.leaf.start + length b.lines.now < 2 ^ 64)
        × (b.leaf.offset ≡ b.leaf.start
        + (length (first_of (lines_of b.lines.now)) - length b.leaf.text.now)) };
}

impl<'a> BlockEvents<'a> {
    /// The events of a step's block, before which so much of the page stands and so many containers
    /// are open.
    pub fn new(step: Step<'a>, before: Extent, depth: usize) -> BlockEvents<'a>
        requires { before.bytes + step.block.taken.bytes < 2 ^ 64 }
        ensures { result ≡ block_left step.entry before depth }
    {
        BlockEvents {
            ending: depth.saturating_sub(step.kept),
            begun: step.kept,
            line: step.line,
            front: before.bytes,
            start: step.start,
            leaf: Leaf {
                kind: step.block.kind,
                line: before.lines,
                lines: step.block.taken.lines,
                start: before.bytes,
                bytes: step.block.taken.bytes,
                indent: step.indent,
                text: step.text,
                offset: before.bytes + step.line.len().saturating_sub(step.text.len()),
            },
            lines: step.lines,
            used: 0,
        }
    }

    /// How many of the containers that are open after the step have begun.
    pub fn begun(&self) -> usize
        ensures { result ≡ self.now.begun }
    {
        self.begun
    }

    /// What is left of the block's content, after the definitions that are given.
    pub fn content_left<'c>(&self, content: &'c [u8]) -> &'c [u8]
        ensures { result.now ≡ drop self.now.used content.now }
    {
        content_from(content, self.used)
    }

    /// Whether the block has no further event, in these containers.
    pub fn is_done(&self, containers: &[Container]) -> bool
        ensures { IsTrue result ↔ (block_events_left containers.now self.now ≡ 0) }
    {
        self.ending == 0 && self.begun >= containers.len() && self.leaf.lines == 0
    }

    /// The next event of the block, or None after the last. The containers are those that are open
    /// after the step, and the content is what `Walk::next_block` gathered of the block's.
    pub fn next(&mut self, containers: &[Container], content: &[u8]) -> Option<BlockEvent<'a>>
        ensures event { IfSome result (λ event. (later : List Event)
            → GivesBlock containers.now content.now self.new later
            → GivesBlock containers.now content.now self.old (seen_event event ∷ later)) }
        ensures fewer { IfSome result (λ _. block_events_left containers.now self.new
            < block_events_left containers.now self.old) }
        ensures none { IfNone result (GivesBlock containers.now content.now self.old []) }
        ensures done { IfNone result (block_events_left containers.now self.old ≡ 0) }
        ensures used { IfSome result (λ event.
            IsUsedBy content.now self.old.used (seen_event event) self.new.used) }
    {
        if let Some(event) = self.next_container(containers) {
            return Some(event);
        }
        let leaf = self.next_leaf(containers, content)?;
        Some(BlockEvent::Block(leaf))
    }

    /// The same, for which each definition is read once: where the event is one, it is added to those
    /// that are known.
    ///
    /// After a refusal nothing has changed.
    pub fn next_adding(
        &mut self,
        containers: &[Container],
        content: &[u8],
        known: &mut LinkDefinitions<'a>,
    ) -> Result<Option<BlockEvent<'a>>, AllocError>
        ensures event { IfOk result (λ found. IfSome found (λ event. (later : List Event)
            → GivesBlock containers.now content.now self.new later
            → GivesBlock containers.now content.now self.old (seen_event event ∷ later))) }
        ensures fewer { IfOk result (λ found. IfSome found (λ _.
            block_events_left containers.now self.new
            < block_events_left containers.now self.old)) }
        ensures none { IfOk result (λ found.
            IfNone found (GivesBlock containers.now content.now self.old [])) }
        ensures done { IfOk result (λ found.
            IfNone found (block_events_left containers.now self.old ≡ 0)) }
        ensures used { IfOk result (λ found. IfSome found (λ event.
            IsUsedBy content.now self.old.used (seen_event event) self.new.used)) }
        ensures added { OnOk result (AreAddedBetween self.old.used self.new.used content.now
            known.old known.new) }
        ensures refused { IfErr result (λ _. (self.new ≡ self.old) × (known.new ≡ known.old)) }
    {
        if let Some(event) = self.next_container(containers) {
            return Ok(Some(event));
        }
        match self.next_leaf_adding(containers, content, known)? {
            Some(leaf) => Ok(Some(BlockEvent::Block(leaf))),
            None => Ok(None),
        }
    }

    /// The next container that ends or begins, if there is one.
    ///
    /// It is inlined, since most blocks have none.
    #[inline(always)]
    pub fn next_container(&mut self, containers: &[Container]) -> Option<BlockEvent<'a>>
        ensures event { IfSome result (λ event. (content : List ℕ) (later : List Event)
            → GivesBlock containers.now content self.new later
            → GivesBlock containers.now content self.old (seen_event event ∷ later)) }
        ensures fewer { IfSome result (λ _. block_events_left containers.now self.new
            < block_events_left containers.now self.old) }
        ensures used { IfSome result (λ event. (content : List ℕ)
            → IsUsedBy content self.old.used (seen_event event) self.new.used) }
        ensures same { self.new.used ≡ self.old.used }
        ensures part { self.new.part ≡ self.old.part }
        ensures none { IfNone result (self.new ≡ self.old) }
        ensures ended { IfNone result (self.old.ending ≡ 0) }
        ensures begun { IfNone result (length containers.now ≤ self.old.begun) }
    {
        if self.ending > 0 {
            self.ending -= 1;
            return Some(BlockEvent::End);
        }
        if self.begun >= containers.len() {
            return None;
        }
        let container = containers[self.begun];
        self.begun += 1;
        // What stands after the last marker is the leaf block's.
        if self.begun == containers.len() {
            return Some(BlockEvent::Start(container, self.marker_offset()));
        }
        Some(BlockEvent::Start(container, self.pass_marker()))
    }

    // How many bytes of the page stand before the marker of the next container. The space before it
    // is passed.
    fn marker_offset(&mut self) -> usize
        ensures offset { result ≡ self.old.front + marker_start self.old.position }
        ensures passed { self.new ≡ record self.old { position = after_space 4 self.old.position } }
    {
        self.start.scan_space_upto(4);
        self.front + self.start.bytes_scanned()
    }

    // Passes the marker of the next container. Answers how many bytes of the page stand before it.
    fn pass_marker(&mut self) -> usize
        ensures offset { result ≡ self.old.front + marker_start self.old.position }
        ensures passed { self.new ≡ record self.old { position = after_marker self.old.position } }
    {
        let indent = self.start.scan_space_upto(4);
        let offset = self.front + self.start.bytes_scanned();
        scan_container(self.line, &mut self.start, indent, all_containers());
        offset
    }

    // The next leaf block: the definition at the front of what is left of the content, or what is
    // left of the block.
    fn next_leaf(&mut self, containers: &[Container], content: &[u8]) -> Option<Leaf<'a>>
        ensures leaf { IfSome result (λ block. (later : List LeafBlock)
            → AreLeaves containers.now self.new.kind self.new.part (drop self.new.used content.now) later
            → AreLeaves containers.now self.old.kind self.old.part (drop self.old.used content.now)
            (seen_leaf block ∷ later)) }
        ensures fewer { IfSome result (λ _.
            length self.new.part.lines < length self.old.part.lines) }
        ensures none { IfNone result (self.old.part.lines ≡ []) }
        ensures used { IfSome result (λ _. IsUsed content.now self.old.used self.new.used) }
        ensures same { self.new
            ≡ record self.old { part = self.new.part; used = self.new.used } }
    {
        if self.leaf.lines == 0 {
            return None;
        }
        let Some(taken) = take_definition(content_from(content, self.used)) else {
            return Some(self.take_all());
        };
        self.used += taken.bytes;
        Some(self.take_lines(BlockKind::Definition, taken.lines, containers))
    }

    // The same, and if it is a definition, adds that to those that are known.
    fn next_leaf_adding(
        &mut self,
        containers: &[Container],
        content: &[u8],
        known: &mut LinkDefinitions<'a>,
    ) -> Result<Option<Leaf<'a>>, AllocError>
        ensures leaf { IfOk result (λ found. IfSome found (λ block. (later : List LeafBlock)
            → AreLeaves containers.now self.new.kind self.new.part (drop self.new.used content.now) later
            → AreLeaves containers.now self.old.kind self.old.part (drop self.old.used content.now)
            (seen_leaf block ∷ later))) }
        ensures fewer { IfOk result (λ found. IfSome found (λ _.
            length self.new.part.lines < length self.old.part.lines)) }
        ensures none { IfOk result (λ found. IfNone found (self.old.part.lines ≡ [])) }
        ensures used { IfOk result (λ found.
            IfSome found (λ _. IsUsed content.now self.old.used self.new.used)) }
        ensures same { OnOk result (self.new
            ≡ record self.old { part = self.new.part; used = self.new.used }) }
        ensures added { OnOk result (AreAddedBetween self.old.used self.new.used content.now
            known.old known.new) }
        ensures refused { IfErr result (λ _. (self.new ≡ self.old) × (known.new ≡ known.old)) }
    {
        if self.leaf.lines == 0 {
            return Ok(None);
        }
        let Some(found) = known.add_next(content_from(content, self.used), self.lines)? else {
            return Ok(Some(self.take_all()));
        };
        self.used += found.bytes;
        let leaf = self.take_lines(BlockKind::Definition, found.lines, containers);
        Ok(Some(leaf))
    }

    /// All that is left, as a leaf block of the block's own kind.
    pub fn whole(self) -> Leaf<'a>
        ensures { seen_leaf result ≡ leaf_of self.entry.kind self.entry.part }
    {
        self.leaf
    }

    // Takes all that is left, as a leaf block of the block's own kind.
    fn take_all(&mut self) -> Leaf<'a>
        ensures leaf { seen_leaf result ≡ leaf_of self.old.kind self.old.part }
        ensures none { self.new.part.lines ≡ [] }
        ensures same { self.new ≡ record self.old { part = self.new.part } }
    {
        let whole = self.leaf;
        self.lines = &[];
        self.leaf = Leaf {
            kind: whole.kind,
            line: whole.line + whole.lines,
            lines: 0,
            start: whole.start + whole.bytes,
            bytes: 0,
            indent: 0,
            text: &[],
            offset: whole.start + whole.bytes,
        };
        whole
    }

    // Takes so many lines from the front of what is left, or all where there are fewer, as a leaf
    // block of this kind.
    fn take_lines(&mut self, kind: BlockKind, count: usize, containers: &[Container]) -> Leaf<'a>
        requires { 0 < count }
        ensures leaf { seen_leaf result ≡ leaf_of kind (first_lines count self.old.part) }
        ensures rest { self.new ≡ record self.old {
          part = later_lines containers.now count self.old.part;
        } }
    {
        let taken = front_of(self.lines, count, self.leaf.lines);
        let rest = &self.lines[taken.bytes..];
        let (words, before) = first_rest(rest, containers);
        let whole = self.leaf;
        self.lines = rest;
        self.leaf = Leaf {
            kind: whole.kind,
            line: whole.line + taken.lines,
            lines: whole.lines - taken.lines,
            start: whole.start + taken.bytes,
            bytes: whole.bytes - taken.bytes,
            indent: words.indent,
            text: words.text,
            offset: whole.start + taken.bytes + before,
        };
        Leaf {
            kind,
            line: whole.line,
            lines: taken.lines,
            start: whole.start,
            bytes: taken.bytes,
            indent: whole.indent,
            text: whole.text,
            offset: whole.offset,
        }
    }
}

// The content from this offset on.
fn content_from(content: &[u8], offset: usize) -> &[u8]
    ensures { result.now ≡ drop offset content.now }
{
    if offset < content.len() {
        &content[offset..]
    } else {
        &[]
    }
}

// The first lines of a text of `all` lines: so many, or all where there are fewer.
fn front_of(text: &[u8], count: usize, all: usize) -> Extent
    requires { all ≡ length (lines_of text.now) }
    ensures { IsTaken text.now result (take count (lines_of text.now)) }
{
    if count >= all {
        return Extent {
            bytes: text.len(),
            lines: all,
        };
    }
    let mut taken = Extent::nothing();
    while taken.lines < count {
        let Some((_, more)) = taken.next(text) else {
            return taken;
        };
        taken = more;
    }
    taken
}

// What the first of the lines has in the containers, and how many bytes it has before that.
fn first_rest<'a>(lines: &'a [u8], containers: &[Container]) -> (Rest<'a>, usize)
    ensures rest { result.0 ≡ first_rest containers.now (lines_of lines.now) }
    ensures before { result.1 ≡ length (first_of (lines_of lines.now)) - length result.0.text }
    ensures within { result.1 ≤ length lines.now }
{
    let Some((line, _)) = Extent::nothing().next(lines) else {
        return (
            Rest {
                indent: 0,
                text: &[],
            },
            0,
        );
    };
    let (_, mut start) = go_on(line, &OpenContainers::new(Extensions::none(), containers));
    let rest = scan_rest(line, &mut start);
    let before = line.len().saturating_sub(rest.text.len());
    (rest, before)
}
