//! One step of a walk over a page.
ghost use Rattle.std.specs.Prelude.{◌≡◌, ◌≤◌, length};
ghost use Rattle.markdown_scanners_tree.specs.scanners.TextLines.{lines_of};
ghost use Rattle.markdown_blocks.specs.events.Events.{first_of};

use crate::blocks::Block;
use crate::containers::{all_containers, scan_container};
use markdown_scanners_tree::line::LineStart;

/// A block at the front of some lines, and what its first line has before it.
#[derive(Drop)]
pub struct Step<'a> {
    /// How many of the containers that were open the first line goes on with. The walk has the
    /// others, which it begins, after them.
    pub kept: usize,
    /// The first line, and its offset after the containers that it goes on with.
    pub line: &'a [u8],
    pub start: LineStart<'a>,
    /// How many columns of space stand after the containers, at most four.
    pub indent: usize,
    /// The text after that space, with its line ending.
    pub text: &'a [u8],
    /// The block, and its lines.
    pub block: Block,
    pub lines: &'a [u8],
    ghost at: { start.bytes ≡ line.now },
    ghost first: { length line.now ≤ length lines.now },
    ghost bytes: { block.taken.bytes ≡ length lines.now },
    ghost counted: { block.taken.lines ≡ length (lines_of lines.now) },
    ghost front: { length line.now ≡ length (first_of (lines_of lines.now)) },
}

impl<'a> Step<'a> {
    ghost use Rattle.std.specs.Prelude.{◌≡◌};
    ghost use Rattle.markdown_blocks.specs.containers.Containers.{marker_start, after_marker};

    /// The offset in the line of the marker of the next container that it begins: at the first call
    /// the one after those that it goes on with. `start` stands after that marker then.
    pub fn pass_marker(&mut self) -> usize
        ensures offset { result ≡ marker_start self.old.start }
        ensures passed { self.new.start ≡ after_marker self.old.start }
        ensures kept { self.new.kept ≡ self.old.kept }
        ensures indent { self.new.indent ≡ self.old.indent }
        ensures text { self.new.text ≡ self.old.text }
        ensures line { self.new.line ≡ self.old.line }
        ensures block { self.new.block ≡ self.old.block }
        ensures lines { self.new.lines ≡ self.old.lines }
    {
        let indent = self.start.scan_space_upto(4);
        let offset = self.start.bytes_scanned();
        scan_container(self.line, &mut self.start, indent, all_containers());
        offset
    }
}
