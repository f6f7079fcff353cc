//! A leaf block, as the events of a page have it.
ghost use Rattle.std.specs.Prelude.{◌+◌, ◌^◌, ◌<◌, ◌≤◌};

use crate::blocks::{Block, BlockKind};
use crate::taken::Extent;

/// A leaf block of a page.
#[derive(Clone, Copy)]
pub struct Leaf<'a> {
    /// Its kind.
    pub kind: BlockKind,
    /// How many lines of the page stand before it.
    pub line: usize,
    /// How many lines it has.
    pub lines: usize,
    /// How many bytes of the page stand before its first line.
    pub start: usize,
    /// How many bytes its lines have.
    pub bytes: usize,
    /// How many columns of space its first line has after its containers, at most four.
    pub indent: usize,
    /// The text after that space, with its line ending.
    pub text: &'a [u8],
    /// How many bytes of the page stand before that text.
    pub offset: usize,
    ghost before: { line ≤ start },
    ghost ends: { start + bytes < 2 ^ 64 },
    ghost fits: { line + lines < 2 ^ 64 },
    ghost few: { lines ≤ bytes },
}

impl<'a> Leaf<'a> {
    ghost use Rattle.std.specs.Prelude.{◌≡◌};

    /// The leaf block without its offset, as `add_content` needs it.
    pub fn block(&self) -> Block
        ensures kind { result.kind ≡ self.now.kind }
        ensures bytes { result.taken.bytes ≡ self.now.bytes }
        ensures lines { result.taken.lines ≡ self.now.lines }
    {
        Block {
            kind: self.kind,
            taken: Extent {
                bytes: self.bytes,
                lines: self.lines,
            },
        }
    }
}
