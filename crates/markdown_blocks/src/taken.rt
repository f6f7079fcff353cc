//! Lines that are taken from the front of a text.
ghost use Rattle.std.specs.Prelude.{◌≤◌};

use markdown_scanners_tree::scanners::scan_line;

/// How many bytes are taken, and of how many lines.
#[derive(Clone, Copy)]
pub struct Extent {
    pub bytes: usize,
    pub lines: usize,
    ghost few: { lines ≤ bytes },
}

impl Extent {
    ghost use Rattle.std.specs.Prelude.{◌≡◌, [], List, ℕ, drop, IfSome, IfNone};
    ghost use Rattle.markdown_scanners_tree.specs.scanners.TextLines.{lines_of};
    ghost use Rattle.markdown_blocks.specs.taken.Lines.{IsTaken, IsNext};

    /// No line.
    pub(crate) fn nothing() -> Extent
        ensures { (text : List ℕ) → IsTaken text result [] }
    {
        Extent { bytes: 0, lines: 0 }
    }

    /// The line after these, if there is one, and what is taken with it.
    #[inline(always)]
    pub(crate) fn next(self, text: &[u8]) -> Option<(&[u8], Extent)>
        ensures line { IfSome result (λ r. IsNext text.now self r.0.now r.1) }
        ensures none { IfNone result (lines_of (drop self.bytes text.now) ≡ []) }
    {
        if self.bytes >= text.len() {
            return None;
        }
        let rest = &text[self.bytes..];
        let length = scan_line(rest);
        let more = Extent {
            bytes: self.bytes + length,
            lines: self.lines + 1,
        };
        Some((&rest[..length], more))
    }
}
