//! The lines of a text, one after the other.
ghost use Rattle.std.specs.Prelude.{◌≡◌, ℕ, List, nat_le, length, IsTrue};
ghost use Rattle.std.specs.Iterator.{YieldsFirstRef, item_count};
ghost use Rattle.std.specs.List.{concat, list_all};
ghost use Rattle.markdown_scanners_tree.specs.scanners.TextLines.{lines_of};

use crate::scanners::lines::scan_line;
use std::marker::Model;

/// The lines of a text that are left, from the first on.
#[derive(Drop)]
pub struct TextLines<'a> {
    rest: &'a [u8],
}

impl<'a> Model for TextLines<'a> {
    ghost Value = { List ℕ };

    ghost view = { λ lines. lines.rest.now };
}

impl<'a> Iterator for TextLines<'a> {
    type Item = &'a [u8];

    ghost next_gives = { YieldsFirstRef lines_of };

    ghost remaining = { item_count lines_of };

    fn next(&mut self) -> Option<&'a [u8]> {
        if self.rest.is_empty() {
            return None;
        }
        let (line, rest) = self.rest.split_at(scan_line(self.rest));
        self.rest = rest;
        Some(line)
    }
}

/// The lines of the bytes, in order, each with its ending, which the last may lack.
///
/// Each is what `scan_line` takes from the front of what is left, and has a byte at least; joined
/// they are the bytes. (CommonMark 0.31.2, section 2.1)
pub fn scan_lines(bytes: &[u8]) -> TextLines<'_>
    ensures bytes { result ≡ bytes.now }
    ensures joined { concat (lines_of bytes.now) ≡ bytes.now }
    ensures filled { IsTrue (list_all (λ line. nat_le 1 (length line)) (lines_of bytes.now)) }
{
    TextLines { rest: bytes }
}
