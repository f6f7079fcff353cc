//! Line breaks within a block. (CommonMark 0.31.2, sections 6.7 and 6.8)
ghost use Rattle.std.specs.Prelude.{◌≡◌, ◌<◌, ◌≤◌, ◌==◌, ◌||◌, nat_le, length, IfSome, if◌then◌else◌};
ghost use Rattle.std.specs.List.{prefix_len};
ghost use Rattle.std.specs.Str.{IsUtf8, IsCharBoundary};
ghost use Rattle.markdown_scanners_tree.specs.Ascii.{backslash, space};
ghost use Rattle.markdown_scanners_tree.specs.Bytes.{begins_with};
ghost use Rattle.markdown_scanners_tree.specs.SomeExactly.{SomeExactly, IsOnly};
ghost use Rattle.markdown_inlines.specs.LineBreaks.{IsLineBreak};

use markdown_scanners_tree::scanners::{scan_ch_repeat, scan_eol};

/// A line break.
#[derive(Clone, Copy, Debug, PartialEq, Eq)]
pub struct LineBreak {
    /// Whether it is a hard line break; else it is a soft one.
    pub is_hard: bool,
    /// How many bytes it takes: what stands before its line ending, that ending, and the spaces at
    /// the beginning of the next line.
    pub len: usize,
}

/// The line break at the front of the bytes, before which no space stands: it begins with the
/// spaces before a line ending, with the backslash before it, or with the line ending.
///
/// None stands at the end of the bytes, which are a block's.
pub fn scan_line_break(bytes: &[u8]) -> Option<LineBreak>
    // The one line break that stands there is answered.
    ensures found { SomeExactly (IsLineBreak bytes.now) result }
    ensures only { IsOnly (IsLineBreak bytes.now) result }

    // The block goes on after it, and a text may be cut there.
    ensures within { IfSome result (λ break. (0 < break.len) × (break.len < length bytes.now)) }
    ensures after { IfSome result (λ break. IsUtf8 bytes.now
        → IsCharBoundary bytes.now break.len) }
{
    let (before, is_hard) = scan_before_ending(bytes);
    let start = before + scan_eol(&bytes[before..])?;
    let len = start + scan_ch_repeat(&bytes[start..], b' ');
    if len == bytes.len() {
        return None;
    }
    Some(LineBreak { is_hard, len })
}

// How many bytes at the front may stand before a line ending, and whether they make its break hard.
fn scan_before_ending(bytes: &[u8]) -> (usize, bool)
    ensures count { result.0 ≡ (if begins_with (λ b. b == backslash) bytes.now then 1
        else prefix_len (λ b. b == space) bytes.now) }
    ensures hard { result.1
        ≡ (begins_with (λ b. b == backslash) bytes.now || nat_le 2 result.0) }
    ensures within { result.0 ≤ length bytes.now }
{
    match bytes {
        [b'\\', ..] => (1, true),
        _ => {
            let spaces = scan_ch_repeat(bytes, b' ');
            (spaces, spaces >= 2)
        }
    }
}
