//! Fences of code blocks.
ghost use Rattle.std.specs.Prelude.{ℕ, ◌≡◌, ◌≤◌, ◌==◌, length, IsTrue, IfSome, IfNone};
ghost use Rattle.markdown_scanners_tree.specs.SomeExactly.{SomeExactly, IsOnly};
ghost use Rattle.markdown_scanners_tree.specs.Bytes.{begins_with};
ghost use Rattle.markdown_scanners_tree.specs.scanners.Fences.{IsCodeFence, IsClosingCodeFence, is_fence_byte, has_backtick_in_line};

use crate::scanners::lines::scan_eol;
use crate::scanners::runs::{scan_ch_repeat, scan_spaces_and_tabs};
use memchr::memchr2;

/// The number of fence bytes of an opening code fence at the front, and that byte.
///
/// What follows the fence in its line, the info string, is not looked at but for backticks after
/// a fence of backticks, and a CR does not end that line. (CommonMark 0.31.2, section 4.5.)
pub fn scan_code_fence(bytes: &[u8]) -> Option<(usize, u8)>
    ensures found { SomeExactly (λ r. IsCodeFence bytes.now r.0 r.1) result }
    ensures only { IsOnly (λ r. IsCodeFence bytes.now r.0 r.1) result }
    ensures none { IfNone result ((count fence : ℕ) → ¬ IsCodeFence bytes.now count fence) }
    ensures within { IfSome result (λ r. r.0 ≤ length bytes.now) }
{
    match bytes {
        [b'`', ..] => scan_fence_of(bytes, b'`'),
        [b'~', ..] => scan_fence_of(bytes, b'~'),
        _ => None,
    }
}

// The same, where the first byte is known.
fn scan_fence_of(bytes: &[u8], byte: u8) -> Option<(usize, u8)>
    requires of_fence_byte { IsTrue (is_fence_byte byte) }
    requires begins { IsTrue (begins_with (λ b. b == byte) bytes.now) }
    ensures found { SomeExactly (λ r. IsCodeFence bytes.now r.0 r.1) result }
    ensures only { IsOnly (λ r. IsCodeFence bytes.now r.0 r.1) result }
    ensures none { IfNone result ((count fence : ℕ) → ¬ IsCodeFence bytes.now count fence) }
    ensures within { IfSome result (λ r. r.0 ≤ length bytes.now) }
{
    let run = scan_ch_repeat(bytes, byte);
    if run < 3 {
        return None;
    }
    if byte == b'`' && has_backtick(&bytes[run..]) {
        return None;
    }
    Some((run, byte))
}

// Whether a backtick stands before the first LF.
fn has_backtick(bytes: &[u8]) -> bool
    ensures { result ≡ has_backtick_in_line bytes.now }
{
    // A fence alone in its line is given without a search, which costs more.
    if let [b'\n', ..] = bytes {
        return false;
    }
    match memchr2(b'`', b'\n', bytes) {
        Some(offset) => bytes[offset] == b'`',
        None => false,
    }
}

/// The length in bytes of a closing code fence at the front, without the line ending.
///
/// It has at least `n_fence_char` bytes `fence_char`, and then spaces and tabs. The end of the
/// text closes a fence too, with length 0. (CommonMark 0.31.2, section 4.5.)
pub fn scan_closing_code_fence(bytes: &[u8], fence_char: u8, n_fence_char: usize) -> Option<usize>
    ensures found { SomeExactly (IsClosingCodeFence bytes.now fence_char n_fence_char) result }
    ensures only { IsOnly (IsClosingCodeFence bytes.now fence_char n_fence_char) result }
    ensures within { IfSome result (λ n. n ≤ length bytes.now) }
{
    if bytes.is_empty() {
        return Some(0);
    }
    let run = scan_ch_repeat(bytes, fence_char);
    if run < n_fence_char {
        return None;
    }
    let space = scan_spaces_and_tabs(&bytes[run..]);
    scan_eol(&bytes[run + space..])?;
    Some(run + space)
}
