//! Link titles.
ghost use Rattle.std.specs.Prelude.{◌≡◌, ◌-◌, ◌<◌, ◌≤◌, Some, IfSome, IsTrue, length, slice_index};
ghost use Rattle.std.specs.Str.{IsUtf8, IsCharBoundary};
ghost use Rattle.markdown_scanners_tree.specs.Bytes.{is_blank, is_at_line_end};
ghost use Rattle.markdown_scanners_tree.specs.SomeExactly.{SomeExactly, IsOnly};
ghost use Rattle.markdown_scanners_tree.specs.scanners.TextLines.{ends_line};
ghost use Rattle.markdown_scanners_tree.specs.scanners.titles.LinkTitle.{IsLinkTitle, closing_of};
ghost use Rattle.markdown_scanners_tree.specs.scanners.titles.private.TitleFrom.{IsTitleFrom, is_before_blank_line};

use crate::scanners::classes::is_in_destination;
use crate::scanners::escapes::starts_escape;
use crate::scanners::runs::scan_whitespace_no_nl;

/// The length in bytes of the link title at the front, with the two bytes around it: straight
/// double quotes, straight single quotes, or matching parentheses.
///
/// Neither of the two stands between them but after a backslash. A title may span lines, of which
/// none is blank; what a container has at the front of a line is not left out. (CommonMark 0.31.2,
/// section 6.3.)
pub fn scan_link_title(bytes: &[u8]) -> Option<usize>
    // The one title that stands there is answered.
    ensures found { SomeExactly (IsLinkTitle bytes.now) result }
    ensures only { IsOnly (IsLinkTitle bytes.now) result }
    ensures within { IfSome result (λ n. (2 ≤ n) × (n ≤ length bytes.now)) }

    // A text may be cut where its own bytes begin and end, and after all that it takes.
    ensures begins { IfSome result (λ n. IsUtf8 bytes.now → IsCharBoundary bytes.now 1) }
    ensures ends { IfSome result (λ n. IsUtf8 bytes.now → IsCharBoundary bytes.now (n - 1)) }
    ensures after { IfSome result (λ n. IsUtf8 bytes.now → IsCharBoundary bytes.now n) }
{
    if bytes.is_empty() {
        return None;
    }
    let closing = closing_of(bytes[0])?;
    let n = inner_len(&bytes[1..], bytes[0], closing)?;
    Some(n + 2)
}

// The byte that closes a title which the byte opens.
fn closing_of(opening: u8) -> Option<u8>
    ensures { result ≡ closing_of opening }
{
    match opening {
        b'"' | b'\'' => Some(opening),
        b'(' => Some(b')'),
        _ => None,
    }
}

// How many bytes stand before the first unescaped `closing`, after the `opening`.
fn inner_len(bytes: &[u8], opening: u8, closing: u8) -> Option<usize>
    requires { closing_of opening ≡ Some closing }
    ensures found { SomeExactly (IsTitleFrom opening closing bytes.now) result }
    ensures within { IfSome result (λ n. n < length bytes.now) }
    ensures cut { IfSome result (λ n. slice_index bytes.now n ≡ closing) }
{
    let mut i = 0;
    while i < bytes.len() && bytes[i] != closing {
        // One look at a table tells most bytes.
        if is_in_destination(bytes[i]) {
            i += 1;
        } else if starts_escape(bytes, i) {
            i += 2;
        } else if bytes[i] == opening || is_before_blank_line(&bytes[i..]) {
            return None;
        } else {
            i += 1;
        }
    }
    if i < bytes.len() { Some(i) } else { None }
}

// Whether a line ends with the first byte, and the next one is blank.
fn is_before_blank_line(bytes: &[u8]) -> bool
    ensures { result ≡ is_before_blank_line bytes.now }
{
    ends_line(bytes) && is_blank(&bytes[1..])
}

// Whether a line ends with the first byte: it is LF, or a CR that no LF follows.
fn ends_line(bytes: &[u8]) -> bool
    ensures value { result ≡ ends_line bytes.now }
    ensures filled { IsTrue result → 0 < length bytes.now }
{
    match bytes {
        [b'\n', ..] => true,
        [b'\r', b'\n', ..] => false,
        [b'\r', ..] => true,
        _ => false,
    }
}

// Whether the line at the front is blank. No byte is read after the one that tells.
fn is_blank(bytes: &[u8]) -> bool
    ensures { result ≡ is_blank bytes.now }
{
    is_at_line_end(&bytes[scan_whitespace_no_nl(bytes)..])
}

// Whether the bytes are at their end, or begin with a line ending.
fn is_at_line_end(bytes: &[u8]) -> bool
    ensures { result ≡ is_at_line_end bytes.now }
{
    matches!(bytes, [] | [b'\n' | b'\r', ..])
}
