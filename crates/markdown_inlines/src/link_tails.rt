//! What follows the text of an inline link or image. (CommonMark 0.31.2, section 6.3)
ghost use Rattle.std.specs.Prelude.{◌≡◌, ◌==◌, ◌||◌, ◌+◌, ◌-◌, ◌<◌, ◌≤◌, length, IsTrue, IfSome};
ghost use Rattle.std.specs.Str.{IsUtf8, IsCharBoundary};
ghost use Rattle.markdown_scanners_tree.specs.Ascii.{left_parenthesis, right_parenthesis};
ghost use Rattle.markdown_scanners_tree.specs.Bytes.{begins_with, is_line_ending, is_space_or_tab};
ghost use Rattle.markdown_scanners_tree.specs.SomeExactly.{SomeExactly, IsOnly};
ghost use Rattle.markdown_scanners_tree.specs.scanners.reference_definitions.ReferenceDefinition.{IsCutAt};
ghost use Rattle.markdown_scanners_tree.specs.scanners.reference_definitions.private.GapLength.{gap_length};
ghost use Rattle.markdown_inlines.specs.LinkTails.{IsLinkTail, IsFilledTail, IsTailEnd, IsTitledEnd, IsClosing};

use markdown_scanners_tree::scanners::{
    scan_eol, scan_link_dest_ahead, scan_separated_title, scan_spaces_and_tabs,
};
use std::ops::Range;

/// Where the parts of a link's tail stand, by their offsets in the text that it begins.
#[derive(Debug, Drop, PartialEq)]
pub struct LinkTail {
    /// The raw text of its destination, without angle brackets. It is empty where there is none.
    pub destination: Range<usize>,
    /// The raw text of its title, without the two bytes around it, if it has one.
    pub title: Option<Range<usize>>,
    /// How many bytes it has, both parentheses among them.
    pub len: usize,
}

/// The tail at the front of what follows the `]` of an inline link or image directly. Parentheses
/// in its destination nest at most `max_next + 1` deep, as in `scan_link_dest`.
///
/// Spaces, tabs and up to one line ending may stand between its parts. A title stands only
/// after a destination, since without one it would be read as a destination. No memory is asked for.
pub fn scan_link_tail(bytes: &[u8], max_next: usize) -> Option<LinkTail>
    // The one tail that stands there is answered.
    ensures found { SomeExactly (IsLinkTail (max_next + 1) bytes.now) result }
    ensures only { IsOnly (IsLinkTail (max_next + 1) bytes.now) result }

    // Its parts stand one after another in it.
    ensures within { IfSome result (λ tail. tail.len ≤ length bytes.now) }
    ensures destination { IfSome result (λ tail. (0 < tail.destination.start)
        × (tail.destination.start ≤ tail.destination.end)
        × (tail.destination.end < tail.len)) }
    ensures title { IfSome result (λ tail. IfSome tail.title (λ title.
        (tail.destination.end < title.start) × (title.start ≤ title.end)
        × (title.end + 1 < tail.len))) }

    // A text may be cut where each of them begins and ends, and after the tail.
    ensures destination_cut { IfSome result (λ tail. IsUtf8 bytes.now
        → IsCutAt bytes.now tail.destination) }
    ensures title_cut { IfSome result (λ tail. IfSome tail.title (λ title. IsUtf8 bytes.now
        → IsCutAt bytes.now title)) }
    ensures after { IfSome result (λ tail. IsUtf8 bytes.now
        → IsCharBoundary bytes.now tail.len) }
{
    if !is_opened(bytes) {
        return None;
    }
    match scan_closing(&bytes[1..]) {
        Some(closing) => Some(LinkTail {
            destination: closing..closing,
            title: None,
            len: closing + 1,
        }),
        None => scan_filled(bytes, max_next),
    }
}

// Whether the parenthesis that opens a tail stands at the front.
fn is_opened(bytes: &[u8]) -> bool
    ensures { result ≡ begins_with (λ b. b == left_parenthesis) bytes.now }
{
    matches!(bytes, [b'(', ..])
}

// A tail with a destination, where the parenthesis that opens it stands.
fn scan_filled(bytes: &[u8], max_next: usize) -> Option<LinkTail>
    requires opens { IsTrue (begins_with (λ b. b == left_parenthesis) bytes.now) }
    ensures found { SomeExactly (IsFilledTail (max_next + 1) bytes.now) result }
    ensures within { IfSome result (λ tail. tail.len ≤ length bytes.now) }
    ensures destination { IfSome result (λ tail. (0 < tail.destination.start)
        × (tail.destination.start ≤ tail.destination.end)
        × (tail.destination.end < tail.len)) }
    ensures title { IfSome result (λ tail. IfSome tail.title (λ title.
        (tail.destination.end < title.start) × (title.start ≤ title.end)
        × (title.end + 1 < tail.len))) }
    ensures destination_cut { IfSome result (λ tail. IsUtf8 bytes.now
        → IsCutAt bytes.now tail.destination) }
    ensures title_cut { IfSome result (λ tail. IfSome tail.title (λ title. IsUtf8 bytes.now
        → IsCutAt bytes.now title)) }
    ensures after { IfSome result (λ tail. IsUtf8 bytes.now
        → IsCharBoundary bytes.now tail.len) }
{
    let start = 1 + gap_len(&bytes[1..]);
    let (taken, raw) = scan_link_dest_ahead(&bytes[start..], max_next)?;
    if taken == 0 {
        return None;
    }
    let (title, len) = scan_end(bytes, start + taken)?;
    Some(LinkTail {
        destination: start + raw.start..start + raw.end,
        title,
        len,
    })
}

// How a tail ends whose destination ends at the offset: the title, if it has one, and its length.
fn scan_end(bytes: &[u8], offset: usize) -> Option<(Option<Range<usize>>, usize)>
    requires { offset ≤ length bytes.now }
    ensures found { SomeExactly (λ r. IsTailEnd bytes.now offset r.0 r.1) result }
    ensures within { IfSome result (λ r. (offset < r.1) × (r.1 ≤ length bytes.now)) }
    ensures title { IfSome result (λ r. IfSome r.0 (λ title. (offset < title.start)
        × (title.start ≤ title.end) × (title.end + 1 < r.1))) }
    ensures title_cut { IfSome result (λ r. IfSome r.0 (λ title. IsUtf8 bytes.now
        → IsCharBoundary bytes.now offset → IsCutAt bytes.now title)) }
    ensures after { IfSome result (λ r. IsUtf8 bytes.now → IsCharBoundary bytes.now offset
        → IsCharBoundary bytes.now r.1) }
{
    match scan_closing(&bytes[offset..]) {
        Some(closing) => Some((None, offset + closing)),
        None => {
            let (title, len) = scan_titled_end(bytes, offset)?;
            Some((Some(title), len))
        }
    }
}

// The title after the destination that ends at the offset, and the length of the tail that it ends.
fn scan_titled_end(bytes: &[u8], offset: usize) -> Option<(Range<usize>, usize)>
    requires { offset ≤ length bytes.now }
    ensures found { SomeExactly (λ r. IsTitledEnd bytes.now offset r.0 r.1) result }
    ensures within { IfSome result (λ r. r.1 ≤ length bytes.now) }
    ensures title { IfSome result (λ r. (offset < r.0.start) × (r.0.start ≤ r.0.end)
        × (r.0.end + 1 < r.1)) }
    ensures title_cut { IfSome result (λ r. IsUtf8 bytes.now → IsCharBoundary bytes.now offset
        → IsCutAt bytes.now r.0) }
    ensures after { IfSome result (λ r. IsUtf8 bytes.now → IsCharBoundary bytes.now offset
        → IsCharBoundary bytes.now r.1) }
{
    let title = scan_separated_title(bytes, offset)?;
    let end = title.end + 1;
    let closing = scan_closing(&bytes[end..])?;
    Some((title, end + closing))
}

// The length of a gap at the front with the right parenthesis after it.
fn scan_closing(bytes: &[u8]) -> Option<usize>
    ensures found { SomeExactly (IsClosing bytes.now) result }
    ensures only { IsOnly (IsClosing bytes.now) result }
    ensures within { IfSome result (λ n. (1 ≤ n) × (n ≤ length bytes.now)) }
    ensures before { IfSome result (λ n. IsUtf8 bytes.now → IsCharBoundary bytes.now (n - 1)) }
    ensures after { IfSome result (λ n. IsUtf8 bytes.now → IsCharBoundary bytes.now n) }
{
    let gap = gap_len(bytes);
    if is_closed(&bytes[gap..]) {
        Some(gap + 1)
    } else {
        None
    }
}

// Whether the parenthesis that closes a tail stands at the front.
fn is_closed(bytes: &[u8]) -> bool
    ensures { result ≡ begins_with (λ b. b == right_parenthesis) bytes.now }
{
    matches!(bytes, [b')', ..])
}

// The length of the spaces and tabs at the front, including up to one line ending. Most often there
// are none, which one look tells.
#[inline(always)]
fn gap_len(bytes: &[u8]) -> usize
    ensures gap { result ≡ gap_length bytes.now }
    ensures within { result ≤ length bytes.now }
    ensures after { IsUtf8 bytes.now → IsCharBoundary bytes.now result }
{
    if begins_gap(bytes) {
        some_gap_len(bytes)
    } else {
        0
    }
}

// Whether a space, a tab or a line ending stands at the front.
fn begins_gap(bytes: &[u8]) -> bool
    ensures { result ≡ begins_with (λ b. is_space_or_tab b || is_line_ending b) bytes.now }
{
    match bytes {
        [byte, ..] => opens_gap(*byte),
        _ => false,
    }
}

// Whether the byte is a space, a tab or a line ending.
fn opens_gap(byte: u8) -> bool
    ensures { result ≡ (is_space_or_tab byte || is_line_ending byte) }
{
    matches!(byte, b' ' | b'\t' | b'\n' | b'\r')
}

// The same, whatever stands at the front.
#[inline(never)]
fn some_gap_len(bytes: &[u8]) -> usize
    ensures gap { result ≡ gap_length bytes.now }
    ensures within { result ≤ length bytes.now }
    ensures after { IsUtf8 bytes.now → IsCharBoundary bytes.now result }
{
    let spaces = scan_spaces_and_tabs(bytes);
    let first = spaces + scan_eol(&bytes[spaces..]).unwrap_or(0);
    first + scan_spaces_and_tabs(&bytes[first..])
}
