//! List items.
ghost use Rattle.std.specs.Prelude.{ℕ, ◌≡◌, ◌≤◌, length, take, false, IfSome, IfNone};
ghost use Rattle.std.specs.List.{prefix_len};
ghost use Rattle.markdown_scanners_tree.specs.SomeExactly.{SomeExactly, IsOnly};
ghost use Rattle.markdown_scanners_tree.specs.Bytes.{begins_with, is_digit};
ghost use Rattle.markdown_scanners_tree.specs.scanners.list_items.ListItem.{IsListMarker, IsItemSpace, IsListItem};
ghost use Rattle.markdown_scanners_tree.specs.scanners.list_items.ListMarker.{is_bullet, is_delimiter};

use crate::scanners::classes::is_ascii_digit;
use crate::scanners::indent::calc_indent;
use crate::scanners::lines::scan_blank_line;
use crate::scanners::numbers::number_of;
use crate::scanners::runs::first_bytes;

// How many digits the number of an ordered list item may have.
const MOST_DIGITS: usize = 9;

/// A list item at the front: the length in bytes of its marker with the space that belongs to
/// it, its bullet or delimiter, its start number (0 for a bullet), and its indent in columns.
///
/// A line that is blank after the marker has an indent one column wider than the marker. Tab stops
/// count from the marker's end.
///
/// A fresh `LineStart` finds the same items by `scan_list_marker_with_indent(0)`, but for two kinds
/// that it finds none in: a thematic break such as `- - -`, and a marker before a blank rest that
/// begins with a vertical tab or a form feed. A parser that ends a paragraph by this call and
/// begins the item by the other loses the second kind, so it asks the other both times.
/// (CommonMark 0.31.2, section 5.2.)
pub fn scan_listitem(bytes: &[u8]) -> Option<(usize, u8, usize, usize)>
    ensures found { SomeExactly (λ r. IsListItem bytes.now r.0 r.1 r.2 r.3) result }
    ensures only { IsOnly (λ r. IsListItem bytes.now r.0 r.1 r.2 r.3) result }
    ensures none { IfNone result ((n delimiter start indent : ℕ)
        → ¬ IsListItem bytes.now n delimiter start indent) }
    ensures within { IfSome result (λ r. r.0 ≤ length bytes.now) }
{
    let (width, delimiter, start) = scan_marker(bytes)?;
    let (offset, space) = scan_item_space(&bytes[width..])?;
    Some((width + offset, delimiter, start, width + space))
}

// The length of a list marker at the front, its last byte and its start number.
pub(crate) fn scan_marker(bytes: &[u8]) -> Option<(usize, u8, usize)>
    ensures found { SomeExactly (λ r. IsListMarker (take r.0 bytes.now) r.1 r.2) result }
    ensures within { IfSome result (λ r. r.0 ≤ length bytes.now) }
{
    if begins_with_bullet(bytes) {
        Some((1, bytes[0], 0))
    } else if begins_with_digit(bytes) {
        scan_ordered_marker(bytes)
    } else {
        None
    }
}

// Whether a bullet stands at the front.
fn begins_with_bullet(bytes: &[u8]) -> bool
    ensures { result ≡ begins_with is_bullet bytes.now }
{
    matches!(bytes, [b'-' | b'+' | b'*', ..])
}

// Whether a digit stands at the front.
fn begins_with_digit(bytes: &[u8]) -> bool
    ensures { result ≡ begins_with is_digit bytes.now }
{
    matches!(bytes, [b'0'..=b'9', ..])
}

// The same as `scan_marker`, where no bullet stands at the front.
fn scan_ordered_marker(bytes: &[u8]) -> Option<(usize, u8, usize)>
    requires no_bullet { begins_with is_bullet bytes.now ≡ false }
    ensures found { SomeExactly (λ r. IsListMarker (take r.0 bytes.now) r.1 r.2) result }
    ensures within { IfSome result (λ r. r.0 ≤ length bytes.now) }
{
    let digits = scan_digits(first_bytes(bytes, MOST_DIGITS + 1));
    if digits == 0 || digits > MOST_DIGITS {
        return None;
    }
    if digits == bytes.len() || !is_delimiter_byte(bytes[digits]) {
        return None;
    }
    let start = number_of(&bytes[..digits], 10);
    Some((digits + 1, bytes[digits], start as usize))
}

// Whether the byte ends an ordered list marker.
fn is_delimiter_byte(byte: u8) -> bool
    ensures { result ≡ is_delimiter byte }
{
    byte == b'.' || byte == b')'
}

// The length of the longest prefix of digits.
fn scan_digits(bytes: &[u8]) -> usize
    ensures run { result ≡ prefix_len is_digit bytes.now }
    ensures within { result ≤ length bytes.now }
{
    bytes.iter().take_while(|b| is_ascii_digit(**b)).count()
}

// How much of what follows a list marker in its line belongs to the item's indent, in bytes and
// in columns.
fn scan_item_space(rest: &[u8]) -> Option<(usize, usize)>
    ensures found { SomeExactly (λ r. IsItemSpace rest.now r.0 r.1) result }
    ensures within { IfSome result (λ r. r.0 ≤ length rest.now) }
{
    if scan_blank_line(rest).is_some() {
        return Some((0, 1));
    }
    let (offset, space) = calc_indent(rest, 5);
    if space == 0 {
        None
    } else if space > 4 {
        Some((1, 1))
    } else {
        Some((offset, space))
    }
}
