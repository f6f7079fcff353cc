//! Link destinations, autolinks and wikilinks.
ghost use Rattle.std.specs.Prelude.{ℕ, List, ◌≡◌, ◌+◌, ◌-◌, ◌<◌, ◌≤◌, ◌==◌, ◌||◌, IfSome, IfNone, length, drop, take, slice_range, slice_index, position};
ghost use Rattle.std.specs.List.{prefix_len};
ghost use Rattle.std.specs.Option.{option_map};
ghost use Rattle.std.specs.Str.{IsUtf8, IsCharBoundary};
ghost use Rattle.markdown_values.specs.strings.Text.{cow_text, IsBorrowed};
ghost use Rattle.markdown_scanners_tree.specs.Ascii.{vertical_line, less_than_sign, greater_than_sign};
ghost use Rattle.markdown_scanners_tree.specs.Bytes.{is_line_ending};
ghost use Rattle.markdown_scanners_tree.specs.SomeExactly.{SomeExactly, IsOnly};
ghost use Rattle.markdown_scanners_tree.specs.scanners.classes.private.InDestination.{is_in_destination};
ghost use Rattle.markdown_scanners_tree.specs.scanners.links.LinkDestination.{IsLinkDestination, IsBareFrom, IsPointedFrom};
ghost use Rattle.markdown_scanners_tree.specs.scanners.links.FoundDestination.{IsDestination, RawTextStandsIn, with_raw_text};
ghost use Rattle.markdown_scanners_tree.specs.scanners.links.Autolink.{IsUriAutolink, StartsWithScheme, is_scheme_byte, is_uri_byte};

use crate::scanners::classes::{
    is_ascii_alphanumeric, is_ascii_letter, is_in_destination, is_line_ending,
};
use crate::scanners::escapes::starts_escape;
use crate::scanners::runs::first_bytes;
use markdown_values::strings::CowStr;
use markdown_values::values::LinkType;
use memchr::memchr;
use std::ops::Range;

// How many bytes a scheme may have.
const MOST_SCHEME_BYTES: usize = 32;

/// The offset of the first pipe among the first `len` bytes, or among all where there are fewer.
///
/// The form of `scan_wikilink_pipe` for bytes, which need not be UTF-8.
pub fn scan_wikilink_pipe_bytes(bytes: &[u8], len: usize) -> Option<usize>
    ensures found { result ≡ position (λ b. b == vertical_line) (take len bytes.now) }
    ensures within { IfSome result (λ n. n < length bytes.now) }
    ensures cut { IfSome result (λ n. slice_index bytes.now n ≡ vertical_line) }

    // A text may be cut before the pipe and after it.
    ensures before { IfSome result (λ n. IsUtf8 bytes.now → IsCharBoundary bytes.now n) }
    ensures after { IfSome result (λ n. IsUtf8 bytes.now → IsCharBoundary bytes.now (n + 1)) }
{
    memchr(b'|', first_bytes(bytes, len))
}

/// The first pipe in the `len` bytes from `start` on, cut at the text's end: the offset after the
/// pipe, and the text before it. `start` is an offset between two characters.
pub fn scan_wikilink_pipe(text: &str, start: usize, len: usize) -> Option<(usize, &str)>
    requires { 0 < start → IsCharBoundary text.now start }
    ensures found { option_map (λ r. length r.1.now) result
        ≡ position (λ b. b == vertical_line) (take len (drop start text.now)) }
    ensures offset { IfSome result (λ r. r.0 ≡ start + length r.1.now + 1) }
    ensures slice { IfSome result (λ r. r.1.now ≡ slice_range text.now start (r.0 - 1)) }
    ensures boundary { IfSome result (λ r. IsCharBoundary text.now r.0) }
{
    let n = scan_wikilink_pipe_bytes(&text.as_bytes()[start..], len)?;
    Some((start + n + 1, &text[start..start + n]))
}

/// The link destination at the front of the bytes: how many it takes, angle brackets among them,
/// and where its raw text stands. Parentheses nest at most `max_next + 1` deep.
///
/// The form of `scan_link_dest` for bytes, which need not be UTF-8. (CommonMark 0.31.2, section
/// 6.3.)
pub fn scan_link_dest_bytes(bytes: &[u8], max_next: usize) -> Option<(usize, Range<usize>)>
    // The one destination that stands there is answered.
    ensures found { SomeExactly (IsDestination (max_next + 1) bytes.now)
        (with_raw_text bytes.now result) }
    ensures only { IsOnly (IsDestination (max_next + 1) bytes.now)
        (with_raw_text bytes.now result) }

    // Its raw text is all of it or stands between its brackets, and can be cut out.
    ensures raw_text { IfSome result (λ r. RawTextStandsIn bytes.now r.0 r.1) }
{
    if !bytes.is_empty() && bytes[0] == b'<' {
        let n = pointed_len(&bytes[1..])?;
        return Some((n + 2, 1..n + 1));
    }
    let n = bare_len(bytes, max_next)?;
    Some((n, 0..n))
}

/// The link destination from `start` on: how many bytes it takes, angle brackets among them, and
/// its raw text without them. Parentheses nest at most `max_next + 1` deep. `start` is an offset
/// between two characters.
///
/// (CommonMark 0.31.2, section 6.3.)
pub fn scan_link_dest(text: &str, start: usize, max_next: usize) -> Option<(usize, &str)>
    requires { 0 < start → IsCharBoundary text.now start }
    ensures found { SomeExactly
        (λ (r : ℕ × List ℕ). IsLinkDestination (max_next + 1) (drop start text.now) r.0 r.1)
        (option_map (λ r. (r.0, r.1.now)) result) }
    ensures only { IfSome result (λ r. (other : ℕ × List ℕ)
        → IsLinkDestination (max_next + 1) (drop start text.now) other.0 other.1
        → other ≡ (r.0, r.1.now)) }
    ensures none { IfNone result ((n : ℕ) (raw : List ℕ)
        → ¬ IsLinkDestination (max_next + 1) (drop start text.now) n raw) }
    ensures boundary { IfSome result (λ r. IsCharBoundary text.now (start + r.0)) }
{
    let (taken, raw) = scan_link_dest_bytes(&text.as_bytes()[start..], max_next)?;
    Some((taken, &text[start + raw.start..start + raw.end]))
}

// How many bytes stand before the first unescaped `>`, after the `<`.
fn pointed_len(bytes: &[u8]) -> Option<usize>
    ensures found { SomeExactly (IsPointedFrom bytes.now) result }
    ensures within { IfSome result (λ n. n < length bytes.now) }
    ensures cut { IfSome result (λ n. slice_index bytes.now n ≡ greater_than_sign) }
{
    let mut i = 0;
    while i < bytes.len() && bytes[i] != b'>' {
        if starts_escape(bytes, i) {
            i += 2;
        } else if refuses_pointed(bytes[i]) {
            return None;
        } else {
            i += 1;
        }
    }
    if i < bytes.len() { Some(i) } else { None }
}

// Whether the byte can't stand between `<` and `>`.
fn refuses_pointed(b: u8) -> bool
    ensures { result ≡ (is_line_ending b || b == less_than_sign) }
{
    is_line_ending(b) || b == b'<'
}

// The length of the bare destination at the front, which ends before an ASCII byte or with the
// text.
fn bare_len(bytes: &[u8], max_next: usize) -> Option<usize>
    ensures found { SomeExactly (IsBareFrom (max_next + 1) 0 bytes.now) result }
    ensures within { IfSome result (λ n. n ≤ length bytes.now) }
    ensures cut { IfSome result (λ n. n < length bytes.now → slice_index bytes.now n < 128) }
{
    let mut i = 0;
    let mut depth = 0;
    while i < bytes.len() {
        let byte = bytes[i];
        if byte == b'(' {
            if depth > max_next {
                return None;
            }
            depth += 1;
            i += 1;
        } else if byte == b')' {
            if depth == 0 {
                break;
            }
            depth -= 1;
            i += 1;
        } else if byte <= b' ' {
            break;
        } else {
            i += if starts_escape(bytes, i) { 2 } else { 1 };
            i += plain_len(&bytes[i..]);
        }
    }
    if depth == 0 { Some(i) } else { None }
}

// How many bytes stand at the front that neither nest, escape nor end a destination: most of it.
fn plain_len(bytes: &[u8]) -> usize
    ensures run { result ≡ prefix_len is_in_destination bytes.now }
    ensures within { result ≤ length bytes.now }
{
    bytes.iter().take_while(|b| is_in_destination(**b)).count()
}

/// The length of the absolute URI at the front of the bytes, after which stands its `>`.
///
/// The form of `scan_autolink` for bytes, which need not be UTF-8. (CommonMark 0.31.2, section
/// 6.5.)
pub fn scan_autolink_bytes(bytes: &[u8]) -> Option<usize>
    // The one URI that stands there is answered.
    ensures found { SomeExactly (IsUriAutolink bytes.now)
        (option_map (λ n. take n bytes.now) result) }
    ensures only { IsOnly (IsUriAutolink bytes.now)
        (option_map (λ n. take n bytes.now) result) }

    // A `>` is after it, and a text may be cut on both sides of that.
    ensures within { IfSome result (λ n. n < length bytes.now) }
    ensures cut { IfSome result (λ n. slice_index bytes.now n ≡ greater_than_sign) }
    ensures before { IfSome result (λ n. IsUtf8 bytes.now → IsCharBoundary bytes.now n) }
    ensures after { IfSome result (λ n. IsUtf8 bytes.now → IsCharBoundary bytes.now (n + 1)) }
{
    let scheme = scheme_len(bytes)?;
    let end = scheme + 1 + address_prefix_len(&bytes[scheme + 1..]);
    if end < bytes.len() && bytes[end] == b'>' {
        Some(end)
    } else {
        None
    }
}

/// The absolute URI from `start` on that `>` ends: the offset after the `>`, and the text before it.
/// `start` is an offset between two characters.
///
/// (CommonMark 0.31.2, section 6.5.)
pub fn scan_autolink<'a>(text: &'a str, start: usize) -> Option<(usize, CowStr<'a>, LinkType)>
    requires { 0 < start → IsCharBoundary text.now start }

    // The one URI that stands there is answered.
    ensures found { SomeExactly (IsUriAutolink (drop start text.now))
        (option_map (λ r. cow_text r.1) result) }
    ensures only { IsOnly (IsUriAutolink (drop start text.now))
        (option_map (λ r. cow_text r.1) result) }

    // It is lent from the text, and the answered offset is after its `>`.
    ensures offset { IfSome result (λ r. r.0 ≡ start + length (cow_text r.1) + 1) }
    ensures slice { IfSome result (λ r. cow_text r.1 ≡ slice_range text.now start (r.0 - 1)) }
    ensures boundary { IfSome result (λ r. IsCharBoundary text.now r.0) }
    ensures borrowed { IfSome result (λ r. IsBorrowed r.1) }
    ensures kind { IfSome result (λ r. r.2 ≡ LinkType.Autolink) }
{
    let n = scan_autolink_bytes(&text.as_bytes()[start..])?;
    let end = start + n;
    Some((end + 1, CowStr::from(&text[start..end]), LinkType::Autolink))
}

// The length of the scheme at the front, which a colon ends.
fn scheme_len(bytes: &[u8]) -> Option<usize>
    ensures found { SomeExactly (StartsWithScheme bytes.now) result }
    ensures within { IfSome result (λ n. n < length bytes.now) }
{
    if bytes.is_empty() || !is_ascii_letter(bytes[0]) {
        return None;
    }
    let n = 1 + scheme_prefix_len(first_bytes(&bytes[1..], MOST_SCHEME_BYTES));
    if n < 2 || n > MOST_SCHEME_BYTES || n == bytes.len() || bytes[n] != b':' {
        return None;
    }
    Some(n)
}

// How many bytes at the front can stand in a scheme after its letter.
fn scheme_prefix_len(bytes: &[u8]) -> usize
    ensures count { result ≡ prefix_len is_scheme_byte bytes.now }
    ensures within { result ≤ length bytes.now }
{
    bytes
        .iter()
        .take_while(|b| is_ascii_alphanumeric(**b) || matches!(**b, b'+' | b'-' | b'.'))
        .count()
}

// How many bytes at the front can stand in a URI after its colon.
fn address_prefix_len(bytes: &[u8]) -> usize
    ensures count { result ≡ prefix_len is_uri_byte bytes.now }
    ensures within { result ≤ length bytes.now }
{
    bytes
        .iter()
        .take_while(|b| **b > b' ' && **b != b'<' && **b != b'>')
        .count()
}
