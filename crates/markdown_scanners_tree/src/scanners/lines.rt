//! Line endings, blank lines and the marks at the front of a line.
ghost use Rattle.std.specs.Prelude.{◌≡◌, ◌<◌, ◌≤◌, ◌==◌, length, take, not, IfSome};
ghost use Rattle.std.specs.List.{prefix_len};
ghost use Rattle.markdown_scanners_tree.specs.SomeExactly.{SomeExactly, IsOnly};
ghost use Rattle.markdown_scanners_tree.specs.Bytes.{is_line_ending, line_ending, line_head, line_length, IsBlankLine, blank_line};
ghost use Rattle.markdown_scanners_tree.specs.scanners.Lines.{next_line, IsBlockQuoteStart};

use crate::scanners::classes::is_line_ending;
use crate::scanners::runs::scan_whitespace_no_nl;
use memchr::{memchr, memchr2};
use std::simd::prelude::*;

// How many bytes a vector holds.
const LANES: usize = 32;

// How many a vector of half the size holds: a line's end is most often in the first few.
const HALF_LANES: usize = 16;

// Where a line is so long that a search has paid for its beginning.
const FAR: usize = 256;

/// The length in bytes of the line ending at the front: LF, CR LF, or a CR alone.
///
/// The end of the bytes counts as a line ending of length 0. (CommonMark 0.31.2, section 2.1.)
pub fn scan_eol(bytes: &[u8]) -> Option<usize>
    ensures ending { result ≡ line_ending bytes.now }
    ensures within { IfSome result (λ n. n ≤ length bytes.now) }
{
    match bytes {
        [] => Some(0),
        [b'\n', ..] => Some(1),
        [b'\r', b'\n', ..] => Some(2),
        [b'\r', ..] => Some(1),
        _ => None,
    }
}

/// The length in bytes of a blank line at the front, with its line ending.
///
/// (CommonMark 0.31.2, section 2.1; vertical tabs and form feeds are white space too.)
pub fn scan_blank_line(bytes: &[u8]) -> Option<usize>
    ensures found { SomeExactly (IsBlankLine bytes.now) result }
    ensures line { result ≡ blank_line bytes.now }
    ensures within { IfSome result (λ n. n ≤ length bytes.now) }
{
    let i = scan_whitespace_no_nl(bytes);
    let n = scan_eol(&bytes[i..])?;
    Some(i + n)
}

/// The length in bytes of the line at the front, with its line ending: LF, CR LF, or a CR alone.
///
/// The last line of a text may have no ending, and is then all that is left. Of no bytes it is 0,
/// so lines are read until nothing is left. (CommonMark 0.31.2, section 2.1.)
pub fn scan_line(bytes: &[u8]) -> usize
    ensures line { result ≡ line_length bytes.now }
    ensures within { result ≤ length bytes.now }
    ensures rises { 0 < length bytes.now → 0 < result }
{
    let end = head_len(bytes);
    end + scan_eol(&bytes[end..]).unwrap_or(0)
}

/// The line at the front without its line ending: the bytes before the first LF or CR, or all of
/// them. (CommonMark 0.31.2, section 2.1)
pub fn line_head(text: &[u8]) -> &[u8]
    ensures head { result.now ≡ line_head text.now }
    ensures within { length result.now ≤ length text.now }
{
    &text[..head_len(text)]
}

// How many bytes stand before the first LF or CR.
fn head_len(bytes: &[u8]) -> usize
    ensures head { result ≡ prefix_len (λ b. not (is_line_ending b)) bytes.now }
    ensures within { result ≤ length bytes.now }
{
    if bytes.len() < HALF_LANES {
        return few_head_len(bytes);
    }
    let last = bytes.len() - HALF_LANES;
    let mut from = 0;
    while from < last {
        // Most lines are short, and a search takes longer to begin than a few vectors.
        if from >= FAR {
            return from + far_head_len(&bytes[from..]);
        }
        let before = count_in_line(&bytes[from..]);
        from += before;
        if before < HALF_LANES {
            return from;
        }
    }
    // Some bytes of the last vector may have been read.
    last + count_in_line(&bytes[last..])
}

// The same of bytes that fill no vector.
fn few_head_len(bytes: &[u8]) -> usize
    ensures head { result ≡ prefix_len (λ b. not (is_line_ending b)) bytes.now }
    ensures within { result ≤ length bytes.now }
{
    bytes.iter().take_while(|b| !is_line_ending(**b)).count()
}

// The same where the first LF or CR may be far.
fn far_head_len(bytes: &[u8]) -> usize
    ensures head { result ≡ prefix_len (λ b. not (is_line_ending b)) bytes.now }
    ensures within { result ≤ length bytes.now }
{
    match memchr2(b'\n', b'\r', bytes) {
        Some(offset) => offset,
        None => bytes.len(),
    }
}

// How many of the bytes in half a vector stand before the first LF or CR.
fn count_in_line(bytes: &[u8]) -> usize
    requires { HALF_LANES ≤ length bytes.now }
    ensures { result ≡ prefix_len (λ b. not (is_line_ending b)) (take HALF_LANES bytes.now) }
{
    let lanes = u8x16::from_slice(bytes);
    let is_ending = lanes.simd_eq(u8x16::splat(b'\n')) | lanes.simd_eq(u8x16::splat(b'\r'));
    let mask = is_ending.to_bitmask();
    if mask == 0 {
        HALF_LANES
    } else {
        mask.trailing_zeros() as usize
    }
}

// How many of the bytes in a vector stand before the first such byte.
fn count_before(byte: u8, bytes: &[u8]) -> usize
    requires { LANES ≤ length bytes.now }
    ensures { result ≡ prefix_len (λ b. not (b == byte)) (take LANES bytes.now) }
{
    let is_equal = u8x32::from_slice(bytes).simd_eq(u8x32::splat(byte));
    let mask = is_equal.to_bitmask();
    if mask == 0 {
        LANES
    } else {
        mask.trailing_zeros() as usize
    }
}

/// The offset after the first LF, or the length where there is none. LF alone ends a line here;
/// `scan_line` knows CR too.
pub fn scan_nextline(bytes: &[u8]) -> usize
    ensures next { result ≡ next_line bytes.now }
    ensures within { result ≤ length bytes.now }
{
    // Most lines are short, and a search takes longer to begin than a few vectors.
    let mut from = 0;
    while bytes.len() - from >= LANES && from < FAR {
        let before = count_before(b'\n', &bytes[from..]);
        from += before;
        if before < LANES {
            return from + 1;
        }
    }
    match memchr(b'\n', &bytes[from..]) {
        Some(offset) => from + offset + 1,
        None => bytes.len(),
    }
}

/// The length in bytes of a block quote marker, with the space after it, if one follows.
///
/// (CommonMark 0.31.2, section 5.1.) A tab after the marker is not taken, since only a part of
/// it may belong to the marker.
pub fn scan_blockquote_start(bytes: &[u8]) -> Option<usize>
    ensures found { SomeExactly (IsBlockQuoteStart bytes.now) result }
    ensures only { IsOnly (IsBlockQuoteStart bytes.now) result }
    ensures within { IfSome result (λ n. n ≤ length bytes.now) }
{
    match bytes {
        [b'>', rest @ ..] => Some(if rest.starts_with(b" ") { 2 } else { 1 }),
        _ => None,
    }
}
