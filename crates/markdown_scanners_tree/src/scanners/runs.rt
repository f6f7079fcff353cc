//! Runs of bytes at the front or the back.
ghost use Rattle.std.specs.Prelude.{◌≡◌, ◌≤◌, ◌==◌, length, take, reverse, if◌then◌else◌};
ghost use Rattle.std.specs.List.{prefix_len, list_any};
ghost use Rattle.markdown_scanners_tree.specs.Bytes.{begins_with, is_alphanumeric, is_space_or_tab, is_white_space_in_line};
ghost use Rattle.markdown_scanners_tree.specs.scanners.Runs.{IsCallableInTurn, IsAccepted};

use crate::scanners::classes::{is_ascii_alphanumeric, is_ascii_whitespace_no_nl};
use memchr::memchr;

/// 1 where the first byte is `c`, else 0.
pub fn scan_ch(bytes: &[u8], c: u8) -> usize
    ensures first { result ≡ (if begins_with (λ b. b == c) bytes.now then 1 else 0) }
    ensures within { result ≤ length bytes.now }
{
    match bytes {
        [first, ..] if *first == c => 1,
        _ => 0,
    }
}

/// How many bytes from the front `f` accepts before it first refuses one.
///
/// `f` is asked once for each byte, in order, and no more after it has refused one; it need bear no
/// other call.
pub fn scan_while<F: FnMut(u8) -> bool>(bytes: &[u8], mut f: F) -> usize
    requires { IsCallableInTurn (λ p b. F.pre p b) (λ p b r q. F.step p b r q) f bytes.now }
    ensures accepted { IsAccepted (λ p b r q. F.step p b r q) f bytes.now result }
    ensures within { result ≤ length bytes.now }
{
    let mut count = 0;
    while count < bytes.len() {
        if !f(bytes[count]) {
            return count;
        }
        count += 1;
    }
    count
}

/// How many bytes from the back `f` accepts before it first refuses one.
///
/// `f` is asked once for each byte, from the last one on, and no more after it has refused one; it
/// need bear no other call.
pub fn scan_rev_while<F: FnMut(u8) -> bool>(bytes: &[u8], mut f: F) -> usize
    requires { IsCallableInTurn (λ p b. F.pre p b) (λ p b r q. F.step p b r q) f
        (reverse bytes.now) }
    ensures accepted { IsAccepted (λ p b r q. F.step p b r q) f (reverse bytes.now) result }
    ensures within { result ≤ length bytes.now }
{
    let mut count = 0;
    while count < bytes.len() {
        if !f(bytes[bytes.len() - 1 - count]) {
            return count;
        }
        count += 1;
    }
    count
}

/// The length of the longest prefix of the byte `c`.
pub fn scan_ch_repeat(bytes: &[u8], c: u8) -> usize
    ensures run { result ≡ prefix_len (λ b. b == c) bytes.now }
    ensures within { result ≤ length bytes.now }
{
    let mut count = 0;
    while count < bytes.len() && bytes[count] == c {
        count += 1;
    }
    count
}

/// The length of the longest prefix of white space that ends no line.
pub fn scan_whitespace_no_nl(bytes: &[u8]) -> usize
    ensures run { result ≡ prefix_len is_white_space_in_line bytes.now }
    ensures within { result ≤ length bytes.now }
{
    bytes
        .iter()
        .take_while(|b| is_ascii_whitespace_no_nl(**b))
        .count()
}

/// The length in bytes of the longest prefix of spaces and tabs: of an indent, or of what may stand
/// after a closing fence and around an info string.
///
/// Vertical tabs and form feeds are no part of it, as they are for `scan_whitespace_no_nl`. Columns
/// are counted by a `LineStart`. (CommonMark 0.31.2, sections 2.1 and 2.2)
pub fn scan_spaces_and_tabs(bytes: &[u8]) -> usize
    ensures run { result ≡ prefix_len is_space_or_tab bytes.now }
    ensures within { result ≤ length bytes.now }
{
    bytes
        .iter()
        .take_while(|b| **b == b' ' || **b == b'\t')
        .count()
}

// The length of the longest prefix of letters and digits.
pub(in crate::scanners) fn scan_alphanumerics(bytes: &[u8]) -> usize
    ensures run { result ≡ prefix_len is_alphanumeric bytes.now }
    ensures within { result ≤ length bytes.now }
{
    bytes
        .iter()
        .take_while(|b| is_ascii_alphanumeric(**b))
        .count()
}

// The first bytes, so many or all. A run that may have no more than `count - 1` bytes is given from
// a longer one by these.
pub(in crate::scanners) fn first_bytes(bytes: &[u8], count: usize) -> &[u8]
    ensures first { result.now ≡ take count bytes.now }
    ensures within { length result.now ≤ length bytes.now }
{
    &bytes[..count.min(bytes.len())]
}

// Whether the byte stands somewhere in the bytes.
pub(in crate::scanners) fn has_byte(bytes: &[u8], byte: u8) -> bool
    ensures { result ≡ list_any (λ b. b == byte) bytes.now }
{
    memchr(byte, bytes).is_some()
}
