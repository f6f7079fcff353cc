//! What the content of a code span means. (CommonMark 0.31.2, section 6.1)
ghost use Rattle.std.specs.Prelude.{◌≡◌, ◌==◌, ◌&&◌, ◌+◌, ◌-◌, ◌<◌, ◌≤◌, ◌∷◌, ◌++◌, [], true, false};
ghost use Rattle.std.specs.Prelude.{not, nat_lt, length, take, drop, slice_index, slice_range, IfNone, IfOk, IfSome, IsOkAnd, OnOk};
ghost use Rattle.std.specs.List.{list_all, list_any};
ghost use Rattle.std.specs.Str.{IsUtf8, IsCharBoundary};
ghost use Rattle.std.specs.String.{string_bytes};
ghost use Rattle.markdown_values.specs.strings.Text.{cow_text, IsBorrowed, IsBoxed};
ghost use Rattle.markdown_scanners_tree.specs.Ascii.{space, carriage_return, line_feed};
ghost use Rattle.markdown_scanners_tree.specs.Bytes.{is_line_ending};
ghost use Rattle.markdown_scanners_tree.specs.scanners.reference_definitions.ReferenceDefinition.{IsCutAt};
ghost use Rattle.markdown_inlines.specs.CodeContent.{as_space, with_spaces, without_padding, code_text};

use markdown_scanners_tree::byte_sets::ByteSet;
use markdown_scanners_tree::scanners::line_head;
use markdown_values::strings::CowStr;
use std::alloc::{AllocError, Global};
use std::ops::Range;
use std::simd::prelude::*;

// CR and LF.
const LINE_ENDINGS: ByteSet = ByteSet {
    low: [0, 0, 0, 0, 0, 0, 0, 0, 0, 0, 1, 0, 0, 1, 0, 0],
    high: [1, 0, 0, 0, 0, 0, 0, 0, 0, 0, 0, 0, 0, 0, 0, 0],
};

// Of how many bytes it costs less to ask of 8 at a time, and of how many of 16.
const EIGHT: usize = 8;

const SIXTEEN: usize = 16;

/// The text of a code span with this content between its backtick strings: line endings are spaces,
/// and one space is left out at each end, if the content has one at both and more than spaces.
///
/// Content without a line ending is lent. Else the memory of the text is asked for once, at its
/// exact length.
///
/// # Errors
///
/// `AllocError` where that memory is refused.
pub fn code_text<'a>(alloc: Global, content: &'a str) -> Result<CowStr<'a>, AllocError>
    ensures text { IfOk result (λ text. cow_text text ≡ code_text content.now) }

    // It is lent where no line ending stands in the content, and else has its own memory.
    ensures lent { list_any is_line_ending content.now ≡ false → IsOkAnd result IsBorrowed }
    ensures boxed { list_any is_line_ending content.now ≡ true → IfOk result IsBoxed }
{
    match lent_code_text(content) {
        Some(text) => Ok(CowStr::from(text)),
        None => spaced_code_text(alloc, content),
    }
}

/// The same text, where no line ending stands in the content: all of it, or what stands between the
/// spaces at its ends. None where one does. No memory is asked for.
#[inline(always)]
pub fn lent_code_text(content: &str) -> Option<&str>
    ensures text { IfSome result (λ text. text.now ≡ code_text content.now) }
    ensures lent { IfSome result (λ _. list_any is_line_ending content.now ≡ false) }
    ensures none { IfNone result (list_any is_line_ending content.now ≡ true) }
{
    let kept = without_padding(content.as_bytes());
    let text = &content[kept.start..kept.end];
    if !has_line_ending(content.as_bytes()) {
        return Some(text);
    }
    None
}

// The text of content in which line endings stand.
#[inline(never)]
fn spaced_code_text(alloc: Global, content: &str) -> Result<CowStr<'static>, AllocError>
    ensures text { IfOk result (λ text. cow_text text ≡ code_text content.now) }
    ensures boxed { IfOk result IsBoxed }
{
    let kept = without_padding(content.as_bytes());
    spaced_text(alloc, &content[kept.start..kept.end])
}

// The text with its line endings as spaces, in memory of its own.
fn spaced_text(alloc: Global, text: &str) -> Result<CowStr<'static>, AllocError>
    ensures text { IfOk result (λ spaced. cow_text spaced ≡ with_spaces text.now) }
    ensures boxed { IfOk result IsBoxed }
{
    let mut spaced = String::with_capacity(alloc, spaced_len(text.as_bytes()))?;
    push_spaced(&mut spaced, text)?;
    CowStr::from_string(alloc, spaced)
}

// Whether a line ends in the bytes.
fn has_line_ending(bytes: &[u8]) -> bool
    ensures { result ≡ list_any is_line_ending bytes.now }
{
    if bytes.len() < EIGHT {
        return few_have_ending(bytes);
    }
    if bytes.len() < SIXTEEN {
        return some_have_ending(bytes);
    }
    LINE_ENDINGS.len_outside(bytes) < bytes.len()
}

// The same of 8 to 16 bytes: the first 8 of them and the last 8, some of which may be both.
fn some_have_ending(bytes: &[u8]) -> bool
    requires many { EIGHT ≤ length bytes.now }
    requires few { length bytes.now ≤ SIXTEEN }
    ensures { result ≡ list_any is_line_ending bytes.now }
{
    let first = eight_have_ending(bytes);
    let last = eight_have_ending(&bytes[bytes.len() - EIGHT..]);
    first || last
}

// Whether a line ends in the first 8 bytes.
fn eight_have_ending(bytes: &[u8]) -> bool
    requires { EIGHT ≤ length bytes.now }
    ensures { result ≡ list_any is_line_ending (take EIGHT bytes.now) }
{
    let lanes = u8x8::from_slice(bytes);
    let is_ending = lanes.simd_eq(u8x8::splat(b'\n')) | lanes.simd_eq(u8x8::splat(b'\r'));
    is_ending.to_bitmask() != 0
}

// The same of bytes of which it is asked one by one.
fn few_have_ending(bytes: &[u8]) -> bool
    ensures { result ≡ list_any is_line_ending bytes.now }
{
    bytes.iter().any(|b| ends_line(*b))
}

// Whether the byte is a line ending. Most bytes of code are no control characters, which one test tells.
fn ends_line(byte: u8) -> bool
    ensures { result ≡ is_line_ending byte }
{
    byte < b' ' && (byte == b'\n' || byte == b'\r')
}

// Where what is left stands when the space at each end is left out, or the line ending that becomes
// it, if it is.
fn without_padding(bytes: &[u8]) -> Range<usize>
    ensures text { with_spaces (slice_range bytes.now result.start result.end)
        ≡ without_padding (with_spaces bytes.now) }
    ensures within { (result.start ≤ result.end) × (result.end ≤ length bytes.now) }
    ensures cut { IsUtf8 bytes.now → IsCutAt bytes.now result }
{
    if !is_padded(bytes) {
        return 0..bytes.len();
    }
    let start = space_len(bytes);
    let end = bytes.len() - last_space_len(&bytes[start..]);
    start..end
}

// Whether the bytes begin and end with what becomes a space, and have more than that.
fn is_padded(bytes: &[u8]) -> bool
    ensures { result ≡ (as_space (slice_index bytes.now 0) == space
        && as_space (slice_index bytes.now (length bytes.now - 1)) == space
        && not (list_all (λ b. as_space b == space) bytes.now)) }
{
    if bytes.is_empty() {
        return false;
    }
    becomes_space(bytes[0]) && becomes_space(bytes[bytes.len() - 1]) && !are_spaces(bytes)
}

// Whether all of the bytes are spaces, or end lines.
fn are_spaces(bytes: &[u8]) -> bool
    ensures { result ≡ list_all (λ b. as_space b == space) bytes.now }
{
    bytes.iter().all(|b| becomes_space(*b))
}

// Whether the byte is a space, or ends a line.
fn becomes_space(byte: u8) -> bool
    ensures { result ≡ (as_space byte == space) }
{
    byte == b' ' || byte == b'\n' || byte == b'\r'
}

// The length of the space or the line ending at the front.
fn space_len(bytes: &[u8]) -> usize
    requires { as_space (slice_index bytes.now 0) ≡ space }
    ensures rest { with_spaces bytes.now ≡ space ∷ with_spaces (drop result bytes.now) }
    ensures within { (1 ≤ result) × (result ≤ length bytes.now) }
    ensures cut { IsUtf8 bytes.now → IsCharBoundary bytes.now result }
{
    if begins_with_pair(bytes) { 2 } else { 1 }
}

// Whether CR LF stands at the front.
fn begins_with_pair(bytes: &[u8]) -> bool
    ensures { result ≡ (slice_index bytes.now 0 == carriage_return
        && slice_index bytes.now 1 == line_feed) }
{
    matches!(bytes, [b'\r', b'\n', ..])
}

// The length of the space or the line ending at the end.
fn last_space_len(bytes: &[u8]) -> usize
    requires { as_space (slice_index bytes.now (length bytes.now - 1)) ≡ space }
    ensures front { with_spaces bytes.now
        ≡ with_spaces (take (length bytes.now - result) bytes.now) ++ space ∷ [] }
    ensures within { result ≤ length bytes.now }
    ensures cut { IsCharBoundary bytes.now (length bytes.now - result) }
{
    if ends_with_pair(bytes) { 2 } else { 1 }
}

// Whether CR LF stands at the end.
fn ends_with_pair(bytes: &[u8]) -> bool
    ensures { result ≡ (nat_lt 1 (length bytes.now)
        && slice_index bytes.now (length bytes.now - 2) == carriage_return
        && slice_index bytes.now (length bytes.now - 1) == line_feed) }
{
    let len = bytes.len();
    len > 1 && bytes[len - 2] == b'\r' && bytes[len - 1] == b'\n'
}

// How many bytes there are with the line endings as spaces.
fn spaced_len(bytes: &[u8]) -> usize
    ensures { result ≡ length (with_spaces bytes.now) }
{
    let mut len = 0;
    for i in 0..bytes.len() {
        len += first_len(&bytes[i..]);
    }
    len
}

// How many bytes are left of the first one.
fn first_len(bytes: &[u8]) -> usize
    requires { 0 < length bytes.now }
    ensures count { length (with_spaces bytes.now)
        ≡ result + length (with_spaces (drop 1 bytes.now)) }
    ensures at_most_one { result ≤ 1 }
{
    if begins_with_pair(bytes) { 0 } else { 1 }
}

// Appends the text with its line endings as spaces.
fn push_spaced(out: &mut String, text: &str) -> Result<(), AllocError>
    ensures { OnOk result
        (string_bytes out.new ≡ string_bytes out.old ++ with_spaces text.now) }
{
    let mut offset = 0;
    while offset < text.len() {
        let end = offset + line_head(&text.as_bytes()[offset..]).len();
        out.push_str(&text[offset..end])?;
        offset = end + push_space(out, &text.as_bytes()[end..])?;
    }
    Ok(())
}

// Appends a space for the line ending at the front, if the bytes aren't at their end, and answers
// its length.
fn push_space(out: &mut String, bytes: &[u8]) -> Result<usize, AllocError>
    requires { 0 < length bytes.now → as_space (slice_index bytes.now 0) ≡ space }
    ensures bytes { IfOk result (λ n. string_bytes out.new ++ with_spaces (drop n bytes.now)
        ≡ string_bytes out.old ++ with_spaces bytes.now) }
    ensures within { IfOk result (λ n. (n ≤ length bytes.now)
        × (0 < length bytes.now → 1 ≤ n)) }
    ensures cut { IfOk result (λ n. IsUtf8 bytes.now → IsCharBoundary bytes.now n) }
{
    if bytes.is_empty() {
        return Ok(0);
    }
    out.push(' ')?;
    Ok(space_len(bytes))
}
