//! Line endings, each written as a line feed. (CommonMark 0.31.2, section 2.1)
ghost use Rattle.std.specs.Prelude.{◌≡◌, ◌≤◌, ◌<◌, ◌++◌, ◌∷◌, ◌==◌, ◌&&◌, not, length, drop, slice_index, IfOk, OnOk};
ghost use Rattle.std.specs.List.{prefix_len};
ghost use Rattle.std.specs.Str.{IsUtf8, IsCharBoundary};
ghost use Rattle.std.specs.String.{string_bytes};
ghost use Rattle.markdown_values.specs.strings.Text.{cow_text};
ghost use Rattle.markdown_scanners_tree.specs.Ascii.{carriage_return, line_feed};
ghost use Rattle.markdown_events.specs.LineFeeds.{with_line_feeds};

use markdown_values::strings::CowStr;
use memchr::memchr;
use std::alloc::{AllocError, Global};

/// The text with each of its line endings written as a line feed. One without a carriage return is
/// handed back.
pub(crate) fn with_line_feeds<'a>(alloc: Global, text: CowStr<'a>) -> Result<CowStr<'a>, AllocError>
    ensures { IfOk result (λ ended. cow_text ended ≡ with_line_feeds (cow_text text.entry)) }
{
    let len = text.as_str().len();
    if before_return(text.as_str().as_bytes()) == len {
        return Ok(text);
    }
    ended(alloc, text.as_str())
}

// The same text, in memory of its own.
fn ended(alloc: Global, text: &str) -> Result<CowStr<'static>, AllocError>
    ensures { IfOk result (λ ended. cow_text ended ≡ with_line_feeds text.now) }
{
    let mut ended = String::with_capacity(alloc, text.len())?;
    push_lines(&mut ended, text)?;
    CowStr::from_string(alloc, ended)
}

// Appends a text with its line endings as line feeds.
fn push_lines(out: &mut String, text: &str) -> Result<(), AllocError>
    ensures { OnOk result
        (string_bytes out.new ≡ string_bytes out.old ++ with_line_feeds text.now) }
{
    let mut rest = text;
    while !rest.is_empty() {
        rest = push_line(out, rest)?;
    }
    Ok(())
}

// Appends what stands before the first carriage return, and a line feed for the line ending that is or
// begins there, and answers the text after it.
fn push_line<'a>(out: &mut String, text: &'a str) -> Result<&'a str, AllocError>
    requires { 0 < length text.now }
    ensures text { IfOk result (λ rest. string_bytes out.new ++ with_line_feeds rest.now
        ≡ string_bytes out.old ++ with_line_feeds text.now) }
    ensures shorter { IfOk result (λ rest. length rest.now < length text.now) }
{
    let len = before_return(text.as_bytes());
    out.push_str(&text[..len])?;
    let rest = &text[len..];
    if rest.is_empty() {
        return Ok(rest);
    }
    out.push('\n')?;
    Ok(&rest[return_len(rest.as_bytes())..])
}

// How many bytes stand before the first carriage return.
fn before_return(bytes: &[u8]) -> usize
    ensures { result ≡ prefix_len (λ b. not (b == carriage_return)) bytes.now }
{
    match memchr(b'\r', bytes) {
        Some(offset) => offset,
        None => bytes.len(),
    }
}

// The length of the line ending at the front, which is a carriage return or begins with one.
fn return_len(bytes: &[u8]) -> usize
    requires { slice_index bytes.now 0 ≡ carriage_return }
    ensures rest { with_line_feeds bytes.now ≡ line_feed ∷ with_line_feeds (drop result bytes.now) }
    ensures within { (1 ≤ result) × (result ≤ length bytes.now) }
    ensures cut { IsUtf8 bytes.now → IsCharBoundary bytes.now result }
{
    if begins_with_pair(bytes) { 2 } else { 1 }
}

// Whether CR LF stands at the front.
fn begins_with_pair(bytes: &[u8]) -> bool
    ensures { result ≡ (slice_index bytes.now 0 == carriage_return
        && slice_index bytes.now 1 == line_feed) }
{
    matches!(bytes, [b'\r', b'\n', ..])
}
