//! Wikilinks, an extension. (Obsidian's internal links)
ghost use Rattle.std.specs.Prelude.{◌≡◌, ◌+◌, ◌<◌, ◌≤◌, length, codes, true, IfSome};
ghost use Rattle.std.specs.List.{prefix_len};
ghost use Rattle.std.specs.Str.{IsUtf8, IsCharBoundary};
ghost use Rattle.memchr.specs.Find.{occurs_at};
ghost use Rattle.markdown_scanners_tree.specs.SomeExactly.{SomeExactly};
ghost use Rattle.markdown_inlines.specs.Inlines.{IsWikiTarget};
ghost use Rattle.markdown_inlines.specs.Sources.{IsTargetSource};
ghost use Rattle.markdown_inlines.specs.WikiLinks.{is_target_byte, IsHead, IsOpenerEnd};

use crate::links::LinkTarget;
use markdown_values::values::Extensions;
use std::ops::Range;

// How long an opener is from its left bracket on, which stands at the offset.
pub(crate) fn opener_len(bytes: &[u8], extensions: Extensions, offset: usize) -> usize
    requires { offset < length bytes.now }
    ensures ends { IsOpenerEnd extensions bytes.now offset (offset + result) }
    ensures within { (0 < result) × (offset + result ≤ length bytes.now) }
{
    if !extensions.wikilinks {
        return 1;
    }
    match scan_head(bytes, offset) {
        Some((_, end)) => end - offset,
        None => 1,
    }
}

// Where a wikilink leads whose left brackets stand at an offset, and its link text from another to a
// right bracket, and the offset after the link.
pub(crate) fn scan_wiki_target(
    bytes: &[u8],
    offset: usize,
    from: usize,
    close: usize,
) -> Option<(LinkTarget, usize)>
    requires offset { offset ≤ length bytes.now }
    requires close { close ≤ length bytes.now }
    ensures found { SomeExactly (λ r. IsWikiTarget bytes.now offset from close r.0 r.1) result }
    ensures within { IfSome result (λ r. (close < r.1) × (r.1 ≤ length bytes.now)) }
    ensures boundary { IfSome result (λ r. IsUtf8 bytes.now → IsCharBoundary bytes.now r.1) }
    ensures source { IfSome result (λ r. IsUtf8 bytes.now → IsTargetSource bytes.now r.0) }
{
    let (target, head_end) = scan_head(bytes, offset)?;
    if head_end == from && bytes[close..].starts_with(b"]]") {
        Some((LinkTarget::Wiki(target), close + 2))
    } else {
        None
    }
}

// The head of a wikilink at the offset: where its target stands, and the offset after the head.
fn scan_head(bytes: &[u8], offset: usize) -> Option<(Range<usize>, usize)>
    requires { offset ≤ length bytes.now }
    ensures found { SomeExactly (λ r. IsHead bytes.now offset r.0 r.1) result }
    ensures within { IfSome result (λ r. (offset < r.1) × (r.1 ≤ length bytes.now)) }
{
    if !bytes[offset..].starts_with(b"[[") {
        return None;
    }
    let start = offset + 2;
    let end = start + target_len(&bytes[start..]);
    if start == end {
        None
    } else if bytes[end..].starts_with(b"|") {
        Some((start..end, end + 1))
    } else if bytes[end..].starts_with(b"]]") {
        Some((start..end, end))
    } else {
        None
    }
}

// How many bytes of a target stand at the front.
fn target_len(bytes: &[u8]) -> usize
    ensures count { result ≡ prefix_len is_target_byte bytes.now }
    ensures within { result ≤ length bytes.now }
{
    let mut rest = bytes;
    while let [byte, after @ ..] = rest {
        if !is_target_byte(*byte) {
            break;
        }
        rest = after;
    }
    bytes.len() - rest.len()
}

// Whether the byte may stand in a target.
fn is_target_byte(byte: u8) -> bool
    ensures { result ≡ is_target_byte byte }
{
    !matches!(byte, b'[' | b']' | b'|' | b'\n' | b'\r')
}
