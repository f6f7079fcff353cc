//! Where a link leads whose link text has been read. (CommonMark 0.31.2, section 6.3)
ghost use Rattle.std.specs.Prelude.{◌≡◌, ◌↔◌, ◌<◌, ◌≤◌, ◌+◌, ◌^◌, ℕ, List, length, drop, codes, true, Some, None, IsTrue};
ghost use Rattle.std.specs.Prelude.{IfOk, IfSome, IfNone, if◌then◌else◌};
ghost use Rattle.std.specs.Str.{IsUtf8, IsCharBoundary};
ghost use Rattle.memchr.specs.Find.{occurs_at};
ghost use Rattle.markdown_values.specs.strings.Text.{cow_text};
ghost use Rattle.markdown_scanners_tree.specs.SomeExactly.{SomeExactly};
ghost use Rattle.markdown_inlines.specs.LinkTails.{IsLinkTail};
ghost use Rattle.markdown_inlines.specs.Links.{IsTarget, IsLabelAt, IsKnownLabel, HasNoTail, HasNoLabelAfter, inline_target};
ghost use Rattle.markdown_inlines.specs.Sources.{IsTargetSource};
ghost use Rattle.markdown_inlines.specs.declared.link_tails.LinkTail.{LinkTail};
ghost use Rattle.markdown_inlines.specs.declared.links.LinkTarget.TheVariants.{Full};

use crate::link_tails::scan_link_tail;
use crate::links::{Labels, LinkTarget};
use crate::plain_labels::scan_plain_label;
use markdown_scanners_tree::linklabel::scan_link_label_rest;
use markdown_values::strings::CowStr;
use std::alloc::{AllocError, Global};
use std::ops::Range;

// How deep parentheses in a destination may nest below the outermost.
const MOST_NESTED: usize = 31;

// Where a link leads whose text stands from an offset up to the right bracket at another, and the offset after
// the link; none where it is no link.
pub(crate) fn scan_target<L: Labels>(
    alloc: Global,
    text: &str,
    labels: &L,
    from: usize,
    close: usize,
) -> Result<Option<(LinkTarget, usize)>, AllocError>
    requires from { IsCharBoundary text.now from }
    requires after { IsCharBoundary text.now (close + 1) }
    ensures found { IfOk result (λ found.
        SomeExactly (λ r. IsTarget text.now (L.known labels.now) from close r.0 r.1) found) }
    ensures within { IfOk result (λ found. IfSome found (λ r.
        (close < r.1) × (r.1 ≤ length text.now))) }
    ensures boundary { IfOk result (λ found. IfSome found (λ r. IsCharBoundary text.now r.1)) }
    ensures source { IfOk result (λ found. IfSome found (λ r. IsTargetSource text.now r.0)) }
{
    let after = close + 1;
    if let Some((target, end)) = scan_inline_target(text.as_bytes(), after) {
        return Ok(Some((target, end)));
    }
    match scan_label_after(alloc, text, after)? {
        Some((bracket, name)) => full_target(labels, after, bracket, name.as_str()),
        None => scan_reference(alloc, text, labels, from, close),
    }
}

// Where an inline link leads whose tail stands at an offset, and the offset after that.
fn scan_inline_target(bytes: &[u8], offset: usize) -> Option<(LinkTarget, usize)>
    requires { offset ≤ length bytes.now }
    ensures found { IfSome result (λ r. (tail : LinkTail)
        × IsLinkTail 32 (drop offset bytes.now) tail
        × (r.0 ≡ inline_target offset tail) × (r.1 ≡ offset + tail.len)) }
    ensures none { IfNone result (HasNoTail bytes.now offset) }
    ensures within { IfSome result (λ r. (offset ≤ r.1) × (r.1 ≤ length bytes.now)) }
    ensures boundary { IfSome result (λ r. IsUtf8 bytes.now → IsCharBoundary bytes.now offset
        → IsCharBoundary bytes.now r.1) }
    ensures source { IfSome result (λ r. IsUtf8 bytes.now → IsCharBoundary bytes.now offset
        → IsTargetSource bytes.now r.0) }
{
    let tail = scan_link_tail(&bytes[offset..], MOST_NESTED)?;
    let title = match tail.title {
        Some(title) => Some(offset + title.start..offset + title.end),
        None => None,
    };
    let destination = offset + tail.destination.start..offset + tail.destination.end;
    Some((LinkTarget::Inline(destination, title), offset + tail.len))
}

// Where a full reference link leads whose label stands from its left bracket at an offset up to its right
// bracket at another, and the offset after that.
fn full_target<L: Labels>(
    labels: &L,
    start: usize,
    bracket: usize,
    name: &str,
) -> Result<Option<(LinkTarget, usize)>, AllocError>
    requires { bracket + 1 < 2 ^ 64 }
    ensures { IfOk result (λ found. found ≡ (if L.known labels.now name.now
        then Some (Full (record { start = start; end = bracket + 1 }), bracket + 1) else None)) }
{
    if labels.is_defined(name)? {
        Ok(Some((LinkTarget::Full(start..bracket + 1), bracket + 1)))
    } else {
        Ok(None)
    }
}

// Where a collapsed or a shortcut reference link leads, which no tail and no label follows, and the offset
// after it.
fn scan_reference<L: Labels>(
    alloc: Global,
    text: &str,
    labels: &L,
    from: usize,
    close: usize,
) -> Result<Option<(LinkTarget, usize)>, AllocError>
    requires from { IsCharBoundary text.now from }
    requires after { IsCharBoundary text.now (close + 1) }
    ensures found { IfOk result (λ found. HasNoTail text.now (close + 1)
        → HasNoLabelAfter text.now (close + 1)
        → SomeExactly (λ r. IsTarget text.now (L.known labels.now) from close r.0 r.1) found) }
    ensures within { IfOk result (λ found. IfSome found (λ r.
        (close < r.1) × (r.1 ≤ length text.now))) }
    ensures boundary { IfOk result (λ found. IfSome found (λ r. IsCharBoundary text.now r.1)) }
    ensures source { IfOk result (λ found. IfSome found (λ r. IsTargetSource text.now r.0)) }
{
    if !is_known(alloc, text, labels, from, close)? {
        return Ok(None);
    }
    let (_, after) = text.split_at(close + 1);
    if after.as_bytes().starts_with(b"[]") {
        Ok(Some((LinkTarget::Collapsed, close + 3)))
    } else {
        Ok(Some((LinkTarget::Shortcut, close + 1)))
    }
}

// Whether what stands from an offset up to the right bracket at another is a label that is defined.
fn is_known<L: Labels>(
    alloc: Global,
    text: &str,
    labels: &L,
    from: usize,
    close: usize,
) -> Result<bool, AllocError>
    requires { IsCharBoundary text.now from }
    ensures { IfOk result (λ known.
        IsTrue known ↔ IsKnownLabel text.now (L.known labels.now) from close) }
{
    match scan_label(alloc, text, from)? {
        Some((end, name)) if end == close => labels.is_defined(name.as_str()),
        _ => Ok(false),
    }
}

// The label whose left bracket stands at an offset: the offset of its right bracket, and its text.
fn scan_label_after<'t>(
    alloc: Global,
    text: &'t str,
    offset: usize,
) -> Result<Option<(usize, CowStr<'t>)>, AllocError>
    requires { IsCharBoundary text.now offset }
    ensures found { IfOk result (λ found. IfSome found (λ r.
        (occurs_at text.entry.now (codes "[") offset ≡ true)
        × IsLabelAt text.entry.now (offset + 1) r.0 (cow_text r.1))) }
    ensures none { IfOk result (λ found. IfNone found (HasNoLabelAfter text.entry.now offset)) }
    ensures within { IfOk result (λ found. IfSome found (λ r.
        (offset < r.0) × (r.0 < length text.entry.now))) }
    ensures boundary { IfOk result (λ found. IfSome found (λ r.
        IsCharBoundary text.entry.now (r.0 + 1))) }
{
    let (_, rest) = text.split_at(offset);
    if !rest.as_bytes().starts_with(b"[") {
        return Ok(None);
    }
    scan_label(alloc, text, offset + 1)
}

/// The label that stands in a text from an offset, before which its left bracket is, up to its right
/// bracket: the offset of that, and the label's text.
///
/// The text is a part of the given one, unless its white space is not one space each.
///
/// # Errors
///
/// `AllocError` where memory for such a text is refused.
pub fn scan_label<'t>(
    alloc: Global,
    text: &'t str,
    from: usize,
) -> Result<Option<(usize, CowStr<'t>)>, AllocError>
    requires { IsCharBoundary text.now from }

    // The one label that stands there is answered.
    ensures found { IfOk result (λ found. IfSome found (λ r.
        IsLabelAt text.entry.now from r.0 (cow_text r.1))) }
    ensures none { IfOk result (λ found. IfNone found ((close : ℕ) (name : List ℕ)
        → ¬ IsLabelAt text.entry.now from close name)) }

    // Its bracket is in the text, which may be cut after it.
    ensures within { IfOk result (λ found. IfSome found (λ r.
        (from ≤ r.0) × (r.0 < length text.entry.now))) }
    ensures boundary { IfOk result (λ found. IfSome found (λ r.
        IsCharBoundary text.entry.now (r.0 + 1))) }
{
    let (_, rest) = text.split_at(from);
    match scan_plain_label(rest.as_bytes()) {
        Some(len) => Ok(Some((from + len, CowStr::from(&rest[..len])))),
        None => scan_any_label(alloc, text, from),
    }
}

// The same, however the label is written. It is not inlined, so that most labels cost less.
#[inline(never)]
fn scan_any_label<'t>(
    alloc: Global,
    text: &'t str,
    from: usize,
) -> Result<Option<(usize, CowStr<'t>)>, AllocError>
    requires { IsCharBoundary text.now from }
    ensures found { IfOk result (λ found. IfSome found (λ r.
        IsLabelAt text.entry.now from r.0 (cow_text r.1))) }
    ensures none { IfOk result (λ found. IfNone found ((close : ℕ) (name : List ℕ)
        → ¬ IsLabelAt text.entry.now from close name)) }
    ensures within { IfOk result (λ found. IfSome found (λ r.
        (from ≤ r.0) × (r.0 < length text.entry.now))) }
    ensures boundary { IfOk result (λ found. IfSome found (λ r.
        IsCharBoundary text.entry.now (r.0 + 1))) }
{
    let skips_nothing = |_rest: &[u8]| -> Option<usize>
        ensures { result ≡ Some 0 }
    { Some(0) };
    let (_, rest) = text.split_at(from);
    match scan_link_label_rest(alloc, rest, &skips_nothing, false)? {
        Some((len, name)) => Ok(Some((from + len - 1, name))),
        None => Ok(None),
    }
}
