//! What a `<` begins: autolinks and raw HTML. (CommonMark 0.31.2, sections 6.5 and 6.6)
ghost use Rattle.std.specs.Prelude.{ℕ, ◌≡◌, ◌+◌, ◌<◌, ◌≤◌, length, slice_index, IfSome, IfNone};
ghost use Rattle.markdown_scanners_tree.specs.Ascii.{less_than_sign};
ghost use Rattle.markdown_scanners_tree.specs.SomeExactly.{SomeExactly};
ghost use Rattle.markdown_values.specs.declared.values.extensions.Extensions.{Extensions};
ghost use Rattle.markdown_inlines.specs.Pieces.{BeginsAt, IsUriPiece, IsEmailPiece, IsTagPiece, IsHtmlPiece};
ghost use Rattle.markdown_inlines.specs.Searches.{IsSearchedTo, html_searched, kind_searched};

use crate::emails::scan_email_autolink_bytes;
use crate::pieces::PieceKind;
use crate::searches::Searches;
use markdown_scanners_tree::scanners::{scan_autolink_bytes, scan_html_block_inner};
use std::alloc::Global;

// What the `<` at the offset begins, and its length: an autolink, or else raw HTML.
pub(crate) fn angle_at(
    alloc: Global,
    bytes: &[u8],
    searches: &mut Searches,
    offset: usize,
) -> Option<(PieceKind, usize)>
    requires within { offset < length bytes.now }
    requires opens { slice_index bytes.now offset ≡ less_than_sign }
    requires same { searches.old.html.text ≡ bytes.now }
    requires searched { IsSearchedTo offset searches.old }
    ensures found { (asked : Extensions) (from : ℕ)
        → SomeExactly (λ r. BeginsAt asked bytes.now from offset r.0 r.1) result }
    ensures counts { IfSome result (λ r. searches.new
        ≡ kind_searched r.0 bytes.now offset (offset + r.1) searches.old) }
    ensures counts_text { IfNone result
        (searches.new ≡ html_searched bytes.now offset searches.old) }
    ensures text { searches.new.html.text ≡ searches.old.html.text }
    ensures stays { (q : ℕ) → offset < q → IfSome result (λ r. offset + r.1 ≤ q)
        → IsSearchedTo q searches.new }
{
    let rest = &bytes[offset..];
    if let Some(len) = uri_len(rest) {
        return Some((PieceKind::Uri, len));
    }
    if let Some(len) = email_len(rest) {
        return Some((PieceKind::Email, len));
    }
    match html_len(alloc, bytes, searches, offset) {
        Some(len) => Some((PieceKind::Html, len)),
        None => None,
    }
}

// The length of the absolute URI in angle brackets at the front, where a `<` stands.
fn uri_len(rest: &[u8]) -> Option<usize>
    requires within { 0 < length rest.now }
    requires opens { slice_index rest.now 0 ≡ less_than_sign }
    ensures found { SomeExactly (IsUriPiece rest.now) result }
{
    let len = scan_autolink_bytes(&rest[1..])?;
    Some(len + 2)
}

// The length of the email address in angle brackets at the front, where a `<` stands.
fn email_len(rest: &[u8]) -> Option<usize>
    requires within { 0 < length rest.now }
    requires opens { slice_index rest.now 0 ≡ less_than_sign }
    ensures found { SomeExactly (IsEmailPiece rest.now) result }
{
    let len = scan_email_autolink_bytes(&rest[1..])?;
    Some(len + 2)
}

// The length of the raw HTML at the offset, where a `<` stands.
fn html_len(alloc: Global, bytes: &[u8], searches: &mut Searches, offset: usize) -> Option<usize>
    requires within { offset < length bytes.now }
    requires opens { slice_index bytes.now offset ≡ less_than_sign }
    requires same { searches.old.html.text ≡ bytes.now }
    requires searched { IsSearchedTo offset searches.old }
    ensures found { SomeExactly (IsHtmlPiece bytes.now offset) result }
    ensures counts { searches.new ≡ html_searched bytes.now offset searches.old }
    ensures text { searches.new.html.text ≡ searches.old.html.text }
    ensures stays { (q : ℕ) → offset < q → IfSome result (λ n. offset + n ≤ q)
        → IsSearchedTo q searches.new }
{
    if let Some(end) = searches.html_end(offset) {
        return Some(end - offset);
    }
    tag_len(alloc, &bytes[offset..])
}

// The length of the tag at the front. Nothing is skipped in it, so no memory is asked for.
fn tag_len(alloc: Global, bytes: &[u8]) -> Option<usize>
    ensures found { SomeExactly (IsTagPiece bytes.now) result }
{
    let skips_nothing = |_rest: &[u8]| -> usize
        ensures { result ≡ 0 }
    { 0 };
    match scan_html_block_inner(alloc, bytes, Some(&skips_nothing)) {
        Ok(Some((_, len))) => Some(len),
        Ok(None) => None,
        Err(_) => None,
    }
}
