//! What begins at an offset of a text. (CommonMark 0.31.2, chapter 6)
ghost use Rattle.std.specs.Prelude.{ℕ, false, ◌≡◌, ◌≢◌, ◌⊎◌, ◌↔◌, ◌+◌, ◌-◌, ◌<◌, ◌≤◌, length, drop, slice_index, get_or, IfSome, IfNone, IfOk, OnErr, IsTrue};
ghost use Rattle.memchr.specs.Find.{occurs_at};
ghost use Rattle.markdown_scanners_tree.specs.Ascii.{ampersand, asterisk, backslash, backtick, tilde, underscore};
ghost use Rattle.markdown_scanners_tree.specs.SomeExactly.{SomeExactly};
ghost use Rattle.markdown_inlines.specs.Pieces.{BeginsAt, IsEscape};
ghost use Rattle.markdown_values.specs.declared.values.extensions.Extensions.{Extensions};
ghost use Rattle.markdown_inlines.specs.PieceBytes.{opens_break, opens_bracket, opens_long, run_length};
ghost use Rattle.markdown_inlines.specs.Searches.{IsSearchedTo, backticks_searched, kind_searched, text_searched};

use crate::angles::angle_at;
use crate::delimiter_runs::{scan_delimiter_run, scan_tilde_run};
use crate::line_breaks::scan_line_break;
use crate::pieces::PieceKind;
use crate::searches::Searches;
use crate::wiki_links::opener_len;
use html_entities::HtmlEntities;
use markdown_scanners_tree::scanners::{is_ascii_punctuation, scan_entity};
use markdown_values::values::Extensions;
use std::alloc::{AllocError, Global};

// The kind and the length of what begins at the offset, which stands within no backtick string.
#[inline(always)]
pub(crate) fn piece_at(
    alloc: Global,
    text: &str,
    extensions: Extensions,
    searches: &mut Searches,
    offset: usize,
) -> Result<Option<(PieceKind, usize)>, AllocError>
    requires within { offset < length text.now }
    requires same { searches.old.html.text ≡ text.now }
    requires searched { IsSearchedTo offset searches.old }
    ensures found { IfOk result (λ found. (from : ℕ)
        → (slice_index text.now offset ≡ backtick → from < offset
        → get_or text.now (offset - 1) 0 ≢ backtick)
        → SomeExactly (λ r. BeginsAt extensions text.now from offset r.0 r.1) found) }
    ensures counts { IfOk result (λ found. IfSome found (λ r. searches.new
        ≡ kind_searched r.0 text.now offset (offset + r.1) searches.old)) }
    ensures counts_text { IfOk result (λ found. IfNone found (searches.new
        ≡ text_searched text.now offset (run_length (drop offset text.now)) searches.old)) }
    ensures text { searches.new.html.text ≡ searches.old.html.text }
    ensures stays { IfOk result (λ found. (q : ℕ) → offset < q
        → IfSome found (λ r. offset + r.1 ≤ q)
        → IfNone found (offset + run_length (drop offset text.now) ≤ q)
        → IsSearchedTo q searches.new) }
    ensures refused { OnErr result (searches.new ≡ searches.old) }
{
    let bytes = text.as_bytes();
    match bytes[offset] {
        b'<' => Ok(angle_at(alloc, bytes, searches, offset)),
        b'`' => code_at(searches, offset),
        b'*' | b'_' => Ok(delimiters_at(text, offset)),
        b'~' => Ok(tildes_at(text, extensions, offset)),
        _ => Ok(short_piece_at(bytes, extensions, offset)),
    }
}

// What begins with a byte other than `<`, a backtick, a delimiter or a tilde.
#[inline(always)]
fn short_piece_at(bytes: &[u8], extensions: Extensions, offset: usize) -> Option<(PieceKind, usize)>
    requires within { offset < length bytes.now }
    requires short { opens_long (slice_index bytes.now offset) ≡ false }
    ensures found { (from : ℕ)
        → SomeExactly (λ r. BeginsAt extensions bytes.now from offset r.0 r.1) result }
{
    let byte = bytes[offset];
    if byte == b'\\' {
        escape_at(bytes, offset)
    } else if opens_break(byte) {
        break_at(bytes, offset)
    } else if opens_bracket(byte) {
        bracket_at(bytes, extensions, offset)
    } else if byte == b'&' {
        reference_at(bytes, offset)
    } else {
        None
    }
}

// Whether a line break may begin with the byte.
fn opens_break(byte: u8) -> bool
    ensures { result ≡ opens_break byte }
{
    matches!(byte, b'\\' | b' ' | b'\n' | b'\r')
}

// Whether the byte is a bracket, or the exclamation mark before one.
fn opens_bracket(byte: u8) -> bool
    ensures { result ≡ opens_bracket byte }
{
    matches!(byte, b'!' | b'[' | b']')
}

// The code span at the offset, where a backtick stands.
fn code_at(searches: &mut Searches, offset: usize) -> Result<Option<(PieceKind, usize)>, AllocError>
    requires within { offset < length searches.old.html.text }
    requires opens { slice_index searches.old.html.text offset ≡ backtick }
    requires searched { IsSearchedTo offset searches.old }
    ensures found { IfOk result (λ found. (asked : Extensions) (from : ℕ)
        → (from < offset → get_or searches.old.html.text (offset - 1) 0 ≢ backtick)
        → SomeExactly (λ r. BeginsAt asked searches.old.html.text from offset r.0 r.1) found) }
    ensures counts { IfOk result (λ found. IfSome found (λ r. searches.new
        ≡ kind_searched r.0 searches.old.html.text offset (offset + r.1) searches.old)) }
    ensures counts_text { IfOk result (λ found. IfNone found (searches.new
        ≡ backticks_searched searches.old.html.text offset
        (run_length (drop offset searches.old.html.text)) searches.old)) }
    ensures text { searches.new.html.text ≡ searches.old.html.text }
    ensures stays { IfOk result (λ found. (q : ℕ) → offset < q
        → IfSome found (λ r. offset + r.1 ≤ q)
        → IfNone found (offset + run_length (drop offset searches.old.html.text) ≤ q)
        → IsSearchedTo q searches.new) }
    ensures refused { OnErr result (searches.new ≡ searches.old) }
{
    match searches.code_span(offset)? {
        Some(span) => Ok(Some((PieceKind::Code(span.content.start), span.len))),
        None => Ok(None),
    }
}

// The delimiter run at the offset, where a delimiter stands.
fn delimiters_at(text: &str, offset: usize) -> Option<(PieceKind, usize)>
    requires within { offset < length text.now }
    requires opens { (slice_index text.now offset ≡ asterisk)
        ⊎ (slice_index text.now offset ≡ underscore) }
    ensures found { (asked : Extensions) (from : ℕ)
        → SomeExactly (λ r. BeginsAt asked text.now from offset r.0 r.1) result }
{
    let run = scan_delimiter_run(text, offset)?;
    Some((PieceKind::Delimiters(run), run.count))
}

// The run of tildes at the offset, where one stands, if strikethrough is asked for.
//
// It is not inlined: tildes are few, and other pieces take fewer instructions without it in their loop.
#[inline(never)]
fn tildes_at(text: &str, extensions: Extensions, offset: usize) -> Option<(PieceKind, usize)>
    requires within { offset < length text.now }
    requires opens { slice_index text.now offset ≡ tilde }
    ensures found { (from : ℕ)
        → SomeExactly (λ r. BeginsAt extensions text.now from offset r.0 r.1) result }
{
    if !extensions.strikethrough {
        return None;
    }
    let run = scan_tilde_run(text, offset)?;
    Some((PieceKind::Delimiters(run), run.count))
}

// The escape at the offset, where a backslash stands, or else the hard line break.
fn escape_at(bytes: &[u8], offset: usize) -> Option<(PieceKind, usize)>
    requires within { offset < length bytes.now }
    requires opens { slice_index bytes.now offset ≡ backslash }
    ensures found { (asked : Extensions) (from : ℕ)
        → SomeExactly (λ r. BeginsAt asked bytes.now from offset r.0 r.1) result }
{
    if is_escape(&bytes[offset..]) {
        Some((PieceKind::Escape, 2))
    } else {
        break_at(bytes, offset)
    }
}

// Whether an escape stands at the front.
fn is_escape(rest: &[u8]) -> bool
    ensures { IsTrue result ↔ IsEscape rest.now 2 }
{
    match rest {
        [b'\\', escaped, ..] => is_ascii_punctuation(*escaped),
        _ => false,
    }
}

// The line break at the offset, where no escape stands.
#[inline(always)]
fn break_at(bytes: &[u8], offset: usize) -> Option<(PieceKind, usize)>
    requires within { offset < length bytes.now }
    requires opens { IsTrue (opens_break (slice_index bytes.now offset)) }
    requires no_escape { ¬ IsEscape (drop offset bytes.now) 2 }
    ensures found { (asked : Extensions) (from : ℕ)
        → SomeExactly (λ r. BeginsAt asked bytes.now from offset r.0 r.1) result }
{
    let line_break = scan_line_break(&bytes[offset..])?;
    if line_break.is_hard {
        Some((PieceKind::HardBreak, line_break.len))
    } else {
        Some((PieceKind::SoftBreak, line_break.len))
    }
}

// The character reference at the offset, where an ampersand stands.
fn reference_at(bytes: &[u8], offset: usize) -> Option<(PieceKind, usize)>
    requires within { offset < length bytes.now }
    requires opens { slice_index bytes.now offset ≡ ampersand }
    ensures found { (asked : Extensions) (from : ℕ)
        → SomeExactly (λ r. BeginsAt asked bytes.now from offset r.0 r.1) result }
{
    let len = scan_entity(&bytes[offset..], &HtmlEntities).0;
    if len == 0 {
        return None;
    }
    Some((PieceKind::Reference, len))
}

// What a bracket at the offset begins, or an exclamation mark there.
fn bracket_at(bytes: &[u8], extensions: Extensions, offset: usize) -> Option<(PieceKind, usize)>
    requires within { offset < length bytes.now }
    requires opens { IsTrue (opens_bracket (slice_index bytes.now offset)) }
    ensures found { (from : ℕ)
        → SomeExactly (λ r. BeginsAt extensions bytes.now from offset r.0 r.1) result }
{
    if stands_at(bytes, offset, b"[") {
        Some((PieceKind::LinkOpener, opener_len(bytes, extensions, offset)))
    } else if stands_at(bytes, offset, b"![") {
        let len = 1 + opener_len(bytes, extensions, offset + 1);
        Some((PieceKind::ImageOpener, len))
    } else if stands_at(bytes, offset, b"]") {
        Some((PieceKind::Closer, 1))
    } else {
        None
    }
}

// Whether these bytes stand at the offset.
fn stands_at(bytes: &[u8], offset: usize, part: &[u8]) -> bool
    requires { offset < length bytes.now }
    ensures { result ≡ occurs_at bytes.now part.now offset }
{
    bytes[offset..].starts_with(part)
}
