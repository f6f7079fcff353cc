//! Looking for the pieces of a text, from left to right.
ghost use Rattle.std.specs.Prelude.{ℕ, ◌≡◌, ◌≢◌, ◌+◌, ◌-◌, ◌*◌, ◌<◌, ◌≤◌, length, take, drop, get_or, IfOk, OnErr, IfSome, IfNone};
ghost use Rattle.std.specs.Str.{IsCharBoundary};
ghost use Rattle.std.specs.List.{prefix_len};
ghost use Rattle.markdown_scanners_tree.specs.Ascii.{backtick, space};
ghost use Rattle.markdown_scanners_tree.specs.Bytes.{begins_with, is_line_ending};
ghost use Rattle.markdown_inlines.specs.Pieces.{BeginsAt, ReadText, IsNext, HasOnlyText};
ghost use Rattle.markdown_inlines.specs.PieceBytes.{is_plain_or_space, plain_length, run_length};
ghost use Rattle.markdown_inlines.specs.Searches.{Searched, IsSearchedTo, bytes_passed, next_searched, text_searched, unsearched};
ghost use Rattle.markdown_values.specs.declared.values.extensions.Extensions.{Extensions};
ghost use Rattle.markdown_inlines.specs.declared.pieces.PieceKind.{PieceKind};

use crate::piece_at::piece_at;
use crate::pieces::Piece;
use crate::searches::Searches;
use markdown_scanners_tree::byte_sets::ByteSet;
use markdown_scanners_tree::scanners::scan_ch_repeat;
use markdown_values::values::Extensions;
use std::alloc::{AllocError, Global};
use std::marker::Model;

// The bytes that are neither plain nor a space.
const NEITHER_PLAIN_NOR_SPACE: ByteSet = ByteSet {
    low: [16, 2, 0, 0, 0, 0, 2, 0, 0, 0, 3, 8, 12, 9, 32, 8],
    high: [1, 0, 2, 4, 0, 8, 16, 32, 0, 0, 0, 0, 0, 0, 0, 0],
};

// A text with its extensions, the offset up to which it has been read, and the searches for the ends of code spans and HTML.
#[derive(Drop)]
pub(crate) struct PieceScanner<'a> {
    text: &'a str,
    extensions: Extensions,
    offset: usize,
    searches: Searches<'a>,
}

impl<'a> Model for PieceScanner<'a> {
    ghost Value = { ReadText };

    ghost view = { λ s. record {
      text = s.text.now;
      asked = s.extensions;
      offset = s.offset;
      searched = s.searches;
    } };

    ghost invariant = { λ s. (s.searches.html.text ≡ s.text.now) × (s.offset ≤ length s.text.now)
        × IsSearchedTo s.offset s.searches };
}

impl<'a> PieceScanner<'a> {
    // Nothing is read. Nothing depends on what is in the buffer.
    pub(crate) fn within(
        buffer: &'a mut Vec<usize>,
        text: &'a str,
        extensions: Extensions,
    ) -> PieceScanner<'a>
        ensures start { result ≡ record {
          text = text.now;
          asked = extensions;
          offset = 0;
          searched = unsearched text.now;
        } }
    {
        PieceScanner {
            text,
            extensions,
            offset: 0,
            searches: Searches::within(buffer, text.as_bytes()),
        }
    }

    // The offset up to which the text has been read.
    pub(crate) fn offset(&self) -> usize
        ensures offset { result ≡ self.now.offset }
        ensures within { result ≤ length self.now.text }
    {
        self.offset
    }

    // How many bytes the searches for the ends of code spans and HTML passed over.
    pub(crate) fn passed(&self) -> u128
        ensures value { result ≡ bytes_passed self.now.searched }
        ensures budget { result ≤ 10 * length self.now.text }
    {
        self.searches.passed()
    }

    // Reads up to a later offset.
    pub(crate) fn read_to(&mut self, offset: usize)
        requires later { self.old.offset ≤ offset }
        requires within { offset ≤ length self.old.text }
        ensures { self.new ≡ record self.old { offset = offset } }
    {
        self.offset = offset;
    }

    // Reads up to the end of the next piece that isn't text, or to the end of the text where there
    // is none. Memory is asked for as by `Searches::code_span`.
    #[inline(always)]
    pub(crate) fn next(&mut self, alloc: Global) -> Result<Option<Piece>, AllocError>
        // The next piece is answered, and the text is read up to its end.
        ensures found { IfOk result (λ found.
            IfSome found (IsNext self.old.asked self.old.text self.old.offset)) }
        ensures read { IfOk result (λ found. IfSome found (λ piece.
            self.new ≡ record self.old {
              offset = piece.end;
              searched = next_searched self.old.text self.old.offset piece self.old.searched;
            })) }

        // It is part of the text, which may be cut on both sides of it.
        ensures within { IfOk result (λ found. IfSome found (λ piece. (piece.start < piece.end)
            × (piece.end ≤ length self.old.text))) }
        ensures boundary { IfOk result (λ found. IfSome found (λ piece.
            IsCharBoundary self.old.text piece.start × IsCharBoundary self.old.text piece.end)) }

        // Else all that is left is text.
        ensures none { IfOk result (λ found. IfNone found
            (HasOnlyText self.old.asked self.old.text self.old.offset (length self.old.text))) }
        ensures all { IfOk result (λ found. IfNone found
            (self.new ≡ record self.old {
              offset = length self.old.text;
              searched = text_searched self.old.text self.old.offset
                  (length self.old.text - self.old.offset) self.old.searched;
            })) }
    {
        let piece = next_piece(
            alloc,
            self.text,
            self.extensions,
            &mut self.searches,
            self.offset,
        );
        self.offset = match &piece {
            Ok(Some(piece)) => piece.end,
            _ => self.text.len(),
        };
        piece
    }
}

// The next piece from an offset on that isn't text.
#[inline(always)]
fn next_piece(
    alloc: Global,
    text: &str,
    extensions: Extensions,
    searches: &mut Searches,
    from: usize,
) -> Result<Option<Piece>, AllocError>
    requires within { from ≤ length text.now }
    requires same { searches.old.html.text ≡ text.now }
    requires searched { IsSearchedTo from searches.old }
    ensures found { IfOk result (λ found. IfSome found (IsNext extensions text.now from)) }
    ensures within { IfOk result (λ found. IfSome found (λ piece. (piece.start < piece.end)
        × (piece.end ≤ length text.now))) }
    ensures boundary { IfOk result (λ found. IfSome found (λ piece.
        IsCharBoundary text.now piece.start × IsCharBoundary text.now piece.end)) }
    ensures none { IfOk result (λ found.
        IfNone found (HasOnlyText extensions text.now from (length text.now))) }
    ensures counts { IfOk result (λ found. IfSome found (λ piece.
        searches.new ≡ next_searched text.now from piece searches.old)) }
    ensures counts_text { IfOk result (λ found. IfNone found
        (searches.new ≡ text_searched text.now from (length text.now - from) searches.old)) }
    ensures text { searches.new.html.text ≡ searches.old.html.text }
    ensures searched { IfOk result (λ found.
        IfSome found (λ piece. IsSearchedTo piece.end searches.new)) }
    ensures searched_all { IfOk result (λ found.
        IfNone found (IsSearchedTo (length text.now) searches.new)) }
    ensures refused { OnErr result (IsSearchedTo (length text.now) searches.new) }
{
    let bytes = text.as_bytes();
    let mut offset = from + plain_len(&bytes[from..]);
    while offset < bytes.len() {
        let found = piece_at(alloc, text, extensions, searches, offset)?;
        if let Some((kind, len)) = found {
            return Ok(Some(Piece {
                kind,
                start: offset,
                end: offset + len,
            }));
        }
        offset = past_text(bytes, offset);
    }
    Ok(None)
}

// The next offset at which a piece may begin, after one at which none does.
fn past_text(bytes: &[u8], offset: usize) -> usize
    requires within { offset < length bytes.now }
    ensures later { offset < result }
    ensures within { result ≤ length bytes.now }
    ensures text { (asked : Extensions) (from : ℕ) → from ≤ offset
        → HasOnlyText asked bytes.now from offset
        → ((kind : PieceKind) (len : ℕ) → ¬ BeginsAt asked bytes.now from offset kind len)
        → HasOnlyText asked bytes.now from result }
    ensures apart { get_or bytes.now result 0 ≡ backtick
        → get_or bytes.now (result - 1) 0 ≢ backtick }
    ensures unsearched { (before : Searched)
        → text_searched bytes.now offset (result - offset) before
        ≡ text_searched bytes.now offset (run_length (drop offset bytes.now)) before }
    ensures past_run { offset + run_length (drop offset bytes.now) ≤ result }
{
    let next = offset + run_len(&bytes[offset..]);
    next + plain_len(&bytes[next..])
}

// How many bytes of a backtick string or of a run of spaces stand at the front, or 1 for another
// byte.
fn run_len(rest: &[u8]) -> usize
    requires some { 0 < length rest.now }
    ensures run { result ≡ run_length rest.now }
    ensures within { (0 < result) × (result ≤ length rest.now) }
{
    match rest[0] {
        b'`' => scan_ch_repeat(rest, b'`'),
        b' ' => scan_ch_repeat(rest, b' '),
        _ => 1,
    }
}

// How many bytes at the front begin nothing but text.
fn plain_len(bytes: &[u8]) -> usize
    ensures count { result ≡ plain_length bytes.now }
    ensures within { result ≤ length bytes.now }
{
    let end = spaced_len(bytes);
    if is_at_ending(&bytes[end..]) {
        trimmed_len(&bytes[..end])
    } else {
        end
    }
}

// How many bytes at the front are plain or spaces.
fn spaced_len(bytes: &[u8]) -> usize
    ensures count { result ≡ prefix_len is_plain_or_space bytes.now }
    ensures within { result ≤ length bytes.now }
{
    NEITHER_PLAIN_NOR_SPACE.len_outside(bytes)
}

// Whether a line ending stands at the front.
fn is_at_ending(bytes: &[u8]) -> bool
    ensures { result ≡ begins_with is_line_ending bytes.now }
{
    matches!(bytes, [b'\n' | b'\r', ..])
}

// How many bytes are left without the spaces at the end.
fn trimmed_len(bytes: &[u8]) -> usize
    ensures spaces { (k : ℕ) → result ≤ k → k < length bytes.now → get_or bytes.now k 0 ≡ space }
    ensures last { 0 < result → get_or bytes.now (result - 1) 0 ≢ space }
    ensures within { result ≤ length bytes.now }
{
    let mut len = bytes.len();
    while len > 0 {
        if bytes[len - 1] != b' ' {
            return len;
        }
        len -= 1;
    }
    0
}
