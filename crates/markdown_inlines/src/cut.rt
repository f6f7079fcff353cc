//! A text cut into its inlines. (CommonMark 0.31.2, chapter 6)
ghost use Rattle.std.specs.Prelude.{ℕ, Bool, List, ◌≡◌, ◌++◌, ◌∷◌, ◌<◌, ◌≤◌, ◌+◌, ◌*◌, ◌||◌, [], false, length, IfOk, OnOk};
ghost use Rattle.std.specs.Str.{IsCharBoundary};
ghost use Rattle.markdown_inlines.specs.Inlines.{IsCut, IsRead, IsPieceAt, text_between};
ghost use Rattle.markdown_inlines.specs.Marks.{ends_link};
ghost use Rattle.markdown_inlines.specs.Readings.{AreBefore, AreFree, IsKept, reading_of};
ghost use Rattle.markdown_inlines.specs.Searches.{Searched, bytes_searched, kind_searched};
ghost use Rattle.markdown_inlines.specs.Sources.{AreSources, AreLinkSources, IsSource};
ghost use Rattle.markdown_inlines.specs.Written.{have_runs, is_run, piece_of, pieces_of, written, written_as};

use crate::emphasis::Emphasis;
use crate::inlines::Inline;
use crate::links::{Labels, Links};
use crate::piece_scanner::PieceScanner;
use crate::pieces::{Piece, PieceKind};
use crate::reading::Reader;
use markdown_values::values::Extensions;
use std::alloc::{AllocError, Global};

/// A text cut into its pieces, and what they make together.
#[derive(Drop)]
pub struct Cut {
    /// The pieces, one after another: joined, they are the text.
    pub pieces: Vec<Piece>,
    /// Of each opener among them, in order, the link or image that it begins, if it begins one.
    pub links: Links,
    /// The emphasis: that of a link text where its link ends, and all other at the end. Each is in
    /// the order of `find_emphasis`.
    pub emphasis: Vec<Emphasis>,
    /// How many bytes the searches for the ends of code spans, comments, processing instructions,
    /// declarations and CDATA sections passed over.
    pub passed: u128,
}

/// Cuts the content of a block into its inlines, with the extensions that are asked for. The labels
/// say which links are defined.
///
/// The time is linear in the length of the text. Memory is asked for by the pieces, the links and
/// the emphasis, and by a label whose white space is not one space each.
///
/// # Errors
///
/// `AllocError` where that memory is refused.
pub fn cut_inlines<L: Labels>(
    alloc: Global,
    text: &str,
    labels: &L,
    extensions: Extensions,
) -> Result<Cut, AllocError>
    // It is cut as the definition has it.
    ensures cut { IfOk result (λ cut.
        IsCut text.now (record { asked = extensions; known = L.known labels.now })
        cut.pieces.items cut.links cut.emphasis.items) }

    // Each piece has some bytes of the text, which may be cut on both sides of it; joined, they are
    // the text.
    ensures sources { IfOk result (λ cut.
        AreSources text.now cut.pieces.items (length text.now)) }

    // The text may be cut on both sides of each part of a link.
    ensures links { IfOk result (λ cut. AreLinkSources text.now cut.links) }

    // The ends of code spans and raw HTML are searched for as the definition has it: however many
    // begin, at most ten bytes are passed over for each of the text.
    ensures passed { IfOk result (λ cut.
        cut.passed ≡ bytes_searched text.now cut.pieces.items) }
    ensures budget { IfOk result (λ cut. cut.passed ≤ 10 * length text.now) }
{
    let mut cut = CutBuffers::new(alloc);
    let mut strings = Vec::new(alloc);
    cut_within(alloc, &mut cut, &mut strings, text, labels, extensions)?;
    let pieces = pieces_of(alloc, &cut.inlines)?;
    let found = cut.reader;
    Ok(Cut {
        pieces,
        links: found.links,
        emphasis: found.emphasis,
        passed: cut.passed,
    })
}

// The pieces that these inlines were written for.
fn pieces_of(alloc: Global, inlines: &[Inline]) -> Result<Vec<Piece>, AllocError>
    ensures { IfOk result (λ pieces. pieces.items ≡ pieces_of inlines.now) }
{
    let mut pieces = Vec::with_capacity(alloc, inlines.len())?;
    for inline in inlines {
        pieces.push(piece_of(inline))?;
    }
    Ok(pieces)
}

// The piece that an inline was written for. All others are put in later.
fn piece_of(inline: &Inline) -> Piece
    ensures { result ≡ piece_of inline.now }
{
    match inline {
        Inline::Leaf(piece) => *piece,
        Inline::EndLink(piece) => *piece,
        _ => Piece {
            kind: PieceKind::Text,
            start: 0,
            end: 0,
        },
    }
}

// The memory that a text is cut in, with its cut at the end: the pieces are written as inlines, in which
// no link and no emphasis begins yet.
#[derive(Drop)]
pub(crate) struct CutBuffers {
    pub(crate) inlines: Vec<Inline>,
    pub(crate) reader: Reader,
    passed: u128,
}

impl CutBuffers {
    // Nothing is cut yet.
    pub(crate) fn new(alloc: Global) -> CutBuffers
        ensures inlines { result.inlines.items ≡ [] }
        ensures links { result.reader.links ≡ [] }
    {
        CutBuffers {
            inlines: Vec::new(alloc),
            reader: Reader::new(alloc),
            passed: 0,
        }
    }
}

// Cuts a text as `cut_inlines` does, and answers whether a delimiter run is among the pieces. Nothing
// depends on what is in the buffers, nor in the one for backtick strings.
pub(crate) fn cut_within<L: Labels>(
    alloc: Global,
    buffers: &mut CutBuffers,
    strings: &mut Vec<usize>,
    text: &str,
    labels: &L,
    extensions: Extensions,
) -> Result<bool, AllocError>
    ensures cut { OnOk result (
        IsCut text.now (record { asked = extensions; known = L.known labels.now })
        (pieces_of buffers.new.inlines.items) buffers.new.reader.links
        buffers.new.reader.emphasis.items) }
    ensures written { OnOk result (buffers.new.inlines.items
        ≡ written buffers.new.reader.links (pieces_of buffers.new.inlines.items)) }
    ensures runs { IfOk result (λ has_runs.
        has_runs ≡ have_runs (pieces_of buffers.new.inlines.items)) }
    ensures sources { OnOk result (
        AreSources text.now (pieces_of buffers.new.inlines.items) (length text.now)) }
    ensures links { OnOk result (AreLinkSources text.now buffers.new.reader.links) }
    ensures passed { OnOk result (buffers.new.passed
        ≡ bytes_searched text.now (pieces_of buffers.new.inlines.items)) }
    ensures budget { OnOk result (buffers.new.passed ≤ 10 * length text.now) }
{
    let mut scanner = PieceScanner::within(strings, text, extensions);
    buffers.reader.restart();
    buffers.inlines.clear();
    let mut has_runs = false;
    let mut offset = 0;
    while let Some(piece) = scanner.next(alloc)? {
        push_text(&mut buffers.inlines, offset, piece.start)?;
        has_runs = or_is_run(has_runs, &piece.kind);
        offset = read_piece(alloc, text, labels, extensions, buffers, piece)?;
        scanner.read_to(offset);
    }
    push_text(&mut buffers.inlines, offset, text.len())?;
    buffers.reader.finish(alloc)?;
    buffers.passed = scanner.passed();
    Ok(has_runs)
}

// Whether one more piece is a delimiter run, or one was before it.
fn or_is_run(has_runs: bool, kind: &PieceKind) -> bool
    ensures { result ≡ (has_runs || is_run kind.now) }
{
    has_runs || matches!(kind, PieceKind::Delimiters(_))
}

// Adds the text from one offset up to another, if there is any.
fn push_text(inlines: &mut Vec<Inline>, from: usize, to: usize) -> Result<(), AllocError>
    ensures { OnOk result (inlines.new.items
        ≡ inlines.old.items ++ written [] (text_between from to)) }
{
    if from < to {
        inlines.push(Inline::Leaf(Piece {
            kind: PieceKind::Text,
            start: from,
            end: to,
        }))?;
    }
    Ok(())
}

// Reads a piece that isn't text, and answers where it ends: after the link, if it ends one.
fn read_piece<L: Labels>(
    alloc: Global,
    text: &str,
    labels: &L,
    extensions: Extensions,
    buffers: &mut CutBuffers,
    piece: Piece,
) -> Result<usize, AllocError>
    requires here { IsPieceAt extensions text.now piece }
    requires source { IsSource text.now piece }
    requires before { AreBefore (reading_of text.now buffers.old.reader).openers piece.start }
    requires kept { IsKept (reading_of text.now buffers.old.reader) }
    requires free { AreFree buffers.old.reader.links
        (reading_of text.now buffers.old.reader).openers }
    requires new { ends_link buffers.old.reader.links piece.start ≡ false }
    ensures read { IfOk result (λ end. IsRead piece.kind
        (record { asked = extensions; known = L.known labels.now })
        (reading_of text.now buffers.old.reader) (record piece { end = end })
        (reading_of text.now buffers.new.reader)) }
    ensures written { IfOk result (λ end. buffers.new.inlines.items ≡ buffers.old.inlines.items
        ++ written_as piece.kind buffers.new.reader.links (record piece { end = end }) ∷ []) }
    ensures kept { OnOk result (IsKept (reading_of text.now buffers.new.reader)) }
    ensures searched { IfOk result (λ end. (text : List ℕ) (searched : Searched)
        → kind_searched piece.kind text piece.start end searched
        ≡ kind_searched piece.kind text piece.start piece.end searched) }
    ensures within { IfOk result (λ end. (piece.end ≤ end) × (end ≤ length text.now)) }
    ensures boundary { IfOk result (λ end. IsCharBoundary text.now end) }
{
    if !matches!(piece.kind, PieceKind::Closer) {
        buffers.reader.read(piece)?;
        buffers.inlines.push(Inline::Leaf(piece))?;
        return Ok(piece.end);
    }
    match buffers.reader.close(alloc, text, labels, piece)? {
        None => {
            buffers.inlines.push(Inline::Leaf(piece))?;
            Ok(piece.end)
        }
        Some(end) => {
            buffers
                .inlines
                .push(Inline::EndLink(Piece { end, ..piece }))?;
            Ok(end)
        }
    }
}
