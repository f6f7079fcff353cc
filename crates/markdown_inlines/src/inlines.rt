//! The inlines of a text in order: what begins, what ends, and what stands between. (CommonMark
//! 0.31.2, chapter 6)
ghost use Rattle.std.specs.Prelude.{◌≡◌, ◌++◌, ◌<◌, ◌≤◌, ◌+◌, ◌^◌, List, Option, length, IfOk, OnOk, OnErr};
ghost use Rattle.std.specs.List.{All, flat_map};
ghost use Rattle.markdown_inlines.specs.Marks.{AreMarks};
ghost use Rattle.markdown_inlines.specs.Nesting.{Nest, StandFrom};
ghost use Rattle.markdown_inlines.specs.Output.{AreInlines, delimiters_between, delimiter_with, none_found};
ghost use Rattle.markdown_inlines.specs.Sources.{AreLinkSources};
ghost use Rattle.markdown_inlines.specs.Written.{IsWithin, counted_in, is_opener, spread, spread_as, started, with_starts};

use crate::cut::{CutBuffers, cut_within};
use crate::emphasis::Emphasis;
use crate::links::{Labels, Links};
use crate::long_texts::give_back;
use crate::marks::{Mark, put_marks};
use crate::pieces::{Piece, PieceKind};
use markdown_values::values::Extensions;
use std::alloc::{AllocError, Global};
use std::marker::Model;
use std::mem;

/// An inline of a text, or where one that holds others begins or ends.
#[derive(Clone, Copy, Debug, PartialEq, Eq)]
pub enum Inline {
    /// A piece that holds no others. A bracket that is part of no link is text, and so is a
    /// delimiter in no emphasis, which has a piece of its own.
    Leaf(Piece),
    /// At this offset emphasis begins with one delimiter, or strong emphasis with two.
    StartEmphasis(usize, usize),
    /// At this offset it ends with as many.
    EndEmphasis(usize, usize),
    /// At this offset strikethrough begins with one tilde or two.
    StartStrikethrough(usize, usize),
    /// At this offset it ends with as many.
    EndStrikethrough(usize, usize),
    /// The link or image begins that has this number among `Inlines::links`.
    StartLink(usize),
    /// The innermost link or image that has begun ends with this piece.
    EndLink(Piece),
}

/// The inlines of a text, and its links.
#[derive(Drop)]
pub struct Inlines {
    /// The inlines, in the order of the text.
    pub inlines: Vec<Inline>,
    /// Of each bracket that may begin a link or image, in order, the one that it begins, if it
    /// begins one.
    pub links: Links,
}

/// The inlines of the content of a block, with the extensions that are asked for. The labels say
/// which links are defined.
///
/// The time is linear in the length of the text. Memory is asked for by the inlines, the links and
/// the emphasis, by one byte for each of a text with delimiter runs, and by a label whose white
/// space is not one space each.
///
/// # Errors
///
/// `AllocError` where that memory is refused.
pub fn find_inlines<L: Labels>(
    alloc: Global,
    text: &str,
    labels: &L,
    extensions: Extensions,
) -> Result<Inlines, AllocError>
    ensures inlines { IfOk result (λ r.
        AreInlines text.now (record { asked = extensions; known = L.known labels.now })
        r.inlines.items r.links) }

    // What begins ends, the innermost first.
    ensures nested { IfOk result (λ r. Nest r.links r.inlines.items) }

    // Each inline begins where the one before it ends, and all together are the text.
    ensures sources { IfOk result (λ r.
        StandFrom r.links 0 r.inlines.items (length text.now)) }

    // The text may be cut on both sides of each part of a link.
    ensures links { IfOk result (λ r. AreLinkSources text.now r.links) }
{
    let mut finder = InlineFinder::new(alloc);
    finder.find(alloc, text, labels, extensions)?;
    Ok(finder.into_inlines())
}

/// Finds the inlines of one text after another, in memory that it uses again: a parser that goes
/// from block to block makes one.
#[derive(Drop)]
pub struct InlineFinder {
    cut: CutBuffers,
    // Where the searches for the ends of code spans keep backtick strings.
    strings: Vec<usize>,
    marks: Vec<Mark>,
    // Where the inlines of a text with delimiter runs are put in.
    spare: Vec<Inline>,
}

impl Model for InlineFinder {
    ghost use Rattle.markdown_inlines.specs.Output.{FoundInlines};

    ghost Value = { FoundInlines };

    ghost view = { λ f. record { inlines = f.cut.inlines.items; links = f.cut.reader.links } };
}

impl InlineFinder {
    /// Nothing is found yet. No memory is asked for.
    pub fn new(alloc: Global) -> InlineFinder
        ensures { result ≡ none_found }
    {
        InlineFinder {
            cut: CutBuffers::new(alloc),
            strings: Vec::new(alloc),
            marks: Vec::new(alloc),
            spare: Vec::new(alloc),
        }
    }

    /// Finds what `find_inlines` does, whatever has been found before. `inlines` and `links` lend
    /// it.
    ///
    /// The time is linear in the length of the text. Memory is asked for as by `find_inlines`, but
    /// only where that of the texts before is too little.
    ///
    /// # Errors
    ///
    /// `AllocError` where that memory is refused. The finder may be used again.
    pub fn find<L: Labels>(
        &mut self,
        alloc: Global,
        text: &str,
        labels: &L,
        extensions: Extensions,
    ) -> Result<(), AllocError>
        ensures inlines { OnOk result (
            AreInlines text.now (record { asked = extensions; known = L.known labels.now })
            self.new.inlines self.new.links) }

        // What begins ends, the innermost first.
        ensures nested { OnOk result (Nest self.new.links self.new.inlines) }

        // Each inline begins where the one before it ends, and all together are the text.
        ensures sources { OnOk result (
            StandFrom self.new.links 0 self.new.inlines (length text.now)) }

        // The text may be cut on both sides of each part of a link.
        ensures links { OnOk result (AreLinkSources text.now self.new.links) }

        // After a refusal nothing is found.
        ensures refused { OnErr result (self.new ≡ none_found) }
    {
        if let Err(refused) = self.put_all(alloc, text, labels, extensions) {
            self.forget();
            return Err(refused);
        }
        Ok(())
    }

    // Puts in what is found in a text.
    fn put_all<L: Labels>(
        &mut self,
        alloc: Global,
        text: &str,
        labels: &L,
        extensions: Extensions,
    ) -> Result<(), AllocError>
        ensures inlines { OnOk result (
            AreInlines text.now (record { asked = extensions; known = L.known labels.now })
            self.new.inlines self.new.links) }
        ensures links { OnOk result (AreLinkSources text.now self.new.links) }
    {
        let has_runs = cut_within(
            alloc,
            &mut self.cut,
            &mut self.strings,
            text,
            labels,
            extensions,
        )?;
        put_starts(&mut self.cut.inlines, &self.cut.reader.links);
        if !has_runs {
            return Ok(());
        }
        put_delimiters(
            alloc,
            &mut self.cut.inlines,
            &mut self.spare,
            &mut self.marks,
            &self.cut.reader.emphasis,
            text.len(),
        )?;
        Ok(())
    }

    // Nothing is found.
    fn forget(&mut self)
        ensures { self.new ≡ none_found }
    {
        self.cut.inlines.clear();
        self.cut.reader.links.clear();
    }

    /// The inlines of the last text, as in `Inlines::inlines`.
    pub fn inlines(&self) -> &[Inline]
        ensures { result.now ≡ self.now.inlines }
    {
        &self.cut.inlines
    }

    /// Its links, as in `Inlines::links`.
    pub fn links(&self) -> &Links
        ensures { result.now ≡ self.now.links }
    {
        &self.cut.reader.links
    }

    // What has been found, without the memory for more.
    fn into_inlines(self) -> Inlines
        ensures inlines { result.inlines.items ≡ self.inlines }
        ensures links { result.links ≡ self.links }
    {
        let InlineFinder { cut, .. } = self;
        let CutBuffers {
            inlines,
            reader,
            ..
        } = cut;
        Inlines {
            inlines,
            links: reader.links,
        }
    }
}

// Puts in the starts of the links.
fn put_starts(inlines: &mut [Inline], links: &Links)
    ensures { inlines.new ≡ with_starts links.now 0 inlines.old }
{
    if links.is_empty() {
        return;
    }
    let mut number = 0;
    for inline in inlines.iter_mut() {
        number = put_start(inline, links, number);
    }
}

// Makes an opener with this number the start of its link, if it begins one, and answers the number of
// the next one.
fn put_start(inline: &mut Inline, links: &Links, number: usize) -> usize
    requires { number + 1 < 2 ^ 64 }
    ensures inline { inline.new ≡ started links.now number inline.old }
    ensures next { result ≡ counted_in inline.old number }
{
    if !is_opener(inline) {
        return number;
    }
    if links.get(number).is_some() {
        *inline = Inline::StartLink(number);
    }
    number + 1
}

// Whether a bracket may begin a link or an image.
fn is_opener(inline: &Inline) -> bool
    ensures { result ≡ is_opener inline.now }
{
    match inline {
        Inline::Leaf(piece) => {
            matches!(piece.kind, PieceKind::LinkOpener | PieceKind::ImageOpener)
        }
        _ => false,
    }
}

// Puts in the delimiters of the runs of a text of this length and emphasis. Nothing depends on what is
// in the spare memory, which is given back if the text is long, as that of the marks is.
fn put_delimiters(
    alloc: Global,
    inlines: &mut Vec<Inline>,
    spare: &mut Vec<Inline>,
    marks: &mut Vec<Mark>,
    emphasis: &[Emphasis],
    len: usize,
) -> Result<(), AllocError>
    requires { All (IsWithin len) inlines.old.items }
    ensures { OnOk result (inlines.new.items
        ≡ flat_map (spread emphasis.now) inlines.old.items) }
{
    put_marks(marks, len, emphasis)?;
    spare.clear();
    push_spread(spare, inlines, marks)?;
    mem::swap(inlines, spare);
    give_back(alloc, spare);
    give_back(alloc, marks);
    Ok(())
}

// Adds these inlines with the delimiters of their runs.
fn push_spread(out: &mut Vec<Inline>, inlines: &[Inline], marks: &[Mark]) -> Result<(), AllocError>
    requires { All (IsWithin (length marks.now)) inlines.now }
    ensures { OnOk result ((emphasis : List Emphasis)
        → AreMarks emphasis (length marks.now) marks.now
        → out.new.items ≡ out.old.items ++ flat_map (spread emphasis) inlines.now) }
{
    for inline in inlines {
        push_inline(out, marks, inline)?;
    }
    Ok(())
}

// Adds an inline, or the delimiters of a run.
fn push_inline(inlines: &mut Vec<Inline>, marks: &[Mark], inline: &Inline) -> Result<(), AllocError>
    requires { IsWithin (length marks.now) inline.now }
    ensures { OnOk result ((emphasis : List Emphasis)
        → AreMarks emphasis (length marks.now) marks.now
        → inlines.new.items ≡ inlines.old.items ++ spread emphasis inline.now) }
{
    match inline {
        Inline::Leaf(piece) => push_leaf(inlines, marks, piece)?,
        _ => inlines.push(*inline)?,
    }
    Ok(())
}

// Adds a leaf, or the delimiters of a run.
fn push_leaf(inlines: &mut Vec<Inline>, marks: &[Mark], piece: &Piece) -> Result<(), AllocError>
    requires some { piece.now.start < piece.now.end }
    requires within { piece.now.end ≤ length marks.now }
    ensures { OnOk result ((emphasis : List Emphasis)
        → AreMarks emphasis (length marks.now) marks.now
        → inlines.new.items
        ≡ inlines.old.items ++ spread_as piece.now.kind emphasis piece.now) }
{
    match piece.kind {
        PieceKind::Delimiters(_) => push_delimiters(inlines, marks, piece.start, piece.end)?,
        _ => inlines.push(Inline::Leaf(*piece))?,
    }
    Ok(())
}

// Adds what the delimiters from one offset up to another are.
fn push_delimiters(
    inlines: &mut Vec<Inline>,
    marks: &[Mark],
    from: usize,
    to: usize,
) -> Result<(), AllocError>
    requires in_order { from ≤ to }
    requires within { to ≤ length marks.now }
    ensures { OnOk result ((emphasis : List Emphasis)
        → AreMarks emphasis (length marks.now) marks.now
        → inlines.new.items ≡ inlines.old.items ++ delimiters_between emphasis from to) }
{
    for offset in from..to {
        push_delimiter(inlines, marks[offset], offset)?;
    }
    Ok(())
}

// Adds what the delimiter with this mark is.
fn push_delimiter(inlines: &mut Vec<Inline>, mark: Mark, offset: usize) -> Result<(), AllocError>
    requires { offset + 1 < 2 ^ 64 }
    ensures { OnOk result (inlines.new.items ≡ inlines.old.items ++ delimiter_with mark offset) }
{
    let inline = match mark {
        Mark::OpensEmphasis => Inline::StartEmphasis(offset, 1),
        Mark::OpensStrong => Inline::StartEmphasis(offset, 2),
        Mark::ClosesEmphasis => Inline::EndEmphasis(offset, 1),
        Mark::ClosesStrong => Inline::EndEmphasis(offset, 2),
        Mark::OpensStrikethrough => Inline::StartStrikethrough(offset, 1),
        Mark::OpensStrikethroughOfTwo => Inline::StartStrikethrough(offset, 2),
        Mark::ClosesStrikethrough => Inline::EndStrikethrough(offset, 1),
        Mark::ClosesStrikethroughOfTwo => Inline::EndStrikethrough(offset, 2),
        Mark::Second => return Ok(()),
        Mark::Nothing => Inline::Leaf(Piece {
            kind: PieceKind::Text,
            start: offset,
            end: offset + 1,
        }),
    };
    inlines.push(inline)?;
    Ok(())
}
