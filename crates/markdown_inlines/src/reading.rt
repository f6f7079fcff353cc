//! What is known of a text that is read from left to right: which brackets may begin links, and which
//! delimiter runs emphasis. (CommonMark 0.31.2, "Parsing strategy", phase 2)
ghost use Rattle.std.specs.Prelude.{◌≡◌, ◌++◌, ◌<◌, ◌≤◌, ◌+◌, ℕ, List, [], ◌∷◌, false, length, IfOk, IfSome, IfNone, OnOk};
ghost use Rattle.std.specs.Option.{is_some, unwrap_or};
ghost use Rattle.std.specs.Str.{IsCharBoundary};
ghost use Rattle.markdown_scanners_tree.specs.SomeExactly.{SomeExactly};
ghost use Rattle.markdown_inlines.specs.Emphasis.{emphasis_of};
ghost use Rattle.markdown_inlines.specs.EmphasisBounds.{AreOfDelimiters};
ghost use Rattle.markdown_inlines.specs.Inlines.{at_start, with_piece, with_opener, with_link, may_begin, IsClosed};
ghost use Rattle.markdown_inlines.specs.Inlines.{bracket_of, LeadsTo};
ghost use Rattle.markdown_inlines.specs.Marks.{ends_link};
ghost use Rattle.markdown_inlines.specs.Readings.{AreBefore, AreFree, IsKept, IsOpenerSource, reading_of};
ghost use Rattle.markdown_inlines.specs.Sources.{IsSource, IsTargetSource};

use crate::delimiter_runs::DelimiterRun;
use crate::emphasis::{Delimiters, Emphasis, push_emphasis};
use crate::link_targets::scan_target;
use crate::links::{Labels, Link, LinkTarget, Links};
use crate::long_texts::give_back;
use crate::pieces::{Piece, PieceKind};
use crate::wiki_links::scan_wiki_target;
use std::alloc::{AllocError, Global};

/// A bracket that may begin a link or an image.
#[derive(Clone, Copy)]
pub(crate) struct Opener {
    // Where it stands, with the exclamation mark before it.
    start: usize,
    // Where the link text begins.
    text: usize,
    is_image: bool,
    // How many delimiter runs stand before it that are in no link text.
    runs: usize,
    // How many openers stand before it.
    number: usize,
}

// What is known of the pieces of a text that have been read, in memory that is used again.
#[derive(Drop)]
pub(crate) struct Reader {
    openers: Vec<Opener>,
    runs: Vec<Delimiters>,
    run_openers: Vec<Delimiters>,
    last_link: usize,
    // Of each opener the link that it begins.
    pub(crate) links: Links,
    pub(crate) emphasis: Vec<Emphasis>,
}

impl Reader {
    // Nothing is read yet.
    pub(crate) fn new(alloc: Global) -> Reader
        ensures { result.links ≡ [] }
    {
        Reader {
            openers: Vec::new(alloc),
            runs: Vec::new(alloc),
            run_openers: Vec::new(alloc),
            last_link: 0,
            links: Links::new(alloc),
            emphasis: Vec::new(alloc),
        }
    }

    // No piece of the next text is read. Nothing depends on what was read before.
    pub(crate) fn restart(&mut self)
        ensures { (text : List ℕ) → reading_of text self.new ≡ at_start text }
    {
        self.openers.clear();
        self.runs.clear();
        self.last_link = 0;
        self.links.clear();
        self.emphasis.clear();
    }

    // Reads a piece that is no right bracket.
    #[inline(always)]
    pub(crate) fn read(&mut self, piece: Piece) -> Result<(), AllocError>
        ensures { OnOk result ((text : List ℕ)
            → reading_of text self.new ≡ with_piece piece.kind piece (reading_of text self.old)) }
    {
        match piece.kind {
            PieceKind::Delimiters(run) => self.runs.push(Delimiters {
                start: piece.start,
                end: piece.end,
                run,
            })?,
            PieceKind::LinkOpener => self.open(false, piece)?,
            PieceKind::ImageOpener => self.open(true, piece)?,
            _ => (),
        }
        Ok(())
    }

    // Reads an opener.
    fn open(&mut self, is_image: bool, piece: Piece) -> Result<(), AllocError>
        ensures { OnOk result ((text : List ℕ)
            → reading_of text self.new ≡ with_opener is_image piece (reading_of text self.old)) }
    {
        let opener = Opener {
            start: piece.start,
            text: piece.end,
            is_image,
            runs: self.runs.len(),
            number: self.links.len(),
        };
        self.links.push_none()?;
        self.openers.push(opener)?;
        Ok(())
    }

    // Reads a right bracket of the text, and answers the offset after the link that it ends, if it ends
    // one.
    pub(crate) fn close<L: Labels>(
        &mut self,
        alloc: Global,
        text: &str,
        labels: &L,
        bracket: Piece,
    ) -> Result<Option<usize>, AllocError>
        requires bracket { bracket.end ≡ bracket.start + 1 }
        requires source { IsSource text.now bracket }
        requires before { AreBefore (reading_of text.now self.old).openers bracket.start }
        requires kept { IsKept (reading_of text.now self.old) }
        requires free { AreFree self.old.links (reading_of text.now self.old).openers }
        requires new { ends_link self.old.links bracket.start ≡ false }
        ensures closed { IfOk result (λ found.
            IsClosed (L.known labels.now) (reading_of text.now self.old).openers
            (reading_of text.now self.old) bracket.start (unwrap_or found bracket.end)
            (reading_of text.now self.new)) }
        ensures ends { IfOk result (λ found.
            ends_link self.new.links bracket.start ≡ is_some found) }
        ensures within { IfOk result (λ found. IfSome found (λ end.
            (bracket.start < end) × (end ≤ length text.now))) }
        ensures boundary { IfOk result (λ found.
            IfSome found (λ end. IsCharBoundary text.now end)) }
        ensures kept { OnOk result (IsKept (reading_of text.now self.new)) }
    {
        let Some(opener) = self.pop() else {
            return Ok(None);
        };
        if !self.may_begin(opener) {
            return Ok(None);
        }
        match opener_target(alloc, text, labels, opener, bracket.start)? {
            None => Ok(None),
            Some((target, end)) => {
                let link = Link {
                    is_image: opener.is_image,
                    source: opener.start..end,
                    text: opener.text..bracket.start,
                    target,
                };
                self.end_link(alloc, opener, link)?;
                Ok(Some(end))
            }
        }
    }

    // Takes the innermost opener away.
    fn pop(&mut self) -> Option<Opener>
        ensures some { IfSome result (λ opener. (text : List ℕ) → reading_of text self.old
            ≡ record (reading_of text self.new) {
              openers = opener ∷ (reading_of text self.new).openers;
            }) }
        ensures none { IfNone result ((text : List ℕ)
            → ((reading_of text self.old).openers ≡ [])
            × (reading_of text self.new ≡ reading_of text self.old)) }
    {
        self.openers.pop()
    }

    // Whether the opener may begin a link or an image.
    fn may_begin(&self, opener: Opener) -> bool
        ensures { (text : List ℕ) → result ≡ may_begin opener (reading_of text self.now) }
    {
        opener.is_image || opener.start >= self.last_link
    }

    // Reads the end of a link. Its opener is no longer among the others.
    fn end_link(&mut self, alloc: Global, opener: Opener, link: Link) -> Result<(), AllocError>
        requires few { opener.runs ≤ length self.old.runs.items }
        requires known { opener.number < length self.old.links }
        requires delimiters { AreOfDelimiters self.old.runs.items }
        ensures { OnOk result ((text : List ℕ) → reading_of text self.new
            ≡ with_link link opener (reading_of text self.old).openers (reading_of text self.old)) }
    {
        let runs = &self.runs[opener.runs..];
        push_emphasis(alloc, &mut self.run_openers, runs, &mut self.emphasis)?;
        self.runs.truncate(opener.runs);
        self.last_link = if link.is_image {
            self.last_link
        } else {
            link.source.start
        };
        self.links.put(opener.number, link)?;
        Ok(())
    }

    // Adds the emphasis that is in no link text. Of a long text the memory is given back that is for its
    // reading alone.
    pub(crate) fn finish(&mut self, alloc: Global) -> Result<(), AllocError>
        requires { AreOfDelimiters self.old.runs.items }
        ensures links { OnOk result (self.new.links ≡ self.old.links) }
        ensures emphasis { OnOk result (self.new.emphasis.items
            ≡ self.old.emphasis.items ++ emphasis_of self.old.runs.items) }
    {
        push_emphasis(alloc, &mut self.run_openers, &self.runs, &mut self.emphasis)?;
        give_back(alloc, &mut self.openers);
        give_back(alloc, &mut self.runs);
        give_back(alloc, &mut self.run_openers);
        Ok(())
    }
}

// Where the link of an opener leads whose link text ends at a right bracket, and the offset after the
// link; none where it begins none.
fn opener_target<L: Labels>(
    alloc: Global,
    text: &str,
    labels: &L,
    opener: Opener,
    close: usize,
) -> Result<Option<(LinkTarget, usize)>, AllocError>
    requires source { IsOpenerSource text.now opener }
    requires after { IsCharBoundary text.now (close + 1) }
    ensures found { IfOk result (λ found.
        SomeExactly (λ r. LeadsTo text.now (L.known labels.now) opener close r.0 r.1) found) }
    ensures within { IfOk result (λ found. IfSome found (λ r.
        (close < r.1) × (r.1 ≤ length text.now))) }
    ensures boundary { IfOk result (λ found. IfSome found (λ r. IsCharBoundary text.now r.1)) }
    ensures source { IfOk result (λ found. IfSome found (λ r. IsTargetSource text.now r.0)) }
{
    let bracket = bracket_of(opener);
    if opener.text == bracket + 1 {
        scan_target(alloc, text, labels, opener.text, close)
    } else {
        Ok(scan_wiki_target(text.as_bytes(), bracket, opener.text, close))
    }
}

// Where the left bracket of an opener stands.
fn bracket_of(opener: Opener) -> usize
    requires { opener.start < opener.text }
    ensures bracket { result ≡ bracket_of opener }
    ensures within { result ≤ opener.text }
{
    if opener.is_image {
        opener.start + 1
    } else {
        opener.start
    }
}
