//! What inlines are read from: a text, or the content of a block of a page.
ghost use Rattle.std.specs.Prelude.{◌≡◌, ◌≤◌, drop, length, slice_range, IfOk, IfSome};
ghost use Rattle.std.specs.Str.{IsCharBoundary, IsUtf8};
ghost use Rattle.markdown_values.specs.strings.Text.{cow_text};

use crate::parts::{part, text_of};
use markdown_blocks::content::Content;
use markdown_values::strings::CowStr;
use std::alloc::{AllocError, Global};
use std::marker::Model;

/// A text in which inlines are read. Its parts are lent for `'a` where they stand in the page as they
/// are.
#[derive(Drop)]
pub(crate) struct Source<'a, 'c> {
    text: &'c str,
    // The same text, where it is one run of the page, or a text of its own.
    run: Option<&'a str>,
    // Where its bytes stand, if it is the content of a block.
    placed: Option<Placed<'a, 'c>>,
}

// A content, of which so many bytes stand before the text, and its page, of which so many stand before
// the content's block.
#[derive(Clone, Copy)]
struct Placed<'a, 'c> {
    page: &'a str,
    before: usize,
    content: &'c Content<'c>,
    front: usize,
}

impl<'a, 'c> Model for Source<'a, 'c> {
    ghost use Rattle.std.specs.Prelude.{◌≡◌, List, ℕ, IfSome};

    ghost Value = { List ℕ };

    ghost view = { λ s. s.text.now };

    ghost invariant = { λ s. IfSome s.run (λ run. run.now ≡ s.text.now) };
}

impl<'a: 'c, 'c> Source<'a, 'c> {
    /// What the content of a block of a page has after `front` bytes. Before the block stand so many bytes
    /// of the page.
    #[inline(always)]
    pub(crate) fn of_content(
        page: &'a str,
        before: usize,
        content: &'c Content<'a>,
        front: usize,
    ) -> Source<'a, 'c>
        requires front { front ≤ length content.now.text }
        requires utf8 { IsUtf8 (drop front content.now.text) }
        ensures { result ≡ drop front content.now.text }
    {
        if let Some(run) = content.run() {
            return Source::of_text(text_of(&run[front..]));
        }
        Source {
            text: text_of(&content.text()[front..]),
            run: None,
            placed: Some(Placed {
                page,
                before,
                content,
                front,
            }),
        }
    }

    /// The content of a cell of a row of a page, before which stand so many bytes of the page. It is
    /// compared with the page: a row is lent for less than that.
    pub(crate) fn of_cell(page: &'a str, before: usize, content: &'c Content<'_>) -> Source<'a, 'c>
        requires { IsUtf8 content.now.text }
        ensures { result ≡ content.now.text }
    {
        let placed = Placed {
            page,
            before,
            content,
            front: 0,
        };
        Source {
            text: text_of(content.text()),
            run: placed.find(content.text(), 0),
            placed: Some(placed),
        }
    }
}

impl<'a, 'c> Source<'a, 'c> {
    /// A text of its own.
    pub(crate) fn of_text(text: &'a str) -> Source<'a, 'a>
        ensures { result ≡ text.now }
    {
        Source {
            text,
            run: Some(text),
            placed: None,
        }
    }

    /// The text.
    pub(crate) fn text(&self) -> &'c str
        ensures { result.now ≡ self.now }
    {
        self.text
    }

    /// The same text, where it is one run of the page, or a text of its own.
    pub(crate) fn run(&self) -> Option<&'a str>
        ensures { IfSome result (λ run. run.now ≡ self.now) }
    {
        self.run
    }

    /// What stands from one offset up to another, at both of which the text may be cut. It is lent
    /// where it stands in the page as it is, and else copied.
    #[inline(always)]
    pub(crate) fn part(
        &self,
        alloc: Global,
        start: usize,
        end: usize,
    ) -> Result<CowStr<'a>, AllocError>
        requires begins { IsCharBoundary self.now start }
        requires ends { IsCharBoundary self.now end }
        ensures { IfOk result (λ part. cow_text part ≡ slice_range self.now start end) }
    {
        match self.lent_part(start, end) {
            Some(words) => Ok(CowStr::from(words)),
            None => self.copied(alloc, start, end),
        }
    }

    /// What stands from one offset up to another, at both of which the text may be cut, where it stands
    /// in the page as it is.
    #[inline(always)]
    pub(crate) fn lent_part(&self, start: usize, end: usize) -> Option<&'a str>
        requires begins { IsCharBoundary self.now start }
        requires ends { IsCharBoundary self.now end }
        ensures { IfSome result (λ part. part.now ≡ slice_range self.now start end) }
    {
        match self.run {
            Some(run) => Some(part(run, start, end)),
            None => self.find(part(self.text, start, end), start),
        }
    }

    /// A copy of what stands there.
    #[inline(never)]
    pub(crate) fn copied(
        &self,
        alloc: Global,
        start: usize,
        end: usize,
    ) -> Result<CowStr<'a>, AllocError>
        requires begins { IsCharBoundary self.now start }
        requires ends { IsCharBoundary self.now end }
        ensures { IfOk result (λ part. cow_text part ≡ slice_range self.now start end) }
    {
        CowStr::from(part(self.text, start, end)).into_static(alloc)
    }

    /// The same words. They are lent where they stand in the page from the offset in the text on, and
    /// else have memory of their own.
    pub(crate) fn lend(
        &self,
        alloc: Global,
        words: CowStr<'c>,
        offset: usize,
    ) -> Result<CowStr<'a>, AllocError>
        ensures { IfOk result (λ lent. cow_text lent ≡ cow_text words.entry) }
    {
        match self.find(words.as_str(), offset) {
            Some(run) => Ok(CowStr::from(run)),
            None => words.into_static(alloc),
        }
    }

    /// The run of the page that begins with the byte at the offset in the text, if it is these words.
    #[inline(always)]
    pub(crate) fn find(&self, words: &str, offset: usize) -> Option<&'a str>
        ensures { IfSome result (λ run. run.now ≡ words.now) }
    {
        match &self.placed {
            Some(placed) => placed.find(words.as_bytes(), offset),
            None => None,
        }
    }
}

impl<'a, 'c> Placed<'a, 'c> {
    // The run of the page that begins with the byte at the offset in the text, if it is these bytes.
    fn find(&self, words: &[u8], offset: usize) -> Option<&'a str>
        ensures { IfSome result (λ run. run.now ≡ words.now) }
    {
        if words.is_empty() {
            return Some("");
        }
        let offset = self.front.saturating_add(offset);
        if offset >= self.content.text().len() {
            return None;
        }
        let from = self
            .before
            .saturating_add(self.content.source_offset(offset));
        let run = self.page.get(from..from.saturating_add(words.len()))?;
        if run.as_bytes() == words {
            Some(run)
        } else {
            None
        }
    }
}
