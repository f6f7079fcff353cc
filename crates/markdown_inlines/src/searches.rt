//! The searches for the ends of code spans and of raw HTML, at rising offsets of one text. (CommonMark 0.31.2, sections 6.1
//! and 6.6)
ghost use Rattle.std.specs.Prelude.{ℕ, ◌≡◌, ◌+◌, ◌*◌, ◌<◌, ◌≤◌, ◌^◌, length, drop, slice_index, IfOk, OnErr, IfSome, IfNone, Some};
ghost use Rattle.std.specs.List.{prefix_len};
ghost use Rattle.markdown_scanners_tree.specs.Ascii.{backtick};
ghost use Rattle.markdown_scanners_tree.specs.SomeExactly.{SomeExactly};
ghost use Rattle.markdown_scanners_tree.specs.inline_html.InlineHtml.{find_at};
ghost use Rattle.markdown_inlines.specs.CodeSpans.{IsCodeSpan, is_backtick};
ghost use Rattle.markdown_inlines.specs.Searches.{Searched, IsSearchedTo, unsearched, backticks_searched, html_searched, bytes_passed};

use crate::backticks::Backticks;
use crate::code_spans::CodeSpan;
use crate::guarded_code_spans::{first_span, span_at};
use markdown_scanners_tree::inline_html::InlineHtmlRun;
use std::alloc::AllocError;
use std::marker::Model;

// The searches that were made, and how many bytes they passed over. The text is reached by counted
// calls alone.
#[derive(Drop)]
pub(crate) struct Searches<'a> {
    text: Backticks<'a>,
    codes_passed: u128,
    // From where on the text has been read to its end, if it has been.
    read_from: Option<usize>,
    // By length, where the last string of so many backticks stands, if it has been. It is lent.
    lasts: &'a mut Vec<usize>,
    html: InlineHtmlRun<'a>,
}

impl<'a> Model for Searches<'a> {
    ghost use Rattle.std.specs.Prelude.{◌≡◌, IfSome};
    ghost use Rattle.markdown_inlines.specs.LastStrings.{AreLastStrings};
    ghost use Rattle.markdown_scanners_tree.specs.inline_html.run.Run.{IsWithinBudget};
    ghost use Rattle.markdown_inlines.specs.Searches.{Searched};

    ghost Value = { Searched };

    ghost view = { λ s. record { codes = s.codes_passed; read = s.read_from; html = s.html } };

    ghost invariant = { λ s. (s.text ≡ s.html.text) × IsWithinBudget s.html
        × IfSome s.read_from (λ from. AreLastStrings s.text from s.lasts.now.items) };
}

impl<'a> Searches<'a> {
    // Nothing is searched. Nothing depends on what is in the buffer.
    pub(crate) fn within(buffer: &'a mut Vec<usize>, bytes: &'a [u8]) -> Searches<'a>
        ensures start { result ≡ unsearched bytes.now }
        ensures searched { IsSearchedTo 0 result }
    {
        Searches {
            text: Backticks::new(bytes),
            codes_passed: 0,
            read_from: None,
            lasts: buffer,
            html: InlineHtmlRun::new(bytes),
        }
    }

    // How many bytes the searches passed over.
    pub(crate) fn passed(&self) -> u128
        requires searched { (offset : ℕ) × (offset ≤ length self.now.html.text)
            × IsSearchedTo offset self.now }
        ensures value { result ≡ bytes_passed self.now }
        ensures budget { result ≤ 10 * length self.now.html.text }
    {
        self.codes_passed + self.html.passed()
    }

    // The code span that begins with the backtick at the offset. Memory is asked for once, where there is
    // none for the first time.
    pub(crate) fn code_span(&mut self, offset: usize) -> Result<Option<CodeSpan>, AllocError>
        requires within { offset < length self.old.html.text }
        requires opens { slice_index self.old.html.text offset ≡ backtick }
        requires searched { IsSearchedTo offset self.old }
        ensures found { IfOk result (SomeExactly (IsCodeSpan (drop offset self.old.html.text))) }
        ensures within { IfOk result (λ found.
            IfSome found (λ span. offset + span.len ≤ length self.old.html.text)) }
        ensures counts_span { IfOk result (λ found. IfSome found (λ span.
            self.new ≡ record self.old { codes = self.old.codes + span.len })) }
        ensures counts_string { IfOk result (λ found. IfNone found (self.new
            ≡ backticks_searched self.old.html.text offset
            (prefix_len is_backtick (drop offset self.old.html.text)) self.old)) }
        ensures refused { OnErr result (self.new ≡ self.old) }
    {
        if self.read_from.is_some() {
            return Ok(self.known_span(offset));
        }
        let mut passed = 0;
        let found = first_span(&self.text, self.lasts, offset, &mut passed)?;
        self.codes_passed += passed;
        if found.is_some() {
            return Ok(found);
        }
        self.read_from = Some(offset);
        Ok(self.known_span(offset))
    }

    // The code span that begins at the offset, where all after an offset before it has been read.
    fn known_span(&mut self, offset: usize) -> Option<CodeSpan>
        requires within { offset ≤ length self.old.html.text }
        requires fits { self.old.codes < 2 ^ 100 }
        requires read { (from : ℕ) × (self.old.read ≡ Some from) × (from ≤ offset) }
        ensures found { SomeExactly (IsCodeSpan (drop offset self.old.html.text)) result }
        ensures within { IfSome result (λ span. offset + span.len ≤ length self.old.html.text) }
        ensures counts_span { IfSome result (λ span.
            self.new ≡ record self.old { codes = self.old.codes + span.len }) }
        ensures counts_string { IfNone result (self.new ≡ record self.old {
          codes = self.old.codes + prefix_len is_backtick (drop offset self.old.html.text);
        }) }
    {
        span_at(&self.text, self.lasts, offset, &mut self.codes_passed)
    }

    // Where the comment, CDATA section, declaration or processing instruction ends whose `<` stands
    // at the offset.
    pub(crate) fn html_end(&mut self, offset: usize) -> Option<usize>
        requires within { offset < length self.old.html.text }
        requires searched { IsSearchedTo offset self.old }
        ensures found { result ≡ find_at self.old.html.text (offset + 2) }
        ensures after { self.new ≡ html_searched self.old.html.text offset self.old }
        ensures text { self.new.html.text ≡ self.old.html.text }
        ensures later { IfSome result (λ end. offset + 2 ≤ end) }
    {
        match self.html.step(offset + 2) {
            Ok(found) => found,
            Err(_) => None,
        }
    }
}
