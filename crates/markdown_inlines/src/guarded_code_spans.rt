//! Code spans at many offsets of one text. (CommonMark 0.31.2, section 6.1)
ghost use Rattle.std.specs.Prelude.{ℕ, ◌≡◌, ◌==◌, ◌+◌, ◌-◌, ◌<◌, ◌≤◌, ◌^◌, length, drop, slice_index, IfSome, IfNone, IfOk, OnOk, if◌then◌else◌};
ghost use Rattle.std.specs.List.{prefix_len};
ghost use Rattle.markdown_scanners_tree.specs.Ascii.{backtick};
ghost use Rattle.markdown_scanners_tree.specs.SomeExactly.{SomeExactly, IsOnly};
ghost use Rattle.markdown_inlines.specs.CodeSpans.{IsCodeSpan, is_backtick};
ghost use Rattle.markdown_inlines.specs.LastStrings.{AreLastStrings};

use crate::backticks::Backticks;
use crate::code_spans::{CodeSpan, span_after};
use std::alloc::{AllocError, Global};
use std::marker::Model;

/// The code spans of a text. It knows where the last string of backticks of each length stands, so
/// that the text is searched only from a string that a later one closes: a text of strings that
/// nothing closes is read once, however many of them are asked for.
#[derive(Drop)]
pub struct CodeSpans<'a> {
    text: Backticks<'a>,
    // By length, where the last string of so many backticks stands.
    lasts: Vec<usize>,
}

impl<'a> Model for CodeSpans<'a> {
    ghost use Rattle.std.specs.Prelude.{ℕ, List};
    ghost use Rattle.markdown_inlines.specs.LastStrings.{AreLastStrings};

    ghost Value = { List ℕ };

    ghost view = { λ s. s.text };

    ghost invariant = { λ s. AreLastStrings s.text 0 s.lasts.items };
}

impl<'a> CodeSpans<'a> {
    /// The code spans of the text. It is read once, and a number is kept for each length up to
    /// that of its longest string of backticks: none for a text without backticks.
    ///
    /// # Errors
    ///
    /// `AllocError` where memory for these is refused.
    pub fn new(alloc: Global, bytes: &'a [u8]) -> Result<CodeSpans<'a>, AllocError>
        ensures { IfOk result (λ spans. spans ≡ bytes.now) }
    {
        let text = Backticks::new(bytes);
        let lasts = last_offsets(alloc, &text)?;
        Ok(CodeSpans { text, lasts })
    }

    /// The code span that begins at an offset of the text, before which no backtick stands: what
    /// `scan_code_span` finds there. No memory is asked for.
    pub fn scan(&self, offset: usize) -> Option<CodeSpan>
        requires { offset ≤ length self.now }

        // The one span that stands there is answered.
        ensures found { SomeExactly (IsCodeSpan (drop offset self.now)) result }
        ensures only { IsOnly (IsCodeSpan (drop offset self.now)) result }

        // Its content stands between strings of one length.
        ensures within { IfSome result (λ span. offset + span.len ≤ length self.now) }
        ensures content { IfSome result (λ span. (0 < span.content.start)
            × (span.content.start < span.content.end)
            × (span.content.end + span.content.start ≡ span.len)) }
    {
        span_at(&self.text, &self.lasts, offset, &mut 0)
    }
}

// The code span that begins at an offset, where the last strings after an offset before it are known. The
// bytes that are passed over are added to a count.
pub(crate) fn span_at(
    text: &Backticks,
    lasts: &[usize],
    offset: usize,
    passed: &mut u128,
) -> Option<CodeSpan>
    requires within { offset ≤ length text.now }
    requires known { (from : ℕ) × (from ≤ offset) × AreLastStrings text.now from lasts.now }
    requires room { passed.old < 2 ^ 100 }

    // The one span that stands there is answered.
    ensures found { SomeExactly (IsCodeSpan (drop offset text.now)) result }
    ensures only { IsOnly (IsCodeSpan (drop offset text.now)) result }

    // Its content stands between strings of one length.
    ensures within { IfSome result (λ span. offset + span.len ≤ length text.now) }
    ensures content { IfSome result (λ span. (0 < span.content.start)
        × (span.content.start < span.content.end)
        × (span.content.end + span.content.start ≡ span.len)) }

    // A span is passed over once; where there is none, no more than the backticks at the offset.
    ensures counts_span { IfSome result (λ span. passed.new ≡ passed.old + span.len) }
    ensures counts_string { IfNone result
        (passed.new ≡ passed.old + prefix_len is_backtick (drop offset text.now)) }
{
    let rest = text.after(offset);
    let fence = rest.front_len(passed);
    if last_offset(lasts, fence) <= offset {
        return None;
    }
    span_after(&rest, fence, passed)
}

// The code span that begins with the backtick at an offset. Where there is none, all after the offset has
// been read, and the last strings there are put in. Nothing depends on what is in the buffer.
pub(crate) fn first_span(
    text: &Backticks,
    lasts: &mut Vec<usize>,
    offset: usize,
    passed: &mut u128,
) -> Result<Option<CodeSpan>, AllocError>
    requires within { offset < length text.now }
    requires opens { slice_index text.now offset ≡ backtick }
    requires fits { length text.now < 2 ^ 64 }
    requires room { passed.old < 2 ^ 100 }
    ensures found { IfOk result (SomeExactly (IsCodeSpan (drop offset text.now))) }
    ensures within { IfOk result (λ found.
        IfSome found (λ span. offset + span.len ≤ length text.now)) }
    ensures counts_span { IfOk result (λ found.
        IfSome found (λ span. passed.new ≡ passed.old + span.len)) }
    ensures counts_rest { IfOk result (λ found.
        IfNone found (passed.new ≡ passed.old + (length text.now - offset))) }
    ensures lasts { IfOk result (λ found.
        IfNone found (AreLastStrings text.now offset lasts.new.items)) }
{
    let rest = text.after(offset);
    let fence = rest.front_len(passed);
    lasts.clear();
    let mut from = fence;
    while let Some((start, run)) = rest.next_string(from, passed) {
        if run == fence {
            return Ok(Some(CodeSpan {
                content: fence..start,
                len: start + fence,
            }));
        }
        put_last(lasts, run, offset + start)?;
        from = start + run;
    }
    Ok(None)
}

// Where the last string of so many backticks stands, or 0.
fn last_offset(lasts: &[usize], fence: usize) -> usize
    ensures { result ≡ slice_index lasts.now fence }
{
    lasts.get(fence).copied().unwrap_or(0)
}

// Where the last string of each length stands.
fn last_offsets(alloc: Global, text: &Backticks) -> Result<Vec<usize>, AllocError>
    requires { length text.now < 2 ^ 64 }
    ensures { IfOk result (λ lasts. AreLastStrings text.now 0 lasts.items) }
{
    let mut lasts = Vec::new(alloc);
    let mut passed = 0;
    let mut offset = 0;
    while let Some((start, run)) = text.next_string(offset, &mut passed) {
        put_last(&mut lasts, run, start)?;
        offset = start + run;
    }
    Ok(lasts)
}

// Puts an offset in for a length.
fn put_last(lasts: &mut Vec<usize>, run: usize, offset: usize) -> Result<(), AllocError>
    ensures { OnOk result ((k : ℕ) → slice_index lasts.new.items k
        ≡ (if k == run then offset else slice_index lasts.old.items k)) }
{
    while lasts.len() <= run {
        lasts.push(0)?;
    }
    lasts[run] = offset;
    Ok(())
}
