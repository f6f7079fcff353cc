//! Runs of scans of inline HTML over rising offsets of one text.
ghost use Rattle.std.specs.Prelude.{◌≡◌, ◌⊎◌, ◌≤◌, ◌<◌, ◌+◌, ◌*◌, length, take, IfOk, OnErr, IfSome, Some};
ghost use Rattle.markdown_scanners_tree.specs.inline_html.run.Passed.{bytes_passed};
ghost use Rattle.markdown_scanners_tree.specs.inline_html.run.Run.{Run, new_run, offset_refusal, answer_of, run_after, run_answers, run_passed, run_stop, IsWithinBudget};
ghost use Rattle.markdown_scanners_tree.specs.inline_html.run.private.RunFields.{run_of, AreFieldsInMemory};

use crate::inline_html::{CountedText, HtmlScanGuard, HtmlStop, scan_inline_html_counted};
use std::alloc::{AllocError, Global};
use std::marker::Model;

/// A text, and the scans of inline HTML made in it at rising offsets, outside what earlier scans
/// found. However many offsets are tried, the steps pass over at most four bytes for each byte of
/// the text, and eight for each step.
#[derive(Drop)]
pub struct InlineHtmlRun<'a> {
    text: CountedText<'a>,
    guard: HtmlScanGuard,
    last: usize,
    find_end: usize,
    steps: usize,
}

impl<'a> Model for InlineHtmlRun<'a> {
    ghost Value = { Run };

    ghost view = { λ r. run_of r.text r.guard r.last r.find_end r.steps };

    ghost invariant = { λ r. AreFieldsInMemory r.text r.guard r.last r.find_end r.steps };
}

impl<'a> InlineHtmlRun<'a> {
    /// A run over these bytes in which no step was made yet.
    pub fn new(bytes: &'a [u8]) -> InlineHtmlRun<'a>
        ensures start { result ≡ new_run bytes.now }
        ensures budget { IsWithinBudget result }
    {
        InlineHtmlRun {
            text: CountedText::new(bytes),
            guard: HtmlScanGuard::new(),
            last: 0,
            find_end: 0,
            steps: 0,
        }
    }

    /// The offset after what begins at `offset`, just after an opener, or None where nothing does or
    /// where it isn't closed. An offset that is refused leaves the run as it was.
    /// (CommonMark 0.31.2, section 6.6)
    pub fn step(&mut self, offset: usize) -> Result<Option<usize>, HtmlStop>
        // What is answered.
        ensures answer { result ≡ answer_of self.old offset (offset_refusal self.old offset) }
        ensures within { IfOk result (λ found. IfSome found (λ end.
            (offset ≤ end) × (end ≤ length self.old.text))) }

        // The run after the step.
        ensures after { self.new ≡ run_after self.old offset (offset_refusal self.old offset) }
        ensures text { self.new.text ≡ self.old.text }
        ensures budget { IsWithinBudget self.new }
    {
        if offset <= self.last || offset < self.find_end {
            return Err(self.refusal(offset));
        }
        let found = scan_inline_html_counted(&mut self.text, offset, &mut self.guard)?;
        self.last = offset;
        self.find_end = found.unwrap_or(self.find_end);
        self.steps += 1;
        Ok(found)
    }

    // Why an offset is refused that isn't above the last one, or is below the end of the last find.
    fn refusal(&self, offset: usize) -> HtmlStop
        requires { (offset ≤ self.now.last) ⊎ (offset < self.now.find_end) }
        ensures { offset_refusal self.now offset ≡ Some result }
    {
        if self.text.opener_before(offset).is_none() {
            HtmlStop::NoOpener
        } else if offset <= self.last {
            HtmlStop::NotRising
        } else {
            HtmlStop::InsideFind
        }
    }

    /// How many bytes the accepted steps passed over.
    pub fn passed(&self) -> u128
        ensures value { result ≡ self.now.passed }
        ensures budget { IsWithinBudget self.now }
    {
        self.text.passed()
    }

    /// How many steps were accepted.
    pub fn steps(&self) -> usize
        ensures value { result ≡ self.now.steps }
        ensures budget { IsWithinBudget self.now }
    {
        self.steps
    }
}

/// What steps at a list of offsets find, up to the first offset that is refused.
#[derive(Debug, Drop, PartialEq)]
pub struct HtmlRun {
    /// What was found at each offset before that one.
    pub answers: Vec<Option<usize>>,
    /// How many bytes those steps passed over.
    pub passed: u128,
    /// The index of the refused offset among the offsets, and why it is refused; None where none is.
    pub stop: Option<(usize, HtmlStop)>,
}

/// Makes a step at each of the offsets in turn, and ends before the first one that is refused. It
/// takes memory for the answers alone.
///
/// # Errors
///
/// `AllocError` where that memory is refused.
pub fn run_inline_html(
    alloc: Global,
    bytes: &[u8],
    offsets: &[usize],
) -> Result<HtmlRun, AllocError>
    ensures answers { IfOk result (λ run.
        run.answers.items ≡ run_answers (new_run bytes.now) offsets.now) }
    ensures count { IfOk result (λ run. length run.answers.items ≤ length offsets.now) }
    ensures passed { IfOk result (λ run.
        run.passed ≡ run_passed (new_run bytes.now) offsets.now) }
    ensures counted { IfOk result (λ run.
        run.passed ≡ bytes_passed bytes.now (take (length run.answers.items) offsets.now)) }
    ensures stop { IfOk result (λ run. run.stop ≡ run_stop (new_run bytes.now) 0 offsets.now) }
    ensures budget { IfOk result (λ run.
        run.passed ≤ 4 * length bytes.now + 8 * length run.answers.items) }
    ensures asked { OnErr result (0 < length (run_answers (new_run bytes.now) offsets.now)) }
{
    let mut run = InlineHtmlRun::new(bytes);
    let mut answers = Vec::new(alloc);
    for (index, offset) in offsets.iter().enumerate() {
        match run.step(*offset) {
            Ok(answer) => answers.push(answer)?,
            Err(stop) => {
                return Ok(HtmlRun {
                    answers,
                    passed: run.passed(),
                    stop: Some((index, stop)),
                });
            }
        }
    }
    Ok(HtmlRun {
        answers,
        passed: run.passed(),
        stop: None,
    })
}

#[cfg(test)]
mod tests {
    use super::*;

    // A run that had the bytes themselves beside the counted text, or in place of it, could search
    // them uncounted.
    #[test]
    fn a_run_has_these_fields_and_no_other(rt: HostRuntime) {
        let InlineHtmlRun {
            text,
            guard,
            last,
            find_end,
            steps,
        } = InlineHtmlRun::new(b"<!a>");
        let counted: CountedText = text;
        let stops: HtmlScanGuard = guard;
        let numbers: [usize; 3] = [last, find_end, steps];
        assert_eq!(rt; counted.passed(), 0);
        assert_eq!(rt; stops.comment, 0);
        assert_eq!(rt; numbers, [0, 0, 0]);
    }
}
