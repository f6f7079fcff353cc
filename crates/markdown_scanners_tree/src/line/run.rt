//! Runs of calls on the start of a line.
ghost use Rattle.std.specs.Prelude.{◌≡◌, ◌==◌, ◌≤◌, false, Some, None, IfOk, IfErr, OnErr};
ghost use Rattle.markdown_scanners_tree.specs.line.KnownBreaks.{AreTrueBreaks};
ghost use Rattle.markdown_scanners_tree.specs.line.PlainStep.{IsPlainStep};
ghost use Rattle.markdown_scanners_tree.specs.line.State.{rest_of};
ghost use Rattle.markdown_scanners_tree.specs.line.run.PlainRun.{plain_run, indexed_stop, rest_after, scanned_after, line_refusal};
ghost use Rattle.markdown_scanners_tree.specs.line.run.StateRun.{asks_for_breaks, learnt_by_call};

use crate::line::{KnownBreaks, LARGEST_INDENT, LineStart};
use std::alloc::{AllocError, Global};

/// One call of a run.
#[derive(Debug, PartialEq, Drop)]
pub enum LineCall {
    /// `scan_space`
    Space(usize),
    /// `scan_space_upto`
    Upto(usize),
    /// `is_at_eol`
    Eol,
    /// `scan_blockquote_marker`
    Quote,
    /// `scan_list_marker_with_indent`
    List(usize),
    /// `scan_definition_list_definition_marker_with_indent`
    Definition(usize),
}

/// What a call answers.
#[derive(Debug, PartialEq, Drop)]
pub enum LineAnswer {
    /// Of `scan_space`, `is_at_eol` and `scan_blockquote_marker`.
    Flag(bool),
    /// The columns that `scan_space_upto` took.
    Count(usize),
    /// The bullet or delimiter, the start number and the indent of the content, in columns.
    List(Option<(u8, u64, usize)>),
    /// The indent of the content, in columns.
    Definition(Option<usize>),
}

/// Why a call is refused.
#[derive(Debug, PartialEq, Drop)]
pub enum LineStop {
    /// Columns of a tab are pending, and the call is not one that takes space.
    SpacePending,
    /// The indent is above `LARGEST_INDENT`, so that the columns of a marker might not be added.
    IndentTooLarge,
}

/// What a list of calls on a line gives.
#[derive(Debug, PartialEq, Drop)]
pub struct LineRun {
    /// One for each call that was made, in order.
    pub answers: Vec<LineAnswer>,
    /// What is left of the line: the pending columns as spaces, then the bytes not scanned, tabs
    /// before the line ending written out.
    pub rest: Vec<u8>,
    /// How many bytes of the line have been passed.
    pub scanned: usize,
    /// The index of the call that was refused, and why, if one was.
    pub stop: Option<(usize, LineStop)>,
}

/// Makes the calls in order on a fresh `LineStart` of the line, up to the first that is refused.
///
/// Columns count as if the tabs of the line were spaces, up to the next multiple of four.
/// (CommonMark 0.31.2, section 2.2)
///
/// # Errors
///
/// `AllocError` where memory for the answers or the rest is refused.
pub fn run_line(alloc: Global, bytes: &[u8], calls: &[LineCall]) -> Result<LineRun, AllocError>
    ensures answers { IfOk result (λ run.
        run.answers.items ≡ (plain_run bytes.now calls.now).answers) }
    ensures stop { IfOk result (λ run. run.stop ≡ indexed_stop (plain_run bytes.now calls.now)) }
    ensures rest { IfOk result (λ run.
        run.rest.items ≡ rest_after bytes.now (plain_run bytes.now calls.now)) }
    ensures scanned { IfOk result (λ run.
        run.scanned ≡ scanned_after bytes.now (plain_run bytes.now calls.now)) }
{
    let mut start = LineStart::new(bytes);
    let mut answers = Vec::new(alloc);
    for (index, call) in calls.iter().enumerate() {
        if let Some(reason) = refused(&start, call) {
            return finished(alloc, &start, answers, Some((index, reason)));
        }
        let answer = make_call(&mut start, call);
        answers.push(answer)?;
    }
    finished(alloc, &start, answers, None)
}

impl LineStart<'_> {
    /// Makes one call of a run, where the caller keeps what is known of the thematic breaks in the
    /// line, as for `scan_list_marker_with_breaks`.
    ///
    /// # Errors
    ///
    /// The reason for which `run_line` stops before such a call; nothing changes then.
    pub fn call_with_breaks(
        &mut self,
        call: &LineCall,
        breaks: &mut KnownBreaks,
    ) -> Result<LineAnswer, LineStop>
        // It is refused exactly where a run stops.
        ensures refused { IfErr result (λ why.
            line_refusal (self.old.pending == 0) call.now ≡ Some why) }
        ensures made { IfOk result (λ _.
            line_refusal (self.old.pending == 0) call.now ≡ None) }
        ensures unchanged { OnErr result
            ((self.new ≡ self.old) × (breaks.new ≡ breaks.old)) }

        // Where what is known is true of the line from the offset on.
        ensures step { AreTrueBreaks self.old.bytes breaks.old self.old.offset
            → IfOk result (λ answer. IsPlainStep call.now answer self.old self.new) }
        ensures truth { AreTrueBreaks self.old.bytes breaks.old self.old.offset
            → AreTrueBreaks self.new.bytes breaks.new self.new.offset }

        // Whatever is known: a call that doesn't ask for it is the same step, and what is read to
        // tell it is learnt.
        ensures step_without_breaks { asks_for_breaks call.now ≡ false
            → IfOk result (λ answer. IsPlainStep call.now answer self.old self.new) }
        ensures learnt { IfOk result (λ _.
            breaks.new ≡ learnt_by_call call.now self.old breaks.old) }
        ensures bytes { self.new.bytes ≡ self.old.bytes }
        ensures forward { self.old.offset ≤ self.new.offset }
    {
        if let Some(reason) = refused(self, call) {
            return Err(reason);
        }
        if let LineCall::List(indent) = call {
            let item = self.scan_list_marker_with_breaks(*indent, breaks);
            return Ok(LineAnswer::List(item));
        }
        Ok(make_call(self, call))
    }
}

// Why the call is refused, if it is.
fn refused(start: &LineStart, call: &LineCall) -> Option<LineStop>
    ensures { result ≡ line_refusal (start.now.pending == 0) call.now }
{
    let takes_space = matches!(call, LineCall::Space(_) | LineCall::Upto(_));
    if !takes_space && start.remaining_space() > 0 {
        return Some(LineStop::SpacePending);
    }
    match call {
        LineCall::List(indent) | LineCall::Definition(indent) if *indent > LARGEST_INDENT => Some(
            LineStop::IndentTooLarge,
        ),
        _ => None,
    }
}

// Makes one call that is not refused.
fn make_call(start: &mut LineStart, call: &LineCall) -> LineAnswer
    requires { line_refusal (start.old.pending == 0) call.now ≡ None }
    ensures { IsPlainStep call.now result start.old start.new }
{
    match call {
        LineCall::Space(n) => LineAnswer::Flag(start.scan_space(*n)),
        LineCall::Upto(n) => LineAnswer::Count(start.scan_space_upto(*n)),
        LineCall::Eol => LineAnswer::Flag(start.is_at_eol()),
        LineCall::Quote => LineAnswer::Flag(start.scan_blockquote_marker()),
        LineCall::List(indent) => LineAnswer::List(start.scan_list_marker_with_indent(*indent)),
        LineCall::Definition(indent) => LineAnswer::Definition(
            start.scan_definition_list_definition_marker_with_indent(*indent),
        ),
    }
}

// The run that ends at this offset.
fn finished(
    alloc: Global,
    start: &LineStart,
    answers: Vec<LineAnswer>,
    stop: Option<(usize, LineStop)>,
) -> Result<LineRun, AllocError>
    ensures answers { IfOk result (λ run. run.answers.items ≡ answers.items) }
    ensures stop { IfOk result (λ run. run.stop ≡ stop) }
    ensures rest { IfOk result (λ run. run.rest.items ≡ rest_of start.now) }
    ensures scanned { IfOk result (λ run. run.scanned ≡ start.now.offset) }
{
    let rest = start.written_rest(alloc)?;
    let scanned = start.bytes_scanned();
    Ok(LineRun {
        answers,
        rest,
        scanned,
        stop,
    })
}
