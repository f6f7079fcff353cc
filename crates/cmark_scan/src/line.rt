//! Runs of calls on a line, and what they print.
ghost use Rattle.std.specs.Prelude.{◌≡◌, IfOk};
ghost use Rattle.cmark_scan.specs.printing.Printed.{IsOutcome, stop_status};
ghost use Rattle.cmark_scan.specs.report.Report.{outcome_view, status_of};
ghost use Rattle.cmark_scan.specs.words.Command.{texts};
ghost use Rattle.cmark_scan.specs.words.Words.{scan_line, calls_of};

use crate::printing::run_text;
use crate::report::{Ended, Report};
use crate::words::parse_calls;
use markdown_scanners_tree::line::{LineRun, run_line};
use std::alloc::{AllocError, Global};

/// What the calls that the words ask for come to on the line.
pub(crate) fn line_report(
    alloc: Global,
    words: &[&str],
    bytes: &[u8],
) -> Result<Report<'static>, AllocError>
    ensures { IfOk result (λ report.
        IsOutcome (scan_line (calls_of (texts words.now))) bytes.now (outcome_view report)) }
{
    let calls = parse_calls(alloc, words)?;
    let run = run_line(alloc, bytes, &calls)?;
    let text = run_text(alloc, &calls, &run)?;
    Report::from_string(alloc, text, end_of(&run))
}

// How a run ends: before one of its calls, or after the last.
fn end_of(run: &LineRun) -> Ended
    ensures { status_of result ≡ stop_status run.now.stop }
{
    match &run.stop {
        Some(_) => Ended::Stopped,
        None => Ended::Done,
    }
}
