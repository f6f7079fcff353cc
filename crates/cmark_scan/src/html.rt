//! The scans of inline HTML in a text, and their printed lines.
ghost use Rattle.std.specs.Prelude.{◌≡◌, ◌++◌, IfOk, OnOk, string_bytes};
ghost use Rattle.std.specs.List.{flat_map};
ghost use Rattle.markdown_scanners_tree.specs.inline_html.run.Run.{offset_refusal, run_after};
ghost use Rattle.cmark_scan.specs.html.HtmlScans.{html_text, scan_text, scans_at, scans_of};
ghost use Rattle.cmark_scan.specs.printing.Printed.{IsOutcome};
ghost use Rattle.cmark_scan.specs.report.Report.{outcome_view};
ghost use Rattle.cmark_scan.specs.words.Words.{scan_html};

use crate::report::{Ended, Report};
use markdown_scanners_tree::inline_html::InlineHtmlRun;
use std::alloc::{AllocError, Global};

/// What the scans of inline HTML in the input come to.
pub(crate) fn html_report(alloc: Global, bytes: &[u8]) -> Result<Report<'static>, AllocError>
    ensures { IfOk result (λ report. IsOutcome scan_html bytes.now (outcome_view report)) }
{
    Report::from_string(alloc, html_text(alloc, bytes)?, Ended::Done)
}

// A line for each scan, made at every offset that a run accepts, and the bytes that they passed
// over.
fn html_text(alloc: Global, bytes: &[u8]) -> Result<String, AllocError>
    ensures { IfOk result (λ text. string_bytes text ≡ html_text bytes.now (scans_of bytes.now)) }
{
    let mut text = String::new(alloc);
    let mut run = InlineHtmlRun::new(bytes);
    for offset in 0..=bytes.len() {
        push_step(&mut text, &mut run, offset)?;
    }
    let allowed = 4 * bytes.len() as u128 + 8 * run.steps() as u128;
    writeln!(text, "passed {} of {allowed}", run.passed())?;
    Ok(text)
}

// Makes a step at the offset, and writes its line unless the offset is refused.
fn push_step(text: &mut String, run: &mut InlineHtmlRun, offset: usize) -> Result<(), AllocError>
    ensures written { OnOk result (string_bytes text.new
        ≡ string_bytes text.old ++ flat_map scan_text (scans_at run.old offset)) }
    ensures after { run.new ≡ run_after run.old offset (offset_refusal run.old offset) }
{
    match run.step(offset) {
        Ok(Some(end)) => writeln!(text, "{offset} {end}"),
        Ok(None) => writeln!(text, "{offset} none"),
        Err(_) => Ok(()),
    }
}
