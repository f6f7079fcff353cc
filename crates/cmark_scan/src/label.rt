//! The label at the front of a text, and its printed lines.
ghost use Rattle.std.specs.Prelude.{◌≡◌, IfOk, Some, string_bytes};
ghost use Rattle.markdown_values.specs.strings.Text.{cow_text, is_borrowed};
ghost use Rattle.cmark_scan.specs.label.LabelRun.{IsLabelOutcome, label_lines};
ghost use Rattle.cmark_scan.specs.report.Report.{outcome_view};

use crate::report::{Ended, Report};
use markdown_scanners_tree::linklabel::scan_link_label_rest;
use markdown_values::strings::CowStr;
use std::alloc::{AllocError, Global};

/// What the label at the front of the input comes to, out of a table, where nothing is skipped.
pub(crate) fn label_report(alloc: Global, bytes: &[u8]) -> Result<Report<'static>, AllocError>
    ensures { IfOk result (λ report. IsLabelOutcome bytes.now (outcome_view report)) }
{
    let Ok(text) = str::from_utf8(bytes) else {
        return Ok(Report::not_text());
    };
    let handler = |_rest: &[u8]| -> Option<usize>
        ensures { result ≡ Some 0 }
    { Some(0) };
    match scan_link_label_rest(alloc, text, &handler, false)? {
        Some((taken, label)) => {
            Report::from_string(alloc, label_text(alloc, taken, &label)?, Ended::Done)
        }
        None => Ok(Report {
            text: CowStr::from("none\n"),
            ended: Ended::Stopped,
        }),
    }
}

fn is_borrowed(label: &CowStr<'_>) -> bool
    ensures { result ≡ is_borrowed label.now }
{
    matches!(label, CowStr::Borrowed(_))
}

fn label_text(alloc: Global, taken: usize, label: &CowStr<'_>) -> Result<String, AllocError>
    ensures { IfOk result (λ text. string_bytes text
        ≡ label_lines taken (is_borrowed label.now) (cow_text label.now)) }
{
    let borrowed = is_borrowed(label);
    let mut text = String::new(alloc);
    writeln!(text, "bytes {taken}")?;
    writeln!(text, "borrowed {borrowed}")?;
    writeln!(text, "label {}", label.as_str())?;
    Ok(text)
}
