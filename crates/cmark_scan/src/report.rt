//! What a command comes to.
ghost use Rattle.std.specs.Prelude.{◌≡◌, IfOk, string_bytes};
ghost use Rattle.cmark_scan.specs.printing.Outcome.{no_text};
ghost use Rattle.cmark_scan.specs.report.Report.{outcome_of, outcome_view};

use markdown_values::strings::CowStr;
use std::alloc::{AllocError, Global};

/// How a command ends.
#[derive(Clone, Copy)]
pub(crate) enum Ended {
    Done,
    /// A run of calls stopped before one of them, or there is no label.
    Stopped,
    /// The input isn't UTF-8.
    NotText,
}

/// What a command prints, and how it ends.
#[derive(Drop)]
pub(crate) struct Report<'a> {
    pub(crate) text: CowStr<'a>,
    pub(crate) ended: Ended,
}

impl Report<'static> {
    pub(crate) fn from_string(
        alloc: Global,
        text: String,
        ended: Ended,
    ) -> Result<Report<'static>, AllocError>
        ensures { IfOk result (λ report.
            outcome_view report ≡ outcome_of (string_bytes text) ended) }
    {
        Ok(Report {
            text: CowStr::from_string(alloc, text)?,
            ended,
        })
    }

    /// Input that isn't UTF-8: nothing is printed.
    pub(crate) fn not_text() -> Report<'static>
        ensures { outcome_view result ≡ no_text }
    {
        Report {
            text: CowStr::from(""),
            ended: Ended::NotText,
        }
    }
}
