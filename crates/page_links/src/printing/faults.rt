//! The lines of faults in words.
ghost use Rattle.std.specs.Prelude.{◌≡◌, ◌++◌, OnOk, string_bytes};
ghost use Rattle.page_events.specs.Lines.{quoted};
ghost use Rattle.page_links.specs.printing.Faults.{fault_line, finding_words};
ghost use Rattle.page_links.specs.reports.Reports.{seen_report};

use crate::printing::words::push_position;
use crate::reports::{Finding, Report};
use page_blocks::info::push_bytes;
use page_positions::Position;
use std::alloc::AllocError;

/// Adds the line of a fault that is there, of a page of this name.
pub(crate) fn push_fault_line(
    text: &mut String,
    name: &str,
    position: Position,
    report: &Report,
) -> Result<(), AllocError>
    ensures { OnOk result (string_bytes text.new
        ≡ string_bytes text.old ++ fault_line name.now position (seen_report report.now)) }
{
    push_position(text, name, position)?;
    text.push_str(finding_words(report.finding))?;
    push_quoted(text, report.text.as_str())?;
    text.push_str("\n")
}

// Adds a text in quotation marks.
fn push_quoted(text: &mut String, words: &str) -> Result<(), AllocError>
    ensures { OnOk result (string_bytes text.new ≡ string_bytes text.old ++ quoted words.now) }
{
    text.push_str(" \"")?;
    push_bytes(text, words.as_bytes())?;
    text.push_str("\"")
}

/// What a fault is called.
pub(crate) fn finding_words(finding: Finding) -> &'static str
    ensures { result.now ≡ finding_words finding }
{
    match finding {
        Finding::NotDefined => "label not defined",
        Finding::NotUsed => "label not used",
        Finding::DefinedBefore => "label defined before",
        Finding::NoFile => "no such file",
        Finding::Denied => "permission denied",
        Finding::Unread => "can't be read",
        Finding::NoAnchor => "no such heading",
    }
}
