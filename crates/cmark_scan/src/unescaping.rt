//! Resolving escapes and references, with the few entities that the program knows.
ghost use Rattle.std.specs.Prelude.{IfOk};
ghost use Rattle.cmark_scan.specs.printing.Printed.{IsOutcome};
ghost use Rattle.cmark_scan.specs.report.Report.{outcome_view};
ghost use Rattle.cmark_scan.specs.words.Words.{scan_unescape};

use crate::report::{Ended, Report};
use markdown_scanners_tree::scanners::{EntityTable, unescape};
use markdown_values::strings::CowStr;
use std::alloc::{AllocError, Global};

/// The entities that the program knows.
pub(crate) const KNOWN_ENTITIES: EntityTable = EntityTable {
    rows: &[(b"amp", "&"), (b"lt", "<"), (b"gt", ">"), (b"quot", "\"")],
};

/// What the input comes to with its escapes and references resolved, out of a table.
pub(crate) fn unescape_report(alloc: Global, bytes: &[u8]) -> Result<Report<'_>, AllocError>
    ensures { IfOk result (λ report. IsOutcome scan_unescape bytes.now (outcome_view report)) }
{
    let Ok(text) = str::from_utf8(bytes) else {
        return Ok(Report::not_text());
    };
    let unescaped = unescape(alloc, CowStr::from(text), false, &KNOWN_ENTITIES)?;
    Ok(Report {
        text: unescaped,
        ended: Ended::Done,
    })
}
