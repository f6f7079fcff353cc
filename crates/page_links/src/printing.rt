//! The lines that are printed.
ghost use Rattle.std.specs.Prelude.{◌≡◌, ◌++◌, OnOk, string_bytes};
ghost use Rattle.page_links.specs.links.Links.{seen_link};
ghost use Rattle.page_links.specs.printing.Lines.{line_in};
ghost use Rattle.page_links.specs.printing.Faults.{fault_in};
ghost use Rattle.page_links.specs.reports.Reports.{seen_report};

mod faults;
mod json;
mod words;

use crate::links::PageLink;
use crate::printing::faults::push_fault_line;
use crate::printing::json::{push_fault_json, push_link_json};
use crate::printing::words::push_link_line;
use crate::reports::Report;
use page_positions::Position;
use std::alloc::{AllocError, Global};

/// How links are printed, one a line.
#[derive(Clone, Copy)]
pub enum LinkForm {
    /// In words, as `HELP` has them.
    Words,
    /// As JSON objects.
    Json,
}

/// Adds the line, in this form, of a link that begins there, of a page of this name.
pub(crate) fn push_line(
    alloc: Global,
    text: &mut String,
    form: LinkForm,
    name: &str,
    position: Position,
    link: &PageLink,
) -> Result<(), AllocError>
    ensures { OnOk result (string_bytes text.new
        ≡ string_bytes text.old ++ line_in form name.now position (seen_link link.now)) }
{
    match form {
        LinkForm::Words => push_link_line(text, name, position, link),
        LinkForm::Json => push_link_json(alloc, text, name, position, link),
    }
}

/// Adds the line, in this form, of a fault that is there, of a page of this name.
pub(crate) fn push_fault(
    alloc: Global,
    text: &mut String,
    form: LinkForm,
    name: &str,
    position: Position,
    report: &Report,
) -> Result<(), AllocError>
    ensures { OnOk result (string_bytes text.new
        ≡ string_bytes text.old ++ fault_in form name.now position (seen_report report.now)) }
{
    match form {
        LinkForm::Words => push_fault_line(text, name, position, report),
        LinkForm::Json => push_fault_json(alloc, text, name, position, report),
    }
}
