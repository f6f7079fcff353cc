//! Links and faults as JSON objects.
ghost use Rattle.std.specs.Prelude.{◌≡◌, ◌++◌, OnOk, codes, string_bytes};
ghost use Rattle.page_events.specs.Json.{member, text_member, word_json};
ghost use Rattle.page_links.specs.links.Links.{seen_link};
ghost use Rattle.page_links.specs.printing.Lines.{element_member, file_member, link_json, position_members, range_members, shown_as};
ghost use Rattle.page_links.specs.printing.Faults.{fault_json, finding_words};
ghost use Rattle.page_links.specs.reports.Reports.{seen_report};

use crate::links::PageLink;
use crate::printing::faults::finding_words;
use crate::printing::words::shown_as;
use crate::reports::{Finding, Report};
use page_blocks::info::push_json_text;
use page_events::json::elements::push_link_members;
use page_events::json::values::push_word;
use page_positions::Position;
use std::alloc::{AllocError, Global};

/// Adds the object of a link that begins there, of a page of this name.
pub(crate) fn push_link_json(
    alloc: Global,
    text: &mut String,
    name: &str,
    position: Position,
    link: &PageLink,
) -> Result<(), AllocError>
    ensures { OnOk result (string_bytes text.new
        ≡ string_bytes text.old ++ link_json name.now position (seen_link link.now)) }
{
    push_file(alloc, text, name)?;
    push_position(text, position)?;
    push_range(text, link)?;
    push_element(text, link.is_image)?;
    push_link_members(
        alloc,
        text,
        link.link_type,
        &link.destination,
        &link.title,
        &link.label,
    )?;
    text.push_str("}\n")
}

// Adds which of the two it is.
fn push_element(text: &mut String, is_image: bool) -> Result<(), AllocError>
    ensures { OnOk result (string_bytes text.new
        ≡ string_bytes text.old ++ element_member is_image) }
{
    push_word(text, "element", shown_as(is_image))
}

// Adds the front of an object: the name of the page that it is of.
fn push_file(alloc: Global, text: &mut String, name: &str) -> Result<(), AllocError>
    ensures { OnOk result (string_bytes text.new ≡ string_bytes text.old ++ file_member name.now) }
{
    text.push_str("{\"file\":\"")?;
    push_json_text(alloc, text, name.as_bytes())?;
    text.push_str("\"")
}

// Adds a line and a column.
fn push_position(text: &mut String, position: Position) -> Result<(), AllocError>
    ensures { OnOk result (string_bytes text.new
        ≡ string_bytes text.old ++ position_members position) }
{
    write!(
        text,
        ",\"line\":{},\"column\":{}",
        position.line, position.column
    )
}

// Adds where a link stands in the page.
fn push_range(text: &mut String, link: &PageLink) -> Result<(), AllocError>
    ensures { OnOk result (string_bytes text.new
        ≡ string_bytes text.old ++ range_members (seen_link link.now)) }
{
    write!(
        text,
        ",\"start\":{},\"end\":{}",
        link.range.start, link.range.end
    )
}

/// Adds the object of a fault that is there, of a page of this name.
pub(crate) fn push_fault_json(
    alloc: Global,
    text: &mut String,
    name: &str,
    position: Position,
    report: &Report,
) -> Result<(), AllocError>
    ensures { OnOk result (string_bytes text.new
        ≡ string_bytes text.old ++ fault_json name.now position (seen_report report.now)) }
{
    push_file(alloc, text, name)?;
    push_position(text, position)?;
    push_finding_word(text, report.finding)?;
    push_text(alloc, text, report.text.as_str())?;
    text.push_str("}\n")
}

// Adds what a fault is called.
fn push_finding_word(text: &mut String, finding: Finding) -> Result<(), AllocError>
    ensures { OnOk result (string_bytes text.new
        ≡ string_bytes text.old ++ member (codes "fault") (word_json (finding_words finding))) }
{
    push_word(text, "fault", finding_words(finding))
}

// Adds the text that a fault is about.
fn push_text(alloc: Global, text: &mut String, words: &str) -> Result<(), AllocError>
    ensures { OnOk result (string_bytes text.new
        ≡ string_bytes text.old ++ text_member (codes "text") words.now) }
{
    text.push_str(",\"text\":\"")?;
    push_json_text(alloc, text, words.as_bytes())?;
    text.push_str("\"")
}
