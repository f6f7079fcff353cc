//! What is printed of a page.
ghost use Rattle.std.specs.Prelude.{◌≡◌, ◌++◌, IfOk, List, OnOk, map, string_bytes};
ghost use Rattle.page_links.specs.links.Links.{seen_link};
ghost use Rattle.page_links.specs.checks.Checks.{given};
ghost use Rattle.page_links.specs.page.Printed.{AreReports, IsChecked, IsList, line_of, list_of, name_in, report_line_of, reports_of};
ghost use Rattle.markdown_blocks.specs.byte_order_mark.ByteOrderMark.{text_of};
ghost use Rattle.page_positions.specs.private.Lines.{IsLineOf};
ghost use Rattle.page_links.specs.reports.Reports.{seen_report};

use crate::anchors::Anchors;
use crate::checks::{Checks, FindsFiles, push_target_reports};
use crate::html::html_of_page;
use crate::html_links::html_links;
use crate::labels::label_reports;
use crate::links::{PageLink, links_of_page};
pub use crate::printing::LinkForm;
use crate::printing::{push_fault, push_line};
use crate::reports::Report;
use html_attributes::tags::start_tags;
use markdown_values::values::Extensions;
use page_positions::{Line, text_position_at};
use page_programs::names::shown;
use std::alloc::{AllocError, Global};
use std::collections::BTreeMap;

/// What is printed of a page of this name: a line for each of its links and images, and then for each
/// report of its labels, as `HELP` has them. All are in this form.
///
/// # Errors
///
/// `AllocError` where memory is refused.
pub fn list_of_page(
    alloc: Global,
    name: &str,
    page: &str,
    setting: Extensions,
    form: LinkForm,
) -> Result<String, AllocError>
    ensures { IfOk result (λ text. IsList form setting name.now page.now (string_bytes text)) }
{
    let links = links_of_page(alloc, page, setting)?;
    let reports = label_reports(alloc, page, setting, &links)?;
    let mut text = String::new(alloc);
    push_list(alloc, &mut text, form, name, page.as_bytes(), &links)?;
    push_reports(alloc, &mut text, form, name, page.as_bytes(), &reports)?;
    Ok(text)
}

// Adds the lines of these links of a page.
fn push_list(
    alloc: Global,
    text: &mut String,
    form: LinkForm,
    name: &str,
    page: &[u8],
    links: &[PageLink],
) -> Result<(), AllocError>
    ensures { OnOk result (string_bytes text.new
        ≡ string_bytes text.old ++ list_of form name.now page.now (map seen_link links.now)) }
{
    let mut line = Line::first_of_text(page);
    for link in links {
        push_found(alloc, text, form, name, page, &mut line, link)?;
    }
    Ok(())
}

// Adds the line of a link of the page, of which this is a line.
fn push_found(
    alloc: Global,
    text: &mut String,
    form: LinkForm,
    name: &str,
    page: &[u8],
    line: &mut Line,
    link: &PageLink,
) -> Result<(), AllocError>
    requires line { IsLineOf (text_of page.now) line.old }
    ensures line { IsLineOf (text_of page.now) line.new }
    ensures written { OnOk result (string_bytes text.new
        ≡ string_bytes text.old ++ line_of form name.now page.now (seen_link link.now)) }
{
    let position = text_position_at(page, line, link.range.start);
    push_line(alloc, text, form, name, position, link)
}

// Adds the lines of these reports of a page.
fn push_reports(
    alloc: Global,
    text: &mut String,
    form: LinkForm,
    name: &str,
    page: &[u8],
    reports: &[Report],
) -> Result<(), AllocError>
    ensures { OnOk result (string_bytes text.new ≡ string_bytes text.old
        ++ reports_of form name.now page.now (map seen_report reports.now)) }
{
    let mut line = Line::first_of_text(page);
    for report in reports {
        push_reported(alloc, text, form, name, page, &mut line, report)?;
    }
    Ok(())
}

// Adds the line of a report of the page, of which this is a line.
fn push_reported(
    alloc: Global,
    text: &mut String,
    form: LinkForm,
    name: &str,
    page: &[u8],
    line: &mut Line,
    report: &Report,
) -> Result<(), AllocError>
    requires line { IsLineOf (text_of page.now) line.old }
    ensures line { IsLineOf (text_of page.now) line.new }
    ensures written { OnOk result (string_bytes text.new ≡ string_bytes text.old
        ++ report_line_of form name.now page.now (seen_report report.now)) }
{
    let position = text_position_at(page, line, report.offset);
    push_fault(alloc, text, form, name, position, report)
}

/// What is printed of a page of this name where it is checked in this way: a line for each report of
/// its labels, and then for each of its links, and of those that are raw HTML, that leads to a file
/// that is not there, or to an anchor that nothing in the page, or in another page, makes.
///
/// Each other page is read once, and its anchors are kept until this one is checked.
///
/// # Errors
///
/// `AllocError` where memory is refused.
pub fn check_of_page<L: FindsFiles>(
    alloc: Global,
    checks: &Checks<L>,
    name: &str,
    page: &str,
) -> Result<String, AllocError>
    ensures { IfOk result (λ text. IsChecked (L.reads checks.now.finder.now) checks.now.setting
        (L.finds checks.now.finder.now) (given checks.now.root) checks.now.form
        name.now page.now (string_bytes text)) }
{
    let reports = reports_of_page(alloc, checks, name, page)?;
    let called = name_in(alloc, checks.form, name)?;
    let mut text = String::new(alloc);
    push_reports(
        alloc,
        &mut text,
        checks.form,
        called.as_str(),
        page.as_bytes(),
        &reports,
    )?;
    Ok(text)
}

// What is reported of a page of this name where it is checked in this way.
fn reports_of_page<L: FindsFiles>(
    alloc: Global,
    checks: &Checks<L>,
    name: &str,
    page: &str,
) -> Result<Vec<Report>, AllocError>
    ensures { IfOk result (λ reports. AreReports (L.reads checks.now.finder.now)
        checks.now.setting (L.finds checks.now.finder.now) (given checks.now.root)
        name.now page.now (map seen_report reports.items)) }
{
    let setting = checks.setting;
    let links = links_of_page(alloc, page, setting)?;
    let anchors = Anchors::of_page(alloc, page, setting)?;
    let mut kept = BTreeMap::new(alloc);
    let mut made = label_reports(alloc, page, setting, &links)?;
    push_target_reports(alloc, &mut made, checks, name, &anchors, &mut kept, &links)?;
    let html = html_of_page(alloc, page, setting)?;
    let tags = start_tags(alloc, &html)?;
    let shown = html_links(alloc, &tags)?;
    push_target_reports(alloc, &mut made, checks, name, &anchors, &mut kept, &shown)?;
    Ok(made)
}

/// The name of a page as lines in this form have it.
pub(crate) fn name_in(alloc: Global, form: LinkForm, name: &str) -> Result<String, AllocError>
    ensures { IfOk result (λ text. string_bytes text ≡ name_in form name.now) }
{
    match form {
        LinkForm::Words => shown(alloc, name),
        LinkForm::Json => String::from_str(alloc, name),
    }
}
