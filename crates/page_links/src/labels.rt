//! What is reported of the labels of a page. (CommonMark 0.31.2, sections 4.7 and 6.3)
ghost use Rattle.std.specs.Prelude.{◌≡◌, ◌++◌, [], ◌∷◌, List, ℕ, map, IfOk, OnOk};
ghost use Rattle.std.specs.List.{flat_map};
ghost use Rattle.page_links.specs.definitions.Definitions.{seen_definition};
ghost use Rattle.page_links.specs.label_set.LabelSet.{HasLabels};
ghost use Rattle.page_links.specs.labels.Labels.{AreLabelReports, AreLinksIfDefined, is_apart, is_comment, is_footnote};
ghost use Rattle.page_links.specs.labels.Labels.{is_full_or_collapsed, labels_defined, labels_of, not_defined, of_definition, of_definitions};
ghost use Rattle.page_links.specs.labels.Labels.{needs_definition};
ghost use Rattle.page_links.specs.links.Links.{seen_link};
ghost use Rattle.page_links.specs.reports.Reports.{seen_report};

use crate::definitions::{PageDefinition, definitions_of_page};
use crate::label_set::LabelSet;
use crate::links::{PageLink, push_link};
use crate::reports::{Finding, Report};
use markdown_events::definitions::{Definitions, Target};
use markdown_events::event_reader::EventReader;
use markdown_values::strings::CowStr;
use markdown_values::values::{Extensions, LinkType};
use std::alloc::{AllocError, Global};

/// What is reported of the labels of a page that has these links: first each that a full or a
/// collapsed reference uses and no definition has, then each definition whose label has one before
/// it, or which no link uses. Nothing is reported of footnotes, and of definitions that are comments.
///
/// Each label takes a few searches in a tree of labels, however many the page has.
///
/// # Errors
///
/// `AllocError` where memory is refused.
pub fn label_reports(
    alloc: Global,
    page: &str,
    setting: Extensions,
    links: &[PageLink],
) -> Result<Vec<Report>, AllocError>
    ensures { IfOk result (λ reports. AreLabelReports page.now setting
        (map seen_link links.now) (map seen_report reports.items)) }
{
    let definitions = definitions_of_page(alloc, page.as_bytes(), setting)?;
    let defined = labels_defined(alloc, &definitions)?;
    let asked = links_if_defined(alloc, page, setting)?;
    let mut reports = Vec::new(alloc);
    push_undefined(alloc, &mut reports, &defined, &asked)?;
    let used = labels_of(alloc, links)?;
    push_definitions(alloc, &mut reports, &used, &definitions)?;
    Ok(reports)
}

// The labels of definitions.
fn labels_defined(alloc: Global, definitions: &[PageDefinition]) -> Result<LabelSet, AllocError>
    ensures { IfOk result (λ labels.
        HasLabels labels (labels_defined (map seen_definition definitions.now))) }
{
    let mut labels = LabelSet::new(alloc);
    for definition in definitions {
        labels.add(definition.label.as_str())?;
    }
    Ok(labels)
}

// The labels of links; of those that are no references, none.
fn labels_of(alloc: Global, links: &[PageLink]) -> Result<LabelSet, AllocError>
    ensures { IfOk result (λ labels. HasLabels labels (labels_of (map seen_link links.now))) }
{
    let mut labels = LabelSet::new(alloc);
    for link in links {
        labels.add(link.label.as_str())?;
    }
    Ok(labels)
}

// Every label leads somewhere.
#[derive(Clone, Copy, Drop)]
struct Everywhere;

impl<'a> Definitions<'a> for Everywhere {
    ghost use Rattle.page_links.specs.labels.Labels.{everywhere};

    ghost targets = { λ _. everywhere };

    fn find(&self, _label: &str) -> Result<Option<Target<'a>>, AllocError> {
        Ok(Some(Target {
            destination: CowStr::from(""),
            title: None,
        }))
    }

    fn is_defined(&self, _label: &str) -> Result<bool, AllocError> {
        Ok(true)
    }
}

// The links that a page would have if every label were defined.
fn links_if_defined<'a>(
    alloc: Global,
    page: &'a str,
    setting: Extensions,
) -> Result<Vec<PageLink<'a>>, AllocError>
    ensures { IfOk result (λ links.
        AreLinksIfDefined page.now setting (map seen_link links.items)) }
{
    let mut reader = EventReader::with_setting(alloc, page, setting)?;
    let mut links = Vec::new(alloc);
    while let Some(event) = reader.next_with(&Everywhere)? {
        push_link(&mut links, event)?;
    }
    Ok(links)
}

// Adds a report of each full or collapsed reference among these links whose label is not defined.
fn push_undefined(
    alloc: Global,
    reports: &mut Vec<Report>,
    defined: &LabelSet,
    links: &[PageLink],
) -> Result<(), AllocError>
    ensures { OnOk result ((labels : List (List ℕ)) → HasLabels defined.now labels
        → map seen_report reports.new.items ≡ map seen_report reports.old.items
        ++ flat_map (not_defined labels) (map seen_link links.now)) }
{
    for link in links {
        push_not_defined(alloc, reports, defined, link)?;
    }
    Ok(())
}

// Adds the report of a link, if there is one.
fn push_not_defined(
    alloc: Global,
    reports: &mut Vec<Report>,
    defined: &LabelSet,
    link: &PageLink,
) -> Result<(), AllocError>
    ensures { OnOk result ((labels : List (List ℕ)) → HasLabels defined.now labels
        → map seen_report reports.new.items
        ≡ map seen_report reports.old.items ++ not_defined labels (seen_link link.now)) }
{
    let text = link.label.as_str();
    if !needs_definition(link) {
        return Ok(());
    }
    if defined.contains(text)? {
        return Ok(());
    }
    push_report(alloc, reports, link.range.start, Finding::NotDefined, text)
}

// Adds a report.
fn push_report(
    alloc: Global,
    reports: &mut Vec<Report>,
    offset: usize,
    finding: Finding,
    text: &str,
) -> Result<(), AllocError>
    ensures { OnOk result (map seen_report reports.new.items ≡ map seen_report reports.old.items
        ++ record { offset = offset; finding = finding; text = text.now } ∷ []) }
{
    let text = String::from_str(alloc, text)?;
    reports.push(Report {
        offset,
        finding,
        text,
    })?;
    Ok(())
}

// Whether a link is one only where a definition has its label.
fn needs_definition(link: &PageLink) -> bool
    ensures { result ≡ needs_definition (seen_link link.now) }
{
    is_full_or_collapsed(link.link_type) && !is_footnote(link.label.as_str())
}

// Whether a link is written as a full or a collapsed reference.
fn is_full_or_collapsed(kind: LinkType) -> bool
    ensures { result ≡ is_full_or_collapsed kind }
{
    match kind {
        LinkType::Reference | LinkType::Collapsed => true,
        _ => false,
    }
}

// Adds a report of each definition whose label has one before it, or is not used.
fn push_definitions(
    alloc: Global,
    reports: &mut Vec<Report>,
    used: &LabelSet,
    definitions: &[PageDefinition],
) -> Result<(), AllocError>
    ensures { OnOk result ((labels : List (List ℕ)) → HasLabels used.now labels
        → map seen_report reports.new.items ≡ map seen_report reports.old.items
        ++ of_definitions labels [] (map seen_definition definitions.now)) }
{
    let mut before = LabelSet::new(alloc);
    for definition in definitions {
        push_of_definition(alloc, reports, used, &before, definition)?;
        before.add(definition.label.as_str())?;
    }
    Ok(())
}

// Adds the report of a definition, if there is one, where links use these labels and these are
// defined before it.
fn push_of_definition(
    alloc: Global,
    reports: &mut Vec<Report>,
    used: &LabelSet,
    before: &LabelSet,
    definition: &PageDefinition,
) -> Result<(), AllocError>
    ensures { OnOk result ((labels earlier : List (List ℕ)) → HasLabels used.now labels
        → HasLabels before.now earlier
        → map seen_report reports.new.items ≡ map seen_report reports.old.items
        ++ of_definition labels earlier (seen_definition definition.now)) }
{
    let text = definition.label.as_str();
    if is_apart(text) {
        return Ok(());
    }
    if before.contains(text)? {
        return push_report(
            alloc,
            reports,
            definition.offset,
            Finding::DefinedBefore,
            text,
        );
    }
    if used.contains(text)? {
        return Ok(());
    }
    push_report(alloc, reports, definition.offset, Finding::NotUsed, text)
}

// Whether a definition of this label defines no link: it is a comment, or a footnote.
fn is_apart(label: &str) -> bool
    ensures { result ≡ is_apart label.now }
{
    is_comment(label) || is_footnote(label)
}

// Whether a definition of this label is a comment.
fn is_comment(label: &str) -> bool
    ensures { result ≡ is_comment label.now }
{
    label == "//"
}

/// Whether a label is that of a footnote.
pub(crate) fn is_footnote(label: &str) -> bool
    ensures { result ≡ is_footnote label.now }
{
    matches!(label.as_bytes(), [b'^', ..])
}
