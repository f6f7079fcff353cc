//! What is reported of the links of a page that lead to files, or to anchors of it and of other pages.
ghost use Rattle.std.specs.Prelude.{◌≡◌, ◌++◌, ℕ, List, IfErr, IfOk, OnOk, Result, Ok, Err, map, string_bytes};
ghost use Rattle.std.specs.Option.{is_some};
ghost use Rattle.page_links.specs.checks.Checks.{AreTargetReports, IsFileReport, IsPageReport, IsTargetReport};
ghost use Rattle.page_links.specs.checks.Checks.{file_report, fragment_report, given, has_path, is_front};
ghost use Rattle.page_links.specs.checks.Checks.{is_known, leads_away, reported, unread_finding};
ghost use Rattle.page_links.specs.checks.private.Pages.{AreAllKept};
ghost use Rattle.page_links.specs.declared.checks.FileState.{FileState};
ghost use Rattle.page_links.specs.links.Links.{seen_link};
ghost use Rattle.page_links.specs.reports.Reports.{Reported, seen_report};
ghost use Rattle.page_links.specs.targets.Targets.{fragment_of};
ghost use Rattle.program_faults.specs.declared.reasons.Reason.{Reason};

use crate::anchors::Anchors;
use crate::labels::is_footnote;
use crate::links::PageLink;
use crate::printing::LinkForm;
use crate::reports::{Finding, Report};
use crate::targets::{fragment_of, fragment_text, is_elsewhere, is_page, opened_path, path_of};
use markdown_values::values::{Extensions, LinkType};
use program_faults::Reason;
use std::alloc::{AllocError, Global};
use std::collections::BTreeMap;

/// What looking for a file or a folder comes to.
#[derive(Clone, Copy, Debug)]
pub enum FileState {
    /// It is there.
    There,
    /// It is not.
    Missing,
    /// It is not known: a folder on its path may not be searched.
    Denied,
}

/// What says whether a file is there, and reads it.
pub trait FindsFiles {
    // It may answer so of a path.
    ghost finds: { Self → List ℕ → FileState → Type 0 };

    // Reading the file of a path may come to this.
    ghost reads: { Self → List ℕ → Result (List ℕ) Reason → Type 0 };

    /// Looks for a file or a folder of this path.
    ///
    /// # Errors
    ///
    /// `AllocError` where memory is refused.
    fn look_for(&self, path: &str) -> Result<FileState, AllocError>
        ensures { IfOk result (λ answer. finds self.now path.now answer) };

    /// The one path by which the file of this path is known, however that is written: reading it
    /// comes to the same.
    ///
    /// # Errors
    ///
    /// `AllocError` where memory is refused.
    fn real_path(&self, path: &str) -> Result<String, AllocError>
        ensures { IfOk result (λ real. (given : Result (List ℕ) Reason)
            → reads self.now (string_bytes real) given → reads self.now path.now given) };

    /// Reads the file of this path, up to its end.
    ///
    /// # Errors
    ///
    /// Why it can't be read.
    fn read_file(&self, path: &str) -> Result<Vec<u8>, Reason>
        ensures read { IfOk result (λ bytes. reads self.now path.now (Ok bytes.items)) }
        ensures unread { IfErr result (λ why. reads self.now path.now (Err why)) };
}

/// What pages are checked with.
#[derive(Drop)]
pub struct Checks<'l, L> {
    /// What finds files, and reads them.
    pub finder: &'l L,
    /// The folder from which destinations lead that begin with a slash; where none is given, they are
    /// not looked for.
    pub root: Option<&'l str>,
    /// The form of what is printed.
    pub form: LinkForm,
    /// How pages are read.
    pub setting: Extensions,
}

/// Adds what is reported of the links of the page of this name, which has these anchors. Those of other
/// pages are kept by the paths by which these are known, so that each is read once.
pub(crate) fn push_target_reports<L: FindsFiles>(
    alloc: Global,
    reports: &mut Vec<Report>,
    checks: &Checks<L>,
    name: &str,
    anchors: &Anchors,
    others: &mut BTreeMap<String, Anchors>,
    links: &[PageLink],
) -> Result<(), AllocError>
    requires kept { AreAllKept (L.reads checks.now.finder.now) checks.now.setting others.old }
    ensures kept { OnOk result
        (AreAllKept (L.reads checks.now.finder.now) checks.now.setting others.new) }
    ensures reports { OnOk result ((here : List Reported)
        × AreTargetReports (L.reads checks.now.finder.now) checks.now.setting
        (L.finds checks.now.finder.now) (given checks.now.root)
        name.now anchors.now (map seen_link links.now) here
        × (map seen_report reports.new.items ≡ map seen_report reports.old.items ++ here)) }
{
    for link in links {
        push_target_report(alloc, reports, checks, name, anchors, others, link)?;
    }
    Ok(())
}

// Adds what is reported of a link.
fn push_target_report<L: FindsFiles>(
    alloc: Global,
    reports: &mut Vec<Report>,
    checks: &Checks<L>,
    name: &str,
    anchors: &Anchors,
    others: &mut BTreeMap<String, Anchors>,
    link: &PageLink,
) -> Result<(), AllocError>
    requires kept { AreAllKept (L.reads checks.now.finder.now) checks.now.setting others.old }
    ensures kept { OnOk result
        (AreAllKept (L.reads checks.now.finder.now) checks.now.setting others.new) }
    ensures reports { OnOk result ((here : List Reported)
        × IsTargetReport (L.reads checks.now.finder.now) checks.now.setting
        (L.finds checks.now.finder.now) (given checks.now.root)
        name.now anchors.now (seen_link link.now) here
        × (map seen_report reports.new.items ≡ map seen_report reports.old.items ++ here)) }
{
    if leads_away(checks.root, link) {
        return Ok(());
    }
    let path = path_of(link.destination.as_str().as_bytes());
    if path.is_empty() {
        return push_fragment_report(alloc, reports, anchors, link);
    }
    let opened = opened_path(alloc, checks.root, name, path)?;
    push_file_report(alloc, reports, checks, others, opened.as_str(), link)
}

// Adds what is reported of a link to the file of this path.
fn push_file_report<L: FindsFiles>(
    alloc: Global,
    reports: &mut Vec<Report>,
    checks: &Checks<L>,
    others: &mut BTreeMap<String, Anchors>,
    path: &str,
    link: &PageLink,
) -> Result<(), AllocError>
    requires kept { AreAllKept (L.reads checks.now.finder.now) checks.now.setting others.old }
    ensures kept { OnOk result
        (AreAllKept (L.reads checks.now.finder.now) checks.now.setting others.new) }
    ensures reports { OnOk result ((here : List Reported)
        × IsFileReport (L.reads checks.now.finder.now) checks.now.setting
        (L.finds checks.now.finder.now) (given checks.now.root) path.now (seen_link link.now) here
        × (map seen_report reports.new.items ≡ map seen_report reports.old.items ++ here)) }
{
    if has_fragment(link) && is_page(path.as_bytes()) {
        return push_page_report(alloc, reports, checks, others, path, link);
    }
    let state = checks.finder.look_for(path)?;
    push_state_report(alloc, reports, link, state)
}

// Adds what is reported of a link to the page of this path.
fn push_page_report<L: FindsFiles>(
    alloc: Global,
    reports: &mut Vec<Report>,
    checks: &Checks<L>,
    others: &mut BTreeMap<String, Anchors>,
    path: &str,
    link: &PageLink,
) -> Result<(), AllocError>
    requires kept { AreAllKept (L.reads checks.now.finder.now) checks.now.setting others.old }
    ensures kept { OnOk result
        (AreAllKept (L.reads checks.now.finder.now) checks.now.setting others.new) }
    ensures reports { OnOk result ((here : List Reported)
        × IsPageReport (L.reads checks.now.finder.now) checks.now.setting
        path.now (seen_link link.now) here
        × (map seen_report reports.new.items ≡ map seen_report reports.old.items ++ here)) }
{
    let real = checks.finder.real_path(path)?;
    push_report_of_page(alloc, reports, checks, others, real.as_str(), link)
}

// The same where this is the path by which the page is known.
fn push_report_of_page<L: FindsFiles>(
    alloc: Global,
    reports: &mut Vec<Report>,
    checks: &Checks<L>,
    others: &mut BTreeMap<String, Anchors>,
    path: &str,
    link: &PageLink,
) -> Result<(), AllocError>
    requires kept { AreAllKept (L.reads checks.now.finder.now) checks.now.setting others.old }
    ensures kept { OnOk result
        (AreAllKept (L.reads checks.now.finder.now) checks.now.setting others.new) }
    ensures reports { OnOk result ((here : List Reported)
        × IsPageReport (L.reads checks.now.finder.now) checks.now.setting
        path.now (seen_link link.now) here
        × (map seen_report reports.new.items ≡ map seen_report reports.old.items ++ here)) }
{
    if let Some(anchors) = others.get(path) {
        return push_fragment_report(alloc, reports, anchors, link);
    }
    let page = match checks.finder.read_file(path) {
        Ok(page) => page,
        Err(reason) => return push_unread_report(alloc, reports, link, reason),
    };
    let anchors = Anchors::of_bytes(alloc, &page, checks.setting)?;
    push_fragment_report(alloc, reports, &anchors, link)?;
    others.insert(String::from_str(alloc, path)?, anchors)?;
    Ok(())
}

// Adds what is reported of a link to a page that can't be read for this reason.
fn push_unread_report(
    alloc: Global,
    reports: &mut Vec<Report>,
    link: &PageLink,
    reason: Reason,
) -> Result<(), AllocError>
    ensures { OnOk result (map seen_report reports.new.items
        ≡ map seen_report reports.old.items ++ reported (unread_finding reason) (seen_link link.now)) }
{
    if reason == Reason::Memory {
        return Err(AllocError);
    }
    push_report(alloc, reports, link, unread_finding(reason))
}

// Why a page can't be read, by the reason: where no file can have its path, it is not there.
fn unread_finding(reason: Reason) -> Finding
    ensures { result ≡ unread_finding reason }
{
    match reason {
        Reason::NotFound | Reason::NotFolder | Reason::Links | Reason::LongName | Reason::Invalid =>
            Finding::NoFile,
        Reason::Denied => Finding::Denied,
        _ => Finding::Unread,
    }
}

// Adds what is reported of a link to a file of this state.
fn push_state_report(
    alloc: Global,
    reports: &mut Vec<Report>,
    link: &PageLink,
    state: FileState,
) -> Result<(), AllocError>
    ensures { OnOk result (map seen_report reports.new.items
        ≡ map seen_report reports.old.items ++ file_report (seen_link link.now) state) }
{
    match state {
        FileState::There => Ok(()),
        FileState::Missing => push_report(alloc, reports, link, Finding::NoFile),
        FileState::Denied => push_report(alloc, reports, link, Finding::Denied),
    }
}

// Adds what is reported of a link to its fragment, in a page that has these anchors.
fn push_fragment_report(
    alloc: Global,
    reports: &mut Vec<Report>,
    anchors: &Anchors,
    link: &PageLink,
) -> Result<(), AllocError>
    ensures { OnOk result (map seen_report reports.new.items ≡ map seen_report reports.old.items
        ++ fragment_report anchors.now (seen_link link.now)
        (fragment_of (seen_link link.now).destination)) }
{
    let Some(bytes) = fragment_of(link.destination.as_str().as_bytes()) else {
        return Ok(());
    };
    let text = fragment_text(alloc, bytes)?;
    if is_known(anchors, text.as_str()) {
        return Ok(());
    }
    push_report(alloc, reports, link, Finding::NoAnchor)
}

// Whether a link has a fragment.
fn has_fragment(link: &PageLink) -> bool
    ensures { result ≡ is_some (fragment_of (seen_link link.now).destination) }
{
    fragment_of(link.destination.as_str().as_bytes()).is_some()
}

// Whether it is the front of the page, or one of these anchors.
fn is_known(anchors: &Anchors, text: &str) -> bool
    ensures { result ≡ is_known anchors.now text.now }
{
    is_front(text) || anchors.contains(text)
}

// Whether it is the front of the page, in ASCII letters of any case.
fn is_front(text: &str) -> bool
    ensures { result ≡ is_front text.now }
{
    text.is_empty() || text.eq_ignore_ascii_case("top")
}

// Whether a link has no path that is looked for where this folder is the root, or is a footnote.
fn leads_away(root: Option<&str>, link: &PageLink) -> bool
    ensures { result ≡ leads_away (given root.entry) (seen_link link.now) }
{
    !has_path(link.link_type)
        || is_elsewhere(root, link.destination.as_str().as_bytes())
        || is_footnote(link.label.as_str())
}

// Whether links that are written so have a path: autolinks have an address, wikilinks a name.
fn has_path(kind: LinkType) -> bool
    ensures { result ≡ has_path kind }
{
    match kind {
        LinkType::Autolink | LinkType::Email | LinkType::WikiLink { .. } => false,
        _ => true,
    }
}

// Adds a report of where a link leads.
fn push_report(
    alloc: Global,
    reports: &mut Vec<Report>,
    link: &PageLink,
    finding: Finding,
) -> Result<(), AllocError>
    ensures { OnOk result (map seen_report reports.new.items
        ≡ map seen_report reports.old.items ++ reported finding (seen_link link.now)) }
{
    let text = String::from_str(alloc, link.destination.as_str())?;
    reports.push(Report {
        offset: link.range.start,
        finding,
        text,
    })?;
    Ok(())
}
