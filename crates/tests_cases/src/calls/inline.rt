//! Character references, unescaping, pipes of wikilinks, link destinations, link titles and autolinks.
ghost use Rattle.std.specs.Prelude.{IfOk};
ghost use Rattle.std.specs.Str.{IsCharBoundary};

use crate::arguments::Arguments;
use crate::entities::ENTITIES;
use crate::printing::{NONE, OrNone, hex_text, none, shown, with_bytes};
use crate::stop::{CaseError, Unreadable};
use markdown_scanners_tree::scanners::{
    scan_autolink, scan_entity, scan_link_dest, scan_link_title, scan_wikilink_pipe, unescape,
};
use markdown_values::strings::CowStr;
use markdown_values::values::LinkType;
use std::alloc::Global;

pub(crate) fn character_reference(
    alloc: Global,
    arguments: &mut Arguments<'_>,
) -> Result<String, CaseError> {
    let bytes = arguments.bytes(alloc)?;
    if bytes.is_empty() {
        return Err(CaseError::Unreadable(Unreadable::NoBytes));
    }
    match scan_entity(&bytes, &ENTITIES) {
        (length, Some(text)) => with_bytes(alloc, &length, text.as_str().as_bytes()),
        (length, None) => Ok(format!(in alloc; "{length} {NONE}")?),
    }
}

pub(crate) fn unescaped(alloc: Global, arguments: &mut Arguments<'_>) -> Result<String, CaseError> {
    let input = arguments.text(alloc)?;
    let is_in_table = arguments.flag()?;
    unescaped_text(alloc, input.as_str(), is_in_table)
}

fn unescaped_text(alloc: Global, input: &str, is_in_table: bool) -> Result<String, CaseError> {
    let text = unescape(alloc, CowStr::from(input), is_in_table, &ENTITIES)?;
    let is_input = matches!(&text, CowStr::Borrowed(_));
    with_bytes(alloc, &is_input, text.as_str().as_bytes())
}

// The offset that comes next, which is between two characters of the text.
fn offset(text: &str, arguments: &mut Arguments<'_>) -> Result<usize, CaseError>
    ensures { IfOk result (λ offset. IsCharBoundary text.now offset) }
{
    let offset = arguments.number()?;
    if !text.is_char_boundary(offset) {
        return Err(CaseError::Unreadable(Unreadable::NotPlace));
    }
    Ok(offset)
}

// A number and a text.
fn text_or_none(alloc: Global, found: Option<(usize, &str)>) -> Result<String, CaseError> {
    match found {
        Some((number, text)) => with_bytes(alloc, &number, text.as_bytes()),
        None => none(alloc),
    }
}

pub(crate) fn wikilink_pipe(
    alloc: Global,
    arguments: &mut Arguments<'_>,
) -> Result<String, CaseError> {
    let text = arguments.text(alloc)?;
    wikilink_pipe_in(alloc, text.as_str(), arguments)
}

fn wikilink_pipe_in(
    alloc: Global,
    text: &str,
    arguments: &mut Arguments<'_>,
) -> Result<String, CaseError> {
    let start = offset(text, arguments)?;
    let length = arguments.number()?;
    text_or_none(alloc, scan_wikilink_pipe(text, start, length))
}

pub(crate) fn link_destination(
    alloc: Global,
    arguments: &mut Arguments<'_>,
) -> Result<String, CaseError> {
    let text = arguments.text(alloc)?;
    link_destination_in(alloc, text.as_str(), arguments)
}

fn link_destination_in(
    alloc: Global,
    text: &str,
    arguments: &mut Arguments<'_>,
) -> Result<String, CaseError> {
    let start = offset(text, arguments)?;
    let max_next = arguments.number()?;
    text_or_none(alloc, scan_link_dest(text, start, max_next))
}

pub(crate) fn link_title(
    alloc: Global,
    arguments: &mut Arguments<'_>,
) -> Result<String, CaseError> {
    let bytes = arguments.bytes(alloc)?;
    shown(alloc, &OrNone(scan_link_title(&bytes)))
}

pub(crate) fn autolink(alloc: Global, arguments: &mut Arguments<'_>) -> Result<String, CaseError> {
    let text = arguments.text(alloc)?;
    autolink_in(alloc, text.as_str(), arguments)
}

fn autolink_in(
    alloc: Global,
    text: &str,
    arguments: &mut Arguments<'_>,
) -> Result<String, CaseError> {
    let start = offset(text, arguments)?;
    match scan_autolink(text, start) {
        Some((end, uri, kind)) => autolink_text(alloc, end, uri.as_str(), kind),
        None => none(alloc),
    }
}

fn autolink_text(
    alloc: Global,
    end: usize,
    uri: &str,
    kind: LinkType,
) -> Result<String, CaseError> {
    let digits = hex_text(alloc, uri.as_bytes())?;
    Ok(format!(in alloc; "{end} {digits} {kind:?}")?)
}
