//! Where HTML blocks begin and end.
use crate::arguments::Arguments;
use crate::printing::{name_or_none, shown};
use crate::stop::{CaseError, Unreadable};
use markdown_scanners_tree::scanners::{HtmlBlockKind, ends_html_block, scan_html_block_start};
use std::alloc::Global;

// The kind of the block that the start condition of the next number begins.
fn kind(arguments: &mut Arguments<'_>) -> Result<HtmlBlockKind, Unreadable> {
    let number = u8::try_from(arguments.number()?).map_err(|_| Unreadable::UnknownKind)?;
    HtmlBlockKind::from_number(number).ok_or(Unreadable::UnknownKind)
}

pub(crate) fn start(alloc: Global, arguments: &mut Arguments<'_>) -> Result<String, CaseError> {
    let bytes = arguments.bytes(alloc)?;
    name_or_none(alloc, &scan_html_block_start(&bytes))
}

pub(crate) fn end(alloc: Global, arguments: &mut Arguments<'_>) -> Result<String, CaseError> {
    let line = arguments.bytes(alloc)?;
    let kind = kind(arguments)?;
    shown(alloc, &ends_html_block(&line, kind))
}
