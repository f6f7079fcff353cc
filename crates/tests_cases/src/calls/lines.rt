//! Line endings, runs of bytes and indents.
use crate::arguments::Arguments;
use crate::printing::{OrNone, hex_text, shown};
use crate::stop::{CaseError, Unreadable};
use markdown_scanners_tree::scanners::{
    calc_indent, line_head, scan_blank_line, scan_blockquote_start, scan_ch_repeat, scan_eol,
    scan_line, scan_nextline, scan_spaces_and_tabs, scan_whitespace_no_nl,
};
use std::alloc::Global;

pub(crate) fn eol(alloc: Global, arguments: &mut Arguments<'_>) -> Result<String, CaseError> {
    let bytes = arguments.bytes(alloc)?;
    shown(alloc, &OrNone(scan_eol(&bytes)))
}

pub(crate) fn blank_line(
    alloc: Global,
    arguments: &mut Arguments<'_>,
) -> Result<String, CaseError> {
    let bytes = arguments.bytes(alloc)?;
    shown(alloc, &OrNone(scan_blank_line(&bytes)))
}

pub(crate) fn line_length(
    alloc: Global,
    arguments: &mut Arguments<'_>,
) -> Result<String, CaseError> {
    let bytes = arguments.bytes(alloc)?;
    shown(alloc, &scan_line(&bytes))
}

pub(crate) fn head(alloc: Global, arguments: &mut Arguments<'_>) -> Result<String, CaseError> {
    let bytes = arguments.bytes(alloc)?;
    Ok(hex_text(alloc, line_head(&bytes))?)
}

pub(crate) fn next_line(alloc: Global, arguments: &mut Arguments<'_>) -> Result<String, CaseError> {
    let bytes = arguments.bytes(alloc)?;
    shown(alloc, &scan_nextline(&bytes))
}

pub(crate) fn white_space(
    alloc: Global,
    arguments: &mut Arguments<'_>,
) -> Result<String, CaseError> {
    let bytes = arguments.bytes(alloc)?;
    shown(alloc, &scan_whitespace_no_nl(&bytes))
}

pub(crate) fn spaces_and_tabs(
    alloc: Global,
    arguments: &mut Arguments<'_>,
) -> Result<String, CaseError> {
    let bytes = arguments.bytes(alloc)?;
    shown(alloc, &scan_spaces_and_tabs(&bytes))
}

pub(crate) fn repeated(alloc: Global, arguments: &mut Arguments<'_>) -> Result<String, CaseError> {
    let bytes = arguments.bytes(alloc)?;
    let byte = arguments.byte()?;
    shown(alloc, &scan_ch_repeat(&bytes, byte))
}

pub(crate) fn indent(alloc: Global, arguments: &mut Arguments<'_>) -> Result<String, CaseError> {
    let bytes = arguments.bytes(alloc)?;
    let max = arguments.number()?;
    if max > usize::MAX / 4 {
        return Err(CaseError::Unreadable(Unreadable::TooLarge));
    }
    let (offset, columns) = calc_indent(&bytes, max);
    Ok(format!(in alloc; "{offset}/{columns}")?)
}

pub(crate) fn quote_start(
    alloc: Global,
    arguments: &mut Arguments<'_>,
) -> Result<String, CaseError> {
    let bytes = arguments.bytes(alloc)?;
    shown(alloc, &OrNone(scan_blockquote_start(&bytes)))
}
