//! Thematic breaks, headings, code fences, metadata blocks, list items and delimiter rows, and what
//! interrupts a paragraph.
use crate::arguments::Arguments;
use crate::printing::{OrNone, name_or_none, none, shown, two_or_none};
use crate::stop::CaseError;
use markdown_scanners_tree::scanners::{
    interrupts_paragraph, scan_atx_heading, scan_closing_code_fence, scan_closing_metadata_block,
    scan_code_fence, scan_hrule, scan_listitem, scan_metadata_block, scan_setext_heading,
    scan_table_head,
};
use markdown_values::values::HeadingLevel;
use std::alloc::Global;

pub(crate) fn thematic_break(
    alloc: Global,
    arguments: &mut Arguments<'_>,
) -> Result<String, CaseError> {
    let bytes = arguments.bytes(alloc)?;
    thematic_break_text(alloc, scan_hrule(&bytes))
}

fn thematic_break_text(alloc: Global, found: Result<usize, usize>) -> Result<String, CaseError> {
    let (word, number) = match found {
        Ok(length) => ("ok", length),
        Err(offset) => ("err", offset),
    };
    Ok(format!(in alloc; "{word} {number}")?)
}

pub(crate) fn atx_heading(
    alloc: Global,
    arguments: &mut Arguments<'_>,
) -> Result<String, CaseError> {
    let bytes = arguments.bytes(alloc)?;
    name_or_none(alloc, &scan_atx_heading(&bytes))
}

pub(crate) fn setext_heading(
    alloc: Global,
    arguments: &mut Arguments<'_>,
) -> Result<String, CaseError> {
    let bytes = arguments.bytes(alloc)?;
    setext_heading_text(alloc, scan_setext_heading(&bytes))
}

fn setext_heading_text(
    alloc: Global,
    found: Option<(usize, HeadingLevel)>,
) -> Result<String, CaseError> {
    match found {
        Some((length, level)) => Ok(format!(in alloc; "{length} {level:?}")?),
        None => none(alloc),
    }
}

pub(crate) fn code_fence(
    alloc: Global,
    arguments: &mut Arguments<'_>,
) -> Result<String, CaseError> {
    let bytes = arguments.bytes(alloc)?;
    two_or_none(alloc, &scan_code_fence(&bytes))
}

pub(crate) fn closing_fence(
    alloc: Global,
    arguments: &mut Arguments<'_>,
) -> Result<String, CaseError> {
    let bytes = arguments.bytes(alloc)?;
    let byte = arguments.byte()?;
    let least = arguments.number()?;
    let length = scan_closing_code_fence(&bytes, byte, least);
    shown(alloc, &OrNone(length))
}

pub(crate) fn metadata_block(
    alloc: Global,
    arguments: &mut Arguments<'_>,
) -> Result<String, CaseError> {
    let bytes = arguments.bytes(alloc)?;
    let yaml = arguments.flag()?;
    let pluses = arguments.flag()?;
    two_or_none(alloc, &scan_metadata_block(&bytes, yaml, pluses))
}

pub(crate) fn closing_metadata(
    alloc: Global,
    arguments: &mut Arguments<'_>,
) -> Result<String, CaseError> {
    let bytes = arguments.bytes(alloc)?;
    let byte = arguments.byte()?;
    let length = scan_closing_metadata_block(&bytes, byte);
    shown(alloc, &OrNone(length))
}

pub(crate) fn list_item(alloc: Global, arguments: &mut Arguments<'_>) -> Result<String, CaseError> {
    let bytes = arguments.bytes(alloc)?;
    list_item_text(alloc, scan_listitem(&bytes))
}

fn list_item_text(
    alloc: Global,
    found: Option<(usize, u8, usize, usize)>,
) -> Result<String, CaseError> {
    match found {
        Some((length, delimiter, start, indent)) => {
            Ok(format!(in alloc; "{length} {delimiter} {start} {indent}")?)
        }
        None => none(alloc),
    }
}

pub(crate) fn delimiter_row(
    alloc: Global,
    arguments: &mut Arguments<'_>,
) -> Result<String, CaseError> {
    let bytes = arguments.bytes(alloc)?;
    delimiter_row_text(alloc, &bytes)
}

fn delimiter_row_text(alloc: Global, bytes: &[u8]) -> Result<String, CaseError> {
    let (length, alignments) = scan_table_head(alloc, bytes)?;
    Ok(format!(in alloc; "{length} {alignments:?}")?)
}

pub(crate) fn interruption(
    alloc: Global,
    arguments: &mut Arguments<'_>,
) -> Result<String, CaseError> {
    let bytes = arguments.bytes(alloc)?;
    shown(alloc, &interrupts_paragraph(&bytes))
}
