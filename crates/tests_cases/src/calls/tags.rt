//! Names that begin HTML blocks, and tags over lines.
ghost use Rattle.std.specs.Prelude.{◌≡◌, ◌≤◌, length};
ghost use Rattle.tests_cases.specs.Skipped.{skipped};

use crate::arguments::Arguments;
use crate::printing::{OrNone, hex_text, none, shown};
use crate::skips::Skips;
use crate::stop::CaseError;
use markdown_scanners_tree::scanners::{
    scan_html_block_inner, scan_html_type_7, starts_html_block_type_6,
};
use std::alloc::{AllocError, Global};

pub(crate) fn block_name(
    alloc: Global,
    arguments: &mut Arguments<'_>,
) -> Result<String, CaseError> {
    let bytes = arguments.bytes(alloc)?;
    shown(alloc, &starts_html_block_type_6(&bytes))
}

pub(crate) fn tag_alone(alloc: Global, arguments: &mut Arguments<'_>) -> Result<String, CaseError> {
    let bytes = arguments.bytes(alloc)?;
    shown(alloc, &OrNone(scan_html_type_7(&bytes)))
}

fn scan_tag(
    alloc: Global,
    bytes: &[u8],
    skips: Skips,
) -> Result<Option<(Vec<u8>, usize)>, AllocError> {
    let handler = |rest: &[u8]| -> usize
        ensures count { result ≡ skipped skips rest.now }
        ensures within { result ≤ length rest.now }
    { skips.count(rest) };
    match skips {
        Skips::Refused => scan_html_block_inner(alloc, bytes, None::<&fn(&[u8]) -> usize>),
        _ => scan_html_block_inner(alloc, bytes, Some(&handler)),
    }
}

pub(crate) fn tag(alloc: Global, arguments: &mut Arguments<'_>) -> Result<String, CaseError> {
    let bytes = arguments.bytes(alloc)?;
    let skips = arguments.skips()?;
    tag_text(alloc, &bytes, skips)
}

fn tag_text(alloc: Global, bytes: &[u8], skips: Skips) -> Result<String, CaseError> {
    match scan_tag(alloc, bytes, skips)? {
        Some((buffer, length)) => before_number(alloc, &hex_text(alloc, &buffer)?, length),
        None => none(alloc),
    }
}

fn before_number(alloc: Global, digits: &String, number: usize) -> Result<String, CaseError> {
    Ok(format!(in alloc; "{digits} {number}")?)
}
