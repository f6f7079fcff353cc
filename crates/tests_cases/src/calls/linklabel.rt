//! Link labels.
ghost use Rattle.std.specs.Prelude.{◌≡◌, IfSome};
ghost use Rattle.std.specs.Str.{IsUtf8, IsCharBoundary};
ghost use Rattle.tests_cases.specs.Skipped.{skipped_or_none};

use crate::arguments::Arguments;
use crate::printing::{hex_text, none};
use crate::skips::Skips;
use crate::stop::CaseError;
use markdown_scanners_tree::linklabel::scan_link_label_rest;
use markdown_values::strings::CowStr;
use std::alloc::{AllocError, Global};

fn scan_label<'t>(
    alloc: Global,
    text: &'t str,
    skips: Skips,
    is_in_table: bool,
) -> Result<Option<(usize, CowStr<'t>)>, AllocError> {
    let handler = |rest: &[u8]| -> Option<usize>
        ensures value { result ≡ skipped_or_none skips rest.now }
        ensures boundary { IfSome result (λ n. IsUtf8 rest.now → IsCharBoundary rest.now n) }
    {
        match skips {
            Skips::Refused => None,
            _ => Some(skips.count(rest)),
        }
    };
    scan_link_label_rest(alloc, text, &handler, is_in_table)
}

pub(crate) fn label(alloc: Global, arguments: &mut Arguments<'_>) -> Result<String, CaseError> {
    let text = arguments.text(alloc)?;
    let skips = arguments.skips()?;
    let is_in_table = arguments.flag()?;
    label_text(alloc, text.as_str(), skips, is_in_table)
}

fn label_text(
    alloc: Global,
    text: &str,
    skips: Skips,
    is_in_table: bool,
) -> Result<String, CaseError> {
    match scan_label(alloc, text, skips, is_in_table)? {
        Some((taken, label)) => held_label_text(alloc, taken, &label),
        None => none(alloc),
    }
}

fn held_label_text(alloc: Global, taken: usize, label: &CowStr<'_>) -> Result<String, CaseError> {
    let is_lent = matches!(label, CowStr::Borrowed(_));
    let digits = hex_text(alloc, label.as_str().as_bytes())?;
    Ok(format!(in alloc; "{taken} {is_lent} {digits}")?)
}
