//! Finds of inline HTML under a guard.
use crate::arguments::Arguments;
use crate::printing::OrNone;
use crate::stop::CaseError;
use markdown_scanners_tree::inline_html::{
    HtmlScanGuard, scan_inline_html_comment, scan_inline_html_processing,
};
use std::alloc::Global;

/// What each offset after an opener finds that isn't below the end of the last find, the guard kept
/// throughout.
pub(crate) fn finds(alloc: Global, arguments: &mut Arguments<'_>) -> Result<String, CaseError> {
    let bytes = arguments.bytes(alloc)?;
    let mut text = String::new(alloc);
    push_finds(&mut text, &bytes)?;
    Ok(text)
}

fn push_finds(text: &mut String, bytes: &[u8]) -> Result<(), CaseError> {
    let mut guard = HtmlScanGuard::new();
    let mut last_end = 0;
    for (index, opener) in bytes.windows(2).enumerate() {
        let offset = index + 2;
        if offset < last_end {
            continue;
        }
        let found = match opener {
            b"<!" => scan_inline_html_comment(bytes, offset, &mut guard),
            b"<?" => scan_inline_html_processing(bytes, offset, &mut guard),
            _ => continue,
        };
        last_end = found.unwrap_or(last_end);
        push_find(text, offset, found)?;
    }
    Ok(())
}

// The find as `PLACE:END` or `PLACE:none`, a space before all but the first.
fn push_find(text: &mut String, offset: usize, found: Option<usize>) -> Result<(), CaseError> {
    let separator = if text.is_empty() { "" } else { " " };
    write!(text, "{separator}{offset}:{}", OrNone(found))?;
    Ok(())
}
