//! HTML tags, and inline HTML under a guard.
ghost use Rattle.std.specs.Prelude.{◌≡◌};

use crate::loops::{count, each_rest, two};
use markdown_scanners_tree::inline_html::{
    HtmlScanGuard, InlineHtmlRun, scan_inline_html_comment, scan_inline_html_processing,
};
use markdown_scanners_tree::scanners::*;
use std::alloc::Global;

fn tag_without_handler(alloc: Global, b: &[u8]) -> u64 {
    match scan_html_block_inner(alloc, b, None::<&fn(&[u8]) -> usize>) {
        Ok(Some((text, n))) => two(n, text.len() as u64),
        _ => 0,
    }
}

#[unsafe(no_mangle)]
pub extern "C" fn ours_tag(alloc: Global, text: &[u8], at: &[usize], rounds: usize) -> u64 {
    let call = |b: &[u8]| -> u64 { tag_without_handler(alloc, b) };
    each_rest(text, at, rounds, &call)
}

fn tag_in_quote(alloc: Global, b: &[u8]) -> u64 {
    // By a pattern: `starts_with` makes the answer without a branch, and each line then waits for the
    // answer of the line before it.
    let quote = |rest: &[u8]| -> usize {
        if matches!(rest, [b'>', b' ', ..]) {
            2
        } else {
            0
        }
    };
    match scan_html_block_inner(alloc, b, Some(&quote)) {
        Ok(Some((text, n))) => two(n, text.len() as u64),
        _ => 0,
    }
}

#[unsafe(no_mangle)]
pub extern "C" fn ours_tag_lines(alloc: Global, text: &[u8], at: &[usize], rounds: usize) -> u64 {
    let call = |b: &[u8]| -> u64 { tag_in_quote(alloc, b) };
    each_rest(text, at, rounds, &call)
}

// The guarded scans after all openers outside earlier finds. The offsets are those just after `<!`
// and `<?`.
#[unsafe(no_mangle)]
pub extern "C" fn ours_inline_html(text: &[u8], at: &[usize], rounds: usize) -> u64 {
    let mut sum: u64 = 0;
    for _ in 0..rounds {
        let mut guard = HtmlScanGuard::new();
        let mut end = 0;
        for offset in at {
            let offset = *offset;
            if offset >= end && offset > 0 && offset <= text.len() {
                let found = if text[offset - 1] == b'!' {
                    scan_inline_html_comment(text, offset, &mut guard)
                } else {
                    scan_inline_html_processing(text, offset, &mut guard)
                };
                if let Some(next) = found {
                    end = next;
                }
                sum = sum.wrapping_add(count(found));
            }
        }
    }
    sum
}

// The same through a run, which the reference does not have.
#[unsafe(no_mangle)]
pub extern "C" fn ours_inline_html_run(text: &[u8], at: &[usize], rounds: usize) -> u64 {
    let mut sum: u64 = 0;
    for _ in 0..rounds {
        let mut run = InlineHtmlRun::new(text);
        for offset in at {
            if let Ok(found) = run.step(*offset) {
                sum = sum.wrapping_add(count(found));
            }
        }
    }
    sum
}
