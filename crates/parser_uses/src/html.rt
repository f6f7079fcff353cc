//! HTML: all that is inline in a text, and a tag over the lines of a block quote.
ghost use Rattle.std.specs.Prelude.{◌≡◌, ◌≤◌, ◌+◌, ◌*◌, ◌⊎◌, ℕ, List, length, Some, None, IfOk, IfSome};
ghost use Rattle.markdown_scanners_tree.specs.inline_html.InlineHtml.{find_at};
ghost use Rattle.markdown_scanners_tree.specs.inline_html.run.Run.{new_run, offset_refusal, run_answers};
ghost use Rattle.markdown_scanners_tree.specs.Kept.{KeptByte, bytes_of, line_endings};
ghost use Rattle.markdown_scanners_tree.specs.scanners.html_tag.HtmlTag.{IsOpenTag, IsClosingTag};
ghost use Rattle.markdown_scanners_tree.specs.scanners.html_tag.KeptTag.{tag_buffer, offset_after};

use markdown_scanners_tree::inline_html::{HtmlRun, InlineHtmlRun, run_inline_html};
use markdown_scanners_tree::scanners::scan_html_block_inner;
use std::alloc::{AllocError, Global};

/// The end of the inline HTML whose opener, `<!` or `<?`, ends at the offset; for a parser that goes through a text once,
/// with one run. However many openers it meets, its searches pass over four bytes for each byte and eight for each opener.
pub fn html_end(run: &mut InlineHtmlRun, offset: usize) -> Option<usize>
    ensures found { IfSome result (λ end. find_at run.old.text offset ≡ Some end) }
    ensures accepted { offset_refusal run.old offset ≡ None → result ≡ find_at run.old.text offset }
    ensures text { run.new.text ≡ run.old.text }
    ensures budget { run.new.passed ≤ 4 * length run.old.text + 8 * run.new.steps }
{
    run.step(offset).ok()?
}

/// The inline HTML of a text: the offset of each piece, and its end.
pub fn inline_html(alloc: Global, text: &[u8]) -> Result<Vec<(usize, usize)>, AllocError> {
    let mut pieces = Vec::new(alloc);
    let mut run = InlineHtmlRun::new(text);
    for offset in 2..=text.len() {
        if let Some(end) = html_end(&mut run, offset) {
            pieces.push((offset - 2, end))?;
        }
    }
    Ok(pieces)
}

/// The ends of the inline HTML after these openers, each outside what was found before it, and the bytes passed over.
pub fn html_ends(alloc: Global, text: &[u8], offsets: &[usize]) -> Result<HtmlRun, AllocError>
    ensures ends { IfOk result (λ run. run.answers.items
        ≡ run_answers (new_run text.now) offsets.now) }
    ensures bound { IfOk result (λ run.
        run.passed ≤ 4 * length text.now + 8 * length run.answers.items) }
{
    run_inline_html(alloc, text, offsets)
}

/// The tag that a text in a block quote begins with, over its lines: its text without the markers, empty where no line
/// begins in it, and its length in the source.
pub fn tag_in_quote(alloc: Global, source: &[u8]) -> Result<Option<(Vec<u8>, usize)>, AllocError>
    ensures tag { IfOk result (λ found. IfSome found (λ r. (tag : List KeptByte)
        × (IsOpenTag (bytes_of tag) ⊎ (IsClosingTag (bytes_of tag) × (line_endings tag ≤ 1)))
        × (r.0.items ≡ tag_buffer tag) × (r.1 ≡ offset_after 0 tag))) }
    ensures within { IfOk result (λ found. IfSome found (λ r. r.1 ≤ length source.now)) }
{
    let marker = |rest: &[u8]| -> usize { if rest.starts_with(b"> ") { 2 } else { 0 } };
    scan_html_block_inner(alloc, source, Some(&marker))
}
