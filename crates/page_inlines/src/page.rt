//! What is printed of a page.
ghost use Rattle.std.specs.Prelude.{IfOk, string_bytes};
ghost use Rattle.page_inlines.specs.Printed.{IsPrinted};

use crate::blocks::{Output, Page};
use crate::labels::PageLabels;
use markdown_blocks::byte_order_mark::text_start;
use markdown_blocks::events::BlockEvents;
use markdown_blocks::taken::Extent;
use markdown_blocks::walk::Walk;
use markdown_inlines::inlines::InlineFinder;
use markdown_values::values::Extensions;
use std::alloc::{AllocError, Global};

/// The lines that are printed of a page that is read with these extensions: for each block that has
/// inlines its own, and then one for each of its inlines, as `HELP` has them.
///
/// Memory is asked for by these lines, and as by `content_of` and `InlineFinder::find`.
///
/// # Errors
///
/// `AllocError` where memory is refused.
pub fn lines_of_page(alloc: Global, page: &[u8], asked: Extensions) -> Result<String, AllocError>
    ensures { IfOk result (λ text. IsPrinted asked page.now (string_bytes text)) }
{
    let printed = Page {
        bytes: page,
        asked,
        labels: PageLabels::of_page(alloc, page, asked)?,
    };
    let mut out = Output {
        text: String::new(alloc),
        finder: InlineFinder::new(alloc),
    };
    let mut walk = Walk::new_ext(alloc, asked);
    let mut content = Vec::new(alloc);
    let mut lines = 0;
    let mut bytes = text_start(page);
    loop {
        let before = Extent { lines, bytes };
        let depth = walk.containers().len();
        let Some(step) = walk.next_block(alloc, &mut content, &page[bytes..], true)? else {
            let Output { text, .. } = out;
            return Ok(text);
        };
        let (kept, taken) = (step.kept, step.block.taken);
        let events = BlockEvents::new(step, before, depth);
        printed.push_block(alloc, &mut out, kept, walk.containers(), &content, events)?;
        lines += taken.lines;
        bytes += taken.bytes;
    }
}
