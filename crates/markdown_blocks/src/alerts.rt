//! Alerts: block quotes of a kind that their first line names. (GitHub Docs, alerts)
ghost use Rattle.std.specs.Prelude.{◌≡◌, ◌∷◌, ◌++◌, List, IfOk};
ghost use Rattle.std.specs.List.{filter_map};
ghost use Rattle.std.specs.Option.{option_to_list};
ghost use Rattle.markdown_values.specs.values.Extensions.{commonmark};
ghost use Rattle.markdown_blocks.specs.events.Events.{Event, seen_event};
ghost use Rattle.markdown_blocks.specs.first_blocks.Alerts.{AreAlertsOf, alert_at};
ghost use Rattle.markdown_blocks.specs.first_blocks.FirstBlocks.{seen_first};
ghost use Rattle.markdown_blocks.specs.first_blocks.Waiting.{firsts_after};

use crate::blocks::BlockKind;
use crate::containers::Container;
use crate::events::{BlockEvent, Blocks};
use crate::first_blocks::{FirstBlock, FirstBlocks};
use crate::lists::keep;
use markdown_scanners_tree::line::LineStart;
use markdown_values::values::{BlockQuoteKind, Extensions};
use std::alloc::{AllocError, Global};

/// The line of an alert.
#[derive(Clone, Copy)]
pub struct Alert {
    /// What it names.
    pub kind: BlockQuoteKind,
    /// How many bytes of the page stand before it.
    pub offset: usize,
    /// How many bytes of its paragraph's first line it is, with the line ending: the content of the
    /// paragraph goes on after them.
    pub len: usize,
    /// Whether the paragraph has no other line, so that nothing is left of it.
    pub is_alone: bool,
}

impl<'a> FirstBlock<'a> {
    /// The line of an alert, if this is the first block of one: a paragraph in a block quote whose
    /// first line is `[!NOTE]`, or another of the five names in any ASCII case, and white space.
    pub fn alert(&self) -> Option<Alert>
        ensures { result ≡ alert_at (seen_first self.now) }
    {
        let (Container::Quote, BlockKind::Paragraph) = (self.container, self.leaf.kind) else {
            return None;
        };
        let mut start = LineStart::new(self.leaf.text);
        let kind = start.scan_blockquote_tag()?;
        Some(Alert {
            kind,
            offset: self.leaf.offset,
            len: start.bytes_scanned(),
            is_alone: self.leaf.lines == 1,
        })
    }
}

/// The alerts of a page, in order.
pub fn alerts_of_page(alloc: Global, page: &[u8]) -> Result<Vec<Alert>, AllocError>
    ensures { IfOk result (λ alerts. AreAlertsOf commonmark page.now alerts.items) }
{
    alerts_of_page_ext(alloc, page, Extensions::none())
}

/// The same with these extensions on.
pub fn alerts_of_page_ext(
    alloc: Global,
    page: &[u8],
    extensions: Extensions,
) -> Result<Vec<Alert>, AllocError>
    ensures { IfOk result (λ alerts. AreAlertsOf extensions page.now alerts.items) }
{
    let mut blocks = Blocks::new_ext(alloc, page, extensions);
    let mut firsts = FirstBlocks::new();
    let mut found = Vec::new(alloc);
    while let Some(event) = blocks.next(alloc)? {
        keep(&mut found, alert_read(&mut firsts, event))?;
    }
    Ok(found)
}

// Reads the next event: the line of the alert whose first block it is.
fn alert_read(firsts: &mut FirstBlocks, event: BlockEvent) -> Option<Alert>
    ensures { (events : List Event)
        → filter_map alert_at (firsts_after firsts.old (seen_event event.entry ∷ events))
        ≡ option_to_list result ++ filter_map alert_at (firsts_after firsts.new events) }
{
    firsts.read(event)?.alert()
}
