//! Footnote definitions of pages.
use markdown_blocks::containers::Container;
use markdown_blocks::events::BlockEvent;
use markdown_blocks::footnotes::footnote_label;
use markdown_blocks::page_events::page_events_ext;
use markdown_values::values::Extensions;
use std::alloc::{AllocError, Global};

/// The labels of a page's footnote definitions, in order.
pub fn footnote_labels<'a>(alloc: Global, page: &'a [u8]) -> Result<Vec<&'a [u8]>, AllocError> {
    let asked = Extensions {
        footnotes: true,
        ..Extensions::none()
    };
    let mut labels = Vec::new(alloc);
    for event in page_events_ext(alloc, page, asked) {
        if let Some(label) = label_of(page, event?) {
            labels.push(label)?;
        }
    }
    Ok(labels)
}

// The label of the footnote definition that begins, if one does.
fn label_of<'a>(page: &'a [u8], event: BlockEvent) -> Option<&'a [u8]> {
    let BlockEvent::Start(Container::Footnote, offset) = event else {
        return None;
    };
    let (_, text) = page.split_at(offset.min(page.len()));
    footnote_label(text)
}
