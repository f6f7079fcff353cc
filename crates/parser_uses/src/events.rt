//! The events of a page in words.
use markdown_blocks::blocks::BlockKind;
use markdown_blocks::containers::Container;
use markdown_blocks::events::BlockEvent;
use markdown_blocks::page_events::page_events_ext;
use markdown_values::values::Extensions;
use std::alloc::{AllocError, Global};

/// A page's events, one after another: a container with how many bytes of the page stand before its
/// marker, a leaf block with its first line and its last, and `end` where a container ends.
pub fn shown_events(alloc: Global, page: &[u8]) -> Result<String, AllocError> {
    shown_events_ext(alloc, page, Extensions::none())
}

/// The same with these extensions on.
pub fn shown_events_ext(
    alloc: Global,
    page: &[u8],
    extensions: Extensions,
) -> Result<String, AllocError> {
    let mut text = String::new(alloc);
    for event in page_events_ext(alloc, page, extensions) {
        if !text.is_empty() {
            text.push_str("; ")?;
        }
        show(&mut text, event?)?;
    }
    Ok(text)
}

// Adds the words of an event.
fn show(text: &mut String, event: BlockEvent) -> Result<(), AllocError> {
    match event {
        BlockEvent::Start(Container::Quote, offset) => write!(text, "quote {offset}"),
        BlockEvent::Start(Container::Footnote, offset) => write!(text, "footnote {offset}"),
        BlockEvent::Start(Container::Item(_), offset) => write!(text, "item {offset}"),
        BlockEvent::Start(Container::TermDefinition(_), offset) => {
            write!(text, "term_definition {offset}")
        }
        BlockEvent::Block(leaf) => {
            let first = leaf.line as u128 + 1;
            let last = leaf.line as u128 + leaf.lines as u128;
            write!(text, "{} {first} {last}", word_of(leaf.kind))
        }
        BlockEvent::End => text.push_str("end"),
    }
}

// The word for the kind of a leaf block.
fn word_of(kind: BlockKind) -> &'static str {
    match kind {
        BlockKind::Blank => "blank",
        BlockKind::Definition => "definition",
        BlockKind::Paragraph => "paragraph",
        BlockKind::Setext(_) => "setext",
        _ => "other",
    }
}
