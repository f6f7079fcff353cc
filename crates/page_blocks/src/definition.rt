//! What is written in a link reference definition. (CommonMark 0.31.2, section 4.7)
ghost use Rattle.std.specs.Prelude.{◌≡◌, List, ℕ};
ghost use Rattle.std.specs.Option.{option_map};
ghost use Rattle.markdown_blocks.specs.events.Events.{seen_event};
ghost use Rattle.markdown_blocks.specs.events.Shown.{IsWritten, IsWrittenIn};
ghost use Rattle.markdown_blocks.specs.link_definitions.LinkDefinitions.{slice};
ghost use Rattle.page_blocks.specs.Definition.{seen_definition};

use markdown_blocks::definitions::scan_definition;
use markdown_blocks::events::BlockEvent;
use std::ops::Range;

/// What is written in a definition: its label, between the brackets, its destination, and its title,
/// if it has one.
#[derive(Clone, Copy)]
pub(crate) struct Definition<'a> {
    pub(crate) label: &'a [u8],
    pub(crate) destination: &'a [u8],
    pub(crate) title: Option<&'a [u8]>,
}

/// What is written in the definition that the event is, where this is left of its block's content.
pub(crate) fn definition_of<'a>(event: BlockEvent, left: &'a [u8]) -> Option<Definition<'a>>
    ensures { (rest : List ℕ) × IsWrittenIn left.now (seen_event event.entry)
        (option_map seen_definition result) rest }
{
    match event {
        BlockEvent::Block(_) => definition_at(left),
        _ => None,
    }
}

// What is written in the definition at the front of a content, if one stands there.
fn definition_at(content: &[u8]) -> Option<Definition<'_>>
    ensures { (rest : List ℕ)
        × IsWritten content.now (option_map seen_definition result) rest }
{
    match scan_definition(content) {
        Some(found) => Some(Definition {
            label: part_of(content, &found.label),
            destination: part_of(content, &found.destination),
            title: title_of(content, &found.title),
        }),
        None => None,
    }
}

// The title in the range, if there is one.
fn title_of<'a>(text: &'a [u8], title: &Option<Range<usize>>) -> Option<&'a [u8]>
    ensures { option_map (λ title. title.now) result
        ≡ option_map (λ range. slice range text.now) title.now }
{
    match title {
        Some(range) => Some(part_of(text, range)),
        None => None,
    }
}

// The part of the text in the range.
fn part_of<'a>(text: &'a [u8], range: &Range<usize>) -> &'a [u8]
    ensures { result.now ≡ slice range.now text.now }
{
    let end = range.end.min(text.len());
    if range.start >= end {
        return &[];
    }
    &text[range.start..end]
}
