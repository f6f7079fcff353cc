//! The events of a page as an iterator.
ghost use Rattle.std.specs.Prelude.{◌≡◌, false, List};
ghost use Rattle.std.specs.Iterator.{at_most};
ghost use Rattle.markdown_values.specs.values.Extensions.{commonmark};
ghost use Rattle.markdown_blocks.specs.events.Events.{Event, IsEventsOf};
ghost use Rattle.markdown_blocks.specs.events.Given.{Gives};
ghost use Rattle.markdown_blocks.specs.events.Iterated.{GivesNext, Iterated, items_left};

use crate::events::{BlockEvent, Blocks};
use markdown_values::values::Extensions;
use std::alloc::{AllocError, Global};
use std::marker::Model;

/// The events of a page, from the first to the last. Memory that is refused is the last item. After
/// None no item comes.
#[derive(Drop)]
pub struct PageEvents<'a> {
    alloc: Global,
    blocks: Blocks<'a>,
    is_stopped: bool,
}

impl<'a> Model for PageEvents<'a> {
    ghost Value = { Iterated };

    ghost view = { λ e. record { left = e.blocks; is_stopped = e.is_stopped } };
}

impl<'a> Iterator for PageEvents<'a> {
    type Item = Result<BlockEvent<'a>, AllocError>;

    ghost next_gives = { GivesNext };

    ghost remaining = { λ e. at_most (items_left e) };

    fn next(&mut self) -> Option<Result<BlockEvent<'a>, AllocError>> {
        if self.is_stopped {
            return None;
        }
        match self.blocks.next(self.alloc) {
            Ok(Some(event)) => Some(Ok(event)),
            Ok(None) => {
                self.is_stopped = true;
                None
            }
            Err(refused) => {
                self.is_stopped = true;
                Some(Err(refused))
            }
        }
    }
}

/// The events of a page with no extension on, for a loop over them.
pub fn page_events<'a>(alloc: Global, page: &'a [u8]) -> PageEvents<'a>
    ensures page { (events : List Event) → Gives result.left events
        → IsEventsOf commonmark page.now events }
    ensures goes { result.is_stopped ≡ false }
{
    page_events_ext(alloc, page, Extensions::none())
}

/// The events of a page with these extensions on, for a loop over them.
pub fn page_events_ext<'a>(alloc: Global, page: &'a [u8], extensions: Extensions) -> PageEvents<'a>
    ensures page { (events : List Event) → Gives result.left events
        → IsEventsOf extensions page.now events }
    ensures goes { result.is_stopped ≡ false }
{
    PageEvents {
        alloc,
        blocks: Blocks::new_ext(alloc, page, extensions),
        is_stopped: false,
    }
}
