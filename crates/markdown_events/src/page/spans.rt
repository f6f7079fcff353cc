//! Where the containers of a page end, and the lists that their items are in.
//! (CommonMark 0.31.2, chapter 5)
ghost use Rattle.std.specs.Prelude.{◌≡◌, [], ◌∷◌, List, map, reverse, IfOk, OnOk};
ghost use Rattle.markdown_blocks.specs.events.Events.{Event, seen_event, starts};
ghost use Rattle.markdown_blocks.specs.lists.Lists.{Nodes, flatten};
ghost use Rattle.markdown_events.specs.page.Levels.{IsKnownOf};
ghost use Rattle.markdown_events.specs.page.Spans.{spans};

use crate::page::levels::Level;
use markdown_blocks::containers::Container;
use markdown_blocks::events::{BlockEvent, Leaf};
use std::alloc::{AllocError, Global};
use std::marker::Model;

/// What is known of a container where it begins: where it ends. Of an item also whether the list of
/// this item and those after it is loose, where that list ends, and whether the item is its last.
#[derive(Clone, Copy)]
pub(crate) struct Span {
    pub(crate) to: usize,
    pub(crate) list_to: usize,
    pub(crate) is_loose: bool,
    pub(crate) is_last: bool,
}

/// The spans of the containers that these events of a page begin, the first at the end.
pub(crate) fn spans_of(alloc: Global, blocks: &[BlockEvent]) -> Result<Vec<Span>, AllocError>
    ensures { IfOk result (λ found. (nodes : Nodes) → map seen_event blocks.now ≡ flatten nodes
        → reverse found.items ≡ spans nodes) }
{
    let mut reader = Reader::new(alloc);
    let mut index = blocks.len();
    while index > 0 {
        index -= 1;
        reader.read(blocks[index])?;
    }
    Ok(reader.spans)
}

// What is known of a page that is read from its end.
#[derive(Drop)]
struct Reader {
    // The blocks of the innermost container that has not begun, or of the page.
    level: Level,
    // Those of the containers around it, outermost first.
    outer: Vec<Level>,
    // The spans of the containers that have begun, the first at the end.
    spans: Vec<Span>,
}

impl Model for Reader {
    ghost use Rattle.std.specs.Prelude.{◌∷◌, reverse};
    ghost use Rattle.markdown_events.specs.page.Levels.{Known};

    ghost Value = { Known };

    ghost view = { λ r. record {
      levels = r.level ∷ reverse r.outer.items;
      spans = reverse r.spans.items;
    } };
}

impl Reader {
    // At the end of a page.
    fn new(alloc: Global) -> Reader
        ensures { IsKnownOf [] result }
    {
        Reader {
            level: Level::nothing(),
            outer: Vec::new(alloc),
            spans: Vec::new(alloc),
        }
    }

    // Reads the event that stands before those that are read.
    fn read(&mut self, event: BlockEvent) -> Result<(), AllocError>
        ensures { OnOk result ((events : List Event) → IsKnownOf events self.old
            → IsKnownOf (seen_event event.entry ∷ events) self.new) }
    {
        match event {
            BlockEvent::Start(container, offset) => self.start(container, offset),
            BlockEvent::Block(leaf) => {
                self.level.add_leaf(leaf);
                Ok(())
            }
            BlockEvent::End => {
                self.outer.push(self.level)?;
                self.level = Level::nothing();
                Ok(())
            }
        }
    }

    // A container begins.
    fn start(&mut self, container: Container, offset: usize) -> Result<(), AllocError>
        ensures { OnOk result ((events : List Event) → IsKnownOf events self.old
            → IsKnownOf (starts container offset ∷ events) self.new) }
    {
        let Some(later) = self.outer.pop() else {
            return Ok(());
        };
        let content = self.level.content();
        self.spans.push(later.span_of(container, content))?;
        self.level = later.with_container(container, offset, content);
        Ok(())
    }
}
