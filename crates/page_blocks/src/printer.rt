//! The lines of a page's events and lists, from the first to the last.
ghost use Rattle.std.specs.Prelude.{◌≡◌, ◌++◌, [], OnOk, string_bytes};
ghost use Rattle.markdown_blocks.specs.events.Events.{seen_event};
ghost use Rattle.page_blocks.specs.Definition.{shown_of};
ghost use Rattle.page_blocks.specs.Printed.{after, ended_line, event_lines, front_of, last_lines};
ghost use Rattle.page_blocks.specs.Printers.{HasPrinted, printed_of};

use crate::arguments::Form;
use crate::definition::{Definition, definition_of};
use crate::printing::{push_container, push_end, push_leaf, push_list};
use markdown_blocks::containers::Container;
use markdown_blocks::events::{BlockEvent, BlockEvents};
use markdown_blocks::lists::{ListBlock, Lists};
use markdown_blocks::taken::Extent;
use std::alloc::{AllocError, Global};

/// The lines that are made of a page and not yet written; how much of it stands before what comes
/// next, and its lists so far.
#[derive(Drop)]
pub(crate) struct Printer {
    form: Form,
    pub(crate) at: Extent,
    lists: Lists,
    pub(crate) text: String,
}

impl Printer {
    /// Before the first event of a page.
    pub(crate) fn new(alloc: Global, form: Form) -> Printer
        ensures front { printed_of result ≡ front_of 0 }
        ensures form { result.form ≡ form }
        ensures nothing { string_bytes result.text ≡ [] }
    {
        Printer {
            form,
            at: Extent { lines: 0, bytes: 0 },
            lists: Lists::new(alloc),
            text: String::new(alloc),
        }
    }

    /// Adds the line of the next event, with what is written in the definition that it is, and before
    /// it that of the list that it shows to have ended.
    pub(crate) fn print(
        &mut self,
        alloc: Global,
        event: BlockEvent,
        written: Option<Definition>,
    ) -> Result<(), AllocError>
        ensures lines { OnOk result (string_bytes self.new.text ≡ string_bytes self.old.text
            ++ event_lines self.old.form (printed_of self.old)
            (shown_of event.entry written.entry)) }
        ensures so_far { OnOk result (printed_of self.new
            ≡ after (printed_of self.old) (seen_event event.entry)) }
        ensures form { OnOk result (self.new.form ≡ self.old.form) }
    {
        let depth = self.lists.depth();
        let ended = self.lists.read(event)?;
        push_ended(&mut self.text, self.form, ended)?;
        match event {
            BlockEvent::Start(container, marker) => {
                push_container(&mut self.text, self.form, self.at, depth, container, marker)
            }
            BlockEvent::Block(leaf) => {
                push_leaf(alloc, &mut self.text, self.form, depth, leaf, written)?;
                self.at = Extent {
                    lines: leaf.line + leaf.lines,
                    bytes: leaf.start + leaf.bytes,
                };
                Ok(())
            }
            BlockEvent::End => {
                push_end(&mut self.text, self.form, self.at, depth.saturating_sub(1))
            }
        }
    }

    /// Adds the lines of the events that are left of a block, in these containers and with this
    /// content.
    pub(crate) fn print_block(
        &mut self,
        alloc: Global,
        containers: &[Container],
        content: &[u8],
        mut events: BlockEvents<'_>,
    ) -> Result<(), AllocError>
        ensures lines { OnOk result
            (HasPrinted self.old containers.now content.now events.entry self.new) }
        ensures form { OnOk result (self.new.form ≡ self.old.form) }
    {
        let mut left = events.content_left(content);
        while let Some(event) = events.next(containers, content) {
            self.print(alloc, event, definition_of(event, left))?;
            left = events.content_left(content);
        }
        Ok(())
    }

    /// Adds the lines of the end of the page, where so many containers are open: of the end of each,
    /// and of the list that it ends.
    pub(crate) fn print_end(&mut self, alloc: Global, depth: usize) -> Result<(), AllocError>
        ensures lines { OnOk result (string_bytes self.new.text ≡ string_bytes self.old.text
            ++ last_lines self.old.form (printed_of self.old) depth) }
        ensures form { OnOk result (self.new.form ≡ self.old.form) }
    {
        let mut left = depth;
        while left > 0 {
            self.print(alloc, BlockEvent::End, None)?;
            left -= 1;
        }
        push_ended(&mut self.text, self.form, self.lists.finish())
    }
}

// Adds the line of the list, if there is one.
fn push_ended(text: &mut String, form: Form, ended: Option<ListBlock>) -> Result<(), AllocError>
    ensures { OnOk result (string_bytes text.new ≡ string_bytes text.old ++ ended_line form ended) }
{
    match ended {
        Some(list) => push_list(text, form, list),
        None => Ok(()),
    }
}
