//! What is printed of a block and its leaf blocks.
ghost use Rattle.std.specs.Prelude.{◌≡◌, ◌∷◌, ◌++◌, IfOk, List, ℕ, length, OnOk, string_bytes};
ghost use Rattle.std.specs.List.{flat_map};
ghost use Rattle.markdown_blocks.specs.events.Events.{Event, seen_event, seen_leaf};
ghost use Rattle.page_inlines.specs.BlockTexts.{HasPrinted, IsEventsText};
ghost use Rattle.page_inlines.specs.Labels.{setting_of};
ghost use Rattle.page_inlines.specs.Printed.{AreContentLines, IsLeafText};
ghost use Rattle.page_inlines.specs.Lines.{inline_line};

use crate::labels::PageLabels;
use crate::printing::{has_inlines, part_of, push_block_line, push_inline};
use markdown_blocks::containers::Container;
use markdown_blocks::content::{Content, content_of};
use markdown_blocks::events::{BlockEvent, BlockEvents, Leaf};
use markdown_inlines::inlines::InlineFinder;
use markdown_values::values::Extensions;
use std::alloc::{AllocError, Global};
use std::str::from_utf8;

/// A page, the extensions that it is read with, and the labels that it defines.
#[derive(Drop)]
pub(crate) struct Page<'p> {
    pub(crate) bytes: &'p [u8],
    pub(crate) asked: Extensions,
    pub(crate) labels: PageLabels<'p>,
}

/// What has been printed, and what finds the inlines of each block in memory that it uses again.
#[derive(Drop)]
pub(crate) struct Output {
    pub(crate) text: String,
    pub(crate) finder: InlineFinder,
}

impl<'p> Page<'p> {
    /// Adds what is printed of the events of a block, in these containers and with this content. Its
    /// first line goes on with so many of them.
    pub(crate) fn push_block(
        &self,
        alloc: Global,
        out: &mut Output,
        kept: usize,
        containers: &[Container],
        content: &[u8],
        mut events: BlockEvents,
    ) -> Result<(), AllocError>
        ensures { OnOk result (HasPrinted (setting_of self.now) self.now.bytes.now
            containers.now kept content.now events.entry
            (string_bytes out.old.text) (string_bytes out.new.text)) }
    {
        let mut going_on = kept;
        while let Some(event) = events.next(containers, content) {
            going_on = self.push_event(alloc, out, going_on, containers, event)?;
        }
        Ok(())
    }

    // Adds what is printed of an event in these containers, of which the next leaf block goes on with so
    // many. Answers with how many the one after that does.
    fn push_event(
        &self,
        alloc: Global,
        out: &mut Output,
        kept: usize,
        containers: &[Container],
        event: BlockEvent,
    ) -> Result<usize, AllocError>
        ensures { IfOk result (λ going_on. (here : List ℕ)
            × (string_bytes out.new.text ≡ string_bytes out.old.text ++ here)
            × ((later : List Event) (more : List ℕ)
            → IsEventsText (setting_of self.now) self.now.bytes.now
            containers.now going_on later more
            → IsEventsText (setting_of self.now) self.now.bytes.now
            containers.now kept (seen_event event.entry ∷ later) (here ++ more))) }
    {
        match event {
            BlockEvent::Block(leaf) => {
                self.push_leaf(alloc, out, kept, containers, leaf)?;
                Ok(containers.len())
            }
            BlockEvent::Start(..) => Ok(kept),
            BlockEvent::End => Ok(kept),
        }
    }

    // Adds what is printed of a leaf block in these containers. Its first line goes on with so many of
    // them.
    fn push_leaf(
        &self,
        alloc: Global,
        out: &mut Output,
        kept: usize,
        containers: &[Container],
        leaf: Leaf,
    ) -> Result<(), AllocError>
        ensures { OnOk result ((here : List ℕ)
            × IsLeafText (setting_of self.now) self.now.bytes.now
            containers.now kept (seen_leaf leaf.entry) here
            × (string_bytes out.new.text ≡ string_bytes out.old.text ++ here)) }
    {
        if !has_inlines(leaf.kind) {
            return Ok(());
        }
        push_block_line(&mut out.text, containers.len(), leaf)?;
        let lines = part_of(self.bytes, leaf.start, leaf.start + leaf.bytes);
        let content = content_of(alloc, lines, leaf.kind, containers, kept)?;
        self.push_content(alloc, out, leaf.start, &content)
    }

    // Adds the lines of the inlines of a content, before whose block so many bytes of the page stand.
    fn push_content(
        &self,
        alloc: Global,
        out: &mut Output,
        start: usize,
        content: &Content,
    ) -> Result<(), AllocError>
        requires { length content.now.offsets ≡ length content.now.text }
        ensures { OnOk result ((lines : List ℕ)
            × AreContentLines (setting_of self.now) start content.now lines
            × (string_bytes out.new.text ≡ string_bytes out.old.text ++ lines)) }
    {
        match from_utf8(content.text()) {
            Ok(words) => {
                out.finder.find(alloc, words, &self.labels, self.asked)?;
                push_inlines(&mut out.text, start, content, &out.finder)
            }
            Err(_) => out.text.push_str("  not UTF-8\n"),
        }
    }
}

// Adds the line of each of the inlines of a content that have been found.
fn push_inlines(
    text: &mut String,
    start: usize,
    content: &Content,
    found: &InlineFinder,
) -> Result<(), AllocError>
    requires { length content.now.offsets ≡ length content.now.text }
    ensures { OnOk result (string_bytes text.new ≡ string_bytes text.old
        ++ flat_map (inline_line start content.now found.now.links) found.now.inlines) }
{
    let links = found.links();
    for inline in found.inlines() {
        push_inline(text, start, content, links, *inline)?;
    }
    Ok(())
}
