//! The events of a text that are written one after another.
ghost use Rattle.std.specs.Prelude.{◌≡◌, [], if◌then◌else◌, reverse, map, OnOk};
ghost use Rattle.markdown_values.specs.strings.Text.{cow_text};
ghost use Rattle.markdown_values.specs.values.Events.{code, event_view, hard_break, soft_break, text};
ghost use Rattle.markdown_values.specs.values.Tags.{tag_view};
ghost use Rattle.markdown_events.specs.InlineEvents.{seen_event, ranged};
ghost use Rattle.markdown_events.specs.Passes.{with_event, with_end, begun, ended};

use crate::elements::Begun;
use markdown_values::strings::CowStr;
use markdown_values::values::{Event, Tag};
use std::alloc::AllocError;
use std::marker::Model;
use std::ops::Range;

/// The events that are written, and the elements that have begun and not ended.
#[derive(Drop)]
pub(crate) struct Writer<'a> {
    events: Vec<(Event<'a>, Range<usize>)>,
    // The innermost at the end.
    opened: Vec<Begun>,
}

impl<'a> Model for Writer<'a> {
    ghost use Rattle.std.specs.Prelude.{map, reverse};
    ghost use Rattle.markdown_events.specs.InlineEvents.{seen_event};
    ghost use Rattle.markdown_events.specs.Passes.{Written};

    ghost Value = { Written };

    ghost view = { λ w. record {
      events = map seen_event w.events.items;
      opened = reverse w.opened.items;
    } };
}

impl<'a> Writer<'a> {
    /// None is written. Events are put into this memory, and elements into that of others.
    #[inline(always)]
    pub(crate) fn within(events: Vec<(Event<'a>, Range<usize>)>, elements: Vec<Begun>) -> Writer<'a>
        requires { events.items ≡ [] }
        ensures { result ≡ record { events = []; opened = [] } }
    {
        let mut opened = elements;
        opened.clear();
        Writer { events, opened }
    }

    /// The events that are written, and the memory of the elements.
    pub(crate) fn into_parts(self) -> (Vec<(Event<'a>, Range<usize>)>, Vec<Begun>)
        ensures { map seen_event result.0.items ≡ self.entry.events }
    {
        (self.events, self.opened)
    }

    /// Adds an event from one offset of the text up to another.
    #[inline(always)]
    pub(crate) fn push(
        &mut self,
        event: Event<'a>,
        from: usize,
        to: usize,
    ) -> Result<(), AllocError>
        ensures { OnOk result
            (self.new ≡ with_event (ranged (event_view cow_text event.entry) from to) self.old) }
    {
        // With room at hand the event is written where it stands, and not moved there.
        self.events.reserve(1)?;
        self.events.push_reserved((event, from..to));
        Ok(())
    }

    /// The same of a text that is lent.
    #[inline(always)]
    pub(crate) fn push_text(
        &mut self,
        words: &'a str,
        from: usize,
        to: usize,
    ) -> Result<(), AllocError>
        ensures { OnOk result
            (self.new ≡ with_event (ranged (text words.now) from to) self.old) }
    {
        self.events.reserve(1)?;
        self.events
            .push_reserved((Event::Text(CowStr::from(words)), from..to));
        Ok(())
    }

    /// The same of the text of a code span.
    #[inline(always)]
    pub(crate) fn push_code(
        &mut self,
        words: &'a str,
        from: usize,
        to: usize,
    ) -> Result<(), AllocError>
        ensures { OnOk result
            (self.new ≡ with_event (ranged (code words.now) from to) self.old) }
    {
        self.events.reserve(1)?;
        self.events
            .push_reserved((Event::Code(CowStr::from(words)), from..to));
        Ok(())
    }

    /// Adds a line break, which is a hard one or not.
    #[inline(never)]
    pub(crate) fn push_break(
        &mut self,
        is_hard: bool,
        from: usize,
        to: usize,
    ) -> Result<(), AllocError>
        ensures { OnOk result (self.new
            ≡ with_event (ranged (if is_hard then hard_break else soft_break) from to) self.old) }
    {
        if is_hard {
            return self.push(Event::HardBreak, from, to);
        }
        self.push(Event::SoftBreak, from, to)
    }

    /// Begins an element with this tag at an offset of the text. Where it ends is written when it does.
    #[inline(always)]
    pub(crate) fn begin(&mut self, tag: Tag<'a>, from: usize) -> Result<(), AllocError>
        ensures { OnOk result (self.new ≡ begun (tag_view cow_text tag.entry) from self.old) }
    {
        let end = tag.to_end();
        let index = self.events.len();
        self.opened.reserve(1)?;
        self.opened.push_reserved(Begun {
            tag: end,
            from,
            index,
        });
        self.push(Event::Start(tag), from, 0)
    }

    /// Ends the innermost element at this offset of the text.
    #[inline(never)]
    pub(crate) fn end(&mut self, to: usize) -> Result<(), AllocError>
        ensures { OnOk result (self.new ≡ ended to self.old) }
    {
        match self.opened.pop() {
            Some(begun) => {
                set_end(&mut self.events, begun.index, to);
                self.push(Event::End(begun.tag), begun.from, to)
            }
            None => Ok(()),
        }
    }
}

// Lets the event at the index end there in the text.
#[tactic(auto, using(crate::proofs::inline_events::PassLemmas::end_set, crate::proofs::inline_events::PassLemmas::end_past))]
fn set_end(events: &mut [(Event, Range<usize>)], index: usize, to: usize)
    ensures { map seen_event events.new ≡ with_end index to (map seen_event events.old) }
{
    if index < events.len() {
        events[index].1.end = to;
    }
}
