//! The events of a page that are ready to be given.
ghost use Rattle.std.specs.Prelude.{◌≡◌, ◌∷◌, ◌++◌, ◌==◌, ◌^◌, ◌≤◌, ◌<◌, ◌+◌, [], drop, length, map, IfNone, IfSome, OnOk};
ghost use Rattle.std.specs.Option.{option_to_list};
ghost use Rattle.markdown_events.specs.InlineEvents.{seen_event};
ghost use Rattle.markdown_events.specs.page.OpenElements.{edge_event};

use crate::page::open_elements::{Edge, EdgeKind, Ranged, container_tag, list_tag};
use markdown_blocks::containers::Container;
use markdown_values::values::{Event, Tag};
use std::alloc::{AllocError, Global};
use std::collections::VecDeque;
use std::marker::Model;
use std::mem;

/// The events of a leaf block, or at most two of containers and lists.
#[derive(Drop)]
pub(crate) struct ReadyEvents<'a> {
    events: VecDeque<Ranged<'a>>,
}

impl<'a> Model for ReadyEvents<'a> {
    ghost use Rattle.std.specs.Prelude.{◌-◌, map};
    ghost use Rattle.std.specs.VecDeque.{deque_capacity, deque_len};
    ghost use Rattle.markdown_events.specs.InlineEvents.{seen_event};
    ghost use Rattle.markdown_events.specs.page.Ready.{Ready};

    ghost Value = { Ready };

    ghost view = { λ r. record {
      events = map seen_event r.events.items;
      room = deque_capacity r.events - deque_len r.events;
    } };
}

impl<'a> ReadyEvents<'a> {
    /// None is ready.
    pub(crate) fn new(alloc: Global) -> ReadyEvents<'a>
        ensures { result.events ≡ [] }
    {
        ReadyEvents {
            events: VecDeque::new(alloc),
        }
    }

    /// Whether none is ready.
    #[inline(always)]
    pub(crate) fn is_empty(&self) -> bool
        ensures { result ≡ (length self.now.events == 0) }
    {
        self.events.is_empty()
    }

    /// Makes room for the events of containers and lists.
    pub(crate) fn make_room(&mut self) -> Result<(), AllocError>
        ensures room { OnOk result (2 ≤ self.new.room) }
        ensures unchanged { self.new.events ≡ self.old.events }
    {
        self.events.reserve(2)
    }

    /// Makes the events of containers and lists ready, for which there is room.
    pub(crate) fn put_edges(&mut self, first: Option<Edge>, second: Option<Edge>)
        requires waiting { self.old.events ≡ [] }
        requires room { 2 ≤ self.old.room }
        ensures { self.new.events
            ≡ map edge_event (option_to_list first ++ option_to_list second) }
    {
        if let Some(edge) = first {
            self.push_edge(edge);
        }
        if let Some(edge) = second {
            self.push_edge(edge);
        }
    }

    // Adds an event of a container or a list, which is written where it is kept.
    fn push_edge(&mut self, edge: Edge)
        requires { 0 < self.old.room }
        ensures events { self.new.events ≡ self.old.events ++ edge_event edge ∷ [] }
        ensures room { self.new.room + 1 ≡ self.old.room }
    {
        let range = edge.from..edge.to;
        match edge.kind {
            EdgeKind::List(first) => self
                .events
                .push_back_reserved((Event::Start(list_tag(first)), range)),
            EdgeKind::Container(Container::Item(_)) => self
                .events
                .push_back_reserved((Event::Start(Tag::Item), range)),
            EdgeKind::Container(container) => self
                .events
                .push_back_reserved((Event::Start(container_tag(container)), range)),
            EdgeKind::End(tag) => self.events.push_back_reserved((Event::End(tag), range)),
        }
    }

    /// Makes the events of a leaf block ready. Answers the memory of those before, of which none is
    /// left.
    pub(crate) fn put_events(&mut self, events: VecDeque<Ranged<'a>>) -> Vec<Ranged<'a>>
        requires { self.old.events ≡ [] }
        ensures events { self.new.events ≡ map seen_event events.entry.items }
        ensures few { length self.new.events < 2 ^ 64 }
    {
        Vec::from(mem::replace(&mut self.events, events))
    }

    /// The first.
    #[inline(always)]
    pub(crate) fn first(&self) -> Option<&Ranged<'a>>
        ensures event { IfSome result (λ event.
            self.now.events ≡ seen_event event.now ∷ drop 1 self.now.events) }
        ensures none { IfNone result (self.now.events ≡ []) }
    {
        self.events.front()
    }

    /// Passes the first.
    #[inline(always)]
    pub(crate) fn pass(&mut self)
        ensures { self.new.events ≡ drop 1 self.old.events }
    {
        self.events.pop_front();
    }

    /// Takes the first.
    #[inline(always)]
    pub(crate) fn take(&mut self) -> Option<Ranged<'a>>
        ensures event { IfSome result (λ event.
            self.old.events ≡ seen_event event ∷ self.new.events) }
        ensures none { IfNone result (self.old.events ≡ []) }
        ensures unchanged { IfNone result (self.new.events ≡ self.old.events) }
    {
        self.events.pop_front()
    }
}
