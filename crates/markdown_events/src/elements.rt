//! Elements that have begun and not ended, and the memory in which inlines are found and written.
ghost use Rattle.std.specs.Prelude.{◌≡◌, [], IfOk};

use markdown_inlines::inlines::InlineFinder;
use markdown_values::values::{Event, TagEnd};
use std::alloc::{AllocError, Global};
use std::mem;
use std::ops::Range;

/// An element that has begun and not ended.
#[derive(Clone, Copy)]
pub(crate) struct Element {
    /// How it is closed.
    pub(crate) tag: TagEnd,
    /// Where the whole of it begins.
    pub(crate) from: usize,
    /// Where it ends.
    pub(crate) to: usize,
}

/// An element of a text that has begun and not ended, and ends where it isn't known yet.
#[derive(Clone, Copy)]
pub(crate) struct Begun {
    /// How it is closed.
    pub(crate) tag: TagEnd,
    /// Where the whole of it begins.
    pub(crate) from: usize,
    /// Which of the events is its start.
    pub(crate) index: usize,
}

/// The memory in which the inlines of one text after another are found and their events written.
/// Nothing depends on what is in it.
#[derive(Drop)]
pub(crate) struct InlineMemory<'a> {
    pub(crate) finder: InlineFinder,
    // The elements that have begun and not ended, the innermost at the end.
    pub(crate) opened: Vec<Begun>,
    pub(crate) events: Vec<(Event<'a>, Range<usize>)>,
}

impl<'a> InlineMemory<'a> {
    /// No memory is asked for.
    pub(crate) fn new(alloc: Global) -> InlineMemory<'a> {
        InlineMemory {
            finder: InlineFinder::new(alloc),
            opened: Vec::new(alloc),
            events: Vec::new(alloc),
        }
    }
}

/// Takes the memory of events, with room for so many.
#[inline(always)]
pub(crate) fn take_room<'a>(
    alloc: Global,
    memory: &mut Vec<(Event<'a>, Range<usize>)>,
    room: usize,
) -> Result<Vec<(Event<'a>, Range<usize>)>, AllocError>
    ensures { IfOk result (λ events. events.items ≡ []) }
{
    let mut events = mem::replace(memory, Vec::new(alloc));
    events.clear();
    events.reserve(room)?;
    Ok(events)
}
