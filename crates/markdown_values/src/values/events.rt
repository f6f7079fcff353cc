//! Events: the parts of a document in the order of its text.
ghost use Rattle.std.specs.Prelude.{◌≡◌, IsTrue, IfOk};
ghost use Rattle.markdown_values.specs.values.Events.{event_view};
ghost use Rattle.markdown_values.specs.strings.Text.{cow_text, storage_of, clone_storage, static_storage};

use crate::strings::CowStr;
use crate::values::{Tag, TagEnd};
use std::alloc::{AllocError, Global};

/// A part of a document. A document is read as a list of these, in which starts and ends balance:
/// each `Start` has its `End` after it, that of `Tag::to_end`, and the events in between belong to
/// that part.
#[derive(Debug, PartialEq, Drop)]
pub enum Event<'a> {
    /// What comes next belongs to a part of this kind.
    Start(Tag<'a>),
    /// The part that was started last, and not ended yet, ends.
    End(TagEnd),
    /// Text, its escapes and references resolved.
    Text(CowStr<'a>),
    /// A code span. (CommonMark 0.31.2, section 6.1)
    Code(CowStr<'a>),
    /// Mathematics in a line. Needs `ENABLE_MATH`.
    InlineMath(CowStr<'a>),
    /// Mathematics on lines of its own. Needs `ENABLE_MATH`.
    DisplayMath(CowStr<'a>),
    /// A line of an HTML block. (CommonMark 0.31.2, section 4.6)
    Html(CowStr<'a>),
    /// HTML within a line. (CommonMark 0.31.2, section 6.6)
    InlineHtml(CowStr<'a>),
    /// The label of a footnote, where it is called. Needs `ENABLE_FOOTNOTES` or
    /// `ENABLE_OLD_FOOTNOTES`.
    FootnoteReference(CowStr<'a>),
    /// A line ending in a paragraph. (CommonMark 0.31.2, section 6.8)
    SoftBreak,
    /// A line ending that is kept. (CommonMark 0.31.2, section 6.7)
    HardBreak,
    /// A thematic break. (CommonMark 0.31.2, section 4.1)
    Rule,
    /// The box of a task: true where it is checked. Needs `ENABLE_TASKLISTS`. (GFM, section 5.3)
    TaskListMarker(bool),
}

impl<'a> Event<'a> {
    /// The same event again, with each text as `CowStr::clone` gives it.
    ///
    /// # Errors
    ///
    /// `AllocError` where memory for a text or a list is refused.
    pub fn clone(&self, alloc: Global) -> Result<Event<'a>, AllocError>
        ensures same { IfOk result (λ event.
            event_view cow_text event ≡ event_view cow_text self.now) }
        ensures storage { IfOk result (λ event.
            event_view storage_of event ≡ event_view clone_storage self.now) }
        ensures equal { IfOk result (λ event.
            IsTrue (⟦<Event<'a> as PartialEq>⟧.eq event self.now)) }
    {
        match self {
            Event::Start(tag) => Ok(Event::Start(tag.clone(alloc)?)),
            Event::End(tag) => Ok(Event::End(*tag)),
            Event::Text(text) => Ok(Event::Text(text.clone(alloc)?)),
            Event::Code(text) => Ok(Event::Code(text.clone(alloc)?)),
            Event::InlineMath(text) => Ok(Event::InlineMath(text.clone(alloc)?)),
            Event::DisplayMath(text) => Ok(Event::DisplayMath(text.clone(alloc)?)),
            Event::Html(text) => Ok(Event::Html(text.clone(alloc)?)),
            Event::InlineHtml(text) => Ok(Event::InlineHtml(text.clone(alloc)?)),
            Event::FootnoteReference(text) => Ok(Event::FootnoteReference(text.clone(alloc)?)),
            Event::SoftBreak => Ok(Event::SoftBreak),
            Event::HardBreak => Ok(Event::HardBreak),
            Event::Rule => Ok(Event::Rule),
            Event::TaskListMarker(checked) => Ok(Event::TaskListMarker(*checked)),
        }
    }

    /// The same event with nothing borrowed, each text as `CowStr::into_static` gives it.
    ///
    /// # Errors
    ///
    /// `AllocError` where memory for a text or a list is refused; the event is dropped then.
    pub fn into_static(self, alloc: Global) -> Result<Event<'static>, AllocError>
        ensures same { IfOk result (λ event.
            event_view cow_text event ≡ event_view cow_text self.entry) }
        ensures storage { IfOk result (λ event.
            event_view storage_of event ≡ event_view static_storage self.entry) }
        ensures equal { IfOk result (λ event.
            IsTrue (⟦<Event<'a> as PartialEq>⟧.eq event self.entry)) }
    {
        match self {
            Event::Start(tag) => Ok(Event::Start(tag.into_static(alloc)?)),
            Event::End(tag) => Ok(Event::End(tag)),
            Event::Text(text) => Ok(Event::Text(text.into_static(alloc)?)),
            Event::Code(text) => Ok(Event::Code(text.into_static(alloc)?)),
            Event::InlineMath(text) => Ok(Event::InlineMath(text.into_static(alloc)?)),
            Event::DisplayMath(text) => Ok(Event::DisplayMath(text.into_static(alloc)?)),
            Event::Html(text) => Ok(Event::Html(text.into_static(alloc)?)),
            Event::InlineHtml(text) => Ok(Event::InlineHtml(text.into_static(alloc)?)),
            Event::FootnoteReference(text) => Ok(Event::FootnoteReference(text.into_static(
                alloc,
            )?)),
            Event::SoftBreak => Ok(Event::SoftBreak),
            Event::HardBreak => Ok(Event::HardBreak),
            Event::Rule => Ok(Event::Rule),
            Event::TaskListMarker(checked) => Ok(Event::TaskListMarker(checked)),
        }
    }
}
