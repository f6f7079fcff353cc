//! The containers and lists of a page that have begun and not ended.
ghost use Rattle.std.specs.Prelude.{◌≡◌, ◌++◌, ◌∷◌, [], ◌==◌, ◌||◌, is_some, length, map, reverse, take, IfErr, IfOk, OnOk};
ghost use Rattle.std.specs.Option.{option_to_list};
ghost use Rattle.markdown_values.specs.strings.Text.{cow_text};
ghost use Rattle.markdown_values.specs.values.Tags.{tag_view};
ghost use Rattle.markdown_scanners_tree.specs.Ascii.{full_stop, right_parenthesis};
ghost use Rattle.markdown_blocks.specs.events.Events.{seen_leaf};
ghost use Rattle.markdown_events.specs.TagEnds.{tag_end};
ghost use Rattle.markdown_events.specs.InlineEvents.{seen_event};
ghost use Rattle.markdown_events.specs.page.OpenElements.{begun, edge_event, list_starts, end_events, ended, innermost_list, is_list, is_tight_in};
ghost use Rattle.markdown_events.specs.page.OpenElements.{next_span, none_open, opened, passed, place_in, start_events, with_list, without_list};
ghost use Rattle.markdown_events.specs.page.PageEvents.{container_tag, ending, list_tag, starting};
ghost use Rattle.markdown_events.specs.page.Readings.{seen_place};

use crate::elements::Element;
use crate::page::reading::Place;
use crate::page::spans::Span;
use markdown_blocks::blocks::BlockKind;
use markdown_blocks::containers::{Container, ListItem, past_first_line};
use markdown_blocks::events::Leaf;
use markdown_values::strings::CowStr;
use markdown_values::values::{Event, Tag, TagEnd};
use std::alloc::{AllocError, Global};
use std::marker::Model;
use std::ops::Range;

/// An event of a page, and the range of its source.
pub(crate) type Ranged<'a> = (Event<'a>, Range<usize>);

/// Where an element of a page begins or ends, with its range.
#[derive(Clone, Copy)]
pub(crate) struct Edge {
    pub(crate) kind: EdgeKind,
    pub(crate) from: usize,
    pub(crate) to: usize,
}

/// What begins or ends there: the list of which this is the first item, a container, or an element.
#[derive(Clone, Copy)]
pub(crate) enum EdgeKind {
    List(ListItem),
    Container(Container),
    End(TagEnd),
}

/// An element that has begun and not ended: a container, or a list. Of an item and of a list whether
/// the list is tight, and of an item whether it is the last of it.
#[derive(Clone, Copy)]
pub(crate) struct OpenElement {
    pub(crate) element: Element,
    pub(crate) is_tight: bool,
    pub(crate) is_last: bool,
}

/// The containers of a page that are open, and the elements that they are, with their lists.
#[derive(Drop)]
pub(crate) struct OpenElements {
    // Of the containers that are yet to begin, the first at the end.
    spans: Vec<Span>,
    containers: Vec<Container>,
    kept: usize,
    // The innermost container, where it has no block yet.
    waiting: Option<Container>,
    // The innermost at the end.
    elements: Vec<OpenElement>,
}

impl Model for OpenElements {
    ghost use Rattle.std.specs.Prelude.{reverse};
    ghost use Rattle.markdown_events.specs.page.OpenElements.{OpenElements};

    ghost Value = { OpenElements };

    ghost view = { λ e. record {
      spans = reverse e.spans.items;
      containers = e.containers.items;
      kept = e.kept;
      waiting = e.waiting;
      elements = reverse e.elements.items;
    } };
}

impl OpenElements {
    ghost use Rattle.std.specs.Prelude.{◌≡◌, reverse};

    /// None is open, and the containers of the page have these spans, the first at the end.
    pub(crate) fn new(alloc: Global, spans: Vec<Span>) -> OpenElements
        ensures { result ≡ none_open (reverse spans.items) }
    {
        OpenElements {
            spans,
            containers: Vec::new(alloc),
            kept: 0,
            waiting: None,
            elements: Vec::new(alloc),
        }
    }

    /// The innermost container that is open, where it has no block yet.
    pub(crate) fn waiting(&self) -> Option<Container>
        ensures { result ≡ self.now.waiting }
    {
        self.waiting
    }

    /// Where a leaf block stands that comes next.
    pub(crate) fn place(&self) -> Place<'_>
        ensures containers { result.containers.now ≡ self.now.containers }
        ensures kept { result.kept ≡ self.now.kept }
        ensures place { seen_place result ≡ place_in self.now }
    {
        Place {
            containers: &self.containers,
            kept: self.kept,
            is_tight: is_tight_in(without_list(&self.elements)),
        }
    }

    /// Passes a leaf block.
    pub(crate) fn pass(&mut self, block: Leaf)
        ensures { self.new ≡ passed (seen_leaf block.entry) self.old }
    {
        self.kept = self.containers.len();
        if !matches!(block.kind, BlockKind::Blank) {
            self.waiting = None;
        }
    }

    /// Begins a container, before whose marker so many bytes of the page stand. Answers its start, and
    /// that of the list, if one begins with it.
    pub(crate) fn begin(
        &mut self,
        container: Container,
        offset: usize,
    ) -> Result<(Option<Edge>, Edge), AllocError>
        ensures begun { OnOk result (self.new ≡ begun container offset self.old) }
        ensures starts { IfOk result (λ starts.
            map edge_event (option_to_list starts.0 ++ starts.1 ∷ [])
            ≡ start_events container offset (next_span self.old.spans) self.old.elements) }
        ensures refused { IfErr result (λ _. self.new ≡ self.old) }
    {
        let span = self.next_span();
        let is_in_list = is_in_list(&self.elements);
        self.containers.push(past_first_line(container))?;
        let count = self.elements.len();
        if let Err(refused) = open_container(&mut self.elements, container, offset, span) {
            self.elements.truncate(count);
            self.containers.pop();
            return Err(refused);
        }
        self.spans.pop();
        self.waiting = Some(container);
        Ok((
            list_start(is_in_list, container, offset, span),
            container_start(container, offset, span),
        ))
    }

    /// Ends the innermost container. Answers its end, and that of the list, if it is the last item of
    /// one.
    pub(crate) fn end(&mut self) -> (Option<Edge>, Option<Edge>)
        ensures ended { self.new ≡ ended self.old }
        ensures ends { map edge_event (option_to_list result.0 ++ option_to_list result.1)
            ≡ end_events self.old.elements }
    {
        self.containers.pop();
        self.kept = self.containers.len();
        self.waiting = None;
        let Some(innermost) = self.elements.pop() else {
            return (None, None);
        };
        let list = if innermost.is_last {
            self.elements.pop()
        } else {
            None
        };
        (Some(end_of(innermost)), list.map(|list| end_of(list)))
    }

    // The span of the next container.
    fn next_span(&self) -> Span
        ensures { result ≡ next_span self.now.spans }
    {
        match self.spans.last() {
            Some(span) => *span,
            None => Span {
                to: 0,
                list_to: 0,
                is_loose: false,
                is_last: false,
            },
        }
    }
}

// Opens the elements that a container begins.
fn open_container(
    elements: &mut Vec<OpenElement>,
    container: Container,
    offset: usize,
    span: Span,
) -> Result<(), AllocError>
    ensures opened { OnOk result (reverse elements.new.items
        ≡ opened container offset span (reverse elements.old.items)) }
    ensures kept { take (length elements.old.items) elements.new.items ≡ elements.old.items }
{
    let (is_tight, is_last) = match container {
        Container::Item(item) => {
            open_list(elements, item, offset, span)?;
            (is_tight_in(elements), span.is_last)
        }
        _ => (false, false),
    };
    elements.push(OpenElement {
        element: Element {
            tag: end_tag(container),
            from: offset,
            to: span.to,
        },
        is_tight,
        is_last,
    })?;
    Ok(())
}

// Opens the list that an item is in, unless it is open.
fn open_list(
    elements: &mut Vec<OpenElement>,
    item: ListItem,
    offset: usize,
    span: Span,
) -> Result<(), AllocError>
    ensures opened { OnOk result (reverse elements.new.items
        ≡ with_list item offset span (reverse elements.old.items)) }
    ensures kept { take (length elements.old.items) elements.new.items ≡ elements.old.items }
{
    if is_in_list(elements) {
        return Ok(());
    }
    elements.push(OpenElement {
        element: Element {
            tag: TagEnd::List(is_ordered(item)),
            from: offset,
            to: span.list_to,
        },
        is_tight: !span.is_loose,
        is_last: false,
    })?;
    Ok(())
}

// Whether the innermost element is a list.
fn is_in_list(elements: &[OpenElement]) -> bool
    ensures { result ≡ is_some (innermost_list (reverse elements.now)) }
{
    match elements {
        [.., innermost] => is_list(innermost.element.tag),
        [] => false,
    }
}

// The start of the list that a container begins, which is in a list or not.
fn list_start(is_in_list: bool, container: Container, offset: usize, span: Span) -> Option<Edge>
    ensures { map edge_event (option_to_list result)
        ≡ list_starts container is_in_list offset span }
{
    let Container::Item(item) = container else {
        return None;
    };
    if is_in_list {
        return None;
    }
    Some(Edge {
        kind: EdgeKind::List(item),
        from: offset,
        to: span.list_to,
    })
}

// The start of a container.
fn container_start(container: Container, offset: usize, span: Span) -> Edge
    ensures { edge_event result ∷ [] ≡ starting (container_tag container) offset span.to }
{
    Edge {
        kind: EdgeKind::Container(container),
        from: offset,
        to: span.to,
    }
}

// How a container ends.
fn end_tag(container: Container) -> TagEnd
    ensures { result ≡ tag_end (container_tag container) }
{
    match container {
        Container::Quote => TagEnd::BlockQuote(None),
        Container::Item(_) => TagEnd::Item,
        Container::Footnote => TagEnd::FootnoteDefinition,
        Container::TermDefinition(_) => TagEnd::DefinitionListDefinition,
    }
}

// Whether the items of a list have numbers.
fn is_ordered(item: ListItem) -> bool
    ensures { result ≡ (item.delimiter == full_stop || item.delimiter == right_parenthesis) }
{
    matches!(item.delimiter, b'.' | b')')
}

/// The tag of the list that begins with an item.
pub(crate) fn list_tag<'a>(first: ListItem) -> Tag<'a>
    ensures { tag_view cow_text result ≡ list_tag first }
{
    Tag::List(if is_ordered(first) {
        Some(first.start as u64)
    } else {
        None
    })
}

// Whether an element that ends so is a list.
fn is_list(tag: TagEnd) -> bool
    ensures { result ≡ is_list tag }
{
    matches!(tag, TagEnd::List(_))
}

// The elements around the list that is innermost, or all.
fn without_list(elements: &[OpenElement]) -> &[OpenElement]
    ensures { reverse result.now ≡ without_list (reverse elements.now) }
{
    match elements {
        [outer @ .., list] if is_list(list.element.tag) => outer,
        _ => elements,
    }
}

// Whether the innermost element is one of a tight list.
fn is_tight_in(elements: &[OpenElement]) -> bool
    ensures { result ≡ is_tight_in (reverse elements.now) }
{
    match elements {
        [.., innermost] => innermost.is_tight,
        [] => false,
    }
}

// The end of an element.
fn end_of(innermost: OpenElement) -> Edge
    ensures { edge_event result ∷ [] ≡ ending innermost.element }
{
    let element = innermost.element;
    Edge {
        kind: EdgeKind::End(element.tag),
        from: element.from,
        to: element.to,
    }
}

/// The tag of a container.
pub(crate) fn container_tag<'a>(container: Container) -> Tag<'a>
    ensures { tag_view cow_text result ≡ container_tag container }
{
    match container {
        Container::Quote => Tag::BlockQuote(None),
        Container::Item(_) => Tag::Item,
        Container::Footnote => Tag::FootnoteDefinition(CowStr::from("")),
        Container::TermDefinition(_) => Tag::DefinitionListDefinition,
    }
}
