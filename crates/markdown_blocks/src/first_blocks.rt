//! The first blocks of list items and block quotes, and the task list items that they show.
//! (GitHub Flavored Markdown 0.29, section 5.3)
ghost use Rattle.std.specs.Prelude.{◌≡◌, ◌∷◌, ◌++◌, List, None, IfOk};
ghost use Rattle.std.specs.List.{filter_map};
ghost use Rattle.std.specs.Option.{option_map, option_to_list};
ghost use Rattle.markdown_values.specs.values.Extensions.{commonmark};
ghost use Rattle.markdown_blocks.specs.events.Events.{Event, seen_event};
ghost use Rattle.markdown_blocks.specs.first_blocks.FirstBlocks.{firsts_of, seen_first};
ghost use Rattle.markdown_blocks.specs.first_blocks.Tasks.{AreTasksOf, is_box, is_task_text, task_at};
ghost use Rattle.markdown_blocks.specs.first_blocks.Waiting.{first_at, firsts_after, waiting_next};
ghost use Rattle.markdown_blocks.specs.lists.Lists.{Nodes, flatten};

use crate::blank_lines::is_blank;
use crate::blocks::BlockKind;
use crate::containers::Container;
use crate::events::{BlockEvent, Blocks, Leaf};
use crate::lists::keep;
use markdown_scanners_tree::line::LineStart;
use markdown_values::values::Extensions;
use std::alloc::{AllocError, Global};
use std::marker::Model;

/// A leaf block that is the first block of its container.
#[derive(Clone, Copy)]
pub struct FirstBlock<'a> {
    /// The container.
    pub container: Container,
    /// Its first block.
    pub leaf: Leaf<'a>,
}

/// The marker of a task list item.
#[derive(Clone, Copy)]
pub struct Task {
    /// Whether it is checked.
    pub is_checked: bool,
    /// How many bytes of the page stand before it.
    pub offset: usize,
    /// How many bytes of the page, and of its paragraph's content, are the marker.
    pub len: usize,
}

/// The first blocks of containers, on a page that is read event by event.
///
/// Blank lines before a block are none. The events stay as they are: who asks for no task list items
/// has a paragraph with its marker.
#[derive(Drop)]
pub struct FirstBlocks {
    // The innermost container, where it has no block yet.
    waiting: Option<Container>,
}

impl Model for FirstBlocks {
    ghost use Rattle.std.specs.Prelude.{Option};
    ghost use Rattle.markdown_blocks.specs.declared.containers.Container.{Container};

    ghost Value = { Option Container };

    ghost view = { λ f. f.waiting };
}

impl FirstBlocks {
    /// Before the first event of a page.
    pub fn new() -> FirstBlocks
        ensures found { (nodes : Nodes) → firsts_after result (flatten nodes) ≡ firsts_of nodes }
        ensures start { result ≡ None }
    {
        FirstBlocks { waiting: None }
    }

    /// Reads the next event of the page: where that is the first block of a container, and a leaf
    /// block, the two.
    pub fn read<'a>(&mut self, event: BlockEvent<'a>) -> Option<FirstBlock<'a>>
        ensures found { (events : List Event)
            → firsts_after self.old (seen_event event.entry ∷ events)
            ≡ option_to_list (option_map seen_first result) ++ firsts_after self.new events }
        ensures first { option_map seen_first result ≡ first_at self.old (seen_event event.entry) }
        ensures state { self.new ≡ waiting_next self.old (seen_event event.entry) }
    {
        let waiting = self.waiting;
        match event {
            BlockEvent::Start(container, _) => self.waiting = Some(container),
            BlockEvent::End => self.waiting = None,
            BlockEvent::Block(leaf) => {
                if let BlockKind::Blank = leaf.kind {
                    return None;
                }
                self.waiting = None;
                return Some(FirstBlock {
                    container: waiting?,
                    leaf,
                });
            }
        }
        None
    }
}

impl<'a> FirstBlock<'a> {
    /// The marker of the task list item, if this is the first block of one: a paragraph in a list
    /// item that begins with `[ ]`, `[x]` or `[X]`, white space, and more in the same line.
    ///
    /// `LineStart::scan_task_list_marker` finds more: with other white space between the brackets,
    /// and before nothing but white space.
    pub fn task(&self) -> Option<Task>
        ensures { result ≡ task_at (seen_first self.now) }
    {
        let (Container::Item(_), BlockKind::Paragraph) = (self.container, self.leaf.kind) else {
            return None;
        };
        if !is_task_text(self.leaf.text) {
            return None;
        }
        let mut start = LineStart::new(self.leaf.text);
        let is_checked = start.scan_task_list_marker()?;
        Some(Task {
            is_checked,
            offset: self.leaf.offset,
            len: start.bytes_scanned(),
        })
    }
}

// Whether a text that begins with a task list marker may be that of a task list item.
fn is_task_text(text: &[u8]) -> bool
    ensures { result ≡ is_task_text text.now }
{
    text.len() > 2 && is_box(text[1]) && !is_blank(&text[3..])
}

// Whether a byte may stand between the brackets of a marker.
fn is_box(b: u8) -> bool
    ensures { result ≡ is_box b }
{
    matches!(b, b' ' | b'x' | b'X')
}

/// The markers of the task list items of a page, in order.
pub fn tasks_of_page(alloc: Global, page: &[u8]) -> Result<Vec<Task>, AllocError>
    ensures { IfOk result (λ tasks. AreTasksOf commonmark page.now tasks.items) }
{
    tasks_of_page_ext(alloc, page, Extensions::none())
}

/// The same with these extensions on.
pub fn tasks_of_page_ext(
    alloc: Global,
    page: &[u8],
    extensions: Extensions,
) -> Result<Vec<Task>, AllocError>
    ensures { IfOk result (λ tasks. AreTasksOf extensions page.now tasks.items) }
{
    let mut blocks = Blocks::new_ext(alloc, page, extensions);
    let mut firsts = FirstBlocks::new();
    let mut found = Vec::new(alloc);
    while let Some(event) = blocks.next(alloc)? {
        keep(&mut found, task_read(&mut firsts, event))?;
    }
    Ok(found)
}

// Reads the next event: the marker of the task list item whose first block it is.
fn task_read(firsts: &mut FirstBlocks, event: BlockEvent) -> Option<Task>
    ensures { (events : List Event)
        → filter_map task_at (firsts_after firsts.old (seen_event event.entry ∷ events))
        ≡ option_to_list result ++ filter_map task_at (firsts_after firsts.new events) }
{
    firsts.read(event)?.task()
}
