//! The lists of a page: which items are in one, where it begins and ends, and whether it is loose.
//! (CommonMark 0.31.2, section 5.3)
ghost use Rattle.std.specs.Prelude.{◌≡◌, ◌++◌, ◌∷◌, [], List, length, reverse, IfOk, IfErr, OnOk};
ghost use Rattle.std.specs.Option.{option_to_list};
ghost use Rattle.markdown_values.specs.values.Extensions.{commonmark};
ghost use Rattle.markdown_blocks.specs.events.Events.{Event, seen_event, seen_leaf, leaf, ends};
ghost use Rattle.markdown_blocks.specs.lists.Lists.{AreListsOf, Nodes, flatten, lists_of};
ghost use Rattle.markdown_blocks.specs.lists.Tracked.{Tracked, at_start, read, start_read, closed, lists_given, joins, loosened, list_begun, begun};
ghost use Rattle.markdown_blocks.specs.lists.Tracked.{level_within};

use crate::blocks::BlockKind;
use crate::containers::Container;
use crate::events::{BlockEvent, Blocks, Leaf};
use markdown_values::values::Extensions;
use std::alloc::{AllocError, Global};
use std::marker::Model;

/// A list of a page.
#[derive(Clone, Copy)]
pub struct ListBlock {
    /// The bullet or the delimiter of its items.
    pub delimiter: u8,
    /// Whether it is loose, and not tight.
    pub is_loose: bool,
    /// The number that its first item has, 0 after a bullet.
    pub start: u32,
    /// How many containers it stands in.
    pub depth: usize,
    /// How many lines of the page stand before its first.
    pub line: usize,
    /// How many lines of the page stand before what follows its last.
    pub end: usize,
}

// The list that the last block of a container is an item of.
#[derive(Clone, Copy)]
struct OpenList {
    delimiter: u8,
    is_loose: bool,
    start: u32,
    line: usize,
}

// A container that has begun and not ended, or the page: whether it ends with its last block, as an
// item does, whether a blank line stands between two of its blocks that are in no list together, and
// its last block's list.
#[derive(Clone, Copy)]
struct Level {
    ends_with_block: bool,
    is_parted: bool,
    list: Option<OpenList>,
}

const _: () = prove!(size_of::<Level>() <= 32);

/// The lists of a page that is read event by event.
#[derive(Drop)]
pub struct Lists {
    // How many lines stand before what comes next, and before what follows the last block.
    line: usize,
    end: usize,
    // Whether a blank line stands after the last block.
    is_blank: bool,
    // Whether the innermost container has no block yet.
    is_fresh: bool,
    level: Level,
    // Those around the innermost, outermost first.
    outer: Vec<Level>,
}

impl Model for Lists {
    ghost Value = { Tracked };

    ghost view = { λ l. record {
      line = l.line;
      end = l.end;
      is_blank = l.is_blank;
      is_fresh = l.is_fresh;
      level = l.level;
      outer = reverse l.outer.items;
    } };
}

impl Lists {
    /// Before the first event of a page.
    pub fn new(alloc: Global) -> Lists
        ensures lists { (nodes : Nodes) → lists_given result (flatten nodes) ≡ lists_of nodes }
        ensures start { result ≡ at_start }
    {
        Lists {
            line: 0,
            end: 0,
            is_blank: false,
            is_fresh: true,
            level: Level {
                ends_with_block: false,
                is_parted: false,
                list: None,
            },
            outer: Vec::new(alloc),
        }
    }

    /// Reads the next event of the page, and answers the list that it shows to have ended, if any.
    ///
    /// Memory is asked for where more containers are open than ever before. After a refusal the same
    /// event may be read again.
    pub fn read(&mut self, event: BlockEvent) -> Result<Option<ListBlock>, AllocError>
        ensures ended { IfOk result (λ ended. (events : List Event)
            → lists_given self.old (seen_event event.entry ∷ events)
            ≡ option_to_list ended ++ lists_given self.new events) }
        ensures list { IfOk result (λ ended.
            ended ≡ (read self.old (seen_event event.entry)).list) }
        ensures state { OnOk result (self.new
            ≡ (read self.old (seen_event event.entry)).state) }
        ensures refused { IfErr result (λ _. self.new ≡ self.old) }
    {
        match event {
            BlockEvent::Start(container, _) => self.start(container),
            BlockEvent::Block(leaf) => Ok(self.leaf(leaf)),
            BlockEvent::End => Ok(self.end()),
        }
    }

    /// The list that the last event of the page has left open, if any, which the end of the page ends.
    pub fn finish(&self) -> Option<ListBlock>
        ensures lists { lists_given self.now [] ≡ option_to_list result }
        ensures list { result ≡ closed self.now }
    {
        self.current()
    }

    /// How many containers have begun and not ended.
    pub fn depth(&self) -> usize
        ensures { result ≡ length self.now.outer }
    {
        self.outer.len()
    }

    // The list of the innermost container's last block, as it is where no item follows.
    fn current(&self) -> Option<ListBlock>
        ensures { result ≡ closed self.now }
    {
        let list = self.level.list?;
        Some(ListBlock {
            delimiter: list.delimiter,
            is_loose: list.is_loose,
            start: list.start,
            depth: self.outer.len(),
            line: list.line,
            end: self.end,
        })
    }

    // A container begins.
    fn start(&mut self, container: Container) -> Result<Option<ListBlock>, AllocError>
        ensures list { IfOk result (λ list. list ≡ (start_read container self.old).list) }
        ensures state { IfOk result (λ _. self.new ≡ (start_read container self.old).state) }
        ensures refused { IfErr result (λ _. self.new ≡ self.old) }
    {
        let goes_on = joins(self.level.list, container);
        let ended = self.current();
        let outer = begun(self.level, container, self.is_blank, self.line);
        self.outer.push(outer)?;
        self.level = level_within(container);
        self.end = self.line;
        self.is_blank = false;
        self.is_fresh = true;
        Ok(if goes_on { None } else { ended })
    }

    // A leaf block.
    fn leaf(&mut self, block: Leaf) -> Option<ListBlock>
        ensures list { result ≡ (read self.old (leaf (seen_leaf block.entry))).list }
        ensures state { self.new ≡ (read self.old (leaf (seen_leaf block.entry))).state }
    {
        self.line = block.line + block.lines;
        if matches!(block.kind, BlockKind::Blank) && !self.is_fresh {
            self.is_blank = true;
            return None;
        }
        let ended = self.current();
        self.level = Level {
            is_parted: self.level.is_parted || self.is_blank,
            list: None,
            ..self.level
        };
        self.end = self.line;
        self.is_blank = false;
        self.is_fresh = false;
        ended
    }

    // The innermost container ends.
    fn end(&mut self) -> Option<ListBlock>
        ensures list { result ≡ (read self.old ends).list }
        ensures state { self.new ≡ (read self.old ends).state }
    {
        let ended = self.current();
        let inner = self.level;
        let outer = self.outer.pop()?;
        self.level = Level {
            list: loosened(outer.list, inner.is_parted),
            ..outer
        };
        self.is_fresh = false;
        if !inner.ends_with_block {
            self.end = self.line;
            self.is_blank = false;
        }
        ended
    }
}

// Whether the container is an item of the list.
fn joins(list: Option<OpenList>, container: Container) -> bool
    ensures { result ≡ joins list container }
{
    match (list, container) {
        (Some(list), Container::Item(item)) => list.delimiter == item.delimiter,
        _ => false,
    }
}

// The list, which is loose now if it was or this holds.
fn loosened(list: Option<OpenList>, loose: bool) -> Option<OpenList>
    ensures { result ≡ loosened list loose }
{
    let list = list?;
    Some(OpenList {
        is_loose: list.is_loose || loose,
        ..list
    })
}

// The list that the container begins after so many lines, if it is an item.
fn list_begun(container: Container, line: usize) -> Option<OpenList>
    ensures { result ≡ list_begun container line }
{
    match container {
        Container::Quote | Container::Footnote | Container::TermDefinition(_) => None,
        Container::Item(item) => Some(OpenList {
            delimiter: item.delimiter,
            is_loose: false,
            start: item.start,
            line,
        }),
    }
}

// A container in which the other begins, after a blank line or not and so many lines of the page.
fn begun(outer: Level, container: Container, is_blank: bool, line: usize) -> Level
    ensures { result ≡ begun outer container is_blank line }
{
    let goes_on = joins(outer.list, container);
    Level {
        is_parted: outer.is_parted || (is_blank && !goes_on),
        list: if goes_on {
            loosened(outer.list, is_blank)
        } else {
            list_begun(container, line)
        },
        ..outer
    }
}

// The container itself, without a block.
fn level_within(container: Container) -> Level
    ensures { result ≡ level_within container }
{
    Level {
        ends_with_block: !matches!(container, Container::Quote),
        is_parted: false,
        list: None,
    }
}

/// The lists of a page, each where it ends.
pub fn lists_of_page(alloc: Global, page: &[u8]) -> Result<Vec<ListBlock>, AllocError>
    ensures { IfOk result (λ lists. AreListsOf commonmark page.now lists.items) }
{
    lists_of_page_ext(alloc, page, Extensions::none())
}

/// The same with these extensions on.
pub fn lists_of_page_ext(
    alloc: Global,
    page: &[u8],
    extensions: Extensions,
) -> Result<Vec<ListBlock>, AllocError>
    ensures { IfOk result (λ lists. AreListsOf extensions page.now lists.items) }
{
    let mut blocks = Blocks::new_ext(alloc, page, extensions);
    let mut lists = Lists::new(alloc);
    let mut found = Vec::new(alloc);
    while let Some(event) = blocks.next(alloc)? {
        keep(&mut found, lists.read(event)?)?;
    }
    keep(&mut found, lists.finish())?;
    Ok(found)
}

/// Keeps the value, if there is one, after the others.
pub(crate) fn keep<T: Copy>(found: &mut Vec<T>, value: Option<T>) -> Result<(), AllocError>
    ensures { OnOk result (found.new.items ≡ found.old.items ++ option_to_list value) }
{
    if let Some(value) = value {
        found.push(value)?;
    }
    Ok(())
}
