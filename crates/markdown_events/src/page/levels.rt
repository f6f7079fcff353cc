//! What is known of the blocks in a container where a page is read from its end.
//! (CommonMark 0.31.2, section 5.3)
ghost use Rattle.std.specs.Prelude.{◌≡◌, ℕ, None, false, true};
ghost use Rattle.markdown_blocks.specs.events.Events.{seen_leaf};
ghost use Rattle.markdown_blocks.specs.blocks.Pages.{is_blank_kind};
ghost use Rattle.markdown_blocks.specs.lists.Lists.{Nodes, nothing, leaf_then, container_then};
ghost use Rattle.markdown_events.specs.page.Levels.{content_of, ended_at, goes_on, is_followed};
ghost use Rattle.markdown_events.specs.page.Levels.{level_of, with_block};
ghost use Rattle.markdown_events.specs.page.Spans.{end_of, front_list, is_parted, list_with};
ghost use Rattle.markdown_events.specs.page.Spans.{span_of};

use crate::page::spans::Span;
use markdown_blocks::blocks::BlockKind;
use markdown_blocks::containers::{Container, ListItem};
use markdown_blocks::events::Leaf;

/// A list of items.
#[derive(Clone, Copy)]
pub(crate) struct ItemList {
    /// The bullet or the delimiter of its items.
    pub(crate) delimiter: u8,
    /// Whether it is loose, and not tight.
    pub(crate) is_loose: bool,
    /// How many bytes of the page stand before what follows it.
    pub(crate) to: usize,
}

/// The last of some blocks.
#[derive(Clone, Copy)]
pub(crate) struct LastBlock {
    /// How many bytes of the page stand before what follows it.
    pub(crate) to: usize,
    /// Whether a blank line follows it, or it is an item or the like that ends with one.
    pub(crate) is_blank: bool,
}

/// All that stands in a container.
#[derive(Clone, Copy)]
pub(crate) struct ContainerContent {
    /// How many bytes of the page stand before what follows the last of its blocks that is not
    /// blank.
    pub(crate) to: usize,
    /// How many stand before what follows the last of its lines, blank or not.
    pub(crate) lines_to: usize,
    /// Whether a blank line stands between two of the blocks.
    pub(crate) is_parted: bool,
    /// Whether they end with a blank line.
    pub(crate) ends_blank: bool,
}

/// The last blocks in a container or in the page, of which those before are yet to be read.
#[derive(Clone, Copy)]
pub(crate) struct Level {
    // How many bytes of the page stand before the first of them, blank lines too.
    offset: usize,
    // How many stand before what follows the last of them, blank lines too; of none, 0.
    lines_to: usize,
    // The last of them that is not blank.
    last: Option<LastBlock>,
    // Whether a blank line stands between two of them.
    is_parted: bool,
    // Whether they begin with a blank line, and whether another follows it.
    begins_blank: bool,
    begins_blank_twice: bool,
    // The list that they begin with, blank lines aside.
    list: Option<ItemList>,
}

const _: () = prove!(size_of::<Level>() <= 72);

impl Level {
    /// No blocks.
    pub(crate) fn nothing() -> Level
        ensures { result ≡ level_of nothing }
    {
        Level {
            offset: 0,
            lines_to: 0,
            last: None,
            is_parted: false,
            begins_blank: false,
            begins_blank_twice: false,
            list: None,
        }
    }

    /// Adds a leaf block before the blocks.
    //
    // Most blocks are leaf blocks: what is known is changed where it stands, and not moved for each.
    pub(crate) fn add_leaf(&mut self, block: Leaf)
        ensures { (later : Nodes) → self.old ≡ level_of later
            → self.new ≡ level_of (leaf_then (seen_leaf block.entry) later) }
    {
        let to = block.start + block.bytes;
        self.end_at(to);
        if is_blank(block.kind) {
            self.add_blank_line(block.offset);
            return;
        }
        let last = LastBlock {
            to,
            is_blank: self.begins_blank,
        };
        self.add_block(block.offset, last);
    }

    /// The blocks with a container before them, in which these stand.
    pub(crate) fn with_container(
        self,
        container: Container,
        offset: usize,
        content: ContainerContent,
    ) -> Level
        ensures { (inner later : Nodes) → content ≡ content_of inner → self ≡ level_of later
            → result ≡ level_of (container_then container offset inner later) }
    {
        let block = LastBlock {
            to: content.end_in(container),
            is_blank: self.is_followed(container, content),
        };
        let is_alike = goes_on(container, self.list);
        let list = self.list_begun(container, content);
        let mut later = self;
        later.end_at(content.lines_to);
        later.with_block(offset, block, is_alike, list)
    }

    /// What the container spans in which these stand, before the blocks.
    pub(crate) fn span_of(self, container: Container, content: ContainerContent) -> Span
        ensures { (inner later : Nodes) → content ≡ content_of inner → self ≡ level_of later
            → result ≡ span_of container inner later }
    {
        let to = content.end_in(container);
        match self.list_begun(container, content) {
            Some(list) => Span {
                to,
                is_loose: list.is_loose,
                list_to: list.to,
                is_last: !goes_on(container, self.list),
            },
            None => Span {
                to,
                is_loose: false,
                list_to: 0,
                is_last: false,
            },
        }
    }

    /// The blocks where no others stand before them in their container.
    pub(crate) fn content(self) -> ContainerContent
        ensures { (nodes : Nodes) → self ≡ level_of nodes → result ≡ content_of nodes }
    {
        let last = self.last.unwrap_or(LastBlock {
            to: self.offset,
            is_blank: self.begins_blank_twice,
        });
        ContainerContent {
            to: last.to,
            lines_to: self.lines_to,
            is_parted: self.is_parted(),
            ends_blank: last.is_blank,
        }
    }

    // Whether a blank line stands between two of the blocks, where no others stand before them.
    fn is_parted(self) -> bool
        ensures { (nodes : Nodes) → self ≡ level_of nodes → result ≡ is_parted nodes }
    {
        (self.last.is_some() && self.begins_blank_twice) || self.is_parted
    }

    // Whether a blank line follows the container in which these stand, or ends it.
    fn is_followed(self, container: Container, content: ContainerContent) -> bool
        ensures { (inner later : Nodes) → content ≡ content_of inner → self ≡ level_of later
            → result ≡ is_followed container inner later }
    {
        let ends_blank = !matches!(container, Container::Quote) && content.ends_blank;
        ends_blank || self.begins_blank
    }

    // The list that the container begins in which these stand, if it is an item.
    fn list_begun(self, container: Container, content: ContainerContent) -> Option<ItemList>
        ensures { (offset : ℕ) → (inner later : Nodes) → content ≡ content_of inner
            → self ≡ level_of later
            → result ≡ front_list (container_then container offset inner later) }
    {
        match container {
            Container::Item(item) => {
                let is_followed = self.is_followed(container, content);
                Some(list_with(item, content, is_followed, self.list))
            }
            _ => None,
        }
    }

    // A block ends here, blank or not, before the blocks.
    fn end_at(&mut self, to: usize)
        ensures { self.new ≡ ended_at to self.old }
    {
        if !(self.begins_blank || self.last.is_some()) {
            self.lines_to = to;
        }
    }

    // Adds a blank line before the blocks, which begins here.
    fn add_blank_line(&mut self, offset: usize)
        ensures { self.new ≡ record self.old {
          offset = offset;
          begins_blank = true;
          begins_blank_twice = self.old.begins_blank;
        } }
    {
        self.offset = offset;
        self.begins_blank_twice = self.begins_blank;
        self.begins_blank = true;
    }

    // Adds a block before the blocks that is not blank, begins here, and begins no list.
    fn add_block(&mut self, offset: usize, block: LastBlock)
        ensures { self.new ≡ with_block offset block false None self.old }
    {
        if self.last.is_some() {
            self.is_parted = block.is_blank || self.is_parted;
        } else {
            self.last = Some(block);
        }
        self.offset = offset;
        self.begins_blank = false;
        self.begins_blank_twice = false;
        self.list = None;
    }

    // The blocks with a block before them that is not blank and begins here, one more item of their
    // list or not, and that begins this list or none.
    fn with_block(
        self,
        offset: usize,
        block: LastBlock,
        is_alike: bool,
        list: Option<ItemList>,
    ) -> Level
        ensures { result ≡ with_block offset block is_alike list self }
    {
        let is_parted = self.last.is_some() && block.is_blank && !is_alike;
        Level {
            offset,
            lines_to: self.lines_to,
            last: Some(self.last.unwrap_or(block)),
            is_parted: is_parted || self.is_parted,
            begins_blank: false,
            begins_blank_twice: false,
            list,
        }
    }
}

impl ContainerContent {
    // How many bytes of the page stand before what follows the container in which it stands.
    fn end_in(self, container: Container) -> usize
        ensures { result ≡ end_of container self.lines_to self.to }
    {
        match container {
            Container::Quote => self.lines_to,
            _ => self.to,
        }
    }
}

// Whether a block of this kind is a blank line.
fn is_blank(kind: BlockKind) -> bool
    ensures { result ≡ is_blank_kind kind }
{
    matches!(kind, BlockKind::Blank)
}

// Whether the container is one more item of the list.
fn goes_on(container: Container, list: Option<ItemList>) -> bool
    ensures { result ≡ goes_on container list }
{
    match (container, list) {
        (Container::Item(item), Some(list)) => item.delimiter == list.delimiter,
        _ => false,
    }
}

// The list of an item in which these stand, followed by a blank line or not, and of the items of
// this list that go on with it.
fn list_with(
    item: ListItem,
    content: ContainerContent,
    is_followed: bool,
    list: Option<ItemList>,
) -> ItemList
    ensures { (inner : Nodes) → content ≡ content_of inner
        → result ≡ list_with item inner is_followed list }
{
    match list {
        Some(list) if item.delimiter == list.delimiter => ItemList {
            is_loose: list.is_loose || (content.is_parted || is_followed),
            ..list
        },
        _ => ItemList {
            delimiter: item.delimiter,
            is_loose: content.is_parted,
            to: content.to,
        },
    }
}
