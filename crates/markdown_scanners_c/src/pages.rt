//! The blocks of a page, and the content of a leaf block. (CommonMark 0.31.2, chapters 3, 4 and 5)
ghost use Rattle.std.specs.Prelude.{◌≡◌, ◌⊎◌, List, Some, length, map, drop, take, IfOk, IfSome, IfNone};
ghost use Rattle.std.specs.List.{list_all};
ghost use Rattle.markdown_values.specs.declared.values.HeadingLevel.{HeadingLevel as Level};
ghost use Rattle.markdown_values.specs.values.Headings.{heading_number};
ghost use Rattle.markdown_scanners_tree.specs.declared.scanners.html_kinds.HtmlBlockKind.{HtmlBlockKind as HtmlKind};
ghost use Rattle.markdown_scanners_tree.specs.scanners.TextLines.{lines_of};
ghost use Rattle.markdown_scanners_tree.specs.scanners.html_kinds.HtmlKinds.{condition_number};
ghost use Rattle.markdown_blocks.specs.content.Content.{IsContent, Placed};
ghost use Rattle.markdown_blocks.specs.declared.blocks.BlockKind.{BlockKind as LeafKind};
ghost use Rattle.markdown_blocks.specs.events.Events.{Event, IsEventsOf, seen_event, seen_leaf};
ghost use Rattle.markdown_scanners_c.specs.Buffer.{IsWritten};
ghost use Rattle.markdown_scanners_c.specs.Status.{no_memory};
ghost use Rattle.markdown_scanners_c.specs.Texts.{IsNoText};
ghost use Rattle.markdown_scanners_c.specs.Pages.{HasKind, IsContentReturned, IsPageAnswer, StandsIn};
ghost use Rattle.markdown_scanners_c.specs.Pages.{container_in, container_returned, event_returned, is_container, kind_returned, leaf_returned, of_kind};

use crate::extensions::{are_extensions, extensions_of};
use crate::status::{BAD_KIND, NO_MEMORY, OK, PAST_END, TOO_SHORT};
use crate::texts::{Text, no_text, write_text};
use markdown_blocks::blocks::BlockKind;
use markdown_blocks::containers::{Container, DefinitionItem, ListItem};
use markdown_blocks::content::content_of;
use markdown_blocks::events::{BlockEvent, Blocks, Leaf};
use markdown_scanners_tree::scanners::HtmlBlockKind;
use markdown_values::values::{Extensions, HeadingLevel};
use std::alloc::{AllocError, Global};

pub(crate) const CONTAINER_END: u32 = 0;

pub(crate) const BLOCK_QUOTE: u32 = 1;

const LIST_ITEM: u32 = 2;

const BLANK: u32 = 3;

const THEMATIC_BREAK: u32 = 4;

const HEADING: u32 = 5;

const SETEXT_HEADING: u32 = 6;

const INDENTED_CODE: u32 = 7;

const FENCED_CODE: u32 = 8;

const HTML: u32 = 9;

const TABLE: u32 = 10;

const DEFINITION: u32 = 11;

const PARAGRAPH: u32 = 12;

// These begin only where their extensions are on.
pub(crate) const FOOTNOTE: u32 = 13;

pub(crate) const TERM_DEFINITION: u32 = 14;

/// `struct mds_block` of C: a container that begins, the end of one, or a leaf block.
#[repr(C)]
#[derive(Clone, Copy)]
pub struct Block {
    pub kind: u32,
    pub number: u32,
    pub byte: u8,
    pub width: u8,
    pub count: usize,
    pub indent: usize,
    pub line: usize,
    pub lines: usize,
    pub start: usize,
    pub bytes: usize,
    pub offset: usize,
}

/// `struct mds_blocks` of C: how many blocks are written, or need room.
#[repr(C)]
pub struct BlockCount {
    pub status: u32,
    pub count: usize,
}

// The numbers of a block that name its kind.
#[derive(Clone, Copy)]
pub(crate) struct Kind {
    kind: u32,
    number: u32,
    byte: u8,
    count: usize,
}

/// Writes the blocks of a page, in order: the beginning of each container, the leaf blocks in it, and
/// its end.
#[unsafe(no_mangle)]
pub extern "C" fn mds_scan_blocks(
    alloc: Global,
    page: &[u8],
    extensions: u32,
    blocks: &mut [Block],
) -> BlockCount
    ensures blocks { IsPageAnswer page.now extensions blocks.old blocks.new result }
{
    if !are_extensions(extensions) {
        return none_counted(BAD_KIND);
    }
    match returned_blocks(alloc, page, extensions_of(extensions)) {
        Ok(returned) => write_front(&returned, blocks),
        Err(_) => none_counted(NO_MEMORY),
    }
}

/// Nothing is written, and why.
pub(crate) fn none_counted(status: u32) -> BlockCount
    ensures { result ≡ record { status = status; count = 0 } }
{
    BlockCount { status, count: 0 }
}

// The blocks of a page that is read with these extensions.
fn returned_blocks(alloc: Global, page: &[u8], asked: Extensions) -> Result<Vec<Block>, AllocError>
    ensures { IfOk result (λ returned. (events : List Event)
        × IsEventsOf asked page.now events
        × (returned.items ≡ map event_returned events)) }
{
    let mut returned = Vec::new(alloc);
    let mut blocks = Blocks::new_ext(alloc, page, asked);
    while let Some(event) = blocks.next(alloc)? {
        returned.push(event_returned(event))?;
    }
    Ok(returned)
}

/// Writes these at the front of the buffer, where there is room for them.
pub(crate) fn write_front<T: Copy>(returned: &[T], buffer: &mut [T]) -> BlockCount
    ensures { IsWritten returned.now buffer.old buffer.new result.status result.count }
{
    let count = returned.len();
    if count > buffer.len() {
        return BlockCount {
            status: TOO_SHORT,
            count,
        };
    }
    buffer[..count].copy_from_slice(returned);
    BlockCount { status: OK, count }
}

// An event as C has it.
fn event_returned(event: BlockEvent) -> Block
    ensures { result ≡ event_returned (seen_event event.entry) }
{
    match event {
        BlockEvent::Start(container, offset) => container_returned(container, offset),
        BlockEvent::Block(leaf) => leaf_returned(leaf),
        BlockEvent::End => of_kind(plain_kind(CONTAINER_END)),
    }
}

// A container that begins at the offset, as C has it.
pub(crate) fn container_returned(container: Container, offset: usize) -> Block
    ensures { result ≡ container_returned container offset }
{
    match container {
        Container::Quote => Block {
            offset,
            ..of_kind(plain_kind(BLOCK_QUOTE))
        },
        Container::Footnote => Block {
            offset,
            ..of_kind(plain_kind(FOOTNOTE))
        },
        Container::TermDefinition(definition) => Block {
            width: definition.width,
            offset,
            ..of_kind(plain_kind(TERM_DEFINITION))
        },
        Container::Item(item) => {
            let kind = Kind {
                number: item.start,
                byte: item.delimiter,
                ..plain_kind(LIST_ITEM)
            };
            Block {
                width: item.width,
                offset,
                ..of_kind(kind)
            }
        }
    }
}

// A leaf block as C has it.
fn leaf_returned(leaf: Leaf) -> Block
    ensures { result ≡ leaf_returned (seen_leaf leaf.entry) }
{
    Block {
        indent: leaf.indent,
        line: leaf.line,
        lines: leaf.lines,
        start: leaf.start,
        bytes: leaf.bytes,
        offset: leaf.offset,
        ..of_kind(kind_returned(leaf.kind))
    }
}

// A block of the kind, which stands nowhere.
pub(crate) fn of_kind(kind: Kind) -> Block
    ensures { result ≡ of_kind kind }
{
    Block {
        kind: kind.kind,
        number: kind.number,
        byte: kind.byte,
        width: 0,
        count: kind.count,
        indent: 0,
        line: 0,
        lines: 0,
        start: 0,
        bytes: 0,
        offset: 0,
    }
}

// A kind that no other number belongs to.
pub(crate) fn plain_kind(kind: u32) -> Kind
    ensures { result ≡ record { kind = kind; number = 0; byte = 0; count = 0 } }
{
    Kind {
        kind,
        number: 0,
        byte: 0,
        count: 0,
    }
}

// A kind to which this number belongs.
fn numbered_kind(kind: u32, number: u32) -> Kind
    ensures { result ≡ record { kind = kind; number = number; byte = 0; count = 0 } }
{
    Kind {
        number,
        ..plain_kind(kind)
    }
}

// The kind of a leaf block, as C has it.
pub(crate) fn kind_returned(kind: BlockKind) -> Kind
    ensures { result ≡ kind_returned kind }
{
    match kind {
        BlockKind::Blank => plain_kind(BLANK),
        BlockKind::Break => plain_kind(THEMATIC_BREAK),
        BlockKind::Heading(level) => numbered_kind(HEADING, level.number() as u32),
        BlockKind::Setext(level) => numbered_kind(SETEXT_HEADING, level.number() as u32),
        BlockKind::Indented => plain_kind(INDENTED_CODE),
        BlockKind::Fenced(count, byte) => {
            Kind {
                byte,
                count,
                ..plain_kind(FENCED_CODE)
            }
        }
        BlockKind::Html(kind) => numbered_kind(HTML, u32::from(kind.number())),
        BlockKind::Table(count) => Kind {
            count,
            ..plain_kind(TABLE)
        },
        BlockKind::Definition => plain_kind(DEFINITION),
        BlockKind::Paragraph => plain_kind(PARAGRAPH),
    }
}

/// Writes the content of a leaf block of the page, which stands in these containers; its first line
/// goes on with `kept` of them, and begins the others.
#[tactic(auto, unfolding(crate::specs::Pages::IsContentReturned))]
#[unsafe(no_mangle)]
pub extern "C" fn mds_block_content(
    alloc: Global,
    page: &[u8],
    block: &Block,
    containers: &[Block],
    kept: usize,
    buffer: &mut [u8],
) -> Text
    ensures content { IsContentReturned page.now block.now containers.now kept
        buffer.old buffer.new result }
{
    let Some(lines) = lines_in(page, block) else {
        return no_text(PAST_END);
    };
    let Some(kind) = kind_in(block) else {
        return no_text(BAD_KIND);
    };
    if !are_containers(containers) {
        return no_text(BAD_KIND);
    }
    write_content(alloc, lines, kind, containers, kept, buffer)
}

// The lines of the block, where they stand in the page.
fn lines_in<'a>(page: &'a [u8], block: &Block) -> Option<&'a [u8]>
    ensures found { IfSome result (λ lines. StandsIn page.now block.now
        × (lines.now ≡ take block.now.bytes (drop block.now.start page.now))) }
    ensures none { IfNone result (¬ StandsIn page.now block.now) }
{
    if block.start > page.len() {
        return None;
    }
    let rest = &page[block.start..];
    if block.bytes > rest.len() {
        return None;
    }
    Some(&rest[..block.bytes])
}

// Whether each of these begins a container.
pub(crate) fn are_containers(blocks: &[Block]) -> bool
    ensures { result ≡ list_all is_container blocks.now }
{
    blocks.iter().all(|block| is_container(block))
}

fn is_container(block: &Block) -> bool
    ensures { result ≡ is_container block.now }
{
    matches!(
        block.kind,
        BLOCK_QUOTE | LIST_ITEM | FOOTNOTE | TERM_DEFINITION
    )
}

// The kind of leaf block that the numbers name, if they name one.
fn kind_in(block: &Block) -> Option<BlockKind>
    ensures found { IfSome result (HasKind block.now) }
    ensures none { IfNone result ((kind : LeafKind) → ¬ HasKind block.now kind) }
{
    let kind = likely_kind(block)?;
    let returned = kind_returned(kind);
    if returned.kind == block.kind
        && returned.number == block.number
        && returned.byte == block.byte
        && returned.count == block.count
    {
        Some(kind)
    } else {
        None
    }
}

// The only kind of leaf block that the numbers may name.
fn likely_kind(block: &Block) -> Option<BlockKind>
    ensures { (kind : LeafKind) → HasKind block.now kind → result ≡ Some kind }
{
    match block.kind {
        BLANK => Some(BlockKind::Blank),
        THEMATIC_BREAK => Some(BlockKind::Break),
        HEADING => Some(BlockKind::Heading(level_of(block.number)?)),
        SETEXT_HEADING => Some(BlockKind::Setext(level_of(block.number)?)),
        INDENTED_CODE => Some(BlockKind::Indented),
        FENCED_CODE => Some(BlockKind::Fenced(block.count, block.byte)),
        HTML => Some(BlockKind::Html(html_kind_of(block.number)?)),
        TABLE => Some(BlockKind::Table(block.count)),
        DEFINITION => Some(BlockKind::Definition),
        PARAGRAPH => Some(BlockKind::Paragraph),
        _ => None,
    }
}

// The level of a heading that has the number.
fn level_of(number: u32) -> Option<HeadingLevel>
    ensures { (level : Level) → heading_number level ≡ number → result ≡ Some level }
{
    HeadingLevel::try_from(number as usize).ok()
}

// The kind of HTML that has the number.
fn html_kind_of(number: u32) -> Option<HtmlBlockKind>
    ensures { (kind : HtmlKind) → condition_number kind ≡ number → result ≡ Some kind }
{
    let Ok(number) = u8::try_from(number) else {
        return None;
    };
    HtmlBlockKind::from_number(number)
}

// Writes the content of lines that are a leaf block of this kind in these containers.
fn write_content(
    alloc: Global,
    lines: &[u8],
    kind: BlockKind,
    containers: &[Block],
    kept: usize,
    buffer: &mut [u8],
) -> Text
    ensures { (IsNoText no_memory result × (buffer.new ≡ buffer.old))
        ⊎ ((content : Placed)
        × IsContent kind (map container_in containers.now) kept (lines_of lines.now) content
        × (result.taken ≡ length lines.now)
        × IsWritten content.text buffer.old buffer.new result.status result.length) }
{
    let Ok(outer) = containers_in(alloc, containers) else {
        return no_text(NO_MEMORY);
    };
    match content_of(alloc, lines, kind, &outer, kept) {
        Ok(content) => write_text(content.text(), lines.len(), buffer),
        Err(_) => no_text(NO_MEMORY),
    }
}

// The containers that these begin, where a second line of each is read.
fn containers_in(alloc: Global, blocks: &[Block]) -> Result<Vec<Container>, AllocError>
    ensures { IfOk result (λ containers. containers.items ≡ map container_in blocks.now) }
{
    blocks
        .iter()
        .map(|block| container_in(block))
        .collect(alloc)
}

// The container that the block begins, where a second line of it is read.
fn container_in(block: &Block) -> Container
    ensures { result ≡ container_in block.now }
{
    match block.kind {
        BLOCK_QUOTE => Container::Quote,
        FOOTNOTE => Container::Footnote,
        TERM_DEFINITION => Container::TermDefinition(DefinitionItem {
            starts_blank: false,
            width: block.width,
        }),
        _ => Container::Item(ListItem {
            delimiter: block.byte,
            starts_blank: false,
            width: block.width,
            start: block.number,
        }),
    }
}
