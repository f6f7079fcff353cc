//! Block quotes, list items, footnote definitions and the definitions of definition lists: how far
//! a line goes on with those that are open, and what it begins. (CommonMark 0.31.2, sections 5.1 and
//! 5.2; GitHub Docs, footnotes; pulldown-cmark, definition lists)
ghost use Rattle.std.specs.Prelude.{◌≡◌, ◌<◌, ◌≤◌, length, false, Some, None, IfSome, IfNone, IsTrue};
ghost use Rattle.markdown_scanners_tree.specs.Bytes.{begins_with};
ghost use Rattle.markdown_scanners_tree.specs.line.ItemRules.{start_of};
ghost use Rattle.markdown_scanners_tree.specs.line.State.{space_within, after_space, unscanned};
ghost use Rattle.markdown_blocks.specs.containers.Containers.{all_containers, begun_after, match_line, past_quote, extension_of, goes_on_blank};
ghost use Rattle.markdown_blocks.specs.containers.Containers.{past_first_line, within, within_quote, within_width};
ghost use Rattle.markdown_blocks.specs.containers.private.Markers.{is_item_byte, is_other_byte};

pub(crate) mod item_markers;

use crate::blank_lines::is_blank;
use crate::containers::item_markers::scan_item;
use crate::footnotes::scan_footnote;
use crate::terms::scan_term_definition;
use markdown_scanners_tree::line::LineStart;
use markdown_values::values::Extensions;
use std::marker::Model;

/// A list item: its bullet or delimiter, whether only its first line is read, which is blank after
/// the marker, the indent of its text in columns, and the number that it starts at. A page may open
/// a container with each byte, so the fields are no wider than their numbers, and the widest is last.
#[derive(Clone, Copy)]
pub struct ListItem {
    pub delimiter: u8,
    pub starts_blank: bool,
    pub width: u8,
    pub start: u32,
}

/// A definition of a term: whether only its first line is read, which is blank after the marker, and
/// the indent of its text in columns.
#[derive(Clone, Copy)]
pub struct DefinitionItem {
    pub starts_blank: bool,
    pub width: u8,
}

/// A container.
#[derive(Clone, Copy)]
pub enum Container {
    /// A block quote.
    Quote,
    /// A list item.
    Item(ListItem),
    /// A footnote definition. Begins only where the extension is on.
    Footnote,
    /// A definition of the term before it. Begins only where the extension is on.
    TermDefinition(DefinitionItem),
}

const _: () = prove!(size_of::<Container>() <= 16);

/// The container where more than its first line is read: an item that begins with a blank line is no
/// longer one that does not go on with a second. The content of what stands in a container is read
/// with it so. (CommonMark 0.31.2, section 5.2)
pub fn past_first_line(container: Container) -> Container
    ensures { result ≡ past_first_line container }
{
    match container {
        Container::Quote => Container::Quote,
        Container::Footnote => Container::Footnote,
        Container::Item(item) => Container::Item(ListItem {
            starts_blank: false,
            ..item
        }),
        Container::TermDefinition(definition) => Container::TermDefinition(DefinitionItem {
            starts_blank: false,
            ..definition
        }),
    }
}

// With these on each container begins that any extension has.
pub(crate) fn all_containers() -> Extensions
    ensures { result ≡ all_containers }
{
    Extensions {
        footnotes: true,
        definition_lists: true,
        ..Extensions::none()
    }
}

/// The extensions that are on, and the open containers, the outermost first; from an offset on they go
/// on with blank lines, so that such a line is not tried for each of them.
#[derive(Drop)]
pub(crate) struct OpenContainers<'a> {
    extensions: Extensions,
    containers: &'a [Container],
    plain: usize,
}

impl<'a> Model for OpenContainers<'a> {
    ghost use Rattle.std.specs.Prelude.{◌≡◌, drop, true};
    ghost use Rattle.std.specs.List.{list_all};
    ghost use Rattle.markdown_blocks.specs.containers.Containers.{OpenContainers, goes_on_blank};

    ghost Value = { OpenContainers };

    ghost view = { λ o. record { extensions = o.extensions; containers = o.containers.now } };

    ghost invariant = { λ o. list_all goes_on_blank (drop o.plain o.containers.now) ≡ true };
}

impl<'a> OpenContainers<'a> {
    ghost use Rattle.std.specs.Prelude.{◌≡◌, length};

    /// These containers, with these extensions on.
    pub(crate) fn new(extensions: Extensions, containers: &'a [Container]) -> OpenContainers<'a>
        ensures { result ≡ record { extensions = extensions; containers = containers.now } }
    {
        let mut plain = containers.len();
        while plain > 0 {
            if !goes_on_blank(containers[plain - 1]) {
                break;
            }
            plain -= 1;
        }
        OpenContainers {
            extensions,
            containers,
            plain,
        }
    }

    /// How many they are.
    pub(crate) fn count(&self) -> usize
        ensures { result ≡ length self.now.containers }
    {
        self.containers.len()
    }

    /// All of them.
    pub(crate) fn containers(&self) -> &'a [Container]
        ensures { result.now ≡ self.now.containers }
    {
        self.containers
    }

    /// The extensions that are on.
    pub(crate) fn extensions(&self) -> Extensions
        ensures { result ≡ self.now.extensions }
    {
        self.extensions
    }
}

// Whether a blank line goes on with the container.
fn goes_on_blank(container: Container) -> bool
    ensures { result ≡ goes_on_blank container }
{
    match container {
        Container::Quote => false,
        Container::Item(item) => !item.starts_blank,
        Container::Footnote => true,
        Container::TermDefinition(definition) => !definition.starts_blank,
    }
}

/// How many of the open containers the line goes on with, and its position after them.
///
/// It is inlined, so that where none is open, as most often, it costs no call.
#[inline(always)]
pub(crate) fn go_on<'a>(line: &'a [u8], outer: &OpenContainers) -> (usize, LineStart<'a>)
    ensures kept { result.0 ≡ (match_line outer.now.containers line.now).kept }
    ensures few { result.0 ≤ length outer.now.containers }
    ensures state { result.1 ≡ (match_line outer.now.containers line.now).state }
    ensures bytes { result.1.bytes ≡ line.now }
{
    if outer.containers.is_empty() {
        return (0, LineStart::new(line));
    }
    if ends_all(line, outer) {
        return (0, LineStart::new(line));
    }
    go_on_in(line, outer)
}

// Whether the line is seen to go on with none of them: it begins with text, and the outermost is an item.
#[inline(always)]
fn ends_all(line: &[u8], outer: &OpenContainers) -> bool
    ensures { IsTrue result → match_line outer.now.containers line.now
        ≡ record { kept = 0; state = start_of line.now } }
{
    let [Container::Item(item), ..] = outer.containers else {
        return false;
    };
    let [byte, ..] = line else {
        return false;
    };
    if item.width == 0 {
        return false;
    }
    *byte > b' '
}

// The same of a line where some are open.
#[inline(always)]
fn go_on_in<'a>(line: &'a [u8], outer: &OpenContainers) -> (usize, LineStart<'a>)
    ensures kept { result.0 ≡ (match_line outer.now.containers line.now).kept }
    ensures few { result.0 ≤ length outer.now.containers }
    ensures state { result.1 ≡ (match_line outer.now.containers line.now).state }
    ensures bytes { result.1.bytes ≡ line.now }
{
    let mut start = LineStart::new(line);
    let mut blank = is_blank(line);
    let mut rest = outer.containers;
    let mut kept = 0;
    while let [container, inner @ ..] = rest {
        if blank && kept >= outer.plain {
            return (outer.containers.len(), start);
        }
        match pass(line, &mut start, blank, *container) {
            Some(more) => blank = more,
            None => return (kept, start),
        }
        kept += 1;
        rest = inner;
    }
    (kept, start)
}

/// Passes what the line has of the container, if it goes on with it. Answers whether what is left is
/// blank, as it was before or not.
#[inline(always)]
pub(crate) fn pass(
    line: &[u8],
    start: &mut LineStart,
    blank: bool,
    container: Container,
) -> Option<bool>
    requires { start.old.bytes ≡ line.now }
    ensures passed { IfSome result (λ more.
        within container blank start.old ≡ Some (more, start.new)) }
    ensures none { IfNone result (within container blank start.old ≡ None) }
    ensures unchanged { IfNone result (start.new ≡ start.old) }
    ensures bytes { start.new.bytes ≡ line.now }
{
    match container {
        Container::Item(item) => pass_width(start, blank, item.starts_blank, item.width),
        Container::Footnote => pass_width(start, blank, false, 4),
        Container::TermDefinition(d) => pass_width(start, blank, d.starts_blank, d.width),
        Container::Quote => pass_quote(line, start),
    }
}

// Passes so many columns of space, if they are there, before text. A blank rest has them always, but
// not where only the first line is read, and that is blank.
#[inline(always)]
fn pass_width(start: &mut LineStart, blank: bool, starts_blank: bool, width: u8) -> Option<bool>
    ensures passed { IfSome result (λ more.
        within_width starts_blank width blank start.old ≡ Some (more, start.new)) }
    ensures none { IfNone result (within_width starts_blank width blank start.old ≡ None) }
    ensures unchanged { IfNone result (start.new ≡ start.old) }
    ensures bytes { start.new.bytes ≡ start.old.bytes }
{
    if !blank {
        return pass_indent(start, width as usize);
    }
    if starts_blank { None } else { Some(true) }
}

// Passes so many columns of space, if they are there, before text.
#[inline(always)]
fn pass_indent(start: &mut LineStart, width: usize) -> Option<bool>
    ensures passed { IfSome result (λ more. (more ≡ false) × (space_within width start.old ≡ width)
        × (start.new ≡ after_space width start.old)) }
    ensures none { IfNone result (¬ (space_within width start.old ≡ width)) }
    ensures unchanged { IfNone result (start.new ≡ start.old) }
    ensures bytes { start.new.bytes ≡ start.old.bytes }
{
    let Ok(before) = start.clone() else {
        return None;
    };
    if start.scan_space(width) {
        return Some(false);
    }
    *start = before;
    None
}

// Passes a block quote marker after at most three columns of space, if one stands there.
fn pass_quote(line: &[u8], start: &mut LineStart) -> Option<bool>
    requires { start.old.bytes ≡ line.now }
    ensures passed { IfSome result (λ more.
        within_quote (past_quote (space_within 4 start.old) (after_space 4 start.old))
        ≡ Some (more, start.new)) }
    ensures none { IfNone result
        (past_quote (space_within 4 start.old) (after_space 4 start.old) ≡ None) }
    ensures unchanged { IfNone result (start.new ≡ start.old) }
    ensures bytes { start.new.bytes ≡ line.now }
{
    let Ok(before) = start.clone() else {
        return None;
    };
    if start.scan_space_upto(4) < 4 && start.scan_blockquote_marker() {
        return Some(is_blank(&line[start.bytes_scanned()..]));
    }
    *start = before;
    None
}

/// Passes the marker of the container that begins at the position, after so many columns of space,
/// if one does.
///
/// It is inlined, so that where no byte of a marker stands, as most often, it costs no call.
#[inline(always)]
pub(crate) fn scan_container<'a>(
    line: &'a [u8],
    start: &mut LineStart<'a>,
    indent: usize,
    extensions: Extensions,
) -> Option<Container>
    requires bytes { start.old.bytes ≡ line.now }
    requires near { indent ≤ 4 }
    ensures found { IfSome result (λ container.
        begun_after extensions indent start.old ≡ Some (container, start.new)) }
    ensures none { IfNone result (begun_after extensions indent start.old ≡ None) }
    ensures unchanged { IfNone result (start.new ≡ start.old) }
    ensures bytes { start.new.bytes ≡ line.now }
    ensures rises { IfSome result (λ _. start.old.offset < start.new.offset) }
{
    if indent == 4 {
        return None;
    }
    let text = &line[start.bytes_scanned()..];
    if begins_with_item_byte(text) {
        return scan_item(line, start, indent);
    }
    if !begins_with_marker_byte(text, extensions) {
        return None;
    }
    scan_marked(line, start, indent, extensions)
}

// Whether a byte of a list item's marker stands at the front, and so no other marker.
fn begins_with_item_byte(bytes: &[u8]) -> bool
    ensures { result ≡ begins_with is_item_byte bytes.now }
{
    matches!(bytes, [b'-' | b'+' | b'*' | b'0'..=b'9', ..])
}

// Whether a byte of another marker stands at the front, with these extensions on.
fn begins_with_marker_byte(bytes: &[u8], extensions: Extensions) -> bool
    ensures { result ≡ begins_with (is_other_byte extensions) bytes.now }
{
    match bytes {
        [b'>', ..] => true,
        [b'[', ..] => extensions.footnotes,
        [b':', ..] => extensions.definition_lists,
        _ => false,
    }
}

// The same where less than four columns of space stand before the position, and no byte of a list
// item's marker at it.
fn scan_marked<'a>(
    line: &'a [u8],
    start: &mut LineStart<'a>,
    indent: usize,
    extensions: Extensions,
) -> Option<Container>
    requires bytes { start.old.bytes ≡ line.now }
    requires near { indent < 4 }
    requires other { begins_with is_item_byte (unscanned start.old) ≡ false }
    ensures found { IfSome result (λ container.
        begun_after extensions indent start.old ≡ Some (container, start.new)) }
    ensures none { IfNone result (begun_after extensions indent start.old ≡ None) }
    ensures unchanged { IfNone result (start.new ≡ start.old) }
    ensures bytes { start.new.bytes ≡ line.now }
    ensures rises { IfSome result (λ _. start.old.offset < start.new.offset) }
{
    if start.scan_blockquote_marker() {
        return Some(Container::Quote);
    }
    scan_extension(line, start, indent, extensions)
}

// Passes the marker of the footnote definition or the definition of a term that begins at the
// position, after so many columns of space, if one does and its extension is on.
fn scan_extension<'a>(
    line: &'a [u8],
    start: &mut LineStart<'a>,
    indent: usize,
    extensions: Extensions,
) -> Option<Container>
    requires bytes { start.old.bytes ≡ line.now }
    requires near { indent ≤ 4 }
    ensures found { IfSome result (λ container.
        extension_of extensions indent start.old ≡ Some (container, start.new)) }
    ensures none { IfNone result (extension_of extensions indent start.old ≡ None) }
    ensures unchanged { IfNone result (start.new ≡ start.old) }
    ensures bytes { start.new.bytes ≡ line.now }
    ensures rises { IfSome result (λ _. start.old.offset < start.new.offset) }
{
    if let Some(footnote) = scan_footnote(line, start, extensions) {
        return Some(footnote);
    }
    scan_term_definition(line, start, indent, extensions)
}
