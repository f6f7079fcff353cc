//! The link reference definitions of a page, and where they stand. (CommonMark 0.31.2, section 4.7)
ghost use Rattle.std.specs.Prelude.{◌≡◌, ◌++◌, [], ◌∷◌, List, ℕ, drop, map, IfOk, OnOk};
ghost use Rattle.markdown_values.specs.strings.Text.{cow_text};
ghost use Rattle.std.specs.Option.{option_map, option_to_list};
ghost use Rattle.markdown_blocks.specs.containers.Containers.{past_first_line};
ghost use Rattle.markdown_blocks.specs.events.Events.{Event, seen_event, seen_leaf};
ghost use Rattle.page_links.specs.definitions.Definitions.{AreDefinedIn, AreDefinitionsIn, Defined, HasDefinition};
ghost use Rattle.page_links.specs.definitions.Definitions.{IsDefinedBy, IsNamedAt, after_end, is_definition, seen_definition};

use markdown_blocks::blocks::BlockKind;
use markdown_blocks::containers::{Container, past_first_line};
use markdown_blocks::definitions::add_content;
use markdown_blocks::events::{BlockEvent, Blocks, Leaf};
use markdown_blocks::link_definitions::read_label;
use markdown_events::settings::built;
use markdown_values::strings::CowStr;
use markdown_values::values::Extensions;
use std::alloc::{AllocError, Global};

/// A link reference definition of a page.
#[derive(Debug, Drop)]
pub struct PageDefinition {
    /// How many bytes of the page stand before it.
    pub offset: usize,
    /// Its label, in which each run of white space is one space.
    pub label: String,
}

/// The link reference definitions of a page that is read with this setting, in its order, also those
/// whose label has one before. One whose label is not UTF-8 names nothing, and is left out.
///
/// Memory is asked for this list and its labels, for the content of a definition, and as by `Blocks`.
///
/// # Errors
///
/// `AllocError` where memory is refused.
pub fn definitions_of_page(
    alloc: Global,
    page: &[u8],
    setting: Extensions,
) -> Result<Vec<PageDefinition>, AllocError>
    ensures { IfOk result (λ found.
        AreDefinitionsIn page.now setting (map seen_definition found.items)) }
{
    let mut blocks = Blocks::new_ext(alloc, page, built(setting));
    let mut outer = Vec::new(alloc);
    let mut found = Vec::new(alloc);
    while let Some(event) = blocks.next(alloc)? {
        pass_event(alloc, page, &mut outer, &mut found, event)?;
    }
    Ok(found)
}

// Passes an event in these containers, and adds the definition that it is, if it is one.
fn pass_event(
    alloc: Global,
    page: &[u8],
    outer: &mut Vec<Container>,
    found: &mut Vec<PageDefinition>,
    event: BlockEvent,
) -> Result<(), AllocError>
    ensures { OnOk result ((later : List Event) (rest : List Defined)
        → AreDefinedIn page.now outer.new.items later rest
        → (here : List Defined)
        × (map seen_definition found.new.items ≡ map seen_definition found.old.items ++ here)
        × AreDefinedIn page.now outer.old.items (seen_event event.entry ∷ later) (here ++ rest)) }
{
    match event {
        BlockEvent::Start(container, _) => begin_container(outer, container),
        BlockEvent::Block(leaf) => push_definition(alloc, page, outer, found, leaf),
        BlockEvent::End => {
            end_container(outer);
            Ok(())
        }
    }
}

// Begins a container.
fn begin_container(outer: &mut Vec<Container>, container: Container) -> Result<(), AllocError>
    ensures { OnOk result (outer.new.items ≡ outer.old.items ++ past_first_line container ∷ []) }
{
    outer.push(past_first_line(container))?;
    Ok(())
}

// Ends the innermost container.
fn end_container(outer: &mut Vec<Container>)
    ensures { outer.new.items ≡ after_end outer.old.items }
{
    outer.pop();
}

// Adds the definition that a leaf block in these containers is, if it is one.
fn push_definition(
    alloc: Global,
    page: &[u8],
    outer: &[Container],
    found: &mut Vec<PageDefinition>,
    leaf: Leaf,
) -> Result<(), AllocError>
    ensures { OnOk result ((here : List Defined)
        × (map seen_definition found.new.items ≡ map seen_definition found.old.items ++ here)
        × IsDefinedBy page.now outer.now (seen_leaf leaf.entry) here) }
{
    if let Some(definition) = definition_of(alloc, page, outer, leaf)? {
        found.push(definition)?;
    }
    Ok(())
}

// The definition that a leaf block in these containers is, if it is one.
fn definition_of(
    alloc: Global,
    page: &[u8],
    outer: &[Container],
    leaf: Leaf,
) -> Result<Option<PageDefinition>, AllocError>
    ensures { IfOk result (λ found. IsDefinedBy page.now outer.now (seen_leaf leaf.entry)
        (option_to_list (option_map seen_definition found))) }
{
    if is_definition(leaf.kind) {
        return definition_in(alloc, page, outer, leaf);
    }
    Ok(None)
}

// Whether a leaf block of this kind is a definition.
fn is_definition(kind: BlockKind) -> bool
    ensures { result ≡ is_definition kind }
{
    match kind {
        BlockKind::Definition => true,
        _ => false,
    }
}

// The definition that a leaf block has as its content.
fn definition_in(
    alloc: Global,
    page: &[u8],
    outer: &[Container],
    leaf: Leaf,
) -> Result<Option<PageDefinition>, AllocError>
    ensures { IfOk result (λ found. HasDefinition page.now outer.now (seen_leaf leaf.entry)
        (option_to_list (option_map seen_definition found))) }
{
    let mut content = Vec::new(alloc);
    let lines = bytes_from(page, leaf.start);
    add_content(&mut content, lines, leaf.block(), outer, leaf.text)?;
    named_at(alloc, leaf.offset, &content)
}

// The definition at this offset, of which this is the content.
fn named_at(
    alloc: Global,
    offset: usize,
    content: &[u8],
) -> Result<Option<PageDefinition>, AllocError>
    ensures { IfOk result (λ found. IsNamedAt offset content.now
        (option_to_list (option_map seen_definition found))) }
{
    match read_label(alloc, bytes_from(content, 1))? {
        Some(label) => with_label(alloc, offset, label),
        None => Ok(None),
    }
}

// The definition at this offset, which has this label.
fn with_label(
    alloc: Global,
    offset: usize,
    label: CowStr,
) -> Result<Option<PageDefinition>, AllocError>
    ensures { IfOk result (λ found. option_to_list (option_map seen_definition found)
        ≡ record { offset = offset; label = cow_text label.entry } ∷ []) }
{
    let label = label.into_string(alloc)?;
    Ok(Some(PageDefinition { offset, label }))
}

// The bytes from this offset on.
fn bytes_from(bytes: &[u8], offset: usize) -> &[u8]
    ensures { result.now ≡ drop offset bytes.now }
{
    if offset < bytes.len() {
        &bytes[offset..]
    } else {
        &[]
    }
}
