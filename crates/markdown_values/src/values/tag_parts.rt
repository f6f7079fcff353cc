//! The parts of a tag that own memory: copied, or with nothing borrowed.
ghost use Rattle.std.specs.Prelude.{◌≡◌, ◌++◌, ◌∷◌, [], IfOk, IsOkAnd, map, option_map};
ghost use Rattle.markdown_values.specs.strings.Text.{cow_text, storage_of, clone_storage, static_storage};
ghost use Rattle.markdown_values.specs.values.Tags.{attribute_view};

use crate::strings::CowStr;
use crate::values::Alignment;
use std::alloc::{AllocError, Global};

// Adds what was made.
fn push_made<T: Drop>(items: &mut Vec<T>, made: Result<T, AllocError>) -> Result<(), AllocError>
    ensures added { IfOk result (λ _. IsOkAnd made (λ item.
        items.new.items ≡ items.old.items ++ (item ∷ []))) }
{
    items.push(made?)?;
    Ok(())
}

// A text again, where there is one.
pub(crate) fn clone_optional<'a>(
    alloc: Global,
    id: &Option<CowStr<'a>>,
) -> Result<Option<CowStr<'a>>, AllocError>
    ensures same { IfOk result (λ copy. option_map cow_text copy ≡ option_map cow_text id.now) }
    ensures storage { IfOk result (λ copy.
        option_map storage_of copy ≡ option_map clone_storage id.now) }
{
    match id {
        Some(text) => Some(text.clone(alloc)).transpose(),
        None => Ok(None),
    }
}

// A text with nothing borrowed, where there is one.
pub(crate) fn static_optional<'a>(
    alloc: Global,
    id: Option<CowStr<'a>>,
) -> Result<Option<CowStr<'static>>, AllocError>
    ensures same { IfOk result (λ copy. option_map cow_text copy ≡ option_map cow_text id.entry) }
    ensures storage { IfOk result (λ copy.
        option_map storage_of copy ≡ option_map static_storage id.entry) }
{
    match id {
        Some(text) => Some(text.into_static(alloc)).transpose(),
        None => Ok(None),
    }
}

// Texts again.
pub(crate) fn clone_texts<'a>(
    alloc: Global,
    texts: &[CowStr<'a>],
) -> Result<Vec<CowStr<'a>>, AllocError>
    ensures same { IfOk result (λ copy. map cow_text copy.items ≡ map cow_text texts.now) }
    ensures storage { IfOk result (λ copy.
        map storage_of copy.items ≡ map clone_storage texts.now) }
{
    let mut copy = Vec::with_capacity(alloc, texts.len())?;
    'texts: for text in texts {
        push_made(&mut copy, text.clone(alloc))?;
    }
    Ok(copy)
}

// Texts with nothing borrowed.
pub(crate) fn static_texts<'a>(
    alloc: Global,
    texts: Vec<CowStr<'a>>,
) -> Result<Vec<CowStr<'static>>, AllocError>
    ensures same { IfOk result (λ copy. map cow_text copy.items ≡ map cow_text texts.entry.items) }
    ensures storage { IfOk result (λ copy.
        map storage_of copy.items ≡ map static_storage texts.entry.items) }
{
    let mut copy = Vec::with_capacity(alloc, texts.len())?;
    'texts: for text in texts {
        push_made(&mut copy, text.into_static(alloc))?;
    }
    Ok(copy)
}

// An attribute again.
fn clone_attribute<'a>(
    alloc: Global,
    attribute: &(CowStr<'a>, Option<CowStr<'a>>),
) -> Result<(CowStr<'a>, Option<CowStr<'a>>), AllocError>
    ensures same { IfOk result (λ copy.
        attribute_view cow_text copy ≡ attribute_view cow_text attribute.now) }
    ensures storage { IfOk result (λ copy.
        attribute_view storage_of copy ≡ attribute_view clone_storage attribute.now) }
{
    let name = attribute.0.clone(alloc)?;
    Ok((name, clone_optional(alloc, &attribute.1)?))
}

// Attributes again.
pub(crate) fn clone_attributes<'a>(
    alloc: Global,
    attributes: &[(CowStr<'a>, Option<CowStr<'a>>)],
) -> Result<Vec<(CowStr<'a>, Option<CowStr<'a>>)>, AllocError>
    ensures same { IfOk result (λ copy.
        map (attribute_view cow_text) copy.items ≡ map (attribute_view cow_text) attributes.now) }
    ensures storage { IfOk result (λ copy.
        map (attribute_view storage_of) copy.items
        ≡ map (attribute_view clone_storage) attributes.now) }
{
    let mut copy = Vec::with_capacity(alloc, attributes.len())?;
    'attributes: for attribute in attributes {
        push_made(&mut copy, clone_attribute(alloc, attribute))?;
    }
    Ok(copy)
}

// An attribute with nothing borrowed.
fn static_attribute<'a>(
    alloc: Global,
    attribute: (CowStr<'a>, Option<CowStr<'a>>),
) -> Result<(CowStr<'static>, Option<CowStr<'static>>), AllocError>
    ensures same { IfOk result (λ copy.
        attribute_view cow_text copy ≡ attribute_view cow_text attribute.entry) }
    ensures storage { IfOk result (λ copy.
        attribute_view storage_of copy ≡ attribute_view static_storage attribute.entry) }
{
    let name = attribute.0.into_static(alloc)?;
    Ok((name, static_optional(alloc, attribute.1)?))
}

// Attributes with nothing borrowed.
pub(crate) fn static_attributes<'a>(
    alloc: Global,
    attributes: Vec<(CowStr<'a>, Option<CowStr<'a>>)>,
) -> Result<Vec<(CowStr<'static>, Option<CowStr<'static>>)>, AllocError>
    ensures same { IfOk result (λ copy.
        map (attribute_view cow_text) copy.items
        ≡ map (attribute_view cow_text) attributes.entry.items) }
    ensures storage { IfOk result (λ copy.
        map (attribute_view storage_of) copy.items
        ≡ map (attribute_view static_storage) attributes.entry.items) }
{
    let mut copy = Vec::with_capacity(alloc, attributes.len())?;
    'attributes: for attribute in attributes {
        push_made(&mut copy, static_attribute(alloc, attribute))?;
    }
    Ok(copy)
}

// Alignments again.
pub(crate) fn clone_alignments(
    alloc: Global,
    alignments: &[Alignment],
) -> Result<Vec<Alignment>, AllocError>
    ensures same { IfOk result (λ copy. copy.items ≡ alignments.now) }
{
    alignments.to_vec(alloc)
}
