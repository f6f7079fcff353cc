//! The tags of links and images. (CommonMark 0.31.2, sections 6.3 and 6.4)
ghost use Rattle.std.specs.Prelude.{◌≡◌, ◌+◌, ℕ, List, IfOk, IfSome, Some};
ghost use Rattle.std.specs.Option.{option_map};
ghost use Rattle.std.specs.Str.{IsCharBoundary};
ghost use Rattle.markdown_values.specs.strings.Text.{cow_text};
ghost use Rattle.markdown_values.specs.values.Tags.{tag_view};
ghost use Rattle.markdown_scanners_tree.specs.scanners.reference_definitions.ReferenceDefinition.{IsCutAt};
ghost use Rattle.markdown_events.specs.Found.{IsLabelCut};
ghost use Rattle.markdown_inlines.specs.Links.{IsLabelAt};
ghost use Rattle.markdown_inlines.specs.Sources.{IsLinkSource};
ghost use Rattle.markdown_events.specs.Meanings.{IsDestination, IsLinkTag, IsTitle, IsWrittenTarget, has_pipe, link_or_image, link_type, within};
ghost use Rattle.markdown_events.specs.Passes.{Leads};
ghost use Rattle.markdown_blocks.specs.link_definitions.LinkDefinitions.{Target as Written};
ghost use Rattle.markdown_events.specs.Targets.{Targets, seen_target};

use crate::definitions::{Definitions, Target};
use crate::page::source::Source;
use crate::parts::{meaning_of, title_meaning};
use markdown_inlines::link_targets::scan_label;
use markdown_inlines::links::{Link, LinkTarget};
use markdown_values::strings::CowStr;
use markdown_values::values::{LinkType, Tag};
use std::alloc::{AllocError, Global};
use std::ops::Range;

/// The tag of a link or an image of a text.
pub(crate) fn tag_of<'a, D: Definitions<'a>>(
    alloc: Global,
    source: &Source<'a, '_>,
    definitions: &D,
    link: &Link,
) -> Result<Tag<'a>, AllocError>
    requires source { IsLinkSource source.now link.now }
    requires leads { Leads source.now (D.targets definitions.now) link.now }
    ensures { IfOk result (λ tag.
        IsLinkTag source.now (D.targets definitions.now) link.now (tag_view cow_text tag)) }
{
    let label = label_of(alloc, source, link)?;
    let target = target_of(alloc, source, definitions, link, label.as_str())?;
    let destination = destination_of(alloc, &link.target, target.destination)?;
    let title = title_of(alloc, target.title)?;
    let kind = link_type(&link.text, &link.target);
    Ok(link_or_image(link.is_image, kind, destination, title, label))
}

// The label by which a link leads, and no text where it leads by itself.
fn label_of<'a>(
    alloc: Global,
    source: &Source<'a, '_>,
    link: &Link,
) -> Result<CowStr<'a>, AllocError>
    requires source { IsLinkSource source.now link.now }
    requires cut { IsLabelCut source.now link.now.target }
    ensures { IfOk result (λ label. (targets : Targets) (name : List ℕ) (target : Written)
        → IsWrittenTarget source.now targets link.now.text link.now.target name target
        → cow_text label ≡ name) }
{
    // The offset after the bracket of a label is within it.
    let _text = source.text();
    match &link.target {
        LinkTarget::Inline(..) => Ok(CowStr::from("")),
        LinkTarget::Full(label) => label_at(alloc, source, label.start + 1),
        LinkTarget::Collapsed => label_at(alloc, source, link.text.start),
        LinkTarget::Shortcut => label_at(alloc, source, link.text.start),
        LinkTarget::Wiki(_) => Ok(CowStr::from("")),
    }
}

// The label that stands from an offset up to its right bracket.
fn label_at<'a>(
    alloc: Global,
    source: &Source<'a, '_>,
    offset: usize,
) -> Result<CowStr<'a>, AllocError>
    requires { IsCharBoundary source.now offset }
    ensures { IfOk result (λ label. (close : ℕ) (name : List ℕ)
        → IsLabelAt source.now offset close name → cow_text label ≡ name) }
{
    if let Some(run) = source.run() {
        return read_label(alloc, run, offset);
    }
    // It begins at the offset, where no white space stands before it.
    let label = read_label(alloc, source.text(), offset)?;
    source.lend(alloc, label, offset)
}

// The label that stands in a text from an offset up to its right bracket.
fn read_label<'t>(alloc: Global, text: &'t str, offset: usize) -> Result<CowStr<'t>, AllocError>
    requires { IsCharBoundary text.now offset }
    ensures { IfOk result (λ label. (close : ℕ) (name : List ℕ)
        → IsLabelAt text.now offset close name → cow_text label ≡ name) }
{
    match scan_label(alloc, text, offset)? {
        Some((_, label)) => Ok(label),
        None => Ok(CowStr::from("")),
    }
}

// Where a link leads, whose label this is, as it is written.
fn target_of<'a, D: Definitions<'a>>(
    alloc: Global,
    source: &Source<'a, '_>,
    definitions: &D,
    link: &Link,
    label: &str,
) -> Result<Target<'a>, AllocError>
    requires source { IsLinkSource source.now link.now }
    ensures { IfOk result (λ target. (expected : Written)
        → IsWrittenTarget source.now (D.targets definitions.now) link.now.text link.now.target
        label.now expected → seen_target target ≡ expected) }
{
    match &link.target {
        LinkTarget::Inline(destination, title) => Ok(Target {
            destination: source.part(alloc, destination.start, destination.end)?,
            title: written_title(alloc, source, title)?,
        }),
        LinkTarget::Wiki(target) => Ok(Target {
            destination: source.part(alloc, target.start, target.end)?,
            title: None,
        }),
        _ => match definitions.find(label)? {
            Some(target) => Ok(target),
            None => Ok(Target {
                destination: CowStr::from(""),
                title: None,
            }),
        },
    }
}

// What is meant by a destination, which is that of a wikilink as it is written.
fn destination_of<'a>(
    alloc: Global,
    target: &LinkTarget,
    destination: CowStr<'a>,
) -> Result<CowStr<'a>, AllocError>
    ensures { IfOk result (λ meaning.
        IsDestination target.now (cow_text destination.entry) (cow_text meaning)) }
{
    match target {
        LinkTarget::Wiki(_) => Ok(destination),
        _ => meaning_of(alloc, destination),
    }
}

// The title that stands in a range of the text, if there is one.
fn written_title<'a>(
    alloc: Global,
    source: &Source<'a, '_>,
    title: &Option<Range<usize>>,
) -> Result<Option<CowStr<'a>>, AllocError>
    requires { IfSome title.now (IsCutAt source.now) }
    ensures { IfOk result (λ written.
        option_map cow_text written ≡ option_map (within source.now) title.now) }
{
    match title {
        Some(title) => Ok(Some(source.part(alloc, title.start, title.end)?)),
        None => Ok(None),
    }
}

// What is meant by a title; no text where there is none.
fn title_of<'a>(alloc: Global, title: Option<CowStr<'a>>) -> Result<CowStr<'a>, AllocError>
    ensures { IfOk result (λ meaning.
        IsTitle (option_map cow_text title.entry) (cow_text meaning)) }
{
    match title {
        Some(title) => title_meaning(alloc, title),
        None => Ok(CowStr::from("")),
    }
}

// How a link with this link text is written.
fn link_type(words: &Range<usize>, target: &LinkTarget) -> LinkType
    ensures { result ≡ link_type words.now target.now }
{
    match target {
        LinkTarget::Inline(..) => LinkType::Inline,
        LinkTarget::Full(_) => LinkType::Reference,
        LinkTarget::Collapsed => LinkType::Collapsed,
        LinkTarget::Shortcut => LinkType::Shortcut,
        LinkTarget::Wiki(target) => LinkType::WikiLink {
            has_pothole: has_pipe(words, target),
        },
    }
}

/// Whether a pipe stands between the target of a wikilink and its link text.
pub(crate) fn has_pipe(words: &Range<usize>, target: &Range<usize>) -> bool
    ensures { result ≡ has_pipe words.now target.now }
{
    target.end != words.start
}

// The tag of a link or of an image.
fn link_or_image<'a>(
    is_image: bool,
    link_type: LinkType,
    dest_url: CowStr<'a>,
    title: CowStr<'a>,
    id: CowStr<'a>,
) -> Tag<'a>
    ensures { tag_view cow_text result ≡ link_or_image is_image link_type
        (cow_text dest_url.entry) (cow_text title.entry) (cow_text id.entry) }
{
    if is_image {
        Tag::Image {
            link_type,
            dest_url,
            title,
            id,
        }
    } else {
        Tag::Link {
            link_type,
            dest_url,
            title,
            id,
        }
    }
}
