//! The links and the images that are raw HTML of a page.
ghost use Rattle.std.specs.Prelude.{◌≡◌, ◌++◌, IfOk, List, OnOk, map, string_bytes};
ghost use Rattle.std.specs.Option.{option_map};
ghost use Rattle.html_attributes.specs.StartTags.{seen_tag};
ghost use Rattle.page_links.specs.html_links.HtmlLinks.{AreHtmlLinks, AreOfTarget, link_at, target_of};
ghost use Rattle.page_links.specs.links.Links.{Seen, seen_link};

use crate::links::PageLink;
use html_attributes::tags::StartTag;
use html_attributes::values::meaning_of;
use html_entities::HtmlEntities;
use markdown_values::strings::CowStr;
use markdown_values::values::LinkType;
use std::alloc::{AllocError, Global};

/// The links and the images of start tags, in order: the `href` of each `a`, and the `src` of each
/// `img`, with their character references decoded. Each begins where its tag does.
///
/// # Errors
///
/// `AllocError` where memory is refused.
pub(crate) fn html_links(
    alloc: Global,
    tags: &[StartTag],
) -> Result<Vec<PageLink<'static>>, AllocError>
    ensures { IfOk result (λ links.
        AreHtmlLinks (map seen_tag tags.now) (map seen_link links.items)) }
{
    let mut links = Vec::new(alloc);
    for tag in tags {
        push_html_link(alloc, &mut links, tag)?;
    }
    Ok(links)
}

// Adds the link or the image of a start tag, if it leads anywhere.
fn push_html_link(
    alloc: Global,
    links: &mut Vec<PageLink<'static>>,
    tag: &StartTag,
) -> Result<(), AllocError>
    ensures { OnOk result ((here : List Seen)
        × AreOfTarget (seen_tag tag.now) (target_of (seen_tag tag.now)) here
        × (map seen_link links.new.items ≡ map seen_link links.old.items ++ here)) }
{
    let Some(value) = target_of(tag) else {
        return Ok(());
    };
    let destination = meaning_of(alloc, value, &HtmlEntities)?;
    let link = link_at(alloc, tag, destination)?;
    links.push(link)?;
    Ok(())
}

// Where a start tag leads.
fn target_of<'a>(tag: &StartTag<'a>) -> Option<&'a [u8]>
    ensures { option_map (λ value. value.now) result ≡ target_of (seen_tag tag.now) }
{
    if tag.is_named(b"a") {
        return tag.value_of(b"href");
    }
    if tag.is_named(b"img") {
        return tag.value_of(b"src");
    }
    None
}

// The link or the image of a tag that leads there.
fn link_at(
    alloc: Global,
    tag: &StartTag,
    destination: String,
) -> Result<PageLink<'static>, AllocError>
    ensures { IfOk result (λ link. seen_link link
        ≡ link_at (seen_tag tag.now) (string_bytes destination)) }
{
    let destination = CowStr::from_string(alloc, destination)?;
    Ok(PageLink {
        range: tag.offset..tag.offset,
        is_image: tag.is_named(b"img"),
        link_type: LinkType::Inline,
        destination,
        title: CowStr::from(""),
        label: CowStr::from(""),
    })
}
