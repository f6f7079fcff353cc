//! The links of a page.
ghost use Rattle.std.specs.Prelude.{◌≡◌, ◌++◌, IfOk, OnOk, length, map};
ghost use Rattle.std.specs.Option.{option_map, option_to_list};
ghost use Rattle.markdown_events.specs.InlineEvents.{seen_event};
ghost use Rattle.page_links.specs.links.Laws.{AreStarted, RiseFrom};
ghost use Rattle.page_links.specs.links.Links.{AreLinksOf, link_of, seen_link};

use markdown_events::event_reader::EventReader;
use markdown_values::strings::CowStr;
use markdown_values::values::{Event, Extensions, LinkType, Tag};
use std::alloc::{AllocError, Global};
use std::ops::Range;

/// A link or an image of a page. (CommonMark 0.31.2, sections 6.3 to 6.5)
#[derive(Debug, Drop)]
pub struct PageLink<'a> {
    /// The bytes of the page that it is written in.
    pub range: Range<usize>,
    /// Whether it is an image.
    pub is_image: bool,
    /// How it is written.
    pub link_type: LinkType,
    /// Where it leads.
    pub destination: CowStr<'a>,
    /// Its title; empty where it has none.
    pub title: CowStr<'a>,
    /// The label of the definition that a reference uses; else empty.
    pub label: CowStr<'a>,
}

/// The links and the images of a page that is read with this setting, in the order of the page: one
/// for each event that starts one.
///
/// Memory is asked for by this list, and as by `EventReader`.
///
/// # Errors
///
/// `AllocError` where memory is refused.
pub fn links_of_page<'a>(
    alloc: Global,
    page: &'a str,
    setting: Extensions,
) -> Result<Vec<PageLink<'a>>, AllocError>
    ensures links { IfOk result (λ links. AreLinksOf page.now setting (map seen_link links.items)) }
    ensures starts { IfOk result (λ links. AreStarted page.now setting
        (map seen_link links.items)) }
    ensures rise { IfOk result (λ links.
        RiseFrom 0 (length page.now) (map seen_link links.items)) }
{
    let mut reader = EventReader::with_setting(alloc, page, setting)?;
    let mut links = Vec::new(alloc);
    while let Some(event) = reader.next()? {
        push_link(&mut links, event)?;
    }
    Ok(links)
}

/// Adds the link that an event starts, if it starts one.
pub(crate) fn push_link<'a>(
    links: &mut Vec<PageLink<'a>>,
    event: (Event<'a>, Range<usize>),
) -> Result<(), AllocError>
    ensures { OnOk result (map seen_link links.new.items ≡ map seen_link links.old.items
        ++ option_to_list (link_of (seen_event event.entry))) }
{
    if let Some(link) = link_of(event.0, event.1) {
        links.push(link)?;
    }
    Ok(())
}

// The link that an event with this range starts.
fn link_of(event: Event<'_>, range: Range<usize>) -> Option<PageLink<'_>>
    ensures { option_map seen_link result ≡ link_of (seen_event (event.entry, range)) }
{
    match event {
        Event::Start(
            Tag::Link {
                link_type,
                dest_url,
                title,
                id,
            },
        ) => Some(PageLink {
            range,
            is_image: false,
            link_type,
            destination: dest_url,
            title,
            label: id,
        }),
        Event::Start(
            Tag::Image {
                link_type,
                dest_url,
                title,
                id,
            },
        ) => Some(PageLink {
            range,
            is_image: true,
            link_type,
            destination: dest_url,
            title,
            label: id,
        }),
        _ => None,
    }
}
