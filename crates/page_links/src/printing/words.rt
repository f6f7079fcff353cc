//! The lines of links in words.
ghost use Rattle.std.specs.Prelude.{◌≡◌, ◌++◌, OnOk, string_bytes};
ghost use Rattle.page_links.specs.links.Links.{seen_link};
ghost use Rattle.page_links.specs.printing.Lines.{link_line, link_words, position_words, shown_as};

use crate::links::PageLink;
use page_events::elements::push_link;
use page_positions::Position;
use std::alloc::AllocError;

/// Adds the line of a link that begins there, of a page of this name.
pub(crate) fn push_link_line(
    text: &mut String,
    name: &str,
    position: Position,
    link: &PageLink,
) -> Result<(), AllocError>
    ensures { OnOk result (string_bytes text.new
        ≡ string_bytes text.old ++ link_line name.now position (seen_link link.now)) }
{
    push_position(text, name, position)?;
    push_words(text, link)?;
    text.push_str("\n")
}

/// Adds a position, as editors take it.
pub(crate) fn push_position(
    text: &mut String,
    name: &str,
    position: Position,
) -> Result<(), AllocError>
    ensures { OnOk result (string_bytes text.new
        ≡ string_bytes text.old ++ position_words name.now position) }
{
    write!(text, "{name}:{}:{}: ", position.line, position.column)
}

// Adds what a link is.
fn push_words(text: &mut String, link: &PageLink) -> Result<(), AllocError>
    ensures { OnOk result (string_bytes text.new
        ≡ string_bytes text.old ++ link_words (seen_link link.now)) }
{
    text.push_str(shown_as(link.is_image))?;
    push_link(
        text,
        link.link_type,
        &link.destination,
        &link.title,
        &link.label,
    )
}

/// What a link or an image is called.
pub(crate) fn shown_as(is_image: bool) -> &'static str
    ensures { result.now ≡ shown_as is_image }
{
    if is_image { "image" } else { "link" }
}
