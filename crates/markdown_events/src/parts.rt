//! Parts of a text, and what is meant by them.
ghost use Rattle.std.specs.Prelude.{◌≡◌, not, slice_range, IfOk};
ghost use Rattle.std.specs.List.{list_all};
ghost use Rattle.std.specs.Str.{IsCharBoundary, IsUtf8};
ghost use Rattle.markdown_values.specs.strings.Text.{cow_text};
ghost use Rattle.markdown_scanners_tree.specs.scanners.unescaping.private.FirstPiece.{begins_change};
ghost use Rattle.markdown_events.specs.Meanings.{IsMeaning, IsTitleMeaning};

use crate::line_feeds::with_line_feeds;
use html_entities::HtmlEntities;
use markdown_scanners_tree::byte_sets::ByteSet;
use markdown_scanners_tree::scanners::unescape;
use markdown_values::strings::CowStr;
use std::alloc::{AllocError, Global};
use std::str::from_utf8_unchecked;

// The bytes that begin an escape, a character reference or a CR, which means nothing.
const CHANGES: ByteSet = ByteSet {
    low: [0, 0, 0, 0, 0, 0, 1, 0, 0, 0, 0, 0, 2, 4, 0, 0],
    high: [4, 0, 1, 0, 0, 2, 0, 0, 0, 0, 0, 0, 0, 0, 0, 0],
};

/// What stands in a text from one offset up to another, at both of which it may be cut.
pub(crate) fn part(text: &str, start: usize, end: usize) -> &str
    requires begins { IsCharBoundary text.now start }
    requires ends { IsCharBoundary text.now end }
    ensures { result.now ≡ slice_range text.now start end }
{
    match text.get(start..end) {
        Some(part) => part,
        None => "",
    }
}

/// What is meant by a text, its backslash escapes and character references resolved. Most texts have
/// none, and are handed back.
#[inline(always)]
pub(crate) fn meaning_of<'a>(alloc: Global, text: CowStr<'a>) -> Result<CowStr<'a>, AllocError>
    ensures { IfOk result (λ meaning. IsMeaning (cow_text text.entry) (cow_text meaning)) }
{
    if means_itself(text.as_str()) {
        return Ok(text);
    }
    resolved(alloc, text)
}

// The same, whatever the text has. It is not inlined, so that the texts that mean themselves cost less.
#[inline(never)]
fn resolved<'a>(alloc: Global, text: CowStr<'a>) -> Result<CowStr<'a>, AllocError>
    ensures { IfOk result (λ meaning. IsMeaning (cow_text text.entry) (cow_text meaning)) }
{
    unescape(alloc, text, false, &HtmlEntities)
}

/// What is meant by a title: its line endings are line feeds, its backslash escapes and character
/// references resolved.
pub(crate) fn title_meaning<'a>(alloc: Global, title: CowStr<'a>) -> Result<CowStr<'a>, AllocError>
    ensures { IfOk result (λ meaning. IsTitleMeaning (cow_text title.entry) (cow_text meaning)) }
{
    meaning_of(alloc, with_line_feeds(alloc, title)?)
}

// Whether no byte of a text begins what means anything but itself.
fn means_itself(text: &str) -> bool
    ensures { result ≡ list_all (λ b. not (begins_change b)) text.now }
{
    let bytes = text.as_bytes();
    CHANGES.len_outside(bytes) == bytes.len()
}

/// The text that bytes of a page are.
pub(crate) fn text_of(bytes: &[u8]) -> &str
    requires { IsUtf8 bytes.now }
    ensures { result.now ≡ bytes.now }
{
    // SAFETY: they are UTF-8.
    unsafe { from_utf8_unchecked(bytes) }
}
