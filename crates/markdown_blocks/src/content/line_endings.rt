//! The line endings of code and HTML, each written as a line feed. (CommonMark 0.31.2, section 2.1)
ghost use Rattle.std.specs.Prelude.{◌≡◌, ◌∷◌, ◌+◌, ◌^◌, ◌<◌, List, ℕ, length};
ghost use Rattle.markdown_blocks.specs.content.Left.{first_parts};
ghost use Rattle.markdown_blocks.specs.content.Parts.{ended, has_return, written};
ghost use Rattle.markdown_blocks.specs.content.Seen.{IsFirstIn, IsIn, seen_part};

use crate::blocks::BlockKind;
use crate::content::parts::LinePart;
use markdown_scanners_tree::scanners::line_head;
use memchr::memchr;

/// The part, and of code and HTML a line feed in place of a line ending with a carriage return.
#[inline(always)]
pub(crate) fn written<'a>(
    part: LinePart<'a>,
    kind: BlockKind,
) -> (LinePart<'a>, Option<LinePart<'a>>)
    requires fits { part.offset + length part.bytes.now < 2 ^ 64 }
    ensures parts { seen_part result.0 ∷ first_parts result.1 ≡ written kind (seen_part part.entry) }
    ensures inside { (lines : List ℕ) → IsIn lines (seen_part part.entry)
        → IsIn lines (seen_part result.0) × IsFirstIn lines result.1 }
{
    match kind {
        BlockKind::Indented | BlockKind::Fenced(..) | BlockKind::Html(_) => ended(part),
        _ => (part, None),
    }
}

// The same of code and HTML.
fn ended<'a>(part: LinePart<'a>) -> (LinePart<'a>, Option<LinePart<'a>>)
    requires fits { part.offset + length part.bytes.now < 2 ^ 64 }
    ensures parts { seen_part result.0 ∷ first_parts result.1 ≡ ended (seen_part part.entry) }
    ensures inside { (lines : List ℕ) → IsIn lines (seen_part part.entry)
        → IsIn lines (seen_part result.0) × IsFirstIn lines result.1 }
{
    if !has_return(part.bytes) {
        return (part, None);
    }
    let head = LinePart {
        bytes: line_head(part.bytes),
        ..part
    };
    let ending = LinePart {
        columns: 1,
        filler: b'\n',
        offset: part.offset + part.bytes.len(),
        bytes: &[],
    };
    (head, Some(ending))
}

/// Whether a carriage return stands in the bytes.
pub(crate) fn has_return(bytes: &[u8]) -> bool
    ensures { result ≡ has_return bytes.now }
{
    memchr(b'\r', bytes).is_some()
}
