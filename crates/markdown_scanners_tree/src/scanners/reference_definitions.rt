//! Link reference definitions.
ghost use Rattle.std.specs.Prelude.{◌≡◌, ◌==◌, ◌+◌, ◌-◌, ◌<◌, ◌≤◌, length, IfSome};
ghost use Rattle.markdown_scanners_tree.specs.Ascii.{colon};
ghost use Rattle.markdown_scanners_tree.specs.Bytes.{begins_with};
ghost use Rattle.std.specs.Str.{IsUtf8, IsCharBoundary};
ghost use Rattle.markdown_scanners_tree.specs.SomeExactly.{SomeExactly, IsOnly};
ghost use Rattle.markdown_scanners_tree.specs.scanners.links.FoundDestination.{IsDestination, RawTextStandsIn, with_raw_text};
ghost use Rattle.markdown_scanners_tree.specs.scanners.reference_definitions.FoundDefinition.{PartsStandIn};
ghost use Rattle.markdown_scanners_tree.specs.scanners.reference_definitions.ReferenceDefinition.{IsReferenceDefinition, IsLabelWithColon, IsTarget, IsSeparatedTitle};
ghost use Rattle.markdown_scanners_tree.specs.scanners.reference_definitions.ReferenceDefinition.{IsTitleLine, IsEnd, IsRestOfLine, IsCutAt};
ghost use Rattle.markdown_scanners_tree.specs.scanners.reference_definitions.private.GapLength.{gap_length};

use crate::linklabel::label_len;
use crate::scanners::destinations::scan_link_dest_ahead;
use crate::scanners::lines::scan_eol;
use crate::scanners::links::scan_link_dest_bytes;
use crate::scanners::runs::scan_spaces_and_tabs;
use crate::scanners::titles::scan_link_title;
use std::ops::Range;

/// Where the parts of a link reference definition stand, by their offsets in the text that it begins.
#[derive(Debug, Drop, PartialEq)]
pub struct ReferenceDefinition {
    /// What stands between the brackets of its label.
    pub label: Range<usize>,
    /// The raw text of its destination, without angle brackets.
    pub destination: Range<usize>,
    /// The raw text of its title, without the two bytes around it, if it has one.
    pub title: Option<Range<usize>>,
    /// How many bytes it takes, its line ending among them.
    pub len: usize,
}

/// The link reference definition at the front of a paragraph's content, of which the markers of
/// containers and the indents of lines are no part. Parentheses in its destination nest at most
/// `max_next + 1` deep, as in `scan_link_dest`.
///
/// A title that something follows in its line is none. Where it began in a line of its own, the
/// definition ends with the line of its destination, and else there is no definition. No memory is
/// asked for; what `scan_link_label_rest` reads from `label.start` on is the label. (CommonMark
/// 0.31.2, section 4.7)
pub fn scan_reference_definition(bytes: &[u8], max_next: usize) -> Option<ReferenceDefinition>
    // The one definition that stands there is answered.
    ensures found { SomeExactly (IsReferenceDefinition (max_next + 1) bytes.now) result }
    ensures only { IsOnly (IsReferenceDefinition (max_next + 1) bytes.now) result }

    // Its parts stand one after another in it, and can be cut out.
    ensures parts { IfSome result (PartsStandIn bytes.now) }
{
    scan_definition(bytes, max_next, Reach::Deciding)
}

/// The same of a text that can be read to its end: bytes after the destination may be read too, as by
/// `scan_link_dest_ahead`. (CommonMark 0.31.2, section 4.7)
pub fn scan_reference_definition_ahead(bytes: &[u8], max_next: usize) -> Option<ReferenceDefinition>
    // The one definition that stands there is answered.
    ensures found { SomeExactly (IsReferenceDefinition (max_next + 1) bytes.now) result }
    ensures only { IsOnly (IsReferenceDefinition (max_next + 1) bytes.now) result }

    // Its parts stand one after another in it, and can be cut out.
    ensures parts { IfSome result (PartsStandIn bytes.now) }
{
    scan_definition(bytes, max_next, Reach::Ahead)
}

// Which bytes a scan of a destination may read.
#[derive(Clone, Copy)]
enum Reach {
    // None after the one that decides the answer.
    Deciding,
    // Those after it too, 16 at a time.
    Ahead,
}

// The definition at the front, by a scan of this reach.
fn scan_definition(bytes: &[u8], max_next: usize, reach: Reach) -> Option<ReferenceDefinition>
    ensures found { SomeExactly (IsReferenceDefinition (max_next + 1) bytes.now) result }
    ensures only { IsOnly (IsReferenceDefinition (max_next + 1) bytes.now) result }
    ensures parts { IfSome result (PartsStandIn bytes.now) }
{
    let target = scan_target(bytes, max_next, reach)?;
    let (title, len) = scan_end(bytes, target.offset)?;
    Some(ReferenceDefinition {
        label: target.label,
        destination: target.destination,
        title,
        len,
    })
}

// The label and the destination of a definition, and the offset after them.
#[derive(Drop)]
struct Target {
    label: Range<usize>,
    destination: Range<usize>,
    offset: usize,
}

// What a definition begins with.
fn scan_target(bytes: &[u8], max_next: usize, reach: Reach) -> Option<Target>
    ensures found { SomeExactly
        (λ t. IsTarget (max_next + 1) bytes.now t.label t.destination t.offset) result }
    ensures within { IfSome result (λ t. t.offset ≤ length bytes.now) }
    ensures label { IfSome result (λ t. (0 < t.label.start) × (t.label.start ≤ t.label.end)
        × (t.label.end < t.destination.start)) }
    ensures destination { IfSome result (λ t. (t.destination.start ≤ t.destination.end)
        × (t.destination.end ≤ t.offset)) }
    ensures label_cut { IfSome result (λ t. IsUtf8 bytes.now → IsCutAt bytes.now t.label) }
    ensures destination_cut { IfSome result (λ t. IsUtf8 bytes.now
        → IsCutAt bytes.now t.destination) }
    ensures after { IfSome result (λ t. IsUtf8 bytes.now → IsCharBoundary bytes.now t.offset) }
{
    let named = scan_label_and_colon(bytes)?;
    let start = named + gap_len(&bytes[named..]);
    let (taken, raw) = scan_destination(&bytes[start..], max_next, reach)?;
    if taken == 0 {
        return None;
    }
    Some(Target {
        label: 1..named - 2,
        destination: start + raw.start..start + raw.end,
        offset: start + taken,
    })
}

// The link destination at the front.
fn scan_destination(bytes: &[u8], max_next: usize, reach: Reach) -> Option<(usize, Range<usize>)>
    ensures found { SomeExactly (IsDestination (max_next + 1) bytes.now)
        (with_raw_text bytes.now result) }
    ensures only { IsOnly (IsDestination (max_next + 1) bytes.now)
        (with_raw_text bytes.now result) }
    ensures raw_text { IfSome result (λ r. RawTextStandsIn bytes.now r.0 r.1) }
{
    match reach {
        Reach::Deciding => scan_link_dest_bytes(bytes, max_next),
        Reach::Ahead => scan_link_dest_ahead(bytes, max_next),
    }
}

// The length of the label at the front, with its brackets and the colon after them.
fn scan_label_and_colon(bytes: &[u8]) -> Option<usize>
    ensures found { SomeExactly (IsLabelWithColon bytes.now) result }
    ensures within { IfSome result (λ n. (3 ≤ n) × (n ≤ length bytes.now)) }
    ensures begins { IfSome result (λ n. IsUtf8 bytes.now → IsCharBoundary bytes.now 1) }
    ensures ends { IfSome result (λ n. IsUtf8 bytes.now → IsCharBoundary bytes.now (n - 2)) }
    ensures after { IfSome result (λ n. IsUtf8 bytes.now → IsCharBoundary bytes.now n) }
{
    let inside = bytes.strip_prefix(b"[")?;
    let length = label_len(inside)?;
    if begins_with_colon(&inside[length..]) {
        Some(length + 2)
    } else {
        None
    }
}

// Whether a colon stands at the front.
fn begins_with_colon(rest: &[u8]) -> bool
    ensures { result ≡ begins_with (λ b. b == colon) rest.now }
{
    matches!(rest, [b':', ..])
}

// How a definition ends whose destination ends at the offset: the title, if it has one, and the offset
// after its last line.
fn scan_end(bytes: &[u8], offset: usize) -> Option<(Option<Range<usize>>, usize)>
    requires { offset ≤ length bytes.now }
    ensures found { SomeExactly (λ r. IsEnd bytes.now offset r.0 r.1) result }
    ensures within { IfSome result (λ r. (offset ≤ r.1) × (r.1 ≤ length bytes.now)) }
    ensures title { IfSome result (λ r. IfSome r.0 (λ title. (offset < title.start)
        × (title.start ≤ title.end) × (title.end < r.1))) }
    ensures title_cut { IfSome result (λ r. IfSome r.0 (λ title. IsUtf8 bytes.now
        → IsCharBoundary bytes.now offset → IsCutAt bytes.now title)) }
    ensures after { IfSome result (λ r. IsUtf8 bytes.now → IsCharBoundary bytes.now offset
        → IsCharBoundary bytes.now r.1) }
{
    match scan_title_line(bytes, offset) {
        Some((title, end)) => Some((Some(title), end)),
        None => {
            let ending = scan_rest_of_line(&bytes[offset..])?;
            Some((None, offset + ending))
        }
    }
}

// The title after the destination that ends at the offset, and the offset after its line.
fn scan_title_line(bytes: &[u8], offset: usize) -> Option<(Range<usize>, usize)>
    requires { offset ≤ length bytes.now }
    ensures found { SomeExactly (λ r. IsTitleLine bytes.now offset r.0 r.1) result }
    ensures within { IfSome result (λ r. r.1 ≤ length bytes.now) }
    ensures title { IfSome result (λ r. (offset < r.0.start) × (r.0.start ≤ r.0.end)
        × (r.0.end < r.1)) }
    ensures title_cut { IfSome result (λ r. IsUtf8 bytes.now → IsCharBoundary bytes.now offset
        → IsCutAt bytes.now r.0) }
    ensures after { IfSome result (λ r. IsUtf8 bytes.now → IsCharBoundary bytes.now offset
        → IsCharBoundary bytes.now r.1) }
{
    let title = scan_separated_title(bytes, offset)?;
    let end = title.end + 1;
    let ending = scan_rest_of_line(&bytes[end..])?;
    Some((title, end + ending))
}

/// Where the raw text of the link title stands that follows the offset after a gap: spaces, tabs and
/// up to one line ending, of which there is at least one. The byte that closes the title stands at
/// the end of its raw text. (CommonMark 0.31.2, sections 4.7 and 6.3)
pub fn scan_separated_title(bytes: &[u8], offset: usize) -> Option<Range<usize>>
    requires { offset ≤ length bytes.now }

    // The one title that stands there is answered.
    ensures found { SomeExactly (IsSeparatedTitle bytes.now offset) result }
    ensures only { IsOnly (IsSeparatedTitle bytes.now offset) result }
    ensures within { IfSome result (λ title. (offset < title.start) × (title.start ≤ title.end)
        × (title.end < length bytes.now)) }

    // A text that may be cut at the offset may be so where the title's raw text begins and ends, and
    // after the byte that closes it.
    ensures title_cut { IfSome result (λ title. IsUtf8 bytes.now
        → IsCharBoundary bytes.now offset → IsCutAt bytes.now title) }
    ensures after { IfSome result (λ title. IsUtf8 bytes.now
        → IsCharBoundary bytes.now offset → IsCharBoundary bytes.now (title.end + 1)) }
{
    let start = offset + gap_len(&bytes[offset..]);
    if start == offset {
        return None;
    }
    let taken = scan_link_title(&bytes[start..])?;
    Some(start + 1..start + taken - 1)
}

// The length of the spaces and tabs at the front, including up to one line ending.
fn gap_len(bytes: &[u8]) -> usize
    ensures gap { result ≡ gap_length bytes.now }
    ensures within { result ≤ length bytes.now }
    ensures after { IsUtf8 bytes.now → IsCharBoundary bytes.now result }
{
    let spaces = scan_spaces_and_tabs(bytes);
    let first = spaces + scan_eol(&bytes[spaces..]).unwrap_or(0);
    first + scan_spaces_and_tabs(&bytes[first..])
}

// The length of the rest of a line in which no further character occurs, with its line ending.
fn scan_rest_of_line(bytes: &[u8]) -> Option<usize>
    ensures found { SomeExactly (IsRestOfLine bytes.now) result }
    ensures within { IfSome result (λ n. n ≤ length bytes.now) }
    ensures after { IfSome result (λ n. IsUtf8 bytes.now → IsCharBoundary bytes.now n) }
{
    let spaces = scan_spaces_and_tabs(bytes);
    let ending = scan_eol(&bytes[spaces..])?;
    Some(spaces + ending)
}
