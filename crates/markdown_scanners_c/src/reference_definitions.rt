//! Link reference definitions.
ghost use Rattle.std.specs.Prelude.{◌≡◌, ◌≢◌, ◌≤◌, ◌<◌, ◌⊎◌, ◌+◌, length, IfSome};
ghost use Rattle.std.specs.Str.{IsCharBoundary};
ghost use Rattle.markdown_scanners_c.specs.Answers.{none};
ghost use Rattle.markdown_scanners_c.specs.ReferenceDefinitions.{IsNoDefinition, IsReturnedDefinition, IsTitleAt, AreCutFromText};
ghost use Rattle.markdown_scanners_c.specs.Status.{ok, past_end};
ghost use Rattle.markdown_scanners_c.specs.TextPlace.{IsAnswerAt};

use crate::status::{NONE, NOTHING, OK, PAST_END};
use markdown_scanners_tree::scanners::{ReferenceDefinition, scan_reference_definition};
use std::ops::Range;

/// `struct mds_reference_definition` of C: where its parts stand in the bytes, and the offset after
/// it, where the status is `OK`.
#[repr(C)]
pub struct Definition {
    pub status: u32,
    pub end: usize,
    pub label_start: usize,
    pub label_length: usize,
    pub destination_start: usize,
    pub destination_length: usize,
    pub title_start: usize,
    pub title_length: usize,
}

// No definition, but a status.
fn no_definition(status: u32) -> Definition
    ensures { IsNoDefinition status result }
{
    Definition {
        status,
        end: 0,
        label_start: 0,
        label_length: 0,
        destination_start: 0,
        destination_length: 0,
        title_start: 0,
        title_length: 0,
    }
}

/// The link reference definition that begins at the offset. (CommonMark 0.31.2, section 4.7)
#[tactic(auto, unfolding(crate::specs::ReferenceDefinitions::IsReturnedDefinition))]
#[unsafe(no_mangle)]
pub extern "C" fn mds_scan_reference_definition(
    bytes: &[u8],
    start: usize,
    max_next: usize,
) -> Definition
    ensures definition { IsAnswerAt bytes.now start (IsNoDefinition past_end result)
        (IsReturnedDefinition (max_next + 1) bytes.now start result) }
    ensures in_order { (result.status ≡ ok → start < result.label_start)
        × (result.label_start + result.label_length ≤ result.destination_start)
        × (result.destination_start + result.destination_length ≤ result.end)
        × (result.end ≤ length bytes.now) }
    ensures title { ((result.title_start ≡ none) × (result.title_length ≡ 0))
        ⊎ ((result.destination_start + result.destination_length ≤ result.title_start)
        × (result.title_start + result.title_length ≤ result.end)) }
    ensures boundary { AreCutFromText bytes.now start result }
{
    if start > bytes.len() {
        return no_definition(PAST_END);
    }
    let Some(found) = scan_reference_definition(&bytes[start..], max_next) else {
        return no_definition(NOTHING);
    };
    let ReferenceDefinition {
        label,
        destination,
        title,
        len,
    } = found;
    let (title_start, title_length) = title_at(start, &title);
    Definition {
        status: OK,
        end: start + len,
        label_start: start + label.start,
        label_length: label.end - label.start,
        destination_start: start + destination.start,
        destination_length: destination.end - destination.start,
        title_start,
        title_length,
    }
}

// Where a title stands in all bytes, and how many it has; `NONE` and 0 where there is none.
fn title_at(start: usize, title: &Option<Range<usize>>) -> (usize, usize)
    requires { IfSome title.now (λ range. (range.start ≤ range.end)
        × (start + range.end ≤ usize.MAX)) }
    ensures { IsTitleAt start title.now result.0 result.1 }
{
    match title {
        Some(range) => (start + range.start, range.end - range.start),
        None => (NONE, 0),
    }
}
