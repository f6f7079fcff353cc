//! Link destinations, link titles, code spans, autolinks and pipes of wikilinks.
ghost use Rattle.std.specs.Prelude.{◌≤◌, ◌+◌, length};
ghost use Rattle.markdown_scanners_tree.specs.scanners.links.Autolink.{IsUriAutolink};
ghost use Rattle.markdown_inlines.specs.Emails.{IsEmailAutolink};
ghost use Rattle.markdown_scanners_c.specs.Status.{past_end};
ghost use Rattle.markdown_scanners_c.specs.Parts.{IsNoPart, IsAutolinkPart, IsPipePart, IsCodePart, IsDestinationPart, IsTitlePart, IsCutFromText};
ghost use Rattle.markdown_scanners_c.specs.TextPlace.{IsAnswerAt};

use crate::status::{NOTHING, OK, PAST_END};
use markdown_inlines::code_spans::scan_code_span;
use markdown_inlines::emails::scan_email_autolink_bytes;
use markdown_scanners_tree::scanners::{
    scan_autolink_bytes, scan_link_dest_bytes, scan_link_title, scan_wikilink_pipe_bytes,
};

/// `struct mds_part` of C: a part of the bytes, by offsets from their front, where the status is
/// `OK`.
#[repr(C)]
pub struct Part {
    pub status: u32,
    pub end: usize,
    pub start: usize,
    pub length: usize,
}

// No part, but a status.
fn no_part(status: u32) -> Part
    ensures { IsNoPart status result }
{
    Part {
        status,
        end: 0,
        start: 0,
        length: 0,
    }
}

/// The link destination that begins at the offset. (CommonMark 0.31.2, section 6.3)
#[tactic(auto, unfolding(crate::specs::Parts::IsDestinationPart))]
#[unsafe(no_mangle)]
pub extern "C" fn mds_scan_link_dest(bytes: &[u8], start: usize, max_next: usize) -> Part
    ensures part { IsAnswerAt bytes.now start (IsNoPart past_end result)
        (IsDestinationPart (max_next + 1) bytes.now start result) }
    ensures within { (result.start + result.length ≤ result.end)
        × (result.end ≤ length bytes.now) }
    ensures boundary { IsCutFromText bytes.now start result }
{
    if start > bytes.len() {
        return no_part(PAST_END);
    }
    match scan_link_dest_bytes(&bytes[start..], max_next) {
        Some((taken, raw)) => Part {
            status: OK,
            end: start + taken,
            start: start + raw.start,
            length: raw.end - raw.start,
        },
        None => no_part(NOTHING),
    }
}

/// The link title that begins at the offset. (CommonMark 0.31.2, section 6.3)
#[tactic(auto, unfolding(crate::specs::Parts::IsTitlePart))]
#[unsafe(no_mangle)]
pub extern "C" fn mds_scan_link_title(bytes: &[u8], start: usize) -> Part
    ensures part { IsAnswerAt bytes.now start (IsNoPart past_end result)
        (IsTitlePart bytes.now start result) }
    ensures within { (result.start + result.length ≤ result.end)
        × (result.end ≤ length bytes.now) }
    ensures boundary { IsCutFromText bytes.now start result }
{
    if start > bytes.len() {
        return no_part(PAST_END);
    }
    match scan_link_title(&bytes[start..]) {
        Some(whole) => Part {
            status: OK,
            end: start + whole,
            start: start + 1,
            length: whole - 2,
        },
        None => no_part(NOTHING),
    }
}

/// The code span that begins at the offset, as if no backtick stood before that. (CommonMark 0.31.2,
/// section 6.1)
#[tactic(auto, unfolding(crate::specs::Parts::IsCodePart))]
#[unsafe(no_mangle)]
pub extern "C" fn mds_scan_code_span(bytes: &[u8], start: usize) -> Part
    ensures part { IsAnswerAt bytes.now start (IsNoPart past_end result)
        (IsCodePart bytes.now start result) }
    ensures within { (result.start + result.length ≤ result.end)
        × (result.end ≤ length bytes.now) }
    ensures boundary { IsCutFromText bytes.now start result }
{
    if start > bytes.len() {
        return no_part(PAST_END);
    }
    match scan_code_span(&bytes[start..]) {
        Some(span) => Part {
            status: OK,
            end: start + span.len,
            start: start + span.content.start,
            length: span.content.end - span.content.start,
        },
        None => no_part(NOTHING),
    }
}

/// The URI of the autolink whose `<` stands before the offset. (CommonMark 0.31.2, section 6.5)
#[tactic(auto, unfolding(crate::specs::Parts::IsAutolinkPart))]
#[unsafe(no_mangle)]
pub extern "C" fn mds_scan_autolink(bytes: &[u8], start: usize) -> Part
    ensures part { IsAnswerAt bytes.now start (IsNoPart past_end result)
        (IsAutolinkPart IsUriAutolink bytes.now start result) }
    ensures within { (result.start + result.length ≤ result.end)
        × (result.end ≤ length bytes.now) }
    ensures boundary { IsCutFromText bytes.now start result }
{
    if start > bytes.len() {
        return no_part(PAST_END);
    }
    match scan_autolink_bytes(&bytes[start..]) {
        Some(length) => Part {
            status: OK,
            end: start + length + 1,
            start,
            length,
        },
        None => no_part(NOTHING),
    }
}

/// The email address of the autolink whose `<` stands before the offset. (CommonMark 0.31.2, section
/// 6.5)
#[tactic(auto, unfolding(crate::specs::Parts::IsAutolinkPart))]
#[unsafe(no_mangle)]
pub extern "C" fn mds_scan_email_autolink(bytes: &[u8], start: usize) -> Part
    ensures part { IsAnswerAt bytes.now start (IsNoPart past_end result)
        (IsAutolinkPart IsEmailAutolink bytes.now start result) }
    ensures within { (result.start + result.length ≤ result.end)
        × (result.end ≤ length bytes.now) }
    ensures boundary { IsCutFromText bytes.now start result }
{
    if start > bytes.len() {
        return no_part(PAST_END);
    }
    match scan_email_autolink_bytes(&bytes[start..]) {
        Some(address) => Part {
            status: OK,
            end: start + address + 1,
            start,
            length: address,
        },
        None => no_part(NOTHING),
    }
}

/// What stands before the first pipe of so many bytes.
#[tactic(auto, unfolding(crate::specs::Parts::IsPipePart))]
#[unsafe(no_mangle)]
pub extern "C" fn mds_scan_wikilink_pipe(bytes: &[u8], start: usize, count: usize) -> Part
    ensures part { IsAnswerAt bytes.now start (IsNoPart past_end result)
        (IsPipePart bytes.now start count result) }
    ensures within { (result.start + result.length ≤ result.end)
        × (result.end ≤ length bytes.now) }
    ensures boundary { IsCutFromText bytes.now start result }
{
    if start > bytes.len() {
        return no_part(PAST_END);
    }
    match scan_wikilink_pipe_bytes(&bytes[start..], count) {
        Some(before) => Part {
            status: OK,
            end: start + before + 1,
            start,
            length: before,
        },
        None => no_part(NOTHING),
    }
}
