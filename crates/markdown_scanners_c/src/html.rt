//! HTML blocks, tags and inline HTML.
ghost use Rattle.std.specs.Prelude.{◌≡◌, ◌≢◌, ◌↔◌, ◌≤◌, ◌<◌, ◌-◌, ◌++◌, [], ◌∷◌, ℕ, List, IsTrue, true, length};
ghost use Rattle.markdown_scanners_tree.specs.Kept.{KeptByte};
ghost use Rattle.markdown_scanners_tree.specs.inline_html.Guard.{IsTrueGuard};
ghost use Rattle.markdown_scanners_tree.specs.inline_html.run.KeptGuard.{first_guard, AreScanPlaces, guard_after_scans};
ghost use Rattle.markdown_scanners_tree.specs.scanners.html_block.HtmlBlock.{IsBlockStart};
ghost use Rattle.markdown_scanners_tree.specs.scanners.html_kinds.HtmlKinds.{IsHtmlBlockStart, condition_number, is_html_end};
ghost use Rattle.markdown_scanners_tree.specs.scanners.html_tag.HtmlTag.{IsTagAloneInLine};
ghost use Rattle.markdown_scanners_tree.specs.scanners.html_tag.KeptTag.{IsKeptTag, offset_after};
ghost use Rattle.markdown_scanners_c.specs.Answers.{FoundExactly, FoundKind, IsWithin};
ghost use Rattle.markdown_scanners_c.specs.Buffer.{IsChangedFront};
ghost use Rattle.markdown_scanners_c.specs.Finds.{IsFindEnd};
ghost use Rattle.markdown_scanners_c.specs.LineStarts.{found_status};
ghost use Rattle.markdown_scanners_c.specs.Guards.{scan_guard, new_guard, IsGuardedEnd, IsTrueEnd, IsScanInTurn};
ghost use Rattle.markdown_scanners_c.specs.Skips.{are_skips};
ghost use Rattle.markdown_scanners_c.specs.Status.{past_end, bad_kind};
ghost use Rattle.markdown_scanners_c.specs.Tags.{IsNoTag, IsTagText, IsScannedTag};
ghost use Rattle.markdown_scanners_c.specs.private.ScanReturned.{scan_returned};
ghost use Rattle.markdown_scanners_c.specs.private.Searched.{returned_skip};

use crate::skips::{Skip, returned_skip};
use crate::status::{BAD_KIND, NO_MEMORY, NO_OPENER, NONE, NOTHING, OK, PAST_END};
use crate::texts::{Text, write_text};
use markdown_scanners_tree::inline_html::{
    CountedText, HtmlScanGuard, HtmlStop, scan_inline_html_counted,
};
use markdown_scanners_tree::scanners::{
    HtmlBlockKind, ends_html_block, scan_html_block_inner, scan_html_block_start, scan_html_type_7,
    starts_html_block_type_6,
};
use std::alloc::Global;

/// Whether the bytes after a `<` begin an HTML block by a name. (CommonMark 0.31.2, section 4.6,
/// start condition 6)
#[unsafe(no_mangle)]
pub extern "C" fn mds_starts_html_block_type_6(bytes: &[u8]) -> bool
    ensures { IsTrue result ↔ IsBlockStart bytes.now }
{
    starts_html_block_type_6(bytes)
}

/// The length of the tag that stands alone in its line, or `NONE`. (CommonMark 0.31.2, section 4.6,
/// start condition 7)
#[unsafe(no_mangle)]
pub extern "C" fn mds_scan_html_type_7(bytes: &[u8]) -> usize
    ensures found { FoundExactly (IsTagAloneInLine bytes.now) result result }
    ensures within { IsWithin bytes.now result }
{
    scan_html_type_7(bytes).unwrap_or(NONE)
}

/// The number of the kind of HTML block that begins at the front, or 0. (CommonMark 0.31.2, section
/// 4.6)
#[unsafe(no_mangle)]
pub extern "C" fn mds_scan_html_block_start(bytes: &[u8]) -> u32
    ensures { FoundKind (IsHtmlBlockStart bytes.now) result }
{
    match scan_html_block_start(bytes) {
        Some(kind) => u32::from(kind.number()),
        None => 0,
    }
}

/// Whether the line at the front ends an HTML block of the kind: `OK` or `NOTHING`, or `BAD_KIND`
/// where the number is of no kind. (CommonMark 0.31.2, section 4.6)
#[unsafe(no_mangle)]
pub extern "C" fn mds_ends_html_block(bytes: &[u8], kind: u32) -> u32
    ensures known { (k : HtmlBlockKind) → condition_number k ≡ kind
        → result ≡ found_status (is_html_end k bytes.now) }
    ensures unknown { ((k : HtmlBlockKind) → condition_number k ≢ kind) → result ≡ bad_kind }
{
    let Ok(number) = u8::try_from(kind) else {
        return BAD_KIND;
    };
    match HtmlBlockKind::from_number(number) {
        Some(kind) if ends_html_block(bytes, kind) => OK,
        Some(_) => NOTHING,
        None => BAD_KIND,
    }
}

/// The length of the tag at the front, in one line, or `NONE`. (CommonMark 0.31.2, section 6.6)
#[unsafe(no_mangle)]
pub extern "C" fn mds_scan_html_tag(alloc: Global, bytes: &[u8]) -> usize
    ensures found { FoundExactly (λ n. (tag : List KeptByte)
        × IsKeptTag (λ rest skip. ⊥) bytes.now tag × (n ≡ offset_after 0 tag)) result result }
    ensures within { IsWithin bytes.now result }
{
    match scan_html_block_inner(alloc, bytes, None::<&fn(&[u8]) -> usize>) {
        Ok(Some((_, length))) => length,
        _ => NONE,
    }
}

/// `struct mds_tag` of C: the offset after a tag, and how many bytes its text has.
#[repr(C)]
pub struct Tag {
    pub status: u32,
    pub end: usize,
    pub length: usize,
}

// No tag, but a status.
fn no_tag(status: u32) -> Tag
    ensures { IsNoTag status result }
{
    Tag {
        status,
        end: 0,
        length: 0,
    }
}

/// The tag at the offset, over lines of which the skips are left out. (CommonMark 0.31.2, section
/// 6.6)
#[unsafe(no_mangle)]
pub extern "C" fn mds_scan_html_tag_over_lines(
    alloc: Global,
    bytes: &[u8],
    start: usize,
    skips: &[Skip],
    buffer: &mut [u8],
) -> Tag
    // With a table of a text that the bytes begin.
    ensures tag { (after : List ℕ) → are_skips skips.now (bytes.now ++ after) ≡ true
        → IsScannedTag skips.now bytes.now start buffer.old buffer.new result }

    // With any table.
    ensures past { (result.status ≡ past_end) ↔ (length bytes.now < start) }
    ensures within { result.end ≤ length bytes.now }
    ensures room { result.length ≤ result.end - start }
    ensures kept { IsChangedFront buffer.old buffer.new result.status result.length }
{
    if start > bytes.len() {
        return no_tag(PAST_END);
    }
    tag_text(alloc, bytes, start, skips, buffer)
}

// The tag at the offset, over lines, and its text in the buffer.
fn tag_text(alloc: Global, bytes: &[u8], start: usize, skips: &[Skip], buffer: &mut [u8]) -> Tag
    requires { start ≤ length bytes.now }
    ensures tag { (after : List ℕ) → are_skips skips.now (bytes.now ++ after) ≡ true
        → IsTagText skips.now bytes.now start buffer.old buffer.new result }
    ensures there { result.status ≢ past_end }
    ensures within { result.end ≤ length bytes.now }
    ensures room { result.length ≤ result.end - start }
    ensures kept { IsChangedFront buffer.old buffer.new result.status result.length }
{
    let handler = |rest: &[u8]| -> usize
        ensures { result ≡ returned_skip skips.entry.now bytes.entry.now rest.now }
    { returned_skip(skips, bytes, rest) };
    match scan_html_block_inner(alloc, &bytes[start..], Some(&handler)) {
        Ok(Some((text, taken))) => {
            let Text {
                status,
                taken,
                length,
            } = write_text(&text, taken, buffer);
            Tag {
                status,
                end: start + taken,
                length,
            }
        }
        Ok(None) => no_tag(NOTHING),
        Err(_) => no_tag(NO_MEMORY),
    }
}

/// `struct mds_html_guard` of C: `HtmlScanGuard`, number by number.
#[repr(C)]
#[derive(Clone, Copy)]
pub struct Guard {
    pub comment: usize,
    pub cdata: usize,
    pub declaration: usize,
    pub processing: usize,
}

impl Guard {
    // The guard of a scan with these numbers.
    fn to_scan(&self) -> HtmlScanGuard
        ensures { result ≡ scan_guard self.now }
    {
        HtmlScanGuard {
            comment: self.comment,
            cdata: self.cdata,
            declaration: self.declaration,
            processing: self.processing,
        }
    }

    // The numbers of the guard that a scan leaves.
    fn of(stops: &HtmlScanGuard) -> Guard
        ensures { scan_guard result ≡ stops.now }
    {
        Guard {
            comment: stops.comment,
            cdata: stops.cdata,
            declaration: stops.declaration,
            processing: stops.processing,
        }
    }
}

/// `struct mds_end` of C: an offset, where the status is `OK`, and how many bytes were passed over.
#[repr(C)]
pub struct End {
    pub status: u32,
    pub end: usize,
    pub passed: usize,
}

/// The end of what a `<!` or `<?` that ends at the offset begins, under a guard, which remembers
/// what it searched in vain. (CommonMark 0.31.2, section 6.6)
#[unsafe(no_mangle)]
pub extern "C" fn mds_scan_inline_html(bytes: &[u8], offset: usize, guard: &mut Guard) -> End
    // Under any guard.
    ensures scan { IsGuardedEnd bytes.now offset guard.old guard.new result }

    // Under a true one, as the first one is.
    ensures finds { IsTrueGuard bytes.now (scan_guard guard.old) offset
        → IsTrueEnd bytes.now offset guard.new result }
    ensures first { guard.old ≡ new_guard → IsTrueEnd bytes.now offset guard.new result }

    // At rising offsets outside earlier finds.
    ensures in_turn { (earlier : List ℕ) → AreScanPlaces bytes.now (earlier ++ offset ∷ [])
        → scan_guard guard.old ≡ guard_after_scans bytes.now first_guard earlier
        → IsScanInTurn bytes.now earlier offset guard.new result }
{
    let mut text = CountedText::new(bytes);
    let mut stops = guard.to_scan();
    let found = scan_inline_html_counted(&mut text, offset, &mut stops);
    *guard = Guard::of(&stops);
    end_returned(&found, text.passed() as usize)
}

// The answer of a scan that passed over so many bytes, as C has it.
fn end_returned(found: &Result<Option<usize>, HtmlStop>, passed: usize) -> End
    ensures { result ≡ scan_returned found.now passed }
{
    let (status, end) = match found {
        Ok(Some(end)) => (OK, *end),
        Ok(None) => (NOTHING, 0),
        Err(_) => (NO_OPENER, 0),
    };
    End {
        status,
        end,
        passed,
    }
}
