//! Link labels.
ghost use Rattle.std.specs.Prelude.{◌≡◌, ◌≢◌, ◌≤◌, ◌<◌, ◌+◌, ◌-◌, ◌++◌, ◌⊎◌, ◌↔◌, ℕ};
ghost use Rattle.std.specs.Prelude.{List, true, length, drop, if◌then◌else◌};
ghost use Rattle.std.specs.Str.{IsUtf8};
ghost use Rattle.markdown_values.specs.strings.Text.{cow_text, is_borrowed};
ghost use Rattle.markdown_scanners_c.specs.Answers.{none};
ghost use Rattle.markdown_scanners_c.specs.Buffer.{IsChangedFront};
ghost use Rattle.markdown_scanners_c.specs.Keys.{key_bytes};
ghost use Rattle.markdown_scanners_c.specs.Labels.{IsGiven, IsLabelAt, IsNoLabelText, IsLabelText, IsScannedLabel, match_status};
ghost use Rattle.markdown_scanners_c.specs.Skips.{are_skips, are_ascii_skips};
ghost use Rattle.markdown_scanners_c.specs.Status.{ok, not_utf8, past_end};
ghost use Rattle.markdown_scanners_c.specs.private.LabelText.{returned_ascii, space_len};

use crate::skips::{Skip, returned_ascii};
use crate::status::{NO_MEMORY, NONE, NOT_UTF8, NOTHING, OK, PAST_END};
use crate::texts::{Text, write_text};
use markdown_scanners_tree::linklabel::{LinkLabel, scan_link_label_bytes};
use markdown_values::strings::CowStr;
use std::alloc::Global;

/// `struct mds_label` of C: the offset after a label, its text, and where it stands in the input, if
/// it does.
#[repr(C)]
pub struct LabelText {
    pub status: u32,
    pub end: usize,
    pub length: usize,
    pub start: usize,
}

// No label, but a status.
fn no_label(status: u32) -> LabelText
    ensures { IsNoLabelText status result }
{
    LabelText {
        status,
        end: 0,
        length: 0,
        start: 0,
    }
}

/// Writes the link label whose bracket stands before the offset, over lines of which the skips are
/// left out. (CommonMark 0.31.2, section 6.3)
#[unsafe(no_mangle)]
pub extern "C" fn mds_scan_link_label(
    alloc: Global,
    bytes: &[u8],
    start: usize,
    is_in_table: bool,
    skips: &[Skip],
    buffer: &mut [u8],
) -> LabelText
    // With a table of a text that the bytes begin.
    ensures label { (after : List ℕ) → are_skips skips.now (bytes.now ++ after) ≡ true
        → are_ascii_skips skips.now (bytes.now ++ after) ≡ true
        → IsScannedLabel is_in_table skips.now bytes.now start buffer.old buffer.new result }

    // With any table.
    ensures past { (result.status ≡ past_end) ↔ (length bytes.now < start) }
    ensures within { result.end ≤ length bytes.now }
    ensures room { result.length ≤ result.end - start }
    ensures kept { IsChangedFront buffer.old buffer.new result.status result.length }
{
    if start > bytes.len() {
        return no_label(PAST_END);
    }
    label_at(alloc, bytes, start, is_in_table, skips, buffer)
}

// The label at the offset, over lines, and its text in the buffer.
fn label_at(
    alloc: Global,
    bytes: &[u8],
    start: usize,
    is_in_table: bool,
    skips: &[Skip],
    buffer: &mut [u8],
) -> LabelText
    requires within { start ≤ length bytes.now }
    ensures label { (after : List ℕ) → are_skips skips.now (bytes.now ++ after) ≡ true
        → are_ascii_skips skips.now (bytes.now ++ after) ≡ true
        → IsLabelText (IsLabelAt skips.now bytes.now start is_in_table)
        bytes.now start buffer.old buffer.new result }
    ensures there { result.status ≢ past_end }
    ensures within { result.end ≤ length bytes.now }
    ensures room { result.length ≤ result.end - start }
    ensures kept { IsChangedFront buffer.old buffer.new result.status result.length }
{
    let rest = &bytes[start..];
    let handler = |rest: &[u8]| -> Option<usize>
        ensures { result ≡ returned_ascii skips.entry.now bytes.entry.now rest.now }
    { returned_ascii(skips, bytes, rest) };
    match scan_link_label_bytes(alloc, rest, &handler, is_in_table) {
        Ok(Some((taken, label))) => {
            let offset = start_of(&label, rest, start);
            let Text {
                status,
                taken,
                length,
            } = write_label(&label, taken, buffer);
            LabelText {
                status,
                end: start + taken,
                length,
                start: offset,
            }
        }
        Ok(None) => no_label(NOTHING),
        Err(_) => no_label(NO_MEMORY),
    }
}

// Writes a label's text; but one that is lent needs no writing where there is no buffer.
fn write_label(label: &CowStr, taken: usize, buffer: &mut [u8]) -> Text
    ensures written { IsGiven (is_borrowed label.now) (cow_text label.now)
        buffer.old buffer.new result.status result.length }
    ensures taken { result.taken ≡ taken }
{
    let text = label.as_str().as_bytes();
    match (label, buffer.is_empty()) {
        (CowStr::Borrowed(_), true) => Text {
            status: OK,
            taken,
            length: text.len(),
        },
        _ => write_text(text, taken, buffer),
    }
}

// Where a label stands in its input, after the space at the front of the bytes from the start on,
// if it is lent from there.
fn start_of(label: &CowStr, rest: &[u8], start: usize) -> usize
    requires { start + length rest.now ≤ usize.MAX }
    ensures { result ≡ (if is_borrowed label.now then start + space_len rest.now else none) }
{
    match label {
        CowStr::Borrowed(_) => start + space_len(rest),
        _ => NONE,
    }
}

// How many bytes a space at the front takes.
fn space_len(bytes: &[u8]) -> usize
    ensures takes { result ≡ space_len bytes.now }
    ensures within { result ≤ length bytes.now }
{
    match bytes {
        [b' ', ..] => 1,
        _ => 0,
    }
}

/// Whether two labels have one key. (CommonMark 0.31.2, section 6.3)
#[unsafe(no_mangle)]
pub extern "C" fn mds_labels_match(alloc: Global, one: &[u8], other: &[u8]) -> u32
    ensures status { ((result ≡ not_utf8) × ¬ (IsUtf8 one.now × IsUtf8 other.now))
        ⊎ (IsUtf8 one.now × IsUtf8 other.now × (result ≡ match_status one.now other.now)) }
    ensures keys { IsUtf8 one.now → IsUtf8 other.now
        → ((result ≡ ok) ↔ (key_bytes one.now ≡ key_bytes other.now)) }
{
    match (str::from_utf8(one), str::from_utf8(other)) {
        (Ok(one), Ok(other)) => match_of(alloc, one, other),
        _ => NOT_UTF8,
    }
}

// A new label takes no memory, so that none is refused.
fn match_of(alloc: Global, one: &str, other: &str) -> u32
    ensures { result ≡ match_status one.now other.now }
{
    let one = LinkLabel::new(alloc, CowStr::from(one)).unwrap();
    let other = LinkLabel::new(alloc, CowStr::from(other)).unwrap();
    if one == other { OK } else { NOTHING }
}
