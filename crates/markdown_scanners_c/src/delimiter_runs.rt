//! Delimiter runs, and the characters that decide on them.
ghost use Rattle.std.specs.Prelude.{◌≡◌, ◌↔◌, ◌≤◌, ◌<◌, ◌+◌, ◌-◌, length, Option, IsTrue};
ghost use Rattle.std.specs.Char.{IsScalar};
ghost use Rattle.std.specs.Str.{IsUtf8, IsCharBoundary};
ghost use Rattle.markdown_inlines.specs.DelimiterRuns.{is_white_space, is_punctuation};
ghost use Rattle.markdown_inlines.specs.declared.delimiter_runs.DelimiterRun.{DelimiterRun as Run};
ghost use Rattle.markdown_scanners_c.specs.DelimiterRuns.{IsNoRun, IsReturnedRun};
ghost use Rattle.markdown_scanners_c.specs.Status.{past_end};
ghost use Rattle.markdown_scanners_c.specs.TextPlace.{IsAnswerAt};
ghost use Rattle.markdown_scanners_c.specs.private.Sides.{begins_character};

use crate::status::{NOT_UTF8, NOTHING, OK, PAST_END};
use markdown_inlines::delimiter_runs::{is_punctuation, is_white_space, scan_delimiter_run};
use markdown_scanners_tree::scanners::scan_ch_repeat;

/// `struct mds_delimiter_run` of C: the run, where the status is `OK`.
#[repr(C)]
pub struct DelimiterRun {
    pub status: u32,
    pub byte: u8,
    pub can_open: bool,
    pub can_close: bool,
    pub count: usize,
}

// No run, but a status.
fn no_run(status: u32) -> DelimiterRun
    ensures { IsNoRun status result }
{
    DelimiterRun {
        status,
        byte: 0,
        can_open: false,
        can_close: false,
        count: 0,
    }
}

/// The delimiter run that begins at the offset, before which no unescaped byte of its kind stands.
/// Beside it, the characters on both sides are read. (CommonMark 0.31.2, section 6.2)
#[tactic(auto, unfolding(crate::specs::DelimiterRuns::IsReturnedRun))]
#[unsafe(no_mangle)]
pub extern "C" fn mds_scan_delimiter_run(bytes: &[u8], offset: usize) -> DelimiterRun
    ensures run { IsAnswerAt bytes.now offset (IsNoRun past_end result)
        (IsReturnedRun bytes.now offset result) }
    ensures within { result.count ≤ length bytes.now - offset }
{
    if offset > bytes.len() {
        return no_run(PAST_END);
    }
    let rest = &bytes[offset..];
    let count = scan_ch_repeat(rest, b'*').max(scan_ch_repeat(rest, b'_'));
    if count == 0 {
        return no_run(NOTHING);
    }
    let front = last_len(&bytes[..offset]);
    let back = first_len(&rest[count..]);
    let Ok(text) = str::from_utf8(&bytes[offset - front..offset + count + back]) else {
        return no_run(NOT_UTF8);
    };
    match scan_delimiter_run(text, front) {
        Some(run) => DelimiterRun {
            status: OK,
            byte: run.byte,
            can_open: run.can_open,
            can_close: run.can_close,
            count: run.count,
        },
        None => no_run(NOTHING),
    }
}

// How many bytes the last character of a text has. Of other bytes it is some number, 4 at most.
fn last_len(bytes: &[u8]) -> usize
    ensures within { result ≤ length bytes.now }
    ensures some { 0 < length bytes.now → 0 < result }
    ensures boundary { IsUtf8 bytes.now → IsCharBoundary bytes.now (length bytes.now - result) }
{
    let most = bytes.len().min(4);
    for count in 1..most {
        if begins_character(bytes[bytes.len() - count]) {
            return count;
        }
    }
    most
}

// How many bytes the first character of a text has. Of other bytes it is some number, 4 at most.
fn first_len(bytes: &[u8]) -> usize
    ensures within { result ≤ length bytes.now }
    ensures some { 0 < length bytes.now → 0 < result }
    ensures boundary { IsUtf8 bytes.now → IsCharBoundary bytes.now result }
{
    let most = bytes.len().min(4);
    for count in 1..most {
        if begins_character(bytes[count]) {
            return count;
        }
    }
    most
}

// Whether the byte goes on no character of UTF-8.
fn begins_character(byte: u8) -> bool
    ensures { result ≡ begins_character byte }
{
    byte < 0x80 || byte >= 0xC0
}

/// Whether the number is that of a Unicode white space character. (CommonMark 0.31.2, section 2.1)
#[unsafe(no_mangle)]
pub extern "C" fn mds_is_unicode_whitespace(character: u32) -> bool
    ensures { IsTrue result ↔ (IsScalar character × IsTrue (is_white_space character)) }
{
    match char::from_u32(character) {
        Some(c) => is_white_space(c),
        None => false,
    }
}

/// Whether the number is that of a Unicode punctuation character. (CommonMark 0.31.2, section 2.1)
#[unsafe(no_mangle)]
pub extern "C" fn mds_is_unicode_punctuation(character: u32) -> bool
    ensures { IsTrue result ↔ (IsScalar character × IsTrue (is_punctuation character)) }
{
    match char::from_u32(character) {
        Some(c) => is_punctuation(c),
        None => false,
    }
}
