//! Thematic breaks.
ghost use Rattle.std.specs.Prelude.{◌≡◌, ◌≤◌, ◌==◌, length, take, count_by, false, IsTrue, IfOk, IfErr, MatchResult};
ghost use Rattle.std.specs.List.{prefix_len};
ghost use Rattle.markdown_scanners_tree.specs.Bytes.{begins_with};
ghost use Rattle.markdown_scanners_tree.specs.scanners.Breaks.{is_break_marker, is_break_byte, IsThematicBreak, is_thematic_break, IsThematicBreakLine};
ghost use Rattle.markdown_scanners_tree.specs.scanners.Breaks.{NoBreakBefore, break_length};

use crate::scanners::classes::is_break_byte;
use crate::scanners::lines::scan_eol;

/// The length in bytes of a thematic break at the front, with its line ending.
///
/// Where no thematic break stands there, the error is an offset before which none begins, so that
/// a caller need not look again there. (CommonMark 0.31.2, section 4.1.)
#[tactic(auto, using(crate::proofs::scanners::breaks::BreakLemmas::thematic_breaks))]
pub fn scan_hrule(bytes: &[u8]) -> Result<usize, usize>
    ensures found { IfOk result (IsThematicBreakLine bytes.now) }

    // An error: no thematic break begins at the front, by the test and by the definition.
    ensures none { IfErr result (λ n. is_thematic_break bytes.now ≡ false) }
    ensures no_break { IfErr result (λ n. ¬ IsThematicBreak bytes.now) }

    // The offset of the error: where the scan stopped, and none begins before it.
    ensures stopped { IfErr result (λ n. n ≡ break_length bytes.now) }
    ensures none_before { IfErr result (NoBreakBefore bytes.now) }

    ensures within { MatchResult result (λ n. n ≤ length bytes.now) (λ n. n ≤ length bytes.now) }
{
    if bytes.len() < 3 {
        return Err(0);
    }
    match bytes[0] {
        marker @ (b'*' | b'-' | b'_') => scan_break_of(bytes, marker),
        _ => Err(0),
    }
}

// How long the longest prefix of the marker, spaces and tabs is, and how many markers are in it. The
// first byte is the marker, and is not looked at again.
//
// A byte is looked up in a table, and a marker is counted without a branch. With a branch for each
// kind of byte, a processor mispredicts each second byte of `-` and tabs in turn where the code
// stands at some addresses, and the scan takes eight times as long.
fn scan_break_bytes(bytes: &[u8], marker: u8) -> (usize, usize)
    requires is_marker { IsTrue (is_break_marker marker) }
    requires begins { IsTrue (begins_with (λ b. b == marker) bytes.now) }
    ensures run { result.0 ≡ prefix_len (is_break_byte marker) bytes.now }
    ensures markers { result.1 ≡ count_by (λ b. b == marker) (take result.0 bytes.now) }
    ensures within { result.0 ≤ length bytes.now }
{
    let mut run = 1;
    let mut markers = 1;
    while run < bytes.len() {
        let byte = bytes[run];
        if !is_break_byte(marker, byte) {
            break;
        }
        // Of these bytes the marker alone is above space.
        if byte > b' ' {
            markers += 1;
        }
        run += 1;
    }
    (run, markers)
}

// The same as `scan_hrule`, where the first byte is known.
fn scan_break_of(bytes: &[u8], marker: u8) -> Result<usize, usize>
    requires is_marker { IsTrue (is_break_marker marker) }
    requires begins { IsTrue (begins_with (λ b. b == marker) bytes.now) }
    requires at_least_three { 3 ≤ length bytes.now }

    ensures found { IfOk result (IsThematicBreakLine bytes.now) }
    ensures none { IfErr result (λ n. is_thematic_break bytes.now ≡ false) }
    ensures stopped { IfErr result (λ n. n ≡ break_length bytes.now) }
    ensures none_before { IfErr result (NoBreakBefore bytes.now) }
    ensures within { MatchResult result (λ n. n ≤ length bytes.now) (λ n. n ≤ length bytes.now) }
{
    let (run, markers) = scan_break_bytes(bytes, marker);
    let Some(ending) = scan_eol(&bytes[run..]) else {
        return Err(run);
    };
    if markers >= 3 {
        Ok(run + ending)
    } else {
        Err(run + ending)
    }
}
