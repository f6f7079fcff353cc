//! The first pass over a label, which finds its end, and how much memory it needs.
ghost use Rattle.std.specs.Prelude.{◌≡◌, ◌≤◌, ◌<◌, ◌+◌, ◌-◌, ◌==◌, true, false, length, drop};
ghost use Rattle.std.specs.Prelude.{IfSome, IfNone, IsTrue};
ghost use Rattle.markdown_scanners_tree.specs.Ascii.{left_bracket, right_bracket};
ghost use Rattle.markdown_scanners_tree.specs.Bytes.{begins_with, is_line_ending, is_punctuation};
ghost use Rattle.markdown_scanners_tree.specs.Handler.{Skips, IsCallableAfterLineEndings};
ghost use Rattle.markdown_scanners_tree.specs.Kept.{line_len};
ghost use Rattle.markdown_scanners_tree.specs.linklabel.Label.{HasNoLabel};
ghost use Rattle.markdown_scanners_tree.specs.linklabel.private.Pass.{due_len, backslash_len, spaces_len, tally_past_backslash, tally_past_spaces, IsMeasure};
ghost use Rattle.markdown_scanners_tree.specs.linklabel.private.Steady.{IsSteadyAfterLines};
ghost use Rattle.markdown_scanners_tree.specs.linklabel.private.Words.{AreWords};

use crate::linklabel::MOST_CHARACTERS;
use crate::linklabel::steps::{is_dropped, skip_at};
use crate::linklabel::tally::{Tally, continued_count};
use crate::linklabel::word::is_ordinary;
use crate::linklabel::words::leading_words;
use crate::scanners::is_ascii_punctuation;

// What the first pass over a label finds: the offset of the closing bracket, how long the label is,
// and whether it stands in the text as it is.
#[derive(Clone, Copy, Drop)]
pub(crate) struct Measure {
    pub(crate) close: usize,
    pub(crate) length: usize,
    pub(crate) is_plain: bool,
}

// The first pass over a label, which takes no memory. It ends with the character that is one too
// many, and asks the handler no more.
pub(crate) fn measure_label<F: Fn(&[u8]) -> Option<usize>>(
    bytes: &[u8],
    handler: &F,
    is_in_table: bool,
) -> Option<Measure>
    requires callable { IsCallableAfterLineEndings F.Fn handler.now bytes.now }
    requires steady { IsSteadyAfterLines F.Fn handler.now bytes.now }
    ensures found { IfSome result (IsMeasure (Skips F.Fn handler.now) bytes.now is_in_table) }
    ensures none { IfNone result (HasNoLabel (Skips F.Fn handler.now) bytes.now is_in_table) }
{
    if is_opened(bytes) {
        return None;
    }
    let words = leading_words(bytes, is_in_table);
    if words > 0 && words <= MOST_CHARACTERS && is_closed(&bytes[words..]) {
        return Some(Measure {
            close: words,
            length: words,
            is_plain: true,
        });
    }
    measure_from(bytes, words, handler, is_in_table)
}

// Whether an opening bracket stands there.
fn is_opened(rest: &[u8]) -> bool
    ensures { result ≡ begins_with (λ b. b == left_bracket) rest.now }
{
    matches!(rest, [b'[', ..])
}

// Whether a closing bracket stands there.
fn is_closed(rest: &[u8]) -> bool
    ensures { result ≡ begins_with (λ b. b == right_bracket) rest.now }
{
    matches!(rest, [b']', ..])
}

// The first pass after words with one space between, that were read.
// Each byte is matched by itself: in parts, as the second pass has them, it would take about twice as
// long.
fn measure_from<F: Fn(&[u8]) -> Option<usize>>(
    bytes: &[u8],
    words: usize,
    handler: &F,
    is_in_table: bool,
) -> Option<Measure>
    requires callable { IsCallableAfterLineEndings F.Fn handler.now bytes.now }
    requires steady { IsSteadyAfterLines F.Fn handler.now bytes.now }
    requires within { words ≤ length bytes.now }
    requires words { AreWords is_in_table bytes.now words }
    ensures found { IfSome result (IsMeasure (Skips F.Fn handler.now) bytes.now is_in_table) }
    ensures none { IfNone result (HasNoLabel (Skips F.Fn handler.now) bytes.now is_in_table) }
{
    let mut ix = words;
    let mut tally = Tally::after_words(words, continued_count(&bytes[..words]));
    while ix < bytes.len() && tally.characters(ix) <= MOST_CHARACTERS {
        let byte = bytes[ix];
        if is_ordinary(byte) {
            tally = tally.past_word(byte, false);
            ix += 1;
            continue;
        }
        match byte {
            b'[' => return None,
            b']' => return measured(tally, ix),
            b'\\' => {
                tally = past_backslash(tally, &bytes[ix..], is_in_table);
                ix += backslash_len(&bytes[ix..]);
            }
            b'\n' | b'\r' => {
                let len = ending_len(&bytes[ix..]);
                if tally.ends_line() || tally.characters(ix) + len > MOST_CHARACTERS {
                    return None;
                }
                let skip = skip_at(bytes, ix + len, handler)?;
                tally = tally.past_ending(len, skip);
                ix += len + skip;
            }
            b' ' => {
                tally = past_spaces(tally, &bytes[ix + 1..]);
                ix += spaces_len(&bytes[ix + 1..]);
            }
            _ => {
                tally = tally.past_space(byte);
                ix += 1;
            }
        }
    }
    None
}

// What is found at the closing bracket after so many bytes.
fn measured(tally: Tally, close: usize) -> Option<Measure>
    requires fits { IsTrue tally.has_word → tally.left_out + due_len tally.in_run ≤ close }
    ensures found { IfSome result (λ measure. measure
        ≡ record {
          close = close;
          length = close - (tally.left_out + due_len tally.in_run);
          is_plain = tally.is_plain;
        }) }
    ensures word { IfSome result (λ _. tally.has_word ≡ true) }
    ensures none { IfNone result (tally.has_word ≡ false) }
{
    if !tally.has_word {
        return None;
    }
    Some(Measure {
        close,
        length: tally.length(close),
        is_plain: tally.is_plain,
    })
}

// How many bytes the line ending at the front takes.
fn ending_len(rest: &[u8]) -> usize
    requires { begins_with is_line_ending rest.now ≡ true }
    ensures { result ≡ line_len rest.now }
{
    match rest {
        [b'\r', b'\n', ..] => 2,
        _ => 1,
    }
}

// How many spaces are read at once: a space, and one more where it stands after it.
fn spaces_len(after: &[u8]) -> usize
    ensures { result ≡ spaces_len after.now }
{
    match after {
        [b' ', ..] => 2,
        _ => 1,
    }
}

// The tally after a space, and one more where it stands after it.
fn past_spaces(tally: Tally, after: &[u8]) -> Tally
    requires { tally.left_out + 2 ≤ usize.MAX }
    ensures { result ≡ tally_past_spaces tally after.now }
{
    let tally = tally.past_space(b' ');
    match after {
        [b' ', ..] => tally.past_space(b' '),
        _ => tally,
    }
}

// How many bytes the backslash at the front takes, with the byte that it escapes.
fn backslash_len(rest: &[u8]) -> usize
    ensures { result ≡ backslash_len rest.now }
{
    if escapes(rest) { 2 } else { 1 }
}

// Whether the backslash at the front escapes the byte after it.
fn escapes(rest: &[u8]) -> bool
    ensures answer { result ≡ begins_with is_punctuation (drop 1 rest.now) }
    ensures inside { IsTrue result → 1 < length rest.now }
{
    rest.len() > 1 && is_ascii_punctuation(rest[1])
}

// The tally after the backslash at the front, and the byte that it escapes.
fn past_backslash(tally: Tally, rest: &[u8], is_in_table: bool) -> Tally
    requires skipped_fits { tally.skipped + 2 ≤ usize.MAX }
    requires left_out_fits { tally.left_out + 2 ≤ usize.MAX }
    ensures { result ≡ tally_past_backslash is_in_table tally rest.now }
{
    let tally = tally.past_word(b'\\', is_dropped(rest, is_in_table));
    if !escapes(rest) {
        return tally;
    }
    tally.past_word(rest[1], is_dropped(&rest[1..], is_in_table))
}
