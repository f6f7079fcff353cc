//! The second pass over a label, which writes its text.
ghost use Rattle.std.specs.Prelude.{◌≡◌, ◌≤◌, ◌<◌, ◌+◌, ◌-◌, ◌++◌, ◌∷◌, [], length, slice_range, take};
ghost use Rattle.std.specs.Prelude.{IfOk, OnOk, IsOk, string_bytes, IsCharBoundary};
ghost use Rattle.std.specs.String.{string_len, string_capacity};
ghost use Rattle.markdown_scanners_tree.specs.Ascii.{space};
ghost use Rattle.markdown_scanners_tree.specs.Handler.{Skips, IsCallableAfterLineEndings};
ghost use Rattle.markdown_scanners_tree.specs.linklabel.Label.{Label, IsLabel};
ghost use Rattle.markdown_scanners_tree.specs.linklabel.private.NextPart.{IsNextPart};
ghost use Rattle.markdown_scanners_tree.specs.linklabel.private.Pass.{due_after, due_len, due_text, HasLabelWithin, IsWordWritten};
ghost use Rattle.markdown_scanners_tree.specs.linklabel.private.Steady.{IsSteadyAfterLines, EndsAtChars};

use crate::linklabel::steps::{is_dropped, skip_at};
use crate::linklabel::word::{is_ordinary, word_run};
use crate::scanners::{is_ascii_punctuation, scan_whitespace_no_nl};
use std::alloc::AllocError;

// What stands next in a label; of a word's byte also whether it escapes the next one.
#[derive(Clone, Copy, Drop)]
enum NextPart {
    End,
    Open,
    Close,
    Ending(usize),
    Space(u8),
    Word(u8, bool),
}

// What stands next, where the byte before it was or was not a backslash that escapes. Brackets and
// backslashes are asked for first: what is left then is white space, and no table has to be read to
// tell so.
fn next_part(rest: &[u8], escaped: bool) -> NextPart
    ensures { IsNextPart escaped rest.now result }
{
    match rest {
        [] => NextPart::End,
        [b, ..] if is_ordinary(*b) => NextPart::Word(*b, false),
        [b'[' | b'\\' | b']', ..] if escaped => NextPart::Word(rest[0], false),
        [b'[', ..] => NextPart::Open,
        [b']', ..] => NextPart::Close,
        [b'\\', next, ..] => NextPart::Word(b'\\', is_ascii_punctuation(*next)),
        [b'\\'] => NextPart::Word(b'\\', false),
        [b'\n', ..] => NextPart::Ending(1),
        [b'\r', b'\n', ..] => NextPart::Ending(2),
        [b'\r', ..] => NextPart::Ending(1),
        [b, ..] => NextPart::Space(*b),
    }
}

// The second pass: appends the label's text. Where there is room for it no memory is taken. The label
// stands in the text, which is the front of the bytes; the handler is asked of the bytes. What stands
// from `mark` up to `end`, where the last word ends, is still to be appended.
pub(crate) fn write_label<F: Fn(&[u8]) -> Option<usize>>(
    out: &mut String,
    text: &str,
    bytes: &[u8],
    handler: &F,
    is_in_table: bool,
) -> Result<(), AllocError>
    requires callable { IsCallableAfterLineEndings F.Fn handler.now bytes.now }
    requires steady { IsSteadyAfterLines F.Fn handler.now bytes.now }
    requires cuts { EndsAtChars F.Fn handler.now bytes.now text.now }
    requires front { text.now ≡ take (length text.now) bytes.now }
    requires closed { HasLabelWithin (Skips F.Fn handler.now) bytes.now is_in_table
        (length text.now) }
    ensures written { (label : Label)
        → IsLabel (Skips F.Fn handler.now) bytes.now is_in_table label
        → OnOk result (string_bytes out.new ≡ string_bytes out.old ++ label.text) }
    ensures fits { (label : Label)
        → IsLabel (Skips F.Fn handler.now) bytes.now is_in_table label
        → string_len out.old + length label.text ≤ string_capacity out.old → IsOk result }
{
    let (mut ix, mut mark, mut end) = (0, 0, 0);
    let mut escaped = false;
    loop {
        match next_part(&bytes[ix..], escaped) {
            NextPart::End | NextPart::Open | NextPart::Close => {
                return out.push_str(&text[mark..end]);
            }
            NextPart::Ending(len) => {
                let Some(skip) = skip_at(bytes, ix + len, handler) else {
                    return Ok(());
                };
                ix += len + skip;
            }
            NextPart::Space(_) => ix += 1,
            NextPart::Word(_, escapes) => {
                mark = write_word(out, text, mark, end, ix, is_in_table)?;
                let run = word_run(&bytes[ix + 1..], escapes, is_in_table);
                escaped = run.escapes;
                end = ix + 1 + run.len;
                ix = end + scan_whitespace_no_nl(&bytes[end..]);
            }
        }
    }
}

// At a byte of a word, where the text from `mark` up to `end` is still to be appended: appends it and
// a space where white space stands before the byte, and where the byte is a backslash that a cell of a
// table drops, the text up to it. Answers from where on the text is still to be appended. It is inlined,
// or there would be a call for each word.
#[inline(always)]
fn write_word(
    out: &mut String,
    text: &str,
    mark: usize,
    end: usize,
    offset: usize,
    is_in_table: bool,
) -> Result<usize, AllocError>
    requires ordered { mark ≤ end }
    requires after { end ≤ offset }
    requires within { offset < length text.now }
    requires start { IsCharBoundary text.now mark }
    requires ends { end < offset → IsCharBoundary text.now end }
    requires begins { end < offset → IsCharBoundary text.now offset }
    ensures written { IfOk result (λ next. IsWordWritten is_in_table text.now
        mark end offset out.old out.new next) }
    ensures capacity { string_capacity out.old ≤ string_capacity out.new }
    ensures succeeds { string_len out.old + due_len (due_after end offset) + (end - mark)
        ≤ string_capacity out.old → IsOk result }
{
    let mark = write_gap(out, text, mark, end, offset)?;
    if !is_dropped(&text.as_bytes()[offset..], is_in_table) {
        return Ok(mark);
    }
    out.push_str(&text[mark..offset])?;
    Ok(offset + 1)
}

// Where white space stands before a word, appends the text from `mark` up to `end`, where it begins,
// and a space if there is a word before. Answers from where on the text is still to be appended.
#[inline(always)]
fn write_gap(
    out: &mut String,
    text: &str,
    mark: usize,
    end: usize,
    offset: usize,
) -> Result<usize, AllocError>
    requires ordered { mark ≤ end }
    requires after { end ≤ offset }
    requires within { offset < length text.now }
    requires start { IsCharBoundary text.now mark }
    requires ends { end < offset → IsCharBoundary text.now end }
    requires begins { end < offset → IsCharBoundary text.now offset }
    ensures order { IfOk result (λ next. next ≤ offset) }
    ensures start { IfOk result (λ next. IsCharBoundary text.now next) }
    ensures bytes { IfOk result (λ next. string_bytes out.new ++ slice_range text.now next offset
        ≡ (string_bytes out.old ++ slice_range text.now mark end)
        ++ due_text (due_after end offset)) }
    ensures len { IfOk result (λ next. string_len out.new + (offset - next)
        ≡ string_len out.old + (end - mark) + due_len (due_after end offset)) }
    ensures capacity { string_capacity out.old ≤ string_capacity out.new }
    ensures succeeds { string_len out.old + due_len (due_after end offset) + (end - mark)
        ≤ string_capacity out.old → IsOk result }
{
    if end == offset {
        return Ok(mark);
    }
    if end == 0 {
        return Ok(offset);
    }
    push_with_space(out, text, mark, end)?;
    Ok(offset)
}

// Appends the text from `mark` up to `end`, and a space: in one part where a space stands there.
#[inline(always)]
fn push_with_space(out: &mut String, text: &str, mark: usize, end: usize) -> Result<(), AllocError>
    requires ordered { mark ≤ end }
    requires within { end < length text.now }
    requires start { IsCharBoundary text.now mark }
    requires ends { IsCharBoundary text.now end }
    ensures bytes { IfOk result (λ _. string_bytes out.new
        ≡ (string_bytes out.old ++ slice_range text.now mark end) ++ (space ∷ [])) }
    ensures len { IfOk result (λ _. string_len out.new ≡ string_len out.old + (end - mark) + 1) }
    ensures capacity { string_capacity out.old ≤ string_capacity out.new }
    ensures succeeds { string_len out.old + (end - mark) + 1 ≤ string_capacity out.old
        → IsOk result }
{
    if text.as_bytes()[end] == b' ' {
        return out.push_str(&text[mark..end + 1]);
    }
    out.push_str(&text[mark..end])?;
    out.push_str(" ")
}
