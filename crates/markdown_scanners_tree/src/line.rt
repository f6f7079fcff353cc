//! An offset in a line that is read column by column, with tab stops of four.
//! (CommonMark 0.31.2, section 2.2, tabs)
ghost use Rattle.std.specs.Prelude.{ℕ, ◌≡◌, ◌+◌, ◌-◌, ◌*◌, ◌%◌, ◌<◌, ◌≤◌, ◌↔◌, ◌==◌, true, [], ◌∷◌, length, drop, IsTrue, IfSome, IfNone, ⊤};
ghost use Rattle.markdown_scanners_tree.specs.Ascii.{greater_than_sign};
ghost use Rattle.markdown_scanners_tree.specs.Bytes.{begins_with, is_space_or_tab, is_at_line_end};
ghost use Rattle.markdown_scanners_tree.specs.line.KnownBreaks.{AreTrueBreaks};
ghost use Rattle.markdown_scanners_tree.specs.line.Outcome.{after_all_space, after_quote, task_box, task_outcome, alert_outcome};
ghost use Rattle.markdown_scanners_tree.specs.line.PlainStep.{IsPlainStep};
ghost use Rattle.markdown_scanners_tree.specs.line.State.{LineState, IsLineState, unscanned, rest_of, space_within, after_space, bytes_further};

mod alerts;
mod known_breaks;
mod markers;
mod rests;
mod run;
mod tabs;

use crate::line::alerts::scan_alert;
use crate::line::tabs::tab_width;
use crate::scanners::{
    is_ascii_whitespace, is_ascii_whitespace_no_nl, is_line_ending, scan_ch_repeat,
    scan_spaces_and_tabs,
};
pub use known_breaks::KnownBreaks;
use markdown_values::values::BlockQuoteKind;
pub use markers::LARGEST_INDENT;
pub use run::{LineAnswer, LineCall, LineRun, LineStop, run_line};
use std::alloc::AllocError;
use std::marker::Model;

/// An offset in a line, and the columns of a tab before it that are not taken yet.
///
/// A column counts bytes, and a tab reaches to the next multiple of four. Contracts see a
/// `LineState`: the bytes, the offset, the pending columns, and the column of the offset modulo four.
#[derive(Drop)]
pub struct LineStart<'a> {
    bytes: &'a [u8],
    // Four columns a byte may be more than a `usize` holds.
    column: u128,
    offset: usize,
    pending: usize,
    breaks: KnownBreaks,
}

impl<'a> Model for LineStart<'a> {
    ghost Value = { LineState };

    ghost view = { λ s.
        record { bytes = s.bytes.now; offset = s.offset; pending = s.pending; phase = s.column % 4 } };

    ghost invariant = { λ s.
        (s.offset ≤ length s.bytes.now)
        × (s.column ≤ 4 * s.offset + 3)
        × (s.pending < 4)
        × AreTrueBreaks s.bytes.now s.breaks s.offset };
}

impl Clone for LineStart<'_> {
    ghost is_clone = { λ x y. y ≡ x };

    ghost is_infallible = { λ _. ⊤ };

    fn clone(&self) -> Result<Self, AllocError> {
        Ok(self.copy())
    }
}

impl<'a> LineStart<'a> {
    /// The start of a line: offset 0, with nothing pending.
    pub fn new(bytes: &'a [u8]) -> LineStart<'a>
        ensures { result ≡ record { bytes = bytes.now; offset = 0; pending = 0; phase = 0 } }
    {
        LineStart {
            bytes,
            column: 0,
            offset: 0,
            pending: 0,
            breaks: KnownBreaks::new(),
        }
    }

    /// The line start at an offset of the bytes with these columns pending, where the column of the
    /// offset modulo four is `phase`: as `bytes_scanned`, `remaining_space` and `phase` have given
    /// them. None where no line start has such numbers.
    pub fn resumed(
        bytes: &'a [u8],
        offset: usize,
        pending: usize,
        phase: usize,
    ) -> Option<LineStart<'a>>
        ensures state { IfSome result (λ start. start
            ≡ record { bytes = bytes.now; offset = offset; pending = pending; phase = phase }) }
        ensures is_state { IfSome result (λ start. IsLineState start) }
        ensures none { IfNone result (¬ IsLineState
            (record { bytes = bytes.now; offset = offset; pending = pending; phase = phase })) }
    {
        if offset > bytes.len() || pending > 3 || phase > 3 {
            return None;
        }
        Some(LineStart {
            bytes,
            column: phase as u128,
            offset,
            pending,
            breaks: KnownBreaks::new(),
        })
    }

    /// The offset: how many bytes have been passed.
    pub fn bytes_scanned(&self) -> usize
        ensures offset { result ≡ self.now.offset }
        ensures within { result ≤ length self.now.bytes }
    {
        self.offset
    }

    /// The pending columns: those of the last tab that have not been taken yet.
    pub fn remaining_space(&self) -> usize
        ensures pending { result ≡ self.now.pending }
        ensures within { result < 4 }
    {
        self.pending
    }

    /// The column of the offset modulo four.
    pub fn phase(&self) -> usize
        ensures phase { result ≡ self.now.phase }
        ensures within { result < 4 }
    {
        (self.column % 4) as usize
    }

    // The same offset again.
    fn copy(&self) -> LineStart<'a>
        ensures { result ≡ self.now }
    {
        LineStart {
            bytes: self.bytes,
            column: self.column,
            offset: self.offset,
            pending: self.pending,
            breaks: self.breaks,
        }
    }

    // The byte at the offset, if there is one.
    fn next_byte(&self) -> Option<u8>
        ensures byte { IfSome result (λ b.
            unscanned self.now ≡ b ∷ drop (self.now.offset + 1) self.now.bytes) }
        ensures inside { IfSome result (λ _. self.now.offset < length self.now.bytes) }
        ensures none { IfNone result (unscanned self.now ≡ []) }
        ensures phase { self.now.phase < 4 }
    {
        self.bytes.get(self.offset).copied()
    }

    // Whether a space or a tab stands at the offset.
    fn is_at_space(&self) -> bool
        ensures { result ≡ begins_with is_space_or_tab (unscanned self.now) }
    {
        matches!(self.next_byte(), Some(b' ' | b'\t'))
    }

    // Passes bytes as one column each.
    fn pass_bytes(&mut self, count: usize)
        requires { self.old.offset + count ≤ length self.old.bytes }
        ensures { self.new ≡ bytes_further count self.old }
    {
        self.offset += count;
        self.column += count as u128;
    }

    // Passes the byte at the offset as one column.
    fn pass_byte(&mut self)
        requires { self.old.offset < length self.old.bytes }
        ensures { self.new ≡ bytes_further 1 self.old }
    {
        self.offset += 1;
        self.column += 1;
    }

    /// Whether a line ending, or the end of the bytes, stands at the offset. Pending columns are
    /// looked past.
    pub fn is_at_eol(&self) -> bool
        ensures answer { IsTrue result ↔ (is_at_line_end (unscanned self.now) ≡ true) }
        ensures step { self.now.pending ≡ 0 →
            IsPlainStep LineCall.Eol (LineAnswer.Flag result) self.now self.now }
    {
        self.next_byte().is_none_or(is_line_ending)
    }

    /// Takes up to `n` columns, pending ones first, then those of spaces and tabs. Answers how many.
    ///
    /// It is inlined, so that where no space stands, as most often, it costs no call.
    #[inline(always)]
    pub fn scan_space_upto(&mut self, n: usize) -> usize
        ensures answer { result ≡ space_within n self.old }
        ensures state { self.new ≡ after_space n self.old }
        ensures bytes { self.new.bytes ≡ self.old.bytes }
        ensures forward { self.old.offset ≤ self.new.offset }
        ensures step { IsPlainStep (LineCall.Upto n) (LineAnswer.Count result) self.old self.new }
    {
        // Most often there is none.
        if self.pending == 0 && !self.is_at_space() {
            return 0;
        }
        let from_pending = n.min(self.pending);
        self.pending -= from_pending;
        let mut left = n - from_pending;
        // A run of spaces first: one comparison finds both ends, of the bytes and of the columns.
        let rest = &self.bytes[self.offset..];
        let spaces = scan_ch_repeat(&rest[..left.min(rest.len())], b' ');
        self.offset += spaces;
        self.column += spaces as u128;
        left -= spaces;
        while left > 0 && self.offset < self.bytes.len() {
            match self.bytes[self.offset] {
                b'\t' => {
                    let width = tab_width(self.column);
                    self.offset += 1;
                    self.column += width as u128;
                    if width > left {
                        self.pending = width - left;
                        return n;
                    }
                    left -= width;
                }
                b' ' => {
                    self.offset += 1;
                    self.column += 1;
                    left -= 1;
                }
                _ => break,
            }
        }
        n - left
    }

    /// Takes up to `n` columns of space as `scan_space_upto` does. Answers whether there were n.
    pub fn scan_space(&mut self, n: usize) -> bool
        ensures answer { IsTrue result ↔ (space_within n self.old ≡ n) }
        ensures state { self.new ≡ after_space n self.old }
        ensures bytes { self.new.bytes ≡ self.old.bytes }
        ensures forward { self.old.offset ≤ self.new.offset }
        ensures step { IsPlainStep (LineCall.Space n) (LineAnswer.Flag result) self.old self.new }
    {
        self.scan_space_upto(n) == n
    }

    // Takes one column of space, as `scan_space_upto(1)` does. Answers whether there was one.
    fn scan_column(&mut self) -> bool
        ensures answer { IsTrue result ↔ (space_within 1 self.old ≡ 1) }
        ensures state { self.new ≡ after_space 1 self.old }
        ensures forward { self.old.offset ≤ self.new.offset }
        ensures rest { rest_of self.new ≡ drop (space_within 1 self.old) (rest_of self.old) }
    {
        if self.pending > 0 {
            self.pending -= 1;
            return true;
        }
        if self.offset >= self.bytes.len() {
            return false;
        }
        match self.bytes[self.offset] {
            b' ' => {
                self.offset += 1;
                self.column += 1;
                true
            }
            b'\t' => {
                let width = tab_width(self.column);
                self.offset += 1;
                self.column += width as u128;
                self.pending = width - 1;
                true
            }
            _ => false,
        }
    }

    /// Drops the pending columns and passes all spaces and tabs at the offset.
    ///
    /// A tab is passed as one column here, so columns are not those of the line from then on.
    pub fn scan_all_space(&mut self)
        ensures state { self.new ≡ after_all_space self.old }
        ensures bytes { self.new.bytes ≡ self.old.bytes }
        ensures forward { self.old.offset ≤ self.new.offset }
    {
        self.pending = 0;
        let space = scan_spaces_and_tabs(&self.bytes[self.offset..]);
        self.pass_bytes(space);
    }

    /// Passes a block quote marker: `>` at the offset, and at most one column of space after it.
    /// Answers whether there was one. Pending columns are looked past, and one of them is that
    /// space. (CommonMark 0.31.2, section 5.1)
    pub fn scan_blockquote_marker(&mut self) -> bool
        ensures answer { IsTrue result ↔
            (begins_with (λ b. b == greater_than_sign) (unscanned self.old) ≡ true) }
        ensures state { self.new ≡ after_quote self.old }
        ensures bytes { self.new.bytes ≡ self.old.bytes }
        ensures forward { self.old.offset ≤ self.new.offset }
        ensures rises { IsTrue result → self.old.offset < self.new.offset }

        // With nothing pending the call is one on the line with its tabs written out.
        ensures step { self.old.pending ≡ 0 →
            IsPlainStep LineCall.Quote (LineAnswer.Flag result) self.old self.new }
    {
        if self.next_byte() != Some(b'>') {
            return false;
        }
        self.pass_byte();
        self.scan_column();
        true
    }

    /// Passes a task list item's box: up to three columns of space, `[`, white space or `x` or `X`,
    /// and `]`, where white space follows. Answers whether the box is checked.
    ///
    /// The byte between the brackets may be any white space that ends no line. The white space
    /// after the box is not taken. (GitHub Flavored Markdown 0.29, section 5.3)
    pub fn scan_task_list_marker(&mut self) -> Option<bool>
        ensures answer { result ≡ (task_outcome self.old).answer }
        ensures state { self.new ≡ (task_outcome self.old).state }
        ensures bytes { self.new.bytes ≡ self.old.bytes }
        ensures forward { self.old.offset ≤ self.new.offset }
        ensures rises { IfSome result (λ _. self.old.offset < self.new.offset) }
        ensures unchanged { IfNone result (self.new ≡ self.old) }
    {
        let before = self.copy();
        self.scan_space(3);
        let Some(checked) = task_box(&self.bytes[self.offset..]) else {
            *self = before;
            return None;
        };
        self.pass_bytes(3);
        Some(checked)
    }

    /// Passes an alert's line: `[!NOTE]`, or another of the five names, in any ASCII case, with the
    /// blank rest of the line and its ending.
    pub fn scan_blockquote_tag(&mut self) -> Option<BlockQuoteKind>
        ensures answer { result ≡ (alert_outcome self.old).answer }
        ensures state { self.new ≡ (alert_outcome self.old).state }
        ensures bytes { self.new.bytes ≡ self.old.bytes }
        ensures forward { self.old.offset ≤ self.new.offset }
        ensures rises { IfSome result (λ _. self.old.offset < self.new.offset) }
        ensures unchanged { IfNone result (self.new ≡ self.old) }
    {
        let (kind, length) = scan_alert(&self.bytes[self.offset..])?;
        self.pass_bytes(length);
        Some(kind)
    }
}

// Whether a task list item's box at the front is checked, if one stands there.
fn task_box(bytes: &[u8]) -> Option<bool>
    ensures answer { result ≡ task_box bytes.now }
    ensures inside { IfSome result (λ _. 3 ≤ length bytes.now) }
{
    match bytes {
        [b'[', mark, b']', after, ..] if is_ascii_whitespace(*after) => match *mark {
            b'x' | b'X' => Some(true),
            mark if is_ascii_whitespace_no_nl(mark) => Some(false),
            _ => None,
        },
        _ => None,
    }
}
