//! Markers of list items and of definitions, with the space that belongs to them.
ghost use Rattle.std.specs.Prelude.{ℕ, ◌≡◌, ◌+◌, ◌-◌, ◌≤◌, ◌<◌, length, take, drop, Some, None, IfSome, IfNone};
ghost use Rattle.markdown_scanners_tree.specs.line.KnownBreaks.{AreTrueBreaks, learnt_by_marker};
ghost use Rattle.markdown_scanners_tree.specs.line.Outcome.{further_spaces, item_outcome, item_outcome_by, definition_outcome, space_or_end_follows};
ghost use Rattle.markdown_scanners_tree.specs.line.PlainStep.{IsPlainStep, definition_spaces};
ghost use Rattle.markdown_scanners_tree.specs.line.State.{unscanned, rest_of, leading_spaces, space_within, after_space};
ghost use Rattle.markdown_scanners_tree.specs.scanners.list_items.ListItem.{IsListMarker};
ghost use Rattle.markdown_scanners_tree.specs.scanners.list_items.ListMarker.{list_marker};

use crate::line::{KnownBreaks, LineAnswer, LineCall, LineStart};
use crate::scanners::{scan_blank_line, scan_marker};

/// The largest indent, in columns, at which `scan_list_marker_with_indent`,
/// `scan_list_marker_with_breaks` and `scan_definition_list_definition_marker_with_indent` may be
/// called: that of the content, which they answer, is then a `usize`.
///
/// A parser compares an indent that it was given with it before it calls them.
pub const LARGEST_INDENT: usize = usize::MAX - 16;

impl LineStart<'_> {
    /// Passes a list item's marker and the space that belongs to it, at an indent in columns.
    /// Answers the bullet or the delimiter, the start number (0 for a bullet), and the indent of
    /// the item's content.
    ///
    /// One column of space, or a line ending, has to follow the marker. Of further space fewer
    /// than four columns are taken, unless the rest of the line is blank.
    /// (CommonMark 0.31.2, section 5.2)
    ///
    /// A parser that begins its items by this call asks it too, on a clone, whether one ends a
    /// paragraph: `scan_listitem` takes two kinds for items that this call does not, a thematic
    /// break such as `- - -`, and a marker before a blank rest that begins with a vertical tab or a
    /// form feed.
    ///
    /// `indent` is at most `LARGEST_INDENT`, so that the columns of the marker can be added.
    pub fn scan_list_marker_with_indent(&mut self, indent: usize) -> Option<(u8, u64, usize)>
        requires { indent ≤ usize.MAX - 16 }

        ensures answer { result ≡ (item_outcome indent self.old).answer }
        ensures width { IfSome result (λ r. r.2 ≤ indent + 14) }

        // The offset after the call; it stays where no item's marker stands.
        ensures state { self.new ≡ (item_outcome indent self.old).state }
        ensures bytes { self.new.bytes ≡ self.old.bytes }
        ensures forward { self.old.offset ≤ self.new.offset }
        ensures rises { IfSome result (λ _. self.old.offset < self.new.offset) }
        ensures unchanged { IfNone result (self.new ≡ self.old) }

        // With nothing pending the call is one on the line with its tabs written out.
        ensures step { self.old.pending ≡ 0 →
            IsPlainStep (LineCall.List indent) (LineAnswer.List result) self.old self.new }
    {
        let (width, delimiter, start) = self.list_marker()?;
        self.pass_list_marker(indent, width, delimiter, start)
    }

    /// As `scan_list_marker_with_indent`, where the caller keeps what is known of the thematic
    /// breaks in the line: nothing at first, and then what a call leaves is given to the next one.
    /// So the bytes are read once for them, although `resumed` makes a `LineStart` for each call.
    ///
    /// `indent` is at most `LARGEST_INDENT`, so that the columns of the marker can be added.
    pub fn scan_list_marker_with_breaks(
        &mut self,
        indent: usize,
        breaks: &mut KnownBreaks,
    ) -> Option<(u8, u64, usize)>
        requires { indent ≤ usize.MAX - 16 }

        // Where what is known is true of the line from the offset on.
        ensures answer { AreTrueBreaks self.old.bytes breaks.old self.old.offset
            → result ≡ (item_outcome indent self.old).answer }
        ensures state { AreTrueBreaks self.old.bytes breaks.old self.old.offset
            → self.new ≡ (item_outcome indent self.old).state }
        ensures truth { AreTrueBreaks self.old.bytes breaks.old self.old.offset
            → AreTrueBreaks self.new.bytes breaks.new self.new.offset }

        // With nothing pending the call is then one on the line with its tabs written out.
        ensures step { AreTrueBreaks self.old.bytes breaks.old self.old.offset
            → self.old.pending ≡ 0
            → IsPlainStep (LineCall.List indent) (LineAnswer.List result) self.old self.new }

        // Whatever is known: what is read to tell it is learnt.
        ensures learnt { breaks.new
            ≡ learnt_by_marker self.old.bytes self.old.offset breaks.old }
        ensures width { IfSome result (λ r. r.2 ≤ indent + 14) }
        ensures bytes { self.new.bytes ≡ self.old.bytes }
        ensures forward { self.old.offset ≤ self.new.offset }
        ensures rises { IfSome result (λ _. self.old.offset < self.new.offset) }
        ensures unchanged { IfNone result (self.new ≡ self.old) }
    {
        let (width, delimiter, start) = marker_at(self.bytes, self.offset, breaks)?;
        self.pass_list_marker(indent, width, delimiter, start)
    }

    /// Passes a definition's marker, `:` and the space that belongs to it, at an indent in columns.
    /// Answers the indent of the definition's content.
    ///
    /// Up to four columns of space are taken, and one alone where there are more. `indent` is at
    /// most `LARGEST_INDENT`, so that the columns of the marker can be added.
    pub fn scan_definition_list_definition_marker_with_indent(
        &mut self,
        indent: usize,
    ) -> Option<usize>
        requires { indent ≤ usize.MAX - 16 }

        ensures answer { result ≡ (definition_outcome indent self.old).answer }
        ensures width { IfSome result (λ width. width ≤ indent + 5) }

        // The offset after the call; it stays where no definition's marker stands.
        ensures state { self.new ≡ (definition_outcome indent self.old).state }
        ensures bytes { self.new.bytes ≡ self.old.bytes }
        ensures forward { self.old.offset ≤ self.new.offset }
        ensures rises { IfSome result (λ _. self.old.offset < self.new.offset) }
        ensures unchanged { IfNone result (self.new ≡ self.old) }

        // With nothing pending the call is one on the line with its tabs written out.
        ensures step { self.old.pending ≡ 0 →
            IsPlainStep (LineCall.Definition indent) (LineAnswer.Definition result)
            self.old self.new }
    {
        if self.next_byte() != Some(b':') {
            return None;
        }
        self.pass_byte();
        let columns = self.scan_definition_space();
        Some(indent + 1 + columns)
    }

    // The list marker at the offset, if one stands there: its width, its bullet or delimiter, and
    // its start number.
    fn list_marker(&mut self) -> Option<(usize, u8, u64)>
        ensures found { IfSome result (λ r. list_marker (unscanned self.old)
            ≡ Some (record { width = r.0; delimiter = r.1; start = r.2 })) }
        ensures marker { IfSome result (λ r. IsListMarker (take r.0 (unscanned self.old)) r.1 r.2) }
        ensures inside { IfSome result (λ r. self.old.offset + r.0 ≤ length self.old.bytes) }
        ensures width { IfSome result (λ r. r.0 ≤ 10) }
        ensures filled { IfSome result (λ r. 0 < r.0) }
        ensures none { IfNone result (list_marker (unscanned self.old) ≡ None) }

        // Nothing that is seen of the offset changes.
        ensures state { self.new ≡ self.old }
        ensures phase { self.old.phase < 4 }
    {
        marker_at(self.bytes, self.offset, &mut self.breaks)
    }

    // Passes this list marker, which stands at the offset, and the space that belongs to it, as
    // `scan_list_marker_with_indent` does. It is inlined, so that it costs no call.
    #[inline(always)]
    fn pass_list_marker(
        &mut self,
        indent: usize,
        width: usize,
        delimiter: u8,
        start: u64,
    ) -> Option<(u8, u64, usize)>
        requires indent { indent ≤ usize.MAX - 16 }
        requires short { width ≤ 10 }
        requires filled { 0 < width }
        requires inside { self.old.offset + width ≤ length self.old.bytes }

        ensures answer { result ≡ (item_outcome_by indent self.old
            (Some (record { width = width; delimiter = delimiter; start = start }))).answer }
        ensures state { self.new ≡ (item_outcome_by indent self.old
            (Some (record { width = width; delimiter = delimiter; start = start }))).state }
        ensures content { IfSome result (λ r. r.2 ≤ indent + 14) }
        ensures bytes { self.new.bytes ≡ self.old.bytes }
        ensures forward { self.old.offset ≤ self.new.offset }
        ensures rises { IfSome result (λ _. self.old.offset < self.new.offset) }
        ensures unchanged { IfNone result (self.new ≡ self.old) }
        ensures step { self.old.pending ≡ 0 → self.old.phase < 4
            → list_marker (unscanned self.old)
            ≡ Some (record { width = width; delimiter = delimiter; start = start })
            → IsListMarker (take width (unscanned self.old)) delimiter start
            → IsPlainStep (LineCall.List indent) (LineAnswer.List result) self.old self.new }
    {
        let before = self.copy();
        self.pass_bytes(width);
        if !self.scan_space_or_end() {
            *self = before;
            return None;
        }
        let further = self.scan_marker_space();
        Some((delimiter, start, indent + width + 1 + further))
    }

    // Takes one column of space. Answers whether there was one, or else the line ends at the offset.
    fn scan_space_or_end(&mut self) -> bool
        ensures answer { result ≡ space_or_end_follows self.old }
        ensures state { self.new ≡ after_space 1 self.old }
        ensures forward { self.old.offset ≤ self.new.offset }
        ensures rest { rest_of self.new ≡ drop (space_within 1 self.old) (rest_of self.old) }
    {
        self.scan_column() || self.is_at_eol()
    }

    // The space that belongs to a definition's marker: one column where five or more stand, else
    // all.
    fn scan_definition_space(&mut self) -> usize
        ensures columns { result ≡ definition_spaces (leading_spaces (rest_of self.old)) }
        ensures state { self.new ≡ after_space result self.old }
        ensures forward { self.old.offset ≤ self.new.offset }
        ensures rest { rest_of self.new ≡ drop result (rest_of self.old) }
    {
        let before = self.copy();
        let columns = self.scan_space_upto(5);
        if columns < 5 {
            return columns;
        }
        *self = before;
        self.scan_space_upto(1);
        1
    }

    // The further space that belongs to a list marker whose one column has been taken: none on a
    // blank line, none where four columns or more stand, else all.
    fn scan_marker_space(&mut self) -> usize
        ensures columns { result ≡ further_spaces self.old }
        ensures state { self.new ≡ after_space result self.old }
        ensures forward { self.old.offset ≤ self.new.offset }
        ensures rest { rest_of self.new ≡ drop result (rest_of self.old) }
    {
        let rest = &self.bytes[self.offset..];
        let before = self.copy();
        let columns = self.scan_space_upto(4);
        if columns == 0 {
            return 0;
        }
        if columns == 4 || scan_blank_line(rest).is_some() {
            *self = before;
            return 0;
        }
        columns
    }
}

// The list marker at an offset of the line, if one stands there: its width, its bullet or delimiter,
// and its start number. A bullet that begins a thematic break is none.
fn marker_at(bytes: &[u8], offset: usize, breaks: &mut KnownBreaks) -> Option<(usize, u8, u64)>
    requires { offset ≤ length bytes.now }

    // Where what is known is true of the line from the offset on.
    ensures found { AreTrueBreaks bytes.now breaks.old offset
        → IfSome result (λ r. list_marker (drop offset bytes.now)
        ≡ Some (record { width = r.0; delimiter = r.1; start = r.2 })) }
    ensures none { AreTrueBreaks bytes.now breaks.old offset
        → IfNone result (list_marker (drop offset bytes.now) ≡ None) }
    ensures truth { AreTrueBreaks bytes.now breaks.old offset
        → (later : ℕ) → offset ≤ later → AreTrueBreaks bytes.now breaks.new later }

    // Whatever is known: what is read to tell it is learnt.
    ensures learnt { breaks.new ≡ learnt_by_marker bytes.now offset breaks.old }
    ensures marker { IfSome result (λ r. IsListMarker (take r.0 (drop offset bytes.now)) r.1 r.2) }
    ensures inside { IfSome result (λ r. offset + r.0 ≤ length bytes.now) }
    ensures width { IfSome result (λ r. r.0 ≤ 10) }
    ensures filled { IfSome result (λ r. 0 < r.0) }
{
    let (width, delimiter, start) = scan_marker(&bytes[offset..])?;
    // A bullet alone is one byte wide.
    if width == 1 && breaks.begins_break(bytes, offset) {
        return None;
    }
    Some((width, delimiter, start as u64))
}
