//! What is known of the thematic breaks in a line, so that its bytes are read once for them.
ghost use Rattle.std.specs.Prelude.{◌≡◌, ◌≤◌, ◌<◌, ◌+◌, ℕ, List, drop, length, true, false};
ghost use Rattle.markdown_scanners_tree.specs.line.KnownBreaks.{AreTrueBreaks, learnt_at};
ghost use Rattle.markdown_scanners_tree.specs.scanners.Breaks.{is_thematic_break};

use crate::scanners::scan_hrule;

/// What is known of the thematic breaks in the bytes of a line, from an offset on: at first nothing.
///
/// A bullet may begin a thematic break, as in `- - -`, and then no item. How far the bytes were
/// read to tell is kept here, so that a line of many bullets is read once. What is kept belongs to
/// one line, and to offsets that do not fall.
#[derive(Clone, Copy, Drop)]
pub struct KnownBreaks {
    /// No thematic break begins at an offset from that one up to this one.
    pub none_before: usize,
    /// A thematic break begins just before this offset; 0 where none is known.
    pub after_break: usize,
}

impl KnownBreaks {
    /// Nothing, which is true of all bytes.
    pub fn new() -> KnownBreaks
        ensures nothing { result ≡ record { none_before = 0; after_break = 0 } }
        ensures truth { (bytes : List ℕ) (offset : ℕ) → AreTrueBreaks bytes result offset }
    {
        KnownBreaks {
            none_before: 0,
            after_break: 0,
        }
    }

    /// Whether a thematic break begins at the offset of the bytes, where what is known is true of
    /// them from there on. The bytes that are read to tell are not read again.
    /// (CommonMark 0.31.2, section 4.1)
    pub fn begins_break(&mut self, bytes: &[u8], offset: usize) -> bool
        ensures answer { AreTrueBreaks bytes.now self.old offset
            → result ≡ is_thematic_break (drop offset bytes.now) }

        // What is known then is true from each later offset on.
        ensures truth { AreTrueBreaks bytes.now self.old offset
            → (later : ℕ) → offset ≤ later → AreTrueBreaks bytes.now self.new later }

        // Whatever is known: it is used, and what is read for the answer is learnt.
        ensures none_known { offset < self.old.none_before → result ≡ false }
        ensures one_known { self.old.none_before ≤ offset → offset < length bytes.now
            → self.old.after_break ≡ offset + 1 → result ≡ true }
        ensures learnt { self.new ≡ learnt_at bytes.now offset self.old }
    {
        if offset < self.none_before || offset >= bytes.len() {
            return false;
        }
        if self.after_break == offset + 1 {
            return true;
        }
        match scan_hrule(&bytes[offset..]) {
            Ok(_) => {
                self.after_break = offset + 1;
                true
            }
            Err(length) => {
                self.none_before = offset + length;
                false
            }
        }
    }
}
