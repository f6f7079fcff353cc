//! A text whose bytes are reached by counted calls alone.
ghost use Rattle.std.specs.Prelude.{◌≡◌, ◌<◌, ◌+◌, ◌^◌, ◌&&◌, length, slice_get};
ghost use Rattle.memchr.specs.Find.{FindsNeedle, occurs_at};
ghost use Rattle.markdown_scanners_tree.specs.inline_html.CountedText.{CountedBytes, passing, searched_bytes};
ghost use Rattle.markdown_scanners_tree.specs.inline_html.InlineHtml.{first_offset, opener_before};

use memchr::{memchr, memmem};
use std::marker::Model;

/// A text, and how many of its bytes were passed over. No call lends the bytes.
#[derive(Drop)]
pub struct CountedText<'a> {
    bytes: &'a [u8],
    passed: u128,
}

impl<'a> Model for CountedText<'a> {
    ghost Value = { CountedBytes };

    ghost view = { λ t. record { text = t.bytes.now; passed = t.passed } };
}

impl<'a> CountedText<'a> {
    /// The text of these bytes, of which none was passed over yet.
    pub fn new(bytes: &'a [u8]) -> CountedText<'a>
        ensures start { result ≡ record { text = bytes.now; passed = 0 } }
    {
        CountedText { bytes, passed: 0 }
    }

    /// How many bytes the text has.
    pub fn len(&self) -> usize
        ensures value { result ≡ length self.now.text }
    {
        self.bytes.len()
    }

    /// How many bytes the counted calls, `look`, `starts` and `find`, have passed over so far.
    pub fn passed(&self) -> u128
        ensures value { result ≡ self.now.passed }
    {
        self.passed
    }

    /// The mark, `!` or `?`, of the opener `<!` or `<?` that ends at `offset`; None where none does.
    /// Nothing is counted.
    pub fn opener_before(&self, offset: usize) -> Option<u8>
        ensures answer { result ≡ opener_before self.now.text offset }
        ensures fits_usize { length self.now.text < 2 ^ 64 }
    {
        if offset < 2 || offset > self.bytes.len() || self.bytes[offset - 2] != b'<' {
            return None;
        }
        match self.bytes[offset - 1] {
            b'!' => Some(b'!'),
            b'?' => Some(b'?'),
            _ => None,
        }
    }

    /// The byte at `offset`, or None at the end of the text and past it. It counts as one byte.
    pub fn look(&mut self, offset: usize) -> Option<u8>
        requires room { self.old.passed < 2 ^ 120 }
        ensures answer { result ≡ slice_get self.old.text offset }
        ensures counts { self.new ≡ passing self.old 1 }
        ensures fits_usize { length self.old.text < 2 ^ 64 }
    {
        self.passed += 1;
        self.bytes.get(offset).copied()
    }

    /// Whether `part` stands at `offset`. It counts as the length of `part`, whatever the answer.
    pub fn starts(&mut self, offset: usize, part: &[u8]) -> bool
        requires room { self.old.passed < 2 ^ 120 }
        ensures answer { result ≡ occurs_at self.old.text part.now offset }
        ensures counts { self.new ≡ passing self.old (length part.now) }
    {
        self.passed += part.len() as u128;
        offset <= self.bytes.len() && self.bytes[offset..].starts_with(part)
    }

    /// The first offset from `from` on at which `needle`, which isn't empty, stands; None where it
    /// stands at none. It counts the bytes from `from` to the end of that needle, or to the end of
    /// the text; past that end, none.
    pub fn find(&mut self, needle: &[u8], from: usize) -> Option<usize>
        requires some_needle { 0 < length needle.now }
        requires room { self.old.passed < 2 ^ 120 }
        ensures answer { result ≡ first_offset self.old.text needle.now from }
        ensures first { FindsNeedle self.old.text needle.now from result }
        ensures counts { self.new
            ≡ passing self.old (searched_bytes self.old.text needle.now from result) }
        ensures fits_usize { length self.old.text < 2 ^ 64 }
    {
        if from > self.bytes.len() {
            return None;
        }
        match find_needle(&self.bytes[from..], needle) {
            Some(offset) => {
                self.passed += (offset + needle.len()) as u128;
                Some(from + offset)
            }
            None => {
                self.passed += (self.bytes.len() - from) as u128;
                None
            }
        }
    }
}

// The first offset at which the needle, which isn't empty, stands. The first of its last bytes is
// tried alone: that is where a closer mostly ends, and a search for a substring takes longer. Not
// inlined, since a scan that its guard stops would pay for it too.
#[inline(never)]
fn find_needle(haystack: &[u8], needle: &[u8]) -> Option<usize>
    requires some_needle { 0 < length needle.now }
    ensures { FindsNeedle haystack.now needle.now 0 result }
{
    let before = needle.len() - 1;
    if haystack.len() <= before {
        return None;
    }
    let offset = memchr(needle[before], &haystack[before..])?;
    if haystack[offset..].starts_with(needle) {
        return Some(offset);
    }
    let after = offset + 1;
    match memmem::find(&haystack[after..], needle) {
        Some(found) => Some(after + found),
        None => None,
    }
}
